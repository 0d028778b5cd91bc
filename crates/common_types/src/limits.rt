//! Limits that hold in several crates.

/// The most tenants of a process.
pub const MAX_TENANTS: usize = 64;

/// The most bytes of a frame.
pub const MAX_FRAME: usize = 34_000;
