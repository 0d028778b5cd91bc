//! The limits of tenants.

/// The most tenants.
pub use common_types::limits::MAX_TENANTS;

/// The greatest cap, ceiling and credit, and the greatest balance on either side of 0, in a peer's units.
pub use money_core::MAX_MONEY;

/// The most peers of a tenant.
pub const MAX_PEERS: usize = 256;

/// The most rates of a tenant.
pub const MAX_RATES: usize = 4_096;

/// The most places of a journal.
pub const MAX_JOURNAL: u64 = 16_384;

/// The most packets that a tenant holds at once.
pub const MAX_HOLDS: u64 = 1_024;

/// The most milliseconds by which an expiry is moved earlier.
pub const MAX_MARGIN: u64 = 60_000;

/// The most milliseconds for which a packet may be held.
pub const MAX_HOLD: u64 = 600_000;

/// The most packets that a full bucket admits at once.
pub const MAX_BURST: u64 = 1_000_000;

/// The most packets that flow into a bucket in a second.
pub const MAX_PER_SECOND: u64 = 1_000_000;

/// The greatest number of a period.
pub const MAX_PERIOD: u64 = 4_294_967_295;

/// The most peers that a tenant ever has: numbers are never used again.
pub const MAX_PEER_NUMBERS: u16 = 65_535;
