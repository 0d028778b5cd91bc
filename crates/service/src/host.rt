//! The host's door: who waits there, and the answers that the host gets.

pub mod asking;
pub mod callers;
pub mod hosting;
pub mod letters;
pub mod metrics;
pub mod presence;
