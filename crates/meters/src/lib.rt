//! Meters: what a connector answered, counted for each tenant and each kind. No thread waits for another to count.
//!
//! Each thread counts through its own seat. Each count is one word that all threads add to in single atomic steps.
//! So a word is the sum of what the seats have counted. Once the first seat has joined all others, its counts are
//! the totals.
#![tactic(auto)]

mod kind;
pub mod laws;
mod meters;
mod rule;
mod totals;

pub use kind::Kind;
pub use meters::{MeterSeat, Meters, Spent};
pub use totals::Totals;
