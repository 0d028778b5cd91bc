//! Breakers: a peer that gives no answer, again and again, is left alone for a while.
#![tactic(auto)]

mod breaker;
pub mod laws;
mod table;

pub use breaker::{
    Breaker, FIRST_REST, LEAST_TIME, LONGEST_REST, MARGIN, MISSES, Outcome, Pass, TRIAL,
};
pub use table::{MAX_KNOWN, PeerTable};
