//! Places that are lent to tenants, each of which is sure of its share of them, and who waits for one.
#![tactic(auto)]

mod allotted;
pub mod laws;
mod lending;

pub use allotted::{Allotment, MAX_PLACES};
pub use lending::{Admission, Lending};
