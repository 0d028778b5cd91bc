//! One order of the points of many lists, which keeps each list's own order and that of each group of points. If
//! there is none: a front at which no list goes on.
#![tactic(auto)]

mod joining;
pub mod laws;
mod point;

pub use joining::{Joined, join};
pub use point::ListPoint;
