//! Steps of workers for tenants, and the output of each.
#![tactic(auto)]

mod floor;
pub mod laws;
mod octets;
mod parts;
mod replies;
mod rewriting;
mod room;
mod slot;
mod step;

pub use floor::{Floor, MAX_SEATS, RunFault};
pub use octets::Octets;
pub use parts::{Got, LoadFault, Turn};
pub use slot::Slot;
pub use step::{Malformed, Output, PeerAnswer, Step, StepOutput};
