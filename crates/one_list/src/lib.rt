//! One list of all that happened in the books of many tenants, whichever thread did it. Only the proofs know it: at
//! run time a step allocates nothing, and nothing of the list is kept.
//!
//! Each tenant and each worker has a part of the list. A step is added through a tenant's part and a worker's part at
//! once, in the order in which the parts are passed around. What a part has at the end is what the one list has of it.
#![tactic(auto)]

mod chronicle;
mod gathering;
pub mod laws;
mod opened;
mod parts;
mod rule;
mod run;
mod step;

pub use chronicle::{Chronicle, Unclaimed};
pub use gathering::Gathering;
pub use opened::Opened;
pub use parts::{TenantPart, Watcher, WorkerPart};
pub use run::Run;
pub use step::{Beginning, Done, Size};
