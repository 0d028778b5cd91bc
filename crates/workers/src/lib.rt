//! What a worker does: it carries packets and governs tenants by books that it shares with others, over a given link,
//! gate and clock. And many workers at once, on threads.
#![tactic(auto)]

mod backlog;
mod carrying;
mod governing;
mod keeping;
mod lanes;
mod places;
mod reply;
mod rolling;
mod tools;
mod traits;
mod until;

pub use backlog::{Backlog, BacklogRoom, BeingWritten};
pub use carrying::{Job, carry};
pub use governing::{GovernFault, govern};
pub use keeping::{Durable, JournalPlace, Keeping, NotKept, NothingKept, place_after};
pub use lanes::{Lane, StartFault, run_workers};
pub use places::{Place, PlaceUse, Places};
pub use reply::{Reply, Status};
pub use rolling::{is_ripe, roll_if_ripe};
pub use tools::Tools;
pub use traits::{Clock, Gate, Link, Outgoing, Point};
pub use until::left_until;
