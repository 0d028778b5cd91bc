//! The service that answers packets of peers and commands of operators over HTTP, and the doors of its host and of the operators.
//!
//! - `connection`: what a connection is: how many may come, how long each may do what, and when it gives way to
//!   others.
//! - `worker`: what one worker does on its thread: it serves connections, carries packets and obeys commands.
//! - `link`: the way out to the next peers.
//! - `breakers`: which next peers rest, since they gave no answer.
//! - `filing`: the statements of closed periods: where they are kept, and which could not be written.
//! - `host`: the host's door: who waits there, and the answers that the host gets.
//! - `operators`: the operators' door: what an operator may ask about its tenant, its commands, and the answers.
//! - `running`: how a service begins, runs and ends.
//! - `office`: what all of them share.
//! - `system`: what all of them run on.
#![tactic(auto)]

mod breakers;
mod connection;
mod filing;
mod host;
mod link;
mod office;
mod operators;
mod running;
mod system;
mod worker;

pub use filing::disk::Disk;
pub use filing::folder::Folder;
pub use filing::{StatementStore, file};
pub use host::hosting::HostDoor;
pub use operators::answering::OperatorDoor;
pub use running::auditing::{audit_told, good_line, word_of};
pub use running::ending::ServeFault;
pub use running::files::{can_open, files_of};
pub use running::opening::Start;
pub use running::plan::{Extent, Plan, Report};
pub use running::serving::{Doors, serve};
pub use worker::answering::without_line_feed;
