//! The books of all tenants, each behind a lock of its own, and what each worker counts.
#![tactic(auto)]

mod books;
mod gather;
mod guard;
mod kept;
pub mod laws;
mod outcomes;
mod peer_outcomes;
mod rise;
mod share;

pub use books::{Books, MAX_WORKERS, are_numbered};
pub use gather::GatherFault;
pub use guard::Guard;
pub use outcomes::{PacketCounts, PacketOutcome};
pub use peer_outcomes::PeerPackets;
pub use receipts::{AuditFault, Audited, Receipt, audit};
pub use share::{RoomFault, Share};
