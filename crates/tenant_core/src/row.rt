//! What a peer owes, and what is held.

use common_types::Name;

/// A peer's money, in its units.
#[derive(Drop)]
pub struct Row {
    pub name: Name,
    /// What the peer owes, below 0 if it is owed.
    pub balance: i64,
    /// What packets from it hold until their answers.
    pub held_in: u64,
    /// What packets for it hold until their answers.
    pub held_out: u64,
}
