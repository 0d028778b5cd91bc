//! Holds: packets that went on.

ghost use Rattle.std.specs.Prelude.{◌≡◌, ◌≤◌, length, IfOk, vec_capacity};
ghost use Rattle.tenant_core.specs.Holds.{begun_by, is_open, is_overdue, holds_amounts};
ghost use Rattle.tenant_core.specs.Views.{decide_of};

use crate::record_view::DecideView;
use crate::verdict::Verdict;
use route_table::PeerNo;
use std::alloc::{AllocError, Global};

/// The fate of a packet that went on.
#[derive(Clone, Copy, Debug, PartialEq, Eq)]
pub enum Fate {
    /// Its amounts are held until its answer.
    Held,
    /// It is overdue: its amounts are released, and its answer may still come.
    Marked,
    /// It was answered: its amounts are released, or taken if it was fulfilled.
    Ended { fulfilled: bool },
}

/// A packet that went on.
#[derive(Clone, Copy)]
pub struct Hold {
    /// Holds are numbered over all periods.
    pub number: u64,
    pub from: PeerNo,
    pub to: PeerNo,
    /// In the sender's units.
    pub amount: u64,
    /// In the receiver's units.
    pub price: u64,
    /// When it expires at the receiver, in milliseconds since 1970-01-01.
    pub expiry: u64,
    pub condition: [u8; 32],
    pub fate: Fate,
}

/// A copy of the holds, with room for so many. Fails only if it is out of memory.
pub fn copied_holds(alloc: Global, holds: &[Hold], room: usize) -> Result<Vec<Hold>, AllocError>
    requires { length holds.now ≤ room }
    ensures items { IfOk result (λ copy. copy.items ≡ holds.now) }
    ensures room { IfOk result (λ copy. room ≤ vec_capacity copy) }
{
    let mut copy = Vec::with_capacity(alloc, room)?;
    for hold in holds {
        copy.push_reserved(*hold);
    }
    Ok(copy)
}

/// The hold that a Prepare begins, if it goes on.
pub fn begun_by(decide: DecideView<'_>, verdict: Verdict) -> Option<Hold>
    ensures { result ≡ begun_by (decide_of decide.entry) verdict }
{
    match verdict {
        Verdict::Forward {
            hold,
            peer,
            amount,
            expiry,
        } => Some(Hold {
            number: hold,
            from: decide.peer,
            to: peer,
            amount: decide.amount,
            price: amount,
            expiry,
            condition: *decide.condition,
            fate: Fate::Held,
        }),
        _ => None,
    }
}

/// Whether it awaits its answer.
pub fn is_open(hold: &Hold) -> bool
    ensures { result ≡ is_open hold.now }
{
    match hold.fate {
        Fate::Held | Fate::Marked => true,
        Fate::Ended { .. } => false,
    }
}

/// Whether its amounts are held, and it expired by that clock.
pub fn is_overdue(hold: &Hold, clock: u64) -> bool
    ensures { result ≡ is_overdue clock hold.now }
{
    matches!(hold.fate, Fate::Held) && hold.expiry <= clock
}

/// Whether its amounts are held.
pub fn holds_amounts(hold: &Hold) -> bool
    ensures { result ≡ holds_amounts hold.now.fate }
{
    matches!(hold.fate, Fate::Held)
}
