//! Why answers, ticks and commands are refused.

use std::alloc::{AllocError, AllocFailed};
use thiserror::Error;

/// Why an answer is refused. Nothing has changed then.
#[derive(Clone, Copy, Debug, PartialEq, Eq, Error)]
pub enum HoldFault {
    /// No packet of that number awaits an answer.
    #[error("no packet of that number awaits an answer")]
    NoSuchHold,
}

/// Why a book takes no further entry. Nothing has changed then.
#[derive(Clone, Copy, Debug, PartialEq, Eq, Error)]
pub enum BookFault {
    /// The journal only has room for the answers of packets that await them.
    #[error("the journal is full")]
    Full,
}

/// Why a command is refused. Nothing has changed then.
///
/// Every command but `balances` and `roll` tests `Full` first. `Memory` comes last. Between them each command has an
/// order of its own:
///
/// - to add a peer: `Present`, `Limit`; to remove a peer: `Absent`, `InUse`; to set its limits or its bucket:
///   `Absent`;
/// - to add a route: `Absent` (its peer), `Present` (its prefix), `Limit`; to remove a route: `Absent`;
/// - to set a rate: `Absent`, `Limit`; a settlement: `Absent`, `Limit`;
/// - a roll: `InUse`, `Limit`.
#[derive(Clone, Copy, Debug, PartialEq, Eq, Error)]
pub enum CommandFault {
    /// The journal only has room for the answers of packets that await them.
    #[error("the journal is full")]
    Full,
    /// A packet awaits its answer; or a route, a packet that awaits its answer or a balance names the peer.
    #[error("it is in use")]
    InUse,
    /// It is there already.
    #[error("it is there already")]
    Present,
    /// It is not there.
    #[error("it is not there")]
    Absent,
    /// There would be too many, or too much.
    #[error("it would exceed a limit")]
    Limit,
    /// Out of memory.
    #[error("out of memory")]
    Memory,
}

impl From<AllocError> for CommandFault {
    ghost use Rattle.std.specs.Prelude.{◌≡◌};
    ghost use Rattle.tenant_core.specs.declared.faults.CommandFault.TheVariants.{Memory};

    ghost from_gives = { λ _ e. e ≡ Memory };

    fn from(_e: AllocError) -> CommandFault {
        CommandFault::Memory
    }
}

impl<T: Drop> From<AllocFailed<T>> for CommandFault {
    ghost use Rattle.std.specs.Prelude.{◌≡◌};
    ghost use Rattle.tenant_core.specs.declared.faults.CommandFault.TheVariants.{Memory};

    ghost from_gives = { λ _ e. e ≡ Memory };

    fn from(_e: AllocFailed<T>) -> CommandFault {
        CommandFault::Memory
    }
}

/// Why a period cannot begin with an opening, in the order of the tests. Each names the rule that is broken.
#[derive(Clone, Copy, Debug, PartialEq, Eq, Error)]
pub enum OpeningFault {
    /// The tenant's place is below 64.
    #[error("the tenant's place")]
    Tenant,
    /// A journal has 2 to 16,384 places.
    #[error("the journal's places")]
    Journal,
    /// A margin is 60,000 milliseconds at most.
    #[error("the margin")]
    Margin,
    /// A packet is held for 1 to 600,000 milliseconds at most.
    #[error("the hold")]
    Hold,
    /// The number of the period is below 2^32.
    #[error("the period")]
    Period,
    /// The clock is a moment.
    #[error("the clock")]
    Clock,
    /// No period before had more packets that were held than a journal has places.
    #[error("the number of the next hold")]
    Number,
    /// What a bucket holds was taken as the period began, and it has room for that.
    #[error("a bucket")]
    Bucket,
}
