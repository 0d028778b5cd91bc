//! What can be wrong with receipts and periods.

use std::alloc::AllocError;
use thiserror::Error;

/// Why an audit does not say yes.
#[derive(Debug, Drop, Error)]
pub enum AuditFault {
    /// A receipt names no entry of the periods.
    #[error("a receipt names no entry of the periods")]
    NoPeriod,
    /// A tenant's periods don't begin at 0, or one occurs twice, or one does not open the state in which the one
    /// before ended.
    #[error("the periods of a tenant do not join")]
    Gap,
    /// Two receipts name one entry.
    #[error("two receipts name one entry")]
    Twice,
    /// No receipt names an entry of the periods.
    #[error("an entry has no receipt")]
    Missing,
    /// A receipt shows another entry, or another verdict, than the journal has at its place.
    #[error("a receipt shows another entry or another verdict")]
    Differs,
    /// No order of all receipts keeps both the tenants' journals and the lists. At this front, so many receipts of each list,
    /// no list goes on.
    #[error("no order of the receipts keeps all journals and all lists")]
    Order(Vec<usize>),
    /// Out of memory.
    #[error("out of memory")]
    Memory,
}

impl From<AllocError> for AuditFault {
    ghost use Rattle.std.specs.Prelude.{◌≡◌};
    ghost use Rattle.receipts.specs.declared.fault.AuditFault.TheVariants.{Memory};

    ghost from_gives = { λ error told. told ≡ Memory };

    fn from(_error: AllocError) -> AuditFault {
        AuditFault::Memory
    }
}
