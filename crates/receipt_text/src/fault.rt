//! What can be wrong with a text of receipts, and with the receipts in it.

use receipts::AuditFault;
use std::alloc::{AllocError, AllocFailed};
use thiserror::Error;

/// Why a text is no text of receipts. Lines are counted from 1.
#[derive(Clone, Copy, Debug, PartialEq, Eq, Error)]
pub enum TextFault {
    /// That line is neither a receipt nor a worker.
    #[error("line {0} tells no receipt and no worker")]
    Line(usize),
    /// From that line on, the text is not word for word that of the receipts in it.
    #[error("line {0} is not as receipts are written")]
    Differs(usize),
}

/// Why an audit of a text does not say yes.
#[derive(Debug, Drop, Error)]
pub enum ReceiptsFault {
    /// It is no text of receipts.
    #[error("{0}")]
    Text(TextFault),
    /// The fault that the audit of its receipts found, or out of memory.
    #[error("{0}")]
    Audit(AuditFault),
}

impl From<AllocError> for ReceiptsFault {
    ghost use Rattle.std.specs.Prelude.{◌≡◌};
    ghost use Rattle.receipts.specs.declared.fault.AuditFault.TheVariants.{Memory};
    ghost use Rattle.receipt_text.specs.declared.fault.ReceiptsFault.TheVariants.{Audit};

    ghost from_gives = { λ error told. told ≡ Audit Memory };

    fn from(_error: AllocError) -> ReceiptsFault {
        ReceiptsFault::Audit(AuditFault::Memory)
    }
}

impl<T: Drop> From<AllocFailed<T>> for ReceiptsFault {
    ghost use Rattle.std.specs.Prelude.{◌≡◌};
    ghost use Rattle.receipts.specs.declared.fault.AuditFault.TheVariants.{Memory};
    ghost use Rattle.receipt_text.specs.declared.fault.ReceiptsFault.TheVariants.{Audit};

    ghost from_gives = { λ error told. told ≡ Audit Memory };

    fn from(_error: AllocFailed<T>) -> ReceiptsFault {
        ReceiptsFault::Audit(AuditFault::Memory)
    }
}
