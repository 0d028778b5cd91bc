//! Receipts that are audited from a text.

ghost use Rattle.std.specs.Prelude.{◌≡◌, IfErr, IfOk, map};
ghost use Rattle.receipt_text.specs.Audited.{IsAuditedText, IsTextFault};

use crate::fault::{ReceiptsFault, TextFault};
use crate::reading::lists_in;
use crate::written::write_receipts;
use common_types::ReadError;
use receipts::{AuditFault, Audited, Receipt, audit};
use statements::first_difference;
use std::alloc::Global;
use tenant_core::Period;

// Audits receipts that should have this text.
fn audited(
    alloc: Global,
    periods: &[Period],
    lists: &[&[Receipt]],
    text: &[u8],
) -> Result<Audited, ReceiptsFault>
    ensures audited { IfOk result (IsAuditedText periods.now text.now) }
    ensures fault { IfErr result (IsTextFault periods.now text.now) }
{
    let written = write_receipts(alloc, lists)?;
    if written.as_slice() != text {
        let line = first_difference(text, written.as_slice());
        return Err(ReceiptsFault::Text(TextFault::Differs(line)));
    }
    match audit(alloc, periods, lists) {
        Ok(audited) => Ok(audited),
        Err(fault) => Err(ReceiptsFault::Audit(fault)),
    }
}

/// Audits the receipts in a text against closed periods. `Ok` says that there are lists of receipts that have exactly
/// this text, and that `receipts::audit` says yes to them.
///
/// Neither the writer of the text nor the one who kept the receipts is trusted. No text has a peer's token or target:
/// a receipt of an added peer gets those of the period's own record. `Audit` means that its fault is there in the
/// receipts of the text, or that it is out of memory.
pub fn check_receipts(
    alloc: Global,
    periods: &[Period],
    text: &[u8],
) -> Result<Audited, ReceiptsFault>
    ensures audited { IfOk result (IsAuditedText periods.now text.now) }
    ensures fault { IfErr result (IsTextFault periods.now text.now) }
{
    let lists = match lists_in(alloc, periods, text) {
        Ok(lists) => lists,
        Err(ReadError::Memory) => return Err(ReceiptsFault::Audit(AuditFault::Memory)),
        Err(ReadError::Fault(fault)) => return Err(ReceiptsFault::Text(fault)),
    };
    let mut shown: Vec<&[Receipt]> = Vec::new(alloc);
    for list in &lists {
        shown.push(list.as_slice())?;
    }
    audited(alloc, periods, shown.as_slice(), text)
}
