//! Receipts, as they are written.

ghost use Rattle.std.specs.Prelude.{◌≡◌, ◌++◌, IfOk, OnOk, map};
ghost use Rattle.std.specs.List.{flat_map};
ghost use Rattle.receipt_text.specs.ReceiptText.{receipt_line, receipts_text, receipts_version_line, worker_line, worker_text};

use receipts::Receipt;
use statements::{put_decimal, put_number, put_record, view_of};
use std::alloc::{AllocError, Global};
use tenant_core::RecordView;

#[tactic(auto, unfolding(crate::specs::ReceiptText::receipt_line))]
fn put_receipt(out: &mut Vec<u8>, receipt: &Receipt) -> Result<(), AllocError>
    ensures { OnOk result (out.new.items ≡ out.old.items ++ receipt_line receipt.now) }
{
    let record = RecordView {
        entry: view_of(&receipt.entry),
        outcome: receipt.verdict,
    };
    put_decimal(out, receipt.tenant as u64)?;
    put_number(out, receipt.period)?;
    put_number(out, receipt.number)?;
    out.push(b' ')?;
    put_record(out, &record)
}

fn put_list(out: &mut Vec<u8>, list: &[Receipt]) -> Result<(), AllocError>
    ensures { OnOk result (out.new.items ≡ out.old.items ++ flat_map receipt_line list.now) }
{
    for receipt in list {
        put_receipt(out, receipt)?;
    }
    Ok(())
}

#[tactic(auto, unfolding(crate::specs::ReceiptText::worker_line))]
fn put_worker_line(out: &mut Vec<u8>, list: &[Receipt]) -> Result<(), AllocError>
    ensures { OnOk result (out.new.items ≡ out.old.items ++ worker_line list.now) }
{
    out.extend_from_slice(b"worker")?;
    put_number(out, list.len() as u64)?;
    Ok(out.push(b'\n')?)
}

#[tactic(auto, unfolding(crate::specs::ReceiptText::worker_text))]
fn put_worker(out: &mut Vec<u8>, list: &[Receipt]) -> Result<(), AllocError>
    ensures { OnOk result (out.new.items ≡ out.old.items ++ worker_text list.now) }
{
    put_worker_line(out, list)?;
    put_list(out, list)
}

fn put_workers(out: &mut Vec<u8>, lists: &[&[Receipt]]) -> Result<(), AllocError>
    ensures { OnOk result (out.new.items ≡ out.old.items ++ flat_map worker_text (map (λ list. list.now) lists.now)) }
{
    for list in lists {
        put_worker(out, list)?;
    }
    Ok(())
}

#[tactic(auto, unfolding(crate::specs::ReceiptText::receipts_version_line))]
fn put_version(out: &mut Vec<u8>) -> Result<(), AllocError>
    ensures { OnOk result (out.new.items ≡ out.old.items ++ receipts_version_line) }
{
    out.extend_from_slice(b"receipts 1\n")
}

/// The text of the receipts of all workers, a list for each: a line for each worker, and after it one for each of its
/// receipts. It has no tokens and targets of peers. Fails only if it is out of memory.
#[tactic(auto, unfolding(crate::specs::ReceiptText::receipts_text))]
pub fn write_receipts(alloc: Global, lists: &[&[Receipt]]) -> Result<Vec<u8>, AllocError>
    ensures { IfOk result (λ text. text.items ≡ receipts_text (map (λ list. list.now) lists.now)) }
{
    let mut out = Vec::new(alloc);
    put_version(&mut out)?;
    put_workers(&mut out, lists)?;
    Ok(out)
}
