//! Receipts, one after another, beside the entries that they name.

ghost use Rattle.std.specs.Prelude.{◌≡◌, ◌<◌, ◌+◌, ℕ, List, length, map, slice_get, Some, IsTrue, ◌↔◌, IfOk, IfErr, OnOk, true, false, Option};
ghost use Rattle.tenant_core.specs.Views.{record_of as shown_by};
ghost use Rattle.tenant_core.specs.declared.period.PeriodParts.{PeriodParts};
ghost use Rattle.joint_order.specs.Orders.{list_at};
ghost use Rattle.receipts.specs.Audits.{AreJoined, LacksReceipt, NamesRecord, points_of, shown_record};
ghost use Rattle.receipts.specs.Layout.{AreOfRolls, AreNoted, IsAuditFault, IsFreeAt, IsHeldAt, IsHeldNowhere, IsHeldWhole};
ghost use Rattle.receipts.specs.Layout.{IsNoted, IsPlace, IsReceiptRefused, place_in, points_in};
ghost use Rattle.receipts.specs.Rows.{AreRowsOf, IsPeriodIndex};

use crate::fault::AuditFault;
use crate::holders::Holders;
use crate::layout::Laid;
use crate::receipt::Receipt;
use common_types::Items;
use joint_order::ListPoint;
use std::alloc::Global;
use tenant_core::RecordView;

// Whether a receipt shows that record.
fn shows(stands: &RecordView<'_>, receipt: &Receipt) -> bool
    ensures { IsTrue result ↔ (shown_by stands.entry.now ≡ shown_record receipt.now) }
{
    stands.entry.is_same(&receipt.entry) && stands.outcome.is_same(&receipt.verdict)
}

// The place of the period that has the record which the receipt names. `NoPeriod` if the receipt names no record,
// `Differs` if it shows another record.
fn named_by(laid: &Laid<'_>, receipt: &Receipt) -> Result<usize, AuditFault>
    requires index { IsPeriodIndex laid.now }
    ensures named { IfOk result (λ k. (place_in laid.now.index.now receipt.now.tenant receipt.now.period ≡ Some k)
        × NamesRecord laid.now.periods.now receipt.now (shown_record receipt.now)) }
    ensures refused { (holders : List (List (Option ℕ))) → IfErr result (IsReceiptRefused laid.now.periods.now holders receipt.now) }
{
    let Laid { periods, index, .. } = *laid;
    let Some(k) = index.place(receipt.tenant, receipt.period) else {
        return Err(AuditFault::NoPeriod);
    };
    let Some(record) = periods[k].records().get(receipt.number as usize) else {
        return Err(AuditFault::NoPeriod);
    };
    if shows(&record, receipt) {
        Ok(k)
    } else {
        Err(AuditFault::Differs)
    }
}

// The place, in its tenant's journal, of the record that a receipt names and shows.
fn place_of(laid: &Laid<'_>, holders: &Holders, receipt: &Receipt) -> Result<usize, AuditFault>
    requires index { IsPeriodIndex laid.now }
    requires rows { AreRowsOf laid.now holders.now }
    ensures place { IfOk result (IsPlace laid.now.periods.now holders.now receipt.now) }
    ensures refused { IfErr result (IsReceiptRefused laid.now.periods.now holders.now receipt.now) }
{
    match named_by(laid, receipt) {
        Ok(k) => {
            let _ = holders.entries(receipt.tenant);
            Ok(laid.offsets[k] + receipt.number as usize)
        }
        Err(fault) => Err(fault),
    }
}

// Notes that the list holds the receipt of the entry that it names, and gives the place of that. Refused are a receipt that
// names none (`NoPeriod`), one that shows another (`Differs`), and one of an entry whose receipt is known (`Twice`).
fn note(
    laid: &Laid<'_>,
    holders: &mut Holders,
    receipt: &Receipt,
    list: usize,
) -> Result<ListPoint, AuditFault>
    requires index { IsPeriodIndex laid.now }
    requires rows { AreRowsOf laid.now holders.old }
    ensures noted { IfOk result (IsNoted laid.now.periods.now holders.old holders.new receipt.now list) }
    ensures rows { OnOk result (AreRowsOf laid.now holders.new) }
    ensures refused { IfErr result (IsReceiptRefused laid.now.periods.now holders.old receipt.now) }
{
    let place = place_of(laid, holders, receipt)?;
    if holders.is_held(receipt.tenant, place) {
        return Err(AuditFault::Twice);
    }
    holders.set(receipt.tenant, place, list);
    Ok(ListPoint {
        group: receipt.tenant,
        place,
    })
}

// Notes the receipt at that place of that list.
fn note_at(
    laid: &Laid<'_>,
    holders: &mut Holders,
    lists: &[&[Receipt]],
    i: usize,
    n: usize,
    receipt: &Receipt,
) -> Result<ListPoint, AuditFault>
    requires index { IsPeriodIndex laid.now }
    requires rows { AreRowsOf laid.now holders.old }
    requires there { slice_get (list_at (map (λ list. list.now) lists.now) i) n ≡ Some receipt.now }
    requires noted { AreNoted laid.now.periods.now (map (λ list. list.now) lists.now) holders.old i n }
    ensures noted { OnOk result (AreNoted laid.now.periods.now (map (λ list. list.now) lists.now) holders.new i (n + 1)) }
    ensures rows { OnOk result (AreRowsOf laid.now holders.new) }
    ensures is { IfOk result (λ noted. slice_get (points_in laid.now.periods.now (list_at (map (λ list. list.now) lists.now) i)) n ≡ Some noted) }
    ensures fault { IfErr result (IsAuditFault laid.now.periods.now (map (λ list. list.now) lists.now)) }
{
    match note(laid, holders, receipt, i) {
        Ok(point) => Ok(point),
        Err(fault) => Err(fault),
    }
}

// Notes all receipts of a list, and gives their places.
fn note_list(
    alloc: Global,
    laid: &Laid<'_>,
    holders: &mut Holders,
    lists: &[&[Receipt]],
    i: usize,
    list: &[Receipt],
) -> Result<Vec<ListPoint>, AuditFault>
    requires index { IsPeriodIndex laid.now }
    requires rows { AreRowsOf laid.now holders.old }
    requires list { list.now ≡ list_at (map (λ list. list.now) lists.now) i }
    requires noted { AreNoted laid.now.periods.now (map (λ list. list.now) lists.now) holders.old i 0 }
    ensures noted { OnOk result (AreNoted laid.now.periods.now (map (λ list. list.now) lists.now) holders.new (i + 1) 0) }
    ensures rows { OnOk result (AreRowsOf laid.now holders.new) }
    ensures points { IfOk result (λ points. points.items ≡ points_in laid.now.periods.now list.now) }
    ensures fault { IfErr result (IsAuditFault laid.now.periods.now (map (λ list. list.now) lists.now)) }
{
    let mut points = Vec::with_capacity(alloc, list.len())?;
    for n in 0..list.len() {
        let point = note_at(laid, holders, lists, i, n, &list[n])?;
        points.push_reserved(point);
    }
    Ok(points)
}

/// Notes all receipts of all lists, and gives their places.
pub(crate) fn note_lists(
    alloc: Global,
    laid: &Laid<'_>,
    holders: &mut Holders,
    lists: &[&[Receipt]],
) -> Result<Vec<Items<ListPoint>>, AuditFault>
    requires index { IsPeriodIndex laid.now }
    requires rows { AreRowsOf laid.now holders.old }
    requires none { AreNoted laid.now.periods.now (map (λ list. list.now) lists.now) holders.old 0 0 }
    ensures noted { OnOk result (AreNoted laid.now.periods.now (map (λ list. list.now) lists.now) holders.new (length lists.now) 0) }
    ensures rows { OnOk result (AreRowsOf laid.now holders.new) }
    ensures points { IfOk result (λ points. points.items ≡ points_of laid.now.periods.now (map (λ list. list.now) lists.now)) }
    ensures fault { IfErr result (IsAuditFault laid.now.periods.now (map (λ list. list.now) lists.now)) }
{
    let mut points = Vec::with_capacity(alloc, lists.len())?;
    for i in 0..lists.len() {
        let list = lists[i];
        let noted = note_list(alloc, laid, holders, lists, i, list)?;
        points.push_reserved(Items::from_vec(noted));
    }
    Ok(points)
}

// Whether the record of that number of the period at that place is held by a receipt.
fn is_held_at(laid: &Laid<'_>, holders: &Holders, k: usize, n: usize) -> bool
    requires index { IsPeriodIndex laid.now }
    requires rows { AreRowsOf laid.now holders.now }
    requires there { (p : PeriodParts) × (slice_get laid.now.periods.now k ≡ Some p) × (n < length p.records) }
    ensures whole { result ≡ true → (p : PeriodParts) → slice_get laid.now.periods.now k ≡ Some p → IsHeldAt laid.now.periods.now holders.now p n }
    ensures nowhere { result ≡ false → (p : PeriodParts) → slice_get laid.now.periods.now k ≡ Some p → IsFreeAt laid.now.periods.now holders.now p n }
{
    let Laid {
        periods,
        offsets,
        ..
    } = *laid;
    let tenant = periods[k].tenant();
    let _ = holders.entries(tenant);
    holders.is_held(tenant, offsets[k] + n)
}

// Whether each record of the period at that place is held by a receipt.
fn is_held_whole(laid: &Laid<'_>, holders: &Holders, k: usize) -> bool
    requires index { IsPeriodIndex laid.now }
    requires rows { AreRowsOf laid.now holders.now }
    requires there { k < length laid.now.periods.now }
    ensures whole { result ≡ true → (p : PeriodParts) → slice_get laid.now.periods.now k ≡ Some p → IsHeldWhole laid.now.periods.now holders.now p }
    ensures nowhere { result ≡ false → (p : PeriodParts) × (slice_get laid.now.periods.now k ≡ Some p) × IsHeldNowhere laid.now.periods.now holders.now p }
{
    let periods = laid.periods;
    let period = &periods[k];
    for n in 0..period.len() {
        if !is_held_at(laid, holders, k, n) {
            return false;
        }
    }
    true
}

/// Whether each record of all periods is held by a receipt.
pub(crate) fn are_held_whole(laid: &Laid<'_>, holders: &Holders) -> bool
    requires index { IsPeriodIndex laid.now }
    requires rows { AreRowsOf laid.now holders.now }
    ensures whole { result ≡ true → (k : ℕ) (p : PeriodParts) → slice_get laid.now.periods.now k ≡ Some p → IsHeldWhole laid.now.periods.now holders.now p }
    ensures nowhere { result ≡ false → (k : ℕ) × (p : PeriodParts) × (slice_get laid.now.periods.now k ≡ Some p)
        × IsHeldNowhere laid.now.periods.now holders.now p }
{
    for k in 0..laid.periods.len() {
        if !is_held_whole(laid, holders, k) {
            return false;
        }
    }
    true
}
