//! What records and packets count for peers.

ghost use Rattle.std.specs.Prelude.{◌≡◌, ◌<◌, ℕ, IfOk, OnOk, Some, length, slice_index, slice_index_or, sum_by};
ghost use Rattle.std.specs.List.{slice_get, zip};
ghost use Rattle.statements.specs.Sums.{by_change, by_hold, by_record, counted_for, fee_by, IsAdded, IsOver, OnLong};
ghost use Rattle.tenant_core.specs.Views.{record_of};
ghost use Rattle.tenant_core.specs.declared.hold.Hold.{Hold};
ghost use Rattle.tenant_core.specs.declared.journal.Record.{Record};

use crate::checked::Gone;
use crate::tally::{Summed, Tally};
use std::alloc::Global;
use tenant_core::{Change, EntryView, Fate, Hold, PeerNo, Period, RecordView, Records, Side};

/// What of a record is counted.
#[derive(Clone, Copy, Debug, PartialEq, Eq)]
pub enum OfRecord {
    /// A packet that came from the peer.
    Came,
    /// What the peer paid.
    Paid,
    /// What the peer was paid.
    WasPaid,
}

/// What of a packet that went on is counted.
#[derive(Clone, Copy, Debug, PartialEq, Eq)]
pub enum OfHold {
    /// That it went on to the peer.
    Went,
    /// Its amount from the peer, once fulfilled.
    Brought,
    /// The price of it for the peer, once fulfilled.
    CameTo,
}

fn change_counts(change: &Change, what: OfRecord) -> Option<(PeerNo, u64)>
    ensures { (n : ℕ) → counted_for result n ≡ by_change what n change.now }
{
    match (change, what) {
        (
            Change::Settled {
                peer,
                side: Side::In,
                amount,
            },
            OfRecord::Paid,
        )
        | (
            Change::Settled {
                peer,
                side: Side::Out,
                amount,
            },
            OfRecord::WasPaid,
        ) => Some((*peer, amount.get())),
        _ => None,
    }
}

fn record_counts(view: &RecordView<'_>, what: OfRecord) -> Option<(PeerNo, u64)>
    ensures { (n : ℕ) → counted_for result n ≡ by_record what n (record_of view.now) }
{
    match (&view.entry, what) {
        (EntryView::Decide(decide), OfRecord::Came) => Some((decide.peer, 1)),
        (EntryView::Change(entry), _) => change_counts(&entry.change, what),
        _ => None,
    }
}

fn hold_counts(hold: &Hold, what: OfHold) -> Option<(PeerNo, u64)>
    ensures { (n : ℕ) → counted_for result n ≡ by_hold what n hold.now }
{
    match (what, hold.fate) {
        (OfHold::Went, _) => Some((hold.to, 1)),
        (OfHold::Brought, Fate::Ended { fulfilled: true }) => Some((hold.from, hold.amount)),
        (OfHold::CameTo, Fate::Ended { fulfilled: true }) => Some((hold.to, hold.price)),
        _ => None,
    }
}

fn add_record_at(tally: &mut Tally, records: &Records, place: usize, what: OfRecord) -> Summed<()>
    ensures added { OnOk result ((r : Record) → slice_get records.now place ≡ Some r → IsAdded tally.old tally.new (λ n. by_record what n r)) }
    ensures long { OnLong result ((r : Record) → slice_get records.now place ≡ Some r → IsOver tally.old (λ n. by_record what n r)) }
{
    match records.get(place) {
        Some(record) => tally.add(record_counts(&record, what)),
        None => Ok(()),
    }
}

fn add_records(tally: &mut Tally, records: &Records, what: OfRecord) -> Summed<()>
    ensures added { OnOk result (IsAdded tally.old tally.new (λ n. sum_by (by_record what n) records.now)) }
    ensures long { OnLong result (IsOver tally.old (λ n. sum_by (by_record what n) records.now)) }
{
    for place in 0..records.len() {
        add_record_at(tally, records, place, what)?;
    }
    Ok(())
}

fn add_holds(tally: &mut Tally, holds: &[Hold], what: OfHold) -> Summed<()>
    ensures added { OnOk result (IsAdded tally.old tally.new (λ n. sum_by (by_hold what n) holds.now)) }
    ensures long { OnLong result (IsOver tally.old (λ n. sum_by (by_hold what n) holds.now)) }
{
    for hold in holds {
        tally.add(hold_counts(hold, what))?;
    }
    Ok(())
}

/// The sums, and what the period's records count.
pub fn with_records(alloc: Global, tally: &Tally, period: &Period, what: OfRecord) -> Summed<Tally>
    ensures added { IfOk result (λ sums. IsAdded tally.now sums (λ n. sum_by (by_record what n) period.now.records)) }
    ensures long { OnLong result (IsOver tally.now (λ n. sum_by (by_record what n) period.now.records)) }
{
    let mut sums = tally.copy(alloc)?;
    add_records(&mut sums, period.records(), what)?;
    Ok(sums)
}

/// The sums, and what the packets of the period count that went on.
pub fn with_holds(alloc: Global, tally: &Tally, holds: &[Hold], what: OfHold) -> Summed<Tally>
    ensures added { IfOk result (λ sums. IsAdded tally.now sums (λ n. sum_by (by_hold what n) holds.now)) }
    ensures long { OnLong result (IsOver tally.now (λ n. sum_by (by_hold what n) holds.now)) }
{
    let mut sums = tally.copy(alloc)?;
    add_holds(&mut sums, holds, what)?;
    Ok(sums)
}

fn fee_counts(hold: &Hold, fee: u64) -> Option<(PeerNo, u64)>
    ensures { (n : ℕ) → counted_for result n ≡ fee_by n (hold.now, fee) }
{
    match hold.fate {
        Fate::Ended { fulfilled: true } => Some((hold.to, fee)),
        _ => None,
    }
}

fn add_fee_at(tally: &mut Tally, holds: &[Hold], fees: &[u64], place: usize) -> Summed<()>
    requires holds { place < length holds.now }
    requires fees { place < length fees.now }
    ensures added { OnOk result ((h : Hold) → IsAdded tally.old tally.new (λ n. fee_by n (slice_index_or holds.now place h, slice_index fees.now place))) }
    ensures long { OnLong result ((h : Hold) → IsOver tally.old (λ n. fee_by n (slice_index_or holds.now place h, slice_index fees.now place))) }
{
    tally.add(fee_counts(&holds[place], fees[place]))
}

fn add_fees(tally: &mut Tally, holds: &[Hold], fees: &[u64]) -> Summed<()>
    ensures added { OnOk result (IsAdded tally.old tally.new (λ n. sum_by (fee_by n) (zip holds.now fees.now))) }
    ensures long { OnLong result (IsOver tally.old (λ n. sum_by (fee_by n) (zip holds.now fees.now))) }
{
    for place in 0..holds.len().min(fees.len()) {
        add_fee_at(tally, holds, fees, place)?;
    }
    Ok(())
}

/// The sums, and the fees of the period's packets that went on.
pub fn with_fees(alloc: Global, tally: &Tally, gone: &Gone) -> Summed<Tally>
    ensures added { IfOk result (λ sums. IsAdded tally.now sums (λ n. sum_by (fee_by n) (zip gone.now.holds.items gone.now.fees.items))) }
    ensures long { OnLong result (IsOver tally.now (λ n. sum_by (fee_by n) (zip gone.now.holds.items gone.now.fees.items))) }
{
    let mut sums = tally.copy(alloc)?;
    add_fees(&mut sums, gone.holds.as_slice(), gone.fees.as_slice())?;
    Ok(sums)
}
