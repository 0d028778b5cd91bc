//! Peers that were there.

ghost use Rattle.std.specs.Prelude.{◌≡◌, ◌≤◌, ◌^◌, ◌++◌, ◌∷◌, [], IfOk, OnOk, map, Some, if◌then◌else◌};
ghost use Rattle.std.specs.List.{slice_get};
ghost use Rattle.statements.specs.Seen.{IsOutOfNumbers, seen_at_first, seen_added, seen_among, seen_during};
ghost use Rattle.statements.specs.Sums.{OnLong};
ghost use Rattle.tenant_core.specs.Peers.{next_by};
ghost use Rattle.tenant_core.specs.Views.{entry_of};
ghost use Rattle.tenant_core.specs.declared.journal.Record.{Record};

use crate::tally::{LONG, Summed};
use common_types::Name;
use std::alloc::{AllocError, Global};
use tenant_core::{Change, EntryView, Peer, PeerNo, Period, Records};

/// A peer that was there, and what it owed as the first period began, in its units; 0 if it was added since.
#[derive(Drop)]
pub struct PeerSeen {
    pub number: PeerNo,
    pub name: Name,
    pub began: i64,
}

/// A copy.
pub fn copy_of(seen: &PeerSeen) -> PeerSeen
    ensures { result ≡ seen.now }
{
    PeerSeen {
        number: seen.number,
        name: seen.name.copy(),
        began: seen.began,
    }
}

fn put_seen(out: &mut Vec<PeerSeen>, seen: &PeerSeen) -> Result<(), AllocError>
    ensures { OnOk result (out.new.items ≡ out.old.items ++ seen.now ∷ []) }
{
    Ok(out.push(copy_of(seen))?)
}

fn copied(alloc: Global, peers: &[PeerSeen]) -> Result<Vec<PeerSeen>, AllocError>
    ensures { IfOk result (λ copy. copy.items ≡ peers.now) }
{
    let mut copy = Vec::new(alloc);
    for seen in peers {
        put_seen(&mut copy, seen)?;
    }
    Ok(copy)
}

fn put_first(out: &mut Vec<PeerSeen>, peer: &Peer) -> Result<(), AllocError>
    ensures { OnOk result (out.new.items ≡ out.old.items ++ seen_at_first peer.now ∷ []) }
{
    Ok(out.push(PeerSeen {
        number: peer.number,
        name: peer.terms.name.copy(),
        began: peer.balance.get(),
    })?)
}

fn put_all_first(out: &mut Vec<PeerSeen>, peers: &[Peer]) -> Result<(), AllocError>
    ensures { OnOk result (out.new.items ≡ out.old.items ++ map seen_at_first peers.now) }
{
    for peer in peers {
        put_first(out, peer)?;
    }
    Ok(())
}

// Puts the peer that an entry adds, if it adds one, which gets that number; and gives the number of the next one.
fn put_added(out: &mut Vec<PeerSeen>, entry: &EntryView<'_>, next: PeerNo) -> Summed<PeerNo>
    ensures after { IfOk result (λ after. (out.new.items ≡ out.old.items ++ seen_added next (entry_of entry.now)) × (after ≡ next_by next (entry_of entry.now))) }
    ensures long { OnLong result (2 ^ 16 ≤ next_by next (entry_of entry.now)) }
{
    let EntryView::Change(entry) = entry else {
        return Ok(next);
    };
    let Change::PeerAdded(terms) = &entry.change else {
        return Ok(next);
    };
    out.push(PeerSeen {
        number: next,
        name: terms.name.copy(),
        began: 0,
    })?;
    next.checked_add(1).ok_or(LONG)
}

fn put_added_at(
    out: &mut Vec<PeerSeen>,
    records: &Records,
    place: usize,
    next: PeerNo,
) -> Summed<PeerNo>
    ensures after { IfOk result (λ after. (r : Record) → slice_get records.now place ≡ Some r
        → (out.new.items ≡ out.old.items ++ seen_added next r.entry) × (after ≡ next_by next r.entry)) }
    ensures long { OnLong result ((r : Record) → slice_get records.now place ≡ Some r → 2 ^ 16 ≤ next_by next r.entry) }
{
    match records.get(place) {
        Some(view) => put_added(out, &view.entry, next),
        None => Ok(next),
    }
}

fn put_all_added(out: &mut Vec<PeerSeen>, records: &Records, first: PeerNo) -> Summed<()>
    ensures added { OnOk result (out.new.items ≡ out.old.items ++ seen_among first records.now) }
    ensures long { OnLong result (IsOutOfNumbers first records.now) }
{
    let mut next = first;
    for place in 0..records.len() {
        next = put_added_at(out, records, place, next)?;
    }
    Ok(())
}

/// The peers that were there as the first period began: those of this one, if it is the first.
pub fn first_with(
    alloc: Global,
    first: &[PeerSeen],
    is_first: bool,
    period: &Period,
) -> Result<Vec<PeerSeen>, AllocError>
    ensures { IfOk result (λ all. all.items ≡ (if is_first then map seen_at_first period.now.opening.network.peers else first.now)) }
{
    if !is_first {
        return copied(alloc, first);
    }
    let mut all = Vec::new(alloc);
    put_all_first(&mut all, period.opening().network.peers())?;
    Ok(all)
}

/// The peers that were added, and those that the next period added. `Long` if the next peer after one of these would get
/// no number.
pub fn added_with(alloc: Global, added: &[PeerSeen], period: &Period) -> Summed<Vec<PeerSeen>>
    ensures all { IfOk result (λ all. all.items ≡ added.now ++ seen_during period.now) }
    ensures long { OnLong result (IsOutOfNumbers period.now.opening.network.next_peer period.now.records) }
{
    let mut all = copied(alloc, added)?;
    put_all_added(
        &mut all,
        period.records(),
        period.opening().network.next_peer(),
    )?;
    Ok(all)
}
