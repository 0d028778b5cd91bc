//! What became of the packets of a book's running period, by peer.

ghost use Rattle.std.specs.Prelude.{◌≡◌, ◌<◌, ◌≤◌, ◌++◌, ◌∷◌, [], ℕ, length, vec_len, option_copied, option_map, IfOk, OnOk, Some};
ghost use Rattle.std.specs.List.{slice_get};
ghost use Rattle.tenant_core.specs.Holds.{holds_of};
ghost use Rattle.tenant_core.specs.Views.{entry_of, record_of};
ghost use Rattle.books_shared.specs.PeerOutcomes.{AreConsecutive, AreCountedByPeer, AreRaised, SayTheSame, answerer, count_of_peer, counted_peer, hold_numbered};
ghost use Rattle.books_shared.specs.PeerOutcomes.{peer_count, peer_numbers, peer_outcome_in};

use crate::outcomes::{PacketCounts, PacketOutcome, outcome_of};
use std::alloc::{AllocError, Global};
use std::marker::Model;
use tenant_core::{Book, EntryView, Hold, Journal, PeerNo, RecordView};

/// What became of a packet, and the peer that it counts for.
#[derive(Clone, Copy)]
struct PeerOutcome {
    peer: PeerNo,
    outcome: PacketOutcome,
}

// The packet that went on under that number.
fn hold_numbered(holds: &[Hold], number: u64) -> Option<&Hold>
    requires { AreConsecutive holds.now }
    ensures { option_copied result ≡ hold_numbered number holds.now }
{
    let first = holds.first()?.number;
    holds.get(number.checked_sub(first)? as usize)
}

// Whom an answer to a packet counts for.
fn answerer(outcome: PacketOutcome, hold: &Hold) -> PeerNo
    ensures { result ≡ answerer outcome hold.now }
{
    match outcome {
        PacketOutcome::Fulfilled => hold.from,
        PacketOutcome::Rejected | PacketOutcome::Configured | PacketOutcome::Refused(_) => hold.to,
    }
}

// The peer that an outcome counts for.
fn counted_peer(holds: &[Hold], outcome: PacketOutcome, entry: &EntryView<'_>) -> Option<PeerNo>
    requires { AreConsecutive holds.now }
    ensures { result ≡ counted_peer holds.now outcome (entry_of entry.now) }
{
    match entry {
        EntryView::Decide(decide) => Some(decide.peer),
        EntryView::Answer(answer) => {
            let hold = hold_numbered(holds, answer.hold)?;
            Some(answerer(outcome, hold))
        }
        EntryView::Tick(_) | EntryView::Change(_) | EntryView::Roll(_) => None,
    }
}

// What became of a packet by that record, and the peer that it counts for.
fn peer_outcome_in(holds: &[Hold], made: &RecordView<'_>) -> Option<PeerOutcome>
    requires { AreConsecutive holds.now }
    ensures { result ≡ peer_outcome_in holds.now (record_of made.now) }
{
    let outcome = outcome_of(made)?;
    let peer = counted_peer(holds, outcome, &made.entry)?;
    Some(PeerOutcome { peer, outcome })
}

// So many rows at least, the new ones of peers for whom nothing counts.
fn make_rows(rows: &mut Vec<PacketCounts>, many: usize) -> Result<(), AllocError>
    requires old { vec_len rows.old ≤ peer_numbers }
    requires new { many ≤ peer_numbers }
    ensures same { OnOk result (SayTheSame rows.new.items rows.old.items) }
    ensures many { OnOk result (many ≤ vec_len rows.new) }
    ensures few { OnOk result (vec_len rows.new ≤ peer_numbers) }
{
    for _ in rows.len()..many {
        rows.push(PacketCounts::NONE)?;
    }
    Ok(())
}

// Counts what a record says, if it says what became of a packet.
fn count_record(
    rows: &mut Vec<PacketCounts>,
    holds: &[Hold],
    made: &RecordView<'_>,
) -> Result<(), AllocError>
    requires holds { AreConsecutive holds.now }
    requires few { vec_len rows.old ≤ peer_numbers }
    ensures raised { OnOk result (AreRaised (peer_outcome_in holds.now (record_of made.now)) rows.old.items rows.new.items) }
    ensures few { OnOk result (vec_len rows.new ≤ peer_numbers) }
{
    let Some(said) = peer_outcome_in(holds, made) else {
        return Ok(());
    };
    let place = said.peer as usize;
    make_rows(rows, place + 1)?;
    rows[place] = rows[place].counted(said.outcome);
    Ok(())
}

// Counts what the records of a journal say.
fn count_all(
    alloc: Global,
    holds: &[Hold],
    journal: &Journal,
) -> Result<Vec<PacketCounts>, AllocError>
    requires { AreConsecutive holds.now }
    ensures counted { IfOk result (λ rows. AreCountedByPeer rows.items holds.now journal.now.records) }
    ensures few { IfOk result (λ rows. vec_len rows ≤ peer_numbers) }
{
    let mut rows = Vec::new(alloc);
    for place in 0..journal.len() {
        if let Some(made) = journal.get(place) {
            count_record(&mut rows, holds, &made)?;
        }
    }
    Ok(rows)
}

/// What became of the packets of a book's running period, by the peer that each counts for: its sender, or, if it went on and was
/// not fulfilled, the peer that it went to. Contracts see the
/// counts by the numbers of peers.
#[derive(Drop)]
pub struct PeerPackets {
    rows: Vec<PacketCounts>,
}

impl Model for PeerPackets {
    ghost use Rattle.std.specs.Prelude.{◌≤◌, List, vec_len};
    ghost use Rattle.books_shared.specs.PeerOutcomes.{peer_numbers};
    ghost use Rattle.books_shared.specs.declared.outcomes.PacketCounts.{PacketCounts};

    ghost Value = { List PacketCounts };

    ghost view = { λ p. p.rows.items };

    ghost invariant = { λ p. vec_len p.rows ≤ peer_numbers };
}

impl PeerPackets {
    ghost use Rattle.std.specs.Prelude.{◌≡◌, ◌≤◌, ℕ, IfOk};
    ghost use Rattle.books_shared.specs.PeerOutcomes.{count_of_peer, peer_count, peer_numbers};
    ghost use Rattle.books_shared.specs.declared.outcomes.PacketOutcome.{PacketOutcome as Outcome};

    /// Those of that book, by one pass over the records of its period. Fails only if it is out of memory.
    pub fn of(alloc: Global, book: &Book) -> Result<PeerPackets, AllocError>
        ensures { IfOk result (λ packets. (peer : ℕ) (o : Outcome) → count_of_peer packets peer o ≡ peer_count book.now peer o) }
    {
        tenant_core::laws::book_is_sound(book);
        let rows = count_all(alloc, book.holds(), book.journal())?;
        Ok(PeerPackets { rows })
    }

    /// How many packets had that outcome and count for that peer. A count ends at 2^64 - 1.
    pub fn get(&self, peer: PeerNo, outcome: PacketOutcome) -> u64
        ensures { result ≡ count_of_peer self.now peer outcome }
    {
        match self.rows.get(peer as usize) {
            Some(counts) => counts.get(outcome),
            None => 0,
        }
    }

    /// A number above those of all peers for whom a packet counts.
    pub fn bound(&self) -> usize
        ensures none { (peer : ℕ) (o : Outcome) → result ≤ peer → count_of_peer self.now peer o ≡ 0 }
        ensures few { result ≤ peer_numbers }
    {
        self.rows.len()
    }
}
