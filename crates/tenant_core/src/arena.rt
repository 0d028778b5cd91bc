//! A period's records in little room.

ghost use Rattle.std.specs.Prelude.{◌≡◌, ◌≤◌, length, IfOk, vec_capacity};
ghost use Rattle.tenant_core.specs.Arena.{IsWithin, whole};
ghost use Rattle.tenant_core.specs.Views.{record_of, IsShort};

use crate::journal::{AnswerEntry, ChangeEntry, Outcome, RollEntry, TickEntry};
use crate::record_view::{DecideView, EntryView, RecordView};
use crate::verdict::Verdict;
use common_types::Boxed;
use route_table::PeerNo;
use std::alloc::{AllocError, Global};
use std::marker::Model;

/// The bytes of text that are reserved for each record.
const TEXT_PER_PLACE: usize = 1024;

/// A Prepare, its destination in the journal's text.
#[derive(Clone, Copy)]
struct SmallDecide {
    amount: u64,
    expiry: u64,
    now: u64,
    condition: [u8; 32],
    // The index at which the destination begins, and its length.
    from: u32,
    length: u16,
    peer: PeerNo,
}

/// One event, of which an accepted order lies in a place of its own.
#[derive(Drop)]
enum SmallEntry {
    Decide(SmallDecide),
    Answer(AnswerEntry),
    Tick(TickEntry),
    Change(Boxed<ChangeEntry>),
    Roll(RollEntry),
}

#[derive(Drop)]
struct Small {
    entry: SmallEntry,
    outcome: Outcome,
}

const _: () = prove!(size_of::<Small>() == 120);

impl Small {
    ghost use Rattle.std.specs.Prelude.{◌≡◌, IfOk};

    fn copy(&self, alloc: Global) -> Result<Small, AllocError>
        ensures { IfOk result (λ copy. copy ≡ self.now) }
    {
        let entry = match &self.entry {
            SmallEntry::Decide(decide) => SmallEntry::Decide(*decide),
            SmallEntry::Answer(answer) => SmallEntry::Answer(*answer),
            SmallEntry::Tick(tick) => SmallEntry::Tick(*tick),
            SmallEntry::Change(change) => {
                let change = change.get().copy(alloc)?;
                SmallEntry::Change(Boxed::new(alloc, change)?)
            }
            SmallEntry::Roll(roll) => SmallEntry::Roll(*roll),
        };
        Ok(Small {
            entry,
            outcome: self.outcome,
        })
    }
}

/// The records of a period, and room for so many. The room is allocated when the journal is made: one more record
/// allocates nothing. Each has 120 bytes. A Prepare's destination is in one text with the others, and an accepted
/// order has a place of its own.
#[derive(Drop)]
pub struct Journal {
    places: usize,
    records: Vec<Small>,
    // The destinations of all Prepares, one after the other.
    text: Vec<u8>,
}

impl Model for Journal {
    ghost use Rattle.tenant_core.specs.Journals.{Recorded};
    ghost use Rattle.std.specs.Coded.{codes};

    ghost Value = { Recorded };

    ghost coded = { Prim.hlevel codes };

    ghost use Rattle.tenant_core.specs.Arena.{journal_of, IsArena};

    ghost view = { journal_of };

    ghost invariant = { IsArena };
}

// A record, its bytes lent from the text.
fn lent<'a>(small: &'a Small, text: &'a [u8]) -> RecordView<'a>
    requires { IsWithin (length text.now) small.now.entry }
    ensures value { record_of result ≡ whole text.now small.now }
    ensures short { IsShort result.entry }
{
    let entry = match &small.entry {
        SmallEntry::Decide(decide) => {
            let from = decide.from as usize;
            let end = from + decide.length as usize;
            EntryView::Decide(DecideView {
                peer: decide.peer,
                amount: decide.amount,
                expiry: decide.expiry,
                condition: &decide.condition,
                destination: &text[from..end],
                now: decide.now,
            })
        }
        SmallEntry::Answer(answer) => EntryView::Answer(answer),
        SmallEntry::Tick(tick) => EntryView::Tick(*tick),
        SmallEntry::Change(change) => EntryView::Change(change.get()),
        SmallEntry::Roll(roll) => EntryView::Roll(*roll),
    };
    RecordView {
        entry,
        outcome: small.outcome,
    }
}

// A copy of the records, with room for so many.
fn copied_records(alloc: Global, records: &[Small], room: usize) -> Result<Vec<Small>, AllocError>
    requires { length records.now ≤ room }
    ensures items { IfOk result (λ copy. copy.items ≡ records.now) }
    ensures room { IfOk result (λ copy. room ≤ vec_capacity copy) }
{
    let mut copy = Vec::with_capacity(alloc, room)?;
    for record in records {
        copy.push_reserved(record.copy(alloc)?);
    }
    Ok(copy)
}

impl Journal {
    ghost use Rattle.std.specs.Prelude.{◌≡◌, ◌<◌, ◌≤◌, ◌+◌, length, IfOk, IfSome, option_map};
    ghost use Rattle.std.specs.List.{slice_get};
    ghost use Rattle.ilp_addr.specs.Address.{max_address};
    ghost use Rattle.tenant_core.specs.Arena.{max_records};
    ghost use Rattle.tenant_core.specs.Journals.{last_of, no_records, with_record};
    ghost use Rattle.tenant_core.specs.Views.{decide_of, record_of, IsShort};
    ghost use Rattle.tenant_core.specs.declared.journal.Entry.TheVariants.{Decide, Answer, Tick, Change, Roll};
    ghost use Rattle.tenant_core.specs.declared.journal.Outcome.TheVariants.{Packet, Ticked, Done, Rolled};

    /// No record, and room for so many. Fails only if it is out of memory.
    pub(crate) fn new(alloc: Global, places: usize) -> Result<Journal, AllocError>
        requires { places ≤ max_records }
        ensures { IfOk result (λ journal. journal ≡ no_records places) }
    {
        let records = Vec::with_capacity(alloc, places)?;
        let text = Vec::with_capacity(alloc, places * TEXT_PER_PLACE)?;
        Ok(Journal {
            places,
            records,
            text,
        })
    }

    /// No record, and no room. It allocates nothing.
    pub(crate) fn without_room(alloc: Global) -> Journal
        ensures { result ≡ no_records 0 }
    {
        Journal {
            places: 0,
            records: Vec::new(alloc),
            text: Vec::new(alloc),
        }
    }

    /// A copy of the records, with as much room. Fails only if it is out of memory.
    pub(crate) fn copy(&self, alloc: Global) -> Result<Journal, AllocError>
        ensures { IfOk result (λ copy. copy ≡ self.now) }
    {
        let records = copied_records(alloc, &self.records, self.places)?;
        let mut text = Vec::with_capacity(alloc, self.places * TEXT_PER_PLACE)?;
        text.extend_from_slice(&self.text)?;
        Ok(Journal {
            places: self.places,
            records,
            text,
        })
    }

    /// How many records there are.
    pub fn len(&self) -> usize
        ensures value { result ≡ length self.now.records }
        ensures few { result ≤ self.now.places }
    {
        self.records.len()
    }

    /// The record at that place.
    pub fn get(&self, place: usize) -> Option<RecordView<'_>>
        ensures value { option_map record_of result ≡ slice_get self.now.records place }
        ensures short { IfSome result (λ r. IsShort r.entry) }
    {
        if place >= self.records.len() {
            return None;
        }
        Some(lent(&self.records[place], &self.text))
    }

    /// The last record.
    pub fn last(&self) -> Option<RecordView<'_>>
        ensures value { option_map record_of result ≡ last_of self.now.records }
        ensures short { IfSome result (λ r. IsShort r.entry) }
    {
        self.get(self.len().checked_sub(1)?)
    }

    /// Appends the verdict of a Prepare.
    pub(crate) fn push_decide(&mut self, decide: DecideView<'_>, verdict: Verdict)
        requires room { length self.old.records < self.old.places }
        requires short { length decide.destination.now ≤ max_address }
        ensures { self.new ≡ with_record (record { entry = Decide (decide_of decide.entry); outcome = Packet verdict }) self.old }
    {
        let from = self.text.len() as u32;
        let length = decide.destination.len() as u16;
        let _ = self.text.extend_from_slice(decide.destination);
        self.records.push_reserved(Small {
            entry: SmallEntry::Decide(SmallDecide {
                amount: decide.amount,
                expiry: decide.expiry,
                now: decide.now,
                condition: *decide.condition,
                from,
                length,
                peer: decide.peer,
            }),
            outcome: Outcome::Packet(verdict),
        });
    }

    /// Appends the verdict of an answer.
    pub(crate) fn push_answer(&mut self, answer: AnswerEntry, verdict: Verdict)
        requires { length self.old.records < self.old.places }
        ensures { self.new ≡ with_record (record { entry = Answer answer; outcome = Packet verdict }) self.old }
    {
        self.records.push_reserved(Small {
            entry: SmallEntry::Answer(answer),
            outcome: Outcome::Packet(verdict),
        });
    }

    /// Appends a tick, which marked so many packets overdue.
    pub(crate) fn push_tick(&mut self, tick: TickEntry, count: u32)
        requires { length self.old.records < self.old.places }
        ensures { self.new ≡ with_record (record { entry = Tick tick; outcome = Ticked count }) self.old }
    {
        self.records.push_reserved(Small {
            entry: SmallEntry::Tick(tick),
            outcome: Outcome::Ticked(count),
        });
    }

    /// Appends an accepted order, which was put into its own place before.
    pub(crate) fn push_change(&mut self, change: Boxed<ChangeEntry>)
        requires { length self.old.records < self.old.places }
        ensures { self.new ≡ with_record (record { entry = Change change; outcome = Done }) self.old }
    {
        self.records.push_reserved(Small {
            entry: SmallEntry::Change(change),
            outcome: Outcome::Done,
        });
    }

    /// Appends the end of the period.
    pub(crate) fn push_roll(&mut self, roll: RollEntry)
        requires { length self.old.records < self.old.places }
        ensures { self.new ≡ with_record (record { entry = Roll roll; outcome = Rolled }) self.old }
    {
        self.records.push_reserved(Small {
            entry: SmallEntry::Roll(roll),
            outcome: Outcome::Rolled,
        });
    }
}
