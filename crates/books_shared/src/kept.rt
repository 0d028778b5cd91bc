//! What lies under a tenant's lock.

ghost use Rattle.std.specs.Prelude.{◌≡◌, ◌+◌, ◌<◌, ◌≤◌, length, option_map};
ghost use Rattle.floor_core.specs.Work.{decide_call, answer_call};
ghost use Rattle.one_list.specs.Steps.{grown};
ghost use Rattle.tenant_core.specs.Answer.{tick_result, ticked};
ghost use Rattle.tenant_core.specs.Governed.{IsGoverned};
ghost use Rattle.tenant_core.specs.Limits.{max_tenants};
ghost use Rattle.tenant_core.specs.State.{recorded};
ghost use Rattle.tenant_core.specs.Views.{entry_of, record_of};
ghost use Rattle.books_shared.specs.Rises.{IsSmall, command_rise, entries_closed, rise_of, tick_rise};
ghost use Rattle.books_shared.specs.Kept.{bad_answers_in, bad_entry, most_entries};
ghost use Rattle.books_shared.specs.Shares.{share_met, share_raised, with_steps};
ghost use Rattle.books_shared.specs.Tracing.{HasAppended, last_beyond, steps_appended, steps_of_command};

use crate::outcomes::{PacketCounts, TenantLog};
use crate::rise::{CallCounts, command_rise, entries_closed, rise_of_turn, tick_rise};
use crate::share::Share;
use floor_core::{Got, Slot, Turn};
use ilp_addr::Moment;
use one_list::{Chronicle, Run, TenantPart, Watcher};
use std::alloc::Global;
use std::marker::Model;
use tenant_core::{
    AnswerKey, Answered, Book, BookFault, Command, CommandFault, EntryView, RecordView,
};

/// A tenant's book, how many entries its closed periods had, how many packets found its journal full, how many answers of peers
/// were bad, and the tenant's part of the one list, counted. Contracts see it as a `LockedBook`.
#[derive(Drop)]
#[repr(C)]
pub struct LockedBook<J: Run> {
    book: Book,
    closed: u64,
    full: u64,
    bad: u64,
    part: TenantLog<J>,
    // It keeps what is written of two neighbours out of one cache line, and out of two that are fetched together.
    padding: [u64; 16],
}

impl<J: Run> Model for LockedBook<J> {
    ghost use Rattle.books_shared.specs.Kept.{LockedBook, most_entries};
    ghost use Rattle.books_shared.specs.Traced.{IsTraced};
    ghost use Rattle.std.specs.Coded.{codes};
    ghost use Rattle.route_table.specs.contracts.routes.Routes as routes;
    ghost use Rattle.std.specs.Prelude.{◌≤◌, ◌≡◌, true};
    ghost use Rattle.one_list.specs.Holds.{AreOwnAnswers};

    ghost Value = { LockedBook };

    ghost coded = { Prim.hlevel (codes, routes.the_row.coded) };

    ghost view = { λ k. record { state = k.book; closed = k.closed; full = k.full; bad = k.bad; steps = k.part.steps } };

    ghost invariant = { λ k. (k.closed ≤ most_entries k.book.opening.period) × IsTraced J.openings k.book k.part
        × (J.own ≡ true → AreOwnAnswers k.part.steps) };
}

impl<J: Run> LockedBook<J> {
    ghost use Rattle.std.specs.Prelude.{All, ◌≡◌, ◌+◌, ◌<◌, ◌^◌, [], ◌∷◌, ◌++◌, length, true};
    ghost use Rattle.floor_core.specs.Work.{decide_call, answer_call};
    ghost use Rattle.one_list.specs.Holds.{AreOwnAnswers};
    ghost use Rattle.books_shared.specs.Turns.{IsSentBy};
    ghost use Rattle.tenant_core.specs.Answer.{tick_made, tick_result, ticked};
    ghost use Rattle.tenant_core.specs.Governed.{IsGoverned, made_by};
    ghost use Rattle.tenant_core.specs.State.{opened, recorded};
    ghost use Rattle.books_shared.specs.Kept.{LockInvariant, bad_risen, beginning_of, entries_appended, full_risen};
    ghost use Rattle.books_shared.specs.Outcomes.{AreCounted};
    ghost use Rattle.books_shared.specs.Rises.{command_rise, entries_closed, rise_of, tick_rise};
    ghost use Rattle.books_shared.specs.Traced.{IsLedTo, IsTraced, share_counted};
    ghost use Rattle.one_list.specs.Steps.{GoesOnFrom, done_by, next_place, of_tenant, of_worker};

    /// A book in which nothing has happened, and the part of the one list of its tenant.
    pub fn new(book: Book, part: TenantPart<J>) -> LockedBook<J>
        requires traced { IsTraced J.openings book part }
        requires none { part.steps ≡ [] }
        requires answers { J.own ≡ true → AreOwnAnswers part.steps }
        ensures { result ≡ record { state = book; closed = 0; full = 0; bad = 0; steps = part.steps } }
    {
        LockedBook {
            book,
            closed: 0,
            full: 0,
            bad: 0,
            part: TenantLog::new(part),
            padding: [0; 16],
        }
    }

    /// The book.
    pub fn book(&self) -> &Book
        ensures { result.now ≡ self.now.state }
    {
        &self.book
    }

    /// The invariant of the type.
    pub fn is_kept(&self)
        ensures kept { LockInvariant self.now }
        ensures led { IsLedTo J.openings self.now.state self.now.steps }
        ensures answers { J.own ≡ true → AreOwnAnswers self.now.steps }
    {
        tenant_core::laws::book_is_sound(&self.book);
        let _closed = self.closed;
    }

    /// How many entries were appended since the books were made.
    pub fn number(&self) -> u64
        ensures value { result ≡ entries_appended self.now }
        ensures within { result < 2 ^ 47 }
    {
        tenant_core::laws::book_is_sound(&self.book);
        self.closed + self.book.entries() as u64
    }

    /// How many packets had each outcome, by the steps.
    pub fn packets(&self) -> PacketCounts
        ensures { AreCounted result self.now.steps }
    {
        self.part.packets()
    }

    /// How many packets found the journal full.
    pub fn full_journals(&self) -> u64
        ensures { result ≡ self.now.full }
    {
        self.full
    }

    /// How many answers of peers were neither a Fulfill nor a Reject.
    pub fn bad_answers(&self) -> u64
        ensures { result ≡ self.now.bad }
    {
        self.bad
    }

    /// The tenant's steps have what the share's worker did to the book, and nothing more of this worker. The share
    /// keeps that it has met these steps. Nothing else changes.
    pub fn meet(&mut self, chronicle: &Chronicle<J>, share: &mut Share<J>)
        ensures book { self.new ≡ self.old }
        ensures share { share.new ≡ share_met self.old.state.opening.tenant self.old.steps share.old }
        ensures shared { of_worker share.old.worker self.old.steps ≡ of_tenant self.old.state.opening.tenant share.old.steps }
    {
        share.meet(chronicle, &mut self.part);
    }

    /// The watcher keeps that it has met the tenant's steps. They go on from those that it had met before. Nothing else changes.
    pub fn watch(&mut self, chronicle: &Chronicle<J>, watcher: &mut Watcher<J>)
        ensures book { self.new ≡ self.old }
        ensures watcher { watcher.new ≡ watcher.old ++ beginning_of self.old ∷ [] }
        ensures goes_on { All (GoesOnFrom self.old.state.opening.tenant self.old.steps) watcher.old }
    {
        self.part.watch(chronicle, watcher);
    }

    /// The book and how many entries were appended, and its part of the one list.
    pub fn into_parts(self) -> ((Book, u64), TenantPart<J>)
        ensures book { result.0 ≡ (self.state, entries_appended self) }
        ensures traced { IsTraced J.openings self.state result.1 }
    {
        let number = self.number();
        let LockedBook { book, part, .. } = self;
        ((book, number), part.into_part())
    }

    /// What `Slot::decide` does, counted.
    pub fn decide(
        &mut self,
        chronicle: &Chronicle<J>,
        share: &mut Share<J>,
        slot: &mut Slot,
        now: Moment,
    ) -> Turn
        requires room { 0 < share.old.room }
        ensures turn { result ≡ (decide_call slot.old self.old.state now).turn }
        ensures slot { slot.new ≡ (decide_call slot.old self.old.state now).work }
        ensures book { self.new.state ≡ recorded self.old.state (decide_call slot.old self.old.state now).made }
        ensures closed { self.new.closed ≡ self.old.closed }
        ensures full { self.new.full ≡ full_risen (rise_of (decide_call slot.old self.old.state now)) self.old.full }
        ensures bad { self.new.bad ≡ self.old.bad }
        ensures steps { self.new.steps ≡ self.old.steps
            ++ done_by share.old.worker (next_place self.old.state) (decide_call slot.old self.old.state now).made }
        ensures share { share.new ≡ share_counted (rise_of (decide_call slot.old self.old.state now)) (next_place self.old.state)
            (decide_call slot.old self.old.state now).made share.old }
        ensures number { entries_appended self.new ≡ entries_appended self.old + (rise_of (decide_call slot.old self.old.state now)).entries }
    {
        tenant_core::laws::records_are_made();
        one_list::laws::histories();
        one_list::laws::own_answers();
        slot.is_work();
        let (turn, rise) = decide_in(&mut self.book, slot, now);
        tenant_core::laws::book_is_sound(&self.book);
        self.full = self.full.saturating_add(rise.full);
        trace(chronicle, &mut self.part, share, &self.book, rise);
        turn
    }

    /// What `Slot::answer` does, counted.
    pub fn answer(
        &mut self,
        chronicle: &Chronicle<J>,
        share: &mut Share<J>,
        slot: &mut Slot,
        now: Moment,
        got: Got,
    ) -> Turn
        requires room { 0 < share.old.room }
        requires sent { J.own ≡ true → IsSentBy share.old.worker slot.old.job self.old.steps }
        ensures turn { result ≡ (answer_call slot.old self.old.state now got).turn }
        ensures slot { slot.new ≡ (answer_call slot.old self.old.state now got).work }
        ensures book { self.new.state ≡ recorded self.old.state (answer_call slot.old self.old.state now got).made }
        ensures closed { self.new.closed ≡ self.old.closed }
        ensures full { self.new.full ≡ self.old.full }
        ensures bad { self.new.bad ≡ bad_risen got (answer_call slot.old self.old.state now got).made self.old.bad }
        ensures steps { self.new.steps ≡ self.old.steps
            ++ done_by share.old.worker (next_place self.old.state) (answer_call slot.old self.old.state now got).made }
        ensures share { share.new ≡ share_counted (rise_of (answer_call slot.old self.old.state now got)) (next_place self.old.state)
            (answer_call slot.old self.old.state now got).made share.old }
        ensures number { entries_appended self.new ≡ entries_appended self.old + (rise_of (answer_call slot.old self.old.state now got)).entries }
    {
        tenant_core::laws::records_are_made();
        one_list::laws::histories();
        one_list::laws::own_answers();
        let (turn, rise, bad) = answer_in(&mut self.book, slot, now, got);
        tenant_core::laws::book_is_sound(&self.book);
        self.bad = self.bad.saturating_add(bad);
        trace(chronicle, &mut self.part, share, &self.book, rise);
        turn
    }

    /// What `Book::tick` does, counted.
    pub fn tick(
        &mut self,
        chronicle: &Chronicle<J>,
        share: &mut Share<J>,
        now: Moment,
    ) -> Result<u32, BookFault>
        requires room { 0 < share.old.room }
        ensures count { result ≡ tick_result self.old.state now }
        ensures book { self.new.state ≡ ticked self.old.state now }
        ensures closed { self.new.closed ≡ self.old.closed }
        ensures full { self.new.full ≡ self.old.full }
        ensures bad { self.new.bad ≡ self.old.bad }
        ensures steps { self.new.steps ≡ self.old.steps
            ++ done_by share.old.worker (next_place self.old.state) (tick_made self.old.state now) }
        ensures share { share.new ≡ share_counted (tick_rise result) (next_place self.old.state)
            (tick_made self.old.state now) share.old }
        ensures number { entries_appended self.new ≡ entries_appended self.old + (tick_rise result).entries }
    {
        tenant_core::laws::records_are_made();
        one_list::laws::histories();
        one_list::laws::own_answers();
        let (count, rise) = tick_in(&mut self.book, now);
        tenant_core::laws::book_is_sound(&self.book);
        trace(chronicle, &mut self.part, share, &self.book, rise);
        count
    }

    /// What `Book::command` does, counted.
    pub fn command(
        &mut self,
        alloc: Global,
        chronicle: &Chronicle<J>,
        share: &mut Share<J>,
        command: &Command,
        now: Moment,
    ) -> Result<Answered, CommandFault>
        requires room { 0 < share.old.room }
        ensures answer { IsGoverned result command.now self.old.state self.new.state now }
        ensures closed { self.new.closed
            ≡ self.old.closed + entries_closed result (length self.old.state.records) }
        ensures full { self.new.full ≡ self.old.full }
        ensures bad { self.new.bad ≡ self.old.bad }
        ensures steps { self.new.steps ≡ self.old.steps
            ++ done_by share.old.worker (next_place self.old.state) (made_by result self.old.state command.now now) }
        ensures share { share.new ≡ share_counted (command_rise result) (next_place self.old.state)
            (made_by result self.old.state command.now now) share.old }
        ensures number { entries_appended self.new ≡ entries_appended self.old + (command_rise result).entries }
    {
        tenant_core::laws::calls();
        tenant_core::laws::records_are_made();
        one_list::laws::histories();
        one_list::laws::own_answers();
        let (answer, closed) = command_in(&mut self.book, alloc, command, now);
        tenant_core::laws::book_is_sound(&self.book);
        self.closed += closed;
        trace_command(chronicle, &mut self.part, share, &self.book, &answer);
        answer
    }
}

// Counts what a call added to a book. If it appended an entry, the book's last record is a step of the one list.
fn trace<J: Run>(
    chronicle: &Chronicle<J>,
    part: &mut TenantLog<J>,
    share: &mut Share<J>,
    book: &Book,
    rise: CallCounts,
)
    requires tenant { part.old.number < max_tenants }
    requires room { 0 < share.old.room }
    requires small { IsSmall rise }
    requires appended { rise.entries ≤ length book.now.records }
    ensures part { part.new ≡ grown part.old
        (steps_appended rise.entries share.old.worker part.old.number book.now.opening.period book.now.records) }
    ensures share { share.new ≡ share_raised rise part.old.number (with_steps
        (steps_appended rise.entries share.old.worker part.old.number book.now.opening.period book.now.records) share.old) }
{
    share.add(chronicle, part, rise, book.period(), book.journal());
}

// Counts what a command with that answer added to a book. The step of a roll is the last record of the period that it
// closed.
fn trace_command<J: Run>(
    chronicle: &Chronicle<J>,
    part: &mut TenantLog<J>,
    share: &mut Share<J>,
    book: &Book,
    answer: &Result<Answered, CommandFault>,
)
    requires tenant { part.old.number < max_tenants }
    requires room { 0 < share.old.room }
    requires appended { HasAppended answer.now book.now }
    ensures part { part.new ≡ grown part.old (steps_of_command answer.now share.old.worker part.old.number book.now) }
    ensures share { share.new ≡ share_raised (command_rise answer.now) part.old.number
        (with_steps (steps_of_command answer.now share.old.worker part.old.number book.now) share.old) }
{
    let rise = command_rise(answer);
    match answer {
        Ok(Answered::Rolled(period)) => {
            share.add(
                chronicle,
                part,
                rise,
                period.number(),
                period.records().journal(),
            );
        }
        Ok(Answered::Done | Answered::Balances(_)) | Err(_) => {
            share.add(chronicle, part, rise, book.period(), book.journal());
        }
    }
}

fn decide_in(book: &mut Book, slot: &mut Slot, now: Moment) -> (Turn, CallCounts)
    ensures turn { result.0 ≡ (decide_call slot.old book.old now).turn }
    ensures slot { slot.new ≡ (decide_call slot.old book.old now).work }
    ensures book { book.new ≡ recorded book.old (decide_call slot.old book.old now).made }
    ensures rise { result.1 ≡ rise_of (decide_call slot.old book.old now) }
    ensures entries { length book.new.records ≡ length book.old.records + result.1.entries }
    ensures opening { book.new.opening ≡ book.old.opening }
{
    let before = book.entries();
    let turn = slot.decide(book, now);
    let entries = book.entries() - before;
    (turn, rise_of_turn(turn, entries as u64))
}

// The turn, what is counted, and how many bad answers there are more.
fn answer_in(book: &mut Book, slot: &mut Slot, now: Moment, got: Got) -> (Turn, CallCounts, u64)
    ensures turn { result.0 ≡ (answer_call slot.old book.old now got).turn }
    ensures slot { slot.new ≡ (answer_call slot.old book.old now got).work }
    ensures book { book.new ≡ recorded book.old (answer_call slot.old book.old now got).made }
    ensures rise { result.1 ≡ rise_of (answer_call slot.old book.old now got) }
    ensures bad { result.2 ≡ bad_answers_in got (answer_call slot.old book.old now got).made }
    ensures entries { length book.new.records ≡ length book.old.records + result.1.entries }
    ensures opening { book.new.opening ≡ book.old.opening }
{
    let before = book.entries();
    let turn = slot.answer(book, now, got);
    let entries = book.entries() - before;
    let bad = bad_answers_in(got, last_beyond(book, before));
    (turn, rise_of_turn(turn, entries as u64), bad)
}

// The last record, if there are more than so many.
fn last_beyond(book: &Book, before: usize) -> Option<RecordView<'_>>
    ensures { option_map record_of result ≡ last_beyond before book.now.records }
{
    if book.entries() > before {
        book.journal().last()
    } else {
        None
    }
}

// How many bad answers there are more, once that came and this record was made.
fn bad_answers_in(got: Got, made: Option<RecordView<'_>>) -> u64
    ensures { result ≡ bad_answers_in got (option_map record_of made.entry) }
{
    match (got, made) {
        (Got::Filled(_), Some(made)) => bad_entry(&made.entry),
        _ => 0,
    }
}

fn bad_entry(entry: &EntryView<'_>) -> u64
    ensures { result ≡ bad_entry (entry_of entry.now) }
{
    match entry {
        EntryView::Answer(answer) if matches!(answer.key, AnswerKey::Fault) => 1,
        _ => 0,
    }
}

fn tick_in(book: &mut Book, now: Moment) -> (Result<u32, BookFault>, CallCounts)
    ensures count { result.0 ≡ tick_result book.old now }
    ensures book { book.new ≡ ticked book.old now }
    ensures rise { result.1 ≡ tick_rise result.0 }
    ensures entries { length book.new.records ≡ length book.old.records + result.1.entries }
    ensures opening { book.new.opening ≡ book.old.opening }
{
    let count = book.tick(now);
    (count, tick_rise(count))
}

// The answer, and how many entries of closed periods it adds.
fn command_in(
    book: &mut Book,
    alloc: Global,
    command: &Command,
    now: Moment,
) -> (Result<Answered, CommandFault>, u64)
    ensures answer { IsGoverned result.0 command.now book.old book.new now }
    ensures closed { result.1 ≡ entries_closed result.0 (length book.old.records) }
    ensures number { result.1 + length book.new.records ≡ length book.old.records + (command_rise result.0).entries }
    ensures most { most_entries book.old.opening.period + result.1 ≤ most_entries book.new.opening.period }
    ensures appended { HasAppended result.0 book.new }
{
    tenant_core::laws::book_is_sound(book);
    let entries = book.entries() as u64;
    let answer = book.command(alloc, command, now);
    let closed = entries_closed(&answer, entries);
    (answer, closed)
}
