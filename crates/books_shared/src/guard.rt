//! A tenant's book whose lock is held.

use crate::kept::LockedBook;
use crate::outcomes::PacketCounts;
use crate::share::Share;
use floor_core::{Got, Slot, Turn};
use ilp_addr::Moment;
use one_list::{Chronicle, Run, Watcher};
use std::alloc::Global;
use std::marker::Model;
use std::sync::MutexGuard;
use tenant_core::{Answered, Book, BookFault, Command, CommandFault};

/// A tenant's book whose lock is held, until the guard is dropped. Contracts see it as a `LockedBook`: the book's state, how
/// many entries its closed periods had, how many packets found its journal full, how many answers of peers were bad, and all
/// that was done to the book since `Books::new`. The latter are the tenant's steps in the one list of what is done to all books,
/// in order.
#[derive(Drop)]
pub struct Guard<'a, J: Run> {
    kept: MutexGuard<'a, LockedBook<J>>,
    chronicle: &'a Chronicle<J>,
}

impl<'a, J: Run> Model for Guard<'a, J> {
    ghost use Rattle.std.specs.Sync.Mutex.{mutex_guard_value};
    ghost use Rattle.books_shared.specs.Kept.{LockedBook};
    ghost use Rattle.std.specs.Coded.{codes};
    ghost use Rattle.route_table.specs.contracts.routes.Routes as routes;

    ghost Value = { LockedBook };

    ghost coded = { Prim.hlevel (codes, routes.the_row.coded) };

    ghost view = { λ g. mutex_guard_value g.kept };
}

impl<'a, J: Run> Guard<'a, J> {
    ghost use Rattle.std.specs.Prelude.{◌≡◌};
    ghost use Rattle.std.specs.Sync.Mutex.{mutex_guard_value};

    // The book whose lock was taken.
    pub(crate) fn new(
        kept: MutexGuard<'a, LockedBook<J>>,
        chronicle: &'a Chronicle<J>,
    ) -> Guard<'a, J>
        ensures { result ≡ mutex_guard_value kept.entry }
    {
        Guard { kept, chronicle }
    }
}

impl<J: Run> Guard<'_, J> {
    ghost use Rattle.std.specs.Prelude.{All, ◌≡◌, ◌+◌, ◌++◌, ◌∷◌, [], ◌<◌, ◌^◌, length, true};
    ghost use Rattle.floor_core.specs.Work.{decide_call, answer_call};
    ghost use Rattle.tenant_core.specs.State.{recorded};
    ghost use Rattle.tenant_core.specs.Answer.{tick_made, tick_result, ticked};
    ghost use Rattle.tenant_core.specs.Governed.{IsGoverned, made_by};
    ghost use Rattle.tenant_core.specs.Sound.{IsSound};
    ghost use Rattle.books_shared.specs.Kept.{LockInvariant, bad_risen, beginning_of, entries_appended, full_risen};
    ghost use Rattle.books_shared.specs.Outcomes.{AreCounted};
    ghost use Rattle.books_shared.specs.Rises.{command_rise, entries_closed, rise_of, tick_rise};
    ghost use Rattle.books_shared.specs.Shares.{share_met};
    ghost use Rattle.books_shared.specs.Traced.{IsLedTo, share_counted};
    ghost use Rattle.one_list.specs.Steps.{GoesOnFrom, done_by, next_place, of_tenant, of_worker};
    ghost use Rattle.books_shared.specs.Turns.{IsSlotLeft, IsEnded, IsSentBy};
    ghost use Rattle.one_list.specs.Holds.{AreOwnAnswers};

    // The invariant of the type.
    pub(crate) fn is_kept(&self)
        ensures kept { LockInvariant self.now }
        ensures led { IsLedTo J.openings self.now.state self.now.steps }
        ensures answers { J.own ≡ true → AreOwnAnswers self.now.steps }
    {
        self.kept.is_kept();
    }

    /// The book. It is the replay of its journal, and within its limits; and all its steps since `Books::new`, over all its
    /// periods, lead to it from the tenant's first opening.
    pub fn book(&self) -> &Book
        ensures book { result.now ≡ self.now.state }
        ensures sound { IsSound self.now.state }
        ensures led { IsLedTo J.openings self.now.state self.now.steps }
    {
        self.kept.is_kept();
        self.kept.book()
    }

    /// How many entries were appended to the book since `Books::new`, those of the closed periods and of their rolls
    /// too: below 2^47.
    pub fn number(&self) -> u64
        ensures value { result ≡ entries_appended self.now }
        ensures within { result < 2 ^ 47 }
    {
        self.kept.number()
    }

    /// How many packets had each outcome since `Books::new`: as many as records of the book's steps say so. A count ends at
    /// 2^64 - 1.
    pub fn packets(&self) -> PacketCounts
        ensures { AreCounted result self.now.steps }
    {
        self.kept.packets()
    }

    /// How many packets found the journal full since `Books::new`. They are no steps. The count ends at 2^64 - 1.
    pub fn full_journals(&self) -> u64
        ensures { result ≡ self.now.full }
    {
        self.kept.full_journals()
    }

    /// How many answers of peers were neither a Fulfill nor a Reject since `Books::new`: bytes came, and the answer's record says
    /// `Fault`. The count ends at 2^64 - 1.
    pub fn bad_answers(&self) -> u64
        ensures { result ≡ self.now.bad }
    {
        self.kept.bad_answers()
    }

    /// The book's steps by the worker of the share are exactly what this worker has done for the tenant until now, in
    /// its order. The share keeps that it has met the steps which led to this book. The one list's steps of the tenant
    /// begin with them (`Books::gather`). Nothing else changes, and it takes neither room nor memory.
    pub fn meet(&mut self, share: &mut Share<J>)
        ensures book { self.new ≡ self.old }
        ensures share { share.new ≡ share_met self.old.state.opening.tenant self.old.steps share.old }
        ensures shared { of_worker share.old.worker self.old.steps ≡ of_tenant self.old.state.opening.tenant share.old.steps }
    {
        self.kept.meet(self.chronicle, share);
    }

    /// The watcher keeps that it has met the steps which led to this book. They go on from those of the tenant that it had met before.
    /// Nothing else changes, and it takes neither room nor memory.
    pub fn watch(&mut self, watcher: &mut Watcher<J>)
        ensures book { self.new ≡ self.old }
        ensures watcher { watcher.new ≡ watcher.old ++ beginning_of self.old ∷ [] }
        ensures goes_on { All (GoesOnFrom self.old.state.opening.tenant self.old.steps) watcher.old }
    {
        self.kept.watch(self.chronicle, watcher);
    }

    /// Decides the frame of the slot by the book at this moment, as `Slot::decide` does, and counts what that adds:
    ///
    /// - the entry, of which a share of an audited run keeps a receipt;
    /// - or the token that is no peer's (`Stranger`);
    /// - or the packet for which the journal has no room (one case of `Reply`).
    ///
    /// After `Idle` and `Stray` only the room of a call was used up.
    ///
    /// The share must have room for a call, which this one uses up.
    pub fn decide(&mut self, share: &mut Share<J>, slot: &mut Slot, now: Moment) -> Turn
        requires room { 0 < share.old.room }
        ensures turn { result ≡ (decide_call slot.old self.old.state now).turn }
        ensures slot { slot.new ≡ (decide_call slot.old self.old.state now).work }
        ensures book { self.new.state ≡ recorded self.old.state (decide_call slot.old self.old.state now).made }
        ensures closed { self.new.closed ≡ self.old.closed }
        ensures full { self.new.full ≡ full_risen (rise_of (decide_call slot.old self.old.state now)) self.old.full }
        ensures bad { self.new.bad ≡ self.old.bad }
        ensures steps { self.new.steps ≡ self.old.steps
            ++ done_by share.old.worker (next_place self.old.state) (decide_call slot.old self.old.state now).made }
        ensures share { share.new ≡ share_counted (rise_of (decide_call slot.old self.old.state now)) (next_place self.old.state)
            (decide_call slot.old self.old.state now).made share.old }
        ensures number { entries_appended self.new
            ≡ entries_appended self.old + (rise_of (decide_call slot.old self.old.state now)).entries }
        // The slot, as the turn says it.
        ensures left { IsSlotLeft result slot.old slot.new }
    {
        self.kept.decide(self.chronicle, share, slot, now)
    }

    /// Settles the packet of the slot by the book and the answer, as `Slot::answer` does, and counts the entry that
    /// `Reply` appends. After `Idle` and `Stray` only the room of a call was used up.
    ///
    /// The share must have room for a call, which this one uses up. In a run in which each worker answers only packets
    /// that it sent on itself (`Run::own`), the share's worker must have sent this one on.
    pub fn answer(&mut self, share: &mut Share<J>, slot: &mut Slot, now: Moment, got: Got) -> Turn
        requires room { 0 < share.old.room }
        requires sent { J.own ≡ true → IsSentBy share.old.worker slot.old.job self.old.steps }
        ensures turn { result ≡ (answer_call slot.old self.old.state now got).turn }
        ensures slot { slot.new ≡ (answer_call slot.old self.old.state now got).work }
        ensures book { self.new.state ≡ recorded self.old.state (answer_call slot.old self.old.state now got).made }
        ensures closed { self.new.closed ≡ self.old.closed }
        ensures full { self.new.full ≡ self.old.full }
        ensures bad { self.new.bad ≡ bad_risen got (answer_call slot.old self.old.state now got).made self.old.bad }
        ensures steps { self.new.steps ≡ self.old.steps
            ++ done_by share.old.worker (next_place self.old.state) (answer_call slot.old self.old.state now got).made }
        ensures share { share.new ≡ share_counted (rise_of (answer_call slot.old self.old.state now got)) (next_place self.old.state)
            (answer_call slot.old self.old.state now got).made share.old }
        ensures number { entries_appended self.new
            ≡ entries_appended self.old + (rise_of (answer_call slot.old self.old.state now got)).entries }
        // The slot, as the turn says it.
        ensures left { IsEnded result slot.old slot.new }
    {
        self.kept.answer(self.chronicle, share, slot, now, got)
    }

    /// Records this moment in the book, as `Book::tick` does, and counts the entry. After `Full` only the room of a
    /// call was used up.
    ///
    /// The share must have room for a call, which this one uses up.
    pub fn tick(&mut self, share: &mut Share<J>, now: Moment) -> Result<u32, BookFault>
        requires room { 0 < share.old.room }
        ensures count { result ≡ tick_result self.old.state now }
        ensures book { self.new.state ≡ ticked self.old.state now }
        ensures closed { self.new.closed ≡ self.old.closed }
        ensures full { self.new.full ≡ self.old.full }
        ensures bad { self.new.bad ≡ self.old.bad }
        ensures steps { self.new.steps ≡ self.old.steps
            ++ done_by share.old.worker (next_place self.old.state) (tick_made self.old.state now) }
        ensures share { share.new ≡ share_counted (tick_rise result) (next_place self.old.state)
            (tick_made self.old.state now) share.old }
        ensures number { entries_appended self.new ≡ entries_appended self.old + (tick_rise result).entries }
    {
        self.kept.tick(self.chronicle, share, now)
    }

    /// Does a command of an operator at this moment, as `Book::command` does, and counts the entry of an order or a
    /// roll. After a roll, the entries of the period that it closed, and its own, are among those of the closed
    /// periods.
    ///
    /// The errors are those of `Book::command`, in its order. Then only the room of a call was used up.
    ///
    /// The share must have room for a call, which this one uses up.
    pub fn command(
        &mut self,
        alloc: Global,
        share: &mut Share<J>,
        command: &Command,
        now: Moment,
    ) -> Result<Answered, CommandFault>
        requires room { 0 < share.old.room }
        ensures answer { IsGoverned result command.now self.old.state self.new.state now }
        ensures closed { self.new.closed
            ≡ self.old.closed + entries_closed result (length self.old.state.records) }
        ensures full { self.new.full ≡ self.old.full }
        ensures bad { self.new.bad ≡ self.old.bad }
        ensures steps { self.new.steps ≡ self.old.steps
            ++ done_by share.old.worker (next_place self.old.state) (made_by result self.old.state command.now now) }
        ensures share { share.new ≡ share_counted (command_rise result) (next_place self.old.state)
            (made_by result self.old.state command.now now) share.old }
        ensures number { entries_appended self.new ≡ entries_appended self.old + (command_rise result).entries }
    {
        self.kept
            .command(alloc, self.chronicle, share, command, now)
    }
}
