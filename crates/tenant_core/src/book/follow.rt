//! Books that follow the entries of a journal.

ghost use Rattle.std.specs.Prelude.{◌≡◌, false, IfOk, OnErr, length};
ghost use Rattle.std.specs.Result.{result_ok};
ghost use Rattle.tenant_core.specs.Followed.{order_outcome};
ghost use Rattle.tenant_core.specs.Reopening.{is_roll, IsStep, IsFollowed};
ghost use Rattle.tenant_core.specs.State.{entered_at};
ghost use Rattle.tenant_core.specs.declared.journal.Entry.TheVariants as entries;

use super::Book;
use crate::faults::CommandFault;
use crate::journal::{
    AnswerEntry, ChangeEntry, DecideEntry, Entry, Expiry, Outcome, PrepareKey, TickEntry,
};
use crate::orders::order_for;
use crate::record_view::is_sayable;
use crate::routing::peer_numbered;
use ilp_addr::{Address, Moment};
use std::alloc::{AllocError, Global};

// What the entry of a change leads to, by the result of its order.
fn order_outcome(done: Result<(), CommandFault>) -> Result<Option<Outcome>, AllocError>
    ensures { result_ok result ≡ order_outcome done }
{
    match done {
        Ok(()) => Ok(Some(Outcome::Done)),
        Err(CommandFault::Memory) => Err(AllocError),
        Err(_) => Ok(None),
    }
}

impl Entry {
    /// The moment at which it came, in milliseconds since 1970-01-01.
    pub fn moment(&self) -> u64
        ensures { result ≡ entered_at self.now }
    {
        match self {
            Entry::Decide(entry) => entry.now,
            Entry::Answer(entry) => entry.now,
            Entry::Tick(entry) => entry.now,
            Entry::Change(entry) => entry.now,
            Entry::Roll(entry) => entry.now,
        }
    }

    /// Whether it ends its period.
    pub fn is_roll(&self) -> bool
        ensures { result ≡ is_roll self.now }
    {
        matches!(self, Entry::Roll(_))
    }
}

impl Book {
    fn follow_decide(&mut self, decide: &DecideEntry, now: Moment) -> Option<Outcome>
        requires { now ≡ decide.now.now }
        ensures { IsStep self.old self.new (entries.Decide decide.entry.now) result }
    {
        let expiry = Expiry::new(decide.expiry)?;
        let Ok(destination) = Address::parse(decide.destination.as_slice()) else {
            return None;
        };
        is_sayable(decide.amount, expiry, &decide.condition, &destination);
        let token = match peer_numbered(&self.network, decide.peer) {
            Some(peer) => peer.terms.token.copy(),
            None => return None,
        };
        if self.standing().is_full() {
            return None;
        }
        let key = PrepareKey {
            amount: decide.amount,
            expiry,
            condition: &decide.condition,
            destination: &destination,
        };
        let verdict = self.decide(token.as_bytes(), &key, now);
        Some(Outcome::Packet(verdict))
    }

    fn follow_answer(&mut self, answer: &AnswerEntry, now: Moment) -> Option<Outcome>
        requires { now ≡ answer.now.now }
        ensures { IsStep self.old self.new (entries.Answer answer.entry.now) result }
    {
        match self.answer(answer.hold, now, answer.key) {
            Ok(verdict) => Some(Outcome::Packet(verdict)),
            Err(_) => None,
        }
    }

    fn follow_tick(&mut self, tick: TickEntry, now: Moment) -> Option<Outcome>
        requires { now ≡ tick.now }
        ensures { IsStep self.old self.new (entries.Tick tick) result }
    {
        match self.tick(now) {
            Ok(count) => Some(Outcome::Ticked(count)),
            Err(_) => None,
        }
    }

    fn follow_change(
        &mut self,
        alloc: Global,
        change: &ChangeEntry,
        now: Moment,
    ) -> Result<Option<Outcome>, AllocError>
        requires { now ≡ change.now.now }
        ensures step { IfOk result (IsStep self.old self.new (entries.Change change.entry.now)) }
        ensures err { OnErr result (self.new ≡ self.old) }
    {
        let Some(order) = order_for(alloc, &self.network, &change.change)? else {
            return Ok(None);
        };
        order_outcome(self.order(alloc, &order, now))
    }

    /// Does again what an entry records, and returns its outcome now. `None` if it would not be recorded: nothing has
    /// changed then. Fails only if it is out of memory, and nothing has changed then either.
    pub fn follow(&mut self, alloc: Global, entry: &Entry) -> Result<Option<Outcome>, AllocError>
        requires { is_roll entry.now ≡ false }
        ensures followed { IfOk result (IsFollowed self.old self.new entry.now) }
        ensures err { OnErr result (self.new ≡ self.old) }
    {
        let Some(now) = Moment::new(entry.moment()) else {
            return Ok(None);
        };
        match entry {
            Entry::Decide(decide) => Ok(self.follow_decide(decide, now)),
            Entry::Answer(answer) => Ok(self.follow_answer(answer, now)),
            Entry::Tick(tick) => Ok(self.follow_tick(*tick, now)),
            Entry::Change(change) => self.follow_change(alloc, change, now),
            Entry::Roll(_) => Ok(None),
        }
    }
}
