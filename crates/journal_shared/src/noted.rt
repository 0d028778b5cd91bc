//! The lines of a tenant that nobody has taken yet, as they lie under a lock.

ghost use Rattle.std.specs.Prelude.{◌≡◌, [], IfOk, OnOk};
ghost use Rattle.tenant_core.specs.State.{opened};
ghost use Rattle.books_shared.specs.Traced.{IsLedTo};
ghost use Rattle.workers.specs.Keeping.{HasClosed};
ghost use Rattle.journal_shared.specs.Fronts.{AreTaken, EndWith, front_of};

use book_journal::{CommitFault, Notes};
use book_log::{LinePlace, place_of};
use books_shared::Guard;
use one_list::{Run, Watcher};
use std::alloc::{AllocError, Global};
use std::marker::Model;
use tenant_core::{Opening, Period};

/// The notes of a tenant, and where they begin and end: the place of the first record that had no line when its lines were taken
/// last, and that of the first one that has none now. The watcher meets each book that is noted. So the steps of the next one go
/// on from those of the last.
#[derive(Drop)]
pub(crate) struct Noted<J: Run> {
    notes: Notes,
    watcher: Watcher<J>,
    from: LinePlace,
    to: LinePlace,
}

impl<J: Run> Model for Noted<J> {
    ghost use Rattle.journal_shared.specs.Fronts.{IsNoted, NotedState};

    ghost Value = { NotedState };

    ghost view = { λ n. record { notes = n.notes; met = n.watcher; from = n.from; to = n.to } };

    ghost invariant = { λ n. IsNoted J.openings (record { notes = n.notes; met = n.watcher; from = n.from; to = n.to }) };
}

impl<J: Run> Noted<J> {
    // The notes of a tenant to whom nothing has happened since its opening.
    pub(crate) fn new(alloc: Global, opening: &Opening, watcher: Watcher<J>) -> Noted<J>
        requires { IsLedTo J.openings (opened opening.now) [] }
    {
        let notes = Notes::new(alloc, opening);
        let from = notes.place();
        Noted {
            notes,
            watcher,
            from,
            to: from,
        }
    }

    // Notes what the tenant's book has got since it was noted last. Fails if a roll was not noted.
    fn note(&mut self, guard: &mut Guard<'_, J>) -> Result<(), AllocError>
        ensures same { guard.new ≡ guard.old }
        ensures from { self.new.from ≡ self.old.from }
        ensures noted { OnOk result (EndWith J.openings self.new guard.old) }
    {
        let to = place_of(guard.book());
        if to.tenant != self.to.tenant || to.period != self.to.period {
            return Err(AllocError);
        }
        guard.watch(&mut self.watcher);
        self.notes.note(guard.book())?;
        self.to = to;
        Ok(())
    }

    // Notes what the book got in a period that a roll has just closed, the roll too.
    pub(crate) fn note_closed(
        &mut self,
        guard: &mut Guard<'_, J>,
        period: &Period,
    ) -> Result<(), AllocError>
        requires closed { HasClosed J.openings guard.old period.now }
        ensures same { guard.new ≡ guard.old }
    {
        tenant_core::laws::period_is_kept(period);
        if period.tenant() != self.to.tenant || period.number() != self.to.period {
            return Err(AllocError);
        }
        guard.watch(&mut self.watcher);
        self.notes.note_closed(period)?;
        self.to = place_of(guard.book());
        Ok(())
    }

    // Appends a line to others for each step of the tenant's book from this place on, if the lines before it were taken. That is the
    // place after the last of them.
    pub(crate) fn take(
        &mut self,
        guard: &mut Guard<'_, J>,
        from: LinePlace,
        lines: &mut Vec<u8>,
    ) -> Result<LinePlace, CommitFault>
        ensures same { guard.new ≡ guard.old }
        ensures taken { IfOk result (λ to. AreTaken J.openings from (front_of guard.old) lines.old.items lines.new.items to) }
    {
        self.note(guard)?;
        if self.notes.is_spoilt() {
            return Err(CommitFault::Memory);
        }
        if self.from != from {
            return Err(CommitFault::Tenants);
        }
        self.notes.take(lines)?;
        self.from = self.to;
        Ok(self.to)
    }
}
