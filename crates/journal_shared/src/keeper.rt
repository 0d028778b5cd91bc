//! Who keeps what is done to the books.

ghost use Rattle.std.specs.Prelude.{◌≡◌, [], is_some, true, IfOk, OnErr, OnOk};
ghost use Rattle.journal_shared.specs.Fronts.{AreAppended, Front, HasMetMore, IsFront, IsMet, end_of};
ghost use Rattle.journal_shared.specs.Kept.{IsKept, IsKeptIn};
ghost use Rattle.journal_shared.specs.Progress.{HasNext, IsReady};
ghost use Rattle.workers.specs.declared.keeping.JournalPlace.{JournalPlace as Place};

use crate::pen::Pen;
use crate::shared::SharedJournal;
use book_journal::CommitFault;
use book_log::LinePlace;
use books_shared::{Books, Guard};
use line_log::LogFile;
use one_list::{Run, Watcher};
use std::sync::atomic::Ordering;
use std::sync::{Condvar, Wait};
use std::time::{Clock, Duration, Instant};
use tenant_core::Period;
use workers::{JournalPlace, Keeping, NotKept, left_until};

/// Who keeps what is done to the books: in the journal on disk, if there is one, and otherwise nowhere.
#[derive(Drop)]
pub struct Keeper<'a, H, D: LogFile, J: Run> {
    pub handle: &'a H,
    pub books: &'a Books<J>,
    pub journal: &'a Option<SharedJournal<D, J>>,
}

impl<H: Wait + Clock, D: LogFile + Drop, J: Run> Keeper<'_, H, D, J> {
    // Appends lines of what the book of a tenant has got, from that place on. That is the place after them. The book's lock is held
    // meanwhile.
    fn note(
        &self,
        journal: &SharedJournal<D, J>,
        from: LinePlace,
        watcher: &mut Watcher<J>,
        lines: &mut Vec<u8>,
    ) -> Result<LinePlace, CommitFault>
        ensures lines { (before : Front) → IsFront J.openings before → IsMet watcher.old before → from ≡ end_of before
            → IfOk result (λ to. AreAppended J.openings before lines.old.items lines.new.items to watcher.new) }
        ensures met { HasMetMore watcher.old watcher.new }
    {
        let Some(notes) = journal.notes.get(from.tenant) else {
            return Err(CommitFault::Tenants);
        };
        if from.tenant >= self.books.tenants() {
            return Err(CommitFault::Tenants);
        }
        let mut guard = self.books.enter(self.handle, from.tenant);
        guard.watch(watcher);
        notes.lock(self.handle).take(&mut guard, from, lines)
    }

    // Puts what the books of all tenants have got into what is written next.
    fn note_all(
        &self,
        journal: &SharedJournal<D, J>,
        pen: &mut Pen<D, J>,
    ) -> Result<(), CommitFault>
        requires ready { IsReady D.seen D.may_leave J.openings pen.old }
        ensures next { OnOk result (HasNext D.seen D.may_leave J.openings pen.new) }
    {
        pen.next.clear();
        for tenant in 0..pen.places.len() {
            let from = pen.places[tenant];
            let to = self.note(journal, from, &mut pen.watcher, &mut pen.lines)?;
            if pen.next.push(to).is_err() {
                return Err(CommitFault::Memory);
            }
        }
        Ok(())
    }

    // Writes what the books of all tenants have got, and syncs it.
    fn write(&self, journal: &SharedJournal<D, J>, pen: &mut Pen<D, J>) -> Result<(), CommitFault>
        requires ready { IsReady D.seen D.may_leave J.openings pen.old }
        ensures ready { OnOk result (IsReady D.seen D.may_leave J.openings pen.new) }
    {
        journal.writes.begin(self.handle);
        let written = match self.note_all(journal, pen) {
            Ok(()) => pen.commit(),
            Err(fault) => Err(fault),
        };
        journal.writes.end(self.handle, written.is_ok());
        journal.left.store(pen.left(), Ordering::SeqCst);
        if written.is_err() {
            journal.has_failed.store(true, Ordering::SeqCst);
        }
        written
    }

    // Until when a thread waits that begins to wait now.
    fn longest_until(&self, journal: &SharedJournal<D, J>) -> Option<Instant> {
        let now = Instant::now(self.handle).ok()?;
        now.checked_add(Duration::from_millis(journal.limits.longest_wait))
    }

    // Waits until all records of a tenant before a place are kept, and writes them if nobody else does. The wait ends early if
    // nothing more is kept, or if another thread writes for too long.
    fn wait_in(&self, journal: &SharedJournal<D, J>, bell: &Condvar, place: JournalPlace) -> bool
        ensures { result ≡ true → IsKept D.seen D.may_leave J.openings place }
    {
        let Some(until) = self.longest_until(journal) else {
            return false;
        };
        let mut progress = journal.progress.lock(self.handle);
        for _ in self.handle.forever() {
            if progress.has_failed() {
                return false;
            }
            if progress.has(place) {
                return true;
            }
            match progress.take_pen() {
                None => {
                    let left = left_until(self.handle, until);
                    if left.is_zero() {
                        return false;
                    }
                    progress = bell.wait_timeout(self.handle, progress, left).0;
                }
                Some(mut pen) => {
                    drop(progress);
                    let written = self.write(journal, &mut pen);
                    progress = journal.progress.lock(self.handle);
                    match written {
                        Ok(()) => progress.put_back(pen),
                        Err(_) => progress.fail(),
                    }
                    for bell in &journal.bells {
                        bell.notify_all();
                    }
                }
            }
        }
        unreachable!()
    }
}

impl<H: Wait + Clock, D: LogFile + Drop, J: Run> Keeping<J> for Keeper<'_, H, D, J> {
    ghost keeps = { λ k place. IsKeptIn D.seen D.may_leave J.openings k.journal.now place };

    ghost fails = { λ k. is_some k.journal.now ≡ true };

    fn has_room(&self, _tenant: usize) -> bool {
        match self.journal {
            Some(journal) => journal.has_room(self.handle),
            None => true,
        }
    }

    // If it is out of memory, the notes are spoilt, and nothing more is kept.
    fn note_closed(&self, guard: &mut Guard<'_, J>, period: &Period) {
        let Some(journal) = self.journal else {
            return;
        };
        if let Some(notes) = journal.notes.get(period.tenant()) {
            let _ = notes.lock(self.handle).note_closed(guard, period);
        }
    }

    fn wait(&self, place: JournalPlace) -> Result<(), NotKept> {
        let Some(journal) = self.journal else {
            return Ok(());
        };
        let is_kept = match journal.bells.get(place.tenant) {
            Some(bell) => self.wait_in(journal, bell, place),
            None => false,
        };
        if is_kept { Ok(()) } else { Err(NotKept) }
    }
}
