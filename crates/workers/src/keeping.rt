//! Who keeps what is done to the books, before anything of it leaves.

ghost use Rattle.std.specs.Prelude.{◌≡◌, OnErr, OnOk, false};
ghost use Rattle.workers.specs.Keeping.{HasClosed, place_after};
ghost use Rattle.workers.specs.declared.keeping.JournalPlace.{JournalPlace as Place};

use books_shared::Guard;
use one_list::Run;
use tenant_core::{Book, Period};
use thiserror::Error;

/// A place in a tenant's journal: after so many records of the period of that number.
#[derive(Clone, Copy, Debug, PartialEq, Eq)]
pub struct JournalPlace {
    pub tenant: usize,
    pub period: u64,
    pub number: u64,
}

/// It is not known whether what was done is kept.
#[derive(Clone, Copy, Debug, PartialEq, Eq, Error)]
#[error("not known to be kept")]
pub struct NotKept;

/// Who keeps what is done to the books of a run, so that it outlives the process.
pub trait Keeping<J: Run> {
    /// That all records of a tenant before that place are kept.
    ghost keeps: { Self → Place → Type 0 };

    /// That it may have no room, or fail.
    ghost fails: { Self → Type 0 };

    /// Whether there is room for what one packet or one command of the tenant more may record. Nothing is recorded without it.
    fn has_room(&self, tenant: usize) -> bool
        ensures { result ≡ false → fails self.now };

    /// A roll has just closed that period of the tenant's book, whose lock is held. The book stays as it is.
    fn note_closed(&self, guard: &mut Guard<'_, J>, period: &Period)
        requires closed { HasClosed J.openings guard.old period.now }
        ensures same { guard.new ≡ guard.old };

    /// Waits until all records of a tenant before that place are kept. No lock is held meanwhile.
    ///
    /// `NotKept` if it has failed, and then nothing more is kept, or if it takes too long.
    fn wait(&self, place: JournalPlace) -> Result<(), NotKept>
        ensures kept { OnOk result (keeps self.now place) }
        ensures failed { OnErr result (fails self.now) };
}

/// Who keeps nothing: what was done is gone with the process.
#[derive(Clone, Copy, Debug, PartialEq, Eq)]
pub struct NothingKept;

impl<J: Run> Keeping<J> for NothingKept {
    ghost keeps = { λ _ _. Unit {0} };

    ghost fails = { λ _. ⊥ };

    fn has_room(&self, _tenant: usize) -> bool {
        true
    }

    fn note_closed(&self, _guard: &mut Guard<'_, J>, _period: &Period) {}

    fn wait(&self, _place: JournalPlace) -> Result<(), NotKept> {
        Ok(())
    }
}

/// Evidence that what led to something is kept, so that it may leave. Only a wait gives it.
#[derive(Drop)]
pub struct Durable(());

/// Waits until all records of a tenant before that place are kept.
pub(crate) fn wait_for<J: Run, K: Keeping<J>>(
    keeping: &K,
    place: JournalPlace,
) -> Result<Durable, NotKept>
    ensures kept { OnOk result (K.keeps keeping.now place) }
    ensures failed { OnErr result (K.fails keeping.now) }
{
    keeping.wait(place)?;
    Ok(Durable(()))
}

/// The place after the last record of a book.
pub fn place_after(book: &Book) -> JournalPlace
    ensures { result ≡ place_after book.now }
{
    JournalPlace {
        tenant: book.tenant(),
        period: book.period(),
        number: book.entries() as u64,
    }
}
