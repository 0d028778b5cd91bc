//! The journal of tenants' books on disk.

ghost use Rattle.std.specs.Prelude.{◌≡◌, ◌≢◌, ◌↔◌, ◌++◌, ◌⊎◌, [], drop, false, true, fold, length, map, All, slice_index_or, slice_set, Err, IfOk, OnErr, OnOk};
ghost use Rattle.book_journal.specs.Written.{HasNoRoom, IsCommitted, closed_state, commit_text, first_place, lines_from, new_records, noted, place_in};
ghost use Rattle.book_log.specs.Written.{IsLoggable};
ghost use Rattle.line_log.specs.File.{LeavesOnly};
ghost use Rattle.line_log.specs.Log.{IsLines, IsSettled, IsWithSome, recovered};
ghost use Rattle.tenant_core.specs.Sound.{IsSound};

use crate::lines::{first_place, place_after, put_new_lines};
use crate::loggable::{book_is_loggable, books_are_loggable, period_is_loggable};
use crate::writer::{CommitFault, LogWriter};
use book_log::{LinePlace, TenantStart, place_of};
use line_log::{Log, LogError, LogFile};
use std::alloc::{AllocError, Global};
use std::marker::Model;
use tenant_core::{Book, Period};

/// The journal of tenants on disk. What their books get is noted as lines; a commit writes those that are not on the
/// disk, with their sum, and syncs them.
#[derive(Drop)]
pub struct Journal<D: LogFile> {
    writer: LogWriter<D>,
    pending: Vec<u8>,
    places: Vec<LinePlace>,
}

impl<D: LogFile> Model for Journal<D> {
    ghost use Rattle.book_journal.specs.Written.{Written};

    ghost Value = { Written D };

    ghost view = { λ j. record { log = j.writer.log; sum = j.writer.sum; pending = j.pending.items; places = j.places.items; spoilt = j.writer.spoilt } };
}

// The places of the first records of these tenants.
fn first_places(alloc: Global, starts: &[TenantStart]) -> Result<Vec<LinePlace>, AllocError>
    ensures { IfOk result (λ places. places.items ≡ map first_place starts.now) }
{
    let mut places = Vec::new(alloc);
    for start in starts {
        places.push(first_place(&start.opening))?;
    }
    Ok(places)
}

impl<D: LogFile + Drop> Journal<D> {
    /// The journal of these tenants, to whom nothing has happened, in a log that ends with that sum. Fails only if it is out of
    /// memory.
    pub fn new(
        alloc: Global,
        log: Log<D>,
        sum: [u8; 32],
        starts: &[TenantStart],
    ) -> Result<Journal<D>, AllocError>
        ensures { IfOk result (λ journal. journal
            ≡ record { log = log; sum = sum; pending = []; places = map first_place starts.now; spoilt = false }) }
    {
        let places = first_places(alloc, starts)?;
        Ok(Journal {
            writer: LogWriter::new(log, sum),
            pending: Vec::new(alloc),
            places,
        })
    }

    /// The log that it is written in.
    pub fn log(&self) -> &Log<D>
        ensures { result.now ≡ self.now.log }
    {
        self.writer.log()
    }

    /// Notes what the book of a tenant has got since it was noted last, in its running period. If it is out of memory, the
    /// journal is spoilt.
    pub fn note(&mut self, book: &Book) -> Result<(), AllocError>
        ensures noted { OnOk result (self.new ≡ noted self.old book.now) }
        ensures loggable { All IsLoggable (new_records self.old.places book.now) }
        ensures spoilt { OnErr result (self.new.spoilt ≡ true) }
        ensures log { self.new.log ≡ self.old.log }
    {
        book_is_loggable(&self.places, book);
        self.note_book(book)
    }

    fn note_book(&mut self, book: &Book) -> Result<(), AllocError>
        ensures noted { OnOk result (self.new ≡ noted self.old book.now) }
        ensures spoilt { OnErr result (self.new.spoilt ≡ true) }
        ensures log { self.new.log ≡ self.old.log }
    {
        self.note_records(book.journal(), place_of(book))
    }

    /// Notes what the book of a tenant got in a period that a roll closed, the roll too. If it is out of memory, the journal is
    /// spoilt.
    pub fn note_closed(&mut self, period: &Period) -> Result<(), AllocError>
        ensures noted { OnOk result (self.new ≡ noted self.old (closed_state period.now)) }
        ensures loggable { All IsLoggable (new_records self.old.places (closed_state period.now)) }
        ensures spoilt { OnErr result (self.new.spoilt ≡ true) }
        ensures log { self.new.log ≡ self.old.log }
    {
        period_is_loggable(&self.places, period);
        self.note_records(period.records().journal(), place_after(period))
    }

    // Notes the records of a period. That is the place after the last.
    fn note_records(
        &mut self,
        records: &tenant_core::Journal,
        next: LinePlace,
    ) -> Result<(), AllocError>
        requires { next.number ≡ length records.now.records }
        ensures pending { OnOk result (self.new.pending ≡ self.old.pending
            ++ lines_from (place_in (slice_index_or self.old.places next.tenant next) next.period)
            (drop (place_in (slice_index_or self.old.places next.tenant next) next.period).number records.now.records)) }
        ensures place { OnOk result (self.new.places ≡ slice_set self.old.places next.tenant next) }
        ensures log { self.new.log ≡ self.old.log }
        ensures sum { self.new.sum ≡ self.old.sum }
        ensures sound { OnOk result (self.new.spoilt ≡ self.old.spoilt) }
        ensures spoilt { OnErr result (self.new.spoilt ≡ true) }
    {
        let Some(place) = self.places.get_mut(next.tenant) else {
            return Ok(());
        };
        if put_new_lines(&mut self.pending, place, records, next).is_err() {
            self.writer.spoil();
            return Err(AllocError);
        }
        Ok(())
    }

    /// Notes what the books of all tenants have got since they were noted last, and commits it.
    ///
    /// `Tenants` if there are not as many books as tenants: nothing has changed then. Any other error is one of `commit` after the
    /// books were noted, or `Memory` for that, after which the journal is spoilt.
    pub fn keep(&mut self, books: &[Book]) -> Result<(), CommitFault>
        ensures tenants { OnOk result (length books.now ≡ length self.old.places) }
        ensures strangers { result ≡ Err CommitFault.Tenants → length books.now ≢ length self.old.places }
        ensures untouched { result ≡ Err CommitFault.Tenants → self.new ≡ self.old }
        ensures sound { All IsSound books.now }
        ensures loggable { All (λ b. All IsLoggable (new_records self.old.places b)) books.now }
        ensures kept { OnOk result (IsCommitted D.seen (fold noted self.old books.now) self.new) }
        ensures any_moment { self.old.log.broken ≡ false → (self.new.log ≡ self.old.log)
            ⊎ LeavesOnly D.moment D.left_since self.old.log.file self.new.log.file
            (IsWithSome (recovered (D.seen self.old.log.file))
            (recovered (commit_text (fold noted self.old books.now).sum (fold noted self.old books.now).pending))) }
        ensures unbroken { OnOk result ((self.new.log ≡ self.old.log) ⊎ (self.old.log.broken ≡ false)) }
        ensures full { result ≡ Err (CommitFault.Log LogError.Full)
            → HasNoRoom (fold noted self.old books.now) × (self.new ≡ fold noted self.old books.now) }
        ensures was_spoilt { result ≡ Err CommitFault.Spoilt → self.old.spoilt ≡ true }
        ensures spoilt { OnErr result ((result ≡ Err CommitFault.Tenants) ⊎ (result ≡ Err (CommitFault.Log LogError.Full))
            ⊎ (self.new.spoilt ≡ true)) }
    {
        are_sound(books);
        books_are_loggable(&self.places, books);
        if books.len() != self.places.len() {
            return Err(CommitFault::Tenants);
        }
        self.note_all(books)?;
        self.commit()
    }

    fn note_all(&mut self, books: &[Book]) -> Result<(), AllocError>
        ensures noted { OnOk result (self.new ≡ fold noted self.old books.now) }
        ensures spoilt { OnErr result (self.new.spoilt ≡ true) }
        ensures log { self.new.log ≡ self.old.log }
    {
        for book in books {
            self.note_book(book)?;
        }
        Ok(())
    }

    /// Writes the lines that are not on the disk after its records, with their sum, by one write, and syncs them. If there
    /// are none, nothing is asked of the log.
    ///
    /// At `Ok` they are acknowledged: each crash from then on leaves a file that has them. A crash at any moment of the
    /// call leaves the records from before it and the first ones of these, in their order.
    ///
    /// `Full` if they have no room: nothing has changed then. After any other error the journal is spoilt: `Spoilt` exactly if it
    /// was, `Line` only if they are not whole lines, `Failed` and `Broken` of the log, and `Memory`.
    pub fn commit(&mut self) -> Result<(), CommitFault>
        ensures acknowledged { OnOk result (IsCommitted D.seen self.old self.new) }
        ensures settled { OnOk result ((self.old.pending ≡ []) ⊎ IsSettled D.seen D.may_leave self.new.log) }
        ensures any_moment { self.old.log.broken ≡ false → (self.new.log ≡ self.old.log)
            ⊎ LeavesOnly D.moment D.left_since self.old.log.file self.new.log.file
            (IsWithSome (recovered (D.seen self.old.log.file)) (recovered (commit_text self.old.sum self.old.pending))) }
        ensures unbroken { OnOk result ((self.new.log ≡ self.old.log) ⊎ (self.old.log.broken ≡ false)) }
        ensures full { result ≡ Err (CommitFault.Log LogError.Full) → HasNoRoom self.old × (self.new ≡ self.old) }
        ensures was_spoilt { result ≡ Err CommitFault.Spoilt ↔ self.old.spoilt ≡ true }
        ensures no_lines { result ≡ Err CommitFault.Line → IsLines (commit_text self.old.sum self.old.pending) → ⊥ }
        ensures failed { result ≡ Err (CommitFault.Log LogError.Failed) → D.has_failed self.new.log.file ≡ true }
        ensures broken { result ≡ Err (CommitFault.Log LogError.Broken) → self.old.log.broken ≡ true }
        ensures own_books { result ≢ Err CommitFault.Tenants }
        ensures spoilt { OnErr result ((result ≡ Err (CommitFault.Log LogError.Full)) ⊎ (self.new.spoilt ≡ true)) }
    {
        self.writer.commit(&mut self.pending)
    }
}

// Each of the books is sound, as its type keeps it.
fn are_sound(books: &[Book])
    ensures { All IsSound books.now }
{
    for book in books {
        tenant_core::laws::book_is_sound(book);
    }
}
