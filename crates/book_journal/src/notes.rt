//! The lines of one tenant's records that nobody has taken yet.

ghost use Rattle.std.specs.Prelude.{◌≡◌, ◌++◌, drop, true, All, OnErr, OnOk};
ghost use Rattle.book_journal.specs.Noted.{no_notes, noted_by, unnoted, taken};
ghost use Rattle.book_journal.specs.Written.{closed_state, lines_from, place_in};
ghost use Rattle.book_log.specs.Written.{IsLoggable};

use crate::lines::{first_place, place_after, put_new_lines};
use crate::loggable::{book_is_loggable_from, period_is_loggable_from};
use book_log::{LinePlace, place_of};
use std::alloc::{AllocError, Global};
use std::marker::Model;
use tenant_core::{Book, Journal, Opening, Period};

/// The notes of one tenant: a line for each record that its book has got, until a caller takes them.
///
/// They are for books under locks: a thread that holds the lock notes the book, and a `LogWriter` commits the lines afterwards.
#[derive(Drop)]
pub struct Notes {
    pending: Vec<u8>,
    place: LinePlace,
    spoilt: bool,
}

impl Model for Notes {
    ghost use Rattle.book_journal.specs.Noted.{NotesState};

    ghost Value = { NotesState };

    ghost view = { λ n. record { pending = n.pending.items; place = n.place; spoilt = n.spoilt } };
}

impl Notes {
    /// The notes of a tenant to whom nothing has happened since its opening.
    pub fn new(alloc: Global, opening: &Opening) -> Notes
        ensures { result ≡ no_notes opening.now }
    {
        Notes {
            pending: Vec::new(alloc),
            place: first_place(opening),
            spoilt: false,
        }
    }

    /// Notes what the tenant's book has got since it was noted last, in its running period. If it is out of memory, the notes are
    /// spoilt.
    pub fn note(&mut self, book: &Book) -> Result<(), AllocError>
        ensures noted { OnOk result (self.new ≡ noted_by self.old book.now) }
        ensures loggable { All IsLoggable (unnoted self.old.place book.now) }
        ensures spoilt { OnErr result (self.new.spoilt ≡ true) }
    {
        book_is_loggable_from(self.place, book);
        self.note_records(book.journal(), place_of(book))
    }

    /// Notes what the tenant's book got in a period that a roll closed, the roll too. If it is out of memory, the notes are
    /// spoilt.
    pub fn note_closed(&mut self, period: &Period) -> Result<(), AllocError>
        ensures noted { OnOk result (self.new ≡ noted_by self.old (closed_state period.now)) }
        ensures loggable { All IsLoggable (unnoted self.old.place (closed_state period.now)) }
        ensures spoilt { OnErr result (self.new.spoilt ≡ true) }
    {
        period_is_loggable_from(self.place, period);
        self.note_records(period.records().journal(), place_after(period))
    }

    // Notes the records of a period. That is the place after the last.
    fn note_records(&mut self, records: &Journal, next: LinePlace) -> Result<(), AllocError>
        ensures pending { OnOk result (self.new.pending ≡ self.old.pending
            ++ lines_from (place_in self.old.place next.period) (drop (place_in self.old.place next.period).number records.now.records)) }
        ensures place { self.new.place ≡ next }
        ensures sound { OnOk result (self.new.spoilt ≡ self.old.spoilt) }
        ensures spoilt { OnErr result (self.new.spoilt ≡ true) }
    {
        if put_new_lines(&mut self.pending, &mut self.place, records, next).is_err() {
            self.spoilt = true;
            return Err(AllocError);
        }
        Ok(())
    }

    /// Where the tenant's first record without a line is.
    pub fn place(&self) -> LinePlace
        ensures { result ≡ self.now.place }
    {
        self.place
    }

    /// Whether an allocation failed while records were noted: lines are missing from then on.
    pub fn is_spoilt(&self) -> bool
        ensures { result ≡ self.now.spoilt }
    {
        self.spoilt
    }

    /// Appends the lines that nobody has taken yet to others, after which they are taken. If it is out of memory, nothing has
    /// changed.
    pub fn take(&mut self, lines: &mut Vec<u8>) -> Result<(), AllocError>
        ensures lines { OnOk result (lines.new.items ≡ lines.old.items ++ self.old.pending) }
        ensures taken { OnOk result (self.new ≡ taken self.old) }
        ensures untouched { OnErr result ((lines.new.items ≡ lines.old.items) × (self.new ≡ self.old)) }
    {
        lines.extend_from_slice(&self.pending)?;
        self.pending.clear();
        Ok(())
    }
}
