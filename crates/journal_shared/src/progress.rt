//! How far a journal is on the disk.

ghost use Rattle.std.specs.Prelude.{◌≡◌, [], false, true, IfSome};
ghost use Rattle.journal_shared.specs.Kept.{IsKept, covers};
ghost use Rattle.journal_shared.specs.Progress.{IsReady, IsSaid, has_kept};

use crate::pen::Pen;
use book_log::LinePlace;
use line_log::LogFile;
use one_list::Run;
use std::marker::{Model, PhantomData};
use workers::JournalPlace;

// Whether all records of a tenant before a place are among those before another one.
fn covers(kept: LinePlace, place: JournalPlace) -> bool
    ensures { result ≡ covers kept place }
{
    kept.tenant == place.tenant
        && (place.period < kept.period
            || (place.period == kept.period && place.number <= kept.number))
}

/// How far a journal is on the disk, and what it is written with.
#[derive(Drop)]
pub(crate) struct Progress<D: LogFile, J: Run> {
    // The pen, unless somebody writes.
    pen: Option<Pen<D, J>>,
    // For each tenant the place before which all its records are kept.
    kept: Vec<LinePlace>,
    has_failed: bool,
    of: PhantomData<J>,
}

impl<D: LogFile, J: Run> Model for Progress<D, J> {
    ghost use Rattle.journal_shared.specs.Progress.{IsProgress, ProgressState};

    ghost Value = { ProgressState };

    ghost view = { λ p. record { kept = p.kept.items; has_failed = p.has_failed } };

    ghost invariant = { λ p. IsProgress D.seen D.may_leave J.openings p.pen p.kept.items p.has_failed };
}

impl<D: LogFile + Drop, J: Run> Progress<D, J> {
    // Nobody writes, and nothing is kept but what is before these places.
    pub(crate) fn new(pen: Pen<D, J>, kept: Vec<LinePlace>) -> Progress<D, J>
        requires ready { IsReady D.seen D.may_leave J.openings pen }
        requires on_disk { IsSaid D.seen D.may_leave J.openings kept.items }
        ensures { result ≡ record { kept = kept.items; has_failed = false } }
    {
        Progress {
            pen: Some(pen),
            kept,
            has_failed: false,
            of: PhantomData,
        }
    }

    // Whether nothing more is kept.
    pub(crate) fn has_failed(&self) -> bool
        ensures { result ≡ self.now.has_failed }
    {
        self.has_failed
    }

    // Whether all records of a tenant before a place are kept.
    pub(crate) fn has(&self, place: JournalPlace) -> bool
        ensures exact { result ≡ has_kept self.now place }
        ensures kept { self.now.has_failed ≡ false → result ≡ true → IsKept D.seen D.may_leave J.openings place }
    {
        match self.kept.get(place.tenant) {
            Some(kept) => covers(*kept, place),
            None => false,
        }
    }

    // Takes the pen, unless somebody has it.
    pub(crate) fn take_pen(&mut self) -> Option<Pen<D, J>>
        ensures ready { IfSome result (λ pen. IsReady D.seen D.may_leave J.openings pen) }
        ensures same { self.new ≡ self.old }
    {
        self.pen.take()
    }

    // Puts the pen back, which has written all before its places. If it is out of memory, nothing more is kept.
    pub(crate) fn put_back(&mut self, pen: Pen<D, J>)
        requires ready { IsReady D.seen D.may_leave J.openings pen }
        ensures kept { self.new.has_failed ≡ false → self.new.kept ≡ pen.places.items }
        ensures failed { self.old.has_failed ≡ true → self.new.has_failed ≡ true }
    {
        self.kept.clear();
        match self.kept.extend_from_slice(&pen.places) {
            Ok(()) => self.pen = Some(pen),
            Err(_) => self.has_failed = true,
        }
    }

    // Nothing more is kept.
    pub(crate) fn fail(&mut self)
        ensures { self.new ≡ record self.old { has_failed = true } }
    {
        self.has_failed = true;
    }
}
