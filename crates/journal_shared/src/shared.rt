//! The journal that threads share.

ghost use Rattle.std.specs.Prelude.{◌≡◌, IfOk};
ghost use Rattle.books_shared.specs.Begun.{AreNumbered};
ghost use Rattle.journal_shared.specs.Kept.{BeginsLog, ends_of, first_fronts};

use crate::noted::Noted;
use crate::pen::Pen;
use crate::progress::Progress;
use crate::writes::Writes;
use book_journal::LogWriter;
use book_log::LinePlace;
use books_shared::Books;
use line_log::LogFile;
use one_list::Run;
use std::alloc::{AllocError, Global};
use std::sync::atomic::{AtomicBool, AtomicU64, Ordering};
use std::sync::{Condvar, Mutex};
use std::time::{Clock, Instant};
use tenant_core::Opening;

/// What a journal that threads share is held to.
#[derive(Clone, Copy)]
pub struct Limits {
    /// When the service began.
    pub begun: Instant,
    /// How many bytes of the log are left free for what is under way.
    pub reserve: u64,
    /// For how many milliseconds a thread waits while another one writes.
    pub longest_wait: u64,
    /// How many milliseconds a write may take. While it takes longer there is no room for more.
    pub longest_write: u64,
}

/// A journal on disk, as threads share it.
///
/// What is said to be kept is in the log, and the log is settled: each crash leaves it. The pen has an invariant under its lock
/// (`IsProgress`), and so have the notes of each tenant (`IsNoted`).
#[derive(Drop)]
pub struct SharedJournal<D: LogFile, J: Run> {
    // For each tenant the lines of its records that nobody has taken yet.
    pub(crate) notes: Vec<Mutex<Noted<J>>>,
    pub(crate) progress: Mutex<Progress<D, J>>,
    // For each tenant a bell, which rings when more is kept.
    pub(crate) bells: Vec<Condvar>,
    // How many bytes of the log are left.
    pub(crate) left: AtomicU64,
    pub(crate) has_failed: AtomicBool,
    pub(crate) writes: Writes,
    pub(crate) limits: Limits,
}

// The places of the first records of these tenants.
fn first_places(alloc: Global, openings: &[Opening]) -> Result<Vec<LinePlace>, AllocError>
    ensures { IfOk result (λ places. places.items ≡ ends_of (first_fronts openings.now)) }
{
    let mut places = Vec::new(alloc);
    for opening in openings {
        places.push(LinePlace {
            tenant: opening.tenant,
            period: opening.period,
            number: 0,
        })?;
    }
    Ok(places)
}

impl<D: LogFile + Drop, J: Run> SharedJournal<D, J> {
    /// The journal that is written so, of these books, to which nothing has happened since these openings. Nothing is in its log yet.
    /// Fails only if it is out of memory.
    pub fn new(
        alloc: Global,
        writer: LogWriter<D>,
        openings: &[Opening],
        books: &Books<J>,
        limits: Limits,
    ) -> Result<SharedJournal<D, J>, AllocError>
        requires openings { J.openings ≡ openings.now }
        requires numbers { AreNumbered openings.now }
        requires begins { BeginsLog D.seen D.may_leave openings.now writer }
    {
        let (mut notes, mut bells) = (Vec::new(alloc), Vec::new(alloc));
        for opening in openings {
            notes.push(Mutex::new(Noted::new(alloc, opening, books.watcher())))?;
            bells.push(Condvar::new())?;
        }
        let pen = Pen::new(
            alloc,
            writer,
            books.watcher(),
            first_places(alloc, openings)?,
        );
        let left = pen.left();
        let progress = Progress::new(pen, first_places(alloc, openings)?);
        Ok(SharedJournal {
            notes,
            progress: Mutex::new(progress),
            bells,
            left: AtomicU64::new(left),
            has_failed: AtomicBool::new(false),
            writes: Writes::new(limits.begun),
            limits,
        })
    }

    /// Whether nothing more is kept: it could not be written, or its log has no room for what is under way.
    pub fn is_lost(&self) -> bool {
        self.has_failed.load(Ordering::SeqCst) || self.left() < self.limits.reserve
    }

    /// How many bytes of its log are left.
    pub fn left(&self) -> u64 {
        self.left.load(Ordering::SeqCst)
    }

    /// For how many milliseconds the write that is under way has taken; none if none is.
    pub fn write_time(&self, clock: &impl Clock) -> u64 {
        self.writes.time(clock)
    }

    /// How many milliseconds ago the last write was synced. At first that is when the service began.
    pub fn since_sync(&self, clock: &impl Clock) -> u64 {
        self.writes.since_sync(clock)
    }

    /// Whether the write that is under way takes longer than it may.
    pub fn has_stalled(&self, clock: &impl Clock) -> bool {
        self.write_time(clock) > self.limits.longest_write
    }

    /// Whether there is room for what one more packet or command may record: it is not lost, and it has not stalled.
    pub fn has_room(&self, clock: &impl Clock) -> bool {
        !self.is_lost() && !self.has_stalled(clock)
    }
}
