//! A log to which lines are committed, with their sums.

ghost use Rattle.std.specs.Prelude.{◌≡◌, ◌≢◌, ◌≤◌, ◌+◌, ◌↔◌, ◌++◌, ◌⊎◌, [], false, true, length, Err, OnErr, OnOk};
ghost use Rattle.book_journal.specs.Writer.{AreCommitted, HasNoRoomFor};
ghost use Rattle.book_journal.specs.Written.{commit_text};
ghost use Rattle.book_journal.specs.declared.writer.CommitFault.TheVariants.{Memory};
ghost use Rattle.book_log.specs.Sums.{sum_line};
ghost use Rattle.line_log.specs.File.{LeavesOnly};
ghost use Rattle.line_log.specs.Log.{IsLines, IsSettled, IsWithSome, recovered};

use book_log::put_sum;
use line_log::{Log, LogError, LogFile, next_sum, whole_lines};
use std::alloc::AllocError;
use std::marker::Model;
use thiserror::Error;

/// Why a commit failed.
#[derive(Clone, Copy, Debug, PartialEq, Eq, Error)]
pub enum CommitFault {
    /// An allocation failed. Nothing was written.
    #[error("out of memory")]
    Memory,
    /// The text of a commit is not whole lines. Nothing was written.
    #[error("a record is no line")]
    Line,
    /// The books are not those of its tenants. Nothing was written.
    #[error("not the books of its tenants")]
    Tenants,
    #[error("{0}")]
    Log(LogError),
    /// A call has failed before, after which nothing can be written.
    #[error("nothing can be written any more")]
    Spoilt,
}

impl From<AllocError> for CommitFault {
    ghost from_gives = { λ _ e. e ≡ Memory };

    fn from(_: AllocError) -> Self {
        CommitFault::Memory
    }
}

/// A log to which lines are committed: each commit puts them and their sum after those that are there, and syncs them.
#[derive(Drop)]
pub struct LogWriter<D: LogFile> {
    log: Log<D>,
    sum: [u8; 32],
    spoilt: bool,
}

impl<D: LogFile> Model for LogWriter<D> {
    ghost use Rattle.book_journal.specs.Writer.{WriterState};

    ghost Value = { WriterState D };

    ghost view = { λ w. record { log = w.log; sum = w.sum; spoilt = w.spoilt } };
}

impl<D: LogFile + Drop> LogWriter<D> {
    /// A writer of a log that ends with that sum.
    pub fn new(log: Log<D>, sum: [u8; 32]) -> LogWriter<D>
        ensures { result ≡ record { log = log; sum = sum; spoilt = false } }
    {
        LogWriter {
            log,
            sum,
            spoilt: false,
        }
    }

    /// The log that it writes.
    pub fn log(&self) -> &Log<D>
        ensures { result.now ≡ self.now.log }
    {
        &self.log
    }

    /// Writes nothing from now on.
    pub(crate) fn spoil(&mut self)
        ensures spoilt { self.new.spoilt ≡ true }
        ensures log { self.new.log ≡ self.old.log }
        ensures sum { self.new.sum ≡ self.old.sum }
    {
        self.spoilt = true;
    }

    /// Writes these lines after the records of the log, with their sum, by one write, and syncs them. If there are none, nothing
    /// is asked of the log.
    ///
    /// At `Ok` they are acknowledged, and `lines` is empty: each crash from then on leaves a file that has them. A crash at any
    /// moment of the call leaves the records from before it and the first ones of these, in their order.
    ///
    /// `Full` if they have no room: nothing has changed then. After any other error the writer is spoilt: `Spoilt` exactly if it
    /// was, `Line` only if they are not whole lines, `Failed` and `Broken` of the log, and `Memory`.
    pub fn commit(&mut self, lines: &mut Vec<u8>) -> Result<(), CommitFault>
        ensures acknowledged { OnOk result (AreCommitted D.seen lines.old.items self.old self.new) }
        ensures emptied { OnOk result (lines.new.items ≡ []) }
        ensures settled { OnOk result ((lines.old.items ≡ []) ⊎ IsSettled D.seen D.may_leave self.new.log) }
        ensures any_moment { self.old.log.broken ≡ false → (self.new.log ≡ self.old.log)
            ⊎ LeavesOnly D.moment D.left_since self.old.log.file self.new.log.file
            (IsWithSome (recovered (D.seen self.old.log.file)) (recovered (commit_text self.old.sum lines.old.items))) }
        ensures unbroken { OnOk result ((self.new.log ≡ self.old.log) ⊎ (self.old.log.broken ≡ false)) }
        ensures full { result ≡ Err (CommitFault.Log LogError.Full) → HasNoRoomFor lines.old.items self.old }
        ensures untouched { result ≡ Err (CommitFault.Log LogError.Full)
            → (self.new ≡ self.old) × (lines.new.items ≡ lines.old.items) }
        ensures was_spoilt { result ≡ Err CommitFault.Spoilt ↔ self.old.spoilt ≡ true }
        ensures no_lines { result ≡ Err CommitFault.Line → IsLines (commit_text self.old.sum lines.old.items) → ⊥ }
        ensures failed { result ≡ Err (CommitFault.Log LogError.Failed) → D.has_failed self.new.log.file ≡ true }
        ensures broken { result ≡ Err (CommitFault.Log LogError.Broken) → self.old.log.broken ≡ true }
        ensures own_books { result ≢ Err CommitFault.Tenants }
        ensures spoilt { OnErr result ((result ≡ Err (CommitFault.Log LogError.Full)) ⊎ (self.new.spoilt ≡ true)) }
    {
        if self.spoilt {
            return Err(CommitFault::Spoilt);
        }
        if lines.is_empty() {
            return Ok(());
        }
        let sum = next_sum(&self.sum, lines);
        match write_summed(&mut self.log, lines, &sum) {
            Ok(()) => {}
            Err(CommitFault::Log(LogError::Full)) => {
                return Err(CommitFault::Log(LogError::Full));
            }
            Err(fault) => {
                self.spoilt = true;
                return Err(fault);
            }
        }
        lines.clear();
        self.sum = sum;
        Ok(())
    }
}

// Writes lines after the records of a log, with that sum, and syncs them.
fn write_summed<D: LogFile>(
    log: &mut Log<D>,
    lines: &mut Vec<u8>,
    sum: &[u8; 32],
) -> Result<(), CommitFault>
    ensures acknowledged { OnOk result (IsSettled D.seen D.may_leave log.new
        × (recovered (D.seen log.new.file) ≡ recovered (D.seen log.old.file) ++ recovered (lines.old.items ++ sum_line sum.now))
        × IsLines (lines.old.items ++ sum_line sum.now)) }
    ensures any_moment { log.old.broken ≡ false → (log.new ≡ log.old)
        ⊎ LeavesOnly D.moment D.left_since log.old.file log.new.file
        (IsWithSome (recovered (D.seen log.old.file)) (recovered (lines.old.items ++ sum_line sum.now))) }
    ensures unbroken { OnOk result (log.old.broken ≡ false) }
    ensures full { result ≡ Err (CommitFault.Log LogError.Full)
        → (log.old.broken ≡ false) × (log.old.size ≤ log.old.end + length (lines.old.items ++ sum_line sum.now)) }
    ensures untouched { result ≡ Err (CommitFault.Log LogError.Full) → (log.new ≡ log.old) × (lines.new.items ≡ lines.old.items) }
    ensures no_lines { result ≡ Err CommitFault.Line → IsLines (lines.old.items ++ sum_line sum.now) → ⊥ }
    ensures failed { result ≡ Err (CommitFault.Log LogError.Failed) → D.has_failed log.new.file ≡ true }
    ensures broken { result ≡ Err (CommitFault.Log LogError.Broken) → log.old.broken ≡ true }
    ensures others { (result ≢ Err CommitFault.Tenants) × (result ≢ Err CommitFault.Spoilt) }
{
    let length = lines.len();
    put_sum(lines, sum)?;
    let whole = whole_lines(lines);
    if whole.len() != lines.len() {
        return Err(CommitFault::Line);
    }
    match log.append(whole) {
        Ok(()) => Ok(()),
        Err(LogError::Full) => {
            lines.truncate(length);
            Err(CommitFault::Log(LogError::Full))
        }
        Err(fault) => Err(CommitFault::Log(fault)),
    }
}
