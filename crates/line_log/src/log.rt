//! Lines of text in a file of zeros. No byte of a record is 0, so a crash leaves a beginning of what was written.

ghost use Rattle.std.specs.Prelude.{◌≡◌, ◌+◌, ◌-◌, ◌<◌, ◌≤◌, ◌↔◌, ◌++◌, ℕ, true, false, IsTrue, List, [], length, replicate, take, slice_index, IfOk, OnOk, OnErr, IsErrOf, ◌⊎◌};
ghost use Rattle.line_log.specs.Begun.{file_after, IsBegunIn, IsNotBegun};
ghost use Rattle.line_log.specs.File.{Only, LeavesOnly};
ghost use Rattle.line_log.specs.Log.{all_of, end_of_lines, log_in, recovered, IsBlankAfterLines, IsFullAt, IsLines, IsSettled, IsWithSome};

use crate::lines::end_of_lines;
use crate::writing::{put, settle};
use crate::{Batch, FileFailed, LogFile};
use std::marker::Model;
use thiserror::Error;

/// Why a call on a log failed.
#[derive(Clone, Copy, Debug, PartialEq, Eq, Error)]
pub enum LogError {
    /// There is no room. Nothing was written.
    #[error("the log has no room for the records")]
    Full,
    /// A write or a sync failed. From then on the log is broken.
    #[error("the log could not be written")]
    Failed,
    /// A call on the log has failed before. Nothing was asked of the file.
    #[error("the log is broken: a write or a sync of it has failed before")]
    Broken,
}

/// A file in which no log was begun, and why: `Full` or `Failed`.
#[derive(Drop)]
pub struct NotBegun<D: LogFile> {
    pub file: D,
    pub error: LogError,
}

/// A log in a file of a fixed size: its records, a line each, and zeros after them.
///
/// Contracts see its file, where its records end, its size, and whether a call on the file has failed. Unless one has,
/// the log is settled: all of the file is on the disk.
#[derive(Drop)]
pub struct Log<D: LogFile> {
    file: D,
    end: usize,
    size: usize,
    broken: bool,
}

impl<D: LogFile> Model for Log<D> {
    ghost use Rattle.line_log.specs.Log.{LogState, IsSound};

    ghost Value = { LogState D };

    ghost view = { λ l. record { file = l.file; end = l.end; size = l.size; broken = l.broken } };

    ghost invariant = { λ l. IsSound D.seen D.may_leave D.has_failed
        (record { file = l.file; end = l.end; size = l.size; broken = l.broken }) };
}

impl<D: LogFile> Log<D> {
    /// Begins a log in a file that was read: `bytes` is all of it. Its records are the whole lines before its first
    /// byte 0. Whatever is after them is overwritten by zeros, and synced, unless it is zeros.
    ///
    /// Sync the file before it is read: what is read must be on the disk, also after a process was killed. A crash at
    /// any moment of the call leaves the same records. `Full` if no byte is left after the records, `Failed` if a
    /// write or the sync fails: then the file is given back, to be closed.
    pub fn begin(file: D, bytes: &[u8]) -> Result<Log<D>, NotBegun<D>>
        requires sound { D.has_failed file ≡ false }
        requires read { D.seen file ≡ bytes.now }
        requires on_disk { Only (D.seen file) (D.may_leave file) }
        ensures settled { IfOk result (λ log. IsSettled D.seen D.may_leave log × (log.broken ≡ false)) }
        ensures records { IfOk result (λ log. recovered (D.seen log.file) ≡ recovered bytes.now) }
        ensures room { IfOk result (λ log. (log.end ≡ end_of_lines bytes.now) × (log.size ≡ length bytes.now)) }
        ensures any_moment { LeavesOnly D.moment D.left_since file (file_after result)
            (λ c. recovered c ≡ recovered bytes.now) }
        ensures untouched { IsBlankAfterLines bytes.now → IsBegunIn file result }
        ensures full { IsNotBegun LogError.Full result ↔ (end_of_lines bytes.now ≡ length bytes.now) }
        ensures failed { IsNotBegun LogError.Failed result → D.has_failed (file_after result) ≡ true }
        ensures not_broken { IsNotBegun LogError.Broken result → ⊥ }
    {
        let mut file = file;
        let end = end_of_lines(bytes);
        let size = bytes.len();
        if end == size {
            return Err(NotBegun {
                file,
                error: LogError::Full,
            });
        }
        match settle(&mut file, end, bytes) {
            Ok(()) => Ok(Log {
                file,
                end,
                size,
                broken: false,
            }),
            Err(FileFailed) => Err(NotBegun {
                file,
                error: LogError::Failed,
            }),
        }
    }

    /// A log without a record, in a file of that many zeros that are on the disk.
    #[tactic(auto, using(crate::proofs::Zeros::none_recovered))]
    pub fn blank(file: D, size: usize) -> Log<D>
        requires sound { D.has_failed file ≡ false }
        requires zeros { D.seen file ≡ replicate size 0 }
        requires on_disk { Only (D.seen file) (D.may_leave file) }
        requires some { 0 < size }
        ensures log { result ≡ log_in file 0 size }
        ensures none { recovered (D.seen result.file) ≡ [] }
        ensures durable { Only (D.seen result.file) (D.may_leave result.file) }
    {
        Log {
            file,
            end: 0,
            size,
            broken: false,
        }
    }

    /// Writes these lines after its records by one write, and syncs them. Each line is a record.
    ///
    /// At `Ok` they are acknowledged: each crash from then on leaves a file that has them. A crash at any moment of the
    /// call leaves the records from before it and the first ones of these, in their order.
    ///
    /// `Full` if the lines and one zero have no room: nothing was written. `Failed` if the write or the sync fails: the
    /// log is broken from then on. `Broken` if it was: nothing was asked of the file.
    pub fn append(&mut self, records: &[u8]) -> Result<(), LogError>
        requires records { IsLines records.now }
        ensures acknowledged { OnOk result (IsSettled D.seen D.may_leave self.new
            × (recovered (D.seen self.new.file) ≡ recovered (D.seen self.old.file) ++ recovered records.now)) }
        ensures any_moment { self.old.broken ≡ false
            → LeavesOnly D.moment D.left_since self.old.file self.new.file
            (IsWithSome (recovered (D.seen self.old.file)) (recovered records.now)) }
        ensures room { OnOk result ((self.new.end ≡ self.old.end + length records.now) × (self.new.broken ≡ false)) }
        ensures size { self.new.size ≡ self.old.size }
        ensures end { OnErr result (self.new.end ≡ self.old.end) }
        ensures broken { IsErrOf result LogError.Broken ↔ (self.old.broken ≡ true) }
        ensures full { IsErrOf result LogError.Full
            ↔ ((self.old.broken ≡ false) × (self.old.size ≤ self.old.end + length records.now)) }
        ensures untouched { IsErrOf result LogError.Broken ⊎ IsErrOf result LogError.Full → self.new ≡ self.old }
        ensures failed { IsErrOf result LogError.Failed
            → (self.new.broken ≡ true) × (D.has_failed self.new.file ≡ true) }
    {
        if self.broken {
            return Err(LogError::Broken);
        }
        if records.len() >= self.size - self.end {
            return Err(LogError::Full);
        }
        match put(&mut self.file, self.end, self.size, records) {
            Ok(()) => {
                self.end += records.len();
                Ok(())
            }
            Err(FileFailed) => {
                self.broken = true;
                Err(LogError::Failed)
            }
        }
    }

    /// Appends these batches one after another. Each is acknowledged before the next one is written.
    ///
    /// A crash at any moment of the call leaves the records from before it and the first ones of all these, in their
    /// order: none skipped and none in part.
    ///
    /// `Full` if a batch has no room: those before it are acknowledged. `Failed` if a write or a sync fails: the log is
    /// broken from then on. `Broken` if it was: nothing was asked of the file.
    pub fn append_all(&mut self, batches: &[Batch]) -> Result<(), LogError>
        ensures acknowledged { OnOk result (IsSettled D.seen D.may_leave self.new
            × (recovered (D.seen self.new.file) ≡ recovered (D.seen self.old.file) ++ all_of batches.now)) }
        ensures any_moment { self.old.broken ≡ false
            → LeavesOnly D.moment D.left_since self.old.file self.new.file
            (IsWithSome (recovered (D.seen self.old.file)) (all_of batches.now)) }
        ensures sound { OnOk result (self.new.broken ≡ false) }
        ensures size { self.new.size ≡ self.old.size }
        ensures broken { IsErrOf result LogError.Broken ↔ (self.old.broken ≡ true) }
        ensures untouched { IsErrOf result LogError.Broken → self.new ≡ self.old }
        ensures full { IsErrOf result LogError.Full → IsFullAt D.seen D.may_leave self.old self.new batches.now }
        ensures failed { IsErrOf result LogError.Failed
            → (self.new.broken ≡ true) × (D.has_failed self.new.file ≡ true) }
    {
        if self.broken {
            return Err(LogError::Broken);
        }
        for batch in batches {
            self.append(batch.as_bytes())?;
        }
        Ok(())
    }

    /// Where its records end, in bytes.
    pub fn end(&self) -> usize
        ensures { result ≡ self.now.end }
    {
        self.end
    }

    /// The size of its file, in bytes.
    pub fn size(&self) -> usize
        ensures { result ≡ self.now.size }
    {
        self.size
    }

    /// How many bytes of lines it has room for.
    pub fn room(&self) -> usize
        ensures { self.now.end + result + 1 ≡ self.now.size }
    {
        self.size - self.end - 1
    }

    /// Whether a write or a sync of it has failed.
    pub fn is_broken(&self) -> bool
        ensures { result ≡ self.now.broken }
    {
        self.broken
    }

    /// Its file.
    pub fn file(&self) -> &D
        ensures { result.now ≡ self.now.file }
    {
        &self.file
    }
}
