//! What is wrong with a folder of a journal, in words for people.

ghost use Rattle.std.specs.Prelude.{◌≡◌, ◌≢◌};
ghost use Rattle.std.specs.IoError.{error_kind};
ghost use Rattle.log_folder.specs.declared.fault.FolderFault.TheVariants.{Memory};

use std::alloc::{AllocError, AllocFailed};
use std::io::ErrorKind;
use std::{fmt, io};
use thiserror::Error;

/// The most bytes that a file of a journal has: 1 GB, which is 1,073,741,824 bytes.
pub const MAX_SIZE: u64 = 1 << 30;

/// A file of the folder of a journal, by what it is for.
#[derive(Clone, Copy, Debug, PartialEq, Eq)]
pub enum JournalFile {
    /// The folder itself.
    Folder,
    /// `lock`: a process that uses the folder holds it.
    Lock,
    /// `N.base`: what the pair of that number begins with.
    Base(u64),
    /// `N.log`: its lines, and zeros after them.
    Log(u64),
    /// `N.base.part`: a base that is not whole yet.
    BasePart(u64),
    /// `N.log.part`: a log that is not whole yet.
    LogPart(u64),
}

impl fmt::Display for JournalFile {
    ghost use Rattle.std.specs.Prelude.{Some};
    ghost use Rattle.log_folder.specs.Names.{file_name};

    ghost output = { λ file. Some (file_name file) };

    fn fmt<W: fmt::Write>(&self, f: &mut fmt::Formatter<W>) -> fmt::Result {
        match self {
            JournalFile::Folder => f.write_str("the folder"),
            JournalFile::Lock => f.write_str("lock"),
            JournalFile::Base(number) => write!(f, "{number}.base"),
            JournalFile::Log(number) => write!(f, "{number}.log"),
            JournalFile::BasePart(number) => write!(f, "{number}.base.part"),
            JournalFile::LogPart(number) => write!(f, "{number}.log.part"),
        }
    }
}

/// Why a folder of a journal can't be used. The text names the file within the folder, and says what would be right.
#[derive(Clone, Copy, Debug, PartialEq, Eq, Error)]
pub enum FolderFault {
    /// An allocation failed.
    #[error("out of memory")]
    Memory,
    /// Nothing is there by that path.
    #[error("no such folder: make it first, for the journal alone")]
    NoFolder,
    /// Something else is there by that path.
    #[error("not a folder: name a folder that is for the journal alone")]
    NotAFolder,
    /// Another process holds its lock, or this one does by another value.
    #[error("another process uses it: stop that one first, or name another folder")]
    InUse,
    /// A file is a symbolic link, a folder, a device or another thing that is not a regular file.
    #[error("{0} is not a regular file: the file itself must be there, and no link to it")]
    NotRegular(JournalFile),
    /// A file has, or would have, more than 1,073,741,824 bytes.
    #[error("{0} is too large: a file of a journal has at most 1073741824 bytes")]
    TooLarge(JournalFile),
    /// There is a whole pair of that number already.
    #[error("{0}.base and {0}.log are there already: a new pair needs a new number")]
    Taken(u64),
    /// A file can't be looked at, opened or read.
    #[error("cannot read {0}: {1}: this process must be able to read it, from a disk without faults")]
    Unread(JournalFile, ErrorKind),
    /// A file can't be made, written, renamed or removed.
    #[error("cannot write {0}: {1}: this process must be able to write in the folder, and the disk needs room")]
    Unwritten(JournalFile, ErrorKind),
    /// A file or the folder can't be written on to the disk.
    #[error("cannot sync {0}: {1}: the disk must be without faults")]
    Unsynced(JournalFile, ErrorKind),
    /// The lock can't be taken, for another reason than that it is held.
    #[error("cannot take its lock: {0}: the folder must be on a file system that has locks")]
    Unlocked(ErrorKind),
}

impl From<AllocError> for FolderFault {
    ghost from_gives = { λ _ e. e ≡ Memory };

    fn from(_: AllocError) -> Self {
        FolderFault::Memory
    }
}

impl<T: Drop> From<AllocFailed<T>> for FolderFault {
    ghost from_gives = { λ _ e. e ≡ Memory };

    fn from(_: AllocFailed<T>) -> Self {
        FolderFault::Memory
    }
}

// The fault of a call that reads.
pub(crate) fn unread(file: JournalFile, error: &io::Error) -> FolderFault
    ensures memory { error_kind error.now ≡ ErrorKind.OutOfMemory → result ≡ FolderFault.Memory }
    ensures other { error_kind error.now ≢ ErrorKind.OutOfMemory
        → result ≡ FolderFault.Unread file (error_kind error.now) }
{
    match error.kind() {
        ErrorKind::OutOfMemory => FolderFault::Memory,
        kind => FolderFault::Unread(file, kind),
    }
}

// The fault of a call that writes.
pub(crate) fn unwritten(file: JournalFile, error: &io::Error) -> FolderFault
    ensures { result ≡ FolderFault.Unwritten file (error_kind error.now) }
{
    FolderFault::Unwritten(file, error.kind())
}

// The fault of a sync.
pub(crate) fn unsynced(file: JournalFile, error: &io::Error) -> FolderFault
    ensures { result ≡ FolderFault.Unsynced file (error_kind error.now) }
{
    FolderFault::Unsynced(file, error.kind())
}
