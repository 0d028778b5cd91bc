//! A folder of a journal that one process has for itself.

ghost use Rattle.std.specs.Prelude.{◌≡◌, ◌<◌, ◌≤◌, ◌↔◌, [], ◌∷◌, ◌++◌, length, replicate, IfOk, OnOk, OnErr, IsErrOf, IfSome, IsNone};
ghost use Rattle.std.specs.List.{Contains};
ghost use Rattle.log_folder.specs.Disk.{IsOnDisk};

use crate::disk_file::{DiskFile, Opened};
use crate::fault::{FolderFault, JournalFile, MAX_SIZE, unread, unsynced, unwritten};
use crate::names::{forget, greatest};
use crate::place::{Place, take_lock, within};
use std::alloc::Global;
use std::fs::{File, Files};
use std::io::Write;
use std::marker::Model;

/// A pair of files as they were read.
#[derive(Drop)]
pub struct Segment {
    /// What `N.base` has.
    pub base: Vec<u8>,
    /// What `N.log` has.
    pub log: Vec<u8>,
    /// `N.log`, to be written on by one log.
    pub file: DiskFile,
}

/// A folder of a journal, whose lock this process holds until it is dropped, and each file that it gave. Contracts see the
/// numbers of its whole pairs.
///
/// A pair is `N.base`, which is written once, and `N.log`, a file of a fixed size. Both are whole and on the disk before
/// they have these names. Only their owner may read them. `N` is a number without leading zeros.
#[derive(Drop)]
pub struct LogFolder<'a, R> {
    place: Place<'a, R>,
    numbers: Vec<u64>,
    lock: File,
}

impl<'a, R> Model for LogFolder<'a, R> {
    ghost use Rattle.std.specs.Prelude.{List, ℕ};

    ghost Value = { List ℕ };

    ghost view = { λ f. f.numbers.items };
}

impl<R> LogFolder<'_, R> {
    ghost use Rattle.log_folder.specs.Folder.{IsGreatest};

    /// The greatest number of which both files are there, and regular files.
    pub fn newest(&self) -> Option<u64>
        ensures some { IfSome result (λ number. IsGreatest self.now number) }
        ensures none { IsNone result ↔ (self.now ≡ []) }
    {
        greatest(&self.numbers)
    }

    /// The numbers of which both files are there, in no order.
    pub fn numbers(&self) -> &[u64]
        ensures { result.now ≡ self.now }
    {
        &self.numbers
    }
}

impl<'a, R: Files<File = File>> LogFolder<'a, R> {
    ghost use Rattle.log_folder.specs.Folder.{without};

    /// Takes the lock of a folder that is there, `lock` in it, and looks for its pairs. The file of the lock is made if
    /// it is not there.
    ///
    /// `InUse` if another process holds the lock, or another value of this one. `NotRegular` if a base, or the log beside
    /// it, is there and is not a regular file. A base without a log and a log without a base are passed over.
    pub fn open(files: &'a R, alloc: Global, path: &'a str) -> Result<Self, FolderFault> {
        let place = Place { files, alloc, path };
        place.expect_folder()?;
        let lock = place.lock_file()?;
        take_lock(&lock, false)?;
        let numbers = place.pairs()?;
        Ok(LogFolder {
            place,
            numbers,
            lock,
        })
    }

    /// Makes the pair of that number: a base of these bytes, and a log of so many zeros. Both are on the disk then, with
    /// their names. What was left of an unfinished pair of that number is overwritten.
    ///
    /// `Taken` if there is a whole pair of that number. `TooLarge` if one of them would have more than 1,073,741,824
    /// bytes. After an error there may be a part of the pair, or all of it, which is found when the folder is opened anew.
    pub fn create(&mut self, number: u64, base: &[u8], size: usize) -> Result<DiskFile, FolderFault>
        ensures file { IfOk result (λ file. IsOnDisk (replicate size 0) file) }
        ensures numbers { OnOk result (self.new ≡ self.old ++ number ∷ []) }
        ensures is_new { OnOk result (Contains self.old number → ⊥) }
        ensures size { OnOk result ((size ≤ MAX_SIZE) × (length base.now ≤ MAX_SIZE)) }
        ensures err { OnErr result (self.new ≡ self.old) }
        ensures taken { Contains self.old number → IsErrOf result (FolderFault.Taken number) }
        ensures large_log { (Contains self.old number → ⊥) → MAX_SIZE < size
            → IsErrOf result (FolderFault.TooLarge (JournalFile.Log number)) }
        ensures large_base { (Contains self.old number → ⊥) → size ≤ MAX_SIZE → MAX_SIZE < length base.now
            → IsErrOf result (FolderFault.TooLarge (JournalFile.Base number)) }
    {
        if self.numbers.contains(&number) {
            return Err(FolderFault::Taken(number));
        }
        within(JournalFile::Log(number), size as u64)?;
        within(JournalFile::Base(number), base.len() as u64)?;
        self.numbers.reserve(1)?;
        let lock = copy_of(&self.lock)?;
        let file = make_pair(&self.place, lock, number, base, size)?;
        self.numbers.push_reserved(number);
        Ok(file)
    }

    /// Reads a pair. The folder and both files are synced before, so what is read is on the disk, also after a process
    /// was killed. Read no pair whose file is in use: two logs in one file would overwrite each other.
    ///
    /// `Unread` if a file is not there, `NotRegular` if it is a symbolic link or another thing, and `TooLarge` if it has
    /// more than 1,073,741,824 bytes.
    pub fn read(&self, number: u64) -> Result<Segment, FolderFault>
        ensures file { IfOk result (λ segment. IsOnDisk segment.log.items segment.file) }
        ensures size { IfOk result (λ segment.
            (length segment.base.items ≤ MAX_SIZE) × (length segment.log.items ≤ MAX_SIZE)) }
    {
        self.place.sync()?;
        let base = self.place.read_text(JournalFile::Base(number), true)?;
        let (log, file) = self.place.read_log(number, copy_of(&self.lock)?)?;
        Ok(Segment { base, log, file })
    }

    /// Removes the pair of that number, or what is there of it: its base before its log. It does not count any more, also
    /// after an error.
    pub fn remove(&mut self, number: u64) -> Result<(), FolderFault>
        ensures { self.new ≡ without number self.old }
    {
        forget(&mut self.numbers, number);
        self.place.remove(JournalFile::Base(number))?;
        self.place.remove(JournalFile::Log(number))?;
        self.place.sync()
    }
}

// Another handle of the lock, by which it is held too.
fn copy_of(lock: &File) -> Result<File, FolderFault> {
    lock.try_clone()
        .map_err(|error| unread(JournalFile::Lock, &error))
}

// Makes the files of a pair, each by another name until it is whole. The log gets its name first.
fn make_pair<R: Files<File = File>>(
    place: &Place<'_, R>,
    lock: File,
    number: u64,
    base: &[u8],
    size: usize,
) -> Result<DiskFile, FolderFault>
    ensures { IfOk result (λ file. IsOnDisk (replicate size 0) file) }
{
    let log_part = JournalFile::LogPart(number);
    let base_part = JournalFile::BasePart(number);
    let opened = Opened {
        file: place.new_file(log_part)?,
        lock,
        name: log_part,
    };
    let file = DiskFile::make(opened, size)?;
    write_base(place.new_file(base_part)?, base_part, base)?;
    place.rename(log_part, JournalFile::Log(number))?;
    place.rename(base_part, JournalFile::Base(number))?;
    place.sync()?;
    Ok(file)
}

// Writes a text to a new file, and syncs it.
fn write_base(mut file: File, name: JournalFile, base: &[u8]) -> Result<(), FolderFault> {
    file.write_all(base)
        .map_err(|error| unwritten(name, &error))?;
    file.sync_all().map_err(|error| unsynced(name, &error))
}
