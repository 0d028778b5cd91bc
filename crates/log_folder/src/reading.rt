//! A folder of a journal that is only read, and the files of a pair as bytes.

ghost use Rattle.std.specs.Prelude.{◌≡◌, ◌≤◌, ◌↔◌, [], length, IfOk, IfSome, IsNone};
ghost use Rattle.log_folder.specs.Disk.{IsOnDisk};

use crate::disk_file::{DiskFile, Opened};
use crate::fault::{FolderFault, JournalFile, MAX_SIZE, unread, unsynced};
use crate::names::greatest;
use crate::place::{Place, take_lock};
use std::alloc::Global;
use std::fs::{File, Files};
use std::marker::Model;
use std::os::unix::fs::FileExt;

/// The texts of a pair of files.
#[derive(Drop)]
pub struct Texts {
    /// What `N.base` has.
    pub base: Vec<u8>,
    /// What `N.log` has.
    pub log: Vec<u8>,
}

/// A folder of a journal that is only read. Contracts see the numbers of its whole pairs.
///
/// No file of it is made, written, locked for itself or synced, so this process needs no leave to write in it.
#[derive(Drop)]
pub struct ReadOnlyFolder<'a, R> {
    place: Place<'a, R>,
    numbers: Vec<u64>,
    lock: Option<File>,
}

impl<'a, R> Model for ReadOnlyFolder<'a, R> {
    ghost use Rattle.std.specs.Prelude.{List, ℕ};

    ghost Value = { List ℕ };

    ghost view = { λ f. f.numbers.items };
}

impl<R> ReadOnlyFolder<'_, R> {
    ghost use Rattle.log_folder.specs.Folder.{IsGreatest};

    /// The greatest number of which both files are there, and regular files.
    pub fn newest(&self) -> Option<u64>
        ensures some { IfSome result (λ number. IsGreatest self.now number) }
        ensures none { IsNone result ↔ (self.now ≡ []) }
    {
        greatest(&self.numbers)
    }

    /// Whether it holds the lock, so that no service uses the folder. It does not if there is no lock, or this process
    /// may not read it: then a service may be writing what is read.
    pub fn is_locked(&self) -> bool {
        self.lock.is_some()
    }
}

impl<'a, R: Files<File = File>> ReadOnlyFolder<'a, R> {
    /// Looks for the pairs of a folder that is there. Its lock is shared with others that only read, if it is there and
    /// this process may read it.
    ///
    /// `InUse` if a process uses the folder to write in it.
    pub fn open(files: &'a R, alloc: Global, path: &'a str) -> Result<Self, FolderFault> {
        let place = Place { files, alloc, path };
        place.expect_folder()?;
        let lock = place.lock_file_there()?;
        if let Some(lock) = &lock {
            take_lock(lock, true)?;
        }
        let numbers = place.pairs()?;
        Ok(ReadOnlyFolder {
            place,
            numbers,
            lock,
        })
    }

    /// Reads a pair. What is read may not be on the disk yet, if the process that wrote it was killed.
    pub fn read(&self, number: u64) -> Result<Texts, FolderFault>
        ensures { IfOk result (λ texts. (length texts.base.items ≤ MAX_SIZE) × (length texts.log.items ≤ MAX_SIZE)) }
    {
        Ok(Texts {
            base: self.place.read_text(JournalFile::Base(number), false)?,
            log: self.place.read_text(JournalFile::Log(number), false)?,
        })
    }
}

impl<R: Files<File = File>> Place<'_, R> {
    /// The bytes of a file. It is synced before, if that is asked.
    pub(crate) fn read_text(&self, name: JournalFile, syncs: bool) -> Result<Vec<u8>, FolderFault>
        ensures { IfOk result (λ text. length text.items ≤ MAX_SIZE) }
    {
        let (file, size) = self.open_sized(name, false)?;
        if syncs {
            file.sync_all().map_err(|error| unsynced(name, &error))?;
        }
        let mut text = Vec::new(self.alloc);
        text.resize(size, 0)?;
        file.read_exact_at(&mut text, 0)
            .map_err(|error| unread(name, &error))?;
        Ok(text)
    }

    /// The bytes of a log, and its file, to be written on. It is synced before it is read.
    pub(crate) fn read_log(
        &self,
        number: u64,
        lock: File,
    ) -> Result<(Vec<u8>, DiskFile), FolderFault>
        ensures size { IfOk result (λ read. length read.0.items ≤ MAX_SIZE) }
        ensures file { IfOk result (λ read. IsOnDisk read.0.items read.1) }
    {
        let name = JournalFile::Log(number);
        let (file, size) = self.open_sized(name, true)?;
        let mut text = Vec::new(self.alloc);
        text.resize(size, 0)?;
        let file = DiskFile::find(Opened { file, lock, name }, &mut text)?;
        Ok((text, file))
    }
}
