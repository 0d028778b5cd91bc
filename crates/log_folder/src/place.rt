//! Where the files of a journal are, and how they are opened, listed and locked.

ghost use Rattle.std.specs.Prelude.{◌≡◌, ◌≤◌, ◌↔◌, ◌∷◌, ◌++◌, IfOk, IfErr, IsOk, string_bytes};
ghost use Rattle.log_folder.specs.Names.{file_name};

use crate::fault::{FolderFault, JournalFile, MAX_SIZE, unread, unsynced, unwritten};
use crate::names::bases_in;
use std::alloc::{AllocError, Global};
use std::fs::{File, Files, Metadata, OpenOptions, TryLockError};
use std::io::{ErrorKind, Read};
use std::os::fd::AsRawFd;
use std::os::unix::fs::{MetadataExt, OpenOptionsExt};
use std::{fs, io};

/// The mode of a file that only its owner may read and write.
const MODE: u32 = 0o600;

/// A folder by its path, and the file system that it is in.
#[derive(Drop)]
pub(crate) struct Place<'a, R> {
    pub files: &'a R,
    pub alloc: Global,
    pub path: &'a str,
}

// The device and the number of a regular file.
fn node_of(found: &Metadata) -> Option<(u64, u64)> {
    if found.is_file() {
        Some((found.dev(), found.ino()))
    } else {
        None
    }
}

// An open file that is not in the place of a standard stream that was closed: what is printed must not get into it.
fn above_streams(file: File) -> io::Result<File> {
    if file.as_raw_fd() > 2 {
        return Ok(file);
    }
    file.try_clone()
}

// How a file that is there is opened.
fn options(writes: bool) -> OpenOptions {
    let mut options = OpenOptions::new();
    options.read(true).write(writes);
    options
}

// How a file that is not there yet is made.
fn new_options() -> OpenOptions {
    let mut options = OpenOptions::new();
    options.read(true).write(true).create_new(true).mode(MODE);
    options
}

/// That a file of so many bytes is not too large.
pub(crate) fn within(file: JournalFile, size: u64) -> Result<(), FolderFault>
    ensures ok { IsOk result ↔ (size ≤ MAX_SIZE) }
    ensures err { IfErr result (λ fault. fault ≡ FolderFault.TooLarge file) }
{
    if size > MAX_SIZE {
        Err(FolderFault::TooLarge(file))
    } else {
        Ok(())
    }
}

/// Takes a lock that no other process has: for itself, or as one of those that only read.
pub(crate) fn take_lock(lock: &File, is_shared: bool) -> Result<(), FolderFault> {
    let taken = if is_shared {
        lock.try_lock_shared()
    } else {
        lock.try_lock()
    };
    match taken {
        Ok(()) => Ok(()),
        Err(TryLockError::WouldBlock) => Err(FolderFault::InUse),
        Err(TryLockError::Error(error)) => Err(FolderFault::Unlocked(error.kind())),
    }
}

impl<R: Files<File = File>> Place<'_, R> {
    // The path of a file in it.
    fn path_of(&self, file: JournalFile) -> Result<String, AllocError>
        ensures { IfOk result (λ path. string_bytes path ≡ self.now.path.now ++ 47 ∷ file_name file) }
    {
        format!(in self.alloc; "{}/{file}", self.path)
    }

    /// That a folder is there.
    pub fn expect_folder(&self) -> Result<(), FolderFault> {
        match fs::metadata(self.files, self.path) {
            Ok(found) if found.is_dir() => Ok(()),
            Ok(_) => Err(FolderFault::NotAFolder),
            Err(error) if error.kind() == ErrorKind::NotFound => Err(FolderFault::NoFolder),
            Err(error) if error.kind() == ErrorKind::NotADirectory => Err(FolderFault::NoFolder),
            Err(error) => Err(unread(JournalFile::Folder, &error)),
        }
    }

    // The node of a file, if there is a regular one. Another thing by its name is a fault.
    fn node(&self, file: JournalFile) -> Result<Option<(u64, u64)>, FolderFault> {
        let path = self.path_of(file)?;
        match fs::symlink_metadata(self.files, path.as_str()) {
            Ok(found) => match node_of(&found) {
                Some(node) => Ok(Some(node)),
                None => Err(FolderFault::NotRegular(file)),
            },
            Err(error) if error.kind() == ErrorKind::NotFound => Ok(None),
            Err(error) => Err(unread(file, &error)),
        }
    }

    // Opens the file by that name, and not what a symbolic link that is put there meanwhile leads to.
    fn open_there(&self, file: JournalFile, options: &OpenOptions) -> Result<File, FolderFault> {
        let Some(node) = self.node(file)? else {
            return Err(FolderFault::Unread(file, ErrorKind::NotFound));
        };
        let path = self.path_of(file)?;
        let opened = options
            .open(self.files, path.as_str())
            .map_err(|error| unread(file, &error))?;
        let opened = above_streams(opened).map_err(|error| unread(file, &error))?;
        let found = opened.metadata().map_err(|error| unread(file, &error))?;
        if node_of(&found) == Some(node) {
            Ok(opened)
        } else {
            Err(FolderFault::NotRegular(file))
        }
    }

    /// Opens a file that is there, and says how many bytes it has.
    pub fn open_sized(&self, file: JournalFile, writes: bool) -> Result<(File, usize), FolderFault>
        ensures { IfOk result (λ opened. opened.1 ≤ MAX_SIZE) }
    {
        let opened = self.open_there(file, &options(writes))?;
        let size = opened
            .metadata()
            .map_err(|error| unread(file, &error))?
            .len();
        within(file, size)?;
        Ok((opened, size as usize))
    }

    /// The file of the lock, which is made if it is not there.
    pub fn lock_file(&self) -> Result<File, FolderFault> {
        let file = JournalFile::Lock;
        let path = self.path_of(file)?;
        match new_options().open(self.files, path.as_str()) {
            Ok(lock) => above_streams(lock).map_err(|error| unwritten(file, &error)),
            Err(error) if error.kind() == ErrorKind::AlreadyExists => {
                self.open_there(file, &options(true))
            }
            Err(error) => Err(unwritten(file, &error)),
        }
    }

    /// The file of the lock, if it is there and this process may read it.
    pub fn lock_file_there(&self) -> Result<Option<File>, FolderFault> {
        match self.open_there(JournalFile::Lock, &options(false)) {
            Ok(lock) => Ok(Some(lock)),
            Err(FolderFault::Unread(_, ErrorKind::NotFound)) => Ok(None),
            Err(FolderFault::Unread(_, ErrorKind::PermissionDenied)) => Ok(None),
            Err(fault) => Err(fault),
        }
    }

    // The names of what is in it, a zero byte after each.
    fn names(&self) -> io::Result<Vec<u8>> {
        let mut names = Vec::new(self.alloc);
        self.files.open_dir(self.path)?.read_to_end(&mut names)?;
        Ok(names)
    }

    // Whether both files of a pair are there.
    fn has_pair(&self, number: u64) -> Result<bool, FolderFault> {
        if self.node(JournalFile::Base(number))?.is_none() {
            return Ok(false);
        }
        Ok(self.node(JournalFile::Log(number))?.is_some())
    }

    /// The numbers of the pairs of which both files are there.
    pub fn pairs(&self) -> Result<Vec<u64>, FolderFault> {
        let names = self
            .names()
            .map_err(|error| unread(JournalFile::Folder, &error))?;
        let bases = bases_in(self.alloc, &names)?;
        let mut pairs = Vec::new(self.alloc);
        for number in &bases {
            if self.has_pair(*number)? {
                pairs.push(*number)?;
            }
        }
        Ok(pairs)
    }

    /// Removes a file, if it is there.
    pub fn remove(&self, file: JournalFile) -> Result<(), FolderFault> {
        let path = self.path_of(file)?;
        match fs::remove_file(self.files, path.as_str()) {
            Ok(()) => Ok(()),
            Err(error) if error.kind() == ErrorKind::NotFound => Ok(()),
            Err(error) => Err(unwritten(file, &error)),
        }
    }

    /// Makes a file that only its owner may read. One that was left there before is removed.
    pub fn new_file(&self, file: JournalFile) -> Result<File, FolderFault> {
        self.remove(file)?;
        let path = self.path_of(file)?;
        let opened = new_options().open(self.files, path.as_str());
        let opened = opened.map_err(|error| unwritten(file, &error))?;
        above_streams(opened).map_err(|error| unwritten(file, &error))
    }

    /// Gives a file another name.
    pub fn rename(&self, from: JournalFile, to: JournalFile) -> Result<(), FolderFault> {
        let old = self.path_of(from)?;
        let new = self.path_of(to)?;
        let renamed = fs::rename(self.files, old.as_str(), new.as_str());
        renamed.map_err(|error| unwritten(to, &error))
    }

    /// Writes the names of its files on to the disk.
    pub fn sync(&self) -> Result<(), FolderFault> {
        let file = JournalFile::Folder;
        let folder = File::open(self.files, self.path).map_err(|error| unread(file, &error))?;
        folder.sync_all().map_err(|error| unsynced(file, &error))
    }
}
