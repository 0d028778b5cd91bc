//! What statements need of a file system.

use std::alloc::Global;
use std::fs::{File, Files, OpenFile, OpenOptions};
use std::io::{ErrorKind, Read, Write};
use std::os::unix::fs::OpenOptionsExt;
use std::{fs, io};

/// A file system. Threads may share it, of which a bound on its files would say too little.
pub trait Disk {
    ghost use Rattle.std.specs.Prelude.{IfOk, List, ℕ};

    /// That it told these bytes of the file at a path.
    ghost reads: { Self → List ℕ → List ℕ → Type 0 };

    /// Whether there is a file at that path.
    fn has(&self, path: &str) -> io::Result<bool>;

    /// The names of what is in a folder, a zero byte after each.
    fn names(&self, alloc: Global, folder: &str) -> io::Result<Vec<u8>>;

    /// The bytes of the file at that path. A symbolic link is not followed: it is an error.
    fn read_file(&self, alloc: Global, path: &str) -> io::Result<Vec<u8>>
        ensures { IfOk result (λ text. reads self.now path.now text.items) };

    /// Writes a text to a new file at that path, which only its owner may read, and on to the disk. A file that was
    /// left there before is removed.
    fn write_anew(&self, path: &str, text: &[u8]) -> io::Result<()>;

    /// Gives a file of a folder another path in it, and writes the folder on to the disk.
    fn rename(&self, folder: &str, from: &str, to: &str) -> io::Result<()>;

    /// Writes the names of a folder's files on to the disk.
    fn sync_folder(&self, folder: &str) -> io::Result<()>;
}

/// The mode of a file that only its owner may read and write.
const MODE: u32 = 0o600;

// Removes the file at that path, if there is one.
fn remove_if_there(files: &impl Files, path: &str) -> io::Result<()> {
    match fs::remove_file(files, path) {
        Err(error) if error.kind() == ErrorKind::NotFound => Ok(()),
        removed => removed,
    }
}

impl<R: Files> Disk for R {
    // The system's calls have no clause that says what a file has.
    ghost reads = { λ _ _ _. Unit {0} };

    fn has(&self, path: &str) -> io::Result<bool> {
        fs::exists(self, path)
    }

    fn names(&self, alloc: Global, folder: &str) -> io::Result<Vec<u8>> {
        let mut names = Vec::new(alloc);
        self.open_dir(folder)?.read_to_end(&mut names)?;
        Ok(names)
    }

    fn read_file(&self, alloc: Global, path: &str) -> io::Result<Vec<u8>> {
        if fs::symlink_metadata(self, path)?.is_symlink() {
            return Err(io::Error::from(ErrorKind::InvalidInput));
        }
        let mut text = Vec::new(alloc);
        File::open(self, path)?.read_to_end(&mut text)?;
        Ok(text)
    }

    fn write_anew(&self, path: &str, text: &[u8]) -> io::Result<()> {
        remove_if_there(self, path)?;
        let mut options = OpenOptions::new();
        options.write(true).create_new(true).mode(MODE);
        let mut file = options.open(self, path)?;
        file.write_all(text)?;
        file.sync_all()
    }

    fn rename(&self, folder: &str, from: &str, to: &str) -> io::Result<()> {
        fs::rename(self, from, to)?;
        self.sync_folder(folder)
    }

    fn sync_folder(&self, folder: &str) -> io::Result<()> {
        File::open(self, folder)?.sync_all()
    }
}
