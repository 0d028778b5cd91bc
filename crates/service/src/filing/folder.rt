//! A folder of statements, and of receipts.

ghost use Rattle.std.specs.Prelude.{◌≡◌, ◌++◌, IfOk, string_bytes};
ghost use Rattle.service.specs.Filing.{path_in, statement_file};

use crate::filing::disk::Disk;
use crate::filing::receipt_store::ReceiptStore;
use crate::filing::{Found, StatementStore};
use common_types::Name;
use std::alloc::Global;
use std::io;
use std::io::ErrorKind;

/// The name of the file of the receipts.
const RECEIPTS: &[u8] = b"receipts";

/// A folder in which each statement is a file, NAME.PERIOD.statement, and the receipts of all workers are one,
/// receipts. Only their owner may read them.
///
/// A file gets its name once it is whole and on the disk.
#[derive(Drop)]
pub struct Folder<'a, D> {
    disk: &'a D,
    alloc: Global,
    path: &'a str,
}

impl<'a, D> Folder<'a, D> {
    /// The folder of that path.
    pub fn new(disk: &'a D, alloc: Global, path: &'a str) -> Folder<'a, D>
        ensures disk { result.disk.now ≡ disk.now }
        ensures path { result.path.now ≡ path.now }
    {
        Folder { disk, alloc, path }
    }
}

impl<D: Disk> Folder<'_, D> {
    // The path of a file, with that ending.
    fn path_of(&self, file: &[u8], ending: &[u8]) -> io::Result<String>
        ensures { IfOk result (λ path. string_bytes path ≡ path_in self.now.path.now (file.now ++ ending.now)) }
    {
        let mut path = Vec::new(self.alloc);
        path.extend_from_slice(self.path.as_bytes())?;
        path.push(b'/')?;
        path.extend_from_slice(file)?;
        path.extend_from_slice(ending)?;
        String::from_utf8(path).map_err(|_| io::Error::from(ErrorKind::InvalidInput))
    }

    // The name of the file of a statement.
    fn file_of(&self, name: &Name, period: u64) -> io::Result<Vec<u8>>
        ensures { IfOk result (λ file. file.items ≡ statement_file name.now period) }
    {
        let number = period.to_string(self.alloc)?;
        let mut file = Vec::new(self.alloc);
        file.extend_from_slice(name.as_bytes())?;
        file.push(b'.')?;
        file.extend_from_slice(number.as_bytes())?;
        file.extend_from_slice(b".statement")?;
        Ok(file)
    }

    // What the file of a statement has, whose text that is. If it has that text, its name is written on to the disk, since that may
    // have failed before.
    fn found(&self, name: &Name, period: u64, text: &[u8]) -> io::Result<Found> {
        let file = self.file_of(name, period)?;
        let path = self.path_of(file.as_slice(), b"")?;
        if !self.disk.has(path.as_str())? {
            return Ok(Found::Nothing);
        }
        let there = self.disk.read_file(self.alloc, path.as_str())?;
        if there.as_slice() != text {
            return Ok(Found::Other);
        }
        self.disk.sync_folder(self.path)?;
        Ok(Found::Same)
    }

    /// The names of what is in it, a zero byte after each.
    pub fn names(&self) -> io::Result<Vec<u8>> {
        self.disk.names(self.alloc, self.path)
    }

    /// The bytes of the file of a statement.
    pub fn statement(&self, name: &Name, period: u64) -> io::Result<Vec<u8>>
        ensures { IfOk result (λ text. D.reads self.now.disk.now (path_in self.now.path.now (statement_file name.now period)) text.items) }
    {
        let file = self.file_of(name, period)?;
        let path = self.path_of(file.as_slice(), b"")?;
        self.disk.read_file(self.alloc, path.as_str())
    }

    // Whether there is a file for receipts.
    fn has_receipts_file(&self) -> io::Result<bool> {
        self.disk.has(self.path_of(RECEIPTS, b"")?.as_str())
    }

    // Writes a text beside, and gives it its name once it is whole.
    fn write(&self, file: &[u8], text: &[u8]) -> io::Result<()> {
        let part = self.path_of(file, b".part")?;
        let path = self.path_of(file, b"")?;
        self.disk.write_anew(part.as_str(), text)?;
        self.disk.rename(self.path, part.as_str(), path.as_str())
    }

    fn write_statement(&self, name: &Name, period: u64, text: &[u8]) -> io::Result<()> {
        let file = self.file_of(name, period)?;
        self.write(file.as_slice(), text)
    }
}

impl<D: Disk> StatementStore for Folder<'_, D> {
    // No clause can say what a file system keeps.
    ghost tells = { λ _ _ _ _. Unit {0} };

    ghost keeps = { λ _ _ _ _. Unit {0} };

    fn find(&mut self, name: &Name, period: u64, text: &[u8]) -> Found {
        self.found(name, period, text).unwrap_or(Found::Unknown)
    }

    fn keep(&mut self, name: &Name, period: u64, text: &[u8]) -> bool {
        self.write_statement(name, period, text).is_ok()
    }
}

impl<D: Disk> ReceiptStore for Folder<'_, D> {
    // No clause can say what a file system keeps.
    ghost tells_receipts = { λ _ _ _. Unit {0} };

    ghost keeps_receipts = { λ _ _ _ _. Unit {0} };

    fn has_receipts(&mut self) -> Option<bool> {
        self.has_receipts_file().ok()
    }

    fn keep_receipts(&mut self, text: &[u8]) -> bool {
        self.write(RECEIPTS, text).is_ok()
    }
}
