//! A log's file on disk. Each function here makes the calls of the system that it notes, and no others that write.

ghost use Rattle.std.specs.Prelude.{◌≡◌, [], ◌∷◌, length, replicate, IfOk};
ghost use Rattle.log_folder.specs.Calls.{seen_after, may_leave_after, left_since_after, has_failed_after, counts_now, only_now};

use crate::fault::{FolderFault, JournalFile, unread, unsynced, unwritten};
use crate::history::History;
use line_log::{FileFailed, LogFile};
use std::fs::File;
use std::os::unix::fs::FileExt;

const MADE: u64 = 0;

const FOUND: u64 = 1;

const WRITTEN: u64 = 2;

const SYNCED: u64 = 3;

/// How many zeros are written at once, in bytes.
const PIECE: usize = 65_536;

/// A log's file, of a fixed size, that is open for reading and writing. The lock of its folder is held until it is dropped.
///
/// No clause can say what a file of the operating system holds. So it keeps a list of the calls on it, with their
/// answers, for proofs: what a read returns and what a crash may leave is read from that list. That the file does what
/// the list says is trusted, and that no other process writes to it.
#[derive(Drop)]
pub struct DiskFile {
    file: File,
    lock: File,
    history: History,
}

/// A file that was opened, the lock of its folder, and its name.
#[derive(Drop)]
pub(crate) struct Opened {
    pub file: File,
    pub lock: File,
    pub name: JournalFile,
}

impl DiskFile {
    ghost use Rattle.log_folder.specs.Calls.{made, found};
    ghost use Rattle.log_folder.specs.Disk.{disk_calls, IsOnDisk};

    /// Writes so many zeros to a new file, and syncs it.
    #[tactic(auto, unfolding(crate::specs::Calls::seen_after, crate::specs::Calls::may_leave_after, crate::specs::Calls::has_failed_after))]
    pub(crate) fn make(opened: Opened, size: usize) -> Result<DiskFile, FolderFault>
        ensures calls { IfOk result (λ f. disk_calls f ≡ made size ∷ []) }
        ensures on_disk { IfOk result (λ f. IsOnDisk (replicate size 0) f) }
    {
        let Opened { file, lock, name } = opened;
        write_zeros(&file, name, size)?;
        file.sync_all().map_err(|error| unsynced(name, &error))?;
        let mut history = History::new();
        history.note(&[MADE, size as u64, 1], &[]);
        Ok(DiskFile {
            file,
            lock,
            history,
        })
    }

    /// Syncs a file, and reads it whole into these bytes, which are as many as it has.
    #[tactic(auto, unfolding(crate::specs::Calls::seen_after, crate::specs::Calls::may_leave_after, crate::specs::Calls::has_failed_after))]
    pub(crate) fn find(opened: Opened, bytes: &mut [u8]) -> Result<DiskFile, FolderFault>
        ensures calls { IfOk result (λ f. disk_calls f ≡ found bytes.new ∷ []) }
        ensures on_disk { IfOk result (λ f. IsOnDisk bytes.new f) }
    {
        let Opened { file, lock, name } = opened;
        file.sync_all().map_err(|error| unsynced(name, &error))?;
        file.read_exact_at(bytes, 0)
            .map_err(|error| unread(name, &error))?;
        let mut history = History::new();
        history.note(&[FOUND, 0, 1], bytes);
        Ok(DiskFile {
            file,
            lock,
            history,
        })
    }
}

// Writes so many zeros from the beginning of a file on.
fn write_zeros(file: &File, name: JournalFile, size: usize) -> Result<(), FolderFault> {
    let zeros = [0; PIECE];
    for at in (0..size).step_by(PIECE) {
        let count = PIECE.min(size - at);
        file.write_all_at(&zeros[..count], at as u64)
            .map_err(|error| unwritten(name, &error))?;
    }
    Ok(())
}

impl LogFile for DiskFile {
    ghost seen = { λ f. seen_after f.history.calls };

    ghost may_leave = { λ f. may_leave_after f.history.calls };

    ghost moment = { λ f. length f.history.calls };

    ghost left_since = { λ f. left_since_after f.history.calls };

    ghost has_failed = { λ f. has_failed_after f.history.calls };

    ghost counts_now = { λ f t c le now. counts_now f.history.calls t c now };

    ghost only_now = { λ f c left. only_now f.history.calls c left };

    #[tactic(auto, unfolding(crate::specs::Calls::seen_after, crate::specs::Calls::may_leave_after, crate::specs::Calls::left_since_after, crate::specs::Calls::has_failed_after))]
    fn write_at(&mut self, at: usize, bytes: &[u8]) -> Result<(), FileFailed> {
        match self.file.write_all_at(bytes, at as u64) {
            Ok(()) => {
                self.history.note(&[WRITTEN, at as u64, 1], bytes);
                Ok(())
            }
            Err(_) => {
                self.history.note(&[WRITTEN, at as u64, 0], bytes);
                Err(FileFailed)
            }
        }
    }

    #[tactic(auto, unfolding(crate::specs::Calls::seen_after, crate::specs::Calls::may_leave_after, crate::specs::Calls::left_since_after, crate::specs::Calls::has_failed_after))]
    fn sync(&mut self) -> Result<(), FileFailed> {
        match self.file.sync_data() {
            Ok(()) => {
                self.history.note(&[SYNCED, 0, 1], &[]);
                Ok(())
            }
            Err(_) => {
                self.history.note(&[SYNCED, 0, 0], &[]);
                Err(FileFailed)
            }
        }
    }
}
