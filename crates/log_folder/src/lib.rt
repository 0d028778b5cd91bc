//! The folder of a journal on disk: pairs of files, `N.base` and `N.log`, and `lock`, which a process that uses it holds.
//!
//! - `disk_file`: a log's file, over the calls of the operating system, which it keeps a list of for proofs.
//! - `history`: that list.
//! - `fault`: what is wrong with a folder, in words for people.
//! - `names`: the numbers of pairs, by the names of files.
//! - `place`: where the files of a folder are, and how they are opened, listed and locked.
//! - `folder`, `reading`: a folder that one process has for itself, and one that is only read.
#![tactic(auto)]

mod disk_file;
mod fault;
mod folder;
mod history;
mod names;
mod place;
mod reading;

pub use disk_file::DiskFile;
pub use fault::{FolderFault, JournalFile, MAX_SIZE};
pub use folder::{LogFolder, Segment};
pub use reading::{ReadOnlyFolder, Texts};
