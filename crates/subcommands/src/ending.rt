//! How the program ends.

ghost use Rattle.std.specs.Prelude.{◌≡◌, ◌≢◌, ◌↔◌, IsTrue};
ghost use Rattle.clap.specs.Values.{kind_of};
ghost use Rattle.clap.specs.declared.error.kind.ErrorKind.TheVariants.{DisplayVersion, OutOfMemory};
ghost use Rattle.subcommands.specs.Endings.{exit_status};

use book_journal::CommitFault;
use clap::error::ErrorKind;
use log_folder::FolderFault;
use replay_text::ReplayFault;
use service::ServeFault;
use std::alloc::{AllocError, AllocFailed};
use thiserror::Error;

/// Why a journal is not kept, or can't be read.
#[derive(Clone, Copy, Debug, PartialEq, Eq, Error)]
pub enum JournalEnding {
    #[error("journal: out of memory")]
    Memory,
    #[error("journal: {0}")]
    Folder(FolderFault),
    /// A replay begins a journal, and there is one already.
    #[error("journal: the folder has a journal already: a replay needs one without")]
    Taken,
    #[error("journal: the folder has no journal")]
    Missing,
    #[error("journal: {0}")]
    Commit(CommitFault),
    /// The tenants of a base are not those of a service.
    #[error("journal: its tenants are not 1 to 64 that are numbered from 0")]
    Tenants,
    /// The tenant of that number can't go on: its running period is the last one.
    #[error("journal: tenant {0}: no period follows the one that was running")]
    Last(usize),
}

impl From<AllocError> for JournalEnding {
    fn from(_: AllocError) -> Self {
        JournalEnding::Memory
    }
}

impl<T: Drop> From<AllocFailed<T>> for JournalEnding {
    fn from(_: AllocFailed<T>) -> Self {
        JournalEnding::Memory
    }
}

impl From<FolderFault> for JournalEnding {
    fn from(fault: FolderFault) -> Self {
        match fault {
            FolderFault::Memory => JournalEnding::Memory,
            fault => JournalEnding::Folder(fault),
        }
    }
}

/// Why the program ended early.
#[derive(Drop)]
pub enum Ending {
    /// The command line is not valid, or asks for help.
    Usage(clap::Error),
    Fault(ReplayFault),
    /// A service ended so.
    Served(ServeFault),
    /// The file of the host's token has no token, or others may write it, as a line has said.
    NoToken,
    /// A statement is not good, or does not go on from the one before it, or a text is not one of receipts. Lines have
    /// said so.
    NotGood,
    /// An audit of receipts found a fault, as a line has said.
    Audit,
    /// A journal is not kept, or can't be read.
    Journal(JournalEnding),
    /// The setup is not the one that a service's journal began with, as a line has said.
    SetupDiffers,
}

impl Ending {
    /// How a run ends for that reason.
    pub fn of_journal(why: JournalEnding) -> Ending
        ensures { result ≡ Ending.Journal why }
    {
        Ending::Journal(why)
    }

    /// How a run ends that can't use the folder of a journal.
    pub fn of_folder(fault: FolderFault) -> Ending {
        Ending::of_journal(fault.into())
    }
}

/// How a run ends whose words were not accepted: out of memory if that is the error's kind, otherwise with the text
/// for people.
pub fn words_refused(error: clap::Error) -> Ending
    ensures memory { kind_of error ≡ OutOfMemory → result ≡ Ending.Fault ReplayFault.Memory }
    ensures text { kind_of error ≢ OutOfMemory → result ≡ Ending.Usage error }
{
    if error.kind() == ErrorKind::OutOfMemory {
        return Ending::Fault(ReplayFault::Memory);
    }
    Ending::Usage(error)
}

/// Whether the words asked for the version, which the error's text has, and only for that.
pub fn asks_version(error: &clap::Error) -> bool
    ensures { IsTrue result ↔ (kind_of error.now ≡ DisplayVersion) }
{
    error.kind() == ErrorKind::DisplayVersion
}

/// The exit status of a run that ended so: 0 only if nothing went wrong.
pub fn exit_status(ended: &Result<(), Ending>) -> u8
    ensures { result ≡ exit_status ended.now }
{
    match ended {
        Ok(()) => 0,
        Err(Ending::Usage(_) | Ending::NoToken) => 2,
        Err(Ending::SetupDiffers) => 3,
        Err(Ending::NotGood) => 4,
        Err(Ending::Fault(fault)) => fault.status(),
        Err(Ending::Served(ServeFault::Memory) | Ending::Journal(JournalEnding::Memory)) => 1,
        Err(Ending::Journal(_)) => 5,
        Err(Ending::Served(ServeFault::Device)) => 5,
        Err(Ending::Served(ServeFault::Differs | ServeFault::Audit) | Ending::Audit) => 6,
    }
}
