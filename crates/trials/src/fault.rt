//! Why a trial ended early.

use replay_text::ReplayFault;
use std::alloc::{AllocError, AllocFailed};
use std::io;
use std::io::ErrorKind;
use thiserror::Error;

#[derive(Clone, Copy, Debug, PartialEq, Eq, Error)]
pub enum Fault {
    #[error("out of memory")]
    Memory,
    /// The words ask for no trial.
    #[error("words: steps SETUP SCRIPT, closed SETUP SCRIPT, write SETUP SCRIPT TIMES, check SETUP SCRIPT TIMES, crowd ROUNDS STEPS, statements ROUNDS PERIODS, audit ENTRIES (1 to 16385), or examples, one after another")]
    Words,
    /// A file can't be read, or a line not be printed.
    #[error("device")]
    Device,
    /// A setup or a script is wrong.
    #[error("{0}")]
    Replay(ReplayFault),
    /// A script whose steps make no list.
    #[error("no such steps")]
    Steps,
    /// The round in which the calm tenant did not see what it sees without the others.
    #[error("round {0}: the calm tenant sees other lines than alone")]
    Differs(u32),
    /// A book that looks random can't be begun, or a period not be closed, or its statement is not good.
    #[error("a statement is refused")]
    Book,
    /// The round whose statements do not equal the count.
    #[error("round {0}: statements come to something else")]
    Counted(u32),
    /// Hostile tenants did not get each kind of line.
    #[error("the crowd is not hostile enough")]
    Unseen,
    /// An example does not print its lines.
    #[error("an example prints other lines")]
    Example,
    /// The audit said no.
    #[error("the audit says no")]
    Refused,
}

impl From<AllocError> for Fault {
    fn from(_error: AllocError) -> Fault {
        Fault::Memory
    }
}

impl<T: Drop> From<AllocFailed<T>> for Fault {
    fn from(_error: AllocFailed<T>) -> Fault {
        Fault::Memory
    }
}

impl From<io::Error> for Fault {
    fn from(error: io::Error) -> Fault {
        if error.kind() == ErrorKind::OutOfMemory {
            Fault::Memory
        } else {
            Fault::Device
        }
    }
}

impl From<ReplayFault> for Fault {
    fn from(fault: ReplayFault) -> Fault {
        if fault == ReplayFault::Memory {
            Fault::Memory
        } else {
            Fault::Replay(fault)
        }
    }
}
