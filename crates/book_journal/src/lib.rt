//! The journal of books on disk while it is written: a line for each record, and many by one sync.
#![tactic(auto)]

mod journal;
mod lines;
mod loggable;
mod notes;
mod writer;

pub use journal::Journal;
pub use notes::Notes;
pub use writer::{CommitFault, LogWriter};
