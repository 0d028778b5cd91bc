//! A log of records in one file, a line each. Each record is on the disk before it is acknowledged, many by one sync.
#![tactic(auto)]

mod batch;
mod file;
pub mod laws;
mod lines;
mod log;
mod memory;
mod sums;
mod writing;

pub use batch::{Batch, BatchFault};
pub use file::{FileFailed, LogFile};
pub use lines::whole_lines;
pub use log::{Log, LogError, NotBegun};
pub use memory::Memory;
pub use sums::next_sum;
