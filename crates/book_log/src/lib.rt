//! The journal on disk as text: what its books begin with, a line for each record, and sums that find damage.
#![tactic(auto)]

mod base;
mod kept;
pub mod laws;
mod line;
mod reopening;
mod sums;
mod taking;
mod words;

pub use base::{BaseFault, TenantStart, read_base, write_base};
pub use line::{LinePlace, put_line};
pub use reopening::{JournalFault, Reopened, reopen};
pub use sums::put_sum;
pub use taking::{LineFault, place_of, take_line, take_text};
