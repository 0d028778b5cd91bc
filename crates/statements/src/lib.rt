//! Statements: closed periods as texts. Anyone who has one can check it without trust in its
//! writer.
#![tactic(auto)]

mod chain;
mod checked;
mod counting;
mod due;
mod entry;
mod good;
mod known;
pub mod laws;
mod line;
mod opening;
mod put;
mod seen;
mod shown;
mod summary;
mod tally;
mod terms;
mod totals;
mod words;
mod written;

pub use chain::{Chain, ChainFault};
pub use checked::{StatementFault, check_statement, first_difference};
pub use entry::entry_in;
pub use good::GoodStatement;
pub use line::{Line, PeerSums};
pub use opening::opening_in;
pub use put::{put_decimal, put_number, put_word};
pub use seen::PeerSeen;
pub use shown::{SetupLines, line_at, line_of, ruled};
pub use tally::{Long, Summed, Tally};
pub use totals::Totals;
pub use words::{LineWords, Lines};
pub use written::{put_opening, put_record, view_of, write_head, write_statement};
