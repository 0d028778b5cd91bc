//! The receipts of all workers as a text. Anyone who has the statements can audit it without trust in its
//! writer.
#![tactic(auto)]

mod audited;
mod fault;
mod reading;
mod verdict;
mod written;

pub use audited::check_receipts;
pub use fault::{ReceiptsFault, TextFault};
pub use written::write_receipts;
