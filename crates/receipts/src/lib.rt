//! Receipts of the entries of many tenants, a ledger in which a worker keeps them, and their audit. The audit checks
//! all workers' receipts against the closed periods. It trusts neither the workers nor the one who kept the receipts.
#![tactic(auto)]

mod auditing;
mod chains;
mod check;
mod fault;
mod holders;
mod index;
pub mod laws;
mod layout;
mod ledger;
mod receipt;

pub use auditing::{Audited, audit};
pub use fault::AuditFault;
pub use ledger::Ledger;
pub use receipt::Receipt;
