//! Books of tenants:
//!
//! - the limits of their setups and networks, verdicts at the bounds of what was agreed, the checks that decide, and what comes
//!   back;
//! - closed periods, their audits, their statements, chains of statements and texts of receipts;
//! - copies and owned entries.

mod audits;
mod chained;
mod explained;
mod limits;
mod owned;
mod periods;
mod receipt_texts;
mod returns;
mod rooms;
mod setups;
mod stated;
mod verdicts;
