//! Receipts of entries.

use tenant_core::{Entry, Outcome};

/// What a worker keeps of an entry that it appended to a tenant's journal: its place, and its content.
#[derive(Drop)]
pub struct Receipt {
    /// The tenant's place among all tenants.
    pub tenant: usize,
    /// The number of the period.
    pub period: u64,
    /// The number of the entry in its period, from 0.
    pub number: u64,
    pub entry: Entry,
    /// What the entry led to.
    pub verdict: Outcome,
}
