//! What the list is made of.

use std::collections::LinkedList;
use tenant_core::Record;

/// A step of the list: a record of a tenant's book, its place, and the worker that made it. No value of it is made at
/// run time.
pub struct Done {
    pub worker: u64,
    pub tenant: u64,
    /// The number of the period whose journal has the record.
    pub period: u64,
    /// The number of the record in its period, from 0.
    pub number: u64,
    pub made: Record,
}

/// A tenant's steps, as far as they had come when a worker met them: the first ones that the list has of the tenant. No value
/// of it is made at run time.
pub struct Beginning {
    pub tenant: u64,
    pub steps: LinkedList<Done>,
}

/// How many tenants and workers there are.
#[derive(Clone, Copy)]
pub struct Size {
    pub tenants: u64,
    pub workers: u64,
}
