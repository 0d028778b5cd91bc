//! Addresses of the Interledger (RFC 0015), moments, and the calendar text of a packet's expiry (RFC
//! 0027).
//!
//! - [`Address`] and [`Prefix`] keep the rules of RFC 0015, at most [`MAX_ADDRESS`] bytes;
//!   [`Address::begins_with`] compares them segment by segment, and [`Segments`] yields the parts.
//! - [`OwnAddress`] is the address of a tenant, and owns its bytes.
//! - [`Moment`] is a number of milliseconds since 1970-01-01T00:00:00 UTC; [`Stamp`] reads and writes
//!   an expiry.
//! - [`AddrFault`] says why a text is not valid. [`laws`] ties reading to the definitions.
#![tactic(auto)]

mod address;
mod calendar;
mod fault;
pub mod laws;
mod moment;
mod own_address;
mod prefix;
mod segments;
mod stamp;
mod target;

pub use address::{Address, MAX_ADDRESS};
pub use fault::AddrFault;
pub use moment::Moment;
pub use own_address::{MAX_OWN_ADDRESS, OwnAddress};
pub use prefix::Prefix;
pub use segments::Segments;
pub use stamp::Stamp;
pub use target::{Host, MAX_URL, Target};
