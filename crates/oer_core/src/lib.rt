//! Lengths, octet strings and 64-bit numbers as Interledger packets spell them (RFC 0030, OER),
//! read and written without allocation, and the trait of a device whose faults are counted.
//!
//! - Read: [`read_length`] and [`read_octets`] take every spelling of a length, [`read_u64`] eight bytes.
//! - Write: [`write_length`], [`write_octets`] and [`write_u64`] test for room and use the shortest
//!   spelling; [`put_length`], [`put_octets`] and [`put_bytes`] are for bytes that are known to fit.
//! - [`OerFault`] says why bytes could not be read or written; [`laws`] what ties reading to spelling.
#![tactic(auto)]

mod counted;
mod device;
mod fault;
pub mod laws;
mod reading;
mod writing;

pub use counted::Counted;
pub use device::Device;
pub use fault::OerFault;
pub use reading::{read_length, read_octets, read_u64};
pub use writing::{
    length_size, put_bytes, put_length, put_octets, write_length, write_octets, write_u64,
};
