//! Buckets: how many packets may come at once, and how many a second after that.
#![tactic(auto)]

mod bucket;
pub mod laws;

pub use bucket::{Bucket, PACKET, full_bucket};
