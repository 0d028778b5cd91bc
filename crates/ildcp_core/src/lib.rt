//! The configuration of children (RFC 0031, "Interledger Dynamic Configuration Protocol"): a child's
//! Prepare to `peer.config` is answered with the child's own address and its asset.
//!
//! - [`is_config`] says whether a packet asks for it, and [`check`] whether it may.
//! - [`answer`] writes the Fulfill that gives a [`Child`] its configuration.
//! - [`IldcpFault`] says why a request is refused. [`laws`] says what all answers have in common.
#![tactic(auto)]

mod child;
mod fault;
mod fulfill;
pub mod laws;
mod request;

pub use child::{Child, ChildParts, Role};
pub use fault::IldcpFault;
pub use fulfill::{MAX_ANSWER, answer};
pub use request::{check, is_config};
