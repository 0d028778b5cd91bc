//! The packets of the Interledger (RFC 0027) as views of the bytes that they came in: each part is
//! borrowed from the frame, and no reader allocates.
//!
//! - [`PrepareView`], [`FulfillView`] and [`RejectView`] read a frame of at most [`MAX_FRAME`] bytes
//!   with at most [`MAX_DATA`] bytes of data.
//! - [`PreparePlaces`] is what was read of a Prepare, to be kept beside its frame.
//! - [`PrepareMut`] reads a Prepare in place, and lends its amount and its expiry to be written. So a
//!   frame is sent on in the bytes that it came in.
//! - [`write_fulfill`] and [`write_reject`] write the two answers.
//! - [`ViewFault`] says why a frame could not be read or written. [`laws`] says what all frames have
//!   in common.
#![tactic(auto)]

mod answers;
mod fault;
mod fields;
mod fulfill;
pub mod laws;
mod prepare;
mod prepare_mut;
mod reject;

pub use answers::{write_fulfill, write_reject};
pub use common_types::limits::MAX_FRAME;
pub use fault::ViewFault;
pub use fields::MAX_DATA;
pub use fulfill::FulfillView;
pub use prepare::{PrepareFields, PreparePlaces, PrepareView};
pub use prepare_mut::PrepareMut;
pub use reject::RejectView;
