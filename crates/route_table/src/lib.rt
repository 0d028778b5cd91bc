//! The routes of one operator: where packets for a prefix go, and the best route of an address (RFC
//! 0015, "Address Prefixes").
//!
//! - [`Routes`] maps at most [`MAX_ROUTES`] prefixes to a [`Hop`], a peer's number and a fee.
//! - [`Routes::find`] returns the hop of the longest prefix that begins an address.
//! - [`Routes::list`] returns each [`Route`] once.
//! - [`RouteFault`] says why a route was not added or not removed. [`laws`] says what the best
//!   route is.
#![tactic(auto)]

mod fault;
mod hop;
pub mod laws;
mod node;
mod route;
mod routes;

pub use fault::RouteFault;
pub use hop::{Fee, Hop, PeerNo};
pub use route::Route;
pub use routes::{MAX_ROUTES, Routes};
