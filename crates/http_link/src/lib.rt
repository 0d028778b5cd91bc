//! Packets and commands over HTTP (RFC 0035; RFC 9110 and 9112), without allocation.
//!
//! - [`serve_one`] reads one request from a stream, asks a [`Service`] if nothing refuses it, and writes the answer.
//!   [`serve_next`] does this for the requests of a connection, whose bytes an [`Inbox`] takes as they come.
//! - [`serve_host`] does this for one request of the host, which a [`HostService`] answers.
//! - [`serve_operator`] does this for one request of a tenant's operator, which an [`OperatorService`] answers.
//! - [`post`] sends a frame to a peer and reads its answer.
//! - [`LinkFault`] and [`PostFault`] say why a connection ended.
#![tactic(auto)]

mod answer;
mod arrival;
mod bodies;
mod chunks;
mod devices;
mod door;
mod fields;
mod grammar;
mod head;
mod held;
mod host_request;
mod host_serve;
mod host_service;
mod inbox;
mod intake;
pub mod laws;
mod line_buffer;
mod operator_request;
mod operator_serve;
mod operator_service;
mod posting;
mod request;
mod serve;
mod service;
mod stream;
mod streams;

pub use arrival::{OperatorArrival, OperatorList, host_arrival, operator_arrival};
pub use devices::{Sink, Source};
pub use host_request::HostRequest;
pub use host_serve::serve_host;
pub use host_service::HostService;
pub use inbox::{Inbox, serve_next};
pub use operator_request::{OperatorRequest, OperatorWanted, Topic, parted};
pub use operator_serve::serve_operator;
pub use operator_service::OperatorService;
pub use posting::{MAX_PEER_ANSWER, PostFault, post};
pub use request::{MAX_BODY, RequestKind};
pub use serve::{Served, serve_one};
pub use service::Service;
pub use streams::{LinkFault, MAX_READS};
