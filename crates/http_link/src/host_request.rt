//! What the host asks for, by the head of a request.

ghost use Rattle.std.specs.Prelude.{◌≡◌, length, option_map};
ghost use Rattle.common_types.specs.Outcomes.{Gives};
ghost use Rattle.http_link.specs.HostDoor.{request_at, method_of, token_shown};
ghost use Rattle.http_link.specs.HostDoor.{host_wanted_at, host_wanted_of};
ghost use Rattle.http_link.specs.Lines.{head_at, occurrence_at};

use crate::fields::FieldValue;
use crate::request::{RequestHead, token_in};

/// What the host may ask for.
#[derive(Clone, Copy, Debug, PartialEq, Eq)]
pub enum HostRequest {
    /// Whether the process serves, `GET /health`.
    Health,
    /// What it counted, `GET /metrics`.
    Metrics,
    /// Its setup, `GET /setup`.
    Setup,
    /// That it stops, `POST /stop`.
    Stop,
}

/// What a head asks for that nothing refuses.
#[derive(Clone, Copy)]
pub(crate) struct HostWanted<'b> {
    pub(crate) request: HostRequest,
    pub(crate) token: &'b [u8],
}

/// Why a head is refused.
#[derive(Clone, Copy, Debug, PartialEq, Eq)]
pub(crate) enum HostRefusal {
    /// No request has its target.
    Target,
    /// The request with its target has another method.
    Method(HostRequest),
    /// It shows no token.
    Token,
}

fn request_at(target: &[u8]) -> Option<HostRequest>
    ensures { result ≡ request_at target.now }
{
    if target == b"/health".as_slice() {
        Some(HostRequest::Health)
    } else if target == b"/metrics".as_slice() {
        Some(HostRequest::Metrics)
    } else if target == b"/setup".as_slice() {
        Some(HostRequest::Setup)
    } else if target == b"/stop".as_slice() {
        Some(HostRequest::Stop)
    } else {
        None
    }
}

fn method_of(request: HostRequest) -> &'static [u8]
    ensures { result.now ≡ method_of request }
{
    match request {
        HostRequest::Health | HostRequest::Metrics | HostRequest::Setup => b"GET",
        HostRequest::Stop => b"POST",
    }
}

fn token_shown(request: HostRequest, found: FieldValue<'_>) -> Option<&[u8]>
    ensures { option_map (λ token. token.now) result ≡ token_shown request (occurrence_at found.entry) }
{
    match request {
        HostRequest::Health => Some(b""),
        HostRequest::Metrics | HostRequest::Setup | HostRequest::Stop => token_in(found),
    }
}

/// What a head asks for, or why the first check that fails refuses it. (RFC 9110, 15.5)
pub(crate) fn host_wanted_of<'b>(head: &RequestHead<'b>) -> Result<HostWanted<'b>, HostRefusal>
    ensures { Gives host_wanted_at result (host_wanted_of (head_at head.now)) }
{
    let Some(request) = request_at(head.target) else {
        return Err(HostRefusal::Target);
    };
    if head.method != method_of(request) {
        return Err(HostRefusal::Method(request));
    }
    match token_shown(request, head.lines.find(b"Authorization")) {
        Some(token) => Ok(HostWanted { request, token }),
        None => Err(HostRefusal::Token),
    }
}
