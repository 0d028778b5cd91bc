//! How far a request at a door has come, by the bytes that can be seen of it. What is said here decides only when a request is
//! served: `serve_host` and `serve_operator` read it anew.

ghost use Rattle.std.specs.Prelude.{◌≡◌};
ghost use Rattle.http_link.specs.Arrivals.{has_come};

use crate::bodies::Framing;
use crate::grammar::{HeadSpans, Offered};
use crate::head::MAX_LINES;
use crate::host_request::{HostRequest, host_wanted_of};
use crate::operator_request::{OperatorWanted, operator_sought_of};
use crate::request::{RequestHead, waits};
use crate::serve::head_in;
use httparse::spans::{EMPTY_HEADER_SPAN, RequestSpans};

/// Who knows the operators of tenants by what they show.
pub trait OperatorList {
    /// The number of the tenant whose operator asks that, by its name and token, if it is one.
    fn operator_of(&self, wanted: &OperatorWanted<'_>) -> Option<usize>;
}

/// How far a request of an operator has come.
#[derive(Clone, Copy, Debug, PartialEq, Eq)]
pub enum OperatorArrival {
    /// Its head has not come whole.
    Begun,
    /// Its head is refused, whatever follows it, or is not an operator's.
    Refused,
    /// Its head is the operator's of that tenant, and its body has not come.
    Headed(usize),
    /// The same, and its client sends the body only after `100 Continue`. (RFC 9110, 10.1.1)
    Waiting(usize),
    /// It has come whole, from the operator of that tenant.
    Whole(usize),
}

// Whether the bytes after a head are its whole body. Of chunks only the end is looked at.
fn has_come(framing: Framing, rest: &[u8]) -> bool
    ensures { result ≡ has_come framing rest.now }
{
    match framing {
        Framing::Sized(size) => rest.len() >= size,
        Framing::Chunked(_) => rest.ends_with(b"0\r\n\r\n"),
    }
}

/// How far the request of an operator has come that begins with these bytes.
pub fn operator_arrival<S: OperatorList>(bytes: &[u8], known: &S) -> OperatorArrival {
    let mut lines = [EMPTY_HEADER_SPAN; MAX_LINES];
    match RequestSpans::parse(bytes, &mut lines) {
        Offered::Partial => OperatorArrival::Begun,
        Offered::Malformed => OperatorArrival::Refused,
        Offered::Whole(spans) => {
            let head = head_in(bytes, &lines, spans);
            arrival_of(&head, &bytes[spans.len..], known)
        }
    }
}

// How far a request has come that has this head, and these bytes after it.
fn arrival_of<S: OperatorList>(head: &RequestHead, rest: &[u8], known: &S) -> OperatorArrival {
    let Ok(sought) = operator_sought_of(head) else {
        return OperatorArrival::Refused;
    };
    match known.operator_of(&sought.wanted) {
        None => OperatorArrival::Refused,
        Some(tenant) if has_come(sought.framing, rest) => OperatorArrival::Whole(tenant),
        Some(tenant) if waits(head) => OperatorArrival::Waiting(tenant),
        Some(tenant) => OperatorArrival::Headed(tenant),
    }
}

/// What the host asks for in a request that begins with these bytes, if its head is whole and shows this token.
pub fn host_arrival(bytes: &[u8], token: &[u8]) -> Option<HostRequest> {
    let mut lines = [EMPTY_HEADER_SPAN; MAX_LINES];
    let Offered::Whole(spans) = RequestSpans::parse(bytes, &mut lines) else {
        return None;
    };
    let head = head_in(bytes, &lines, spans);
    match host_wanted_of(&head) {
        Ok(wanted) if wanted.token == token => Some(wanted.request),
        _ => None,
    }
}
