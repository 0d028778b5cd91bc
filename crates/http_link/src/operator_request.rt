//! What an operator asks for, by the head of a request.

ghost use Rattle.std.specs.Prelude.{◌≡◌, ◌≤◌, ◌<◌, ◌==◌, length, option_map, IfOk, IfSome};
ghost use Rattle.std.specs.List.{position};
ghost use Rattle.common_types.specs.Outcomes.{Gives};
ghost use Rattle.http_link.specs.Bodies.{most_of};
ghost use Rattle.http_link.specs.Limits.{max_command};
ghost use Rattle.http_link.specs.Lines.{head_at};
ghost use Rattle.http_link.specs.OperatorDoor.{operator_framing, operator_method, operator_place, topic_at};
ghost use Rattle.http_link.specs.OperatorDoor.{operator_sought_at, operator_sought_of, parted, refused_with};

use crate::bodies::Framing;
use crate::request::{RequestHead, RequestKind, framing_in, token_in};

/// What an operator may ask about its tenant.
#[derive(Clone, Copy, Debug, PartialEq, Eq)]
pub enum Topic {
    /// Its setup as it is at present, `GET /NAME/setup`.
    Setup,
    /// What was counted of it, `GET /NAME/metrics`.
    Metrics,
    /// The statement of a closed period, `GET /NAME/statements/N`.
    Statement,
    /// Why a packet would be refused now, `GET /NAME/explain?QUESTION`.
    Explain,
}

/// What an operator may ask for.
#[derive(Clone, Copy, Debug, PartialEq, Eq)]
pub enum OperatorRequest {
    /// That a command is done, `POST /NAME`.
    Command,
    /// An answer about its tenant.
    Ask(Topic),
}

/// What a head asks for that nothing refuses.
#[derive(Clone, Copy)]
pub struct OperatorWanted<'b> {
    /// The name in the target.
    pub tenant: &'b [u8],
    pub request: OperatorRequest,
    /// What the target says beside that: the number of a period for `Statement`, a question for `Explain`, else nothing.
    pub words: &'b [u8],
    /// The token that is shown.
    pub token: &'b [u8],
}

/// What a head asks for that nothing refuses, and how the body after it is framed.
#[derive(Clone, Copy)]
pub(crate) struct OperatorSought<'b> {
    pub(crate) wanted: OperatorWanted<'b>,
    pub(crate) framing: Framing,
}

/// Why a head is refused.
#[derive(Clone, Copy, Debug, PartialEq, Eq)]
pub(crate) enum OperatorRefusal {
    /// The request with its target has another method.
    Method(OperatorRequest),
    /// Another check fails, which has that status.
    Status(u16),
}

/// What is before the first such byte, and what is after it; `None` where there is no such byte.
pub fn parted(bytes: &[u8], mark: u8) -> Option<(&[u8], &[u8])>
    ensures value { option_map (λ parts. (parts.0.now, parts.1.now)) result ≡ parted mark bytes.now }
    ensures shorter { IfSome result (λ parts. length parts.1.now < length bytes.now) }
{
    match first_mark(bytes, mark) {
        Some(at) => Some((&bytes[..at], &bytes[at + 1..])),
        None => None,
    }
}

fn first_mark(bytes: &[u8], mark: u8) -> Option<usize>
    ensures value { result ≡ position (λ b. b == mark) bytes.now }
    ensures inside { IfSome result (λ at. at < length bytes.now) }
{
    bytes.iter().position(|b| *b == mark)
}

// The name in a target, the request, and what the words of the target say of it.
fn operator_place(target: &[u8]) -> Option<(&[u8], OperatorRequest, &[u8])>
    ensures { option_map (λ place. (place.0.now, place.1, place.2.now)) result ≡ operator_place target.now }
{
    let path = target.strip_prefix(b"/".as_slice())?;
    let Some((name, words)) = parted(path, b'/') else {
        return Some((path, OperatorRequest::Command, b""));
    };
    let (topic, words) = topic_at(words)?;
    Some((name, OperatorRequest::Ask(topic), words))
}

fn topic_at(words: &[u8]) -> Option<(Topic, &[u8])>
    ensures { option_map (λ asked. (asked.0, asked.1.now)) result ≡ topic_at words.now }
{
    if words == b"setup".as_slice() {
        return Some((Topic::Setup, b""));
    }
    if words == b"metrics".as_slice() {
        return Some((Topic::Metrics, b""));
    }
    if let Some(period) = words.strip_prefix(b"statements/".as_slice()) {
        return Some((Topic::Statement, period));
    }
    if words == b"explain".as_slice() {
        return Some((Topic::Explain, b""));
    }
    let question = words.strip_prefix(b"explain?".as_slice())?;
    Some((Topic::Explain, question))
}

/// The method of a request.
pub(crate) fn operator_method(request: OperatorRequest) -> &'static [u8]
    ensures { result.now ≡ operator_method request }
{
    match request {
        OperatorRequest::Command => b"POST",
        OperatorRequest::Ask(_) => b"GET",
    }
}

fn operator_framing(
    request: OperatorRequest,
    head: &RequestHead,
) -> Result<Framing, OperatorRefusal>
    ensures value { result ≡ refused_with (operator_framing request (head_at head.now)) }
    ensures bound { IfOk result (λ framing. most_of framing ≤ max_command) }
{
    match request {
        OperatorRequest::Command => {
            framing_in(RequestKind::Admin, head).map_err(OperatorRefusal::Status)
        }
        OperatorRequest::Ask(_) => Ok(Framing::Sized(0)),
    }
}

/// What a head asks for, or why the first check that fails refuses it. (RFC 9110, 15.5)
pub(crate) fn operator_sought_of<'b>(
    head: &RequestHead<'b>,
) -> Result<OperatorSought<'b>, OperatorRefusal>
    ensures value { Gives operator_sought_at result (operator_sought_of (head_at head.now)) }
    ensures bound { IfOk result (λ sought. most_of sought.framing ≤ max_command) }
{
    let Some((tenant, request, words)) = operator_place(head.target) else {
        return Err(OperatorRefusal::Status(404));
    };
    if head.method != operator_method(request) {
        return Err(OperatorRefusal::Method(request));
    }
    let framing = operator_framing(request, head)?;
    let Some(token) = token_in(head.lines.find(b"Authorization")) else {
        return Err(OperatorRefusal::Status(401));
    };
    let wanted = OperatorWanted {
        tenant,
        request,
        words,
        token,
    };
    Ok(OperatorSought { wanted, framing })
}
