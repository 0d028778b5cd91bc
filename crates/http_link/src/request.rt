//! What the head of a request asks for.

ghost use Rattle.std.specs.Prelude.{◌≡◌, ◌≤◌, ◌==◌, ℕ, List, length, take, drop, slice_index};
ghost use Rattle.std.specs.Prelude.{Some, None, if◌then◌else◌, codes, option_map, IfOk};
ghost use Rattle.std.specs.Str.{bytes_eq, str_eq_ignore_ascii_case};
ghost use Rattle.std.specs.List.{list_any};
ghost use Rattle.common_types.specs.Outcomes.{Gives};
ghost use Rattle.http_link.specs.Bodies.{most_of};
ghost use Rattle.common_types.specs.Numerals.{value_of};
ghost use Rattle.http_link.specs.Lines.{lines_at, occurrence_at, head_at, wanted_at};
ghost use Rattle.http_link.specs.Requests.{door_at, door_named, framing_in, framing_of, within_limit, body_limit};
ghost use Rattle.http_link.specs.Requests.{bearer_token, token_in, wanted_of, waits, closes};
ghost use Rattle.http_link.specs.Limits.{max_body};

use crate::bodies::Framing;
use crate::fields::{
    FieldValue, Lines, is_chunked, is_length, is_same, value_up_to, without_spaces,
};
use crate::service::Service;
use common_types::is_token;
use common_types::limits::MAX_FRAME;

/// What a request asks of a service.
#[derive(Clone, Copy, Debug, PartialEq, Eq)]
pub enum RequestKind {
    /// A packet, `/ilp/NAME`.
    Ilp,
    /// A command, `/admin/NAME`.
    Admin,
}

/// The most bytes of a request's body.
pub const MAX_BODY: usize = MAX_FRAME;

/// The most bytes of a command's body.
pub(crate) const MAX_COMMAND: usize = 2048;

/// The parts of a request's head.
#[derive(Clone, Copy)]
pub(crate) struct RequestHead<'b> {
    pub(crate) method: &'b [u8],
    pub(crate) target: &'b [u8],
    pub(crate) minor: u8,
    pub(crate) lines: Lines<'b>,
}

/// What a head asks for that nothing refuses.
#[derive(Clone, Copy)]
pub(crate) struct Wanted<'b> {
    pub(crate) kind: RequestKind,
    pub(crate) tenant: usize,
    pub(crate) token: &'b [u8],
    pub(crate) framing: Framing,
    /// Whether the client waits for `100 Continue`. (RFC 9110, 10.1.1)
    pub(crate) waits: bool,
    /// Whether the connection is closed after the answer. (RFC 9112, 9.3 and 9.6)
    pub(crate) closes: bool,
}

fn body_limit(kind: RequestKind) -> usize
    ensures value { result ≡ body_limit kind }
    ensures bound { result ≤ max_body }
{
    match kind {
        RequestKind::Ilp => MAX_BODY,
        RequestKind::Admin => MAX_COMMAND,
    }
}

fn behind<'b>(prefix: &[u8], bytes: &'b [u8]) -> Option<&'b [u8]>
    ensures { option_map (λ rest. rest.now) result
        ≡ (if bytes_eq (take (length prefix.now) bytes.now) prefix.now
        then Some (drop (length prefix.now) bytes.now) else None) }
{
    let (front, rest) = bytes.split_at(prefix.len().min(bytes.len()));
    if front == prefix { Some(rest) } else { None }
}

fn tenant_named<S: Service>(
    service: &S,
    kind: RequestKind,
    name: &[u8],
) -> Option<(RequestKind, usize)>
    ensures { result ≡ door_named (S.tenant_of service.now) kind name.now }
{
    let named = match kind {
        RequestKind::Ilp => service.tenant(name),
        RequestKind::Admin => service.commanded_tenant(name),
    };
    match named {
        Some(tenant) => Some((kind, tenant)),
        None => None,
    }
}

fn place_of<S: Service>(service: &S, target: &[u8]) -> Option<(RequestKind, usize)>
    ensures { result ≡ door_at (S.tenant_of service.now) target.now }
{
    if let Some(name) = behind(b"/ilp/", target) {
        return tenant_named(service, RequestKind::Ilp, name);
    }
    match behind(b"/admin/", target) {
        Some(name) => tenant_named(service, RequestKind::Admin, name),
        None => None,
    }
}

fn framing_of(
    kind: RequestKind,
    minor: u8,
    coded: FieldValue,
    length: FieldValue,
) -> Result<Framing, u16>
    ensures value { result ≡ framing_of kind minor (occurrence_at coded.entry) (occurrence_at length.entry) }
    ensures bound { IfOk result (λ framing. most_of framing ≤ max_body) }
    ensures limit { IfOk result (λ framing. most_of framing ≤ body_limit kind) }
{
    match (coded, length) {
        (FieldValue::Missing, FieldValue::Missing) => Err(411),
        (FieldValue::Missing, FieldValue::Once(text)) if is_length(text) => stated_size(kind, text),
        (FieldValue::Once(coding), FieldValue::Missing) if minor == 1 && is_chunked(coding) => {
            Ok(Framing::Chunked(body_limit(kind)))
        }
        _ => Err(400),
    }
}

fn stated_size(kind: RequestKind, text: &[u8]) -> Result<Framing, u16>
    ensures value { result ≡ within_limit kind (value_of text.now) }
    ensures bound { IfOk result (λ framing. most_of framing ≤ max_body) }
    ensures limit { IfOk result (λ framing. most_of framing ≤ body_limit kind) }
{
    let size = value_up_to(text, MAX_BODY as u64 + 1) as usize;
    if size > body_limit(kind) {
        Err(413)
    } else {
        Ok(Framing::Sized(size))
    }
}

fn bearer_token(value: &[u8]) -> Option<&[u8]>
    ensures { option_map (λ token. token.now) result ≡ bearer_token value.now }
{
    let (scheme, rest) = value.split_at(value.len().min(6));
    let token = without_spaces(rest);
    if is_same(scheme, b"Bearer") && begins_with_space(rest) && is_token(token) {
        Some(token)
    } else {
        None
    }
}

fn begins_with_space(bytes: &[u8]) -> bool
    ensures { result ≡ (slice_index bytes.now 0 == 32) }
{
    match bytes {
        [b' ', ..] => true,
        _ => false,
    }
}

pub(crate) fn token_in(found: FieldValue<'_>) -> Option<&[u8]>
    ensures { option_map (λ token. token.now) result ≡ token_in (occurrence_at found.entry) }
{
    match found {
        FieldValue::Once(value) => bearer_token(value),
        _ => None,
    }
}

/// How the body of a head is framed, or the status that refuses it.
pub(crate) fn framing_in(kind: RequestKind, head: &RequestHead) -> Result<Framing, u16>
    ensures value { result ≡ framing_in kind (head_at head.now) }
    ensures bound { IfOk result (λ framing. most_of framing ≤ max_body) }
    ensures limit { IfOk result (λ framing. most_of framing ≤ body_limit kind) }
{
    let coded = head.lines.find(b"Transfer-Encoding");
    framing_of(kind, head.minor, coded, head.lines.find(b"Content-Length"))
}

/// What a head asks for, or the status of the first check that refuses it. (RFC 9110, 15.5)
pub(crate) fn wanted_of<'b, S: Service>(
    service: &S,
    head: &RequestHead<'b>,
) -> Result<Wanted<'b>, u16>
    ensures value { Gives wanted_at result (wanted_of (S.tenant_of service.now) (head_at head.now)) }
    ensures waits { IfOk result (λ wanted. wanted.waits ≡ waits (head_at head.now)) }
    ensures closes { IfOk result (λ wanted. wanted.closes ≡ closes (head_at head.now)) }
    ensures bound { IfOk result (λ wanted. most_of wanted.framing ≤ max_body) }
{
    if head.method != b"POST".as_slice() {
        return Err(405);
    }
    let Some((kind, tenant)) = place_of(service, head.target) else {
        return Err(404);
    };
    let fields = head.lines.known_fields();
    let framing = framing_of(kind, head.minor, fields.coding, fields.length)?;
    let Some(token) = token_in(fields.credentials) else {
        return Err(401);
    };
    Ok(Wanted {
        kind,
        tenant,
        token,
        framing,
        waits: head.minor == 1 && fields.waits,
        closes: head.minor == 0 || fields.closes,
    })
}

/// Whether the client waits for `100 Continue`. (RFC 9110, 10.1.1)
pub(crate) fn waits(head: &RequestHead) -> bool
    ensures { result ≡ waits (head_at head.now) }
{
    head.minor == 1 && head.lines.says(b"Expect", b"100-continue")
}
