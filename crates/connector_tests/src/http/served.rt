//! Requests that are served, row by row of the table of checks, in both versions and however they are cut.

ghost use Rattle.std.specs.Prelude.{◌≡◌, ◌+◌, ◌-◌, ◌^◌, min};

use super::devices::{Pieces, Taken};
use super::outcomes::{Outcome, serve, serve_packet};
use super::tenants::tenant_named;
use super::texts::{bytes_of, fill, first_cell, is_joined, joined, repeat};
use http_link::{LinkFault, RequestKind, Served, Service};
use std::alloc::Global;
use std::test::Fail;

/// Two tenants, acme and beta. It notes how often it was asked, and whether that was the question that it waits for.
#[derive(Drop)]
pub(crate) struct Desk {
    kind: RequestKind,
    tenant: usize,
    body: &'static [u8],
    status: u16,
    answer: &'static [u8],
    pub(crate) questions: u32,
    is_right: bool,
}

impl Desk {
    pub(crate) fn new(kind: RequestKind, tenant: usize) -> Desk {
        Desk {
            kind,
            tenant,
            body: b"frame",
            status: 200,
            answer: b"reply",
            questions: 0,
            is_right: false,
        }
    }

    fn note(&mut self, kind: RequestKind, tenant: usize, token: &[u8], body: &[u8]) -> u16
        ensures status { result ≡ self.old.status }
        ensures same { self.new.status ≡ self.old.status }
        ensures counted { self.new.questions ≡ min (self.old.questions + 1) (2 ^ 32 - 1) }
    {
        self.questions = self.questions.saturating_add(1);
        let is_whole = token == b"tok-Bob".as_slice() && body == self.body;
        self.is_right = is_whole && kind == self.kind && tenant == self.tenant;
        self.status
    }

    pub(crate) fn was_asked(&self) -> bool {
        self.questions == 1 && self.is_right
    }
}

impl Service for Desk {
    ghost use Rattle.std.specs.Prelude.{◌≡◌, ◌+◌, ◌-◌, ◌^◌, min};
    ghost use Rattle.connector_tests.specs.Tenants.{tenant_named};

    ghost asks = { λ old question new. (question.status ≡ old.status) × (new.status ≡ old.status)
        × (new.questions ≡ min (old.questions + 1) (2 ^ 32 - 1)) };

    ghost tenant_of = { λ _ _ name. tenant_named name };

    ghost answer = { λ d. d.answer.now };

    fn tenant(&self, name: &[u8]) -> Option<usize> {
        tenant_named(name)
    }

    fn commanded_tenant(&self, name: &[u8]) -> Option<usize> {
        self.tenant(name)
    }

    fn ilp(&mut self, tenant: usize, token: &[u8], body: &[u8]) -> u16 {
        self.note(RequestKind::Ilp, tenant, token, body)
    }

    fn admin(&mut self, tenant: usize, token: &[u8], body: &[u8]) -> u16 {
        self.note(RequestKind::Admin, tenant, token, body)
    }

    fn body(&self) -> &[u8] {
        self.answer
    }
}

pub(crate) const BAD: &[u8] =
    b"HTTP/1.1 400 Bad Request\r\nContent-Length: 0\r\nConnection: close\r\n\r\n";

const UNAUTHORIZED: &[u8] =
    b"HTTP/1.1 401 Unauthorized\r\nWWW-Authenticate: Bearer\r\nContent-Length: 0\r\nConnection: close\r\n\r\n";

const UNKNOWN: &[u8] = b"HTTP/1.1 404 Not Found\r\nContent-Length: 0\r\nConnection: close\r\n\r\n";

const NO_POST: &[u8] =
    b"HTTP/1.1 405 Method Not Allowed\r\nAllow: POST\r\nContent-Length: 0\r\nConnection: close\r\n\r\n";

const NO_LENGTH: &[u8] =
    b"HTTP/1.1 411 Length Required\r\nContent-Length: 0\r\nConnection: close\r\n\r\n";

const LARGE: &[u8] =
    b"HTTP/1.1 413 Content Too Large\r\nContent-Length: 0\r\nConnection: close\r\n\r\n";

pub(crate) const CONTINUE: &[u8] = b"HTTP/1.1 100 Continue\r\n\r\n";

pub(crate) const KEPT: &[u8] =
    b"HTTP/1.1 200 OK\r\nContent-Type: application/octet-stream\r\nContent-Length: 5\r\n\r\nreply";

pub(crate) const CLOSED: &[u8] =
    b"HTTP/1.1 200 OK\r\nContent-Type: application/octet-stream\r\nContent-Length: 5\r\nConnection: close\r\n\r\nreply";

const LINES: &[u8] =
    b"HTTP/1.1 200 OK\r\nContent-Type: text/plain\r\nContent-Length: 5\r\n\r\nreply";

const LINES_CLOSED: &[u8] =
    b"HTTP/1.1 200 OK\r\nContent-Type: text/plain\r\nContent-Length: 5\r\nConnection: close\r\n\r\nreply";

// The line of a request without its version, its fields, and the answer that refuses it; five bytes follow.
static REFUSED: &str = r"GET /ilp/acme||NO_POST
post /ilp/acme||NO_POST
POSTS /ilp/none|Content-Length: x\r\n|NO_POST
POST /ilp/none|Content-Length: x\r\n|UNKNOWN
POST /ilp/Acme||UNKNOWN
POST /ilp/acme/||UNKNOWN
POST /ilp/acme?x||UNKNOWN
POST /ILP/acme||UNKNOWN
POST /ilp/||UNKNOWN
POST /admin/none||UNKNOWN
POST http://h/ilp/acme||UNKNOWN
POST /||UNKNOWN
POST /ilp/acme|Content-Length: 5\r\nContent-Length: 5\r\n|BAD
POST /ilp/acme|Content-Length: 5\r\nTransfer-Encoding: chunked\r\n|BAD
POST /ilp/acme|transfer-encoding: x\r\ncontent-length: 5\r\n|BAD
POST /ilp/acme|Content-Length: 5, 5\r\n|BAD
POST /ilp/acme|Content-Length: -5\r\n|BAD
POST /ilp/acme|Content-Length:\r\n|BAD
POST /ilp/acme|Content-Length: 00000000005\r\n|BAD
POST /ilp/acme|Content-Length: 99999999999\r\n|BAD
POST /ilp/acme||NO_LENGTH
POST /ilp/acme|Transfer-Encoding: gzip\r\n|BAD
POST /ilp/acme|Transfer-Encoding: chunked\r\nTransfer-Encoding: chunked\r\n|BAD
POST /ilp/acme|Content-Length: 34001\r\n|LARGE
POST /ilp/acme|Content-Length: 9999999999\r\n|LARGE
POST /admin/acme|Content-Length: 2049\r\n|LARGE
POST /ilp/acme|Content-Length: 34000\r\n|UNAUTHORIZED
POST /admin/acme|Content-Length: 2048\r\n|UNAUTHORIZED
POST /ilp/acme|Content-Length: 5\r\nAuthorization: Bearer a\r\nAuthorization: Bearer a\r\n|UNAUTHORIZED
POST /ilp/acme|Content-Length: 5\r\nAuthorization: Basic tok-Bob\r\n|UNAUTHORIZED
POST /ilp/acme|Content-Length: 5\r\nAuthorization: Bearer\r\n|UNAUTHORIZED
POST /ilp/acme|Content-Length: 5\r\nAuthorization: Bearertok-Bob\r\n|UNAUTHORIZED
POST /ilp/acme|Content-Length: 5\r\nAuthorization: Bearer\ttok-Bob\r\n|UNAUTHORIZED
POST /ilp/acme|Content-Length: 5\r\nAuthorization: Bearer tok Bob\r\n|UNAUTHORIZED";

// The path of a request, its fields, what is asked of which tenant, and whether a 1.1 connection is kept or closed.
static ASKED: &str = r"/ilp/acme|Content-Length: 5\r\nAuthorization: Bearer tok-Bob\r\n|ilp 0|kept
/ilp/beta|Content-Length: 5\r\nAuthorization: Bearer tok-Bob\r\n|ilp 1|kept
/admin/beta|Content-Length: 5\r\nAuthorization: Bearer tok-Bob\r\n|admin 1|kept
/ilp/acme|content-LENGTH:0000000005\r\naUTHORIZATION:\tbeaRER    tok-Bob \t\r\n|ilp 0|kept
/ilp/acme|Host:\r\nContent-Length: 5 \r\nAuthorization: BEARER tok-Bob\r\nAccept: */*\r\n|ilp 0|kept
/ilp/acme|Content-Length: 5\r\nAuthorization: Bearer tok-Bob\r\nConnection: close\r\n|ilp 0|closed
/ilp/acme|connection: CLOSE\r\nContent-Length: 5\r\nAuthorization: Bearer tok-Bob\r\n|ilp 0|closed
/ilp/acme|Content-Length: 5\r\nAuthorization: Bearer tok-Bob\r\nConnection: keep-alive,\t Close \t, x\r\n|ilp 0|closed
/ilp/acme|Connection: a\r\nContent-Length: 5\r\nAuthorization: Bearer tok-Bob\r\nConnection: ,close\r\n|ilp 0|closed
/ilp/acme|Content-Length: 5\r\nAuthorization: Bearer tok-Bob\r\nConnection: closed, not close\r\n|ilp 0|kept
/ilp/acme|Content-Length: 5\r\nAuthorization: Bearer tok-Bob\r\nConnection: keep-alive\r\n|ilp 0|kept
/ilp/acme|Content-Length: 5\r\nAuthorization: Bearer tok-Bob\r\nExpect: 200-ok\r\n|ilp 0|kept
/ilp/acme|Content-Length: 5\r\nAuthorization: Bearer tok-Bob\r\nPrefer: respond-async\r\n|ilp 0|kept";

fn answer_of(name: &str) -> &'static [u8] {
    match name {
        "BAD" => BAD,
        "UNAUTHORIZED" => UNAUTHORIZED,
        "UNKNOWN" => UNKNOWN,
        "NO_POST" => NO_POST,
        "NO_LENGTH" => NO_LENGTH,
        "LARGE" => LARGE,
        _ => b"",
    }
}

fn question_of(name: &str) -> Result<(RequestKind, usize), Fail> {
    match name {
        "ilp 0" => Ok((RequestKind::Ilp, 0)),
        "ilp 1" => Ok((RequestKind::Ilp, 1)),
        "admin 1" => Ok((RequestKind::Admin, 1)),
        _ => Err(Fail::from("a question")),
    }
}

pub(crate) const POSTED: &[u8] =
    b"POST /ilp/acme HTTP/1.1\r\nContent-Length: 5\r\nAuthorization: Bearer tok-Bob\r\n\r\nframe";

fn request(alloc: Global, line: &[u8], minor: &[u8], fields: &[u8]) -> Result<Vec<u8>, Fail> {
    joined(
        alloc,
        &[line, b" HTTP/1.", minor, b"\r\n", fields, b"\r\nframe"],
    )
}

// The request of two cells.
fn request_of(alloc: Global, line: &str, minor: &[u8], fields: &str) -> Result<Vec<u8>, Fail> {
    let fields = bytes_of(alloc, fields)?;
    request(alloc, line.as_bytes(), minor, fields.as_slice())
}

// Whether it is refused with that answer, however it is cut, and what follows its head is left.
fn is_refused(alloc: Global, stream: &[u8], answer: &[u8]) -> Result<bool, Fail> {
    for cut in 0..=stream.len() {
        let mut reader = Pieces::cut_at(stream, cut);
        let outcome = serve_packet(alloc, &mut reader)?;
        if !outcome.is_unasked(Ok(Served::Closed), answer) || reader.bytes != b"frame".as_slice() {
            return Ok(false);
        }
    }
    Ok(true)
}

// Whether a row's request of that version is refused.
fn is_row_refused(alloc: Global, row: &'static str, minor: &[u8]) -> Result<bool, Fail> {
    let (line, rest) = first_cell(row)?;
    let (fields, name) = first_cell(rest)?;
    let stream = request_of(alloc, line, minor, fields)?;
    is_refused(alloc, stream.as_slice(), answer_of(name))
}

#[test]
fn refusals(rt: HostRuntime) -> Result<(), Fail> {
    for row in REFUSED.lines() {
        assert!(rt; is_row_refused(rt.alloc(), row, b"0")?, "{row}");
        assert!(rt; is_row_refused(rt.alloc(), row, b"1")?, "{row}");
    }
    Ok(())
}

// What is posted to a path, with the fields of a cell.
fn posted(alloc: Global, path: &str, minor: &[u8], fields: &str) -> Result<Vec<u8>, Fail> {
    let line = joined(alloc, &[b"POST ", path.as_bytes()])?;
    let fields = bytes_of(alloc, fields)?;
    request(alloc, line.as_slice(), minor, fields.as_slice())
}

// Whether that is asked, however the request is cut, and all of it is read.
fn is_answered(
    alloc: Global,
    stream: &[u8],
    kind: RequestKind,
    tenant: usize,
    is_closed: bool,
) -> Result<bool, Fail> {
    let (wanted, answer) = match (kind, is_closed) {
        (RequestKind::Ilp, false) => (Served::Kept, KEPT),
        (RequestKind::Ilp, true) => (Served::Closed, CLOSED),
        (RequestKind::Admin, false) => (Served::Kept, LINES),
        (RequestKind::Admin, true) => (Served::Closed, LINES_CLOSED),
    };
    for cut in 0..=stream.len() {
        let mut reader = Pieces::cut_at(stream, cut);
        let desk = Desk::new(kind, tenant);
        let outcome = serve(alloc, &mut reader, Taken::whole(alloc), desk)?;
        if !outcome.is_answered(wanted, answer) || !reader.bytes.is_empty() {
            return Ok(false);
        }
    }
    Ok(true)
}

// Whether a row's question is asked in that version.
fn is_row_answered(alloc: Global, row: &'static str, minor: &[u8]) -> Result<bool, Fail> {
    let (path, rest) = first_cell(row)?;
    let (fields, rest) = first_cell(rest)?;
    let (question, connection) = first_cell(rest)?;
    let (kind, tenant) = question_of(question)?;
    let is_closed = minor == b"0".as_slice() || connection == "closed";
    let stream = posted(alloc, path, minor, fields)?;
    is_answered(alloc, stream.as_slice(), kind, tenant, is_closed)
}

#[test]
fn questions(rt: HostRuntime) -> Result<(), Fail> {
    for row in ASKED.lines() {
        assert!(rt; is_row_answered(rt.alloc(), row, b"0")?, "{row}");
        assert!(rt; is_row_answered(rt.alloc(), row, b"1")?, "{row}");
    }
    Ok(())
}

// The status that a service gives, and the answer's text.
static STATUSES: [(u16, &[u8]); 8] = [
    (200, KEPT),
    (
        400,
        b"HTTP/1.1 400 Bad Request\r\nContent-Length: 0\r\n\r\n",
    ),
    (
        401,
        b"HTTP/1.1 401 Unauthorized\r\nWWW-Authenticate: Bearer\r\nContent-Length: 0\r\n\r\n",
    ),
    (
        503,
        b"HTTP/1.1 503 Service Unavailable\r\nContent-Length: 0\r\n\r\n",
    ),
    (
        500,
        b"HTTP/1.1 503 Service Unavailable\r\nContent-Length: 0\r\n\r\n",
    ),
    (
        201,
        b"HTTP/1.1 503 Service Unavailable\r\nContent-Length: 0\r\n\r\n",
    ),
    (
        0,
        b"HTTP/1.1 503 Service Unavailable\r\nContent-Length: 0\r\n\r\n",
    ),
    (
        65_535,
        b"HTTP/1.1 503 Service Unavailable\r\nContent-Length: 0\r\n\r\n",
    ),
];

#[test]
fn statuses(rt: HostRuntime) -> Result<(), Fail> {
    for (status, answer) in &STATUSES {
        let mut desk = Desk::new(RequestKind::Ilp, 0);
        desk.status = *status;
        let mut reader = Pieces::cut_at(POSTED, 0);
        let outcome = serve(rt.alloc(), &mut reader, Taken::whole(rt.alloc()), desk)?;
        assert!(rt; outcome.is_answered(Served::Kept, answer), "{status}");
    }
    Ok(())
}

// A stream that begins with no head, and the text that is written; none if the stream ends before a line does.
static TURNED_AWAY: &str = r"|
\r\n|
POST /ilp/acme HT|
POST /ilp/acme HTTP/1.1\r\n|
POST /ilp/acme HTTP/1.1\r\nContent-Length: 5\r\nAuthorization: Bearer tok-Bob\r\n\r|
X\r\n\r\n|BAD
\0|
\0\n|BAD
POST /ilp/acme HTTP/2\r\n\r\n|BAD
POST /ilp/acme HTTP/1.2\r\n\r\n|BAD
POST /ilp/acme\r\n\r\n|BAD
POST  /ilp/acme HTTP/1.1\r\n\r\n|BAD
PO(ST /ilp/acme HTTP/1.1\r\n\r\n|BAD
POST /ilp/acme HTTP/1.1\r\nA B: c\r\n\r\n|BAD
POST /ilp/acme HTTP/1.1\r\nA: b\r\n c\r\n\r\n|BAD";

// Whether a stream is turned away with that text, however it is cut.
fn is_turned_away(alloc: Global, stream: &[u8], text: &[u8]) -> Result<bool, Fail> {
    let wanted = if text.is_empty() {
        Served::Ended
    } else {
        Served::Closed
    };
    for cut in 0..=stream.len() {
        let outcome = serve_packet(alloc, &mut Pieces::cut_at(stream, cut))?;
        if !outcome.is_unasked(Ok(wanted), text) {
            return Ok(false);
        }
    }
    Ok(true)
}

fn is_row_turned_away(alloc: Global, row: &'static str) -> Result<bool, Fail> {
    let (stream, name) = first_cell(row)?;
    let stream = bytes_of(alloc, stream)?;
    is_turned_away(alloc, stream.as_slice(), answer_of(name))
}

#[test]
fn no_heads(rt: HostRuntime) -> Result<(), Fail> {
    for row in TURNED_AWAY.lines() {
        assert!(rt; is_row_turned_away(rt.alloc(), row)?, "{row}");
    }
    Ok(())
}

fn served(alloc: Global, stream: &[u8]) -> Result<Outcome, Fail> {
    serve_packet(alloc, &mut Pieces::cut_at(stream, 0))
}

// The bytes of the head with the empty lines before it, its lines, those empty lines, and whether it is served.
static HEADS: [(usize, usize, usize, bool); 7] = [
    (8_192, 64, 0, true),
    (8_193, 64, 0, false),
    (8_192, 65, 0, false),
    (8_192, 3, 2, true),
    (8_193, 3, 2, false),
    (8_192, 3, 8_092, true),
    (8_193, 3, 8_092, false),
];

// POSTED's line and fields, with the version and without the end of its head.
const LINES_OF_POSTED: &[u8] =
    b"POST /ilp/acme HTTP/1.1\r\nContent-Length: 5\r\nAuthorization: Bearer tok-Bob\r\n";

fn with_head(alloc: Global, size: usize, lines: usize, empty: usize) -> Result<Vec<u8>, Fail> {
    let mut stream = Vec::new(alloc);
    repeat(&mut stream, b"\n", empty)?;
    stream.extend_from_slice(LINES_OF_POSTED)?;
    repeat(&mut stream, b"A:\r\n", lines.saturating_sub(3))?;
    stream.extend_from_slice(b"B:")?;
    fill(&mut stream, b'b', size.saturating_sub(4))?;
    stream.extend_from_slice(b"\r\n\r\nframe")?;
    Ok(stream)
}

fn is_head_served(alloc: Global, stream: &[u8], is_served: bool) -> Result<bool, Fail> {
    let outcome = served(alloc, stream)?;
    Ok(if is_served {
        outcome.is_asked(Served::Kept, KEPT)
    } else {
        outcome.is_unasked(Ok(Served::Closed), BAD)
    })
}

#[test]
fn heads_at_their_limits(rt: HostRuntime) -> Result<(), Fail> {
    for (size, lines, empty, is_served) in &HEADS {
        let stream = with_head(rt.alloc(), *size, *lines, *empty)?;
        assert!(rt;
            is_head_served(rt.alloc(), stream.as_slice(), *is_served)?,
            "{size} {lines}"
        );
    }
    Ok(())
}

// The line with the version, the length, and the answer if the body is whole.
static BODIES: [(&[u8], &[u8], usize, &[u8]); 3] = [
    (b"POST /ilp/acme HTTP/1.1\r\n", b"34000", 34_000, KEPT),
    (b"POST /admin/acme HTTP/1.1\r\n", b"2048", 2_048, LINES),
    (b"POST /ilp/acme HTTP/1.1\r\n", b"0", 0, KEPT),
];

fn with_body(alloc: Global, line: &[u8], digits: &[u8], size: usize) -> Result<Vec<u8>, Fail> {
    let mut stream = joined(
        alloc,
        &[line, b"Authorization: Bearer tok-Bob\r\nContent-Length: "],
    )?;
    stream.extend_from_slice(digits)?;
    stream.extend_from_slice(b"\r\n\r\n")?;
    repeat(&mut stream, b"b", size)?;
    Ok(stream)
}

// Whether a stream whose last byte is gone is not served, and that text is written before it ends.
fn is_cut(alloc: Global, stream: &[u8], text: &[u8]) -> Result<bool, Fail> {
    let (front, _) = stream.split_at(stream.len().saturating_sub(1));
    let outcome = served(alloc, front)?;
    Ok(outcome.is_unasked(Ok(Served::Ended), text))
}

// Whether a request is served, and is not if the last byte of its body is missing.
fn is_body_served(
    alloc: Global,
    stream: &[u8],
    answer: &[u8],
    has_body: bool,
) -> Result<bool, Fail> {
    let is_whole = served(alloc, stream)?.is_asked(Served::Kept, answer);
    Ok(is_whole && (!has_body || is_cut(alloc, stream, b"")?))
}

#[test]
fn bodies_at_their_limits(rt: HostRuntime) -> Result<(), Fail> {
    for (line, digits, size, answer) in &BODIES {
        let stream = with_body(rt.alloc(), line, digits, *size)?;
        assert!(rt;
            is_body_served(rt.alloc(), stream.as_slice(), answer, *size > 0)?,
            "{size}"
        );
    }
    Ok(())
}

// The fields of a request that waits, and how long its body is.
static WAITING: [(&[u8], usize); 4] = [
    (
        b"Content-Length: 5\r\nAuthorization: Bearer tok-Bob\r\nExpect: 100-continue\r\n",
        5,
    ),
    (
        b"expect: 100-Continue\r\nContent-Length: 5\r\nAuthorization: Bearer tok-Bob\r\n",
        5,
    ),
    (
        b"Expect: x\r\nContent-Length: 5\r\nAuthorization: Bearer tok-Bob\r\n\
            Expect: 100-continue\r\nExpect: 100-continue\r\n",
        5,
    ),
    (
        b"Content-Length: 0\r\nAuthorization: Bearer tok-Bob\r\nExpect: 100-continue\r\n",
        0,
    ),
];

// Whether a client that waits gets the interim answer, and then the answer. It gets the first even if the last byte
// never comes.
fn is_told(
    alloc: Global,
    stream: &[u8],
    interim: &[u8],
    answer: &[u8],
    has_body: bool,
) -> Result<bool, Fail> {
    let outcome = served(alloc, stream)?;
    let is_whole = is_joined(outcome.text.as_slice(), interim, answer);
    let is_right = outcome.questions == 1 && is_whole;
    Ok(is_right && (!has_body || is_cut(alloc, stream, interim)?))
}

fn is_told_in_old(alloc: Global, fields: &[u8], has_body: bool) -> Result<bool, Fail> {
    let stream = request(alloc, b"POST /ilp/acme", b"0", fields)?;
    is_told(alloc, stream.as_slice(), b"", CLOSED, has_body)
}

fn is_told_in_new(alloc: Global, fields: &[u8], has_body: bool) -> Result<bool, Fail> {
    let stream = request(alloc, b"POST /ilp/acme", b"1", fields)?;
    is_told(alloc, stream.as_slice(), CONTINUE, KEPT, has_body)
}

fn is_unknown(alloc: Global, fields: &[u8]) -> Result<bool, Fail> {
    let stream = request(alloc, b"POST /ilp/none", b"1", fields)?;
    let outcome = served(alloc, stream.as_slice())?;
    Ok(outcome.text.as_slice() == UNKNOWN)
}

#[test]
fn clients_that_wait(rt: HostRuntime) -> Result<(), Fail> {
    for (i, (fields, size)) in WAITING.iter().enumerate() {
        assert!(rt; is_told_in_old(rt.alloc(), fields, *size > 0)?, "{i}");
        assert!(rt; is_told_in_new(rt.alloc(), fields, *size > 0)?, "{i}");
    }
    // A client that is refused does not get `100 Continue`.
    assert!(rt; is_unknown(rt.alloc(), b"Expect: 100-continue\r\n")?);
    Ok(())
}

const CLOSING: &[u8] =
    b"POST /ilp/acme HTTP/1.0\r\nContent-Length: 5\r\nAuthorization: Bearer tok-Bob\r\n\r\nframe";

// Whether two packets are served, the next one is too and closes the connection, and the last is left.
fn are_served(alloc: Global, stream: &[u8], cut: usize) -> Result<bool, Fail> {
    let mut reader = Pieces::cut_at(stream, cut);
    let first = serve_packet(alloc, &mut reader)?.is_answered(Served::Kept, KEPT);
    let second = serve_packet(alloc, &mut reader)?.is_answered(Served::Kept, KEPT);
    let third = serve_packet(alloc, &mut reader)?.is_answered(Served::Closed, CLOSED);
    Ok(first && second && third && reader.bytes == POSTED)
}

#[test]
fn requests_in_one_stream(rt: HostRuntime) -> Result<(), Fail> {
    let stream = joined(rt.alloc(), &[POSTED, POSTED, CLOSING, POSTED])?;
    for cut in 0..=stream.len() {
        assert!(rt; are_served(rt.alloc(), stream.as_slice(), cut)?, "{cut}");
    }
    Ok(())
}

// Whether POSTED is served, or a fault is returned, if so many reads of a byte succeed.
fn is_read(alloc: Global, reads: usize) -> Result<bool, Fail> {
    let outcome = serve_packet(alloc, &mut Pieces::failing_after(POSTED, reads))?;
    Ok(if reads < POSTED.len() {
        outcome.is_unasked(Err(LinkFault::Read), b"")
    } else {
        outcome.is_answered(Served::Kept, KEPT)
    })
}

// Whether POSTED is served, or a fault is returned, if so many writes of a byte succeed, and those are written.
fn is_written(alloc: Global, writes: usize) -> Result<bool, Fail> {
    let writer = Taken::failing_after(alloc, writes);
    let desk = Desk::new(RequestKind::Ilp, 0);
    let outcome = serve(alloc, &mut Pieces::cut_at(POSTED, 0), writer, desk)?;
    let wanted = if writes < KEPT.len() {
        Err(LinkFault::Write)
    } else {
        Ok(Served::Kept)
    };
    let is_text = Some(outcome.text.as_slice()) == KEPT.get(..writes);
    Ok(outcome.served == wanted && outcome.is_right && is_text)
}

#[test]
fn devices_that_fail(rt: HostRuntime) -> Result<(), Fail> {
    for reads in 0..=POSTED.len() {
        assert!(rt; is_read(rt.alloc(), reads)?, "{reads}");
    }
    for writes in 0..=KEPT.len() {
        assert!(rt; is_written(rt.alloc(), writes)?, "{writes}");
    }
    Ok(())
}
