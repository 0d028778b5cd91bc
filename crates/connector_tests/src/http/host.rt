//! Requests at the host's door, row by row of the table of checks, however they are cut.

use super::devices::{Pieces, Taken};
use super::outcomes::Outcome;
use super::served::BAD;
use super::texts::{bytes_of, first_cell};
use http_link::{HostRequest, HostService, LinkFault, Served, serve_host};
use std::alloc::Global;
use std::test::Fail;

/// It notes how often it was asked, and whether that was the question that it waits for.
#[derive(Drop)]
struct HostDesk {
    request: HostRequest,
    token: &'static [u8],
    status: u16,
    questions: u32,
    is_right: bool,
}

impl HostDesk {
    fn new(request: HostRequest, token: &'static [u8], status: u16) -> HostDesk {
        HostDesk {
            request,
            token,
            status,
            questions: 0,
            is_right: false,
        }
    }

    fn was_asked(&self) -> bool {
        self.questions == 1 && self.is_right
    }
}

impl HostService for HostDesk {
    ghost use Rattle.std.specs.Prelude.{◌≡◌, ◌+◌, ◌-◌, ◌^◌, min, codes};

    ghost asks = { λ old question new. (question.status ≡ old.status) × (new.status ≡ old.status)
        × (new.questions ≡ min (old.questions + 1) (2 ^ 32 - 1)) };

    ghost answer = { λ _. codes "reply" };

    fn host(&mut self, request: HostRequest, token: &[u8]) -> u16 {
        self.questions = self.questions.saturating_add(1);
        self.is_right = request == self.request && token == self.token;
        self.status
    }

    fn body(&self) -> &[u8] {
        b"reply"
    }
}

const HEALTH: &[u8] =
    b"HTTP/1.1 200 OK\r\nContent-Type: text/plain\r\nContent-Length: 5\r\nConnection: close\r\n\r\nreply";

const METRICS: &[u8] =
    b"HTTP/1.1 200 OK\r\nContent-Type: text/plain; version=0.0.4\r\nContent-Length: 5\r\nConnection: close\r\n\r\nreply";

const TOML: &[u8] =
    b"HTTP/1.1 200 OK\r\nContent-Type: application/toml\r\nContent-Length: 5\r\nConnection: close\r\n\r\nreply";

const UNAUTHORIZED: &[u8] =
    b"HTTP/1.1 401 Unauthorized\r\nWWW-Authenticate: Bearer\r\nContent-Length: 0\r\nConnection: close\r\n\r\n";

const UNKNOWN: &[u8] = b"HTTP/1.1 404 Not Found\r\nContent-Length: 0\r\nConnection: close\r\n\r\n";

const ONLY_GET: &[u8] =
    b"HTTP/1.1 405 Method Not Allowed\r\nAllow: GET\r\nContent-Length: 0\r\nConnection: close\r\n\r\n";

const ONLY_POST: &[u8] =
    b"HTTP/1.1 405 Method Not Allowed\r\nAllow: POST\r\nContent-Length: 0\r\nConnection: close\r\n\r\n";

const UNAVAILABLE: &[u8] =
    b"HTTP/1.1 503 Service Unavailable\r\nContent-Length: 0\r\nConnection: close\r\n\r\n";

const STOP: &[u8] =
    b"POST /stop HTTP/1.1\r\nContent-Length: 5\r\nAuthorization: Bearer tok-Ann\r\n\r\n";

// A head, what is asked with which token, the status that the service gives, and the text.
static ASKED: &str = r"GET /health HTTP/1.1\r\n\r\n|health||200|HEALTH
GET /health HTTP/1.0\nAuthorization: Bearer tok-Ann\n\n|health||200|HEALTH
GET /health HTTP/1.1\r\nAuthorization: Basic x\r\nAuthorization:\r\n\r\n|health||200|HEALTH
GET /health HTTP/1.1\r\n\r\n|health||401|UNAUTHORIZED
GET /health HTTP/1.1\r\n\r\n|health||503|UNAVAILABLE
GET /metrics HTTP/1.1\r\nAuthorization: Bearer tok-Ann\r\n\r\n|metrics|tok-Ann|200|METRICS
\r\nGET /metrics HTTP/1.0\r\nHost: h\r\naUTHORIZATION:\tbeaRER    tok-Ann \t\r\n\r\n|metrics|tok-Ann|200|METRICS
GET /metrics HTTP/1.1\r\nAuthorization: Bearer tok-Ann\r\n\r\n|metrics|tok-Ann|401|UNAUTHORIZED
GET /metrics HTTP/1.1\r\nAuthorization: Bearer tok-Ann\r\n\r\n|metrics|tok-Ann|503|UNAVAILABLE
GET /setup HTTP/1.1\r\nAuthorization: Bearer tok-Ann\r\nConnection: keep-alive\r\n\r\n|setup|tok-Ann|200|TOML
GET /setup HTTP/1.1\r\nAuthorization: Bearer tok-Bob\r\n\r\n|setup|tok-Bob|401|UNAUTHORIZED
POST /stop HTTP/1.1\r\nContent-Length: 5\r\nAuthorization: Bearer tok-Ann\r\n\r\n|stop|tok-Ann|200|TOML
POST /stop HTTP/1.1\r\nContent-Length: 5\r\nAuthorization: Bearer tok-Ann\r\n\r\n|stop|tok-Ann|401|UNAUTHORIZED
POST /stop HTTP/1.1\r\nContent-Length: 5\r\nAuthorization: Bearer tok-Ann\r\n\r\n|stop|tok-Ann|503|UNAVAILABLE
POST /stop HTTP/1.1\r\nContent-Length: 5\r\nAuthorization: Bearer tok-Ann\r\n\r\n|stop|tok-Ann|500|UNAVAILABLE
POST /stop HTTP/1.1\r\nContent-Length: 5\r\nAuthorization: Bearer tok-Ann\r\n\r\n|stop|tok-Ann|400|UNAVAILABLE
POST /stop HTTP/1.1\r\nContent-Length: 5\r\nAuthorization: Bearer tok-Ann\r\n\r\n|stop|tok-Ann|0|UNAVAILABLE
POST /stop HTTP/1.1\r\nContent-Length: 5\r\nAuthorization: Bearer tok-Ann\r\n\r\n|stop|tok-Ann|65535|UNAVAILABLE";

// A head that is refused, and the text.
static REFUSED: &str = r"GET / HTTP/1.1\r\n\r\n|UNKNOWN
GET /healthz HTTP/1.1\r\n\r\n|UNKNOWN
GET /health/ HTTP/1.1\r\n\r\n|UNKNOWN
GET /health?x HTTP/1.1\r\n\r\n|UNKNOWN
GET /Health HTTP/1.1\r\n\r\n|UNKNOWN
GET health HTTP/1.1\r\n\r\n|UNKNOWN
GET http://h/health HTTP/1.1\r\n\r\n|UNKNOWN
POST /ilp/acme HTTP/1.1\r\nContent-Length: 5\r\nAuthorization: Bearer tok-Ann\r\n\r\n|UNKNOWN
DELETE /stops HTTP/1.0\r\n\r\n|UNKNOWN
POST /health HTTP/1.1\r\n\r\n|ONLY_GET
HEAD /health HTTP/1.0\r\n\r\n|ONLY_GET
get /health HTTP/1.1\r\n\r\n|ONLY_GET
POST /metrics HTTP/1.1\r\n\r\n|ONLY_GET
POST /setup HTTP/1.1\r\nAuthorization: Bearer tok-Ann\r\n\r\n|ONLY_GET
GETS /setup HTTP/1.1\r\n\r\n|ONLY_GET
GET /stop HTTP/1.1\r\nAuthorization: Bearer tok-Ann\r\n\r\n|ONLY_POST
post /stop HTTP/1.0\r\n\r\n|ONLY_POST
GET /metrics HTTP/1.1\r\n\r\n|UNAUTHORIZED
GET /setup HTTP/1.0\r\n\r\n|UNAUTHORIZED
POST /stop HTTP/1.1\r\nContent-Length: 5\r\n\r\n|UNAUTHORIZED
GET /metrics HTTP/1.1\r\nAuthorization: Bearer a\r\nAuthorization: Bearer a\r\n\r\n|UNAUTHORIZED
POST /stop HTTP/1.1\r\nAuthorization: Bearer a\r\nauthorization: Bearer a\r\n\r\n|UNAUTHORIZED
GET /setup HTTP/1.1\r\nAuthorization: Basic tok-Ann\r\n\r\n|UNAUTHORIZED
POST /stop HTTP/1.1\r\nAuthorization: Bearer\r\n\r\n|UNAUTHORIZED
POST /stop HTTP/1.1\r\nAuthorization: Bearer  \r\n\r\n|UNAUTHORIZED
GET /metrics HTTP/1.1\r\nAuthorization: Bearertok-Ann\r\n\r\n|UNAUTHORIZED
GET /metrics HTTP/1.1\r\nAuthorization: Bearer\ttok-Ann\r\n\r\n|UNAUTHORIZED
GET /setup HTTP/1.1\r\nAuthorization: Bearer tok Ann\r\n\r\n|UNAUTHORIZED
POST /stop HTTP/1.1\r\nAuthorization: tok-Ann\r\n\r\n|UNAUTHORIZED";

// A stream that begins with no head, and the text; none if the stream ends before a line does.
static TURNED_AWAY: &str = r"|
\r\n|
GET /health HT|
GET /health HTTP/1.1\r\n|
GET /health HTTP/1.1\r\nHost: h\r\n\r|
X\r\n\r\n|BAD
GET /health HTTP/2\r\n\r\n|BAD
GET /health\r\n\r\n|BAD
GET /health HTTP/1.1\r\nA B: c\r\n\r\n|BAD";

fn text_of(name: &str) -> &'static [u8] {
    match name {
        "BAD" => BAD,
        "HEALTH" => HEALTH,
        "METRICS" => METRICS,
        "TOML" => TOML,
        "UNAUTHORIZED" => UNAUTHORIZED,
        "UNKNOWN" => UNKNOWN,
        "ONLY_GET" => ONLY_GET,
        "ONLY_POST" => ONLY_POST,
        "UNAVAILABLE" => UNAVAILABLE,
        _ => b"",
    }
}

fn request_of(name: &str) -> Result<HostRequest, Fail> {
    match name {
        "health" => Ok(HostRequest::Health),
        "metrics" => Ok(HostRequest::Metrics),
        "setup" => Ok(HostRequest::Setup),
        "stop" => Ok(HostRequest::Stop),
        _ => Err(Fail::from("a request")),
    }
}

fn serve(reader: &mut Pieces, mut writer: Taken, mut desk: HostDesk) -> Outcome {
    let served = serve_host(reader, &mut writer, &mut desk);
    Outcome {
        served,
        questions: desk.questions,
        is_right: desk.was_asked(),
        text: writer.bytes,
    }
}

/// A reader of a stream that is cut there; at the end it gives one byte a read.
pub(crate) fn reader_of(stream: &[u8], cut: usize) -> Pieces<'_> {
    if cut < stream.len() {
        Pieces::cut_at(stream, cut)
    } else {
        Pieces::failing_after(stream, usize::MAX)
    }
}

// A stream that begins with the head of a cell, which STOP follows.
fn before_stop(alloc: Global, head: &str) -> Result<Vec<u8>, Fail> {
    let mut stream = bytes_of(alloc, head)?;
    stream.extend_from_slice(STOP)?;
    Ok(stream)
}

/// What is asked with which token, and the status that the service gives.
#[derive(Clone, Copy)]
struct Question {
    request: HostRequest,
    token: &'static [u8],
    status: u16,
}

fn question_of(cells: &'static str) -> Result<(Question, &'static [u8]), Fail> {
    let (request, rest) = first_cell(cells)?;
    let (token, rest) = first_cell(rest)?;
    let (status, name) = first_cell(rest)?;
    let question = Question {
        request: request_of(request)?,
        token: token.as_bytes(),
        status: status.parse::<u16>().ok().ok_or("a status")?,
    };
    Ok((question, text_of(name)))
}

// Whether the question is asked and the text is written, however the stream is cut, and STOP is left.
fn is_asked(alloc: Global, stream: &[u8], question: Question, text: &[u8]) -> bool {
    for cut in 0..=stream.len() {
        let mut reader = reader_of(stream, cut);
        let desk = HostDesk::new(question.request, question.token, question.status);
        let outcome = serve(&mut reader, Taken::whole(alloc), desk);
        if !outcome.is_answered(Served::Closed, text) || reader.bytes != STOP {
            return false;
        }
    }
    true
}

fn is_row_asked(alloc: Global, row: &'static str) -> Result<bool, Fail> {
    let (head, rest) = first_cell(row)?;
    let (question, text) = question_of(rest)?;
    let stream = before_stop(alloc, head)?;
    Ok(is_asked(alloc, stream.as_slice(), question, text))
}

#[test]
fn questions(rt: HostRuntime) -> Result<(), Fail> {
    for row in ASKED.lines() {
        assert!(rt; is_row_asked(rt.alloc(), row)?, "{row}");
    }
    Ok(())
}

// Whether the text is written, however the stream is cut, the service is not asked, and STOP is left.
fn is_refused(alloc: Global, stream: &[u8], text: &[u8]) -> bool {
    for cut in 0..=stream.len() {
        let mut reader = reader_of(stream, cut);
        let desk = HostDesk::new(HostRequest::Stop, b"tok-Ann", 200);
        let outcome = serve(&mut reader, Taken::whole(alloc), desk);
        if !outcome.is_unasked(Ok(Served::Closed), text) || reader.bytes != STOP {
            return false;
        }
    }
    true
}

// Whether the text is written, however the stream is cut, and the service is not asked.
fn is_turned_away(alloc: Global, stream: &[u8], text: &[u8]) -> bool {
    let wanted = if text.is_empty() {
        Served::Ended
    } else {
        Served::Closed
    };
    for cut in 0..=stream.len() {
        let desk = HostDesk::new(HostRequest::Health, b"", 200);
        let outcome = serve(&mut reader_of(stream, cut), Taken::whole(alloc), desk);
        if !outcome.is_unasked(Ok(wanted), text) {
            return false;
        }
    }
    true
}

fn is_row_refused(alloc: Global, row: &'static str) -> Result<bool, Fail> {
    let (head, name) = first_cell(row)?;
    let stream = before_stop(alloc, head)?;
    Ok(is_refused(alloc, stream.as_slice(), text_of(name)))
}

fn is_row_turned_away(alloc: Global, row: &'static str) -> Result<bool, Fail> {
    let (stream, name) = first_cell(row)?;
    let stream = bytes_of(alloc, stream)?;
    Ok(is_turned_away(alloc, stream.as_slice(), text_of(name)))
}

#[test]
fn refusals(rt: HostRuntime) -> Result<(), Fail> {
    for row in REFUSED.lines() {
        assert!(rt; is_row_refused(rt.alloc(), row)?, "{row}");
    }
    for row in TURNED_AWAY.lines() {
        assert!(rt; is_row_turned_away(rt.alloc(), row)?, "{row}");
    }
    Ok(())
}

// Serves STOP.
fn serve_stop(mut reader: Pieces, writer: Taken) -> Outcome {
    serve(
        &mut reader,
        writer,
        HostDesk::new(HostRequest::Stop, b"tok-Ann", 200),
    )
}

// Whether STOP is served, or a fault is returned, if so many reads of a byte succeed.
fn is_read(alloc: Global, reads: usize) -> bool {
    let outcome = serve_stop(Pieces::failing_after(STOP, reads), Taken::whole(alloc));
    if reads < STOP.len() {
        outcome.is_unasked(Err(LinkFault::Read), b"")
    } else {
        outcome.served == Ok(Served::Closed) && outcome.is_right
    }
}

// Whether STOP is served, or a fault is returned, if so many writes of a byte succeed, and those are
// written.
fn is_written(alloc: Global, writes: usize) -> bool {
    let outcome = serve_stop(Pieces::cut_at(STOP, 0), Taken::failing_after(alloc, writes));
    let wanted = if writes < TOML.len() {
        Err(LinkFault::Write)
    } else {
        Ok(Served::Closed)
    };
    let is_text = Some(outcome.text.as_slice()) == TOML.get(..writes);
    outcome.served == wanted && outcome.is_right && is_text
}

#[test]
fn devices_that_fail(rt: HostRuntime) -> Result<(), Fail> {
    for reads in 0..=STOP.len() {
        assert!(rt; is_read(rt.alloc(), reads), "{reads}");
    }
    for writes in 0..=TOML.len() {
        assert!(rt; is_written(rt.alloc(), writes), "{writes}");
    }
    Ok(())
}
