//! Requests at the operators' door, row by row of the table of checks, however they are cut.

use super::devices::{Pieces, Taken};
use super::host::reader_of;
use super::outcomes::Outcome;
use super::texts::{bytes_of, first_cell};
use http_link::{OperatorRequest, OperatorService, OperatorWanted, Served, Topic, serve_operator};
use std::alloc::Global;
use std::test::Fail;

/// It notes how often it was asked, and whether that was the question that it waits for.
#[derive(Drop)]
struct OperatorDesk {
    question: Question,
    questions: u32,
    is_right: bool,
}

/// What is asked of which tenant, in which words, with which token and body, and the status that the service gives.
#[derive(Clone, Copy)]
struct Question {
    tenant: &'static [u8],
    request: OperatorRequest,
    words: &'static [u8],
    token: &'static [u8],
    body: &'static [u8],
    status: u16,
}

impl Question {
    fn is(&self, wanted: &OperatorWanted<'_>, body: &[u8]) -> bool {
        wanted.tenant == self.tenant
            && wanted.request == self.request
            && wanted.words == self.words
            && wanted.token == self.token
            && body == self.body
    }
}

impl OperatorService for OperatorDesk {
    ghost use Rattle.std.specs.Prelude.{◌≡◌, ◌+◌, ◌-◌, ◌^◌, min, codes};
    ghost use Rattle.connector_tests.specs.Tenants.{refused_by};

    ghost asks = { λ old question new. (question.status ≡ old.question.status) × (new.question ≡ old.question)
        × (new.questions ≡ min (old.questions + 1) (2 ^ 32 - 1)) };

    ghost answer = { λ _. codes "reply" };

    ghost refusal = { λ _ wanted. refused_by wanted.token };

    // The status that turns a request away by its token.
    fn refuses(&self, wanted: &OperatorWanted<'_>) -> Option<u16> {
        if wanted.token == b"tok-Eve".as_slice() {
            Some(401)
        } else if wanted.token == b"tok-Nil".as_slice() {
            Some(404)
        } else {
            None
        }
    }

    fn operator(&mut self, wanted: &OperatorWanted<'_>, body: &[u8]) -> u16 {
        self.questions = self.questions.saturating_add(1);
        self.is_right = self.question.is(wanted, body);
        self.question.status
    }

    fn body(&self) -> &[u8] {
        b"reply"
    }
}

// The target, what is asked with the token tok-Ann, the status that the service gives, and what the answer begins with.
static ASKED: &str =
    r"/acme/setup|acme|setup||200|200 OK\r\nContent-Type: application/toml\r\nContent-Length: 5\r\n
/acme/metrics|acme|metrics||200|200 OK\r\nContent-Type: text/plain; version=0.0.4\r\nContent-Length: 5\r\n
/a-1/statements/7|a-1|statement|7|200|200 OK\r\nContent-Type: text/plain\r\nContent-Length: 5\r\n
/acme/statements/|acme|statement||404|404 Not Found\r\nContent-Length: 0\r\n
/acme/explain|acme|explain||400|400 Bad Request\r\nContent-Type: text/plain\r\nContent-Length: 5\r\n
/acme/explain?|acme|explain||400|400 Bad Request\r\nContent-Type: text/plain\r\nContent-Length: 5\r\n
/acme/explain?a/b?c|acme|explain|a/b?c|200|200 OK\r\nContent-Type: text/plain\r\nContent-Length: 5\r\n
//setup||setup||404|404 Not Found\r\nContent-Length: 0\r\n
/acme/setup|acme|setup||401|401 Unauthorized\r\nWWW-Authenticate: Bearer\r\nContent-Length: 0\r\n
/acme/setup|acme|setup||503|503 Service Unavailable\r\nContent-Length: 0\r\n
/acme/setup|acme|setup||405|503 Service Unavailable\r\nContent-Length: 0\r\n
/acme/setup|acme|setup||0|503 Service Unavailable\r\nContent-Length: 0\r\n";

// A line on the body of a command to acme, the body as it comes, the command, the status that the service gives, and what the
// answer begins with.
static COMMANDED: &str =
    r"Content-Length: 4|roll|roll|200|200 OK\r\nContent-Type: text/plain\r\nContent-Length: 5\r\n
Content-Length: 4|rollX|roll|400|400 Bad Request\r\nContent-Type: text/plain\r\nContent-Length: 5\r\n
Content-Length: 0|||401|401 Unauthorized\r\nWWW-Authenticate: Bearer\r\nContent-Length: 0\r\n
Content-Length: 4|roll|roll|404|404 Not Found\r\nContent-Length: 0\r\n
Content-Length: 4|roll|roll|503|503 Service Unavailable\r\nContent-Length: 0\r\n
Transfer-Encoding: chunked|2\r\nro\r\n2\r\nll\r\n0\r\n\r\n|roll|200|200 OK\r\nContent-Type: text/plain\r\n
Expect: 100-continue\r\nContent-Length: 4|roll|roll|200|100 Continue\r\n\r\nHTTP/1.1 200 OK\r\nContent-Type: text/plain\r\n";

// A line on the body of a command, a body that is refused, and what the answer begins with.
static MISFRAMED: &str = r"Transfer-Encoding: chunked|ro\r\n|400 Bad Request\r\n
Transfer-Encoding: chunked|801\r\n|413 Content Too Large\r\n";

// A request line and a line after it, and what the answer begins with.
static REFUSED: &str = r"GET / HTTP/1.1|X: y|405 Method Not Allowed\r\nAllow: POST\r\n
GET /acme HTTP/1.1|Authorization: Bearer tok-Ann|405 Method Not Allowed\r\nAllow: POST\r\n
POST acme HTTP/1.1|Authorization: Bearer tok-Ann|404 Not Found\r\n
POST /acme/ HTTP/1.1|Authorization: Bearer tok-Ann|404 Not Found\r\n
POST /acme HTTP/1.1|Authorization: Bearer tok-Ann|411 Length Required\r\n
POST /acme HTTP/1.1|Content-Length: 2049|413 Content Too Large\r\n
POST /acme HTTP/1.1|Content-Length: 4x|400 Bad Request\r\n
POST /acme HTTP/1.1|Content-Length: 4|401 Unauthorized\r\nWWW-Authenticate: Bearer\r\n
GET /acme/ HTTP/1.1|Authorization: Bearer tok-Ann|404 Not Found\r\n
GET acme/setup HTTP/1.1|Authorization: Bearer tok-Ann|404 Not Found\r\n
GET /acme/setup/ HTTP/1.1|Authorization: Bearer tok-Ann|404 Not Found\r\n
GET /acme/setup?x HTTP/1.1|Authorization: Bearer tok-Ann|404 Not Found\r\n
GET /acme/Setup HTTP/1.1|Authorization: Bearer tok-Ann|404 Not Found\r\n
GET /acme/statements HTTP/1.1|Authorization: Bearer tok-Ann|404 Not Found\r\n
GET /acme/explains HTTP/1.1|Authorization: Bearer tok-Ann|404 Not Found\r\n
POST /acme/stop HTTP/1.1|Authorization: Bearer tok-Ann|404 Not Found\r\n
POST /acme/setup HTTP/1.1|Authorization: Bearer tok-Ann|405 Method Not Allowed\r\nAllow: GET\r\n
HEAD /acme/metrics HTTP/1.1|X: y|405 Method Not Allowed\r\nAllow: GET\r\n
GET /acme/setup HTTP/1.1|X: y|401 Unauthorized\r\nWWW-Authenticate: Bearer\r\n
GET /acme/setup HTTP/1.1|Authorization: Basic tok-Ann|401 Unauthorized\r\nWWW-Authenticate: Bearer\r\n
GET /acme/setup HTTP/1.1|Authorization: Bearer tok-Eve|401 Unauthorized\r\nWWW-Authenticate: Bearer\r\n";

// Lines of the head of a command to acme whose body does not come, and what the answer begins with.
static TURNED_AWAY: &str =
    r"Content-Length: 4\r\nAuthorization: Bearer tok-Eve|401 Unauthorized\r\nWWW-Authenticate: Bearer\r\n
Transfer-Encoding: chunked\r\nAuthorization: Bearer tok-Eve|401 Unauthorized\r\nWWW-Authenticate: Bearer\r\n
Expect: 100-continue\r\nContent-Length: 4\r\nAuthorization: Bearer tok-Nil|404 Not Found\r\n";

fn request_of(name: &str) -> Result<OperatorRequest, Fail> {
    match name {
        "setup" => Ok(OperatorRequest::Ask(Topic::Setup)),
        "metrics" => Ok(OperatorRequest::Ask(Topic::Metrics)),
        "statement" => Ok(OperatorRequest::Ask(Topic::Statement)),
        "explain" => Ok(OperatorRequest::Ask(Topic::Explain)),
        _ => Err(Fail::from("a request")),
    }
}

fn question_of(cells: &'static str) -> Result<(Question, &'static str), Fail> {
    let (tenant, rest) = first_cell(cells)?;
    let (request, rest) = first_cell(rest)?;
    let (words, rest) = first_cell(rest)?;
    let (status, begin) = first_cell(rest)?;
    let question = Question {
        tenant: tenant.as_bytes(),
        request: request_of(request)?,
        words: words.as_bytes(),
        token: b"tok-Ann",
        body: b"",
        status: status.parse::<u16>().ok().ok_or("a status")?,
    };
    Ok((question, begin))
}

// The outcome of a stream that is cut there, at a desk that waits for that question.
fn serve(alloc: Global, stream: &[u8], cut: usize, question: Question) -> Outcome {
    let mut reader = reader_of(stream, cut);
    let mut writer = Taken::whole(alloc);
    let mut desk = OperatorDesk {
        question,
        questions: 0,
        is_right: false,
    };
    let served = serve_operator(&mut reader, &mut writer, &mut desk);
    Outcome {
        served,
        questions: desk.questions,
        is_right: desk.questions == 1 && desk.is_right,
        text: writer.bytes,
    }
}

// The head of a request of a target.
fn head_of(alloc: Global, line: &str, field: &str) -> Result<Vec<u8>, Fail> {
    Ok(
        [line, "\r\n", field, "\r\n\r\n"]
            .concat(alloc)?
            .into_bytes(),
    )
}

// Whether an answer begins so, and closes the connection.
fn begins(alloc: Global, outcome: &Outcome, begin: &str) -> Result<bool, Fail> {
    let mut wanted = Vec::from_slice(alloc, b"HTTP/1.1 ")?;
    wanted.extend_from_slice(bytes_of(alloc, begin)?.as_slice())?;
    Ok(outcome.served == Ok(Served::Closed) && outcome.text.as_slice().starts_with(&wanted))
}

fn is_row_asked(alloc: Global, row: &'static str) -> Result<bool, Fail> {
    let (target, rest) = first_cell(row)?;
    let (question, begin) = question_of(rest)?;
    let line = ["GET ", target, " HTTP/1.1"].concat(alloc)?;
    let head = head_of(alloc, line.as_str(), "Authorization: Bearer tok-Ann")?;
    for cut in 0..=head.len() {
        let outcome = serve(alloc, head.as_slice(), cut, question);
        if !outcome.is_right || !begins(alloc, &outcome, begin)? {
            return Ok(false);
        }
    }
    Ok(true)
}

fn is_row_refused(alloc: Global, row: &'static str) -> Result<bool, Fail> {
    let (line, rest) = first_cell(row)?;
    let (field, begin) = first_cell(rest)?;
    let head = head_of(alloc, line, field)?;
    let (question, _) = question_of("acme|setup||200|")?;
    for cut in 0..=head.len() {
        let outcome = serve(alloc, head.as_slice(), cut, question);
        if outcome.questions != 0 || !begins(alloc, &outcome, begin)? {
            return Ok(false);
        }
    }
    Ok(true)
}

// A command to acme with that line on its body, the body as it comes, and the rest of the row.
fn posted(alloc: Global, row: &'static str) -> Result<(Vec<u8>, &'static str), Fail> {
    let (field, rest) = first_cell(row)?;
    let (wire, rest) = first_cell(rest)?;
    let mut stream = Vec::from_slice(alloc, b"POST /acme HTTP/1.1\r\n")?;
    stream.extend_from_slice(bytes_of(alloc, field)?.as_slice())?;
    stream.extend_from_slice(b"\r\nAuthorization: Bearer tok-Ann\r\n\r\n")?;
    stream.extend_from_slice(bytes_of(alloc, wire)?.as_slice())?;
    Ok((stream, rest))
}

fn is_row_commanded(alloc: Global, row: &'static str) -> Result<bool, Fail> {
    let (stream, rest) = posted(alloc, row)?;
    let (body, rest) = first_cell(rest)?;
    let (status, begin) = first_cell(rest)?;
    let question = Question {
        tenant: b"acme",
        request: OperatorRequest::Command,
        words: b"",
        token: b"tok-Ann",
        body: body.as_bytes(),
        status: status.parse::<u16>().ok().ok_or("a status")?,
    };
    for cut in 0..=stream.len() {
        let outcome = serve(alloc, stream.as_slice(), cut, question);
        if !outcome.is_right || !begins(alloc, &outcome, begin)? {
            return Ok(false);
        }
    }
    Ok(true)
}

fn is_row_turned_away(alloc: Global, row: &'static str) -> Result<bool, Fail> {
    let (fields, begin) = first_cell(row)?;
    let mut stream = Vec::from_slice(alloc, b"POST /acme HTTP/1.1\r\n")?;
    stream.extend_from_slice(bytes_of(alloc, fields)?.as_slice())?;
    stream.extend_from_slice(b"\r\n\r\n")?;
    let (question, _) = question_of("acme|setup||200|")?;
    for cut in 0..=stream.len() {
        let outcome = serve(alloc, stream.as_slice(), cut, question);
        if outcome.questions != 0 || !begins(alloc, &outcome, begin)? {
            return Ok(false);
        }
    }
    Ok(true)
}

fn is_row_misframed(alloc: Global, row: &'static str) -> Result<bool, Fail> {
    let (stream, begin) = posted(alloc, row)?;
    let (question, _) = question_of("acme|setup||200|")?;
    for cut in 0..=stream.len() {
        let outcome = serve(alloc, stream.as_slice(), cut, question);
        if outcome.questions != 0 || !begins(alloc, &outcome, begin)? {
            return Ok(false);
        }
    }
    Ok(true)
}

#[test]
fn commands(rt: HostRuntime) -> Result<(), Fail> {
    for row in COMMANDED.lines() {
        assert!(rt; is_row_commanded(rt.alloc(), row)?, "{row}");
    }
    for row in TURNED_AWAY.lines() {
        assert!(rt; is_row_turned_away(rt.alloc(), row)?, "{row}");
    }
    for row in MISFRAMED.lines() {
        assert!(rt; is_row_misframed(rt.alloc(), row)?, "{row}");
    }
    let (question, _) = question_of("acme|setup||200|")?;
    let (stream, _) = posted(rt.alloc(), "Content-Length: 4|rol|")?;
    let outcome = serve(rt.alloc(), stream.as_slice(), 0, question);
    assert!(rt; outcome.served == Ok(Served::Ended) && outcome.questions == 0);
    assert!(rt; outcome.text.is_empty());
    Ok(())
}

#[test]
fn questions_and_refusals(rt: HostRuntime) -> Result<(), Fail> {
    for row in ASKED.lines() {
        assert!(rt; is_row_asked(rt.alloc(), row)?, "{row}");
    }
    for row in REFUSED.lines() {
        assert!(rt; is_row_refused(rt.alloc(), row)?, "{row}");
    }
    Ok(())
}
