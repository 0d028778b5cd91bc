//! One request of an operator.

ghost use Rattle.std.specs.Prelude.{◌≡◌, ◌≢◌, ◌↔◌, ◌<◌, ◌≤◌, ◌⊎◌, [], ◌++◌, List, ℕ, length, codes, Some, Ok, Err, IfOk};
ghost use Rattle.std.specs.Io.KnownBytes.{Appends};
ghost use Rattle.httparse.specs.Grammar as grammar;
ghost use Rattle.common_types.specs.Outcomes.{Gives};
ghost use Rattle.http_link.specs.Bodies.{most_of};
ghost use Rattle.http_link.specs.Answers.{line};
ghost use Rattle.http_link.specs.Counts.{MadeAll};
ghost use Rattle.http_link.specs.Telling.{TellsWrites};
ghost use Rattle.http_link.specs.Heads.{BeginsWith, head_of};
ghost use Rattle.http_link.specs.Limits.{max_command};
ghost use Rattle.http_link.specs.Lines.{head_at};
ghost use Rattle.http_link.specs.OperatorDoor.{AsksOperatorCame, AsksOperatorSought, IsOperatorAskedOnly, IsOperatorServed, RunsOnOperatorHead};
ghost use Rattle.http_link.specs.OperatorDoor.{admitted, operator_asking, operator_interim, operator_media, operator_media_line, operator_method, operator_refusal_text};
ghost use Rattle.http_link.specs.OperatorDoor.{operator_sought_at, operator_sought_of, operator_text, operator_traces_of, operator_wanted_at};
ghost use Rattle.http_link.specs.Serving.{WritesNothingOr400};
ghost use Rattle.http_link.specs.StreamCalls.{ReportsBoth, to_come};

use crate::bodies::{BodyRead, read_body};
use crate::devices::{Sink, Source};
use crate::door::write_closing;
use crate::grammar::Offered;
use crate::head::{MAX_HEAD, MAX_LINES, find_head};
use crate::held::NOTHING;
use crate::intake::Reach;
use crate::operator_request::{
    OperatorRefusal, OperatorRequest, OperatorSought, OperatorWanted, Topic, operator_sought_of,
};
use crate::operator_service::OperatorService;
use crate::request::{RequestHead, waits};
use crate::serve::{Served, continue_text, head_in, refusal_of, refuse};
use crate::stream::Stream;
use crate::streams::{LinkFault, write_all};
use httparse::spans::{EMPTY_HEADER_SPAN, RequestSpans};

/// A request that nothing refuses: its head, and what it asks for.
#[derive(Clone, Copy)]
struct OperatorAsks<'b> {
    head: RequestHead<'b>,
    sought: OperatorSought<'b>,
}

/// Reads one request of an operator, asks the service where nothing refuses it, and writes the answer, after which the
/// connection is closed. (RFC 9112, 2 and 9.6)
///
/// A request has at most 8,192 bytes and 64 field lines in its head, and at most 2,048 bytes in the body of a command. Nothing
/// after the request is taken from the reader: the body of another request than a command is not looked at. Where the stream ends
/// before a whole request, nothing is asked, and the result is `Ended`.
///
/// Otherwise the first check that fails decides: 400 for no head or one over the limits, 404 for another target, and 405 for
/// another method. A command gets 411, 400 or 413 for a body of no length, a malformed or too long one. 401 is for no token. Then
/// the service may turn the request away, before any of its body is read. (RFC 9110, 15.5)
///
/// Errors: `Read` and `Write` where the device failed in this call, and `Turns` where 50,000 reads or writes did not
/// suffice. Before a `Write` or a `Turns` the service may have been asked, before a `Read` not.
pub fn serve_operator<R: Source, W: Sink, S: OperatorService>(
    r: &mut R,
    w: &mut W,
    service: &mut S,
) -> Result<Served, LinkFault>
    // A stream that begins with a head within the limits is served by the request in the head, however it is cut into
    // reads.
    ensures exact { (stream : List ℕ) (head : grammar.RequestHead) (rest : List ℕ)
        → R.remaining r.old ≡ Some stream → BeginsWith stream head rest
        → IfOk result (IsOperatorServed (admitted (S.refusal service.old) (operator_sought_of (head_of head))) (head_of head) rest
        (record {
          Unasked = service.new ≡ service.old;
          Asks = λ question. S.asks service.old question service.new;
          answer = S.answer service.new;
          left = R.remaining r.new;
          Writes = λ text. Appends (W.contents w.old) (W.contents w.new) text;
        })) }
    // Only the request of the head is asked, also on an error.
    ensures asked_only { (stream : List ℕ) (head : grammar.RequestHead) (rest : List ℕ)
        → R.remaining r.old ≡ Some stream → BeginsWith stream head rest
        → IsOperatorAskedOnly (admitted (S.refusal service.old) (operator_sought_of (head_of head))) rest (service.new ≡ service.old)
        (λ question. S.asks service.old question service.new) }
    // A stream that begins with no such head is turned away.
    ensures turned_away { (stream : List ℕ) → R.remaining r.old ≡ Some stream
        → ((head : grammar.RequestHead) (rest : List ℕ) → ¬ (BeginsWith stream head rest))
        → (service.new ≡ service.old)
        × IfOk result (WritesNothingOr400 (λ text. Appends (W.contents w.old) (W.contents w.new) text)) }
    // At most one question is asked: that of the request that came.
    ensures asked_once { (service.new ≡ service.old)
        ⊎ AsksOperatorCame (S.refusal service.old) (R.remaining r.old) (R.remaining r.new) (λ question. S.asks service.old question service.new) }
    ensures unread { result ≡ Err LinkFault.Read → service.new ≡ service.old }

    // A device's fault is reported exactly where the device failed.
    ensures read { (result ≡ Err LinkFault.Read) ↔ (R.failure_count r.old < R.failure_count r.new) }
    ensures write { (result ≡ Err LinkFault.Write) ↔ (W.failure_count w.old < W.failure_count w.new) }
    // The limit is reported only where it was reached.
    ensures turns { result ≡ Err LinkFault.Turns
        → MadeAll R.was_read r.old r.new ⊎ MadeAll W.was_written w.old w.new }
{
    let before = w.failures();
    let mut text = [0u8; MAX_HEAD];
    let mut room = [0u8; MAX_HEAD];
    let mut lines = [EMPTY_HEADER_SPAN; MAX_LINES];
    let mut stream = Stream::new(r, &mut room, Reach::Needed);
    match find_head::<RequestSpans, _>(&mut stream, &mut lines)? {
        Offered::Partial => Ok(Served::Ended),
        Offered::Malformed => refuse(w, 400, before),
        Offered::Whole(spans) => {
            stream.copy_front(spans.len, &mut text);
            stream.held = NOTHING;
            let head = head_in(&text[..spans.len], &lines, spans);
            serve_after_head(&mut stream, w, service, &head, before)
        }
    }
}

// What a head asks for where the service does not turn it away.
fn sought_there<'b, S: OperatorService>(
    service: &S,
    head: &RequestHead<'b>,
) -> Result<OperatorSought<'b>, OperatorRefusal>
    ensures value { Gives operator_sought_at result (admitted (S.refusal service.now) (operator_sought_of (head_at head.now))) }
    ensures bound { IfOk result (λ sought. most_of sought.framing ≤ max_command) }
{
    let sought = operator_sought_of(head)?;
    match service.refuses(&sought.wanted) {
        Some(status) => Err(OperatorRefusal::Status(status)),
        None => Ok(sought),
    }
}

// Serves a request after its head, of whose body nothing has come.
fn serve_after_head<R: Source, W: Sink, S: OperatorService>(
    stream: &mut Stream<'_, '_, R>,
    w: &mut W,
    service: &mut S,
    head: &RequestHead,
    before: u64,
) -> Result<Served, LinkFault>
    requires room { max_command ≤ length stream.old.room.now }
    requires none { (stream.old.held.from ≡ 0) × (stream.old.held.to ≡ 0) }
    requires needed { stream.old.reach ≡ Reach.Needed }
    requires unfailed { W.failure_count w.old ≤ before }
    ensures runs { IfOk result (RunsOnOperatorHead (admitted (S.refusal service.old) (operator_sought_of (head_at head.now))) (head_at head.now)
        (to_come stream.old) (to_come stream.new) (operator_traces_of (service.new ≡ service.old)
        (λ question. S.asks service.old question service.new) (S.answer service.new) (Some [])
        (λ text. Appends (W.contents w.old) (W.contents w.new) text))) }
    ensures asks { AsksOperatorSought (admitted (S.refusal service.old) (operator_sought_of (head_at head.now))) (to_come stream.old) (to_come stream.new)
        (service.new ≡ service.old) (λ question. S.asks service.old question service.new) }
    ensures unread { result ≡ Err LinkFault.Read → service.new ≡ service.old }
    ensures reports { ReportsBoth W.failure_count W.was_written before w.old w.new stream.old stream.new result }
{
    match sought_there(service, head) {
        Ok(sought) => {
            let request = OperatorAsks {
                head: *head,
                sought,
            };
            serve_sought(stream, w, service, request, before)
        }
        Err(refusal) => refuse_operator(w, refusal, before),
    }
}

// Serves a request that nothing refuses.
fn serve_sought<R: Source, W: Sink, S: OperatorService>(
    stream: &mut Stream<'_, '_, R>,
    w: &mut W,
    service: &mut S,
    request: OperatorAsks<'_>,
    before: u64,
) -> Result<Served, LinkFault>
    requires size { most_of request.sought.framing ≤ length stream.old.room.now }
    requires none { (stream.old.held.from ≡ 0) × (stream.old.held.to ≡ 0) }
    requires needed { stream.old.reach ≡ Reach.Needed }
    requires unfailed { W.failure_count w.old ≤ before }
    ensures runs { IfOk result (RunsOnOperatorHead (Ok (operator_sought_at request.entry.sought)) (head_at request.entry.head)
        (to_come stream.old) (to_come stream.new) (operator_traces_of (service.new ≡ service.old)
        (λ question. S.asks service.old question service.new) (S.answer service.new) (Some [])
        (λ text. Appends (W.contents w.old) (W.contents w.new) text))) }
    ensures asks { AsksOperatorSought (Ok (operator_sought_at request.entry.sought)) (to_come stream.old) (to_come stream.new)
        (service.new ≡ service.old) (λ question. S.asks service.old question service.new) }
    ensures unread { result ≡ Err LinkFault.Read → service.new ≡ service.old }
    ensures reports { ReportsBoth W.failure_count W.was_written before w.old w.new stream.old stream.new result }
{
    let OperatorAsks { head, sought } = request;
    write_all(w, interim(sought.wanted.request, &head), before)?;
    match read_body(stream, sought.framing)? {
        BodyRead::Whole(size) => {
            ask_operator(w, service, &sought.wanted, stream.front(size), before)
        }
        BodyRead::Cut => Ok(Served::Ended),
        BodyRead::Bad(fault) => refuse(w, refusal_of(fault), before),
    }
}

fn interim(request: OperatorRequest, head: &RequestHead) -> &'static [u8]
    ensures { result.now ≡ operator_interim request (head_at head.now) }
{
    match request {
        OperatorRequest::Command => continue_text(waits(head)),
        OperatorRequest::Ask(_) => b"",
    }
}

// Asks the service for what nothing refuses, with its body, and writes the answer.
fn ask_operator<W: Sink, S: OperatorService>(
    w: &mut W,
    service: &mut S,
    wanted: &OperatorWanted,
    body: &[u8],
    before: u64,
) -> Result<Served, LinkFault>
    requires unfailed { W.failure_count w.old ≤ before }
    ensures answered { IfOk result (λ served. (served ≡ Served.Closed)
        × ((status : ℕ) × S.asks service.old (operator_asking (operator_wanted_at wanted.now) body.now status) service.new
        × Appends (W.contents w.old) (W.contents w.new) (operator_text wanted.now.request status (S.answer service.new)))) }
    ensures asked { (status : ℕ) × S.asks service.old (operator_asking (operator_wanted_at wanted.now) body.now status) service.new }
    ensures told { TellsWrites W.failure_count W.was_written before w.old w.new result }
{
    let status = service.operator(wanted, body);
    write_told(w, wanted.request, status, service.body(), before)
}

// Writes the answer with a service's status.
fn write_told<W: Sink>(
    w: &mut W,
    request: OperatorRequest,
    status: u16,
    body: &[u8],
    before: u64,
) -> Result<Served, LinkFault>
    requires unfailed { W.failure_count w.old ≤ before }
    ensures whole { IfOk result (λ served. (served ≡ Served.Closed)
        × Appends (W.contents w.old) (W.contents w.new) (operator_text request status body.now)) }
    ensures told { TellsWrites W.failure_count W.was_written before w.old w.new result }
{
    match status {
        200 => write_closing(w, media_line(request), 200, body, before),
        400 => write_closing(w, b"Content-Type: text/plain\r\n", 400, body, before),
        401 | 404 => refuse(w, status, before),
        _ => refuse(w, 503, before),
    }
}

// Writes the answer that refuses a head.
fn refuse_operator<W: Sink>(
    w: &mut W,
    refusal: OperatorRefusal,
    before: u64,
) -> Result<Served, LinkFault>
    requires unfailed { W.failure_count w.old ≤ before }
    ensures refused { IfOk result (λ served. (served ≡ Served.Closed)
        × Appends (W.contents w.old) (W.contents w.new) (operator_refusal_text refusal)) }
    ensures told { TellsWrites W.failure_count W.was_written before w.old w.new result }
{
    match refusal {
        OperatorRefusal::Method(request) => {
            write_closing(w, allow_line(request), 405, b"", before)
        }
        OperatorRefusal::Status(status) => refuse(w, status, before),
    }
}

fn media_line(request: OperatorRequest) -> &'static [u8]
    ensures line { result.now ≡ operator_media_line (operator_media request) }
    ensures short { length result.now ≤ 50 }
{
    match request {
        OperatorRequest::Ask(Topic::Setup) => b"Content-Type: application/toml\r\n",
        OperatorRequest::Ask(Topic::Metrics) => b"Content-Type: text/plain; version=0.0.4\r\n",
        OperatorRequest::Command | OperatorRequest::Ask(Topic::Statement | Topic::Explain) => {
            b"Content-Type: text/plain\r\n"
        }
    }
}

fn allow_line(request: OperatorRequest) -> &'static [u8]
    ensures line { result.now ≡ line (codes "Allow: " ++ operator_method request) }
    ensures short { length result.now ≤ 50 }
{
    match request {
        OperatorRequest::Command => b"Allow: POST\r\n",
        OperatorRequest::Ask(_) => b"Allow: GET\r\n",
    }
}
