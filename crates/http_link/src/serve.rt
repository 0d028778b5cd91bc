//! One request of a connection.

ghost use Rattle.std.specs.Prelude.{◌≡◌, ◌≢◌, ◌↔◌, ◌<◌, ◌≤◌, ◌⊎◌, List, ℕ, length, Some, Ok, Err, IfOk, OnOk};
ghost use Rattle.std.specs.Io.KnownBytes.{Appends};
ghost use Rattle.httparse.specs.Grammar as grammar;
ghost use Rattle.httparse.specs.Spans.{IsRequestWithin};
ghost use Rattle.http_link.specs.Connections.{IsCutBehind};
ghost use Rattle.http_link.specs.Counts.{MadeAll};
ghost use Rattle.http_link.specs.Telling.{TellsWrites};
ghost use Rattle.http_link.specs.Bodies.{IsBody, cut, most_of, body_status};
ghost use Rattle.http_link.specs.Heads.{BeginsWith, head_of};
ghost use Rattle.http_link.specs.Lines.{head_at, head_in, wanted_at};
ghost use Rattle.http_link.specs.Requests.{closes, waits, wanted_of};
ghost use Rattle.http_link.specs.Answers.{refusal_text, continue_text, answer_text, told_body};
ghost use Rattle.http_link.specs.Serving.{IsServed, IsAskedOnly, AsksAtMostOnce, WritesNothingOr400};
ghost use Rattle.http_link.specs.Serving.{asking, kept_unless, traces_of};
ghost use Rattle.http_link.specs.Running.{RunsOnHead, AsksWanted};
ghost use Rattle.http_link.specs.StreamCalls.{ReadsNoFurther, ReportsBoth, held_of, to_come};
ghost use Rattle.http_link.specs.Limits.{max_body};

use crate::answer::{put_answer_head, status_told};
use crate::bodies::{BodyFault, BodyRead, read_body};
use crate::devices::{Sink, Source};
use crate::fields::Lines;
use crate::grammar::Offered;
use crate::head::{MAX_HEAD, MAX_LINES, find_head};
use crate::held::NOTHING;
use crate::intake::Reach;
use crate::line_buffer::{LineBuffer, write_message};
use crate::request::{RequestHead, RequestKind, Wanted, wanted_of};
use crate::service::Service;
use crate::stream::Stream;
use crate::streams::{LinkFault, write_all};
use httparse::spans::{EMPTY_HEADER_SPAN, HeaderSpan, RequestSpans};

/// What became of a connection.
#[derive(Clone, Copy, Debug, PartialEq, Eq)]
pub enum Served {
    /// It stays open: an answer was written, and another request may follow.
    Kept,
    /// It must be closed: an answer was written.
    Closed,
    /// The stream ended before a whole request, and no answer was written.
    Ended,
}

/// A request that nothing refuses: what it asks for, and its head, of which contracts speak.
#[derive(Clone, Copy)]
struct Request<'b> {
    head: RequestHead<'b>,
    wanted: Wanted<'b>,
}

/// Reads one request, asks the service if nothing refuses it, and writes the answer. (RFC 9112, 2 and 9.3)
///
/// It takes no more bytes than that request has. To serve a connection on, as the service does, call
/// [`serve_next`](crate::serve_next): it reads as much at once as there is room for.
///
/// `room` is for heads and bodies, and has 34,000 bytes or more. A request has at most 8,192 bytes and 64 field lines in its
/// head. No byte after its body is taken from the reader.
///
/// Errors, each of which ends the connection:
///
/// - `Read` and `Write` if the device failed in this call. Before a `Read` the service was not asked, before a `Write`
///   it may have been.
/// - `Turns` if 50,000 reads or writes did not suffice. The service may have been asked before.
pub fn serve_one<R: Source, W: Sink, S: Service>(
    r: &mut R,
    w: &mut W,
    service: &mut S,
    room: &mut [u8],
) -> Result<Served, LinkFault>
    requires { max_body ≤ length room.old }

    // A stream that begins with a head within the limits is served by the request in the head, however it is cut into
    // reads.
    ensures exact { (stream : List ℕ) (head : grammar.RequestHead) (rest : List ℕ)
        → R.remaining r.old ≡ Some stream → BeginsWith stream head rest
        → IfOk result (IsServed (wanted_of (S.tenant_of service.old) (head_of head)) (head_of head) rest
        (record {
          Unasked = service.new ≡ service.old;
          Asks = λ question. S.asks service.old question service.new;
          answer = S.answer service.new;
          left = R.remaining r.new;
          Writes = λ text. Appends (W.contents w.old) (W.contents w.new) text;
        })) }
    // Whatever the outcome, only the request of the head is asked.
    ensures asked_only { (stream : List ℕ) (head : grammar.RequestHead) (rest : List ℕ)
        → R.remaining r.old ≡ Some stream → BeginsWith stream head rest
        → IsAskedOnly (wanted_of (S.tenant_of service.old) (head_of head)) rest (service.new ≡ service.old)
        (λ question. S.asks service.old question service.new) }
    // A stream that begins with no such head is turned away.
    ensures turned_away { (stream : List ℕ) → R.remaining r.old ≡ Some stream
        → ((head : grammar.RequestHead) (rest : List ℕ) → ¬ (BeginsWith stream head rest))
        → (service.new ≡ service.old)
        × IfOk result (WritesNothingOr400 (λ text. Appends (W.contents w.old) (W.contents w.new) text)) }
    ensures asked_once { AsksAtMostOnce (service.new ≡ service.old)
        (λ question. S.asks service.old question service.new) }
    ensures unread { result ≡ Err LinkFault.Read → service.new ≡ service.old }

    // A device's fault is reported exactly if the device failed.
    ensures read { (result ≡ Err LinkFault.Read) ↔ (R.failure_count r.old < R.failure_count r.new) }
    ensures write { (result ≡ Err LinkFault.Write) ↔ (W.failure_count w.old < W.failure_count w.new) }
    // The limit is reported only if it was reached.
    ensures turns { result ≡ Err LinkFault.Turns
        → MadeAll R.was_read r.old r.new ⊎ MadeAll W.was_written w.old w.new }
{
    let before = w.failures();
    let mut text = [0u8; MAX_HEAD];
    let mut lines = [EMPTY_HEADER_SPAN; MAX_LINES];
    let mut stream = Stream::new(r, room, Reach::Needed);
    match find_head::<RequestSpans, _>(&mut stream, &mut lines)? {
        Offered::Partial => Ok(Served::Ended),
        Offered::Malformed => refuse(w, 400, before),
        Offered::Whole(spans) => {
            stream.copy_front(spans.len, &mut text);
            stream.held = NOTHING;
            let head = &text[..spans.len];
            serve_head(&mut stream, w, service, head, &lines, spans, before)
        }
    }
}

/// The parts of a head, by their spans in its text.
pub(crate) fn head_in<'b>(
    text: &'b [u8],
    lines: &'b [HeaderSpan],
    spans: RequestSpans,
) -> RequestHead<'b>
    requires within { IsRequestWithin text.now lines.now spans }
    ensures { head_at result ≡ head_in text.now lines.now spans }
{
    RequestHead {
        method: spans.method.of(text),
        target: spans.path.of(text),
        minor: spans.version,
        lines: Lines {
            text,
            spans: &lines[..spans.headers],
        },
    }
}

/// Writes the answer that refuses a request.
pub(crate) fn refuse<W: Sink>(w: &mut W, status: u16, before: u64) -> Result<Served, LinkFault>
    requires unfailed { W.failure_count w.old ≤ before }
    ensures refused { IfOk result (λ served. (served ≡ Served.Closed)
        × Appends (W.contents w.old) (W.contents w.new) (refusal_text status)) }
    ensures told { TellsWrites W.failure_count W.was_written before w.old w.new result }
{
    let mut answer = LineBuffer::new();
    put_answer_head(&mut answer, RequestKind::Ilp, status, 0, true);
    write_all(w, answer.as_slice(), before)?;
    Ok(Served::Closed)
}

/// Serves a request after its head, of which that is the text. The bytes that came with the head are held in the room. At
/// the end those are held that follow the request.
pub(crate) fn serve_head<R: Source, W: Sink, S: Service>(
    stream: &mut Stream<'_, '_, R>,
    w: &mut W,
    service: &mut S,
    text: &[u8],
    lines: &[HeaderSpan],
    spans: RequestSpans,
    before: u64,
) -> Result<Served, LinkFault>
    requires room { max_body ≤ length stream.old.room.now }
    requires none { stream.old.done ≡ 0 }
    requires within { IsRequestWithin text.now lines.now spans }
    requires unfailed { W.failure_count w.old ≤ before }
    ensures runs { IfOk result (RunsOnHead (wanted_of (S.tenant_of service.old) (head_in text.now lines.now spans)) (head_in text.now lines.now spans)
        (held_of stream.old) (to_come stream.old) (to_come stream.new) (traces_of (service.new ≡ service.old)
        (λ question. S.asks service.old question service.new) (S.answer service.new) (Some (held_of stream.new))
        (λ text. Appends (W.contents w.old) (W.contents w.new) text))) }
    ensures asks { AsksWanted (wanted_of (S.tenant_of service.old) (head_in text.now lines.now spans)) (held_of stream.old)
        (to_come stream.old) (to_come stream.new) (service.new ≡ service.old) (λ question. S.asks service.old question service.new) }
    ensures unread { result ≡ Err LinkFault.Read → service.new ≡ service.old }
    ensures at_once { (stream.new.reader.now ≡ stream.old.reader.now)
        ⊎ IsCutBehind (wanted_of (S.tenant_of service.old) (head_in text.now lines.now spans)) (held_of stream.old) }
    ensures exact { ReadsNoFurther stream.old stream.new }
    ensures reports { ReportsBoth W.failure_count W.was_written before w.old w.new stream.old stream.new result }
{
    let head = head_in(text, lines, spans);
    match wanted_of(service, &head) {
        Ok(wanted) => {
            let request = Request { head, wanted };
            serve_wanted(stream, w, service, request, before)
        }
        Err(status) => refuse(w, status, before),
    }
}

// Serves a request that nothing refuses.
fn serve_wanted<R: Source, W: Sink, S: Service>(
    stream: &mut Stream<'_, '_, R>,
    w: &mut W,
    service: &mut S,
    request: Request<'_>,
    before: u64,
) -> Result<Served, LinkFault>
    requires size { most_of request.wanted.framing ≤ length stream.old.room.now }
    requires none { stream.old.done ≡ 0 }
    requires waits { request.wanted.waits ≡ waits (head_at request.head) }
    requires closes { request.wanted.closes ≡ closes (head_at request.head) }
    requires unfailed { W.failure_count w.old ≤ before }
    ensures runs { IfOk result (RunsOnHead (Ok (wanted_at request.entry.wanted)) (head_at request.entry.head)
        (held_of stream.old) (to_come stream.old) (to_come stream.new) (traces_of (service.new ≡ service.old)
        (λ question. S.asks service.old question service.new) (S.answer service.new) (Some (held_of stream.new))
        (λ text. Appends (W.contents w.old) (W.contents w.new) text))) }
    ensures asks { AsksWanted (Ok (wanted_at request.entry.wanted)) (held_of stream.old) (to_come stream.old) (to_come stream.new)
        (service.new ≡ service.old) (λ question. S.asks service.old question service.new) }
    ensures unread { result ≡ Err LinkFault.Read → service.new ≡ service.old }
    ensures at_once { (stream.new.reader.now ≡ stream.old.reader.now)
        ⊎ IsBody request.entry.wanted.framing (held_of stream.old) cut }
    ensures exact { ReadsNoFurther stream.old stream.new }
    ensures reports { ReportsBoth W.failure_count W.was_written before w.old w.new stream.old stream.new result }
{
    let wanted = request.wanted;
    write_all(w, continue_text(wanted.waits), before)?;
    match read_body(stream, wanted.framing)? {
        BodyRead::Whole(size) => answer(w, service, &wanted, stream.front(size), before),
        BodyRead::Cut => Ok(Served::Ended),
        BodyRead::Bad(fault) => refuse(w, refusal_of(fault), before),
    }
}

// Asks the service the request with its body, and writes the answer.
fn answer<W: Sink, S: Service>(
    w: &mut W,
    service: &mut S,
    wanted: &Wanted,
    body: &[u8],
    before: u64,
) -> Result<Served, LinkFault>
    requires unfailed { W.failure_count w.old ≤ before }
    ensures answered { IfOk result (λ served. (served ≡ kept_unless wanted.now.closes)
        × ((status : ℕ) × S.asks service.old (asking (wanted_at wanted.now) body.now status) service.new
        × Appends (W.contents w.old) (W.contents w.new)
        (answer_text wanted.now.kind status (S.answer service.new) wanted.now.closes))) }
    ensures asked { (status : ℕ) × S.asks service.old (asking (wanted_at wanted.now) body.now status) service.new }
    ensures told { TellsWrites W.failure_count W.was_written before w.old w.new result }
{
    let status = ask(service, wanted, body);
    write_answer(w, wanted, status, service.body(), before)?;
    Ok(kept_unless(wanted.closes))
}

/// The status that refuses a body.
pub(crate) fn refusal_of(fault: BodyFault) -> u16
    ensures { result ≡ body_status fault }
{
    match fault {
        BodyFault::Malformed => 400,
        BodyFault::TooLarge => 413,
    }
}

/// The interim answer to a client, if it waits for one before it sends a body.
pub(crate) fn continue_text(waits: bool) -> &'static [u8]
    ensures { result.now ≡ continue_text waits }
{
    if waits {
        b"HTTP/1.1 100 Continue\r\n\r\n"
    } else {
        b""
    }
}

fn kept_unless(closed: bool) -> Served
    ensures { result ≡ kept_unless closed }
{
    if closed { Served::Closed } else { Served::Kept }
}

// Asks the service the request of a head.
fn ask<S: Service>(service: &mut S, wanted: &Wanted, body: &[u8]) -> u16
    ensures { S.asks service.old (asking (wanted_at wanted.now) body.now result) service.new }
{
    match wanted.kind {
        RequestKind::Ilp => service.ilp(wanted.tenant, wanted.token, body),
        RequestKind::Admin => service.admin(wanted.tenant, wanted.token, body),
    }
}

// Writes the answer with a service's status.
fn write_answer<W: Sink>(
    w: &mut W,
    wanted: &Wanted,
    status: u16,
    body: &[u8],
    before: u64,
) -> Result<(), LinkFault>
    requires unfailed { W.failure_count w.old ≤ before }
    ensures whole { OnOk result (Appends (W.contents w.old) (W.contents w.new)
        (answer_text wanted.now.kind status body.now wanted.now.closes)) }
    ensures told { TellsWrites W.failure_count W.was_written before w.old w.new result }
{
    let shown = told_body(status, body);
    let (kind, told) = (wanted.kind, status_told(status));
    let mut head = LineBuffer::new();
    put_answer_head(&mut head, kind, told, shown.len(), wanted.closes);
    write_message(w, &mut head, shown, before)
}

// The body of an answer; only 200 has one.
fn told_body(status: u16, body: &[u8]) -> &[u8]
    ensures { result.now ≡ told_body status body.now }
{
    if status == 200 { body } else { &[] }
}
