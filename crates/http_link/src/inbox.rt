//! The requests of a connection, one after another.

ghost use Rattle.std.specs.Prelude.{◌≡◌, ◌≢◌, ◌↔◌, ◌+◌, ◌<◌, ◌≤◌, ◌⊎◌, List, [], ℕ, length, take, drop, Some, Ok, Err, IfOk};
ghost use Rattle.std.specs.Io.KnownBytes.{Appends};
ghost use Rattle.http_link.specs.Counts.{MadeAll};
ghost use Rattle.http_link.specs.Connections.{AreTooFew, AsksNext, IsCutBehind, ServesNext};
ghost use Rattle.http_link.specs.Lines.{head_in};
ghost use Rattle.http_link.specs.Grammars.{IsRequest};
ghost use Rattle.http_link.specs.Requests.{wanted_of};
ghost use Rattle.http_link.specs.Running.{AsksWanted, RunsOnHead};
ghost use Rattle.http_link.specs.Limits.{max_body, max_lines, max_request};
ghost use Rattle.http_link.specs.StreamCalls.{ReportsBoth, held_of, to_come};

use crate::devices::{Sink, Source};
use crate::grammar::Offered;
use crate::head::{MAX_HEAD, MAX_LINES, find_head};
use crate::held::{Held, move_to_front};
use crate::intake::Reach;
use crate::request::MAX_BODY;
use crate::serve::{Served, refuse, serve_head};
use crate::service::Service;
use crate::stream::Stream;
use crate::streams::LinkFault;
use httparse::spans::{EMPTY_HEADER_SPAN, HeaderSpan, RequestSpans};
use std::marker::Model;

/// As many bytes as a request has at most: its head and its body.
const ROOM: usize = MAX_HEAD + MAX_BODY;

/// What has come on a connection and was not served. Contracts see it as these bytes.
#[derive(Drop)]
pub struct Inbox {
    room: [u8; ROOM],
    // Where the parts of a head's lines are, while it is served.
    lines: [HeaderSpan; MAX_LINES],
    held: Held,
}

impl Model for Inbox {
    ghost use Rattle.std.specs.Prelude.{List, ℕ};

    ghost Value = { List ℕ };

    ghost use Rattle.http_link.specs.InboxKept.{InboxInvariant, bytes_waiting};

    ghost view = { bytes_waiting };

    ghost invariant = { InboxInvariant };
}

impl Inbox {
    ghost use Rattle.std.specs.Prelude.{◌≡◌, ◌≢◌, ◌↔◌, ◌⊎◌, ◌<◌, [], Ok, Err, IfOk, IsTrue};
    ghost use Rattle.http_link.specs.Connections.{Awaits};
    ghost use Rattle.http_link.specs.Counts.{MadeAll};

    /// An inbox in which nothing is.
    pub fn new() -> Inbox
        ensures { result ≡ [] }
    {
        Inbox {
            room: [0; ROOM],
            lines: [EMPTY_HEADER_SPAN; MAX_LINES],
            held: Held { from: 0, to: 0 },
        }
    }

    /// Takes out all that is in it.
    pub fn clear(&mut self)
        ensures { self.new ≡ [] }
    {
        self.held = Held { from: 0, to: 0 };
    }

    /// Whether nothing is in it.
    pub fn is_empty(&self) -> bool
        ensures { IsTrue result ↔ (self.now ≡ []) }
    {
        self.room[self.held.from..self.held.to].is_empty()
    }

    /// Waits until some bytes have come, unless some are there already. `false` if the stream has ended.
    ///
    /// Errors: `Read` if the device failed in this call, and `Turns` if 50,000 reads did not suffice.
    pub fn await_more<R: Source>(&mut self, r: &mut R) -> Result<bool, LinkFault>
        ensures awaited { IfOk result (Awaits self.old (R.remaining r.old) (R.remaining r.new) self.new) }
        // If bytes are there already, nothing is read.
        ensures at_once { (r.new ≡ r.old) ⊎ (self.old ≡ []) }
        ensures read { (result ≡ Err LinkFault.Read) ↔ (R.failure_count r.old < R.failure_count r.new) }
        ensures only { result ≢ Err LinkFault.Write }
        ensures turns { result ≡ Err LinkFault.Turns → MadeAll R.was_read r.old r.new }
    {
        if self.held.from < self.held.to {
            return Ok(true);
        }
        let mut stream = Stream::new(r, &mut self.room, Reach::Ahead);
        let n = stream.fetch(0, ROOM)?;
        self.held = Held { from: 0, to: n };
        Ok(n > 0)
    }
}

/// Serves the next request of a connection, of which the inbox may hold some bytes. Reads the request, asks the
/// service if nothing refuses it, and writes the answer. The limits and errors are those of
/// [`serve_one`](crate::serve_one). Bytes that came after the request stay in the inbox.
pub fn serve_next<R: Source, W: Sink, S: Service>(
    r: &mut R,
    w: &mut W,
    service: &mut S,
    inbox: &mut Inbox,
) -> Result<Served, LinkFault>
    // More bytes came, and the request was served that all of them begin with.
    ensures serves { IfOk result (ServesNext (S.tenant_of service.old) inbox.old (R.remaining r.old) (R.remaining r.new) (record {
      Unasked = service.new ≡ service.old;
      Asks = λ question. S.asks service.old question service.new;
      answer = S.answer service.new;
      left = Some inbox.new;
      Writes = λ text. Appends (W.contents w.old) (W.contents w.new) text;
    })) }
    // Whatever the outcome, only that request is asked.
    ensures asks { AsksNext (S.tenant_of service.old) inbox.old (R.remaining r.old) (R.remaining r.new)
        (service.new ≡ service.old) (λ question. S.asks service.old question service.new) }
    ensures unread { result ≡ Err LinkFault.Read → service.new ≡ service.old }

    // If the inbox holds a whole request already, nothing is read.
    ensures at_once { (r.new ≡ r.old) ⊎ AreTooFew (S.tenant_of service.old) inbox.old }

    // A device's fault is reported exactly if the device failed.
    ensures read { (result ≡ Err LinkFault.Read) ↔ (R.failure_count r.old < R.failure_count r.new) }
    ensures write { (result ≡ Err LinkFault.Write) ↔ (W.failure_count w.old < W.failure_count w.new) }
    // The limit is reported only if it was reached.
    ensures turns { result ≡ Err LinkFault.Turns
        → MadeAll R.was_read r.old r.new ⊎ MadeAll W.was_written w.old w.new }
{
    move_to_front(&mut inbox.room, &mut inbox.held);
    let before = w.failures();
    let mut stream = Stream::new(r, &mut inbox.room, Reach::Ahead);
    stream.held = inbox.held;
    let result = serve_held(&mut stream, w, service, &mut inbox.lines, before);
    inbox.held = stream.held;
    result
}

// Serves the next request, of which some bytes are held at the front of the room.
fn serve_held<R: Source, W: Sink, S: Service>(
    stream: &mut Stream<'_, '_, R>,
    w: &mut W,
    service: &mut S,
    lines: &mut [HeaderSpan],
    before: u64,
) -> Result<Served, LinkFault>
    requires wide { max_request ≤ length stream.old.room.now }
    requires lines { length lines.old ≡ max_lines }
    requires front { stream.old.held.from ≡ 0 }
    requires unfailed { W.failure_count w.old ≤ before }
    ensures serves { IfOk result (ServesNext (S.tenant_of service.old) (take stream.old.held.to stream.old.room.now) (to_come stream.old) (to_come stream.new) (record {
      Unasked = service.new ≡ service.old;
      Asks = λ question. S.asks service.old question service.new;
      answer = S.answer service.new;
      left = Some (held_of stream.new);
      Writes = λ text. Appends (W.contents w.old) (W.contents w.new) text;
    })) }
    ensures asks { AsksNext (S.tenant_of service.old) (take stream.old.held.to stream.old.room.now) (to_come stream.old) (to_come stream.new)
        (service.new ≡ service.old) (λ question. S.asks service.old question service.new) }
    ensures at_once { (stream.new.reader.now ≡ stream.old.reader.now)
        ⊎ AreTooFew (S.tenant_of service.old) (take stream.old.held.to stream.old.room.now) }
    ensures unread { result ≡ Err LinkFault.Read → service.new ≡ service.old }
    ensures reports { ReportsBoth W.failure_count W.was_written before w.old w.new stream.old stream.new result }
{
    match find_head::<RequestSpans, _>(stream, lines)? {
        Offered::Partial => Ok(Served::Ended),
        Offered::Malformed => refuse(w, 400, before),
        Offered::Whole(spans) => {
            serve_found(stream, w, service, Parsed { lines, spans }, before)
        }
    }
}

// A head at the front of a buffer: its field lines, and the places of its parts.
#[derive(Clone, Copy)]
struct Parsed<'b> {
    lines: &'b [HeaderSpan],
    spans: RequestSpans,
}

// Serves the request whose head was found at the front of what is held.
fn serve_found<R: Source, W: Sink, S: Service>(
    stream: &mut Stream<'_, '_, R>,
    w: &mut W,
    service: &mut S,
    parsed: Parsed<'_>,
    before: u64,
) -> Result<Served, LinkFault>
    requires wide { parsed.spans.len + max_body ≤ length stream.old.room.now }
    requires front { stream.old.held.from ≡ 0 }
    requires there { parsed.spans.len ≤ stream.old.held.to }
    requires head { IsRequest (take parsed.spans.len stream.old.room.now) parsed.lines.now parsed.spans }
    requires unfailed { W.failure_count w.old ≤ before }
    ensures runs { IfOk result (RunsOnHead (wanted_of (S.tenant_of service.old) (head_in (take parsed.entry.spans.len stream.old.room.now) parsed.entry.lines.now parsed.entry.spans))
        (head_in (take parsed.entry.spans.len stream.old.room.now) parsed.entry.lines.now parsed.entry.spans)
        (drop parsed.entry.spans.len (take stream.old.held.to stream.old.room.now)) (to_come stream.old) (to_come stream.new) (record {
          Unasked = service.new ≡ service.old;
          Asks = λ question. S.asks service.old question service.new;
          answer = S.answer service.new;
          left = Some (held_of stream.new);
          Writes = λ text. Appends (W.contents w.old) (W.contents w.new) text;
        })) }
    ensures asks { AsksWanted (wanted_of (S.tenant_of service.old) (head_in (take parsed.entry.spans.len stream.old.room.now) parsed.entry.lines.now parsed.entry.spans))
        (drop parsed.entry.spans.len (take stream.old.held.to stream.old.room.now)) (to_come stream.old) (to_come stream.new)
        (service.new ≡ service.old) (λ question. S.asks service.old question service.new) }
    ensures at_once { (stream.new.reader.now ≡ stream.old.reader.now)
        ⊎ IsCutBehind (wanted_of (S.tenant_of service.old) (head_in (take parsed.entry.spans.len stream.old.room.now) parsed.entry.lines.now parsed.entry.spans))
        (drop parsed.entry.spans.len (take stream.old.held.to stream.old.room.now)) }
    ensures unread { result ≡ Err LinkFault.Read → service.new ≡ service.old }
    ensures reports { ReportsBoth W.failure_count W.was_written before w.old w.new stream.old stream.new result }
{
    let len = parsed.spans.len;
    let room = &mut *stream.room;
    let (text, rest) = room.split_at_mut(len);
    let mut after_head = Stream {
        reader: stream.reader,
        room: rest,
        done: 0,
        held: Held {
            from: 0,
            to: stream.held.to - len,
        },
        reach: stream.reach,
        turns: stream.turns,
        failures: stream.failures,
    };
    let Parsed { lines, spans } = parsed;
    let result = serve_head(&mut after_head, w, service, text, lines, spans, before);
    let Held { from, to } = after_head.held;
    stream.turns = after_head.turns;
    stream.failures = after_head.failures;
    stream.held = Held {
        from: len + from,
        to: len + to,
    };
    result
}
