//! One request at a door, after which the connection is closed.

ghost use Rattle.std.specs.Prelude.{◌≡◌, ◌≢◌, ◌↔◌, ◌<◌, ◌≤◌, ◌⊎◌, List, ℕ, length, Some, Err, IfOk};
ghost use Rattle.std.specs.Io.KnownBytes.{Appends};
ghost use Rattle.httparse.specs.Grammar as grammar;
ghost use Rattle.http_link.specs.Counts.{MadeAll};
ghost use Rattle.http_link.specs.Telling.{TellsFailures, TellsWrites};
ghost use Rattle.http_link.specs.Heads.{BeginsWith, Head, head_of};
ghost use Rattle.http_link.specs.Doors.{IsAnswerWritten, IsServedAtDoor, closing_text};
ghost use Rattle.http_link.specs.Serving.{WritesNothingOr400};

use crate::answer::put_head;
use crate::devices::{Sink, Source};
use crate::grammar::Offered;
use crate::head::{MAX_HEAD, MAX_LINES, find_head};
use crate::intake::Reach;
use crate::line_buffer::{LineBuffer, write_message};
use crate::request::RequestHead;
use crate::serve::{Served, head_in, refuse};
use crate::stream::Stream;
use crate::streams::LinkFault;
use httparse::spans::{EMPTY_HEADER_SPAN, RequestSpans};

/// Answers the heads of requests at a door, with what a service says.
pub(crate) trait Answers<S> {
    ghost use Rattle.std.specs.Prelude.{◌≡◌, ◌≤◌, List, ℕ, IfOk};
    ghost use Rattle.std.specs.Io.KnownBytes.{Appends};
    ghost use Rattle.http_link.specs.Doors.{IsAnswerWritten};
    ghost use Rattle.http_link.specs.Heads.{Head};
    ghost use Rattle.http_link.specs.Lines.{head_at};
    ghost use Rattle.http_link.specs.Telling.{TellsWrites};
    ghost use Rattle.http_link.specs.declared.serve.Served.TheVariants.{Closed};

    /// That a service was asked only the question of the head: the service before, and after.
    ghost asks: { Head → S → S → Type 0 };

    /// That the head is answered with that text.
    ghost answers: { Head → S → S → List ℕ → Type 0 };

    /// Asks the service the question of the head, if nothing refuses it, and writes the answer.
    fn answer<W: Sink>(
        w: &mut W,
        service: &mut S,
        head: &RequestHead,
        before: u64,
    ) -> Result<Served, LinkFault>
        requires unfailed { W.failure_count w.old ≤ before }
        ensures answered { IfOk result (λ served. (served ≡ Closed)
            × IsAnswerWritten (answers (head_at head.now) service.old service.new)
            (λ text. Appends (W.contents w.old) (W.contents w.new) text)) }
        ensures asked { asks (head_at head.now) service.old service.new }
        ensures told { TellsWrites W.failure_count W.was_written before w.old w.new result };
}

/// Reads one request, has its head answered, and closes the connection. (RFC 9112, 2 and 9.6)
///
/// A request has at most 8,192 bytes and 64 field lines in its head. Nothing after its head is taken from the reader.
pub(crate) fn serve_door<R: Source, W: Sink, S, D: Answers<S>>(
    r: &mut R,
    w: &mut W,
    service: &mut S,
) -> Result<Served, LinkFault>
    ensures exact { (stream : List ℕ) (head : grammar.RequestHead) (rest : List ℕ)
        → R.remaining r.old ≡ Some stream → BeginsWith stream head rest
        → IfOk result (IsServedAtDoor rest (R.remaining r.new)
        (D.answers (head_of head) service.old service.new)
        (λ text. Appends (W.contents w.old) (W.contents w.new) text)) }
    ensures asked_only { (stream : List ℕ) (head : grammar.RequestHead) (rest : List ℕ)
        → R.remaining r.old ≡ Some stream → BeginsWith stream head rest
        → (service.new ≡ service.old) ⊎ D.asks (head_of head) service.old service.new }
    ensures turned_away { (stream : List ℕ) → R.remaining r.old ≡ Some stream
        → ((head : grammar.RequestHead) (rest : List ℕ) → ¬ (BeginsWith stream head rest))
        → (service.new ≡ service.old)
        × IfOk result (WritesNothingOr400 (λ text. Appends (W.contents w.old) (W.contents w.new) text)) }
    ensures asked_once { (service.new ≡ service.old) ⊎ ((head : Head) × D.asks head service.old service.new) }
    ensures unread { result ≡ Err LinkFault.Read → service.new ≡ service.old }
    ensures failed { TellsFailures (R.failure_count r.old < R.failure_count r.new) (W.failure_count w.old < W.failure_count w.new) result }
    ensures turns { result ≡ Err LinkFault.Turns
        → MadeAll R.was_read r.old r.new ⊎ MadeAll W.was_written w.old w.new }
{
    let before = w.failures();
    let mut text = [0u8; MAX_HEAD];
    let mut lines = [EMPTY_HEADER_SPAN; MAX_LINES];
    let mut stream = Stream::new(r, &mut text, Reach::Needed);
    match find_head::<RequestSpans, _>(&mut stream, &mut lines)? {
        Offered::Partial => Ok(Served::Ended),
        Offered::Malformed => refuse(w, 400, before),
        Offered::Whole(spans) => {
            let head = head_in(stream.front(spans.len), &lines, spans);
            D::answer(w, service, &head, before)
        }
    }
}

/// Writes an answer with a line of its own, after which the connection is closed.
pub(crate) fn write_closing<W: Sink>(
    w: &mut W,
    own: &[u8],
    status: u16,
    body: &[u8],
    before: u64,
) -> Result<Served, LinkFault>
    requires short { length own.now ≤ 50 }
    requires unfailed { W.failure_count w.old ≤ before }
    ensures whole { IfOk result (λ served. (served ≡ Served.Closed)
        × Appends (W.contents w.old) (W.contents w.new) (closing_text own.now status body.now)) }
    ensures told { TellsWrites W.failure_count W.was_written before w.old w.new result }
{
    let mut head = LineBuffer::new();
    put_head(&mut head, own, status, body.len(), true);
    write_message(w, &mut head, body, before)?;
    Ok(Served::Closed)
}
