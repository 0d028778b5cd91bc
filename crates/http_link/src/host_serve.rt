//! One request of the host.

ghost use Rattle.std.specs.Prelude.{◌≡◌, ◌≢◌, ◌↔◌, ◌<◌, ◌≤◌, ◌⊎◌, List, ℕ, length, Some, Err, IfOk};
ghost use Rattle.std.specs.Io.KnownBytes.{Appends};
ghost use Rattle.httparse.specs.Grammar as grammar;
ghost use Rattle.http_link.specs.Counts.{MadeAll};
ghost use Rattle.http_link.specs.Telling.{TellsWrites};
ghost use Rattle.http_link.specs.Heads.{BeginsWith, head_of};
ghost use Rattle.http_link.specs.HostDoor.{AnswersHost, IsHostAskedOnly, IsHostServed};
ghost use Rattle.http_link.specs.HostDoor.{allow_line, host_asking, host_refusal_text, host_answer};
ghost use Rattle.http_link.specs.HostDoor.{host_wanted_at, host_wanted_of, media_line};
ghost use Rattle.http_link.specs.Serving.{AsksAtMostOnce, WritesNothingOr400};

use crate::devices::{Sink, Source};
use crate::door::{Answers, serve_door, write_closing};
use crate::host_request::{HostRefusal, HostRequest, HostWanted, host_wanted_of};
use crate::host_service::HostService;
use crate::request::RequestHead;
use crate::serve::{Served, refuse};
use crate::streams::LinkFault;

/// Reads one request of the host, asks the service if nothing refuses it, and writes the answer. The connection is closed after
/// it. (RFC 9112, 2 and 9.6)
///
/// A request has at most 8,192 bytes and 64 field lines in its head. Nothing after its head is taken from the reader, and a
/// body is not read. If the stream ends before a whole head, nothing is written, and the result is `Ended`. Otherwise the first
/// check that fails decides: 400 if the head is malformed or over the limits, 404 for another target, 405 for another method,
/// and 401 if a token is needed and none is shown. (RFC 9110, 15.5)
///
/// Errors: `Read` and `Write` if the device failed in this call, and `Turns` if 50,000 reads or writes did not suffice. Before a
/// `Write` or a `Turns` the service may have been asked, before a `Read` not.
pub fn serve_host<R: Source, W: Sink, S: HostService>(
    r: &mut R,
    w: &mut W,
    service: &mut S,
) -> Result<Served, LinkFault>
    // A stream that begins with a head within the limits is served as the head asks, however it is cut.
    ensures exact { (stream : List ℕ) (head : grammar.RequestHead) (rest : List ℕ)
        → R.remaining r.old ≡ Some stream → BeginsWith stream head rest
        → IfOk result (IsHostServed (host_wanted_of (head_of head)) rest (R.remaining r.new) (record {
          Unasked = service.new ≡ service.old;
          Asks = λ question. S.asks service.old question service.new;
          answer = S.answer service.new;
          Writes = λ text. Appends (W.contents w.old) (W.contents w.new) text;
        })) }
    // Only the question of the head is asked, also on an error.
    ensures asked_only { (stream : List ℕ) (head : grammar.RequestHead) (rest : List ℕ)
        → R.remaining r.old ≡ Some stream → BeginsWith stream head rest
        → IsHostAskedOnly (host_wanted_of (head_of head)) (service.new ≡ service.old)
        (λ question. S.asks service.old question service.new) }
    // A stream that begins with no such head is turned away.
    ensures turned_away { (stream : List ℕ) → R.remaining r.old ≡ Some stream
        → ((head : grammar.RequestHead) (rest : List ℕ) → ¬ (BeginsWith stream head rest))
        → (service.new ≡ service.old)
        × IfOk result (WritesNothingOr400 (λ text. Appends (W.contents w.old) (W.contents w.new) text)) }
    ensures asked_once { AsksAtMostOnce (service.new ≡ service.old)
        (λ question. S.asks service.old question service.new) }
    ensures unread { result ≡ Err LinkFault.Read → service.new ≡ service.old }

    // The error is a device's exactly if the device failed.
    ensures read { (result ≡ Err LinkFault.Read) ↔ (R.failure_count r.old < R.failure_count r.new) }
    ensures write { (result ≡ Err LinkFault.Write) ↔ (W.failure_count w.old < W.failure_count w.new) }
    // The limit is reported only if it was reached.
    ensures turns { result ≡ Err LinkFault.Turns
        → MadeAll R.was_read r.old r.new ⊎ MadeAll W.was_written w.old w.new }
{
    serve_door::<_, _, S, HostAnswers>(r, w, service)
}

/// Answers what the host asks.
struct HostAnswers;

impl<S: HostService> Answers<S> for HostAnswers {
    ghost asks = { λ head before after. IsHostAskedOnly (host_wanted_of head) (after ≡ before)
        (λ question. S.asks before question after) };

    ghost answers = { λ head before after text. AnswersHost (host_wanted_of head) (record {
      Unasked = after ≡ before;
      Asks = λ question. S.asks before question after;
      answer = S.answer after;
      Writes = λ written. written ≡ text;
    }) };

    fn answer<W: Sink>(
        w: &mut W,
        service: &mut S,
        head: &RequestHead,
        before: u64,
    ) -> Result<Served, LinkFault> {
        match host_wanted_of(head) {
            Ok(wanted) => ask_host(w, service, &wanted, before),
            Err(refusal) => refuse_host(w, refusal, before),
        }
    }
}

// Asks the service for what nothing refuses, and writes the answer.
fn ask_host<W: Sink, S: HostService>(
    w: &mut W,
    service: &mut S,
    wanted: &HostWanted,
    before: u64,
) -> Result<Served, LinkFault>
    requires unfailed { W.failure_count w.old ≤ before }
    ensures answered { IfOk result (λ served. (served ≡ Served.Closed)
        × ((status : ℕ) × S.asks service.old (host_asking (host_wanted_at wanted.now) status) service.new
        × Appends (W.contents w.old) (W.contents w.new) (host_answer wanted.now.request status (S.answer service.new)))) }
    ensures asked { (status : ℕ) × S.asks service.old (host_asking (host_wanted_at wanted.now) status) service.new }
    ensures told { TellsWrites W.failure_count W.was_written before w.old w.new result }
{
    let status = service.host(wanted.request, wanted.token);
    write_told(w, wanted.request, status, service.body(), before)
}

// Writes the answer with a service's status.
fn write_told<W: Sink>(
    w: &mut W,
    request: HostRequest,
    status: u16,
    body: &[u8],
    before: u64,
) -> Result<Served, LinkFault>
    requires unfailed { W.failure_count w.old ≤ before }
    ensures whole { IfOk result (λ served. (served ≡ Served.Closed)
        × Appends (W.contents w.old) (W.contents w.new) (host_answer request status body.now)) }
    ensures told { TellsWrites W.failure_count W.was_written before w.old w.new result }
{
    match status {
        200 => write_closing(w, media_line(request), 200, body, before),
        401 => refuse(w, 401, before),
        _ => refuse(w, 503, before),
    }
}

// Writes the answer that refuses a request.
fn refuse_host<W: Sink>(w: &mut W, refusal: HostRefusal, before: u64) -> Result<Served, LinkFault>
    requires unfailed { W.failure_count w.old ≤ before }
    ensures refused { IfOk result (λ served. (served ≡ Served.Closed)
        × Appends (W.contents w.old) (W.contents w.new) (host_refusal_text refusal)) }
    ensures told { TellsWrites W.failure_count W.was_written before w.old w.new result }
{
    match refusal {
        HostRefusal::Target => refuse(w, 404, before),
        HostRefusal::Method(request) => write_closing(w, allow_line(request), 405, b"", before),
        HostRefusal::Token => refuse(w, 401, before),
    }
}

fn media_line(request: HostRequest) -> &'static [u8]
    ensures line { result.now ≡ media_line request }
    ensures short { length result.now ≤ 50 }
{
    match request {
        HostRequest::Health => b"Content-Type: text/plain\r\n",
        HostRequest::Metrics => b"Content-Type: text/plain; version=0.0.4\r\n",
        HostRequest::Setup | HostRequest::Stop => b"Content-Type: application/toml\r\n",
    }
}

fn allow_line(request: HostRequest) -> &'static [u8]
    ensures line { result.now ≡ allow_line request }
    ensures short { length result.now ≤ 50 }
{
    match request {
        HostRequest::Health | HostRequest::Metrics | HostRequest::Setup => b"Allow: GET\r\n",
        HostRequest::Stop => b"Allow: POST\r\n",
    }
}
