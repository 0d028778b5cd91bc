//! A frame that is sent to a peer, and the peer's answer.

ghost use Rattle.std.specs.Prelude.{◌≡◌, ◌≢◌, ◌↔◌, ◌<◌, ◌≤◌, ◌⊎◌, List, ℕ, length, map, take, true, Some, Err, IfOk};
ghost use Rattle.httparse.specs.Spans.{IsResponseWithin, header_bytes};
ghost use Rattle.common_types.specs.Numbers.{is_between};
ghost use Rattle.std.specs.Io.KnownBytes.{Appends};
ghost use Rattle.http_link.specs.Counts.{MadeAll};
ghost use Rattle.http_link.specs.Lines.{lines_at, occurrence_at};
ghost use Rattle.http_link.specs.Client.{FitsAnswer, GivesAs, Means, framing_by, framing_in, given, post_fault_of, post_head, post_text, sized_by};
ghost use Rattle.common_types.specs.Numerals.{value_of};
ghost use Rattle.http_link.specs.Limits.{max_peer_answer, max_heads};
ghost use Rattle.http_link.specs.StreamCalls.{ReportsAs, held_of, to_come};

use crate::bodies::{BodyFault, BodyRead, Framing, read_body};
use crate::devices::{Sink, Source};
use crate::fields::{FieldValue, Lines, is_chunked, is_length, value_up_to};
use crate::grammar::Offered;
use crate::head::{MAX_LINES, find_head};
use crate::held::move_to_front;
use crate::intake::Reach;
use crate::line_buffer::{LineBuffer, write_message};
use crate::stream::Stream;
use crate::streams::LinkFault;
use common_types::limits::MAX_FRAME;
use httparse::spans::{EMPTY_HEADER_SPAN, HeaderSpan, ResponseSpans};
use ilp_addr::Target;
use thiserror::Error;

/// The most bytes of an answer's body.
pub const MAX_PEER_ANSWER: usize = MAX_FRAME;

/// The most heads of an answer: up to four of status 1xx, and the last.
const MAX_HEADS: u32 = 5;

/// Why a peer gave no answer.
#[derive(Clone, Copy, Debug, PartialEq, Eq, Error)]
pub enum PostFault {
    /// A read failed.
    #[error("a read failed")]
    Read,
    /// A write failed.
    #[error("a write failed")]
    Write,
    /// 50,000 reads or writes did not suffice.
    #[error("too many reads or writes")]
    Turns,
    /// The answer ended inside a head or a body.
    #[error("the answer is cut")]
    Cut,
    /// A head is malformed or over the limits, or the fifth of status 1xx.
    #[error("the answer's head is malformed")]
    Head,
    /// The status is not 200.
    #[error("the answer's status is not 200")]
    Status,
    /// The answer's length is bad or repeated, its coding is not exactly `chunked`, or its chunks are malformed.
    #[error("the answer's body is not framed as it should be")]
    Unframed,
    /// The answer's body has more than 34,000 bytes.
    #[error("the answer is too large")]
    Size,
}

impl From<LinkFault> for PostFault {
    ghost use Rattle.std.specs.Prelude.{◌≡◌};
    ghost use Rattle.http_link.specs.Client.{post_fault_of};

    ghost from_gives = { λ fault told. told ≡ post_fault_of fault };

    fn from(fault: LinkFault) -> PostFault {
        match fault {
            LinkFault::Read => PostFault::Read,
            LinkFault::Write => PostFault::Write,
            LinkFault::Turns => PostFault::Turns,
        }
    }
}

/// Sends a frame to a peer, and reads its answer into `out`, which has 34,000 bytes or more. Returns how many bytes
/// the answer's body has. They are at the front of `out`. (RFC 0035; RFC 9112, 3 and 6)
///
/// Errors of this call:
///
/// - `Read` and `Write` if the device failed.
/// - `Turns` if 50,000 reads or writes did not suffice.
///
/// Errors of the peer's answer:
///
/// - `Head` for a malformed head, one of more than 8,192 bytes or 64 lines, or the fifth of status 1xx.
/// - `Status` for a status other than 200.
/// - `Unframed` for a body of another coding than `chunked`, for malformed chunks, and for a bad or repeated length.
/// - `Size` for a body of more than 34,000 bytes.
/// - `Cut` if the stream ends inside a head or a body.
pub fn post<R: Source, W: Sink>(
    r: &mut R,
    w: &mut W,
    target: &Target,
    frame: &[u8],
    out: &mut [u8],
) -> Result<usize, PostFault>
    requires { max_peer_answer ≤ length out.old }

    // The request is written whole, unless a write fails.
    ensures sent { result ≢ Err PostFault.Write → result ≢ Err PostFault.Turns
        → Appends (W.contents w.old) (W.contents w.new) (post_text target.now frame.now) }
    // The outcome is what the stream means, however it is cut into reads.
    ensures exact { (stream : List ℕ) → R.remaining r.old ≡ Some stream
        → result ≢ Err PostFault.Read → result ≢ Err PostFault.Write → result ≢ Err PostFault.Turns
        → Means max_heads stream (given result out.new) }
    ensures bound { IfOk result (λ n. n ≤ max_peer_answer) }
    ensures len { length out.new ≡ length out.old }

    // A device's fault is reported exactly if the device failed.
    ensures read { (result ≡ Err PostFault.Read) ↔ (R.failure_count r.old < R.failure_count r.new) }
    ensures write { (result ≡ Err PostFault.Write) ↔ (W.failure_count w.old < W.failure_count w.new) }
    // The limit is reported only if it was reached.
    ensures turns { result ≡ Err PostFault.Turns
        → MadeAll R.was_read r.old r.new ⊎ MadeAll W.was_written w.old w.new }
{
    let before = w.failures();
    let mut head = post_head(target, frame.len());
    write_message(w, &mut head, frame, before)?;
    read_answer(&mut Stream::new(r, out, Reach::Ahead))
}

// The head of the request that posts so many bytes.
fn post_head(target: &Target, size: usize) -> LineBuffer
    ensures { result ≡ post_head target.now size }
{
    let mut head = LineBuffer::new();
    head.push(b"POST ");
    head.push(target.path());
    head.push(b" HTTP/1.1");
    head.push(b"\r\n");
    head.push_line(b"Host: ", target.host());
    head.push_line(b"Authorization: Bearer ", target.token());
    head.push(b"Accept: application/octet-stream\r\n");
    head.push(b"Content-Type: application/octet-stream\r\n");
    head.push_stated(b"Content-Length: ", size);
    head.push(b"Connection: close\r\n");
    head.push(b"\r\n");
    head
}

// How the end of an answer's body is known. (RFC 9112, 6.3)
#[derive(Clone, Copy, Debug, PartialEq, Eq)]
pub(crate) enum AnswerFraming {
    /// By its head.
    Framed(Framing),
    /// By the end of the stream.
    ToEnd,
}

// Reads an answer, its heads and its body, in the room for it.
fn read_answer<R: Source>(stream: &mut Stream<'_, '_, R>) -> Result<usize, PostFault>
    requires room { max_peer_answer ≤ length stream.old.room.now }
    requires none { (stream.old.held.from ≡ 0) × (stream.old.held.to ≡ 0) }
    ensures means { (bytes : List ℕ) → to_come stream.old ≡ Some bytes
        → result ≢ Err PostFault.Read → result ≢ Err PostFault.Turns → Means max_heads bytes (given result stream.new.room.now) }
    ensures bound { IfOk result (λ n. n ≤ max_peer_answer) }
    ensures reports { ReportsAs post_fault_of stream.old stream.new result }
{
    let mut lines = [EMPTY_HEADER_SPAN; MAX_LINES];
    let mut heads = MAX_HEADS;
    while heads > 0 {
        heads -= 1;
        move_to_front(stream.room, &mut stream.held);
        match find_head::<ResponseSpans, _>(stream, &mut lines)? {
            Offered::Partial => return Err(PostFault::Cut),
            Offered::Malformed => return Err(PostFault::Head),
            Offered::Whole(spans) => {
                stream.held.from = spans.len;
                if !is_interim(spans.code) {
                    let fields = lines_in(stream.front(spans.len), &lines, spans);
                    return match framing_in(spans.code, spans.version, fields) {
                        Ok(framing) => read_framed(stream, framing),
                        Err(fault) => Err(fault),
                    };
                }
            }
        }
    }
    Err(PostFault::Head)
}

fn is_interim(status: u16) -> bool
    ensures { result ≡ is_between 100 199 status }
{
    100 <= status && status <= 199
}

// The field lines of a head, by their spans in its text.
fn lines_in<'b>(text: &'b [u8], lines: &'b [HeaderSpan], spans: ResponseSpans) -> Lines<'b>
    requires within { IsResponseWithin text.now lines.now spans }
    ensures { lines_at result ≡ map (header_bytes text.now) (take spans.headers lines.now) }
{
    Lines {
        text,
        spans: &lines[..spans.headers],
    }
}

// How the body after the last head of an answer is framed.
fn framing_in(status: u16, minor: u8, fields: Lines<'_>) -> Result<AnswerFraming, PostFault>
    ensures value { result ≡ framing_in (record { status = status; minor = minor; lines = lines_at fields.entry }) }
    ensures bound { IfOk result FitsAnswer }
    ensures own { (result ≢ Err PostFault.Read) × (result ≢ Err PostFault.Write) × (result ≢ Err PostFault.Turns) }
{
    if status != 200 {
        return Err(PostFault::Status);
    }
    let coded = fields.find(b"Transfer-Encoding");
    framing_by(minor, coded, fields.find(b"Content-Length"))
}

// How a body is framed by the lines on its coding and its length.
fn framing_by(
    minor: u8,
    coded: FieldValue<'_>,
    stated: FieldValue<'_>,
) -> Result<AnswerFraming, PostFault>
    ensures value { result ≡ framing_by minor (occurrence_at coded.entry) (occurrence_at stated.entry) }
    ensures bound { IfOk result FitsAnswer }
    ensures own { (result ≢ Err PostFault.Read) × (result ≢ Err PostFault.Write) × (result ≢ Err PostFault.Turns) }
{
    match (coded, stated) {
        (FieldValue::Missing, FieldValue::Missing) => Ok(AnswerFraming::ToEnd),
        (FieldValue::Missing, FieldValue::Once(text)) if is_length(text) => sized_by(text),
        (FieldValue::Once(coding), FieldValue::Missing) if minor == 1 && is_chunked(coding) => {
            Ok(AnswerFraming::Framed(Framing::Chunked(MAX_PEER_ANSWER)))
        }
        _ => Err(PostFault::Unframed),
    }
}

// A body of the length that a text states.
fn sized_by(text: &[u8]) -> Result<AnswerFraming, PostFault>
    ensures value { result ≡ sized_by (value_of text.now) }
    ensures bound { IfOk result FitsAnswer }
    ensures own { (result ≢ Err PostFault.Read) × (result ≢ Err PostFault.Write) × (result ≢ Err PostFault.Turns) }
{
    let size = value_up_to(text, MAX_PEER_ANSWER as u64 + 1) as usize;
    if size > MAX_PEER_ANSWER {
        Err(PostFault::Size)
    } else {
        Ok(AnswerFraming::Framed(Framing::Sized(size)))
    }
}

// Reads a body that is framed so, of which some bytes are held in the room.
fn read_framed<R: Source>(
    stream: &mut Stream<'_, '_, R>,
    framing: AnswerFraming,
) -> Result<usize, PostFault>
    requires room { max_peer_answer ≤ length stream.old.room.now }
    requires none { stream.old.done ≡ 0 }
    requires fits { FitsAnswer framing }
    ensures gives { GivesAs framing (held_of stream.old) (to_come stream.old) result stream.new.room.now }
    ensures bound { IfOk result (λ n. n ≤ max_peer_answer) }
    ensures reports { ReportsAs post_fault_of stream.old stream.new result }
{
    let framing = match framing {
        AnswerFraming::Framed(framing) => framing,
        AnswerFraming::ToEnd => return read_to_end(stream),
    };
    match read_body(stream, framing)? {
        BodyRead::Whole(n) => Ok(n),
        BodyRead::Cut => Err(PostFault::Cut),
        BodyRead::Bad(BodyFault::Malformed) => Err(PostFault::Unframed),
        BodyRead::Bad(BodyFault::TooLarge) => Err(PostFault::Size),
    }
}

// Reads a body that goes to the end of the stream.
fn read_to_end<R: Source>(stream: &mut Stream<'_, '_, R>) -> Result<usize, PostFault>
    requires room { max_peer_answer ≤ length stream.old.room.now }
    requires none { stream.old.done ≡ 0 }
    ensures gives { GivesAs AnswerFraming.ToEnd (held_of stream.old) (to_come stream.old) result stream.new.room.now }
    ensures bound { IfOk result (λ n. n ≤ max_peer_answer) }
    ensures reports { ReportsAs post_fault_of stream.old stream.new result }
{
    move_to_front(stream.room, &mut stream.held);
    let had = stream.held.to;
    let n = stream.read_on(had, MAX_PEER_ANSWER)?;
    if n > MAX_PEER_ANSWER {
        return Err(PostFault::Size);
    }
    if n < MAX_PEER_ANSWER || stream.has_ended()? {
        return Ok(n);
    }
    Err(PostFault::Size)
}
