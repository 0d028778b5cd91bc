//! The reader of heads.

ghost use Rattle.std.specs.Prelude.{◌≡◌, ◌≢◌, ◌↔◌, ◌⊎◌, ◌+◌, ◌-◌, ◌<◌, ◌≤◌, ◌==◌, ℕ, length, slice_index, take, true, false, Err, IfOk, IfSome, IsTrue};
ghost use Rattle.std.specs.List.{list_all};
ghost use Rattle.http_link.specs.Grammars.{ends_empty_line, is_line_end};
ghost use Rattle.http_link.specs.Reading.{BeginsNone, BeginsNot, Decides, EndsAt, IsHeadBegun, HeadIsFound, Sees, SeesFurther};
ghost use Rattle.http_link.specs.Limits.{max_head};
ghost use Rattle.http_link.specs.StreamCalls.{Reports, to_come};

use crate::devices::Source;
use crate::grammar::{HeadSpans, Offered};
use crate::intake::Reach;
use crate::stream::Stream;
use crate::streams::LinkFault;
use httparse::spans::HeaderSpan;
use memchr::{memchr, memrchr};

/// The most bytes of a head.
pub(crate) const MAX_HEAD: usize = 8192;

/// The most field lines of a head.
pub(crate) const MAX_LINES: usize = 64;

/// Whether an empty line ends the text, as it does each head.
pub(crate) fn ends_empty_line(text: &[u8]) -> bool
    ensures { result ≡ ends_empty_line text.now }
{
    text.ends_with(b"\n\n") || text.ends_with(b"\n\r\n")
}

// Parses a text whose last byte has just come, if a head can end with it.
fn examine<H: HeadSpans>(text: &[u8], lines: &mut [HeaderSpan]) -> Offered<H>
    requires some { 0 < length text.now }
    requires inside { IsHeadBegun H.grammar (take (length text.now - 1) text.now) (length lines.old) }
    ensures lines { length lines.new ≡ length lines.old }
    ensures decides { Decides H.grammar text.now (length lines.old) lines.new result }
{
    if !ends_empty_line(text) {
        return Offered::Partial;
    }
    H::parse(text, lines)
}

// Whether a text that no head ends in is malformed, as far as its last line's end. It is parsed if it has doubled since so many
// bytes of it were parsed, so that a malformed head is found soon.
fn is_malformed<H: HeadSpans>(text: &[u8], parsed: &mut usize, lines: &mut [HeaderSpan]) -> bool
    ensures lines { length lines.new ≡ length lines.old }
    ensures none { IsTrue result → BeginsNone H.grammar text.now (length lines.old) }
{
    let Some(place) = memrchr(b'\n', text) else {
        return false;
    };
    let end = place + 1;
    if end / 2 < *parsed {
        return false;
    }
    *parsed = end;
    let offered: Offered<H> = H::parse(&text[..end], lines);
    matches!(offered, Offered::Malformed)
}

// Parses a text of which nothing was looked at, and gives the head at its front, if one has come whole. Nothing else is
// decided here, so the answer does not depend on how the stream is cut into reads.
fn whole_at_once<H: HeadSpans>(text: &[u8], lines: &mut [HeaderSpan]) -> Option<H>
    ensures lines { length lines.new ≡ length lines.old }
    ensures covers { IfSome result (H.grammar.Covers text.now lines.new) }
{
    match H::parse(text, lines) {
        Offered::Whole(spans) => Some(spans),
        Offered::Partial | Offered::Malformed => None,
    }
}

// How long the first line of a text is, with its end: all of the text if no line ends in it.
fn line_len(text: &[u8]) -> usize
    requires { 0 < length text.now }
    ensures some { 0 < result }
    ensures within { result ≤ length text.now }
    ensures none { (place : ℕ) → place + 1 < result → (slice_index text.now place == 10) ≡ false }
{
    match memchr(b'\n', text) {
        Some(place) => place + 1,
        None => text.len(),
    }
}

// Whether a line is empty.
fn is_empty_line(line: &[u8]) -> bool
    ensures { IsTrue result → list_all is_line_end line.now ≡ true }
{
    line == b"\n".as_slice() || line == b"\r\n".as_slice()
}

// Looks for the end of a head in a text, of which so many bytes were looked at before, so many parsed, and so many are those of
// empty lines. Empty lines that come first are not parsed one by one.
fn scan<H: HeadSpans>(
    text: &[u8],
    seen: &mut usize,
    parsed: &mut usize,
    blank: &mut usize,
    lines: &mut [HeaderSpan],
) -> Offered<H>
    requires seen { seen.old ≤ length text.now }
    requires blank { blank.old ≤ seen.old }
    requires empty { list_all is_line_end (take blank.old text.now) ≡ true }
    requires inside { IsHeadBegun H.grammar (take seen.old text.now) (length lines.old) }
    ensures lines { length lines.new ≡ length lines.old }
    ensures seen { seen.new ≤ length text.now }
    ensures blank { blank.new ≤ seen.new }
    ensures empty { list_all is_line_end (take blank.new text.now) ≡ true }
    ensures further { SeesFurther seen.old seen.new result }
    ensures sees { Sees H.grammar text.now seen.new (length lines.old) lines.new result }
{
    if *seen == 0 {
        if let Some(spans) = whole_at_once::<H>(text, lines) {
            *seen = spans.len();
            return Offered::Whole(spans);
        }
    }
    while *seen < text.len() {
        let begin = *seen;
        *seen += line_len(&text[begin..]);
        if *blank == begin && is_empty_line(&text[begin..*seen]) {
            *blank = *seen;
            continue;
        }
        match examine(&text[..*seen], lines) {
            Offered::Partial => {}
            Offered::Whole(spans) => return Offered::Whole(spans),
            Offered::Malformed => return Offered::Malformed,
        }
    }
    if is_malformed::<H>(text, parsed, lines) {
        Offered::Malformed
    } else {
        Offered::Partial
    }
}

/// Reads until a head is at the front of the room, which may hold some bytes already, or until none can be. If the
/// stream has ended, the answer is `Partial`.
pub(crate) fn find_head<H: HeadSpans, R: Source>(
    stream: &mut Stream<'_, '_, R>,
    lines: &mut [HeaderSpan],
) -> Result<Offered<H>, LinkFault>
    requires front { stream.old.held.from ≡ 0 }
    requires wide { max_head ≤ length stream.old.room.now }
    ensures lines { length lines.new ≡ length lines.old }
    ensures front { stream.new.held.from ≡ 0 }
    ensures found { IfOk result (HeadIsFound H.grammar (take stream.old.held.to stream.old.room.now) (to_come stream.old) (to_come stream.new)
        (take stream.new.held.to stream.new.room.now) lines.new) }
    ensures at_once { ((stream.new.reader.now ≡ stream.old.reader.now)
        × (take stream.new.held.to stream.new.room.now ≡ take stream.old.held.to stream.old.room.now))
        ⊎ BeginsNot H.grammar (take stream.old.held.to stream.old.room.now) (length lines.new) }
    ensures exact { stream.old.reach ≡ Reach.Needed → stream.old.held.to ≡ 0
        → IfOk result (EndsAt H.grammar stream.new.held.to) }
    ensures reports { Reports stream.old stream.new result }
{
    let mut seen = 0;
    let mut parsed = 0;
    let mut blank = 0;
    loop {
        let end = stream.held.to.min(MAX_HEAD);
        match scan(stream.front(end), &mut seen, &mut parsed, &mut blank, lines) {
            Offered::Partial => {}
            Offered::Whole(spans) => return Ok(Offered::Whole(spans)),
            Offered::Malformed => return Ok(Offered::Malformed),
        }
        if end == MAX_HEAD {
            return Ok(Offered::Malformed);
        }
        let limit = stream.reach.limit(end, stream.room.len());
        let n = stream.fetch(end, limit)?;
        if n == 0 {
            return Ok(Offered::Partial);
        }
        stream.held.to += n;
    }
}
