//! Bodies in chunks, decoded in place as they come. (RFC 9112, 7.1)

ghost use Rattle.std.specs.Prelude.{◌≡◌, ◌↔◌, ◌⊎◌, ◌+◌, ◌-◌, ◌<◌, ◌≤◌, ◌∷◌, ◌++◌, [], length, take, drop, min, Err, IfOk, IsTrue};
ghost use Rattle.httparse.specs.Ascii.{crlf_bytes};
ghost use Rattle.http_link.specs.Limits.{max_chunk_line, max_head};
ghost use Rattle.http_link.specs.Bodies.{BeginsNothing, IsChunked, IsCutShort, cut, ends_line, ends_section};
ghost use Rattle.http_link.specs.BodyReading.{AreTrailersIn, IsStatedIn, LiesBehind, ReadsAs, ReadsAtMost, ReadsOnlyFor};
ghost use Rattle.http_link.specs.BodyReading.{TakesBytes, TakesChunk, TakesEnd, TakesLast, TakesSize, TakesStep};
ghost use Rattle.http_link.specs.BodyReading.{StepsTo, no_more, step_after};
ghost use Rattle.http_link.specs.Running.{held_in};
ghost use Rattle.http_link.specs.StreamCalls.{KeepsBody, ReadsNoFurther, Reports, held_of, to_come};

use crate::bodies::{BodyFault, BodyRead};
use crate::devices::Source;
use crate::head::{MAX_HEAD, MAX_LINES};
use crate::held::Held;
use crate::intake::{Sought, Text, read_text};
use crate::stream::Stream;
use crate::streams::LinkFault;
use httparse::spans::{EMPTY_HEADER_SPAN, parse_headers};
use httparse::{Status, parse_chunk_size};

/// The most bytes of a chunk's line, with its end.
const MAX_CHUNK_LINE: usize = 256;

/// What a chunk's line states.
#[derive(Clone, Copy)]
enum Stated {
    /// The chunk has so many bytes.
    Size(u64),
    /// It is not a chunk's line.
    Malformed,
    /// The stream ended inside it.
    Short,
}

/// The result of reading bytes that have to be certain ones.
#[derive(Clone, Copy)]
enum Checked {
    /// They are.
    Right,
    /// They are not.
    Wrong,
    /// The stream ended inside them.
    Short,
}

/// What a chunk means for a body.
#[derive(Clone, Copy)]
enum Step {
    /// It goes on after the chunk.
    More,
    /// It is over.
    Over(BodyRead),
}

/// Reads a body in chunks, of so many bytes at most in all, into the front of the room, which holds some bytes of it
/// already. A chunk that passes that limit is refused by its line, before it is read.
pub(crate) fn read_chunks<R: Source>(
    stream: &mut Stream<'_, '_, R>,
    most: usize,
) -> Result<BodyRead, LinkFault>
    requires none { stream.old.done ≡ 0 }
    requires wide { most ≤ length stream.old.room.now }
    ensures reads { IfOk result (ReadsAs (held_of stream.old) (to_come stream.old) (to_come stream.new) (held_of stream.new)
        stream.new.room.now (IsChunked most)) }
    ensures fits { IfOk result (ReadsAtMost most) }
    ensures at_once { (stream.new.reader.now ≡ stream.old.reader.now) ⊎ IsChunked most (held_of stream.old) cut }
    ensures exact { ReadsNoFurther stream.old stream.new }
    ensures reports { Reports stream.old stream.new result }
{
    loop {
        match read_step(stream, most)? {
            Step::More => {}
            Step::Over(read) => return Ok(read),
        }
    }
}

// Reads a chunk after those that are done, or what ends a body.
fn read_step<R: Source>(stream: &mut Stream<'_, '_, R>, most: usize) -> Result<Step, LinkFault>
    requires fits { stream.old.done ≤ most }
    requires wide { most ≤ length stream.old.room.now }
    ensures fits { IfOk result (StepsTo stream.old.done) }
    ensures taken { IfOk result (TakesStep (held_of stream.old) (to_come stream.old) (to_come stream.new) (held_of stream.new)
        most stream.old.done stream.new.done stream.old.room.now stream.new.room.now) }
    ensures at_once { ReadsOnlyFor stream.old.reader.now stream.new.reader.now result
        (TakesStep (held_of stream.old) no_more no_more (held_of stream.new) most stream.old.done stream.new.done stream.old.room.now stream.new.room.now)
        (IsCutShort (most - stream.old.done) (held_of stream.old)) }
    ensures exact { ReadsNoFurther stream.old stream.new }
    ensures reports { Reports stream.old stream.new result }
{
    match read_size(stream)? {
        Stated::Size(0) => read_end(stream),
        Stated::Size(size) => {
            if size > (most - stream.done) as u64 {
                return Ok(Step::Over(BodyRead::Bad(BodyFault::TooLarge)));
            }
            read_chunk(stream, size as usize)
        }
        Stated::Malformed => Ok(Step::Over(BodyRead::Bad(BodyFault::Malformed))),
        Stated::Short => Ok(Step::Over(BodyRead::Cut)),
    }
}

// Reads the line of a chunk.
fn read_size<R: Source>(stream: &mut Stream<'_, '_, R>) -> Result<Stated, LinkFault>
    ensures kept { KeepsBody stream.old stream.new result }
    ensures taken { IfOk result (TakesSize (held_of stream.old) (to_come stream.old) (to_come stream.new) (held_of stream.new)) }
    ensures at_once { ReadsOnlyFor stream.old.reader.now stream.new.reader.now result
        (TakesSize (held_of stream.old) no_more no_more (held_of stream.new)) (BeginsNothing ends_line max_chunk_line (held_of stream.old)) }
    ensures exact { ReadsNoFurther stream.old stream.new }
    ensures reports { Reports stream.old stream.new result }
{
    let mut line = [0u8; MAX_CHUNK_LINE];
    match read_text(stream, Sought::Line, &mut line)? {
        Text::Found(n) => match size_in(&line[..n]) {
            Some(size) => Ok(Stated::Size(size)),
            None => Ok(Stated::Malformed),
        },
        Text::TooLong => Ok(Stated::Malformed),
        Text::Ended => Ok(Stated::Short),
    }
}

// The size that a chunk's line states.
fn size_in(text: &[u8]) -> Option<u64>
    ensures { IsStatedIn text.now result }
{
    match parse_chunk_size(text) {
        Ok(Status::Complete((len, size))) => {
            if len == text.len() {
                return Some(size);
            }
            None
        }
        Ok(Status::Partial) => None,
        Err(_) => None,
    }
}

// Reads a chunk of that size and the line end after it.
fn read_chunk<R: Source>(stream: &mut Stream<'_, '_, R>, size: usize) -> Result<Step, LinkFault>
    requires wide { stream.old.done + size ≤ length stream.old.room.now }
    ensures fits { IfOk result (StepsTo stream.old.done) }
    ensures taken { IfOk result (TakesChunk (held_of stream.old) (to_come stream.old) (to_come stream.new) (held_of stream.new)
        size stream.old.done stream.new.done stream.old.room.now stream.new.room.now) }
    ensures at_once { ReadsOnlyFor stream.old.reader.now stream.new.reader.now result
        (TakesChunk (held_of stream.old) no_more no_more (held_of stream.new) size stream.old.done stream.new.done stream.old.room.now stream.new.room.now)
        (length (held_of stream.old) < size + 2) }
    ensures exact { ReadsNoFurther stream.old stream.new }
    ensures reports { Reports stream.old stream.new result }
{
    if !read_bytes(stream, size)? {
        return Ok(Step::Over(BodyRead::Cut));
    }
    stream.done += size;
    Ok(step_after(read_line_end(stream)?))
}

// What the bytes after a chunk mean for its body.
fn step_after(ending: Checked) -> Step
    ensures { result ≡ step_after ending }
{
    match ending {
        Checked::Right => Step::More,
        Checked::Wrong => Step::Over(BodyRead::Bad(BodyFault::Malformed)),
        Checked::Short => Step::Over(BodyRead::Cut),
    }
}

// Puts the bytes of a chunk after those that are done: first those that are held, then those of the reader. Returns
// whether there are as many.
fn read_bytes<R: Source>(stream: &mut Stream<'_, '_, R>, size: usize) -> Result<bool, LinkFault>
    requires wide { stream.old.done + size ≤ length stream.old.room.now }
    ensures done { stream.new.done ≡ stream.old.done }
    ensures after { IfOk result (λ all. IsTrue all → stream.old.done + size ≤ stream.new.held.from) }
    ensures taken { IfOk result (TakesBytes (held_of stream.old) (to_come stream.old) (to_come stream.new) (held_of stream.new)
        size stream.old.done stream.old.room.now stream.new.room.now) }
    ensures at_once { ReadsOnlyFor stream.old.reader.now stream.new.reader.now result
        (TakesBytes (held_of stream.old) no_more no_more (held_of stream.new) size stream.old.done stream.old.room.now stream.new.room.now)
        (length (held_of stream.old) < size) }
    ensures exact { ReadsNoFurther stream.old stream.new }
    ensures reports { Reports stream.old stream.new result }
{
    let (done, end) = (stream.done, stream.done + size);
    let moved = move_bytes(stream.room, &mut stream.held, done, size);
    if moved == size {
        return Ok(true);
    }
    let there = stream.read_on(done + moved, end)?;
    stream.held = Held {
        from: there,
        to: there,
    };
    if there < end {
        return Ok(false);
    }
    Ok(true)
}

// Moves so many of the bytes that are held, or all, to follow those that are done. Returns how many.
fn move_bytes(room: &mut [u8], held: &mut Held, done: usize, size: usize) -> usize
    requires lies { LiesBehind done room.old held.old }
    ensures len { length room.new ≡ length room.old }
    ensures count { result ≡ min size (held.old.to - held.old.from) }
    ensures lies { LiesBehind (done + result) room.new held.new }
    ensures left { (held.new.from ≡ held.old.from + result) × (held.new.to ≡ held.old.to) }
    ensures moved { take (done + result) room.new ≡ take done room.old ++ take result (held_in room.old held.old) }
    ensures rest { held_in room.new held.new ≡ drop result (held_in room.old held.old) }
{
    let moved = size.min(held.to - held.from);
    room.copy_within(held.from..held.from + moved, done);
    held.from += moved;
    moved
}

// Reads the line end after a chunk.
fn read_line_end<R: Source>(stream: &mut Stream<'_, '_, R>) -> Result<Checked, LinkFault>
    ensures kept { KeepsBody stream.old stream.new result }
    ensures taken { IfOk result (TakesEnd (held_of stream.old) (to_come stream.old) (to_come stream.new) (held_of stream.new)) }
    ensures at_once { ReadsOnlyFor stream.old.reader.now stream.new.reader.now result
        (TakesEnd (held_of stream.old) no_more no_more (held_of stream.new)) (length (held_of stream.old) < 2) }
    ensures exact { ReadsNoFurther stream.old stream.new }
    ensures reports { Reports stream.old stream.new result }
{
    let Some(first) = stream.next_byte()? else {
        return Ok(Checked::Short);
    };
    let Some(second) = stream.next_byte()? else {
        return Ok(Checked::Short);
    };
    if is_line_end(first, second) {
        return Ok(Checked::Right);
    }
    Ok(Checked::Wrong)
}

fn is_line_end(first: u8, second: u8) -> bool
    ensures { IsTrue result ↔ (first ∷ second ∷ [] ≡ crlf_bytes) }
{
    first == b'\r' && second == b'\n'
}

// Reads the trailers after the last chunk, and drops them.
fn read_end<R: Source>(stream: &mut Stream<'_, '_, R>) -> Result<Step, LinkFault>
    ensures fits { IfOk result (StepsTo stream.old.done) }
    ensures taken { IfOk result (TakesLast (held_of stream.old) (to_come stream.old) (to_come stream.new) (held_of stream.new)
        stream.old.done stream.old.room.now stream.new.room.now) }
    ensures at_once { ReadsOnlyFor stream.old.reader.now stream.new.reader.now result
        (TakesLast (held_of stream.old) no_more no_more (held_of stream.new) stream.old.done stream.old.room.now stream.new.room.now)
        (BeginsNothing ends_section max_head (held_of stream.old)) }
    ensures exact { ReadsNoFurther stream.old stream.new }
    ensures reports { Reports stream.old stream.new result }
{
    let done = stream.done;
    let mut text = [0u8; MAX_HEAD];
    match read_text(stream, Sought::Section, &mut text)? {
        Text::Found(n) => {
            if are_trailers(&text[..n]) {
                return Ok(Step::Over(BodyRead::Whole(done)));
            }
            Ok(Step::Over(BodyRead::Bad(BodyFault::Malformed)))
        }
        Text::TooLong => Ok(Step::Over(BodyRead::Bad(BodyFault::Malformed))),
        Text::Ended => Ok(Step::Over(BodyRead::Cut)),
    }
}

// Whether a text is trailers and the empty line after them.
fn are_trailers(text: &[u8]) -> bool
    ensures { AreTrailersIn text.now result }
{
    let mut fields = [EMPTY_HEADER_SPAN; MAX_LINES];
    match parse_headers(text, &mut fields) {
        Ok(Status::Complete((len, _))) => len == text.len(),
        _ => false,
    }
}
