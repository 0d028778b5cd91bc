//! Bodies that are read: of a stated length, or in chunks.

ghost use Rattle.std.specs.Prelude.{◌≡◌, ◌⊎◌, ◌<◌, ◌≤◌, length, min, Err, IfOk};
ghost use Rattle.http_link.specs.Bodies.{IsBody, IsSized, cut, most_of};
ghost use Rattle.http_link.specs.BodyReading.{ReadsAs, ReadsAtMost};
ghost use Rattle.http_link.specs.StreamCalls.{ReadsNoFurther, Reports, held_of, to_come};

use crate::chunks::read_chunks;
use crate::devices::Source;
use crate::held::{Held, move_to_front};
use crate::stream::Stream;
use crate::streams::LinkFault;

/// How the end of a body is known. (RFC 9112, 6.3)
#[derive(Clone, Copy, Debug, PartialEq, Eq)]
pub(crate) enum Framing {
    /// It has so many bytes.
    Sized(usize),
    /// It comes in chunks, which have so many bytes together at most.
    Chunked(usize),
}

/// What is wrong with a body.
#[derive(Clone, Copy, Debug, PartialEq, Eq)]
pub(crate) enum BodyFault {
    /// Its chunks or its trailers are malformed.
    Malformed,
    /// Its chunks have more bytes than there may be.
    TooLarge,
}

/// The result of reading a body.
#[derive(Clone, Copy, Debug, PartialEq, Eq)]
pub(crate) enum BodyRead {
    /// It is at the front of the buffer, with so many bytes.
    Whole(usize),
    /// The stream ended inside it.
    Cut,
    /// It is refused.
    Bad(BodyFault),
}

/// Reads a body into the front of the room, which holds some bytes of it already. At the end it holds the bytes that
/// follow the body.
pub(crate) fn read_body<R: Source>(
    stream: &mut Stream<'_, '_, R>,
    framing: Framing,
) -> Result<BodyRead, LinkFault>
    requires none { stream.old.done ≡ 0 }
    requires wide { most_of framing ≤ length stream.old.room.now }
    ensures reads { IfOk result (ReadsAs (held_of stream.old) (to_come stream.old) (to_come stream.new) (held_of stream.new)
        stream.new.room.now (IsBody framing)) }
    ensures fits { IfOk result (ReadsAtMost (most_of framing)) }
    ensures at_once { (stream.new.reader.now ≡ stream.old.reader.now) ⊎ IsBody framing (held_of stream.old) cut }
    ensures exact { ReadsNoFurther stream.old stream.new }
    ensures reports { Reports stream.old stream.new result }
{
    match framing {
        Framing::Sized(size) => read_sized(stream, size),
        Framing::Chunked(most) => read_chunks(stream, most),
    }
}

// Reads a body of a stated length.
fn read_sized<R: Source>(stream: &mut Stream<'_, '_, R>, size: usize) -> Result<BodyRead, LinkFault>
    requires none { stream.old.done ≡ 0 }
    requires wide { size ≤ length stream.old.room.now }
    ensures reads { IfOk result (ReadsAs (held_of stream.old) (to_come stream.old) (to_come stream.new) (held_of stream.new)
        stream.new.room.now (IsSized size)) }
    ensures fits { IfOk result (ReadsAtMost size) }
    ensures at_once { size ≤ length (held_of stream.old) → stream.new.reader.now ≡ stream.old.reader.now }
    ensures exact { ReadsNoFurther stream.old stream.new }
    ensures reports { Reports stream.old stream.new result }
{
    move_to_front(stream.room, &mut stream.held);
    let had = stream.held.to;
    let there = stream.read_on(had, size)?;
    stream.held = used(size, there);
    if there < size {
        return Ok(BodyRead::Cut);
    }
    Ok(BodyRead::Whole(size))
}

// What is held of so many bytes once so many of them, or all, were used.
fn used(size: usize, there: usize) -> Held
    ensures { result ≡ record { from = min size there; to = there } }
{
    Held {
        from: size.min(there),
        to: there,
    }
}
