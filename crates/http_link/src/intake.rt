//! What follows a head, byte by byte.

ghost use Rattle.std.specs.Prelude.{◌≡◌, ◌⊎◌, ◌+◌, ◌<◌, ◌≤◌, length, take, Err, IfOk};
ghost use Rattle.http_link.specs.Grammars.{ends_empty_line};
ghost use Rattle.http_link.specs.Bodies.{BeginsNothing};
ghost use Rattle.http_link.specs.BodyReading.{ReadsOnlyFor, TakesText, ends_sought, no_more};
ghost use Rattle.http_link.specs.StreamCalls.{KeepsBody, ReadsNoFurther, Reports, held_of, to_come};

use crate::devices::Source;
use crate::head::ends_empty_line;
use crate::stream::Stream;
use crate::streams::LinkFault;

/// How much of a stream is taken.
#[derive(Clone, Copy, Debug, PartialEq, Eq)]
pub(crate) enum Reach {
    /// No more than is needed: what follows stays in the reader.
    Needed,
    /// As much as there is room for.
    Ahead,
}

impl Reach {
    /// The end of the bytes that a read may fill, in a buffer of that size, from an index on.
    pub(crate) fn limit(self, at: usize, size: usize) -> usize
        requires { at < size }
        ensures some { at < result }
        ensures within { result ≤ size }
        ensures exact { self ≡ Reach.Needed → result ≡ at + 1 }
    {
        match self {
            Reach::Needed => at + 1,
            Reach::Ahead => size,
        }
    }
}

/// A text that is looked for.
#[derive(Clone, Copy, Debug, PartialEq, Eq)]
pub(crate) enum Sought {
    /// A line.
    Line,
    /// Field lines and the empty line after them.
    Section,
}

/// The result of the search for a text.
#[derive(Clone, Copy, Debug, PartialEq, Eq)]
pub(crate) enum Text {
    /// It has so many bytes.
    Found(usize),
    /// It has more bytes than there is room for.
    TooLong,
    /// The stream ended inside it.
    Ended,
}

fn is_ended(sought: Sought, text: &[u8]) -> bool
    ensures { result ≡ ends_sought sought text.now }
{
    match sought {
        Sought::Line => text.ends_with(b"\n"),
        Sought::Section => text == b"\n".as_slice()
            || text == b"\r\n".as_slice()
            || ends_empty_line(text),
    }
}

/// Takes a text, byte by byte, and copies it to the front of the buffer.
pub(crate) fn read_text<R: Source>(
    stream: &mut Stream<'_, '_, R>,
    sought: Sought,
    text: &mut [u8],
) -> Result<Text, LinkFault>
    ensures kept { KeepsBody stream.old stream.new result }
    ensures room { length text.new ≡ length text.old }
    ensures taken { IfOk result (TakesText sought (held_of stream.old) (to_come stream.old) (to_come stream.new) (held_of stream.new) text.new) }
    ensures at_once { ReadsOnlyFor stream.old.reader.now stream.new.reader.now result
        (TakesText sought (held_of stream.old) no_more no_more (held_of stream.new) text.new)
        (BeginsNothing (ends_sought sought) (length text.old) (held_of stream.old)) }
    ensures exact { ReadsNoFurther stream.old stream.new }
    ensures reports { Reports stream.old stream.new result }
{
    let mut n = 0;
    while n < text.len() {
        let Some(b) = stream.next_byte()? else {
            return Ok(Text::Ended);
        };
        text[n] = b;
        n += 1;
        if is_ended(sought, &text[..n]) {
            return Ok(Text::Found(n));
        }
    }
    Ok(Text::TooLong)
}
