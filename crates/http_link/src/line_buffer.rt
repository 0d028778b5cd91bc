//! Lines of a head to write, stored inline.

ghost use Rattle.std.specs.Prelude.{◌≡◌, ◌≢◌, ◌↔◌, ◌+◌, ◌<◌, ◌≤◌, ◌++◌, [], length, decimal, Err, OnOk};
ghost use Rattle.std.specs.Io.KnownBytes.{Appends};
ghost use Rattle.http_link.specs.Telling.{TellsWrites};
ghost use Rattle.http_link.specs.Answers.{line};
ghost use Rattle.http_link.specs.Limits.{max_written};

use crate::devices::Sink;
use crate::streams::{LinkFault, write_all, write_all_of_both};
use itoa::Buffer;
use std::marker::Model;

/// The most bytes of a head that is written.
pub(crate) const MAX_WRITTEN: usize = 1024;

/// Bytes that grow in place, at most 1,024.
#[derive(Drop)]
pub(crate) struct LineBuffer {
    bytes: [u8; MAX_WRITTEN],
    len: usize,
    ghost within: { len ≤ max_written },
}

impl Model for LineBuffer {
    ghost use Rattle.std.specs.Prelude.{List, ℕ, take};

    ghost Value = { List ℕ };

    ghost view = { λ b. take b.len b.bytes };
}

impl LineBuffer {
    pub(crate) fn new() -> LineBuffer
        ensures { result ≡ [] }
    {
        LineBuffer {
            bytes: [0u8; MAX_WRITTEN],
            len: 0,
        }
    }

    pub(crate) fn as_slice(&self) -> &[u8]
        ensures { result.now ≡ self.now }
    {
        &self.bytes[..self.len]
    }

    // How many bytes more it has room for.
    fn room(&self) -> usize
        ensures { length self.now + result ≡ max_written }
    {
        MAX_WRITTEN - self.len
    }

    pub(crate) fn push(&mut self, text: &[u8])
        requires { length self.old + length text.now ≤ max_written }
        ensures value { self.new ≡ self.old ++ text.now }
        ensures len { length self.new ≡ length self.old + length text.now }
    {
        self.bytes[self.len..self.len + text.len()].copy_from_slice(text);
        self.len += text.len();
    }

    pub(crate) fn push_number(&mut self, number: usize)
        requires { length self.old + 20 ≤ max_written }
        ensures value { self.new ≡ self.old ++ decimal number }
        ensures len { length self.new ≤ length self.old + 20 }
    {
        let mut digits = Buffer::new();
        self.push(digits.format(number).as_bytes());
    }

    /// Pushes a line.
    pub(crate) fn push_line(&mut self, label: &[u8], text: &[u8])
        requires { length self.old + length label.now + length text.now + 2 ≤ max_written }
        ensures value { self.new ≡ self.old ++ line (label.now ++ text.now) }
        ensures len { length self.new ≡ length self.old + length label.now + length text.now + 2 }
    {
        self.push(label);
        self.push(text);
        self.push(b"\r\n");
    }

    /// Pushes a line that states a number.
    pub(crate) fn push_stated(&mut self, label: &[u8], number: usize)
        requires { length self.old + length label.now + 22 ≤ max_written }
        ensures value { self.new ≡ self.old ++ line (label.now ++ decimal number) }
        ensures len { length self.new ≤ length self.old + length label.now + 22 }
    {
        self.push(label);
        self.push_number(number);
        self.push(b"\r\n");
    }
}

/// Writes a head and the body after it: as one text if both fit into 1,024 bytes, otherwise as two that the first
/// write gives together. Afterwards the body may be in the buffer too.
pub(crate) fn write_message<W: Sink>(
    w: &mut W,
    head: &mut LineBuffer,
    body: &[u8],
    before: u64,
) -> Result<(), LinkFault>
    requires unfailed { W.failure_count w.old ≤ before }
    ensures whole { OnOk result (Appends (W.contents w.old) (W.contents w.new) (head.old ++ body.now)) }
    ensures told { TellsWrites W.failure_count W.was_written before w.old w.new result }
{
    if body.len() <= head.room() {
        head.push(body);
        return write_all(w, head.as_slice(), before);
    }
    write_all_of_both(w, head.as_slice(), body, before)
}
