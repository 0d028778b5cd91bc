//! Readers and writers whose reads and writes contracts count.

ghost use Rattle.std.specs.Prelude.{ℕ, ◌+◌, ◌++◌};
ghost use Rattle.std.specs.Io.{ReadsAtMost, WritesAtMost};
ghost use Rattle.std.specs.Io.KnownBytes.{ReadConsumes, WriteAppends};

use oer_core::Device;
use std::io;
use std::io::{Read, Write};

/// A reader that counts its faults, and whose reads contracts count.
pub trait Source: Read + Device {
    /// That so many reads were made of a reader. Generic code knows only that each read makes one more, so an
    /// implementor with no counter may say that it always holds.
    ghost was_read: { Self → ℕ → Type 0 };

    /// Reads once, as `read` does.
    fn read_once(&mut self, buf: &mut [u8]) -> io::Result<usize>
        ensures bound { ReadsAtMost result buf.new }
        ensures bytes { ReadConsumes (Self.remaining self.old) (Self.remaining self.new) result buf.new }
        ensures counted { (n : ℕ) → was_read self.old n → was_read self.new (n + 1) };
}

/// A writer that counts its faults, and whose writes contracts count.
pub trait Sink: Write + Device {
    /// That so many writes were made to a writer, as `was_read` of [`Source`].
    ghost was_written: { Self → ℕ → Type 0 };

    /// Writes once, as `write` does.
    fn write_once(&mut self, buf: &[u8]) -> io::Result<usize>
        ensures bound { WritesAtMost result buf.now }
        ensures bytes { WriteAppends (Self.contents self.old) (Self.contents self.new) result buf.now }
        ensures counted { (n : ℕ) → was_written self.old n → was_written self.new (n + 1) };

    /// Writes once from two texts, one after the other, as `write` does from both as one.
    fn write_both(&mut self, first: &[u8], second: &[u8]) -> io::Result<usize>
        ensures bound { WritesAtMost result (first.now ++ second.now) }
        ensures bytes { WriteAppends (Self.contents self.old) (Self.contents self.new) result (first.now ++ second.now) }
        ensures counted { (n : ℕ) → was_written self.old n → was_written self.new (n + 1) }
    {
        if first.is_empty() {
            return self.write_once(second);
        }
        self.write_once(first)
    }
}
