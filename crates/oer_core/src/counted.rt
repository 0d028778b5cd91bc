//! Readers and writers that count their faults.

ghost use Rattle.std.specs.Prelude.{◌≡◌, is_err};
ghost use Rattle.std.specs.Io.{ReadsAtMost, WritesAtMost};
ghost use Rattle.std.specs.Io.KnownBytes.{Keeps, ReadConsumes, WriteAppends};
ghost use Rattle.oer_core.specs.Devices.{count_after, takes_nothing};

use crate::device::Device;
use std::io;
use std::io::{Read, Write};

/// A reader or a writer, and how many of its reads and writes have failed.
#[derive(Drop)]
pub struct Counted<D> {
    inner: D,
    failures: u64,
}

impl<D> Counted<D> {
    /// A device that has not failed yet.
    pub fn new(inner: D) -> Counted<D>
        ensures device { result.inner ≡ inner }
        ensures none { result.failures ≡ 0 }
    {
        Counted { inner, failures: 0 }
    }

    fn count(&mut self, failed: bool)
        ensures inner { self.new.inner ≡ self.old.inner }
        ensures count { self.new.failures ≡ count_after failed self.old.failures }
    {
        if failed {
            self.failures = self.failures.saturating_add(1);
        }
    }
}

impl<D> Device for Counted<D> {
    ghost failure_count = { λ c. c.failures };

    fn failures(&self) -> u64 {
        self.failures
    }
}

impl<D: Read> Read for Counted<D> {
    ghost remaining = { λ c. D.remaining c.inner };

    fn read(&mut self, buf: &mut [u8]) -> io::Result<usize>
        ensures bound { ReadsAtMost result buf.new }
        ensures bytes { ReadConsumes (D.remaining self.old.inner) (D.remaining self.new.inner) result buf.new }
        // Only an error is counted.
        ensures counted { self.new.failures ≡ count_after (is_err result) self.old.failures }
    {
        let result = self.inner.read(buf);
        self.count(result.is_err());
        result
    }
}

impl<D: Write> Write for Counted<D> {
    ghost contents = { λ c. D.contents c.inner };

    fn write(&mut self, buf: &[u8]) -> io::Result<usize>
        ensures bound { WritesAtMost result buf.now }
        ensures bytes { WriteAppends (D.contents self.old.inner) (D.contents self.new.inner) result buf.now }
        // An error is counted, and so is a write of some bytes that takes none. Nothing else is
        // counted.
        ensures counted { self.new.failures ≡ count_after (takes_nothing result buf.now) self.old.failures }
    {
        let result = self.inner.write(buf);
        self.count(match &result {
            Ok(taken) => *taken == 0 && !buf.is_empty(),
            Err(_) => true,
        });
        result
    }

    fn flush(&mut self) -> io::Result<()>
        ensures bytes { Keeps (D.contents self.old.inner) (D.contents self.new.inner) }
        // A flush is neither a read nor a write.
        ensures counted { self.new.failures ≡ self.old.failures }
    {
        self.inner.flush()
    }
}
