//! Devices that give and take bytes in pieces, and fail at a read or a write.

use http_link::{Sink, Source};
use oer_core::Device;
use std::alloc::Global;
use std::io;
use std::io::{ErrorKind, Read, Write};

/// Gives its bytes in pieces, the first up to a cut, each of some bytes at most, and fails after some reads.
#[derive(Drop)]
pub struct Pieces<'a> {
    pub bytes: &'a [u8],
    cut: usize,
    most: usize,
    reads: usize,
    failures: u64,
}

impl<'a> Pieces<'a> {
    /// Never fails, and gives its bytes in two pieces.
    pub fn cut_at(bytes: &'a [u8], cut: usize) -> Pieces<'a> {
        Pieces {
            bytes,
            cut,
            most: usize::MAX,
            reads: usize::MAX,
            failures: 0,
        }
    }

    /// Gives one byte at a time, and fails after so many reads.
    pub fn failing_after(bytes: &'a [u8], reads: usize) -> Pieces<'a> {
        Pieces {
            bytes,
            cut: usize::MAX,
            most: 1,
            reads,
            failures: 0,
        }
    }
}

impl Device for Pieces<'_> {
    ghost failure_count = { λ d. d.failures };

    fn failures(&self) -> u64 {
        self.failures
    }
}

impl Read for Pieces<'_> {
    fn read(&mut self, buf: &mut [u8]) -> io::Result<usize> {
        if self.reads == 0 {
            self.failures = self.failures.saturating_add(1);
            return Err(io::Error::from(ErrorKind::ConnectionReset));
        }
        self.reads -= 1;
        let mut n = self.most.min(self.bytes.len()).min(buf.len());
        if self.cut > 0 {
            n = n.min(self.cut);
            self.cut -= n;
        }
        let (front, rest) = self.bytes.split_at(n);
        buf[..n].copy_from_slice(front);
        self.bytes = rest;
        Ok(n)
    }
}

impl Source for Pieces<'_> {
    ghost was_read = { λ _ _. Unit {0} };

    fn read_once(&mut self, buf: &mut [u8]) -> io::Result<usize> {
        self.read(buf)
    }
}

/// Takes some bytes a write at most, and fails after some writes.
#[derive(Drop)]
pub struct Taken {
    pub bytes: Vec<u8>,
    most: usize,
    writes: usize,
    failures: u64,
}

impl Taken {
    /// Takes all that it is given.
    pub fn whole(alloc: Global) -> Taken {
        Taken {
            bytes: Vec::new(alloc),
            most: usize::MAX,
            writes: usize::MAX,
            failures: 0,
        }
    }

    /// Takes one byte at a time, and fails after so many writes.
    pub fn failing_after(alloc: Global, writes: usize) -> Taken {
        Taken {
            bytes: Vec::new(alloc),
            most: 1,
            writes,
            failures: 0,
        }
    }
}

impl Device for Taken {
    ghost failure_count = { λ d. d.failures };

    fn failures(&self) -> u64 {
        self.failures
    }
}

impl Write for Taken {
    fn write(&mut self, buf: &[u8]) -> io::Result<usize> {
        if self.writes == 0 {
            self.failures = self.failures.saturating_add(1);
            return Ok(0);
        }
        self.writes -= 1;
        let (front, _) = buf.split_at(self.most.min(buf.len()));
        self.bytes.extend_from_slice(front)?;
        Ok(front.len())
    }

    fn flush(&mut self) -> io::Result<()> {
        Ok(())
    }
}

impl Sink for Taken {
    ghost was_written = { λ _ _. Unit {0} };

    fn write_once(&mut self, buf: &[u8]) -> io::Result<usize> {
        self.write(buf)
    }
}
