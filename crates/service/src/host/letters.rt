//! Answers that have not left: each leaves as fast as its connection takes it, and no other waits for it.

ghost use Rattle.std.specs.Prelude.{◌≡◌, None};
ghost use Rattle.std.specs.Io.{WritesAtMost};
ghost use Rattle.std.specs.Io.KnownBytes.{WriteAppends};
ghost use Rattle.oer_core.specs.Devices.{count_after, takes_nothing};

use crate::connection::timed::{is_pause, millis_of};
use crate::host::callers::Answering;
use http_link::Sink;
use oer_core::Device;
use std::alloc::{AllocError, Global};
use std::io;
use std::io::{Error, ErrorKind, Read, Write};
use std::net::{Shutdown, TcpStream};
use std::time::Instant;

/// How many answers leave side by side at most: one more takes the place of the one that came first.
pub const MAX_LETTERS: usize = 6;

/// For how many milliseconds an answer waits at most until it may leave, and then has to leave in all.
const PATIENCE: u64 = 30_000;

/// For how many milliseconds its connection may take nothing of it.
const STALL: u64 = 5_000;

/// For how many milliseconds a connection whose answer has left is kept, so that what its client still sends does not end it.
const FAREWELL: u64 = 500;

/// How often in a row a connection is offered bytes.
const MAX_WRITES: usize = 8;

/// As many bytes as are thrown away at once.
const SINK: usize = 4_096;

/// A period of a tenant among those whose statements wait to be written.
#[derive(Clone, Copy, Debug, PartialEq, Eq)]
pub struct Filed {
    pub tenant: usize,
    pub ticket: u64,
}

/// The text of an answer, which counts what failed as a device does. It may wait until a statement is written.
#[derive(Drop)]
pub struct Letter {
    text: Vec<u8>,
    failures: u64,
    pub after: Option<Filed>,
}

impl Letter {
    /// A letter without a text.
    pub fn new(alloc: Global) -> Letter {
        Letter {
            text: Vec::new(alloc),
            failures: 0,
            after: None,
        }
    }
}

impl Device for Letter {
    ghost failure_count = { λ letter. letter.failures };

    fn failures(&self) -> u64 {
        self.failures
    }
}

impl Write for Letter {
    fn write(&mut self, buf: &[u8]) -> io::Result<usize>
        ensures bound { WritesAtMost result buf.now }
        ensures bytes { WriteAppends None None result buf.now }
        // Only running out of memory is counted.
        ensures counted { self.new.failures ≡ count_after (takes_nothing result buf.now) self.old.failures }
    {
        match self.text.extend_from_slice(buf) {
            Ok(()) => Ok(buf.len()),
            Err(AllocError) => {
                self.failures = self.failures.saturating_add(1);
                Err(Error::from(ErrorKind::OutOfMemory))
            }
        }
    }

    fn flush(&mut self) -> io::Result<()> {
        Ok(())
    }
}

impl Sink for Letter {
    // No field counts the writes.
    ghost was_written = { λ _ _. Unit {0} };

    fn write_once(&mut self, buf: &[u8]) -> io::Result<usize> {
        self.write(buf)
    }
}

/// An answer on its way, of which so many bytes have left.
#[derive(Drop)]
struct Leaving {
    stream: TcpStream,
    letter: Letter,
    sent: usize,
    // Whether its client has waited for the end of the service.
    is_bound: bool,
    since: Instant,
    // When the connection last took some of it; at first, when it first could.
    moved: Option<Instant>,
    // Since when all of it has left.
    done: Option<Instant>,
}

impl Leaving {
    fn is_sent(&self) -> bool {
        self.done.is_some()
    }

    // Sends what the connection takes. `false` if it takes nothing any more.
    fn send(&mut self) -> bool {
        let mut stream = &self.stream;
        for _ in 0..MAX_WRITES {
            let Some(rest) = self.letter.text.as_slice().get(self.sent..) else {
                return false;
            };
            if rest.is_empty() {
                return true;
            }
            match stream.write(rest) {
                Ok(0) => return false,
                Ok(n) => self.sent = self.sent.saturating_add(n),
                Err(error) => return is_pause(&error),
            }
        }
        true
    }

    // Throws away what the client still sends. `false` if it has ended the connection.
    fn drain(&self) -> bool {
        let mut stream = &self.stream;
        let mut room = [0u8; SINK];
        match stream.read(&mut room) {
            Ok(n) => n > 0,
            Err(error) => is_pause(&error),
        }
    }

    // For how many milliseconds it has been on its way.
    fn waited(&self, now: Instant) -> u64 {
        millis_of(now.saturating_duration_since(self.since))
    }

    // Whether the connection may still take it: for a minute in all, and the answer to a stop as long as it takes some of it.
    fn has_time(&self, now: Instant) -> bool {
        let stalled = match self.moved {
            Some(moved) => millis_of(now.saturating_duration_since(moved)),
            None => 0,
        };
        stalled < STALL && (self.is_bound || self.waited(now) < 2 * PATIENCE)
    }

    // Sends on, and says whether it stays.
    fn sends_on(&mut self, now: Instant) -> bool {
        let before = self.sent;
        if !self.send() {
            return false;
        }
        if self.sent > before || self.moved.is_none() {
            self.moved = Some(now);
        }
        if self.sent >= self.letter.text.len() {
            let _ = self.stream.shutdown(Shutdown::Write);
            self.done = Some(now);
        }
        self.is_sent() || self.has_time(now)
    }

    // Goes on with it, and says whether it stays. One that may not leave yet waits for half a minute at most.
    fn goes_on(&mut self, now: Instant, may_leave: bool) -> bool {
        if let Some(done) = self.done {
            return millis_of(now.saturating_duration_since(done)) < FAREWELL && self.drain();
        }
        if !may_leave && self.waited(now) < PATIENCE {
            return true;
        }
        self.sends_on(now)
    }
}

/// The answers on their way at a door.
#[derive(Drop)]
pub struct Letters {
    leaving: Vec<Leaving>,
}

impl Letters {
    /// None, with room for as many as may be on their way.
    pub fn new(alloc: Global) -> Result<Letters, AllocError> {
        Ok(Letters {
            leaving: Vec::with_capacity(alloc, MAX_LETTERS)?,
        })
    }

    // Gives up the first that has left, or else the first that nobody waited for until the end, or else the first.
    fn give_up_one(&mut self) {
        let leaving = self.leaving.as_slice();
        let sent = leaving.iter().position(|leaving| leaving.is_sent());
        let free = leaving.iter().position(|leaving| !leaving.is_bound);
        let at = sent.or(free).unwrap_or(0);
        if at < self.leaving.len() {
            let _ = self.leaving.remove(at);
        }
    }

    /// Lets an answer leave.
    pub fn admit(&mut self, stream: TcpStream, letter: Letter, is_bound: bool, now: Instant) {
        if self.leaving.len() >= MAX_LETTERS {
            self.give_up_one();
        }
        // There is room for one more.
        let _ = self.leaving.push(Leaving {
            stream,
            letter,
            sent: 0,
            is_bound,
            since: now,
            moved: None,
            done: None,
        });
    }

    // Goes on with the answer at a place, and says whether it stays.
    fn goes_on_at<K: Answering>(&mut self, at: usize, now: Instant, answering: &K) -> bool {
        let Some(leaving) = self.leaving.get_mut(at) else {
            return true;
        };
        let may_leave = answering.may_leave(&leaving.letter);
        leaving.goes_on(now, may_leave)
    }

    /// Sends what may leave and is taken. Those that have left, or take nothing any more, are ended.
    pub fn send_all<K: Answering>(&mut self, now: Instant, answering: &K) {
        let mut at = 0;
        for _ in 0..MAX_LETTERS {
            if at >= self.leaving.len() {
                return;
            }
            if self.goes_on_at(at, now, answering) {
                at += 1;
            } else if at < self.leaving.len() {
                let _ = self.leaving.remove(at);
            }
        }
    }

    /// Whether one has not left whose client has waited for the end of the service.
    pub fn has_bound(&self) -> bool {
        self.leaving
            .as_slice()
            .iter()
            .any(|leaving| leaving.is_bound && !leaving.is_sent())
    }

    /// Whether one has not left.
    pub fn has_unsent(&self) -> bool {
        self.leaving
            .as_slice()
            .iter()
            .any(|leaving| !leaving.is_sent())
    }
}
