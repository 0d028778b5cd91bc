//! Connections whose reads and writes end in time.

ghost use Rattle.std.specs.Prelude.{◌≡◌, ◌++◌, None, is_err, length};
ghost use Rattle.std.specs.Io.{ReadsAtMost, WritesAtMost};
ghost use Rattle.std.specs.Io.KnownBytes.{ReadConsumes, WriteAppends};
ghost use Rattle.oer_core.specs.Devices.{count_after, takes_nothing};

use crate::connection::door::Door;
use crate::connection::pace::{Activity, Rush, SLICE, wait_of};
use http_link::{Sink, Source};
use oer_core::Device;
use std::io;
use std::io::{Error, ErrorKind, IoSlice, Read, Write};
use std::net::TcpStream;
use std::sync::Wait;
use std::time::{Clock, Duration, Instant};

/// For how long something was done, and for how much of that the service was to stop.
#[derive(Clone, Copy)]
struct Spent {
    all: Duration,
    stopping: Duration,
}

const NO_TIME: Spent = Spent {
    all: Duration::ZERO,
    stopping: Duration::ZERO,
};

/// How long the reads or writes of one side may take.
#[derive(Clone, Copy)]
enum Limit<'a> {
    /// Until a moment.
    Until(Instant),
    /// So long in all.
    Within(Duration),
    /// As long as that may be done by a connection that came through the door, which has done it for so long.
    Paced(&'a Door, Activity, Spent),
}

// A connection, and how long reading or writing it may take.
#[derive(Drop)]
struct Side<'a, H> {
    stream: &'a TcpStream,
    clock: &'a H,
    limit: Limit<'a>,
    // How long a read and a write wait, as it was last set; zero if it was not.
    read_wait: Duration,
    write_wait: Duration,
}

impl<H: Clock> Side<'_, H> {
    // What there is to hurry for.
    fn rush(&self) -> Rush {
        match self.limit {
            Limit::Paced(door, _, _) => door.rush(self.clock),
            Limit::Until(_) | Limit::Within(_) => Rush::Calm,
        }
    }

    // How long a read or a write may wait in such a hurry: as long as time is left, a slice at most.
    fn wait(&self, rush: Rush) -> io::Result<Duration> {
        let left = match self.limit {
            Limit::Until(end) => end.saturating_duration_since(Instant::now(self.clock)?),
            Limit::Within(left) => left,
            Limit::Paced(_, activity, spent) => paced_wait(activity, rush, spent),
        };
        if left.is_zero() {
            return Err(Error::from(ErrorKind::TimedOut));
        }
        Ok(left.min(longest_wait()))
    }

    // Takes off so much time, which went by in such a hurry.
    fn spend(&mut self, gone: Duration, rush: Rush) {
        self.limit = match self.limit {
            Limit::Until(end) => Limit::Until(end),
            Limit::Within(left) => Limit::Within(left.saturating_sub(gone)),
            Limit::Paced(door, activity, spent) => {
                Limit::Paced(door, activity, spent_also(spent, gone, rush))
            }
        };
    }

    fn set_read_wait(&mut self, wait: Duration) -> io::Result<()> {
        if self.read_wait != wait {
            self.stream.set_read_timeout(Some(wait))?;
            self.read_wait = wait;
        }
        Ok(())
    }

    fn set_write_wait(&mut self, wait: Duration) -> io::Result<()> {
        if self.write_wait != wait {
            self.stream.set_write_timeout(Some(wait))?;
            self.write_wait = wait;
        }
        Ok(())
    }

    // When it is, if the time from then on must be measured.
    fn begun(&self, is_measured: bool) -> io::Result<Option<Instant>> {
        if is_measured {
            Ok(Some(Instant::now(self.clock)?))
        } else {
            Ok(None)
        }
    }

    // Takes off the time since then. What was not measured took its whole wait if it ended with that, and else no time.
    fn settle(
        &mut self,
        begun: Option<Instant>,
        is_waited_out: bool,
        wait: Duration,
        rush: Rush,
    ) -> io::Result<()> {
        match begun {
            Some(begun) => {
                let gone = Instant::now(self.clock)?.saturating_duration_since(begun);
                self.spend(gone, rush);
            }
            None if is_waited_out => self.spend(wait, rush),
            None => {}
        }
        Ok(())
    }

    // Reads once.
    fn read_once(&mut self, buf: &mut [u8], is_measured: bool) -> io::Result<usize>
        ensures bound { ReadsAtMost result buf.new }
        ensures len { length buf.new ≡ length buf.old }
    {
        let rush = self.rush();
        let wait = self.wait(rush)?;
        self.set_read_wait(wait)?;
        let begun = self.begun(is_measured)?;
        let mut stream = self.stream;
        let result = stream.read(buf);
        self.settle(begun, result.is_err(), wait, rush)?;
        result
    }

    // Writes once from two texts, one after the other. If the second is empty, that is a plain write.
    fn write_once(&mut self, first: &[u8], second: &[u8], is_measured: bool) -> io::Result<usize>
        ensures { WritesAtMost result (first.now ++ second.now) }
    {
        let rush = self.rush();
        let wait = self.wait(rush)?;
        self.set_write_wait(wait)?;
        let begun = self.begun(is_measured)?;
        let mut stream = self.stream;
        let result = if second.is_empty() {
            stream.write(first)
        } else {
            stream.write_vectored(&[IoSlice::new(first), IoSlice::new(second)])
        };
        self.settle(begun, !is_whole(&result, first, second), wait, rush)?;
        result
    }
}

// How long a read or write waits at most before it looks whether it may go on.
fn longest_wait() -> Duration {
    Duration::from_millis(SLICE)
}

// How long a connection that has spent that may wait.
fn paced_wait(activity: Activity, rush: Rush, spent: Spent) -> Duration {
    let (all, stopping) = (millis_of(spent.all), millis_of(spent.stopping));
    match wait_of(activity, rush, all, stopping) {
        SLICE => longest_wait(),
        millis => Duration::from_millis(millis),
    }
}

// Whether a write took all of two texts.
fn is_whole(written: &io::Result<usize>, first: &[u8], second: &[u8]) -> bool {
    matches!(written, Ok(n) if n.checked_sub(first.len()) == Some(second.len()))
}

// What was spent once some time more has gone by in such a hurry.
fn spent_also(spent: Spent, gone: Duration, rush: Rush) -> Spent {
    Spent {
        all: spent.all.saturating_add(gone),
        stopping: match rush {
            Rush::Stopping => spent.stopping.saturating_add(gone),
            Rush::Calm | Rush::Crowded => spent.stopping,
        },
    }
}

/// A time in milliseconds, as far as they can be counted.
pub fn millis_of(time: Duration) -> u64 {
    if time.is_zero() {
        return 0;
    }
    time.as_millis().min(u128::from(u64::MAX)) as u64
}

/// Whether it says only that nothing has come or gone yet.
pub fn is_pause(error: &Error) -> bool {
    match error.kind() {
        ErrorKind::WouldBlock | ErrorKind::Interrupted => true,
        _ => false,
    }
}

impl<H: Wait + Clock> Side<'_, H> {
    // Whether each read is measured. Until a moment none has to be, nor what ends the wait for a request.
    fn measures_reads(&self) -> bool {
        match self.limit {
            Limit::Until(_) | Limit::Paced(_, Activity::Idle, _) => false,
            Limit::Within(_) | Limit::Paced(_, Activity::First | Activity::Busy, _) => true,
        }
    }

    // Reads what comes in time. After a pause it is measured, since a wait may be longer than it was set.
    fn receive(&mut self, buf: &mut [u8]) -> io::Result<usize>
        ensures bound { ReadsAtMost result buf.new }
        ensures len { length buf.new ≡ length buf.old }
    {
        let clock = self.clock;
        let mut is_measured = self.measures_reads();
        for _ in clock.forever() {
            match self.read_once(buf, is_measured) {
                Err(error) if is_pause(&error) => is_measured = true,
                result => return result,
            }
        }
        unreachable!()
    }

    // Writes what can be written of two texts in time. A write that takes all at once is not measured. One that takes
    // less took its whole wait.
    fn send(&mut self, first: &[u8], second: &[u8]) -> io::Result<usize>
        ensures { WritesAtMost result (first.now ++ second.now) }
    {
        let clock = self.clock;
        let mut is_measured = false;
        for _ in clock.forever() {
            match self.write_once(first, second, is_measured) {
                Err(error) if is_pause(&error) => is_measured = true,
                result => return result,
            }
        }
        unreachable!()
    }
}

/// A side of a connection that has only so long for what it does.
pub trait Paced: Source + Sink {
    /// It does that from now on, and has spent no time on it yet; but a first request goes on with the time that was spent. If
    /// `is_sparing`, it reads a byte at a time, so that it takes no byte that comes after what is read.
    fn begin(&mut self, activity: Activity, is_sparing: bool)
        ensures reads { Self.remaining self.new ≡ Self.remaining self.old }
        ensures writes { Self.contents self.new ≡ Self.contents self.old }
        ensures counted { Self.failure_count self.new ≡ Self.failure_count self.old };
}

/// One side of a connection, whose reads and writes fail once their time is over. It counts what failed.
#[derive(Drop)]
pub struct Timed<'a, H> {
    side: Side<'a, H>,
    failures: u64,
    has_read: bool,
    is_sparing: bool,
}

impl<'a, H: Clock> Timed<'a, H> {
    fn new(stream: &'a TcpStream, clock: &'a H, limit: Limit<'a>) -> Timed<'a, H> {
        Timed {
            side: Side {
                stream,
                clock,
                limit,
                read_wait: Duration::ZERO,
                write_wait: Duration::ZERO,
            },
            failures: 0,
            has_read: false,
            is_sparing: false,
        }
    }

    /// A side of the connection, whose reads and writes fail from that moment of the clock on.
    pub fn until(stream: &'a TcpStream, clock: &'a H, end: Instant) -> Timed<'a, H> {
        Timed::new(stream, clock, Limit::Until(end))
    }

    /// A side of the connection, whose reads and writes fail once they have taken so long in all.
    pub fn within(stream: &'a TcpStream, clock: &'a H, time: Duration) -> Timed<'a, H> {
        Timed::new(stream, clock, Limit::Within(time))
    }

    /// A side of a connection that came through the door, and is idle.
    pub fn through(door: &'a Door, stream: &'a TcpStream, clock: &'a H) -> Timed<'a, H> {
        Timed::new(stream, clock, Limit::Paced(door, Activity::Idle, NO_TIME))
    }
}

impl<H> Timed<'_, H> {
    /// Whether any byte was read.
    pub fn has_read(&self) -> bool {
        self.has_read
    }

    fn count(&mut self, failed: bool)
        ensures { self.new.failures ≡ count_after failed self.old.failures }
    {
        if failed {
            self.failures = self.failures.saturating_add(1);
        }
    }
}

impl<H: Wait + Clock> Timed<'_, H> {
    // Writes once from two texts, one after the other. An error is counted, and so is a write of some bytes
    // that takes none.
    fn write_counted(&mut self, first: &[u8], second: &[u8]) -> io::Result<usize>
        ensures bound { WritesAtMost result (first.now ++ second.now) }
        ensures counted { self.new.failures ≡ count_after (takes_nothing result (first.now ++ second.now)) self.old.failures }
    {
        let result = self.side.send(first, second);
        let is_empty = first.is_empty() && second.is_empty();
        self.count(match &result {
            Ok(taken) => *taken == 0 && !is_empty,
            Err(_) => true,
        });
        result
    }
}

impl<H: Wait + Clock> Paced for Timed<'_, H> {
    fn begin(&mut self, activity: Activity, is_sparing: bool) {
        if let Limit::Paced(door, _, spent) = self.side.limit {
            let spent = match activity {
                Activity::First => spent,
                Activity::Idle | Activity::Busy => NO_TIME,
            };
            self.side.limit = Limit::Paced(door, activity, spent);
        }
        self.is_sparing = is_sparing;
    }
}

impl<H> Device for Timed<'_, H> {
    ghost failure_count = { λ t. t.failures };

    fn failures(&self) -> u64 {
        self.failures
    }
}

impl<H: Wait + Clock> Read for Timed<'_, H> {
    fn read(&mut self, buf: &mut [u8]) -> io::Result<usize>
        ensures bound { ReadsAtMost result buf.new }
        ensures bytes { ReadConsumes None None result buf.new }
        // Only an error is counted.
        ensures counted { self.new.failures ≡ count_after (is_err result) self.old.failures }
    {
        let most = if self.is_sparing {
            buf.len().min(1)
        } else {
            buf.len()
        };
        let result = self.side.receive(&mut buf[..most]);
        self.has_read |= matches!(result, Ok(n) if n > 0);
        self.count(result.is_err());
        result
    }
}

impl<H: Wait + Clock> Write for Timed<'_, H> {
    fn write(&mut self, buf: &[u8]) -> io::Result<usize>
        ensures bound { WritesAtMost result buf.now }
        ensures bytes { WriteAppends None None result buf.now }
        // An error is counted, and so is a write of some bytes that takes none. Nothing else is counted.
        ensures counted { self.new.failures ≡ count_after (takes_nothing result buf.now) self.old.failures }
    {
        self.write_counted(buf, &[])
    }

    fn flush(&mut self) -> io::Result<()> {
        Ok(())
    }
}

impl<H: Wait + Clock> Source for Timed<'_, H> {
    // No field counts the reads.
    ghost was_read = { λ _ _. Unit {0} };

    fn read_once(&mut self, buf: &mut [u8]) -> io::Result<usize> {
        self.read(buf)
    }
}

impl<H: Wait + Clock> Sink for Timed<'_, H> {
    // No field counts the writes.
    ghost was_written = { λ _ _. Unit {0} };

    fn write_once(&mut self, buf: &[u8]) -> io::Result<usize> {
        self.write(buf)
    }

    fn write_both(&mut self, first: &[u8], second: &[u8]) -> io::Result<usize>
        ensures bound { WritesAtMost result (first.now ++ second.now) }
        ensures bytes { WriteAppends None None result (first.now ++ second.now) }
        // It counts as `write` does.
        ensures failures { self.new.failures ≡ count_after (takes_nothing result (first.now ++ second.now)) self.old.failures }
    {
        self.write_counted(first, second)
    }
}
