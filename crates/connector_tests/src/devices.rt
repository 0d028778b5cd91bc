//! Replays over devices that give and take one byte at a time. Each read and each write fails in turn. Also over a
//! device that keeps the longest write.

use oer_core::Device;
use replay_text::{PeriodKeeper, ReplayFault, ScriptFault, replay, replay_keeping};
use std::alloc::Global;
use std::io;
use std::io::{ErrorKind, Read, Write};
use std::process::Abort;
use std::test::Fail;
use tenant_core::Period;
use test_texts::{filled, setup_with};

/// Gives one byte at a time, and fails once, after so many reads. The reads after that go on.
#[derive(Drop)]
struct Dripping<'a> {
    bytes: &'a [u8],
    fails_at: usize,
    reads: usize,
    failures: u64,
}

impl Device for Dripping<'_> {
    ghost failure_count = { λ d. d.failures };

    fn failures(&self) -> u64 {
        self.failures
    }
}

impl Read for Dripping<'_> {
    fn read(&mut self, buf: &mut [u8]) -> io::Result<usize> {
        let number = self.reads;
        self.reads = number.saturating_add(1);
        if number == self.fails_at {
            self.failures = self.failures.saturating_add(1);
            return Err(io::Error::from(ErrorKind::ConnectionReset));
        }
        match (buf.first_mut(), self.bytes.split_first()) {
            (Some(place), Some((byte, rest))) => {
                *place = *byte;
                self.bytes = rest;
                Ok(1)
            }
            _ => Ok(0),
        }
    }
}

/// Takes one byte at a time, and fails once, after so many writes. The writes after that go on.
#[derive(Drop)]
struct Narrow {
    bytes: Vec<u8>,
    fails_at: usize,
    writes: usize,
    failures: u64,
}

impl Device for Narrow {
    ghost failure_count = { λ d. d.failures };

    fn failures(&self) -> u64 {
        self.failures
    }
}

impl Write for Narrow {
    fn write(&mut self, buf: &[u8]) -> io::Result<usize> {
        let number = self.writes;
        self.writes = number.saturating_add(1);
        if number == self.fails_at {
            self.failures = self.failures.saturating_add(1);
            return Ok(0);
        }
        match buf.first() {
            Some(byte) => {
                self.bytes.push(*byte)?;
                Ok(1)
            }
            None => Ok(0),
        }
    }

    fn flush(&mut self) -> io::Result<()> {
        Ok(())
    }
}

const SCRIPT: &str =
    "load 0 acme tok-alice {base}\ndecide 0 {T}\nanswer 0 {T} {fulfill}\ndo acme {T} roll\n";

const LINES: &str = "acme loaded 0\nacme send bob 0 {sent}\nacme reply {fulfill}\n\
    acme balance alice 1000 0 0\nacme balance bob -1500 0 0\nacme rolled 0 3\n";

// No read or write fails.
const NEVER: usize = usize::MAX;

/// The outcome of a replay over such devices: its fault, what was written, and how often the devices were asked.
#[derive(Drop)]
struct Come {
    fault: Option<ReplayFault>,
    written: Vec<u8>,
    reads: usize,
    writes: usize,
}

// The replay of a script of which one read and one write fail, if it gets that far.
fn replayed(
    alloc: Global,
    setup: &str,
    script: &str,
    fails_read: usize,
    fails_write: usize,
) -> Come {
    let mut reader = Dripping {
        bytes: script.as_bytes(),
        fails_at: fails_read,
        reads: 0,
        failures: 0,
    };
    let mut writer = Narrow {
        bytes: Vec::new(alloc),
        fails_at: fails_write,
        writes: 0,
        failures: 0,
    };
    let answer = replay(alloc, setup.as_bytes(), 1, &mut reader, &mut writer);
    Come {
        fault: answer.err(),
        written: writer.bytes,
        reads: reader.reads,
        writes: writer.writes,
    }
}

// The read of that number fails: nothing is written, and nothing is read or written after it.
fn expect_failed_read(rt: &impl Abort, alloc: Global, setup: &str, script: &str, number: usize) {
    let come = replayed(alloc, setup, script, number, NEVER);
    let is_told = come.fault == Some(ReplayFault::Device) && come.written.is_empty();
    let reads = number.saturating_add(1);
    assert!(rt;
        is_told && come.reads == reads && come.writes == 0,
        "{number}"
    );
}

// The write of that number fails: what was taken before it stays, and nothing is written after it.
fn expect_failed_write(
    rt: &impl Abort,
    alloc: Global,
    setup: &str,
    script: &str,
    lines: &[u8],
    number: usize,
) -> Result<(), Fail> {
    let come = replayed(alloc, setup, script, NEVER, number);
    let front = lines.get(..number).ok_or("a front")?;
    let is_told = come.fault == Some(ReplayFault::Device) && come.written.as_slice() == front;
    let writes = number.saturating_add(1);
    assert!(rt; is_told && come.writes == writes, "{number}");
    Ok(())
}

fn expect_failures(
    rt: &impl Abort,
    alloc: Global,
    setup: &str,
    script: &str,
    lines: &[u8],
) -> Result<(), Fail> {
    // The last read is the one that finds the end.
    for number in 0..script.len().saturating_add(1) {
        expect_failed_read(rt, alloc, setup, script, number);
    }
    for number in 0..lines.len() {
        expect_failed_write(rt, alloc, setup, script, lines, number)?;
    }
    let come = replayed(alloc, setup, script, NEVER, NEVER);
    assert!(rt; come.fault.is_none() && come.written.as_slice() == lines);
    Ok(())
}

#[test]
fn each_read_and_each_write_fails_in_turn(rt: HostRuntime) -> Result<(), Fail> {
    let alloc = rt.alloc();
    let setup = setup_with(alloc, &[])?;
    let script = filled(alloc, SCRIPT)?;
    let lines = filled(alloc, LINES)?;
    expect_failures(
        &rt,
        alloc,
        setup.as_str(),
        script.as_str(),
        lines.as_bytes(),
    )?;
    // Memory is a device that never fails.
    assert!(rt; script.as_bytes().failures() == 0);
    let memory: Vec<u8> = Vec::new(alloc);
    assert!(rt; memory.failures() == 0);
    Ok(())
}

/// Takes all that it is given, and keeps how many bytes came at once at most, and in all.
#[derive(Drop)]
struct Wide {
    most: usize,
    all: usize,
}

impl Device for Wide {
    ghost failure_count = { λ _. 0 };

    fn failures(&self) -> u64 {
        0
    }
}

impl Write for Wide {
    fn write(&mut self, buf: &[u8]) -> io::Result<usize> {
        self.most = self.most.max(buf.len());
        self.all = self.all.saturating_add(buf.len());
        Ok(buf.len())
    }

    fn flush(&mut self) -> io::Result<()> {
        Ok(())
    }
}

/// Keeps nothing of any period.
#[derive(Drop)]
struct LetGo;

impl PeriodKeeper for LetGo {
    ghost takes = { λ _ _ _. Unit {0} };

    fn take(&mut self, _period: &Period) {}
}

// 20,000 steps, each of which prints `- idle`, seven bytes with the line feed; and a last line.
fn idle_steps(alloc: Global, last: &str) -> Result<String, Fail> {
    let mut script = filled(alloc, "decide 0 {T}\n")?
        .as_str()
        .repeat(alloc, 20_000)?;
    script.push_str(last)?;
    Ok(script)
}

// With a keeper of periods, lines are written once there are 65,536 bytes of them. So at most the lines of one step are
// added to these in memory.
#[test]
fn lines_are_written_before_the_end(rt: HostRuntime) -> Result<(), Fail> {
    let alloc = rt.alloc();
    let setup = setup_with(alloc, &[])?;
    let script = idle_steps(alloc, "")?;
    let mut reader = script.as_bytes();
    let mut writer = Wide { most: 0, all: 0 };
    let answer = replay_keeping(
        alloc,
        setup.as_bytes(),
        1,
        &mut reader,
        &mut LetGo,
        &mut writer,
    );
    assert!(rt; answer.is_ok() && writer.all == 140_000, "{}", writer.all);
    assert!(rt; writer.most < 65_536 + 7, "{}", writer.most);
    Ok(())
}

// Lines are held as long as a bad one may come.
#[test]
fn nothing_is_written_before_a_bad_line(rt: HostRuntime) -> Result<(), Fail> {
    let alloc = rt.alloc();
    let setup = setup_with(alloc, &[])?;
    let script = idle_steps(alloc, "decide\n")?;
    let mut reader = script.as_bytes();
    let mut writer = Wide { most: 0, all: 0 };
    let answer = replay(alloc, setup.as_bytes(), 1, &mut reader, &mut writer);
    assert!(rt; answer == Err(ReplayFault::Script(ScriptFault::Line(20_001))));
    assert!(rt; writer.all == 0, "{}", writer.all);
    Ok(())
}
