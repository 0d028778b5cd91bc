//! Rows of replays, as texts. A row begins with `== ` and its title. These lines follow it:
//!
//! - lines that change the usual setup, as `| bob|cap|1499` (whose line it is, its key and the value; `| beta` adds
//!   the second tenant);
//! - the lines of its script, as `> decide 0 {T}`;
//! - the lines that the script prints.
//!
//! Frames, replies and moments are named in braces.
//!
//! A packet that one worker loads and decides has a line of its own, as `>> alice|{base}|{T}|send bob 0 {sent}`: whose
//! it is, its frame, the moment, and the printed decision. It means `load` and `decide` and the two lines that these
//! print.

ghost use Rattle.std.specs.Prelude.{◌≤◌};

use replay_text::{ReplayFault, replay};
use std::alloc::Global;
use std::process::Abort;
use std::str;
use std::test::Fail;
use test_texts::{Line, PEER, RATE, ROUTE, TENANT, filled_in, put, setup_in};

/// What a replay of the script writes, for the setup and one worker.
pub fn written(alloc: Global, setup: &str, script: &str) -> Result<Vec<u8>, ReplayFault> {
    written_by(alloc, setup, 1, script)
}

/// What a replay of the script writes, for the setup and so many workers.
pub fn written_by(
    alloc: Global,
    setup: &str,
    workers: usize,
    script: &str,
) -> Result<Vec<u8>, ReplayFault>
    requires { (1 ≤ workers) × (workers ≤ 64) }
{
    let mut reader = script.as_bytes();
    let mut text = Vec::new(alloc);
    replay(alloc, setup.as_bytes(), workers, &mut reader, &mut text)?;
    Ok(text)
}

/// Each row prints its lines.
pub fn expect_rows(rt: &impl Abort, alloc: Global, rows: &'static str) -> Result<(), Fail> {
    expect_rows_by(rt, alloc, 1, rows)
}

/// Each row prints its lines, with so many workers.
pub fn expect_rows_by(
    rt: &impl Abort,
    alloc: Global,
    workers: usize,
    rows: &'static str,
) -> Result<(), Fail>
    requires { (1 ≤ workers) × (workers ≤ 64) }
{
    assert!(rt; rows.starts_with("== "));
    for row in rows.split("== ").skip(1) {
        expect_row(rt, alloc, workers, row)?;
    }
    Ok(())
}

fn title_of(row: &'static str) -> &'static str {
    row.lines().next().unwrap_or("")
}

fn expect_row(rt: &impl Abort, alloc: Global, workers: usize, row: &'static str) -> Result<(), Fail>
    requires { (1 ≤ workers) × (workers ≤ 64) }
{
    let text = printed(alloc, workers, row)?;
    let lines = lines_of(alloc, row)?;
    let lines = filled_in(alloc, title_of(row), lines.as_str())?;
    expect_lines(rt, alloc, title_of(row), text.as_slice(), lines.as_str())
}

// The first line of one of the texts that the other has not at that place, and what it has there.
fn first_unlike<'a>(found: &'a str, wanted: &'a str) -> (&'a str, &'a str) {
    let mut lines = wanted.lines();
    for line in found.lines() {
        let other = lines.next().unwrap_or("nothing");
        if line != other {
            return (line, other);
        }
    }
    ("nothing", lines.next().unwrap_or("nothing"))
}

// Checks that a row printed these lines, and otherwise says where it did not.
fn expect_lines(
    rt: &impl Abort,
    alloc: Global,
    title: &str,
    text: &[u8],
    lines: &str,
) -> Result<(), Fail> {
    let (found, wanted) = first_unlike(str::from_utf8(text)?, lines);
    let mut said = String::from_str(alloc, title)?;
    put(&mut said, &[": printed ", found])?;
    put(&mut said, &[", and not ", wanted])?;
    assert!(rt; text == lines.as_bytes(), "{said}");
    Ok(())
}

// What the script of a row prints, by so many workers.
fn printed(alloc: Global, workers: usize, row: &'static str) -> Result<Vec<u8>, Fail>
    requires { (1 ≤ workers) × (workers ≤ 64) }
{
    let changes = changes_of(alloc, row)?;
    let setup = setup_in(alloc, title_of(row), &changes)?;
    let script = script_of(alloc, row)?;
    let script = filled_in(alloc, title_of(row), script.as_str())?;
    Ok(written_by(alloc, setup.as_str(), workers, script.as_str())?)
}

// The three parts of a change.
fn change_of(text: &'static str) -> Option<Line> {
    let mut parts = text.split('|');
    Some((parts.next()?, parts.next()?, parts.next()?))
}

// The tables of the second tenant.
static BETA: [Line; 5] = [
    ("beta", "", TENANT),
    ("beta alice", "", PEER),
    ("beta bob", "", PEER),
    ("beta route", "", ROUTE),
    ("beta rate", "", RATE),
];

fn put_change(changes: &mut Vec<Line>, change: &'static str) -> Result<(), Fail> {
    if change == "beta" {
        for table in BETA {
            changes.push(table)?;
        }
        return Ok(());
    }
    changes.push(change_of(change).ok_or("three parts")?)?;
    Ok(())
}

fn changes_of(alloc: Global, row: &'static str) -> Result<Vec<Line>, Fail> {
    let mut changes = Vec::new(alloc);
    for line in row.lines() {
        if let Some(change) = line.strip_prefix("| ") {
            put_change(&mut changes, change)?;
        }
    }
    Ok(changes)
}

// A packet that is loaded and decided.
#[derive(Clone, Copy)]
struct Packet<'a> {
    sender: &'a str,
    frame: &'a str,
    moment: &'a str,
    decision: &'a str,
}

fn packet_in(line: &str) -> Option<Packet<'_>> {
    let mut parts = line.strip_prefix(">> ")?.split('|');
    Some(Packet {
        sender: parts.next()?,
        frame: parts.next()?,
        moment: parts.next()?,
        decision: parts.next()?,
    })
}

fn put_steps(script: &mut String, packet: &Packet<'_>) -> Result<(), Fail> {
    put(
        script,
        &["load 0 acme tok-", packet.sender, " ", packet.frame, "\n"],
    )?;
    put(script, &["decide 0 ", packet.moment, "\n"])?;
    Ok(())
}

// The lines of a packet, before which the worker has loaded so many.
fn put_told(lines: &mut String, loaded: usize, packet: &Packet<'_>) -> Result<(), Fail> {
    let number = "0123456789"
        .get(loaded..loaded.saturating_add(1))
        .ok_or("ten packets at most")?;
    put(lines, &["acme loaded ", number, "\n"])?;
    put(lines, &["acme ", packet.decision, "\n"])?;
    Ok(())
}

fn script_of(alloc: Global, row: &str) -> Result<String, Fail> {
    let mut script = String::new(alloc);
    for line in row.lines() {
        if let Some(packet) = packet_in(line) {
            put_steps(&mut script, &packet)?;
        } else if let Some(step) = line.strip_prefix("> ") {
            put(&mut script, &[step, "\n"])?;
        }
    }
    Ok(script)
}

fn lines_of(alloc: Global, row: &str) -> Result<String, Fail> {
    let mut lines = String::new(alloc);
    let mut loaded: usize = 0;
    for line in row.lines().skip(1) {
        if let Some(packet) = packet_in(line) {
            put_told(&mut lines, loaded, &packet)?;
            loaded = loaded.saturating_add(1);
        } else if !line.starts_with("| ") && !line.starts_with("> ") {
            put(&mut lines, &[line, "\n"])?;
            loaded = loaded.saturating_add(usize::from(line.starts_with("acme loaded ")));
        }
    }
    Ok(lines)
}

/// A replay of the script prints these lines, for the setup and one worker.
pub fn expect_written(
    rt: &impl Abort,
    alloc: Global,
    setup: &str,
    script: &str,
    lines: &str,
) -> Result<(), Fail> {
    expect_written_by(rt, alloc, 1, setup, script, lines)
}

/// A replay of the script prints these lines, for the setup and so many workers.
pub fn expect_written_by(
    rt: &impl Abort,
    alloc: Global,
    workers: usize,
    setup: &str,
    script: &str,
    lines: &str,
) -> Result<(), Fail>
    requires { (1 ≤ workers) × (workers ≤ 64) }
{
    let text = written_by(alloc, setup, workers, script)?;
    expect_lines(rt, alloc, "a script", text.as_slice(), lines)
}
