//! Notes of a tenant's records, and a writer that commits them.

ghost use Rattle.std.specs.Prelude.{◌<◌};

use crate::journals::{COMMITS, LOG, enter, opening, start_of};
use book_journal::{CommitFault, LogWriter, Notes};
use book_log::write_base;
use line_log::{Log, LogError, Memory, whole_lines};
use std::alloc::Global;
use std::process::Abort;
use std::test::Fail;
use tenant_core::{Book, Period};
use test_texts::books::period_of_each;

// What the records of `period_of_each` are written as.
const PERIOD: &str =
    "0 0 0 1893456000000 prepare 0 1000 1893456030000 66687aadf862bd776c8fc18b8e9f8e20089714856ee233b3902a591d0d5f2925 g.acme.bob.x = forward 0 1 1500 1893456029000
0 0 1 1893456000001 reject 0 = relay
0 0 2 1893456000001 tick = 0
0 0 3 1893456000001 route remove g.acme.bob
0 0 4 1893456000001 roll
";

// A writer of a file of so many zeros, of which so many calls succeed, with the sum of the base of the run.
fn writer(alloc: Global, size: usize, calls: usize) -> Result<LogWriter<Memory>, Fail>
    requires { 0 < size }
{
    let start = start_of(alloc)?;
    let (_, sum) = write_base(alloc, &start)?;
    let file = Memory::new(alloc, vec![in alloc; 0; size]?, calls);
    Ok(LogWriter::new(Log::blank(file, size), sum))
}

// Takes what is noted and commits it, if a commit ends after the record of that number.
fn commit_after(
    notes: &mut Notes,
    lines: &mut Vec<u8>,
    writer: &mut LogWriter<Memory>,
    number: u64,
) -> Result<(), CommitFault> {
    if COMMITS.contains(&number) {
        notes.take(lines)?;
        writer.commit(lines)?;
    }
    Ok(())
}

// Does all of the run, notes it, and commits it after some records.
fn note_each(
    alloc: Global,
    notes: &mut Notes,
    writer: &mut LogWriter<Memory>,
    book: &mut Book,
) -> Result<Result<(), CommitFault>, Fail> {
    let mut lines = Vec::new(alloc);
    for number in 0..7 {
        enter(alloc, book, number)?;
        notes.note(book)?;
        if let Err(fault) = commit_after(notes, &mut lines, writer, number) {
            return Ok(Err(fault));
        }
    }
    Ok(Ok(()))
}

// The same from its beginning.
fn note_run(
    alloc: Global,
    writer: &mut LogWriter<Memory>,
) -> Result<Result<(), CommitFault>, Fail> {
    let opening = opening(alloc)?;
    let mut notes = Notes::new(alloc, &opening);
    match Book::reopened(alloc, opening) {
        Ok(mut book) => note_each(alloc, &mut notes, writer, &mut book),
        Err(_) => Err(Fail::from("a book")),
    }
}

#[test]
fn taken_notes_are_committed(rt: HostRuntime) -> Result<(), Fail> {
    let mut writer = writer(rt.alloc(), 2_048, 6)?;
    assert!(rt; note_run(rt.alloc(), &mut writer)?.is_ok());
    assert!(rt; whole_lines(writer.log().file().bytes()) == LOG.as_bytes());
    Ok(())
}

#[test]
fn a_writer_that_fails(rt: HostRuntime) -> Result<(), Fail> {
    let alloc = rt.alloc();
    let mut failed = writer(alloc, 2_048, 3)?;
    let fault = note_run(alloc, &mut failed)?.err();
    assert!(rt; fault == Some(CommitFault::Log(LogError::Failed)));
    let mut lines = b"a line\n".to_vec(alloc)?;
    assert!(rt; failed.commit(&mut lines).err() == Some(CommitFault::Spoilt));
    let mut small = writer(alloc, 400, 6)?;
    let fault = note_run(alloc, &mut small)?.err();
    assert!(rt; fault == Some(CommitFault::Log(LogError::Full)));
    Ok(())
}

// The place of the first record without a line, as the tenant, the period and the number.
fn place_in(notes: &Notes) -> (usize, u64, u64) {
    let place = notes.place();
    (place.tenant, place.period, place.number)
}

fn expect_noted(rt: &impl Abort, alloc: Global, period: &Period) -> Result<(), Fail> {
    let mut notes = Notes::new(alloc, period.opening());
    assert!(rt; place_in(&notes) == (0, 0, 0));
    notes.note_closed(period)?;
    assert!(rt; place_in(&notes) == (0, 0, 5));
    assert!(rt; !notes.is_spoilt());
    let mut lines = b"before\n".to_vec(alloc)?;
    notes.take(&mut lines)?;
    // A second time there are none.
    notes.note_closed(period)?;
    notes.take(&mut lines)?;
    assert!(rt; lines.strip_prefix(b"before\n") == Some(PERIOD.as_bytes()));
    Ok(())
}

#[test]
fn a_closed_period_is_noted_once(rt: HostRuntime) -> Result<(), Fail> {
    let period = period_of_each(rt.alloc())?;
    expect_noted(&rt, rt.alloc(), &period)
}
