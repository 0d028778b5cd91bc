//! A journal as text, written and read back, with each kind of entry.

use book_log::{
    LinePlace, Reopened, TenantStart, put_line, put_sum, read_base, reopen, write_base,
};
use line_log::next_sum;
use std::alloc::Global;
use std::process::Abort;
use std::test::Fail;
use tenant_core::{Opening, Period};
use test_texts::books::{period_of_each, token};

fn starts_of(alloc: Global, opening: &Opening) -> Result<Vec<TenantStart>, Fail> {
    let mut starts = Vec::new(alloc);
    starts.push(TenantStart {
        opening: opening.copy(alloc)?,
        admin: token(b"admin-token")?,
    })?;
    Ok(starts)
}

fn log_of(alloc: Global, period: &Period, sum: &[u8; 32]) -> Result<Vec<u8>, Fail> {
    let mut log = Vec::new(alloc);
    let journal = period.records().journal();
    for place in 0..journal.len() {
        let record = journal.get(place).ok_or("a record")?;
        let at = LinePlace {
            tenant: 0,
            period: period.number(),
            number: place as u64,
        };
        put_line(&mut log, at, &record)?;
    }
    let next = next_sum(sum, &log);
    put_sum(&mut log, &next)?;
    Ok(log)
}

// The tenants that a base says, and its sum.
fn read(alloc: Global, base: &[u8]) -> Result<(Vec<TenantStart>, [u8; 32]), Fail> {
    match read_base(alloc, base) {
        Ok(read) => Ok(read),
        Err(_) => Err(Fail::from("a base")),
    }
}

fn expect_base(rt: &impl Abort, alloc: Global, opening: &Opening) -> Result<(), Fail> {
    let starts = starts_of(alloc, opening)?;
    let (base, sum) = write_base(alloc, &starts)?;
    let (found, again) = read(alloc, &base)?;
    let first = found.as_slice().first().ok_or("a tenant")?;
    assert_eq!(rt; found.len(), 1);
    assert!(rt; again == sum);
    assert!(rt; first.opening.is_same(opening));
    Ok(())
}

#[test]
fn bases_are_read_back(rt: HostRuntime) -> Result<(), Fail> {
    let period = period_of_each(rt.alloc())?;
    expect_base(&rt, rt.alloc(), period.opening())?;
    expect_base(&rt, rt.alloc(), period.ending())
}

fn expect_second_period(rt: &impl Abort, left: &Reopened) -> Result<(), Fail> {
    assert_eq!(rt; left.books.len(), 1);
    let book = left.books.first().ok_or("a book")?;
    assert_eq!(rt; book.period(), 1);
    Ok(())
}

fn expect_read_back(rt: &impl Abort, alloc: Global, period: &Period) -> Result<(), Fail> {
    let starts = starts_of(alloc, period.opening())?;
    let (base, sum) = write_base(alloc, &starts)?;
    let log = log_of(alloc, period, &sum)?;
    match reopen(alloc, &base, &log) {
        Ok(left) => expect_second_period(rt, &left),
        Err(_) => Err(Fail::from("a journal")),
    }
}

#[test]
fn a_journal_is_read_back(rt: HostRuntime) -> Result<(), Fail> {
    let period = period_of_each(rt.alloc())?;
    expect_read_back(&rt, rt.alloc(), &period)
}
