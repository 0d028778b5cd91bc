//! Closed periods, and copies.

use super::setups::{Wanted, expect_sent, verdict};
use std::alloc::Global;
use std::process::Abort;
use std::test::Fail;
use tenant_core::{AnswerKey, Book, CommandFault, Period, Verdict};
use test_texts::books::{START, USUAL, answer, book, closed, owed_and_held, roll, send, tick};

fn fault_of_roll(alloc: Global, book: &mut Book) -> Result<Option<CommandFault>, Fail> {
    Ok(roll(alloc, book)?.err())
}

// Whether the period is the first one of the first tenant.
fn is_first(period: &Period) -> bool {
    let opening = period.opening();
    opening.tenant == 0 && opening.period == 0 && opening.clock == START && opening.next_hold == 0
}

// What each peer owed at the end of the period, and what was held from it and for it.
fn rows_of(alloc: Global, period: &Period) -> Result<Vec<(i64, u64, u64)>, Fail> {
    let mut rows = Vec::new(alloc);
    for row in period.rows() {
        rows.push((row.balance, row.held_in, row.held_out))?;
    }
    Ok(rows)
}

fn expect_period(rt: &impl Abort, alloc: Global, period: &Period) -> Result<(), Fail> {
    assert!(rt; is_first(period));
    assert!(rt; period.len() == 3);
    let rows = rows_of(alloc, period)?;
    assert!(rt; rows.as_slice() == [(1_000, 0, 0), (-1_500, 0, 0)].as_slice());
    Ok(())
}

// No period closes while a packet is held; once it is fulfilled, one does.
fn expect_rolled(rt: &impl Abort, alloc: Global, book: &mut Book) -> Result<(), Fail> {
    send(book, START)?;
    assert!(rt; fault_of_roll(alloc, book)? == Some(CommandFault::InUse));
    let settled = answer(book, 0, START + 1, AnswerKey::Fulfilled([0; 32]))?;
    assert!(rt; settled == Ok(Verdict::Relay));
    let period = closed(alloc, book)?;
    expect_period(rt, alloc, &period)
}

// The next period begins with what is owed, and the number of the hold goes on.
fn expect_next_period(rt: &impl Abort, book: &mut Book) -> Result<(), Fail> {
    assert!(rt; book.period() == 1 && book.entries() == 0);
    assert!(rt; owed_and_held(book)? == (1_000, -1_500, 0, 0));
    let sent = send(book, START)?;
    assert!(rt; sent == verdict(Wanted::Forwarded(1, 1_500, START + 29_000)));
    Ok(())
}

fn expect_two_periods(rt: &impl Abort, alloc: Global, book: &mut Book) -> Result<(), Fail> {
    expect_rolled(rt, alloc, book)?;
    expect_next_period(rt, book)
}

#[test]
fn a_closed_period_has_its_entries(rt: HostRuntime) -> Result<(), Fail> {
    let mut book = book(rt.alloc(), 8, USUAL, START)?;
    expect_two_periods(&rt, rt.alloc(), &mut book)
}

fn expect_fulfilled(rt: &impl Abort, book: &mut Book) -> Result<(), Fail> {
    expect_sent(rt, book)?;
    let settled = answer(book, 0, START, AnswerKey::Fulfilled([0; 32]))?;
    assert!(rt; settled == Ok(Verdict::Relay));
    Ok(())
}

// The copy has what the book had, and what is then done to it does not show in the book.
fn expect_apart(rt: &impl Abort, copy: &mut Book, book: &Book) -> Result<(), Fail> {
    assert!(rt; owed_and_held(copy)? == (1_000, -1_500, 0, 0));
    assert!(rt; copy.entries() == 2);
    assert!(rt; tick(copy, START)? == Ok(0));
    assert!(rt; copy.entries() == 3 && book.entries() == 2);
    Ok(())
}

fn expect_copied(rt: &impl Abort, alloc: Global, book: &Book) -> Result<(), Fail> {
    let mut copy = book.copy(alloc)?;
    expect_apart(rt, &mut copy, book)
}

fn expect_fulfilled_and_copied(
    rt: &impl Abort,
    alloc: Global,
    book: &mut Book,
) -> Result<(), Fail> {
    expect_fulfilled(rt, book)?;
    expect_copied(rt, alloc, book)
}

#[test]
fn a_copy_has_what_the_book_had(rt: HostRuntime) -> Result<(), Fail> {
    let mut book = book(rt.alloc(), 8, USUAL, START)?;
    expect_fulfilled_and_copied(&rt, rt.alloc(), &mut book)
}
