//! What an audit says of receipts of a packet that was fulfilled, and what is wrong with them.

use common_types::Spare;
use ilp_addr::MAX_ADDRESS;
use receipts::{AuditFault, Receipt, audit};
use std::alloc::Global;
use std::process::Abort;
use std::slice;
use std::test::Fail;
use tenant_core::{AnswerKey, Book, Outcome, Period, Verdict};
use test_texts::books::{START, USUAL, answer, begun, closed, moment, send, tenant, tick};

// What became of an audit: how many tenants, periods and receipts, or why it says no.
#[derive(Clone, Copy, Debug, PartialEq, Eq)]
enum Said {
    Yes(usize, usize, usize),
    NoPeriod,
    Gap,
    Twice,
    Missing,
    Differs,
    Order,
    Memory,
}

fn outcome_of(alloc: Global, periods: &[Period], lists: &[&[Receipt]]) -> Said {
    match audit(alloc, periods, lists) {
        Ok(found) => Said::Yes(found.tenants, found.periods, found.receipts),
        Err(AuditFault::NoPeriod) => Said::NoPeriod,
        Err(AuditFault::Gap) => Said::Gap,
        Err(AuditFault::Twice) => Said::Twice,
        Err(AuditFault::Missing) => Said::Missing,
        Err(AuditFault::Differs) => Said::Differs,
        Err(AuditFault::Order(_)) => Said::Order,
        Err(AuditFault::Memory) => Said::Memory,
    }
}

fn expect_said(rt: &impl Abort, said: Said, wanted: Said) {
    assert!(rt; said == wanted, "{said:?}, and not {wanted:?}");
}

// The book of the tenant of that number.
fn book_of(alloc: Global, number: usize) -> Result<Book, Fail> {
    let start = moment(START)?;
    match tenant(alloc, 64, 1_000, 30_000, USUAL)? {
        Some(setup) => begun(alloc, number, &setup, start),
        None => Err(Fail::from("a setup")),
    }
}

// A packet is fulfilled, and the period closes.
fn day_of(alloc: Global, book: &mut Book) -> Result<Period, Fail> {
    send(book, START)?;
    answer(book, 0, START, AnswerKey::Fulfilled([0; 32]))??;
    closed(alloc, book)
}

// The period of a packet that was fulfilled.
fn day(alloc: Global) -> Result<Period, Fail> {
    let mut book = book_of(alloc, 0)?;
    day_of(alloc, &mut book)
}

/// The receipt of the period's record of that number.
pub fn receipt(alloc: Global, period: &Period, number: usize) -> Result<Receipt, Fail> {
    let spare = Spare::new(alloc, MAX_ADDRESS)?;
    let record = period.records().journal().get(number).ok_or("a record")?;
    Ok(Receipt {
        tenant: period.tenant(),
        period: period.number(),
        number: number as u64,
        entry: record.entry.to_entry(spare),
        verdict: record.outcome,
    })
}

// The receipts of the period's records of these numbers, in that order.
fn receipts(alloc: Global, period: &Period, numbers: &[usize]) -> Result<Vec<Receipt>, Fail> {
    let mut list = Vec::new(alloc);
    for number in numbers {
        list.push(receipt(alloc, period, *number)?)?;
    }
    Ok(list)
}

// What an audit of one period says.
fn said_of_one(alloc: Global, period: &Period, lists: &[&[Receipt]]) -> Said {
    outcome_of(alloc, slice::from_ref(period), lists)
}

fn said_of(alloc: Global, period: &Period, numbers: &[usize]) -> Result<Said, Fail> {
    let list = receipts(alloc, period, numbers)?;
    Ok(said_of_one(alloc, period, &[list.as_slice()]))
}

fn expect_said_of(
    rt: &impl Abort,
    alloc: Global,
    numbers: &[usize],
    wanted: Said,
) -> Result<(), Fail> {
    let period = day(alloc)?;
    expect_said(rt, said_of(alloc, &period, numbers)?, wanted);
    Ok(())
}

#[test]
fn receipts_of_one_packet(rt: HostRuntime) -> Result<(), Fail> {
    let alloc = rt.alloc();
    expect_said_of(&rt, alloc, &[0, 1, 2], Said::Yes(1, 1, 3))?;
    expect_said_of(&rt, alloc, &[0, 2], Said::Missing)?;
    expect_said_of(&rt, alloc, &[2, 1, 0], Said::Order)?;
    expect_said_of(&rt, alloc, &[0, 1, 2, 0], Said::Twice)
}

fn said_of_two_lists(
    alloc: Global,
    period: &Period,
    first: &[usize],
    second: &[usize],
) -> Result<Said, Fail> {
    let first = receipts(alloc, period, first)?;
    let second = receipts(alloc, period, second)?;
    Ok(said_of_one(alloc, period, &[first.as_slice(), second.as_slice()]))
}

fn expect_said_of_two_lists(
    rt: &impl Abort,
    alloc: Global,
    first: &[usize],
    second: &[usize],
    wanted: Said,
) -> Result<(), Fail> {
    let period = day(alloc)?;
    expect_said(
        rt,
        said_of_two_lists(alloc, &period, first, second)?,
        wanted,
    );
    Ok(())
}

#[test]
fn receipts_in_two_lists(rt: HostRuntime) -> Result<(), Fail> {
    let alloc = rt.alloc();
    expect_said_of_two_lists(&rt, alloc, &[1], &[0, 2], Said::Yes(1, 1, 3))?;
    expect_said_of_two_lists(&rt, alloc, &[0], &[0, 1, 2], Said::Twice)?;
    expect_said_of_two_lists(&rt, alloc, &[2, 0], &[1], Said::Order)
}

#[test]
fn no_periods_and_no_lists(rt: HostRuntime) -> Result<(), Fail> {
    expect_said(&rt, outcome_of(rt.alloc(), &[], &[]), Said::Yes(0, 0, 0));
    Ok(())
}

// Makes a verdict that goes on one of another amount.
fn change_amount(verdict: &mut Outcome, to: u64) {
    if let Outcome::Packet(Verdict::Forward { amount, .. }) = verdict {
        *amount = to;
    }
}

// The packet's verdict has another amount.
fn said_with_amount(alloc: Global, period: &Period, amount: u64) -> Result<Said, Fail> {
    let mut shown = receipt(alloc, period, 0)?;
    change_amount(&mut shown.verdict, amount);
    let rest = receipts(alloc, period, &[1, 2])?;
    Ok(said_of_one(alloc, period, &[slice::from_ref(&shown), rest.as_slice()]))
}

fn expect_said_with_amount(
    rt: &impl Abort,
    alloc: Global,
    amount: u64,
    wanted: Said,
) -> Result<(), Fail> {
    let period = day(alloc)?;
    expect_said(rt, said_with_amount(alloc, &period, amount)?, wanted);
    Ok(())
}

#[test]
fn a_verdict_that_was_not_given(rt: HostRuntime) -> Result<(), Fail> {
    expect_said_with_amount(&rt, rt.alloc(), 1_500, Said::Yes(1, 1, 3))?;
    expect_said_with_amount(&rt, rt.alloc(), 1_499, Said::Differs)
}

// Appends the receipt of the packet at another place, or of another entry.
fn add_moved(
    alloc: Global,
    list: &mut Vec<Receipt>,
    period: &Period,
    (tenant, number, at): (usize, u64, u64),
) -> Result<(), Fail> {
    let mut moved = receipt(alloc, period, 0)?;
    moved.tenant = tenant;
    moved.period = at;
    moved.number = number;
    list.push(moved)?;
    Ok(())
}

fn said_moved(alloc: Global, period: &Period, place: (usize, u64, u64)) -> Result<Said, Fail> {
    let mut list = receipts(alloc, period, &[0, 1, 2])?;
    add_moved(alloc, &mut list, period, place)?;
    Ok(said_of_one(alloc, period, &[list.as_slice()]))
}

// A tenant, a number and a period that a receipt names, and what is said of it.
static MOVED: [((usize, u64, u64), Said); 6] = [
    ((0, 0, 1), Said::NoPeriod),
    ((1, 0, 0), Said::NoPeriod),
    ((64, 0, 0), Said::NoPeriod),
    ((0, 3, 0), Said::NoPeriod),
    ((0, u64::MAX, 0), Said::NoPeriod),
    ((0, 1, 0), Said::Differs),
];

fn expect_said_moved(
    rt: &impl Abort,
    alloc: Global,
    place: (usize, u64, u64),
    wanted: Said,
) -> Result<(), Fail> {
    let period = day(alloc)?;
    expect_said(rt, said_moved(alloc, &period, place)?, wanted);
    Ok(())
}

#[test]
fn receipts_that_name_nothing(rt: HostRuntime) -> Result<(), Fail> {
    for (place, wanted) in MOVED {
        expect_said_moved(&rt, rt.alloc(), place, wanted)?;
    }
    Ok(())
}

fn closed_twice(alloc: Global, book: &mut Book) -> Result<[Period; 2], Fail> {
    let first = day_of(alloc, book)?;
    Ok([closed(alloc, book)?, first])
}

// Two periods of a book, the later one first, and a packet was fulfilled in the other.
fn two_periods(alloc: Global) -> Result<[Period; 2], Fail> {
    let mut book = book_of(alloc, 0)?;
    closed_twice(alloc, &mut book)
}

fn said_of_both(alloc: Global, periods: &[Period; 2]) -> Result<Said, Fail> {
    let [second, first] = periods;
    let late = receipts(alloc, second, &[0])?;
    let early = receipts(alloc, first, &[0, 1, 2])?;
    Ok(outcome_of(alloc, periods, &[late.as_slice(), early.as_slice()]))
}

fn expect_joined(rt: &impl Abort, alloc: Global, periods: &[Period; 2]) -> Result<(), Fail> {
    let [second, _] = periods;
    expect_said(rt, said_of(alloc, second, &[0])?, Said::Gap);
    expect_said(rt, said_of_both(alloc, periods)?, Said::Yes(1, 2, 4));
    Ok(())
}

#[test]
fn periods_that_join(rt: HostRuntime) -> Result<(), Fail> {
    let periods = two_periods(rt.alloc())?;
    expect_joined(&rt, rt.alloc(), &periods)
}

fn tick_and_close(alloc: Global, book: &mut Book, ticks: usize) -> Result<Period, Fail> {
    for _ in 0..ticks {
        tick(book, START)??;
    }
    closed(alloc, book)
}

fn second_after_a_tick(alloc: Global, book: &mut Book) -> Result<Period, Fail> {
    tick_and_close(alloc, book, 1)?;
    closed(alloc, book)
}

// The second period of a book whose first one has a tick.
fn second_of_ticked(alloc: Global) -> Result<Period, Fail> {
    let mut book = book_of(alloc, 0)?;
    second_after_a_tick(alloc, &mut book)
}

// A first period of the same tenant, of another book, beside the second one of this.
fn periods_apart(alloc: Global) -> Result<[Period; 2], Fail> {
    let first = day(alloc)?;
    Ok([first, second_of_ticked(alloc)?])
}

#[test]
fn periods_of_two_books(rt: HostRuntime) -> Result<(), Fail> {
    let periods = periods_apart(rt.alloc())?;
    expect_said(&rt, outcome_of(rt.alloc(), &periods, &[]), Said::Gap);
    Ok(())
}

fn ticked_twice(alloc: Global, tenant: usize) -> Result<Period, Fail> {
    let mut book = book_of(alloc, tenant)?;
    tick_and_close(alloc, &mut book, 2)
}

fn of_two_tenants(alloc: Global) -> Result<[Period; 2], Fail> {
    let first = ticked_twice(alloc, 0)?;
    Ok([first, ticked_twice(alloc, 1)?])
}

// The receipts of these numbers, each of the tenant before it.
fn receipts_across(
    alloc: Global,
    periods: &[Period],
    places: &[(usize, usize)],
) -> Result<Vec<Receipt>, Fail> {
    let mut list = Vec::new(alloc);
    for (tenant, number) in places {
        let period = periods.get(*tenant).ok_or("a period")?;
        list.push(receipt(alloc, period, *number)?)?;
    }
    Ok(list)
}

// Each list waits for the other.
fn said_of_a_cross(alloc: Global, periods: &[Period]) -> Result<Said, Fail> {
    let first = receipts_across(alloc, periods, &[(0, 1), (1, 0), (0, 2), (1, 2)])?;
    let second = receipts_across(alloc, periods, &[(1, 1), (0, 0)])?;
    Ok(outcome_of(alloc, periods, &[first.as_slice(), second.as_slice()]))
}

#[test]
fn lists_that_wait_for_each_other(rt: HostRuntime) -> Result<(), Fail> {
    let periods = of_two_tenants(rt.alloc())?;
    expect_said(&rt, said_of_a_cross(rt.alloc(), &periods)?, Said::Order);
    Ok(())
}
