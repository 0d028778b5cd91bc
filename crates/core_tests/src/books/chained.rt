//! Chains of statements: what goes on, what does not, and the sums of all.

use admin_text::parse_command;
use common_types::ReadError;
use statements::{Chain, ChainFault, write_statement};
use std::alloc::Global;
use std::process::Abort;
use std::test::Fail;
use tenant_core::{AnswerKey, Book, Verdict};
use test_texts::books::{START, USUAL, answer, book, closed, moment, period_of_each, send, tick};

fn order(alloc: Global, book: &mut Book, words: &str) -> Result<(), Fail> {
    let command = match parse_command(alloc, words.as_bytes()) {
        Ok(command) => command,
        Err(_) => return Err("a command".into()),
    };
    let _ = book.command(alloc, &command, moment(START + 1)?)?;
    Ok(())
}

// A packet of 1,000 goes on, and is fulfilled.
fn fulfil(book: &mut Book, hold: u64) -> Result<(), Fail> {
    send(book, START)?;
    match answer(book, hold, START + 1, AnswerKey::Fulfilled([0; 32]))? {
        Ok(Verdict::Relay) => Ok(()),
        _ => Err("a fulfilled packet".into()),
    }
}

// The statement of the period, which is closed.
fn stated(alloc: Global, book: &mut Book) -> Result<Vec<u8>, Fail> {
    let period = closed(alloc, book)?;
    Ok(write_statement(alloc, &period)?)
}

// A packet without a fee.
fn without_fee(alloc: Global, book: &mut Book) -> Result<Vec<u8>, Fail> {
    fulfil(book, 0)?;
    stated(alloc, book)
}

// A packet with a fee, and money that was paid.
fn with_fee(alloc: Global, book: &mut Book) -> Result<Vec<u8>, Fail> {
    order(alloc, book, "route remove g.acme.bob")?;
    order(alloc, book, "route add g.acme.bob p1 500")?;
    fulfil(book, 1)?;
    order(alloc, book, "settle in p0 700")?;
    order(alloc, book, "settle out p1 2600")?;
    stated(alloc, book)
}

// A peer that comes and goes, and a packet that is rejected.
fn with_guest(alloc: Global, book: &mut Book) -> Result<Vec<u8>, Fail> {
    order(
        alloc,
        book,
        "peer add p2 child token-2 http://127.0.0.1:7803/ilp out-2 EUR 9 1500 1000000 1000000 100 100",
    )?;
    order(alloc, book, "peer remove p2")?;
    reject(book, 2)?;
    stated(alloc, book)
}

// A packet of 1,000 goes on, and is rejected.
fn reject(book: &mut Book, hold: u64) -> Result<(), Fail> {
    send(book, START)?;
    answer(book, hold, START + 1, AnswerKey::Rejected)?.ok();
    tick(book, START + 1)?.ok();
    Ok(())
}

// 1,000 of p0's units cost 1,500 of p1's. Fulfilled were 2,000 of p0's: 1,500 went on, and then 1,500 less the fee of 500.
const SUMMARY: &str = "good 3 16
peer 0 p0 began 0 ended 1300 packets-in 3 fulfilled-in 2000 settled-in 700 packets-out 0 fulfilled-out 0 settled-out 0 fees 0
peer 1 p1 began 0 ended 100 packets-in 0 fulfilled-in 0 settled-in 0 packets-out 3 fulfilled-out 2500 settled-out 2600 fees 500
peer 2 p2 began 0 ended 0 packets-in 0 fulfilled-in 0 settled-in 0 packets-out 0 fulfilled-out 0 settled-out 0 fees 0
";

fn put_periods(alloc: Global, book: &mut Book, texts: &mut Vec<Vec<u8>>) -> Result<(), Fail> {
    texts.push(without_fee(alloc, book)?)?;
    texts.push(with_fee(alloc, book)?)?;
    texts.push(with_guest(alloc, book)?)?;
    Ok(())
}

// Adds the statements of three periods of a book.
fn put_stated(alloc: Global, texts: &mut Vec<Vec<u8>>) -> Result<(), Fail> {
    let mut book = book(alloc, 64, USUAL, START)?;
    put_periods(alloc, &mut book, texts)
}

// Adds the statement of another tenant's period.
fn put_another(alloc: Global, texts: &mut Vec<Vec<u8>>) -> Result<(), Fail> {
    let period = period_of_each(alloc)?;
    texts.push(write_statement(alloc, &period)?)?;
    Ok(())
}

// The statements of the three periods, and of another tenant's.
fn texts(alloc: Global) -> Result<Vec<Vec<u8>>, Fail> {
    let mut texts = Vec::new(alloc);
    put_stated(alloc, &mut texts)?;
    put_another(alloc, &mut texts)?;
    Ok(texts)
}

// Why a text does not go on with a chain, if it does not.
fn fault_of(alloc: Global, chain: &mut Chain, text: &[u8]) -> Result<Option<ChainFault>, Fail> {
    match chain.add(alloc, text) {
        Ok(()) => Ok(None),
        Err(ReadError::Memory) => Err("memory".into()),
        Err(ReadError::Fault(fault)) => Ok(Some(fault)),
    }
}

// Takes the texts at these places. Returns the place of the first that does not go on among these, and why.
fn first_fault(
    alloc: Global,
    chain: &mut Chain,
    texts: &[Vec<u8>],
    order: &[usize],
) -> Result<Option<(usize, ChainFault)>, Fail> {
    for place in 0..order.len() {
        let text = texts.get(order[place]).ok_or("a text")?;
        if let Some(fault) = fault_of(alloc, chain, text.as_slice())? {
            return Ok(Some((place, fault)));
        }
    }
    Ok(None)
}

#[test]
fn a_chain_tells_what_its_periods_come_to(rt: HostRuntime) -> Result<(), Fail> {
    let texts = texts(rt.alloc())?;
    let mut chain = Chain::new(rt.alloc());
    let fault = first_fault(rt.alloc(), &mut chain, texts.as_slice(), &[0, 1, 2])?;
    assert!(rt; fault.is_none());
    match chain.summary(rt.alloc()) {
        Ok(summary) => assert!(rt; summary.as_slice() == SUMMARY.as_bytes()),
        Err(_) => assert!(rt; false),
    }
    Ok(())
}

// The places of statements that are taken one after another, that of the first that does not go on among these, and the line.
static APART: [(&[usize], usize, usize); 4] = [
    (&[0, 2], 1, 3),
    (&[1, 0], 1, 3),
    (&[0, 1, 1], 2, 3),
    (&[0, 3], 1, 2),
];

fn expect_apart(
    rt: &impl Abort,
    alloc: Global,
    texts: &[Vec<u8>],
    order: &[usize],
    wanted: (usize, usize),
) -> Result<(), Fail> {
    let (place, line) = wanted;
    let fault = first_fault(alloc, &mut Chain::new(alloc), texts, order)?;
    assert!(rt; fault == Some((place, ChainFault::Apart(line))));
    Ok(())
}

// A gap, a swapped order, and a period twice: the line of the period's number differs. Another tenant has other terms: its line
// differs.
#[test]
fn what_does_not_go_on_is_told_by_its_first_line(rt: HostRuntime) -> Result<(), Fail> {
    let texts = texts(rt.alloc())?;
    for (order, place, line) in &APART {
        expect_apart(&rt, rt.alloc(), texts.as_slice(), order, (*place, *line))?;
    }
    Ok(())
}

// A refused text leaves the chain as it was.
#[test]
fn a_chain_goes_on_after_a_refusal(rt: HostRuntime) -> Result<(), Fail> {
    let alloc = rt.alloc();
    let texts = texts(alloc)?;
    let mut chain = Chain::new(alloc);
    let again = first_fault(alloc, &mut chain, texts.as_slice(), &[0, 0])?;
    assert!(rt; matches!(again, Some((1, _))));
    assert!(rt; fault_of(alloc, &mut chain, b"statement 1\n")?.is_some());
    let after = first_fault(alloc, &mut chain, texts.as_slice(), &[1])?;
    assert!(rt; after.is_none());
    Ok(())
}
