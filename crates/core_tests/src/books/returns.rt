//! What comes back, once for each packet, and what it moves.

use super::setups::{Wanted, expect_sent, verdict};
use std::alloc::Global;
use std::process::Abort;
use std::test::Fail;
use tenant_core::{AnswerKey, Book, HoldFault, RejectCode, Verdict};
use test_texts::books::{START, USUAL, answer, book, owed_and_held, tick};

/// What comes back for a packet of 1,000 units that goes on as 1,500, how long after the start, and whether a tick
/// comes just before. Then the verdict, and what is owed after it.
struct Return {
    title: &'static str,
    key: AnswerKey,
    at: u64,
    is_marked: bool,
    verdict: Result<(), RejectCode>,
    owed: (i64, i64),
}

static RETURNS: [Return; 8] = [
    Return {
        title: "a Fulfill that fits",
        key: AnswerKey::Fulfilled([0; 32]),
        at: 28_999,
        is_marked: false,
        verdict: Ok(()),
        owed: (1_000, -1_500),
    },
    Return {
        title: "a Fulfill that does not fit",
        key: AnswerKey::Fulfilled([1; 32]),
        at: 0,
        is_marked: false,
        verdict: Err(RejectCode::WrongCondition),
        owed: (0, 0),
    },
    Return {
        title: "a Reject",
        key: AnswerKey::Rejected,
        at: 0,
        is_marked: false,
        verdict: Ok(()),
        owed: (0, 0),
    },
    Return {
        title: "no answer",
        key: AnswerKey::Fault,
        at: 0,
        is_marked: false,
        verdict: Err(RejectCode::PeerUnreachable),
        owed: (0, 0),
    },
    Return {
        title: "a Fulfill that is late",
        key: AnswerKey::Fulfilled([0; 32]),
        at: 29_000,
        is_marked: false,
        verdict: Err(RejectCode::TimedOut),
        owed: (0, 0),
    },
    Return {
        title: "a Fulfill after the mark",
        key: AnswerKey::Fulfilled([0; 32]),
        at: 0,
        is_marked: true,
        verdict: Err(RejectCode::TimedOut),
        owed: (0, 0),
    },
    Return {
        title: "a Reject after the mark",
        key: AnswerKey::Rejected,
        at: 0,
        is_marked: true,
        verdict: Err(RejectCode::TimedOut),
        owed: (0, 0),
    },
    Return {
        title: "no answer after the mark",
        key: AnswerKey::Fault,
        at: 0,
        is_marked: true,
        verdict: Err(RejectCode::TimedOut),
        owed: (0, 0),
    },
];

fn expect_answer(
    rt: &impl Abort,
    book: &mut Book,
    row: &Return,
    hold: u64,
    wanted: Result<Verdict, HoldFault>,
) -> Result<(), Fail> {
    let found = answer(book, hold, START.saturating_add(row.at), row.key)?;
    assert!(rt; found == wanted, "{}: hold {hold}", row.title);
    Ok(())
}

// Nothing is held any more, and a second tick marks nothing.
fn expect_marked(rt: &impl Abort, book: &mut Book) -> Result<(), Fail> {
    assert!(rt; tick(book, START + 29_000)? == Ok(1));
    assert!(rt; owed_and_held(book)? == (0, 0, 0, 0));
    assert!(rt; tick(book, START + 29_000)? == Ok(0));
    Ok(())
}

// No other hold is answered, and this one is once.
fn expect_answered(rt: &impl Abort, book: &mut Book, row: &Return) -> Result<(), Fail> {
    let wanted = match row.verdict {
        Ok(()) => Verdict::Relay,
        Err(code) => verdict(Wanted::Refused(code)),
    };
    expect_answer(rt, book, row, 1, Err(HoldFault::NoSuchHold))?;
    expect_answer(rt, book, row, 0, Ok(wanted))?;
    expect_answer(rt, book, row, 0, Err(HoldFault::NoSuchHold))
}

fn expect_owed(rt: &impl Abort, book: &Book, row: &Return) -> Result<(), Fail> {
    let (sender, receiver) = row.owed;
    assert!(rt;
        owed_and_held(book)? == (sender, receiver, 0, 0),
        "{}",
        row.title
    );
    Ok(())
}

fn expect_return(rt: &impl Abort, book: &mut Book, row: &Return) -> Result<(), Fail> {
    expect_sent(rt, book)?;
    if row.is_marked {
        expect_marked(rt, book)?;
    }
    expect_answered(rt, book, row)?;
    expect_owed(rt, book, row)?;
    let entries = if row.is_marked { 4 } else { 2 };
    assert!(rt;
        book.entries() == entries && book.period() == 0,
        "{}",
        row.title
    );
    Ok(())
}

fn expect_row(rt: &impl Abort, alloc: Global, row: &Return) -> Result<(), Fail> {
    let mut book = book(alloc, 8, USUAL, START)?;
    expect_return(rt, &mut book, row)
}

#[test]
fn what_is_held_moves_once_on_both_sides(rt: HostRuntime) -> Result<(), Fail> {
    for row in &RETURNS {
        expect_row(&rt, rt.alloc(), row)?;
    }
    Ok(())
}
