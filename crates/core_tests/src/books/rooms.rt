//! As many packets as a tenant can hold.

use super::setups::{Wanted, decide, verdict};
use std::process::Abort;
use std::test::Fail;
use tenant_core::{AnswerKey, Book, PeerNo, RejectCode};
use test_texts::books::{Agreed, START, USUAL, answer, book, tick};

fn expect_decided(
    rt: &impl Abort,
    book: &mut Book,
    expiry: u64,
    wanted: Wanted,
) -> Result<(), Fail> {
    let found = decide(book, 1, expiry, START)?;
    assert!(rt; found == verdict(wanted), "until {expiry}");
    Ok(())
}

// As many packets as a tenant can hold, and one more.
fn expect_full(rt: &impl Abort, book: &mut Book) -> Result<(), Fail> {
    let expiry = START + 30_000;
    for hold in 0..1_024u64 {
        expect_decided(rt, book, expiry, Wanted::Forwarded(hold, 1, START + 29_000))?;
    }
    expect_decided(rt, book, expiry, Wanted::Refused(RejectCode::Busy))?;
    assert!(rt; book.entries() == 1_025);
    Ok(())
}

// Marked ones await their answers, and count as well.
fn expect_full_of_marked(rt: &impl Abort, book: &mut Book) -> Result<(), Fail> {
    assert!(rt; tick(book, START + 29_000)? == Ok(1_024));
    let expiry = START + 60_000;
    expect_decided(rt, book, expiry, Wanted::Refused(RejectCode::Busy))?;
    let late = verdict(Wanted::Refused(RejectCode::TimedOut));
    let answered = answer(book, 700, START + 29_000, AnswerKey::Rejected)?;
    assert!(rt; answered == Ok(late));
    expect_decided(
        rt,
        book,
        expiry,
        Wanted::Forwarded(1_024, 1, START + 59_000),
    )
}

fn is_named(book: &Book, peer: PeerNo, wanted: &[u8]) -> bool {
    match book.peer_name(peer) {
        Some(name) => name == wanted,
        None => false,
    }
}

fn expect_names(rt: &impl Abort, book: &Book) {
    assert!(rt; book.tenant() == 0);
    assert!(rt; book.address() == b"g.acme".as_slice());
    assert!(rt; is_named(book, 1, b"p1"));
    assert!(rt; book.peer_name(2).is_none());
}

fn expect_as_many(rt: &impl Abort, book: &mut Book) -> Result<(), Fail> {
    expect_names(rt, book);
    expect_full(rt, book)?;
    expect_full_of_marked(rt, book)
}

#[test]
fn as_many_packets_are_held_as_a_tenant_can_hold(rt: HostRuntime) -> Result<(), Fail> {
    let agreed = Agreed {
        burst: 2_000,
        ..USUAL
    };
    let mut book = book(rt.alloc(), 4_096, agreed, START)?;
    expect_as_many(&rt, &mut book)
}
