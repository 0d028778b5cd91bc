//! Which check decides on a packet, and that nothing is recorded by asking.

use ilp_addr::{Address, Moment, Prefix};
use std::alloc::Global;
use std::process::Abort;
use std::test::Fail;
use tenant_core::{Book, Expiry, Finding, Network, PrepareKey, TenantSetup, Verdict};
use test_texts::books::{
    Agreed, CONDITION, START, USUAL, add_route_to, begun, called, moment, network, number, send,
    tenant_of,
};

/// A packet that is asked of after so many others went on: where it goes, and which check decides. It expires so many
/// milliseconds after the start.
struct Asked {
    agreed: Agreed,
    journal: u64,
    sent: u64,
    token: &'static str,
    destination: &'static str,
    amount: u64,
    expiry: u64,
    finding: Finding,
}

// What goes on, by p0 for p1.
const PLAIN: Asked = Asked {
    agreed: USUAL,
    journal: 64,
    sent: 0,
    token: "p0",
    destination: "g.acme.bob.x",
    amount: 1_000,
    expiry: 30_000,
    finding: Finding::GoesOn {
        hold: 0,
        to: 1,
        price: 1_500,
        expiry: START + 29_000,
    },
};

static ASKED: [Asked; 17] = [
    PLAIN,
    Asked {
        token: "p9",
        finding: Finding::NoPeer,
        ..PLAIN
    },
    Asked {
        journal: 4,
        sent: 2,
        finding: Finding::JournalFull {
            entries: 2,
            awaited: 2,
            places: 4,
        },
        ..PLAIN
    },
    Asked {
        agreed: Agreed {
            burst: 1,
            per_second: 0,
            ..USUAL
        },
        sent: 1,
        finding: Finding::BucketEmpty { credit: 0 },
        ..PLAIN
    },
    Asked {
        expiry: 0,
        finding: Finding::Expired {
            expiry: START,
            clock: START,
        },
        ..PLAIN
    },
    Asked {
        destination: "peer.config",
        amount: 0,
        finding: Finding::NoChild,
        ..PLAIN
    },
    Asked {
        destination: "peer.bob",
        finding: Finding::ForNeighbors,
        ..PLAIN
    },
    Asked {
        destination: "g.acme",
        finding: Finding::OwnAddress,
        ..PLAIN
    },
    Asked {
        amount: 1_501,
        finding: Finding::OverCap {
            amount: 1_501,
            cap: 1_500,
        },
        ..PLAIN
    },
    Asked {
        destination: "g.nobody",
        finding: Finding::NoRoute,
        ..PLAIN
    },
    Asked {
        token: "p1",
        finding: Finding::LeadsBack,
        ..PLAIN
    },
    Asked {
        token: "p2",
        finding: Finding::NoRate { to: 1 },
        ..PLAIN
    },
    Asked {
        destination: "g.acme.fee",
        finding: Finding::BelowFee {
            price: 1_500,
            fee: 2_000,
        },
        ..PLAIN
    },
    Asked {
        amount: 1_001,
        finding: Finding::OverNextCap {
            to: 1,
            price: 1_501,
            cap: 1_500,
            amount: 1_001,
            greatest: 1_000,
        },
        ..PLAIN
    },
    Asked {
        expiry: 1_000,
        finding: Finding::ExpiresOnward {
            expiry: START,
            clock: START,
        },
        ..PLAIN
    },
    Asked {
        agreed: Agreed {
            ceiling: 1_999,
            ..USUAL
        },
        sent: 1,
        finding: Finding::OverCeiling {
            balance: 0,
            held: 1_000,
            amount: 1_000,
            ceiling: 1_999,
        },
        ..PLAIN
    },
    Asked {
        agreed: Agreed {
            credit: 2_999,
            ..USUAL
        },
        sent: 1,
        finding: Finding::OverCredit {
            to: 1,
            balance: 0,
            held: 1_500,
            price: 1_500,
            credit: 2_999,
        },
        ..PLAIN
    },
];

// A route for g.acme.fee to p1, at a fee.
fn add_route_at_a_fee(alloc: Global, network: &mut Network) -> Result<(), Fail> {
    let prefix = Prefix::parse(alloc, b"g.acme.fee")?;
    add_route_to(network, prefix, &called(alloc, 1)?, number(2_000)?)??;
    Ok(())
}

// p0, p1 and p2, with a route for g.acme.bob to p1, and one for g.acme.fee at a fee.
fn network_of(alloc: Global, agreed: Agreed) -> Result<Network, Fail> {
    let mut network = network(alloc, agreed, 3)?;
    add_route_at_a_fee(alloc, &mut network)?;
    Ok(network)
}

fn setup_of(alloc: Global, asked: &Asked) -> Result<TenantSetup, Fail> {
    let network = network_of(alloc, asked.agreed)?;
    Ok(tenant_of(asked.journal, 1_000, 30_000, network)?.ok_or("a setup")?)
}

// The book in which no packet went on yet.
fn begun_book(alloc: Global, asked: &Asked) -> Result<Book, Fail> {
    let start = moment(START)?;
    let setup = setup_of(alloc, asked)?;
    begun(alloc, 0, &setup, start)
}

fn send_all(book: &mut Book, packets: u64) -> Result<(), Fail> {
    for _ in 0..packets {
        send(book, START)?;
    }
    Ok(())
}

// A book in which so many packets went on.
fn book_of(alloc: Global, asked: &Asked) -> Result<Book, Fail> {
    let mut book = begun_book(alloc, asked)?;
    send_all(&mut book, asked.sent)?;
    Ok(book)
}

fn explained(book: &Book, token: &[u8], key: &PrepareKey<'_>, now: Moment) -> (Finding, usize) {
    (book.explain(token, key, now), book.entries())
}

fn decided(book: &mut Book, token: &[u8], key: &PrepareKey<'_>, now: Moment) -> Verdict {
    book.decide(token, key, now)
}

// What the book says of the packet, how many entries it has then, and how it decides.
fn told(book: &mut Book, asked: &Asked) -> Result<(Finding, usize, Verdict), Fail> {
    let destination = Address::parse(asked.destination.as_bytes())?;
    let key = PrepareKey {
        amount: asked.amount,
        expiry: Expiry::new(START.saturating_add(asked.expiry)).ok_or("an expiry")?,
        condition: &CONDITION,
        destination: &destination,
    };
    let (token, now) = (asked.token.as_bytes(), moment(START)?);
    let (found, entries) = explained(book, token, &key, now);
    Ok((found, entries, decided(book, token, &key, now)))
}

fn expect_found(rt: &impl Abort, found: Finding, asked: &Asked) {
    assert!(rt; found == asked.finding, "{}: {found:?}", asked.destination);
}

fn expect_verdict(rt: &impl Abort, verdict: Verdict, found: Finding) {
    assert!(rt; verdict == found.verdict(), "{found:?}: {verdict:?}");
}

fn expect_told(rt: &impl Abort, book: &mut Book, asked: &Asked) -> Result<(), Fail> {
    let before = book.entries();
    let (found, entries, verdict) = told(book, asked)?;
    expect_found(rt, found, asked);
    assert!(rt; entries == before);
    expect_verdict(rt, verdict, found);
    Ok(())
}

fn expect_finding(rt: &impl Abort, alloc: Global, asked: &Asked) -> Result<(), Fail> {
    let mut book = book_of(alloc, asked)?;
    expect_told(rt, &mut book, asked)
}

fn expect_tokens(rt: &impl Abort, book: &Book) {
    assert!(rt; book.token_of(b"p2") == Some(b"p2".as_slice()));
    assert!(rt; book.token_of(b"p9").is_none());
}

fn expect_findings(rt: &impl Abort, alloc: Global, rows: &[Asked]) -> Result<(), Fail> {
    for asked in rows {
        expect_finding(rt, alloc, asked)?;
    }
    Ok(())
}

fn expect_tokens_of_peers(rt: &impl Abort, alloc: Global) -> Result<(), Fail> {
    let book = book_of(alloc, &PLAIN)?;
    expect_tokens(rt, &book);
    Ok(())
}

#[test]
fn the_check_that_decides(rt: HostRuntime) -> Result<(), Fail> {
    expect_findings(&rt, rt.alloc(), &ASKED)?;
    expect_tokens_of_peers(&rt, rt.alloc())
}
