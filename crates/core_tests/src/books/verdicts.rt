//! Verdicts at the bounds of what was agreed.

use super::setups::{GREATEST, LAST_EXPIRY, LATEST, MOST, Wanted, decide, verdict};
use std::alloc::Global;
use std::process::Abort;
use std::test::Fail;
use tenant_core::{Book, RejectCode, Verdict};
use test_texts::books::{Agreed, START, USUAL, book};

/// Packets of p0 for p1, one after another: the amount, the expiry and the moment of each, and its verdict. Moments are
/// counted from the start.
struct Packets {
    title: &'static str,
    journal: u64,
    agreed: Agreed,
    start: u64,
    steps: &'static [(u64, u64, u64, Wanted)],
    entries: usize,
}

// Two packets alike, of which only the first goes on.
const FIRST_ALONE: &[(u64, u64, u64, Wanted)] = &[
    (1_000, 30_000, 0, Wanted::Forwarded(0, 1_500, 29_000)),
    (
        1_000,
        30_000,
        0,
        Wanted::Refused(RejectCode::InsufficientLiquidity),
    ),
];

static PACKETS: [Packets; 9] = [
    Packets {
        title: "a packet is priced and held, and two places of four stay for answers",
        journal: 4,
        agreed: USUAL,
        start: START,
        steps: &[
            (1_000, 30_000, 0, Wanted::Forwarded(0, 1_500, 29_000)),
            (1_000, 30_000, 0, Wanted::Forwarded(1, 1_500, 29_000)),
            (1_000, 30_000, 0, Wanted::NoRoom),
        ],
        entries: 2,
    },
    Packets {
        title: "a bucket of two packets and one a second refills by the clock",
        journal: 64,
        agreed: Agreed {
            burst: 2,
            per_second: 1,
            ..USUAL
        },
        start: START,
        steps: &[
            (1, 60_000, 0, Wanted::Forwarded(0, 1, 30_000)),
            (1, 60_000, 0, Wanted::Forwarded(1, 1, 30_000)),
            (1, 60_000, 0, Wanted::Refused(RejectCode::RateLimited)),
            (1, 60_000, 999, Wanted::Refused(RejectCode::RateLimited)),
            (1, 60_000, 1_000, Wanted::Forwarded(2, 1, 31_000)),
            (1, 60_000, 500, Wanted::Refused(RejectCode::RateLimited)),
            (1, 60_000, 1_999, Wanted::Refused(RejectCode::RateLimited)),
            (1, 60_000, 2_000, Wanted::Forwarded(3, 1, 32_000)),
            (1, 60_000, 0, Wanted::Refused(RejectCode::RateLimited)),
            (1, 60_000, 9_000, Wanted::Forwarded(4, 1, 39_000)),
            (1, 60_000, 9_000, Wanted::Forwarded(5, 1, 39_000)),
            (1, 60_000, 9_000, Wanted::Refused(RejectCode::RateLimited)),
        ],
        entries: 12,
    },
    Packets {
        title: "a bucket of one packet never refills",
        journal: 64,
        agreed: Agreed {
            burst: 1,
            per_second: 0,
            ..USUAL
        },
        start: 0,
        steps: &[
            (1, 30_000, 0, Wanted::Forwarded(0, 1, 29_000)),
            (
                1,
                LAST_EXPIRY,
                LATEST,
                Wanted::Refused(RejectCode::RateLimited),
            ),
        ],
        entries: 2,
    },
    Packets {
        title: "what is held is within ceiling and credit",
        journal: 64,
        agreed: Agreed {
            ceiling: 2_000,
            credit: 3_000,
            ..USUAL
        },
        start: START,
        steps: &[
            (1_000, 30_000, 0, Wanted::Forwarded(0, 1_500, 29_000)),
            (1_000, 30_000, 0, Wanted::Forwarded(1, 1_500, 29_000)),
        ],
        entries: 2,
    },
    Packets {
        title: "what is held counts against the sender's ceiling",
        journal: 64,
        agreed: Agreed {
            ceiling: 1_999,
            credit: 3_000,
            ..USUAL
        },
        start: START,
        steps: FIRST_ALONE,
        entries: 2,
    },
    Packets {
        title: "what is held counts against the next peer's credit",
        journal: 64,
        agreed: Agreed {
            ceiling: 2_000,
            credit: 2_999,
            ..USUAL
        },
        start: START,
        steps: FIRST_ALONE,
        entries: 2,
    },
    Packets {
        title: "the greatest amounts and moments",
        journal: 8,
        agreed: GREATEST,
        start: 0,
        steps: &[
            (MOST, 30_000, 0, Wanted::Forwarded(0, MOST, 29_000)),
            (
                1,
                30_000,
                0,
                Wanted::Refused(RejectCode::InsufficientLiquidity),
            ),
            (
                0,
                LAST_EXPIRY,
                LATEST,
                Wanted::Forwarded(1, 0, LATEST + 30_000),
            ),
            (
                0,
                LATEST,
                LATEST,
                Wanted::Refused(RejectCode::InsufficientTimeout),
            ),
        ],
        entries: 4,
    },
    Packets {
        title: "the greatest number is over any cap",
        journal: 4,
        agreed: GREATEST,
        start: 0,
        steps: &[(u64::MAX, 30_000, 0, Wanted::TooLarge(u64::MAX, MOST))],
        entries: 1,
    },
    Packets {
        title: "the greatest amount at the least rate",
        journal: 4,
        agreed: Agreed {
            rate: (1, 1_000_000_000_000),
            ..GREATEST
        },
        start: 0,
        steps: &[(MOST, 30_000, 0, Wanted::Forwarded(0, 4_611_686, 29_000))],
        entries: 1,
    },
];

// The rate, the amount and the verdict on it. Everything else that was agreed is the greatest possible.
static RATES: [((u64, u64), u64, Wanted); 5] = [
    ((1, 1), MOST, Wanted::Forwarded(0, MOST, 29_000)),
    ((1, 1_000_000_000_000), 1, Wanted::Forwarded(0, 0, 29_000)),
    (
        (1_000_000_000_000, 1),
        MOST,
        Wanted::TooLarge(MOST, 4_611_686),
    ),
    (
        (1_000_000_000_000, 1),
        4_611_687,
        Wanted::TooLarge(4_611_687, 4_611_686),
    ),
    (
        (1_000_000_000_000, 1),
        4_611_686,
        Wanted::Forwarded(0, 4_611_686_000_000_000_000, 29_000),
    ),
];

// The verdict, whose expiry is counted from the start.
fn verdict_from(start: u64, wanted: Wanted) -> Verdict {
    match wanted {
        Wanted::Forwarded(hold, amount, expiry) => {
            verdict(Wanted::Forwarded(hold, amount, start.saturating_add(expiry)))
        }
        _ => verdict(wanted),
    }
}

fn expect_verdict(
    rt: &impl Abort,
    book: &mut Book,
    start: u64,
    (amount, expiry, now, wanted): (u64, u64, u64, Wanted),
    title: &str,
) -> Result<(), Fail> {
    let found = decide(
        book,
        amount,
        start.saturating_add(expiry),
        start.saturating_add(now),
    )?;
    assert!(rt;
        found == verdict_from(start, wanted),
        "{title}: {amount} at {now}"
    );
    Ok(())
}

fn expect_verdicts(rt: &impl Abort, book: &mut Book, packets: &Packets) -> Result<(), Fail> {
    for step in packets.steps {
        expect_verdict(rt, book, packets.start, *step, packets.title)?;
    }
    assert!(rt; book.entries() == packets.entries, "{}", packets.title);
    Ok(())
}

fn expect_packets(rt: &impl Abort, alloc: Global, packets: &Packets) -> Result<(), Fail> {
    let mut book = book(alloc, packets.journal, packets.agreed, packets.start)?;
    expect_verdicts(rt, &mut book, packets)
}

// The verdict on the first packet, at that rate.
fn expect_at_rate(
    rt: &impl Abort,
    alloc: Global,
    rate: (u64, u64),
    amount: u64,
    wanted: Wanted,
) -> Result<(), Fail> {
    let mut book = book(alloc, 4, Agreed { rate, ..GREATEST }, 0)?;
    expect_verdict(rt, &mut book, 0, (amount, 30_000, 0, wanted), "at a rate")
}

#[test]
fn packets_at_the_bounds_of_what_was_agreed(rt: HostRuntime) -> Result<(), Fail> {
    for packets in &PACKETS {
        expect_packets(&rt, rt.alloc(), packets)?;
    }
    for (rate, amount, wanted) in RATES {
        expect_at_rate(&rt, rt.alloc(), rate, amount, wanted)?;
    }
    Ok(())
}
