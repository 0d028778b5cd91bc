//! The greatest numbers, verdicts, and packets of any amount.

use ilp_addr::Address;
use std::process::Abort;
use std::test::Fail;
use tenant_core::{Book, Expiry, PrepareKey, RejectCode, Verdict};
use test_texts::books::{Agreed, START, moment, owed_and_held, send};

// The greatest moment.
pub const LATEST: u64 = 253_400_000_000_000;

// The greatest expiry.
pub const LAST_EXPIRY: u64 = 253_402_128_000_000;

// 2^62, the most of any cap, ceiling or credit.
pub const MOST: u64 = 4_611_686_018_427_387_904;

pub const GREATEST: Agreed = Agreed {
    cap: MOST,
    ceiling: MOST,
    credit: MOST,
    burst: 1_000_000,
    per_second: 1_000_000,
    rate: (1, 1),
};

/// A verdict, in short.
#[derive(Clone, Copy)]
pub enum Wanted {
    NoRoom,
    Refused(RejectCode),
    /// The amount that came, and the greatest that would go on.
    TooLarge(u64, u64),
    /// To p1: the number of the hold, the amount and the expiry.
    Forwarded(u64, u64, u64),
}

pub fn verdict(wanted: Wanted) -> Verdict {
    match wanted {
        Wanted::NoRoom => Verdict::NoRoom,
        Wanted::Refused(code) => Verdict::Refuse {
            code,
            amounts: None,
        },
        Wanted::TooLarge(amount, greatest) => Verdict::Refuse {
            code: RejectCode::AmountTooLarge,
            amounts: Some((amount, greatest)),
        },
        Wanted::Forwarded(hold, amount, expiry) => Verdict::Forward {
            hold,
            peer: 1,
            amount,
            expiry,
        },
    }
}

pub fn decide(book: &mut Book, amount: u64, expiry: u64, now: u64) -> Result<Verdict, Fail> {
    let destination = Address::parse(b"g.acme.bob.x")?;
    let key = PrepareKey {
        amount,
        expiry: Expiry::new(expiry).ok_or("an expiry")?,
        condition: &[7; 32],
        destination: &destination,
    };
    let now = moment(now)?;
    Ok(book.decide(b"p0", &key, now))
}

pub fn expect_sent(rt: &impl Abort, book: &mut Book) -> Result<(), Fail> {
    let sent = send(book, START)?;
    assert!(rt; sent == verdict(Wanted::Forwarded(0, 1_500, START + 29_000)));
    assert!(rt; owed_and_held(book)? == (0, 0, 1_000, 1_500));
    Ok(())
}
