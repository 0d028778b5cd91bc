//! Prices: exact products, rounded down, that were worked out by hand.

use super::rows::expect_at;
use money_core::{Rate, RateFault};
use std::process::Abort;
use std::test::Fail;

// A numerator, a denominator, and why they are no rate.
static REFUSED: [(u64, u64, RateFault); 4] = [
    (0, 1, RateFault::Zero),
    (1, 0, RateFault::Zero),
    (1_000_000_000_001, 1, RateFault::Limit),
    (1, 1_000_000_000_001, RateFault::Limit),
];

fn expect_refused(rt: &impl Abort, rows: &[(u64, u64, RateFault)]) {
    for (numerator, denominator, fault) in rows {
        assert!(rt; Rate::new(*numerator, *denominator).err() == Some(*fault));
    }
}

// An amount and its price at 3/2.
static PRICES: [(u64, u128); 5] = [(0, 0), (1, 1), (2, 3), (999, 1_498), (1_000, 1_500)];

fn expect_prices(rt: &impl Abort, rate: &Rate, rows: &[(u64, u128)]) {
    for (amount, price) in rows {
        expect_at(rt, *amount, rate.price(*amount) == *price);
    }
}

// A limit of amounts, the greatest price, and the greatest amount at 3/2.
static GREATEST: [(u64, u64, u64); 5] = [
    (1_000_000, 1_499, 999),
    (1_000_000, 999, 666),
    (1_000_000, 1_000, 667),
    (500, 1_000, 500),
    (1_000_000, 0, 0),
];

fn expect_greatest(rt: &impl Abort, rate: &Rate, rows: &[(u64, u64, u64)]) {
    for (limit, most, greatest) in rows {
        expect_at(rt, *most, rate.greatest(*limit, *most) == *greatest);
    }
}

// An amount, a fee, and the price less the fee at 3/2.
static LESS: [(u64, u64, Option<u128>); 4] = [
    (1_000, 500, Some(1_000)),
    (1_000, 1_500, Some(0)),
    (1_000, 1_501, None),
    (0, 0, Some(0)),
];

fn expect_less(rt: &impl Abort, rate: &Rate, rows: &[(u64, u64, Option<u128>)]) {
    for (amount, fee, less) in rows {
        expect_at(rt, *fee, rate.price_less(*amount, *fee) == *less);
    }
}

#[test]
fn prices_and_greatest_amounts(rt: HostRuntime) -> Result<(), Fail> {
    expect_refused(&rt, &REFUSED);
    let half_more = Rate::new(3, 2)?;
    expect_prices(&rt, &half_more, &PRICES);
    expect_greatest(&rt, &half_more, &GREATEST);
    expect_less(&rt, &half_more, &LESS);
    let dearest = Rate::new(1_000_000_000_000, 1)?;
    assert!(rt; dearest.greatest(1 << 62, 1 << 62) == 4_611_686);
    Ok(())
}
