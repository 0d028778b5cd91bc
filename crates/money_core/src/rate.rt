//! Rates between the units of two peers.

use std::marker::Model;
use thiserror::Error;

/// Why two numbers are not a rate.
#[derive(Clone, Copy, Debug, PartialEq, Eq, Error)]
pub enum RateFault {
    /// One of the two numbers is 0.
    #[error("a rate's numerator and denominator are at least 1")]
    Zero,
    /// One of the two numbers is over 10^12.
    #[error("a rate's numerator and denominator are at most 1000000000000")]
    Limit,
}

/// A price for each unit that comes in: a fraction of two whole numbers from 1 to 10^12.
#[derive(Clone, Copy)]
pub struct Rate {
    numerator: u64,
    denominator: u64,
}

impl Model for Rate {
    ghost use Rattle.std.specs.Prelude.{ℕ};
    ghost use Rattle.money_core.specs.Fraction.{Fraction, IsFraction};

    ghost Value = { Fraction };

    ghost view = { λ r. record { numerator = r.numerator; denominator = r.denominator } };

    ghost invariant = { λ r. IsFraction r.numerator r.denominator };

    ghost inverse = { λ f. record { numerator = f.numerator; denominator = f.denominator } };
}

impl Rate {
    /// The greatest numerator and denominator.
    pub const MAX_TERM: u64 = 1_000_000_000_000;
}

impl Rate {
    ghost use Rattle.std.specs.Prelude.{◌≡◌, Result};
    ghost use Rattle.money_core.specs.Price.{rate_at};

    /// The rate of `numerator` outgoing units for `denominator` incoming ones.
    ///
    /// Errors: `Zero` if one of them is 0, otherwise `Limit` if one is over 10^12.
    pub fn new(numerator: u64, denominator: u64) -> Result<Rate, RateFault>
        ensures { result ≡ rate_at numerator denominator }
    {
        if numerator == 0 || denominator == 0 {
            return Err(RateFault::Zero);
        }
        if numerator > Rate::MAX_TERM || denominator > Rate::MAX_TERM {
            return Err(RateFault::Limit);
        }
        Ok(Rate {
            numerator,
            denominator,
        })
    }
}

impl Rate {
    ghost use Rattle.std.specs.Prelude.{◌≡◌};
    ghost use Rattle.money_core.specs.Fraction.{IsFraction};

    /// The outgoing units.
    pub fn numerator(self) -> u64
        ensures value { result ≡ self.numerator }
        ensures fraction { IsFraction self.numerator self.denominator }
    {
        self.numerator
    }

    /// The incoming units that they are for.
    pub fn denominator(self) -> u64
        ensures value { result ≡ self.denominator }
        ensures fraction { IsFraction self.numerator self.denominator }
    {
        self.denominator
    }
}

impl Rate {
    ghost use Rattle.std.specs.Prelude.{◌≡◌, ◌+◌, ◌<◌, IfNone, IfSome};
    ghost use Rattle.money_core.specs.Price.{price_of, price_less, greatest_amount, IsPrice, IsGreatestAmount};

    /// What `amount` incoming units cost in outgoing ones: the exact product, rounded down.
    pub fn price(self, amount: u64) -> u128
        ensures price { IsPrice self amount result }
        ensures exact { result ≡ price_of self amount }
    {
        amount as u128 * self.numerator as u128 / self.denominator as u128
    }

    /// The price of `amount` incoming units in outgoing units, less a fee in outgoing units. `None` if the price is
    /// below the fee.
    pub fn price_less(self, amount: u64, fee: u64) -> Option<u128>
        ensures left { IfSome result (λ left. left + fee ≡ price_of self amount) }
        ensures below { IfNone result (price_of self amount < fee) }
        ensures exact { result ≡ price_less self amount fee }
    {
        let price = self.price(amount);
        if price < fee as u128 {
            None
        } else {
            Some(price - fee as u128)
        }
    }

    /// The greatest amount up to `limit` whose price is at most `max`.
    pub fn greatest(self, limit: u64, max: u64) -> u64
        ensures greatest { IsGreatestAmount self limit max result }
        ensures exact { result ≡ greatest_amount self limit max }
    {
        let most = ((max as u128 + 1) * self.denominator as u128 - 1) / self.numerator as u128;
        if most < limit as u128 {
            most as u64
        } else {
            limit
        }
    }
}
