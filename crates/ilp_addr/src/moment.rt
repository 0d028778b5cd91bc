//! Moments.

ghost use Rattle.std.specs.Prelude.{◌≡◌, ◌≤◌, ◌↔◌, ℕ, IsSome, IfSome};
ghost use Rattle.ilp_addr.specs.Timestamp.{last_moment};

use std::marker::Model;

/// A moment: the milliseconds since 1970-01-01T00:00:00 UTC, up to 253,400,000,000,000, which is
/// in the year 9999.
#[derive(Clone, Copy, Debug, PartialEq, Eq, PartialOrd, Ord)]
pub struct Moment {
    millis: u64,
}

impl Model for Moment {
    ghost Value = { ℕ };

    ghost view = { λ m. m.millis };

    ghost invariant = { λ m. m.millis ≤ last_moment };

    ghost inverse = { λ n. record { millis = n } };
}

impl Moment {
    /// The greatest moment, in milliseconds.
    pub const MAX_MILLIS: u64 = 253_400_000_000_000;

    /// The moment of that many milliseconds, or `None` past the greatest one.
    pub fn new(millis: u64) -> Option<Moment>
        ensures found { IsSome result ↔ (millis ≤ last_moment) }
        ensures value { IfSome result (λ m. m ≡ millis) }
    {
        if millis <= Moment::MAX_MILLIS {
            Some(Moment { millis })
        } else {
            None
        }
    }

    /// The milliseconds since 1970-01-01T00:00:00 UTC.
    pub fn millis(self) -> u64
        ensures value { result ≡ self }
        ensures bound { result ≤ last_moment }
    {
        self.millis
    }
}
