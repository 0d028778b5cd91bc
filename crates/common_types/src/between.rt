//! Numbers within limits.

ghost use Rattle.std.specs.Prelude.{◌≡◌, true, Some, None, if◌then◌else◌};
ghost use Rattle.common_types.specs.Numbers.{is_between};

use std::marker::Model;

/// A number from `LOW` to `HIGH`, both included.
#[derive(Clone, Copy, Debug, PartialEq, Eq)]
pub struct Between<const LOW: u64, const HIGH: u64> {
    number: u64,
}

impl<const LOW: u64, const HIGH: u64> Model for Between<LOW, HIGH> {
    ghost use Rattle.std.specs.Prelude.{ℕ, ◌≡◌, true};
    ghost use Rattle.common_types.specs.Numbers.{is_between};

    ghost Value = { ℕ };

    ghost view = { λ b. b.number };

    ghost invariant = { λ b. is_between LOW HIGH b.number ≡ true };

    ghost inverse = { λ n. record { number = n } };
}

impl<const LOW: u64, const HIGH: u64> Between<LOW, HIGH> {
    /// The number, if it is within the limits.
    pub fn new(number: u64) -> Option<Between<LOW, HIGH>>
        ensures { result ≡ (if is_between LOW HIGH number then Some number else None) }
    {
        if LOW <= number && number <= HIGH {
            Some(Between { number })
        } else {
            None
        }
    }

    /// The number.
    pub fn get(self) -> u64
        ensures value { result ≡ self.entry }
        ensures within { is_between LOW HIGH result ≡ true }
    {
        self.number
    }
}
