//! Numbers in decimal digits.

ghost use Rattle.std.specs.Prelude.{◌≡◌, ◌^◌, min};
ghost use Rattle.std.specs.List.{list_all};
ghost use Rattle.common_types.specs.Numerals.{is_digit, is_numeral, value_of, number_in};

use crate::between::Between;

/// Why a word spells no number within its limits.
#[derive(Clone, Copy, Debug, PartialEq, Eq, Drop)]
pub enum NumberFault {
    /// It is neither `0` nor digits without a leading zero.
    Malformed,
    /// It is such a number, but less than the least or more than the greatest.
    Outside,
}

/// Whether all of the bytes are decimal digits.
pub fn are_digits(bytes: &[u8]) -> bool
    ensures { result ≡ list_all is_digit bytes.now }
{
    bytes.iter().all(|b| b'0' <= *b && *b <= b'9')
}

/// Whether a word is `0` or digits that do not begin with `0`.
pub fn is_numeral(word: &[u8]) -> bool
    ensures { result ≡ is_numeral word.now }
{
    match word {
        [] => false,
        [_] => are_digits(word),
        [first, ..] => *first != b'0' && are_digits(word),
    }
}

/// The value of digits, or 2^64 if it is at least that.
pub fn value_of(digits: &[u8]) -> u128
    ensures { result ≡ min (value_of digits.now) (2 ^ 64) }
{
    let mut value: u128 = 0;
    for digit in digits {
        let more = value * 10 + digit.saturating_sub(b'0') as u128;
        value = more.min(1 << 64);
    }
    value
}

/// The number from `LOW` to `HIGH` that a word spells.
#[tactic(auto, unfolding(crate::specs::Numerals::number_in))]
pub fn number_in<const LOW: u64, const HIGH: u64>(
    word: &[u8],
) -> Result<Between<LOW, HIGH>, NumberFault>
    ensures { result ≡ number_in LOW HIGH word.now }
{
    if !is_numeral(word) {
        return Err(NumberFault::Malformed);
    }
    match u64::try_from(value_of(word)) {
        Ok(value) => Between::new(value).ok_or(NumberFault::Outside),
        Err(_) => Err(NumberFault::Outside),
    }
}
