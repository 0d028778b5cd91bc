//! Numbers that words spell.

ghost use Rattle.std.specs.Prelude.{◌≡◌, ◌+◌, ◌-◌, ◌*◌, ◌%◌, ◌^◌, ◌≤◌, ◌<◌, fold, length, slice_index, IsTrue, ℕ, Option, Some, None, List, ◌&&◌, nat_lt, if◌then◌else◌};
ghost use Rattle.std.specs.List.{list_all};
ghost use Rattle.common_types.specs.Numerals.{is_digit, is_numeral, value_of};
ghost use Rattle.replay_text.specs.Script.{number_below};

use common_types::{is_numeral, value_of};
use std::simd::prelude::*;

/// The value of so many digits is below 2^64.
const SHORT: usize = 19;

/// So many digits are read at once.
const CHUNK: usize = 8;

/// `0` in each of so many bytes.
const ZEROS: u64 = 0x3030_3030_3030_3030;

// 0 in place of each digit, and more in place of any other byte.
#[inline(always)]
fn past_digits(chunk: &[u8; CHUNK]) -> [u8; CHUNK]
    ensures { (i : ℕ) → i < 8 → slice_index result i ≡ (slice_index chunk.now i + 208) % 256 - 9 }
{
    (u8x8::from_array(*chunk) - u8x8::splat(b'0'))
        .saturating_sub(u8x8::splat(9))
        .to_array()
}

// Whether all of them are digits.
fn are_digits(chunk: &[u8; CHUNK]) -> bool
    ensures { result ≡ list_all is_digit chunk.now }
{
    u64::from_le_bytes(past_digits(chunk)) == 0
}

// The value of so many digits. Each other byte of a number has the value of a pair first.
fn value_of_chunk(chunk: &[u8; CHUNK]) -> u64
    requires { IsTrue (list_all is_digit chunk.now) }
    ensures value { result ≡ value_of chunk.now }
    ensures small { result < 10 ^ 8 }
{
    let digits = u64::from_le_bytes(*chunk) - ZEROS;
    let pairs = digits * 10 + (digits >> 8);
    let (first, second) = (pairs % 256, (pairs >> 16) % 256);
    let (third, fourth) = ((pairs >> 32) % 256, (pairs >> 48) % 256);
    ((first * 100 + second) * 100 + third) * 100 + fourth
}

// The value of digits after digits of that value, without what lies above 64 bits. It goes on after a byte that is not a digit.
fn low_value_after(before: u64, word: &[u8]) -> Option<u64>
    ensures { result
        ≡ (if list_all is_digit word.now then Some (fold (λ n d. n * 10 + (d - 48)) before word.now % 2 ^ 64) else None) }
{
    let mut value = before;
    let mut fine = true;
    for byte in word {
        let digit = byte.wrapping_sub(b'0');
        value = value.wrapping_mul(10).wrapping_add(digit as u64);
        fine &= digit < 10;
    }
    fine.then_some(value)
}

// The value of a word of digits, without what lies above 64 bits.
fn low_value_of(word: &[u8]) -> Option<u64>
    ensures { result ≡ (if list_all is_digit word.now then Some (value_of word.now % 2 ^ 64) else None) }
{
    let Some((first, rest)) = word.split_first_chunk::<CHUNK>() else {
        return low_value_after(0, word);
    };
    if !are_digits(first) {
        return None;
    }
    low_value_after(value_of_chunk(first), rest)
}

// Whether a word of digits is one of a number.
fn begins_number(word: &[u8]) -> bool
    ensures { is_numeral word.now ≡ (result && list_all is_digit word.now) }
{
    match word {
        [] => false,
        [_] => true,
        [first, ..] => *first != b'0',
    }
}

// The value of a short numeral.
fn short_value_of(word: &[u8]) -> Option<u64>
    requires { length word.now ≤ SHORT }
    ensures { result ≡ (if is_numeral word.now then Some (value_of word.now) else None) }
{
    if !begins_number(word) {
        return None;
    }
    low_value_of(word)
}

// The value of a numeral that is below 2^64.
fn long_value_of(word: &[u8]) -> Option<u64>
    ensures { result ≡ (if is_numeral word.now && nat_lt (value_of word.now) (2 ^ 64) then Some (value_of word.now) else None) }
{
    if !is_numeral(word) {
        return None;
    }
    u64::try_from(value_of(word)).ok()
}

/// The number that a word spells, if it does and the number is below the bound.
pub(crate) fn number_below(bound: u64, word: &[u8]) -> Option<u64>
    ensures { result ≡ number_below bound word.now }
{
    let value = if word.len() <= SHORT {
        short_value_of(word)
    } else {
        long_value_of(word)
    };
    value.filter(|value| *value < bound)
}
