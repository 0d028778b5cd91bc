//! Searches of a text, many bytes at a time.

ghost use Rattle.std.specs.Prelude.{◌≡◌, ◌==◌, nat_lt};
ghost use Rattle.std.specs.List.{position, position_or_len, list_all};

use memchr::memchr;
use std::simd::prelude::*;

/// So many bytes are looked at at once.
const NEAR: usize = 16;

/// The place of the first byte that is this one.
pub(crate) fn place_of(byte: u8, bytes: &[u8]) -> Option<usize>
    ensures { result ≡ position (λ b. b == byte) bytes.now }
{
    memchr(byte, bytes)
}

// The place of the first of these that is this byte, or their number.
fn place_among(byte: u8, bytes: &[u8; NEAR]) -> usize
    ensures { result ≡ position_or_len (λ b. b == byte) bytes.now }
{
    let marks = u8x16::from_array(*bytes)
        .simd_eq(u8x16::splat(byte))
        .to_bitmask();
    if marks == 0 {
        NEAR
    } else {
        marks.trailing_zeros() as usize
    }
}

/// The same as `place_of`, faster where that byte is among the first few of a longer text.
#[inline(always)]
pub(crate) fn near_place_of(byte: u8, bytes: &[u8]) -> Option<usize>
    ensures { result ≡ position (λ b. b == byte) bytes.now }
{
    if let Some(first) = bytes.first_chunk::<NEAR>() {
        let place = place_among(byte, first);
        if place < NEAR {
            return Some(place);
        }
    }
    place_of(byte, bytes)
}

/// Whether each byte is below 128.
pub(crate) fn is_ascii(line: &[u8]) -> bool
    ensures { result ≡ list_all (λ b. nat_lt b 128) line.now }
{
    line.is_ascii()
}
