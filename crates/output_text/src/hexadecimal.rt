//! Hexadecimal text. No branch depends on a digit, so that many are tested, read and written at a time.

ghost use Rattle.std.specs.Prelude.{◌≡◌, ◌↔◌, ◌||◌, ◌&&◌, ◌+◌, ◌*◌, ◌/◌, ◌%◌, ◌<◌, ◌≤◌, ◌-◌, ◌++◌, ◌==◌, true, drop, length, Ok, Some, OnOk, IfOk, if◌then◌else◌, slice_index, codes, IsTrue, ℕ, is_some, option_copied};
ghost use Rattle.std.specs.List.{list_all};
ghost use Rattle.std.specs.Result.{result_ok};
ghost use Rattle.output_text.specs.Printed.{Puts};
ghost use Rattle.hex.specs.Hex.{decode_pairs, decode_of, encode_lower, hex_digit_value, is_hex_digit, lower_digits, pair_value};

use std::alloc::AllocError;
use std::simd::prelude::*;

/// So many digits are tested at once.
const CHUNK: usize = 32;

/// So many bytes are read or written as digits at once.
const BYTES: usize = 16;

/// So many digits these have.
const DIGITS: usize = 32;

// 0 of a digit in either case, and more of any other byte.
fn past_digits(byte: u8) -> u8
    ensures { (result == 0) ≡ is_hex_digit byte }
{
    let decimal = byte.wrapping_sub(b'0').saturating_sub(9);
    let capital = byte.wrapping_sub(b'A').saturating_sub(5);
    let small = byte.wrapping_sub(b'a').saturating_sub(5);
    decimal.min(capital).min(small)
}

// Whether all bytes are digits. It goes on after one that is not a digit.
#[inline(always)]
fn each_is_digit(text: &[u8]) -> bool
    ensures { result ≡ list_all is_hex_digit text.now }
{
    let mut worst: u8 = 0;
    for byte in text {
        worst = worst.max(past_digits(*byte));
    }
    worst == 0
}

fn chunks_are_digits(chunks: &[[u8; CHUNK]]) -> bool
    ensures { result ≡ list_all (λ chunk. list_all is_hex_digit chunk) chunks.now }
{
    chunks.iter().all(|chunk| each_is_digit(chunk))
}

/// Whether all bytes of a text are digits, in either case.
pub fn are_digits(text: &[u8]) -> bool
    ensures { result ≡ list_all is_hex_digit text.now }
{
    let Some(last) = text.last_chunk::<CHUNK>() else {
        return each_is_digit(text);
    };
    // The last chunk may begin in the one before it, so that no few bytes are left over.
    let (chunks, _) = text.as_chunks::<CHUNK>();
    chunks_are_digits(chunks) && each_is_digit(last)
}

/// Whether a text spells bytes: an even number of digits in either case.
pub fn spells_bytes(text: &[u8]) -> bool
    ensures { result ≡ is_some (result_ok (decode_of text.now)) }
{
    text.len() % 2 == 0 && are_digits(text)
}

// The value of a digit: the low four bits of `0` to `9`, and 9 more than those of a letter.
fn value_of(digit: u16) -> u16
    requires { IsTrue (is_hex_digit digit) }
    ensures value { hex_digit_value digit ≡ Some result }
    ensures small { result < 16 }
{
    digit % 16 + digit / 64 * 9
}

// The byte of two digits, which are read as one number of 16 bits: so the compiler reads many pairs at a time.
fn byte_of(pair: [u8; 2]) -> u8
    requires high { IsTrue (is_hex_digit (slice_index pair 0)) }
    requires low { IsTrue (is_hex_digit (slice_index pair 1)) }
    ensures { (i : ℕ) → pair_value (slice_index pair 0) (slice_index pair 1) i ≡ Ok result }
{
    let both = u16::from_le_bytes(pair);
    let high = value_of(both % 256);
    let low = value_of(both / 256);
    (high * 16 + low) as u8
}

// Puts the bytes that a few digits spell into room for them.
fn decode_few(text: &[u8], out: &mut [u8])
    requires digits { IsTrue (is_some (result_ok (decode_of text.now))) }
    requires room { length text.now ≡ 2 * length out.old }
    ensures { decode_of text.now ≡ Ok out.new }
{
    let (pairs, _) = text.as_chunks::<2>();
    for i in 0..out.len() {
        out[i] = byte_of(pairs[i]);
    }
}

// 0 at each of 32 places where a byte is `first` or one of the next `more`, and more where another byte is.
#[inline(always)]
fn past_range(bytes: u8x32, first: u8, more: u8) -> u8x32
    ensures { (i : ℕ) → i < 32 → slice_index result i ≡ (slice_index bytes i + (256 - first)) % 256 - more }
{
    (bytes - u8x32::splat(first)).saturating_sub(u8x32::splat(more))
}

// 0 where one of two lanes is 0.
#[inline(always)]
fn zero_in_one(a: u8x32, b: u8x32) -> u8x32
    ensures { (i : ℕ) → i < 32 → (slice_index result i == 0) ≡ (slice_index a i == 0 || slice_index b i == 0) }
{
    a.simd_min(b)
}

// 0 where both of two lanes are 0.
#[inline(always)]
fn zero_in_both(a: u8x32, b: u8x32) -> u8x32
    ensures { (i : ℕ) → i < 32 → (slice_index result i == 0) ≡ (slice_index a i == 0 && slice_index b i == 0) }
{
    a.simd_max(b)
}

// 0 at each of 32 places where a digit is, in either case, and more where another byte is.
fn non_digits(digits: u8x32) -> u8x32
    ensures { (i : ℕ) → i < 32 → (slice_index result i == 0) ≡ is_hex_digit (slice_index digits i) }
{
    let decimal = past_range(digits, b'0', 9);
    let capital = past_range(digits, b'A', 5);
    let small = past_range(digits, b'a', 5);
    zero_in_one(zero_in_one(decimal, capital), small)
}

// The values of 32 digits, in either case. At another byte it is any value.
fn values_of(digits: u8x32) -> u8x32
    ensures values { (i : ℕ) → i < 32 → IsTrue (is_hex_digit (slice_index digits i))
        → (hex_digit_value (slice_index digits i) ≡ Some (slice_index result i)) × (slice_index result i < 16) }
{
    let is_letter = digits.simd_ge(u8x32::splat(b'A' - 1));
    let more = is_letter.select(u8x32::splat(9), u8x32::splat(0));
    (digits & u8x32::splat(15)) + more
}

// Each two values below 16 as one byte, the high four bits first.
fn joined(values: u8x32) -> u8x16
    ensures { (i : ℕ) → i < 16 → slice_index values (2 * i) < 16 → slice_index values (2 * i + 1) < 16
        → slice_index result i ≡ slice_index values (2 * i) * 16 + slice_index values (2 * i + 1) }
{
    let high = values.swizzle([0, 2, 4, 6, 8, 10, 12, 14, 16, 18, 20, 22, 24, 26, 28, 30]);
    let low = values.swizzle([1, 3, 5, 7, 9, 11, 13, 15, 17, 19, 21, 23, 25, 27, 29, 31]);
    high * u8x16::splat(16) + low
}

// Puts the bytes that 32 digits spell at a place of the room. Of other bytes it puts any bytes.
fn put_bytes_of(digits: u8x32, out: &mut [u8], at: usize)
    requires room { at + 16 ≤ length out.old }
    ensures size { length out.new ≡ length out.old }
    ensures bytes { (k : ℕ) → k < 16 → IsTrue (is_hex_digit (slice_index digits (2 * k))) → IsTrue (is_hex_digit (slice_index digits (2 * k + 1)))
        → (i : ℕ) → pair_value (slice_index digits (2 * k)) (slice_index digits (2 * k + 1)) i ≡ Ok (slice_index out.new (at + k)) }
    ensures before { (k : ℕ) → k < at → slice_index out.new k ≡ slice_index out.old k }
{
    joined(values_of(digits)).copy_to_slice(&mut out[at..]);
}

// Whether all lanes are 0.
fn are_zeros(lanes: u8x32) -> bool
    ensures { (result ≡ true) ↔ ((i : ℕ) → i < 32 → slice_index lanes i ≡ 0) }
{
    lanes.simd_ne(u8x32::splat(0)).to_bitmask() == 0
}

// Whether a text of 32 digits or more is digits. Then it puts the bytes that they spell into room for them, sixteen at a time.
// The last sixteen may overlap those before them, so that no few are left over.
fn decode_into(text: &[u8], last: &[u8; DIGITS], out: &mut [u8]) -> bool
    requires last { last.now ≡ drop (length text.now - 32) text.now }
    requires long { 32 ≤ length text.now }
    requires room { length text.now ≡ 2 * length out.old }
    ensures digits { result ≡ list_all is_hex_digit text.now }
    ensures bytes { result ≡ true → decode_of text.now ≡ Ok out.new }
{
    let (chunks, _) = text.as_chunks::<DIGITS>();
    let mut others = u8x32::splat(0);
    for i in 0..chunks.len() {
        let digits = u8x32::from_array(chunks[i]);
        others = zero_in_both(others, non_digits(digits));
        put_bytes_of(digits, out, BYTES * i);
    }
    let end = out.len() - BYTES;
    let digits = u8x32::from_array(*last);
    put_bytes_of(digits, out, end);
    are_zeros(zero_in_both(others, non_digits(digits)))
}

// Whether a text of an even length is digits. Then it puts the bytes that they spell into room for them.
fn decodes_into(text: &[u8], out: &mut [u8]) -> bool
    requires room { length text.now ≡ 2 * length out.old }
    ensures digits { result ≡ list_all is_hex_digit text.now }
    ensures bytes { result ≡ true → decode_of text.now ≡ Ok out.new }
{
    if let Some(last) = text.last_chunk::<DIGITS>() {
        return decode_into(text, last, out);
    }
    if !each_is_digit(text) {
        return false;
    }
    decode_few(text, out);
    true
}

/// The bytes that a text spells, in the room, whose items it overwrites. The room grows to half of the text's length if it is
/// shorter. `None` if the number of digits is odd, or if a byte is not a digit. Fails only if it is out of memory.
pub fn decode<'a>(text: &[u8], room: &'a mut Vec<u8>) -> Result<Option<&'a [u8]>, AllocError>
    ensures { IfOk result (λ bytes. option_copied bytes ≡ result_ok (decode_of text.now)) }
{
    if text.len() % 2 != 0 {
        return Ok(None);
    }
    let size = text.len() / 2;
    if room.len() < size {
        room.resize(size, 0)?;
    }
    let bytes = &mut room.as_mut_slice()[..size];
    if decodes_into(text, bytes) {
        Ok(Some(bytes))
    } else {
        Ok(None)
    }
}

fn digit_of(value: u8) -> u8
    requires { value < 16 }
    ensures { result ≡ slice_index (codes "0123456789abcdef") value }
{
    if value < 10 {
        b'0' + value
    } else {
        b'a' - 10 + value
    }
}

// Puts the digits of a few bytes into room for them.
fn encode_few(bytes: &[u8], out: &mut [u8])
    requires { length out.old ≡ 2 * length bytes.now }
    ensures { out.new ≡ encode_lower bytes.now }
{
    for i in 0..bytes.len() {
        let byte = bytes[i];
        out[2 * i] = digit_of(byte / 16);
        out[2 * i + 1] = digit_of(byte % 16);
    }
}

// The values of the two digits of each byte, the high four bits first.
fn spread(bytes: u8x16) -> u8x32
    ensures high { (i : ℕ) → i < 16 → slice_index result (2 * i) ≡ slice_index bytes i / 16 }
    ensures low { (i : ℕ) → i < 16 → slice_index result (2 * i + 1) ≡ slice_index bytes i % 16 }
{
    let high = bytes >> u8x16::splat(4);
    let low = bytes & u8x16::splat(15);
    high.shuffle(
        low,
        [
            0, 16, 1, 17, 2, 18, 3, 19, 4, 20, 5, 21, 6, 22, 7, 23, 8, 24, 9, 25, 10, 26, 11, 27,
            12, 28, 13, 29, 14, 30, 15, 31,
        ],
    )
}

// The digits of 32 values.
fn digits_of(values: u8x32) -> u8x32
    requires { (i : ℕ) → i < 32 → slice_index values i < 16 }
    ensures { (i : ℕ) → i < 32 → slice_index result i ≡ slice_index lower_digits (slice_index values i) }
{
    let is_letter = values.simd_ge(u8x32::splat(10));
    values + is_letter.select(u8x32::splat(b'a' - 10), u8x32::splat(b'0'))
}

// Puts the digits of sixteen bytes at a place of the room.
fn put_digits_of(bytes: &[u8; BYTES], out: &mut [u8], at: usize)
    requires room { at + 32 ≤ length out.old }
    ensures size { length out.new ≡ length out.old }
    ensures high { (k : ℕ) → k < 16 → slice_index out.new (at + 2 * k) ≡ slice_index lower_digits (slice_index bytes.now k / 16) }
    ensures low { (k : ℕ) → k < 16 → slice_index out.new (at + (2 * k + 1)) ≡ slice_index lower_digits (slice_index bytes.now k % 16) }
    ensures before { (k : ℕ) → k < at → slice_index out.new k ≡ slice_index out.old k }
{
    let digits = digits_of(spread(u8x16::from_array(*bytes)));
    digits.copy_to_slice(&mut out[at..]);
}

// Puts the digits of bytes into room for them, those of sixteen bytes at a time. The last sixteen may overlap those before them.
fn encode_into(bytes: &[u8], out: &mut [u8])
    requires { length out.old ≡ 2 * length bytes.now }
    ensures { out.new ≡ encode_lower bytes.now }
{
    let Some(last) = bytes.last_chunk::<BYTES>() else {
        encode_few(bytes, out);
        return;
    };
    let (chunks, _) = bytes.as_chunks::<BYTES>();
    for i in 0..chunks.len() {
        put_digits_of(&chunks[i], out, DIGITS * i);
    }
    let end = out.len() - DIGITS;
    put_digits_of(last, out, end);
}

/// Appends the digits of some bytes to a text, in lower case.
pub(crate) fn put_hex(out: &mut Vec<u8>, bytes: &[u8]) -> Result<(), AllocError>
    ensures { Puts result out.old out.new (encode_lower bytes.now) }
{
    let begin = out.len();
    let Some(size) = bytes.len().checked_mul(2) else {
        return Err(AllocError);
    };
    let Some(end) = begin.checked_add(size) else {
        return Err(AllocError);
    };
    out.resize(end, 0)?;
    encode_into(bytes, &mut out.as_mut_slice()[begin..]);
    Ok(())
}
