ghost use Rattle.std.specs.Prelude.{◌≡◌, ◌+◌, ◌<◌, ◌≤◌, ◌^◌, ◌++◌, ℕ, List, length, take, IfOk, IsOkAnd, Ok};
ghost use Rattle.std.specs.Int.{w64, to_be_bytes};
ghost use Rattle.common_types.specs.Outcomes.{Gives};
ghost use Rattle.oer_core.specs.Length.{IsLength, IsOctetString, BeginsWithString, big_endian, length_at, octets_at};
ghost use Rattle.oer_core.specs.Length.{number_at};

use crate::fault::OerFault;

fn number_of(bytes: &[u8]) -> usize
    requires { length bytes.now ≤ 8 }
    ensures { result ≡ big_endian bytes.now }
{
    let mut value: usize = 0;
    for byte in bytes {
        value = value * 256 + *byte as usize;
    }
    value
}

#[tactic(auto, unfolding(crate::specs::Length::length_at))]
fn length_of(bytes: &[u8], limit: usize) -> Result<(usize, usize), OerFault>
    ensures { result ≡ length_at limit bytes.now }
{
    let Some((first, rest)) = bytes.split_first() else {
        return Err(OerFault::Short);
    };
    let first = *first as usize;
    if first < 128 {
        return if first <= limit {
            Ok((first, 1))
        } else {
            Err(OerFault::TooLong)
        };
    }
    if first == 128 || first > 136 {
        return Err(OerFault::BadLength);
    }
    let count = first - 128;
    if rest.len() < count {
        return Err(OerFault::Short);
    }
    let value = number_of(&rest[..count]);
    if value > limit {
        return Err(OerFault::TooLong);
    }
    Ok((value, count + 1))
}

/// Reads the length at the front of `bytes`, in any spelling, also a longer one than needed.
/// Returns the length, and how many bytes spell it.
///
/// `limit` is the greatest length that is accepted. Errors, in the order of the tests: `Short` if
/// the bytes end inside the length, `BadLength` if the first byte cannot begin a length, `TooLong`
/// if the length is over `limit`. (RFC 0030)
pub fn read_length(bytes: &[u8], limit: usize) -> Result<(usize, usize), OerFault>
    // A length that is read is spelled by that many bytes, and is within the limit.
    ensures found { IfOk result (λ r.
        (r.1 ≤ length bytes.now) × IsLength (take r.1 bytes.now) r.0 × (r.0 ≤ limit)) }
    // A length that is spelled is read, whatever follows it.
    ensures only { (s rest : List ℕ) (n : ℕ) → IsLength s n → n ≤ limit
        → bytes.now ≡ s ++ rest → result ≡ Ok (n, length s) }
    // Which fault it is.
    ensures exact { result ≡ length_at limit bytes.now }
{
    length_of(bytes, limit)
}

#[tactic(auto, unfolding(crate::specs::Length::octets_at))]
fn octets_of(bytes: &[u8], limit: usize) -> Result<(&[u8], &[u8]), OerFault>
    ensures { Gives (λ r. (r.0.now, r.1.now)) result (octets_at limit bytes.now) }
{
    let (len, taken) = read_length(bytes, limit)?;
    let rest = &bytes[taken..];
    if rest.len() < len {
        return Err(OerFault::Short);
    }
    Ok(rest.split_at(len))
}

/// Reads the octet string at the front of `bytes`. Returns its text and the bytes after it, both
/// borrowed from `bytes`.
///
/// `limit` is the greatest length of the text in bytes. Errors: those of [`read_length`], and
/// `Short` if the text goes past the end. (RFC 0030)
pub fn read_octets(bytes: &[u8], limit: usize) -> Result<(&[u8], &[u8]), OerFault>
    // A text that is read is at the front, within the limit, and the rest follows it.
    ensures found { IfOk result (λ r.
        BeginsWithString bytes.now r.0.now r.1.now × (length r.0.now ≤ limit)) }
    // A text at the front is read, whatever follows it.
    ensures only { (front text rest : List ℕ) → IsOctetString front text → length text ≤ limit
        → bytes.now ≡ front ++ rest
        → IsOkAnd result (λ r. (r.0.now ≡ text) × (r.1.now ≡ rest)) }
    // Which fault it is.
    ensures exact { Gives (λ r. (r.0.now, r.1.now)) result (octets_at limit bytes.now) }
{
    octets_of(bytes, limit)
}

#[tactic(auto, unfolding(crate::specs::Length::number_at))]
fn u64_of(bytes: &[u8]) -> Result<(u64, &[u8]), OerFault>
    ensures { Gives (λ r. (r.0, r.1.now)) result (number_at bytes.now) }
{
    if bytes.len() < 8 {
        return Err(OerFault::Short);
    }
    let (front, rest) = bytes.split_at(8);
    let number = u64::from_be_bytes([
        front[0], front[1], front[2], front[3], front[4], front[5], front[6], front[7],
    ]);
    Ok((number, rest))
}

/// Reads a number from the first eight bytes, the highest byte first. Returns it and the bytes
/// after it.
///
/// Errors: `Short` if there are fewer than eight bytes. (RFC 0030, UInt64)
pub fn read_u64(bytes: &[u8]) -> Result<(u64, &[u8]), OerFault>
    // A number that is read is spelled by those bytes.
    ensures found { IfOk result (λ r. (r.0 < 2 ^ 64) × (bytes.now ≡ to_be_bytes w64 r.0 ++ r.1.now)) }
    // A number that is spelled is read, whatever follows it.
    ensures only { (n : ℕ) (rest : List ℕ) → n < 2 ^ 64 → bytes.now ≡ to_be_bytes w64 n ++ rest
        → IsOkAnd result (λ r. (r.0 ≡ n) × (r.1.now ≡ rest)) }
    // Which fault it is.
    ensures exact { Gives (λ r. (r.0, r.1.now)) result (number_at bytes.now) }
{
    u64_of(bytes)
}
