ghost use Rattle.std.specs.Prelude.{◌≡◌, ◌+◌, ◌≤◌, ◌↔◌, ◌++◌, length, take, drop, IfOk, IfErr, IsOk, IsTrue};
ghost use Rattle.std.specs.Int.{w64, to_be_bytes};
ghost use Rattle.oer_core.specs.Length.{shortest_length, without_leading_zeros, octet_string};
ghost use Rattle.oer_core.specs.Writing.{overwritten, Writes};

use crate::fault::OerFault;

fn has_room(out: &[u8], at: usize, count: usize) -> bool
    ensures { IsTrue result ↔ (at + count ≤ length out.now) }
{
    at <= out.len() && count <= out.len() - at
}

/// Writes `bytes` into `out` from index `at` on. The caller makes sure that they fit. Every other byte
/// of `out` stays.
pub fn put_bytes(out: &mut [u8], at: usize, bytes: &[u8])
    requires { at + length bytes.now ≤ length out.old }
    ensures { out.new ≡ overwritten out.old at bytes.now }
{
    out[at..at + bytes.len()].copy_from_slice(bytes);
}

#[tactic(auto, unfolding(crate::specs::Length::without_leading_zeros))]
fn digits_of(bytes: &[u8]) -> &[u8]
    ensures digits { result.now ≡ without_leading_zeros bytes.now }
    ensures within { length result.now ≤ length bytes.now }
{
    let mut rest = bytes;
    while let [0, after @ ..] = rest {
        rest = after;
    }
    rest
}

/// How many bytes the shortest spelling of the length `count` takes, at most 9. (RFC 0030)
#[tactic(auto, unfolding(crate::specs::Length::shortest_length))]
pub fn length_size(count: usize) -> usize
    ensures size { result ≡ length (shortest_length count) }
    ensures within { result ≤ 9 }
{
    if count < 128 {
        return 1;
    }
    let bytes = (count as u64).to_be_bytes();
    digits_of(&bytes).len() + 1
}

/// Writes the shortest spelling of the length `count` into `out` from index `at` on, and returns the
/// index after it. The caller makes sure that it fits. Every other byte of `out` stays. (RFC 0030)
#[tactic(auto, unfolding(crate::specs::Length::shortest_length))]
pub fn put_length(out: &mut [u8], at: usize, count: usize) -> usize
    requires { at + length (shortest_length count) ≤ length out.old }
    ensures end { result ≡ at + length (shortest_length count) }
    ensures written { out.new ≡ overwritten out.old at (shortest_length count) }
{
    if count < 128 {
        put_bytes(out, at, &[count as u8]);
        return at + 1;
    }
    let bytes = (count as u64).to_be_bytes();
    let digits = digits_of(&bytes);
    put_bytes(out, at, &[128 + digits.len() as u8]);
    put_bytes(out, at + 1, digits);
    at + 1 + digits.len()
}

/// Writes `bytes` as an octet string into `out` from index `at` on, and returns the index after it.
/// The length has the shortest spelling. The caller makes sure that the string fits. Every other byte
/// of `out` stays. (RFC 0030)
pub fn put_octets(out: &mut [u8], at: usize, bytes: &[u8]) -> usize
    requires { at + length (octet_string bytes.now) ≤ length out.old }
    ensures end { result ≡ at + length (octet_string bytes.now) }
    ensures written { out.new ≡ overwritten out.old at (octet_string bytes.now) }
{
    let text_at = put_length(out, at, bytes.len());
    put_bytes(out, text_at, bytes);
    text_at + bytes.len()
}

/// Writes the shortest spelling of the length `count` into `out` from index `at` on, and returns the
/// index after it. Every other byte of `out` stays.
///
/// Errors: `Short` if it does not fit, also if `at` is past the end. Nothing is written then. (RFC
/// 0030)
pub fn write_length(out: &mut [u8], at: usize, count: usize) -> Result<usize, OerFault>
    ensures fits { IsOk result ↔ (at + length (shortest_length count) ≤ length out.old) }
    ensures ok { IfOk result (λ end. Writes out.old at (shortest_length count) out.new end) }
    ensures err { IfErr result (λ e. (e ≡ OerFault.Short) × (out.new ≡ out.old)) }
{
    if !has_room(out, at, length_size(count)) {
        return Err(OerFault::Short);
    }
    Ok(put_length(out, at, count))
}

/// Writes `bytes` as an octet string into `out` from index `at` on, and returns the index after it.
/// The length has the shortest spelling. Every other byte of `out` stays.
///
/// Errors: `Short` if the string does not fit, also if `at` is past the end. Nothing is written then.
/// (RFC 0030)
pub fn write_octets(out: &mut [u8], at: usize, bytes: &[u8]) -> Result<usize, OerFault>
    ensures fits { IsOk result ↔ (at + length (octet_string bytes.now) ≤ length out.old) }
    ensures ok { IfOk result (λ end. Writes out.old at (octet_string bytes.now) out.new end) }
    ensures err { IfErr result (λ e. (e ≡ OerFault.Short) × (out.new ≡ out.old)) }
{
    if !has_room(out, at, length_size(bytes.len()) + bytes.len()) {
        return Err(OerFault::Short);
    }
    Ok(put_octets(out, at, bytes))
}

/// Writes `value` as eight bytes, the highest first, into `out` from index `at` on, and returns the
/// index after them. Every other byte of `out` stays.
///
/// Errors: `Short` if they do not fit, also if `at` is past the end. Nothing is written then. (RFC
/// 0030, UInt64)
pub fn write_u64(out: &mut [u8], at: usize, value: u64) -> Result<usize, OerFault>
    ensures fits { IsOk result ↔ (at + 8 ≤ length out.old) }
    ensures ok { IfOk result (λ end. Writes out.old at (to_be_bytes w64 value) out.new end) }
    ensures err { IfErr result (λ e. (e ≡ OerFault.Short) × (out.new ≡ out.old)) }
{
    if !has_room(out, at, 8) {
        return Err(OerFault::Short);
    }
    put_bytes(out, at, &value.to_be_bytes());
    Ok(at + 8)
}
