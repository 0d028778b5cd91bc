//! The order of texts by their bytes.

ghost use Rattle.std.specs.Prelude.{◌≡◌};
ghost use Rattle.std.specs.Cmp.Lexicographic.{slice_cmp};
ghost use Rattle.std.specs.Ordering.{nat_cmp};

use std::cmp::Ordering;

/// So many bytes are compared at once.
const CHUNK: usize = 8;

fn order_of_chunks(a: &[u8; CHUNK], b: &[u8; CHUNK]) -> Ordering
    ensures { result ≡ slice_cmp nat_cmp a.now b.now }
{
    u64::from_be_bytes(*a).cmp(&u64::from_be_bytes(*b))
}

// Byte by byte, which is faster for few.
fn order_of_few(a: &[u8], b: &[u8]) -> Ordering
    ensures { result ≡ slice_cmp nat_cmp a.now b.now }
{
    for i in 0..a.len().min(b.len()) {
        if a[i] != b[i] {
            return a[i].cmp(&b[i]);
        }
    }
    a.len().cmp(&b.len())
}

/// The order of two texts by their bytes, as that of the slices. It is faster for short texts that soon differ.
pub fn order_of(a: &[u8], b: &[u8]) -> Ordering
    ensures { result ≡ slice_cmp nat_cmp a.now b.now }
{
    let (Some((first, rest)), Some((other, others))) = (
        a.split_first_chunk::<CHUNK>(),
        b.split_first_chunk::<CHUNK>(),
    ) else {
        return order_of_few(a, b);
    };
    match order_of_chunks(first, other) {
        Ordering::Equal => rest.cmp(others),
        order => order,
    }
}
