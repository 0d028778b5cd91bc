//! Bytes that are lent, and that contracts see as a list.

ghost use Rattle.std.specs.Prelude.{◌≡◌};

use std::marker::Model;

/// Any number of bytes, borrowed from elsewhere.
#[derive(Drop)]
pub struct Octets<'a> {
    bytes: &'a [u8],
}

impl<'a> Model for Octets<'a> {
    ghost use Rattle.std.specs.Prelude.{List, ℕ};

    ghost Value = { List ℕ };

    ghost view = { λ o. o.bytes.now };
}

impl<'a> Octets<'a> {
    /// The bytes of a slice.
    pub fn of(bytes: &'a [u8]) -> Octets<'a>
        ensures { result ≡ bytes.now }
    {
        Octets { bytes }
    }

    /// The bytes in order.
    pub fn as_slice(&self) -> &[u8]
        ensures { result.now ≡ self.now }
    {
        self.bytes
    }
}
