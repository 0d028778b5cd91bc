//! Addresses of tenants (RFC 0015).

ghost use Rattle.std.specs.Prelude.{◌≡◌, ◌≤◌, ℕ, List, length, true, Some, None, if◌then◌else◌};
ghost use Rattle.ilp_addr.specs.Address.{IsAddress};
ghost use Rattle.ilp_addr.specs.OwnAddress.{is_own_address, max_own_address};

use crate::address::Address;
use common_types::Text;
use std::marker::Model;

/// The most bytes that a tenant's address may have, so that each address below it has room for a name.
pub const MAX_OWN_ADDRESS: usize = 900;

fn is_own_address(bytes: &[u8]) -> bool
    ensures { result ≡ is_own_address bytes.now }
{
    if bytes.len() > MAX_OWN_ADDRESS {
        return false;
    }
    match Address::parse(bytes) {
        Ok(address) => !address.is_for_neighbors(),
        Err(_) => false,
    }
}

/// The address of a tenant: at most 900 bytes, of another scheme than `peer`, whose addresses are for direct neighbors
/// (RFC 0015, "Allocation Schemes"). Its bytes are stored inline.
#[derive(Drop)]
pub struct OwnAddress {
    bytes: Text<MAX_OWN_ADDRESS>,
}

impl Model for OwnAddress {
    ghost Value = { List ℕ };

    ghost view = { λ a. a.bytes };

    ghost invariant = { λ a. is_own_address a.bytes ≡ true };
}

impl OwnAddress {
    /// The address that the bytes spell, if a tenant may have it.
    pub fn new(bytes: &[u8]) -> Option<OwnAddress>
        ensures { result ≡ (if is_own_address bytes.now then Some bytes.now else None) }
    {
        if !is_own_address(bytes) {
            return None;
        }
        let bytes = Text::from_bytes(bytes)?;
        Some(OwnAddress { bytes })
    }

    /// The bytes of the address, at most 900.
    pub fn as_bytes(&self) -> &[u8]
        ensures value { result.now ≡ self.now }
        ensures short { length result.now ≤ max_own_address }
        ensures address { IsAddress self.now }
        ensures own { is_own_address self.now ≡ true }
    {
        crate::laws::addresses();
        self.bytes.as_bytes()
    }

    /// The address.
    pub fn address(&self) -> Address<'_>
        ensures { result ≡ self.now }
    {
        Address::parse(self.as_bytes()).unwrap()
    }

    /// A copy of the address.
    pub fn copy(&self) -> OwnAddress
        ensures { result ≡ self.now }
    {
        OwnAddress {
            bytes: self.bytes.copy(),
        }
    }
}
