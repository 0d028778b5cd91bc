//! Addresses (RFC 0015).

ghost use Rattle.std.specs.Prelude.{◌≡◌, ◌≤◌, ◌↔◌, ℕ, List, length, Ok, Err, IfOk, IsTrue, MatchResult};
ghost use Rattle.ilp_addr.specs.Address.{segments, prefix_segments, Begins, begins_with, IsAddress, address_at};
ghost use Rattle.ilp_addr.specs.Address.{max_address};
ghost use Rattle.ilp_addr.specs.OwnAddress.{is_for_neighbors};

use crate::fault::AddrFault;
use crate::prefix::Prefix;
use crate::segments::{Segments, are_segments, is_scheme, segments_begin, split_at_dot};
use std::marker::Model;

/// The most bytes that an address or a prefix may have (RFC 0015, "Address Requirements").
pub const MAX_ADDRESS: usize = 1023;

/// An address: an allocation scheme and one or more segments, with a dot between any two
/// (RFC 0015, "Address Requirements"). It borrows its bytes.
#[derive(Debug, Drop)]
pub struct Address<'a> {
    bytes: &'a [u8],
}

impl<'a> Model for Address<'a> {
    ghost Value = { List ℕ };

    ghost view = { λ a. a.bytes.now };

    ghost invariant = { λ a. IsAddress a.bytes.now };
}

impl<'a> Address<'a> {
    ghost use Rattle.ilp_addr.specs.Segments.{segments_left};

    /// The address that the bytes spell.
    ///
    /// Errors, in the order of the tests:
    ///
    /// - `Length` if there are more than 1,023 bytes.
    /// - `Scheme` if the bytes do not begin with an allocation scheme and a dot.
    /// - `Segment` if a segment is empty or has a byte that is not allowed.
    pub fn parse(bytes: &'a [u8]) -> Result<Address<'a>, AddrFault>
        // What is read is an address, and all of the bytes.
        ensures found { IfOk result (λ a. IsAddress a × (a ≡ bytes.now)) }
        // Each address is read.
        ensures only { IsAddress bytes.now → result ≡ Ok bytes.now }
        // Which fault comes.
        ensures exact { result ≡ address_at bytes.now }
    {
        check_address(bytes)?;
        Ok(Address { bytes })
    }

    /// The address that the bytes are. The caller knows that they are one.
    pub fn of_known(bytes: &'a [u8]) -> Address<'a>
        requires { IsAddress bytes.now }
        ensures { result ≡ bytes.now }
    {
        Address { bytes }
    }

    /// The bytes of the address, at most 1,023.
    pub fn bytes(&self) -> &'a [u8]
        ensures value { result.now ≡ self.now }
        ensures address { IsAddress self.now }
        ensures short { length result.now ≤ max_address }
    {
        self.bytes
    }

    /// The parts of the address between its dots, the scheme first.
    pub fn segments(&self) -> Segments<'a>
        ensures { segments_left result ≡ segments self.now }
    {
        Segments::new(self.bytes)
    }

    /// Whether it is for direct neighbors, of the scheme `peer`: no packet is sent on for it (RFC 0015,
    /// "Allocation Schemes").
    pub fn is_for_neighbors(&self) -> bool
        ensures { result ≡ is_for_neighbors self.now }
    {
        match self.segments().next() {
            Some(first) => first == b"peer".as_slice(),
            None => false,
        }
    }

    /// Whether the segments of the prefix are the first segments of the address (RFC 0015,
    /// "Address Prefixes"). The empty prefix begins each address.
    pub fn begins_with(&self, prefix: &Prefix) -> bool
        ensures begins { IsTrue result ↔ Begins (prefix_segments prefix.now) (segments self.now) }
        ensures exact { result ≡ begins_with (prefix_segments prefix.now) (segments self.now) }
    {
        segments_begin(self.bytes, prefix.bytes())
    }
}

#[tactic(auto, unfolding(crate::specs::Address::address_at))]
fn check_address(bytes: &[u8]) -> Result<(), AddrFault>
    ensures { MatchResult result (λ _. address_at bytes.now ≡ Ok bytes.now)
        (λ e. address_at bytes.now ≡ Err e) }
{
    if bytes.len() > MAX_ADDRESS {
        return Err(AddrFault::Length);
    }
    let Some((scheme, rest)) = split_at_dot(bytes) else {
        return Err(AddrFault::Scheme);
    };
    if !is_scheme(scheme) {
        return Err(AddrFault::Scheme);
    }
    if !are_segments(rest) {
        return Err(AddrFault::Segment);
    }
    Ok(())
}
