//! Prefixes of addresses (RFC 0015, "Address Prefixes").

ghost use Rattle.std.specs.Prelude.{◌≡◌, ◌≢◌, ◌≤◌, ◌∷◌, ℕ, [], List, length, Ok, Err, IsOk, IfOk, MatchResult};
ghost use Rattle.common_types.specs.Outcomes.{GivesUnlessMemory, OnMemory};
ghost use Rattle.ilp_addr.specs.Address.{IsPrefix, prefix_segments, prefix_at, checked_prefix, without_last_dot};
ghost use Rattle.ilp_addr.specs.Address.{max_address};

use crate::address::MAX_ADDRESS;
use crate::fault::AddrFault;
use crate::segments::{Segments, are_segments, is_scheme, split_at_dot};
use common_types::{ReadError, Spare};
use std::alloc::{AllocError, Global};
use std::marker::Model;

/// The beginning of addresses: nothing, an allocation scheme, or an address (RFC 0015, "Address
/// Prefixes"). It holds its bytes without a dot at the end.
#[derive(Debug, Drop)]
pub struct Prefix {
    bytes: Vec<u8>,
}

impl Model for Prefix {
    ghost Value = { List ℕ };

    ghost view = { λ p. p.bytes.items };

    ghost invariant = { λ p. IsPrefix p.bytes.items };
}

impl Prefix {
    ghost use Rattle.ilp_addr.specs.Segments.{segments_left};

    /// The prefix that the bytes spell, with or without a dot at the end.
    ///
    /// Errors, in the order of the tests:
    ///
    /// - `Fault(Scheme)` for a single dot.
    /// - `Fault(Length)` if there are more than 1,023 bytes.
    /// - `Fault(Scheme)` if the bytes do not begin with an allocation scheme.
    /// - `Fault(Segment)` if a segment is empty or has a byte that is not allowed.
    /// - `Memory` if it is out of memory.
    pub fn parse(alloc: Global, bytes: &[u8]) -> Result<Prefix, ReadError<AddrFault>>
        // What is read is a prefix, and all of the bytes but a dot at the end.
        ensures found { IfOk result (λ p. IsPrefix p × (p ≡ without_last_dot bytes.now)) }
        // Each prefix is read, unless memory runs out.
        ensures only { bytes.now ≢ 46 ∷ [] → IsPrefix (without_last_dot bytes.now)
            → GivesUnlessMemory (λ p. p) result (Ok (without_last_dot bytes.now)) }
        // Which fault comes.
        ensures exact { GivesUnlessMemory (λ p. p) result (prefix_at bytes.now) }
        // It runs out of memory only for bytes that spell a prefix: a fault comes first.
        ensures memory { OnMemory result (IsOk (prefix_at bytes.now)) }
    {
        read(alloc, bytes)
    }

    /// The bytes of the prefix, at most 1,023, without a dot at the end.
    pub fn bytes(&self) -> &[u8]
        ensures value { result.now ≡ self.now }
        ensures prefix { IsPrefix self.now }
        ensures short { length result.now ≤ max_address }
    {
        &self.bytes
    }

    /// The parts of the prefix between its dots, the scheme first. The empty prefix has none.
    pub fn segments(&self) -> Segments<'_>
        ensures { segments_left result ≡ prefix_segments self.now }
    {
        Segments::of_prefix(&self.bytes)
    }

    /// A copy of the prefix. Fails only if it is out of memory.
    pub fn copy(&self, alloc: Global) -> Result<Prefix, AllocError>
        ensures { IfOk result (λ p. p ≡ self.now) }
    {
        let bytes = Vec::from_slice(alloc, &self.bytes)?;
        Ok(Prefix { bytes })
    }

    /// A copy of the prefix in that room. It allocates nothing.
    pub fn copy_into(&self, spare: Spare) -> Prefix
        requires { max_address ≤ spare }
        ensures { result ≡ self.now }
    {
        Prefix {
            bytes: spare.fill(self.bytes()),
        }
    }

    /// Returns unused capacity to the allocator, if the allocator takes it.
    pub fn shrink(&mut self)
        ensures { self.new ≡ self.old }
    {
        self.bytes.shrink_to_fit();
    }
}

fn read(alloc: Global, bytes: &[u8]) -> Result<Prefix, ReadError<AddrFault>>
    ensures exact { GivesUnlessMemory (λ p. p) result (prefix_at bytes.now) }
    ensures memory { OnMemory result (IsOk (prefix_at bytes.now)) }
{
    let bytes = match prefix_bytes(bytes) {
        Ok(bytes) => bytes,
        Err(fault) => return Err(ReadError::Fault(fault)),
    };
    let bytes = Vec::from_slice(alloc, bytes)?;
    Ok(Prefix { bytes })
}

// The bytes of the prefix that the bytes spell.
#[tactic(auto, unfolding(crate::specs::Address::prefix_at))]
fn prefix_bytes(bytes: &[u8]) -> Result<&[u8], AddrFault>
    ensures { MatchResult result (λ r. prefix_at bytes.now ≡ Ok r.now)
        (λ e. prefix_at bytes.now ≡ Err e) }
{
    if bytes == b".".as_slice() {
        return Err(AddrFault::Scheme);
    }
    check_prefix(strip_last_dot(bytes))
}

fn strip_last_dot(bytes: &[u8]) -> &[u8]
    ensures { result.now ≡ without_last_dot bytes.now }
{
    match bytes {
        [front @ .., b'.'] => front,
        _ => bytes,
    }
}

#[tactic(auto, unfolding(crate::specs::Address::checked_prefix))]
fn check_prefix(bytes: &[u8]) -> Result<&[u8], AddrFault>
    ensures { MatchResult result (λ r. checked_prefix bytes.now ≡ Ok r.now)
        (λ e. checked_prefix bytes.now ≡ Err e) }
{
    if bytes.is_empty() {
        return Ok(bytes);
    }
    if bytes.len() > MAX_ADDRESS {
        return Err(AddrFault::Length);
    }
    let Some((scheme, rest)) = split_at_dot(bytes) else {
        return if is_scheme(bytes) {
            Ok(bytes)
        } else {
            Err(AddrFault::Scheme)
        };
    };
    if !is_scheme(scheme) {
        return Err(AddrFault::Scheme);
    }
    if !are_segments(rest) {
        return Err(AddrFault::Segment);
    }
    Ok(bytes)
}
