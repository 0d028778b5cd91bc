//! What two descriptions of a tenant have in common.

ghost use Rattle.std.specs.Prelude.{◌≡◌, ◌↔◌, false, IfOk, IsTrue, map};
ghost use Rattle.statements.specs.Known.{number_in_next, anew_or, known, led, rated, stated, AreLed, AreLedApart};
ghost use Rattle.statements.specs.Known.{IsOtherSetup, IsSameSetup, IsStatedAs};

use route_table::{Route, Routes};
use std::alloc::{AllocError, Global};
use tenant_core::{Network, Opening, Peer, PeerNo, RateTerms, TenantTerms, are_same_rates};

// Whether the same is agreed with two peers, and they owe the same.
fn is_known_as(peer: &Peer, other: &Peer) -> bool
    ensures { IsTrue result ↔ (known peer.now ≡ known other.now) }
{
    peer.terms.name.as_bytes() == other.terms.name.as_bytes()
        && peer.terms.role == other.terms.role
        && peer.terms.asset.as_bytes() == other.terms.asset.as_bytes()
        && peer.terms.scale == other.terms.scale
        && peer.terms.limits.is_same(&other.terms.limits)
        && peer.terms.bucket.is_same(&other.terms.bucket)
        && peer.balance == other.balance
}

fn is_stated_as(peer: &Peer, other: &Peer) -> bool
    ensures { IsTrue result ↔ (stated peer.now ≡ stated other.now) }
{
    peer.number == other.number && is_known_as(peer, other) && peer.bucket == other.bucket
}

fn are_known_as(peers: &[Peer], others: &[Peer]) -> bool
    ensures { IsTrue result ↔ (map known peers.now ≡ map known others.now) }
{
    if peers.len() != others.len() {
        return false;
    }
    for place in 0..peers.len() {
        if !is_known_as(&peers[place], &others[place]) {
            return false;
        }
    }
    true
}

fn are_stated_as(peers: &[Peer], others: &[Peer]) -> bool
    ensures { IsTrue result ↔ (map stated peers.now ≡ map stated others.now) }
{
    if peers.len() != others.len() {
        return false;
    }
    for place in 0..peers.len() {
        if !is_stated_as(&peers[place], &others[place]) {
            return false;
        }
    }
    true
}

/// Whether two openings are the same, but for the tokens and the targets of peers.
pub fn opens_as(opening: &Opening, other: &Opening) -> bool
    ensures { IsTrue result ↔ IsStatedAs opening.now other.now }
{
    opening.tenant == other.tenant
        && opening.name.as_bytes() == other.name.as_bytes()
        && opening.address.as_bytes() == other.address.as_bytes()
        && opening.journal == other.journal
        && opening.margin == other.margin
        && opening.hold == other.hold
        && opening.period == other.period
        && opening.clock == other.clock
        && opening.next_hold == other.next_hold
        && opening.network.next_peer() == other.network.next_peer()
        && are_stated_as(opening.network.peers(), other.network.peers())
        && opening.network.routes().is_same(other.network.routes())
        && are_same_rates(opening.network.rates(), other.network.rates())
}

/// The number of the other peer that is at the place of the peer of that number. `None` if there is none.
pub fn anew(peers: &[Peer], others: &[Peer], number: PeerNo) -> Option<PeerNo>
    ensures { result ≡ number_in_next peers.now others.now number }
{
    for place in 0..peers.len() {
        let other = others.get(place)?;
        if peers[place].number == number {
            return Some(other.number);
        }
    }
    None
}

fn anew_or(before: &Network, after: &Network, number: PeerNo) -> PeerNo
    ensures { result ≡ anew_or before.now.peers after.now.peers number }
{
    anew(before.peers(), after.peers(), number).unwrap_or(0)
}

fn is_led(before: &Network, after: &Network, route: &Route, other: &Route) -> bool
    ensures { IsTrue result ↔ (led (anew_or before.now.peers after.now.peers) route.now ≡ other.now) }
{
    route.prefix.bytes() == other.prefix.bytes()
        && anew_or(before, after, route.hop.peer) == other.hop.peer
        && route.hop.fee == other.hop.fee
}

fn are_led(before: &Network, after: &Network, routes: &[Route], others: &[Route]) -> bool
    ensures { IsTrue result ↔ (map (led (anew_or before.now.peers after.now.peers)) routes.now ≡ others.now) }
{
    if routes.len() != others.len() {
        return false;
    }
    for place in 0..routes.len() {
        if !is_led(before, after, &routes[place], &others[place]) {
            return false;
        }
    }
    true
}

fn lead_the_same(alloc: Global, before: &Network, after: &Network) -> Result<bool, AllocError>
    ensures same { IfOk result (λ same. IsTrue same → AreLed (anew_or before.now.peers after.now.peers) before.now.routes after.now.routes) }
    ensures other { IfOk result (λ same. same ≡ false → AreLedApart (anew_or before.now.peers after.now.peers) before.now.routes after.now.routes) }
{
    let routes = before.routes().list(alloc)?;
    let others = after.routes().list(alloc)?;
    Ok(are_led(before, after, routes.as_slice(), others.as_slice()))
}

fn is_rated(before: &Network, after: &Network, rate: &RateTerms, other: &RateTerms) -> bool
    ensures { IsTrue result ↔ (rated (anew_or before.now.peers after.now.peers) rate.now ≡ other.now) }
{
    anew_or(before, after, rate.from) == other.from
        && anew_or(before, after, rate.to) == other.to
        && rate.rate.numerator() == other.rate.numerator()
        && rate.rate.denominator() == other.rate.denominator()
}

fn are_rated(before: &Network, after: &Network, rates: &[RateTerms], others: &[RateTerms]) -> bool
    ensures { IsTrue result ↔ (map (rated (anew_or before.now.peers after.now.peers)) rates.now ≡ others.now) }
{
    if rates.len() != others.len() {
        return false;
    }
    for place in 0..rates.len() {
        if !is_rated(before, after, &rates[place], &others[place]) {
            return false;
        }
    }
    true
}

fn rate_the_same(before: &Network, after: &Network) -> bool
    ensures { IsTrue result ↔ (map (rated (anew_or before.now.peers after.now.peers)) before.now.rates ≡ after.now.rates) }
{
    are_rated(before, after, before.rates(), after.rates())
}

fn agree_the_same(terms: &TenantTerms, other: &TenantTerms) -> bool
    ensures { IsTrue result ↔ (terms.now.name ≡ other.now.name) × (terms.now.address ≡ other.now.address) × (terms.now.journal ≡ other.now.journal)
        × (terms.now.margin ≡ other.now.margin) × (terms.now.hold ≡ other.now.hold) }
{
    terms.name.as_bytes() == other.name.as_bytes()
        && terms.address.as_bytes() == other.address.as_bytes()
        && terms.journal == other.journal
        && terms.margin == other.margin
        && terms.hold == other.hold
}

/// Whether one setup of a tenant says what the other one does, but for the tokens, the targets and the numbers of
/// peers, and what their buckets hold. Fails only if it is out of memory.
pub fn goes_on(alloc: Global, terms: &TenantTerms, other: &TenantTerms) -> Result<bool, AllocError>
    ensures same { IfOk result (λ same. IsTrue same → IsSameSetup terms.now other.now) }
    ensures other { IfOk result (λ same. same ≡ false → IsOtherSetup terms.now other.now) }
{
    let (before, after) = (&terms.network, &other.network);
    let same = agree_the_same(terms, other)
        && are_known_as(before.peers(), after.peers())
        && rate_the_same(before, after);
    if !same {
        return Ok(false);
    }
    lead_the_same(alloc, before, after)
}
