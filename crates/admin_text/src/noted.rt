//! What may be wrong with the money of a good setup, though it is no fault.

ghost use Rattle.std.specs.Prelude.{◌≡◌, ◌++◌, option_map, IfOk, OnOk};
ghost use Rattle.std.specs.List.{flat_map};
ghost use Rattle.admin_text.specs.Notes.{gains, has_rate_to, has_route_to, name_numbered, note_words};
ghost use Rattle.admin_text.specs.Notes.{notes_of_pair, notes_of_peer, notes_of_rate, notes_of_start, notes_of_tenant};
ghost use Rattle.admin_text.specs.Notes.{notes_in, notes_of};

use crate::setup::{Setup, read_setup};
use common_types::{Items, Name, ReadError};
use ilp_addr::Moment;
use money_core::Rate;
use std::alloc::{AllocError, Global};
use tenant_core::{Network, Peer, PeerNo, RateTerms, TenantTerms};

/// A possible fault in the money of a good setup. Tenants and peers are shown by their names.
#[derive(Drop)]
pub enum Note {
    /// The start looks like seconds, and counts milliseconds.
    Seconds,
    /// The tenant has no route.
    NoRoute(Name),
    /// The tenant has no rate.
    NoRate(Name),
    /// The tenant has a route to a peer, and no rate to it.
    NotReached(Name, Name),
    /// What the tenant sends on from one peer to the other and back comes out as more.
    Gains(Name, Name, Name),
}

// Appends the parts to the text.
fn put(text: &mut Vec<u8>, parts: &[&[u8]]) -> Result<(), AllocError>
    ensures { OnOk result (text.new.items ≡ text.old.items ++ flat_map (λ part. part.now) parts.now) }
{
    for part in parts {
        text.extend_from_slice(part)?;
    }
    Ok(())
}

impl Note {
    /// Appends its words for people to the text.
    pub fn put_words(&self, text: &mut Vec<u8>) -> Result<(), AllocError>
        ensures { OnOk result (text.new.items ≡ text.old.items ++ note_words self.now) }
    {
        match self {
            Note::Seconds => put(
                text,
                &[b"start looks like seconds, and counts milliseconds"],
            ),
            Note::NoRoute(tenant) => {
                let end = b" has no route: it sends no packet on";
                put(text, &[b"tenant ", tenant.as_bytes(), end])
            }
            Note::NoRate(tenant) => {
                let end = b" has no rate: it sends no packet on";
                put(text, &[b"tenant ", tenant.as_bytes(), end])
            }
            Note::NotReached(tenant, peer) => {
                let (middle, end) = (
                    b" has a route to ",
                    b" and no rate to it: it sends no packet there",
                );
                put(
                    text,
                    &[b"tenant ", tenant.as_bytes(), middle, peer.as_bytes(), end],
                )
            }
            Note::Gains(tenant, one, other) => put(
                text,
                &[
                    b"tenant ",
                    tenant.as_bytes(),
                    b" loses by its rates between ",
                    one.as_bytes(),
                    b" and ",
                    other.as_bytes(),
                    b": what is sent there and back comes out as more",
                ],
            ),
        }
    }
}

// Before that many milliseconds a start looks like seconds, of which it would be in the year 5138.
const SECONDS_END: u64 = 100_000_000_000;

fn put_start(start: Moment, found: &mut Vec<Note>) -> Result<(), AllocError>
    ensures { OnOk result (found.new.items ≡ found.old.items ++ notes_of_start start) }
{
    let millis = start.millis();
    if 0 < millis && millis < SECONDS_END {
        found.push(Note::Seconds)?;
    }
    Ok(())
}

fn has_route_to(network: &Network, number: PeerNo) -> bool
    ensures { result ≡ has_route_to network.now number }
{
    network.routes().names_peer(number)
}

fn has_rate_to(network: &Network, number: PeerNo) -> bool
    ensures { result ≡ has_rate_to network.now number }
{
    network.rates().iter().any(|rate| rate.to == number)
}

fn put_peer(tenant: &TenantTerms, peer: &Peer, found: &mut Vec<Note>) -> Result<(), AllocError>
    ensures { OnOk result (found.new.items ≡ found.old.items ++ notes_of_peer tenant.now peer.now) }
{
    if has_route_to(&tenant.network, peer.number) && !has_rate_to(&tenant.network, peer.number) {
        found.push(Note::NotReached(tenant.name.copy(), peer.terms.name.copy()))?;
    }
    Ok(())
}

// Whether the rate there and the one back, if there is one, give more than went there.
fn gains(there: Rate, back: Option<Rate>) -> bool
    ensures { result ≡ gains there back }
{
    match back {
        Some(back) => {
            let gone = there.denominator() as u128 * back.denominator() as u128;
            let come = there.numerator() as u128 * back.numerator() as u128;
            gone < come
        }
        None => false,
    }
}

fn name_numbered(network: &Network, number: PeerNo) -> Option<&Name>
    ensures { option_map (λ name. name.now) result ≡ name_numbered network.now number }
{
    match network.place_numbered(number) {
        Some(at) => Some(&network.peers()[at].terms.name),
        None => None,
    }
}

fn put_pair(
    tenant: &Name,
    one: Option<&Name>,
    other: Option<&Name>,
    found: &mut Vec<Note>,
) -> Result<(), AllocError>
    ensures { OnOk result (found.new.items ≡ found.old.items
        ++ notes_of_pair tenant.now (option_map (λ name. name.now) one.entry) (option_map (λ name. name.now) other.entry)) }
{
    if let (Some(one), Some(other)) = (one, other) {
        found.push(Note::Gains(tenant.copy(), one.copy(), other.copy()))?;
    }
    Ok(())
}

// Those of a rate to a peer from one that was added before it, and of the rate back.
fn put_rate(tenant: &TenantTerms, rate: &RateTerms, found: &mut Vec<Note>) -> Result<(), AllocError>
    ensures { OnOk result (found.new.items ≡ found.old.items ++ notes_of_rate tenant.now rate.now) }
{
    let network = &tenant.network;
    let (from, to) = (rate.from, rate.to);
    if from < to && gains(rate.rate, network.rate_between(to, from)) {
        let (one, other) = (name_numbered(network, from), name_numbered(network, to));
        return put_pair(&tenant.name, one, other, found);
    }
    Ok(())
}

fn put_peers(tenant: &TenantTerms, found: &mut Vec<Note>) -> Result<(), AllocError>
    ensures { OnOk result (found.new.items ≡ found.old.items ++ flat_map (notes_of_peer tenant.now) tenant.now.network.peers) }
{
    for peer in tenant.network.peers() {
        put_peer(tenant, peer, found)?;
    }
    Ok(())
}

fn put_rates(tenant: &TenantTerms, found: &mut Vec<Note>) -> Result<(), AllocError>
    ensures { OnOk result (found.new.items ≡ found.old.items ++ flat_map (notes_of_rate tenant.now) tenant.now.network.rates) }
{
    for rate in tenant.network.rates() {
        put_rate(tenant, rate, found)?;
    }
    Ok(())
}

fn put_tenant(tenant: &TenantTerms, found: &mut Vec<Note>) -> Result<(), AllocError>
    ensures { OnOk result (found.new.items ≡ found.old.items ++ notes_of_tenant tenant.now) }
{
    if tenant.network.routes().is_empty() {
        found.push(Note::NoRoute(tenant.name.copy()))?;
    }
    if tenant.network.rates().is_empty() {
        found.push(Note::NoRate(tenant.name.copy()))?;
    }
    put_peers(tenant, found)?;
    put_rates(tenant, found)
}

fn notes_of(alloc: Global, setup: &Setup) -> Result<Vec<Note>, AllocError>
    ensures { IfOk result (λ found. found.items ≡ notes_of setup.now) }
{
    let mut found = Vec::new(alloc);
    put_start(setup.start, &mut found)?;
    for tenant in setup.tenants.as_slice() {
        put_tenant(tenant.terms(), &mut found)?;
    }
    Ok(found)
}

/// Possible faults in the money of a good setup. Those of its start come first. Then, tenant by tenant, come those of
/// the routes and rates as a whole, of each peer, and of each two peers with a rate in either direction. A setup that
/// is wrong has none of these. Fails only if it is out of memory.
pub fn notes(alloc: Global, text: &[u8]) -> Result<Items<Note>, AllocError>
    ensures exact { IfOk result (λ found. found ≡ notes_in text.now) }
{
    let found = match read_setup(alloc, text) {
        Ok(setup) => notes_of(alloc, &setup)?,
        Err(ReadError::Memory) => return Err(AllocError),
        Err(ReadError::Fault(_)) => Vec::new(alloc),
    };
    Ok(Items::from_vec(found))
}
