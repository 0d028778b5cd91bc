//! Whom a tenant deals with, and how: its peers, the routes to them, and the rates between them.

ghost use Rattle.std.specs.Prelude.{◌≡◌, ◌<◌, ◌==◌, not, map, length, IfOk, IfSome, OnOk, OnErr};
ghost use Rattle.std.specs.List.{filter};
ghost use Rattle.tenant_core.specs.ChangedAt.{changed_where};
ghost use Rattle.tenant_core.specs.Network.{filled};

use crate::faults::CommandFault;
use crate::journal::Change;
use crate::limits::{MAX_PEER_NUMBERS, MAX_PEERS, MAX_RATES};
use crate::peer::{Level, Peer};
use crate::places::{free_place, order_by_token, search_number, search_token};
use crate::rates::Rates;
use crate::shared::Shared;
use crate::terms::{Balance, BucketTerms, PeerLimits, PeerTerms, RateTerms};
use ilp_addr::Prefix;
use money_core::Rate;
use rate_bucket::full_bucket;
use route_table::{Hop, MAX_ROUTES, PeerNo, RouteFault, Routes};
use std::alloc::{AllocError, Global};
use std::marker::Model;

/// Whom a tenant deals with, and how. By its type, peers differ by number, name and token, routes and rates name peers
/// that are there, and an ordered pair of two peers has one rate. Numbers, tokens and pairs are looked up without a
/// walk over the list.
#[derive(Drop)]
pub struct Network {
    next_peer: PeerNo,
    peers: Vec<Peer>,
    // The places of the peers, in the order of their tokens.
    by_token: Vec<u16>,
    routes: Routes,
    rates: Rates,
}

impl Model for Network {
    ghost use Rattle.tenant_core.specs.Network.{Net};
    ghost use Rattle.std.specs.Coded.{codes};
    ghost use Rattle.route_table.specs.contracts.routes.Routes as table;

    ghost Value = { Net };

    ghost coded = { Prim.hlevel (codes, table.the_row.coded) };

    ghost use Rattle.tenant_core.specs.Nets.{net_of};

    ghost view = { net_of };

    ghost use Rattle.tenant_core.specs.Indexed.{IsIndexed};

    ghost invariant = { IsIndexed };
}

fn copied_peers(alloc: Global, peers: &[Peer]) -> Result<Vec<Peer>, AllocError>
    ensures { IfOk result (λ copy. copy.items ≡ peers.now) }
{
    let mut copy = Vec::with_capacity(alloc, peers.len())?;
    for peer in peers {
        copy.push_reserved(peer.copy()?);
    }
    Ok(copy)
}

// All buckets are full at that clock, with which a period begins.
fn fill_buckets(peers: &mut Vec<Peer>, clock: u64)
    ensures { peers.new.items ≡ map (filled clock) peers.old.items }
{
    for place in 0..peers.len() {
        peers[place].bucket = Level {
            credit: full_bucket(peers[place].terms.bucket.burst.get() as u32),
            clock,
            entries: 0,
        };
    }
}

// The peer at that place, if there is one, has other limits. An error leaves the peers as they were.
fn change_limits(
    peers: &mut Vec<Peer>,
    place: Option<usize>,
    limits: &PeerLimits,
) -> Result<(), AllocError>
    requires { IfSome place (λ at. at < length peers.old.items) }
    ensures changed { OnOk result (peers.new.items
        ≡ changed_where (λ p. record p { terms = record p.terms { limits = limits.now } }) peers.old.items place) }
    ensures unchanged { OnErr result (peers.new.items ≡ peers.old.items) }
{
    let Some(place) = place else {
        return Ok(());
    };
    let terms = peers[place].terms.with_limits(limits);
    let terms = Shared::new(*peers.allocator(), terms)?;
    peers[place].terms = terms;
    Ok(())
}

// The peer at that place, if there is one, has another bucket, which has that level. An error leaves the peers as they
// were.
fn change_bucket(
    peers: &mut Vec<Peer>,
    place: Option<usize>,
    bucket: &BucketTerms,
    level: Level,
) -> Result<(), AllocError>
    requires { IfSome place (λ at. at < length peers.old.items) }
    ensures changed { OnOk result (peers.new.items
        ≡ changed_where (λ p. record p { terms = record p.terms { bucket = bucket.now }; bucket = level })
        peers.old.items place) }
    ensures unchanged { OnErr result (peers.new.items ≡ peers.old.items) }
{
    let Some(place) = place else {
        return Ok(());
    };
    let terms = peers[place].terms.with_bucket(bucket);
    let terms = Shared::new(*peers.allocator(), terms)?;
    let peer = &mut peers[place];
    peer.terms = terms;
    peer.bucket = level;
    Ok(())
}

fn drop_peer(peers: &mut Vec<Peer>, number: PeerNo)
    ensures { peers.new.items ≡ filter (λ p. not (p.number == number)) peers.old.items }
{
    peers.retain(|peer| peer.number != number);
}

impl Network {
    ghost use Rattle.std.specs.Prelude.{◌≡◌, ◌≤◌, ◌<◌, ◌↔◌, length, map, None, IfOk, IfSome, IsSome, IsTrue};
    ghost use Rattle.std.specs.Bool.{OnTrue, OnFalse};
    ghost use Rattle.std.specs.List.{slice_get};
    ghost use Rattle.std.specs.Option.{option_and_then};
    ghost use Rattle.route_table.specs.Routes.{NamesPeer};
    ghost use Rattle.tenant_core.specs.Network.{IsNetwork, IsChanged, nobody, peer_refusal, with_peer, without_peer};
    ghost use Rattle.tenant_core.specs.Network.{begun, with_limits, with_bucket, with_route, without_route, with_rate};
    ghost use Rattle.std.specs.Prelude.{◌==◌, false, true};
    ghost use Rattle.tenant_core.specs.Orders.{names_present, IsFree, net_refusal};
    ghost use Rattle.tenant_core.specs.Present.{changed};
    ghost use Rattle.tenant_core.specs.Network.{route_refusal, no_route_refusal, rate_refusal};
    ghost use Rattle.tenant_core.specs.Network.{peer_numbered, peer_with_token};
    ghost use Rattle.tenant_core.specs.Places.{token, ArePairsApart};
    ghost use Rattle.tenant_core.specs.Routing.{rate_between};

    /// A network without peers.
    pub fn new(alloc: Global) -> Network
        ensures { result ≡ nobody }
    {
        Network {
            next_peer: 0,
            peers: Vec::new(alloc),
            by_token: Vec::new(alloc),
            routes: Routes::new(alloc),
            rates: Rates::new(alloc),
        }
    }

    /// A copy of the network.
    pub fn copy(&self, alloc: Global) -> Result<Network, AllocError>
        ensures { IfOk result (λ copy. copy ≡ self.now) }
    {
        let peers = copied_peers(alloc, self.peers())?;
        self.with_peers(alloc, peers)
    }

    /// The same network with these peers, which keep what its type does. Each has the token of the one in its place.
    pub(crate) fn with_peers(&self, alloc: Global, peers: Vec<Peer>) -> Result<Network, AllocError>
        requires network { IsNetwork (record self.now { peers = peers.items }) }
        requires tokens { map token peers.items ≡ map token self.now.peers }
        ensures { IfOk result (λ network. network ≡ record self.now { peers = peers.items }) }
    {
        let by_token = Vec::from_slice(alloc, self.by_token.as_slice())?;
        let routes = self.routes.copy(alloc)?;
        let rates = self.rates.share()?;
        Ok(Network {
            next_peer: self.next_peer,
            peers,
            by_token,
            routes,
            rates,
        })
    }

    /// The network as the first period of a tenant finds it, which begins at that clock: all buckets are full.
    pub fn begin(&mut self, clock: u64)
        ensures { self.new ≡ begun clock self.old }
    {
        fill_buckets(&mut self.peers, clock);
    }

    /// The peers, in the order in which they were added.
    pub fn peers(&self) -> &[Peer]
        ensures value { result.now ≡ self.now.peers }
        ensures network { IsNetwork self.now }
    {
        self.peers.as_slice()
    }

    /// The invariant of the type.
    pub(crate) fn is_network(&self)
        ensures { IsNetwork self.now }
    {
        let _ = self.peers();
    }

    /// The routes to them.
    pub fn routes(&self) -> &Routes
        ensures { result.now ≡ self.now.routes }
    {
        &self.routes
    }

    /// The rates between them, one for an ordered pair.
    pub fn rates(&self) -> &[RateTerms]
        ensures value { result.now ≡ self.now.rates }
        ensures apart { ArePairsApart self.now.rates }
    {
        self.rates.as_slice()
    }

    /// The place of the peer with this token, in the order in which peers were added.
    pub fn place_with_token(&self, token: &[u8]) -> Option<usize>
        ensures inside { IfSome result (λ at. at < length self.now.peers) }
        ensures value { option_and_then (λ at. slice_get self.now.peers at) result
            ≡ peer_with_token token.now self.now.peers }
    {
        match search_token(&self.peers, &self.by_token, token) {
            Ok(at) => Some(self.by_token[at] as usize),
            Err(_) => None,
        }
    }

    /// The place of the peer of that number.
    pub fn place_numbered(&self, number: PeerNo) -> Option<usize>
        ensures inside { IfSome result (λ at. at < length self.now.peers) }
        ensures value { option_and_then (λ at. slice_get self.now.peers at) result
            ≡ peer_numbered number self.now.peers }
    {
        search_number(&self.peers, number).ok()
    }

    /// The rate of an ordered pair of peers.
    pub fn rate_between(&self, from: PeerNo, to: PeerNo) -> Option<Rate>
        ensures { result ≡ rate_between self.now from to }
    {
        self.rates.between(from, to)
    }

    /// The number of the next peer. Numbers are never used again.
    pub fn next_peer(&self) -> PeerNo
        ensures { result ≡ self.now.next_peer }
    {
        self.next_peer
    }

    /// The next peer has that number, if none has had it or one above it.
    pub fn skip_to(&mut self, number: PeerNo) -> bool
        ensures skipped { OnTrue result (self.new ≡ record self.old { next_peer = number }) }
        ensures not { OnFalse result (self.new ≡ self.old) }
        ensures only { IsTrue result ↔ (self.old.next_peer ≤ number) }
    {
        if number < self.next_peer {
            return false;
        }
        self.next_peer = number;
        true
    }

    /// Why adding such a peer is refused, if it is.
    pub fn peer_refusal(&self, terms: &PeerTerms) -> Option<CommandFault>
        ensures { result ≡ peer_refusal self.now terms.now }
    {
        if free_place(&self.peers, &self.by_token, terms).is_none() {
            return Some(CommandFault::Present);
        }
        let is_full = self.peers.len() >= MAX_PEERS || self.next_peer >= MAX_PEER_NUMBERS;
        is_full.then_some(CommandFault::Limit)
    }

    /// Why adding a route for the prefix is refused, if it is.
    pub fn route_refusal(&self, prefix: &Prefix) -> Option<CommandFault>
        ensures { result ≡ route_refusal self.now prefix.now }
    {
        if self.routes.has(prefix) {
            return Some(CommandFault::Present);
        }
        (self.routes.len() == MAX_ROUTES).then_some(CommandFault::Limit)
    }

    /// Why removing the route of the prefix is refused, if it is.
    pub fn no_route_refusal(&self, prefix: &Prefix) -> Option<CommandFault>
        ensures { result ≡ no_route_refusal self.now prefix.now }
    {
        if self.routes.has(prefix) {
            None
        } else {
            Some(CommandFault::Absent)
        }
    }

    /// Why setting the rate is refused, if it is.
    pub fn rate_refusal(&self, rate: &RateTerms) -> Option<CommandFault>
        ensures { result ≡ rate_refusal self.now rate.now }
    {
        if self.rates.has_pair(rate) {
            return None;
        }
        (self.rates.as_slice().len() >= MAX_RATES).then_some(CommandFault::Limit)
    }

    /// Adds a peer under the next number, which owes that balance and whose bucket has that level.
    ///
    /// Errors, in the order of the tests: `Present` if a peer has the name or the token, `Limit` if there are 256
    /// peers or all numbers were given, `Memory`. An error leaves the network as it was.
    pub fn add_peer(
        &mut self,
        terms: PeerTerms,
        balance: Balance,
        level: Level,
    ) -> Result<(), CommandFault>
        ensures { IsChanged result (peer_refusal self.old terms) self.old self.new
            (with_peer self.old terms balance level) }
    {
        let Some(at) = free_place(&self.peers, &self.by_token, &terms) else {
            return Err(CommandFault::Present);
        };
        let place = self.peers.len();
        if place >= MAX_PEERS || self.next_peer >= MAX_PEER_NUMBERS {
            return Err(CommandFault::Limit);
        }
        terms.are_within();
        let _ = balance.get();
        let number = self.next_peer;
        let terms = Shared::new(*self.peers.allocator(), terms)?;
        let peer = Peer {
            number,
            terms,
            balance,
            bucket: level,
        };
        self.by_token.reserve(1)?;
        self.peers.push(peer)?;
        let _ = self.by_token.insert(at, place as u16);
        self.next_peer = number + 1;
        Ok(())
    }

    /// Removes the peer of that number, and the rates that name it. No route leads to it.
    ///
    /// `Memory` if it is out of memory. The network is as it was then.
    pub fn remove_peer(&mut self, number: PeerNo) -> Result<(), CommandFault>
        requires { ¬ (NamesPeer self.old.routes number) }
        ensures { IsChanged result None self.old self.new (without_peer self.old number) }
    {
        self.rates.drop_named(number)?;
        drop_peer(&mut self.peers, number);
        order_by_token(&self.peers, &mut self.by_token);
        Ok(())
    }

    /// Sets the limits of the peer of that number.
    ///
    /// `Memory` if it is out of memory. The network is as it was then.
    pub fn set_limits(&mut self, number: PeerNo, limits: &PeerLimits) -> Result<(), CommandFault>
        ensures { IsChanged result None self.old self.new (with_limits self.old number limits.now) }
    {
        limits.are_within();
        let place = self.place_numbered(number);
        change_limits(&mut self.peers, place, limits)?;
        Ok(())
    }

    /// Sets the bucket of the peer of that number, which has that level.
    ///
    /// `Memory` if it is out of memory. The network is as it was then.
    pub fn set_bucket(
        &mut self,
        number: PeerNo,
        bucket: &BucketTerms,
        level: Level,
    ) -> Result<(), CommandFault>
        ensures { IsChanged result None self.old self.new (with_bucket self.old number bucket.now level) }
    {
        bucket.is_within();
        let place = self.place_numbered(number);
        change_bucket(&mut self.peers, place, bucket, level)?;
        Ok(())
    }

    /// Sends packets for the prefix on by the hop, whose peer is there.
    ///
    /// Errors, in the order of the tests: `Present` if the prefix has a route, `Limit` if there are 4,096 routes, and
    /// `Memory`. An error leaves the network as it was.
    pub fn add_route(&mut self, prefix: Prefix, hop: Hop) -> Result<(), CommandFault>
        requires { IsSome (peer_numbered hop.peer self.old.peers) }
        ensures { IsChanged result (route_refusal self.old prefix) self.old self.new (with_route self.old prefix hop) }
    {
        match self.routes.add(prefix, hop) {
            Ok(()) => Ok(()),
            Err(RouteFault::Present | RouteFault::Absent) => Err(CommandFault::Present),
            Err(RouteFault::Full) => Err(CommandFault::Limit),
            Err(RouteFault::Memory) => Err(CommandFault::Memory),
        }
    }

    /// Removes the route of the prefix.
    ///
    /// Errors, in the order of the tests: `Absent` if it has none, `Memory`. An error leaves the network as it was.
    pub fn remove_route(&mut self, prefix: &Prefix) -> Result<(), CommandFault>
        ensures { IsChanged result (no_route_refusal self.old prefix.now) self.old self.new
            (without_route self.old prefix.now) }
    {
        match self.routes.remove(prefix) {
            Ok(()) => Ok(()),
            Err(RouteFault::Memory) => Err(CommandFault::Memory),
            Err(_) => Err(CommandFault::Absent),
        }
    }

    /// Sets what packets of one peer for another cost, in place of what they did. Both peers are there, and differ.
    ///
    /// Errors, in the order of the tests: `Limit` if the pair has no rate and there are 4,096, `Memory`. An error
    /// leaves the network as it was.
    pub fn set_rate(&mut self, rate: &RateTerms) -> Result<(), CommandFault>
        requires from { IsSome (peer_numbered rate.now.from self.old.peers) }
        requires to { IsSome (peer_numbered rate.now.to self.old.peers) }
        requires apart { (rate.now.from == rate.now.to) ≡ false }
        ensures { IsChanged result (rate_refusal self.old rate.now) self.old self.new (with_rate self.old rate.now) }
    {
        if self.rate_refusal(rate).is_some() {
            return Err(CommandFault::Limit);
        }
        self.rates.set(rate)?;
        Ok(())
    }

    /// Makes a change whose peers are there. The bucket that it fills or changes has that level afterwards. No route
    /// may name a peer that is removed.
    ///
    /// The errors are those of the call that makes it. An error leaves the network as it was.
    pub fn apply(
        &mut self,
        alloc: Global,
        change: &Change,
        level: Level,
    ) -> Result<(), CommandFault>
        requires present { names_present self.old change.now ≡ true }
        requires free { IsFree self.old change.now }
        ensures { IsChanged result (net_refusal self.old change.now) self.old self.new
            (changed self.old change.now level) }
    {
        match change {
            Change::PeerAdded(terms) => self.add_peer(terms.copy(), Balance::zero(), level),
            Change::PeerRemoved(number) => self.remove_peer(*number),
            Change::LimitsSet { peer, limits } => self.set_limits(*peer, limits),
            Change::BucketSet { peer, bucket } => self.set_bucket(*peer, bucket, level),
            Change::RouteAdded { prefix, hop } => self.add_route_copy(alloc, prefix, *hop),
            Change::RouteRemoved(prefix) => self.remove_route(prefix),
            Change::RateSet(rate) => self.set_rate(rate),
            Change::Settled { .. } => Ok(()),
        }
    }

    // A route to a peer that is there, its prefix copied after the refusals.
    fn add_route_copy(
        &mut self,
        alloc: Global,
        prefix: &Prefix,
        hop: Hop,
    ) -> Result<(), CommandFault>
        requires { IsSome (peer_numbered hop.peer self.old.peers) }
        ensures { IsChanged result (route_refusal self.old prefix.now) self.old self.new
            (with_route self.old prefix.now hop) }
    {
        if self.routes.has(prefix) {
            return Err(CommandFault::Present);
        }
        if self.routes.len() == MAX_ROUTES {
            return Err(CommandFault::Limit);
        }
        let copy = prefix.copy(alloc)?;
        self.add_route(copy, hop)
    }
}
