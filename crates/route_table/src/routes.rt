//! Routes by prefix.

ghost use Rattle.std.specs.Prelude.{◌≡◌, ◌≢◌, ◌≤◌, ◌↔◌, ◌==◌, ℕ, IsTrue, IsOk, OnOk, OnErr, IfOk, IfSome, OnSome};
ghost use Rattle.std.specs.Prelude.{IfNone, if◌then◌else◌, nat_lt, Ok, Err, List, false};
ghost use Rattle.std.specs.FinMap.{empty, get, contains_key, insert, remove, len, values};
ghost use Rattle.std.specs.List.{list_all, list_any};
ghost use Rattle.route_table.specs.Routes.{RouteMap, IsBestRoute, HasNoRoute, NamesPeer, best_route, max_routes};

mod listing;

use crate::fault::RouteFault;
use crate::hop::{Hop, PeerNo};
use crate::node::{Node, PeerGroup};
use ilp_addr::{Address, Prefix};
use std::alloc::{AllocError, Global};
use std::marker::Model;

/// The most routes that an operator may have.
pub const MAX_ROUTES: usize = 4096;

/// The routes of one operator: at most 4,096 prefixes, and for each the peer that packets for it
/// go to, and the fee that is kept of them.
#[derive(Debug, Drop)]
pub struct Routes {
    alloc: Global,
    root: Node,
    count: usize,
}

impl Model for Routes {
    ghost use Rattle.std.specs.Ordering.{nat_cmp};
    ghost use Rattle.std.specs.Cmp.Lexicographic.{slice_cmp};
    ghost use Rattle.std.specs.FinMap as map;
    ghost use Rattle.std.specs.Coded.{coded_ℕ, coded_list};
    ghost use Rattle.route_table.specs.Hops.{hop_code};
    ghost use Rattle.route_table.specs.declared.hop.Hop.{Hop};

    ghost Value = { map.FinMap (slice_cmp nat_cmp) Hop };

    ghost coded = { map.code (coded_list coded_ℕ) hop_code };

    ghost use Rattle.route_table.specs.Kept.{routes_of, RoutesInvariant};

    ghost view = { λ r. routes_of r.root.routes };

    ghost invariant = { λ r. RoutesInvariant r.root.routes r.count };
}

impl Routes {
    /// No routes.
    pub fn new(alloc: Global) -> Routes
        ensures { result ≡ empty }
    {
        Routes {
            alloc,
            root: Node::new(alloc),
            count: 0,
        }
    }

    /// How many prefixes have a route.
    pub fn len(&self) -> usize
        ensures value { result ≡ len self.now }
        ensures few { len self.now ≤ max_routes }
    {
        self.count
    }

    /// Whether no prefix has a route.
    pub fn is_empty(&self) -> bool
        ensures { result ≡ (len self.now == 0) }
    {
        self.count == 0
    }

    /// Whether the prefix has a route.
    pub fn has(&self, prefix: &Prefix) -> bool
        ensures { result ≡ contains_key self.now prefix.now }
    {
        self.hop_of(prefix).is_some()
    }

    /// Sends packets for the prefix on by the hop.
    ///
    /// Errors, in the order of the tests: `Present` if the prefix has a route, `Full` if there are
    /// 4,096 routes, `Memory` if it is out of memory. An error leaves the routes as they were.
    pub fn add(&mut self, prefix: Prefix, hop: Hop) -> Result<(), RouteFault>
        ensures added { OnOk result (self.new ≡ insert self.old prefix hop) }
        ensures unchanged { OnErr result (self.new ≡ self.old) }
        ensures present { (result ≡ Err RouteFault.Present) ↔ IsTrue (contains_key self.old prefix) }
        ensures full { (result ≡ Err RouteFault.Full)
            ↔ ((contains_key self.old prefix ≡ false) × (len self.old ≡ max_routes)) }
        ensures never_absent { result ≢ Err RouteFault.Absent }
    {
        if self.hop_of(&prefix).is_some() {
            return Err(RouteFault::Present);
        }
        if self.count == MAX_ROUTES {
            return Err(RouteFault::Full);
        }
        let _ = prefix.bytes();
        if self.root.add(self.alloc, prefix.segments(), hop).is_err() {
            return Err(RouteFault::Memory);
        }
        self.count += 1;
        Ok(())
    }

    /// Removes the route of the prefix.
    ///
    /// Errors, in the order of the tests: `Absent` if the prefix has no route, `Memory` if nodes
    /// are shared with a copy and it is out of memory for its own. An error leaves the routes as
    /// they were.
    pub fn remove(&mut self, prefix: &Prefix) -> Result<(), RouteFault>
        ensures removed { OnOk result (self.new ≡ remove self.old prefix.now) }
        ensures unchanged { OnErr result (self.new ≡ self.old) }
        ensures absent { (result ≡ Err RouteFault.Absent)
            ↔ (contains_key self.old prefix.now ≡ false) }
        ensures never_present { result ≢ Err RouteFault.Present }
        ensures never_full { result ≢ Err RouteFault.Full }
    {
        if self.hop_of(prefix).is_none() {
            return Err(RouteFault::Absent);
        }
        if self.root.remove(prefix.segments()).is_err() {
            return Err(RouteFault::Memory);
        }
        self.count -= 1;
        Ok(())
    }

    /// The hop of the best route: among the prefixes that begin the destination, the one with the
    /// most segments (RFC 0015, "Address Prefixes"). `None` if no prefix begins it.
    pub fn find(&self, destination: &Address<'_>) -> Option<Hop>
        ensures exact { result ≡ best_route self.now destination.now }
        ensures found { IfSome result (λ hop.
            (prefix : List ℕ) × IsBestRoute self.now destination.now prefix hop) }
        ensures none { IfNone result (HasNoRoute self.now destination.now) }
    {
        ilp_addr::laws::prefixes();
        self.root.find(destination.segments())
    }

    /// Whether some prefix has a route to the peer.
    pub fn names_peer(&self, peer: PeerNo) -> bool
        ensures named { IsTrue result ↔ NamesPeer self.now peer }
        ensures listed { result ≡ list_any (λ hop. hop.peer == peer) (values self.now) }
    {
        self.root.names(PeerGroup::Peer(peer))
    }

    /// Whether each route's peer has a number below `count`.
    pub fn names_only_below(&self, count: usize) -> bool
        ensures { result ≡ list_all (λ hop. nat_lt hop.peer count) (values self.now) }
    {
        !self.root.names(PeerGroup::NotBelow(count))
    }

    /// The same routes, in memory that the two share. A later change to either copies the shared
    /// nodes on its way, so neither sees a change of the other. Fails only if it is out of memory.
    pub fn copy(&self, alloc: Global) -> Result<Routes, AllocError>
        ensures { IfOk result (λ routes. routes ≡ self.now) }
    {
        let root = self.root.copy(alloc)?;
        Ok(Routes {
            alloc,
            root,
            count: self.count,
        })
    }

    /// Whether the others are the same: each prefix has the same hop in both, or in neither.
    pub fn is_same(&self, other: &Routes) -> bool
        ensures { IsTrue result ↔ (self.now ≡ other.now) }
    {
        self.root.is_within(&other.root) && other.root.is_within(&self.root)
    }

    fn hop_of(&self, prefix: &Prefix) -> Option<Hop>
        ensures { result ≡ get self.now prefix.now }
    {
        self.root.hop_at(prefix.segments())
    }
}
