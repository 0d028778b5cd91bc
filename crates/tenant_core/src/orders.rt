//! The changes of orders, and why orders are refused.

ghost use Rattle.std.specs.Prelude.{length, option_and_then, slice_get, ◌<◌, ◌≡◌, ◌==◌, not, IfOk, IfSome, IfNone, Some, is_some, true, false};
ghost use Rattle.std.specs.List.{list_any};
ghost use Rattle.std.specs.Option.{option_copied};
ghost use Rattle.std.specs.Str.{bytes_eq};
ghost use Rattle.tenant_core.specs.Network.{peer_named, peer_numbered};
ghost use Rattle.tenant_core.specs.Orders.{number_named, rate_named, change_of, awaits_for, names_present};
ghost use Rattle.tenant_core.specs.Following.{peer_changed};
ghost use Rattle.tenant_core.specs.Reopening.{IsOrderFor};
ghost use Rattle.tenant_core.specs.declared.journal.Change.TheVariants.{RateSet};

use crate::command::{Order, Pair};
use crate::hold::{Hold, is_open};
use crate::journal::Change;
use crate::network::Network;
use crate::peer::Peer;
use crate::routing::peer_numbered;
use crate::terms::RateTerms;
use common_types::Name;
use money_core::Rate;
use route_table::{Hop, PeerNo};
use std::alloc::{AllocError, Global};

fn has_name(peer: &Peer, name: &[u8]) -> bool
    ensures { result ≡ bytes_eq peer.now.terms.name name.now }
{
    peer.terms.name.as_bytes() == name
}

/// The peer of this name.
pub fn peer_named<'a>(peers: &'a [Peer], name: &[u8]) -> Option<&'a Peer>
    ensures { option_copied result ≡ peer_named name.now peers.now }
{
    peers.iter().find(|peer| has_name(peer, name))
}

/// The number of the peer of this name.
pub fn number_named(network: &Network, name: &Name) -> Option<PeerNo>
    ensures exact { result ≡ number_named network.now name.now }
    ensures present { IfSome result (λ n. is_some (peer_numbered n network.now.peers) ≡ true) }
    ensures same { IfSome result (λ n. peer_numbered n network.now.peers ≡ peer_named name.now network.now.peers) }
{
    let peer = peer_named(network.peers(), name.as_bytes())?;
    Some(peer.number)
}

/// The rate between the peers of these names, which are two, if they are there.
pub fn rate_named(network: &Network, pair: &Pair, rate: Rate) -> Option<RateTerms>
    ensures exact { result ≡ rate_named network.now pair.now rate }
    ensures from { IfSome result (λ r. is_some (peer_numbered r.from network.now.peers) ≡ true) }
    ensures to { IfSome result (λ r. is_some (peer_numbered r.to network.now.peers) ≡ true) }
    ensures apart { IfSome result (λ r. not (r.from == r.to) ≡ true) }
{
    let from = number_named(network, pair.from())?;
    let to = number_named(network, pair.to())?;
    Some(RateTerms { from, to, rate })
}

/// The change of an order, if the peers that it names are there. Fails only if it is out of memory.
pub fn change_of(
    alloc: Global,
    network: &Network,
    order: &Order,
) -> Result<Option<Change>, AllocError>
    ensures exact { IfOk result (λ change. change ≡ change_of network.now order.now) }
    ensures present { IfOk result (λ found. IfSome found (λ c. names_present network.now c ≡ true)) }
{
    Ok(match order {
        Order::AddPeer(terms) => Some(Change::PeerAdded(terms.copy())),
        Order::RemovePeer(name) => number_named(network, name).map(|peer| Change::PeerRemoved(
            peer,
        )),
        Order::SetLimits { peer, limits } => number_named(network, peer).map(
            |peer| Change::LimitsSet {
                peer,
                limits: *limits,
            },
        ),
        Order::SetBucket { peer, bucket } => number_named(network, peer).map(
            |peer| Change::BucketSet {
                peer,
                bucket: *bucket,
            },
        ),
        Order::AddRoute { prefix, peer, fee } => match number_named(network, peer) {
            Some(peer) => Some(Change::RouteAdded {
                prefix: prefix.copy(alloc)?,
                hop: Hop { peer, fee: *fee },
            }),
            None => None,
        },
        Order::RemoveRoute(prefix) => Some(Change::RouteRemoved(prefix.copy(alloc)?)),
        Order::SetRate { pair, rate } => rate_named(network, pair, *rate).map(Change::RateSet),
        Order::Settle { peer, side, amount } => number_named(network, peer).map(
            |peer| Change::Settled {
                peer,
                side: *side,
                amount: *amount,
            },
        ),
    })
}

/// The peer whose purse or bucket a change is about, if it is there already.
pub fn peer_changed(change: &Change) -> Option<PeerNo>
    ensures { result ≡ peer_changed change.now }
{
    match change {
        Change::PeerRemoved(peer) => Some(*peer),
        Change::LimitsSet { peer, .. }
        | Change::BucketSet { peer, .. }
        | Change::Settled { peer, .. } => Some(*peer),
        _ => None,
    }
}

/// The place of that peer.
pub fn place_changed(network: &Network, change: &Change) -> Option<usize>
    ensures inside { IfSome result (λ at. at < length network.now.peers) }
    ensures value { option_and_then (λ at. slice_get network.now.peers at) result
        ≡ option_and_then (λ n. peer_numbered n network.now.peers) (peer_changed change.now) }
{
    let peer = peer_changed(change)?;
    network.place_numbered(peer)
}

fn awaits_for(hold: &Hold, peer: PeerNo) -> bool
    ensures { result ≡ awaits_for peer hold.now }
{
    is_open(hold) && (hold.from == peer || hold.to == peer)
}

/// Whether a hold that awaits its answer names the peer.
pub fn is_awaited_for(holds: &[Hold], peer: PeerNo) -> bool
    ensures { result ≡ list_any (awaits_for peer) holds.now }
{
    holds.iter().any(|hold| awaits_for(hold, peer))
}

// The name of the peer of that number, by which the number is found.
fn name_of(network: &Network, number: PeerNo) -> Option<Name>
    ensures found { IfSome result (λ name. number_named network.now name ≡ Some number) }
    ensures there { IfSome result (λ name. is_some (peer_numbered number network.now.peers) ≡ true) }
    ensures none { IfNone result (is_some (peer_numbered number network.now.peers) ≡ false) }
{
    network.is_network();
    let peer = peer_numbered(network, number)?;
    Some(peer.terms.name.copy())
}

// The names of the two peers of a rate, by which it is found.
fn pair_of(network: &Network, rate: &RateTerms) -> Option<Pair>
    ensures found { IfSome result (λ pair. rate_named network.now pair rate.now.rate ≡ Some rate.now) }
    ensures there { IfSome result (λ pair. names_present network.now (RateSet rate.now) ≡ true) }
    ensures none { IfNone result (names_present network.now (RateSet rate.now) ≡ false) }
{
    let from = name_of(network, rate.from)?;
    let to = name_of(network, rate.to)?;
    if rate.from == rate.to {
        return None;
    }
    Pair::new(from, to)
}

/// An order that makes a change, if the peers that it names are there. Fails only if it is out of
/// memory.
pub fn order_for(
    alloc: Global,
    network: &Network,
    change: &Change,
) -> Result<Option<Order>, AllocError>
    ensures { IfOk result (IsOrderFor network.now change.now) }
{
    Ok(match change {
        Change::PeerAdded(terms) => Some(Order::AddPeer(terms.copy())),
        Change::PeerRemoved(peer) => name_of(network, *peer).map(Order::RemovePeer),
        Change::LimitsSet { peer, limits } => name_of(network, *peer).map(
            |peer| Order::SetLimits {
                peer,
                limits: *limits,
            },
        ),
        Change::BucketSet { peer, bucket } => name_of(network, *peer).map(
            |peer| Order::SetBucket {
                peer,
                bucket: *bucket,
            },
        ),
        Change::RouteAdded { prefix, hop } => match name_of(network, hop.peer) {
            Some(peer) => Some(Order::AddRoute {
                prefix: prefix.copy(alloc)?,
                peer,
                fee: hop.fee,
            }),
            None => None,
        },
        Change::RouteRemoved(prefix) => Some(Order::RemoveRoute(prefix.copy(alloc)?)),
        Change::RateSet(rate) => pair_of(network, rate).map(|pair| Order::SetRate {
            pair,
            rate: rate.rate,
        }),
        Change::Settled { peer, side, amount } => name_of(network, *peer).map(
            |peer| Order::Settle {
                peer,
                side: *side,
                amount: *amount,
            },
        ),
    })
}
