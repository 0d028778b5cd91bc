//! The places of peers and rates, in the order of tokens and of pairs, so that a look-up walks no list.

ghost use Rattle.std.specs.Prelude.{◌≡◌, ◌≤◌, length, not, is_some, IfSome};
ghost use Rattle.std.specs.Cmp.Lexicographic.{slice_cmp};
ghost use Rattle.std.specs.List.{list_any};
ghost use Rattle.std.specs.List.Sorted.{IsBinarySearchResult, IsSearchInRange};
ghost use Rattle.std.specs.Ordering.{nat_cmp};
ghost use Rattle.std.specs.Str.{bytes_eq};
ghost use Rattle.tenant_core.specs.Limits.{max_peers, max_rates};
ghost use Rattle.tenant_core.specs.Network.{is_present};
ghost use Rattle.tenant_core.specs.Places.{IsByToken, IsFreePlace, token_at, IsByPair, pair_at, pair_cmp};

use crate::peer::Peer;
use crate::terms::{PeerTerms, RateTerms};
use common_types::{Name, order_of};
use route_table::PeerNo;
use std::cmp::Ordering;

/// The place of the peer of that number, or the place at which to insert it. Numbers rise along the list.
pub fn search_number(peers: &[Peer], number: PeerNo) -> Result<usize, usize>
    ensures range { IsSearchInRange result (length peers.now) }
    ensures position { IsBinarySearchResult (λ p. nat_cmp p.number number) peers.now result }
{
    peers.binary_search_by(|peer| peer.number.cmp(&number))
}

// The token of the peer at that place, or no byte if there is none.
fn token_at(peers: &[Peer], place: u16) -> &[u8]
    ensures { result.now ≡ token_at peers.now place }
{
    match peers.get(place as usize) {
        Some(peer) => peer.terms.token.as_bytes(),
        None => &[],
    }
}

/// The index, in the order of tokens, of the peer with that token, or the index at which to insert it.
pub fn search_token(peers: &[Peer], order: &[u16], token: &[u8]) -> Result<usize, usize>
    ensures range { IsSearchInRange result (length order.now) }
    ensures position { IsBinarySearchResult (λ p. slice_cmp nat_cmp (token_at peers.now p) token.now) order.now result }
{
    order.binary_search_by(|place| order_of(token_at(peers, *place), token))
}

fn has_name(peers: &[Peer], name: &Name) -> bool
    ensures { result ≡ list_any (λ p. bytes_eq p.terms.name name.now) peers.now }
{
    peers
        .iter()
        .any(|peer| peer.terms.name.as_bytes() == name.as_bytes())
}

/// The index in the order of tokens at which to insert these terms, unless a peer has their name or token.
pub fn free_place(peers: &[Peer], order: &[u16], terms: &PeerTerms) -> Option<usize>
    requires { IsByToken peers.now order.now }
    ensures free { is_some result ≡ not (is_present peers.now terms.now) }
    ensures place { IfSome result (λ at. IsFreePlace peers.now order.now terms.now.token at) }
{
    if has_name(peers, &terms.name) {
        return None;
    }
    search_token(peers, order, terms.token.as_bytes()).err()
}

/// Writes the places of the peers, in the order of their tokens. There is room for them.
pub fn order_by_token(peers: &[Peer], order: &mut Vec<u16>)
    requires few { length peers.now ≤ max_peers }
    requires room { length peers.now ≤ length order.old.items }
    ensures { IsByToken peers.now order.new.items }
{
    order.truncate(peers.len());
    for place in 0..order.len() {
        order[place] = place as u16;
    }
    order.sort_unstable_by(|a, b| token_at(peers, *a).cmp(token_at(peers, *b)));
}

// By the sender, and then by the receiver.
fn compare(a: (PeerNo, PeerNo), b: (PeerNo, PeerNo)) -> Ordering
    ensures { result ≡ pair_cmp a b }
{
    a.0.cmp(&b.0).then(a.1.cmp(&b.1))
}

// The pair of the rate at that place, or zeros if there is none.
fn pair_at(rates: &[RateTerms], place: u16) -> (PeerNo, PeerNo)
    ensures { result ≡ pair_at rates.now place }
{
    match rates.get(place as usize) {
        Some(rate) => (rate.from, rate.to),
        None => (0, 0),
    }
}

/// The index, in the order of pairs, of the rate for that pair, or the index at which to insert it.
pub fn search_pair(
    rates: &[RateTerms],
    order: &[u16],
    pair: (PeerNo, PeerNo),
) -> Result<usize, usize>
    ensures range { IsSearchInRange result (length order.now) }
    ensures position { IsBinarySearchResult (λ p. pair_cmp (pair_at rates.now p) pair) order.now result }
{
    order.binary_search_by(|place| compare(pair_at(rates, *place), pair))
}

/// Writes the places of the rates, in the order of their pairs. There is room for them.
pub fn order_by_pair(rates: &[RateTerms], order: &mut Vec<u16>)
    requires few { length rates.now ≤ max_rates }
    requires room { length rates.now ≤ length order.old.items }
    ensures { IsByPair rates.now order.new.items }
{
    order.truncate(rates.len());
    for place in 0..order.len() {
        order[place] = place as u16;
    }
    order.sort_unstable_by(|a, b| compare(pair_at(rates, *a), pair_at(rates, *b)));
}
