//! What the types of a tenant's parts keep, and what holds of them when a period begins.

ghost use Rattle.std.specs.Prelude.{◌≡◌, ◌↔◌, true, IsTrue};
ghost use Rattle.std.specs.List.{All};
ghost use Rattle.statements.specs.ReadBack.{AreNumbersWritable, AreWritable, IsOwnWritable, IsPeerWritable, IsRate, IsRouteWritable};
ghost use Rattle.tenant_core.specs.Terms.{are_limits_within, is_bucket_within};
ghost use Rattle.book_log.specs.OneBase.{IsPeerStart, IsStart};
ghost use Rattle.book_log.specs.Written.{AreSecrets};

use common_types::Token;
use route_table::Route;
use tenant_core::{BucketTerms, Opening, Peer, PeerLimits, PeerTerms, RateTerms};

fn limits_are_kept(limits: &PeerLimits)
    ensures { are_limits_within limits.now ≡ true }
{
    limits.cap.get();
    limits.ceiling.get();
    limits.credit.get();
}

fn bucket_is_kept(bucket: &BucketTerms)
    ensures { is_bucket_within bucket.now ≡ true }
{
    bucket.burst.get();
    bucket.per_second.get();
}

fn terms_are_kept(terms: &PeerTerms)
    ensures stated { AreWritable terms.now }
    ensures secrets { AreSecrets terms.now }
{
    terms.name.as_bytes();
    terms.asset.as_bytes();
    terms.token.as_bytes();
    terms.target.url();
    let _scale = terms.scale;
    limits_are_kept(&terms.limits);
    bucket_is_kept(&terms.bucket);
}

fn peer_is_kept(peer: &Peer)
    ensures stated { IsPeerWritable peer.now }
    ensures secrets { AreSecrets peer.now.terms }
{
    terms_are_kept(&peer.terms);
    peer.balance.get();
    let _number = peer.number;
    let _credit = peer.bucket.credit;
}

fn is_peer_start(clock: u64, peer: &Peer) -> bool
    ensures { IsTrue result ↔ IsPeerStart clock peer.now }
{
    peer_is_kept(peer);
    peer.bucket.clock == clock && peer.bucket.entries == 0
}

fn are_peer_starts(clock: u64, peers: &[Peer]) -> bool
    ensures { IsTrue result ↔ All (IsPeerStart clock) peers.now }
{
    for peer in peers {
        if !is_peer_start(clock, peer) {
            return false;
        }
    }
    true
}

fn rate_is_kept(rate: &RateTerms)
    ensures { IsRate rate.now }
{
    let _from = rate.from;
    let _to = rate.to;
    rate.rate.numerator();
}

fn rates_are_kept(rates: &[RateTerms])
    ensures { All IsRate rates.now }
{
    for rate in rates {
        rate_is_kept(rate);
    }
}

fn route_is_kept(route: &Route)
    ensures { IsRouteWritable route.now }
{
    route.prefix.bytes();
    let _peer = route.hop.peer;
    route.hop.fee.get();
}

/// A line can hold each route.
pub fn routes_are_kept(routes: &[Route])
    ensures { All IsRouteWritable routes.now }
{
    for route in routes {
        route_is_kept(route);
    }
}

fn own_is_kept(opening: &Opening)
    ensures { IsOwnWritable opening.now }
{
    opening.name.as_bytes();
    opening.address.as_bytes();
    let _tenant = opening.tenant;
    let _journal = opening.journal;
    let _margin = opening.margin;
    let _hold = opening.hold;
}

fn numbers_are_kept(opening: &Opening)
    ensures { AreNumbersWritable opening.now }
{
    let _period = opening.period;
    let _clock = opening.clock;
    let _next_hold = opening.next_hold;
    let _next_peer = opening.network.next_peer();
}

/// Whether a tenant is at the beginning of a period: its peers' buckets are as they are at its clock, before the first entry.
pub fn is_start(opening: &Opening, admin: &Token) -> bool
    ensures { IsTrue result ↔ IsStart (record { opening = opening.now; admin = admin.now }) }
{
    own_is_kept(opening);
    numbers_are_kept(opening);
    rates_are_kept(opening.network.rates());
    admin.as_bytes();
    are_peer_starts(opening.clock, opening.network.peers())
}
