//! What is kept running for a book's peers: as a period finds it, and as packets and orders change it.

ghost use Rattle.std.specs.Prelude.{◌≡◌, ◌≤◌, ◌<◌, ℕ, false, map, length, slice_get, Some, IfOk, vec_len, vec_capacity};
ghost use Rattle.std.specs.Option.{ForSome};
ghost use Rattle.rate_bucket.specs.Running.{Level};
ghost use Rattle.tenant_core.specs.ChangedAt.{changed_at};
ghost use Rattle.tenant_core.specs.Following.{charged, new_purse, new_bucket, purses_after, levels_after, CanFollow};
ghost use Rattle.tenant_core.specs.Following.{is_past_bound, settling};
ghost use Rattle.tenant_core.specs.Running.{opened_purse, opened_level};

use crate::command::Side;
use crate::journal::Change;
use crate::peer::Peer;
use crate::terms::PeerTerms;
use money_core::Purse;
use rate_bucket::Bucket;
use std::alloc::{AllocError, Global};

fn opened_purse(peer: &Peer) -> Purse
    ensures { result ≡ opened_purse peer.now }
{
    let limits = &peer.terms.limits;
    Purse::new(
        peer.balance.get(),
        limits.ceiling.get(),
        limits.credit.get(),
    )
}

/// The purses of the peers as a period finds them. Fails only if it is out of memory.
pub fn opened_purses(alloc: Global, peers: &[Peer]) -> Result<Vec<Purse>, AllocError>
    ensures { IfOk result (λ purses. purses.items ≡ map opened_purse peers.now) }
{
    let mut purses = Vec::with_capacity(alloc, peers.len())?;
    for peer in peers {
        purses.push_reserved(opened_purse(peer));
    }
    Ok(purses)
}

fn opened_bucket(peer: &Peer) -> Bucket
    ensures { result ≡ opened_level peer.now }
{
    let terms = &peer.terms.bucket;
    Bucket::with_credit(
        terms.burst.get() as u32,
        terms.per_second.get() as u32,
        peer.bucket.credit,
        peer.bucket.clock,
    )
}

/// The buckets of the peers as a period finds them. Fails only if it is out of memory.
pub fn opened_buckets(alloc: Global, peers: &[Peer]) -> Result<Vec<Bucket>, AllocError>
    ensures { IfOk result (λ buckets. buckets.items ≡ map opened_level peers.now) }
{
    let mut buckets = Vec::with_capacity(alloc, peers.len())?;
    for peer in peers {
        buckets.push_reserved(opened_bucket(peer));
    }
    Ok(buckets)
}

/// A copy of the purses. Fails only if it is out of memory.
pub fn copied_purses(alloc: Global, purses: &[Purse]) -> Result<Vec<Purse>, AllocError>
    ensures { IfOk result (λ copy. copy.items ≡ purses.now) }
{
    let mut copy = Vec::with_capacity(alloc, purses.len())?;
    for purse in purses {
        copy.push_reserved(purse.copy());
    }
    Ok(copy)
}

/// The bucket at that place admits a packet at that clock, if there is credit for it, and the packet pays.
pub fn charge(buckets: &mut Vec<Bucket>, place: usize, clock: u64)
    requires inside { place < length buckets.old.items }
    requires later { (l : Level) → slice_get buckets.old.items place ≡ Some l → l.clock ≤ clock }
    ensures { buckets.new.items ≡ changed_at (charged clock) buckets.old.items place }
{
    let _ = buckets[place].admit(clock);
}

fn new_purse(terms: &PeerTerms) -> Purse
    ensures { result ≡ new_purse terms.now }
{
    Purse::new(0, terms.limits.ceiling.get(), terms.limits.credit.get())
}

fn new_bucket(terms: &PeerTerms, clock: u64) -> Bucket
    ensures { result ≡ new_bucket terms.now clock }
{
    let bucket = &terms.bucket;
    Bucket::new(
        bucket.burst.get() as u32,
        bucket.per_second.get() as u32,
        clock,
    )
}

// An amount was paid on that side.
fn settle(purse: &mut Purse, side: Side, amount: u64)
    requires can { is_past_bound side amount purse.old ≡ false }
    ensures { purse.new ≡ settling side amount purse.old }
{
    match side {
        Side::In => {
            let _ = purse.settle_in(amount);
        }
        Side::Out => {
            let _ = purse.settle_out(amount);
        }
    }
}

/// The purses after a change, whose peer was at that place. There is room for one more.
pub fn follow_purses(purses: &mut Vec<Purse>, change: &Change, place: Option<usize>)
    requires room { vec_len purses.old < vec_capacity purses.old }
    requires inside { ForSome place (λ i. i < length purses.old.items) }
    requires can { CanFollow change.now place purses.old.items }
    ensures { purses.new.items ≡ purses_after change.now place purses.old.items }
{
    match (change, place) {
        (Change::PeerAdded(terms), _) => purses.push_reserved(new_purse(terms)),
        (Change::PeerRemoved(_), Some(place)) => {
            let _ = purses.remove(place);
        }
        (Change::LimitsSet { limits, .. }, Some(place)) => {
            purses[place].set_limits(limits.ceiling.get(), limits.credit.get());
        }
        (Change::Settled { side, amount, .. }, Some(place)) => settle(
            &mut purses[place],
            *side,
            amount.get(),
        ),
        _ => {}
    }
}

/// The buckets after a change at that clock, whose peer was at that place. There is room for one more.
pub fn follow_buckets(buckets: &mut Vec<Bucket>, change: &Change, place: Option<usize>, clock: u64)
    requires room { vec_len buckets.old < vec_capacity buckets.old }
    requires inside { ForSome place (λ i. i < length buckets.old.items) }
    requires later { (i : ℕ) (l : Level) → slice_get buckets.old.items i ≡ Some l → l.clock ≤ clock }
    ensures { buckets.new.items ≡ levels_after change.now place clock buckets.old.items }
{
    match (change, place) {
        (Change::PeerAdded(terms), _) => buckets.push_reserved(new_bucket(terms, clock)),
        (Change::PeerRemoved(_), Some(place)) => {
            let _ = buckets.remove(place);
        }
        (Change::BucketSet { bucket, .. }, Some(place)) => {
            buckets[place].change(
                bucket.burst.get() as u32,
                bucket.per_second.get() as u32,
                clock,
            );
        }
        _ => {}
    }
}
