//! Whether two of a tenant's values are the same.

ghost use Rattle.std.specs.Prelude.{◌≡◌, ◌↔◌, IsTrue};
ghost use Rattle.tenant_core.specs.Views.{decide_of, entry_of, record_of};

use crate::journal::{
    AnswerEntry, AnswerKey, Change, ChangeEntry, DecideEntry, Entry, Outcome, Record,
};
use crate::network::Network;
use crate::opening::Opening;
use crate::peer::Peer;
use crate::record_view::{DecideView, EntryView, RecordView};
use crate::terms::{BucketTerms, PeerLimits, PeerTerms, RateTerms};

impl PeerLimits {
    /// Whether the others are the same.
    pub fn is_same(&self, other: &PeerLimits) -> bool
        ensures { IsTrue result ↔ (self.now ≡ other.now) }
    {
        self.cap == other.cap && self.ceiling == other.ceiling && self.credit == other.credit
    }
}

impl BucketTerms {
    /// Whether the others are the same.
    pub fn is_same(&self, other: &BucketTerms) -> bool
        ensures { IsTrue result ↔ (self.now ≡ other.now) }
    {
        self.burst == other.burst && self.per_second == other.per_second
    }
}

impl RateTerms {
    /// Whether the others are the same.
    pub fn is_same(&self, other: &RateTerms) -> bool
        ensures { IsTrue result ↔ (self.now ≡ other.now) }
    {
        self.from == other.from
            && self.to == other.to
            && self.rate.numerator() == other.rate.numerator()
            && self.rate.denominator() == other.rate.denominator()
    }
}

impl PeerTerms {
    /// Whether the others are the same.
    pub fn is_same(&self, other: &PeerTerms) -> bool
        ensures { IsTrue result ↔ (self.now ≡ other.now) }
    {
        self.name.as_bytes() == other.name.as_bytes()
            && self.role == other.role
            && self.token.as_bytes() == other.token.as_bytes()
            && self.target.is_same(&other.target)
            && self.asset.as_bytes() == other.asset.as_bytes()
            && self.scale == other.scale
            && self.limits.is_same(&other.limits)
            && self.bucket.is_same(&other.bucket)
    }
}

impl Peer {
    /// Whether the other is the same.
    pub fn is_same(&self, other: &Peer) -> bool
        ensures { IsTrue result ↔ (self.now ≡ other.now) }
    {
        self.number == other.number
            && self.terms.is_same(&other.terms)
            && self.balance == other.balance
            && self.bucket == other.bucket
    }
}

fn are_same_peers(peers: &[Peer], others: &[Peer]) -> bool
    ensures { IsTrue result ↔ (peers.now ≡ others.now) }
{
    if peers.len() != others.len() {
        return false;
    }
    for place in 0..peers.len() {
        if !peers[place].is_same(&others[place]) {
            return false;
        }
    }
    true
}

/// Whether the other rates are the same, in the same order.
pub fn are_same_rates(rates: &[RateTerms], others: &[RateTerms]) -> bool
    ensures { IsTrue result ↔ (rates.now ≡ others.now) }
{
    if rates.len() != others.len() {
        return false;
    }
    for place in 0..rates.len() {
        if !rates[place].is_same(&others[place]) {
            return false;
        }
    }
    true
}

impl Network {
    /// Whether the other is the same.
    pub fn is_same(&self, other: &Network) -> bool
        ensures { IsTrue result ↔ (self.now ≡ other.now) }
    {
        self.next_peer() == other.next_peer()
            && are_same_peers(self.peers(), other.peers())
            && self.routes().is_same(other.routes())
            && are_same_rates(self.rates(), other.rates())
    }
}

impl Opening {
    /// Whether the other is the same.
    pub fn is_same(&self, other: &Opening) -> bool
        ensures { IsTrue result ↔ (self.now ≡ other.now) }
    {
        self.tenant == other.tenant
            && self.name.as_bytes() == other.name.as_bytes()
            && self.address.as_bytes() == other.address.as_bytes()
            && self.journal == other.journal
            && self.margin == other.margin
            && self.hold == other.hold
            && self.period == other.period
            && self.clock == other.clock
            && self.next_hold == other.next_hold
            && self.network.is_same(&other.network)
    }
}

impl Change {
    /// Whether the other is the same.
    pub fn is_same(&self, other: &Change) -> bool
        ensures { IsTrue result ↔ (self.now ≡ other.now) }
    {
        match (self, other) {
            (Change::PeerAdded(terms), Change::PeerAdded(others)) => terms.is_same(others),
            (Change::PeerRemoved(peer), Change::PeerRemoved(other)) => *peer == *other,
            (
                Change::LimitsSet { peer, limits },
                Change::LimitsSet {
                    peer: other,
                    limits: others,
                },
            ) => *peer == *other && limits.is_same(others),
            (
                Change::BucketSet { peer, bucket },
                Change::BucketSet {
                    peer: other,
                    bucket: others,
                },
            ) => *peer == *other && bucket.is_same(others),
            (
                Change::RouteAdded { prefix, hop },
                Change::RouteAdded {
                    prefix: other,
                    hop: others,
                },
            ) => prefix.bytes() == other.bytes() && *hop == *others,
            (Change::RouteRemoved(prefix), Change::RouteRemoved(other)) => {
                prefix.bytes() == other.bytes()
            }
            (Change::RateSet(rate), Change::RateSet(other)) => rate.is_same(other),
            (
                Change::Settled { peer, side, amount },
                Change::Settled {
                    peer: other,
                    side: others,
                    amount: sum,
                },
            ) => *peer == *other && *side == *others && *amount == *sum,
            _ => false,
        }
    }
}

impl ChangeEntry {
    /// Whether the other is the same.
    pub fn is_same(&self, other: &ChangeEntry) -> bool
        ensures { IsTrue result ↔ (self.entry.now ≡ other.entry.now) }
    {
        self.now == other.now && self.change.is_same(&other.change)
    }
}

impl AnswerKey {
    /// Whether the other is the same.
    pub fn is_same(&self, other: &AnswerKey) -> bool
        ensures { IsTrue result ↔ (self.now ≡ other.now) }
    {
        match (self, other) {
            (AnswerKey::Fulfilled(fulfillment), AnswerKey::Fulfilled(other)) => {
                *fulfillment == *other
            }
            (AnswerKey::Rejected, AnswerKey::Rejected) => true,
            (AnswerKey::Fault, AnswerKey::Fault) => true,
            _ => false,
        }
    }
}

impl AnswerEntry {
    /// Whether the other is the same.
    pub fn is_same(&self, other: &AnswerEntry) -> bool
        ensures { IsTrue result ↔ (self.entry.now ≡ other.entry.now) }
    {
        self.hold == other.hold && self.now == other.now && self.key.is_same(&other.key)
    }
}

impl Outcome {
    /// Whether the other is the same.
    pub fn is_same(&self, other: &Outcome) -> bool
        ensures { IsTrue result ↔ (self.now ≡ other.now) }
    {
        *self == *other
    }
}

impl DecideView<'_> {
    /// Whether it is that entry.
    pub fn is_same(&self, entry: &DecideEntry) -> bool
        ensures { IsTrue result ↔ (decide_of self.entry.now ≡ entry.entry.now) }
    {
        self.peer == entry.peer
            && self.amount == entry.amount
            && self.expiry == entry.expiry
            && *self.condition == entry.condition
            && self.destination == entry.destination.as_slice()
            && self.now == entry.now
    }
}

impl EntryView<'_> {
    /// Whether it is that entry.
    pub fn is_same(&self, entry: &Entry) -> bool
        ensures { IsTrue result ↔ (entry_of self.now ≡ entry.now) }
    {
        match (self, entry) {
            (EntryView::Decide(view), Entry::Decide(entry)) => view.is_same(entry),
            (EntryView::Answer(view), Entry::Answer(entry)) => view.is_same(entry),
            (EntryView::Tick(view), Entry::Tick(entry)) => view.now == entry.now,
            (EntryView::Change(view), Entry::Change(entry)) => view.is_same(entry),
            (EntryView::Roll(view), Entry::Roll(entry)) => view.now == entry.now,
            _ => false,
        }
    }
}

impl RecordView<'_> {
    /// Whether it is that record.
    pub fn is_same(&self, other: &Record) -> bool
        ensures { IsTrue result ↔ (record_of self.now ≡ other.now) }
    {
        self.entry.is_same(&other.entry) && self.outcome.is_same(&other.outcome)
    }
}
