//! What a tenant's journal is made of.

ghost use Rattle.std.specs.Prelude.{◌≡◌, length};

use crate::command::{Amount, Side};
use crate::terms::{BucketTerms, PeerLimits, PeerTerms, RateTerms};
use crate::verdict::Verdict;
use common_types::{Between, Bytes, Spare};
use ilp_addr::{Address, Prefix};
use route_table::{Hop, PeerNo};
use std::alloc::{AllocError, Global};

/// When a packet expires, in milliseconds since 1970-01-01: at most 9999-12-30, as late as a timestamp says it
/// (RFC 0027, "ILP Prepare").
pub type Expiry = Between<0, 253_402_128_000_000>;

/// The parts of a Prepare that a tenant decides by.
#[derive(Clone, Copy)]
pub struct PrepareKey<'a> {
    /// In the sender's units.
    pub amount: u64,
    pub expiry: Expiry,
    pub condition: &'a [u8; 32],
    pub destination: &'a Address<'a>,
}

/// A Prepare that a peer sent, and the moment. Contracts speak of it. A journal keeps it in less room, and lends it as
/// a [`DecideView`](crate::DecideView).
#[derive(Drop)]
pub struct DecideEntry {
    pub peer: PeerNo,
    pub amount: u64,
    pub expiry: u64,
    pub condition: [u8; 32],
    pub destination: Bytes,
    pub now: u64,
}

/// What came back for a packet that went on.
#[derive(Clone, Copy)]
pub enum AnswerKey {
    /// A Fulfill with this fulfillment (RFC 0027, "ILP Fulfill").
    Fulfilled([u8; 32]),
    /// A Reject (RFC 0027, "ILP Reject").
    Rejected,
    /// Nothing that could be read, or nothing at all.
    Fault,
}

// The invariant of the type of a fulfillment.
fn has_32_bytes(fulfillment: &[u8; 32])
    ensures { length fulfillment.now ≡ 32 }
{}

impl AnswerKey {
    ghost use Rattle.std.specs.Prelude.{◌≡◌, true};
    ghost use Rattle.tenant_core.specs.Holds.{is_fulfill};
    ghost use Rattle.tenant_core.specs.Called.{is_answer};

    /// Whether it is a Fulfill.
    pub fn is_fulfill(&self) -> bool
        ensures { result ≡ is_fulfill self.now }
    {
        matches!(self, AnswerKey::Fulfilled(_))
    }

    // What its type keeps: a fulfillment has 32 bytes.
    pub(crate) fn is_answer(&self)
        ensures { is_answer self.now ≡ true }
    {
        if let AnswerKey::Fulfilled(fulfillment) = self {
            has_32_bytes(fulfillment);
        }
    }
}

/// What came back for the packet that is held under that number, and the moment.
#[derive(Clone, Copy)]
pub struct AnswerEntry {
    pub hold: u64,
    pub now: u64,
    pub key: AnswerKey,
}

/// A moment that was handed in.
#[derive(Clone, Copy)]
pub struct TickEntry {
    pub now: u64,
}

/// The change of an accepted order. It names peers by their numbers.
#[derive(Drop)]
pub enum Change {
    /// A peer was added, under the next number.
    PeerAdded(PeerTerms),
    /// A peer was removed, and the rates that named it.
    PeerRemoved(PeerNo),
    LimitsSet {
        peer: PeerNo,
        limits: PeerLimits,
    },
    BucketSet {
        peer: PeerNo,
        bucket: BucketTerms,
    },
    RouteAdded {
        prefix: Prefix,
        hop: Hop,
    },
    RouteRemoved(Prefix),
    RateSet(RateTerms),
    Settled {
        peer: PeerNo,
        side: Side,
        amount: Amount,
    },
}

/// An accepted order, and the moment.
#[derive(Drop)]
pub struct ChangeEntry {
    pub change: Change,
    pub now: u64,
}

/// The end of a period, at that moment.
#[derive(Clone, Copy)]
pub struct RollEntry {
    pub now: u64,
}

/// One event of a tenant, as contracts speak of it.
#[derive(Drop)]
pub enum Entry {
    Decide(DecideEntry),
    Answer(AnswerEntry),
    Tick(TickEntry),
    Change(ChangeEntry),
    /// The last of its period.
    Roll(RollEntry),
}

/// The outcome of an event.
#[derive(Clone, Copy, Debug, PartialEq, Eq)]
pub enum Outcome {
    /// Of a Prepare or an answer.
    Packet(Verdict),
    /// Of a tick: how many packets are overdue since it.
    Ticked(u32),
    /// Of an order: it was accepted.
    Done,
    /// Of a roll.
    Rolled,
}

/// An entry with its outcome, as contracts speak of it.
#[derive(Drop)]
pub struct Record {
    pub entry: Entry,
    pub outcome: Outcome,
}

impl ChangeEntry {
    ghost use Rattle.std.specs.Prelude.{◌≡◌, ◌≤◌, IfOk};
    ghost use Rattle.ilp_addr.specs.Address.{max_address};

    /// A copy of the entry. Fails only if it is out of memory.
    pub fn copy(&self, alloc: Global) -> Result<ChangeEntry, AllocError>
        ensures { IfOk result (λ copy. copy ≡ self.entry.now) }
    {
        Ok(ChangeEntry {
            change: self.change.copy(alloc)?,
            now: self.now,
        })
    }

    /// A copy of the entry, with a prefix in that room. It allocates nothing.
    pub fn copy_into(&self, spare: Spare) -> ChangeEntry
        requires { max_address ≤ spare }
        ensures { result ≡ self.entry.now }
    {
        ChangeEntry {
            change: self.change.copy_into(spare),
            now: self.now,
        }
    }
}

impl Change {
    ghost use Rattle.std.specs.Prelude.{◌≡◌, ◌≢◌, ◌≤◌, List, ℕ, IfOk};
    ghost use Rattle.ilp_addr.specs.Address.{max_address};
    ghost use Rattle.route_table.specs.declared.hop.Hop.{Hop};

    /// A copy of the change. Fails only if it is out of memory.
    pub fn copy(&self, alloc: Global) -> Result<Change, AllocError>
        ensures { IfOk result (λ copy. copy ≡ self.now) }
    {
        Ok(match self {
            Change::RouteAdded { prefix, hop } => Change::RouteAdded {
                prefix: prefix.copy(alloc)?,
                hop: *hop,
            },
            Change::RouteRemoved(prefix) => Change::RouteRemoved(prefix.copy(alloc)?),
            _ => self.copy_bare(),
        })
    }

    // A copy of a change that names no prefix.
    fn copy_bare(&self) -> Change
        requires added { (prefix : List ℕ) (hop : Hop) → self.now ≢ Change.RouteAdded prefix hop }
        requires removed { (prefix : List ℕ) → self.now ≢ Change.RouteRemoved prefix }
        ensures { result ≡ self.now }
    {
        match self {
            Change::PeerAdded(terms) => Change::PeerAdded(terms.copy()),
            Change::PeerRemoved(peer) => Change::PeerRemoved(*peer),
            Change::LimitsSet { peer, limits } => Change::LimitsSet {
                peer: *peer,
                limits: *limits,
            },
            Change::BucketSet { peer, bucket } => Change::BucketSet {
                peer: *peer,
                bucket: *bucket,
            },
            Change::RateSet(rate) => Change::RateSet(*rate),
            Change::Settled { peer, side, amount } => Change::Settled {
                peer: *peer,
                side: *side,
                amount: *amount,
            },
            Change::RouteAdded { .. } | Change::RouteRemoved(_) => unreachable!(),
        }
    }

    /// A copy of the change, with a prefix in that room. It allocates nothing.
    pub fn copy_into(&self, spare: Spare) -> Change
        requires { max_address ≤ spare }
        ensures { result ≡ self.now }
    {
        match self {
            Change::RouteAdded { prefix, hop } => Change::RouteAdded {
                prefix: prefix.copy_into(spare),
                hop: *hop,
            },
            Change::RouteRemoved(prefix) => Change::RouteRemoved(prefix.copy_into(spare)),
            _ => self.copy_bare(),
        }
    }

    /// Returns the unused capacity of a prefix to the allocator, if the allocator takes it.
    pub fn shrink(&mut self)
        ensures { self.new ≡ self.old }
    {
        match self {
            Change::RouteAdded { prefix, .. } => prefix.shrink(),
            Change::RouteRemoved(prefix) => prefix.shrink(),
            _ => {}
        }
    }
}

impl Entry {
    ghost use Rattle.std.specs.Prelude.{◌≡◌};

    /// Returns the unused capacity of an address or a prefix to the allocator, if the allocator takes it.
    pub fn shrink(&mut self)
        ensures { self.new ≡ self.old }
    {
        match self {
            Entry::Decide(decide) => decide.destination.shrink(),
            Entry::Change(entry) => entry.change.shrink(),
            _ => {}
        }
    }
}
