//! Peers of a tenant.

ghost use Rattle.std.specs.Prelude.{◌≡◌, IfOk};

use crate::shared::Shared;
use crate::terms::{Balance, PeerTerms};
use route_table::PeerNo;
use std::alloc::AllocError;

/// What a bucket held at a clock.
#[derive(Clone, Copy, Debug, PartialEq, Eq)]
pub struct Level {
    /// In thousandths of a packet.
    pub credit: u64,
    /// Milliseconds since 1970-01-01.
    pub clock: u64,
    /// How many entries the period had by then.
    pub entries: u64,
}

/// A peer under its number.
#[derive(Drop)]
pub struct Peer {
    /// Peers are numbered from 0 in the order in which they are added.
    pub number: PeerNo,
    /// What is agreed with it. Copies of the peer share it.
    pub terms: Shared<PeerTerms>,
    /// What the peer owed when the period began, or when it was added, in its units.
    pub balance: Balance,
    /// What its bucket held when it was last changed, or when the period began.
    pub bucket: Level,
}

impl Peer {
    /// A copy of the peer. Fails only if it is out of memory.
    pub fn copy(&self) -> Result<Peer, AllocError>
        ensures { IfOk result (λ copy. copy ≡ self.now) }
    {
        Ok(Peer {
            number: self.number,
            terms: self.terms.share()?,
            balance: self.balance,
            bucket: self.bucket,
        })
    }
}
