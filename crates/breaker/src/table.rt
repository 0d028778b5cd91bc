//! The breakers of the peers of one tenant.

ghost use Rattle.std.specs.Prelude.{◌≡◌, ◌<◌, ◌≤◌, length, IfSome, OnErr, OnOk};
ghost use Rattle.breaker.specs.Table.{AreLearnt, IsAsked, is_of, noted, place_of, resting_of, trimmed};

use crate::breaker::{Breaker, Outcome, Pass};
use ilp_addr::Target;
use std::alloc::{AllocError, Global};

/// The breakers of so many peers are known at most: as many as a tenant has peers.
pub const MAX_KNOWN: usize = 256;

/// A peer that gave no answer to its last packet, or rests.
#[derive(Drop)]
struct Missing {
    target: Target,
    breaker: Breaker,
}

/// The breakers of a tenant's peers. A peer is known by the URL and the token of its target, and only from its first miss to its next
/// answer. So of at most 256 of them something is known: a further one takes the place of the one that came first.
#[derive(Drop)]
pub struct PeerTable {
    peers: Vec<Missing>,
    skipped: u64,
}

// Whether that is the peer of that target.
fn is_of(peer: &Missing, target: &Target) -> bool
    ensures { result ≡ is_of target.now peer.now }
{
    peer.target.url() == target.url() && peer.target.token() == target.token()
}

// The place of the peer of that target.
fn place_of(peers: &[Missing], target: &Target) -> Option<usize>
    ensures value { result ≡ place_of target.now peers.now }
    ensures there { IfSome result (λ place. place < length peers.now) }
{
    peers.iter().position(|peer| is_of(peer, target))
}

impl PeerTable {
    ghost use Rattle.std.specs.Prelude.{[]};

    /// A table in which nothing is known of any peer.
    pub fn new(alloc: Global) -> PeerTable
        ensures peers { result.peers.items ≡ [] }
        ensures skipped { result.skipped ≡ 0 }
    {
        PeerTable {
            peers: Vec::new(alloc),
            skipped: 0,
        }
    }

    /// How many peers rest, those with a trial under way included.
    pub fn resting(&self) -> usize
        ensures { result ≡ resting_of self.now.peers.items }
    {
        self.peers
            .iter()
            .filter(|peer| !peer.breaker.is_closed())
            .count()
    }

    /// How many packets had no pass, since the table was made. The count ends at 2^64 - 1.
    pub fn skipped(&self) -> u64
        ensures { result ≡ self.now.skipped }
    {
        self.skipped
    }

    /// The pass for one packet to the peer of that target at that moment; `None` if the peer rests (`Breaker::ask`).
    pub fn ask(&mut self, target: &Target, now: u64) -> Option<Pass>
        ensures { IsAsked (place_of target.now self.old.peers.items) now self.old result self.new }
    {
        let Some(place) = place_of(self.peers.as_slice(), target) else {
            return Some(Pass::Usual);
        };
        let pass = self.peers[place].breaker.ask(now);
        if pass.is_none() {
            self.skipped = self.skipped.saturating_add(1);
        }
        pass
    }

    /// Learns at that moment what became of a packet to the peer of that target, which had that pass (`Breaker::learn`). Fails only
    /// if it is out of memory; nothing is learned then.
    pub fn learn(
        &mut self,
        target: &Target,
        pass: Pass,
        outcome: Outcome,
        now: u64,
    ) -> Result<(), AllocError>
        ensures ok { OnOk result (AreLearnt (place_of target.now self.old.peers.items) target.now pass outcome now self.old.peers.items self.new.peers.items) }
        ensures err { OnErr result (self.new.peers.items ≡ trimmed self.old.peers.items) }
        ensures skipped { self.new.skipped ≡ self.old.skipped }
    {
        match (place_of(self.peers.as_slice(), target), outcome) {
            (None, Outcome::Answered | Outcome::Unknown) => Ok(()),
            (None, Outcome::Missed) => {
                let mut breaker = Breaker::new();
                breaker.learn(pass, outcome, now);
                self.note(target, breaker)
            }
            (Some(place), Outcome::Answered) => {
                self.peers.remove(place);
                Ok(())
            }
            (Some(place), Outcome::Missed | Outcome::Unknown) => {
                self.peers[place].breaker.learn(pass, outcome, now);
                Ok(())
            }
        }
    }

    // Notes the breaker of one more peer, that of that target.
    fn note(&mut self, target: &Target, breaker: Breaker) -> Result<(), AllocError>
        ensures ok { OnOk result (self.new.peers.items ≡ noted target.now breaker self.old.peers.items) }
        ensures err { OnErr result (self.new.peers.items ≡ trimmed self.old.peers.items) }
        ensures skipped { self.new.skipped ≡ self.old.skipped }
    {
        if self.peers.len() >= MAX_KNOWN {
            self.peers.remove(0);
        }
        let target = target.copy();
        self.peers.push(Missing { target, breaker })?;
        Ok(())
    }
}
