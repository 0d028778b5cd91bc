//! Which check decides on a Prepare.

ghost use Rattle.std.specs.Prelude.{◌≡◌, option_map};
ghost use Rattle.std.specs.Option.{option_copied};
ghost use Rattle.tenant_core.specs.Findings.{finding_of, verdict_of};
ghost use Rattle.tenant_core.specs.Judge.{judge};
ghost use Rattle.tenant_core.specs.Key.{key_of};
ghost use Rattle.tenant_core.specs.Network.{peer_named};
ghost use Rattle.tenant_core.specs.Present.{network_of};

use super::Book;
use crate::finding::Finding;
use crate::journal::PrepareKey;
use crate::orders::peer_named;
use ilp_addr::Moment;

impl Book {
    /// Which check would decide on a Prepare that came with this token at this moment, and what it would compare: the verdict of
    /// the finding is the one that `Book::decide` would give. Nothing is recorded.
    pub fn explain(&self, token: &[u8], key: &PrepareKey<'_>, now: Moment) -> Finding
        ensures finding { result ≡ finding_of self.now token.now (key_of key.now) now }
        ensures verdict { verdict_of result ≡ judge self.now token.now (key_of key.now) now }
    {
        self.is_sound();
        let standing = self.standing();
        let Some(from) = standing.sender(token) else {
            return Finding::NoPeer;
        };
        if standing.is_full() {
            return Finding::JournalFull {
                entries: self.journal.len() as u64,
                awaited: self.holds.awaited() as u64,
                places: self.opening.journal,
            };
        }
        let clock = self.clock.max(now.millis());
        standing.finding_for_sender(&from, key, clock)
    }

    /// What the peer of this name shows with the packets that it sends.
    pub fn token_of(&self, peer: &[u8]) -> Option<&[u8]>
        ensures { option_copied result
            ≡ option_map (λ p. p.terms.token) (peer_named peer.now (network_of self.now).peers) }
    {
        let peer = peer_named(self.network.peers(), peer)?;
        Some(peer.terms.token.as_bytes())
    }
}
