//! Books that begin with any opening.

ghost use Rattle.std.specs.Prelude.{◌≡◌, None, IfOk};
ghost use Rattle.std.specs.List.{list_all};
ghost use Rattle.common_types.specs.Outcomes.{GivesUnlessMemory};
ghost use Rattle.tenant_core.specs.Reopening.{is_fresh, opening_fault, reopened};
ghost use Rattle.tenant_core.specs.State.{opened};

use super::Book;
use crate::faults::OpeningFault;
use crate::fresh::begin_period;
use crate::limits::{MAX_HOLD, MAX_JOURNAL, MAX_MARGIN, MAX_PERIOD, MAX_TENANTS};
use crate::opening::Opening;
use crate::peer::Peer;
use common_types::ReadError;
use ilp_addr::Moment;
use rate_bucket::full_bucket;
use std::alloc::{AllocError, Global};

fn is_fresh(peer: &Peer, clock: u64) -> bool
    ensures { result ≡ is_fresh clock peer.now }
{
    let level = &peer.bucket;
    level.clock == clock
        && level.entries == 0
        && level.credit <= full_bucket(peer.terms.bucket.burst.get() as u32)
}

fn are_fresh(peers: &[Peer], clock: u64) -> bool
    ensures { result ≡ list_all (is_fresh clock) peers.now }
{
    peers.iter().all(|peer| is_fresh(peer, clock))
}

impl Opening {
    /// The first limit that the opening breaks: no period begins with it.
    pub fn fault(&self) -> Option<OpeningFault>
        ensures { result ≡ opening_fault self.now }
    {
        if self.tenant >= MAX_TENANTS {
            Some(OpeningFault::Tenant)
        } else if !(2 <= self.journal && self.journal <= MAX_JOURNAL) {
            Some(OpeningFault::Journal)
        } else if self.margin > MAX_MARGIN {
            Some(OpeningFault::Margin)
        } else if !(1 <= self.hold && self.hold <= MAX_HOLD) {
            Some(OpeningFault::Hold)
        } else if self.period > MAX_PERIOD {
            Some(OpeningFault::Period)
        } else if self.clock > Moment::MAX_MILLIS {
            Some(OpeningFault::Clock)
        } else if self.next_hold > MAX_JOURNAL * self.period {
            Some(OpeningFault::Number)
        } else if !are_fresh(self.network.peers(), self.clock) {
            Some(OpeningFault::Bucket)
        } else {
            None
        }
    }
}

impl Book {
    /// The book of a period that begins with this opening, in which nothing has happened. It allocates all the room
    /// that the period needs. The fault is the first limit that the opening breaks.
    pub fn reopened(alloc: Global, opening: Opening) -> Result<Book, ReadError<OpeningFault>>
        ensures { GivesUnlessMemory (λ b. b) result (reopened opening) }
    {
        if let Some(fault) = opening.fault() {
            return Err(ReadError::Fault(fault));
        }
        Ok(Book::begun(alloc, opening)?)
    }

    /// The book of a period that begins with an opening that breaks no limit. Fails only if it is out of memory.
    pub(crate) fn begun(alloc: Global, opening: Opening) -> Result<Book, AllocError>
        requires { opening_fault opening ≡ None }
        ensures { IfOk result (λ book. book ≡ opened opening) }
    {
        opening.network.is_network();
        rate_bucket::laws::running();
        let fresh = begin_period(alloc, &opening.network, opening.journal)?;
        let clock = opening.clock;
        Ok(Book {
            opening,
            network: fresh.network,
            journal: fresh.journal,
            clock,
            holds: fresh.holds,
            purses: fresh.purses,
            buckets: fresh.buckets,
        })
    }
}
