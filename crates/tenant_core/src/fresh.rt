//! What a book keeps of a period in which nothing has happened.

ghost use Rattle.std.specs.Prelude.{◌≡◌, ◌≤◌, IfOk, map};
ghost use Rattle.tenant_core.specs.Fresh.{IsFresh, IsNext};
ghost use Rattle.tenant_core.specs.Limits.{max_journal};
ghost use Rattle.tenant_core.specs.Standing.{state_shown, IsShown};
ghost use Rattle.tenant_core.specs.State.{clock_of};

use crate::arena::Journal;
use crate::hold_table::HoldTable;
use crate::judge::Standing;
use crate::network::Network;
use crate::periods::{next_network, rows_of};
use crate::row::Row;
use crate::running::{opened_buckets, opened_purses};
use money_core::Purse;
use rate_bucket::Bucket;
use std::alloc::{AllocError, Global};

/// What a book keeps beside a period's opening, with all the room that the period needs.
#[derive(Drop)]
pub struct Fresh {
    pub network: Network,
    pub journal: Journal,
    pub holds: HoldTable,
    pub purses: Vec<Purse>,
    pub buckets: Vec<Bucket>,
}

/// That of a period which begins with this network, and whose journal has so many places. Fails only if it is out of
/// memory.
pub fn begin_period(alloc: Global, network: &Network, places: u64) -> Result<Fresh, AllocError>
    requires { places ≤ max_journal }
    ensures { IfOk result (IsFresh network.now places) }
{
    let journal = Journal::new(alloc, places as usize + 1)?;
    let holds = HoldTable::new(alloc, places as usize)?;
    let purses = opened_purses(alloc, network.peers())?;
    let buckets = opened_buckets(alloc, network.peers())?;
    let network = network.copy(alloc)?;
    Ok(Fresh {
        network,
        journal,
        holds,
        purses,
        buckets,
    })
}

/// What a roll makes before it gives up the old period: the next one's network and all beside its opening, and what each peer
/// owes.
#[derive(Drop)]
pub struct Next {
    pub network: Network,
    pub rows: Vec<Row>,
    pub fresh: Fresh,
}

/// The next period, which begins at that clock. Fails only if it is out of memory.
pub fn next_period(alloc: Global, standing: &Standing<'_>, clock: u64) -> Result<Next, AllocError>
    requires shown { IsShown standing.now }
    requires later { clock_of (state_shown standing.now) ≤ clock }
    ensures { IfOk result (IsNext standing.now clock) }
{
    let rows = rows_of(alloc, standing)?;
    let network = next_network(alloc, standing, clock)?;
    let fresh = begin_period(alloc, &network, standing.opening.journal)?;
    Ok(Next {
        network,
        rows,
        fresh,
    })
}
