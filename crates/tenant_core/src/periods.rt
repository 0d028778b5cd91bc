//! What a period leaves to the next one, and what each peer owes.

ghost use Rattle.std.specs.Prelude.{◌≡◌, ◌≤◌, ◌<◌, ◌+◌, ◌^◌, map, length, slice_get, option_map, Some, IfOk};
ghost use Rattle.tenant_core.specs.Limits.{max_period};
ghost use Rattle.tenant_core.specs.Following.{row_with};
ghost use Rattle.tenant_core.specs.Periods.{carried, carried_net};
ghost use Rattle.tenant_core.specs.Purse.{row_of};
ghost use Rattle.tenant_core.specs.Standing.{state_shown, IsShown};
ghost use Rattle.tenant_core.specs.State.{clock_of};

use crate::judge::Standing;
use crate::network::Network;
use crate::opening::Opening;
use crate::peer::{Level, Peer};
use crate::row::Row;
use crate::terms::Balance;
use money_core::Purse;
use std::alloc::{AllocError, Global};

/// What a peer owes, and what is held from it and for it.
pub fn row_of(peer: &Peer, purse: &Purse) -> Row
    ensures { result ≡ row_with peer.now purse.now }
{
    Row {
        name: peer.terms.name.copy(),
        balance: purse.balance(),
        held_in: purse.held_in(),
        held_out: purse.held_out(),
    }
}

fn balance_of(purse: &Purse) -> Balance
    ensures { result ≡ purse.now.balance }
{
    Balance::new(purse.balance()).unwrap()
}

// The row of the peer at that place.
fn row_at(standing: &Standing<'_>, place: usize) -> Row
    requires shown { IsShown standing.now }
    requires inside { place < length standing.now.network.now.peers }
    ensures { option_map (row_of (state_shown standing.now)) (slice_get standing.now.network.now.peers place)
        ≡ Some result }
{
    let party = standing.party(place);
    row_of(party.peer, party.purse)
}

/// What each peer owes. Fails only if it is out of memory.
pub fn rows_of(alloc: Global, standing: &Standing<'_>) -> Result<Vec<Row>, AllocError>
    requires { IsShown standing.now }
    ensures { IfOk result (λ rows. rows.items
        ≡ map (row_of (state_shown standing.now)) standing.now.network.now.peers) }
{
    let count = standing.network.peers().len();
    let mut rows = Vec::with_capacity(alloc, count)?;
    for place in 0..count {
        rows.push_reserved(row_at(standing, place));
    }
    Ok(rows)
}

// The peer at that place, as the next period finds it: with the balance of its purse, and the credit of its bucket at
// that clock. Fails only if it is out of memory.
fn carried_at(standing: &Standing<'_>, clock: u64, place: usize) -> Result<Peer, AllocError>
    requires shown { IsShown standing.now }
    requires later { clock_of (state_shown standing.now) ≤ clock }
    requires inside { place < length standing.now.network.now.peers }
    ensures { IfOk result (λ peer.
        option_map (carried (state_shown standing.now) clock) (slice_get standing.now.network.now.peers place)
        ≡ Some peer) }
{
    let party = standing.party(place);
    Ok(Peer {
        number: party.peer.number,
        terms: party.peer.terms.share()?,
        balance: balance_of(party.purse),
        bucket: Level {
            credit: party.bucket.credit(clock),
            clock,
            entries: 0,
        },
    })
}

/// Peers as the next period finds them, which begins at that clock. Fails only if it is out of memory.
pub fn carried_peers(
    alloc: Global,
    standing: &Standing<'_>,
    clock: u64,
) -> Result<Vec<Peer>, AllocError>
    requires shown { IsShown standing.now }
    requires later { clock_of (state_shown standing.now) ≤ clock }
    ensures { IfOk result (λ list. list.items
        ≡ map (carried (state_shown standing.now) clock) standing.now.network.now.peers) }
{
    let count = standing.network.peers().len();
    let mut list = Vec::with_capacity(alloc, count)?;
    for place in 0..count {
        list.push_reserved(carried_at(standing, clock, place)?);
    }
    Ok(list)
}

/// The network as the next period finds it, which begins at that clock.
pub fn next_network(
    alloc: Global,
    standing: &Standing<'_>,
    clock: u64,
) -> Result<Network, AllocError>
    requires shown { IsShown standing.now }
    requires later { clock_of (state_shown standing.now) ≤ clock }
    ensures { IfOk result (λ network. network ≡ carried_net (state_shown standing.now) clock standing.now.network.now) }
{
    let peers = carried_peers(alloc, standing, clock)?;
    standing.network.with_peers(alloc, peers)
}

/// What the next period begins with, after so many holds and with that network.
pub fn next_opening(opening: &Opening, clock: u64, holds: u64, network: Network) -> Opening
    requires period { opening.now.period < max_period }
    requires holds { opening.now.next_hold + holds < 2 ^ 64 }
    ensures { result ≡ record opening.now {
      period = opening.now.period + 1;
      clock = clock;
      next_hold = opening.now.next_hold + holds;
      network = network;
    } }
{
    Opening {
        tenant: opening.tenant,
        name: opening.name.copy(),
        address: opening.address.copy(),
        journal: opening.journal,
        margin: opening.margin,
        hold: opening.hold,
        period: opening.period + 1,
        clock,
        next_hold: opening.next_hold + holds,
        network,
    }
}
