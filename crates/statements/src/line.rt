//! The sums of each peer that was there.

ghost use Rattle.std.specs.Prelude.{◌≡◌, ◌≤◌, ◌+◌, ◌^◌, ◌++◌, ◌∷◌, [], IfOk, OnOk, map, option_copied};
ghost use Rattle.statements.specs.Line.{AreLinesOver, AreOver, IsLineOver, balance_in, line_anew, line_of, line_with, told_both};
ghost use Rattle.statements.specs.Sums.{OnLong};
ghost use Rattle.statements.specs.Summary.{chain_lines, told_by};

use crate::chain::Chain;
use crate::known::anew;
use crate::seen::{PeerSeen, copy_of};
use crate::tally::{LONG, Summed};
use std::alloc::{AllocError, Global};
use tenant_core::{Opening, Peer, PeerNo};

/// The sums of a peer, in its units: what it owes at the end, what came in from it and went out to it, and the fees.
#[derive(Clone, Copy, Debug, PartialEq, Eq)]
pub struct PeerSums {
    pub ended: i64,
    pub came: u128,
    pub fulfilled_in: u128,
    pub settled_in: u128,
    pub went: u128,
    pub fulfilled_out: u128,
    pub settled_out: u128,
    pub fees: u128,
}

/// A peer that was there, its number since the service began last, unless it was taken away before, and its sums.
#[derive(Drop)]
pub struct Line {
    pub seen: PeerSeen,
    pub here: Option<PeerNo>,
    pub told: PeerSums,
}

// What the peer of that number owes at that ending.
fn balance_in(ending: Option<&Opening>, peer: PeerNo) -> i64
    ensures { result ≡ balance_in (option_copied ending.entry) peer }
{
    let Some(ending) = ending else {
        return 0;
    };
    match ending.network.place_numbered(peer) {
        Some(place) => ending.network.peers()[place].balance.get(),
        None => 0,
    }
}

// The sums of a chain for a peer since the service began last.
fn told_by(chain: &Chain, peer: PeerNo) -> PeerSums
    ensures { result ≡ told_by chain.now peer }
{
    let totals = chain.totals();
    PeerSums {
        ended: balance_in(chain.opening_due(), peer),
        came: totals.came.get(peer),
        fulfilled_in: totals.fulfilled_in.get(peer),
        settled_in: totals.settled_in.get(peer),
        went: totals.went.get(peer),
        fulfilled_out: totals.fulfilled_out.get(peer),
        settled_out: totals.settled_out.get(peer),
        fees: totals.fees.get(peer),
    }
}

fn plus(sum: u128, more: u128) -> Summed<u128>
    ensures sum { IfOk result (λ both. both ≡ sum + more) }
    ensures long { OnLong result (2 ^ 128 ≤ sum + more) }
{
    sum.checked_add(more).ok_or(LONG)
}

fn told_both(before: &PeerSums, after: &PeerSums) -> Summed<PeerSums>
    ensures told { IfOk result (λ told. told ≡ told_both before.now after.now) }
    ensures long { OnLong result (AreOver before.now after.now) }
{
    Ok(PeerSums {
        ended: after.ended,
        came: plus(before.came, after.came)?,
        fulfilled_in: plus(before.fulfilled_in, after.fulfilled_in)?,
        settled_in: plus(before.settled_in, after.settled_in)?,
        went: plus(before.went, after.went)?,
        fulfilled_out: plus(before.fulfilled_out, after.fulfilled_out)?,
        settled_out: plus(before.settled_out, after.settled_out)?,
        fees: plus(before.fees, after.fees)?,
    })
}

fn told_with(chain: &Chain, line: &Line) -> Summed<PeerSums>
    ensures told { IfOk result (λ told. told ≡ (line_with (told_by chain.now) line.now).told) }
    ensures long { OnLong result (IsLineOver (told_by chain.now) line.now) }
{
    match line.here {
        Some(peer) => told_both(&line.told, &told_by(chain, peer)),
        None => Ok(line.told),
    }
}

fn put_line_with(out: &mut Vec<Line>, chain: &Chain, line: &Line) -> Summed<()>
    ensures put { OnOk result (out.new.items ≡ out.old.items ++ line_with (told_by chain.now) line.now ∷ []) }
    ensures long { OnLong result (IsLineOver (told_by chain.now) line.now) }
{
    let told = told_with(chain, line)?;
    Ok(out.push(Line {
        seen: copy_of(&line.seen),
        here: line.here,
        told,
    })?)
}

fn put_lines_with(out: &mut Vec<Line>, chain: &Chain, lines: &[Line]) -> Summed<()>
    ensures put { OnOk result (out.new.items ≡ out.old.items ++ map (line_with (told_by chain.now)) lines.now) }
    ensures long { OnLong result (AreLinesOver (told_by chain.now) lines.now) }
{
    for line in lines {
        put_line_with(out, chain, line)?;
    }
    Ok(())
}

fn put_line_of(out: &mut Vec<Line>, chain: &Chain, seen: &PeerSeen) -> Result<(), AllocError>
    ensures { OnOk result (out.new.items ≡ out.old.items ++ line_of (told_by chain.now) seen.now ∷ []) }
{
    Ok(out.push(Line {
        seen: copy_of(seen),
        here: Some(seen.number),
        told: told_by(chain, seen.number),
    })?)
}

fn put_lines_of(out: &mut Vec<Line>, chain: &Chain, peers: &[PeerSeen]) -> Result<(), AllocError>
    ensures { OnOk result (out.new.items ≡ out.old.items ++ map (line_of (told_by chain.now)) peers.now) }
{
    for seen in peers {
        put_line_of(out, chain, seen)?;
    }
    Ok(())
}

/// The lines of a chain: the sums of each peer that was there. `Long` if a sum has no room.
pub fn lines_of(alloc: Global, chain: &Chain) -> Summed<Vec<Line>>
    ensures lines { IfOk result (λ lines. lines.items ≡ chain_lines chain.now) }
    ensures long { OnLong result (AreLinesOver (told_by chain.now) chain.now.past.lines.items) }
{
    let past = chain.past_lines();
    let totals = chain.totals();
    let mut lines = Vec::new(alloc);
    put_lines_with(&mut lines, chain, past)?;
    if past.is_empty() {
        put_lines_of(&mut lines, chain, totals.first.as_slice())?;
    }
    put_lines_of(&mut lines, chain, totals.added.as_slice())?;
    Ok(lines)
}

fn put_line_anew(
    out: &mut Vec<Line>,
    peers: &[Peer],
    others: &[Peer],
    line: &Line,
) -> Result<(), AllocError>
    ensures { OnOk result (out.new.items ≡ out.old.items ++ line_anew peers.now others.now line.now ∷ []) }
{
    let here = match line.here {
        Some(number) => anew(peers, others, number),
        None => None,
    };
    Ok(out.push(Line {
        seen: copy_of(&line.seen),
        here,
        told: line.told,
    })?)
}

/// The lines when the service begins again, and these peers have the numbers of the others from then on. Fails only if
/// it is out of memory.
pub fn lines_anew(
    alloc: Global,
    peers: &[Peer],
    others: &[Peer],
    lines: &[Line],
) -> Result<Vec<Line>, AllocError>
    ensures { IfOk result (λ anew. anew.items ≡ map (line_anew peers.now others.now) lines.now) }
{
    let mut out = Vec::new(alloc);
    for line in lines {
        put_line_anew(&mut out, peers, others, line)?;
    }
    Ok(out)
}
