//! The sums of closed periods, for each peer.

ghost use Rattle.std.specs.Prelude.{◌≡◌, ◌≤◌, ◌+◌, ◌^◌, ◌++◌, ◌∷◌, [], IfOk, List};
ghost use Rattle.statements.specs.Gone.{IsGone};
ghost use Rattle.statements.specs.Sums.{OnLong};
ghost use Rattle.statements.specs.Totals.{AreTotals, IsTooLong};
ghost use Rattle.tenant_core.specs.declared.period.PeriodParts.{PeriodParts};

use crate::checked::Gone;
use crate::counting::{OfHold, OfRecord, with_fees, with_holds, with_records};
use crate::seen::{PeerSeen, added_with, first_with};
use crate::tally::{LONG, Summed, Tally};
use std::alloc::Global;

/// The sums of closed periods: how many there are, how many records they have, who was there, and sums for each peer.
#[derive(Drop)]
pub struct Totals {
    pub periods: u64,
    pub entries: u64,
    /// The peers that were there as the first period began.
    pub first: Vec<PeerSeen>,
    /// Those that were added since.
    pub added: Vec<PeerSeen>,
    pub came: Tally,
    pub went: Tally,
    pub fulfilled_in: Tally,
    pub fulfilled_out: Tally,
    pub settled_in: Tally,
    pub settled_out: Tally,
    pub fees: Tally,
}

// A count and so many more.
pub fn raised(count: u64, more: u64) -> Summed<u64>
    ensures sum { IfOk result (λ sum. sum ≡ count + more) }
    ensures long { OnLong result (2 ^ 64 ≤ count + more) }
{
    count.checked_add(more).ok_or(LONG)
}

impl Totals {
    /// The sums of no period.
    pub fn new(alloc: Global) -> Totals
        ensures { AreTotals [] result }
    {
        Totals {
            periods: 0,
            entries: 0,
            first: Vec::new(alloc),
            added: Vec::new(alloc),
            came: Tally::new(alloc),
            went: Tally::new(alloc),
            fulfilled_in: Tally::new(alloc),
            fulfilled_out: Tally::new(alloc),
            settled_in: Tally::new(alloc),
            settled_out: Tally::new(alloc),
            fees: Tally::new(alloc),
        }
    }

    /// The sums with those of the next period. `Long` if one of them has no room.
    pub fn with(&self, alloc: Global, gone: &Gone) -> Summed<Totals>
        requires { IsGone gone.now }
        ensures totals { IfOk result (λ totals. (ps : List PeriodParts) → AreTotals ps self.now → AreTotals (ps ++ gone.now.period ∷ []) totals) }
        ensures long { OnLong result (IsTooLong self.now gone.now.period) }
    {
        let period = &gone.period;
        let holds = gone.holds.as_slice();
        Ok(Totals {
            periods: raised(self.periods, 1)?,
            entries: raised(self.entries, period.len() as u64)?,
            first: first_with(alloc, self.first.as_slice(), self.periods == 0, period)?,
            added: added_with(alloc, self.added.as_slice(), period)?,
            came: with_records(alloc, &self.came, period, OfRecord::Came)?,
            went: with_holds(alloc, &self.went, holds, OfHold::Went)?,
            fulfilled_in: with_holds(alloc, &self.fulfilled_in, holds, OfHold::Brought)?,
            fulfilled_out: with_holds(alloc, &self.fulfilled_out, holds, OfHold::CameTo)?,
            settled_in: with_records(alloc, &self.settled_in, period, OfRecord::Paid)?,
            settled_out: with_records(alloc, &self.settled_out, period, OfRecord::WasPaid)?,
            fees: with_fees(alloc, &self.fees, gone)?,
        })
    }
}
