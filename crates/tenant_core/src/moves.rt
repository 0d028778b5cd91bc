//! The holds and purses as packets go on, come back and expire.

ghost use Rattle.std.specs.Prelude.{◌≡◌, ◌≤◌, ◌<◌, ◌&&◌, ℕ, map, length, find, count_by, option_map, option_and_then};
ghost use Rattle.std.specs.Prelude.{IfSome, IfNone, true, false, slice_get, Some};
ghost use Rattle.money_core.specs.Account.{is_past_ceiling, is_past_credit};
ghost use Rattle.tenant_core.specs.Answer.{settle_answer};
ghost use Rattle.tenant_core.specs.Ground.{state_on};
ghost use Rattle.tenant_core.specs.Holds.{is_open, is_open_under, is_overdue, hold_ticked, hold_ended};
ghost use Rattle.tenant_core.specs.Holds.{is_fulfill, is_relay, AreNumbered};
ghost use Rattle.tenant_core.specs.Limits.{max_holds};
ghost use Rattle.tenant_core.specs.Network.{IsNetwork};
ghost use Rattle.tenant_core.specs.Running.{purse_by, CanHold, OneTicked};
ghost use Rattle.tenant_core.specs.State.{extended};

use crate::ground::Ground;
use crate::hold::{Hold, holds_amounts, is_open, is_overdue};
use crate::hold_table::HoldTable;
use crate::journal::AnswerKey;
use crate::purse::{hold_amounts, move_amounts};
use crate::settle::settle_answer;
use crate::verdict::Verdict;
use money_core::Purse;

/// Begins the hold of a Prepare, if it goes on, and holds its amounts.
pub fn begin_hold(
    ground: &Ground<'_>,
    purses: &mut Vec<Purse>,
    holds: &mut HoldTable,
    begun: Option<Hold>,
)
    requires network { IsNetwork ground.now.network.now }
    requires purses { purses.old.items
        ≡ map (purse_by (state_on ground.now) holds.old.holds) ground.now.network.now.peers }
    requires room { length holds.old.holds < holds.old.room }
    requires can { CanHold (state_on ground.now) holds.old.holds ground.now.network.now.peers begun }
    ensures holds { holds.new.holds ≡ extended holds.old.holds begun }
    ensures room { holds.new.room ≡ holds.old.room }
    ensures purses { purses.new.items
        ≡ map (purse_by (state_on ground.now) holds.new.holds) ground.now.network.now.peers }
{
    if let Some(hold) = begun {
        hold_amounts(ground, purses, holds.as_slice(), &hold);
        holds.begin(hold);
    }
}

// Marks the hold at that place, which awaits its answer, if it is overdue at that clock, and releases its amounts. Says how
// many were marked.
fn mark_if_overdue(
    ground: &Ground<'_>,
    purses: &mut Vec<Purse>,
    holds: &mut HoldTable,
    place: usize,
    clock: u64,
) -> u32
    requires network { IsNetwork ground.now.network.now }
    requires purses { purses.old.items
        ≡ map (purse_by (state_on ground.now) holds.old.holds) ground.now.network.now.peers }
    requires inside { place < length holds.old.holds }
    ensures holds { OneTicked result place clock holds.old holds.new }
    ensures purses { purses.new.items
        ≡ map (purse_by (state_on ground.now) holds.new.holds) ground.now.network.now.peers }
{
    if !is_overdue(&holds.as_slice()[place], clock) {
        return 0;
    }
    move_amounts(ground, purses, holds.as_slice(), place, false);
    holds.mark(place);
    1
}

/// Marks the holds that are overdue at that clock, releases their amounts, and says how many they are.
pub fn mark_overdue(
    ground: &Ground<'_>,
    purses: &mut Vec<Purse>,
    holds: &mut HoldTable,
    clock: u64,
) -> u32
    requires network { IsNetwork ground.now.network.now }
    requires purses { purses.old.items
        ≡ map (purse_by (state_on ground.now) holds.old.holds) ground.now.network.now.peers }
    ensures count { result ≡ count_by (is_overdue clock) holds.old.holds }
    ensures holds { holds.new.holds ≡ map (hold_ticked clock) holds.old.holds }
    ensures room { holds.new.room ≡ holds.old.room }
    ensures purses { purses.new.items
        ≡ map (purse_by (state_on ground.now) holds.new.holds) ground.now.network.now.peers }
{
    let mut count = 0;
    for k in 0..holds.awaited() {
        let place = holds.awaiting_at(k);
        count += mark_if_overdue(ground, purses, holds, place, clock);
    }
    holds.is_complete();
    count
}

// The place of the hold of that number, if it awaits its answer. Holds are numbered from `first` on.
fn place_of(holds: &[Hold], first: u64, number: u64) -> Option<usize>
    requires numbers { AreNumbered first holds.now }
    ensures value { option_and_then (λ place. slice_get holds.now place) result ≡ find (is_open_under number) holds.now }
    ensures inside { IfSome result (λ place. place < length holds.now) }
{
    let place = number.checked_sub(first)? as usize;
    let hold = holds.get(place)?;
    is_open(hold).then_some(place)
}

fn is_fulfilled(key: &AnswerKey, verdict: Verdict) -> bool
    ensures { result ≡ (is_fulfill key.now && is_relay verdict) }
{
    key.is_fulfill() && verdict.is_relay()
}

/// Settles the answer to the hold of that number at that clock, ends the hold, and takes or releases its amounts.
pub fn end_hold(
    ground: &Ground<'_>,
    purses: &mut Vec<Purse>,
    holds: &mut HoldTable,
    number: u64,
    clock: u64,
    key: &AnswerKey,
) -> Option<Verdict>
    requires network { IsNetwork ground.now.network.now }
    requires numbers { AreNumbered ground.now.opening.now.next_hold holds.old.holds }
    requires purses { purses.old.items
        ≡ map (purse_by (state_on ground.now) holds.old.holds) ground.now.network.now.peers }
    ensures verdict { result ≡ option_map (λ h. settle_answer h clock key.now)
        (find (is_open_under number) holds.old.holds) }
    ensures holds { IfSome result (λ v. holds.new.holds
        ≡ map (hold_ended number (is_fulfill key.now && is_relay v)) holds.old.holds) }
    ensures none { IfNone result (holds.new ≡ holds.old) }
    ensures room { holds.new.room ≡ holds.old.room }
    ensures purses { purses.new.items
        ≡ map (purse_by (state_on ground.now) holds.new.holds) ground.now.network.now.peers }
{
    let place = place_of(holds.as_slice(), ground.opening.next_hold, number)?;
    let hold = &holds.as_slice()[place];
    let verdict = settle_answer(hold, clock, key);
    let fulfilled = is_fulfilled(key, verdict);
    if holds_amounts(hold) {
        move_amounts(ground, purses, holds.as_slice(), place, fulfilled);
    }
    holds.end(place, fulfilled);
    Some(verdict)
}
