//! Purses of peers: what is held as packets go on, and taken or released as they end.

ghost use Rattle.std.specs.Prelude.{◌≡◌, ◌≤◌, ◌<◌, ◌++◌, ◌∷◌, [], ℕ, true, false, map, length, slice_get, slice_set, Some};
ghost use Rattle.std.specs.Option.{ForSome};
ghost use Rattle.money_core.specs.Account.{Account, is_past_ceiling, is_past_credit};
ghost use Rattle.tenant_core.specs.ChangedAt.{changed_where};
ghost use Rattle.tenant_core.specs.Ground.{state_on};
ghost use Rattle.tenant_core.specs.Holds.{holds_amounts, took_amounts, with_fate};
ghost use Rattle.tenant_core.specs.Moves.{holding_in, holding_out, moving_in, moving_out};
ghost use Rattle.tenant_core.specs.Network.{IsNetwork, peer_numbered};
ghost use Rattle.tenant_core.specs.Running.{purse_by};
ghost use Rattle.tenant_core.specs.declared.hold.Fate.{Fate};
ghost use Rattle.tenant_core.specs.declared.hold.Hold.{Hold};
ghost use Rattle.tenant_core.specs.declared.peer.Peer.{Peer};

use crate::ground::Ground;
use crate::hold::Hold;
use money_core::Purse;

fn hold_in(purses: &mut Vec<Purse>, place: Option<usize>, amount: u64)
    requires inside { ForSome place (λ i. i < length purses.old.items) }
    requires within { (i : ℕ) (a : Account) → place ≡ Some i → slice_get purses.old.items i ≡ Some a
        → is_past_ceiling a amount ≡ false }
    ensures { purses.new.items ≡ changed_where (holding_in amount) purses.old.items place }
{
    if let Some(place) = place {
        let _ = purses[place].hold_in(amount);
    }
}

fn hold_out(purses: &mut Vec<Purse>, place: Option<usize>, amount: u64)
    requires inside { ForSome place (λ i. i < length purses.old.items) }
    requires within { (i : ℕ) (a : Account) → place ≡ Some i → slice_get purses.old.items i ≡ Some a
        → is_past_credit a amount ≡ false }
    ensures { purses.new.items ≡ changed_where (holding_out amount) purses.old.items place }
{
    if let Some(place) = place {
        let _ = purses[place].hold_out(amount);
    }
}

// Of the amounts that a hold holds, what is held from its sender is taken or released.
fn move_in(purses: &mut Vec<Purse>, place: Option<usize>, amount: u64, taken: bool)
    requires inside { ForSome place (λ i. i < length purses.old.items) }
    requires held { (i : ℕ) (a : Account) → place ≡ Some i → slice_get purses.old.items i ≡ Some a
        → amount ≤ a.held_in }
    ensures { purses.new.items ≡ changed_where (moving_in taken amount) purses.old.items place }
{
    if let Some(place) = place {
        let purse = &mut purses[place];
        if taken {
            purse.take_in(amount);
        } else {
            purse.release_in(amount);
        }
    }
}

// What is held for its receiver is taken or released.
fn move_out(purses: &mut Vec<Purse>, place: Option<usize>, amount: u64, taken: bool)
    requires inside { ForSome place (λ i. i < length purses.old.items) }
    requires held { (i : ℕ) (a : Account) → place ≡ Some i → slice_get purses.old.items i ≡ Some a
        → amount ≤ a.held_out }
    ensures { purses.new.items ≡ changed_where (moving_out taken amount) purses.old.items place }
{
    if let Some(place) = place {
        let purse = &mut purses[place];
        if taken {
            purse.take_out(amount);
        } else {
            purse.release_out(amount);
        }
    }
}

/// Holds the amounts of a packet that goes on, beside those of the holds so far: neither purse passes its limit.
pub fn hold_amounts(ground: &Ground<'_>, purses: &mut Vec<Purse>, holds: &[Hold], hold: &Hold)
    requires network { IsNetwork ground.now.network.now }
    requires purses { purses.old.items ≡ map (purse_by (state_on ground.now) holds.now) ground.now.network.now.peers }
    requires held { holds_amounts hold.now.fate ≡ true }
    requires sender { (p : Peer) → peer_numbered hold.now.from ground.now.network.now.peers ≡ Some p
        → is_past_ceiling (purse_by (state_on ground.now) holds.now p) hold.now.amount ≡ false }
    requires receiver { (p : Peer) → peer_numbered hold.now.to ground.now.network.now.peers ≡ Some p
        → is_past_credit (purse_by (state_on ground.now) holds.now p) hold.now.price ≡ false }
    ensures { purses.new.items
        ≡ map (purse_by (state_on ground.now) (holds.now ++ hold.now ∷ [])) ground.now.network.now.peers }
{
    hold_in(
        purses,
        ground.network.place_numbered(hold.from),
        hold.amount,
    );
    hold_out(purses, ground.network.place_numbered(hold.to), hold.price);
}

// Takes or releases the amounts of that hold, which is at that place.
fn move_hold(
    ground: &Ground<'_>,
    purses: &mut Vec<Purse>,
    holds: &[Hold],
    place: usize,
    hold: &Hold,
    taken: bool,
)
    requires network { IsNetwork ground.now.network.now }
    requires purses { purses.old.items ≡ map (purse_by (state_on ground.now) holds.now) ground.now.network.now.peers }
    requires hold { slice_get holds.now place ≡ Some hold.now }
    requires held { holds_amounts hold.now.fate ≡ true }
    ensures { (fate : Fate) → holds_amounts fate ≡ false → took_amounts fate ≡ taken → purses.new.items
        ≡ map (purse_by (state_on ground.now) (slice_set holds.now place (with_fate hold.now fate)))
        ground.now.network.now.peers }
{
    move_in(
        purses,
        ground.network.place_numbered(hold.from),
        hold.amount,
        taken,
    );
    move_out(
        purses,
        ground.network.place_numbered(hold.to),
        hold.price,
        taken,
    );
}

/// Takes or releases the amounts of the hold at that place, which are held, as it gets a fate that holds them no more.
pub fn move_amounts(
    ground: &Ground<'_>,
    purses: &mut Vec<Purse>,
    holds: &[Hold],
    place: usize,
    taken: bool,
)
    requires network { IsNetwork ground.now.network.now }
    requires purses { purses.old.items ≡ map (purse_by (state_on ground.now) holds.now) ground.now.network.now.peers }
    requires inside { place < length holds.now }
    requires held { (h : Hold) → slice_get holds.now place ≡ Some h → holds_amounts h.fate ≡ true }
    ensures { (h : Hold) (fate : Fate) → slice_get holds.now place ≡ Some h → holds_amounts fate ≡ false
        → took_amounts fate ≡ taken → purses.new.items
        ≡ map (purse_by (state_on ground.now) (slice_set holds.now place (with_fate h fate))) ground.now.network.now.peers }
{
    move_hold(ground, purses, holds, place, &holds[place], taken);
}
