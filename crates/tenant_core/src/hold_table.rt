//! The holds of a period, and a table of those that await their answers.

ghost use Rattle.std.specs.Prelude.{◌≡◌, ◌≤◌, length, IfOk, vec_capacity};

use crate::hold::{Fate, Hold, copied_holds};
use crate::limits::MAX_HOLDS;
use std::alloc::{AllocError, Global};
use std::marker::Model;

/// The holds of a period in the order of their numbers, and the places of those that await their answers. It
/// allocates all its room when it is made: the calls that change it allocate nothing.
#[derive(Drop)]
pub struct HoldTable {
    holds: Vec<Hold>,
    // How many holds there is room for.
    room: usize,
    // The places of those that await their answers, in no particular order.
    awaiting: Vec<u16>,
    // For each hold that awaits its answer, the index of its place in `awaiting`.
    slots: Vec<u16>,
}

impl Model for HoldTable {
    ghost use Rattle.tenant_core.specs.HoldTables.{Table};
    ghost use Rattle.std.specs.Coded.{codes};

    ghost Value = { Table };

    ghost coded = { Prim.hlevel codes };

    ghost use Rattle.tenant_core.specs.KeptHolds.{table_of, IsHoldTable};

    ghost view = { table_of };

    ghost invariant = { IsHoldTable };
}

// A copy of the places, with room for so many.
fn copied_places(alloc: Global, places: &[u16], room: usize) -> Result<Vec<u16>, AllocError>
    ensures items { IfOk result (λ copy. copy.items ≡ places.now) }
    ensures room { IfOk result (λ copy. room ≤ vec_capacity copy) }
{
    let mut copy = Vec::with_capacity(alloc, room)?;
    copy.extend_from_slice(places)?;
    Ok(copy)
}

impl HoldTable {
    ghost use Rattle.std.specs.Prelude.{◌≡◌, ◌<◌, ◌≤◌, [], ◌∷◌, ◌++◌, true, length, count_by, Some};
    ghost use Rattle.std.specs.Prelude.{IfOk, option_copied, slice_set};
    ghost use Rattle.std.specs.List.{slice_get};
    ghost use Rattle.tenant_core.specs.HoldTables.{HoldAt, IsComplete};
    ghost use Rattle.tenant_core.specs.Holds.{is_open, holds_amounts, with_fate};
    ghost use Rattle.tenant_core.specs.Limits.{max_holds, max_journal};
    ghost use Rattle.tenant_core.specs.declared.hold.Fate.TheVariants.{Marked, Ended};

    /// No hold, and room for so many. Fails only if it is out of memory.
    pub fn new(alloc: Global, room: usize) -> Result<HoldTable, AllocError>
        requires { room ≤ max_journal }
        ensures { IfOk result (λ table. table ≡ record { holds = []; room = room; awaiting = [] }) }
    {
        let holds = Vec::with_capacity(alloc, room)?;
        let awaiting = Vec::with_capacity(alloc, MAX_HOLDS as usize)?;
        let slots = Vec::with_capacity(alloc, room)?;
        Ok(HoldTable {
            holds,
            room,
            awaiting,
            slots,
        })
    }

    /// A copy of the holds, with as much room. Fails only if it is out of memory.
    pub fn copy(&self, alloc: Global) -> Result<HoldTable, AllocError>
        ensures { IfOk result (λ table. table ≡ self.now) }
    {
        let holds = copied_holds(alloc, self.holds.as_slice(), self.room)?;
        let awaiting = copied_places(alloc, self.awaiting.as_slice(), MAX_HOLDS as usize)?;
        let slots = copied_places(alloc, self.slots.as_slice(), self.room)?;
        Ok(HoldTable {
            holds,
            room: self.room,
            awaiting,
            slots,
        })
    }

    /// The holds, in the order of their numbers.
    pub fn as_slice(&self) -> &[Hold]
        ensures value { result.now ≡ self.now.holds }
        ensures few { length result.now ≤ self.now.room }
        ensures small { self.now.room ≤ max_journal }
    {
        self.holds.as_slice()
    }

    /// How many holds there are.
    pub fn len(&self) -> usize
        ensures { result ≡ length self.now.holds }
    {
        self.holds.len()
    }

    /// How many holds await their answers.
    pub fn awaited(&self) -> usize
        ensures count { result ≡ count_by is_open self.now.holds }
        ensures table { result ≡ length self.now.awaiting }
        ensures few { result ≤ max_holds }
    {
        self.awaiting.len()
    }

    /// The hold at that place.
    pub fn get(&self, place: usize) -> Option<&Hold>
        ensures { option_copied result ≡ slice_get self.now.holds place }
    {
        self.holds.get(place)
    }

    /// The place of the k-th hold that awaits its answer. They have no particular order.
    pub fn awaiting_at(&self, k: usize) -> usize
        requires { k < length self.now.awaiting }
        ensures value { slice_get self.now.awaiting k ≡ Some result }
        ensures inside { result < length self.now.holds }
    {
        self.awaiting[k] as usize
    }

    /// Each hold that awaits its answer is in the table.
    pub fn is_complete(&self)
        ensures { IsComplete self.now }
    {
        let _ = &self.holds;
    }

    /// Adds a hold, which awaits its answer.
    pub fn begin(&mut self, hold: Hold)
        requires room { length self.old.holds < self.old.room }
        requires few { count_by is_open self.old.holds < max_holds }
        requires held { is_open hold ≡ true }
        ensures holds { self.new.holds ≡ self.old.holds ++ hold ∷ [] }
        ensures room { self.new.room ≡ self.old.room }
    {
        let place = self.holds.len() as u16;
        self.slots.push_reserved(self.awaiting.len() as u16);
        self.awaiting.push_reserved(place);
        self.holds.push_reserved(hold);
    }

    /// Ends the hold at that place, which awaits its answer.
    pub fn end(&mut self, place: usize, fulfilled: bool)
        requires inside { place < length self.old.holds }
        requires held { HoldAt self.old.holds place (λ h. is_open h ≡ true) }
        ensures holds { HoldAt self.old.holds place
            (λ h. self.new.holds ≡ slice_set self.old.holds place (with_fate h (Ended fulfilled))) }
        ensures room { self.new.room ≡ self.old.room }
    {
        let slot = self.slots[place] as usize;
        self.awaiting.swap_remove(slot);
        if let Some(moved) = self.awaiting.get(slot) {
            self.slots[*moved as usize] = slot as u16;
        }
        self.holds[place].fate = Fate::Ended { fulfilled };
    }

    /// Marks the hold at that place overdue, whose amounts are held.
    pub fn mark(&mut self, place: usize)
        requires inside { place < length self.old.holds }
        requires held { HoldAt self.old.holds place (λ h. holds_amounts h.fate ≡ true) }
        ensures holds { HoldAt self.old.holds place
            (λ h. self.new.holds ≡ slice_set self.old.holds place (with_fate h Marked)) }
        ensures room { self.new.room ≡ self.old.room }
        ensures table { self.new.awaiting ≡ self.old.awaiting }
    {
        self.holds[place].fate = Fate::Marked;
    }
}
