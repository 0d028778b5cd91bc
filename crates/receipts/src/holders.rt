//! Which list holds the receipt of each entry.

ghost use Rattle.std.specs.Prelude.{◌≡◌, map, IfOk};

use common_types::Items;
use std::alloc::{AllocError, Global};
use std::marker::Model;

/// Of each tenant, which list holds the receipt of each entry of its journal, as far as that is known. Contracts see these
/// lists of numbers.
#[derive(Drop)]
pub(crate) struct Holders {
    rows: Vec<Vec<Option<usize>>>,
}

impl Model for Holders {
    ghost use Rattle.std.specs.Prelude.{ℕ, List, Option, map};

    ghost Value = { List (List (Option ℕ)) };

    ghost view = { λ h. map (λ row. row.items) h.rows.items };
}

impl Holders {
    ghost use Rattle.std.specs.Prelude.{◌≡◌, ◌<◌, [], ◌∷◌, ◌++◌, ℕ, true, false, None, Some, IfOk, OnOk, length, replicate, slice_get, slice_set};
    ghost use Rattle.joint_order.specs.Orders.{list_at};

    /// No tenants.
    pub(crate) fn new(alloc: Global) -> Holders
        ensures { result ≡ [] }
    {
        Holders {
            rows: Vec::new(alloc),
        }
    }

    /// One more tenant, with so many entries, of which nothing is known.
    pub(crate) fn push_row(&mut self, alloc: Global, entries: usize) -> Result<(), AllocError>
        ensures { OnOk result (self.new ≡ self.old ++ replicate entries None ∷ []) }
    {
        let row = vec![in alloc; None; entries]?;
        self.rows.push(row)?;
        Ok(())
    }

    /// The list that holds the receipt of the entry at that place, if it is known; `None` if there is no such place.
    pub(crate) fn get(&self, tenant: usize, place: usize) -> Option<Option<usize>>
        ensures { result ≡ slice_get (list_at self.now tenant) place }
    {
        self.rows.get(tenant)?.get(place).copied()
    }

    /// How many entries the journal of that tenant has.
    pub(crate) fn entries(&self, tenant: usize) -> usize
        ensures { result ≡ length (list_at self.now tenant) }
    {
        match self.rows.get(tenant) {
            Some(row) => row.len(),
            None => 0,
        }
    }

    /// Whether the list is known that holds the receipt of the entry at that place.
    pub(crate) fn is_held(&self, tenant: usize, place: usize) -> bool
        requires { place < length (list_at self.now tenant) }
        ensures held { result ≡ true → (j : ℕ) × (slice_get (list_at self.now tenant) place ≡ Some (Some j)) }
        ensures free { result ≡ false → slice_get (list_at self.now tenant) place ≡ Some None }
    {
        match self.get(tenant, place) {
            Some(Some(_)) => true,
            _ => false,
        }
    }

    /// That list holds the receipt of the entry at that place.
    pub(crate) fn set(&mut self, tenant: usize, place: usize, list: usize)
        requires tenant { tenant < length self.old }
        requires place { place < length (list_at self.old tenant) }
        ensures { self.new ≡ slice_set self.old tenant (slice_set (list_at self.old tenant) place (Some list)) }
    {
        let row = &mut self.rows[tenant];
        row[place] = Some(list);
    }

    /// The lists of numbers.
    pub(crate) fn into_items(self, alloc: Global) -> Result<Vec<Items<Option<usize>>>, AllocError>
        ensures { IfOk result (λ lists. lists.items ≡ self) }
    {
        let Holders { rows } = self;
        items_of(alloc, rows)
    }
}

fn items_of(
    alloc: Global,
    rows: Vec<Vec<Option<usize>>>,
) -> Result<Vec<Items<Option<usize>>>, AllocError>
    ensures { IfOk result (λ lists. lists.items ≡ map (λ row. row.items) rows.items) }
{
    let mut lists = Vec::with_capacity(alloc, rows.len())?;
    for row in rows {
        lists.push_reserved(Items::from_vec(row));
    }
    Ok(lists)
}
