//! The places of all periods' entries in their tenants' journals.

ghost use Rattle.std.specs.Prelude.{◌≡◌, ◌<◌, ◌≤◌, length, vec_len, slice_index, IfOk, OnOk};
ghost use Rattle.tenant_core.specs.Limits.{max_tenants};
ghost use Rattle.receipts.specs.Audits.{AreJoined};
ghost use Rattle.receipts.specs.Layout.{AreOfRolls, AreLaid, IsIndexUpTo, IsLaid, IsLaidTo, KeepsOthers, LaysNext};

use crate::holders::Holders;
use crate::index::Index;
use std::alloc::{AllocError, Global};
use tenant_core::Period;
use tenant_core::limits::{MAX_PERIOD, MAX_TENANTS};

/// Periods, the place of each, and how many entries its tenant's journal has before it.
#[derive(Drop)]
pub(crate) struct Laid<'a> {
    pub periods: &'a [Period],
    pub index: &'a Index,
    pub offsets: &'a [usize],
}

// Lays out the tenant's period of that number, after so many entries of the periods before it. Returns how many
// entries there are then, or `None` if there is no such period.
fn lay_next(
    index: &Index,
    periods: &[Period],
    offsets: &mut Vec<usize>,
    tenant: usize,
    number: u64,
    total: usize,
) -> Result<Option<usize>, AllocError>
    requires index { IsIndexUpTo index.now periods.now (length periods.now) }
    requires laid { IsLaidTo index.now periods.now offsets.old.items tenant number total }
    ensures wide { vec_len offsets.new ≡ vec_len offsets.old }
    ensures next { IfOk result (LaysNext index.now periods.now offsets.old.items offsets.new.items tenant number) }
    ensures others { KeepsOthers index.now offsets.old.items offsets.new.items tenant }
{
    let Some(place) = index.place(tenant, number) else {
        return Ok(None);
    };
    offsets[place] = total;
    match total.checked_add(periods[place].len()) {
        Some(more) => Ok(Some(more)),
        None => Err(AllocError),
    }
}

// Lays out all periods of a tenant, and gives how many entries they have.
fn lay_tenant(
    index: &Index,
    periods: &[Period],
    offsets: &mut Vec<usize>,
    tenant: usize,
) -> Result<usize, AllocError>
    requires index { IsIndexUpTo index.now periods.now (length periods.now) }
    requires kept { AreOfRolls periods.now }
    requires joined { AreJoined periods.now }
    requires wide { vec_len offsets.old ≡ length periods.now }
    ensures wide { vec_len offsets.new ≡ length periods.now }
    ensures laid { IfOk result (IsLaid index.now periods.now offsets.new.items tenant) }
    ensures others { KeepsOthers index.now offsets.old.items offsets.new.items tenant }
{
    let mut total = 0;
    for number in 0..MAX_PERIOD + 1 {
        match lay_next(index, periods, offsets, tenant, number, total)? {
            Some(more) => total = more,
            None => return Ok(total),
        }
    }
    Ok(total)
}

/// How many entries its tenant's journal has before each period, and for each tenant a row for its entries.
pub(crate) fn lay_out(
    alloc: Global,
    index: &Index,
    periods: &[Period],
) -> Result<(Vec<usize>, Holders), AllocError>
    requires index { IsIndexUpTo index.now periods.now (length periods.now) }
    requires kept { AreOfRolls periods.now }
    requires joined { AreJoined periods.now }
    ensures { IfOk result (λ laid. AreLaid index.now periods.now laid.0.items laid.1 max_tenants) }
{
    let mut offsets = vec![in alloc; 0usize; periods.len()]?;
    let mut holders = Holders::new(alloc);
    for tenant in 0..MAX_TENANTS {
        let total = lay_tenant(index, periods, &mut offsets, tenant)?;
        holders.push_row(alloc, total)?;
    }
    Ok((offsets, holders))
}
