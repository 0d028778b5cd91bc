//! The periods of each tenant, one after another.

ghost use Rattle.std.specs.Prelude.{◌≡◌, ◌<◌, ◌≤◌, ◌+◌, ℕ, length, slice_get, IfOk, IfErr, OnOk, true, false};
ghost use Rattle.receipts.specs.Audits.{AreJoined, HasGap};
ghost use Rattle.receipts.specs.Layout.{AreOfRolls, IsGap, IsIndexUpTo, IsLedAt};

use crate::fault::AuditFault;
use crate::index::Index;
use std::alloc::Global;
use tenant_core::Period;

// The invariant of each period.
pub(crate) fn are_kept(periods: &[Period])
    ensures { AreOfRolls periods.now }
{
    for k in 0..periods.len() {
        tenant_core::laws::period_is_kept(&periods[k]);
    }
}

// Notes the place of the period at index `k`, unless one of its tenant and number was noted.
fn note(index: &mut Index, periods: &[Period], k: usize) -> Result<(), AuditFault>
    requires inside { k < length periods.now }
    requires index { IsIndexUpTo index.old periods.now k }
    ensures more { OnOk result (IsIndexUpTo index.new periods.now (k + 1)) }
    ensures gap { IfErr result (IsGap periods.now) }
{
    let period = &periods[k];
    if index.place(period.tenant(), period.number()).is_some() {
        return Err(AuditFault::Gap);
    }
    index.insert(period.tenant(), period.number(), k)?;
    Ok(())
}

/// The places of the periods, by tenant and number. `Gap` if two have the same.
pub(crate) fn index_of(alloc: Global, periods: &[Period]) -> Result<Index, AuditFault>
    ensures index { IfOk result (λ index. IsIndexUpTo index periods.now (length periods.now)) }
    ensures gap { IfErr result (IsGap periods.now) }
{
    let mut index = Index::new(alloc)?;
    for k in 0..periods.len() {
        note(&mut index, periods, k)?;
    }
    Ok(index)
}

// Whether the period at that place is the first of its tenant, or opens the state in which the one before it ended.
fn is_led(index: &Index, periods: &[Period], k: usize) -> bool
    requires inside { k < length periods.now }
    requires index { IsIndexUpTo index.now periods.now (length periods.now) }
    requires kept { AreOfRolls periods.now }
    ensures led { result ≡ true → IsLedAt periods.now k }
    ensures gap { result ≡ false → HasGap periods.now }
{
    let period = &periods[k];
    let number = period.number();
    if number == 0 {
        return true;
    }
    match index.place(period.tenant(), number - 1) {
        Some(before) => periods[before].ending().is_same(period.opening()),
        None => false,
    }
}

/// Whether each tenant's periods join. `Gap` if they don't.
pub(crate) fn check_joined(index: &Index, periods: &[Period]) -> Result<(), AuditFault>
    requires index { IsIndexUpTo index.now periods.now (length periods.now) }
    requires kept { AreOfRolls periods.now }
    ensures joined { OnOk result (AreJoined periods.now) }
    ensures gap { IfErr result (IsGap periods.now) }
{
    for k in 0..periods.len() {
        if !is_led(index, periods, k) {
            return Err(AuditFault::Gap);
        }
    }
    Ok(())
}
