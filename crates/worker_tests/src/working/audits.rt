//! Receipts of what a worker did, and their audit.

use super::commands::closed;
use super::packets::{FULFILLED, is_carried};
use super::{Team, Trial, on_two_books};
use books_shared::Share;
use one_list::Run;
use receipts::{Audited, Receipt, audit};
use std::alloc::Global;
use std::slice;
use std::sync::Wait;
use std::test::Fail;
use tenant_core::Period;

// What an audit says of a period and the receipts of one worker.
fn audited(alloc: Global, period: &Period, receipts: &[Receipt]) -> Result<Audited, Fail> {
    Ok(audit(alloc, slice::from_ref(period), slice::from_ref(&receipts))?)
}

// Whether an audit finds three receipts of one period of one tenant.
fn is_complete<J: Run>(alloc: Global, period: &Period, share: &Share<J>) -> Result<bool, Fail> {
    let receipts = share.receipts().ok_or("receipts")?;
    let found = audited(alloc, period, receipts)?;
    Ok((found.tenants, found.periods, found.receipts) == (1, 1, 3))
}

// The same, once a packet is fulfilled and the period closed.
fn is_complete_in_the_end<J: Run, R: Wait + AllocGlobal>(
    rt: &R,
    team: &mut Team<J>,
) -> Result<bool, Fail> {
    let is_carried = is_carried(rt, team, &FULFILLED)?;
    let period = closed(rt, team)?;
    Ok(is_carried && is_complete(rt.alloc(), &period, &team.first)?)
}

// How many receipts the share keeps.
fn receipts_of<J: Run>(share: &Share<J>) -> Option<usize> {
    let receipts = share.receipts()?;
    Some(receipts.len())
}

/// A packet of acme's is fulfilled, and the period closed: three receipts, which an audit finds complete.
struct Receipts;

impl Trial for Receipts {
    fn act<J: Run, R: Wait + AllocGlobal>(&self, rt: &R, mut team: Team<J>) -> Result<bool, Fail> {
        let is_complete = is_complete_in_the_end(rt, &mut team)?;
        Ok(is_complete && receipts_of(&team.second) == Some(0))
    }
}

#[test]
fn receipts_are_complete(rt: HostRuntime) -> Result<(), Fail> {
    assert!(rt; on_two_books(&rt, "64", &Receipts)?);
    Ok(())
}
