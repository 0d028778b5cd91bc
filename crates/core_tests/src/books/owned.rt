//! Owned entries, and what makes entries differ.

use common_types::Spare;
use ilp_addr::MAX_ADDRESS;
use std::alloc::Global;
use std::process::Abort;
use std::test::Fail;
use tenant_core::{Entry, Journal, Opening, Period, Record};
use test_texts::books::period_of_each;

// The entry at that place, as one's own.
fn owned(alloc: Global, journal: &Journal, place: usize) -> Result<Entry, Fail> {
    match journal.get(place) {
        Some(record) => Ok(record.entry.to_entry(Spare::new(alloc, MAX_ADDRESS)?)),
        None => Err(Fail::from("a record")),
    }
}

// The record at that place is the one of its own entry, and of no other's.
fn expect_told_apart(
    rt: &impl Abort,
    journal: &Journal,
    place: usize,
    owned: &Record,
) -> Result<(), Fail> {
    for other in 0..journal.len() {
        let record = journal.get(other).ok_or("a record")?;
        assert!(rt; record.entry.is_same(&owned.entry) == (other == place));
        assert!(rt; record.is_same(owned) == (other == place));
    }
    Ok(())
}

fn expect_owned(rt: &impl Abort, alloc: Global, journal: &Journal) -> Result<(), Fail> {
    for place in 0..journal.len() {
        let mut entry = owned(alloc, journal, place)?;
        entry.shrink();
        let outcome = journal.get(place).ok_or("a record")?.outcome;
        expect_told_apart(rt, journal, place, &Record { entry, outcome })?;
    }
    Ok(())
}

// The last record is the roll's.
fn expect_last(rt: &impl Abort, journal: &Journal) -> Result<(), Fail> {
    let last = journal.last().ok_or("a record")?;
    assert!(rt; matches!(last.outcome, tenant_core::Outcome::Rolled));
    Ok(())
}

#[test]
fn entries_of_ones_own_are_told_apart(rt: HostRuntime) -> Result<(), Fail> {
    let period = period_of_each(rt.alloc())?;
    assert!(rt; period.len() == 5);
    let journal = period.records().journal();
    expect_last(&rt, journal)?;
    expect_owned(&rt, rt.alloc(), journal)
}

fn expect_same_copy(rt: &impl Abort, alloc: Global, opening: &Opening) -> Result<(), Fail> {
    let copy = opening.copy(alloc)?;
    assert!(rt; opening.is_same(&copy));
    Ok(())
}

fn expect_openings(rt: &impl Abort, period: &Period, again: &Period) {
    assert!(rt; period.opening().is_same(again.opening()));
    assert!(rt; period.ending().is_same(again.ending()));
    assert!(rt; !period.opening().is_same(period.ending()));
    assert!(rt;
        period.tenant() == 0 && period.ending().period == period.number().saturating_add(1)
    );
}

#[test]
fn openings_are_told_apart(rt: HostRuntime) -> Result<(), Fail> {
    let period = period_of_each(rt.alloc())?;
    let again = period_of_each(rt.alloc())?;
    expect_same_copy(&rt, rt.alloc(), period.opening())?;
    expect_openings(&rt, &period, &again);
    Ok(())
}
