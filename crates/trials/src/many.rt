//! Periods of many ticks, and the receipts of these, by turns of all workers.

use crate::fault::Fault;
use common_types::{Name, Spare, Token};
use ilp_addr::{MAX_ADDRESS, Moment, OwnAddress};
use receipts::{AuditFault, Receipt, audit};
use std::alloc::{AllocError, Global};
use tenant_core::{Answered, Book, Command, Network, Period, TenantSetup, TenantTerms};

const TENANTS: usize = 64;

const WORKERS: usize = 64;

// 2030-01-01T00:00:00Z.
const START: u64 = 1_893_456_000_000;

// A tenant who deals with nobody.
fn setup(alloc: Global) -> Option<TenantSetup> {
    TenantSetup::new(TenantTerms {
        name: Name::new(b"acme")?,
        address: OwnAddress::new(b"g.acme")?,
        admin: Token::new(b"root-a")?,
        journal: 16_384,
        margin: 1_000,
        hold: 30_000,
        network: Network::new(alloc),
    })
}

fn closed(alloc: Global, book: &mut Book, now: Moment) -> Result<Period, Fault> {
    match book.command(alloc, &Command::Roll, now) {
        Ok(Answered::Rolled(period)) => Ok(period),
        _ => Err(Fault::Memory),
    }
}

// A period of so many ticks and its roll.
fn period(alloc: Global, tenant: usize, ticks: u32) -> Result<Period, Fault> {
    let (Some(setup), Some(now)) = (setup(alloc), Moment::new(START)) else {
        return Err(Fault::Words);
    };
    if tenant >= TENANTS {
        return Err(Fault::Words);
    }
    let mut book = Book::new(alloc, tenant, &setup, now)?;
    for _ in 0..ticks {
        if book.tick(now).is_err() {
            return Err(Fault::Words);
        }
    }
    closed(alloc, &mut book, now)
}

fn receipt(alloc: Global, period: &Period, number: usize) -> Result<Receipt, Fault> {
    let spare = Spare::new(alloc, MAX_ADDRESS)?;
    let Some(record) = period.records().journal().get(number) else {
        return Err(Fault::Words);
    };
    Ok(Receipt {
        tenant: period.tenant(),
        period: period.number(),
        number: number as u64,
        entry: record.entry.to_entry(spare),
        verdict: record.outcome,
    })
}

// Hands the receipts of a period to the workers by turns.
fn hand_out(alloc: Global, lists: &mut Vec<Vec<Receipt>>, period: &Period) -> Result<(), Fault> {
    for number in 0..period.len() {
        let worker = (number + period.tenant()) % lists.len().max(1);
        let receipt = receipt(alloc, period, number)?;
        if worker < lists.len() {
            lists[worker].push(receipt)?;
        }
    }
    Ok(())
}

fn no_receipts(alloc: Global, workers: usize) -> Result<Vec<Vec<Receipt>>, Fault> {
    let mut lists = Vec::new(alloc);
    for _ in 0..workers {
        lists.push(Vec::new(alloc))?;
    }
    Ok(lists)
}

/// The receipts of the records of periods, which so many workers keep by turns.
pub fn by_turns(
    alloc: Global,
    periods: &[Period],
    workers: usize,
) -> Result<Vec<Vec<Receipt>>, Fault> {
    let mut lists = no_receipts(alloc, workers)?;
    for period in periods {
        hand_out(alloc, &mut lists, period)?;
    }
    Ok(lists)
}

// The periods of all tenants, whose receipts are handed to the workers by turns.
fn periods_of(
    alloc: Global,
    lists: &mut Vec<Vec<Receipt>>,
    entries: u32,
) -> Result<Vec<Period>, Fault> {
    let mut periods = Vec::new(alloc);
    for tenant in 0..TENANTS {
        let period = period(alloc, tenant, entries.saturating_sub(1))?;
        hand_out(alloc, lists, &period)?;
        periods.push(period)?;
    }
    Ok(periods)
}

/// The lists, lent.
pub fn lent(alloc: Global, lists: &[Vec<Receipt>]) -> Result<Vec<&[Receipt]>, AllocError> {
    let mut lent = Vec::new(alloc);
    for list in lists {
        lent.push(list.as_slice())?;
    }
    Ok(lent)
}

fn audited_by(
    alloc: Global,
    periods: &[Period],
    lists: &[Vec<Receipt>],
) -> Result<Result<(usize, usize), AuditFault>, Fault> {
    let shown = lent(alloc, lists)?;
    Ok(audit(alloc, periods, shown.as_slice()).map(|found| (found.tenants, found.receipts)))
}

/// What an audit says of so many receipts for each of 64 tenants: of how many tenants, and of how many receipts.
pub fn audited(alloc: Global, entries: u32) -> Result<Result<(usize, usize), AuditFault>, Fault> {
    let mut lists = no_receipts(alloc, WORKERS)?;
    let periods = periods_of(alloc, &mut lists, entries)?;
    audited_by(alloc, periods.as_slice(), lists.as_slice())
}
