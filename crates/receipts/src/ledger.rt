//! Receipts, kept as entries are appended.

ghost use Rattle.std.specs.Prelude.{◌≡◌, ◌+◌, ◌<◌, ◌≤◌, vec_capacity, IfSome, IsSome};
ghost use Rattle.ilp_addr.specs.Address.{max_address};
ghost use Rattle.receipts.specs.Ledgers.{IsFit, places};

use crate::receipt::Receipt;
use common_types::Spare;
use ilp_addr::MAX_ADDRESS;
use std::alloc::{AllocError, Global};
use std::marker::Model;
use tenant_core::Journal;

// How many receipts room is made for at once.
const MADE: usize = 2;

/// The receipts of one worker, in the order of its calls, and room for some more, which is made before a lock is taken.
/// Contracts see the receipts, and how many more there is room for.
#[derive(Drop)]
pub struct Ledger {
    receipts: Vec<Receipt>,
    // Room for the address or the prefix of the next entries.
    first: Option<Spare>,
    second: Option<Spare>,
}

impl Model for Ledger {
    ghost use Rattle.std.specs.Prelude.{vec_len, vec_capacity};
    ghost use Rattle.receipts.specs.Ledgers.{LedgerView, IsLedger, places};

    ghost Value = { LedgerView };

    ghost view = { λ l. record { receipts = l.receipts.items; room = places l.first l.second } };

    ghost invariant = { λ l. IsLedger (vec_len l.receipts) (vec_capacity l.receipts) l.first l.second };
}

impl Ledger {
    ghost use Rattle.std.specs.Prelude.{◌≡◌, ◌+◌, ◌<◌, ◌≤◌, [], ◌++◌, OnOk, OnErr};
    ghost use Rattle.tenant_core.specs.Limits.{max_tenants};
    ghost use Rattle.receipts.specs.Ledgers.{last_receipt};

    /// No receipt, and room for none. It allocates nothing.
    pub fn new(alloc: Global) -> Ledger
        ensures { result ≡ record { receipts = []; room = 0 } }
    {
        Ledger {
            receipts: Vec::new(alloc),
            first: None,
            second: None,
        }
    }

    /// The receipts.
    pub fn receipts(&self) -> &[Receipt]
        ensures { result.now ≡ self.now.receipts }
    {
        &self.receipts
    }

    /// Makes room for two receipts, and gives back unused room of the last two. Fails only if it is out of memory, and
    /// the receipts are the same then too.
    pub fn make_room(&mut self, alloc: Global) -> Result<(), AllocError>
        ensures receipts { self.new.receipts ≡ self.old.receipts }
        ensures ok { OnOk result (self.new.room ≡ 2) }
        ensures err { OnErr result (self.old.room ≤ self.new.room) }
    {
        shrink_last(&mut self.receipts);
        self.receipts.reserve(MADE)?;
        if self.first.is_none() {
            self.first = Some(Spare::new(alloc, MAX_ADDRESS)?);
        }
        if self.second.is_none() {
            self.second = Some(Spare::new(alloc, MAX_ADDRESS)?);
        }
        Ok(())
    }

    /// Keeps the receipt of the last record of that period's journal, in the room that was made for it. Keeps nothing
    /// if there is no record.
    pub fn keep(&mut self, tenant: usize, period: u64, journal: &Journal)
        requires room { 0 < self.old.room }
        ensures receipts { self.new.receipts ≡ self.old.receipts ++ last_receipt tenant period journal.now.records }
        ensures room { self.old.room ≤ self.new.room + 1 }
    {
        let Some(record) = journal.last() else {
            return;
        };
        let Some(spare) = take(&mut self.first, &mut self.second) else {
            unreachable!()
        };
        self.receipts.push_reserved(Receipt {
            tenant,
            period,
            number: journal.len() as u64 - 1,
            entry: record.entry.to_entry(spare),
            verdict: record.outcome,
        });
    }
}

// Takes the room of one of both.
fn take(first: &mut Option<Spare>, second: &mut Option<Spare>) -> Option<Spare>
    requires fit { IsFit first.old × IsFit second.old }
    requires room { 0 < places first.old second.old }
    ensures there { IsSome result }
    ensures wide { IfSome result (λ spare. max_address ≤ spare) }
    ensures fit { IsFit first.new × IsFit second.new }
    ensures fewer { places first.new second.new + 1 ≡ places first.old second.old }
{
    match first.take() {
        Some(spare) => Some(spare),
        None => second.take(),
    }
}

// Gives back what the last receipts did not need of their room.
fn shrink_last(receipts: &mut Vec<Receipt>)
    ensures items { receipts.new.items ≡ receipts.old.items }
    ensures capacity { vec_capacity receipts.new ≡ vec_capacity receipts.old }
{
    for place in receipts.len().saturating_sub(MADE)..receipts.len() {
        receipts[place].entry.shrink();
    }
}
