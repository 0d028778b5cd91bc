//! What a worker counts.

ghost use Rattle.std.specs.Prelude.{◌≡◌, ◌<◌, [], IfSome, is_some};
ghost use Rattle.one_list.specs.Steps.{grown, worked};
ghost use Rattle.receipts.specs.Ledgers.{last_receipt};
ghost use Rattle.books_shared.specs.ShareKept.{HasKept, HasMadeRoom, IsLedgerOf};
ghost use Rattle.books_shared.specs.Shares.{has_full, receipts_told};
ghost use Rattle.books_shared.specs.Tracing.{steps_appended};

use crate::outcomes::TenantLog;
use crate::rise::CallCounts;
use one_list::{Chronicle, Run, WorkerPart};
use receipts::{Ledger, Receipt};
use std::alloc::{AllocError, Global};
use std::marker::Model;
use tenant_core::limits::MAX_TENANTS;
use tenant_core::{Command, Journal};
use thiserror::Error;

// A count that is full.
const MAX_COUNT: u64 = 1 << 47;

/// Why a share has no room for calls. Nothing has changed then.
#[derive(Clone, Copy, Debug, PartialEq, Eq, Error)]
pub enum RoomFault {
    /// One of the worker's counts is full: 2^47 or more.
    #[error("a worker's count is full")]
    Spent,
    /// Out of memory for receipts. Only a share that keeps receipts returns it.
    #[error("out of memory")]
    Memory,
}

impl From<AllocError> for RoomFault {
    ghost use Rattle.std.specs.Prelude.{◌≡◌};
    ghost use Rattle.books_shared.specs.declared.share.RoomFault.TheVariants.{Memory};

    ghost from_gives = { λ error told. told ≡ Memory };

    fn from(_error: AllocError) -> RoomFault {
        RoomFault::Memory
    }
}

/// What one worker has counted for each of 64 tenants: entries that it appended to the tenant's book, tokens that were
/// no peer's, and packets that found the journal full. In an audited run it also keeps a receipt of each of its steps.
/// For the proofs alone, it has its steps in the one list of all that is done to the books, and the tenants' steps
/// that it has met. Contracts see it as a `ShareView`.
///
/// It has room for a number of calls of a `Guard`, each of which uses one up. `make_room` makes room for two. So no
/// count passes 2^47 + 1. A share that keeps no receipts does not grow.
#[derive(Drop)]
pub struct Share<J: Run> {
    part: WorkerPart<J>,
    counts: [u64; MAX_TENANTS],
    strangers: [u64; MAX_TENANTS],
    full: [u64; MAX_TENANTS],
    room: u64,
    // Whether one of these counts is full.
    spent: bool,
    ledger: Option<Ledger>,
}

impl<J: Run> Model for Share<J> {
    ghost use Rattle.books_shared.specs.Shares.{ShareView};

    ghost Value = { ShareView };

    ghost use Rattle.std.specs.Prelude.{is_some};
    ghost use Rattle.books_shared.specs.ShareKept.{IsShare};

    ghost view = { λ s. record {
      worker = s.part.number;
      counts = s.counts;
      strangers = s.strangers;
      full = s.full;
      room = s.room;
      steps = s.part.steps;
      met = s.part.met;
      audited = is_some s.ledger;
    } };

    ghost invariant = { λ s. IsShare s.counts s.strangers s.full s.room s.spent s.part.steps s.ledger };
}

impl<J: Run> Share<J> {
    ghost use Rattle.std.specs.Prelude.{◌≡◌, ◌+◌, ◌<◌, ◌≤◌, ◌==◌, Bool, [], count_by, length, option_map, slice_index};
    ghost use Rattle.tenant_core.specs.Limits.{max_tenants};
    ghost use Rattle.books_shared.specs.Rises.{IsSmall};
    ghost use Rattle.books_shared.specs.Shares.{IsRoomMade, fresh, share_met, max_count, share_raised, receipts_in, with_steps};
    ghost use Rattle.books_shared.specs.Traced.{share_part};
    ghost use Rattle.books_shared.specs.Tracing.{steps_appended};
    ghost use Rattle.one_list.specs.Steps.{grown, of_tenant, of_worker};

    // The share of a worker that has counted nothing. It keeps receipts if `audited`.
    pub(crate) fn fresh(alloc: Global, part: WorkerPart<J>, audited: bool) -> Share<J>
        requires { part ≡ record { number = part.number; steps = []; met = [] } }
        ensures { result ≡ fresh audited part.number }
    {
        Share {
            part,
            counts: [0; MAX_TENANTS],
            strangers: [0; MAX_TENANTS],
            full: [0; MAX_TENANTS],
            room: 0,
            spent: false,
            ledger: new_ledger(alloc, audited),
        }
    }

    /// The worker's number.
    pub fn worker(&self) -> usize
        ensures { result ≡ self.now.worker }
    {
        self.part.number() as usize
    }

    /// How many entries the worker appended to the book of that tenant, below 64: at most 2^47 + 1. It is how many of its
    /// steps, and so of its receipts, are of that tenant.
    pub fn count(&self, tenant: usize) -> u64
        requires { tenant < max_tenants }
        ensures value { result ≡ slice_index self.now.counts tenant }
        ensures steps { result ≡ count_by (λ e. e.tenant == tenant) self.now.steps }
        ensures within { result ≤ max_count + 1 }
    {
        self.counts[tenant]
    }

    /// How many tokens that came for that tenant, below 64, were no peer's: at most 2^47 + 1.
    pub fn strangers(&self, tenant: usize) -> u64
        requires { tenant < max_tenants }
        ensures value { result ≡ slice_index self.now.strangers tenant }
        ensures within { result ≤ max_count + 1 }
    {
        self.strangers[tenant]
    }

    /// How many packets found the journal of that tenant, below 64, full: at most 2^47 + 1.
    pub fn full_journals(&self, tenant: usize) -> u64
        requires { tenant < max_tenants }
        ensures value { result ≡ slice_index self.now.full tenant }
        ensures within { result ≤ max_count + 1 }
    {
        self.full[tenant]
    }

    /// Whether the worker keeps receipts.
    pub fn is_audited(&self) -> bool
        ensures { result ≡ self.now.audited }
    {
        self.ledger.is_some()
    }

    /// The receipts of all that the worker did to the books, in its order, if the run is audited. There is one for
    /// each of its steps in the one list, and no other.
    pub fn receipts(&self) -> Option<&[Receipt]>
        ensures { option_map (λ list. list.now) result ≡ receipts_in self.now }
    {
        match &self.ledger {
            Some(ledger) => Some(ledger.receipts()),
            None => None,
        }
    }

    /// Makes room for two calls of a `Guard`, and for two receipts if they are kept, before the lock is taken. The
    /// command is the one that follows under the lock, if there is one. It is not kept.
    ///
    /// `Spent` exactly if one of the counts is 2^47 or more. `Memory` if it is out of memory for receipts, which never
    /// happens to a share that keeps none. Nothing has changed then.
    pub fn make_room(&mut self, alloc: Global, _command: Option<&Command>) -> Result<(), RoomFault>
        ensures { IsRoomMade result self.old self.new }
    {
        if self.spent {
            return Err(RoomFault::Spent);
        }
        make_room(&mut self.ledger, alloc)?;
        self.room = 2;
        Ok(())
    }

    // Counts what a call adds for a tenant. If it appended an entry, the last record of that period's journal is added
    // to the one list, and its receipt is kept if receipts are.
    pub(crate) fn add(
        &mut self,
        chronicle: &Chronicle<J>,
        tenant: &mut TenantLog<J>,
        rise: CallCounts,
        period: u64,
        journal: &Journal,
    )
        requires tenant { tenant.old.number < max_tenants }
        requires room { 0 < self.old.room }
        requires small { IsSmall rise }
        requires appended { rise.entries ≤ length journal.now.records }
        ensures tenant { tenant.new
            ≡ grown tenant.old (steps_appended rise.entries self.old.worker tenant.old.number period journal.now.records) }
        ensures share { self.new ≡ share_raised rise tenant.old.number
            (with_steps (steps_appended rise.entries self.old.worker tenant.old.number period journal.now.records) self.old) }
    {
        let number = tenant.number() as usize;
        tell(
            chronicle,
            tenant,
            &mut self.part,
            &mut self.ledger,
            rise.entries,
            period,
            journal,
        );
        let entries = self.counts[number] + rise.entries;
        let strangers = self.strangers[number] + rise.strangers;
        let full = self.full[number] + rise.full;
        self.counts[number] = entries;
        self.strangers[number] = strangers;
        self.full[number] = full;
        self.spent |= has_full(&[entries, strangers, full]);
        self.room -= 1;
    }

    // The tenant's steps by the worker are the worker's steps of the tenant; and the worker has met the tenant's.
    pub(crate) fn meet(&mut self, chronicle: &Chronicle<J>, tenant: &mut TenantLog<J>)
        ensures tenant { tenant.new ≡ tenant.old }
        ensures share { self.new ≡ share_met tenant.old.number tenant.old.steps self.old }
        ensures shared { of_worker self.old.worker tenant.old.steps ≡ of_tenant tenant.old.number self.old.steps }
    {
        tenant.meet(chronicle, &mut self.part);
    }

    // The worker's part of the one list.
    pub(crate) fn into_part(self) -> WorkerPart<J>
        ensures { result ≡ share_part self }
    {
        let Share { part, .. } = self;
        part
    }
}

// A ledger without receipts, if receipts must be kept.
fn new_ledger(alloc: Global, audited: bool) -> Option<Ledger>
    ensures there { is_some result ≡ audited }
    ensures none { IsLedgerOf result [] 0 }
{
    if audited {
        Some(Ledger::new(alloc))
    } else {
        None
    }
}

// Makes room for two receipts, if they are kept.
fn make_room(ledger: &mut Option<Ledger>, alloc: Global) -> Result<(), AllocError>
    ensures { HasMadeRoom result ledger.old ledger.new }
{
    match ledger {
        Some(ledger) => ledger.make_room(alloc),
        None => Ok(()),
    }
}

// Keeps the receipt of the last record of that period's journal, if receipts are kept.
fn keep(ledger: &mut Option<Ledger>, tenant: usize, period: u64, journal: &Journal)
    requires { IfSome ledger.old (λ kept. 0 < kept.room) }
    ensures { HasKept ledger.old ledger.new (last_receipt tenant period journal.now.records) }
{
    if let Some(ledger) = ledger {
        ledger.keep(tenant, period, journal);
    }
}

// If a call appended an entry, adds the last record of that period's journal to the one list, and keeps its receipt,
// if receipts are kept.
fn tell<J: Run>(
    chronicle: &Chronicle<J>,
    tenant: &mut TenantLog<J>,
    worker: &mut WorkerPart<J>,
    ledger: &mut Option<Ledger>,
    entries: u64,
    period: u64,
    journal: &Journal,
)
    requires { IfSome ledger.old (λ kept. 0 < kept.room) }
    ensures tenant { tenant.new
        ≡ grown tenant.old (steps_appended entries worker.old.number tenant.old.number period journal.now.records) }
    ensures worker { worker.new
        ≡ worked worker.old (steps_appended entries worker.old.number tenant.old.number period journal.now.records) }
    ensures ledger { HasKept ledger.old ledger.new
        (receipts_told (steps_appended entries worker.old.number tenant.old.number period journal.now.records)) }
{
    if entries != 0 {
        let number = tenant.number() as usize;
        tenant.record(chronicle, worker, period, journal);
        keep(ledger, number, period, journal);
    }
}

// Whether one of the counts is full.
fn has_full(counts: &[u64]) -> bool
    ensures { result ≡ has_full counts.now }
{
    let mut full = false;
    for count in counts {
        full |= *count >= MAX_COUNT;
    }
    full
}
