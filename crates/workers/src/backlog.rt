//! Closed periods whose statements are not written yet.

ghost use Rattle.std.specs.Prelude.{◌≡◌, ◌<◌, ◌++◌, ◌∷◌, [], IfNone, IfSome, OnErr, OnOk};

use crate::until::left_until;
use std::alloc::{AllocError, Global};
use std::sync::{Condvar, CondvarTimeouts, Mutex, Wait};
use std::time::{Clock, Duration, Instant};
use tenant_core::Period;

/// A tenant that has so many entries in periods that wait closes no further one.
pub const MAX_ENTRIES: usize = 65_536;

/// The periods of a tenant that wait, the oldest first, for how many more there is room, and what became of earlier ones.
#[derive(Drop)]
struct Waiting {
    periods: Vec<Period>,
    promised: usize,
    // How many entries these periods have.
    entries: usize,
    // How many periods are being written.
    in_hand: usize,
    // How many periods came, how many of them are written, and how many had come when one could not be written last.
    came: u64,
    written: u64,
    failed: u64,
}

impl Waiting {
    fn new(alloc: Global) -> Waiting {
        Waiting {
            periods: Vec::new(alloc),
            promised: 0,
            entries: 0,
            in_hand: 0,
            came: 0,
            written: 0,
            failed: 0,
        }
    }

    // Makes room for one more. If it is out of memory, or too many entries wait, nothing changes.
    fn make_room(&mut self) -> Result<(), AllocError>
        ensures periods { self.new.periods.items ≡ self.old.periods.items }
        ensures refused { OnErr result (self.new.promised ≡ self.old.promised) }
    {
        if self.entries >= MAX_ENTRIES {
            return Err(AllocError);
        }
        let promised = self.promised.checked_add(1).ok_or(AllocError)?;
        self.periods.reserve(promised)?;
        self.promised = promised;
        Ok(())
    }

    // Takes back room that was not used.
    fn give_up(&mut self)
        ensures periods { self.new.periods ≡ self.old.periods }
    {
        self.promised = self.promised.saturating_sub(1);
    }

    // Puts a period after those that wait, in room that was made for it.
    fn put(&mut self, period: Period) -> Result<(), AllocError>
        ensures put { OnOk result (self.new.periods.items ≡ self.old.periods.items ++ period ∷ []) }
        ensures refused { OnErr result (self.new.periods.items ≡ self.old.periods.items) }
    {
        self.give_up();
        let entries = period.len();
        self.periods.push(period)?;
        self.entries = self.entries.saturating_add(entries);
        self.came = self.came.saturating_add(1);
        Ok(())
    }

    // Takes the oldest one out, and keeps its room.
    fn take(&mut self) -> Option<Period>
        ensures taken { IfSome result (λ period. self.old.periods.items ≡ period ∷ self.new.periods.items) }
        ensures none { IfNone result (self.old.periods.items ≡ []) }
    {
        if self.periods.is_empty() {
            return None;
        }
        let period = self.periods.remove(0);
        self.promised = self.promised.saturating_add(1);
        self.entries = self.entries.saturating_sub(period.len());
        self.in_hand = self.in_hand.saturating_add(1);
        Some(period)
    }

    // The one that was taken is written.
    fn set_written(&mut self)
        ensures periods { self.new.periods ≡ self.old.periods }
    {
        self.give_up();
        self.in_hand = self.in_hand.saturating_sub(1);
        self.written = self.written.saturating_add(1);
    }

    // Puts the one that was taken, and could not be written, before those that wait.
    fn put_back(&mut self, period: Period) -> Result<(), AllocError>
        ensures put { OnOk result (self.new.periods.items ≡ period ∷ self.old.periods.items) }
        ensures refused { OnErr result (self.new.periods.items ≡ self.old.periods.items) }
    {
        self.give_up();
        self.in_hand = self.in_hand.saturating_sub(1);
        self.failed = self.came;
        let entries = period.len();
        self.periods.insert(0, period)?;
        self.entries = self.entries.saturating_add(entries);
        Ok(())
    }

    // Whether the period that came as that one is written, or could not be written since.
    fn is_settled(&self, ticket: u64) -> bool {
        self.written >= ticket || self.failed >= ticket
    }

    fn len(&self) -> usize {
        self.periods.len().saturating_add(self.in_hand)
    }
}

/// Closed periods whose statements are not written yet, those of each tenant behind its own lock.
///
/// Room for a period is made before it is closed, so that no period is lost when memory runs out. One thread writes them; others
/// may wait until it has.
#[derive(Drop)]
pub struct Backlog {
    tenants: Vec<Mutex<Waiting>>,
    // A bell for each tenant, which rings when one of its periods is written or could not be.
    settled: Vec<Condvar>,
    // Whether a period came since the writer last looked, and the bell that says so.
    came: Mutex<bool>,
    call: Condvar,
}

/// Room in a tenant's backlog for one period. It can be neither copied nor dropped, only used or given up.
pub struct BacklogRoom<'a> {
    backlog: &'a Backlog,
    waiting: &'a Mutex<Waiting>,
}

/// That a period of a tenant is being written. It can be neither copied nor dropped: the period is written, or put back.
pub struct BeingWritten<'a> {
    waiting: &'a Mutex<Waiting>,
    settled: &'a Condvar,
}

impl BacklogRoom<'_> {
    /// Puts a period after those of the tenant that wait, and calls the one who writes them. Returns the number of the period
    /// among all that came, for `await_settled` and `is_settled`.
    pub fn put<R: Wait>(self, rt: &R, period: Period) -> u64 {
        let BacklogRoom { backlog, waiting } = self;
        let mut held = waiting.lock(rt);
        // There is room, which the lock's type can't say.
        let _ = held.put(period);
        let ticket = held.came;
        drop(held);
        *backlog.came.lock(rt) = true;
        backlog.call.notify_one();
        ticket
    }

    /// Gives up room that is not used.
    pub fn give_up<R: Wait>(self, rt: &R) {
        let BacklogRoom {
            backlog: _,
            waiting,
        } = self;
        waiting.lock(rt).give_up();
    }
}

impl BeingWritten<'_> {
    /// The period is written. Wakes those who wait for it.
    pub fn set_written<R: Wait>(self, rt: &R) {
        let BeingWritten { waiting, settled } = self;
        waiting.lock(rt).set_written();
        settled.notify_all();
    }

    /// The period could not be written: it waits before the others again. Wakes those who wait for it.
    pub fn put_back<R: Wait>(self, rt: &R, period: Period) {
        let BeingWritten { waiting, settled } = self;
        // There is room, which the lock's type can't say.
        let _ = waiting.lock(rt).put_back(period);
        settled.notify_all();
    }
}

impl Backlog {
    /// An empty backlog of so many tenants. Fails only if it is out of memory.
    pub fn new(alloc: Global, tenants: usize) -> Result<Backlog, AllocError> {
        let mut all = Vec::with_capacity(alloc, tenants)?;
        for _ in 0..tenants {
            all.push_reserved(Mutex::new(Waiting::new(alloc)));
        }
        Ok(Backlog {
            tenants: all,
            settled: bells(alloc, tenants)?,
            came: Mutex::new(false),
            call: Condvar::new(),
        })
    }

    /// Makes room for one more period of the tenant. Fails if it is out of memory, if 65,536 entries of the tenant or more wait to
    /// be written, or if there is no such tenant.
    pub fn make_room<R: Wait>(&self, rt: &R, tenant: usize) -> Result<BacklogRoom<'_>, AllocError> {
        let waiting = self.tenants.get(tenant).ok_or(AllocError)?;
        waiting.lock(rt).make_room()?;
        Ok(BacklogRoom {
            backlog: self,
            waiting,
        })
    }

    /// Takes the tenant's oldest period out, to be written; `None` if none waits.
    pub fn take<R: Wait>(&self, rt: &R, tenant: usize) -> Option<(Period, BeingWritten<'_>)> {
        let waiting = self.tenants.get(tenant)?;
        let settled = self.settled.get(tenant)?;
        let period = waiting.lock(rt).take()?;
        Some((period, BeingWritten { waiting, settled }))
    }

    /// How many periods of the tenant wait. One that is being written waits too.
    pub fn len<R: Wait>(&self, rt: &R, tenant: usize) -> usize {
        match self.tenants.get(tenant) {
            Some(waiting) => waiting.lock(rt).len(),
            None => 0,
        }
    }

    /// Whether the tenant's period of that number is written, or could not be written since it came.
    pub fn is_settled<R: Wait>(&self, rt: &R, tenant: usize, ticket: u64) -> bool {
        match self.tenants.get(tenant) {
            Some(waiting) => waiting.lock(rt).is_settled(ticket),
            None => true,
        }
    }

    /// Waits until the tenant's period of that number is written, or could not be, or until that moment of the clock.
    pub fn await_settled<R: Wait + Clock>(
        &self,
        rt: &R,
        tenant: usize,
        ticket: u64,
        until: Instant,
    ) {
        let (Some(waiting), Some(bell)) = (self.tenants.get(tenant), self.settled.get(tenant))
        else {
            return;
        };
        let mut held = waiting.lock(rt);
        for _ in rt.forever() {
            let left = left_until(rt, until);
            if held.is_settled(ticket) || left.is_zero() {
                return;
            }
            held = bell.wait_timeout(rt, held, left).0;
        }
    }

    /// Waits until a period has come since the last call, but at most so long.
    pub fn await_call<R: Wait + Clock>(&self, rt: &R, time: Duration) {
        let mut came = self.came.lock(rt);
        if !*came {
            came = self.call.wait_timeout(rt, came, time).0;
        }
        *came = false;
    }
}

fn bells(alloc: Global, many: usize) -> Result<Vec<Condvar>, AllocError> {
    let mut all = Vec::new(alloc);
    for _ in 0..many {
        all.push(Condvar::new())?;
    }
    Ok(all)
}
