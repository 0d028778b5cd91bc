//! The places in which packets are exchanged with next peers, shared among the tenants.

ghost use Rattle.std.specs.Prelude.{◌≡◌, ◌<◌, ◌≤◌, true, false, None, length, slice_index, IfOk, IfSome, MatchOption};
ghost use Rattle.allotment.specs.Loans.{max_places, max_tenants, used_by};
ghost use Rattle.allotment.specs.Waits.{IsPlaceBack, asked_for, waiting_of};
ghost use Rattle.workers.specs.PlaceCounts.{missed_by, raised_at, unless_answered};
ghost use Rattle.workers.specs.Places.{IsAdmitted, after_look, has_place, has_tenant, is_kept_for, without_one};

use crate::until::left_until;
use allotment::{Admission, Lending};
use std::alloc::{AllocError, Global};
use std::sync::{Condvar, CondvarTimeouts, Mutex, MutexGuard, Wait};
use std::time::{Clock, Instant};

/// How many places a tenant uses and waits for, at one moment, and how many of its packets got no answer since the places were
/// made.
#[derive(Clone, Copy, Debug, PartialEq, Eq)]
pub struct PlaceUse {
    /// How many it is sure of.
    pub share: usize,
    /// How many it uses.
    pub used: usize,
    /// How many of its threads wait for one.
    pub waiting: usize,
    /// How many of its packets got no place in time. The count ends at 2^64 - 1, and so does the next.
    pub missed: u64,
    /// How many of its packets had a place, and got no answer there.
    pub unanswered: u64,
}

/// A place that a tenant has taken. It can be neither copied nor dropped, only given back.
pub struct Place {
    tenant: usize,
}

/// What lies under the lock: the places that are lent, and what is counted of each tenant.
#[derive(Drop)]
struct Counter {
    lending: Lending,
    missed: Vec<u64>,
    unanswered: Vec<u64>,
}

/// The places that tenants share, behind a lock, and those who wait for one.
///
/// Each tenant is sure of its share: one that uses less gets a place at once, whatever the others use. What nobody is owed,
/// anyone may have. Whenever the lock is free, nobody waits who could have a place (`allotment::Lending`).
///
/// Threads of one tenant that wait are woken in the order in which the system keeps those that sleep, which is that of their
/// coming.
#[derive(Drop)]
#[repr(C)]
pub struct Places {
    // A bell for each tenant, at which its threads sleep.
    bells: Vec<Condvar>,
    // The padding keeps what is written with each packet out of the cache lines of what is only read.
    before: [u64; 16],
    counter: Mutex<Counter>,
    after: [u64; 16],
}

impl Places {
    /// So many places, 1 to 64, for so many tenants, 1 to 64. Of each tenant so many threads may wait at once. Fails
    /// only if it is out of memory.
    pub fn new(
        alloc: Global,
        places: usize,
        tenants: usize,
        most_waiting: usize,
    ) -> Result<Places, AllocError>
        requires tenants { (1 ≤ tenants) × (tenants ≤ max_tenants) }
        requires places { (1 ≤ places) × (places ≤ max_places) }
    {
        let mut bells = Vec::with_capacity(alloc, tenants)?;
        for _ in 0..tenants {
            bells.push_reserved(Condvar::new());
        }
        let counter = Counter {
            lending: Lending::new(alloc, places, tenants, most_waiting)?,
            missed: vec![in alloc; 0; tenants]?,
            unanswered: vec![in alloc; 0; tenants]?,
        };
        Ok(Places {
            bells,
            before: [0; 16],
            counter: Mutex::new(counter),
            after: [0; 16],
        })
    }

    /// Takes a place for the tenant, and waits for one until that moment of the clock.
    ///
    /// `None` if it got none by then, if as many threads of the tenant wait already as may, or if the clock can't be
    /// read: one more was missed. `None` also if there is no such tenant.
    pub fn take<R: Wait + Clock>(&self, rt: &R, tenant: usize, until: Instant) -> Option<Place>
        ensures { IfSome result (λ place. place.tenant ≡ tenant) }
    {
        let bell = self.bells.get(tenant)?;
        let mut counter = self.counter.lock(rt);
        match ask(&mut counter, tenant)? {
            Admission::Taken => return Some(Place { tenant }),
            Admission::Full => return None,
            Admission::Waits => {}
        }
        for _ in rt.forever() {
            let left = left_until(rt, until);
            if left.is_zero() {
                break;
            }
            counter = bell.wait_timeout(rt, counter, left).0;
            if picks_up(&mut counter, tenant) {
                return Some(Place { tenant });
            }
        }
        give_up(&mut counter, tenant);
        None
    }

    /// The tenant's use of the places now; `None` if there is no such tenant.
    pub fn use_by<R: Wait>(&self, rt: &R, tenant: usize) -> Option<PlaceUse> {
        let counter = self.counter.lock(rt);
        use_in(&counter, tenant)
    }

    /// Gives back a place that was taken from these, whether a packet got an answer there or not. Wakes one that waits and may
    /// have the place.
    pub fn give_back<R: Wait>(&self, rt: &R, place: Place, is_answered: bool) {
        let Place { tenant } = place;
        let mut counter = self.counter.lock(rt);
        let next = came_back(&mut counter, tenant, is_answered);
        drop(counter);
        if let Some(next) = next
            && let Some(bell) = self.bells.get(next)
        {
            bell.notify_one();
        }
    }
}

// One more of the tenant.
fn raise(counts: &mut Vec<u64>, tenant: usize)
    ensures { counts.new.items ≡ raised_at tenant counts.old.items }
{
    if tenant < counts.len() {
        counts[tenant] = counts[tenant].saturating_add(1);
    }
}

// The answer to one of the tenant that asks for a place, counted if it gets none; `None` if there is no such tenant.
fn ask(counter: &mut Counter, tenant: usize) -> Option<Admission>
    ensures asked { MatchOption result
        ((has_tenant tenant counter.old.lending ≡ false) × (counter.new.lending ≡ counter.old.lending))
        (λ admission. (has_tenant tenant counter.old.lending ≡ true) × IsAdmitted tenant counter.old.lending admission
        × (counter.new.lending ≡ asked_for tenant counter.old.lending)) }
    ensures missed { counter.new.missed.items ≡ missed_by result tenant counter.old.missed.items }
    ensures unanswered { counter.new.unanswered ≡ counter.old.unanswered }
{
    // There are as many tenants as bells, which the lock's type can't say.
    if tenant >= counter.lending.tenants() {
        return None;
    }
    let admission = counter.lending.ask(tenant);
    if admission == Admission::Full {
        raise(&mut counter.missed, tenant);
    }
    Some(admission)
}

// Whether a place was kept for one of the tenant that waited.
fn picks_up(counter: &mut Counter, tenant: usize) -> bool
    ensures kept { result ≡ is_kept_for tenant counter.old.lending }
    ensures lending { counter.new.lending ≡ after_look tenant counter.old.lending }
    ensures missed { counter.new.missed ≡ counter.old.missed }
    ensures unanswered { counter.new.unanswered ≡ counter.old.unanswered }
{
    tenant < counter.lending.tenants() && counter.lending.pick_up(tenant)
}

// One of the tenant waits no longer, and got no place.
fn give_up(counter: &mut Counter, tenant: usize)
    ensures lending { counter.new.lending ≡ without_one tenant counter.old.lending }
    ensures missed { counter.new.missed.items ≡ raised_at tenant counter.old.missed.items }
    ensures unanswered { counter.new.unanswered ≡ counter.old.unanswered }
{
    if tenant < counter.lending.tenants() {
        counter.lending.give_up(tenant);
    }
    raise(&mut counter.missed, tenant);
}

// The tenant's use of the places; `None` if there is no such tenant.
fn use_in(counter: &Counter, tenant: usize) -> Option<PlaceUse>
    ensures told { IfSome result (λ told. told ≡ record {
      share = counter.now.lending.loans.share;
      used = used_by tenant counter.now.lending.loans;
      waiting = waiting_of tenant counter.now.lending;
      missed = slice_index counter.now.missed.items tenant;
      unanswered = slice_index counter.now.unanswered.items tenant;
    }) }
    ensures there { result ≡ None → has_tenant tenant counter.now.lending ≡ true → tenant < length counter.now.missed.items
        → ¬ (tenant < length counter.now.unanswered.items) }
{
    let lending = &counter.lending;
    if tenant >= lending.tenants() {
        return None;
    }
    Some(PlaceUse {
        share: lending.share(),
        used: lending.used_by(tenant),
        waiting: lending.waiting_of(tenant),
        missed: *counter.missed.get(tenant)?,
        unanswered: *counter.unanswered.get(tenant)?,
    })
}

// The tenant of one that waits, for whom the place is kept. Counts a packet that got no answer.
fn came_back(counter: &mut Counter, tenant: usize, is_answered: bool) -> Option<usize>
    ensures back { has_place tenant counter.old.lending ≡ true → IsPlaceBack tenant counter.old.lending result counter.new.lending }
    ensures none { has_place tenant counter.old.lending ≡ false
        → (result ≡ None) × (counter.new.lending ≡ counter.old.lending) }
    ensures missed { counter.new.missed ≡ counter.old.missed }
    ensures unanswered { counter.new.unanswered.items ≡ unless_answered is_answered tenant counter.old.unanswered.items }
{
    if !is_answered {
        raise(&mut counter.unanswered, tenant);
    }
    let lending = &mut counter.lending;
    if tenant < lending.tenants() && lending.uses(tenant) {
        return lending.give_back(tenant);
    }
    None
}
