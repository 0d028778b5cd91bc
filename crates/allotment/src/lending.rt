//! Places that are lent, who waits for one, and whose turn it is.

ghost use Rattle.std.specs.Prelude.{◌≡◌, ◌+◌, ◌-◌, ◌<◌, ◌^◌, slice_index, slice_set, vec_len};
ghost use Rattle.allotment.specs.Waits.{tenant_behind};

use crate::allotted::Allotment;
use std::alloc::{AllocError, Global};
use std::marker::Model;

/// The answer to a tenant that asks for a place.
#[derive(Clone, Copy, Debug, PartialEq, Eq)]
pub enum Admission {
    /// It has one.
    Taken,
    /// One more of it waits.
    Waits,
    /// It has none, and as many of it wait as may.
    Full,
}

/// An allotment of places, and how many of each tenant wait for one. Contracts see it as `Queued`.
///
/// Nobody waits who could have a place: a place that comes back is kept at once for one that waits and may have it. So
/// a tenant that uses less than its share never waits, whatever the others use and however many of them wait.
///
/// The places that anyone may have are kept for waiting tenants in turn. Next is the first tenant after the one that
/// got the last such place. A place of a tenant's own share takes nobody's turn. Otherwise a tenant whose own place
/// comes and goes could bring the turn back to the tenants right after it each time, and another would wait for ever.
#[derive(Drop)]
pub struct Lending {
    loans: Allotment,
    most_waiting: usize,
    waiting: Vec<usize>,
    kept: Vec<usize>,
    // The tenant whose turn it is to have what anyone may have.
    turn: usize,
}

impl Model for Lending {
    ghost use Rattle.allotment.specs.Waits.{Queued};

    ghost Value = { Queued };

    ghost use Rattle.allotment.specs.WaitsKept.{IsQueue, queued_of};

    ghost view = { queued_of };

    ghost invariant = { λ l. IsQueue (queued_of l) };
}

impl Lending {
    ghost use Rattle.std.specs.Prelude.{◌≡◌, ◌↔◌, ◌<◌, ◌≤◌, ℕ, length, true, false, nat_lt, replicate, IfNone, IfOk, IfSome, IsTrue, if◌then◌else◌};
    ghost use Rattle.allotment.specs.Loans.{IsCovered, max_places, max_tenants, given_back_by, is_granted, share_of, used_by};
    ghost use Rattle.allotment.specs.WaitsKept.{IsQueue};
    ghost use Rattle.allotment.specs.Waits.{IsPlaceBack, IsNextInTurn, NobodyWaitsInVain, asked_for, given_up_by, kept_for, picked_up_by, waiting_of};

    /// Places that nobody uses, and how many of each tenant may wait for one. Each tenant is sure of its share
    /// (`Allotment::new`). Fails only if it is out of memory.
    pub fn new(
        alloc: Global,
        places: usize,
        tenants: usize,
        most_waiting: usize,
    ) -> Result<Lending, AllocError>
        requires tenants { (1 ≤ tenants) × (tenants ≤ max_tenants) }
        requires places { (1 ≤ places) × (places ≤ max_places) }
        ensures { IfOk result (λ made. made ≡ record {
          loans = record { places = places; share = share_of places tenants; used = replicate tenants 0 };
          most_waiting = most_waiting;
          waiting = replicate tenants 0;
          kept = replicate tenants 0;
          turn = 0;
        }) }
    {
        Ok(Lending {
            loans: Allotment::new(alloc, places, tenants)?,
            most_waiting,
            waiting: vec![in alloc; 0; tenants]?,
            kept: vec![in alloc; 0; tenants]?,
            turn: 0,
        })
    }

    /// How many tenants there are: their numbers are those below.
    pub fn tenants(&self) -> usize
        ensures { result ≡ length self.now.loans.used }
    {
        self.loans.tenants()
    }

    /// Of how many places each tenant is sure.
    pub fn share(&self) -> usize
        ensures { result ≡ self.now.loans.share }
    {
        self.loans.share()
    }

    /// What holds of every lending, as the laws ask for it. No more wait than may, and nobody waits who could have a
    /// place. The free places cover what is owed.
    pub fn is_queue(&self)
        ensures queue { IsQueue self.now }
        ensures covered { IsCovered self.now.loans }
    {
        let _turn = self.turn;
        self.loans.share();
    }

    /// How many places the tenant uses, those that are kept for one of it that waited included.
    pub fn used_by(&self, tenant: usize) -> usize
        requires { tenant < length self.now.loans.used }
        ensures { result ≡ used_by tenant self.now.loans }
    {
        self.loans.used_by(tenant)
    }

    /// How many of the tenant wait for a place.
    pub fn waiting_of(&self, tenant: usize) -> usize
        requires { tenant < length self.now.loans.used }
        ensures { result ≡ waiting_of tenant self.now }
    {
        self.waiting[tenant]
    }

    /// Asks for a place for the tenant.
    pub fn ask(&mut self, tenant: usize) -> Admission
        requires { tenant < length self.old.loans.used }
        ensures taken { (result ≡ Admission.Taken) ↔ IsTrue (is_granted tenant self.old.loans) }
        ensures sure { used_by tenant self.old.loans < self.old.loans.share → result ≡ Admission.Taken }
        ensures waits { (result ≡ Admission.Waits) ↔ ((is_granted tenant self.old.loans ≡ false) × (waiting_of tenant self.old < self.old.most_waiting)) }
        ensures asked { self.new ≡ asked_for tenant self.old }
    {
        if self.loans.try_take(tenant) {
            return Admission::Taken;
        }
        let waiting = self.waiting[tenant];
        if waiting >= self.most_waiting {
            return Admission::Full;
        }
        self.waiting[tenant] = waiting + 1;
        Admission::Waits
    }

    /// Whether a place is kept for one of the tenant that waited. It is the caller's from then on.
    pub fn pick_up(&mut self, tenant: usize) -> bool
        requires { tenant < length self.old.loans.used }
        ensures result { result ≡ nat_lt 0 (kept_for tenant self.old) }
        ensures picked { self.new ≡ (if result then picked_up_by tenant self.old else self.old) }
    {
        let kept = self.kept[tenant];
        if kept == 0 {
            return false;
        }
        self.kept[tenant] = kept - 1;
        true
    }

    /// One of the tenant waits no longer.
    pub fn give_up(&mut self, tenant: usize)
        requires { tenant < length self.old.loans.used }
        ensures { self.new ≡ given_up_by tenant self.old }
    {
        self.waiting[tenant] = self.waiting[tenant].saturating_sub(1);
    }

    /// Whether the tenant uses a place that isn't kept for one of it that waited.
    pub fn uses(&self, tenant: usize) -> bool
        requires { tenant < length self.now.loans.used }
        ensures { result ≡ nat_lt (kept_for tenant self.now) (used_by tenant self.now.loans) }
    {
        self.kept[tenant] < self.loans.used_by(tenant)
    }

    // The tenant that gets the place which the tenant gives back: the tenant itself if it uses no more than its share,
    // otherwise the one whose turn is next.
    fn next_after(&self, tenant: usize) -> Option<usize>
        requires tenant { tenant < length self.now.loans.used }
        requires uses { 0 < used_by tenant self.now.loans }
        ensures waits { IfSome result (λ next. 0 < waiting_of next self.now) }
        ensures there { IfSome result (λ next. next < length self.now.loans.used) }
        ensures granted { IfSome result (λ next. is_granted next (given_back_by tenant self.now.loans) ≡ true) }
        ensures own { IfSome result (λ next. used_by tenant self.now.loans ≤ self.now.loans.share → next ≡ tenant) }
        ensures in_turn { IfSome result (λ next. self.now.loans.share < used_by tenant self.now.loans → IsNextInTurn next self.now) }
        ensures nobody { IfNone result ((other : ℕ) → 0 < waiting_of other self.now
            → is_granted other (given_back_by tenant self.now.loans) ≡ false) }
    {
        if self.loans.used_by(tenant) > self.loans.share() {
            let next = self.whoever_waits()?;
            return Some(next);
        }
        if self.waits(tenant) {
            return Some(tenant);
        }
        None
    }

    // Whether one of the tenant waits.
    fn waits(&self, tenant: usize) -> bool
        requires { tenant < length self.now.loans.used }
        ensures { result ≡ nat_lt 0 (waiting_of tenant self.now) }
    {
        self.waiting[tenant] > 0
    }

    // The next in turn of the tenants of which some wait.
    fn whoever_waits(&self) -> Option<usize>
        ensures waits { IfSome result (λ next. 0 < waiting_of next self.now) }
        ensures there { IfSome result (λ next. next < length self.now.loans.used) }
        ensures in_turn { IfSome result (λ next. IsNextInTurn next self.now) }
        ensures none { IfNone result ((other : ℕ) → waiting_of other self.now ≡ 0) }
    {
        match self.first_of(self.turn, self.waiting.len()) {
            Some(next) => Some(next),
            None => self.first_of(0, self.turn),
        }
    }

    // The first of these tenants of which some wait.
    fn first_of(&self, from: usize, to: usize) -> Option<usize>
        requires { to ≤ length self.now.waiting }
        ensures waits { IfSome result (λ next. 0 < waiting_of next self.now) }
        ensures there { IfSome result (λ next. next < length self.now.loans.used) }
        ensures within { IfSome result (λ next. (from ≤ next) × (next < to)) }
        ensures first { IfSome result (λ next. (other : ℕ) → from ≤ other → other < next → waiting_of other self.now ≡ 0) }
        ensures none { IfNone result ((other : ℕ) → from ≤ other → other < to → waiting_of other self.now ≡ 0) }
    {
        for tenant in from..to {
            if self.waiting[tenant] > 0 {
                return Some(tenant);
            }
        }
        None
    }

    /// Takes back a place that the tenant uses, and keeps it for a tenant that waits and may have it. Returns the
    /// number of that tenant: the same tenant if it used no more than its share, otherwise the one whose turn is next.
    /// Only in the second case the turn passes on, to the tenant after that one (`laws::nearer_each_time`,
    /// `laws::last_from_then_on`).
    pub fn give_back(&mut self, tenant: usize) -> Option<usize>
        requires tenant { tenant < length self.old.loans.used }
        requires uses { kept_for tenant self.old < used_by tenant self.old.loans }
        ensures back { IsPlaceBack tenant self.old result self.new }
        ensures own { IfSome result (λ next. used_by tenant self.old.loans ≤ self.old.loans.share → next ≡ tenant) }
        ensures in_turn { IfSome result (λ next. self.old.loans.share < used_by tenant self.old.loans → IsNextInTurn next self.old) }
        ensures nobody { NobodyWaitsInVain self.new }
    {
        let next = self.next_after(tenant);
        let tenants = self.tenants();
        let common = self.loans.give_back(tenant);
        if let Some(next) = next {
            self.loans.try_take(next);
            lower(&mut self.waiting, next);
            raise(&mut self.kept, next);
            self.turn = if common {
                behind(next, tenants)
            } else {
                self.turn
            };
        }
        next
    }
}

// The tenant after this one of so many.
fn behind(tenant: usize, tenants: usize) -> usize
    requires { tenant < tenants }
    ensures behind { result ≡ tenant_behind tenant tenants }
    ensures there { result < tenants }
{
    if tenant + 1 == tenants {
        return 0;
    }
    tenant + 1
}

// One more at that place of a list.
fn raise(numbers: &mut Vec<usize>, at: usize)
    requires there { at < vec_len numbers.old }
    requires fits { slice_index numbers.old.items at + 1 < 2 ^ 64 }
    ensures { numbers.new.items ≡ slice_set numbers.old.items at (slice_index numbers.old.items at + 1) }
{
    numbers[at] += 1;
}

// One less at that place of a list.
fn lower(numbers: &mut Vec<usize>, at: usize)
    requires there { at < vec_len numbers.old }
    requires some { 0 < slice_index numbers.old.items at }
    ensures { numbers.new.items ≡ slice_set numbers.old.items at (slice_index numbers.old.items at - 1) }
{
    numbers[at] -= 1;
}
