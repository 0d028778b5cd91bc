//! How many places each tenant uses.

ghost use Rattle.std.specs.Prelude.{◌≡◌, ◌+◌, ◌*◌, ◌/◌, ◌<◌, ◌≤◌, length, nat_lt, replicate, IfOk, IsTrue, if◌then◌else◌};
ghost use Rattle.allotment.specs.Loans.{max_tenants, max_places, IsCovered, asked_by, free_of, given_back_by, is_granted, share_of, used_by};

use std::alloc::{AllocError, Global};
use std::marker::Model;

/// The most places.
pub const MAX_PLACES: usize = 64;

/// How many of the places each tenant uses. Contracts see it as `Loans`.
///
/// Each tenant is sure of its share: a tenant that uses less gets a place at once, whatever the others use. What no
/// tenant is owed, anyone may have. The calls cost the same for any number of tenants.
#[derive(Drop)]
pub struct Allotment {
    places: usize,
    share: usize,
    used: Vec<usize>,
    free: usize,
    owed: usize,
}

// Of how many places each tenant is sure.
fn share_of(places: usize, tenants: usize) -> usize
    requires tenants { (1 ≤ tenants) × (tenants ≤ max_tenants) }
    ensures share { result ≡ share_of places tenants }
    ensures enough { result * tenants ≤ places }
{
    if places < tenants {
        return 0;
    }
    let half = places / (2 * tenants);
    half.max(1)
}

impl Model for Allotment {
    ghost use Rattle.allotment.specs.Loans.{Loans};

    ghost Value = { Loans };

    ghost use Rattle.allotment.specs.LoansKept.{AllotmentInvariant, loans_of};

    ghost view = { loans_of };

    ghost invariant = { AllotmentInvariant };
}

impl Allotment {
    ghost use Rattle.std.specs.Prelude.{◌≡◌, ◌+◌, ◌*◌, ◌/◌, ◌<◌, ◌≤◌, length, nat_lt, replicate, IfOk, IsTrue, if◌then◌else◌};
    ghost use Rattle.allotment.specs.Loans.{max_tenants, max_places, IsCovered, asked_by, free_of, given_back_by, is_granted, share_of, used_by};

    /// Places that nobody uses. Each tenant is sure of half of an equal part of them, rounded down, and of one at
    /// least, unless there are fewer places than tenants. The rest is for anyone. Fails only if it is out of memory.
    pub fn new(alloc: Global, places: usize, tenants: usize) -> Result<Allotment, AllocError>
        requires tenants { (1 ≤ tenants) × (tenants ≤ max_tenants) }
        requires places { (1 ≤ places) × (places ≤ max_places) }
        ensures { IfOk result (λ made. made ≡ record {
          places = places;
          share = share_of places tenants;
          used = replicate tenants 0;
        }) }
    {
        let used = vec![in alloc; 0; tenants]?;
        let share = share_of(places, tenants);
        Ok(Allotment {
            places,
            share,
            used,
            free: places,
            owed: share * tenants,
        })
    }

    /// How many tenants there are: their numbers are those below.
    pub fn tenants(&self) -> usize
        ensures { result ≡ length self.now.used }
    {
        self.used.len()
    }

    /// Of how many places each tenant is sure: what is free covers what they may still take up to that.
    pub fn share(&self) -> usize
        ensures value { result ≡ self.now.share }
        ensures covered { IsCovered self.now }
    {
        self.share
    }

    /// How many places the tenant uses.
    pub fn used_by(&self, tenant: usize) -> usize
        requires { tenant < length self.now.used }
        ensures { result ≡ used_by tenant self.now }
    {
        self.used[tenant]
    }

    /// How many places nobody uses.
    pub fn free(&self) -> usize
        ensures value { result ≡ free_of self.now }
        ensures covered { IsCovered self.now }
    {
        self.free
    }

    /// Takes a place for the tenant, and says whether it got one. Nothing changes otherwise.
    pub fn try_take(&mut self, tenant: usize) -> bool
        requires { tenant < length self.old.used }
        ensures exact { result ≡ is_granted tenant self.old }
        ensures sure { used_by tenant self.old < self.old.share → IsTrue result }
        ensures taken { self.new ≡ asked_by tenant self.old }
        ensures free { free_of self.new + (if result then 1 else 0) ≡ free_of self.old }
        ensures few { used_by tenant self.new ≤ max_places }
        ensures covered { IsCovered self.new }
    {
        let used = self.used[tenant];
        if used < self.share {
            self.used[tenant] = used + 1;
            self.free -= 1;
            self.owed -= 1;
            true
        } else if self.owed < self.free {
            self.used[tenant] = used + 1;
            self.free -= 1;
            true
        } else {
            false
        }
    }

    /// Takes back a place that the tenant uses, and says whether anyone may have it. Otherwise it is only for the
    /// tenant (`laws::given_to_itself`).
    pub fn give_back(&mut self, tenant: usize) -> bool
        requires tenant { tenant < length self.old.used }
        requires uses { 0 < used_by tenant self.old }
        ensures given { self.new ≡ given_back_by tenant self.old }
        ensures common { result ≡ nat_lt self.old.share (used_by tenant self.old) }
        ensures free { free_of self.new ≡ free_of self.old + 1 }
        ensures covered { IsCovered self.new }
    {
        let used = self.used[tenant];
        self.used[tenant] = used - 1;
        self.free += 1;
        if used > self.share {
            return true;
        }
        self.owed += 1;
        false
    }
}
