//! Which next peers rest, since they gave no answer.

use crate::connection::timed::millis_of;
use breaker::{Outcome, Pass, PeerTable};
use ilp_addr::Target;
use std::alloc::{AllocError, Global};
use std::sync::{Mutex, Wait};
use std::time::{Clock, Instant};

/// How many peers of a tenant rest, and how many of its packets were not sent since their peers did.
#[derive(Clone, Copy, Debug, PartialEq, Eq)]
pub struct BreakerUse {
    pub resting: u64,
    pub skipped: u64,
}

/// The breakers of each tenant's peers, behind a lock for each tenant: so no tenant waits for another's. Their moments count from
/// the beginning of the service.
#[derive(Drop)]
pub struct Breakers {
    begun: Instant,
    tenants: Vec<Mutex<PeerTable>>,
}

impl Breakers {
    /// The breakers of so many tenants, of a service that begins at that moment. Those of other tenants let each packet go on.
    /// Fails only if it is out of memory.
    pub fn new(alloc: Global, begun: Instant, tenants: usize) -> Result<Breakers, AllocError> {
        let mut all = Vec::with_capacity(alloc, tenants)?;
        for _ in 0..tenants {
            all.push_reserved(Mutex::new(PeerTable::new(alloc)));
        }
        Ok(Breakers {
            begun,
            tenants: all,
        })
    }

    // For how many milliseconds the service has run; none if the clock can't be read.
    fn age(&self, clock: &impl Clock) -> u64 {
        match Instant::now(clock) {
            Ok(now) => millis_of(now.saturating_duration_since(self.begun)),
            Err(_) => 0,
        }
    }

    /// The pass for one packet of the tenant to the peer of that target; `None` if the peer rests. The caller reports each pass by
    /// `learn`.
    pub fn ask<R: Wait + Clock>(&self, rt: &R, tenant: usize, target: &Target) -> Option<Pass> {
        let Some(table) = self.tenants.get(tenant) else {
            return Some(Pass::Usual);
        };
        let now = self.age(rt);
        table.lock(rt).ask(target, now)
    }

    /// Learns what became of a packet of the tenant to the peer of that target, which had that pass.
    pub fn learn<R: Wait + Clock>(
        &self,
        rt: &R,
        tenant: usize,
        target: &Target,
        pass: Pass,
        outcome: Outcome,
    ) {
        if let Some(table) = self.tenants.get(tenant) {
            let now = self.age(rt);
            // If it is out of memory, packets to the peer go on as ever.
            let _ = table.lock(rt).learn(target, pass, outcome, now);
        }
    }

    /// What the tenant's breakers do now; `None` if it has none.
    pub fn use_by<R: Wait>(&self, rt: &R, tenant: usize) -> Option<BreakerUse> {
        let table = self.tenants.get(tenant)?.lock(rt);
        Some(BreakerUse {
            resting: table.resting() as u64,
            skipped: table.skipped(),
        })
    }
}
