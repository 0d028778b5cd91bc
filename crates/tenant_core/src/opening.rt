//! What a period begins with.

use crate::network::Network;
use crate::setup::TenantSetup;
use common_types::Name;
use ilp_addr::{Moment, OwnAddress};
use std::alloc::{AllocError, Global};

/// A tenant as a period finds it.
#[derive(Drop)]
pub struct Opening {
    /// The tenant's place among all tenants.
    pub tenant: usize,
    pub name: Name,
    /// The tenant's own address.
    pub address: OwnAddress,
    /// How many places the journal has.
    pub journal: u64,
    /// The milliseconds by which an expiry is moved earlier, and for which a packet may be held at most.
    pub margin: u64,
    pub hold: u64,
    pub period: u64,
    /// Milliseconds since 1970-01-01.
    pub clock: u64,
    /// The number of the next packet that is held.
    pub next_hold: u64,
    pub network: Network,
}

impl Opening {
    ghost use Rattle.std.specs.Prelude.{◌≡◌, IfOk};
    ghost use Rattle.tenant_core.specs.State.{opening_of};

    /// The opening of a tenant's first period, which starts at that moment. The tenant is at that place among all
    /// tenants. Fails only if it is out of memory.
    pub fn first(
        alloc: Global,
        tenant: usize,
        setup: &TenantSetup,
        start: Moment,
    ) -> Result<Opening, AllocError>
        ensures { IfOk result (λ opening. opening ≡ opening_of tenant setup.now start) }
    {
        let terms = setup.terms();
        let clock = start.millis();
        let mut network = terms.network.copy(alloc)?;
        network.begin(clock);
        Ok(Opening {
            tenant,
            name: terms.name.copy(),
            address: terms.address.copy(),
            journal: terms.journal,
            margin: terms.margin,
            hold: terms.hold,
            period: 0,
            clock,
            next_hold: 0,
            network,
        })
    }

    /// A copy of the opening. Fails only if it is out of memory.
    pub fn copy(&self, alloc: Global) -> Result<Opening, AllocError>
        ensures { IfOk result (λ copy. copy ≡ self.now) }
    {
        let network = self.network.copy(alloc)?;
        Ok(Opening {
            tenant: self.tenant,
            name: self.name.copy(),
            address: self.address.copy(),
            journal: self.journal,
            margin: self.margin,
            hold: self.hold,
            period: self.period,
            clock: self.clock,
            next_hold: self.next_hold,
            network,
        })
    }
}
