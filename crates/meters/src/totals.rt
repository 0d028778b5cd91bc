//! What was counted in all.

ghost use Rattle.std.specs.Prelude.{◌≡◌, ◌<◌, ◌≤◌};
ghost use Rattle.common_types.specs.declared.limits.TheConstants.{MAX_TENANTS};
ghost use Rattle.meters.specs.Seats.{total_of};

use crate::kind::{Kind, word_of};
use std::marker::Model;

/// How many of each kind were counted for each tenant, as `Meters::close` found it. Contracts see the number of tenants
/// and the counts.
#[derive(Drop)]
pub struct Totals {
    tenants: usize,
    counts: [u64; 256],
}

impl Model for Totals {
    ghost use Rattle.std.specs.Prelude.{◌≤◌};
    ghost use Rattle.common_types.specs.declared.limits.TheConstants.{MAX_TENANTS};
    ghost use Rattle.meters.specs.Seats.{TotalsState};

    ghost Value = { TotalsState };

    ghost view = { λ t. record { tenants = t.tenants; counts = t.counts } };

    ghost invariant = { λ t. t.tenants ≤ MAX_TENANTS };
}

impl Totals {
    // The totals with these counts, of at most 64 tenants.
    pub(crate) fn new(tenants: usize, counts: [u64; 256]) -> Totals
        requires { tenants ≤ MAX_TENANTS }
        ensures { result ≡ record { tenants = tenants; counts = counts } }
    {
        Totals { tenants, counts }
    }

    /// How many of this kind were counted for a tenant. The tenant is below the number of tenants of the meters that
    /// were closed.
    pub fn get(&self, tenant: usize, kind: Kind) -> u64
        requires { tenant < self.now.tenants }
        ensures { result ≡ total_of tenant kind self.now }
    {
        let row = &self.counts;
        row[word_of(tenant, kind)]
    }
}
