//! The place of each period.

ghost use Rattle.std.specs.Prelude.{◌≡◌, ◌<◌, ℕ, None, Some, IfOk, OnOk};
ghost use Rattle.tenant_core.specs.Limits.{max_tenants};

use std::alloc::{AllocError, Global};
use std::collections::BTreeMap;
use tenant_core::limits::MAX_TENANTS;

/// The places of each tenant's periods, by their numbers.
#[derive(Drop)]
pub(crate) struct Index {
    places: Vec<BTreeMap<u64, usize>>,
}

impl Index {
    ghost use Rattle.receipts.specs.Layout.{HasMapPerTenant, place_in};

    /// No periods.
    pub(crate) fn new(alloc: Global) -> Result<Index, AllocError>
        ensures index { IfOk result HasMapPerTenant }
        ensures none { IfOk result (λ index. (tenant number : ℕ) → place_in index tenant number ≡ None) }
    {
        let mut places = Vec::with_capacity(alloc, MAX_TENANTS)?;
        for _ in 0..MAX_TENANTS {
            places.push_reserved(BTreeMap::new(alloc));
        }
        Ok(Index { places })
    }

    /// The place of the tenant's period of that number.
    pub(crate) fn place(&self, tenant: usize, number: u64) -> Option<usize>
        requires { HasMapPerTenant self.now }
        ensures { result ≡ place_in self.now tenant number }
    {
        self.places.get(tenant)?.get(&number).copied()
    }

    /// Notes the place of the tenant's period of that number.
    pub(crate) fn insert(
        &mut self,
        tenant: usize,
        number: u64,
        place: usize,
    ) -> Result<(), AllocError>
        requires index { HasMapPerTenant self.old }
        requires tenant { tenant < max_tenants }
        ensures index { OnOk result (HasMapPerTenant self.new) }
        ensures there { OnOk result (place_in self.new tenant number ≡ Some place) }
        ensures others { OnOk result ((t n : ℕ) → ¬ ((t ≡ tenant) × (n ≡ number))
            → place_in self.new t n ≡ place_in self.old t n) }
    {
        match self.places[tenant].insert(number, place) {
            Ok(_) => Ok(()),
            Err(_) => Err(AllocError),
        }
    }
}
