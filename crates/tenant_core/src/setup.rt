//! Setups of tenants, within their limits.

use crate::limits::{MAX_HOLD, MAX_JOURNAL, MAX_MARGIN};
use crate::terms::TenantTerms;

/// The terms of a tenant within the limits of a setup: a journal of 2 to 16,384 places, a margin of at most 60,000
/// and a hold of 1 to 600,000 milliseconds.
#[derive(Drop)]
pub struct TenantSetup {
    terms: TenantTerms,
}

impl std::marker::Model for TenantSetup {
    ghost use Rattle.std.specs.Prelude.{◌≡◌, true};
    ghost use Rattle.tenant_core.specs.declared.terms.TenantTerms.{TenantTerms};
    ghost use Rattle.tenant_core.specs.Setup.{is_tenant_setup};
    ghost use Rattle.std.specs.Coded.{codes};
    ghost use Rattle.route_table.specs.contracts.routes.Routes as routes;

    ghost Value = { TenantTerms };

    ghost coded = { Prim.hlevel (codes, routes.the_row.coded) };

    ghost view = { λ s. s.terms };

    ghost invariant = { λ s. is_tenant_setup s.terms ≡ true };
}

impl TenantSetup {
    ghost use Rattle.std.specs.Prelude.{◌≡◌, Some, None, true, if◌then◌else◌};
    ghost use Rattle.tenant_core.specs.Setup.{is_tenant_setup};

    /// The setup of these terms, unless a limit is broken.
    pub fn new(terms: TenantTerms) -> Option<TenantSetup>
        ensures { result ≡ (if is_tenant_setup terms then Some terms else None) }
    {
        if 2 <= terms.journal
            && terms.journal <= MAX_JOURNAL
            && terms.margin <= MAX_MARGIN
            && 1 <= terms.hold
            && terms.hold <= MAX_HOLD
        {
            Some(TenantSetup { terms })
        } else {
            None
        }
    }

    /// What the setup says.
    pub fn terms(&self) -> &TenantTerms
        ensures same { result.now ≡ self.now }
        ensures within { is_tenant_setup result.now ≡ true }
    {
        &self.terms
    }
}
