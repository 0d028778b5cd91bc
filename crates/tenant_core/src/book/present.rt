//! A book's tenant as it is now.

ghost use Rattle.std.specs.Prelude.{◌≡◌, IfOk};
ghost use Rattle.tenant_core.specs.PresentSetup.{present_setup};

use super::Book;
use crate::periods::next_network;
use crate::setup::TenantSetup;
use crate::terms::TenantTerms;
use common_types::Token;
use std::alloc::{AllocError, Global};

impl Book {
    /// The tenant as it is now, with this token of its operator: its own terms, its peers with what they owe now, the
    /// routes and the rates. Amounts that are held are neither taken nor released. Fails only if it is out of memory.
    pub fn present_setup(&self, alloc: Global, admin: Token) -> Result<TenantSetup, AllocError>
        ensures { IfOk result (λ setup. setup ≡ present_setup self.now admin) }
    {
        self.is_sound();
        let network = next_network(alloc, &self.standing(), self.clock)?;
        let opening = &self.opening;
        let terms = TenantTerms {
            name: opening.name.copy(),
            address: opening.address.copy(),
            admin,
            journal: opening.journal,
            margin: opening.margin,
            hold: opening.hold,
            network,
        };
        Ok(TenantSetup::new(terms).unwrap())
    }
}
