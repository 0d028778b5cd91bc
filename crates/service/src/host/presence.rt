//! The present setup of a service.

ghost use Rattle.std.specs.Prelude.{◌≡◌, ◌<◌, ◌≤◌, ℕ, IfOk};
ghost use Rattle.service.specs.Presence.{ArePresent, IsPresent, IsPresentText, IsTenantText};

use crate::office::Office;
use admin_text::write_setup;
use one_list::Run;
use std::alloc::{AllocError, Global};
use std::sync::Wait;
use std::time::Clock;
use tenant_core::TenantSetup;
use workers::place_after;

// The tenant as it is now, with the token of its operator, once what led to that is kept.
fn present_setup<'x, H: Wait + Clock, J: Run>(
    handle: &'x H,
    alloc: Global,
    office: &'x Office<J>,
    tenant: usize,
) -> Result<TenantSetup, AllocError>
    requires { tenant < office.now.books.tenants }
    ensures { IfOk result (λ setup. IsPresent J.openings office.now tenant setup) }
{
    let admin = office.terms[tenant].admin.copy();
    let guard = office.books.enter(handle, tenant);
    let setup = guard.book().present_setup(alloc, admin)?;
    let place = place_after(guard.book());
    drop(guard);
    office.await_kept(handle, place)?;
    Ok(setup)
}

// All tenants as they are now, in their order, one after the other.
fn present_setups<'x, H: Wait + Clock, J: Run>(
    handle: &'x H,
    alloc: Global,
    office: &'x Office<J>,
) -> Result<Vec<TenantSetup>, AllocError>
    ensures { IfOk result (λ setups. ArePresent J.openings office.now setups.items) }
{
    let tenants = office.books.tenants();
    let mut setups = Vec::with_capacity(alloc, tenants)?;
    for tenant in 0..tenants {
        setups.push_reserved(present_setup(handle, alloc, office, tenant)?);
    }
    Ok(setups)
}

/// The text of the present setup of all tenants, one after the other: each peer with what it owes now, the routes, the rates
/// and the limits, and the tokens. What is held is in no balance. The tenants' clocks begin as they began before. All that it shows
/// is kept, if a journal on disk is. Fails only if it is out of memory, or if it is not known whether that is kept.
pub fn present_text<'x, H: Wait + Clock, J: Run>(
    handle: &'x H,
    alloc: Global,
    office: &'x Office<J>,
) -> Result<Vec<u8>, AllocError>
    ensures { IfOk result (λ text. IsPresentText J.openings office.now text.items) }
{
    let setups = present_setups(handle, alloc, office)?;
    let text = write_setup(alloc, office.start, setups.as_slice())?;
    Ok(text.into_bytes())
}

/// The text of the present setup of one tenant, as `present_text` writes it. Fails as that does.
pub fn tenant_text<'x, H: Wait + Clock, J: Run>(
    handle: &'x H,
    alloc: Global,
    office: &'x Office<J>,
    tenant: usize,
) -> Result<Vec<u8>, AllocError>
    requires { tenant < office.now.books.tenants }
    ensures { IfOk result (λ text. IsTenantText J.openings office.now tenant text.items) }
{
    let setup = present_setup(handle, alloc, office, tenant)?;
    let text = write_setup(alloc, office.start, &[setup])?;
    Ok(text.into_bytes())
}
