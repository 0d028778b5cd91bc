//! The tenants of the services here.

ghost use Rattle.std.specs.Prelude.{◌≡◌};
ghost use Rattle.connector_tests.specs.Tenants.{tenant_named};

/// The number of the tenant of that name: acme is the first, and beta the second.
pub(crate) fn tenant_named(name: &[u8]) -> Option<usize>
    ensures { result ≡ tenant_named name.now }
{
    if name == b"acme".as_slice() {
        Some(0)
    } else if name == b"beta".as_slice() {
        Some(1)
    } else {
        None
    }
}
