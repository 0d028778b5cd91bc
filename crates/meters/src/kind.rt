//! What is counted.

ghost use Rattle.std.specs.Prelude.{◌≡◌, ◌+◌, ◌*◌, ◌<◌};
ghost use Rattle.common_types.specs.declared.limits.TheConstants.{MAX_TENANTS};
ghost use Rattle.meters.specs.Counts.{place_of, word_of};

/// What is counted for a tenant.
#[derive(Clone, Copy, Debug, PartialEq, Eq)]
pub enum Kind {
    /// An answer with the status 200.
    Answered,
    /// An answer with a status from 400 to 499.
    ClientError,
    /// An answer with the status 503.
    Unavailable,
    /// A fault of a link.
    LinkFault,
}

// The place of a kind among the four words of a tenant.
fn place_of(kind: Kind) -> usize
    ensures value { result ≡ place_of kind }
    ensures small { result < 4 }
{
    match kind {
        Kind::Answered => 0,
        Kind::ClientError => 1,
        Kind::Unavailable => 2,
        Kind::LinkFault => 3,
    }
}

// The place of the count of a tenant and a kind.
pub(crate) fn word_of(tenant: usize, kind: Kind) -> usize
    requires { tenant < MAX_TENANTS }
    ensures value { result ≡ word_of tenant kind }
    ensures below { result < 4 * tenant + 4 }
{
    4 * tenant + place_of(kind)
}
