//! Versions of setups: which of their keys count.

ghost use Rattle.std.specs.Prelude.{◌≡◌};
ghost use Rattle.admin_text.specs.Versions.{version_numbered, has_fees};

/// The version of a setup.
#[derive(Clone, Copy)]
pub(crate) enum Version {
    One,
    /// As the first one, and a route may have a fee.
    Two,
}

/// The version of that number.
pub(crate) fn version_numbered(number: u64) -> Option<Version>
    ensures { result ≡ version_numbered number }
{
    match number {
        1 => Some(Version::One),
        2 => Some(Version::Two),
        _ => None,
    }
}

/// Whether the key `fee` of a route counts.
pub(crate) fn has_fees(version: Version) -> bool
    ensures { result ≡ has_fees version }
{
    match version {
        Version::One => false,
        Version::Two => true,
    }
}
