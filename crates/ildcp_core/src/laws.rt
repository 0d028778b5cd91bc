//! Laws of configurations, each the contract of a function that does nothing.

ghost use Rattle.ildcp_core.specs.Below.{LawsBelow};
ghost use Rattle.ildcp_core.specs.Laws.{ConfigurationLaws};

/// The client address of a child is an address. The child's configuration is one of that address and
/// its asset, and of no other fields. A configuration has at most 954 bytes, an answer at most 993.
/// (RFC 0031)
pub fn configurations()
    ensures { ConfigurationLaws }
{
    laws_below();
}

// The laws of the crates below, for the proofs of this one.
pub(crate) fn laws_below()
    ensures { LawsBelow }
{
    oer_core::laws::lengths();
    oer_core::laws::writings();
}
