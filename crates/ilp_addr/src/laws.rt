//! Laws of addresses, prefixes, targets and timestamps, each the contract of a function that does nothing.

ghost use Rattle.ilp_addr.specs.Laws.{AddressLaws, PrefixLaws, PrefixWordLaws, TargetLaws, TimestampLaws};

/// What is read as an address is one, and each address is read. (RFC 0015, "Address Requirements")
pub fn addresses()
    ensures { AddressLaws }
{}

/// What is read as a prefix is one, and each prefix is read; the test of segments says whether a
/// prefix begins an address. (RFC 0015, "Address Prefixes")
pub fn prefixes()
    ensures { PrefixLaws }
{}

/// A prefix is read as itself, and has no space. (RFC 0015, "Address Prefixes")
pub fn prefix_words()
    ensures { PrefixWordLaws }
{}

/// What is read as a target is one, and each target is read; a URL and a token have one at most. (RFC 0035)
pub fn targets()
    ensures { TargetLaws }
{}

/// What is read as an expiry is a timestamp, and each timestamp is read; one timestamp names each
/// moment, and is read as that moment. (RFC 0027, "ILP Prepare")
pub fn timestamps()
    ensures { TimestampLaws }
{}
