//! Laws of the spellings, each the contract of a function that does nothing.

ghost use Rattle.oer_core.specs.Laws.{LengthLaws, NumberLaws, WritingLaws};

/// A length is read exactly as it is spelled. No spelling of a length begins another, and the
/// shortest is one. (RFC 0030)
pub fn lengths()
    ensures { LengthLaws }
{}

/// A number of eight bytes is read exactly as it is spelled. (RFC 0030)
pub fn numbers()
    ensures { NumberLaws }
{}

/// Two writes, one right after the other, equal one write of both. A value that this crate wrote at
/// a place is read back from there, with the bytes after it.
pub fn writings()
    ensures { WritingLaws }
{}
