//! Laws of the definitions, each the contract of a function that does nothing.

ghost use Rattle.common_types.specs.Numerals.{NumeralLaws};

/// Each number of up to 64 bits has one numeral, the one that is written for it.
pub fn numerals()
    ensures { NumeralLaws }
{}
