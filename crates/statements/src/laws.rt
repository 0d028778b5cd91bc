//! Laws of statements, each the contract of a function that does nothing.

ghost use Rattle.statements.specs.ReadBack.{ReadBackLaws};

/// What is written of an opening's lines and of records is read back, but for the tokens and the targets of peers, which no
/// statement has.
pub fn read_back()
    ensures { ReadBackLaws }
{
    common_types::laws::numerals();
    ilp_addr::laws::addresses();
    ilp_addr::laws::prefix_words();
}
