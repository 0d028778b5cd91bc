//! Laws of the texts of a journal, each the contract of a function that does nothing.

ghost use Rattle.book_log.specs.Laws.{LineLaws};
ghost use Rattle.book_log.specs.OneBase.{OneBaseLaw};

/// A line that is written of a record says its place and its entry, also the token and the target of a peer that it adds. If
/// the line is taken up, then as that record.
pub fn lines_are_read_back()
    ensures { LineLaws }
{
    common_types::laws::numerals();
    ilp_addr::laws::targets();
    statements::laws::read_back();
}

/// A base of tenants at the beginning of a period is the text of those tenants only, and has one sum.
pub fn one_base()
    ensures { OneBaseLaw }
{
    common_types::laws::numerals();
    ilp_addr::laws::targets();
    statements::laws::read_back();
}
