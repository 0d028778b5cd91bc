//! The numbers of a journal's pairs, by the names of their files.

ghost use Rattle.std.specs.Prelude.{◌≡◌, ◌==◌, ◌++◌, ℕ, Option, IfOk, OnOk, IfSome, IsNone, ◌↔◌, [], Some};
ghost use Rattle.std.specs.List.{slice_split};
ghost use Rattle.std.specs.Option.{option_to_list};
ghost use Rattle.log_folder.specs.Folder.{AreBases, IsBaseName, IsNumber, IsNumbered, IsGreatest, without};

use std::alloc::{AllocError, Global};

// The number that a word spells, in one of the ways to spell it.
fn parsed(word: &[u8]) -> Option<u64>
    ensures { (number : ℕ) → IsNumber word.now number → result ≡ Some number }
{
    match str::from_utf8(word) {
        Ok(text) => text.parse::<u64>().ok(),
        Err(_) => None,
    }
}

// The number that is written so, without leading zeros.
fn number_in(alloc: Global, word: &[u8]) -> Result<Option<u64>, AllocError>
    ensures only { IfOk result (λ found. IfSome found (λ number. IsNumber word.now number)) }
    ensures found { IfOk result (λ found. (number : ℕ) → IsNumber word.now number → found ≡ Some number) }
{
    let Some(number) = parsed(word) else {
        return Ok(None);
    };
    if number.to_string(alloc)?.as_bytes() == word {
        Ok(Some(number))
    } else {
        Ok(None)
    }
}

// The number of the pair whose base has that name.
fn base_number(alloc: Global, name: &[u8]) -> Result<Option<u64>, AllocError>
    ensures only { IfOk result (λ found. IfSome found (λ number. IsBaseName name.now number)) }
    ensures found { IfOk result (λ found. (number : ℕ) → IsBaseName name.now number → found ≡ Some number) }
{
    match name.strip_suffix(b".base".as_slice()) {
        Some(word) => number_in(alloc, word),
        None => Ok(None),
    }
}

// Puts the number of the pair whose base has that name.
fn put_base(alloc: Global, name: &[u8], bases: &mut Vec<u64>) -> Result<(), AllocError>
    ensures { OnOk result ((found : Option ℕ) × IsNumbered name.now found
        × (bases.new.items ≡ bases.old.items ++ option_to_list found)) }
{
    if let Some(number) = base_number(alloc, name)? {
        bases.push(number)?;
    }
    Ok(())
}

/// The numbers of the pairs whose bases are among these names. A zero byte is after each name.
pub(crate) fn bases_in(alloc: Global, names: &[u8]) -> Result<Vec<u64>, AllocError>
    ensures { IfOk result (λ bases. AreBases (slice_split (λ b. b == 0) names.now) bases.items) }
{
    let mut bases = Vec::new(alloc);
    for name in names.split(|byte| *byte == 0) {
        put_base(alloc, name, &mut bases)?;
    }
    Ok(bases)
}

/// The greatest of these numbers.
pub(crate) fn greatest(numbers: &[u64]) -> Option<u64>
    ensures some { IfSome result (λ number. IsGreatest numbers.now number) }
    ensures none { IsNone result ↔ (numbers.now ≡ []) }
{
    numbers.iter().copied().max()
}

/// Takes a number out of these.
pub(crate) fn forget(numbers: &mut Vec<u64>, number: u64)
    ensures { numbers.new.items ≡ without number numbers.old.items }
{
    numbers.retain(|other| *other != number);
}
