//! The words of commands, read and written one after the other.

ghost use Rattle.std.specs.Prelude.{◌≡◌, ◌++◌, ◌∷◌, [], OnOk, true};
ghost use Rattle.std.specs.Fmt.{decimal};
ghost use Rattle.common_types.specs.Words.{words_of};
ghost use Rattle.admin_text.specs.Fields.{NUMBER, IsPut, field_taken};
ghost use Rattle.admin_text.specs.Taken.{ended};
ghost use Rattle.admin_text.specs.Spaces.{is_spaceless};

use crate::commands::TextFault;
use common_types::{Between, NumberFault, Words, number_in};
use std::alloc::{AllocError, Global};

/// The number within limits at the front of words.
#[tactic(auto, unfolding(crate::specs::Fields::field_taken, crate::specs::Taken::number_taken))]
pub(crate) fn next_number<const LOW: u64, const HIGH: u64>(
    words: Words<'_>,
) -> Result<(Between<LOW, HIGH>, Words<'_>), TextFault>
    ensures { result ≡ field_taken (NUMBER LOW HIGH) words.entry }
{
    let (word, words) = words.split_first().ok_or(TextFault::Argument)?;
    match number_in(word) {
        Ok(number) => Ok((number, words)),
        Err(NumberFault::Malformed) => Err(TextFault::Argument),
        Err(NumberFault::Outside) => Err(TextFault::Range),
    }
}

/// That no word is left.
#[tactic(auto, unfolding(crate::specs::Taken::ended))]
pub(crate) fn end(words: Words<'_>) -> Result<(), TextFault>
    ensures { result ≡ ended words.entry }
{
    match words.split_first() {
        None => Ok(()),
        Some(_) => Err(TextFault::Argument),
    }
}

/// Appends a space and a word.
pub(crate) fn put_word(out: &mut Vec<u8>, word: &[u8]) -> Result<(), AllocError>
    requires { is_spaceless word.now ≡ true }
    ensures { OnOk result (words_of out.new.items ≡ words_of out.old.items ++ word.now ∷ []) }
{
    out.push(b' ')?;
    out.extend_from_slice(word)?;
    Ok(())
}

/// Appends a number.
pub(crate) fn put_number(alloc: Global, out: &mut Vec<u8>, number: u64) -> Result<(), AllocError>
    ensures { OnOk result (words_of out.new.items ≡ words_of out.old.items ++ decimal number ∷ []) }
{
    common_types::laws::numerals();
    let text = number.to_string(alloc)?;
    put_word(out, text.as_bytes())
}

/// Appends a number within limits.
pub(crate) fn put_between<const LOW: u64, const HIGH: u64>(
    alloc: Global,
    out: &mut Vec<u8>,
    number: Between<LOW, HIGH>,
) -> Result<(), AllocError>
    ensures { OnOk result (IsPut (NUMBER LOW HIGH) number.entry out.old.items out.new.items) }
{
    put_number(alloc, out, number.get())
}
