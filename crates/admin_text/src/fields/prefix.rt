//! Prefixes as operators write them.

ghost use Rattle.std.specs.Prelude.{◌≡◌, IsOk, IsSome, IfOk, IfSome, OnErr, OnOk, option_and_then};
ghost use Rattle.toml.specs.View.{table_view};
ghost use Rattle.common_types.specs.Outcomes.{GivesUnlessMemory, OnMemory};
ghost use Rattle.admin_text.specs.Fields.{PREFIX, IsPut, field_taken};
ghost use Rattle.admin_text.specs.Keys.{string_under};
ghost use Rattle.admin_text.specs.Outcomes.{known_value};
ghost use Rattle.admin_text.specs.Prefixes.{prefix_word, written_prefix};

use crate::commands::TextFault;
use crate::expected::Expected;
use crate::keys::text_under;
use crate::words::put_word;
use crate::wrong::Wrong;
use common_types::{ReadError, Words};
use ilp_addr::Prefix;
use std::alloc::{AllocError, Global};
use toml::Table;

// The prefix that a text spells, `None` if it spells none: `*` is the empty one.
#[tactic(auto, unfolding(crate::specs::Prefixes::written_prefix))]
fn written_prefix(alloc: Global, text: &[u8]) -> Result<Option<Prefix>, AllocError>
    ensures exact { IfOk result (λ prefix. prefix ≡ written_prefix text.now) }
    // It runs out of memory only if the text spells one.
    ensures memory { OnErr result (IsSome (written_prefix text.now)) }
{
    if text.is_empty() {
        return Ok(None);
    }
    let spelled = if text == b"*".as_slice() { &[] } else { text };
    match Prefix::parse(alloc, spelled) {
        Ok(prefix) => Ok(Some(prefix)),
        Err(ReadError::Fault(_)) => Ok(None),
        Err(ReadError::Memory) => Err(AllocError),
    }
}

/// The word of a prefix.
pub(crate) fn prefix_text(prefix: &Prefix) -> &[u8]
    ensures { result.now ≡ prefix_word prefix.now }
{
    match prefix.bytes() {
        [] => b"*",
        bytes => bytes,
    }
}

/// The prefix at a key.
pub(crate) fn prefix_under<'a>(
    alloc: Global,
    table: &'a Table,
    key: &'a str,
) -> Result<Prefix, ReadError<Wrong<'a>>>
    ensures { IfSome (known_value result) (λ prefix. prefix ≡
        option_and_then written_prefix (string_under key.now (table_view table.now))) }
{
    let text = text_under(table, key, Expected::Prefix)?;
    match written_prefix(alloc, text.as_bytes())? {
        Some(prefix) => Ok(prefix),
        None => Err(ReadError::Fault(Wrong::at(table, key, Expected::Prefix))),
    }
}

/// The prefix at the front of words.
#[tactic(auto, unfolding(crate::specs::Fields::field_taken))]
pub(crate) fn next_prefix(
    alloc: Global,
    words: Words<'_>,
) -> Result<(Prefix, Words<'_>), ReadError<TextFault>>
    ensures exact { GivesUnlessMemory (λ p. p) result (field_taken PREFIX words.entry) }
    ensures memory { OnMemory result (IsOk (field_taken PREFIX words.entry)) }
{
    let Some((word, words)) = words.split_first() else {
        return Err(ReadError::Fault(TextFault::Argument));
    };
    match written_prefix(alloc, word)? {
        Some(prefix) => Ok((prefix, words)),
        None => Err(ReadError::Fault(TextFault::Argument)),
    }
}

/// Appends the word of a prefix.
pub(crate) fn put_prefix(out: &mut Vec<u8>, prefix: &Prefix) -> Result<(), AllocError>
    ensures { OnOk result (IsPut PREFIX prefix.now out.old.items out.new.items) }
{
    ilp_addr::laws::prefix_words();
    match prefix.bytes() {
        [] => put_word(out, b"*"),
        bytes => put_word(out, bytes),
    }
}
