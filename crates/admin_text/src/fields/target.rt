//! Where the packets to a peer go, and the token that they bear.

ghost use Rattle.std.specs.Prelude.{◌≡◌, OnOk};
ghost use Rattle.std.specs.Result.{result_ok};
ghost use Rattle.toml.specs.View.{table_view};
ghost use Rattle.admin_text.specs.Fields.{TARGET, IsPut, field_taken};
ghost use Rattle.admin_text.specs.Under.{under};
ghost use Rattle.admin_text.specs.Made.{IsSet};
ghost use Rattle.admin_text.specs.PeerFields.{target_keys};

use crate::commands::TextFault;
use crate::expected::Expected;
use crate::keys::text_under;
use crate::tables::set_text;
use crate::words::put_word;
use crate::wrong::Wrong;
use common_types::Words;
use ilp_addr::Target;
use std::alloc::{AllocError, Global};
use toml::Table;

/// The keys of its target.
pub(crate) const KEYS: [&str; 2] = ["url", "out_token"];

// With this token only a bad URL makes no target.
const ANY_TOKEN: &[u8] = b"t";

/// The target in a table.
#[tactic(auto, unfolding(crate::specs::Under::under))]
pub(crate) fn target_under(table: &Table) -> Result<Target, Wrong<'_>>
    ensures { result_ok result ≡ under TARGET target_keys (table_view table.now) }
{
    let [url_key, token_key] = KEYS;
    let url = text_under(table, url_key, Expected::Url)?;
    let token = text_under(table, token_key, Expected::Token)?;
    match Target::new(url.as_bytes(), token.as_bytes()) {
        Some(target) => Ok(target),
        None if Target::new(url.as_bytes(), ANY_TOKEN).is_none() => {
            Err(Wrong::at(table, url_key, Expected::Url))
        }
        None => Err(Wrong::at(table, token_key, Expected::Token)),
    }
}

/// Sets the target in a table.
pub(crate) fn set_target(
    alloc: Global,
    table: &mut Table,
    target: &Target,
) -> Result<(), AllocError>
    ensures { OnOk result (IsSet TARGET target_keys target.now (table_view table.old) (table_view table.new)) }
{
    let [url, token] = KEYS;
    set_text(alloc, table, url, target.url())?;
    set_text(alloc, table, token, target.token())
}

/// The target at the front of words.
#[tactic(auto, unfolding(crate::specs::Fields::field_taken))]
pub(crate) fn next_target(words: Words<'_>) -> Result<(Target, Words<'_>), TextFault>
    ensures { result ≡ field_taken TARGET words.entry }
{
    let (url, words) = words.split_first().ok_or(TextFault::Argument)?;
    let (token, words) = words.split_first().ok_or(TextFault::Argument)?;
    let target = Target::new(url, token).ok_or(TextFault::Argument)?;
    Ok((target, words))
}

/// Appends the words of a target.
pub(crate) fn put_target(out: &mut Vec<u8>, target: &Target) -> Result<(), AllocError>
    ensures { OnOk result (IsPut TARGET target.now out.old.items out.new.items) }
{
    put_word(out, target.url())?;
    put_word(out, target.token())
}
