//! The role of a peer.

ghost use Rattle.std.specs.Prelude.{◌≡◌, ◌∷◌, [], OnOk};
ghost use Rattle.std.specs.Result.{result_ok};
ghost use Rattle.toml.specs.View.{table_view};
ghost use Rattle.admin_text.specs.Fields.{ROLE, IsPut, field_taken, role_of, role_word};
ghost use Rattle.admin_text.specs.Under.{under};

use crate::commands::TextFault;
use crate::expected::Expected;
use crate::keys::{made, text_under};
use crate::words::put_word;
use crate::wrong::Wrong;
use common_types::Words;
use std::alloc::AllocError;
use tenant_core::Role;
use toml::Table;

// The role that a word names.
fn role_of(word: &[u8]) -> Option<Role>
    ensures { result ≡ role_of word.now }
{
    if word == b"child".as_slice() {
        Some(Role::Child)
    } else if word == b"peer".as_slice() {
        Some(Role::Peer)
    } else {
        None
    }
}

/// The word of a role.
pub(crate) fn role_text(role: Role) -> &'static [u8]
    ensures { result.now ≡ role_word role }
{
    match role {
        Role::Child => b"child",
        Role::Peer => b"peer",
    }
}

/// The role at a key.
#[tactic(auto, unfolding(crate::specs::Under::under))]
pub(crate) fn role_under<'a>(table: &'a Table, key: &'a str) -> Result<Role, Wrong<'a>>
    ensures { result_ok result ≡ under ROLE (key.now ∷ []) (table_view table.now) }
{
    let text = text_under(table, key, Expected::Role)?;
    made(role_of(text.as_bytes()), table, key, Expected::Role)
}

/// The role at the front of words.
#[tactic(auto, unfolding(crate::specs::Fields::field_taken))]
pub(crate) fn next_role(words: Words<'_>) -> Result<(Role, Words<'_>), TextFault>
    ensures { result ≡ field_taken ROLE words.entry }
{
    let (word, words) = words.split_first().ok_or(TextFault::Argument)?;
    let role = role_of(word).ok_or(TextFault::Argument)?;
    Ok((role, words))
}

/// Appends the word of a role.
pub(crate) fn put_role(out: &mut Vec<u8>, role: Role) -> Result<(), AllocError>
    ensures { OnOk result (IsPut ROLE role out.old.items out.new.items) }
{
    put_word(out, role_text(role))
}
