//! Names, tokens and the codes of assets.

ghost use Rattle.std.specs.Prelude.{◌≡◌, ◌∷◌, [], IfOk, IsSome, OnOk};
ghost use Rattle.std.specs.Result.{result_ok};
ghost use Rattle.toml.specs.View.{table_view};
ghost use Rattle.tenant_core.specs.Network.{peer_numbered};
ghost use Rattle.admin_text.specs.Fields.{NAME, TOKEN, ASSET, IsPut, field_taken};
ghost use Rattle.admin_text.specs.Under.{under, name_under, token_under};
ghost use Rattle.admin_text.specs.Networks.{peer_under};

use crate::commands::TextFault;
use crate::expected::Expected;
use crate::keys::{made, text_under};
use crate::words::put_word;
use crate::wrong::{Key, Wrong};
use common_types::{AssetCode, Name, Token, Words};
use std::alloc::AllocError;
use tenant_core::{Network, PeerNo, number_named};
use toml::Table;

/// The name at a key, which needs what is `expected`.
#[tactic(auto, unfolding(crate::specs::Under::under))]
pub(crate) fn name_under<'a>(
    table: &'a Table,
    key: &'a str,
    expected: Expected,
) -> Result<Name, Wrong<'a>>
    ensures { result_ok result ≡ name_under key.now (table_view table.now) }
{
    let text = text_under(table, key, expected)?;
    made(Name::new(text.as_bytes()), table, key, expected)
}

/// The number of the peer whose name is at a key.
#[tactic(auto, unfolding(crate::specs::Networks::peer_under))]
pub(crate) fn peer_under<'a>(
    network: &Network,
    table: &'a Table,
    key: &'a str,
) -> Result<PeerNo, Wrong<'a>>
    ensures exact { result_ok result ≡ peer_under network.now key.now (table_view table.now) }
    ensures present { IfOk result (λ n. IsSome (peer_numbered n network.now.peers)) }
{
    let name = name_under(table, key, Expected::PeerName)?;
    match number_named(network, &name) {
        Some(number) => Ok(number),
        None => Err(Wrong::NoPeer(Key::of(table, key))),
    }
}

/// The name at the front of words.
#[tactic(auto, unfolding(crate::specs::Fields::field_taken))]
pub(crate) fn next_name(words: Words<'_>) -> Result<(Name, Words<'_>), TextFault>
    ensures { result ≡ field_taken NAME words.entry }
{
    let (word, words) = words.split_first().ok_or(TextFault::Argument)?;
    let name = Name::new(word).ok_or(TextFault::Argument)?;
    Ok((name, words))
}

/// Appends a name.
pub(crate) fn put_name(out: &mut Vec<u8>, name: &Name) -> Result<(), AllocError>
    ensures { OnOk result (IsPut NAME name.now out.old.items out.new.items) }
{
    put_word(out, name.as_bytes())
}

/// The token at a key.
#[tactic(auto, unfolding(crate::specs::Under::under))]
pub(crate) fn token_under<'a>(table: &'a Table, key: &'a str) -> Result<Token, Wrong<'a>>
    ensures { result_ok result ≡ token_under key.now (table_view table.now) }
{
    let text = text_under(table, key, Expected::Token)?;
    made(Token::new(text.as_bytes()), table, key, Expected::Token)
}

/// The token at the front of words.
#[tactic(auto, unfolding(crate::specs::Fields::field_taken))]
pub(crate) fn next_token(words: Words<'_>) -> Result<(Token, Words<'_>), TextFault>
    ensures { result ≡ field_taken TOKEN words.entry }
{
    let (word, words) = words.split_first().ok_or(TextFault::Argument)?;
    let token = Token::new(word).ok_or(TextFault::Argument)?;
    Ok((token, words))
}

/// Appends a token.
pub(crate) fn put_token(out: &mut Vec<u8>, token: &Token) -> Result<(), AllocError>
    ensures { OnOk result (IsPut TOKEN token.now out.old.items out.new.items) }
{
    put_word(out, token.as_bytes())
}

/// The code of an asset at a key.
#[tactic(auto, unfolding(crate::specs::Under::under))]
pub(crate) fn asset_under<'a>(table: &'a Table, key: &'a str) -> Result<AssetCode, Wrong<'a>>
    ensures { result_ok result ≡ under ASSET (key.now ∷ []) (table_view table.now) }
{
    let text = text_under(table, key, Expected::Asset)?;
    made(AssetCode::new(text.as_bytes()), table, key, Expected::Asset)
}

/// The code of an asset at the front of words.
#[tactic(auto, unfolding(crate::specs::Fields::field_taken))]
pub(crate) fn next_asset(words: Words<'_>) -> Result<(AssetCode, Words<'_>), TextFault>
    ensures { result ≡ field_taken ASSET words.entry }
{
    let (word, words) = words.split_first().ok_or(TextFault::Argument)?;
    let asset = AssetCode::new(word).ok_or(TextFault::Argument)?;
    Ok((asset, words))
}

/// Appends the code of an asset.
pub(crate) fn put_asset(out: &mut Vec<u8>, asset: &AssetCode) -> Result<(), AllocError>
    ensures { OnOk result (IsPut ASSET asset.now out.old.items out.new.items) }
{
    put_word(out, asset.as_bytes())
}
