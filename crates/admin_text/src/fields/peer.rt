//! What is agreed with a peer, and what it owes.

ghost use Rattle.std.specs.Prelude.{◌≡◌, ◌∷◌, [], IfOk, OnOk};
ghost use Rattle.std.specs.List.{list_any};
ghost use Rattle.std.specs.Result.{result_map_both, result_ok};
ghost use Rattle.std.specs.Str.{bytes_eq};
ghost use Rattle.toml.specs.View.{table_view};
ghost use Rattle.admin_text.specs.Fields as field;
ghost use Rattle.admin_text.specs.Fields.{ArePut, all_taken};
ghost use Rattle.admin_text.specs.Under.{under, peer_terms_of, starting_balance};
ghost use Rattle.admin_text.specs.Made.{peer_members};
ghost use Rattle.admin_text.specs.PeerFields.{fields_of, peer_keys, peer_rows, peer_values};
ghost use Rattle.admin_text.specs.Told.{IsKnown};

use crate::commands::TextFault;
use crate::expected::Expected;
use crate::fields::bucket::{self, bucket_under, next_bucket, put_bucket, set_bucket};
use crate::fields::limits::{self, limits_under, next_limits, put_limits, set_limits};
use crate::fields::names::{
    asset_under, name_under, next_asset, next_name, next_token, put_asset, put_name, put_token,
    token_under,
};
use crate::fields::role::{next_role, put_role, role_text, role_under};
use crate::fields::target::{self, next_target, put_target, set_target, target_under};
use crate::keys::{between_under, integer_or, is_among, made};
use crate::tables::{no_keys, set_integer, set_number, set_text};
use crate::words::{end, next_number, put_number};
use crate::wrong::Wrong;
use common_types::Words;
use std::alloc::{AllocError, Global};
use tenant_core::{Balance, Peer, PeerTerms};
use toml::Table;

pub(crate) const NAME: &str = "name";

pub(crate) const TOKEN: &str = "token";

const ROLE: &str = "role";

const ASSET: &str = "asset";

const SCALE: &str = "scale";

const BALANCE: &str = "balance";

/// Whether a key of its table counts.
pub(crate) fn is_key(key: &str) -> bool
    ensures { result ≡ list_any (λ known. bytes_eq key.now known) peer_keys }
{
    is_among(key, &[NAME, ROLE, TOKEN])
        || is_among(key, &target::KEYS)
        || is_among(key, &[ASSET, SCALE])
        || is_among(key, &limits::KEYS)
        || is_among(key, &bucket::KEYS)
        || key == BALANCE
}

#[tactic(auto, unfolding(crate::specs::Under::under))]
fn scale_under<'a>(table: &'a Table, key: &'a str) -> Result<u8, Wrong<'a>>
    ensures { result_ok result ≡ under field.SCALE (key.now ∷ []) (table_view table.now) }
{
    let scale = between_under::<0, 255>(table, key)?;
    Ok(scale.get() as u8)
}

/// What a table says is agreed with a peer.
#[tactic(auto, unfolding(crate::specs::Under::peer_terms_of))]
pub(crate) fn peer_terms_of(table: &Table) -> Result<PeerTerms, Wrong<'_>>
    ensures { result_ok result ≡ peer_terms_of (table_view table.now) }
{
    Ok(PeerTerms {
        name: name_under(table, NAME, Expected::Name)?,
        role: role_under(table, ROLE)?,
        token: token_under(table, TOKEN)?,
        target: target_under(table)?,
        asset: asset_under(table, ASSET)?,
        scale: scale_under(table, SCALE)?,
        limits: limits_under(table)?,
        bucket: bucket_under(table)?,
    })
}

/// What a peer owes at the start, 0 if nothing is said.
#[tactic(auto, unfolding(crate::specs::Under::starting_balance))]
pub(crate) fn balance_of(table: &Table) -> Result<Balance, Wrong<'_>>
    ensures { result_ok result ≡ starting_balance (table_view table.now) }
{
    let owed = integer_or(0, table, BALANCE, Expected::Balance)?;
    made(Balance::new(owed), table, BALANCE, Expected::Balance)
}

/// The table of a peer.
#[tactic(auto, unfolding(crate::specs::Made::peer_members))]
pub(crate) fn peer_members(alloc: Global, peer: &Peer) -> Result<Table, AllocError>
    ensures made { IfOk result (λ table. table_view table ≡ peer_members peer.now) }
    ensures known { IfOk result (λ table. IsKnown peer.now) }
{
    let terms = &peer.terms;
    let mut table = no_keys(alloc);
    set_text(alloc, &mut table, NAME, terms.name.as_bytes())?;
    set_text(alloc, &mut table, ROLE, role_text(terms.role))?;
    set_text(alloc, &mut table, TOKEN, terms.token.as_bytes())?;
    set_target(alloc, &mut table, &terms.target)?;
    set_text(alloc, &mut table, ASSET, terms.asset.as_bytes())?;
    set_number(alloc, &mut table, SCALE, terms.scale as u64)?;
    set_limits(alloc, &mut table, terms.limits)?;
    set_bucket(alloc, &mut table, terms.bucket)?;
    set_integer(alloc, &mut table, BALANCE, peer.balance.get())?;
    Ok(table)
}

/// What all of the words say is agreed with a peer.
pub(crate) fn peer_terms_in(words: Words<'_>) -> Result<PeerTerms, TextFault>
    ensures { result_map_both peer_values (λ fault. fault) result ≡ all_taken (fields_of peer_rows) words.entry }
{
    let (name, words) = next_name(words)?;
    let (role, words) = next_role(words)?;
    let (token, words) = next_token(words)?;
    let (target, words) = next_target(words)?;
    let (asset, words) = next_asset(words)?;
    let (scale, words) = next_number::<0, 255>(words)?;
    let (limits, words) = next_limits(words)?;
    let (bucket, words) = next_bucket(words)?;
    end(words)?;
    Ok(PeerTerms {
        name,
        role,
        token,
        target,
        asset,
        scale: scale.get() as u8,
        limits,
        bucket,
    })
}

/// Appends the words of what is agreed with a peer.
pub(crate) fn put_peer_terms(
    alloc: Global,
    out: &mut Vec<u8>,
    terms: &PeerTerms,
) -> Result<(), AllocError>
    ensures { OnOk result (ArePut (fields_of peer_rows) (peer_values terms.now) out.old.items out.new.items) }
{
    put_name(out, &terms.name)?;
    put_role(out, terms.role)?;
    put_token(out, &terms.token)?;
    put_target(out, &terms.target)?;
    put_asset(out, &terms.asset)?;
    put_number(alloc, out, terms.scale as u64)?;
    put_limits(alloc, out, terms.limits)?;
    put_bucket(alloc, out, terms.bucket)
}
