//! A route: to which peer, and for what fee.

ghost use Rattle.std.specs.Prelude.{◌≡◌, ◌∷◌, [], IfOk, OnOk};
ghost use Rattle.std.specs.List.{list_any};
ghost use Rattle.std.specs.Result.{result_ok};
ghost use Rattle.std.specs.Str.{bytes_eq};
ghost use Rattle.toml.specs.View.{table_view};
ghost use Rattle.admin_text.specs.Fields as field;
ghost use Rattle.admin_text.specs.Fields.{IsPut, all_taken, only_one};
ghost use Rattle.admin_text.specs.Made.{route_members};
ghost use Rattle.admin_text.specs.Networks.{fee_of};
ghost use Rattle.admin_text.specs.Versions.{keys_of};
ghost use Rattle.admin_text.specs.declared.places.TableKind.TheVariants as kind;

use crate::commands::TextFault;
use crate::fields::prefix::prefix_text;
use crate::keys::{between_or, is_among};
use crate::tables::{no_keys, set_number, set_text};
use crate::version::{Version, has_fees};
use crate::words::{end, put_number};
use crate::wrong::Wrong;
use common_types::{Name, NumberFault, Words, number_in};
use ilp_addr::Prefix;
use std::alloc::{AllocError, Global};
use tenant_core::Fee;
use tenant_core::limits::MAX_MONEY;
use toml::Table;

pub(crate) const PREFIX: &str = "prefix";

pub(crate) const PEER: &str = "peer";

const FEE: &str = "fee";

/// Whether a key of its table counts in a setup of a version.
pub(crate) fn is_key(version: Version, key: &str) -> bool
    ensures { result ≡ list_any (λ known. bytes_eq key.now known) (keys_of version kind.Route) }
{
    is_among(key, &[PREFIX, PEER]) || (has_fees(version) && key == FEE)
}

/// The fee in a table, 0 if nothing is said or the key doesn't count.
#[tactic(auto, unfolding(crate::specs::Networks::fee_of))]
pub(crate) fn fee_of(version: Version, table: &Table) -> Result<Fee, Wrong<'_>>
    ensures { result_ok result ≡ fee_of version (table_view table.now) }
{
    if has_fees(version) {
        between_or(0, table, FEE)
    } else {
        Ok(Fee::new(0).unwrap())
    }
}

/// The table of a route to the peer of that name.
#[tactic(auto, unfolding(crate::specs::Made::route_members))]
pub(crate) fn route_members(
    alloc: Global,
    prefix: &Prefix,
    peer: &Name,
    fee: Fee,
) -> Result<Table, AllocError>
    ensures { IfOk result (λ table. table_view table ≡ route_members prefix.now peer.now fee) }
{
    let mut table = no_keys(alloc);
    set_text(alloc, &mut table, PREFIX, prefix_text(prefix))?;
    set_text(alloc, &mut table, PEER, peer.as_bytes())?;
    set_number(alloc, &mut table, FEE, fee.get())?;
    Ok(table)
}

/// The fee at the end of the words, 0 if none is left.
#[tactic(auto, unfolding(crate::specs::Fields::field_taken, crate::specs::Taken::ended))]
pub(crate) fn last_fee(words: Words<'_>) -> Result<Fee, TextFault>
    ensures { only_one result ≡ all_taken (field.FEE MAX_MONEY ∷ []) words.entry }
{
    let Some((word, words)) = words.split_first() else {
        return Ok(Fee::new(0).unwrap());
    };
    match number_in(word) {
        Ok(fee) => {
            end(words)?;
            Ok(fee)
        }
        Err(NumberFault::Malformed) => Err(TextFault::Argument),
        Err(NumberFault::Outside) => Err(TextFault::Range),
    }
}

/// Appends a fee, which is left out if it is 0.
pub(crate) fn put_fee(alloc: Global, out: &mut Vec<u8>, fee: Fee) -> Result<(), AllocError>
    ensures { OnOk result (IsPut (field.FEE MAX_MONEY) fee out.old.items out.new.items) }
{
    let number = fee.get();
    if number == 0 {
        return Ok(());
    }
    put_number(alloc, out, number)
}
