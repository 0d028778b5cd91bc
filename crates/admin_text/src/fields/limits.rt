//! How far a peer is trusted.

ghost use Rattle.std.specs.Prelude.{◌≡◌, OnOk};
ghost use Rattle.std.specs.Result.{result_ok};
ghost use Rattle.toml.specs.View.{table_view};
ghost use Rattle.admin_text.specs.Fields.{LIMITS, IsPut, field_taken};
ghost use Rattle.admin_text.specs.Under.{under};
ghost use Rattle.admin_text.specs.Made.{IsSet};
ghost use Rattle.admin_text.specs.Limits.{limit_keys};

use crate::commands::TextFault;
use crate::keys::between_under;
use crate::tables::set_number;
use crate::words::{next_number, put_between};
use crate::wrong::Wrong;
use common_types::Words;
use std::alloc::{AllocError, Global};
use tenant_core::PeerLimits;
use toml::Table;

/// The keys of its limits.
pub(crate) const KEYS: [&str; 3] = ["cap", "ceiling", "credit"];

/// The limits in a table.
#[tactic(auto, unfolding(crate::specs::Under::under))]
pub(crate) fn limits_under(table: &Table) -> Result<PeerLimits, Wrong<'_>>
    ensures { result_ok result ≡ under LIMITS limit_keys (table_view table.now) }
{
    let [cap, ceiling, credit] = KEYS;
    Ok(PeerLimits {
        cap: between_under(table, cap)?,
        ceiling: between_under(table, ceiling)?,
        credit: between_under(table, credit)?,
    })
}

/// Sets the limits in a table.
pub(crate) fn set_limits(
    alloc: Global,
    table: &mut Table,
    limits: PeerLimits,
) -> Result<(), AllocError>
    ensures { OnOk result (IsSet LIMITS limit_keys limits (table_view table.old) (table_view table.new)) }
{
    let [cap, ceiling, credit] = KEYS;
    set_number(alloc, table, cap, limits.cap.get())?;
    set_number(alloc, table, ceiling, limits.ceiling.get())?;
    set_number(alloc, table, credit, limits.credit.get())
}

/// The limits at the front of words.
#[tactic(auto, unfolding(crate::specs::Fields::field_taken))]
pub(crate) fn next_limits(words: Words<'_>) -> Result<(PeerLimits, Words<'_>), TextFault>
    ensures { result ≡ field_taken LIMITS words.entry }
{
    let (cap, words) = next_number(words)?;
    let (ceiling, words) = next_number(words)?;
    let (credit, words) = next_number(words)?;
    let limits = PeerLimits {
        cap,
        ceiling,
        credit,
    };
    Ok((limits, words))
}

/// Appends the words of limits.
pub(crate) fn put_limits(
    alloc: Global,
    out: &mut Vec<u8>,
    limits: PeerLimits,
) -> Result<(), AllocError>
    ensures { OnOk result (IsPut LIMITS limits out.old.items out.new.items) }
{
    put_between(alloc, out, limits.cap)?;
    put_between(alloc, out, limits.ceiling)?;
    put_between(alloc, out, limits.credit)
}
