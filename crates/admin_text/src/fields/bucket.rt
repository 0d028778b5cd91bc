//! How many packets of a peer pass.

ghost use Rattle.std.specs.Prelude.{◌≡◌, OnOk};
ghost use Rattle.std.specs.Result.{result_ok};
ghost use Rattle.toml.specs.View.{table_view};
ghost use Rattle.admin_text.specs.Fields.{BUCKET, IsPut, field_taken};
ghost use Rattle.admin_text.specs.Under.{under};
ghost use Rattle.admin_text.specs.Made.{IsSet};
ghost use Rattle.admin_text.specs.Bucket.{bucket_keys};

use crate::commands::TextFault;
use crate::keys::between_under;
use crate::tables::set_number;
use crate::words::{next_number, put_between};
use crate::wrong::Wrong;
use common_types::Words;
use std::alloc::{AllocError, Global};
use tenant_core::BucketTerms;
use toml::Table;

/// The keys of its bucket.
pub(crate) const KEYS: [&str; 2] = ["burst", "per_second"];

/// The bucket in a table.
#[tactic(auto, unfolding(crate::specs::Under::under))]
pub(crate) fn bucket_under(table: &Table) -> Result<BucketTerms, Wrong<'_>>
    ensures { result_ok result ≡ under BUCKET bucket_keys (table_view table.now) }
{
    let [burst, per_second] = KEYS;
    Ok(BucketTerms {
        burst: between_under(table, burst)?,
        per_second: between_under(table, per_second)?,
    })
}

/// Sets the bucket in a table.
pub(crate) fn set_bucket(
    alloc: Global,
    table: &mut Table,
    bucket: BucketTerms,
) -> Result<(), AllocError>
    ensures { OnOk result (IsSet BUCKET bucket_keys bucket (table_view table.old) (table_view table.new)) }
{
    let [burst, per_second] = KEYS;
    set_number(alloc, table, burst, bucket.burst.get())?;
    set_number(alloc, table, per_second, bucket.per_second.get())
}

/// The bucket at the front of words.
#[tactic(auto, unfolding(crate::specs::Fields::field_taken))]
pub(crate) fn next_bucket(words: Words<'_>) -> Result<(BucketTerms, Words<'_>), TextFault>
    ensures { result ≡ field_taken BUCKET words.entry }
{
    let (burst, words) = next_number(words)?;
    let (per_second, words) = next_number(words)?;
    Ok((BucketTerms { burst, per_second }, words))
}

/// Appends the words of a bucket.
pub(crate) fn put_bucket(
    alloc: Global,
    out: &mut Vec<u8>,
    bucket: BucketTerms,
) -> Result<(), AllocError>
    ensures { OnOk result (IsPut BUCKET bucket out.old.items out.new.items) }
{
    put_between(alloc, out, bucket.burst)?;
    put_between(alloc, out, bucket.per_second)
}
