//! What a setup says at its top.

ghost use Rattle.std.specs.Prelude.{◌≡◌, IfOk};
ghost use Rattle.std.specs.Result.{result_ok};
ghost use Rattle.toml.specs.View.{items_view, table_view};
ghost use Rattle.admin_text.specs.Made.{setup_members};
ghost use Rattle.admin_text.specs.Setup.{start_of, version_of};
ghost use Rattle.admin_text.specs.Versions.{version_numbered};

use crate::expected::Expected;
use crate::keys::{made, u64_under};
use crate::tables::{no_keys, set_number, set_tables};
use crate::version::{Version, version_numbered};
use crate::wrong::Wrong;
use ilp_addr::Moment;
use std::alloc::{AllocError, Global};
use toml::{Table, Value};

const VERSION: &str = "version";

const START: &str = "start";

pub(crate) const TENANT: &str = "tenant";

/// The keys of its own table.
pub(crate) const KEYS: [&str; 3] = [VERSION, START, TENANT];

/// The version, which is 1 or 2.
pub(crate) fn version_of(table: &Table) -> Result<Version, Wrong<'_>>
    ensures { result_ok result ≡ version_of (table_view table.now) }
{
    let number = u64_under(table, VERSION, Expected::Version)?;
    made(version_numbered(number), table, VERSION, Expected::Version)
}

/// When the setup starts.
pub(crate) fn start_of(table: &Table) -> Result<Moment, Wrong<'_>>
    ensures { result_ok result ≡ start_of (table_view table.now) }
{
    let expected = Expected::Whole(0, Moment::MAX_MILLIS);
    let millis = u64_under(table, START, expected)?;
    made(Moment::new(millis), table, START, expected)
}

/// The table of a setup of version 2.
#[tactic(auto, unfolding(crate::specs::Made::setup_members))]
pub(crate) fn setup_members(
    alloc: Global,
    start: Moment,
    tenants: Vec<Value>,
) -> Result<Table, AllocError>
    ensures { IfOk result (λ table. table_view table ≡ setup_members start (items_view tenants.items)) }
{
    let mut table = no_keys(alloc);
    set_number(alloc, &mut table, VERSION, 2)?;
    set_number(alloc, &mut table, START, start.millis())?;
    set_tables(alloc, &mut table, TENANT, tenants)?;
    Ok(table)
}
