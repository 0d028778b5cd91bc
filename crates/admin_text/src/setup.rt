//! Setups: what a TOML document says of the tenants.

ghost use Rattle.std.specs.Prelude.{◌≡◌, ◌≢◌, ◌∷◌, ◌++◌, [], Some, None, Err, MatchResult, codes, option_and_then, IfSome};
ghost use Rattle.std.specs.Str.{bytes_eq};
ghost use Rattle.toml.specs.Data.{as_table};
ghost use Rattle.toml.specs.View.{view, items_view, table_view};
ghost use Rattle.common_types.specs.declared.read_error.ReadError.TheVariants.{Memory};
ghost use Rattle.common_types.specs.Outcomes.{GivesUnlessMemory};
ghost use Rattle.admin_text.specs.Ignored.{document_in};
ghost use Rattle.admin_text.specs.Keys.{array_under};
ghost use Rattle.admin_text.specs.Outcomes.{known_value};
ghost use Rattle.admin_text.specs.TenantTable.{tenant_of_table};
ghost use Rattle.admin_text.specs.Tenants.{is_there, unless_there, some_tenants, next_tenant, with_one_more, tenants_of_items, tenants_of_array};
ghost use Rattle.admin_text.specs.Setup.{setup_of_table, setup_of};
ghost use Rattle.admin_text.specs.Wrong.{fault_alone};

use crate::expected::Expected;
use crate::fields::tenant::{NAME, own_terms_of};
use crate::fields::top::{TENANT, start_of, version_of};
use crate::keys::{array_under, table_in};
use crate::networks::network_of;
use crate::places::{Place, TableKind};
use crate::version::Version;
use crate::wrong::{Key, SetupWrong, TenantWrong, Wrong};
use common_types::{Items, Name, ReadError};
use ilp_addr::Moment;
use std::alloc::{AllocError, Global};
use tenant_core::TenantSetup;
use tenant_core::limits::MAX_TENANTS;
use thiserror::Error;
use toml::{Table, Value};

/// What is wrong with a setup.
#[derive(Clone, Copy, Debug, PartialEq, Eq, Error)]
pub enum SetupFault {
    /// It is not a TOML document.
    #[error("setup: toml")]
    Toml,
    /// Its version is neither 1 nor 2.
    #[error("setup: version")]
    Version,
    /// Its start is not a moment from 0 to 253,400,000,000,000 milliseconds.
    #[error("setup: start")]
    Start,
    /// The tenant of that number, from 0, is not described by the rules.
    #[error("setup: tenant {0}")]
    Tenant(usize),
}

/// A setup: when its replay or its service starts, and its tenants, 1 to 64 by their places.
#[derive(Drop)]
pub struct Setup {
    pub start: Moment,
    pub tenants: Items<TenantSetup>,
}

impl Setup {
    ghost use Rattle.std.specs.Prelude.{◌≡◌, map, IfOk};

    /// The names of the tenants, in their order. Fails only if it is out of memory.
    pub fn names(&self, alloc: Global) -> Result<Vec<Name>, AllocError>
        ensures { IfOk result (λ names. names.items ≡ map (λ t. t.name) self.now.tenants) }
    {
        let tenants = self.tenants.as_slice();
        let mut names = Vec::with_capacity(alloc, tenants.len())?;
        for tenant in tenants {
            names.push_reserved(tenant.terms().name.copy());
        }
        Ok(names)
    }
}

fn has_name(tenant: &TenantSetup, name: &Name) -> bool
    ensures { result ≡ bytes_eq tenant.now.name name.now }
{
    tenant.terms().name.as_bytes() == name.as_bytes()
}

// Whether one of the tenants has that name.
fn is_there(tenants: &[TenantSetup], name: &Name) -> bool
    ensures { result ≡ is_there tenants.now name.now }
{
    tenants.iter().any(|tenant| has_name(tenant, name))
}

// How many tenants come before the first that has that name.
fn number_of(tenants: &[TenantSetup], name: &Name) -> usize {
    tenants
        .iter()
        .take_while(|tenant| !has_name(tenant, name))
        .count()
}

// The tenant of a value that follows these tenants.
#[tactic(auto, unfolding(crate::specs::TenantTable::tenant_of_table))]
fn new_tenant<'a>(
    alloc: Global,
    version: Version,
    tenants: &[TenantSetup],
    value: &'a Value,
) -> Result<TenantSetup, ReadError<TenantWrong<'a>>>
    ensures { IfSome (known_value result) (λ tenant. tenant ≡
        option_and_then (unless_there tenants.now) (option_and_then (tenant_of_table version) (as_table (view value.now)))) }
{
    let table = table_in(value, TableKind::Tenant)?;
    let own = own_terms_of(table)?;
    if is_there(tenants, &own.name) {
        let number = number_of(tenants, &own.name);
        return Err(ReadError::from(Wrong::Taken(Key::of(table, NAME), TableKind::Tenant, number)));
    }
    let network = network_of(alloc, version, table)?;
    Ok(own.with(network))
}

// The tenant of a value that follows these tenants, which are at most 63.
fn next_tenant<'a>(
    alloc: Global,
    version: Version,
    tenants: &[TenantSetup],
    value: &'a Value,
) -> Result<TenantSetup, ReadError<SetupWrong<'a>>>
    ensures { GivesUnlessMemory (λ tenant. tenants.now ++ tenant ∷ []) (fault_alone result)
        (with_one_more tenants.now (next_tenant version tenants.now (view value.now))) }
{
    let number = tenants.len();
    if number >= MAX_TENANTS {
        return Err(ReadError::Fault(SetupWrong::OneTooMany(number)));
    }
    match new_tenant(alloc, version, tenants, value) {
        Ok(tenant) => Ok(tenant),
        Err(ReadError::Memory) => Err(ReadError::Memory),
        Err(ReadError::Fault(wrong)) => {
            let place = Place::new(TableKind::Tenant, number, value);
            Err(ReadError::Fault(SetupWrong::InTenant(place, wrong)))
        }
    }
}

#[tactic(auto, unfolding(crate::specs::Tenants::tenants_of_items))]
fn tenants_of_items(
    alloc: Global,
    version: Version,
    values: &[Value],
) -> Result<Vec<TenantSetup>, ReadError<SetupWrong<'_>>>
    ensures { GivesUnlessMemory (λ tenants. tenants.items) (fault_alone result) (tenants_of_items version [] (items_view values.now)) }
{
    let mut tenants = Vec::new(alloc);
    for value in values {
        let tenant = next_tenant(alloc, version, tenants.as_slice(), value)?;
        tenants.push(tenant)?;
    }
    Ok(tenants)
}

// The tenants of an array at that key, of which there is one at least.
fn some_tenants<'a>(
    alloc: Global,
    version: Version,
    key: Key<'a>,
    values: &'a [Value],
) -> Result<Vec<TenantSetup>, ReadError<SetupWrong<'a>>>
    ensures { GivesUnlessMemory (λ tenants. tenants.items) (fault_alone result) (some_tenants version (items_view values.now)) }
{
    match values {
        [] => {
            let wrong = Wrong::Key(key, Expected::Tenants);
            Err(ReadError::Fault(SetupWrong::NoTenants(wrong)))
        }
        [_, ..] => tenants_of_items(alloc, version, values),
    }
}

#[tactic(auto, unfolding(crate::specs::Tenants::tenants_of_array))]
fn tenants_of_array(
    alloc: Global,
    version: Version,
    table: &Table,
) -> Result<Vec<TenantSetup>, ReadError<SetupWrong<'_>>>
    ensures { GivesUnlessMemory (λ tenants. tenants.items) (fault_alone result)
        (tenants_of_array version (array_under (codes "tenant") (table_view table.now))) }
{
    match array_under(table, TENANT, Expected::Tenants) {
        Ok(values) => some_tenants(alloc, version, Key::of(table, TENANT), values),
        Err(wrong) => Err(ReadError::Fault(SetupWrong::NoTenants(wrong))),
    }
}

/// What a document says.
#[tactic(auto, unfolding(crate::specs::Setup::setup_of_table))]
pub(crate) fn setup_of_table(
    alloc: Global,
    table: &Table,
) -> Result<Setup, ReadError<SetupWrong<'_>>>
    ensures { GivesUnlessMemory (λ s. s) (fault_alone result) (setup_of_table (table_view table.now)) }
{
    let version = match version_of(table) {
        Ok(version) => version,
        Err(wrong) => return Err(ReadError::Fault(SetupWrong::AtVersion(wrong))),
    };
    let start = match start_of(table) {
        Ok(start) => start,
        Err(wrong) => return Err(ReadError::Fault(SetupWrong::AtStart(wrong))),
    };
    let tenants = tenants_of_array(alloc, version, table)?;
    Ok(Setup {
        start,
        tenants: Items::from_vec(tenants),
    })
}

/// The TOML document that a text is.
pub(crate) fn document_of(alloc: Global, text: &[u8]) -> Result<Table, ReadError<toml::de::Error>>
    ensures setup { MatchResult result (λ table. setup_of text.now ≡ setup_of_table (table_view table))
        (λ e. e ≢ Memory → setup_of text.now ≡ Err SetupFault.Toml) }
    ensures document { MatchResult result (λ table. document_in text.now ≡ Some (table_view table))
        (λ e. e ≢ Memory → document_in text.now ≡ None) }
{
    match toml::table_from_slice(alloc, text) {
        Ok(table) => Ok(table),
        Err(e) if e.is_memory() => Err(ReadError::Memory),
        Err(e) => Err(ReadError::Fault(e)),
    }
}

/// Reads a setup, a TOML document in UTF-8. Keys that are not named here are ignored.
///
/// - At the top: `version`, which is 1 or 2; `start`, in milliseconds since 1970-01-01; and `tenant`, an array
///   of 1 to 64 tables.
/// - A tenant: `name`, `address` and `admin`; `journal` (default 1024), `margin` (default 1000) and `hold`
///   (default 30000); arrays of tables `peer`, `route` and `rate`, each empty by default.
/// - A peer: `name`, `role` (`child` or `peer`), `token`, `url`, `out_token`, `asset`, `scale`, the fields of
///   [`PeerLimits`](tenant_core::PeerLimits) and of [`BucketTerms`](tenant_core::BucketTerms), each by its name, and
///   `balance` (default 0).
/// - A route: `prefix`, whose dot at the end is dropped and which is `*` for the empty one, and `peer`, a
///   peer's name. In version 2 also `fee`, from 0 to 2^62 (default 0). No two have the same prefix.
/// - A rate: `from` and `to`, peers' names, `num` and `den`. Of two for the same ordered pair the later counts.
///
/// The faults are tested in the order of [`SetupFault`]. A key that is missing or of another kind than expected
/// is a fault of its tenant, and so is a broken limit of [`TenantSetup::new`].
pub fn read_setup(alloc: Global, text: &[u8]) -> Result<Setup, ReadError<SetupFault>>
    ensures exact { GivesUnlessMemory (λ s. s) result (setup_of text.now) }
{
    let table = match document_of(alloc, text) {
        Ok(table) => table,
        Err(ReadError::Memory) => return Err(ReadError::Memory),
        Err(ReadError::Fault(_)) => return Err(ReadError::Fault(SetupFault::Toml)),
    };
    match setup_of_table(alloc, &table) {
        Ok(setup) => Ok(setup),
        Err(ReadError::Memory) => Err(ReadError::Memory),
        Err(ReadError::Fault(wrong)) => Err(ReadError::Fault(wrong.fault())),
    }
}
