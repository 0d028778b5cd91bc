//! The keys of a good setup that nobody reads, and their words for people.

ghost use Rattle.std.specs.Prelude.{◌≡◌, ◌∷◌, ◌++◌, [], codes, if◌then◌else◌, IfOk, OnOk, string_bytes};
ghost use Rattle.std.specs.List.{list_any};
ghost use Rattle.std.specs.Option.{option_map_or};
ghost use Rattle.std.specs.Str.{bytes_eq};
ghost use Rattle.toml.specs.Data.{as_table};
ghost use Rattle.toml.specs.View.{view, items_view, table_view};
ghost use Rattle.admin_text.specs.Ignored.{items_of, is_key, table_place, ignored_at, ignored_by, ignored_in};
ghost use Rattle.admin_text.specs.Ignored.{ignored_in_parts, ignored_in_tenant, ignored_in_tenant_value, ignored_in_tenants, ignored_in_value};
ghost use Rattle.admin_text.specs.Ignored.{ignored_in_document};
ghost use Rattle.admin_text.specs.IgnoredKeys.{seen};
ghost use Rattle.admin_text.specs.Versions.{keys_of};

use crate::expected::Shown;
use crate::fields::top::version_of;
use crate::fields::{peer, rate, route, tenant, top};
use crate::keys::{is_among, items_under};
use crate::places::{Place, Spot, TableKind, TablePlace};
use crate::secrets::ShownValue;
use crate::setup::{document_of, setup_of_table};
use crate::version::Version;
use common_types::{Items, ReadError};
use std::alloc::{AllocError, Global};
use std::fmt;
use toml::{Table, Value};

/// A key of a good setup that nobody reads.
#[derive(Drop)]
pub struct IgnoredKey {
    /// The table that has it.
    pub place: TablePlace,
    pub name: String,
    /// A line that says where the key is, and its value.
    pub words: String,
}

fn is_key_of(version: Version, kind: TableKind, key: &str) -> bool
    ensures { result ≡ list_any (λ known. bytes_eq key.now known) (keys_of version kind) }
{
    match kind {
        TableKind::Tenant => is_among(key, &tenant::KEYS),
        TableKind::Peer => peer::is_key(key),
        TableKind::Route => route::is_key(version, key),
        TableKind::Rate => is_among(key, &rate::KEYS),
    }
}

// Whether a key counts in that table of a setup of a version.
fn is_key(version: Version, place: TablePlace, key: &str) -> bool
    ensures { result ≡ is_key version place key.now }
{
    match place {
        TablePlace::Top => is_among(key, &top::KEYS),
        TablePlace::Tenant(_) => is_key_of(version, TableKind::Tenant, key),
        TablePlace::Part(_, kind, _) => is_key_of(version, kind, key),
    }
}

// The most bytes of a key that is shown.
const MAX_SHOWN: usize = 64;

// A key in one word, quoted if it is not one word.
#[derive(Clone, Copy)]
struct Named<'a>(&'a str);

impl fmt::Display for Named<'_> {
    fn fmt<W: fmt::Write>(&self, f: &mut fmt::Formatter<W>) -> fmt::Result {
        let name = self.0;
        if name.len() > MAX_SHOWN {
            write!(f, "a key of {} bytes", name.len())
        } else if !name.is_empty()
            && name
                .bytes()
                .all(|b| b.is_ascii_alphanumeric() || b == b'_' || b == b'-')
        {
            f.write_str(name)
        } else {
            write!(f, "{name:?}")
        }
    }
}

// Why a key of that table is ignored.
fn reason(place: TablePlace, name: &str) -> &'static str {
    if is_key(Version::Two, place, name) {
        "a key of version 2, ignored in version 1"
    } else {
        "an unknown key, ignored"
    }
}

// The value at such a key, if it may be shown.
#[derive(Clone, Copy)]
struct Beside<'a>(ShownValue<'a>);

impl fmt::Display for Beside<'_> {
    fn fmt<W: fmt::Write>(&self, f: &mut fmt::Formatter<W>) -> fmt::Result {
        match self.0 {
            ShownValue::Plain(value) => write!(f, "{}", Shown(value)),
            ShownValue::Nothing | ShownValue::Hidden(_) => Ok(()),
        }
    }
}

fn ignored_key(
    alloc: Global,
    spot: Spot<'_>,
    name: &str,
    value: &Value,
) -> Result<IgnoredKey, AllocError>
    ensures { IfOk result (λ key. seen (key ∷ []) ≡ (table_place spot.entry, name.now) ∷ []) }
{
    let place = spot.table();
    let why = reason(place, name);
    let beside = Beside(ShownValue::at_ignored(name, value));
    let words = format!(in alloc; "{spot}{}{beside}: {why}", Named(name))?;
    Ok(IgnoredKey {
        place,
        name: String::from_str(alloc, name)?,
        words,
    })
}

// Appends a key to those that were found, if it is ignored.
fn put_key(
    alloc: Global,
    version: Version,
    spot: Spot<'_>,
    name: &str,
    value: &Value,
    found: &mut Vec<IgnoredKey>,
) -> Result<(), AllocError>
    ensures { OnOk result (seen found.new.items ≡ seen found.old.items
        ++ (if is_key version (table_place spot.entry) name.now then [] else (table_place spot.entry, name.now) ∷ [])) }
{
    if !is_key(version, spot.table(), name) {
        found.push(ignored_key(alloc, spot, name, value)?)?;
    }
    Ok(())
}

fn put_table(
    alloc: Global,
    version: Version,
    spot: Spot<'_>,
    table: &Table,
    found: &mut Vec<IgnoredKey>,
) -> Result<(), AllocError>
    ensures { OnOk result (seen found.new.items ≡ seen found.old.items
        ++ ignored_at version (table_place spot.entry) (table_view table.now)) }
{
    for (name, value) in table.iter() {
        put_key(alloc, version, spot, name.as_str(), value, found)?;
    }
    Ok(())
}

fn put_value(
    alloc: Global,
    version: Version,
    spot: Spot<'_>,
    value: &Value,
    found: &mut Vec<IgnoredKey>,
) -> Result<(), AllocError>
    ensures { OnOk result (seen found.new.items ≡ seen found.old.items
        ++ ignored_in_value version (table_place spot.entry) (view value.now)) }
{
    match value.as_table() {
        Some(table) => put_table(alloc, version, spot, table, found),
        None => Ok(()),
    }
}

// The values of the array of tables of a kind, at that key.
fn items_of<'a>(table: &'a Table, key: &'a str, kind: TableKind) -> &'a [Value]
    ensures { items_view result.now ≡ items_of key.now (table_view table.now) }
{
    match items_under(table, key, kind) {
        Ok(values) => values,
        Err(_) => &[],
    }
}

// Those of a tenant's peers, routes or rates.
fn put_parts(
    alloc: Global,
    version: Version,
    tenant: Place<'_>,
    kind: TableKind,
    values: &[Value],
    found: &mut Vec<IgnoredKey>,
) -> Result<(), AllocError>
    ensures { OnOk result (seen found.new.items ≡ seen found.old.items
        ++ ignored_in_parts version tenant.entry.number kind 1 (items_view values.now)) }
{
    for (at, value) in values.iter().enumerate() {
        let part = Place::new(kind, at + 1, value);
        put_value(alloc, version, Spot::Part(tenant, part), value, found)?;
    }
    Ok(())
}

// Those of the table of a tenant, and of its peers, its routes and its rates.
fn put_tenant(
    alloc: Global,
    version: Version,
    tenant: Place<'_>,
    table: &Table,
    found: &mut Vec<IgnoredKey>,
) -> Result<(), AllocError>
    ensures { OnOk result (seen found.new.items ≡ seen found.old.items
        ++ ignored_in_tenant version tenant.entry.number (table_view table.now)) }
{
    let peers = items_of(table, tenant::PEER, TableKind::Peer);
    let routes = items_of(table, tenant::ROUTE, TableKind::Route);
    let rates = items_of(table, tenant::RATE, TableKind::Rate);
    put_table(alloc, version, Spot::Tenant(tenant), table, found)?;
    put_parts(alloc, version, tenant, TableKind::Peer, peers, found)?;
    put_parts(alloc, version, tenant, TableKind::Route, routes, found)?;
    put_parts(alloc, version, tenant, TableKind::Rate, rates, found)
}

fn put_tenant_in(
    alloc: Global,
    version: Version,
    number: usize,
    value: &Value,
    found: &mut Vec<IgnoredKey>,
) -> Result<(), AllocError>
    ensures { OnOk result (seen found.new.items ≡ seen found.old.items
        ++ ignored_in_tenant_value version number (view value.now)) }
{
    match value.as_table() {
        Some(table) => {
            let tenant = Place::new(TableKind::Tenant, number, value);
            put_tenant(alloc, version, tenant, table, found)
        }
        None => Ok(()),
    }
}

fn put_tenants(
    alloc: Global,
    version: Version,
    values: &[Value],
    found: &mut Vec<IgnoredKey>,
) -> Result<(), AllocError>
    ensures { OnOk result (seen found.new.items ≡ seen found.old.items
        ++ ignored_in_tenants version 0 (items_view values.now)) }
{
    for (number, value) in values.iter().enumerate() {
        put_tenant_in(alloc, version, number, value, found)?;
    }
    Ok(())
}

// Those of a setup of a version.
fn ignored_by(alloc: Global, version: Version, table: &Table) -> Result<Vec<IgnoredKey>, AllocError>
    ensures { IfOk result (λ found. seen found.items ≡ ignored_by version (table_view table.now)) }
{
    let mut found = Vec::new(alloc);
    put_table(alloc, version, Spot::Top, table, &mut found)?;
    let tenants = items_of(table, top::TENANT, TableKind::Tenant);
    put_tenants(alloc, version, tenants, &mut found)?;
    Ok(found)
}

// Those of a document, none if it is not a good setup.
#[tactic(auto, unfolding(crate::specs::Ignored::ignored_in_document))]
fn ignored_in(alloc: Global, table: &Table) -> Result<Vec<IgnoredKey>, AllocError>
    ensures { IfOk result (λ found. seen found.items ≡ ignored_in_document (table_view table.now)) }
{
    match setup_of_table(alloc, table) {
        Ok(_) => match version_of(table) {
            Ok(version) => ignored_by(alloc, version, table),
            Err(_) => Ok(Vec::new(alloc)),
        },
        Err(ReadError::Memory) => Err(AllocError),
        Err(ReadError::Fault(_)) => Ok(Vec::new(alloc)),
    }
}

/// The keys of a good setup that nobody reads, in the order in which people find them. The keys at the top come first,
/// then those of each tenant: of its own table, of its peers, its routes and its rates. Those of one table come by
/// their names.
///
/// The key `fee` of a route is one of them in a setup of version 1. A setup that is wrong has none:
/// [`explain`](crate::explain) says what is wrong with it. Fails only if it is out of memory.
pub fn ignored_keys(alloc: Global, text: &[u8]) -> Result<Items<IgnoredKey>, AllocError>
    ensures exact { IfOk result (λ found. seen found ≡ ignored_in text.now) }
{
    let found = match document_of(alloc, text) {
        Ok(table) => ignored_in(alloc, &table)?,
        Err(ReadError::Memory) => return Err(AllocError),
        Err(ReadError::Fault(_)) => Vec::new(alloc),
    };
    Ok(Items::from_vec(found))
}
