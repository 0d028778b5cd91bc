//! Whom a tenant deals with at the start, as its setup says: peers, routes and rates in the order given, each by the rules
//! of the commands.

ghost use Rattle.std.specs.Prelude.{◌≡◌, IfSome};
ghost use Rattle.toml.specs.View.{view, items_view, table_view};
ghost use Rattle.admin_text.specs.Networks.{with_peer_in, with_peers_of};
ghost use Rattle.admin_text.specs.Networks.{with_route_in, with_routes_of};
ghost use Rattle.admin_text.specs.Networks.{with_rate_in, with_rates_of, network_in_table};
ghost use Rattle.admin_text.specs.Outcomes.{known_value};

use crate::fields::names::peer_under;
use crate::fields::peer::{self, balance_of, peer_terms_of};
use crate::fields::prefix::prefix_under;
use crate::fields::rate::rate_of;
use crate::fields::route::{self, fee_of};
use crate::fields::tenant;
use crate::keys::{items_under, string_under, table_in};
use crate::places::{Place, TableKind};
use crate::version::Version;
use crate::wrong::{Key, TenantWrong, Wrong};
use common_types::ReadError;
use std::alloc::Global;
use tenant_core::{CommandFault, Hop, Level, Network};
use toml::{Table, Value};

// What a bucket holds before a period begins.
const EMPTY: Level = Level {
    credit: 0,
    clock: 0,
    entries: 0,
};

// What was read at a place, from 0, of a tenant's array of that kind.
fn at_part<'a>(
    read: Result<Network, ReadError<Wrong<'a>>>,
    kind: TableKind,
    at: usize,
    value: &'a Value,
) -> Result<Network, ReadError<TenantWrong<'a>>>
    ensures { known_value result ≡ known_value read.entry }
{
    let place = Place::new(kind, at.saturating_add(1), value);
    match read {
        Ok(network) => Ok(network),
        Err(ReadError::Memory) => Err(ReadError::Memory),
        Err(ReadError::Fault(wrong)) => Err(ReadError::Fault(TenantWrong::Part(place, wrong))),
    }
}

// What the text at a key spells: a prefix may have a dot at its end.
fn spelled_under<'a>(table: &'a Table, kind: TableKind, key: &str) -> Option<&'a str> {
    let text = string_under(table, key)?;
    match kind {
        TableKind::Route => Some(text.strip_suffix('.').unwrap_or(text)),
        TableKind::Tenant | TableKind::Peer | TableKind::Rate => Some(text),
    }
}

fn has_under(value: &Value, kind: TableKind, key: &str, text: &str) -> bool {
    match value.as_table() {
        Some(table) => spelled_under(table, kind, key) == Some(text),
        None => false,
    }
}

// That one of the values before it has the text at the key too.
fn taken<'a>(
    before: &[Value],
    table: &'a Table,
    kind: TableKind,
    key: &'a str,
) -> Option<Wrong<'a>> {
    let text = spelled_under(table, kind, key)?;
    let at = before
        .iter()
        .position(|value| has_under(value, kind, key, text))?;
    Some(Wrong::Taken(Key::of(table, key), kind, at.saturating_add(1)))
}

// Why the table is refused after those before it, which may have the same text at one of the keys.
fn refused<'a>(
    fault: CommandFault,
    before: &[Value],
    table: &'a Table,
    kind: TableKind,
    keys: &[&'a str],
) -> Wrong<'a> {
    match fault {
        CommandFault::Limit => Wrong::TooMany(kind),
        CommandFault::Present => keys
            .iter()
            .find_map(|key| taken(before, table, kind, key))
            .unwrap_or(Wrong::Refused(fault)),
        CommandFault::Full | CommandFault::InUse | CommandFault::Absent | CommandFault::Memory => {
            Wrong::Refused(fault)
        }
    }
}

fn with_peer_in<'a>(
    mut network: Network,
    before: &[Value],
    value: &'a Value,
) -> Result<Network, ReadError<Wrong<'a>>>
    ensures { IfSome (known_value result) (λ more. more ≡ with_peer_in network (view value.now)) }
{
    let table = table_in(value, TableKind::Peer)?;
    let terms = peer_terms_of(table)?;
    let balance = balance_of(table)?;
    match network.add_peer(terms, balance, EMPTY) {
        Ok(()) => Ok(network),
        Err(CommandFault::Memory) => Err(ReadError::Memory),
        Err(fault) => {
            let keys = [peer::NAME, peer::TOKEN];
            let wrong = refused(fault, before, table, TableKind::Peer, &keys);
            Err(ReadError::Fault(wrong))
        }
    }
}

#[tactic(auto, unfolding(crate::specs::Networks::with_peers_of))]
fn with_peers_of(network: Network, values: &[Value]) -> Result<Network, ReadError<TenantWrong<'_>>>
    ensures { IfSome (known_value result) (λ more. more ≡ with_peers_of network (items_view values.now)) }
{
    let mut network = network;
    for (at, value) in values.iter().enumerate() {
        let more = with_peer_in(network, &values[..at], value);
        network = at_part(more, TableKind::Peer, at, value)?;
    }
    Ok(network)
}

#[tactic(auto, unfolding(crate::specs::Networks::with_route_of))]
fn with_route_in<'a>(
    alloc: Global,
    version: Version,
    mut network: Network,
    before: &[Value],
    value: &'a Value,
) -> Result<Network, ReadError<Wrong<'a>>>
    ensures { IfSome (known_value result) (λ more. more ≡ with_route_in version network (view value.now)) }
{
    let table = table_in(value, TableKind::Route)?;
    let prefix = prefix_under(alloc, table, route::PREFIX)?;
    let peer = peer_under(&network, table, route::PEER)?;
    let fee = fee_of(version, table)?;
    match network.add_route(prefix, Hop { peer, fee }) {
        Ok(()) => Ok(network),
        Err(CommandFault::Memory) => Err(ReadError::Memory),
        Err(fault) => {
            let wrong = refused(fault, before, table, TableKind::Route, &[route::PREFIX]);
            Err(ReadError::Fault(wrong))
        }
    }
}

#[tactic(auto, unfolding(crate::specs::Networks::with_routes_of))]
fn with_routes_of(
    alloc: Global,
    version: Version,
    network: Network,
    values: &[Value],
) -> Result<Network, ReadError<TenantWrong<'_>>>
    ensures { IfSome (known_value result) (λ more. more ≡ with_routes_of version network (items_view values.now)) }
{
    let mut network = network;
    for (at, value) in values.iter().enumerate() {
        let more = with_route_in(alloc, version, network, &values[..at], value);
        network = at_part(more, TableKind::Route, at, value)?;
    }
    Ok(network)
}

#[tactic(auto, unfolding(crate::specs::Networks::with_rate_of))]
fn with_rate_in(mut network: Network, value: &Value) -> Result<Network, ReadError<Wrong<'_>>>
    ensures { IfSome (known_value result) (λ more. more ≡ with_rate_in network (view value.now)) }
{
    let table = table_in(value, TableKind::Rate)?;
    let rate = rate_of(&network, table)?;
    match network.set_rate(&rate) {
        Ok(()) => Ok(network),
        Err(CommandFault::Memory) => Err(ReadError::Memory),
        Err(fault) => Err(ReadError::Fault(refused(fault, &[], table, TableKind::Rate, &[]))),
    }
}

#[tactic(auto, unfolding(crate::specs::Networks::with_rates_of))]
fn with_rates_of(network: Network, values: &[Value]) -> Result<Network, ReadError<TenantWrong<'_>>>
    ensures { IfSome (known_value result) (λ more. more ≡ with_rates_of network (items_view values.now)) }
{
    let mut network = network;
    for (at, value) in values.iter().enumerate() {
        let more = with_rate_in(network, value);
        network = at_part(more, TableKind::Rate, at, value)?;
    }
    Ok(network)
}

/// Whom the tenant of a table deals with at the start, and how.
#[tactic(auto, unfolding(crate::specs::Networks::network_in_table))]
pub(crate) fn network_of(
    alloc: Global,
    version: Version,
    table: &Table,
) -> Result<Network, ReadError<TenantWrong<'_>>>
    ensures { IfSome (known_value result) (λ network. network ≡ network_in_table version (table_view table.now)) }
{
    let peers = items_under(table, tenant::PEER, TableKind::Peer)?;
    let routes = items_under(table, tenant::ROUTE, TableKind::Route)?;
    let rates = items_under(table, tenant::RATE, TableKind::Rate)?;
    let network = with_peers_of(Network::new(alloc), peers)?;
    let network = with_routes_of(alloc, version, network, routes)?;
    with_rates_of(network, rates)
}
