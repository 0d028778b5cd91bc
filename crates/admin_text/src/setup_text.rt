//! The texts of setups.

ghost use Rattle.std.specs.Prelude.{◌≡◌, IfOk, Ok, map, option_copied, string_bytes};
ghost use Rattle.toml.specs.View.{view, items_view};
ghost use Rattle.tenant_core.specs.Network.{peer_numbered};
ghost use Rattle.admin_text.specs.Anew.{anew, AreTenants};
ghost use Rattle.admin_text.specs.Setup.{setup_of};
ghost use Rattle.admin_text.specs.Told.{AllTold, TellsPeer, TellsRoute, TellsRate, TellsTenant};

use crate::fields::peer::peer_members;
use crate::fields::rate::rate_members;
use crate::fields::route::route_members;
use crate::fields::tenant::tenant_members;
use crate::fields::top::setup_members;
use ilp_addr::Moment;
use route_table::Route;
use std::alloc::{AllocError, Global};
use tenant_core::{Network, Peer, PeerNo, RateTerms, TenantSetup};
use toml::Value;

fn peer_value(alloc: Global, peer: &Peer) -> Result<Value, AllocError>
    ensures { IfOk result (λ value. TellsPeer (view value) peer.now) }
{
    Ok(Value::Table(peer_members(alloc, peer)?))
}

fn peer_values(alloc: Global, peers: &[Peer]) -> Result<Vec<Value>, AllocError>
    ensures { IfOk result (λ values. AllTold TellsPeer (items_view values.items) peers.now) }
{
    let mut values = Vec::new(alloc);
    for peer in peers {
        values.push(peer_value(alloc, peer)?)?;
    }
    Ok(values)
}

// The peer of that number.
fn peer_numbered(network: &Network, number: PeerNo) -> Option<&Peer>
    ensures { option_copied result ≡ peer_numbered number network.now.peers }
{
    let place = network.place_numbered(number)?;
    Some(&network.peers()[place])
}

fn route_value(alloc: Global, network: &Network, route: &Route) -> Result<Value, AllocError>
    ensures { IfOk result (λ value. TellsRoute network.now.peers (view value) route.now) }
{
    let Some(peer) = peer_numbered(network, route.hop.peer) else {
        return Err(AllocError);
    };
    let fee = route.hop.fee;
    let _ = route.prefix.bytes();
    let _ = peer.terms.name.as_bytes();
    let _ = fee.get();
    let table = route_members(alloc, &route.prefix, &peer.terms.name, fee)?;
    Ok(Value::Table(table))
}

fn route_values(
    alloc: Global,
    network: &Network,
    routes: &[Route],
) -> Result<Vec<Value>, AllocError>
    ensures { IfOk result (λ values. AllTold (TellsRoute network.now.peers) (items_view values.items) routes.now) }
{
    let mut values = Vec::new(alloc);
    for route in routes {
        values.push(route_value(alloc, network, route)?)?;
    }
    Ok(values)
}

fn rate_value(alloc: Global, network: &Network, rate: &RateTerms) -> Result<Value, AllocError>
    ensures { IfOk result (λ value. TellsRate network.now.peers (view value) rate.now) }
{
    let Some(from) = peer_numbered(network, rate.from) else {
        return Err(AllocError);
    };
    let Some(to) = peer_numbered(network, rate.to) else {
        return Err(AllocError);
    };
    let _ = from.terms.name.as_bytes();
    let _ = to.terms.name.as_bytes();
    let _ = rate.rate.numerator();
    let table = rate_members(alloc, &from.terms.name, &to.terms.name, rate.rate)?;
    Ok(Value::Table(table))
}

fn rate_values(
    alloc: Global,
    network: &Network,
    rates: &[RateTerms],
) -> Result<Vec<Value>, AllocError>
    ensures { IfOk result (λ values. AllTold (TellsRate network.now.peers) (items_view values.items) rates.now) }
{
    let mut values = Vec::new(alloc);
    for rate in rates {
        values.push(rate_value(alloc, network, rate)?)?;
    }
    Ok(values)
}

fn tenant_value(alloc: Global, tenant: &TenantSetup) -> Result<Value, AllocError>
    ensures { IfOk result (λ value. TellsTenant (view value) tenant.now) }
{
    let terms = tenant.terms();
    let network = &terms.network;
    let peers = peer_values(alloc, network.peers())?;
    let list = network.routes().list(alloc)?;
    let routes = route_values(alloc, network, list.as_slice())?;
    let rates = rate_values(alloc, network, network.rates())?;
    let _ = terms.name.as_bytes();
    let _ = terms.address.as_bytes();
    let _ = terms.admin.as_bytes();
    let table = tenant_members(alloc, terms, peers, routes, rates)?;
    Ok(Value::Table(table))
}

fn tenant_values(alloc: Global, tenants: &[TenantSetup]) -> Result<Vec<Value>, AllocError>
    ensures { IfOk result (λ values. AllTold TellsTenant (items_view values.items) tenants.now) }
{
    let mut values = Vec::new(alloc);
    for tenant in tenants {
        values.push(tenant_value(alloc, tenant)?)?;
    }
    Ok(values)
}

/// The text of a setup of version 2, which starts at that moment. If the tenants are 1 to 64 of different names,
/// [`read_setup`](crate::read_setup) reads them back. Then their peers have new numbers, from 0 in their order, and
/// their buckets hold nothing before a period begins. Fails only if it is out of memory.
pub fn write_setup(
    alloc: Global,
    start: Moment,
    tenants: &[TenantSetup],
) -> Result<String, AllocError>
    ensures read_back { IfOk result (λ text. AreTenants tenants.now
        → setup_of (string_bytes text) ≡ Ok (record { start = start; tenants = map anew tenants.now })) }
{
    ilp_addr::laws::prefix_words();
    ilp_addr::laws::targets();
    let _ = start.millis();
    let tenants = tenant_values(alloc, tenants)?;
    let table = setup_members(alloc, start, tenants)?;
    match toml::table_to_string(alloc, &table) {
        Ok(text) => Ok(text),
        Err(_) => Err(AllocError),
    }
}
