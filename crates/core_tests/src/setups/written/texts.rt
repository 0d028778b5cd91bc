//! What setups say as plain values, and the texts in which they are written: each table's keys in the order of the alphabet.

use std::alloc::{AllocError, Global};

/// What a setup says of a tenant, but for whom it deals with.
#[derive(Clone, Copy)]
pub struct TenantLines<'a> {
    pub name: &'a str,
    pub address: &'a str,
    pub admin: &'a str,
    pub journal: u64,
    pub margin: u64,
    pub hold: u64,
}

#[derive(Clone, Copy)]
pub struct PeerLines {
    pub name: &'static str,
    pub role: &'static str,
    pub token: &'static str,
    pub url: &'static str,
    pub out_token: &'static str,
    pub asset: &'static str,
    pub scale: u64,
    pub cap: u64,
    pub ceiling: u64,
    pub credit: u64,
    pub burst: u64,
    pub per_second: u64,
    pub balance: i64,
}

#[derive(Clone, Copy)]
pub struct RouteLines {
    pub prefix: &'static str,
    pub peer: &'static str,
    pub fee: u64,
}

#[derive(Clone, Copy)]
pub struct RateLines {
    pub from: &'static str,
    pub to: &'static str,
    pub num: u64,
    pub den: u64,
}

/// Whom a tenant deals with, at which rates and by which routes. There is one peer at least.
#[derive(Clone, Copy)]
pub struct Dealings<'a> {
    pub peers: &'a [PeerLines],
    pub rates: &'a [RateLines],
    pub routes: &'a [RouteLines],
}

fn push_line(text: &mut String, key: &str, value: &str) -> Result<(), AllocError> {
    text.push_str(key)?;
    text.push_str(" = ")?;
    text.push_str(value)?;
    text.push_str("\n")
}

fn push_text(text: &mut String, key: &str, value: &str) -> Result<(), AllocError> {
    text.push_str(key)?;
    text.push_str(" = \"")?;
    text.push_str(value)?;
    text.push_str("\"\n")
}

fn push_number(alloc: Global, text: &mut String, key: &str, value: u64) -> Result<(), AllocError> {
    push_line(text, key, value.to_string(alloc)?.as_str())
}

// The keys of a peer from `asset` to `credit`.
fn push_money(alloc: Global, text: &mut String, peer: &PeerLines) -> Result<(), AllocError> {
    push_text(text, "asset", peer.asset)?;
    push_line(text, "balance", peer.balance.to_string(alloc)?.as_str())?;
    push_number(alloc, text, "burst", peer.burst)?;
    push_number(alloc, text, "cap", peer.cap)?;
    push_number(alloc, text, "ceiling", peer.ceiling)?;
    push_number(alloc, text, "credit", peer.credit)
}

// Those from `name` to `url`.
fn push_party(alloc: Global, text: &mut String, peer: &PeerLines) -> Result<(), AllocError> {
    push_text(text, "name", peer.name)?;
    push_text(text, "out_token", peer.out_token)?;
    push_number(alloc, text, "per_second", peer.per_second)?;
    push_text(text, "role", peer.role)?;
    push_number(alloc, text, "scale", peer.scale)?;
    push_text(text, "token", peer.token)?;
    push_text(text, "url", peer.url)
}

fn push_peers(alloc: Global, text: &mut String, peers: &[PeerLines]) -> Result<(), AllocError> {
    for peer in peers {
        text.push_str("\n[[tenant.peer]]\n")?;
        push_money(alloc, text, peer)?;
        push_party(alloc, text, peer)?;
    }
    Ok(())
}

fn push_rate(alloc: Global, text: &mut String, rate: &RateLines) -> Result<(), AllocError> {
    text.push_str("\n[[tenant.rate]]\n")?;
    push_number(alloc, text, "den", rate.den)?;
    push_text(text, "from", rate.from)?;
    push_number(alloc, text, "num", rate.num)?;
    push_text(text, "to", rate.to)
}

fn push_rates(alloc: Global, text: &mut String, rates: &[RateLines]) -> Result<(), AllocError> {
    for rate in rates {
        push_rate(alloc, text, rate)?;
    }
    Ok(())
}

fn push_route(alloc: Global, text: &mut String, route: &RouteLines) -> Result<(), AllocError> {
    text.push_str("\n[[tenant.route]]\n")?;
    push_number(alloc, text, "fee", route.fee)?;
    push_text(text, "peer", route.peer)?;
    push_text(text, "prefix", route.prefix)
}

fn push_routes(alloc: Global, text: &mut String, routes: &[RouteLines]) -> Result<(), AllocError> {
    for route in routes {
        push_route(alloc, text, route)?;
    }
    Ok(())
}

// A tenant's own lines.
fn push_terms(alloc: Global, text: &mut String, tenant: &TenantLines) -> Result<(), AllocError> {
    text.push_str("\n[[tenant]]\n")?;
    push_text(text, "address", tenant.address)?;
    push_text(text, "admin", tenant.admin)?;
    push_number(alloc, text, "hold", tenant.hold)?;
    push_number(alloc, text, "journal", tenant.journal)?;
    push_number(alloc, text, "margin", tenant.margin)?;
    push_text(text, "name", tenant.name)
}

// The lines of the arrays without tables, which are among the tenant's own.
fn push_none(text: &mut String, dealings: &Dealings) -> Result<(), AllocError> {
    if dealings.rates.is_empty() {
        text.push_str("rate = []\n")?;
    }
    if dealings.routes.is_empty() {
        text.push_str("route = []\n")?;
    }
    Ok(())
}

/// A tenant's lines.
pub fn push_tenant(
    alloc: Global,
    text: &mut String,
    tenant: &TenantLines,
    dealings: &Dealings,
) -> Result<(), AllocError> {
    push_terms(alloc, text, tenant)?;
    push_none(text, dealings)?;
    push_peers(alloc, text, dealings.peers)?;
    push_rates(alloc, text, dealings.rates)?;
    push_routes(alloc, text, dealings.routes)
}

/// How a setup of version 2 begins.
pub fn push_head(alloc: Global, text: &mut String, start: u64) -> Result<(), AllocError> {
    push_number(alloc, text, "start", start)?;
    push_number(alloc, text, "version", 2)
}
