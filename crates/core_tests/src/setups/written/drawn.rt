//! A setup of as many tenants as there can be, drawn by numbers that look random, many of which are bounds.

use super::texts::{
    Dealings, PeerLines, RateLines, RouteLines, TenantLines, push_head, push_tenant,
};
use super::written;
use admin_text::read_setup;
use std::alloc::Global;
use std::process::Abort;
use std::test::Fail;
use test_texts::Draws;

// The greatest moment.
const LATEST: u64 = 253_400_000_000_000;

// 2^62, the most of a limit or a fee, and the most that a peer owes or is owed.
const MOST: u64 = 4_611_686_018_427_387_904;

// The most of either part of a rate.
const MOST_PART: u64 = 1_000_000_000_000;

const NOTHING: PeerLines = PeerLines {
    name: "p",
    role: "peer",
    token: "t",
    url: "http://localhost/",
    out_token: "o",
    asset: "B",
    scale: 0,
    cap: 0,
    ceiling: 0,
    credit: 0,
    burst: 1,
    per_second: 0,
    balance: 0,
};

// The texts of peers, the shortest and the longest among them. A tenant has the first so many, with numbers of their own.
static PEERS: [PeerLines; 6] = [
    NOTHING,
    PeerLines {
        name: "-abcdefghijklmnopqrstuvwxyz-0123",
        token: "abcdefghijklmnopqrstuvwxyzABCDEFGHIJKLMNOPQRSTUVWXYZ012345-._~+/",
        url: "http://127.0.0.1:65535/ilp?of=p&to=q#r",
        out_token: "=/+~_.-9876543210zyxwvutsrqponmlkjihgfedcbaZYXWVUTSRQPONMLKJIHGF",
        asset: "ABCDEFGHIJklmn09",
        ..NOTHING
    },
    PeerLines {
        name: "0",
        token: "p",
        url: "http://[::1]:1/",
        out_token: "p",
        asset: "0",
        ..NOTHING
    },
    PeerLines {
        name: "p-",
        token: "T",
        url: "http://[2001:db8::7]/~p/",
        out_token: "t",
        asset: "USD",
        ..NOTHING
    },
    PeerLines {
        name: "-p",
        token: "=",
        url: "http://10.0.0.255:80/{p}",
        out_token: "=",
        asset: "eur",
        ..NOTHING
    },
    PeerLines {
        name: "p-p",
        token: "-",
        url: "http://localhost:7802/p%20q",
        out_token: ".",
        asset: "XRP",
        ..NOTHING
    },
];

// In the order of their segments.
static PREFIXES: [&str; 9] = [
    "*",
    "g",
    "g.A",
    "g.a",
    "g.a.-",
    "g.a.b",
    "g.ab",
    "private._~-",
    "test3.t.t",
];

// What a peer owes, or is owed.
fn drawn_balance(draws: &mut Draws) -> i64 {
    let amount = i64::try_from(draws.within(0, MOST)).unwrap_or(0);
    if draws.is_one_in(2) {
        amount
    } else {
        0i64.saturating_sub(amount)
    }
}

fn drawn_peer(draws: &mut Draws, texts: &PeerLines) -> PeerLines {
    PeerLines {
        role: if draws.is_one_in(2) { "child" } else { "peer" },
        scale: draws.within(0, 255),
        cap: draws.within(0, MOST),
        ceiling: draws.within(0, MOST),
        credit: draws.within(0, MOST),
        burst: draws.within(1, 1_000_000),
        per_second: draws.within(0, 1_000_000),
        balance: drawn_balance(draws),
        ..*texts
    }
}

fn drawn_peers(alloc: Global, draws: &mut Draws) -> Result<Vec<PeerLines>, Fail> {
    let count = draws.within(1, 6) as usize;
    let mut peers = Vec::new(alloc);
    for texts in PEERS.iter().take(count) {
        peers.push(drawn_peer(draws, texts))?;
    }
    Ok(peers)
}

// One of these peers.
fn name_of_one(draws: &mut Draws, peers: &[PeerLines]) -> &'static str {
    let place = draws.below(peers.len() as u64) as usize;
    peers.get(place).map_or("", |peer| peer.name)
}

// Routes for all of the prefixes, for some or for none.
fn drawn_routes(
    alloc: Global,
    draws: &mut Draws,
    peers: &[PeerLines],
) -> Result<Vec<RouteLines>, Fail> {
    let times = draws.within(1, 64);
    let mut routes = Vec::new(alloc);
    for prefix in PREFIXES {
        if draws.is_one_in(times) {
            routes.push(RouteLines {
                prefix,
                peer: name_of_one(draws, peers),
                fee: draws.within(0, MOST),
            })?;
        }
    }
    Ok(routes)
}

// Rates from a peer to some of the others.
fn draw_rates_from(
    draws: &mut Draws,
    rates: &mut Vec<RateLines>,
    from: &'static str,
    peers: &[PeerLines],
) -> Result<(), Fail> {
    for peer in peers {
        if peer.name != from && draws.is_one_in(2) {
            rates.push(RateLines {
                from,
                to: peer.name,
                num: draws.within(1, MOST_PART),
                den: draws.within(1, MOST_PART),
            })?;
        }
    }
    Ok(())
}

fn drawn_rates(
    alloc: Global,
    draws: &mut Draws,
    peers: &[PeerLines],
) -> Result<Vec<RateLines>, Fail> {
    let mut rates = Vec::new(alloc);
    for peer in peers {
        draw_rates_from(draws, &mut rates, peer.name, peers)?;
    }
    Ok(rates)
}

fn drawn_terms<'a>(
    draws: &mut Draws,
    name: &'a str,
    address: &'a str,
    admin: &'a str,
) -> TenantLines<'a> {
    TenantLines {
        name,
        address,
        admin,
        journal: draws.within(2, 16_384),
        margin: draws.within(0, 60_000),
        hold: draws.within(1, 600_000),
    }
}

fn push_numbered(
    alloc: Global,
    text: &mut String,
    draws: &mut Draws,
    number: &str,
    dealings: &Dealings,
) -> Result<(), Fail> {
    let name = ["t", number].concat(alloc)?;
    let address = ["g.t", number].concat(alloc)?;
    let admin = ["root-", number].concat(alloc)?;
    let tenant = drawn_terms(draws, name.as_str(), address.as_str(), admin.as_str());
    Ok(push_tenant(alloc, text, &tenant, dealings)?)
}

fn push_drawn(
    alloc: Global,
    text: &mut String,
    draws: &mut Draws,
    number: &str,
    peers: &[PeerLines],
) -> Result<(), Fail> {
    let rates = drawn_rates(alloc, draws, peers)?;
    let routes = drawn_routes(alloc, draws, peers)?;
    let dealings = Dealings {
        peers,
        rates: rates.as_slice(),
        routes: routes.as_slice(),
    };
    push_numbered(alloc, text, draws, number, &dealings)
}

fn push_drawn_tenant(
    alloc: Global,
    text: &mut String,
    draws: &mut Draws,
    number: u64,
) -> Result<(), Fail> {
    let number = number.to_string(alloc)?;
    let peers = drawn_peers(alloc, draws)?;
    push_drawn(alloc, text, draws, number.as_str(), peers.as_slice())
}

fn push_drawn_setup(alloc: Global, text: &mut String, seed: u64) -> Result<(), Fail> {
    let mut draws = Draws::new(seed);
    push_head(alloc, text, LATEST)?;
    for number in 0..64u64 {
        push_drawn_tenant(alloc, text, &mut draws, number)?;
    }
    Ok(())
}

// The text of a setup of 64 tenants.
fn drawn_setup(alloc: Global, seed: u64) -> Result<String, Fail> {
    let mut text = String::new(alloc);
    push_drawn_setup(alloc, &mut text, seed)?;
    Ok(text)
}

// Lines that are drawn for some tenant: each number at both its bounds, each role, and no rates and no routes.
static BOUNDS: &str = "\
balance = -4611686018427387904
balance = 4611686018427387904
burst = 1
burst = 1000000
cap = 0
cap = 4611686018427387904
ceiling = 0
ceiling = 4611686018427387904
credit = 0
credit = 4611686018427387904
per_second = 0
per_second = 1000000
scale = 0
scale = 255
den = 1
den = 1000000000000
num = 1
num = 1000000000000
fee = 0
fee = 4611686018427387904
hold = 1
hold = 600000
journal = 2
journal = 16384
margin = 0
margin = 60000
role = \"child\"
role = \"peer\"
rate = []
route = []
";

fn has_line(text: &str, wanted: &str) -> bool {
    for line in text.lines() {
        if line == wanted {
            return true;
        }
    }
    false
}

fn expect_bounds(rt: &impl Abort, drawn: &str) {
    for line in BOUNDS.lines() {
        assert!(rt; has_line(drawn, line), "{line}");
    }
}

// The text of the setup that a text says, which has 64 tenants.
fn expect_written(rt: &impl Abort, alloc: Global, text: &str) -> Result<String, Fail> {
    let setup = read_setup(alloc, text.as_bytes())?;
    assert!(rt; setup.tenants.as_slice().len() == 64);
    written(alloc, &setup)
}

#[test]
fn drawn_tenants_are_written_as_they_were_drawn(rt: HostRuntime) -> Result<(), Fail> {
    let alloc = rt.alloc();
    let drawn = drawn_setup(alloc, 0x9e37_79b9_7f4a_7c15)?;
    expect_bounds(&rt, drawn.as_str());
    let first = expect_written(&rt, alloc, drawn.as_str())?;
    assert!(rt; first.as_str() == drawn.as_str());
    let second = expect_written(&rt, alloc, first.as_str())?;
    assert!(rt; second.as_str() == drawn.as_str());
    Ok(())
}
