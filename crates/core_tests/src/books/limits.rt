//! The limits of setups and networks.

use std::alloc::Global;
use std::process::Abort;
use std::test::Fail;
use tenant_core::{CommandFault, Network, number_named};
use test_texts::books::{USUAL, add_peer, add_route, name, network, set_rate, tenant};

// Places of a journal, margin and longest hold, and whether they are a setup's.
static SETUPS: [(u64, u64, u64, bool); 8] = [
    (1, 1_000, 30_000, false),
    (2, 0, 1, true),
    (16_384, 60_000, 600_000, true),
    (16_385, 1_000, 30_000, false),
    (2, 60_001, 30_000, false),
    (2, 1_000, 0, false),
    (2, 1_000, 600_001, false),
    (2, u64::MAX, 30_000, false),
];

fn is_setup(alloc: Global, journal: u64, margin: u64, hold: u64) -> Result<bool, Fail> {
    Ok(tenant(alloc, journal, margin, hold, USUAL)?.is_some())
}

#[test]
fn limits_of_a_setup(rt: HostRuntime) -> Result<(), Fail> {
    for (journal, margin, hold, is_within) in SETUPS {
        let found = is_setup(rt.alloc(), journal, margin, hold)?;
        assert!(rt; found == is_within, "{journal} {margin} {hold}");
    }
    Ok(())
}

fn expect_fault(rt: &impl Abort, found: Result<(), CommandFault>, wanted: CommandFault) {
    assert!(rt; found == Err(wanted));
}

fn expect_no_more_peers(rt: &impl Abort, alloc: Global, network: &mut Network) -> Result<(), Fail> {
    expect_fault(
        rt,
        add_peer(alloc, network, 256, USUAL)?,
        CommandFault::Limit,
    );
    expect_fault(
        rt,
        add_peer(alloc, network, 255, USUAL)?,
        CommandFault::Present,
    );
    Ok(())
}

// Of 65 peers, 4,096 pairs have a rate, and then one more has none.
fn expect_no_more_rates(rt: &impl Abort, alloc: Global, network: &mut Network) -> Result<(), Fail> {
    for pair in 0..4_096u32 {
        let from = pair / 64;
        let other = pair % 64;
        let to = if other < from { other } else { other + 1 };
        set_rate(alloc, network, from, to, (1, 1))??;
    }
    expect_fault(
        rt,
        set_rate(alloc, network, 64, 0, (1, 1))?,
        CommandFault::Limit,
    );
    set_rate(alloc, network, 0, 1, (2, 1))??;
    Ok(())
}

fn add_numbered_route(alloc: Global, network: &mut Network, number: u32) -> Result<(), Fail> {
    let prefix = format!(in alloc; "g.r{number}")?;
    add_route(alloc, network, prefix.as_bytes(), b"p0")??;
    Ok(())
}

fn expect_no_more_routes(
    rt: &impl Abort,
    alloc: Global,
    network: &mut Network,
) -> Result<(), Fail> {
    for route in 1..4_096u32 {
        add_numbered_route(alloc, network, route)?;
    }
    let more = add_route(alloc, network, b"g.one-more", b"p0")?;
    expect_fault(rt, more, CommandFault::Limit);
    let again = add_route(alloc, network, b"g.r1", b"p0")?;
    expect_fault(rt, again, CommandFault::Present);
    Ok(())
}

fn expect_limits(rt: &impl Abort, alloc: Global, network: &mut Network) -> Result<(), Fail> {
    expect_no_more_peers(rt, alloc, network)?;
    expect_no_more_rates(rt, alloc, network)?;
    expect_no_more_routes(rt, alloc, network)
}

#[test]
fn limits_of_a_network(rt: HostRuntime) -> Result<(), Fail> {
    let alloc = rt.alloc();
    let mut network = network(alloc, USUAL, 256)?;
    expect_limits(&rt, alloc, &mut network)
}

// A peer that comes, has this number, and goes.
fn expect_number(
    rt: &impl Abort,
    alloc: Global,
    network: &mut Network,
    number: u32,
) -> Result<(), Fail> {
    add_peer(alloc, network, 0, USUAL)??;
    let found = number_named(network, &name(b"p0")?).ok_or("the peer")?;
    assert!(rt; u32::from(found) == number);
    if network.routes().names_peer(found) {
        panic!(rt; "no route leads to it");
    }
    network.remove_peer(found)?;
    Ok(())
}

fn expect_numbers(rt: &impl Abort, alloc: Global, network: &mut Network) -> Result<(), Fail> {
    for number in 0..65_535u32 {
        expect_number(rt, alloc, network, number)?;
    }
    expect_fault(rt, add_peer(alloc, network, 0, USUAL)?, CommandFault::Limit);
    Ok(())
}

#[test]
fn numbers_of_peers_are_never_used_again(rt: HostRuntime) -> Result<(), Fail> {
    let mut network = Network::new(rt.alloc());
    expect_numbers(&rt, rt.alloc(), &mut network)
}
