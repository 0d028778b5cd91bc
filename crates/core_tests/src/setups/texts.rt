//! Setups as texts: the first fault of each, and what a good one says.

use super::changes::{changed_setup, changes_and_said};
use admin_text::{Setup, SetupFault, read_setup};
use common_types::ReadError;
use std::alloc::Global;
use std::process::Abort;
use std::test::Fail;
use tenant_core::Network;
use test_texts::{ROUTE, setup_with};

// Changes of the usual setup, and the fault that they bring.
static CHANGES: &str = "\
|version|2 > good
|version|3 > version
|version|0 > version
route|fee|-1 > good
|version|2, route|fee|0 > good
|version|2, route|fee|4611686018427387904 > good
|version|2, route|fee|4611686018427387905 > tenant 0
|version|2, route|fee|-1 > tenant 0
|version|'1' > version
|version|- > version
|version| > toml
|version|9223372036854775808 > toml
|version|'1', |start| > toml
|start|253400000000000 > good
|start|253400000000001 > start
|start|-1 > start
|start|-1893456000000 > start
|start|1.5 > start
acme|journal|- > good
acme|journal|1 > tenant 0
acme|journal|16385 > tenant 0
acme|journal|'64' > tenant 0
acme|margin|60001 > tenant 0
acme|hold|0 > tenant 0
acme|hold|600001 > tenant 0
acme|other|1 > good
bob|name|'alice' > tenant 0
bob|name|'rob' > tenant 0
bob|token|'tok-alice' > tenant 0
bob|role|'parent' > tenant 0
alice|role|'parent' > tenant 0
bob|scale|256 > tenant 0
bob|cap|4611686018427387905 > tenant 0
bob|cap|- > tenant 0
bob|burst|0 > tenant 0
alice|per_second|1000001 > tenant 0
route||[tenant.route] > tenant 0
route|prefix|'g.acme..bob' > tenant 0
route|prefix|'g.acme.bob.' > good
route|prefix|'g.acme.bob..' > tenant 0
rate|to|'alice' > tenant 0
rate|to|'carol' > tenant 0
rate|num|0 > tenant 0
rate|den|0 > tenant 0
rate|den|1000000000001 > tenant 0
empty rate||[[tenant.rate]] > tenant 0
second tenant||[[tenant]] > tenant 1
second tenant||[[tenant]], second tenant|name|'other' > tenant 1
";

// Texts that are no change of the usual setup, and their faults.
static TEXTS: [(&str, &[u8], SetupFault); 3] = [
    ("no line", b"", SetupFault::Version),
    (
        "no tenant",
        b"version = 1\nstart = 0",
        SetupFault::Tenant(0),
    ),
    ("no UTF-8", b"\xff", SetupFault::Toml),
];

// A second route's prefix and peer, and its fault.
static SECOND_ROUTES: &str = "\
'g.acme.bo' to 'bob' > good
'g.acme.bob' to 'bob' > tenant 0
'g.acme.bob.' to 'alice' > tenant 0
'*' to 'alice' > good
'*.' to 'alice' > tenant 0
'' to 'alice' > tenant 0
'.' to 'alice' > tenant 0
'g' to 'alice' > good
'h' to 'alice' > tenant 0
'g.a b' to 'alice' > tenant 0
'test' to 'carol' > tenant 0
";

// The fault of that name in a row.
fn fault_named(name: &str) -> Result<Option<SetupFault>, Fail> {
    match name {
        "good" => Ok(None),
        "toml" => Ok(Some(SetupFault::Toml)),
        "version" => Ok(Some(SetupFault::Version)),
        "start" => Ok(Some(SetupFault::Start)),
        "tenant 0" => Ok(Some(SetupFault::Tenant(0))),
        "tenant 1" => Ok(Some(SetupFault::Tenant(1))),
        _ => Err(Fail::from("a fault")),
    }
}

fn fault_of(alloc: Global, text: &[u8]) -> Option<ReadError<SetupFault>> {
    read_setup(alloc, text).err()
}

fn expect_fault(rt: &impl Abort, alloc: Global, text: &[u8], fault: Option<SetupFault>, row: &str) {
    assert!(rt;
        fault_of(alloc, text) == fault.map(ReadError::Fault),
        "{row}"
    );
}

fn expect_row(rt: &impl Abort, alloc: Global, row: &'static str) -> Result<(), Fail> {
    let (changes, name) = changes_and_said(row)?;
    let text = changed_setup(alloc, changes)?;
    expect_fault(rt, alloc, text.as_bytes(), fault_named(name)?, row);
    Ok(())
}

#[test]
fn setups_give_their_first_fault(rt: HostRuntime) -> Result<(), Fail> {
    let usual = setup_with(rt.alloc(), &[])?;
    expect_fault(&rt, rt.alloc(), usual.as_bytes(), None, "no change");
    for row in CHANGES.lines() {
        expect_row(&rt, rt.alloc(), row)?;
    }
    for (title, text, fault) in &TEXTS {
        expect_fault(&rt, rt.alloc(), text, Some(*fault), title);
    }
    Ok(())
}

// The usual setup with a second route.
fn setup_with_route(
    alloc: Global,
    prefix: &'static str,
    peer: &'static str,
) -> Result<String, Fail> {
    let changes = [
        ("route after", "", ROUTE),
        ("route after", "prefix", prefix),
        ("route after", "peer", peer),
    ];
    setup_with(alloc, &changes)
}

fn expect_second_route(rt: &impl Abort, alloc: Global, row: &'static str) -> Result<(), Fail> {
    let (route, name) = changes_and_said(row)?;
    let (prefix, peer) = route.split_once(" to ").ok_or("a peer")?;
    let text = setup_with_route(alloc, prefix, peer)?;
    expect_fault(rt, alloc, text.as_bytes(), fault_named(name)?, row);
    Ok(())
}

#[test]
fn second_routes(rt: HostRuntime) -> Result<(), Fail> {
    for row in SECOND_ROUTES.lines() {
        expect_second_route(&rt, rt.alloc(), row)?;
    }
    Ok(())
}

fn expect_usual_network(rt: &impl Abort, network: &Network) {
    assert!(rt; network.peers().len() == 2 && network.next_peer() == 2);
    assert!(rt; network.routes().len() == 1);
    assert!(rt; network.rates().len() == 1);
    for rate in network.rates() {
        assert!(rt; rate.from == 0 && rate.to == 1);
    }
}

fn expect_usual(rt: &impl Abort, setup: &Setup) {
    assert!(rt; setup.start.millis() == 1_893_456_000_000);
    let [tenant] = setup.tenants.as_slice() else {
        panic!(rt; "one tenant");
    };
    let terms = tenant.terms();
    assert!(rt; terms.journal == 64 && terms.margin == 1_000 && terms.hold == 30_000);
    expect_usual_network(rt, &terms.network);
}

#[test]
fn a_setup_says_what_its_text_says(rt: HostRuntime) -> Result<(), Fail> {
    let text = setup_with(rt.alloc(), &[])?;
    let setup = read_setup(rt.alloc(), text.as_bytes())?;
    expect_usual(&rt, &setup);
    Ok(())
}
