//! Setups that are written: as a text that is known, and read back.

mod drawn;
mod running;
mod texts;

use super::changes::changed_setup;
use admin_text::{Setup, read_setup, write_setup};
use std::alloc::Global;
use std::process::Abort;
use std::test::Fail;
use test_texts::setup_with;

// The usual setup as it is written: each table's keys in their order, and those that had been left out.
const USUAL: &str = "start = 1893456000000
version = 2

[[tenant]]
address = \"g.acme\"
admin = \"root-a\"
hold = 30000
journal = 64
margin = 1000
name = \"acme\"

[[tenant.peer]]
asset = \"USD\"
balance = 0
burst = 100
cap = 1000000
ceiling = 1000000
credit = 1000000
name = \"alice\"
out_token = \"out-alice\"
per_second = 100
role = \"peer\"
scale = 2
token = \"tok-alice\"
url = \"http://127.0.0.1:7801/ilp\"

[[tenant.peer]]
asset = \"XRP\"
balance = 0
burst = 100
cap = 1000000
ceiling = 1000000
credit = 1000000
name = \"bob\"
out_token = \"out-bob\"
per_second = 100
role = \"child\"
scale = 9
token = \"tok-bob\"
url = \"http://127.0.0.1:7802/ilp\"

[[tenant.rate]]
den = 2
from = \"alice\"
num = 3
to = \"bob\"

[[tenant.route]]
fee = 0
peer = \"bob\"
prefix = \"g.acme.bob\"
";

fn written(alloc: Global, setup: &Setup) -> Result<String, Fail> {
    Ok(write_setup(alloc, setup.start, setup.tenants.as_slice())?)
}

fn written_again(alloc: Global, text: &str) -> Result<String, Fail> {
    let setup = read_setup(alloc, text.as_bytes())?;
    written(alloc, &setup)
}

#[test]
fn the_usual_setup_as_text(rt: HostRuntime) -> Result<(), Fail> {
    let usual = setup_with(rt.alloc(), &[])?;
    let text = written_again(rt.alloc(), usual.as_str())?;
    assert!(rt; text.as_str() == USUAL);
    Ok(())
}

// Changes of the usual setup.
static CHANGES: [&str; 3] = [
    "carol||[[tenant.peer]], rate before||[[tenant.rate]], rate back||[[tenant.rate]]",
    "|version|2, |start|0, route|fee|4611686018427387904, route before||[[tenant.route]], \
    route after||[[tenant.route]], alice|balance|-4611686018427387904, bob|balance|4611686018427387904, bob|cap|0",
    "beta||[[tenant]], beta alice||[[tenant.peer]], beta bob||[[tenant.peer]], beta route||[[tenant.route]], \
    beta rate||[[tenant.rate]]",
];

// What is read back of a written setup is written in the same way, and has as many tenants.
fn expect_back(rt: &impl Abort, alloc: Global, setup: &Setup, text: &str) -> Result<(), Fail> {
    let back = read_setup(alloc, text.as_bytes())?;
    assert!(rt; back.start == setup.start);
    assert!(rt; back.tenants.as_slice().len() == setup.tenants.as_slice().len());
    assert!(rt; written(alloc, &back)?.as_str() == text);
    Ok(())
}

fn expect_read_back(rt: &impl Abort, alloc: Global, text: &str) -> Result<(), Fail> {
    let setup = read_setup(alloc, text.as_bytes())?;
    let first = written(alloc, &setup)?;
    expect_back(rt, alloc, &setup, first.as_str())
}

#[test]
fn written_setups_are_read_back(rt: HostRuntime) -> Result<(), Fail> {
    let alloc = rt.alloc();
    expect_read_back(&rt, alloc, setup_with(alloc, &[])?.as_str())?;
    for changes in CHANGES {
        expect_read_back(&rt, alloc, changed_setup(alloc, changes)?.as_str())?;
    }
    Ok(())
}
