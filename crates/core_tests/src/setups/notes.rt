//! Possible faults in the money of a good setup, in words for people: a row for each kind, and for good ones.

use super::changes::{changed_setup, changes_and_said};
use admin_text::notes;
use std::alloc::Global;
use std::process::Abort;
use std::str;
use std::test::Fail;

// Changes of the usual setup, and what is said of it then, each line after a semicolon.
static CHANGES: &str = "\
acme|other|1 > nothing
|start|0 > nothing
|start|1 > start looks like seconds, and counts milliseconds
|start|99999999999 > start looks like seconds, and counts milliseconds
|start|100000000000 > nothing
route||- > tenant acme has no route: it sends no packet on
rate||- > tenant acme has no rate: it sends no packet on; \
    tenant acme has a route to bob and no rate to it: it sends no packet there
route after||[[tenant.route]] > tenant acme has a route to alice and no rate to it: it sends no packet there
rate back||[[tenant.rate]] > tenant acme loses by its rates between alice and bob: what is sent there and back comes out \
    as more
rate back||[[tenant.rate]], rate back|num|2, rate back|den|3 > nothing
rate back||[[tenant.rate]], rate back|num|200000000001, rate back|den|300000000000 > tenant acme loses by its rates \
    between alice and bob: what is sent there and back comes out as more
rate back||[[tenant.rate]], rate back|num|2, rate after||[[tenant.rate]] > nothing
|version|3, route||- > nothing
";

fn put_said(alloc: Global, text: &[u8], said: &mut Vec<u8>) -> Result<(), Fail> {
    let found = notes(alloc, text)?;
    if found.as_slice().is_empty() {
        said.extend_from_slice(b"nothing")?;
    }
    for note in found.as_slice() {
        if !said.is_empty() {
            said.extend_from_slice(b"; ")?;
        }
        note.put_words(said)?;
    }
    Ok(())
}

fn expect_said(rt: &impl Abort, alloc: Global, row: &'static str) -> Result<(), Fail> {
    let (changes, wanted) = changes_and_said(row)?;
    let text = changed_setup(alloc, changes)?;
    let mut said = Vec::new(alloc);
    put_said(alloc, text.as_bytes(), &mut said)?;
    let said = str::from_utf8(said.as_slice())?;
    assert!(rt; said == wanted, "{said}, and not {wanted}");
    Ok(())
}

#[test]
fn what_may_be_wrong_with_money_is_said(rt: HostRuntime) -> Result<(), Fail> {
    for row in CHANGES.lines() {
        expect_said(&rt, rt.alloc(), row)?;
    }
    Ok(())
}
