//! The limits of setups: each met, and then passed by one.

use admin_text::{SetupFault, read_setup};
use common_types::ReadError;
use std::alloc::{AllocError, Global};
use std::process::Abort;
use std::test::Fail;
use test_texts::{Line, setup_with};

// Whose it is and the key, the greatest value or the least, and one past it. The setup is good with the first.
static NUMBERS: &str = "\
|start: 253400000000000, 253400000000001
|start: 0, -1
acme|journal: 2, 1
acme|journal: 16384, 16385
acme|margin: 0, -1
acme|margin: 60000, 60001
acme|hold: 1, 0
acme|hold: 600000, 600001
alice|scale: 0, -1
alice|scale: 255, 256
alice|cap: 0, -1
alice|cap: 4611686018427387904, 4611686018427387905
alice|ceiling: 0, -1
alice|ceiling: 4611686018427387904, 4611686018427387905
alice|credit: 0, -1
alice|credit: 4611686018427387904, 4611686018427387905
alice|burst: 1, 0
alice|burst: 1000000, 1000001
alice|per_second: 0, -1
alice|per_second: 1000000, 1000001
alice|balance: 4611686018427387904, 4611686018427387905
alice|balance: -4611686018427387904, -4611686018427387905
rate|num: 1, 0
rate|num: 1000000000000, 1000000000001
rate|den: 1, 0
rate|den: 1000000000000, 1000000000001
";

// A text of the usual setup, how one that is as long as may be begins, the letter that fills it up, and how long it is.
static TEXTS: [(&str, &str, &str, usize); 8] = [
    ("acme", "", "a", 32),
    ("g.acme", "g.", "a", 900),
    ("root-a", "", "t", 64),
    ("tok-bob", "", "t", 64),
    ("out-bob", "", "t", 64),
    ("XRP", "B2", "t", 16),
    (
        "http://127.0.0.1:7802/ilp",
        "http://127.0.0.1:7802/",
        "p",
        255,
    ),
    ("http://127.0.0.1:7801/ilp", "http://[::1]/", "p", 255),
];

fn fault_of(alloc: Global, text: &str) -> Option<ReadError<SetupFault>> {
    read_setup(alloc, text.as_bytes()).err()
}

// The fault of the usual setup with another line.
fn fault_with(alloc: Global, line: Line) -> Result<Option<ReadError<SetupFault>>, Fail> {
    let text = setup_with(alloc, &[line])?;
    Ok(fault_of(alloc, text.as_str()))
}

// The four parts of a row of the numbers.
fn parts_of(row: &'static str) -> Option<(&'static str, &'static str, &'static str, &'static str)> {
    let (number, values) = row.split_once(": ")?;
    let (whose, key) = number.split_once('|')?;
    let (last, past) = values.split_once(", ")?;
    Some((whose, key, last, past))
}

// The fault of a number that is past its limit.
fn fault_past(key: &str) -> SetupFault {
    if key == "start" {
        SetupFault::Start
    } else {
        SetupFault::Tenant(0)
    }
}

fn expect_limit(rt: &impl Abort, alloc: Global, row: &'static str) -> Result<(), Fail> {
    let (whose, key, last, past) = parts_of(row).ok_or("four parts")?;
    assert!(rt; fault_with(alloc, (whose, key, last))?.is_none(), "{row}");
    let wanted = Some(ReadError::Fault(fault_past(key)));
    assert!(rt; fault_with(alloc, (whose, key, past))? == wanted, "{row}");
    Ok(())
}

#[test]
fn numbers_meet_their_limits(rt: HostRuntime) -> Result<(), Fail> {
    for row in NUMBERS.lines() {
        expect_limit(&rt, rt.alloc(), row)?;
    }
    Ok(())
}

fn quoted(alloc: Global, text: &str) -> Result<String, AllocError> {
    ["\"", text, "\""].concat(alloc)
}

// The usual setup with another text in the place of that one.
fn setup_instead(alloc: Global, old: &str, new: &str) -> Result<String, Fail> {
    let old = quoted(alloc, old)?;
    let new = quoted(alloc, new)?;
    let text = setup_with(alloc, &[])?;
    Ok(text.replace(alloc, old.as_str(), new.as_str())?)
}

fn expect_instead(
    rt: &impl Abort,
    alloc: Global,
    old: &str,
    new: &str,
    fault: Option<SetupFault>,
) -> Result<(), Fail> {
    let text = setup_instead(alloc, old, new)?;
    let found = fault_of(alloc, text.as_str());
    assert!(rt; found == fault.map(ReadError::Fault), "{new} for {old}");
    Ok(())
}

// The text that begins so and is filled up to that length.
fn filled(alloc: Global, front: &str, filling: &str, length: usize) -> Result<String, AllocError> {
    let rest = filling.repeat(alloc, length.saturating_sub(front.len()))?;
    [front, rest.as_str()].concat(alloc)
}

fn expect_longest(
    rt: &impl Abort,
    alloc: Global,
    old: &str,
    longest: &str,
    longer: &str,
) -> Result<(), Fail> {
    expect_instead(rt, alloc, old, longest, None)?;
    let fault = Some(SetupFault::Tenant(0));
    expect_instead(rt, alloc, old, longer, fault)?;
    expect_instead(rt, alloc, old, "", fault)
}

#[test]
fn texts_meet_their_limits(rt: HostRuntime) -> Result<(), Fail> {
    let alloc = rt.alloc();
    for (old, front, filling, most) in TEXTS {
        let longest = filled(alloc, front, filling, most)?;
        let longer = filled(alloc, front, filling, most.saturating_add(1))?;
        expect_longest(&rt, alloc, old, longest.as_str(), longer.as_str())?;
    }
    Ok(())
}
