//! Commands: texts that are written back as they are or in their shortest form, and texts with a fault.

use admin_text::{TextFault, parse_command, write_command};
use common_types::ReadError;
use std::alloc::Global;
use std::process::Abort;
use std::test::Fail;

// Commands that are written back as they are.
static GOOD: &str = "\
peer add alice child tok-a http://127.0.0.1:7801/ilp out-a USD 2 1500 1000000 0 100 50
peer add b peer t http://[::1]/ o mBTC9 255 0 4611686018427387904 4611686018427387904 1000000 0
peer remove alice
peer limits alice 0 1 4611686018427387904
peer bucket alice 1 1000000
route add g.a bob
route add * bob
route add g bob
route remove *
rate set alice bob 1 1000000000000
settle in alice 4611686018427387904
settle out alice 1
balances
roll
";

// Commands, and how they are written.
static SHORTER: [(&str, &str); 2] = [
    ("route add g.a. bob", "route add g.a bob"),
    ("route remove g.a.", "route remove g.a"),
];

fn written_again(alloc: Global, text: &str) -> Result<Vec<u8>, Fail> {
    let command = parse_command(alloc, text.as_bytes())?;
    Ok(write_command(alloc, &command)?)
}

fn expect_written(rt: &impl Abort, alloc: Global, text: &str, wanted: &str) -> Result<(), Fail> {
    let written = written_again(alloc, text)?;
    assert!(rt; written.as_slice() == wanted.as_bytes(), "{text}");
    Ok(())
}

#[test]
fn commands_written_again(rt: HostRuntime) -> Result<(), Fail> {
    let alloc = rt.alloc();
    for text in GOOD.lines() {
        expect_written(&rt, alloc, text, text)?;
    }
    for (text, wanted) in SHORTER {
        expect_written(&rt, alloc, text, wanted)?;
        expect_written(&rt, alloc, wanted, wanted)?;
    }
    Ok(())
}

static UNKNOWN: [&str; 14] = [
    "",
    " ",
    "rates",
    "peer",
    "peer ",
    "peer  add",
    "peer set alice",
    "Peer remove alice",
    " roll",
    "route",
    "route set g.a bob",
    "rate add alice bob 1 2",
    "settle alice 1",
    "balance",
];

// A space at the end of a line is written by its number.
static ARGUMENTS: &str = "\
roll\x20
roll now
balances alice
peer add
peer add alice
peer add Alice child t http://localhost/ o USD 2 1 1 1 1 1
peer add alice parent t http://localhost/ o USD 2 1 1 1 1 1
peer add alice child , http://localhost/ o USD 2 1 1 1 1 1
peer add alice child t http://localhost o USD 2 1 1 1 1 1
peer add alice child t http://localhost:0/ o USD 2 1 1 1 1 1
peer add alice child t http://localhost:65536/ o USD 2 1 1 1 1 1
peer add alice child t http://localhost/ , USD 2 1 1 1 1 1
peer add alice child t http://localhost/
peer add alice child t http://localhost/ o US-D 2 1 1 1 1 1
peer add alice child t http://localhost/ o USD 02 1 1 1 1 1
peer add alice child t http://localhost/ o USD 2 -1 1 1 1 1
peer add alice child t http://localhost/ o USD 2 1 1 1 1
peer add alice child t http://localhost/ o USD 2 1 1 1 1 1 1
peer add  alice child t http://localhost/ o USD 2 1 1 1 1 1
peer remove
peer remove\x20
peer remove alice bob
peer remove ALICE
peer limits alice 1 2
peer limits alice 1 2 3 4
peer limits alice 1 2 x
peer limits ali_ce 1 2 3
peer bucket alice 1
peer bucket alice 1 1 1
peer bucket alice 1 +1
route add g.a
route add g.a\x20
route add  bob
route add g.a bob alice
route add . bob
route add gg bob
route add g..a bob
route add g.a Bob
route remove
route remove g.a bob
route remove g.a*
rate set alice alice 1 2
rate set alice alice 0 2
rate set alice bob 01 2
rate set alice bob 1
rate set alice bob 1 2 3
rate set alice
settle in alice
settle out alice 1 1
settle in alice 1_000
";

static RANGES: &str = "\
peer add alice child t http://localhost/ o USD 256 1 1 1 1 1
peer add alice child t http://localhost/ o USD 2 4611686018427387905 1 1 1 1
peer add alice child t http://localhost/ o USD 2 1 1 1 0 1
peer add alice child t http://localhost/ o USD 2 1 1 1 1 1000001
peer limits alice 4611686018427387905 x
peer limits alice 1 18446744073709551616 1
peer limits alice 1 1 4611686018427387905
peer bucket alice 0 1
peer bucket alice 1000001 1
peer bucket alice 1 1000001
rate set alice bob 0 2
rate set alice bob 1 0
rate set alice bob 1000000000001 x
settle in alice 0
settle in alice 4611686018427387905
";

fn expect_fault(rt: &impl Abort, alloc: Global, text: &str, wanted: TextFault) {
    let fault = match parse_command(alloc, text.as_bytes()) {
        Err(ReadError::Fault(fault)) => Some(fault),
        _ => None,
    };
    assert!(rt; fault == Some(wanted), "{text}");
}

#[test]
fn commands_with_a_fault(rt: HostRuntime) -> Result<(), Fail> {
    let alloc = rt.alloc();
    for text in UNKNOWN {
        expect_fault(&rt, alloc, text, TextFault::Verb);
    }
    for text in ARGUMENTS.lines() {
        expect_fault(&rt, alloc, text, TextFault::Argument);
    }
    for text in RANGES.lines() {
        expect_fault(&rt, alloc, text, TextFault::Range);
    }
    Ok(())
}
