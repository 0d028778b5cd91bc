//! Replays of whole scripts: what is loaded, what is malformed, and what goes on.

use crate::rows::{expect_rows, expect_written, written};
use admin_text::SetupFault;
use replay_text::{ReplayFault, ScriptFault};
use std::alloc::Global;
use std::process::Abort;
use std::test::Fail;
use test_texts::{Line, filled, setup_with};

static ROWS: &str = "\
== the forwarded frame
>> alice|{base}|{T}|send bob 0 {sent}
== long spellings kept
>> alice|{long}|{T}|send bob 0 {long sent}
== nothing
== a busy worker
> load 0 acme tok-alice {base}
> load 0 acme tok-alice {base}
> decide 0 {T}
> load 0 acme tok-alice {base}
> decide 0 {T}
acme loaded 0
- busy
acme send bob 0 {sent}
- busy
- idle
== an idle worker
> decide 0 {T}
- idle
== expired
>> alice|{base until 0 s}|{T}|reply {R02}
== no time left to the next peer
>> alice|{base until 1 s}|{T}|reply {R02}
== no route
>> alice|{other}|{T}|reply {F02}
== the route leads back
>> bob|{base}|{T}|reply {F02}
== a stranger
>> none|{base}|{T}|stranger
>> alice|{base}|{T}|send bob 0 {sent}
== a length of a reserved form
> load 0 acme tok-alice 0c80
> load 0 acme tok-alice 0c89
> decide 0 {T}
acme bad oer
acme bad oer
- idle
== a frame cut short
> load 0 acme tok-alice {base cut}
acme bad oer
== a byte after the frame
> load 0 acme tok-alice {base}00
acme bad after
== no bytes
> load 0 acme tok-alice -
acme bad kind
== no date
> load 0 acme tok-alice {base in month 13}
acme bad field
== upper case
>> alice|{BASE}|{T}|send bob 0 {sent}
== a clock that doesn't go back
>> alice|{base}|{T+10000}|reply {R02}
>> alice|{base}|{T}|reply {R02}
== a journal with room for one packet
| acme|journal|2
>> alice|{base}|{T}|send bob 0 {sent}
";

const OPEN_SCRIPT: &str = "# a comment\n\nload 0 acme tok-alice {base}\ndecide 0 {T}";

// How often a frame has the byte 12, and its line.
static LARGE_FRAMES: [(usize, &str); 2] = [
    (34_001, "acme bad size\n"),
    (34_000, "acme bad after\n"),
];

// Comments and empty lines print nothing, and the last line need not end.
fn expect_open(rt: &impl Abort, alloc: Global) -> Result<(), Fail> {
    let setup = setup_with(alloc, &[])?;
    let script = filled(alloc, OPEN_SCRIPT)?;
    let lines = filled(alloc, "acme loaded 0\nacme send bob 0 {sent}\n")?;
    expect_written(rt, alloc, setup.as_str(), script.as_str(), lines.as_str())
}

fn expect_large(rt: &impl Abort, alloc: Global, rows: &[(usize, &str)]) -> Result<(), Fail> {
    let setup = setup_with(alloc, &[])?;
    for (bytes, line) in rows {
        let frame = "0c".repeat(alloc, *bytes)?;
        let script = ["load 0 acme tok-alice ", frame.as_str(), "\n"].concat(alloc)?;
        expect_written(rt, alloc, setup.as_str(), script.as_str(), line)?;
    }
    Ok(())
}

#[test]
fn scripts_print_their_lines(rt: HostRuntime) -> Result<(), Fail> {
    let alloc = rt.alloc();
    expect_rows(&rt, alloc, ROWS)?;
    expect_open(&rt, alloc)?;
    expect_large(&rt, alloc, &LARGE_FRAMES)
}

/// A replay that fails, with the fault, the status of a program that it ends, and the text.
struct Refusal {
    changes: &'static [Line],
    script: &'static str,
    fault: ReplayFault,
    status: u8,
    text: &'static str,
}

static REFUSALS: [Refusal; 6] = [
    Refusal {
        changes: &[("", "start", "")],
        script: "tick\n",
        fault: ReplayFault::Setup(SetupFault::Toml),
        status: 3,
        text: "setup: toml",
    },
    Refusal {
        changes: &[("", "version", "3")],
        script: "tick\n",
        fault: ReplayFault::Setup(SetupFault::Version),
        status: 3,
        text: "setup: version",
    },
    Refusal {
        changes: &[("", "start", "-1")],
        script: "tick\n",
        fault: ReplayFault::Setup(SetupFault::Start),
        status: 3,
        text: "setup: start",
    },
    Refusal {
        changes: &[("acme", "journal", "1")],
        script: "",
        fault: ReplayFault::Setup(SetupFault::Tenant(0)),
        status: 3,
        text: "setup: tenant 0",
    },
    Refusal {
        changes: &[("second tenant", "", "[[tenant]]")],
        script: "",
        fault: ReplayFault::Setup(SetupFault::Tenant(1)),
        status: 3,
        text: "setup: tenant 1",
    },
    Refusal {
        changes: &[],
        script: "decide 0 0\ntick\n",
        fault: ReplayFault::Script(ScriptFault::Line(2)),
        status: 4,
        text: "script: line 2",
    },
];

fn expect_refused(rt: &impl Abort, alloc: Global, refusal: &Refusal) -> Result<(), Fail> {
    let setup = setup_with(alloc, refusal.changes)?;
    let fault = written(alloc, setup.as_str(), refusal.script).err();
    let text = refusal.text;
    assert!(rt; fault == Some(refusal.fault), "{text}");
    expect_told(rt, alloc, refusal.fault, refusal.status, text)
}

// The fault has that status and that text.
fn expect_told(
    rt: &impl Abort,
    alloc: Global,
    fault: ReplayFault,
    status: u8,
    text: &str,
) -> Result<(), Fail> {
    let found = fault.to_string(alloc)?;
    assert!(rt;
        fault.status() == status && found.as_str() == text,
        "{text}"
    );
    Ok(())
}

fn expect_all_refused(rt: &impl Abort, alloc: Global, rows: &[Refusal]) -> Result<(), Fail> {
    for refusal in rows {
        expect_refused(rt, alloc, refusal)?;
    }
    Ok(())
}

#[test]
fn refusals_have_a_status_and_a_text(rt: HostRuntime) -> Result<(), Fail> {
    let alloc = rt.alloc();
    expect_all_refused(&rt, alloc, &REFUSALS)?;
    let fault = ReplayFault::Script(ScriptFault::Size);
    expect_told(&rt, alloc, fault, 4, "script: size")?;
    expect_told(&rt, alloc, ReplayFault::Device, 5, "device")?;
    expect_told(&rt, alloc, ReplayFault::Memory, 1, "out of memory")
}
