//! Scripts and printed lines: the first bad line of each script, the parts of good lines, and a line for each output.

use common_types::{Bytes, Name, ReadError, Text};
use floor_core::{Malformed, Output, Step};
use replay_text::{Meaning, ScriptFault, check_script, meaning_of, print_lines};
use std::alloc::Global;
use std::process::Abort;
use std::test::Fail;

fn acme(alloc: Global) -> Result<Vec<Name>, Fail> {
    let mut names = Vec::new(alloc);
    names.push(Name::new(b"acme").ok_or("a name")?)?;
    Ok(names)
}

// A script, how many workers it has, and the number of its first bad line, 0 if none is bad.
static SCRIPTS: [(&str, usize, usize); 43] = [
    ("", 2, 0),
    ("decide 1 0", 2, 0),
    ("decide 2 0\n", 2, 1),
    (" decide 1 0", 2, 1),
    ("# what follows\n\ndecide 0 01\n", 2, 3),
    ("decide 0 253400000000000\ndecide 0 253400000000001\n", 2, 2),
    ("load 0 acme tok-1._~+/= 0cFf\nload 1 acme t -\n", 2, 0),
    ("load 0 acme tok 0c0\n", 2, 1),
    ("load 0 acme tok 0g\n", 2, 1),
    ("load 0 acme t*k 0c\n", 2, 1),
    ("load 0 other tok 0c\n", 2, 1),
    ("load 0  acme tok 0c\n", 2, 1),
    ("load 0 acme tok 0c\r\n", 2, 1),
    ("load 0 acme tok 0c \n", 2, 1),
    ("#\n# \u{e9}\n", 2, 2),
    ("decide 0 1893456000000\ndecide 1 1893456000000\n", 1, 2),
    ("decide 0 01\n", 1, 1),
    ("decide  0 1\n", 1, 1),
    ("decide 0 253400000000001\n", 1, 1),
    ("# fine\n\nload 0 beta tok-alice -\n", 1, 3),
    ("load 0 acme tok-alice 0\n", 1, 1),
    ("load 0 acme tok-alice \n", 1, 1),
    ("load 0 acme tok!alice -\n", 1, 1),
    ("decide 0 1\r\n", 1, 1),
    ("tick acme 0\nanswer 0 1 fault\nanswer 0 1 0d\n", 1, 0),
    ("tick other 0\n", 1, 1),
    ("tick acme\n", 1, 1),
    ("answer 0 1 faults\n", 1, 1),
    ("answer 0 1\n", 1, 1),
    ("tock acme 0\n", 1, 1),
    ("do acme 0 balances\ndo acme 0 roll\n", 1, 0),
    ("do acme 0 peer limits bob 0 0 0", 1, 0),
    ("do acme 0\n", 1, 1),
    ("do acme 0 \n", 1, 1),
    ("do acme\n", 1, 1),
    ("do\n", 1, 1),
    ("do acme 0 balance\n", 1, 1),
    ("do acme 0 roll \n", 1, 1),
    ("do acme 0  roll\n", 1, 1),
    ("do other 0 roll\n", 1, 1),
    ("do acme 00 roll\n", 1, 1),
    ("do acme 0 rate set bob bob 1 1\n", 1, 1),
    ("do acme 0 settle in bob 0\n", 1, 1),
];

fn fault_of(
    alloc: Global,
    names: &[Name],
    workers: usize,
    script: &str,
) -> Option<ReadError<ScriptFault>> {
    check_script(alloc, names, workers, script.as_bytes()).err()
}

fn expect_bad_lines(rt: &impl Abort, alloc: Global, names: &[Name], rows: &[(&str, usize, usize)]) {
    for (script, workers, line) in rows {
        let found = fault_of(alloc, names, *workers, script);
        let fault = (*line != 0).then_some(ReadError::Fault(ScriptFault::Line(*line)));
        assert!(rt; found == fault, "{script}");
    }
}

#[test]
fn scripts_name_their_first_bad_line(rt: HostRuntime) -> Result<(), Fail> {
    let alloc = rt.alloc();
    let names = acme(alloc)?;
    expect_bad_lines(&rt, alloc, names.as_slice(), &SCRIPTS);
    Ok(())
}

// Whether it says that this worker takes in these bytes, which came with the token for the first tenant.
fn is_load(meaning: &Meaning<'_>, loader: usize, shown: &[u8], frame: &[u8]) -> bool {
    match meaning {
        Meaning::Runs(
            Step::Load {
                worker,
                tenant,
                token,
                bytes,
            },
        ) => {
            *worker == loader
                && *tenant == 0
                && token.as_slice() == shown
                && bytes.as_slice() == frame
        }
        _ => false,
    }
}

#[test]
fn a_load_has_its_parts(rt: HostRuntime) -> Result<(), Fail> {
    let alloc = rt.alloc();
    let names = acme(alloc)?;
    let mut room = Vec::new(alloc);
    let meaning = meaning_of(
        alloc,
        names.as_slice(),
        2,
        b"load 1 acme tok 0cFf",
        &mut room,
    )?;
    assert!(rt; is_load(&meaning, 1, b"tok", &[12, 255]));
    Ok(())
}

// Whether it says that this worker decides at that moment.
fn is_decide(meaning: &Meaning<'_>, decider: usize, millis: u64) -> bool {
    match meaning {
        Meaning::Runs(Step::Decide { worker, now }) => *worker == decider && now.millis() == millis,
        _ => false,
    }
}

#[test]
fn a_decide_has_its_parts(rt: HostRuntime) -> Result<(), Fail> {
    let alloc = rt.alloc();
    let names = acme(alloc)?;
    let mut room = Vec::new(alloc);
    let meaning = meaning_of(alloc, names.as_slice(), 2, b"decide 1 77", &mut room)?;
    assert!(rt; is_decide(&meaning, 1, 77));
    Ok(())
}

// Why loads are malformed, and the line of each.
static KINDS: [(Malformed, &str); 6] = [
    (Malformed::Token, "acme bad token\n"),
    (Malformed::Kind, "acme bad kind\n"),
    (Malformed::Oer, "acme bad oer\n"),
    (Malformed::Field, "acme bad field\n"),
    (Malformed::AfterEnd, "acme bad after\n"),
    (Malformed::Size, "acme bad size\n"),
];

fn reply(alloc: Global) -> Result<Output, Fail> {
    let bytes = Bytes::from_vec(Vec::from_slice(alloc, &[14, 255])?);
    Ok(Output::Reply { tenant: 0, bytes })
}

fn send(alloc: Global) -> Result<Output, Fail> {
    let peer = Text::from_bytes(b"bob").ok_or("a name")?;
    let frame = Bytes::from_vec(Vec::from_slice(alloc, &[12])?);
    let hold = u64::MAX;
    Ok(Output::Send {
        tenant: 0,
        peer,
        hold,
        frame,
    })
}

// What a step puts out, and the line of it.
fn put(
    outputs: &mut Vec<Output>,
    lines: &mut String,
    output: Output,
    line: &str,
) -> Result<(), Fail> {
    outputs.push(output)?;
    lines.push_str(line)?;
    Ok(())
}

fn put_outputs(alloc: Global, outputs: &mut Vec<Output>, lines: &mut String) -> Result<(), Fail> {
    put(outputs, lines, Output::Busy, "- busy\n")?;
    put(outputs, lines, Output::Idle, "- idle\n")?;
    let loaded = Output::Loaded {
        tenant: 0,
        call: 12,
    };
    put(outputs, lines, loaded, "acme loaded 12\n")?;
    put(
        outputs,
        lines,
        Output::Stranger { tenant: 0 },
        "acme stranger\n",
    )?;
    put(outputs, lines, reply(alloc)?, "acme reply 0eff\n")?;
    put(
        outputs,
        lines,
        send(alloc)?,
        "acme send bob 18446744073709551615 0c\n",
    )
}

fn put_malformed(
    outputs: &mut Vec<Output>,
    lines: &mut String,
    rows: &[(Malformed, &str)],
) -> Result<(), Fail> {
    for (kind, line) in rows {
        let bad = Output::Bad {
            tenant: 0,
            kind: *kind,
        };
        put(outputs, lines, bad, line)?;
    }
    Ok(())
}

#[test]
fn outputs_print_as_lines(rt: HostRuntime) -> Result<(), Fail> {
    let alloc = rt.alloc();
    let names = acme(alloc)?;
    let mut outputs = Vec::new(alloc);
    let mut lines = String::new(alloc);
    put_outputs(alloc, &mut outputs, &mut lines)?;
    put_malformed(&mut outputs, &mut lines, &KINDS)?;
    let text = print_lines(alloc, names.as_slice(), outputs.as_slice())?;
    assert!(rt; text.as_slice() == lines.as_bytes());
    Ok(())
}
