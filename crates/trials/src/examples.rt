//! The examples: each script prints the lines of its file.

use crate::fault::Fault;
use crate::{audited, verified};
use replay_text::replay;
use std::alloc::Global;
use std::fs;
use std::rt::Files;

// The name of each example, and that of its setup.
static EXAMPLES: [(&str, &str); 9] = [
    ("forward", "s1"),
    ("long-form", "s1"),
    ("bad-frames", "s1"),
    ("workers", "s1"),
    ("answers", "s1"),
    ("refusals", "refusals"),
    ("full-journal", "full-journal"),
    ("serve", "serve"),
    ("fees", "fees"),
];

// All that is in examples/NAME.ENDING.
fn read(rt: &(impl Files + AllocGlobal), name: &str, ending: &str) -> Result<Vec<u8>, Fault> {
    let file = ["examples/", name, ".", ending].concat(rt.alloc())?;
    Ok(fs::read(rt, file.as_str())?)
}

// Whether the script prints these lines, for that setup.
fn prints(alloc: Global, setup: &[u8], script: &[u8], lines: &[u8]) -> bool {
    let mut reader = script;
    let mut text = Vec::new(alloc);
    let ended = replay(alloc, setup, 1, &mut reader, &mut text);
    ended.is_ok() && text.as_slice() == lines
}

// Whether the example prints its lines, which it says.
fn is_as_told(
    rt: &(impl Files + Print + AllocGlobal),
    name: &str,
    setup: &str,
) -> Result<bool, Fault> {
    let setup = read(rt, setup, "toml")?;
    let script = read(rt, name, "script")?;
    let lines = read(rt, name, "lines")?;
    let is_as_told = prints(rt.alloc(), &setup, &script, &lines);
    let verb = if is_as_told {
        "prints"
    } else {
        "does not print"
    };
    let line = [name, ".script ", verb, " ", name, ".lines"].concat(rt.alloc())?;
    rt.println(line.as_str())?;
    Ok(is_as_told)
}

// Whether the statements of the examples give their lines, which it prints.
fn are_statements_as_told(rt: &(impl Files + Print + AllocGlobal)) -> Result<bool, Fault> {
    let is_as_told = verified::are_as_told(rt)?;
    let verb = if is_as_told {
        "come to"
    } else {
        "do not come to"
    };
    println!(rt;
        "the statements of verify.script and again.script {verb} verify.lines and again.lines"
    )?;
    Ok(is_as_told)
}

// Whether the receipts of the example are complete, and are not with another digit, which it says.
fn are_receipts_as_told(rt: &(impl Files + Print + AllocGlobal)) -> Result<bool, Fault> {
    let is_as_told = audited::is_as_told(rt)?;
    let verb = if is_as_told { "are" } else { "are not" };
    println!(rt; "the receipts of audit.script {verb} complete, word for word")?;
    Ok(is_as_told)
}

/// Runs the examples, which lie in the folder examples/.
pub fn run(rt: &(impl Files + Print + AllocGlobal)) -> Result<(), Fault> {
    let mut all_are = true;
    for (name, setup) in &EXAMPLES {
        all_are = is_as_told(rt, name, setup)? && all_are;
    }
    all_are = are_statements_as_told(rt)? && all_are;
    all_are = are_receipts_as_told(rt)? && all_are;
    if all_are { Ok(()) } else { Err(Fault::Example) }
}
