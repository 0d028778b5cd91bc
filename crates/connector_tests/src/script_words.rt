//! What is wrong with a script, in words for people: a row for each cause.

use common_types::Name;
use replay_text::explain_script;
use std::alloc::Global;
use std::process::Abort;
use std::test::Fail;

// Scripts of two workers for the tenant acme, and what is said of them.
static SCRIPTS: [(&str, &str); 36] = [
    ("", "good"),
    (
        "# what follows\n\ndecide 1 0\ntick acme 0\nanswer 0 1 fault\n",
        "good",
    ),
    ("load 0 acme tok 0cFf\ndo acme 0 roll\n", "good"),
    (
        "\ndecide 0 0\ndecide 2 0\ndecide 3 0\n",
        "script: line 3: W = \"2\": at most 1",
    ),
    (
        "decide one 0",
        "script: line 1: W = \"one\": a number, 0 or digits without a 0 in front",
    ),
    (
        "decide 00 0",
        "script: line 1: W = \"00\": a number, 0 or digits without a 0 in front",
    ),
    ("decide 0", "script: line 1: NOW is missing: decide W NOW"),
    ("decide", "script: line 1: W is missing: decide W NOW"),
    (
        "decide 0 1 2",
        "script: line 1: a word too many: decide W NOW",
    ),
    (
        "decide 0 253400000000001",
        "script: line 1: NOW = \"253400000000001\": at most 253400000000000",
    ),
    (
        "decide 0 1\r\n",
        "script: line 1: it ends in CR: the lines of a script end in LF alone",
    ),
    (
        "# a comment\r\n\r\nload 0 acme tok -\r\n",
        "script: line 2: it ends in CR: the lines of a script end in LF alone",
    ),
    (
        "do acme 0 roll\r",
        "script: line 1: it ends in CR: the lines of a script end in LF alone",
    ),
    (
        "decide 0 1\r2",
        "script: line 1: NOW = \"1\\r2\": a number, 0 or digits without a 0 in front",
    ),
    (
        "decide  0 1",
        "script: line 1: W = \"\": a number, 0 or digits without a 0 in front",
    ),
    ("tick", "script: line 1: TENANT is missing: tick TENANT NOW"),
    (
        "tick beta 0",
        "script: line 1: TENANT = \"beta\": no tenant of the setup has that name",
    ),
    (
        "tock acme 0",
        "script: line 1: the first word = \"tock\": load, decide, answer, tick or do",
    ),
    (
        "tock",
        "script: line 1: the first word = \"tock\": load, decide, answer, tick or do",
    ),
    (
        "load 0 acme tok",
        "script: line 1: HEX is missing: load W TENANT TOKEN HEX",
    ),
    (
        "load 7 acme",
        "script: line 1: TOKEN is missing: load W TENANT TOKEN HEX",
    ),
    (
        "load 0 acme tok!alice -",
        "script: line 1: TOKEN: character 4 is none of A-Z a-z 0-9 - . _ ~ + / =",
    ),
    (
        "load 0 acme  -",
        "script: line 1: TOKEN is empty: 1 to 64 of A-Z a-z 0-9 - . _ ~ + / =",
    ),
    (
        "load 0 acme 01234567890123456789012345678901234567890123456789012345678901234 -",
        "script: line 1: TOKEN has 65 characters: at most 64",
    ),
    (
        "load 0 acme tok 0c0",
        "script: line 1: HEX = \"0c0\": an even count of digits",
    ),
    (
        "load 0 acme tok 0g",
        "script: line 1: HEX = \"0g\": digits of 0-9 a-f A-F, or - for no bytes",
    ),
    (
        "load 0 acme tok 0c ",
        "script: line 1: a word too many: load W TENANT TOKEN HEX",
    ),
    (
        "answer 0 1",
        "script: line 1: HEX is missing: answer W NOW HEX, or answer W NOW fault",
    ),
    (
        "answer 0 1 faults",
        "script: line 1: HEX = \"faults\": digits of 0-9 a-f A-F, - for no bytes, or fault",
    ),
    (
        "answer 0 1 0",
        "script: line 1: HEX = \"0\": an even count of digits",
    ),
    (
        "do acme 0",
        "script: line 1: COMMAND is missing: do TENANT NOW COMMAND",
    ),
    (
        "do acme",
        "script: line 1: NOW is missing: do TENANT NOW COMMAND",
    ),
    (
        "do acme 0 balance",
        "script: line 1: COMMAND: its first word or two name no command",
    ),
    (
        "do acme 0 roll ",
        "script: line 1: COMMAND: a word is missing, malformed or one too many, or both peers of a rate are the same",
    ),
    (
        "do acme 0 settle in bob 0",
        "script: line 1: COMMAND: a number is outside its limits",
    ),
    (
        "# \u{e9}",
        "script: line 1: a line has ASCII characters alone",
    ),
];

fn words_of(alloc: Global, script: &str) -> Result<String, Fail> {
    let mut names = Vec::new(alloc);
    names.push(Name::new(b"acme").ok_or("a name")?)?;
    let words = match explain_script(alloc, names.as_slice(), 2, script.as_bytes())? {
        Some(wrong) => wrong.to_string(alloc)?,
        None => "good".to_string(alloc)?,
    };
    Ok(words)
}

// That is said of the script.
fn expect(rt: &impl Abort, alloc: Global, script: &str, wanted: &str) -> Result<(), Fail> {
    let words = words_of(alloc, script)?;
    assert!(rt; words.as_str() == wanted, "{words}, and not {wanted}");
    Ok(())
}

fn expect_all(rt: &impl Abort, alloc: Global, rows: &[(&str, &str)]) -> Result<(), Fail> {
    for (script, wanted) in rows {
        expect(rt, alloc, script, wanted)?;
    }
    Ok(())
}

#[test]
fn what_is_wrong_with_scripts_is_said(rt: HostRuntime) -> Result<(), Fail> {
    expect_all(&rt, rt.alloc(), &SCRIPTS)
}

#[test]
fn long_words_are_counted(rt: HostRuntime) -> Result<(), Fail> {
    let alloc = rt.alloc();
    let digits = "0".repeat(alloc, 101)?;
    let script = ["load 0 acme tok ", digits.as_str()].concat(alloc)?;
    let wanted = "script: line 1: HEX has 101 bytes: an even count of digits";
    expect(&rt, alloc, script.as_str(), wanted)?;
    // A word of 100 bytes is shown.
    let word = "a".repeat(alloc, 100)?;
    let wanted = [
        "script: line 1: the first word = \"",
        word.as_str(),
        "\": load, decide, answer, tick or do",
    ]
    .concat(alloc)?;
    expect(&rt, alloc, word.as_str(), wanted.as_str())?;
    let word = "a".repeat(alloc, 101)?;
    let wanted = "script: line 1: the first word has 101 bytes: load, decide, answer, tick or do";
    expect(&rt, alloc, word.as_str(), wanted)?;
    let line = "#".repeat(alloc, 70_001)?;
    let wanted = "script: line 1: a line has at most 70000 bytes";
    expect(&rt, alloc, line.as_str(), wanted)
}
