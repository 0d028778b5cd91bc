//! The lines of hostile tenants: each kind of line must be seen.

use crate::scripts::CALM;

// The words of lines after the tenant's name: of a Reject the digits of its code, of a tick that found something
// overdue `marked`.
static KINDS: [&str; 30] = [
    "loaded",
    "bad kind",
    "bad oer",
    "bad field",
    "bad after",
    "bad size",
    "stranger",
    "send bob",
    "ticked 0",
    "marked",
    "refused full",
    "refused in-use",
    "refused present",
    "refused absent",
    "refused limit",
    "ok",
    "balance",
    "rolled",
    "fulfilled",
    "463030",
    "463032",
    "463033",
    "463035",
    "463038",
    "543031",
    "543033",
    "543034",
    "543035",
    "523030",
    "523032",
];

/// How many kinds there are.
pub const COUNT: usize = 30;

// The words of a line of a hostile tenant, after the tenant's name.
fn words_of(line: &str) -> Option<&str> {
    let (name, words) = line.split_once(' ')?;
    if name == CALM || name == "-" {
        return None;
    }
    Some(words)
}

// The digits of a Reject's code, after those of its kind and length, or what else a reply is.
fn reply_kind(digits: &str) -> &str {
    if digits.starts_with("0d") {
        return "fulfilled";
    }
    digits.get(4..10).unwrap_or("")
}

fn is_of_kind(words: &str, kind: &str) -> bool {
    if let Some(digits) = words.strip_prefix("reply ") {
        return reply_kind(digits) == kind;
    }
    match words.strip_prefix("ticked ") {
        Some(count) if count != "0" => kind == "marked",
        _ => words.starts_with(kind),
    }
}

/// Marks the kinds of the lines that hostile tenants got.
pub fn see(lines: &str, seen: &mut [bool; COUNT]) {
    for line in lines.lines() {
        let Some(words) = words_of(line) else {
            continue;
        };
        for (kind, mark) in KINDS.iter().zip(seen.iter_mut()) {
            if is_of_kind(words, kind) {
                *mark = true;
            }
        }
    }
}

/// Whether hostile tenants got each kind.
pub fn are_all_seen(seen: &[bool; COUNT]) -> bool {
    seen.iter().all(|mark| *mark)
}

/// Says on standard error to which kinds nobody came.
pub fn complain(rt: &impl Eprint, seen: &[bool; COUNT]) {
    for (kind, mark) in KINDS.iter().zip(seen.iter()) {
        if !*mark {
            let _ = eprintln!(rt; "nobody came to: {kind}");
        }
    }
}
