//! Changes of the usual setup, as texts.

use std::alloc::Global;
use std::test::Fail;
use test_texts::{Line, setup_with};

// A line of a setup: three parts between bars.
fn line_of(text: &'static str) -> Option<Line> {
    let (whose, rest) = text.split_once('|')?;
    let (key, value) = rest.split_once('|')?;
    Some((whose, key, value))
}

fn lines_of(alloc: Global, changes: &'static str) -> Result<Vec<Line>, Fail> {
    let mut lines = Vec::new(alloc);
    for change in changes.split(", ") {
        lines.push(line_of(change).ok_or("three parts")?)?;
    }
    Ok(lines)
}

/// The usual setup with these lines in place of its own, as `acme|hold|0, |start|-1`.
pub fn changed_setup(alloc: Global, changes: &'static str) -> Result<String, Fail> {
    let lines = lines_of(alloc, changes)?;
    setup_with(alloc, lines.as_slice())
}

/// A row's changes, and after ` > ` what is said of the setup with them.
pub fn changes_and_said(row: &'static str) -> Result<(&'static str, &'static str), Fail> {
    Ok(row.split_once(" > ").ok_or("what is said")?)
}
