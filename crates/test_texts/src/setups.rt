//! The usual setup of the replays, and changes of it.

use std::alloc::{AllocError, Global};
use std::test::Fail;

/// A line of a setup: whose it is, by the names of `USUAL`, the key and the value. With no key the line is the header
/// of the table. Texts have single quotes here, and double quotes in the setup.
pub type Line = (&'static str, &'static str, &'static str);

/// The value of a line that the setup does not have. With the header, all lines of the table are left out.
pub const ABSENT: &str = "-";

pub const PEER: &str = "[[tenant.peer]]";

pub const ROUTE: &str = "[[tenant.route]]";

pub const RATE: &str = "[[tenant.rate]]";

pub const TENANT: &str = "[[tenant]]";

// alice, who may send to bob at 3/2, and what rows may add: a third peer, routes and rates before and after, and a second
// tenant, beta, like the first. A line has three parts: whose it is, its key and its value.
static USUAL: &str = "\
|version|1
|start|1893456000000
acme||[[tenant]]
acme|name|'acme'
acme|address|'g.acme'
acme|admin|'root-a'
acme|journal|64
acme|margin|-
acme|hold|-
acme|other|-
alice||[[tenant.peer]]
alice|name|'alice'
alice|role|'peer'
alice|token|'tok-alice'
alice|url|'http://127.0.0.1:7801/ilp'
alice|out_token|'out-alice'
alice|asset|'USD'
alice|scale|2
alice|cap|1000000
alice|ceiling|1000000
alice|credit|1000000
alice|burst|100
alice|per_second|100
alice|balance|-
bob||[[tenant.peer]]
bob|name|'bob'
bob|role|'child'
bob|token|'tok-bob'
bob|url|'http://127.0.0.1:7802/ilp'
bob|out_token|'out-bob'
bob|asset|'XRP'
bob|scale|9
bob|cap|1000000
bob|ceiling|1000000
bob|credit|1000000
bob|burst|100
bob|per_second|100
bob|balance|-
carol||-
carol|name|'carol'
carol|role|'peer'
carol|token|'tok-carol'
carol|url|'http://127.0.0.1:7803/ilp'
carol|out_token|'out-carol'
carol|asset|'EUR'
carol|scale|2
carol|cap|1000000
carol|ceiling|1000000
carol|credit|1000000
carol|burst|100
carol|per_second|100
route before||-
route before|prefix|'g.acme'
route before|peer|'alice'
route||[[tenant.route]]
route|prefix|'g.acme.bob'
route|peer|'bob'
route|fee|-
route after||-
route after|prefix|'*'
route after|peer|'alice'
rate before||-
rate before|from|'alice'
rate before|to|'carol'
rate before|num|2
rate before|den|1
empty rate||-
rate||[[tenant.rate]]
rate|from|'alice'
rate|to|'bob'
rate|num|3
rate|den|2
rate back||-
rate back|from|'bob'
rate back|to|'alice'
rate back|num|7
rate back|den|1
rate after||-
rate after|from|'alice'
rate after|to|'bob'
rate after|num|1
rate after|den|2
beta||-
beta|name|'beta'
beta|address|'g.beta'
beta|admin|'root-b'
beta|journal|64
beta|hold|-
beta alice||-
beta alice|name|'alice'
beta alice|role|'peer'
beta alice|token|'tok-alice'
beta alice|url|'http://127.0.0.1:7801/ilp'
beta alice|out_token|'out-alice'
beta alice|asset|'USD'
beta alice|scale|2
beta alice|cap|1000000
beta alice|ceiling|1000000
beta alice|credit|1000000
beta alice|burst|100
beta alice|per_second|100
beta bob||-
beta bob|name|'bob'
beta bob|role|'child'
beta bob|token|'tok-bob'
beta bob|url|'http://127.0.0.1:7802/ilp'
beta bob|out_token|'out-bob'
beta bob|asset|'XRP'
beta bob|scale|9
beta bob|cap|1000000
beta bob|ceiling|1000000
beta bob|credit|1000000
beta bob|burst|100
beta bob|per_second|100
beta route||-
beta route|prefix|'g.beta.bob'
beta route|peer|'bob'
beta rate||-
beta rate|from|'alice'
beta rate|to|'bob'
beta rate|num|3
beta rate|den|2
second tenant||-
second tenant|name|-
";

// The three parts of a line of the text.
fn line_of(text: &'static str) -> Option<Line> {
    let (whose, rest) = text.split_once('|')?;
    let (key, value) = rest.split_once('|')?;
    Some((whose, key, value))
}

// The value that one of these lines has.
fn value_of(lines: &[Line], whose: &str, key: &str) -> Option<&'static str> {
    for (owner, known, value) in lines {
        if *owner == whose && *known == key {
            return Some(*value);
        }
    }
    None
}

fn lines_of(alloc: Global, text: &'static str) -> Result<Vec<Line>, Fail> {
    let mut lines = Vec::new(alloc);
    for line in text.lines() {
        lines.push(line_of(line).ok_or("three parts")?)?;
    }
    Ok(lines)
}

// The first of the changes that changes none of the lines.
fn unknown_of(lines: &[Line], changes: &[Line]) -> Option<Line> {
    for (whose, key, value) in changes {
        if value_of(lines, whose, key).is_none() {
            return Some((*whose, *key, *value));
        }
    }
    None
}

// That a change of a row changes none of the lines.
fn unknown(alloc: Global, row: &str, whose: &str, key: &str) -> Result<Fail, AllocError> {
    let mut said = String::from_str(alloc, row)?;
    said.push_str(": no line of the usual setup is ")?;
    said.push_str(whose)?;
    said.push_str("|")?;
    said.push_str(key)?;
    Ok(Fail::new(said))
}

// The lines with the values that the changes give.
fn changed_text(alloc: Global, lines: &[Line], changes: &[Line]) -> Result<String, AllocError> {
    let mut text = String::new(alloc);
    let mut is_in = true;
    for (whose, key, usual) in lines {
        let value = value_of(changes, whose, key).unwrap_or(*usual);
        let is_header = key.is_empty();
        if is_header {
            is_in = value != ABSENT;
        }
        if !is_in || value == ABSENT {
            continue;
        }
        if !is_header {
            text.push_str(key)?;
            text.push_str(" = ")?;
        }
        text.push_str(value)?;
        text.push_str("\n")?;
    }
    Ok(text)
}

/// The usual setup with the values of these lines in place of its own. Each names a line of `USUAL`. If one does not,
/// the failure has the row's title and the line's name.
pub fn setup_in(alloc: Global, row: &str, changes: &[Line]) -> Result<String, Fail> {
    let lines = lines_of(alloc, USUAL)?;
    if let Some((whose, key, _)) = unknown_of(&lines, changes) {
        return Err(unknown(alloc, row, whose, key)?);
    }
    let text = changed_text(alloc, &lines, changes)?;
    Ok(text.replace(alloc, "'", "\"")?)
}

/// The usual setup with the values of these lines in place of its own. Each names a line of `USUAL`.
pub fn setup_with(alloc: Global, changes: &[Line]) -> Result<String, Fail> {
    setup_in(alloc, "a setup", changes)
}

/// The usual setup with the lines of this text in place of its own, each as `alice|cap|1000`. Each names a line of `USUAL`.
pub fn setup_by(alloc: Global, changes: &'static str) -> Result<String, Fail> {
    let changes = lines_of(alloc, changes)?;
    setup_with(alloc, changes.as_slice())
}
