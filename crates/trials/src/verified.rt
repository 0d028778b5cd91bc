//! The statements of a script's periods, and the examples of them: statements that `ilpd verify` takes, with the setups that the
//! service began with.

use crate::fault::Fault;
use crate::steps::periods;
use admin_text::read_setup;
use common_types::ReadError;
use statements::{Chain, check_statement, write_statement};
use std::alloc::Global;
use std::rt::Files;
use std::{fs, str};

// A setup that a service began with, the script of what it did, the statements of that, and their lines with those of
// the runs before.
struct Run {
    setup: &'static str,
    script: &'static str,
    statements: &'static [&'static str],
    lines: &'static str,
}

static RUNS: [Run; 2] = [
    Run {
        setup: "examples/fees.toml",
        script: "examples/verify.script",
        statements: &[
            "examples/acme.0.statement",
            "examples/acme.1.statement",
            "examples/acme.2.statement",
        ],
        lines: "examples/verify.lines",
    },
    Run {
        setup: "examples/again.toml",
        script: "examples/again.script",
        statements: &["examples/again.0.statement", "examples/again.1.statement"],
        lines: "examples/again.lines",
    },
];

/// The statements of the periods that the steps of a script close.
pub fn statements_of(alloc: Global, setup: &[u8], script: &[u8]) -> Result<Vec<Vec<u8>>, Fault> {
    let Ok(script) = str::from_utf8(script) else {
        return Err(Fault::Steps);
    };
    let mut texts = Vec::new(alloc);
    for period in periods(alloc, setup, script)? {
        texts.push(write_statement(alloc, &period)?)?;
    }
    Ok(texts)
}

/// Writes the statements of the periods that a script's steps close so many times over, and gives how many bytes they have.
pub fn write_again(alloc: Global, setup: &[u8], script: &str, times: u32) -> Result<usize, Fault> {
    let periods = periods(alloc, setup, script)?;
    let mut bytes: usize = 0;
    for _ in 0..times {
        for period in &periods {
            bytes = bytes.saturating_add(write_statement(alloc, period)?.len());
        }
    }
    Ok(bytes)
}

/// Checks the statements of the periods that a script's steps close so many times over, and gives how many records they have.
pub fn check_again(alloc: Global, setup: &[u8], script: &[u8], times: u32) -> Result<usize, Fault> {
    let texts = statements_of(alloc, setup, script)?;
    let mut records: usize = 0;
    for _ in 0..times {
        for text in &texts {
            match check_statement(alloc, text.as_slice()) {
                Ok(period) => records = records.saturating_add(period.len()),
                Err(ReadError::Memory) => return Err(Fault::Memory),
                Err(ReadError::Fault(_)) => return Err(Fault::Book),
            }
        }
    }
    Ok(records)
}

fn taken<F: Drop>(went: Result<(), ReadError<F>>) -> Result<(), Fault> {
    match went {
        Ok(()) => Ok(()),
        Err(ReadError::Memory) => Err(Fault::Memory),
        Err(ReadError::Fault(_)) => Err(Fault::Example),
    }
}

// Takes a setup for its one tenant.
fn begin(alloc: Global, chain: &mut Chain, text: &[u8]) -> Result<(), Fault> {
    let Ok(setup) = read_setup(alloc, text) else {
        return Err(Fault::Example);
    };
    match setup.tenants.as_slice().first() {
        Some(tenant) => taken(chain.begin(alloc, 0, tenant, setup.start)),
        None => Err(Fault::Example),
    }
}

// Whether a file has this text, which goes on with the chain.
fn is_stated(
    rt: &(impl Files + AllocGlobal),
    chain: &mut Chain,
    file: &str,
    text: &[u8],
) -> Result<bool, Fault> {
    let stated = fs::read(rt, file)?;
    taken(chain.add(rt.alloc(), stated.as_slice()))?;
    Ok(stated.as_slice() == text)
}

// The statements that the run's steps lead to, for whose setup the chain goes on.
fn begun(
    rt: &(impl Files + AllocGlobal),
    chain: &mut Chain,
    run: &Run,
) -> Result<Vec<Vec<u8>>, Fault> {
    let setup = fs::read(rt, run.setup)?;
    let script = fs::read(rt, run.script)?;
    begin(rt.alloc(), chain, setup.as_slice())?;
    statements_of(rt.alloc(), setup.as_slice(), script.as_slice())
}

// Whether the run's steps lead to its statements, which go on with the chain.
fn are_stated(
    rt: &(impl Files + AllocGlobal),
    chain: &mut Chain,
    run: &Run,
) -> Result<bool, Fault> {
    let texts = begun(rt, chain, run)?;
    let mut are_stated = texts.len() == run.statements.len();
    for (file, text) in run.statements.iter().zip(texts.iter()) {
        are_stated = is_stated(rt, chain, file, text.as_slice())? && are_stated;
    }
    Ok(are_stated)
}

// Whether the run's steps lead to its statements, which go on with the chain and give its lines.
fn goes_on(rt: &(impl Files + AllocGlobal), chain: &mut Chain, run: &Run) -> Result<bool, Fault> {
    let are_same = are_stated(rt, chain, run)?;
    let lines = fs::read(rt, run.lines)?;
    match chain.summary(rt.alloc()) {
        Ok(text) => Ok(are_same && text.as_slice() == lines.as_slice()),
        Err(ReadError::Memory) => Err(Fault::Memory),
        Err(ReadError::Fault(_)) => Ok(false),
    }
}

/// Whether the steps of the examples' scripts lead to their statements, which are one chain and give the examples'
/// lines.
pub fn are_as_told(rt: &(impl Files + AllocGlobal)) -> Result<bool, Fault> {
    let mut chain = Chain::new(rt.alloc());
    all_go_on(rt, &mut chain)
}

fn all_go_on(rt: &(impl Files + AllocGlobal), chain: &mut Chain) -> Result<bool, Fault> {
    let mut all_do = true;
    for run in &RUNS {
        all_do = goes_on(rt, chain, run)? && all_do;
    }
    Ok(all_do)
}
