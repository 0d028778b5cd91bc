//! Trials that go past what a contract can say:
//!
//! - lists of steps in which allocations may fail, by tools/refusals;
//! - crowds of hostile tenants beside a calm one;
//! - statements of random books;
//! - audits of many receipts, of 64 tenants, whose entries as many workers made in turn;
//! - the examples.
#![tactic(auto)]

mod audited;
mod books;
mod counted;
mod crowd;
mod examples;
mod fault;
mod hands;
mod many;
mod orders;
mod packets;
mod scripts;
mod seen;
mod steps;
mod verified;

use fault::Fault;
use receipts::AuditFault;
use seen::{are_all_seen, complain};
use std::process::ExitCode;
use std::rt::{Env, Files};
use std::slice::Iter;
use std::{env, fs, str};

// A setup and a script, as files have them.
#[derive(Drop)]
struct Inputs {
    setup: Vec<u8>,
    script: Vec<u8>,
}

fn read(rt: &(impl Files + AllocGlobal), setup: &str, script: &str) -> Result<Inputs, Fault> {
    Ok(Inputs {
        setup: fs::read(rt, setup)?,
        script: fs::read(rt, script)?,
    })
}

impl Inputs {
    fn script(&self) -> Result<&str, Fault> {
        str::from_utf8(self.script.as_slice())
            .ok()
            .ok_or(Fault::Steps)
    }
}

// Runs a script's steps, and says on standard error after which of them an allocation failed.
fn run_steps(
    rt: &(impl Files + Print + Eprint + AllocGlobal),
    setup: &str,
    script: &str,
) -> Result<(), Fault> {
    let inputs = read(rt, setup, script)?;
    let told = steps::tell(rt.alloc(), inputs.setup.as_slice(), inputs.script()?)?;
    if let Some(done) = told.refused_after {
        eprintln!(rt; "refused after {done}")?;
    }
    match str::from_utf8(told.lines.as_slice()) {
        Ok(lines) => Ok(rt.print(lines)?),
        Err(_) => Err(Fault::Steps),
    }
}

fn run_crowd(
    rt: &(impl Print + Eprint + AllocGlobal),
    rounds: &str,
    steps: &str,
) -> Result<(), Fault> {
    let (Ok(round_count), Ok(step_count)) = (rounds.parse::<u32>(), steps.parse::<u32>()) else {
        return Err(Fault::Words);
    };
    let played = crowd::play(rt.alloc(), round_count, step_count)?;
    if !are_all_seen(&played.seen) {
        complain(rt, &played.seen);
        return Err(Fault::Unseen);
    }
    let own = played.own_steps.to_string(rt.alloc())?;
    let line = [
        rounds,
        " rounds of ",
        steps,
        " steps of ten tenants: the calm one's ",
        own.as_str(),
        " steps printed what they print alone",
    ]
    .concat(rt.alloc())?;
    Ok(rt.println(line.as_str())?)
}

fn run_statements(
    rt: &(impl Print + AllocGlobal),
    rounds: &str,
    periods: &str,
) -> Result<(), Fault> {
    let (Ok(round_count), Ok(period_count)) = (rounds.parse::<u32>(), periods.parse::<u32>()) else {
        return Err(Fault::Words);
    };
    let played = books::play(rt.alloc(), round_count, period_count)?;
    let stated = played.periods.to_string(rt.alloc())?;
    let entries = played.entries.to_string(rt.alloc())?;
    let begun = played.begun.to_string(rt.alloc())?;
    let line = [
        rounds,
        " rounds: ",
        stated.as_str(),
        " statements with ",
        entries.as_str(),
        " entries, over ",
        begun.as_str(),
        " new beginnings, come to what was counted",
    ]
    .concat(rt.alloc())?;
    Ok(rt.println(line.as_str())?)
}

// Prints the statements of the periods that a script's steps close, one after another.
fn run_closed(
    rt: &(impl Files + Print + AllocGlobal),
    setup: &str,
    script: &str,
) -> Result<(), Fault> {
    let inputs = read(rt, setup, script)?;
    let (setup, script) = (inputs.setup.as_slice(), inputs.script.as_slice());
    let texts = verified::statements_of(rt.alloc(), setup, script)?;
    for text in &texts {
        print_lines(rt, text.as_slice())?;
    }
    Ok(())
}

fn print_lines(rt: &impl Print, text: &[u8]) -> Result<(), Fault> {
    match str::from_utf8(text) {
        Ok(lines) => Ok(rt.print(lines)?),
        Err(_) => Err(Fault::Steps),
    }
}

// Writes the statements of a script's periods so many times, or checks them, for bench/periods.
fn run_again(
    rt: &(impl Files + Print + AllocGlobal),
    trial: &str,
    (setup, script): (&str, &str),
    times: &str,
) -> Result<(), Fault> {
    let Ok(times) = times.parse::<u32>() else {
        return Err(Fault::Words);
    };
    let inputs = read(rt, setup, script)?;
    let setup = inputs.setup.as_slice();
    if trial == "check" {
        let records = verified::check_again(rt.alloc(), setup, inputs.script.as_slice(), times)?;
        println!(rt; "{records} records checked")?;
        return Ok(());
    }
    let bytes = verified::write_again(rt.alloc(), setup, inputs.script()?, times)?;
    println!(rt; "{bytes} bytes written")?;
    Ok(())
}

// Prints the receipts of the entries of the periods that a script's steps close, which two workers keep by turns.
fn run_receipts(
    rt: &(impl Files + Print + AllocGlobal),
    setup: &str,
    script: &str,
) -> Result<(), Fault> {
    let inputs = read(rt, setup, script)?;
    let closed = steps::periods(rt.alloc(), inputs.setup.as_slice(), inputs.script()?)?;
    let text = audited::receipts_of(rt.alloc(), closed.as_slice())?;
    print_lines(rt, text.as_slice())
}

// The word is how many receipts each tenant has, its roll's included.
fn run_audit(rt: &(impl Print + AllocGlobal), entries: &str) -> Result<(), Fault> {
    let Ok(entries) = entries.parse::<u32>() else {
        return Err(Fault::Words);
    };
    match many::audited(rt.alloc(), entries)? {
        Ok(found) => {
            let (tenants, receipts) = found;
            println!(rt; "audit ok {receipts} of {tenants} tenants")?;
            Ok(())
        }
        Err(AuditFault::Memory) => Err(Fault::Memory),
        Err(_) => Err(Fault::Refused),
    }
}

// The trials of the gate.
fn run_all(rt: &(impl Files + Print + Eprint + AllocGlobal)) -> Result<(), Fault> {
    run_steps(rt, "s2.toml", "two-tenants.script")?;
    run_steps(rt, "s2.toml", "roll.script")?;
    run_crowd(rt, "8", "600")?;
    run_statements(rt, "12", "25")?;
    run_audit(rt, "20")?;
    examples::run(rt)
}

fn run_trial(
    rt: &(impl Files + Print + Eprint + AllocGlobal),
    trial: &str,
    first: &str,
    second: &str,
) -> Result<(), Fault> {
    match trial {
        "steps" => run_steps(rt, first, second),
        "crowd" => run_crowd(rt, first, second),
        "statements" => run_statements(rt, first, second),
        "closed" => run_closed(rt, first, second),
        "receipts" => run_receipts(rt, first, second),
        _ => Err(Fault::Words),
    }
}

fn word<'a>(words: &mut Iter<'a, String>) -> Result<&'a str, Fault> {
    match words.next() {
        Some(word) => Ok(word.as_str()),
        None => Err(Fault::Words),
    }
}

// Runs a trial, whose other words come after it.
fn run_next(
    rt: &(impl Files + Print + Eprint + AllocGlobal),
    trial: &str,
    words: &mut Iter<'_, String>,
) -> Result<(), Fault> {
    match trial {
        "examples" => examples::run(rt),
        "audit" => run_audit(rt, word(words)?),
        "write" | "check" => {
            let files = (word(words)?, word(words)?);
            run_again(rt, trial, files, word(words)?)
        }
        _ => run_trial(rt, trial, word(words)?, word(words)?),
    }
}

// The words are trials, one after another; without words all are run, as the gate does.
fn run_words(
    rt: &(impl Files + Print + Eprint + AllocGlobal),
    words: &[String],
) -> Result<(), Fault> {
    if words.is_empty() {
        return run_all(rt);
    }
    let mut left = words.iter();
    for _ in 0..words.len() {
        if let Some(trial) = left.next() {
            run_next(rt, trial.as_str(), &mut left)?;
        }
    }
    Ok(())
}

fn run(rt: &(impl Env + Files + Print + Eprint + AllocGlobal)) -> Result<(), Fault> {
    let words: Vec<String> = env::args(rt)?.skip(1).collect(rt.alloc())?;
    run_words(rt, words.as_slice())
}

fn main(rt: HostRuntime) -> ExitCode {
    match run(&rt) {
        Ok(()) => ExitCode::SUCCESS,
        Err(fault) => {
            let _ = rt.eprintln(fault);
            ExitCode::FAILURE
        }
    }
}
