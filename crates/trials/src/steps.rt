//! The steps of a script as one list, by two workers. If an allocation fails in the list, the steps after it go on, on
//! the same floor.

ghost use Rattle.std.specs.Prelude.{All};
ghost use Rattle.std.specs.Bool.{OnTrue};
ghost use Rattle.floor_core.specs.FloorView.{Fits};

use crate::fault::Fault;
use admin_text::{Setup, read_setup};
use common_types::{Name, ReadError};
use floor_core::{Floor, Output, Step};
use replay_text::{Meaning, ReplayFault, meaning_of, print_lines};
use std::alloc::Global;
use tenant_core::{Answered, CommandFault, Period};

const WORKERS: usize = 2;

fn setup_of(alloc: Global, text: &[u8]) -> Result<Setup, Fault> {
    match read_setup(alloc, text) {
        Ok(setup) => Ok(setup),
        Err(ReadError::Memory) => Err(Fault::Memory),
        Err(ReadError::Fault(fault)) => Err(Fault::Replay(ReplayFault::Setup(fault))),
    }
}

fn floor_of(alloc: Global, setup: &Setup) -> Result<Floor, Fault> {
    let tenants = setup.tenants.as_slice();
    if tenants.is_empty() || tenants.len() > 64 {
        return Err(Fault::Steps);
    }
    Ok(Floor::new(alloc, tenants, setup.start, WORKERS)?)
}

fn all_fit(floor: &Floor, steps: &[Step]) -> bool
    ensures { OnTrue result (All (Fits floor.now) steps.now) }
{
    for step in steps {
        if !floor.fits(step) {
            return false;
        }
    }
    true
}

/// The outputs of steps, and after how many of them an allocation failed, if one did.
#[derive(Drop)]
struct Ran {
    outputs: Vec<Output>,
    refused_after: Option<usize>,
}

fn run(alloc: Global, floor: &mut Floor, steps: &[Step]) -> Result<Ran, Fault> {
    if !all_fit(floor, steps) || !floor.room(steps.len()) {
        return Err(Fault::Steps);
    }
    Ok(match floor.run(alloc, steps) {
        Ok(outputs) => Ran {
            outputs,
            refused_after: None,
        },
        Err(fault) => {
            let outputs = fault.outputs.into_vec();
            let done = outputs.len();
            Ran {
                outputs,
                refused_after: Some(done),
            }
        }
    })
}

// Runs the steps. If an allocation fails, it runs those after it on the floor as it is then.
fn run_on(alloc: Global, floor: &mut Floor, steps: &[Step]) -> Result<Ran, Fault> {
    let mut ran = run(alloc, floor, steps)?;
    if let Some(done) = ran.refused_after {
        let (_, rest) = steps.split_at(done.min(steps.len()));
        let behind = run(alloc, floor, rest)?;
        for output in behind.outputs {
            ran.outputs.push(output)?;
        }
    }
    Ok(ran)
}

// A room for the frame of each line.
fn rooms_for(alloc: Global, script: &str) -> Result<Vec<Vec<u8>>, Fault> {
    let mut rooms = Vec::new(alloc);
    for _ in script.split('\n') {
        rooms.push(Vec::new(alloc))?;
    }
    Ok(rooms)
}

fn steps_of<'a>(
    alloc: Global,
    names: &[Name],
    script: &'a str,
    rooms: &'a mut [Vec<u8>],
) -> Result<Vec<Step<'a>>, Fault> {
    let mut steps = Vec::new(alloc);
    for (line, room) in script.split('\n').zip(rooms.iter_mut()) {
        match meaning_of(alloc, names, WORKERS, line.as_bytes(), room)? {
            Meaning::Skipped => {}
            Meaning::Runs(step) => steps.push(step)?,
            Meaning::Bad => return Err(Fault::Steps),
        }
    }
    Ok(steps)
}

/// The lines of a script's steps, and after how many of them an allocation failed, if one did.
#[derive(Drop)]
pub struct Told {
    pub lines: Vec<u8>,
    pub refused_after: Option<usize>,
}

fn run_all(alloc: Global, setup: &Setup, steps: &[Step]) -> Result<Ran, Fault> {
    let mut floor = floor_of(alloc, setup)?;
    run_on(alloc, &mut floor, steps)
}

fn told_of(alloc: Global, setup: &Setup, script: &str) -> Result<Told, Fault> {
    let names = setup.names(alloc)?;
    let mut rooms = rooms_for(alloc, script)?;
    let steps = steps_of(alloc, names.as_slice(), script, rooms.as_mut_slice())?;
    let ran = run_all(alloc, setup, steps.as_slice())?;
    Ok(Told {
        lines: print_lines(alloc, names.as_slice(), ran.outputs.as_slice())?,
        refused_after: ran.refused_after,
    })
}

/// Runs the steps of a script as one list, for the tenants of a setup. If an allocation fails, it runs the steps after
/// it.
pub fn tell(alloc: Global, setup: &[u8], script: &str) -> Result<Told, Fault> {
    let setup = setup_of(alloc, setup)?;
    told_of(alloc, &setup, script)
}

fn answer_in(output: Output) -> Option<Result<Answered, CommandFault>> {
    match output {
        Output::Governed { answer, .. } => Some(answer),
        _ => None,
    }
}

fn closed_by(answer: Result<Answered, CommandFault>) -> Option<Period> {
    match answer {
        Ok(Answered::Rolled(period)) => Some(period),
        _ => None,
    }
}

fn closed_with(output: Output) -> Option<Period> {
    closed_by(answer_in(output)?)
}

// The periods that were closed, of all that was put out.
fn closed_in(alloc: Global, outputs: Vec<Output>) -> Result<Vec<Period>, Fault> {
    let mut periods = Vec::new(alloc);
    for output in outputs {
        if let Some(period) = closed_with(output) {
            periods.push(period)?;
        }
    }
    Ok(periods)
}

fn periods_of(alloc: Global, setup: &Setup, script: &str) -> Result<Vec<Period>, Fault> {
    let names = setup.names(alloc)?;
    let mut rooms = rooms_for(alloc, script)?;
    let steps = steps_of(alloc, names.as_slice(), script, rooms.as_mut_slice())?;
    let ran = run_all(alloc, setup, steps.as_slice())?;
    closed_in(alloc, ran.outputs)
}

/// The periods that the steps of a script close, for the tenants of a setup.
pub fn periods(alloc: Global, setup: &[u8], script: &str) -> Result<Vec<Period>, Fault> {
    let setup = setup_of(alloc, setup)?;
    periods_of(alloc, &setup, script)
}
