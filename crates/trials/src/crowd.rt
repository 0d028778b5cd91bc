//! Crowds: nine hostile tenants beside a calm one, by the same workers. The calm one's lines must be those of its own
//! steps for a setup that has no other tenant.

use crate::fault::Fault;
use crate::hands::{Own, own_of};
use crate::scripts::{script, setup_alone, setup_of_all};
use crate::seen::{COUNT, see};
use replay_text::replay;
use std::alloc::Global;
use std::str;
use test_texts::Draws;

// The random numbers of a round.
fn draws_of(round: u32) -> Draws {
    Draws::new(u64::from(round).wrapping_mul(0xbf58_476d_1ce4_e5b9) ^ 0x9e37_79b9_7f4a_7c15)
}

static WORKERS: [usize; 8] = [1, 2, 3, 5, 8, 13, 32, 64];

fn workers_in(round: u32) -> usize {
    let place = usize::try_from(round % 8).unwrap_or(0);
    WORKERS.get(place).copied().unwrap_or(1)
}

// What a script prints.
fn printed(alloc: Global, setup: &str, workers: usize, script: &str) -> Result<Vec<u8>, Fault> {
    if workers == 0 || workers > 64 {
        return Err(Fault::Steps);
    }
    let mut reader = script.as_bytes();
    let mut text = Vec::new(alloc);
    replay(alloc, setup.as_bytes(), workers, &mut reader, &mut text)?;
    Ok(text)
}

// Whether the calm tenant's lines are those of its own steps without the others.
fn is_alone(alloc: Global, workers: usize, own: &Own) -> Result<bool, Fault> {
    let setup = setup_alone(alloc)?;
    let lines = printed(alloc, setup.as_str(), workers, own.script.as_str())?;
    Ok(lines.as_slice() == own.lines.as_bytes())
}

/// A round: whether the calm tenant sees what it sees without the others, and of how many steps.
fn round(
    alloc: Global,
    setup: &str,
    round: u32,
    steps: u32,
    seen: &mut [bool; COUNT],
) -> Result<usize, Fault> {
    let workers = workers_in(round);
    let script = script(alloc, draws_of(round), workers, steps)?;
    let text = printed(alloc, setup, workers, script.as_str())?;
    let lines = str::from_utf8(text.as_slice()).unwrap_or("");
    let own = own_of(alloc, workers, script.as_str(), lines)?;
    if !is_alone(alloc, workers, &own)? {
        return Err(Fault::Differs(round));
    }
    see(lines, seen);
    Ok(own.script.lines().count())
}

/// The outcome of rounds: how many steps were the calm tenant's own, and which lines the others saw.
#[derive(Drop)]
pub struct Played {
    pub own_steps: usize,
    pub seen: [bool; COUNT],
}

/// Plays so many rounds of so many steps.
pub fn play(alloc: Global, rounds: u32, steps: u32) -> Result<Played, Fault> {
    let setup = setup_of_all(alloc)?;
    let mut seen = [false; COUNT];
    let mut own_steps = 0usize;
    for number in 0..rounds {
        let own = round(alloc, setup.as_str(), number, steps, &mut seen)?;
        own_steps = own_steps.saturating_add(own);
    }
    Ok(Played { own_steps, seen })
}
