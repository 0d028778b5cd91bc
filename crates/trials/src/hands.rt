//! The owner of each step, by the last output of each worker.

use crate::scripts::CALM;
use std::alloc::{AllocError, Global};
use std::str::Lines;

// The most peers of a tenant.
const MAX_PEERS: usize = 256;

/// What a worker has in hand, and whether it is the calm tenant's.
#[derive(Clone, Copy, PartialEq, Eq)]
enum Hand {
    Free,
    Loaded(bool),
    Waiting(bool),
}

/// The steps of one tenant among those of all, and the lines that they printed.
#[derive(Drop)]
pub struct Own {
    pub script: String,
    pub lines: String,
}

fn word(line: &str, place: usize) -> &str {
    line.split(' ').nth(place).unwrap_or("")
}

fn worker_in(step: &str, hands: &[Hand]) -> usize {
    let worker = word(step, 1).parse::<usize>().unwrap_or(0);
    worker.min(hands.len().saturating_sub(1))
}

// What the worker has in hand after a load that it was free for.
fn loaded(step: &str, line: &str) -> Hand {
    if word(line, 1) == "loaded" {
        Hand::Loaded(word(step, 2) == CALM)
    } else {
        Hand::Free
    }
}

fn decided(line: &str, is_calm: bool) -> Hand {
    if word(line, 1) == "send" {
        Hand::Waiting(is_calm)
    } else {
        Hand::Free
    }
}

// Whether a worker's step is the calm tenant's, and what the worker has in hand after it.
fn handed(step: &str, line: &str, hand: Hand) -> (bool, Hand) {
    match (word(step, 0), hand) {
        ("load", Hand::Free) => (word(step, 2) == CALM, loaded(step, line)),
        ("decide", Hand::Loaded(is_calm)) => (is_calm, decided(line, is_calm)),
        ("answer", Hand::Waiting(is_calm)) => (is_calm, Hand::Free),
        _ => (false, hand),
    }
}

// Whether the step is the calm tenant's. The line is the first that it printed.
fn is_calms(step: &str, line: &str, hands: &mut [Hand]) -> bool {
    match word(step, 0) {
        "tick" | "do" => word(step, 1) == CALM,
        _ => {
            let worker = worker_in(step, hands);
            let Some(hand) = hands.get_mut(worker) else {
                return false;
            };
            let (is_calm, after) = handed(step, line, *hand);
            *hand = after;
            is_calm
        }
    }
}

fn put_line(text: &mut String, line: &str) -> Result<(), AllocError> {
    text.push_str(line)?;
    text.push_str("\n")
}

// Takes over the step, if it is the calm tenant's, and the lines that it printed.
fn take_over(
    own: &mut Own,
    hands: &mut [Hand],
    step: &str,
    printed: &mut Lines<'_>,
) -> Result<(), AllocError> {
    let mut line = printed.next().unwrap_or("");
    let is_calm = is_calms(step, line, hands);
    if is_calm {
        put_line(&mut own.script, step)?;
        put_line(&mut own.lines, line)?;
    }
    // Lines of balances go before the last line of their command.
    for _ in 0..MAX_PEERS {
        if word(line, 1) != "balance" {
            break;
        }
        line = printed.next().unwrap_or("");
        if is_calm {
            put_line(&mut own.lines, line)?;
        }
    }
    Ok(())
}

/// The calm tenant's steps among those of a script, and its lines among those that the script printed.
pub fn own_of(alloc: Global, workers: usize, script: &str, lines: &str) -> Result<Own, AllocError> {
    let mut hands: Vec<Hand> = vec![in alloc; Hand::Free; workers]?;
    let mut own = Own {
        script: String::new(alloc),
        lines: String::new(alloc),
    };
    let mut printed = lines.lines();
    for step in script.lines() {
        take_over(&mut own, hands.as_mut_slice(), step, &mut printed)?;
    }
    Ok(own)
}
