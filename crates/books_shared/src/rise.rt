//! By how much calls raise what is counted.

ghost use Rattle.std.specs.Prelude.{◌≡◌, ◌<◌, ◌^◌};
ghost use Rattle.books_shared.specs.Rises.{command_rise, entries_closed, rise_of_turn, tick_rise};

use floor_core::Turn;
use tenant_core::{Answered, BookFault, CommandFault};

/// What a call adds to the counts of a tenant.
#[derive(Clone, Copy, Debug, PartialEq, Eq)]
pub struct CallCounts {
    /// How many entries were appended to the book.
    pub entries: u64,
    /// How many tokens were no peer's.
    pub strangers: u64,
    /// How many packets found the journal full.
    pub full: u64,
}

const NOTHING: CallCounts = CallCounts {
    entries: 0,
    strangers: 0,
    full: 0,
};

const AN_ENTRY: CallCounts = CallCounts {
    entries: 1,
    strangers: 0,
    full: 0,
};

/// What a call of a slot with that turn adds, which appended so many entries.
pub fn rise_of_turn(turn: Turn, entries: u64) -> CallCounts
    ensures { result ≡ rise_of_turn turn entries }
{
    match turn {
        Turn::Stranger => CallCounts {
            entries,
            strangers: 1,
            full: 0,
        },
        Turn::Reply => CallCounts {
            entries,
            strangers: 0,
            full: if entries == 0 { 1 } else { 0 },
        },
        Turn::Idle | Turn::Stray | Turn::Send { .. } => CallCounts {
            entries,
            strangers: 0,
            full: 0,
        },
    }
}

/// What a tick with that result adds.
pub fn tick_rise(count: Result<u32, BookFault>) -> CallCounts
    ensures { result ≡ tick_rise count }
{
    match count {
        Ok(_) => AN_ENTRY,
        Err(_) => NOTHING,
    }
}

/// What a command with that answer adds.
pub fn command_rise(answer: &Result<Answered, CommandFault>) -> CallCounts
    ensures { result ≡ command_rise answer.now }
{
    match answer {
        Ok(Answered::Done) | Ok(Answered::Rolled(_)) => AN_ENTRY,
        Ok(Answered::Balances(_)) | Err(_) => NOTHING,
    }
}

/// How many entries a command with that answer closed, if the period had so many before it: a roll closes these
/// and its own, others close none.
pub fn entries_closed(answer: &Result<Answered, CommandFault>, entries: u64) -> u64
    requires { entries < 2 ^ 47 }
    ensures { result ≡ entries_closed answer.now entries }
{
    match answer {
        Ok(Answered::Rolled(_)) => entries + 1,
        Ok(Answered::Done) | Ok(Answered::Balances(_)) | Err(_) => 0,
    }
}
