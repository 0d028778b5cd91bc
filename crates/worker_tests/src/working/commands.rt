//! Commands done and refused.

use super::{FixedClock, ONE_ANSWERED, Team, Trial, counts_of, entries_of, on_two_books, start};
use ilp_addr::Prefix;
use meters::Meters;
use one_list::Run;
use std::sync::Wait;
use std::test::Fail;
use tenant_core::{Answered, Command, CommandFault, Order, Period};
use workers::{GovernFault, NothingKept, Tools, govern, roll_if_ripe};

// The outcome of a command of acme's operator, which the meters have counted as answered.
fn governed<J: Run, R: Wait + AllocGlobal>(
    rt: &R,
    team: &mut Team<J>,
    command: &Command,
) -> Result<Result<Answered, GovernFault>, Fail> {
    let alloc = rt.alloc();
    let (books, share) = (&team.books, &mut team.first);
    if books.tenants() == 0 {
        return Err("a tenant".into());
    }
    let (meters, mut seat) = Meters::new(alloc, 1)?;
    let clock = FixedClock(start()?);
    let tools = Tools {
        rt,
        alloc,
        books,
        meters: &meters,
        clock: &clock,
        keeping: &NothingKept,
    };
    let answer = govern(&tools, &mut seat, share, 0, command);
    if counts_of(&meters.close(seat)) == ONE_ANSWERED {
        Ok(answer)
    } else {
        Err("a command that is answered".into())
    }
}

fn is_done(answer: &Result<Answered, GovernFault>) -> bool {
    matches!(answer, Ok(Answered::Done))
}

fn is_absent(answer: &Result<Answered, GovernFault>) -> bool {
    matches!(answer, Err(GovernFault::Refused(CommandFault::Absent)))
}

// How many rows the balances have.
fn balances<J: Run, R: Wait + AllocGlobal>(
    rt: &R,
    team: &mut Team<J>,
) -> Result<Option<usize>, Fail> {
    match governed(rt, team, &Command::Balances)? {
        Ok(Answered::Balances(rows)) => Ok(Some(rows.as_slice().len())),
        _ => Ok(None),
    }
}

/// The period that a roll closes.
pub(super) fn closed<J: Run, R: Wait + AllocGlobal>(
    rt: &R,
    team: &mut Team<J>,
) -> Result<Period, Fail> {
    match governed(rt, team, &Command::Roll)? {
        Ok(Answered::Rolled(period)) => Ok(period),
        _ => Err("a period".into()),
    }
}

/// A route is removed once, balances are asked for, and a period is closed.
struct Commands;

impl Trial for Commands {
    fn act<J: Run, R: Wait + AllocGlobal>(&self, rt: &R, mut team: Team<J>) -> Result<bool, Fail> {
        are_governed(rt, &mut team)
    }
}

fn are_governed<J: Run, R: Wait + AllocGlobal>(rt: &R, team: &mut Team<J>) -> Result<bool, Fail> {
    let is_removed = is_removed_once(rt, team)?;
    let balances = balances(rt, team)?;
    let is_one = balances == Some(2) && entries_of(&team.first) == Some(1);
    Ok(is_removed && is_one && closes_all(rt, team)?)
}

// Whether bob's route is removed, and is absent then.
fn is_removed_once<J: Run, R: Wait + AllocGlobal>(
    rt: &R,
    team: &mut Team<J>,
) -> Result<bool, Fail> {
    let prefix = Prefix::parse(rt.alloc(), b"g.acme.bob")?;
    let command = Command::Order(Order::RemoveRoute(prefix));
    let removed = governed(rt, team, &command)?;
    let is_one = entries_of(&team.first) == Some(1);
    let again = governed(rt, team, &command)?;
    Ok(is_done(&removed) && is_one && is_absent(&again))
}

// Whether the period that is closed has two balances, and that is the second entry.
fn closes_all<J: Run, R: Wait + AllocGlobal>(rt: &R, team: &mut Team<J>) -> Result<bool, Fail> {
    let period = closed(rt, team)?;
    Ok(period.len() == 2 && entries_of(&team.first) == Some(2))
}

#[test]
fn commands_are_done_and_refused(rt: HostRuntime) -> Result<(), Fail> {
    assert!(rt; on_two_books(&rt, "64", &Commands)?);
    Ok(())
}

/// A period of 8 entries at most, one of which is there, is closed at 12 hundredths and not at 13.
struct Ripeness;

impl Trial for Ripeness {
    fn act<J: Run, R: Wait + AllocGlobal>(&self, rt: &R, mut team: Team<J>) -> Result<bool, Fail> {
        let is_removed = is_removed_once(rt, &mut team)?;
        let is_unripe = looked_at(rt, &mut team, 13)?.is_none();
        let is_closed = looked_at(rt, &mut team, 12)? == Some(2);
        Ok(is_removed && is_unripe && is_closed && looked_at(rt, &mut team, 12)?.is_none())
    }
}

// How many entries acme's period has, with its roll, if it is closed at so many hundredths.
fn looked_at<J: Run, R: Wait + AllocGlobal>(
    rt: &R,
    team: &mut Team<J>,
    percent: u8,
) -> Result<Option<usize>, Fail> {
    if team.books.tenants() == 0 {
        return Err("a tenant".into());
    }
    let (meters, _seat) = Meters::new(rt.alloc(), 1)?;
    let tools = Tools {
        rt,
        alloc: rt.alloc(),
        books: &team.books,
        meters: &meters,
        clock: &FixedClock(start()?),
        keeping: &NothingKept,
    };
    match roll_if_ripe(&tools, &mut team.first, 0, percent) {
        Ok(Some(Answered::Rolled(period))) => Ok(Some(period.len())),
        Ok(None) => Ok(None),
        _ => Err("a look".into()),
    }
}

#[test]
fn a_period_is_closed_once_it_is_ripe(rt: HostRuntime) -> Result<(), Fail> {
    assert!(rt; on_two_books(&rt, "8", &Ripeness)?);
    Ok(())
}
