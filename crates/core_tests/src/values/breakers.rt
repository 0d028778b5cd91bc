//! Breakers: what is done at one moment after another, and what follows, worked out by hand.

use super::rows::expect;
use breaker::{Breaker, MAX_KNOWN, MISSES, Outcome, Pass, PeerTable};
use common_types::number_in;
use ilp_addr::Target;
use std::alloc::{AllocError, Global};
use std::process::Abort;
use std::test::Fail;

// A moment in milliseconds, what is done, and what follows. `ask` gives a pass, that of a trial, or none. A packet with the usual
// pass, that of the last trial, or that of the trial before it gets an answer or misses, or nothing is known of it. Then packets
// go on as ever, or not.
const FIVE_MISSES: &str = "0 ask usual
0 usual miss on
0 usual miss on
5 usual miss on
5 usual answer on
5 usual miss on
6 usual miss on
7 usual miss on
8 usual miss on
9 ask usual
9 usual unknown on
10 usual miss off
10 ask none
1009 ask none
1010 ask trial
1010 ask none
2000 usual miss off
2010 trial miss off
4009 ask none
4010 ask trial
4011 trial unknown off
4011 ask trial
6010 ask none
6011 ask none
10010 ask none
10011 ask trial
10012 former miss off
10012 former unknown off
10012 ask none
10500 trial answer on
10500 ask usual";

// The rests grow to 30 seconds. A late answer to an earlier packet ends them too.
const LONGER_RESTS: &str = "0 usual miss on
0 usual miss on
0 usual miss on
0 usual miss on
0 usual miss off
999 ask none
1000 ask trial
1000 trial miss off
2999 ask none
3000 ask trial
3000 trial miss off
6999 ask none
7000 ask trial
7000 trial miss off
14999 ask none
15000 ask trial
15000 trial miss off
30999 ask none
31000 ask trial
31000 trial miss off
60999 ask none
61000 ask trial
61000 trial miss off
90999 ask none
91000 ask trial
91001 usual answer on
91001 ask usual";

// A breaker, and the passes of its last two trials.
#[derive(Drop)]
struct Tried {
    breaker: Breaker,
    trial: Pass,
    former: Pass,
}

// What an ask gives.
fn asked(tried: &mut Tried, now: u64) -> &'static str {
    match tried.breaker.ask(now) {
        None => "none",
        Some(Pass::Usual) => "usual",
        Some(pass) => {
            tried.former = tried.trial;
            tried.trial = pass;
            "trial"
        }
    }
}

fn outcome_of(word: &str) -> Option<Outcome> {
    match word {
        "answer" => Some(Outcome::Answered),
        "miss" => Some(Outcome::Missed),
        "unknown" => Some(Outcome::Unknown),
        _ => None,
    }
}

fn pass_of(tried: &Tried, word: &str) -> Option<Pass> {
    match word {
        "usual" => Some(Pass::Usual),
        "trial" => Some(tried.trial),
        "former" => Some(tried.former),
        _ => None,
    }
}

// Whether packets go on after that.
fn learnt(tried: &mut Tried, pass: Pass, outcome: Outcome, now: u64) -> &'static str {
    tried.breaker.learn(pass, outcome, now);
    if tried.breaker.is_closed() {
        "on"
    } else {
        "off"
    }
}

// What follows, and what is to follow; `None` if that is no row.
fn follows(tried: &mut Tried, row: &'static str) -> Option<(&'static str, &'static str)> {
    let (moment, rest) = row.split_once(' ')?;
    let (what, rest) = rest.split_once(' ')?;
    let now = number_in::<0, 1_000_000>(moment.as_bytes()).ok()?.get();
    if what == "ask" {
        return Some((asked(tried, now), rest));
    }
    let (word, wanted) = rest.split_once(' ')?;
    let pass = pass_of(tried, what)?;
    Some((learnt(tried, pass, outcome_of(word)?, now), wanted))
}

fn expect_row(rt: &impl Abort, tried: &mut Tried, row: &'static str) {
    let holds = match follows(tried, row) {
        Some((told, wanted)) => told == wanted,
        None => false,
    };
    expect(rt, row.as_bytes(), holds);
}

fn expect_rows(rt: &impl Abort, rows: &'static str) {
    let mut tried = Tried {
        breaker: Breaker::new(),
        trial: Pass::Usual,
        former: Pass::Usual,
    };
    for row in rows.lines() {
        expect_row(rt, &mut tried, row);
    }
}

#[test]
fn a_peer_that_misses_rests_and_is_tried(rt: HostRuntime) -> Result<(), Fail> {
    expect_rows(&rt, FIVE_MISSES);
    expect_rows(&rt, LONGER_RESTS);
    Ok(())
}

#[test]
fn a_trial_waits_for_a_second_at_most(rt: HostRuntime) -> Result<(), Fail> {
    let trial = Pass::Trial { until: 2_000 };
    assert!(rt; trial.time_of(999) == 999 && trial.time_of(1_001) == 1_000);
    assert!(rt; Pass::Usual.time_of(1_001) == 1_001);
    Ok(())
}

// The target at that port, with that token.
fn target_at(alloc: Global, port: u64, token: &[u8]) -> Result<Target, Fail> {
    let port = port.to_string(alloc)?;
    let url = ["http://127.0.0.1:", port.as_str(), "/"].concat(alloc)?;
    Ok(Target::new(url.as_bytes(), token).ok_or("a target")?)
}

// A packet to that target gets no answer.
fn miss(table: &mut PeerTable, target: &Target, now: u64) -> Result<(), AllocError> {
    table.learn(target, Pass::Usual, Outcome::Missed, now)
}

fn miss_often(table: &mut PeerTable, target: &Target, now: u64) -> Result<(), AllocError> {
    for _ in 0..MISSES {
        miss(table, target, now)?;
    }
    Ok(())
}

#[test]
fn only_the_peer_that_misses_rests(rt: HostRuntime) -> Result<(), Fail> {
    let alloc = rt.alloc();
    let silent = target_at(alloc, 7_801, b"a")?;
    let other_port = target_at(alloc, 7_802, b"a")?;
    let other_token = target_at(alloc, 7_801, b"b")?;
    let mut table = PeerTable::new(alloc);
    miss_often(&mut table, &silent, 0)?;
    assert!(rt; table.ask(&silent, 999).is_none());
    assert!(rt; table.ask(&other_port, 999) == Some(Pass::Usual));
    assert!(rt; table.ask(&other_token, 999) == Some(Pass::Usual));
    assert!(rt; table.resting() == 1 && table.skipped() == 1);
    table.learn(&silent, Pass::Usual, Outcome::Answered, 999)?;
    assert!(rt; table.ask(&silent, 999) == Some(Pass::Usual));
    assert!(rt; table.resting() == 0 && table.skipped() == 1);
    Ok(())
}

// Misses at as many further targets as a table knows.
fn miss_elsewhere(alloc: Global, table: &mut PeerTable) -> Result<(), Fail> {
    for number in 0..MAX_KNOWN {
        miss(table, &target_at(alloc, 8_000 + number as u64, b"a")?, 0)?;
    }
    Ok(())
}

#[test]
fn the_first_of_too_many_peers_is_forgotten(rt: HostRuntime) -> Result<(), Fail> {
    let alloc = rt.alloc();
    let silent = target_at(alloc, 7_801, b"a")?;
    let mut table = PeerTable::new(alloc);
    miss_often(&mut table, &silent, 0)?;
    assert!(rt; table.ask(&silent, 0).is_none());
    miss_elsewhere(alloc, &mut table)?;
    assert!(rt; table.ask(&silent, 0) == Some(Pass::Usual) && table.resting() == 0);
    Ok(())
}
