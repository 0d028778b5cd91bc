//! Replays whose closed periods someone takes.

use crate::rows::written_by;
use replay_text::{PeriodKeeper, ReplayFault, replay_keeping};
use std::alloc::Global;
use std::process::Abort;
use std::test::Fail;
use tenant_core::Period;
use test_texts::{PEER, RATE, ROUTE, TENANT, filled, setup_with};

/// Notes of each period that it takes whose it is, its number, and how many records it has.
#[derive(Drop)]
struct Notes {
    taken: Vec<(usize, u64, usize)>,
}

impl PeriodKeeper for Notes {
    ghost takes = { λ _ _ _. Unit {0} };

    fn take(&mut self, period: &Period) {
        let _ = self
            .taken
            .push((period.tenant(), period.number(), period.len()));
    }
}

// Two tenants roll in turn. At first one of them is refused, since a packet awaits its answer.
const SCRIPT: &str = "load 0 acme tok-alice {base}
decide 0 {T}
do acme {T} roll
do beta {T} roll
answer 0 {T} fault
do acme {T} roll
do acme {T} balances
do acme {T} roll
tick beta {T}
do beta {T} roll
tick acme {T}
";

// Whose periods they close, their numbers, and how many records they have.
static TAKEN: [(usize, u64, usize); 4] = [(1, 0, 1), (0, 0, 3), (0, 1, 1), (1, 1, 2)];

fn setup(alloc: Global) -> Result<String, Fail> {
    setup_with(
        alloc,
        &[
            ("beta", "", TENANT),
            ("beta alice", "", PEER),
            ("beta bob", "", PEER),
            ("beta route", "", ROUTE),
            ("beta rate", "", RATE),
        ],
    )
}

#[test]
fn each_closed_period_is_taken_once(rt: HostRuntime) -> Result<(), Fail> {
    let alloc = rt.alloc();
    let (setup, script) = (setup(alloc)?, filled(alloc, SCRIPT)?);
    let mut notes = Notes {
        taken: Vec::new(alloc),
    };
    let mut reader = script.as_bytes();
    let mut text = Vec::new(alloc);
    replay_keeping(
        alloc,
        setup.as_bytes(),
        1,
        &mut reader,
        &mut notes,
        &mut text,
    )?;
    assert!(rt; notes.taken.as_slice() == TAKEN.as_slice());
    let printed = written_by(alloc, setup.as_str(), 1, script.as_str())?;
    assert!(rt; text.as_slice() == printed.as_slice());
    Ok(())
}

#[test]
fn no_period_of_a_bad_script_is_taken(rt: HostRuntime) -> Result<(), Fail> {
    let alloc = rt.alloc();
    let setup = setup(alloc)?;
    let script = filled(alloc, "do acme {T} roll\nroll\n")?;
    let mut notes = Notes {
        taken: Vec::new(alloc),
    };
    let mut reader = script.as_bytes();
    let mut text = Vec::new(alloc);
    let ended = replay_keeping(
        alloc,
        setup.as_bytes(),
        1,
        &mut reader,
        &mut notes,
        &mut text,
    );
    assert!(rt; matches!(ended, Err(ReplayFault::Script(_))));
    assert!(rt; notes.taken.is_empty());
    Ok(())
}
