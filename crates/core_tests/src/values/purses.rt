//! Purses: amounts that are held, taken, released and settled, worked out by hand.

use money_core::{Purse, PurseFault};
use std::test::Fail;

#[test]
fn what_is_taken_is_owed(rt: HostRuntime) -> Result<(), Fail> {
    let mut purse = Purse::new(0, 1_000, 500);
    purse.hold_in(1_000)?;
    assert!(rt; purse.hold_in(1) == Err(PurseFault::Ceiling));
    assert!(rt; purse.held_in() == 1_000);
    purse.take_in(1_000);
    assert!(rt; purse.balance() == 1_000);
    assert!(rt; purse.held_in() == 0);
    assert!(rt; purse.passes_ceiling(1));
    Ok(())
}

#[test]
fn what_is_sent_on_is_owed_to_the_peer(rt: HostRuntime) -> Result<(), Fail> {
    let mut purse = Purse::new(0, 1_000, 500);
    purse.hold_out(500)?;
    assert!(rt; purse.hold_out(1) == Err(PurseFault::Credit));
    purse.release_out(200);
    assert!(rt; purse.held_out() == 300);
    purse.take_out(300);
    assert!(rt; purse.balance() == -300);
    assert!(rt; !purse.passes_credit(200));
    assert!(rt; purse.passes_credit(201));
    Ok(())
}

#[test]
fn what_is_settled_moves_the_balance(rt: HostRuntime) -> Result<(), Fail> {
    let mut purse = Purse::new(-4_611_686_018_427_387_904, 0, 0);
    assert!(rt; purse.settle_in(1) == Err(PurseFault::Limit));
    purse.settle_out(5)?;
    purse.settle_in(2)?;
    assert!(rt; purse.balance() == -4_611_686_018_427_387_901);
    purse.set_limits(7, 9);
    let copy = purse.copy();
    assert!(rt; copy.balance() == -4_611_686_018_427_387_901);
    assert!(rt; purse.passes_least(4));
    assert!(rt; !purse.passes_most(4));
    Ok(())
}
