//! Statements of closed periods: what is written is good, and what was changed is not, unless it states another truth.

use common_types::ReadError;
use statements::{StatementFault, check_statement, write_statement};
use std::alloc::Global;
use std::process::Abort;
use std::test::Fail;
use tenant_core::Period;
use test_texts::books::period_of_each;

// The period of `period_of_each`: a packet of 1,000 that goes on for 1,500 and is rejected a millisecond later, a moment, a route
// that is taken away, and the roll. One packet is gone from the first peer's bucket, into which a tenth of one came since.
const STATEMENT: &str = "statement 1
tenant 0 acme g.acme 8 1000 30000
period 0 1893456000000 0 2
peer 0 p0 peer USD 2 1500 1000000 1000000 100 100 0 100000
peer 1 p1 peer USD 2 1500 1000000 1000000 100 100 0 100000
route g.acme.bob 1 0
rate 0 1 3 2
1893456000000 prepare 0 1000 1893456030000 66687aadf862bd776c8fc18b8e9f8e20089714856ee233b3902a591d0d5f2925 g.acme.bob.x = forward 0 1 1500 1893456029000
1893456000001 reject 0 = relay
1893456000001 tick = 0
1893456000001 route remove g.acme.bob
1893456000001 roll
ending
tenant 0 acme g.acme 8 1000 30000
period 1 1893456000001 1 2
peer 0 p0 peer USD 2 1500 1000000 1000000 100 100 0 99100
peer 1 p1 peer USD 2 1500 1000000 1000000 100 100 0 100000
rate 0 1 3 2
";

// What is written of the period is good, and states as many records.
fn expect_good(rt: &impl Abort, alloc: Global, period: &Period) -> Result<(), Fail> {
    let text = write_statement(alloc, period)?;
    match check_statement(alloc, text.as_slice()) {
        Ok(stated) => assert!(rt; stated.len() == period.len()),
        Err(_) => assert!(rt; false),
    }
    Ok(())
}

#[test]
fn a_statement_says_what_began_what_happened_and_what_follows(rt: HostRuntime) -> Result<(), Fail> {
    let period = period_of_each(rt.alloc())?;
    let text = write_statement(rt.alloc(), &period)?;
    assert!(rt; text.as_slice() == STATEMENT.as_bytes());
    expect_good(&rt, rt.alloc(), &period)
}

// A part of the statement, what replaces it, and what is wrong then.
const FAULTS: &str = "tenant 0 acme | tenant 64 acme | no period begins so: the tenant's place
acme 8 1000 | acme 1 1000 | no period begins so: the journal's places
8 1000 30000 | 8 60001 30000 | no period begins so: the margin
1000 30000 | 1000 0 | no period begins so: the hold
period 0 | period 4294967296 | no period begins so: the period
0 1893456000000 | 0 253400000000001 | no period begins so: the clock
1893456000000 0 2 | 1893456000000 1 2 | no period begins so: the number of the next hold
100 100 0 100000 | 100 100 0 100001 | no period begins so: a bucket
peer 1 p1 | peer 0 p1 | no opening
rate 0 1 3 2 | rate 0 2 3 2 | no opening
statement 1 | statement 2 | line 1 is not what the rules lead to
forward 0 1 1500 | forward 0 1 1501 | line 8 is not what the rules lead to
ending | Ending | line 13 is not what the rules lead to
0 99100 | 0 99101 | line 16 is not what the rules lead to
reject 0 | reject 1 | record 1 would not have been made
tick = 0 | tock = 0 | record 2 tells no entry
1893456000001 roll | 1893456000001 tick = 0 | record 5 tells no entry
";

// The statement with that in place of this.
fn statement_with(alloc: Global, this: &str, that: &str) -> Result<Vec<u8>, Fail> {
    let (front, rest) = STATEMENT.split_once(this).ok_or("what stands there")?;
    Ok([front.as_bytes(), that.as_bytes(), rest.as_bytes()].concat(alloc)?)
}

// What is wrong with a text.
fn fault_of(alloc: Global, text: &[u8]) -> Result<StatementFault, Fail> {
    match check_statement(alloc, text) {
        Err(ReadError::Fault(fault)) => Ok(fault),
        _ => Err("a fault".into()),
    }
}

fn expect_fault(rt: &impl Abort, alloc: Global, row: &str) -> Result<(), Fail> {
    let (this, rest) = row.split_once(" | ").ok_or("a row")?;
    let (that, wanted) = rest.split_once(" | ").ok_or("a row")?;
    let text = statement_with(alloc, this, that)?;
    let found = fault_of(alloc, text.as_slice())?.to_string(alloc)?;
    assert_eq!(rt; found.as_str(), wanted);
    Ok(())
}

#[test]
fn what_is_wrong_with_a_statement_is_its_first_fault(rt: HostRuntime) -> Result<(), Fail> {
    for row in FAULTS.lines() {
        expect_fault(&rt, rt.alloc(), row)?;
    }
    Ok(())
}

// Whether the text is good with another byte at that place.
fn is_good_changed(alloc: Global, text: &mut [u8], place: usize) -> bool {
    let Some(byte) = text.get(place) else {
        return false;
    };
    let byte = *byte;
    text[place] = if byte == b'1' { b'2' } else { b'1' };
    let is_good = check_statement(alloc, text).is_ok();
    text[place] = byte;
    is_good
}

// How many bytes of the text can be changed, one at a time.
fn changeable(alloc: Global, text: &mut [u8]) -> usize {
    let mut count: usize = 0;
    for place in 0..text.len() {
        if is_good_changed(alloc, text, place) {
            count = count.saturating_add(1);
        }
    }
    count
}

// Each byte becomes a `1`, or a `2` if it is one. Some changes state another truth. A packet that is rejected may have
// had any condition, 64 digits, and any destination after the route, the letter after `g.acme.bob.`. And a moment may
// have gone back, since the clock does not go back with it. Each of the digits 8, 9, 3, 4, 5 and 6 of 1893456000000 can
// become less, in each of 5 records, and in the period's beginning with full buckets.
#[test]
fn a_changed_byte_is_refused_unless_it_states_another_truth(rt: HostRuntime) -> Result<(), Fail> {
    let mut text = Vec::from_slice(rt.alloc(), STATEMENT.as_bytes())?;
    let count = changeable(rt.alloc(), text.as_mut_slice());
    assert_eq!(rt; count, 64 + 1 + 6 * 6);
    Ok(())
}
