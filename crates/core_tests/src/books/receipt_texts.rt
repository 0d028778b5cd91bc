//! Texts of receipts: what is written of complete ones is audited, and what is changed is not.

use super::audits::receipt;
use receipt_text::{ReceiptsFault, check_receipts, write_receipts};
use receipts::AuditFault;
use std::alloc::Global;
use std::process::Abort;
use std::slice;
use std::test::Fail;
use tenant_core::Period;
use test_texts::books::period_of_each;

// The receipts of the period of `period_of_each`, which two workers kept by turns.
const TEXT: &str = "receipts 1
worker 3
0 0 0 1893456000000 prepare 0 1000 1893456030000 66687aadf862bd776c8fc18b8e9f8e20089714856ee233b3902a591d0d5f2925 g.acme.bob.x = forward 0 1 1500 1893456029000
0 0 2 1893456000001 tick = 0
0 0 4 1893456000001 roll
worker 2
0 0 1 1893456000001 reject 0 = relay
0 0 3 1893456000001 route remove g.acme.bob
";

// The receipts of the records of a period, which two workers keep by turns.
fn text_of(alloc: Global, period: &Period) -> Result<Vec<u8>, Fail> {
    let (mut first, mut second) = (Vec::new(alloc), Vec::new(alloc));
    for number in 0..period.len() {
        let list = if number % 2 == 0 {
            &mut first
        } else {
            &mut second
        };
        list.push(receipt(alloc, period, number)?)?;
    }
    Ok(write_receipts(alloc, &[first.as_slice(), second.as_slice()])?)
}

// The text of a period's receipts is valid, and they are complete if it is a first period. A later one without it
// does not join.
fn expect_complete(rt: &impl Abort, alloc: Global, period: &Period) -> Result<(), Fail> {
    let text = text_of(alloc, period)?;
    match check_receipts(alloc, slice::from_ref(period), text.as_slice()) {
        Ok(audited) => {
            assert!(rt; period.number() == 0 && audited.receipts == period.len());
        }
        Err(fault) => {
            let is_gap = matches!(fault, ReceiptsFault::Audit(AuditFault::Gap));
            assert!(rt; period.number() > 0 && is_gap);
        }
    }
    Ok(())
}

#[test]
fn a_text_says_where_each_entry_stands_and_what_it_is(rt: HostRuntime) -> Result<(), Fail> {
    let period = period_of_each(rt.alloc())?;
    let text = text_of(rt.alloc(), &period)?;
    assert!(rt; text.as_slice() == TEXT.as_bytes());
    expect_complete(&rt, rt.alloc(), &period)
}

// A part of the text, what replaces it, and what is wrong then.
const FAULTS: &str = "receipts 1 | receipts 2 | line 1 is not as receipts are written
worker 3 | worker 4 | line 2 is not as receipts are written
worker 2 | walker 2 | line 6 tells no receipt and no worker
0 0 2 | 0 0 02 | line 4 tells no receipt and no worker
roll | reel | line 5 tells no receipt and no worker
relay | delay | line 7 tells no receipt and no worker
worker 3 | 0 0 4 1893456000001 roll | line 2 tells no receipt and no worker
tick = 0 | tick = 1 | a receipt shows another entry or another verdict
forward 0 1 1500 | forward 0 1 1501 | a receipt shows another entry or another verdict
forward 0 1 1500 1893456029000 | refuse F02 | a receipt shows another entry or another verdict
forward 0 1 1500 1893456029000 | refuse F08 1000 1500 | a receipt shows another entry or another verdict
reject 0 = relay | fault 0 = refuse T01 | a receipt shows another entry or another verdict
0 0 4 | 0 0 5 | a receipt names no entry of the periods
0 0 1 | 1 0 1 | a receipt names no entry of the periods
0 0 3 | 0 1 3 | a receipt names no entry of the periods
0 0 4 1893456000001 roll | 0 0 2 1893456000001 tick = 0 | two receipts name one entry
";

// Why a text is refused that has that in place of this.
fn fault_of(alloc: Global, period: &Period, this: &str, that: &str) -> Result<String, Fail> {
    let (front, rest) = TEXT.split_once(this).ok_or("what stands there")?;
    let text = [front.as_bytes(), that.as_bytes(), rest.as_bytes()].concat(alloc)?;
    match check_receipts(alloc, slice::from_ref(period), text.as_slice()) {
        Ok(_) => Err(Fail::from("a fault")),
        Err(fault) => Ok(fault.to_string(alloc)?),
    }
}

#[test]
fn what_is_wrong_with_a_text_of_receipts(rt: HostRuntime) -> Result<(), Fail> {
    let alloc = rt.alloc();
    let period = period_of_each(alloc)?;
    for row in FAULTS.lines() {
        let (this, rest) = row.split_once(" | ").ok_or("a row")?;
        let (that, wanted) = rest.split_once(" | ").ok_or("a row")?;
        let found = fault_of(alloc, &period, this, that)?;
        assert_eq!(rt; found.as_str(), wanted);
    }
    Ok(())
}

const LAST: &str = "worker 2
0 0 1 1893456000001 reject 0 = relay
0 0 3 1893456000001 route remove g.acme.bob
";

// The lines of the second worker, and why they are refused.
static LASTS: [(&str, &str); 2] = [
    (
        "worker 1\n0 0 1 1893456000001 reject 0 = relay\n",
        "an entry has no receipt",
    ),
    (
        "worker 2\n0 0 3 1893456000001 route remove g.acme.bob\n0 0 1 1893456000001 reject 0 = relay\n",
        "no order of the receipts keeps all journals and all lists",
    ),
];

#[test]
fn receipts_that_are_missing_or_in_no_order(rt: HostRuntime) -> Result<(), Fail> {
    let alloc = rt.alloc();
    let period = period_of_each(alloc)?;
    for (lines, wanted) in &LASTS {
        let found = fault_of(alloc, &period, LAST, lines)?;
        assert_eq!(rt; found.as_str(), *wanted);
    }
    Ok(())
}

// Whether an audit says yes to the text with another byte at that place.
fn is_good_changed(alloc: Global, period: &Period, text: &mut [u8], place: usize) -> bool {
    let Some(byte) = text.get(place) else {
        return false;
    };
    let byte = *byte;
    text[place] = if byte == b'1' { b'2' } else { b'1' };
    let is_good = check_receipts(alloc, slice::from_ref(period), text).is_ok();
    text[place] = byte;
    is_good
}

#[test]
fn each_changed_byte_is_refused(rt: HostRuntime) -> Result<(), Fail> {
    let alloc = rt.alloc();
    let period = period_of_each(alloc)?;
    let mut text = Vec::from_slice(alloc, TEXT.as_bytes())?;
    for place in 0..TEXT.len() {
        assert!(rt; !is_good_changed(alloc, &period, text.as_mut_slice(), place));
    }
    Ok(())
}
