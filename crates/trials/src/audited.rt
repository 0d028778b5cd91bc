//! The example of receipts: of two tenants, whose entries two workers made by turns.

use crate::fault::Fault;
use crate::many::{by_turns, lent};
use crate::steps::periods;
use receipt_text::{check_receipts, write_receipts};
use statements::{check_statement, write_statement};
use std::alloc::Global;
use std::rt::Files;
use std::{fs, str};
use tenant_core::Period;

// The statements of the example, as the script closes their periods.
static FILES: [&str; 3] = [
    "examples/east.0.statement",
    "examples/west.0.statement",
    "examples/east.1.statement",
];

const WORKERS: usize = 2;

/// The receipts of the entries of periods, which two workers kept by turns, as a text.
pub fn receipts_of(alloc: Global, periods: &[Period]) -> Result<Vec<u8>, Fault> {
    let lists = by_turns(alloc, periods, WORKERS)?;
    let shown = lent(alloc, lists.as_slice())?;
    Ok(write_receipts(alloc, shown.as_slice())?)
}

// The periods that the script closes.
fn closed(rt: &(impl Files + AllocGlobal)) -> Result<Vec<Period>, Fault> {
    let setup = fs::read(rt, "examples/audit.toml")?;
    let script = fs::read(rt, "examples/audit.script")?;
    match str::from_utf8(script.as_slice()) {
        Ok(script) => periods(rt.alloc(), setup.as_slice(), script),
        Err(_) => Err(Fault::Steps),
    }
}

// The periods that the statements of the example state, which are those of the periods that the script closes.
fn stated(
    rt: &(impl Files + AllocGlobal),
    closed: &[Period],
) -> Result<Option<Vec<Period>>, Fault> {
    let alloc = rt.alloc();
    let mut periods = Vec::new(alloc);
    for (file, period) in FILES.iter().zip(closed.iter()) {
        let text = fs::read(rt, file)?;
        let written = write_statement(alloc, period)?;
        match check_statement(alloc, text.as_slice()) {
            Ok(period) if written.as_slice() == text.as_slice() => periods.push(period)?,
            _ => return Ok(None),
        }
    }
    Ok(Some(periods))
}

// Whether an audit says yes to receipts with another digit at that place.
fn is_good_changed(alloc: Global, periods: &[Period], text: &mut [u8], place: usize) -> bool {
    let Some(byte) = text.get(place) else {
        return false;
    };
    let byte = *byte;
    if !byte.is_ascii_digit() {
        return false;
    }
    text[place] = if byte == b'1' { b'2' } else { b'1' };
    let is_good = check_receipts(alloc, periods, text).is_ok();
    text[place] = byte;
    is_good
}

/// Whether the steps of examples/audit.script lead to the statements of the example, and its receipts are complete by them, which
/// they are not with another digit anywhere.
pub fn is_as_told(rt: &(impl Files + AllocGlobal)) -> Result<bool, Fault> {
    let alloc = rt.alloc();
    let closed = closed(rt)?;
    let Some(periods) = stated(rt, closed.as_slice())? else {
        return Ok(false);
    };
    let mut text = fs::read(rt, "examples/audit.receipts")?;
    let written = receipts_of(alloc, closed.as_slice())?;
    let mut is_as_told = closed.len() == FILES.len() && written.as_slice() == text.as_slice();
    is_as_told = is_as_told && check_receipts(alloc, periods.as_slice(), text.as_slice()).is_ok();
    for place in 0..text.len() {
        let is_good = is_good_changed(alloc, periods.as_slice(), text.as_mut_slice(), place);
        is_as_told = is_as_told && !is_good;
    }
    Ok(is_as_told)
}
