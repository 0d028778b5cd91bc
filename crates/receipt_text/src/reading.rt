//! Receipts, as they are taken off a text. No clause says what is read: it is written again and compared.

use crate::fault::TextFault;
use crate::verdict::outcome_in;
use common_types::{ReadError, first_word, number_in};
use receipts::Receipt;
use statements::entry_in;
use std::alloc::{AllocError, Global};
use tenant_core::{Change, Entry, EntryView, PeerTerms, Period};

// The place of a receipt's entry.
#[derive(Clone, Copy)]
struct Place {
    tenant: usize,
    period: u64,
    number: u64,
}

// The number at the front of a line, and the text after it.
fn number_before<const HIGH: u64>(line: &[u8]) -> Option<(u64, &[u8])> {
    let (word, rest) = first_word(line);
    Some((number_in::<0, HIGH>(word).ok()?.get(), rest?))
}

// The place at the front of a line, and the record after it.
fn place_in(line: &[u8]) -> Option<(Place, &[u8])> {
    let (tenant, line) = number_before::<65_535>(line)?;
    let (period, line) = number_before::<{ u64::MAX }>(line)?;
    let (number, record) = number_before::<{ u64::MAX }>(line)?;
    let tenant = tenant as usize;
    Some((
        Place {
            tenant,
            period,
            number,
        },
        record,
    ))
}

// What was agreed with the peer that the record at that place adds, if it adds one.
fn added_at(periods: &[Period], place: Place) -> Option<&PeerTerms> {
    for period in periods {
        if period.tenant() == place.tenant && period.number() == place.period {
            let record = period.records().get(place.number as usize)?;
            return match record.entry {
                EntryView::Change(entry) => match &entry.change {
                    Change::PeerAdded(terms) => Some(terms),
                    _ => None,
                },
                _ => None,
            };
        }
    }
    None
}

// Gives a peer that an entry adds the token and the target that the period's record has there: no text has them.
fn complete(periods: &[Period], place: Place, entry: &mut Entry) {
    let Entry::Change(entry) = entry else {
        return;
    };
    let Change::PeerAdded(terms) = &mut entry.change else {
        return;
    };
    if let Some(added) = added_at(periods, place) {
        terms.token = added.token.copy();
        terms.target = added.target.copy();
    }
}

// The receipt on a line.
fn receipt_in(
    alloc: Global,
    periods: &[Period],
    line: &[u8],
) -> Result<Option<Receipt>, AllocError> {
    let Some((place, record)) = place_in(line) else {
        return Ok(None);
    };
    let Some(mut entry) = entry_in(alloc, record, 0)? else {
        return Ok(None);
    };
    let Some(verdict) = outcome_in(record, &entry) else {
        return Ok(None);
    };
    complete(periods, place, &mut entry);
    Ok(Some(Receipt {
        tenant: place.tenant,
        period: place.period,
        number: place.number,
        entry,
        verdict,
    }))
}

// Appends the receipt on a line to the last list.
fn take_line(
    alloc: Global,
    periods: &[Period],
    lists: &mut Vec<Vec<Receipt>>,
    line: &[u8],
    number: usize,
) -> Result<(), ReadError<TextFault>> {
    if line.starts_with(b"worker") {
        return Ok(lists.push(Vec::new(alloc))?);
    }
    match (receipt_in(alloc, periods, line)?, lists.last_mut()) {
        (Some(receipt), Some(list)) => Ok(list.push(receipt)?),
        _ => Err(ReadError::Fault(TextFault::Line(number))),
    }
}

/// The lists of receipts in a text, after its first line.
pub fn lists_in(
    alloc: Global,
    periods: &[Period],
    text: &[u8],
) -> Result<Vec<Vec<Receipt>>, ReadError<TextFault>> {
    let mut lists = Vec::new(alloc);
    let mut number: usize = 0;
    for line in text.split(|byte| *byte == b'\n') {
        number = number.saturating_add(1);
        if number > 1 && !line.is_empty() {
            take_line(alloc, periods, &mut lists, line, number)?;
        }
    }
    Ok(lists)
}
