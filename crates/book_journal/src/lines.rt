//! The lines of records that have none yet.

ghost use Rattle.std.specs.Prelude.{◌≡◌, ◌++◌, drop, OnOk};
ghost use Rattle.book_journal.specs.Written.{closed_state, lines_from, place_in};
ghost use Rattle.book_log.specs.Lines.{place_of};
ghost use Rattle.tenant_core.specs.State.{opened};

use book_log::{LinePlace, put_line};
use std::alloc::AllocError;
use tenant_core::{Journal, Opening, Period};

/// The place of the first record of a tenant to whom nothing has happened since its opening.
pub fn first_place(opening: &Opening) -> LinePlace
    ensures { result ≡ place_of (opened opening.now) }
{
    LinePlace {
        tenant: opening.tenant,
        period: opening.period,
        number: 0,
    }
}

/// The place after the last record of a period that a roll closed.
pub fn place_after(period: &Period) -> LinePlace
    ensures { result ≡ place_of (closed_state period.now) }
{
    LinePlace {
        tenant: period.tenant(),
        period: period.number(),
        number: period.len() as u64,
    }
}

/// The same place in a period of that number.
pub fn place_in(place: LinePlace, period: u64) -> LinePlace
    ensures { result ≡ place_in place period }
{
    if place.period == period {
        place
    } else {
        LinePlace {
            tenant: place.tenant,
            period,
            number: 0,
        }
    }
}

/// Appends the lines of the records of a period that have none to a text. `place` is that of the first one, and becomes `next`,
/// which is that after the last. Fails only if it is out of memory.
pub fn put_new_lines(
    out: &mut Vec<u8>,
    place: &mut LinePlace,
    records: &Journal,
    next: LinePlace,
) -> Result<(), AllocError>
    ensures lines { OnOk result (out.new.items ≡ out.old.items
        ++ lines_from (place_in place.old next.period) (drop (place_in place.old next.period).number records.now.records)) }
    ensures place { place.new ≡ next }
{
    let from = place_in(*place, next.period);
    *place = next;
    put_lines(out, records, from)
}

// Appends the lines of the records of a journal from that place on to a text. Fails only if it is out of memory.
fn put_lines(out: &mut Vec<u8>, journal: &Journal, place: LinePlace) -> Result<(), AllocError>
    ensures { OnOk result (out.new.items ≡ out.old.items ++ lines_from place (drop place.number journal.now.records)) }
{
    let end = journal.len() as u64;
    let mut place = place;
    while place.number < end {
        if let Some(view) = journal.get(place.number as usize) {
            put_line(out, place, &view)?;
        }
        place.number += 1;
    }
    Ok(())
}
