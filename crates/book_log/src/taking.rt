//! Books that take up the lines of a log.

ghost use Rattle.std.specs.Prelude.{◌≡◌, ◌++◌, ◌∷◌, [], ◌↔◌, List, ℕ, IfOk, IfSome, OnOk, IsTrue, length, None, Some};
ghost use Rattle.line_log.specs.Log.{lines};
ghost use Rattle.tenant_core.specs.Replay.{outcome_of};
ghost use Rattle.tenant_core.specs.State.{State};
ghost use Rattle.tenant_core.specs.declared.journal.Outcome.{Outcome};
ghost use Rattle.book_log.specs.Faults.{IsFaultOf, OnFault, StopsAt, feeds};
ghost use Rattle.book_log.specs.Lines.{AreLinesTaken, IsNext, IsTaken, log_line, place_of};
ghost use Rattle.book_log.specs.Reading.{line_said};
ghost use Rattle.book_log.specs.Sums.{IsTextTaken};
ghost use Rattle.book_log.specs.Written.{AreWritten, HasFault, IsNotWritten, IsOnlyEnd, IsWritten};

use crate::laws::lines_are_read_back;
use crate::line::{LinePlace, is_line_of, line_in};
use crate::sums::{first_commit, first_line, sum_of};
use book_recovery::follow;
use common_types::ReadError;
use std::alloc::{AllocError, Global};
use tenant_core::{Book, Entry, Outcome};
use thiserror::Error;

/// The place of a book's next record.
pub fn place_of(book: &Book) -> LinePlace
    ensures { result ≡ place_of book.now }
{
    LinePlace {
        tenant: book.tenant(),
        period: book.period(),
        number: book.entries() as u64,
    }
}

// Whether that is the place of a book's next record.
fn is_due(book: &Book, place: LinePlace) -> bool
    ensures { IsTrue result ↔ (place_of book.now ≡ place) }
{
    place_of(book) == place
}

// Does again what an entry says. Whether the line, which says it, is just that of its record at that place. If not, the book may
// have followed the rules.
fn take_entry(
    alloc: Global,
    book: &mut Book,
    written: &mut Vec<u8>,
    place: LinePlace,
    entry: &Entry,
    line: &[u8],
) -> Result<bool, AllocError>
    ensures taken { IfOk result (λ taken. IsTrue taken → line_said line.now ≡ Some (place, entry.now) → IsNext line.now book.old book.new) }
    ensures refused { IfOk result (λ taken. (o : Outcome) → place_of book.old ≡ place → outcome_of book.old entry.now ≡ Some o
        → line.now ++ 10 ∷ [] ≡ log_line place (record { entry = entry.now; outcome = o }) → IsTrue taken) }
{
    if !is_due(book, place) {
        return Ok(false);
    }
    let Some(outcome) = follow(alloc, book, entry)? else {
        return Ok(false);
    };
    let is_line = is_line_of(written, place, entry, outcome, line)?;
    Ok(is_line)
}

/// Does again what a line says, without its line feed. Whether it is the next record of one of the books, which lie by the
/// numbers of their tenants, and what the rules lead to. If not, one book may have followed the rules. `written` is room to
/// write in. Fails only if it is out of memory.
///
/// A line that was written of such a record is taken up, as that record.
pub fn take_line(
    alloc: Global,
    books: &mut [Book],
    written: &mut Vec<u8>,
    line: &[u8],
) -> Result<bool, AllocError>
    ensures taken { IfOk result (λ taken. IsTrue taken → IsTaken line.now books.old books.new) }
    ensures written { IfOk result (λ taken. (after : List State) → IsWritten line.now books.old after
        → IsTrue taken × (books.new ≡ after)) }
    ensures as_many { length books.new ≡ length books.old }
{
    lines_are_read_back();
    let Some((place, entry)) = line_in(alloc, line)? else {
        return Ok(false);
    };
    let tenant = place.tenant;
    if tenant >= books.len() || books[tenant].tenant() != tenant {
        return Ok(false);
    }
    let taken = take_entry(alloc, &mut books[tenant], written, place, &entry, line)?;
    Ok(taken)
}

// Takes up the lines of a text, one after another. `Some` is how many were before the first that is not taken up.
fn take_lines(
    alloc: Global,
    books: &mut [Book],
    written: &mut Vec<u8>,
    text: &[u8],
) -> Result<Option<usize>, AllocError>
    ensures taken { IfOk result (λ breaks. breaks ≡ None → AreLinesTaken text.now books.old books.new) }
    ensures written { IfOk result (λ breaks. (each : List (List ℕ)) (after : List State) → text.now ≡ lines each
        → AreWritten each books.old after → (breaks ≡ None) × (books.new ≡ after)) }
    ensures as_many { length books.new ≡ length books.old }
    ensures stops { IfOk result (λ breaks. IfSome breaks (StopsAt text.now books.old)) }
{
    lines_are_read_back();
    let mut rest = text;
    let mut number: usize = 0;
    while !rest.is_empty() {
        let Some((line, others)) = first_line(rest) else {
            return Ok(Some(number));
        };
        if !take_line(alloc, books, written, line)? {
            return Ok(Some(number));
        }
        rest = others;
        number = number.saturating_add(1);
    }
    Ok(None)
}

/// What is wrong with a line of a log. Lines are counted from 1.
#[derive(Clone, Copy, Debug, PartialEq, Eq, Error)]
pub enum LineFault {
    /// It is no record, or not the one to which the rules lead.
    #[error("line {0}: not what the rules lead to")]
    Record(usize),
    /// It is a sum, but not that of the lines before it.
    #[error("line {0}: not the sum of the lines before it")]
    Sum(usize),
}

// How many lines a text has.
fn count_lines(text: &[u8]) -> usize
    ensures { result ≡ feeds text.now }
{
    text.iter().filter(|byte| **byte == b'\n').count()
}

/// Takes up the lines of a text, one after another: commits, each with the sum of its lines, where the first sum is the one before
/// it; and lines of a commit that was not acknowledged.
///
/// The fault is the first line that is not what the rules lead to, or not the sum of the lines before it. A text whose lines were
/// written of such records, with their sums, has none.
pub fn take_text(
    alloc: Global,
    books: &mut [Book],
    text: &[u8],
    first: &[u8; 32],
) -> Result<(), ReadError<LineFault>>
    ensures taken { OnOk result (IsTextTaken first.now text.now books.old books.new) }
    ensures written { OnOk result (IsOnlyEnd first.now text.now books.old books.new) }
    ensures refused { HasFault result → IsNotWritten first.now text.now books.old }
    ensures as_many { length books.new ≡ length books.old }
    ensures fault { OnFault result (IsFaultOf first.now text.now books.old) }
{
    lines_are_read_back();
    let mut written = Vec::new(alloc);
    let mut rest = text;
    let mut sum = *first;
    let mut line: usize = 1;
    while let Some(commit) = first_commit(rest) {
        let lines = count_lines(commit.lines);
        if let Some(at) = take_lines(alloc, books, &mut written, commit.lines)? {
            return Err(ReadError::Fault(LineFault::Record(line.saturating_add(at))));
        }
        let Some(next) = sum_of(&mut written, &sum, &commit)? else {
            return Err(ReadError::Fault(LineFault::Sum(line.saturating_add(lines))));
        };
        sum = next;
        rest = commit.rest;
        line = line.saturating_add(lines).saturating_add(1);
    }
    match take_lines(alloc, books, &mut written, rest)? {
        Some(at) => Err(ReadError::Fault(LineFault::Record(line.saturating_add(at)))),
        None => Ok(()),
    }
}
