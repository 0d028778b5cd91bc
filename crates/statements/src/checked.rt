//! Statements that are checked.

ghost use Rattle.std.specs.Prelude.{◌≡◌, false, IfOk, IfSome, IsTrue, None};
ghost use Rattle.statements.specs.Fees.{goes_on, route_fee};
ghost use Rattle.statements.specs.Gone.{IsCharged, IsGone};
ghost use Rattle.statements.specs.Statement.{IsStatement};
ghost use Rattle.tenant_core.specs.Closing.{state_before_roll};
ghost use Rattle.tenant_core.specs.Reopening.{is_roll, opening_fault};

use crate::entry::entry_in;
use crate::opening::opening_in;
use crate::words::Lines;
use crate::written::written_in_room;
use common_types::ReadError;
use ilp_addr::{Address, Moment};
use std::alloc::Global;
use std::mem;
use tenant_core::{
    Answered, Book, Change, Command, CommandFault, Entry, Hold, OpeningFault, Outcome, PeerNo,
    Period, Verdict, laws,
};
use thiserror::Error;

/// The most records of a period, its roll's included.
const MOST_RECORDS: usize = 16_384 + 1;

/// What is wrong with a statement. The records of a period are counted from 0.
#[derive(Clone, Copy, Debug, PartialEq, Eq, Error)]
pub enum StatementFault {
    /// It does not begin with an opening.
    #[error("no opening")]
    Opening,
    /// No period begins with its opening, because of what is named.
    #[error("no period begins so: {0}")]
    Limit(OpeningFault),
    /// The line of the record at that place is not an entry.
    #[error("record {0} tells no entry")]
    Entry(usize),
    /// The entry at that place would not have been recorded.
    #[error("record {0} would not have been made")]
    Refused(usize),
    /// No roll ends it.
    #[error("no roll ends it")]
    Unclosed,
    /// It is not word for word what the rules lead to, from that line on. Lines are counted from 1.
    #[error("line {0} is not what the rules lead to")]
    Differs(usize),
}

type Checked<T> = Result<T, ReadError<StatementFault>>;

fn bad(fault: StatementFault) -> ReadError<StatementFault> {
    ReadError::Fault(fault)
}

fn limit(fault: OpeningFault) -> ReadError<StatementFault> {
    bad(StatementFault::Limit(fault))
}

/// A period that was checked, with its packets that went on and the fees that were kept of them.
#[derive(Drop)]
pub struct Gone {
    pub period: Period,
    pub holds: Vec<Hold>,
    pub fees: Vec<u64>,
}

/// A period that is being checked: its book so far, the fees of its packets that went on, and the number that the next
/// peer gets.
#[derive(Drop)]
struct Course {
    book: Book,
    fees: Vec<u64>,
    next_peer: PeerNo,
}

// The course of the period whose opening is on these lines.
#[tactic(auto, unfolding(crate::specs::Fees::fees_of))]
fn begun(alloc: Global, lines: &mut Lines<'_>) -> Checked<Course>
    ensures { IfOk result IsCharged }
{
    let opening = opening_in(alloc, lines)?;
    let next_peer = opening.network.next_peer();
    match Book::reopened(alloc, opening) {
        Ok(book) => Ok(Course {
            book,
            fees: Vec::new(alloc),
            next_peer,
        }),
        Err(ReadError::Memory) => Err(ReadError::Memory),
        Err(ReadError::Fault(fault)) => Err(limit(fault)),
    }
}

// The fee of the best route of a packet's destination, 0 of another entry; `None` if the destination is no address.
fn route_fee(book: &Book, entry: &Entry) -> Option<u64>
    ensures { IfSome result (λ fee. fee ≡ route_fee book.now entry.now) }
{
    let Entry::Decide(decide) = entry else {
        return Some(0);
    };
    let destination = Address::parse(decide.destination.as_slice()).ok()?;
    match book.hop(&destination) {
        Some(hop) => Some(hop.fee.get()),
        None => Some(0),
    }
}

// Whether a packet goes on.
fn goes_on(outcome: &Outcome) -> bool
    ensures { result ≡ goes_on outcome.now }
{
    matches!(outcome, Outcome::Packet(Verdict::Forward { .. }))
}

// The number that the next peer gets, after the entry.
fn next_peer(entry: &Entry, next: PeerNo) -> PeerNo {
    match entry {
        Entry::Change(entry) if matches!(entry.change, Change::PeerAdded(_)) => {
            next.saturating_add(1)
        }
        _ => next,
    }
}

impl Course {
    // Follows an entry; `false` if it would not have been recorded.
    fn follow(&mut self, alloc: Global, entry: &Entry) -> Checked<bool>
        requires { is_roll entry.now ≡ false }
        ensures { IfOk result (λ is_followed. IsTrue is_followed → IsCharged self.old → IsCharged self.new) }
    {
        let Some(fee) = route_fee(&self.book, entry) else {
            return Ok(false);
        };
        let Some(outcome) = self.book.follow(alloc, entry)? else {
            return Ok(false);
        };
        if goes_on(&outcome) {
            self.fees.push(fee)?;
        }
        self.next_peer = next_peer(entry, self.next_peer);
        Ok(true)
    }

    // The period that a roll at that moment closes, if nothing refuses it. The fees go with it.
    fn rolled(&mut self, alloc: Global, now: u64) -> Checked<Option<Gone>>
        requires { IsCharged self.old }
        ensures { IfOk result (λ rolled. IfSome rolled IsGone) }
    {
        let holds = Vec::from_slice(alloc, self.book.holds())?;
        let Some(period) = period_rolled(alloc, &mut self.book, now)? else {
            return Ok(None);
        };
        let fees = mem::replace(&mut self.fees, Vec::new(alloc));
        Ok(Some(Gone {
            period,
            holds,
            fees,
        }))
    }

    // Follows the entry of the line at that place. Of the period's roll it returns only the moment.
    fn follow_line(&mut self, alloc: Global, line: &[u8], place: usize) -> Checked<Option<u64>>
        requires { IsCharged self.old }
        ensures { IfOk result (λ roll. IsCharged self.new) }
    {
        let entry = entry_in(alloc, line, self.next_peer)?;
        let entry = entry.ok_or(bad(StatementFault::Entry(place)))?;
        if entry.is_roll() {
            return Ok(Some(entry.moment()));
        }
        if self.follow(alloc, &entry)? {
            Ok(None)
        } else {
            Err(bad(StatementFault::Refused(place)))
        }
    }

    // Follows the entries of the lines up to the period's roll, and returns its place and its moment.
    fn follow_lines(&mut self, alloc: Global, lines: &mut Lines<'_>) -> Checked<(usize, u64)>
        requires { IsCharged self.old }
        ensures { IfOk result (λ roll. IsCharged self.new) }
    {
        for place in 0..MOST_RECORDS {
            let line = lines.next().ok_or(bad(StatementFault::Unclosed))?;
            if let Some(moment) = self.follow_line(alloc, line, place)? {
                return Ok((place, moment));
            }
        }
        Err(bad(StatementFault::Unclosed))
    }

    // The period that the entries of the lines lead to.
    fn go_over(&mut self, alloc: Global, lines: &mut Lines<'_>) -> Checked<Gone>
        requires { IsCharged self.old }
        ensures { IfOk result IsGone }
    {
        let (place, moment) = self.follow_lines(alloc, lines)?;
        match self.rolled(alloc, moment)? {
            Some(gone) => Ok(gone),
            None => Err(bad(StatementFault::Refused(place))),
        }
    }
}

// The period that a roll of the book at that moment closes, if nothing refuses it.
fn period_rolled(alloc: Global, book: &mut Book, now: u64) -> Checked<Option<Period>>
    ensures { IfOk result (λ rolled. IfSome rolled (λ period. state_before_roll period ≡ book.old)) }
{
    let Some(now) = Moment::new(now) else {
        return Ok(None);
    };
    match book.command(alloc, &Command::Roll, now) {
        Ok(Answered::Rolled(period)) => Ok(Some(period)),
        Err(CommandFault::Memory) => Err(ReadError::Memory),
        _ => Ok(None),
    }
}

// The period that its own entries lead to, from its own opening on.
pub fn gone_over(alloc: Global, text: &[u8]) -> Checked<Gone>
    ensures { IfOk result IsGone }
{
    let mut lines = Lines::of(text);
    let mut course = begun(alloc, &mut lines)?;
    course.go_over(alloc, &mut lines)
}

/// The line of a text that first differs from the other's, counted from 1.
pub fn first_difference(text: &[u8], other: &[u8]) -> usize {
    let mut line: usize = 1;
    for (one, two) in text.iter().zip(other.iter()) {
        if one != two {
            break;
        }
        if *one == b'\n' {
            line = line.saturating_add(1);
        }
    }
    line
}

/// The period that a text states, as `check_statement` gives it, with its packets that went on.
pub fn checked(alloc: Global, text: &[u8]) -> Checked<Gone>
    ensures stated { IfOk result (λ gone. IsStatement text.now gone.period) }
    ensures begins { IfOk result (λ gone. opening_fault gone.period.opening ≡ None) }
    ensures gone { IfOk result IsGone }
{
    let gone = gone_over(alloc, text)?;
    laws::period_is_kept(&gone.period);
    let written = written_in_room(alloc, &gone.period, text.len())?;
    if written.as_slice() == text {
        Ok(gone)
    } else {
        Err(bad(StatementFault::Differs(first_difference(text, written.as_slice()))))
    }
}

/// The closed period that a text states word for word, but for tokens and targets, which no statement has. Each peer
/// gets a token of its own by its number, and no target.
///
/// By the type of a period, its records are what their entries lead to from its opening on, and its ending is the
/// opening of the next period. No limit of an opening is broken. So `Ok` says that every verdict and balance of the
/// text is as the rules have it. It does not say that the entries happened, or that none is missing.
///
/// The fault is the first one that is met. `Memory` means out of memory.
pub fn check_statement(alloc: Global, text: &[u8]) -> Result<Period, ReadError<StatementFault>>
    ensures stated { IfOk result (λ period. IsStatement text.now period) }
    ensures begins { IfOk result (λ period. opening_fault period.opening ≡ None) }
{
    Ok(checked(alloc, text)?.period)
}
