ghost use Rattle.std.specs.Prelude.{◌≡◌, ◌↔◌, IfOk, OnOk, OnErr, IsTrue, Some, map};
ghost use Rattle.tenant_core.specs.Holds.{holds_of};
ghost use Rattle.tenant_core.specs.Replay.{outcome_of};
ghost use Rattle.book_recovery.specs.Recovery.{IsClosed, IsDoneAgain, IsRecovery, after_outcome, after_record, all_given_up, given_up};
ghost use Rattle.book_recovery.specs.Recovery.{IsFollowedTo, FrontLaw, NoBreakLaw, NothingHeldLaw, OneEndLaw};

use common_types::ReadError;
use ilp_addr::Moment;
use std::alloc::{AllocError, Global};
use tenant_core::{
    AnswerKey, Answered, Book, Command, CommandFault, Entry, Opening, OpeningFault, Outcome,
    Period, Record, RollEntry,
};
use thiserror::Error;

/// Why records lead to no book.
#[derive(Clone, Copy, Debug, PartialEq, Eq, Error)]
pub enum LogFault {
    /// No period begins with the opening.
    #[error("no period begins so: {0}")]
    Limit(OpeningFault),
    /// The record at that place, from 0 on, is not what the rules lead to.
    #[error("record {0} is not what the rules lead to")]
    Differs(usize),
    /// The roll is refused: the running period is the last one.
    #[error("no period follows")]
    Last,
}

/// The period that a crash ended, and the book of the next one.
#[derive(Drop)]
pub struct Recovered {
    pub period: Period,
    pub book: Book,
}

/// Closes the running period at that moment, and begins the next one in the book. `None` if the roll is refused: nothing has
/// changed then. Fails only if it is out of memory, and nothing has changed then either.
pub fn close(alloc: Global, book: &mut Book, now: Moment) -> Result<Option<Period>, AllocError>
    ensures closes { IfOk result (λ period. IsClosed period book.old book.new now) }
    ensures err { OnErr result (book.new ≡ book.old) }
{
    match book.command(alloc, &Command::Roll, now) {
        Ok(Answered::Rolled(period)) => Ok(Some(period)),
        Ok(_) => Ok(None),
        Err(CommandFault::Memory) => Err(AllocError),
        Err(_) => Ok(None),
    }
}

fn follow_roll(
    alloc: Global,
    book: &mut Book,
    roll: RollEntry,
) -> Result<Option<Outcome>, AllocError>
    ensures done { IfOk result (IsDoneAgain book.old book.new (Entry.Roll roll)) }
    ensures err { OnErr result (book.new ≡ book.old) }
{
    let Some(now) = Moment::new(roll.now) else {
        return Ok(None);
    };
    match close(alloc, book, now)? {
        Some(_) => Ok(Some(Outcome::Rolled)),
        None => Ok(None),
    }
}

/// Does again what an entry says, also that of a roll, and returns its outcome. `None` if it would not be recorded: nothing has
/// changed then. Fails only if it is out of memory, and nothing has changed then either.
pub fn follow(alloc: Global, book: &mut Book, entry: &Entry) -> Result<Option<Outcome>, AllocError>
    ensures done { IfOk result (IsDoneAgain book.old book.new entry.now) }
    ensures err { OnErr result (book.new ≡ book.old) }
{
    match entry {
        Entry::Roll(roll) => follow_roll(alloc, book, *roll),
        entry => book.follow(alloc, entry),
    }
}

fn is_same(one: Outcome, other: Outcome) -> bool
    ensures { IsTrue result ↔ (one ≡ other) }
{
    one == other
}

/// Does again what a record says. Whether its outcome is what the rules lead to. If not, the book has followed the rules.
pub fn follow_record(alloc: Global, book: &mut Book, logged: &Record) -> Result<bool, AllocError>
    ensures led { IfOk result (λ led. IsTrue led ↔ (outcome_of book.old logged.now.entry ≡ Some logged.now.outcome)) }
    ensures next { IfOk result (λ led. IsTrue led → book.new ≡ after_record book.old logged.now) }
    ensures rules { IfOk result (λ led. book.new ≡ after_outcome book.old logged.now.entry (outcome_of book.old logged.now.entry)) }
    ensures err { OnErr result (book.new ≡ book.old) }
{
    match follow(alloc, book, &logged.entry)? {
        Some(outcome) => Ok(is_same(outcome, logged.outcome)),
        None => Ok(false),
    }
}

// Does again what the records say, up to the first that is not what the rules lead to. `Some` is the place of that one.
fn follow_all(
    alloc: Global,
    book: &mut Book,
    records: &[Record],
) -> Result<Option<usize>, AllocError>
    ensures { IfOk result (λ breaks. IsFollowedTo breaks book.old records.now book.new) }
{
    for (place, logged) in records.iter().enumerate() {
        if !follow_record(alloc, book, logged)? {
            return Ok(Some(place));
        }
    }
    Ok(None)
}

// Ends each of these packets as if no answer had come. What awaits none stays.
fn give_up(book: &mut Book, numbers: &[u64], now: Moment)
    ensures { book.new ≡ given_up now numbers.now book.old }
{
    for number in numbers {
        let _ = book.answer(*number, now, AnswerKey::Fault);
    }
}

// The numbers of the packets of the running period that went on.
fn held(alloc: Global, book: &Book) -> Result<Vec<u64>, AllocError>
    ensures { IfOk result (λ numbers. numbers.items ≡ map (λ h. h.number) (holds_of book.now)) }
{
    let mut numbers = Vec::new(alloc);
    for hold in book.holds() {
        numbers.push(hold.number)?;
    }
    Ok(numbers)
}

/// Ends each packet that is held as if its next peer had given no answer at that moment. Fails only if it is out of memory, and
/// nothing has changed then.
pub fn give_up_all(alloc: Global, book: &mut Book, now: Moment) -> Result<(), AllocError>
    ensures given_up { OnOk result (book.new ≡ all_given_up now book.old) }
    ensures err { OnErr result (book.new ≡ book.old) }
{
    let numbers = held(alloc, book)?;
    give_up(book, &numbers, now);
    Ok(())
}

/// The period that a crash ended and the book of the next one, from what a log begins with and its records. The packets that are
/// held at its end get no answer at that moment, and the period is closed.
///
/// The fault is the first of these: the opening breaks a limit; a record is not what the rules lead to; the period is the last
/// one. `Memory` means out of memory.
pub fn recover(
    alloc: Global,
    opening: Opening,
    records: &[Record],
    now: Moment,
) -> Result<Recovered, ReadError<LogFault>>
    ensures { IsRecovery result opening records.now now }
{
    let mut book = match Book::reopened(alloc, opening) {
        Ok(book) => book,
        Err(ReadError::Memory) => return Err(ReadError::Memory),
        Err(ReadError::Fault(fault)) => return Err(ReadError::Fault(LogFault::Limit(fault))),
    };
    if let Some(place) = follow_all(alloc, &mut book, records)? {
        return Err(ReadError::Fault(LogFault::Differs(place)));
    }
    give_up_all(alloc, &mut book, now)?;
    match close(alloc, &mut book, now)? {
        Some(period) => Ok(Recovered { period, book }),
        None => Err(ReadError::Fault(LogFault::Last)),
    }
}

/// What led leads as far as any front of it goes, and to one state alone. So what a crash leaves of a log, a front of it, is
/// recovered to the book as it was after that front. Then nothing is held, so only the last period can't be closed.
pub fn records_lead()
    ensures fronts { FrontLaw }
    ensures one_end { OneEndLaw }
    ensures no_break { NoBreakLaw }
    ensures nothing_held { NothingHeldLaw }
{}
