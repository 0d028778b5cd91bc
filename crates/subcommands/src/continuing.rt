//! How a service goes on with the journal of an earlier run: what was held gets no answer, and each period is closed.

ghost use Rattle.std.specs.Prelude.{◌≡◌, ◌++◌, ◌∷◌, [], List, ℕ, IfOk, OnOk, length, map};
ghost use Rattle.book_log.specs.Base.{AreReopened};
ghost use Rattle.line_log.specs.Log.{lines, recovered};
ghost use Rattle.book_recovery.specs.Recovery.{all_given_up};
ghost use Rattle.tenant_core.specs.Periods.{closed};
ghost use Rattle.tenant_core.specs.PresentSetup.{present_setup};
ghost use Rattle.tenant_core.specs.State.{State, opened};
ghost use Rattle.subcommands.specs.Beginning.{GoesOn, follows, opening_after, setup_after};

use crate::beginning::{Beginning, write_pair};
use crate::checking::printing;
use crate::clock::SystemClock;
use crate::ending::{Ending, JournalEnding};
use crate::recovering::{Pair, books_of, end_period};
use crate::verifying::{memory_refused, write};
use admin_text::Setup;
use book_log::{Reopened, TenantStart, read_base};
use common_types::{Items, ReadError, Token};
use ilp_addr::Moment;
use log_folder::{FolderFault, LogFolder};
use replay_text::ReplayFault;
use service::{Disk, Folder, file};
use statements::{put_number, put_word};
use std::alloc::{AllocError, Global};
use std::fs::{File, Files};
use std::io;
use std::io::Write;
use std::time::Clock;
use tenant_core::{Book, Opening, Period, TenantSetup};

/// What follows the books of a journal: for each tenant the period that is closed, what it begins the next one with, and its
/// setup then.
#[derive(Drop)]
pub struct Following {
    pub periods: Vec<Period>,
    pub starts: Vec<TenantStart>,
    pub setups: Vec<TenantSetup>,
}

// Puts what a tenant's next period begins with, after the one that was closed.
fn put_start(
    alloc: Global,
    period: &Period,
    admin: &Token,
    starts: &mut Vec<TenantStart>,
) -> Result<(), AllocError>
    ensures { OnOk result (starts.new.items
        ≡ starts.old.items ++ record { opening = period.now.ending; admin = admin.now } ∷ []) }
{
    starts.push(TenantStart {
        opening: period.ending().copy(alloc)?,
        admin: admin.copy(),
    })?;
    Ok(())
}

// Puts the setup of a tenant as it is now.
fn put_setup(
    alloc: Global,
    book: &Book,
    admin: &Token,
    setups: &mut Vec<TenantSetup>,
) -> Result<(), AllocError>
    ensures { OnOk result (setups.new.items ≡ setups.old.items ++ present_setup book.now admin.now ∷ []) }
{
    setups.push(book.present_setup(alloc, admin.copy())?)?;
    Ok(())
}

// Closes the period of a book, and puts it at the end of others.
fn put_period(
    alloc: Global,
    book: &mut Book,
    now: Moment,
    periods: &mut Vec<Period>,
) -> Result<(), JournalEnding>
    ensures closed { OnOk result (periods.new.items ≡ periods.old.items ++ closed (all_given_up now book.old) now ∷ []) }
    ensures book { OnOk result (book.new ≡ opened (opening_after now book.old)) }
{
    match end_period(alloc, book, now)? {
        Some(period) => Ok(periods.push(period)?),
        None => Err(JournalEnding::Last(book.tenant())),
    }
}

// What follows a tenant's book is put at the end.
fn follow_one(
    alloc: Global,
    book: &mut Book,
    admin: &Token,
    now: Moment,
    following: &mut Following,
) -> Result<(), JournalEnding>
    ensures starts { OnOk result (following.new.starts.items
        ≡ following.old.starts.items ++ record { opening = opening_after now book.old; admin = admin.now } ∷ []) }
    ensures setups { OnOk result (following.new.setups.items
        ≡ following.old.setups.items ++ setup_after (record { opening = opening_after now book.old; admin = admin.now }) ∷ []) }
{
    put_period(alloc, book, now, &mut following.periods)?;
    put_setup(alloc, book, admin, &mut following.setups)?;
    let Some(period) = following.periods.last() else {
        unreachable!();
    };
    Ok(put_start(alloc, period, admin, &mut following.starts)?)
}

/// What follows books once what they hold has no answer, and each period is closed at that moment.
pub fn follow(alloc: Global, found: Reopened, now: Moment) -> Result<Following, JournalEnding>
    ensures openings { IfOk result (λ f. map (λ s. s.opening) f.starts.items ≡ map (opening_after now) found.books.items) }
    ensures setups { IfOk result (λ f. f.setups.items ≡ map setup_after f.starts.items) }
{
    let Reopened { books, admins } = found;
    let mut following = Following {
        periods: Vec::new(alloc),
        starts: Vec::new(alloc),
        setups: Vec::new(alloc),
    };
    for mut book in books {
        let place = following.starts.len();
        let Some(admin) = admins.get(place) else {
            return Err(JournalEnding::Tenants);
        };
        if book.tenant() != place {
            return Err(JournalEnding::Tenants);
        }
        follow_one(alloc, &mut book, admin, now, &mut following)?;
    }
    Ok(following)
}

// The latest clock of these tenants, if it is after that moment.
fn later_clock(starts: &[TenantStart], now: Moment) -> Option<Moment> {
    let latest = starts.iter().map(|start| start.opening.clock).max()?;
    if latest > now.millis() {
        Moment::new(latest)
    } else {
        None
    }
}

// What follows a pair, whose periods are all closed at one moment: that one, or the latest clock of a tenant, if it is later.
// So these periods are the same if they are closed again at the clock with which the next ones begin.
fn follow_pair<W: Write>(
    alloc: Global,
    pair: Pair<'_>,
    now: Moment,
    writer: &mut W,
) -> Result<(Following, Moment), Ending>
    ensures { IfOk result (λ f. (books : List State) × AreReopened pair.entry.base.now (lines (recovered pair.entry.log.now)) books
        × follows f.1 books f.0.starts.items f.0.setups.items) }
{
    let found = books_of(alloc, pair, writer)?;
    let following = follow(alloc, found, now).map_err(Ending::of_journal)?;
    let Some(latest) = later_clock(following.starts.as_slice(), now) else {
        return Ok((following, now));
    };
    let found = books_of(alloc, pair, writer)?;
    let following = follow(alloc, found, latest).map_err(Ending::of_journal)?;
    Ok((following, latest))
}

// The line of a period whose statement is not kept.
fn missing_line(alloc: Global, period: &Period) -> Result<Vec<u8>, AllocError> {
    let mut line = Vec::new(alloc);
    line.extend_from_slice(b"statement")?;
    put_word(&mut line, period.opening().name.as_bytes())?;
    put_number(&mut line, period.number())?;
    line.extend_from_slice(b" missing\n")?;
    Ok(line)
}

// Keeps the statements of these periods in a folder. A line names each one that can't be kept.
fn keep_statements<R: Files<File = File> + Disk + Print + AllocGlobal>(
    rt: &R,
    statements: &str,
    periods: &[Period],
) -> Result<(), Ending> {
    let alloc = rt.alloc();
    let mut writer = io::writer(rt);
    let mut store = Folder::new(rt, alloc, statements);
    let mut are_kept = true;
    for period in periods {
        if !file(alloc, &mut store, period) {
            let line = missing_line(alloc, period).map_err(memory_refused)?;
            write(&mut writer, line.as_slice())?;
            are_kept = false;
        }
    }
    if are_kept {
        Ok(())
    } else {
        Err(Ending::Fault(ReplayFault::Device))
    }
}

// The moment at which the periods before those of a pair were closed.
fn moment_before<R: Files<File = File>>(
    folder: &LogFolder<'_, R>,
    alloc: Global,
    number: u64,
) -> Result<Moment, Ending> {
    let segment = folder.read(number).map_err(Ending::of_folder)?;
    let starts = match read_base(alloc, &segment.base) {
        Ok((starts, _)) => starts,
        Err(ReadError::Memory) => return Err(Ending::Fault(ReplayFault::Memory)),
        Err(ReadError::Fault(_)) => return Err(Ending::of_journal(JournalEnding::Tenants)),
    };
    let clock = starts.first().map_or(0, |start| start.opening.clock);
    Moment::new(clock).ok_or(Ending::Journal(JournalEnding::Tenants))
}

// Keeps the statements of the periods that were running in a pair, and were closed before the next one began.
fn keep_again<R: Files<File = File> + Disk + Print + AllocGlobal>(
    rt: &R,
    folder: &LogFolder<'_, R>,
    path: &str,
    pairs: (u64, u64),
    statements: &str,
) -> Result<(), Ending> {
    let alloc = rt.alloc();
    let (number, next) = pairs;
    let now = moment_before(folder, alloc, next)?;
    let left = folder.read(number).map_err(Ending::of_folder)?;
    let pair = Pair {
        path,
        number,
        base: &left.base,
        log: &left.log,
    };
    let found = follow_pair(alloc, pair, now, &mut io::writer(rt))?;
    keep_statements(rt, statements, found.0.periods.as_slice())
}

// The numbers of the pairs in a folder, the least one first.
fn sorted_numbers(alloc: Global, numbers: &[u64]) -> Result<Vec<u64>, AllocError> {
    let mut sorted = Vec::from_slice(alloc, numbers)?;
    sorted.sort()?;
    Ok(sorted)
}

// Removes the pairs that a crash has left beside the newest one. The statements of the periods that were running in them are kept
// before, if a folder for them is named.
fn clear_left<R: Files<File = File> + Disk + Print + AllocGlobal>(
    rt: &R,
    folder: &mut LogFolder<'_, R>,
    path: &str,
    statements: Option<&str>,
) -> Result<(), Ending> {
    let sorted = sorted_numbers(rt.alloc(), folder.numbers()).map_err(memory_refused)?;
    for place in 1..sorted.len() {
        let pairs = (sorted[place - 1], sorted[place]);
        if let Some(statements) = statements {
            keep_again(rt, folder, path, pairs, statements)?;
        }
        folder.remove(pairs.0).map_err(Ending::of_folder)?;
    }
    Ok(())
}

// The openings of these tenants.
fn openings_in(alloc: Global, starts: Vec<TenantStart>) -> Result<Vec<Opening>, AllocError>
    ensures { IfOk result (λ openings. openings.items ≡ map (λ s. s.opening) starts.items) }
{
    let mut openings = Vec::new(alloc);
    for start in starts {
        openings.push(start.opening)?;
    }
    Ok(openings)
}

// Removes a pair, and what a crash may have left of the one before it.
fn remove_pair<R: Files<File = File>>(
    folder: &mut LogFolder<'_, R>,
    number: u64,
) -> Result<(), FolderFault> {
    folder.remove(number)?;
    match number.checked_sub(1) {
        Some(before) => folder.remove(before),
        None => Ok(()),
    }
}

/// A service goes on with the pair of that number, the newest one of the folder of its journal. What follows it is in a new pair
/// before the statements of the closed periods are kept, if a folder for them is named. The pair is removed after that.
pub fn go_on<R: Files<File = File> + Disk + Clock + Print + AllocGlobal>(
    rt: &R,
    folder: &mut LogFolder<'_, R>,
    path: &str,
    number: u64,
    statements: Option<&str>,
) -> Result<Beginning, Ending>
    ensures { IfOk result GoesOn }
{
    let alloc = rt.alloc();
    clear_left(rt, folder, path, statements)?;
    let segment = folder.read(number).map_err(Ending::of_folder)?;
    let pair = Pair {
        path,
        number,
        base: &segment.base,
        log: &segment.log,
    };
    let now = workers::Clock::now(&SystemClock::new(rt));
    let (following, start) = follow_pair(alloc, pair, now, &mut io::writer(rt))?;
    let Following {
        periods,
        starts,
        setups,
    } = following;
    let Some(next) = number.checked_add(1) else {
        return Err(Ending::of_folder(FolderFault::Taken(number)));
    };
    let journal = write_pair(folder, alloc, next, starts.as_slice()).map_err(Ending::of_journal)?;
    if let Some(statements) = statements {
        keep_statements(rt, statements, periods.as_slice())?;
    }
    remove_pair(folder, number).map_err(Ending::of_folder)?;
    let openings = openings_in(alloc, starts).map_err(memory_refused)?;
    Ok(Beginning {
        setup: Setup {
            start,
            tenants: Items::from_vec(setups),
        },
        openings,
        journal: Some(journal),
    })
}
