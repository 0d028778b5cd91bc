//! What a journal on disk leads to: `recover` says what a service would begin with and what was held, `verify` whether the
//! journal is good.

ghost use Rattle.std.specs.Prelude.{◌≡◌, ℕ, List, IfOk};
ghost use Rattle.book_log.specs.Base.{AreReopened, HasLogFault};
ghost use Rattle.book_log.specs.OneBase.{IsJournal};
ghost use Rattle.tenant_core.specs.State.{State};
ghost use Rattle.book_recovery.specs.Recovery.{IsClosed, all_given_up};
ghost use Rattle.line_log.specs.Log.{lines, recovered};

use crate::checking::printing;
use crate::clock::SystemClock;
use crate::ending::{Ending, JournalEnding};
use crate::files::{cannot, say_cannot};
use crate::verifying::{memory_refused, write};
use admin_text::write_setup;
use book_log::{BaseFault, JournalFault, Reopened, reopen};
use book_recovery::{close, give_up_all};
use common_types::{Name, ReadError};
use ilp_addr::Moment;
use line_log::whole_lines;
use log_folder::{ReadOnlyFolder, Texts};
use output_text::put_answer;
use replay_text::ReplayFault;
use service::{Disk, Folder, file};
use statements::{put_number, put_word};
use std::alloc::{AllocError, Global};
use std::fs::{File, Files};
use std::io;
use std::io::Write;
use std::time::Clock;
use tenant_core::{Book, Command, Fate, Hold, Period, TenantSetup};

/// The texts of a pair of files, its number, and the folder that it is in.
#[derive(Clone, Copy)]
pub struct Pair<'a> {
    pub path: &'a str,
    pub number: u64,
    pub base: &'a [u8],
    pub log: &'a [u8],
}

// What the newest pair of a journal's folder has, and the pair's number.
#[derive(Drop)]
struct NewestPair {
    number: u64,
    texts: Texts,
}

impl NewestPair {
    // The pair, in that folder.
    fn within<'a>(&'a self, path: &'a str) -> Pair<'a> {
        Pair {
            path,
            number: self.number,
            base: &self.texts.base,
            log: &self.texts.log,
        }
    }
}

fn newest_pair<R: Files<File = File>>(
    files: &R,
    alloc: Global,
    path: &str,
) -> Result<NewestPair, JournalEnding> {
    let folder = ReadOnlyFolder::open(files, alloc, path)?;
    let Some(number) = folder.newest() else {
        return Err(JournalEnding::Missing);
    };
    let texts = folder.read(number)?;
    Ok(NewestPair { number, texts })
}

/// The books of a base, after the whole lines that a crash has left of a log.
///
/// If these are a journal that was written, the log has no fault, and the books are those that its lines left.
pub fn reopened(alloc: Global, base: &[u8], log: &[u8]) -> Result<Reopened, ReadError<JournalFault>>
    ensures reopened { IfOk result (λ r. AreReopened base.now (lines (recovered log.now)) r.books.items) }
    ensures written { IfOk result (λ r. (books : List State) (admins : List (List ℕ))
        → IsJournal base.now (lines (recovered log.now)) books admins → (r.books.items ≡ books) × (r.admins.items ≡ admins)) }
    ensures refused { HasLogFault result → (books : List State) (admins : List (List ℕ))
        → IsJournal base.now (lines (recovered log.now)) books admins → ⊥ }
{
    reopen(alloc, base, whole_lines(log))
}

/// Ends the period of a book as a crash ends it: what is held gets no answer, and the period is closed at that moment. `None`
/// if no period follows.
pub fn end_period(alloc: Global, book: &mut Book, now: Moment) -> Result<Option<Period>, AllocError>
    ensures { IfOk result (λ period. IsClosed period (all_given_up now book.old) book.new now) }
{
    give_up_all(alloc, book, now)?;
    close(alloc, book, now)
}

// Which file of a pair a fault is in, its line, if it has one, and what is wrong.
fn fault_words(
    alloc: Global,
    path: &str,
    number: u64,
    fault: JournalFault,
) -> Result<String, AllocError> {
    match fault {
        JournalFault::Base(BaseFault::Differs(line)) => {
            format!(in alloc; "{path}/{number}.base: line {line}: not as it would be written\n")
        }
        JournalFault::Base(fault) => format!(in alloc; "{path}/{number}.base: {fault}\n"),
        JournalFault::Limit(tenant, fault) => {
            format!(in alloc;
                "{path}/{number}.base: tenant {tenant}: no period begins so: {fault}\n"
            )
        }
        JournalFault::Log(fault) => format!(in alloc; "{path}/{number}.log: {fault}\n"),
    }
}

// Writes where a pair is damaged, and says how the run ends.
fn damaged<W: Write>(alloc: Global, pair: Pair<'_>, fault: JournalFault, writer: &mut W) -> Ending {
    match fault_words(alloc, pair.path, pair.number, fault) {
        Ok(words) => match writer.write_all(words.as_bytes()) {
            Ok(()) => Ending::NotGood,
            Err(error) => printing(error),
        },
        Err(error) => memory_refused(error),
    }
}

/// The books of a pair. If it is damaged, a line says where.
pub fn books_of<W: Write>(alloc: Global, pair: Pair<'_>, writer: &mut W) -> Result<Reopened, Ending>
    ensures { IfOk result (λ r. AreReopened pair.entry.base.now (lines (recovered pair.entry.log.now)) r.books.items) }
{
    match reopened(alloc, pair.base, pair.log) {
        Ok(reopened) => Ok(reopened),
        Err(ReadError::Memory) => Err(Ending::Fault(ReplayFault::Memory)),
        Err(ReadError::Fault(fault)) => Err(damaged(alloc, pair, fault, writer)),
    }
}

// How many records the whole lines of a log have.
fn count_records(log: &[u8]) -> usize {
    whole_lines(log)
        .split(|byte| *byte == b'\n')
        .filter(|line| !line.is_empty() && !line.starts_with(b"sum "))
        .count()
}

/// Says whether the journal in a folder is good, and then of how many tenants and records it is.
pub fn verify_journal_at<R: Files<File = File> + Print + AllocGlobal>(
    rt: &R,
    path: &str,
) -> Result<(), Ending> {
    let alloc = rt.alloc();
    let mut writer = io::writer(rt);
    let pair = newest_pair(rt, alloc, path).map_err(Ending::of_journal)?;
    let found = books_of(alloc, pair.within(path), &mut writer)?;
    let tenants = found.books.len();
    let records = count_records(&pair.texts.log);
    let words = format!(in alloc; "good {tenants} {records}\n").map_err(memory_refused)?;
    write(&mut writer, words.as_bytes())
}

/// What `recover` writes beside the lines that it prints.
#[derive(Clone, Copy)]
pub struct Recovery<'a> {
    /// The folder of the journal.
    pub journal: &'a str,
    /// The file for the setup of a service that begins with what is recovered.
    pub setup: Option<&'a str>,
    /// The folder for the statements of the periods that the crash ended.
    pub statements: Option<&'a str>,
}

fn put_peer(out: &mut Vec<u8>, book: &Book, peer: u16) -> Result<(), AllocError> {
    put_word(out, book.peer_name(peer).unwrap_or(b"-"))
}

// A packet that is held: its number, from whom and how much, to whom and how much, when it expires, and its condition.
fn put_held(out: &mut Vec<u8>, name: &Name, book: &Book, hold: &Hold) -> Result<(), AllocError> {
    out.extend_from_slice(name.as_bytes())?;
    out.extend_from_slice(b" held")?;
    put_number(out, hold.number)?;
    put_peer(out, book, hold.from)?;
    put_number(out, hold.amount)?;
    put_peer(out, book, hold.to)?;
    put_number(out, hold.price)?;
    put_number(out, hold.expiry)?;
    out.push(b' ')?;
    let mut digits = [0; 64];
    if hex::encode_to_slice(hold.condition.as_slice(), &mut digits).is_ok() {
        out.extend_from_slice(&digits)?;
    }
    Ok(out.push(b'\n')?)
}

// The period that is running, how many records it has, and what is held.
fn put_running(out: &mut Vec<u8>, name: &Name, book: &Book) -> Result<(), AllocError> {
    out.extend_from_slice(name.as_bytes())?;
    out.extend_from_slice(b" period")?;
    put_number(out, book.period())?;
    put_number(out, book.entries() as u64)?;
    out.push(b'\n')?;
    for hold in book.holds() {
        if !matches!(hold.fate, Fate::Ended { .. }) {
            put_held(out, name, book, hold)?;
        }
    }
    Ok(())
}

// What each peer owes, as the command `balances` says it.
fn put_balances(
    alloc: Global,
    names: &[Name],
    book: &mut Book,
    out: &mut Vec<u8>,
    now: Moment,
) -> Result<(), AllocError> {
    let tenant = book.tenant();
    let Ok(answer) = book.command(alloc, &Command::Balances, now) else {
        return Err(AllocError);
    };
    put_answer(names, tenant, out, &Ok(answer))
}

// The names of the tenants of these books.
fn names_of(alloc: Global, found: &Reopened) -> Result<Vec<Name>, AllocError> {
    let mut names = Vec::new(alloc);
    for (book, admin) in found.books.iter().zip(found.admins.iter()) {
        let setup = book.present_setup(alloc, admin.copy())?;
        names.push(setup.terms().name.copy())?;
    }
    Ok(names)
}

// What a service would begin with: the tenants as they are once their periods are closed.
fn setup_text(alloc: Global, found: &Reopened, start: Moment) -> Result<String, AllocError> {
    let mut setups: Vec<TenantSetup> = Vec::new(alloc);
    for (book, admin) in found.books.iter().zip(found.admins.iter()) {
        setups.push(book.present_setup(alloc, admin.copy())?)?;
    }
    write_setup(alloc, start, setups.as_slice())
}

// What was recovered of all tenants so far: the lines that are printed, the latest clock, and whether all statements are kept.
#[derive(Drop)]
struct Told {
    out: Vec<u8>,
    clock: u64,
    are_kept: bool,
}

// Recovers a tenant's book.
fn recover_one<R: Files<File = File> + Disk + AllocGlobal>(
    rt: &R,
    book: &mut Book,
    names: &[Name],
    now: Moment,
    statements: Option<&str>,
    told: &mut Told,
) -> Result<(), AllocError> {
    let alloc = rt.alloc();
    if let Some(name) = names.get(book.tenant()) {
        put_running(&mut told.out, name, book)?;
    }
    if let Some(period) = end_period(alloc, book, now)? {
        told.clock = told.clock.max(period.ending().clock);
        if let Some(path) = statements {
            told.are_kept &= file(alloc, &mut Folder::new(rt, alloc, path), &period);
        }
    }
    put_balances(alloc, names, book, &mut told.out, now)
}

// Writes a setup to a new file, which only its owner may read.
fn write_new_setup<R: Files<File = File> + Disk + Print>(
    rt: &R,
    path: &str,
    text: &[u8],
) -> Result<(), Ending> {
    let there = rt
        .has(path)
        .map_err(|error| cannot(rt, "write", path, &error))?;
    if there {
        say_cannot(rt, "write", path, "it is there already");
        return Err(Ending::Fault(ReplayFault::Device));
    }
    rt.write_anew(path, text)
        .map_err(|error| cannot(rt, "write", path, &error))
}

/// Recovers the books of a journal, and prints of each tenant its period and how many records it has, what is held, and what
/// each peer owes once what is held has no answer. The journal stays as it is. It writes a setup and statements where files for
/// them are named.
pub fn recover_at<R: Files<File = File> + Disk + Clock + Print + AllocGlobal>(
    rt: &R,
    recovery: Recovery<'_>,
) -> Result<(), Ending> {
    let alloc = rt.alloc();
    let now = workers::Clock::now(&SystemClock::new(rt));
    let mut writer = io::writer(rt);
    let pair = newest_pair(rt, alloc, recovery.journal).map_err(Ending::of_journal)?;
    let mut found = books_of(alloc, pair.within(recovery.journal), &mut writer)?;
    let names = names_of(alloc, &found).map_err(memory_refused)?;
    let mut told = Told {
        out: Vec::new(alloc),
        clock: now.millis(),
        are_kept: true,
    };
    for book in found.books.iter_mut() {
        let names = names.as_slice();
        recover_one(rt, book, names, now, recovery.statements, &mut told).map_err(memory_refused)?;
    }
    write(&mut writer, told.out.as_slice())?;
    if let Some(path) = recovery.setup {
        let start = Moment::new(told.clock).unwrap_or(now);
        let text = setup_text(alloc, &found, start).map_err(memory_refused)?;
        write_new_setup(rt, path, text.as_bytes())?;
    }
    if told.are_kept {
        Ok(())
    } else {
        Err(Ending::Fault(ReplayFault::Device))
    }
}
