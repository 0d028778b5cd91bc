//! Journals on disk: a run as text, cut off anywhere, changed at each byte, and what is held at the end.

ghost use Rattle.std.specs.Prelude.{◌<◌};

use book_journal::{CommitFault, Journal};
use book_log::{JournalFault, Reopened, TenantStart, place_of, reopen, write_base};
use book_recovery::{close, give_up_all};
use common_types::ReadError;
use ilp_addr::Prefix;
use line_log::{Log, LogError, Memory, whole_lines};
use std::alloc::Global;
use std::process::Abort;
use std::test::Fail;
use tenant_core::{AnswerKey, Book, Command, Opening, Order};
use test_texts::books::{
    START, USUAL, answer, moment, owed_and_held, send, setup_of, terms, tick, token,
};

// A tenant of two peers, before anything happened.
const BASE: &str = "journal 1
secret 0 p0 http://127.0.0.1:7801/ilp out
secret 1 p1 http://127.0.0.1:7801/ilp out
admin root-a
tenant 0 acme g.acme 64 1000 30000
period 0 1893456000000 0 2
peer 0 p0 peer USD 2 1500 1000000 1000000 100 100 0 100000
peer 1 p1 peer USD 2 1500 1000000 1000000 100 100 0 100000
route g.acme.bob 1 0
rate 0 1 3 2
sum f9353dc61e61338bf71330a2e8c30c627298ad9ea157602df58c762a669de39b
";

// A packet of 1,000 that is fulfilled, for 1,500; another that awaits its answer; a moment; a peer and a route; a packet that no
// route leads on. The sums are those of Python's hashlib.
pub const LOG: &str =
    "0 0 0 1893456000000 prepare 0 1000 1893456030000 66687aadf862bd776c8fc18b8e9f8e20089714856ee233b3902a591d0d5f2925 g.acme.bob.x = forward 0 1 1500 1893456029000
0 0 1 1893456000001 fulfill 0 0000000000000000000000000000000000000000000000000000000000000000 = relay
sum 423d454374649d63396eb9d57a31991a8e3b3cf74683d339363ee81b1193b353
0 0 2 1893456000002 prepare 0 1000 1893456030000 66687aadf862bd776c8fc18b8e9f8e20089714856ee233b3902a591d0d5f2925 g.acme.bob.x = forward 1 1 1500 1893456029000
sum 79ad90177ed7792de5c1fadc672ab7700d05c717bafc08f63f8b934d13f7c7ab
0 0 3 1893456000003 tick = 0
0 0 4 with p2 http://127.0.0.1:7801/ilp out 1893456000004 peer add p2 peer USD 2 1500 1000000 1000000 100 100
0 0 5 1893456000005 route remove g.acme.bob
0 0 6 1893456000006 prepare 0 1000 1893456030000 66687aadf862bd776c8fc18b8e9f8e20089714856ee233b3902a591d0d5f2925 g.acme.bob.x = refuse F02
sum e2ee72f35b477757159c4a481de54882922294bb91d2a873d5dc0864ea8b3f9b
";

// After which of its records a commit ends.
pub const COMMITS: [u64; 3] = [1, 2, 6];

// What p0 and p1 owe after so many records, and what is held from p0 and for p1.
const OWED: [(i64, i64, u64, u64); 8] = [
    (0, 0, 0, 0),
    (0, 0, 1_000, 1_500),
    (1_000, -1_500, 0, 0),
    (1_000, -1_500, 1_000, 1_500),
    (1_000, -1_500, 1_000, 1_500),
    (1_000, -1_500, 1_000, 1_500),
    (1_000, -1_500, 1_000, 1_500),
    (1_000, -1_500, 1_000, 1_500),
];

fn order(alloc: Global, book: &mut Book, order: Order, now: u64) -> Result<(), Fail> {
    let _ = book.command(alloc, &Command::Order(order), moment(now)?)?;
    Ok(())
}

// Does what the record of that number is of.
pub fn enter(alloc: Global, book: &mut Book, number: u64) -> Result<(), Fail>
    requires { number < 7 }
{
    let now = START + number;
    match number {
        1 => {
            answer(book, 0, now, AnswerKey::Fulfilled([0; 32]))?.ok();
        }
        3 => {
            tick(book, now)?.ok();
        }
        4 => order(alloc, book, Order::AddPeer(terms(alloc, 2, USUAL)?), now)?,
        5 => {
            let prefix = Prefix::parse(alloc, b"g.acme.bob")?;
            order(alloc, book, Order::RemoveRoute(prefix), now)?;
        }
        _ => {
            send(book, now)?;
        }
    }
    Ok(())
}

// What the tenant begins with.
pub fn opening(alloc: Global) -> Result<Opening, Fail> {
    let setup = setup_of(alloc, 64, USUAL)?;
    Ok(Opening::first(alloc, 0, &setup, moment(START)?)?)
}

pub fn start_of(alloc: Global) -> Result<[TenantStart; 1], Fail> {
    let opening = opening(alloc)?;
    let admin = token(b"root-a")?;
    Ok([TenantStart { opening, admin }])
}

// A journal in a file of so many zeros, of which so many calls succeed, and the sum of its base.
fn begun(alloc: Global, size: usize, calls: usize) -> Result<Journal<Memory>, Fail>
    requires { 0 < size }
{
    let start = start_of(alloc)?;
    let (_, first) = write_base(alloc, &start)?;
    let file = Memory::new(alloc, vec![in alloc; 0; size]?, calls);
    Ok(Journal::new(alloc, Log::blank(file, size), first, &start)?)
}

// Commits what is noted, if a commit ends after the record of that number.
fn commit_after(journal: &mut Journal<Memory>, number: u64) -> Result<(), CommitFault> {
    if COMMITS.contains(&number) {
        journal.commit()
    } else {
        Ok(())
    }
}

// Does all of the run, notes it in a journal, and commits it after some records.
fn note_each(
    alloc: Global,
    journal: &mut Journal<Memory>,
    book: &mut Book,
) -> Result<Result<(), CommitFault>, Fail> {
    for number in 0..7 {
        enter(alloc, book, number)?;
        journal.note(book)?;
        if let Err(fault) = commit_after(journal, number) {
            return Ok(Err(fault));
        }
    }
    Ok(Ok(()))
}

// The same from its beginning.
fn note_run(alloc: Global, journal: &mut Journal<Memory>) -> Result<Result<(), CommitFault>, Fail> {
    let opening = opening(alloc)?;
    match Book::reopened(alloc, opening) {
        Ok(mut book) => note_each(alloc, journal, &mut book),
        Err(_) => Err(Fail::from("a book")),
    }
}

#[test]
fn a_run_is_written_as_lines(rt: HostRuntime) -> Result<(), Fail> {
    let alloc = rt.alloc();
    let (base, _) = write_base(alloc, &start_of(alloc)?)?;
    assert!(rt; base.as_slice() == BASE.as_bytes());
    let mut journal = begun(alloc, 2_048, 6)?;
    assert!(rt; note_run(alloc, &mut journal)?.is_ok());
    assert!(rt; whole_lines(journal.log().file().bytes()) == LOG.as_bytes());
    Ok(())
}

#[test]
fn a_journal_that_is_not_kept(rt: HostRuntime) -> Result<(), Fail> {
    let alloc = rt.alloc();
    // A write and a sync for each commit.
    for calls in 0..6 {
        let mut journal = begun(alloc, 2_048, calls)?;
        let fault = note_run(alloc, &mut journal)?.err();
        assert!(rt; fault == Some(CommitFault::Log(LogError::Failed)));
        assert!(rt; journal.commit().err() == Some(CommitFault::Spoilt));
    }
    let mut journal = begun(alloc, 400, 6)?;
    let fault = note_run(alloc, &mut journal)?.err();
    assert!(rt; fault == Some(CommitFault::Log(LogError::Full)));
    Ok(())
}

// What a journal's texts lead to: how many books, how many records the first has, and what is owed and held; or what is wrong.
#[derive(Drop)]
struct Left {
    books: usize,
    entries: usize,
    owed: (i64, i64, u64, u64),
    fault: Option<JournalFault>,
}

fn seen_in(left: &Reopened) -> Result<Left, Fail> {
    let book = left.books.first().ok_or("a book")?;
    Ok(Left {
        books: left.books.len(),
        entries: book.entries(),
        owed: owed_and_held(book)?,
        fault: None,
    })
}

fn seen(alloc: Global, base: &[u8], log: &[u8]) -> Result<Left, Fail> {
    match reopen(alloc, base, whole_lines(log)) {
        Ok(left) => seen_in(&left),
        Err(ReadError::Fault(fault)) => Ok(Left {
            books: 0,
            entries: 0,
            owed: OWED[0],
            fault: Some(fault),
        }),
        Err(ReadError::Memory) => Err(Fail::from("memory")),
    }
}

// How many lines of a text are records.
fn records_in(text: &[u8]) -> usize {
    text.split(|byte| *byte == b'\n')
        .filter(|line| !line.is_empty() && !line.starts_with(b"sum "))
        .count()
}

#[test]
fn a_journal_is_cut_off_anywhere(rt: HostRuntime) -> Result<(), Fail> {
    let alloc = rt.alloc();
    for cut in 0..=LOG.len() {
        let log = &LOG.as_bytes()[..cut];
        let count = records_in(whole_lines(log));
        let left = seen(alloc, BASE.as_bytes(), log)?;
        let owed = OWED.get(count).ok_or("what is owed")?;
        assert!(rt; left.fault.is_none(), "cut at {cut}");
        assert_eq!(rt; left.books, 1);
        assert_eq!(rt; left.entries, count);
        assert!(rt; left.owed == *owed);
    }
    Ok(())
}

#[test]
fn each_changed_byte_is_found(rt: HostRuntime) -> Result<(), Fail> {
    let alloc = rt.alloc();
    for at in 0..BASE.len() {
        let mut base = BASE.as_bytes().to_vec(alloc)?;
        base[at] ^= 1;
        let fault = seen(alloc, &base, LOG.as_bytes())?.fault;
        assert!(rt; fault.is_some(), "byte {at} of the base");
    }
    for at in 0..LOG.len() {
        let mut log = LOG.as_bytes().to_vec(alloc)?;
        log[at] ^= 1;
        let fault = seen(alloc, BASE.as_bytes(), &log)?.fault;
        // Without its line feed the last sum is not there, and the lines before it are as true.
        assert!(rt;
            fault.is_some() == (at + 1 < LOG.len()),
            "byte {at} of the log"
        );
    }
    Ok(())
}

// Ends what is held, and the period. How many records the period has then, and what is owed and held.
fn ended(alloc: Global, book: &mut Book) -> Result<(usize, (i64, i64, u64, u64)), Fail> {
    let now = moment(START + 10)?;
    give_up_all(alloc, book, now)?;
    let owed = owed_and_held(book)?;
    let period = close(alloc, book, now)?.ok_or("a period")?;
    Ok((period.len(), owed))
}

fn expect_place(rt: &impl Abort, book: &Book) {
    let place = place_of(book);
    assert!(rt; (place.tenant, place.period, place.number) == (0, 0, 7));
}

fn expect_ended(rt: &impl Abort, alloc: Global, left: &mut Reopened) -> Result<(), Fail> {
    let admin = left.admins.first().ok_or("a token")?;
    assert!(rt; admin.as_bytes() == b"root-a".as_slice());
    let book = left.books.first_mut().ok_or("a book")?;
    expect_place(rt, book);
    // The seven records, the answer that did not come, and the roll.
    assert!(rt; ended(alloc, book)? == (9, (1_000, -1_500, 0, 0)));
    assert_eq!(rt; book.period(), 1);
    Ok(())
}

#[test]
fn what_is_held_gets_no_answer(rt: HostRuntime) -> Result<(), Fail> {
    match reopen(rt.alloc(), BASE.as_bytes(), LOG.as_bytes()) {
        Ok(mut left) => expect_ended(&rt, rt.alloc(), &mut left),
        Err(_) => Err(Fail::from("books")),
    }
}
