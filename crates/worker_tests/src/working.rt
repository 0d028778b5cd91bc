//! The books of two tenants and the shares of two workers, and what tests find out of them.

ghost use Rattle.std.specs.Prelude.{◌≡◌, ◌<◌, ◌≤◌, length};
ghost use Rattle.books_shared.specs.Traced.{openings_of};

mod audits;
mod commands;
mod disk;
mod kept;
mod locks;
mod openings;
mod packets;
mod places;
mod seats;
mod together;

use crate::START;
use admin_text::read_setup;
use books_shared::{Books, Share};
use floor_core::Got;
use ilp_addr::Moment;
use meters::{Kind, Totals};
use one_list::{Opened, Run};
use std::alloc::Global;
use std::marker::Brand;
use std::sync::Wait;
use std::test::Fail;
use tenant_core::{Book, TenantSetup};
use test_texts::{PEER, RATE, ROUTE, TENANT, setup_with};
use workers::{Clock, Gate, Point};

// ---- what there is

fn start() -> Result<Moment, Fail> {
    Ok(Moment::new(START).ok_or("a moment")?)
}

// The setups of acme and beta, with so many places in each journal.
fn two_setups(alloc: Global, journal: &'static str) -> Result<[TenantSetup; 2], Fail> {
    let text = setup_with(
        alloc,
        &[
            ("acme", "journal", journal),
            ("beta", "", TENANT),
            ("beta", "journal", journal),
            ("beta alice", "", PEER),
            ("beta bob", "", PEER),
            ("beta route", "", ROUTE),
            ("beta rate", "", RATE),
        ],
    )?;
    let setup = read_setup(alloc, text.as_bytes())?;
    Ok(both_of(setup.tenants.into_vec()).ok_or("two tenants")?)
}

fn both_of(mut tenants: Vec<TenantSetup>) -> Option<[TenantSetup; 2]> {
    let beta = tenants.pop()?;
    let acme = tenants.pop()?;
    Some([acme, beta])
}

/// The books of acme and beta, and the shares of two workers, who keep receipts.
#[derive(Drop)]
struct Team<J: Run> {
    books: Books<J>,
    first: Share<J>,
    second: Share<J>,
}

// The team of these two tenants, of which `J` is the list.
fn team_of<J: Run>(
    alloc: Global,
    opened: Opened,
    setups: &[TenantSetup; 2],
    start: Moment,
) -> Result<Team<J>, Fail>
    requires list { (opened.table ≡ J.table) × (opened.size ≡ J.size) }
    requires size { J.size ≡ record { tenants = 2; workers = 2 } }
    requires openings { J.openings ≡ openings_of setups.now start }
{
    let (books, mut shares) = Books::<J>::new(alloc, opened, setups, start, 2, true)?;
    let second = shares.pop().ok_or("the second share")?;
    let first = shares.pop().ok_or("the first share")?;
    Ok(Team {
        books,
        first,
        second,
    })
}

/// What a test does with a team.
trait Trial {
    /// Does it, and says whether the outcome is the expected one.
    fn act<J: Run, R: Wait + AllocGlobal>(&self, rt: &R, team: Team<J>) -> Result<bool, Fail>;
}

// Does it, with so many places in each journal.
fn on_two_books<R: Wait + AllocGlobal, T: Trial>(
    rt: &R,
    journal: &'static str,
    trial: &T,
) -> Result<bool, Fail> {
    let setups = two_setups(rt.alloc(), journal)?;
    let opened = Opened::new(rt.alloc(), 2, 2)?;
    on_books::<Brand, R, T>(rt, opened, &setups, start()?, trial)
}

fn on_books<J: Run, R: Wait + AllocGlobal, T: Trial>(
    rt: &R,
    opened: Opened,
    setups: &[TenantSetup; 2],
    start: Moment,
    trial: &T,
) -> Result<bool, Fail>
    requires list { (opened.table ≡ J.table) × (opened.size ≡ J.size) }
    requires size { J.size ≡ record { tenants = 2; workers = 2 } }
    requires openings { J.openings ≡ openings_of setups.now start }
{
    let team = team_of::<J>(rt.alloc(), opened, setups, start)?;
    trial.act(rt, team)
}

// ---- what is found out

/// A clock that always gives the same moment.
#[derive(Clone, Copy)]
struct FixedClock(Moment);

impl Clock for FixedClock {
    ghost gives = { λ clock moment. moment ≡ clock.0 };

    fn now(&self) -> Moment {
        self.0
    }
}

/// A gate that is open.
#[derive(Clone, Copy)]
struct Open;

impl Gate for Open {
    fn pass(&self, _worker: usize, _point: Point) {}
}

// What comes back to a link: these bytes, at the front of the room.
fn filled(room: &mut [u8], bytes: &[u8]) -> Got
    ensures { length room.new ≡ length room.old }
{
    if bytes.len() > room.len() {
        return Got::Fault;
    }
    room[..bytes.len()].copy_from_slice(bytes);
    Got::Filled(bytes.len())
}

/// What the meters of one tenant have counted.
#[derive(Clone, Copy, Debug, PartialEq, Eq)]
struct Tally {
    answered: u64,
    refused: u64,
    unavailable: u64,
    faults: u64,
}

const ONE_ANSWERED: Tally = Tally {
    answered: 1,
    refused: 0,
    unavailable: 0,
    faults: 0,
};

fn counts_of(totals: &Totals) -> Tally
    requires { 0 < totals.now.tenants }
{
    Tally {
        answered: totals.get(0, Kind::Answered),
        refused: totals.get(0, Kind::ClientError),
        unavailable: totals.get(0, Kind::Unavailable),
        faults: totals.get(0, Kind::LinkFault),
    }
}

// What the share counts for acme, and that it counts nothing for others.
fn entries_of<J: Run>(share: &Share<J>) -> Option<u64> {
    for tenant in 1..64 {
        if share.count(tenant) != 0 {
            return None;
        }
    }
    Some(share.count(0))
}

// What alice and bob owe, and what is held from alice and for bob.
fn owed(book: &Book) -> Option<(i64, i64, u64, u64)> {
    let alice = book.balance(0)?;
    let bob = book.balance(1)?;
    Some((alice.balance, bob.balance, alice.held_in, bob.held_out))
}

// The books and their numbers, if the shares are all there and add up.
fn gathered<J: Run>(
    alloc: Global,
    books: Books<J>,
    shares: Vec<Share<J>>,
) -> Result<Vec<(Book, u64)>, Fail> {
    match books.gather(alloc, shares) {
        Ok(books) => Ok(books),
        Err(_) => Err("the books differ".into()),
    }
}

// The balances of acme's book and its number.
fn outcome(books: &[(Book, u64)]) -> Option<(i64, i64, u64, u64, u64)> {
    let (book, number) = books.first()?;
    let (alice, bob, held_in, held_out) = owed(book)?;
    Some((alice, bob, held_in, held_out, *number))
}

// Whether acme's balances and its book's number are these, once the books are gathered with their shares.
fn come_to<J: Run>(
    alloc: Global,
    team: Team<J>,
    wanted: (i64, i64, u64, u64, u64),
) -> Result<bool, Fail> {
    let shares = vec![in alloc; team.first, team.second]?;
    let books = gathered(alloc, team.books, shares)?;
    Ok(outcome(books.as_slice()) == Some(wanted))
}
