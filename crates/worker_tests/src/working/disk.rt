//! Packets of which all is kept in a journal, in a file that fails at some call.

ghost use Rattle.std.specs.Prelude.{◌≡◌, ◌<◌, false, IfOk, map, replicate};
ghost use Rattle.books_shared.specs.Begun.{AreNumbered};
ghost use Rattle.journal_shared.specs.Kept.{BeginsLog};
ghost use Rattle.line_log.specs.File.{Only};

use super::{FixedClock, Open, filled, start, two_setups};
use book_journal::LogWriter;
use book_log::{TenantStart, write_base};
use books_shared::{Books, Share, are_numbered};
use common_types::Token;
use floor_core::{Got, Slot};
use journal_shared::{Keeper, Limits, SharedJournal};
use line_log::{Log, LogFile, Memory};
use meters::Meters;
use one_list::{Opened, Run};
use std::alloc::Global;
use std::marker::Brand;
use std::sync::Wait;
use std::test::Fail;
use std::time::{Clock, Instant};
use tenant_core::Opening;
use test_texts::frame;
use workers::{Job, Keeping, Link, Outgoing, Reply, Tools, carry};

// How many bytes are left free for what is under way.
const RESERVE: u64 = 4_096;

// How many milliseconds a wait and a write may take: more than any here takes.
const LONGEST: u64 = 60_000;

// Room for what is under way, and as much for what is done.
const LARGE: usize = 8_192;

// No room for what may be under way.
const SMALL: usize = 4_095;

/// A link that counts what it is asked, and gives that answer.
#[derive(Drop)]
struct Counting<'a> {
    answer: &'a [u8],
    sends: u64,
}

impl Link for Counting<'_> {
    ghost sent = { λ link. link.sends };

    ghost sends_so = { λ before sending after. Unit {0} };

    fn sends(&self) -> u64 {
        self.sends
    }

    fn send(&mut self, _packet: Outgoing<'_>, out: &mut [u8]) -> Got {
        self.sends += 1;
        filled(out, self.answer)
    }
}

/// What becomes of alice's packets.
#[derive(Clone, Copy, Debug, PartialEq, Eq)]
struct Fate {
    first: Reply,
    second: Reply,
    // How many of them were sent on.
    sends: u64,
    // Whether there is room for one more.
    has_room: bool,
}

/// A file of so many bytes, of which so many calls succeed. Each wait is a write and a sync.
#[derive(Clone, Copy)]
struct Disk {
    title: &'static str,
    size: usize,
    calls: usize,
    fate: Fate,
}

const SETTLED: Reply = Reply::Settled(Got::Filled(35));

const UNTOLD: Reply = Reply::Untold(Got::Filled(35));

static DISKS: [Disk; 7] = [
    Disk {
        title: "no call fails",
        size: LARGE,
        calls: 8,
        fate: Fate {
            first: SETTLED,
            second: SETTLED,
            sends: 2,
            has_room: true,
        },
    },
    Disk {
        title: "the sync of the second packet's answer fails",
        size: LARGE,
        calls: 7,
        fate: Fate {
            first: SETTLED,
            second: UNTOLD,
            sends: 2,
            has_room: false,
        },
    },
    Disk {
        title: "the sync of an answer fails",
        size: LARGE,
        calls: 3,
        fate: Fate {
            first: UNTOLD,
            second: Reply::NoRoom,
            sends: 1,
            has_room: false,
        },
    },
    Disk {
        title: "the write of an answer fails",
        size: LARGE,
        calls: 2,
        fate: Fate {
            first: UNTOLD,
            second: Reply::NoRoom,
            sends: 1,
            has_room: false,
        },
    },
    Disk {
        title: "the sync of a verdict fails",
        size: LARGE,
        calls: 1,
        fate: Fate {
            first: Reply::Unkept,
            second: Reply::NoRoom,
            sends: 0,
            has_room: false,
        },
    },
    Disk {
        title: "each call fails",
        size: LARGE,
        calls: 0,
        fate: Fate {
            first: Reply::Unkept,
            second: Reply::NoRoom,
            sends: 0,
            has_room: false,
        },
    },
    Disk {
        title: "the log is full",
        size: SMALL,
        calls: 8,
        fate: Fate {
            first: Reply::NoRoom,
            second: Reply::NoRoom,
            sends: 0,
            has_room: false,
        },
    },
];

// The openings of acme's first period and of beta's.
fn two_openings(alloc: Global) -> Result<[Opening; 2], Fail> {
    let setups = two_setups(alloc, "64")?;
    let acme = Opening::first(alloc, 0, &setups[0], start()?)?;
    let beta = Opening::first(alloc, 1, &setups[1], start()?)?;
    Ok([acme, beta])
}

// What these tenants begin with.
fn two_starts(alloc: Global, openings: &[Opening; 2]) -> Result<[TenantStart; 2], Fail>
    ensures { IfOk result (λ starts. map (λ s. s.opening) starts ≡ openings.now) }
{
    let [acme, beta] = openings;
    Ok([
        TenantStart {
            opening: acme.copy(alloc)?,
            admin: Token::new(b"root-acme").ok_or("a token")?,
        },
        TenantStart {
            opening: beta.copy(alloc)?,
            admin: Token::new(b"root-beta").ok_or("a token")?,
        },
    ])
}

// What writes the log of these tenants into a file of that many zeros.
fn writer_in<D: LogFile + Drop>(
    alloc: Global,
    openings: &[Opening; 2],
    file: D,
    size: usize,
) -> Result<LogWriter<D>, Fail>
    requires sound { D.has_failed file ≡ false }
    requires zeros { D.seen file ≡ replicate size 0 }
    requires on_disk { Only (D.seen file) (D.may_leave file) }
    requires some { 0 < size }
    ensures { IfOk result (BeginsLog D.seen D.may_leave openings.now) }
{
    let starts = two_starts(alloc, openings)?;
    let (_, sum) = write_base(alloc, &starts)?;
    Ok(LogWriter::new(Log::blank(file, size), sum))
}

// What becomes of two packets of alice's, one after the other, whose records are kept in such a file.
fn fate_on<J: Run, R: Wait + Clock + AllocGlobal>(
    rt: &R,
    opened: Opened,
    openings: &[Opening; 2],
    disk: &Disk,
) -> Result<Fate, Fail>
    requires list { (opened.table ≡ J.table) × (opened.size ≡ J.size) }
    requires size { J.size ≡ record { tenants = 2; workers = 1 } }
    requires openings { J.openings ≡ openings.now }
    requires numbers { AreNumbered openings.now }
{
    let alloc = rt.alloc();
    if disk.size == 0 {
        return Err("a file".into());
    }
    let Ok((books, mut shares)) = Books::<J>::begun(alloc, opened, openings, 1, false) else {
        return Err("books".into());
    };
    let mut share = shares.pop().ok_or("a share")?;
    let file = Memory::new(alloc, vec![in alloc; 0; disk.size]?, disk.calls);
    let writer = writer_in(alloc, openings, file, disk.size)?;
    let limits = Limits {
        begun: Instant::now(rt)?,
        reserve: RESERVE,
        longest_wait: LONGEST,
        longest_write: LONGEST,
    };
    let journal = Some(SharedJournal::<Memory, J>::new(alloc, writer, openings, &books, limits)?);
    let keeper = Keeper {
        handle: rt,
        books: &books,
        journal: &journal,
    };
    two_packets(rt, &books, &keeper, &mut share)
}

// What becomes of two packets of alice's, whose records are kept so.
fn two_packets<J: Run, R: Wait + AllocGlobal, K: Keeping<J>>(
    rt: &R,
    books: &Books<J>,
    keeper: &K,
    share: &mut Share<J>,
) -> Result<Fate, Fail>
    requires { 0 < books.now.tenants }
{
    let alloc = rt.alloc();
    let (bytes, answer) = (frame(alloc, "{base}")?, frame(alloc, "{fulfill}")?);
    let mut link = Counting {
        answer: answer.as_slice(),
        sends: 0,
    };
    let (meters, mut seat) = Meters::new(alloc, 2)?;
    let mut slot = Slot::new(alloc)?;
    let clock = FixedClock(start()?);
    let tools = Tools {
        rt,
        alloc,
        books,
        meters: &meters,
        clock: &clock,
        keeping: keeper,
    };
    let job = Job {
        tenant: 0,
        token: b"tok-alice",
        frame: bytes.as_slice(),
    };
    let first = carry(&tools, &mut seat, &mut slot, share, &mut link, &Open, job);
    let second = carry(&tools, &mut seat, &mut slot, share, &mut link, &Open, job);
    Ok(Fate {
        first,
        second,
        sends: link.sends,
        has_room: keeper.has_room(0),
    })
}

// The same, of books that have just begun.
fn fate_of<R: Wait + Clock + AllocGlobal>(
    rt: &R,
    openings: &[Opening; 2],
    disk: &Disk,
) -> Result<Fate, Fail> {
    if !are_numbered(openings) {
        return Err("openings in the order of their tenants".into());
    }
    let opened = Opened::new(rt.alloc(), 2, 1)?;
    fate_on::<Brand, R>(rt, opened, openings, disk)
}

#[test]
fn nothing_leaves_once_a_disk_has_failed(rt: HostRuntime) -> Result<(), Fail> {
    let openings = two_openings(rt.alloc())?;
    for disk in &DISKS {
        let fate = fate_of(&rt, &openings, disk)?;
        let title = disk.title;
        assert_eq!(rt; fate, disk.fate, "{title}");
    }
    Ok(())
}
