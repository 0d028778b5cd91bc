//! What a worker waits for before anything leaves.

use super::{FixedClock, Open, Team, Trial, come_to, entries_of, filled, on_two_books, start};
use books_shared::Guard;
use floor_core::{Got, Slot};
use meters::Meters;
use one_list::Run;
use std::alloc::Global;
use std::sync::Wait;
use std::sync::atomic::{AtomicU64, Ordering};
use std::test::Fail;
use tenant_core::{Command, Period};
use test_texts::frame;
use workers::{
    GovernFault, Job, JournalPlace, Keeping, Link, NotKept, Outgoing, Reply, Tools, carry, govern,
};

/// One who keeps what is done, and notes what is asked of it. It has room or not, and fails from some call on.
#[derive(Drop)]
struct Watching {
    has_room: bool,
    // From that wait on it fails. The first one is 1.
    fails_at: u64,
    waits: AtomicU64,
    rolls: AtomicU64,
    // The place of the last wait.
    period: AtomicU64,
    number: AtomicU64,
}

impl<J: Run> Keeping<J> for Watching {
    ghost keeps = { λ _ _. Unit {0} };

    ghost fails = { λ _. Unit {0} };

    fn has_room(&self, _tenant: usize) -> bool {
        self.has_room
    }

    fn note_closed(&self, _guard: &mut Guard<'_, J>, _period: &Period) {
        self.rolls.fetch_add(1, Ordering::SeqCst);
    }

    fn wait(&self, place: JournalPlace) -> Result<(), NotKept> {
        let wait = self.waits.fetch_add(1, Ordering::SeqCst);
        self.period.store(place.period, Ordering::SeqCst);
        self.number.store(place.number, Ordering::SeqCst);
        if wait >= self.fails_at.saturating_sub(1) {
            return Err(NotKept);
        }
        Ok(())
    }
}

impl Watching {
    fn new(has_room: bool, fails_at: u64) -> Watching {
        Watching {
            has_room,
            fails_at,
            waits: AtomicU64::new(0),
            rolls: AtomicU64::new(0),
            period: AtomicU64::new(0),
            number: AtomicU64::new(0),
        }
    }

    // How many waits and closed periods there were, and the place of the last wait.
    fn seen(&self) -> (u64, u64, u64, u64) {
        (
            self.waits.load(Ordering::SeqCst),
            self.rolls.load(Ordering::SeqCst),
            self.period.load(Ordering::SeqCst),
            self.number.load(Ordering::SeqCst),
        )
    }
}

/// A link that looks after which wait it is asked.
#[derive(Drop)]
struct Timely<'a> {
    keeping: &'a Watching,
    answer: &'a [u8],
    sends: u64,
    is_timely: bool,
}

impl Link for Timely<'_> {
    ghost sent = { λ link. link.sends };

    ghost sends_so = { λ before sending after. Unit {0} };

    fn sends(&self) -> u64 {
        self.sends
    }

    fn send(&mut self, _packet: Outgoing<'_>, out: &mut [u8]) -> Got {
        self.sends += 1;
        self.is_timely = self.keeping.seen() == (1, 0, 0, 1);
        filled(out, self.answer)
    }
}

/// A packet of alice's, whose keeper has room and fails so, and what becomes of it.
#[derive(Clone, Copy)]
struct Kept {
    title: &'static str,
    has_room: bool,
    fails_at: u64,
    reply: Reply,
    code: u16,
    sends: u64,
    // How many entries the book has then, how often was waited, and the place of the last wait.
    entries: u64,
    seen: (u64, u64, u64, u64),
    // The balances and the number of acme's book at the end.
    gathered: (i64, i64, u64, u64, u64),
}

static PACKETS: [Kept; 4] = [
    Kept {
        title: "all is kept",
        has_room: true,
        fails_at: 3,
        reply: Reply::Settled(Got::Filled(35)),
        code: 200,
        sends: 1,
        entries: 2,
        seen: (2, 0, 0, 2),
        gathered: (1_000, -1_500, 0, 0, 2),
    },
    Kept {
        title: "no room",
        has_room: false,
        fails_at: 3,
        reply: Reply::NoRoom,
        code: 503,
        sends: 0,
        entries: 0,
        seen: (0, 0, 0, 0),
        gathered: (0, 0, 0, 0, 0),
    },
    Kept {
        title: "the verdict is not kept",
        has_room: true,
        fails_at: 1,
        reply: Reply::Unkept,
        code: 503,
        sends: 0,
        entries: 2,
        seen: (1, 0, 0, 1),
        gathered: (0, 0, 0, 0, 2),
    },
    Kept {
        title: "the answer is not kept",
        has_room: true,
        fails_at: 2,
        reply: Reply::Untold(Got::Filled(35)),
        code: 503,
        sends: 1,
        entries: 2,
        seen: (2, 0, 0, 2),
        gathered: (1_000, -1_500, 0, 0, 2),
    },
];

// The reply to alice's packet, how often it was sent, whether after the first wait, and whether the slot has bytes for its sender.
fn carried<J: Run, R: Wait>(
    rt: &R,
    alloc: Global,
    team: &mut Team<J>,
    keeping: &Watching,
) -> Result<(Reply, u64, bool, bool), Fail> {
    if team.books.tenants() == 0 {
        return Err("a tenant".into());
    }
    let (bytes, answer) = (frame(alloc, "{base}")?, frame(alloc, "{fulfill}")?);
    let mut link = Timely {
        keeping,
        answer: answer.as_slice(),
        sends: 0,
        is_timely: true,
    };
    let (meters, mut seat) = Meters::new(alloc, 1)?;
    let mut slot = Slot::new(alloc)?;
    let tools = Tools {
        rt,
        alloc,
        books: &team.books,
        meters: &meters,
        clock: &FixedClock(start()?),
        keeping,
    };
    let job = Job {
        tenant: 0,
        token: b"tok-alice",
        frame: bytes.as_slice(),
    };
    let reply = carry(
        &tools,
        &mut seat,
        &mut slot,
        &mut team.first,
        &mut link,
        &Open,
        job,
    );
    Ok((reply, link.sends, link.is_timely, !slot.reply().is_empty()))
}

impl Trial for Kept {
    fn act<J: Run, R: Wait + AllocGlobal>(&self, rt: &R, mut team: Team<J>) -> Result<bool, Fail> {
        let keeping = Watching::new(self.has_room, self.fails_at);
        let (reply, sends, is_timely, is_told) = carried(rt, rt.alloc(), &mut team, &keeping)?;
        let is_right = reply == self.reply
            && reply.status().code() == self.code
            && sends == self.sends
            && is_timely
            && is_told == (self.code == 200)
            && entries_of(&team.first) == Some(self.entries)
            && keeping.seen() == self.seen;
        Ok(is_right && come_to(rt.alloc(), team, self.gathered)?)
    }
}

#[test]
fn nothing_leaves_before_it_is_kept(rt: HostRuntime) -> Result<(), Fail> {
    for packet in &PACKETS {
        let title = packet.title;
        assert!(rt; on_two_books(&rt, "64", packet)?, "{title}");
    }
    Ok(())
}

/// A roll of acme's operator, with one who keeps it; then one who has no room, and one who fails.
struct Rolls;

// The outcome of a roll, as a number: 0 for done, 1 for no room, 2 for not kept, 3 for any other fault.
fn rolled<J: Run, R: Wait>(
    rt: &R,
    alloc: Global,
    team: &mut Team<J>,
    keeping: &Watching,
) -> Result<u8, Fail> {
    if team.books.tenants() == 0 {
        return Err("a tenant".into());
    }
    let (meters, mut seat) = Meters::new(alloc, 1)?;
    let tools = Tools {
        rt,
        alloc,
        books: &team.books,
        meters: &meters,
        clock: &FixedClock(start()?),
        keeping,
    };
    match govern(&tools, &mut seat, &mut team.first, 0, &Command::Roll) {
        Ok(_) => Ok(0),
        Err(GovernFault::NoRoom) => Ok(1),
        Err(GovernFault::Unkept) => Ok(2),
        Err(_) => Ok(3),
    }
}

impl Trial for Rolls {
    fn act<J: Run, R: Wait + AllocGlobal>(&self, rt: &R, mut team: Team<J>) -> Result<bool, Fail> {
        let (good, full, broken) = (
            Watching::new(true, 2),
            Watching::new(false, 2),
            Watching::new(true, 1),
        );
        let is_done = rolled(rt, rt.alloc(), &mut team, &good)? == 0 && good.seen() == (1, 1, 1, 0);
        let is_full = rolled(rt, rt.alloc(), &mut team, &full)? == 1 && full.seen() == (0, 0, 0, 0);
        let is_broken = rolled(rt, rt.alloc(), &mut team, &broken)? == 2
            && broken.seen() == (1, 1, 2, 0);
        Ok(is_done && is_full && is_broken && come_to(rt.alloc(), team, (0, 0, 0, 0, 2))?)
    }
}

#[test]
fn a_roll_is_kept(rt: HostRuntime) -> Result<(), Fail> {
    assert!(rt; on_two_books(&rt, "64", &Rolls)?);
    Ok(())
}
