//! Packets that one worker carries.

use super::{
    ONE_ANSWERED, Open, Tally, Team, Trial, come_to, counts_of, entries_of, filled, gathered,
    on_two_books,
};
use crate::START;
use books_shared::{Books, GatherFault, PacketOutcome, PeerPackets, Share};
use floor_core::{Got, Slot};
use ilp_addr::Moment;
use meters::Meters;
use one_list::Run;
use std::alloc::Global;
use std::sync::Wait;
use std::sync::atomic::{AtomicU64, Ordering};
use std::test::Fail;
use tenant_core::{Book, PeerNo, RejectCode};
use test_texts::frame;
use workers::{Clock, Job, Link, NothingKept, Outgoing, Reply, Tools, carry};

// The URL for bob's packets.
const BOB_URL: &[u8] = b"http://127.0.0.1:7802/ilp";

// The numbers of acme's peers.
const ALICE: PeerNo = 0;

const BOB: PeerNo = 1;

// When what goes on expires: nine seconds after the start.
const SENT_EXPIRY: u64 = START + 9_000;

/// A packet for acme, what becomes of it, and what the share has counted then. Frames are named in braces.
#[derive(Clone, Copy)]
pub(super) struct Packet {
    title: &'static str,
    token: &'static [u8],
    frame: &'static str,
    // What bob answers; nothing if it is empty.
    answer: &'static str,
    // By how many milliseconds the clock goes on each time it is read.
    step: u64,
    reply: Reply,
    code: u16,
    told: &'static str,
    tally: Tally,
    sends: u64,
    entries: u64,
    strangers: u64,
    full_journals: u64,
    bad_answers: u64,
    // What the book counts that became of it, how often, and the number of the peer that it counts for.
    outcome: (PacketOutcome, u64),
    peer: PeerNo,
    // The balances and the number of acme's book at the end.
    gathered: (i64, i64, u64, u64, u64),
}

pub(super) const FULFILLED: Packet = Packet {
    title: "fulfilled",
    token: b"tok-alice",
    frame: "{base}",
    answer: "{fulfill}",
    step: 0,
    reply: Reply::Settled(Got::Filled(35)),
    code: 200,
    told: "{fulfill}",
    tally: ONE_ANSWERED,
    sends: 1,
    entries: 2,
    strangers: 0,
    full_journals: 0,
    bad_answers: 0,
    outcome: (PacketOutcome::Fulfilled, 1),
    peer: ALICE,
    gathered: (1_000, -1_500, 0, 0, 2),
};

const LATE: Packet = Packet {
    title: "fulfilled when its time is over",
    step: 10_000,
    told: "{R00}",
    outcome: (PacketOutcome::Refused(RejectCode::TimedOut), 1),
    peer: BOB,
    gathered: (0, 0, 0, 0, 2),
    ..FULFILLED
};

const UNANSWERED: Packet = Packet {
    title: "nothing comes back",
    answer: "",
    reply: Reply::Settled(Got::Fault),
    told: "{T01}",
    tally: Tally {
        faults: 1,
        ..ONE_ANSWERED
    },
    outcome: (PacketOutcome::Refused(RejectCode::PeerUnreachable), 1),
    peer: BOB,
    gathered: (0, 0, 0, 0, 2),
    ..FULFILLED
};

const BAD_ANSWER: Packet = Packet {
    title: "a Prepare comes back",
    answer: "{base}",
    reply: Reply::Settled(Got::Filled(73)),
    told: "{T01}",
    bad_answers: 1,
    outcome: (PacketOutcome::Refused(RejectCode::PeerUnreachable), 1),
    peer: BOB,
    gathered: (0, 0, 0, 0, 2),
    ..FULFILLED
};

// After one that is fulfilled, in a journal of two places.
const BUSY: Packet = Packet {
    title: "the journal is full",
    reply: Reply::Decided,
    told: "{T03}",
    sends: 0,
    full_journals: 1,
    ..FULFILLED
};

const NO_PREPARE: Packet = Packet {
    title: "no Prepare",
    frame: "{fulfill}",
    reply: Reply::Malformed,
    code: 400,
    told: "",
    tally: Tally {
        answered: 0,
        refused: 1,
        ..ONE_ANSWERED
    },
    sends: 0,
    entries: 0,
    outcome: (PacketOutcome::Fulfilled, 0),
    gathered: (0, 0, 0, 0, 0),
    ..FULFILLED
};

static REFUSED: [Packet; 3] = [
    NO_PREPARE,
    Packet {
        title: "a token of 65 bytes",
        token: b"aaaaaaaaaaaaaaaaaaaaaaaaaaaaaaaaaaaaaaaaaaaaaaaaaaaaaaaaaaaaaaaaa",
        frame: "{base}",
        reply: Reply::Nameless,
        code: 401,
        ..NO_PREPARE
    },
    Packet {
        title: "a token of nobody",
        token: b"tok-carol",
        frame: "{base}",
        reply: Reply::Stranger,
        code: 401,
        strangers: 1,
        ..NO_PREPARE
    },
];

/// A clock that goes on by so many milliseconds each time it is read.
#[derive(Drop)]
struct Going {
    next: AtomicU64,
    step: u64,
}

impl Clock for Going {
    ghost gives = { λ clock moment. Unit {0} };

    fn now(&self) -> Moment {
        let millis = self.next.fetch_add(self.step, Ordering::SeqCst);
        Moment::new(millis.min(Moment::MAX_MILLIS)).unwrap_or_else(|| unreachable!())
    }
}

/// A link that looks at what it is given, and has an answer for it or nothing.
#[derive(Drop)]
struct Looking<'a> {
    wanted: &'a [u8],
    answer: Option<&'a [u8]>,
    sends: u64,
    is_right: bool,
}

impl Link for Looking<'_> {
    ghost sent = { λ link. link.sends };

    ghost sends_so = { λ before sending after. Unit {0} };

    fn sends(&self) -> u64 {
        self.sends
    }

    fn send(&mut self, packet: Outgoing<'_>, out: &mut [u8]) -> Got {
        self.sends += 1;
        self.is_right = packet.tenant == 0
            && packet.target.url() == BOB_URL
            && packet.frame == self.wanted
            && packet.expiry == SENT_EXPIRY;
        match self.answer {
            Some(answer) => filled(out, answer),
            None => Got::Fault,
        }
    }
}

// Carries the packet from the start on, and looks at what becomes of it.
pub(super) fn is_carried<J: Run, R: Wait + AllocGlobal>(
    rt: &R,
    team: &mut Team<J>,
    packet: &Packet,
) -> Result<bool, Fail> {
    let alloc = rt.alloc();
    let (wanted, answer) = (frame(alloc, "{sent}")?, frame(alloc, packet.answer)?);
    let mut link = Looking {
        wanted: wanted.as_slice(),
        answer: (!answer.is_empty()).then_some(answer.as_slice()),
        sends: 0,
        is_right: false,
    };
    let is_settled = is_settled(rt, team, &mut link, packet)?;
    let is_sent = link.sends == packet.sends && link.is_right == (packet.sends == 1);
    Ok(
        is_settled
            && is_sent
            && is_counted(&team.first, packet)
            && is_known(rt, &team.books, packet)?,
    )
}

// The same, with its bytes and those of the reply to the sender.
fn is_settled<J: Run, R: Wait + AllocGlobal>(
    rt: &R,
    team: &mut Team<J>,
    link: &mut Looking<'_>,
    packet: &Packet,
) -> Result<bool, Fail> {
    let bytes = frame(rt.alloc(), packet.frame)?;
    let told = frame(rt.alloc(), packet.told)?;
    let job = Job {
        tenant: 0,
        token: packet.token,
        frame: bytes.as_slice(),
    };
    let (reply, is_told, tally) = carried(rt, team, link, packet.step, job, told.as_slice())?;
    let is_replied = reply == packet.reply && reply.status().code() == packet.code;
    Ok(is_replied && is_told && tally == packet.tally)
}

// Whether the share has counted what it should.
fn is_counted<J: Run>(share: &Share<J>, packet: &Packet) -> bool {
    entries_of(share) == Some(packet.entries)
        && share.strangers(0) == packet.strangers
        && share.full_journals(0) == packet.full_journals
}

// Whether the book has counted what became of the packet.
fn is_known<J: Run, R: Wait + AllocGlobal>(
    rt: &R,
    books: &Books<J>,
    packet: &Packet,
) -> Result<bool, Fail> {
    if books.tenants() == 0 {
        return Ok(false);
    }
    let guard = books.enter(rt, 0);
    let (outcome, times) = packet.outcome;
    let is_peers = PeerPackets::of(rt.alloc(), guard.book())?.get(packet.peer, outcome) == times;
    let is_counted = guard.packets().get(outcome) == times;
    let is_apart = guard.full_journals() == packet.full_journals
        && guard.bad_answers() == packet.bad_answers;
    Ok(is_peers && is_counted && is_apart)
}

// The reply to a job, whether the sender gets what it should, and what the meters have counted, by a clock that goes
// on by that step.
fn carried<J: Run, R: Wait + AllocGlobal>(
    rt: &R,
    team: &mut Team<J>,
    link: &mut Looking<'_>,
    step: u64,
    job: Job<'_>,
    told: &[u8],
) -> Result<(Reply, bool, Tally), Fail> {
    let alloc = rt.alloc();
    let (books, share) = (&team.books, &mut team.first);
    if books.tenants() == 0 || job.tenant != 0 {
        return Err("a tenant".into());
    }
    let mut slot = Slot::new(alloc)?;
    let (meters, mut seat) = Meters::new(alloc, 1)?;
    let clock = Going {
        next: AtomicU64::new(START),
        step,
    };
    let tools = Tools {
        rt,
        alloc,
        books,
        meters: &meters,
        clock: &clock,
        keeping: &NothingKept,
    };
    let reply = carry(&tools, &mut seat, &mut slot, share, link, &Open, job);
    let is_told = slot.reply() == told;
    Ok((reply, is_told, counts_of(&meters.close(seat))))
}

impl Trial for Packet {
    fn act<J: Run, R: Wait + AllocGlobal>(&self, rt: &R, mut team: Team<J>) -> Result<bool, Fail> {
        let is_carried = is_carried(rt, &mut team, self)?;
        Ok(is_carried && come_to(rt.alloc(), team, self.gathered)?)
    }
}

#[test]
fn a_packet_is_settled(rt: HostRuntime) -> Result<(), Fail> {
    assert!(rt; on_two_books(&rt, "64", &FULFILLED)?);
    Ok(())
}

#[test]
fn a_fulfillment_that_comes_late_is_none(rt: HostRuntime) -> Result<(), Fail> {
    assert!(rt; on_two_books(&rt, "64", &LATE)?);
    Ok(())
}

#[test]
fn a_packet_that_nobody_answers_is_refused(rt: HostRuntime) -> Result<(), Fail> {
    assert!(rt; on_two_books(&rt, "64", &UNANSWERED)?);
    assert!(rt; on_two_books(&rt, "64", &BAD_ANSWER)?);
    Ok(())
}

#[test]
fn packets_are_refused(rt: HostRuntime) -> Result<(), Fail> {
    for packet in &REFUSED {
        let title = packet.title;
        assert!(rt; on_two_books(&rt, "64", packet)?, "{title}");
    }
    Ok(())
}

/// A packet fills a journal of two places, and the next finds it full.
struct FullJournal;

impl Trial for FullJournal {
    fn act<J: Run, R: Wait + AllocGlobal>(&self, rt: &R, mut team: Team<J>) -> Result<bool, Fail> {
        let is_filled = is_carried(rt, &mut team, &FULFILLED)?;
        Ok(is_filled && BUSY.act(rt, team)?)
    }
}

#[test]
fn a_journal_of_two_places_is_full(rt: HostRuntime) -> Result<(), Fail> {
    assert!(rt; on_two_books(&rt, "2", &FullJournal)?);
    Ok(())
}

/// Books are gathered without the share of a worker that has done nothing, and then with both shares.
struct MissingShare;

impl Trial for MissingShare {
    fn act<J: Run, R: Wait + AllocGlobal>(&self, rt: &R, mut team: Team<J>) -> Result<bool, Fail> {
        let is_carried = is_carried(rt, &mut team, &FULFILLED)?;
        Ok(is_carried && are_numbered_in_the_end(rt.alloc(), team)?)
    }
}

// What is handed back if the books are gathered with one share only.
fn refused<J: Run>(
    alloc: Global,
    books: Books<J>,
    share: Share<J>,
) -> Result<(Books<J>, Vec<Share<J>>), Fail> {
    let shares = vec![in alloc; share]?;
    match books.gather(alloc, shares) {
        Err(GatherFault::Missing(books, shares)) => Ok((books, shares)),
        _ => Err("a share is missing".into()),
    }
}

// Whether the first share is handed back, and the books have these numbers once both are there.
fn are_numbered_in_the_end<J: Run>(alloc: Global, team: Team<J>) -> Result<bool, Fail> {
    let (books, mut shares) = refused(alloc, team.books, team.first)?;
    let is_alone = shares.len() == 1;
    shares.push(team.second)?;
    let books = gathered(alloc, books, shares)?;
    Ok(is_alone && have_numbers(books.as_slice(), 2, 0))
}

fn have_numbers(books: &[(Book, u64)], acme: u64, beta: u64) -> bool {
    match books {
        [first, second] => first.1 == acme && second.1 == beta,
        _ => false,
    }
}

#[test]
fn books_are_gathered_with_their_shares(rt: HostRuntime) -> Result<(), Fail> {
    assert!(rt; on_two_books(&rt, "64", &MissingShare)?);
    Ok(())
}
