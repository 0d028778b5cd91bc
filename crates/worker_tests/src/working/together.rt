//! Two workers on threads of their own.

ghost use Rattle.std.specs.Prelude.{◌≡◌};
ghost use Rattle.books_shared.specs.Traced.{openings_of};

use super::{Team, filled, gathered, outcome, start, team_of, two_setups};
use crate::START;
use books_shared::{Books, Share};
use floor_core::{Got, Slot};
use ilp_addr::Moment;
use meters::Meters;
use one_list::{Opened, Run};
use std::alloc::Global;
use std::marker::Brand;
use std::sync::Wait;
use std::sync::atomic::{AtomicU64, Ordering};
use std::test::Fail;
use std::thread;
use std::thread::Threads;
use tenant_core::TenantSetup;
use test_texts::frame;
use workers::{
    Clock, Gate, Job, Lane, Link, NothingKept, Outgoing, Point, Reply, StartFault, Tools, carry,
    run_workers,
};

/// The point at which worker 0 is kept until worker 1 has its answer settled.
#[derive(Clone, Copy, Debug, PartialEq, Eq)]
enum Place {
    /// At its gate, once it has sent.
    Gate,
    /// While its link sends.
    Link,
    /// While its clock is read, under its tenant's lock.
    Lock,
}

/// A meeting of two workers, the packets that they carry, and the answer to each. Worker 1 begins once worker 0 is
/// there.
#[derive(Drop)]
struct Meeting {
    acme: Vec<u8>,
    beta: Vec<u8>,
    answer: Vec<u8>,
    place: Place,
    // 1 once worker 0 is there.
    kept: AtomicU64,
    // 1 once worker 1 has its answer settled.
    settled: AtomicU64,
    // 1 once a worker has given up its wait for the other.
    given_up: AtomicU64,
}

impl Meeting {
    fn wait(&self, event: &AtomicU64) {
        for _ in 0..1_000_000u32 {
            if event.load(Ordering::SeqCst) == 1 {
                return;
            }
            thread::yield_now();
        }
        self.given_up.store(1, Ordering::SeqCst);
    }

    // Keeps worker 0 at the meeting's place.
    fn come(&self, worker: usize, place: Place) {
        if worker == 0 && place == self.place {
            self.kept.store(1, Ordering::SeqCst);
            self.wait(&self.settled);
        }
    }
}

impl Gate for Meeting {
    fn pass(&self, worker: usize, point: Point) {
        match point {
            Point::Loaded if worker == 1 => self.wait(&self.kept),
            Point::Sent => self.come(worker, Place::Gate),
            Point::Answered if worker == 1 => self.settled.store(1, Ordering::SeqCst),
            _ => {}
        }
    }
}

/// A worker's clock, which always gives the same moment.
#[derive(Clone, Copy)]
struct MetClock<'a> {
    meeting: &'a Meeting,
    worker: usize,
    moment: Moment,
}

impl Clock for MetClock<'_> {
    ghost gives = { λ clock moment. moment ≡ clock.moment };

    fn now(&self) -> Moment {
        self.meeting.come(self.worker, Place::Lock);
        self.moment
    }
}

/// A link of a worker, which has the answer for each packet.
#[derive(Drop)]
struct Fulfilling<'a> {
    meeting: &'a Meeting,
    worker: usize,
    sends: u64,
}

impl Link for Fulfilling<'_> {
    ghost sent = { λ link. link.sends };

    ghost sends_so = { λ before sending after. Unit {0} };

    fn sends(&self) -> u64 {
        self.sends
    }

    fn send(&mut self, _packet: Outgoing<'_>, out: &mut [u8]) -> Got {
        self.sends += 1;
        self.meeting.come(self.worker, Place::Link);
        filled(out, self.meeting.answer.as_slice())
    }
}

/// A worker that carries one packet of alice's for that tenant's bob.
#[derive(Drop)]
struct Carrier<'a, J: Run> {
    alloc: Global,
    books: &'a Books<J>,
    meeting: &'a Meeting,
    share: Share<J>,
    tenant: usize,
    // The status of its reply, or 0.
    code: u16,
}

// Carries the worker's packet, with meters and in a slot of its own.
fn carried<J: Run, R: Wait>(rt: &R, carrier: &mut Carrier<'_, J>) -> Option<Reply> {
    let (alloc, books, meeting) = (carrier.alloc, carrier.books, carrier.meeting);
    let tenant = carrier.tenant;
    if tenant >= books.tenants() || tenant >= 2 {
        return None;
    }
    let mut slot = Slot::new(alloc).ok()?;
    let (meters, mut seat) = Meters::new(alloc, 2).ok()?;
    let share = &mut carrier.share;
    let worker = share.worker();
    let clock = MetClock {
        meeting,
        worker,
        moment: Moment::new(START)?,
    };
    let mut link = Fulfilling {
        meeting,
        worker,
        sends: 0,
    };
    let packet = if tenant == 0 {
        &meeting.acme
    } else {
        &meeting.beta
    };
    let job = Job {
        tenant,
        token: b"tok-alice",
        frame: packet.as_slice(),
    };
    let tools = Tools {
        rt,
        alloc,
        books,
        meters: &meters,
        clock: &clock,
        keeping: &NothingKept,
    };
    Some(carry(&tools, &mut seat, &mut slot, share, &mut link, meeting, job))
}

impl<J: Run + Send + Sync> Lane for Carrier<'_, J> {
    ghost works = { λ before after. Unit {0} };

    fn work<R: Threads + Wait + Sync>(&mut self, rt: &R) {
        self.code = match carried(rt, self) {
            Some(reply) => reply.status().code(),
            None => 0,
        };
    }
}

fn new_carrier<'a, J: Run>(
    alloc: Global,
    books: &'a Books<J>,
    meeting: &'a Meeting,
    share: Share<J>,
    tenant: usize,
) -> Carrier<'a, J> {
    Carrier {
        alloc,
        books,
        meeting,
        share,
        tenant,
        code: 0,
    }
}

fn work_all<'a, J: Run + Send + Sync, R: Threads + Wait + Sync>(
    rt: &R,
    lanes: &mut [Carrier<'a, J>],
) -> Result<(), StartFault> {
    books_shared::laws::books_are_shared::<J>();
    run_workers(rt, lanes)
}

// Whether both replies have status 200.
fn are_good<J: Run>(lanes: &[Carrier<'_, J>]) -> bool {
    for lane in lanes {
        if lane.code != 200 {
            return false;
        }
    }
    lanes.len() == 2
}

fn shares_of<'a, J: Run>(alloc: Global, lanes: Vec<Carrier<'a, J>>) -> Result<Vec<Share<J>>, Fail> {
    let mut shares = Vec::new(alloc);
    for lane in lanes {
        shares.push(lane.share)?;
    }
    Ok(shares)
}

// Lets worker 0 carry BASE for acme, and worker 1 the same for that tenant: whether both replies have status 200, and their
// shares.
fn both_carried<'a, J: Run + Send + Sync, R: Threads + Wait + Sync>(
    rt: &R,
    alloc: Global,
    books: &'a Books<J>,
    meeting: &'a Meeting,
    first: Share<J>,
    second: Share<J>,
    tenant: usize,
) -> Result<(bool, Vec<Share<J>>), Fail> {
    let first = new_carrier(alloc, books, meeting, first, 0);
    let second = new_carrier(alloc, books, meeting, second, tenant);
    let mut lanes = vec![in alloc; first, second]?;
    work_all(rt, lanes.as_mut_slice())?;
    let are_good = are_good(lanes.as_slice());
    Ok((are_good, shares_of(alloc, lanes)?))
}

fn new_meeting(alloc: Global, place: Place) -> Result<Meeting, Fail> {
    Ok(Meeting {
        acme: frame(alloc, "{base}")?,
        beta: frame(alloc, "{for beta}")?,
        answer: frame(alloc, "{fulfill}")?,
        place,
        kept: AtomicU64::new(0),
        settled: AtomicU64::new(0),
        given_up: AtomicU64::new(0),
    })
}

/// Worker 1 carries its packet for that tenant while worker 0 is kept there, and then acme's balances and its book's number
/// are these.
#[derive(Drop)]
struct Together {
    place: Place,
    tenant: usize,
    gathered: (i64, i64, u64, u64, u64),
}

// Lets both carry, on the books of acme and beta, and says whether the outcome is the expected one. This is no
// `Trial`: nothing is proved of a method that starts threads with what its own bounds give it.
fn carry_together<R: Threads + Wait + Sync>(
    rt: &R,
    alloc: Global,
    together: &Together,
) -> Result<bool, Fail> {
    let setups = two_setups(alloc, "64")?;
    let opened = Opened::new(alloc, 2, 2)?;
    carry_on_books::<Brand, R>(rt, alloc, opened, &setups, start()?, together)
}

fn carry_on_books<J: Run + Send + Sync, R: Threads + Wait + Sync>(
    rt: &R,
    alloc: Global,
    opened: Opened,
    setups: &[TenantSetup; 2],
    start: Moment,
    together: &Together,
) -> Result<bool, Fail>
    requires list { (opened.table ≡ J.table) × (opened.size ≡ J.size) }
    requires size { J.size ≡ record { tenants = 2; workers = 2 } }
    requires openings { J.openings ≡ openings_of setups.now start }
{
    let Team {
        books,
        first,
        second,
    } = team_of::<J>(alloc, opened, setups, start)?;
    let meeting = new_meeting(alloc, together.place)?;
    let (are_good, shares) = both_carried(
        rt,
        alloc,
        &books,
        &meeting,
        first,
        second,
        together.tenant,
    )?;
    let is_met = are_good && meeting.given_up.load(Ordering::SeqCst) == 0;
    let books = gathered(alloc, books, shares)?;
    Ok(is_met && outcome(books.as_slice()) == Some(together.gathered))
}

#[test]
fn a_tenant_does_not_wait_for_another(rt: HostRuntime) -> Result<(), Fail> {
    let together = Together {
        place: Place::Gate,
        tenant: 1,
        gathered: (1_000, -1_500, 0, 0, 2),
    };
    assert!(rt; carry_together(&rt, rt.alloc(), &together)?);
    Ok(())
}

#[test]
fn a_lock_keeps_no_other_tenant_waiting(rt: HostRuntime) -> Result<(), Fail> {
    let together = Together {
        place: Place::Lock,
        tenant: 1,
        gathered: (1_000, -1_500, 0, 0, 2),
    };
    assert!(rt; carry_together(&rt, rt.alloc(), &together)?);
    Ok(())
}

#[test]
fn no_lock_is_held_over_a_send(rt: HostRuntime) -> Result<(), Fail> {
    let together = Together {
        place: Place::Link,
        tenant: 0,
        gathered: (2_000, -3_000, 0, 0, 4),
    };
    assert!(rt; carry_together(&rt, rt.alloc(), &together)?);
    Ok(())
}
