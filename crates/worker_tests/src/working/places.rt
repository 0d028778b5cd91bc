//! Places that two tenants share: one of them holds all that it can get.

use allotment::{Admission, Lending};
use std::sync::Wait;
use std::sync::atomic::{AtomicU64, Ordering};
use std::test::Fail;
use std::thread;
use std::thread::Threads;
use std::time::{Clock, Duration, Instant};
use workers::{Place, PlaceUse, Places};

// As many threads hold places for tenant 0.
const HOLDERS: u64 = 8;

// How often tenant 1 takes two places at once.
const PAIRS: u32 = 100;

fn asked(lending: &mut Lending, tenant: usize) -> Admission {
    if tenant >= lending.tenants() {
        return Admission::Full;
    }
    lending.ask(tenant)
}

// Gives back a place of the tenant. Returns the tenant that it is kept for.
fn given_back(lending: &mut Lending, tenant: usize) -> Option<usize> {
    if tenant >= lending.tenants() || !lending.uses(tenant) {
        return None;
    }
    lending.give_back(tenant)
}

fn picked_up(lending: &mut Lending, tenant: usize) -> bool {
    tenant < lending.tenants() && lending.pick_up(tenant)
}

// Whether each of these tenants, one after another, gets that answer when it asks for a place.
fn are_asked(lending: &mut Lending, asks: &[(usize, Admission)]) -> bool {
    for (tenant, turn) in asks {
        if asked(lending, *tenant) != *turn {
            return false;
        }
    }
    true
}

// Of eight places for two tenants two are each one's own, and four anyone's.
static EIGHT_FOR_TWO: [(usize, Admission); 11] = [
    (0, Admission::Taken),
    (0, Admission::Taken),
    (0, Admission::Taken),
    (0, Admission::Taken),
    (0, Admission::Taken),
    (0, Admission::Taken),
    (0, Admission::Waits),
    (0, Admission::Full),
    (1, Admission::Taken),
    (1, Admission::Taken),
    (1, Admission::Waits),
];

#[test]
fn what_nobody_is_owed_is_for_anyone(rt: HostRuntime) -> Result<(), Fail> {
    let mut lending = Lending::new(rt.alloc(), 8, 2, 1)?;
    assert!(rt; are_asked(&mut lending, &EIGHT_FOR_TWO));
    Ok(())
}

// What a tenant gives back within its share is its own again; what another gives back beyond its share is for who comes
// next.
fn comes_back(lending: &mut Lending) -> bool {
    given_back(lending, 1) == Some(1)
        && picked_up(lending, 1)
        && !picked_up(lending, 1)
        && given_back(lending, 0) == Some(0)
        && given_back(lending, 0) == None
        && asked(lending, 1) == Admission::Taken
}

#[test]
fn who_gets_what_came_back(rt: HostRuntime) -> Result<(), Fail> {
    let mut lending = Lending::new(rt.alloc(), 4, 2, 1)?;
    for tenant in [0, 0, 0, 0, 1, 1] {
        asked(&mut lending, tenant);
    }
    assert!(rt; comes_back(&mut lending));
    Ok(())
}

// With fewer places than tenants none is sure of one. With one for each, each has its own.
static TWO_FOR_THREE: [(usize, Admission); 3] = [
    (2, Admission::Taken),
    (2, Admission::Taken),
    (1, Admission::Full),
];

static THREE_FOR_THREE: [(usize, Admission); 4] = [
    (2, Admission::Taken),
    (2, Admission::Full),
    (0, Admission::Taken),
    (1, Admission::Taken),
];

#[test]
fn shares_of_few_places(rt: HostRuntime) -> Result<(), Fail> {
    let mut few = Lending::new(rt.alloc(), 2, 3, 0)?;
    assert!(rt; are_asked(&mut few, &TWO_FOR_THREE));
    let mut equal = Lending::new(rt.alloc(), 3, 3, 0)?;
    assert!(rt; are_asked(&mut equal, &THREE_FOR_THREE));
    Ok(())
}

fn soon(clock: &impl Clock, millis: u64) -> Result<Instant, Fail> {
    match Instant::now(clock)?.checked_add(Duration::from_millis(millis)) {
        Some(until) => Ok(until),
        None => Err("a place, and a clock".into()),
    }
}

fn is_taken<R: Wait>(rt: &R, places: &Places, place: Option<Place>) -> bool {
    match place {
        Some(place) => {
            places.give_back(rt, place, true);
            true
        }
        None => false,
    }
}

#[test]
fn a_wait_for_a_place_ends(rt: HostRuntime) -> Result<(), Fail> {
    let places = Places::new(rt.alloc(), 1, 1, 1)?;
    let until = soon(&rt, 100)?;
    let Some(place) = places.take(&rt, 0, until) else {
        return Err("a place, and a clock".into());
    };
    let late = is_taken(&rt, &places, places.take(&rt, 0, until));
    let now = Instant::now(&rt);
    places.give_back(&rt, place, false);
    assert!(rt; !late && now? >= until);
    let again = is_taken(&rt, &places, places.take(&rt, 0, until));
    let stranger = is_taken(&rt, &places, places.take(&rt, 1, until));
    assert!(rt; again && !stranger);
    assert!(rt; places.use_by(&rt, 0) == Some(FREE_AGAIN));
    assert!(rt; places.use_by(&rt, 1).is_none());
    Ok(())
}

// The one place of one tenant, after one that got none, and one that got no answer there.
const FREE_AGAIN: PlaceUse = PlaceUse {
    share: 1,
    used: 0,
    waiting: 0,
    missed: 1,
    unanswered: 1,
};

fn wait_until<R: Wait>(rt: &R, word: &AtomicU64, least: u64) {
    for _ in rt.forever() {
        if word.load(Ordering::SeqCst) >= least {
            break;
        }
        thread::yield_now();
    }
}

// Takes a place for tenant 0, and keeps it until the gate is open.
fn hold<R: Wait + Clock>(
    rt: &R,
    places: &Places,
    until: Instant,
    held: &AtomicU64,
    gate: &AtomicU64,
) {
    if let Some(place) = places.take(rt, 0, until) {
        held.fetch_add(1, Ordering::SeqCst);
        wait_until(rt, gate, 1);
        places.give_back(rt, place, true);
    }
}

// Whether tenant 1 has two places at once each time.
fn take_pairs<R: Wait + Clock>(rt: &R, places: &Places, until: Instant) -> bool {
    let mut all = true;
    for _ in 0..PAIRS {
        let first = places.take(rt, 1, until);
        let second = places.take(rt, 1, until);
        all &= is_taken(rt, places, first) & is_taken(rt, places, second);
    }
    all
}

// Tenant 0 holds six of eight places, and more of it wait, until tenant 1 has had its two a hundred times. Those that wait get
// theirs once the others give theirs back.
#[test]
fn a_tenant_is_sure_of_its_share(rt: HostRuntime) -> Result<(), Fail> {
    let places = Places::new(rt.alloc(), 8, 2, 8)?;
    let until = soon(&rt, 20_000)?;
    let (held, gate) = (AtomicU64::new(0), AtomicU64::new(0));
    assert!(rt; beside_holders(&rt, &places, until, &held, &gate));
    assert_eq!(rt; held.load(Ordering::SeqCst), HOLDERS);
    Ok(())
}

fn beside_holders<R: Threads + Wait + Clock + Sync>(
    rt: &R,
    places: &Places,
    until: Instant,
    held: &AtomicU64,
    gate: &AtomicU64,
) -> bool {
    thread::scope(thread::scope_env(), rt, |scope| {
        for _ in 0..HOLDERS {
            let _ = scope.spawn(move || hold(rt, places, until, held, gate));
        }
        wait_until(rt, held, 6);
        let pairs = take_pairs(rt, places, until);
        gate.store(1, Ordering::SeqCst);
        pairs
    })
}

// The one place for two tenants, of which nobody is sure: as it is taken, and as it is awaited.
const TAKEN: PlaceUse = PlaceUse {
    share: 0,
    used: 1,
    waiting: 0,
    missed: 0,
    unanswered: 0,
};

const AWAITED: PlaceUse = PlaceUse {
    share: 0,
    used: 0,
    waiting: 1,
    missed: 0,
    unanswered: 0,
};

fn is_before(clock: &impl Clock, until: Instant) -> bool {
    match Instant::now(clock) {
        Ok(now) => now < until,
        Err(_) => false,
    }
}

// Whether the tenant's use of the places becomes that before that moment.
fn comes_to<R: Wait + Clock>(
    rt: &R,
    places: &Places,
    tenant: usize,
    wanted: PlaceUse,
    until: Instant,
) -> bool {
    for _ in rt.forever() {
        if places.use_by(rt, tenant) == Some(wanted) {
            return true;
        }
        if !is_before(rt, until) {
            break;
        }
        thread::yield_now();
    }
    false
}

// Takes the place for tenant 0, and gives it back once one of tenant 1 waits for it.
fn pass_on<R: Wait + Clock>(rt: &R, places: &Places, until: Instant) -> bool {
    let place = places.take(rt, 0, until);
    let awaited = comes_to(rt, places, 1, AWAITED, until);
    is_taken(rt, places, place) && awaited
}

// Waits for the place that tenant 0 has. Whether tenant 1 has it before that moment, when it would look for it by itself.
fn is_passed<R: Wait + Clock>(rt: &R, places: &Places, until: Instant) -> bool {
    let taken = comes_to(rt, places, 0, TAKEN, until);
    let place = places.take(rt, 1, until);
    let in_time = is_before(rt, until);
    is_taken(rt, places, place) && taken && in_time
}

// Nobody of tenant 0 waits, so it is tenant 1 that has to be woken.
#[test]
fn a_place_that_comes_back_wakes_another_tenant(rt: HostRuntime) -> Result<(), Fail> {
    let places = Places::new(rt.alloc(), 1, 2, 1)?;
    let until = soon(&rt, 4_000)?;
    let (given, got) = thread::join(
        &rt,
        || pass_on(&rt, &places, until),
        || is_passed(&rt, &places, until),
    );
    assert!(rt; given && got);
    Ok(())
}
