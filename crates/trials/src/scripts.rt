//! Scripts of a crowd: steps of hostile tenants and of a calm one, by the same workers.

use crate::orders::hostile_command;
use crate::packets::{HOUR, Prepare, answer, frame_of, hostile_frame};
use std::alloc::{AllocError, Global};
use test_texts::{Draws, put};

// 2030-01-01T00:00:00Z, when all books begin, and the greatest moment.
const START: u64 = 1_893_456_000_000;

const LATEST: u64 = 253_400_000_000_000;

/// The calm tenant, which sees only what its own steps give.
pub const CALM: &str = "calm";

static HOSTILE: [&str; 9] = ["h0", "h1", "h2", "h3", "h4", "h5", "h6", "h7", "h8"];

// How many places the journal of each hostile tenant has.
static JOURNALS: [u64; 9] = [2, 3, 5, 8, 13, 21, 34, 55, 89];

const CALM_JOURNAL: u64 = 200;

const PEER: &str = "url = \"http://127.0.0.1/\"\nout_token = \"out\"\nasset = \"USD\"\nscale = 2\n\
cap = 1000000\nceiling = 1000000\ncredit = 1000000\nburst = 1000\nper_second = 1000\n";

const RATE: &str = "[[tenant.rate]]\nfrom = \"alice\"\nto = \"bob\"\nnum = 3\nden = 2\n";

fn put_peer(setup: &mut String, name: &str, role: &str) -> Result<(), AllocError> {
    put(
        setup,
        &[
            "[[tenant.peer]]\nname = \"",
            name,
            "\"\nrole = \"",
            role,
            "\"\ntoken = \"tok-",
            name,
            "\"\n",
            PEER,
        ],
    )
}

fn put_tenant(
    alloc: Global,
    setup: &mut String,
    name: &str,
    journal: u64,
) -> Result<(), AllocError> {
    let journal = journal.to_string(alloc)?;
    put(
        setup,
        &[
            "[[tenant]]\nname = \"",
            name,
            "\"\naddress = \"g.",
            name,
            "\"\nadmin = \"root\"\njournal = ",
            journal.as_str(),
            "\n",
        ],
    )?;
    put_peer(setup, "alice", "peer")?;
    put_peer(setup, "bob", "child")?;
    put(
        setup,
        &[
            "[[tenant.route]]\nprefix = \"g.",
            name,
            ".bob\"\npeer = \"bob\"\n",
            RATE,
        ],
    )
}

fn begun(alloc: Global) -> Result<String, AllocError> {
    String::from_str(alloc, "version = 1\nstart = 1893456000000\n")
}

/// The setup of the calm tenant without the others.
pub fn setup_alone(alloc: Global) -> Result<String, AllocError> {
    let mut setup = begun(alloc)?;
    put_tenant(alloc, &mut setup, CALM, CALM_JOURNAL)?;
    Ok(setup)
}

/// The setup of all ten.
pub fn setup_of_all(alloc: Global) -> Result<String, AllocError> {
    let mut setup = begun(alloc)?;
    for (name, journal) in HOSTILE.iter().zip(JOURNALS.iter()) {
        put_tenant(alloc, &mut setup, name, *journal)?;
    }
    put_tenant(alloc, &mut setup, CALM, CALM_JOURNAL)?;
    Ok(setup)
}

/// The state of a script: what is drawn next, how many workers there are, and how many milliseconds have passed.
#[derive(Drop)]
struct Course {
    draws: Draws,
    workers: u64,
    millis: u64,
}

impl Course {
    fn worker(&mut self) -> u64 {
        self.draws.below(self.workers)
    }

    // The next moment: a little later, or seldom so late that all that is held is over.
    fn moment(&mut self) -> u64 {
        let more = if self.draws.is_one_in(150) && self.millis < HOUR / 2 {
            40_000
        } else {
            self.draws.below(20)
        };
        self.millis = self.millis.saturating_add(more).min(HOUR - 60_000);
        START.saturating_add(self.millis)
    }

    // A moment of a hostile tenant's operator: at times the last one, or one that was.
    fn operators_moment(&mut self) -> u64 {
        match self.draws.below(60) {
            0 => LATEST,
            1 | 2 => START,
            _ => self.moment(),
        }
    }
}

fn load_of(
    alloc: Global,
    worker: &str,
    name: &str,
    token: &str,
    frame: &str,
) -> Result<String, AllocError> {
    ["load ", worker, " ", name, " ", token, " ", frame, "\n"].concat(alloc)
}

// A packet comes for a hostile tenant.
fn hostile_load(alloc: Global, course: &mut Course, name: &str) -> Result<String, AllocError> {
    let token = course.draws.one_of(&[
        "tok-alice",
        "tok-alice",
        "tok-alice",
        "tok-bob",
        "tok-bob",
        "tok-carol",
        "tok-none",
    ]);
    let frame = hostile_frame(alloc, &mut course.draws, name, course.millis)?;
    let worker = course.worker().to_string(alloc)?;
    load_of(alloc, worker.as_str(), name, token, frame.as_str())
}

// A packet comes for the calm tenant: most of them can go on.
fn calm_load(alloc: Global, course: &mut Course) -> Result<String, AllocError> {
    let prepare = Prepare {
        amount: course.draws.below(500),
        expiry: course.millis.saturating_add(30_000),
        destination: course
            .draws
            .one_of(&["g.calm.bob.x", "g.calm.bob", "g.calm.bob.y.z"]),
        payload: usize::try_from(course.draws.below(100)).unwrap_or(0),
    };
    let frame = hex::encode(alloc, frame_of(alloc, &prepare)?.as_slice())?;
    let worker = course.worker().to_string(alloc)?;
    load_of(alloc, worker.as_str(), CALM, "tok-alice", frame.as_str())
}

// A step without a tenant's name: the worker's packet decides whose it is.
fn workers_step(alloc: Global, course: &mut Course) -> Result<String, AllocError> {
    let now = course.moment().to_string(alloc)?;
    let worker = course.worker().to_string(alloc)?;
    if course.draws.is_one_in(2) {
        return ["decide ", worker.as_str(), " ", now.as_str(), "\n"].concat(alloc);
    }
    let answer = answer(alloc, &mut course.draws)?;
    [
        "answer ",
        worker.as_str(),
        " ",
        now.as_str(),
        " ",
        answer.as_str(),
        "\n",
    ]
    .concat(alloc)
}

fn tick_of(alloc: Global, name: &str, now: u64) -> Result<String, AllocError> {
    let now = now.to_string(alloc)?;
    ["tick ", name, " ", now.as_str(), "\n"].concat(alloc)
}

fn order_of(alloc: Global, name: &str, now: u64, command: &str) -> Result<String, AllocError> {
    let now = now.to_string(alloc)?;
    ["do ", name, " ", now.as_str(), " ", command, "\n"].concat(alloc)
}

fn hostile_order(alloc: Global, course: &mut Course, name: &str) -> Result<String, AllocError> {
    let now = course.operators_moment();
    if course.draws.is_one_in(3) {
        let more = if course.draws.is_one_in(3) { 40_000 } else { 0 };
        let late = now.saturating_add(more).min(LATEST);
        return tick_of(alloc, name, late);
    }
    let command = hostile_command(alloc, &mut course.draws, name)?;
    order_of(alloc, name, now, command.as_str())
}

fn calm_order(alloc: Global, course: &mut Course) -> Result<String, AllocError> {
    let now = course.moment();
    let command = course.draws.one_of(&[
        "balances",
        "roll",
        "peer limits bob 1000000 1000000 1000000",
        "settle in alice 100",
        "settle out bob 150",
    ]);
    if course.draws.is_one_in(4) {
        return tick_of(alloc, CALM, now);
    }
    order_of(alloc, CALM, now, command)
}

fn step(alloc: Global, course: &mut Course) -> Result<String, AllocError> {
    let name = course.draws.one_of(&HOSTILE);
    match course.draws.below(100) {
        0..=49 => workers_step(alloc, course),
        50..=68 => hostile_load(alloc, course, name),
        69..=76 => calm_load(alloc, course),
        77..=96 => hostile_order(alloc, course, name),
        _ => calm_order(alloc, course),
    }
}

/// A script of so many steps by so many workers.
pub fn script(
    alloc: Global,
    draws: Draws,
    workers: usize,
    steps: u32,
) -> Result<String, AllocError> {
    let mut course = Course {
        draws,
        workers: workers as u64,
        millis: 0,
    };
    let mut script = String::new(alloc);
    for _ in 0..steps {
        script.push_str(step(alloc, &mut course)?.as_str())?;
    }
    Ok(script)
}
