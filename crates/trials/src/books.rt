//! Random books of one tenant, over many periods, and services that begin again from the setup that the last one
//! wrote. Each closed period is written, and the receipts of its records, which must be complete if it is a first one. The chain of
//! all statements must equal a plain count.

use crate::audited::receipts_of;
use crate::counted::{Count, Led, lines_of};
use crate::fault::Fault;
use admin_text::{Setup, parse_command, read_setup, write_setup};
use common_types::{ReadError, Token};
use ilp_addr::{Address, Moment};
use receipt_text::{ReceiptsFault, check_receipts};
use receipts::AuditFault;
use statements::{Chain, write_statement};
use std::alloc::{AllocError, Global};
use std::slice;
use tenant_core::{
    AnswerKey, Answered, Book, Command, CommandFault, Expiry, Period, PrepareKey, Side, Verdict,
};
use test_texts::{Draws, put};

// 2030-01-01T00:00:00Z, when each first book begins.
const START: u64 = 1_893_456_000_000;

// How many peers there may be at once.
const SLOTS: u64 = 6;

// What the peer of each slot is called, its token, the prefix of its own route, and an address below that.
static PEERS: [&str; 6] = ["p0", "p1", "p2", "p3", "p4", "p5"];

static TOKENS: [&str; 6] = ["t0", "t1", "t2", "t3", "t4", "t5"];

static PREFIXES: [&str; 6] = [
    "g.acme.p0",
    "g.acme.p1",
    "g.acme.p2",
    "g.acme.p3",
    "g.acme.p4",
    "g.acme.p5",
];

static ADDRESSES: [&str; 6] = [
    "g.acme.p0.x",
    "g.acme.p1.x",
    "g.acme.p2.x",
    "g.acme.p3.x",
    "g.acme.p4.x",
    "g.acme.p5.x",
];

// The setup of each first book, up to how many places its journal has.
const SETUP: &str =
    "version = 2\nstart = 1893456000000\n[[tenant]]\nname = \"acme\"\naddress = \"g.acme\"\n\
admin = \"root\"\nmargin = 1000\nhold = 5000\njournal = ";

// The SHA-256 of 32 zero bytes.
const CONDITION: [u8; 32] = [
    0x66, 0x68, 0x7a, 0xad, 0xf8, 0x62, 0xbd, 0x77, 0x6c, 0x8f, 0xc1, 0x8b, 0x8e, 0x9f, 0x8e, 0x20,
    0x08, 0x97, 0x14, 0x85, 0x6e, 0xe2, 0x33, 0xb3, 0x90, 0x2a, 0x59, 0x1d, 0x0d, 0x5f, 0x29, 0x25,
];

static JOURNALS: [u64; 6] = [4, 9, 30, 64, 120, 400];

/// The state of a random list.
#[derive(Drop)]
struct Course {
    book: Book,
    chain: Chain,
    count: Count,
    draws: Draws,
    clock: u64,
    begun: u64,
}

/// The counts of all rounds.
#[derive(Clone, Copy)]
pub struct Played {
    pub periods: u64,
    pub entries: u64,
    pub begun: u64,
}

fn setup_in(alloc: Global, text: &str) -> Result<Setup, Fault> {
    match read_setup(alloc, text.as_bytes()) {
        Ok(setup) => Ok(setup),
        Err(ReadError::Memory) => Err(Fault::Memory),
        Err(ReadError::Fault(_)) => Err(Fault::Book),
    }
}

// The book and the chain of a setup's tenant.
fn begin(alloc: Global, chain: &mut Chain, setup: &Setup) -> Result<Book, Fault> {
    let Some(tenant) = setup.tenants.as_slice().first() else {
        return Err(Fault::Book);
    };
    match chain.begin(alloc, 0, tenant, setup.start) {
        Ok(()) => Ok(Book::new(alloc, 0, tenant, setup.start)?),
        Err(ReadError::Memory) => Err(Fault::Memory),
        Err(ReadError::Fault(_)) => Err(Fault::Book),
    }
}

fn course_of(alloc: Global, mut draws: Draws) -> Result<Course, Fault> {
    let journal = JOURNALS.get(draws.below(6) as usize).copied().unwrap_or(64);
    let journal = journal.to_string(alloc)?;
    let text = [SETUP, journal.as_str(), "\n"].concat(alloc)?;
    let mut chain = Chain::new(alloc);
    let book = begin(alloc, &mut chain, &setup_in(alloc, text.as_str())?)?;
    Ok(Course {
        book,
        chain,
        count: Count::new(alloc),
        draws,
        clock: START,
        begun: 0,
    })
}

fn moment_at(millis: u64) -> Result<Moment, Fault> {
    Moment::new(millis).ok_or(Fault::Book)
}

// The word of that slot.
fn word_of(words: &[&'static str; 6], slot: u64) -> &'static str {
    words.get(slot as usize).copied().unwrap_or("")
}

// The destination of a packet: a peer's address, or another.
fn destination_of(draws: &mut Draws, to: u64) -> &'static str {
    match draws.below(16) {
        0 => "peer.config",
        1 => "g.acme",
        _ => word_of(&ADDRESSES, to),
    }
}

// The words of a command, and then these numbers.
fn words_of(alloc: Global, parts: &[&str], numbers: &[u64]) -> Result<String, AllocError> {
    let mut words = parts.concat(alloc)?;
    for number in numbers {
        let digits = number.to_string(alloc)?;
        put(&mut words, &[" ", digits.as_str()])?;
    }
    Ok(words)
}

// The words of an order, and of whom it is.
#[derive(Drop)]
struct Asked {
    words: String,
    slot: u64,
    ask: Ask,
}

#[derive(Clone, Copy)]
enum Ask {
    Add,
    Remove,
    AddRoute(Option<u64>, u64),
    RemoveRoute(Option<u64>),
    Settle(Side, u64),
    Other,
}

fn prefix_of(prefix: Option<u64>) -> &'static str {
    match prefix {
        Some(slot) => word_of(&PREFIXES, slot),
        None => "*",
    }
}

fn add_words(alloc: Global, draws: &mut Draws, slot: u64) -> Result<String, AllocError> {
    let role = if draws.is_one_in(3) { "child" } else { "peer" };
    let numbers = [
        draws.between(500, 3_000),
        draws.between(2_000, 20_000),
        draws.between(2_000, 20_000),
        draws.between(1, 8),
        draws.below(30),
    ];
    let (peer, token) = (word_of(&PEERS, slot), word_of(&TOKENS, slot));
    let parts = [
        "peer add ",
        peer,
        " ",
        role,
        " ",
        token,
        " http://127.0.0.1/ out USD 2",
    ];
    words_of(alloc, &parts, &numbers)
}

fn limits_words(alloc: Global, draws: &mut Draws, slot: u64) -> Result<String, AllocError> {
    let numbers = [
        draws.between(500, 3_000),
        draws.between(2_000, 20_000),
        draws.between(2_000, 20_000),
    ];
    words_of(alloc, &["peer limits ", word_of(&PEERS, slot)], &numbers)
}

fn bucket_words(alloc: Global, draws: &mut Draws, slot: u64) -> Result<String, AllocError> {
    let numbers = [draws.between(1, 8), draws.below(30)];
    words_of(alloc, &["peer bucket ", word_of(&PEERS, slot)], &numbers)
}

fn rate_words(alloc: Global, draws: &mut Draws, slot: u64) -> Result<String, AllocError> {
    let other = draws.below(SLOTS);
    let numbers = [draws.between(1, 4), draws.between(1, 4)];
    let (from, to) = (word_of(&PEERS, slot), word_of(&PEERS, other));
    words_of(alloc, &["rate set ", from, " ", to], &numbers)
}

// A settlement: mostly what the peer owes or is owed.
fn settlement_of(
    alloc: Global,
    draws: &mut Draws,
    slot: u64,
    owed: i128,
) -> Result<(String, Ask), Fault> {
    let amount = u64::try_from(owed.unsigned_abs()).unwrap_or(0);
    let (side, amount) = if draws.is_one_in(3) || amount == 0 {
        let side = if draws.is_one_in(2) {
            Side::In
        } else {
            Side::Out
        };
        (side, draws.between(1, 3_000))
    } else {
        (if owed > 0 { Side::In } else { Side::Out }, amount)
    };
    let word = match side {
        Side::In => "in",
        Side::Out => "out",
    };
    let words = words_of(
        alloc,
        &["settle ", word, " ", word_of(&PEERS, slot)],
        &[amount],
    )?;
    Ok((words, Ask::Settle(side, amount)))
}

// The prefix of a slot, or at times the empty one.
fn prefix_for(draws: &mut Draws, slot: u64) -> Option<u64> {
    if draws.is_one_in(6) { None } else { Some(slot) }
}

fn route_of(alloc: Global, draws: &mut Draws, slot: u64) -> Result<(String, Ask), Fault> {
    let prefix = prefix_for(draws, slot);
    let text = prefix_of(prefix);
    if draws.is_one_in(4) {
        let words = words_of(alloc, &["route remove ", text], &[])?;
        return Ok((words, Ask::RemoveRoute(prefix)));
    }
    let fee = draws.below(40);
    let parts = ["route add ", text, " ", word_of(&PEERS, slot)];
    Ok((words_of(alloc, &parts, &[fee])?, Ask::AddRoute(prefix, fee)))
}

// The text of the receipts of all records is valid, and complete if the period is a first one: a later one alone has a gap before
// it.
fn expect_complete(alloc: Global, period: &Period) -> Result<(), Fault> {
    let closed = slice::from_ref(period);
    let text = receipts_of(alloc, closed)?;
    let is_first = period.number() == 0;
    match check_receipts(alloc, closed, text.as_slice()) {
        Ok(audited) if is_first && audited.receipts == period.len() => Ok(()),
        Err(ReceiptsFault::Audit(AuditFault::Gap)) if !is_first => Ok(()),
        _ => Err(Fault::Refused),
    }
}

impl Course {
    fn tick_on(&mut self) -> u64 {
        let now = match self.draws.below(100) {
            0 => self.clock.saturating_add(6_000),
            1..=10 => self.clock.saturating_sub(self.draws.below(300)),
            _ => self.clock.saturating_add(self.draws.below(80)),
        };
        self.clock = self.clock.max(now);
        now
    }

    fn send(&mut self) -> Result<(), Fault> {
        let now = moment_at(self.tick_on())?;
        let (from, to) = (self.draws.below(SLOTS), self.draws.below(SLOTS));
        let destination = destination_of(&mut self.draws, to);
        let amount = if self.draws.is_one_in(8) {
            0
        } else {
            self.draws.below(3_200)
        };
        let expiry = self.clock.saturating_add(self.draws.between(500, 8_000));
        let Ok(address) = Address::parse(destination.as_bytes()) else {
            return Err(Fault::Book);
        };
        let key = PrepareKey {
            amount,
            expiry: Expiry::new(expiry).ok_or(Fault::Book)?,
            condition: &CONDITION,
            destination: &address,
        };
        match self
            .book
            .decide(word_of(&TOKENS, from).as_bytes(), &key, now)
        {
            Verdict::Unknown | Verdict::NoRoom => {}
            Verdict::Forward {
                hold,
                peer,
                amount: price,
                ..
            } => {
                self.count.came(from);
                self.count.went((from, to), (hold, peer), (amount, price))?;
            }
            _ => self.count.came(from),
        }
        Ok(())
    }

    fn key(&mut self) -> AnswerKey {
        match self.draws.below(8) {
            0 => AnswerKey::Fulfilled([1; 32]),
            1 => AnswerKey::Rejected,
            2 => AnswerKey::Fault,
            _ => AnswerKey::Fulfilled([0; 32]),
        }
    }

    fn answer(&mut self, hold: u64) -> Result<(), Fault> {
        let now = moment_at(self.tick_on())?;
        let key = self.key();
        if let Ok(verdict) = self.book.answer(hold, now, key) {
            let is_fulfilled = verdict.is_relay() && key.is_fulfill();
            self.count.answered(hold, is_fulfilled);
        }
        Ok(())
    }

    // Some hold, mostly one that awaits its answer.
    fn hold(&mut self) -> u64 {
        let count = self.count.awaited.len();
        let place = self.draws.below(count as u64) as usize;
        match self.count.awaited.get(place) {
            Some(sent) if !self.draws.is_one_in(16) => sent.hold,
            _ => self.draws.below(100),
        }
    }

    fn tick(&mut self) -> Result<(), Fault> {
        let now = moment_at(self.tick_on())?;
        if self.book.tick(now).is_ok() {
            self.count.enter();
        }
        Ok(())
    }

    fn asked(&mut self, alloc: Global) -> Result<Asked, Fault> {
        let slot = self.draws.below(SLOTS);
        let draws = &mut self.draws;
        let (words, ask) = match draws.below(20) {
            0..=3 => (add_words(alloc, draws, slot)?, Ask::Add),
            4 | 5 => {
                let parts = ["peer remove ", word_of(&PEERS, slot)];
                (words_of(alloc, &parts, &[])?, Ask::Remove)
            }
            6 => (limits_words(alloc, draws, slot)?, Ask::Other),
            7 => (bucket_words(alloc, draws, slot)?, Ask::Other),
            8..=11 => route_of(alloc, draws, slot)?,
            12..=15 => (rate_words(alloc, draws, slot)?, Ask::Other),
            _ => settlement_of(alloc, draws, slot, self.count.owed_by(slot))?,
        };
        Ok(Asked { words, slot, ask })
    }

    fn done(&mut self, asked: &Asked) -> Result<(), Fault> {
        self.count.enter();
        let slot = asked.slot;
        match asked.ask {
            Ask::Add => self.count.add_peer(slot)?,
            Ask::Remove => self.count.remove_peer(slot),
            Ask::AddRoute(prefix, fee) => {
                self.count.routes.push(Led { prefix, slot, fee })?;
            }
            Ask::RemoveRoute(prefix) => self.count.routes.retain(|led| led.prefix != prefix),
            Ask::Settle(side, amount) => self.count.settled(slot, side, amount),
            Ask::Other => {}
        }
        Ok(())
    }

    fn order(&mut self, alloc: Global) -> Result<(), Fault> {
        let now = moment_at(self.tick_on())?;
        let asked = self.asked(alloc)?;
        match parse_command(alloc, asked.words.as_bytes()) {
            Ok(command) => self.order_by(alloc, &asked, &command, now),
            // a rate of a peer to itself
            Err(ReadError::Fault(_)) => Ok(()),
            Err(ReadError::Memory) => Err(Fault::Memory),
        }
    }

    fn order_by(
        &mut self,
        alloc: Global,
        asked: &Asked,
        command: &Command,
        now: Moment,
    ) -> Result<(), Fault> {
        match self.book.command(alloc, command, now) {
            Ok(_) => self.done(asked),
            Err(CommandFault::Memory) => Err(Fault::Memory),
            Err(_) => Ok(()),
        }
    }

    // The period that is closed: each packet has its answer before.
    fn rolled(&mut self, alloc: Global) -> Result<Period, Fault> {
        for _ in 0..self.count.awaited.len() {
            if let Some(sent) = self.count.awaited.first() {
                let hold = sent.hold;
                self.answer(hold)?;
            }
        }
        let now = moment_at(self.tick_on())?;
        match self.book.command(alloc, &Command::Roll, now) {
            Ok(Answered::Rolled(period)) => Ok(period),
            Err(CommandFault::Memory) => Err(Fault::Memory),
            _ => Err(Fault::Book),
        }
    }

    fn roll(&mut self, alloc: Global) -> Result<(), Fault> {
        let period = self.rolled(alloc)?;
        self.count.enter();
        self.count.periods = self.count.periods.saturating_add(1);
        expect_complete(alloc, &period)?;
        self.state(alloc, &period)
    }

    // The statement of the period goes on with the chain.
    fn state(&mut self, alloc: Global, period: &Period) -> Result<(), Fault> {
        let text = write_statement(alloc, period)?;
        match self.chain.add(alloc, text.as_slice()) {
            Ok(()) => Ok(()),
            Err(ReadError::Memory) => Err(Fault::Memory),
            Err(ReadError::Fault(_)) => Err(Fault::Book),
        }
    }

    // The text of the setup that the service would tell.
    fn setup_text(&self, alloc: Global) -> Result<String, Fault> {
        let admin = Token::new(b"root").ok_or(Fault::Book)?;
        let start = moment_at(self.clock.saturating_add(1))?;
        let tenants = [self.book.present_setup(alloc, admin)?];
        Ok(write_setup(alloc, start, &tenants)?)
    }

    // The service begins again, from the text of the setup that the one before it would tell.
    fn begin_again(&mut self, alloc: Global) -> Result<(), Fault> {
        let text = self.setup_text(alloc)?;
        let setup = setup_in(alloc, text.as_str())?;
        self.book = begin(alloc, &mut self.chain, &setup)?;
        self.count.begun_again();
        self.begun = self.begun.saturating_add(1);
        Ok(())
    }

    fn step(&mut self, alloc: Global) -> Result<(), Fault> {
        match self.draws.below(1_000) {
            0..=519 => self.send(),
            520..=739 => {
                let hold = self.hold();
                self.answer(hold)
            }
            740..=769 => self.tick(),
            770..=979 => self.order(alloc),
            _ => {
                self.roll(alloc)?;
                if self.draws.is_one_in(8) {
                    self.begin_again(alloc)?;
                }
                Ok(())
            }
        }
    }

    // Whether the chain equals the count.
    fn is_counted(&self, alloc: Global) -> Result<bool, Fault> {
        let lines = lines_of(alloc, &self.count)?;
        match self.chain.summary(alloc) {
            Ok(text) => Ok(text.as_slice() == lines.as_bytes()),
            Err(ReadError::Memory) => Err(Fault::Memory),
            Err(ReadError::Fault(_)) => Ok(false),
        }
    }
}

// How many steps lead to a period at most, with a margin.
const STEPS: u64 = 2_000;

fn round(alloc: Global, round: u32, periods: u64) -> Result<Played, Fault> {
    let seed = u64::from(round).wrapping_mul(0x9e37_79b9_7f4a_7c15) ^ 0xbf58_476d_1ce4_e5b9;
    let mut course = course_of(alloc, Draws::new(seed))?;
    play_on(alloc, &mut course, round, periods)
}

fn play_on(alloc: Global, course: &mut Course, round: u32, periods: u64) -> Result<Played, Fault> {
    for _ in 0..periods.saturating_mul(STEPS) {
        if course.count.periods >= periods {
            break;
        }
        course.step(alloc)?;
    }
    if course.count.periods < periods || !course.is_counted(alloc)? {
        return Err(Fault::Counted(round));
    }
    Ok(Played {
        periods: course.count.periods,
        entries: course.count.entries,
        begun: course.begun,
    })
}

/// Plays so many rounds of so many periods.
pub fn play(alloc: Global, rounds: u32, periods: u32) -> Result<Played, Fault> {
    let mut all = Played {
        periods: 0,
        entries: 0,
        begun: 0,
    };
    for number in 0..rounds {
        let played = round(alloc, number, u64::from(periods))?;
        all.periods = all.periods.saturating_add(played.periods);
        all.entries = all.entries.saturating_add(played.entries);
        all.begun = all.begun.saturating_add(played.begun);
    }
    Ok(all)
}
