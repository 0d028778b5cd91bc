//! Requests over HTTP that the books of two tenants answer, by one slot and a link over memory.

ghost use Rattle.std.specs.Prelude.{◌≡◌};

use super::devices::{Pieces, Taken};
use super::tenants::tenant_named;
use super::texts::joined;
use admin_text::{Setup, read_setup};
use floor_core::{LoadFault, Slot, Turn};
use http_link::{LinkFault, Served, Service, serve_one};
use ilp_addr::Moment;
use std::alloc::{AllocError, Global};
use std::test::Fail;
use tenant_core::Book;
use test_texts::{Line, frame, setup_with};

// The second tenant, one of whose peers has the token of the first one's, and the other not.
static BETA: [Line; 4] = [
    ("acme", "name", "'beta'"),
    ("acme", "address", "'g.beta'"),
    ("route", "prefix", "'g.beta.bob'"),
    ("bob", "token", "'tok-rob'"),
];

const CONFIG: &str = "0c460000000000000000{until 10 s}{condition}0b706565722e636f6e66696700";

const CHILD: &str = "0d31{31 zeros}00100a672e61636d652e626f620903585250";

// The usual setup, so changed.
fn setup_of(alloc: Global, changes: &[Line]) -> Result<Setup, Fail> {
    let text = setup_with(alloc, changes)?;
    Ok(read_setup(alloc, text.as_bytes())?)
}

// The setups of acme and beta.
fn two_setups(alloc: Global) -> Result<[Setup; 2], Fail> {
    Ok([setup_of(alloc, &[])?, setup_of(alloc, &BETA)?])
}

// The book of a setup's tenant, under that number.
fn book_of(alloc: Global, tenant: usize, setup: &Setup) -> Result<Book, Fail> {
    if tenant >= 64 {
        return Err(Fail::from("a tenant"));
    }
    let first = setup.tenants.as_slice().first().ok_or("a tenant")?;
    Ok(Book::new(alloc, tenant, first, setup.start)?)
}

/// A slot, the books of acme and beta, the moment, and what each next peer answers.
#[derive(Drop)]
struct Counter {
    alloc: Global,
    slot: Slot,
    books: [Book; 2],
    now: Moment,
    answer: Vec<u8>,
    body: Vec<u8>,
}

// The books of acme and beta.
fn two_books(alloc: Global, setups: &[Setup; 2]) -> Result<[Book; 2], Fail> {
    let [acme, beta] = setups;
    Ok([book_of(alloc, 0, acme)?, book_of(alloc, 1, beta)?])
}

// Takes in a packet. Returns the status if that is refused.
fn load(slot: &mut Slot, tenant: usize, token: &[u8], body: &[u8]) -> Option<u16> {
    match slot.load(tenant, token, body) {
        Ok(()) => None,
        Err(LoadFault::Bad(_)) => Some(400),
        Err(LoadFault::Token) => Some(401),
        Err(LoadFault::Busy) => Some(503),
    }
}

fn decide(slot: &mut Slot, book: &mut Book, now: Moment) -> Turn {
    slot.decide(book, now)
}

// What becomes of a packet that waits for an answer, once that has come back.
fn settle(slot: &mut Slot, book: &mut Book, now: Moment, answer: &[u8]) -> Option<Turn> {
    if slot.waiting().is_none() {
        return None;
    }
    let got = slot.fill(answer);
    Some(slot.answer(book, now, got))
}

impl Counter {
    fn new(alloc: Global, setups: &[Setup; 2], answer: &str) -> Result<Counter, Fail> {
        Ok(Counter {
            alloc,
            now: Moment::new(1_893_456_000_000).ok_or("a moment")?,
            body: Vec::new(alloc),
            answer: frame(alloc, answer)?,
            slot: Slot::new(alloc)?,
            books: two_books(alloc, setups)?,
        })
    }

    // What the slot and the book of the tenant make of a packet.
    fn turn(&mut self, tenant: usize) -> Turn {
        let Some(book) = self.books.get_mut(tenant) else {
            return Turn::Stray;
        };
        let turn = decide(&mut self.slot, book, self.now);
        settle(&mut self.slot, book, self.now, self.answer.as_slice()).unwrap_or(turn)
    }

    fn tell(&mut self) -> Result<u16, AllocError> {
        self.body = Vec::from_slice(self.alloc, self.slot.reply())?;
        Ok(200)
    }
}

impl Service for Counter {
    ghost use Rattle.connector_tests.specs.Tenants.{tenant_named};

    ghost asks = { λ old question new. Unit {0} };

    ghost tenant_of = { λ _ _ name. tenant_named name };

    ghost answer = { λ c. c.body.items };

    fn tenant(&self, name: &[u8]) -> Option<usize> {
        tenant_named(name)
    }

    fn commanded_tenant(&self, name: &[u8]) -> Option<usize> {
        self.tenant(name)
    }

    fn ilp(&mut self, tenant: usize, token: &[u8], body: &[u8]) -> u16 {
        if let Some(refusal) = load(&mut self.slot, tenant, token, body) {
            return refusal;
        }
        match self.turn(tenant) {
            Turn::Stranger => 401,
            Turn::Reply => self.tell().unwrap_or(503),
            Turn::Idle | Turn::Stray | Turn::Send { .. } => 503,
        }
    }

    fn admin(&mut self, tenant: usize, token: &[u8], body: &[u8]) -> u16 {
        401
    }

    fn body(&self) -> &[u8] {
        self.body.as_slice()
    }
}

const UNAUTHORIZED: &str =
    "HTTP/1.1 401 Unauthorized\r\nWWW-Authenticate: Bearer\r\nContent-Length: 0\r\n\r\n";

const BAD: &str = "HTTP/1.1 400 Bad Request\r\nContent-Length: 0\r\n\r\n";

// A packet and its reply are in hexadecimal digits and names of `test_texts`.
struct Exchange {
    path: &'static str,
    token: &'static str,
    packet: &'static str,
    // If the reply is empty, the whole answer, otherwise its head.
    head: &'static str,
    reply: &'static str,
    entries: [usize; 2],
}

static EXCHANGES: [Exchange; 7] = [
    Exchange {
        path: "/ilp/acme",
        token: "tok-bob",
        packet: CONFIG,
        head: "HTTP/1.1 200 OK\r\nContent-Type: application/octet-stream\r\nContent-Length: 51\r\n\r\n",
        reply: CHILD,
        entries: [1, 0],
    },
    Exchange {
        path: "/ilp/beta",
        token: "tok-bob",
        packet: CONFIG,
        head: UNAUTHORIZED,
        reply: "",
        entries: [0, 0],
    },
    Exchange {
        path: "/ilp/beta",
        token: "tok-rob",
        packet: CONFIG,
        head: "HTTP/1.1 200 OK\r\nContent-Type: application/octet-stream\r\nContent-Length: 51\r\n\r\n",
        reply: "0d31{31 zeros}00100a672e626574612e626f620903585250",
        entries: [0, 1],
    },
    Exchange {
        path: "/ilp/acme",
        token: "tok-bob",
        packet: "",
        head: BAD,
        reply: "",
        entries: [0, 0],
    },
    Exchange {
        path: "/ilp/acme",
        token: "tok-bob",
        packet: "{base cut}",
        head: BAD,
        reply: "",
        entries: [0, 0],
    },
    Exchange {
        path: "/ilp/acme",
        token: "tok-alice",
        packet: "{base}",
        head: "HTTP/1.1 200 OK\r\nContent-Type: application/octet-stream\r\nContent-Length: 35\r\n\r\n",
        reply: "{fulfill}",
        entries: [2, 0],
    },
    Exchange {
        path: "/ilp/acme",
        token: "tok-alice",
        packet: "{other}",
        head: "HTTP/1.1 200 OK\r\nContent-Type: application/octet-stream\r\nContent-Length: 25\r\n\r\n",
        reply: "{F02}",
        entries: [1, 0],
    },
];

fn request(alloc: Global, exchange: &Exchange) -> Result<Vec<u8>, Fail> {
    let body = frame(alloc, exchange.packet)?;
    let length = body.len().to_string(alloc)?;
    let mut stream = joined(alloc, &[b"POST ", exchange.path.as_bytes()])?;
    stream.extend_from_slice(b" HTTP/1.1\r\nAuthorization: Bearer ")?;
    stream.extend_from_slice(exchange.token.as_bytes())?;
    stream.extend_from_slice(b"\r\nContent-Length: ")?;
    stream.extend_from_slice(length.as_bytes())?;
    stream.extend_from_slice(b"\r\n\r\n")?;
    stream.extend_from_slice(body.as_slice())?;
    Ok(stream)
}

fn answer(alloc: Global, exchange: &Exchange) -> Result<Vec<u8>, Fail> {
    let reply = frame(alloc, exchange.reply)?;
    joined(alloc, &[exchange.head.as_bytes(), reply.as_slice()])
}

// What becomes of a connection with that stream, in two pieces, and what is written.
#[derive(Drop)]
struct Outcome {
    served: Result<Served, LinkFault>,
    text: Vec<u8>,
}

fn serve(alloc: Global, counter: &mut Counter, stream: &[u8], cut: usize) -> Result<Outcome, Fail> {
    let mut room = vec![in alloc; 0; 34_000]?;
    let mut reader = Pieces::cut_at(stream, cut);
    let mut writer = Taken::whole(alloc);
    let served = serve_one(&mut reader, &mut writer, counter, &mut room);
    Ok(Outcome {
        served,
        text: writer.bytes,
    })
}

// Whether the books of acme and beta have so many entries.
fn have_entries(counter: &Counter, entries: [usize; 2]) -> bool {
    let [acme, beta] = &counter.books;
    [acme.entries(), beta.entries()] == entries
}

// Whether the request, cut there, is answered as the exchange says.
fn is_answered(
    alloc: Global,
    setups: &[Setup; 2],
    exchange: &Exchange,
    request: &[u8],
    answer: &[u8],
    cut: usize,
) -> Result<bool, Fail> {
    let mut counter = Counter::new(alloc, setups, "{fulfill}")?;
    let outcome = serve(alloc, &mut counter, request, cut)?;
    Ok(
        outcome.served == Ok(Served::Kept)
            && outcome.text.as_slice() == answer
            && have_entries(&counter, exchange.entries),
    )
}

// Whether it is, however it is cut.
fn is_answered_in_pieces(
    alloc: Global,
    setups: &[Setup; 2],
    exchange: &Exchange,
) -> Result<bool, Fail> {
    let request = request(alloc, exchange)?;
    let answer = answer(alloc, exchange)?;
    for cut in 0..=request.len() {
        if !is_answered(
            alloc,
            setups,
            exchange,
            request.as_slice(),
            answer.as_slice(),
            cut,
        )? {
            return Ok(false);
        }
    }
    Ok(true)
}

#[test]
fn packets_are_posted(rt: HostRuntime) -> Result<(), Fail> {
    let setups = two_setups(rt.alloc())?;
    for (i, exchange) in EXCHANGES.iter().enumerate() {
        assert!(rt;
            is_answered_in_pieces(rt.alloc(), &setups, exchange)?,
            "{i}"
        );
    }
    Ok(())
}

// Whether no front of a request is served, and the books have no entries at the end.
fn no_front_is_served(alloc: Global, exchange: &Exchange) -> Result<bool, Fail> {
    let request = request(alloc, exchange)?;
    let mut counter = Counter::new(alloc, &two_setups(alloc)?, "{fulfill}")?;
    let ends = ends_before(alloc, &mut counter, request.as_slice())?;
    Ok(ends && have_entries(&counter, [0, 0]))
}

// Whether none is served by this counter.
fn ends_before(alloc: Global, counter: &mut Counter, request: &[u8]) -> Result<bool, Fail> {
    for end in 0..request.len() {
        let (front, _) = request.split_at(end);
        let outcome = serve(alloc, counter, front, end)?;
        if outcome.served != Ok(Served::Ended) || !outcome.text.is_empty() {
            return Ok(false);
        }
    }
    Ok(true)
}

#[test]
fn packets_that_do_not_come_whole(rt: HostRuntime) -> Result<(), Fail> {
    assert!(rt; no_front_is_served(rt.alloc(), &EXCHANGES[5])?);
    Ok(())
}

// The answer of the next peer, and the reply to the sender.
static ANSWERS: [(&str, &str); 4] = [
    ("{fulfill}", "{fulfill}"),
    ("0d21{31 zeros}00", "{T01}"),
    ("0d", "{T01}"),
    ("", "{T01}"),
];

// Whether the sender of a request gets that reply, if the next peer gives that answer.
fn is_told(alloc: Global, request: &[u8], given: &str, told: &str) -> Result<bool, Fail> {
    let mut counter = Counter::new(alloc, &two_setups(alloc)?, given)?;
    let outcome = serve(alloc, &mut counter, request, 0)?;
    let reply = frame(alloc, told)?;
    Ok(
        outcome.served == Ok(Served::Kept)
            && outcome.text.as_slice().ends_with(reply.as_slice())
            && counter.body.as_slice() == reply.as_slice()
            && have_entries(&counter, [2, 0]),
    )
}

#[test]
fn answers_of_the_next_peer(rt: HostRuntime) -> Result<(), Fail> {
    let stream = request(rt.alloc(), &EXCHANGES[5])?;
    for (i, (given, told)) in ANSWERS.iter().enumerate() {
        assert!(rt; is_told(rt.alloc(), stream.as_slice(), given, told)?, "{i}");
    }
    Ok(())
}
