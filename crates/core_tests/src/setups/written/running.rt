//! The setup of a running book: what is written of it after each of some steps, and the book that begins with it.

use super::texts::{
    Dealings, PeerLines, RateLines, RouteLines, TenantLines, push_head, push_tenant,
};
use super::written_again;
use admin_text::{parse_command, read_setup, write_setup};
use common_types::Token;
use ilp_addr::{Address, Moment};
use std::alloc::Global;
use std::process::Abort;
use std::test::Fail;
use tenant_core::{
    AnswerKey, Answered, Book, Command, Expiry, PrepareKey, Row, TenantSetup, Verdict,
};
use test_texts::setup_with;

// 2030-01-01T00:00:00Z, when the usual setup starts.
const START: u64 = 1_893_456_000_000;

// The SHA-256 of 32 zero bytes, which is the condition that 32 zero bytes fulfill.
const CONDITION: [u8; 32] = [
    0x66, 0x68, 0x7a, 0xad, 0xf8, 0x62, 0xbd, 0x77, 0x6c, 0x8f, 0xc1, 0x8b, 0x8e, 0x9f, 0x8e, 0x20,
    0x08, 0x97, 0x14, 0x85, 0x6e, 0xe2, 0x33, 0xb3, 0x90, 0x2a, 0x59, 0x1d, 0x0d, 0x5f, 0x29, 0x25,
];

/// What is done to a book, a second after its start.
enum Step {
    /// A packet of alice's for bob, of that amount, goes on with the second one, and is held under the number.
    Send(u64, u64, u64),
    /// The packet that is held under the number is fulfilled.
    Fulfill(u64),
    /// An order is accepted.
    Order(&'static str),
    /// The period ends.
    Roll,
}

/// Steps, after those of the stages before; what is held after them from alice and for bob; and what is written then.
struct Stage {
    title: &'static str,
    steps: &'static [Step],
    held: (u64, u64),
    peers: &'static [PeerLines],
    rates: &'static [RateLines],
    routes: &'static [RouteLines],
}

const ACME: TenantLines<'static> = TenantLines {
    name: "acme",
    address: "g.acme",
    admin: "root-a",
    journal: 64,
    margin: 1_000,
    hold: 30_000,
};

const ALICE: PeerLines = PeerLines {
    name: "alice",
    role: "peer",
    token: "tok-alice",
    url: "http://127.0.0.1:7801/ilp",
    out_token: "out-alice",
    asset: "USD",
    scale: 2,
    cap: 1_000_000,
    ceiling: 1_000_000,
    credit: 1_000_000,
    burst: 100,
    per_second: 100,
    balance: 0,
};

const BOB: PeerLines = PeerLines {
    name: "bob",
    role: "child",
    token: "tok-bob",
    url: "http://127.0.0.1:7802/ilp",
    out_token: "out-bob",
    asset: "XRP",
    scale: 9,
    ..ALICE
};

const CAROL: PeerLines = PeerLines {
    name: "carol",
    role: "child",
    token: "tok-carol",
    url: "http://127.0.0.1:7803/ilp",
    out_token: "out-carol",
    asset: "EUR",
    scale: 0,
    cap: 11,
    ceiling: 12,
    credit: 13,
    burst: 14,
    per_second: 15,
    balance: 0,
};

const TO_BOB: RouteLines = RouteLines {
    prefix: "g.acme.bob",
    peer: "bob",
    fee: 0,
};

const TO_CAROL: RouteLines = RouteLines {
    prefix: "g.acme.carol",
    peer: "carol",
    fee: 5,
};

const ALICE_TO_BOB: RateLines = RateLines {
    from: "alice",
    to: "bob",
    num: 3,
    den: 2,
};

const ALICE_TO_CAROL: RateLines = RateLines {
    from: "alice",
    to: "carol",
    num: 2,
    den: 1,
};

const CAROL_TO_BOB: RateLines = RateLines {
    from: "carol",
    to: "bob",
    num: 1,
    den: 6,
};

// What is other of alice, bob and the rate between them from some stage on.
const ALICE_SETTLED: PeerLines = PeerLines {
    balance: 600,
    ..ALICE
};

const BOB_PAID: PeerLines = PeerLines {
    balance: -1_500,
    ..BOB
};

const BOB_LIMITED: PeerLines = PeerLines {
    cap: 2_000,
    ceiling: 3_000,
    credit: 4_000,
    burst: 5,
    per_second: 6,
    ..BOB_PAID
};

const ANEW: RateLines = RateLines {
    num: 7,
    den: 4,
    ..ALICE_TO_BOB
};

static STAGES: [Stage; 10] = [
    Stage {
        title: "nothing happened",
        steps: &[],
        held: (0, 0),
        peers: &[ALICE, BOB],
        rates: &[ALICE_TO_BOB],
        routes: &[TO_BOB],
    },
    Stage {
        title: "a packet awaits its answer: nothing of what is held is in the balances",
        steps: &[Step::Send(1_000, 1_500, 0)],
        held: (1_000, 1_500),
        peers: &[ALICE, BOB],
        rates: &[ALICE_TO_BOB],
        routes: &[TO_BOB],
    },
    Stage {
        title: "it is fulfilled",
        steps: &[Step::Fulfill(0)],
        held: (0, 0),
        peers: &[
            PeerLines {
                balance: 1_000,
                ..ALICE
            },
            BOB_PAID,
        ],
        rates: &[ALICE_TO_BOB],
        routes: &[TO_BOB],
    },
    Stage {
        title: "alice settles 400",
        steps: &[Step::Order("settle in alice 400")],
        held: (0, 0),
        peers: &[ALICE_SETTLED, BOB_PAID],
        rates: &[ALICE_TO_BOB],
        routes: &[TO_BOB],
    },
    Stage {
        title: "carol comes, with two rates and a route",
        steps: &[
            Step::Order(
                "peer add carol child tok-carol http://127.0.0.1:7803/ilp out-carol EUR 0 11 12 13 14 15",
            ),
            Step::Order("rate set carol bob 1 6"),
            Step::Order("rate set alice carol 2 1"),
            Step::Order("route add g.acme.carol carol 5"),
        ],
        held: (0, 0),
        peers: &[ALICE_SETTLED, BOB_PAID, CAROL],
        rates: &[ALICE_TO_BOB, CAROL_TO_BOB, ALICE_TO_CAROL],
        routes: &[TO_BOB, TO_CAROL],
    },
    Stage {
        title: "bob has other limits and another bucket",
        steps: &[
            Step::Order("peer limits bob 2000 3000 4000"),
            Step::Order("peer bucket bob 5 6"),
        ],
        held: (0, 0),
        peers: &[ALICE_SETTLED, BOB_LIMITED, CAROL],
        rates: &[ALICE_TO_BOB, CAROL_TO_BOB, ALICE_TO_CAROL],
        routes: &[TO_BOB, TO_CAROL],
    },
    Stage {
        title: "carol's route goes, and a rate is set anew",
        steps: &[
            Step::Order("route remove g.acme.carol"),
            Step::Order("rate set alice bob 7 4"),
        ],
        held: (0, 0),
        peers: &[ALICE_SETTLED, BOB_LIMITED, CAROL],
        rates: &[ANEW, CAROL_TO_BOB, ALICE_TO_CAROL],
        routes: &[TO_BOB],
    },
    Stage {
        title: "carol goes, and with her the rates that name her",
        steps: &[Step::Order("peer remove carol")],
        held: (0, 0),
        peers: &[ALICE_SETTLED, BOB_LIMITED],
        rates: &[ANEW],
        routes: &[TO_BOB],
    },
    Stage {
        title: "the period ends",
        steps: &[Step::Roll],
        held: (0, 0),
        peers: &[ALICE_SETTLED, BOB_LIMITED],
        rates: &[ANEW],
        routes: &[TO_BOB],
    },
    Stage {
        title: "a packet of the next period is fulfilled, and a second one awaits its answer",
        steps: &[
            Step::Send(1_000, 1_750, 1),
            Step::Fulfill(1),
            Step::Send(100, 175, 2),
        ],
        held: (100, 175),
        peers: &[
            PeerLines {
                balance: 1_600,
                ..ALICE
            },
            PeerLines {
                balance: -3_250,
                ..BOB_LIMITED
            },
        ],
        rates: &[ANEW],
        routes: &[TO_BOB],
    },
];

fn moment(millis: u64) -> Result<Moment, Fail> {
    Ok(Moment::new(millis).ok_or("a moment")?)
}

fn book_of(alloc: Global, tenant: &TenantSetup) -> Result<Book, Fail> {
    Ok(Book::new(alloc, 0, tenant, moment(START)?)?)
}

// The book of the one tenant of a setup.
fn begun(alloc: Global, text: &str) -> Result<Book, Fail> {
    let setup = read_setup(alloc, text.as_bytes())?;
    match setup.tenants.as_slice() {
        [tenant] => book_of(alloc, tenant),
        _ => Err("one tenant".into()),
    }
}

fn send(book: &mut Book, amount: u64) -> Result<Verdict, Fail> {
    let destination = Address::parse(b"g.acme.bob.x")?;
    let key = PrepareKey {
        amount,
        expiry: Expiry::new(START + 30_000).ok_or("an expiry")?,
        condition: &CONDITION,
        destination: &destination,
    };
    Ok(book.decide(b"tok-alice", &key, moment(START + 1_000)?))
}

fn fulfill(book: &mut Book, hold: u64) -> Result<Verdict, Fail> {
    let key = AnswerKey::Fulfilled([0; 32]);
    Ok(book.answer(hold, moment(START + 1_000)?, key)?)
}

fn command(alloc: Global, book: &mut Book, command: &Command) -> Result<Answered, Fail> {
    Ok(book.command(alloc, command, moment(START + 1_000)?)?)
}

fn order(alloc: Global, book: &mut Book, text: &str) -> Result<(), Fail> {
    let order = parse_command(alloc, text.as_bytes())?;
    match command(alloc, book, &order)? {
        Answered::Done => Ok(()),
        Answered::Balances(_) | Answered::Rolled(_) => Err("an order".into()),
    }
}

fn roll(alloc: Global, book: &mut Book) -> Result<(), Fail> {
    match command(alloc, book, &Command::Roll)? {
        Answered::Rolled(_) => Ok(()),
        Answered::Done | Answered::Balances(_) => Err("a period".into()),
    }
}

fn balances(alloc: Global, book: &mut Book) -> Result<Vec<Row>, Fail> {
    match command(alloc, book, &Command::Balances)? {
        Answered::Balances(rows) => Ok(rows.into_vec()),
        Answered::Done | Answered::Rolled(_) => Err("balances".into()),
    }
}

// What is held from alice and for bob.
fn held(book: &Book) -> Result<(u64, u64), Fail> {
    let alice = book.balance(0).ok_or("alice")?;
    let bob = book.balance(1).ok_or("bob")?;
    Ok((alice.held_in, bob.held_out))
}

fn present_setup(alloc: Global, book: &Book) -> Result<TenantSetup, Fail> {
    let admin = Token::new(b"root-a").ok_or("a token")?;
    Ok(book.present_setup(alloc, admin)?)
}

fn present_text(alloc: Global, book: &Book) -> Result<String, Fail> {
    let tenant = present_setup(alloc, book)?;
    Ok(write_setup(alloc, moment(START)?, &[tenant])?)
}

fn expect_done(rt: &impl Abort, alloc: Global, book: &mut Book, step: &Step) -> Result<(), Fail> {
    match *step {
        Step::Send(amount, sent, hold) => {
            let forwarded = Verdict::Forward {
                hold,
                peer: 1,
                amount: sent,
                expiry: START + 29_000,
            };
            assert!(rt; send(book, amount)? == forwarded, "hold {hold}");
            Ok(())
        }
        Step::Fulfill(hold) => {
            assert!(rt; fulfill(book, hold)? == Verdict::Relay, "hold {hold}");
            Ok(())
        }
        Step::Order(text) => order(alloc, book, text),
        Step::Roll => roll(alloc, book),
    }
}

fn expect_all_done(
    rt: &impl Abort,
    alloc: Global,
    book: &mut Book,
    stage: &Stage,
) -> Result<(), Fail> {
    for step in stage.steps {
        expect_done(rt, alloc, book, step)?;
    }
    assert!(rt; held(book)? == stage.held, "{}", stage.title);
    Ok(())
}

fn wanted_text(alloc: Global, stage: &Stage) -> Result<String, Fail> {
    let dealings = Dealings {
        peers: stage.peers,
        rates: stage.rates,
        routes: stage.routes,
    };
    let mut text = String::new(alloc);
    push_head(alloc, &mut text, START)?;
    push_tenant(alloc, &mut text, &ACME, &dealings)?;
    Ok(text)
}

// Whether the peer owes what a setup says, and nothing is held from it or for it.
fn owes_as_said(row: &Row, peer: &PeerLines) -> bool {
    row.name.as_bytes() == peer.name.as_bytes()
        && row.balance == peer.balance
        && row.held_in == 0
        && row.held_out == 0
}

fn expect_rows(rt: &impl Abort, rows: &[Row], stage: &Stage) {
    let title = stage.title;
    assert!(rt; rows.len() == stage.peers.len(), "{title}");
    for (row, peer) in rows.iter().zip(stage.peers) {
        assert!(rt; owes_as_said(row, peer), "{title}: {}", peer.name);
    }
}

// The book that begins with what was written owes what it says, and of it the same is written.
fn expect_begun(
    rt: &impl Abort,
    alloc: Global,
    book: &mut Book,
    text: &str,
    stage: &Stage,
) -> Result<(), Fail> {
    expect_rows(rt, balances(alloc, book)?.as_slice(), stage);
    assert!(rt;
        present_text(alloc, book)?.as_str() == text,
        "{}",
        stage.title
    );
    Ok(())
}

fn expect_next(rt: &impl Abort, alloc: Global, text: &str, stage: &Stage) -> Result<(), Fail> {
    let mut next = begun(alloc, text)?;
    expect_begun(rt, alloc, &mut next, text, stage)
}

fn expect_wanted(rt: &impl Abort, alloc: Global, text: &str, stage: &Stage) -> Result<(), Fail> {
    assert!(rt;
        wanted_text(alloc, stage)?.as_str() == text,
        "{}: {text}",
        stage.title
    );
    Ok(())
}

fn expect_again(rt: &impl Abort, alloc: Global, text: &str, stage: &Stage) -> Result<(), Fail> {
    assert!(rt;
        written_again(alloc, text)?.as_str() == text,
        "{}",
        stage.title
    );
    Ok(())
}

fn expect_text(rt: &impl Abort, alloc: Global, text: &str, stage: &Stage) -> Result<(), Fail> {
    expect_wanted(rt, alloc, text, stage)?;
    expect_again(rt, alloc, text, stage)?;
    expect_next(rt, alloc, text, stage)
}

fn expect_stage(
    rt: &impl Abort,
    alloc: Global,
    book: &mut Book,
    stage: &Stage,
) -> Result<(), Fail> {
    expect_all_done(rt, alloc, book, stage)?;
    let text = present_text(alloc, book)?;
    expect_text(rt, alloc, text.as_str(), stage)
}

fn expect_stages(
    rt: &impl Abort,
    alloc: Global,
    book: &mut Book,
    stages: &[Stage],
) -> Result<(), Fail> {
    for stage in stages {
        expect_stage(rt, alloc, book, stage)?;
    }
    Ok(())
}

fn usual_book(alloc: Global) -> Result<Book, Fail> {
    let usual = setup_with(alloc, &[])?;
    begun(alloc, usual.as_str())
}

#[test]
fn what_is_written_of_a_running_book_begins_one_like_it(rt: HostRuntime) -> Result<(), Fail> {
    let mut book = usual_book(rt.alloc())?;
    expect_stages(&rt, rt.alloc(), &mut book, &STAGES)
}
