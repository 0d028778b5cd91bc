//! The service on loopback.

ghost use Rattle.std.specs.Prelude.{◌≤◌};
ghost use Rattle.allotment.specs.Loans.{max_places};
ghost use Rattle.books_shared.specs.Gathers.{max_workers};

mod breakers;
mod crowd;
mod edges;
mod host;
mod hurry;
mod neighbours;
mod operators;
mod patience;
mod periods;
pub mod wire;

use admin_text::{Setup, read_setup};
use books_shared::are_numbered;
use service::{Disk, Doors, Extent, Plan, Report, ServeFault, Start, serve};
use std::alloc::{AllocError, Global};
use std::io::{Read, Write};
use std::net::{Net, OpenListener, Shutdown, SocketAddr, TcpListener, TcpStream};
use std::process::Abort;
use std::sync::Wait;
use std::test::Fail;
use std::thread::{Threads, join};
use std::time::{Clock, Duration};
use std::{io, thread};
use tenant_core::Opening;
use wire::{
    FixedClock, good_reply, good_text, is_reply, is_text, one_tenant, packet_by, peer_answer,
    posted, request,
};

// A setup of one tenant that sends nothing on.
fn usual(alloc: Global) -> Result<String, Fail> {
    one_tenant(alloc, 7802, 400)
}

// A connection on which these bytes were sent, and no more will be.
fn sent(
    net: &impl Net<Stream = TcpStream>,
    addr: &SocketAddr,
    request: &[u8],
) -> io::Result<TcpStream> {
    let stream = TcpStream::connect_timeout(net, addr, Duration::from_secs(5))?;
    stream.set_read_timeout(Some(Duration::from_secs(20)))?;
    let mut out = &stream;
    out.write_all(request)?;
    stream.shutdown(Shutdown::Write)?;
    Ok(stream)
}

// All that comes back on it.
fn answer_of(alloc: Global, stream: &TcpStream) -> io::Result<Vec<u8>> {
    let mut answer = Vec::new(alloc);
    let mut input = stream;
    input.read_to_end(&mut answer)?;
    Ok(answer)
}

// All that comes back on a connection of its own for these bytes.
fn asked(
    net: &impl Net<Stream = TcpStream>,
    alloc: Global,
    addr: &SocketAddr,
    request: &[u8],
) -> io::Result<Vec<u8>> {
    let stream = sent(net, addr, request)?;
    answer_of(alloc, &stream)
}

// What each tenant of a setup begins with.
fn openings_of(alloc: Global, setup: &Setup) -> Result<Vec<Opening>, AllocError> {
    let mut openings = Vec::new(alloc);
    for (number, tenant) in setup.tenants.as_slice().iter().enumerate() {
        openings.push(Opening::first(alloc, number, tenant, setup.start)?)?;
    }
    Ok(openings)
}

// Serves the setup of that text.
fn serve_as<R>(
    rt: &R,
    text: &str,
    extent: Extent,
    report: Report,
    listener: &TcpListener,
    lines: &mut Vec<u8>,
) -> Result<(), ServeFault>
where
    R: Threads + Wait + Clock + Disk + AllocGlobal + Sync,
    R: Net<Listener = TcpListener, Stream = TcpStream>,
    requires workers { (1 ≤ extent.workers) × (extent.workers ≤ max_places) }
    requires connections { (1 ≤ extent.connections) × (extent.connections ≤ max_workers) }
{
    admin_text::laws::setups();
    let Ok(setup) = read_setup(rt.alloc(), text.as_bytes()) else {
        return Err(ServeFault::Device);
    };
    let openings = openings_of(rt.alloc(), &setup)?;
    let tenants = setup.tenants.as_slice().len();
    if openings.len() != tenants || !are_numbered(openings.as_slice()) {
        return Err(ServeFault::Device);
    }
    let start = Start {
        setup: &setup,
        openings: openings.as_slice(),
        journal: None,
    };
    serve(
        rt,
        rt.alloc(),
        start,
        Plan {
            extent,
            report,
            statements: None,
            roll_at: None,
            admin: true,
            breakers: true,
        },
        Doors {
            packets: listener,
            host: None,
            operators: None,
        },
        &FixedClock,
        lines,
    )
}

// One thread, for one connection.
const ALONE: Extent = Extent {
    workers: 1,
    connections: 1,
    rounds: Some(1),
};

// Only the lines of the tenants.
const NOTHING_MORE: Report = Report {
    balances: false,
    audit: false,
};

// An audit after them: of the entry of each packet and command, and of a roll of each tenant.
const AUDITED: Report = Report {
    balances: false,
    audit: true,
};

// Balances before them, and an audit after them.
const ALL: Report = Report {
    balances: true,
    audit: true,
};

// The outcome of requests to a service that serves the setup of that text, and what it prints at the end.
fn served_while<R, T, F>(
    rt: &R,
    text: &str,
    extent: Extent,
    report: Report,
    ask: F,
) -> Result<(T, Vec<u8>), Fail>
where
    R: Threads + Wait + Clock + Disk + AllocGlobal + Sync,
    R: Net<Listener = TcpListener, Stream = TcpStream>,
    T: Send + Drop,
    F: FnOnce(&SocketAddr) -> Result<T, Fail> + Send + Drop,
    requires workers { (1 ≤ extent.workers) × (extent.workers ≤ max_places) }
    requires connections { (1 ≤ extent.connections) × (extent.connections ≤ max_workers) }
    requires asks { (addr : _) → F.pre ask addr }
{
    let listener = TcpListener::bind(rt, "127.0.0.1:0")?;
    let addr = listener.local_addr()?;
    let mut lines = Vec::new(rt.alloc());
    let (end, came) = join(
        rt,
        ||
            requires workers { (1 ≤ extent.workers) × (extent.workers ≤ max_places) }
            requires connections { (1 ≤ extent.connections) × (extent.connections ≤ max_workers) }
        { serve_as(rt, text, extent, report, &listener, &mut lines) },
        || ask(&addr),
    );
    let came = came?;
    end?;
    Ok((came, lines))
}

// The answers of one worker to some requests, each on its own connection, and what the service prints at the end.
fn served<R>(
    rt: &R,
    setup: &str,
    report: Report,
    requests: &[Vec<u8>],
) -> Result<(Vec<Vec<u8>>, Vec<u8>), Fail>
where
    R: Threads + Wait + Clock + Disk + AllocGlobal + Sync,
    R: Net<Listener = TcpListener, Stream = TcpStream>,
{
    let extent = Extent {
        rounds: Some(requests.len().min(1000) as u32),
        ..ALONE
    };
    let ask = |addr: &SocketAddr| Ok(ask_all(rt, rt.alloc(), addr, requests)?);
    served_while(rt, setup, extent, report, ask)
}

fn ask_all(
    net: &impl Net<Stream = TcpStream>,
    alloc: Global,
    addr: &SocketAddr,
    requests: &[Vec<u8>],
) -> io::Result<Vec<Vec<u8>>> {
    let mut answers = Vec::new(alloc);
    for request in requests {
        answers.push(asked(net, alloc, addr, request.as_slice())?)?;
    }
    Ok(answers)
}

/// What the next peer does with a packet.
#[derive(Clone, Copy, Debug, PartialEq, Eq)]
enum Peer {
    Fulfils,
    Babbles,
    Drips,
}

// A byte each 20 milliseconds, so the whole answer within a second and a half.
fn drip(rt: &impl Clock, stream: &TcpStream, answer: &[u8]) -> io::Result<()> {
    for byte in answer {
        let mut out = stream;
        out.write_all(&[*byte])?;
        thread::sleep(rt, Duration::from_millis(20));
    }
    Ok(())
}

// The next connection, and the bytes that come on it first, so many.
fn next_request(
    alloc: Global,
    listener: &TcpListener,
    size: usize,
) -> io::Result<(TcpStream, Vec<u8>)> {
    let (stream, _) = listener.accept()?;
    stream.set_read_timeout(Some(Duration::from_secs(20)))?;
    let mut came = vec![in alloc; 0u8; size]?;
    let mut input = &stream;
    input.read_exact(came.as_mut_slice())?;
    Ok((stream, came))
}

// Takes one packet as such a peer, and says whether it was the expected one.
fn taken(
    rt: &(impl Clock + AllocGlobal),
    listener: &TcpListener,
    peer: Peer,
    wanted: &[u8],
    answer: &[u8],
) -> io::Result<bool> {
    let (stream, came) = next_request(rt.alloc(), listener, wanted.len())?;
    let mut out = &stream;
    match peer {
        Peer::Fulfils => out.write_all(answer)?,
        Peer::Babbles => out.write_all(b"HTTP/1.1 200 OK\r\nContent-Length: 5\r\n\r\nhello")?,
        Peer::Drips => {
            let _ = drip(rt, &stream, answer);
        }
    }
    Ok(came.as_slice() == wanted)
}

// A packet of alice's, and what the balances are afterwards.
fn packet_and_balances(alloc: Global, packet: &str) -> Result<Vec<Vec<u8>>, Fail> {
    let mut requests = Vec::new(alloc);
    requests.push(packet_by(alloc, "/ilp/acme", "tok-alice", packet)?)?;
    requests.push(request(alloc, "/admin/acme", "root", b"balances\n")?)?;
    Ok(requests)
}

// The answers to a packet and to `balances`, and what is printed at the end, with a peer that behaves like that.
// Packets are held for so many milliseconds at most.
fn with_peer<R>(
    rt: &R,
    peer: Peer,
    packet: &str,
    hold: u32,
) -> Result<(Vec<Vec<u8>>, Vec<u8>), Fail>
where
    R: Threads + Wait + Clock + Disk + AllocGlobal + Sync,
    R: Net<Listener = TcpListener, Stream = TcpStream>,
{
    let alloc = rt.alloc();
    let listener = TcpListener::bind(rt, "127.0.0.1:0")?;
    let port = listener.local_addr()?.port();
    let setup = one_tenant(alloc, port, hold)?;
    let wanted = posted(alloc, port, "{sent until 400 ms}")?;
    let requests = packet_and_balances(alloc, packet)?;
    let answer = peer_answer(alloc)?;
    let (answers, right) = join(
        rt,
        || served(rt, setup.as_str(), NOTHING_MORE, requests.as_slice()),
        || taken(rt, &listener, peer, wanted.as_slice(), answer.as_slice()),
    );
    let answers = answers?;
    if right? {
        Ok(answers)
    } else {
        Err("what the peer was sent".into())
    }
}

const NOTHING: &str = "acme balance alice 0 0 0\nacme balance bob 0 0 0\nacme ok\n";

/// The outcome of a packet of alice's: the reply to it, the balances after it, and what is printed at the end.
#[derive(Clone, Copy)]
struct Outcome {
    reply: &'static str,
    balances: &'static str,
    printed: &'static str,
}

const FULFILLED: Outcome = Outcome {
    reply: "{fulfill}",
    balances: "acme balance alice 1000 0 0\nacme balance bob -1500 0 0\nacme ok\n",
    printed: "acme 200 2 4xx 0 503 0 link 0\n",
};

// What the peer says is no answer.
const REFUSED: Outcome = Outcome {
    reply: "{T01}",
    balances: NOTHING,
    printed: "acme 200 2 4xx 0 503 0 link 0\n",
};

// The link to the peer fails.
const CUT: Outcome = Outcome {
    printed: "acme 200 2 4xx 0 503 0 link 1\n",
    ..REFUSED
};

fn expect(
    rt: &(impl Abort + AllocGlobal),
    came: (Vec<Vec<u8>>, Vec<u8>),
    wanted: &Outcome,
) -> Result<(), Fail> {
    let (answers, printed) = came;
    assert!(rt; printed.as_slice() == wanted.printed.as_bytes());
    expect_answers(rt, answers.as_slice(), wanted)
}

fn expect_answers(
    rt: &(impl Abort + AllocGlobal),
    answers: &[Vec<u8>],
    wanted: &Outcome,
) -> Result<(), Fail> {
    let [first, second] = answers else {
        return Err("two answers".into());
    };
    assert!(rt; is_reply(rt.alloc(), first.as_slice(), wanted.reply)?);
    assert!(rt; is_text(rt.alloc(), second.as_slice(), wanted.balances)?);
    Ok(())
}

#[test]
fn a_child_is_configured(rt: HostRuntime) -> Result<(), Fail> {
    let alloc = rt.alloc();
    let setup = usual(alloc)?;
    let mut requests = Vec::new(alloc);
    requests.push(packet_by(alloc, "/ilp/acme", "tok-bob", "{config}")?)?;
    let (answers, lines) = served(&rt, setup.as_str(), AUDITED, requests.as_slice())?;
    let wanted = good_reply(alloc, "{configuration of bob}")?;
    assert!(rt; answers.len() == 1);
    assert_eq!(rt; answers[0].as_slice(), wanted.as_slice());
    assert_eq!(rt;
        lines.as_slice(),
        b"acme 200 1 4xx 0 503 0 link 0\naudit ok 2\n".as_slice()
    );
    Ok(())
}

#[test]
fn a_peer_fulfils(rt: HostRuntime) -> Result<(), Fail> {
    let came = with_peer(&rt, Peer::Fulfils, "{base}", 400)?;
    expect(&rt, came, &FULFILLED)
}

#[test]
fn a_peer_babbles(rt: HostRuntime) -> Result<(), Fail> {
    let came = with_peer(&rt, Peer::Babbles, "{base}", 400)?;
    expect(&rt, came, &REFUSED)
}

#[test]
fn a_peer_drips_a_fulfill_past_the_hold(rt: HostRuntime) -> Result<(), Fail> {
    let came = with_peer(&rt, Peer::Drips, "{base}", 400)?;
    expect(&rt, came, &CUT)
}

// What goes on is the same, however long it may be held.
#[test]
fn a_peer_drips_a_fulfill_past_the_expiry(rt: HostRuntime) -> Result<(), Fail> {
    let came = with_peer(&rt, Peer::Drips, "{base until 1400 ms}", 30_000)?;
    expect(&rt, came, &CUT)
}

// A port at which nobody listens.
fn lonely_port(rt: &impl Net<Listener = TcpListener, Stream = TcpStream>) -> Result<u16, Fail> {
    let listener = TcpListener::bind(rt, "127.0.0.1:0")?;
    Ok(listener.local_addr()?.port())
}

#[test]
fn nobody_listens(rt: HostRuntime) -> Result<(), Fail> {
    let alloc = rt.alloc();
    let setup = one_tenant(alloc, lonely_port(&rt)?, 400)?;
    let requests = packet_and_balances(alloc, "{base}")?;
    let came = served(&rt, setup.as_str(), NOTHING_MORE, requests.as_slice())?;
    expect(&rt, came, &CUT)
}

// A request of acme's operator, and how its answer begins.
static COMMANDS: [(&str, &str, &str); 5] = [
    (
        "root",
        "peer remove alice",
        "HTTP/1.1 200 OK\r\nContent-Type: text/plain\r\nContent-Length: 8\r\n\r\nacme ok\n",
    ),
    (
        "root",
        "route remove g.acme.x\n",
        "HTTP/1.1 200 OK\r\nContent-Type: text/plain\r\nContent-Length: 20\r\n\r\nacme refused absent\n",
    ),
    ("root", "rates", "HTTP/1.1 400 Bad Request\r\n"),
    ("toor", "balances", "HTTP/1.1 401 Unauthorized\r\n"),
    ("tok-bob", "roll", "HTTP/1.1 401 Unauthorized\r\n"),
];

#[test]
fn operators_are_answered(rt: HostRuntime) -> Result<(), Fail> {
    let alloc = rt.alloc();
    let setup = usual(alloc)?;
    let mut requests = Vec::new(alloc);
    for (token, command, _) in COMMANDS {
        requests.push(request(alloc, "/admin/acme", token, command.as_bytes())?)?;
    }
    let (answers, lines) = served(&rt, setup.as_str(), NOTHING_MORE, requests.as_slice())?;
    assert!(rt; answers.len() == COMMANDS.len());
    for i in 0..COMMANDS.len() {
        let (_, _, begin) = COMMANDS[i];
        assert!(rt; answers[i].as_slice().starts_with(begin.as_bytes()), "{i}");
    }
    assert_eq!(rt;
        lines.as_slice(),
        b"acme 200 2 4xx 0 503 0 link 0\n".as_slice()
    );
    Ok(())
}

// What the head of a refused request states of its body, and how its answer begins.
static REFUSALS: [(&str, &str); 3] = [
    ("Content-Length: 2049", "HTTP/1.1 413 Content Too Large\r\n"),
    ("Content-Length: x", "HTTP/1.1 400 Bad Request\r\n"),
    ("Content-Length", "HTTP/1.1 400 Bad Request\r\n"),
];

// A request of acme's operator that is refused for its head, and whose body is a request that would be obeyed.
fn refused_request(alloc: Global, stated: &str) -> Result<Vec<u8>, Fail> {
    let head = [
        "POST /admin/acme HTTP/1.1\r\nAuthorization: Bearer root\r\n",
        stated,
        "\r\n\r\n",
    ]
    .concat(alloc)?;
    let mut whole = Vec::new(alloc);
    whole.extend_from_slice(head.as_bytes())?;
    let body = request(alloc, "/admin/acme", "root", b"peer remove alice")?;
    whole.extend_from_slice(body.as_slice())?;
    Ok(whole)
}

#[test]
fn the_body_of_a_refused_request_is_none(rt: HostRuntime) -> Result<(), Fail> {
    let alloc = rt.alloc();
    let setup = usual(alloc)?;
    let mut requests = Vec::new(alloc);
    for (stated, _) in REFUSALS {
        requests.push(refused_request(alloc, stated)?)?;
    }
    requests.push(request(alloc, "/admin/acme", "root", b"balances\n")?)?;
    let (answers, lines) = served(&rt, setup.as_str(), NOTHING_MORE, requests.as_slice())?;
    assert!(rt; answers.len() == REFUSALS.len() + 1);
    for i in 0..REFUSALS.len() {
        let (_, begin) = REFUSALS[i];
        assert!(rt; answers[i].as_slice().starts_with(begin.as_bytes()), "{i}");
    }
    let balances = good_text(alloc, NOTHING)?;
    assert_eq!(rt; answers[REFUSALS.len()].as_slice(), balances.as_slice());
    assert_eq!(rt;
        lines.as_slice(),
        b"acme 200 1 4xx 0 503 0 link 0\n".as_slice()
    );
    Ok(())
}

// What comes back for a request that is sent after a second.
fn asked_late(
    rt: &(impl Net<Stream = TcpStream> + Clock),
    alloc: Global,
    addr: &SocketAddr,
    request: &[u8],
) -> io::Result<Vec<u8>> {
    thread::sleep(rt, Duration::from_secs(1));
    asked(rt, alloc, addr, request)
}

#[test]
fn an_accept_that_fails_is_tried_again(rt: HostRuntime) -> Result<(), Fail> {
    let alloc = rt.alloc();
    let setup = usual(alloc)?;
    let request = request(alloc, "/admin/acme", "root", b"balances\n")?;
    let listener = TcpListener::bind(&rt, "127.0.0.1:0")?;
    let addr = listener.local_addr()?;
    listener.set_nonblocking(true)?;
    let mut lines = Vec::new(alloc);
    let (end, answer) = join(
        &rt,
        || serve_as(
            &rt,
            setup.as_str(),
            ALONE,
            NOTHING_MORE,
            &listener,
            &mut lines,
        ),
        || asked_late(&rt, alloc, &addr, request.as_slice()),
    );
    let balances = good_text(alloc, NOTHING)?;
    assert_eq!(rt; answer?.as_slice(), balances.as_slice());
    assert!(rt; end == Err(ServeFault::Device));
    assert_eq!(rt;
        lines.as_slice(),
        b"acme 200 1 4xx 0 503 0 link 0\n".as_slice()
    );
    Ok(())
}
