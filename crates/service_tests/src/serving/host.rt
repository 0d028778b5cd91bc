//! The host's door: its answers, and a stop while clients send.

use super::crowd::{Exchange, beside_peer, both_exchanges, connected, is_told, setup_text};
use super::wire::{FixedClock, is_reply, packet_by, request};
use super::{NOTHING_MORE, asked, openings_of};
use admin_text::read_setup;
use books_shared::are_numbered;
use common_types::Token;
use service::{
    Disk, Doors, Extent, HostDoor, OperatorDoor, Plan, Report, ServeFault, Start, serve,
};
use std::alloc::Global;
use std::net::{Net, OpenListener, SocketAddr, TcpListener, TcpStream};
use std::process::Abort;
use std::sync::Wait;
use std::sync::atomic::{AtomicU64, Ordering};
use std::test::Fail;
use std::thread::{Threads, join};
use std::time::Clock;
use std::{io, thread};
use test_texts::replaced;

pub const HEALTH: &[u8] = b"GET /health HTTP/1.1\r\n\r\n";

pub const METRICS: &[u8] = b"GET /metrics HTTP/1.1\r\nAuthorization: Bearer host\r\n\r\n";

const SETUP: &[u8] = b"GET /setup HTTP/1.1\r\nAuthorization: Bearer host\r\n\r\n";

pub const STOP: &[u8] = b"POST /stop HTTP/1.1\r\nAuthorization: Bearer host\r\n\r\n";

// Under another token.
const STRANGER: &[u8] = b"POST /stop HTTP/1.1\r\nAuthorization: Bearer root\r\n\r\n";

pub const UNAUTHORIZED: &[u8] =
    b"HTTP/1.1 401 Unauthorized\r\nWWW-Authenticate: Bearer\r\nContent-Length: 0\r\nConnection: close\r\n\r\n";

const UNAUTHORIZED_HEAD: &[u8] = b"HTTP/1.1 401 Unauthorized\r\n";

pub const HEALTHY: &[u8] =
    b"HTTP/1.1 200 OK\r\nContent-Type: text/plain\r\nContent-Length: 3\r\nConnection: close\r\n\r\nok\n";

/// Where statements are kept, if they are.
pub const KEPT: &str = "kept";

/// Whether commands come where packets come, whether operators have a door, what is printed at the end, whether statements are kept,
/// and when periods close by themselves.
#[derive(Clone, Copy)]
pub struct Manner {
    pub admin: bool,
    pub has_operators: bool,
    pub report: Report,
    pub keeps: bool,
    pub roll_at: Option<u8>,
}

/// Without a door of operators.
pub const DOORLESS: Manner = Manner {
    admin: true,
    has_operators: false,
    report: NOTHING_MORE,
    keeps: false,
    roll_at: None,
};

/// The doors of packets, of the host, and of operators, if they have one.
#[derive(Clone, Copy)]
pub struct Listeners<'a> {
    pub packets: &'a TcpListener,
    pub host: &'a TcpListener,
    pub operators: Option<&'a TcpListener>,
}

/// Serves the setup of that text at these doors.
pub fn serve_with_host<R>(
    rt: &R,
    text: &str,
    at: Listeners<'_>,
    manner: Manner,
    lines: &mut Vec<u8>,
) -> Result<(), ServeFault>
where
    R: Threads + Wait + Clock + Disk + AllocGlobal + Sync,
    R: Net<Listener = TcpListener, Stream = TcpStream>,
{
    admin_text::laws::setups();
    let (Ok(setup), Some(token)) = (read_setup(rt.alloc(), text.as_bytes()), Token::new(b"host"))
    else {
        return Err(ServeFault::Device);
    };
    let Ok(host) = HostDoor::new(at.host, &token, at.packets) else {
        return Err(ServeFault::Device);
    };
    let operators = match at.operators {
        Some(listener) => OperatorDoor::new(listener).ok(),
        None => None,
    };
    let extent = Extent {
        workers: 4,
        connections: 8,
        rounds: None,
    };
    let plan = Plan {
        extent,
        report: manner.report,
        statements: if manner.keeps { Some(KEPT) } else { None },
        roll_at: manner.roll_at,
        admin: manner.admin,
        breakers: true,
    };
    let doors = Doors {
        packets: at.packets,
        host: Some(host),
        operators,
    };
    let openings = openings_of(rt.alloc(), &setup)?;
    let tenants = setup.tenants.as_slice().len();
    if openings.len() != tenants || !are_numbered(openings.as_slice()) {
        return Err(ServeFault::Device);
    }
    let start = Start {
        setup: &setup,
        openings: openings.as_slice(),
        journal: None,
    };
    serve(rt, rt.alloc(), start, plan, doors, &FixedClock, lines)
}

/// What the setup of two tenants is, whose peers owe that.
fn standing_text(alloc: Global, port: u16, acme: u64, beta: u64) -> Result<String, Fail> {
    let acme = tenant_standing(alloc, "acme", port, acme)?;
    let beta = tenant_standing(alloc, "beta", port, beta)?;
    Ok([
        "start = 1893456000000\nversion = 2\n",
        acme.as_str(),
        beta.as_str(),
    ]
    .concat(alloc)?)
}

// A tenant as it is written, with a bar at the end of each line.
const WRITTEN: &str = "\
|[[tenant]]|address = 'g.{name}'|admin = 'root'|hold = 30000|journal = 2048|margin = 1000|name = '{name}'|\
|[[tenant.peer]]|asset = 'USD'|balance = {alice}|burst = 1000000|cap = 1000000|ceiling = 1000000000|\
credit = 1000000000|name = 'alice'|out_token = 'out-alice'|per_second = 1000000|role = 'peer'|scale = 2|\
token = 'tok-alice'|url = 'http://127.0.0.1:7801/ilp'|\
|[[tenant.peer]]|asset = 'XRP'|balance = {sign}{bob}|burst = 1000000|cap = 1000000|ceiling = 1000000000|\
credit = 1000000000|name = 'bob'|out_token = 'out-bob'|per_second = 1000000|role = 'child'|scale = 9|\
token = 'tok-bob'|url = 'http://127.0.0.1:{port}/ilp'|\
|[[tenant.rate]]|den = 2|from = 'alice'|num = 3|to = 'bob'|\
|[[tenant.route]]|fee = 0|peer = 'bob'|prefix = 'g.{name}.bob'|";

// A tenant of which so many packets of 1,000 units were fulfilled, for 1,500 each.
fn tenant_standing(alloc: Global, name: &str, port: u16, packets: u64) -> Result<String, Fail> {
    let alice = number(alloc, packets.saturating_mul(1_000))?;
    let bob = number(alloc, packets.saturating_mul(1_500))?;
    let sign = if packets == 0 { "" } else { "-" };
    let port = number(alloc, u64::from(port))?;
    let text = WRITTEN.replace(alloc, "{name}", name)?;
    let values = [
        ("|", "\n"),
        ("'", "\""),
        ("{alice}", alice.as_str()),
        ("{sign}", sign),
        ("{bob}", bob.as_str()),
        ("{port}", port.as_str()),
    ];
    Ok(replaced(alloc, text.as_str(), &values)?)
}

// A number in decimal digits.
fn number(alloc: Global, number: u64) -> Result<String, Fail> {
    Ok(number.to_string(alloc)?)
}

// An answer of status 200 at the host's door with that setup.
fn told_setup(alloc: Global, text: &str) -> Result<Vec<u8>, Fail> {
    let size = text.len().to_string(alloc)?;
    let whole = [
        "HTTP/1.1 200 OK\r\nContent-Type: application/toml\r\nContent-Length: ",
        size.as_str(),
        "\r\nConnection: close\r\n\r\n",
        text,
    ]
    .concat(alloc)?;
    Ok(whole.into_bytes())
}

/// The addresses for packets, for the host and for operators.
#[derive(Clone, Copy)]
pub struct Addresses {
    pub packets: SocketAddr,
    pub host: SocketAddr,
    pub operators: SocketAddr,
}

/// The outcome of requests to a service with a host's door, for the setup of that text, and what it prints at the end.
pub fn served_with_host<R, T, F>(
    rt: &R,
    text: &str,
    manner: Manner,
    ask: F,
) -> Result<(T, Vec<u8>), Fail>
where
    R: Threads + Wait + Clock + Disk + AllocGlobal + Sync,
    R: Net<Listener = TcpListener, Stream = TcpStream>,
    T: Send + Drop,
    F: FnOnce(Addresses) -> Result<T, Fail> + Send + Drop,
    requires asks { (to : _) → F.pre ask to }
{
    let packets = TcpListener::bind(rt, "127.0.0.1:0")?;
    let host = TcpListener::bind(rt, "127.0.0.1:0")?;
    let operators = TcpListener::bind(rt, "127.0.0.1:0")?;
    let to = Addresses {
        packets: packets.local_addr()?,
        host: host.local_addr()?,
        operators: operators.local_addr()?,
    };
    let mut lines = Vec::new(rt.alloc());
    let (end, came) = join(
        rt,
        || {
            let at = Listeners {
                packets: &packets,
                host: &host,
                operators: if manner.has_operators {
                    Some(&operators)
                } else {
                    None
                },
            };
            serve_with_host(rt, text, at, manner, &mut lines)
        },
        || ask(to),
    );
    let came = came?;
    end?;
    Ok((came, lines))
}

// The answers that a service without load gives at the host's door, to one packet, and to a command under a bad token.
fn told_in_turn(
    net: &impl Net<Stream = TcpStream>,
    alloc: Global,
    to: Addresses,
    packet: &[u8],
    command: &[u8],
) -> io::Result<Vec<Vec<u8>>> {
    let mut answers = Vec::new(alloc);
    answers.push(asked(net, alloc, &to.host, HEALTH)?)?;
    answers.push(asked(net, alloc, &to.host, STRANGER)?)?;
    answers.push(asked(net, alloc, &to.host, SETUP)?)?;
    answers.push(asked(net, alloc, &to.packets, packet)?)?;
    answers.push(asked(net, alloc, &to.packets, command)?)?;
    answers.push(asked(net, alloc, &to.host, METRICS)?)?;
    answers.push(asked(net, alloc, &to.host, STOP)?)?;
    Ok(answers)
}

// The same, and what the service prints at the end.
fn served_in_turn<R>(rt: &R) -> Result<(Vec<Vec<u8>>, Vec<u8>), Fail>
where
    R: Threads + Wait + Clock + Disk + AllocGlobal + Sync,
    R: Net<Listener = TcpListener, Stream = TcpStream>,
{
    let alloc = rt.alloc();
    let text = setup_text(alloc, 7802)?;
    let packet = packet_by(alloc, "/ilp/acme", "tok-bob", "{config}")?;
    let command = request(alloc, "/admin/beta", "toor", b"balances")?;
    let ask = |to: Addresses| {
        Ok(told_in_turn(rt, alloc, to, packet.as_slice(), command.as_slice())?)
    };
    served_with_host(rt, text.as_str(), DOORLESS, ask)
}

// Lines of the metrics after one packet of acme's was answered, and a command for beta refused.
const METRICS_WANTED: &str = "\
ilpd_accepts_connections 1
ilpd_answers_total{tenant=\"acme\",status=\"200\"} 1
ilpd_answers_total{tenant=\"acme\",status=\"4xx\"} 0
ilpd_answers_total{tenant=\"acme\",status=\"503\"} 0
ilpd_answers_total{tenant=\"beta\",status=\"200\"} 0
ilpd_packets_total{tenant=\"acme\",outcome=\"configured\"} 1
ilpd_packets_total{tenant=\"acme\",outcome=\"fulfilled\"} 0
ilpd_packets_total{tenant=\"acme\",outcome=\"F08\"} 0
ilpd_packets_total{tenant=\"acme\",outcome=\"journal_full\"} 0
ilpd_packets_total{tenant=\"beta\",outcome=\"configured\"} 0
ilpd_unanswered_total{tenant=\"acme\",cause=\"no_place\"} 0
ilpd_unanswered_total{tenant=\"acme\",cause=\"no_answer\"} 0
ilpd_unanswered_total{tenant=\"acme\",cause=\"bad_answer\"} 0
ilpd_peers_resting{tenant=\"acme\"} 0
ilpd_packets_skipped_total{tenant=\"acme\"} 0
ilpd_packets_skipped_total{tenant=\"beta\"} 0
ilpd_link_faults_total{tenant=\"acme\"} 0
ilpd_operator_tokens_refused_total{tenant=\"acme\"} 0
ilpd_operator_tokens_refused_total{tenant=\"beta\"} 1
ilpd_places_share{tenant=\"acme\"} 1
ilpd_places_used{tenant=\"acme\"} 0
ilpd_places_awaited{tenant=\"acme\"} 0
ilpd_period{tenant=\"acme\"} 0
ilpd_journal_entries{tenant=\"acme\"} 1
ilpd_journal_entries{tenant=\"beta\"} 0
ilpd_journal_places{tenant=\"beta\"} 2048
ilpd_holds_open{tenant=\"acme\"} 0
ilpd_holds_open{tenant=\"beta\"} 0
";

pub fn has_line(text: &str, wanted: &str) -> bool {
    for line in text.lines() {
        if line == wanted {
            return true;
        }
    }
    false
}

pub fn expect_metrics(rt: &impl Abort, metrics: &[u8], wanted: &str) -> Result<(), Fail> {
    let text = str::from_utf8(metrics)?;
    assert!(rt; text.starts_with(METRICS_HEAD));
    for line in wanted.lines() {
        assert!(rt; has_line(text, line), "{line}");
    }
    Ok(())
}

const METRICS_HEAD: &str =
    "HTTP/1.1 200 OK\r\nContent-Type: text/plain; version=0.0.4\r\nContent-Length: ";

fn is_setup(alloc: Global, answer: &[u8]) -> Result<bool, Fail> {
    let text = standing_text(alloc, 7802, 0, 0)?;
    let wanted = told_setup(alloc, text.as_str())?;
    Ok(answer == wanted.as_slice())
}

fn expect_told(rt: &impl Abort, alloc: Global, answers: &[Vec<u8>]) -> Result<(), Fail> {
    let [health, stranger, before, packet, command, metrics, after] = answers else {
        return Err("seven answers".into());
    };
    assert!(rt; health.as_slice() == HEALTHY);
    assert!(rt; stranger.as_slice() == UNAUTHORIZED);
    assert!(rt; is_setup(alloc, before.as_slice())?);
    assert!(rt; is_setup(alloc, after.as_slice())?);
    assert!(rt; is_reply(alloc, packet.as_slice(), "{configuration of bob}")?);
    assert!(rt; command.as_slice().starts_with(UNAUTHORIZED_HEAD));
    expect_metrics(rt, metrics.as_slice(), METRICS_WANTED)
}

const LINES_WANTED: &[u8] = b"acme 200 1 4xx 0 503 0 link 0\nbeta 200 0 4xx 0 503 0 link 0\n";

#[test]
fn what_a_host_is_told(rt: HostRuntime) -> Result<(), Fail> {
    let (answers, lines) = served_in_turn(&rt)?;
    assert!(rt; lines.as_slice() == LINES_WANTED);
    expect_told(&rt, rt.alloc(), answers.as_slice())
}

/// How many requests are answered before the host stops the service.
pub const ENOUGH: u64 = 100;

// How many packets a client sends at most.
const MOST: u32 = 20_000;

/// A client, and how many of its packets were fulfilled before its connection ended, and how many were answered otherwise.
#[derive(Clone, Copy)]
struct Client {
    beta: bool,
    fulfilled: u64,
    other: u64,
}

// Sends a packet after the other until the connection ends, and counts how many of all clients' were fulfilled.
fn sends_until_stopped(
    net: &impl Net<Stream = TcpStream>,
    addr: &SocketAddr,
    exchange: &Exchange,
    client: &mut Client,
    all: &AtomicU64,
) -> io::Result<()> {
    let stream = connected(net, addr)?;
    for _ in 0..MOST {
        if is_told(
            &stream,
            exchange.packet.as_slice(),
            exchange.fulfilled.as_slice(),
        )? {
            client.fulfilled = client.fulfilled.saturating_add(1);
            all.fetch_add(1, Ordering::SeqCst);
        } else {
            client.other = client.other.saturating_add(1);
        }
    }
    Ok(())
}

// All clients at once, until the service has stopped.
fn all_clients<R: Threads + Net<Listener = TcpListener, Stream = TcpStream> + Sync>(
    rt: &R,
    addr: &SocketAddr,
    acme: &Exchange,
    beta: &Exchange,
    clients: &mut [Client],
    all: &AtomicU64,
) {
    thread::for_each_mut(
        rt,
        clients,
        4,
        &|_, client| {
            let exchange = if client.beta { beta } else { acme };
            let _ = sends_until_stopped(rt, addr, exchange, client, all);
        },
    );
}

/// Stops the service once enough requests were answered, and gives the answer.
pub fn stopped<R: Wait + Net<Stream = TcpStream>>(
    rt: &R,
    alloc: Global,
    host: &SocketAddr,
    all: &AtomicU64,
) -> io::Result<Vec<u8>> {
    for _ in rt.forever() {
        if all.load(Ordering::SeqCst) >= ENOUGH {
            break;
        }
        thread::yield_now();
    }
    asked(rt, alloc, host, STOP)
}

// The answer to a host that stops a service once its clients had enough packets fulfilled.
fn stopped_under_load<R: Threads + Wait + Net<Listener = TcpListener, Stream = TcpStream> + Sync>(
    rt: &R,
    alloc: Global,
    to: Addresses,
    clients: &mut [Client],
) -> Result<Vec<u8>, Fail> {
    let (acme, beta) = both_exchanges(alloc)?;
    let all = AtomicU64::new(0);
    let (_, told) = join(
        rt,
        || all_clients(rt, &to.packets, &acme, &beta, clients, &all),
        || stopped(rt, alloc, &to.host, &all),
    );
    Ok(told?)
}

/// The outcome of a stop under load: how many packets the peer fulfilled, the answers to the host and to the clients,
/// and what the service printed.
#[derive(Drop)]
struct Stop {
    fulfilled: u32,
    answer: Vec<u8>,
    clients: [Client; 4],
    lines: Vec<u8>,
    port: u16,
}

fn stop_under_load<R>(rt: &R) -> Result<Stop, Fail>
where
    R: Threads + Wait + Clock + Disk + AllocGlobal + Sync,
    R: Net<Listener = TcpListener, Stream = TcpStream>,
{
    let peer = TcpListener::bind(rt, "127.0.0.1:0")?;
    let port = peer.local_addr()?.port();
    let text = setup_text(rt.alloc(), port)?;
    let mut clients = [false, true, false, true].map(|beta| Client {
        beta,
        fulfilled: 0,
        other: 0,
    });
    let ask = |to: Addresses| stopped_under_load(rt, rt.alloc(), to, &mut clients);
    let run = || served_with_host(rt, text.as_str(), DOORLESS, ask);
    let ((answer, lines), fulfilled) = beside_peer(rt, &peer, run)?;
    Ok(Stop {
        fulfilled,
        answer,
        clients,
        lines,
        port,
    })
}

// How many packets of a tenant's clients were fulfilled.
fn fulfilled_of(clients: &[Client], beta: bool) -> u64 {
    let mut sum = 0u64;
    for client in clients {
        if client.beta == beta {
            sum = sum.saturating_add(client.fulfilled);
        }
    }
    sum
}

// What a service prints that answered so many packets of each tenant.
fn lines_after(alloc: Global, acme: u64, beta: u64) -> Result<String, Fail> {
    let acme = number(alloc, acme)?;
    let beta = number(alloc, beta)?;
    let lines = "acme 200 {acme} 4xx 0 503 0 link 0\nbeta 200 {beta} 4xx 0 503 0 link 0\n";
    let values = [("{acme}", acme.as_str()), ("{beta}", beta.as_str())];
    Ok(replaced(alloc, lines, &values)?)
}

// A stop leaves what clients and peers saw. Each packet that the peer fulfilled had that reply, and is in the balances
// of the setup.
#[test]
fn a_stop_loses_nothing(rt: HostRuntime) -> Result<(), Fail> {
    let alloc = rt.alloc();
    let stop = stop_under_load(&rt)?;
    let clients = stop.clients.as_slice();
    let (acme, beta) = (fulfilled_of(clients, false), fulfilled_of(clients, true));
    let setup = told_setup(alloc, standing_text(alloc, stop.port, acme, beta)?.as_str())?;
    assert!(rt; clients.iter().all(|client| client.other == 0));
    assert!(rt; acme.saturating_add(beta) >= ENOUGH);
    assert!(rt; u64::from(stop.fulfilled) == acme.saturating_add(beta));
    assert!(rt; stop.answer.as_slice() == setup.as_slice());
    let lines = lines_after(alloc, acme, beta)?;
    assert_eq!(rt; stop.lines.as_slice(), lines.as_bytes());
    Ok(())
}
