//! What a connection gets while others wait, and when the service stops; and idle callers at the host's door.

use super::crowd::{connected, setup_text};
use super::host::{
    Addresses, DOORLESS, HEALTH, HEALTHY, Listeners, METRICS, STOP, serve_with_host,
    served_with_host,
};
use super::wire::{good_reply, good_text, one_tenant, packet_by, peer_answer, posted, request};
use super::{ALONE, NOTHING, NOTHING_MORE, answer_of, asked, next_request, served_while, usual};
use service::{Disk, Extent, ServeFault};
use std::alloc::Global;
use std::io::{Read, Write};
use std::net::{Net, OpenListener, SocketAddr, TcpListener, TcpStream};
use std::process::Abort;
use std::sync::Wait;
use std::test::Fail;
use std::thread::{Threads, join};
use std::time::{Clock, Duration, Instant};
use std::{io, thread};

// How often a client asks at most on one connection: every 50 milliseconds, for five seconds.
const MOST: u64 = 100;

// Whether that is the answer to the next request on a connection.
fn is_answered(stream: &TcpStream, request: &[u8], answer: &[u8], room: &mut [u8]) -> bool {
    let (mut out, mut input) = (stream, stream);
    out.write_all(request).is_ok() && input.read_exact(room).is_ok() && *room == *answer
}

// How many times that answer comes on one connection before it is closed.
fn answers_until_closed(
    rt: &(impl Net<Stream = TcpStream> + Clock),
    alloc: Global,
    addr: &SocketAddr,
    request: &[u8],
    answer: &[u8],
) -> io::Result<u64> {
    let stream = connected(rt, addr)?;
    let mut room = vec![in alloc; 0u8; answer.len()]?;
    for count in 0..MOST {
        if !is_answered(&stream, request, answer, room.as_mut_slice()) {
            return Ok(count);
        }
        thread::sleep(rt, Duration::from_millis(50));
    }
    Ok(MOST)
}

const UNAUTHORIZED: &[u8] =
    b"HTTP/1.1 401 Unauthorized\r\nWWW-Authenticate: Bearer\r\nContent-Length: 0\r\n\r\n";

// How many times a stranger is answered on one connection, and then an operator, of a service that has one thread.
fn asked_without_end(
    rt: &(impl Net<Stream = TcpStream> + Clock),
    alloc: Global,
    addr: &SocketAddr,
) -> Result<(u64, u64), Fail> {
    let stranger = request(alloc, "/admin/acme", "toor", b"balances")?;
    let operator = request(alloc, "/admin/acme", "root", b"balances")?;
    let balances = good_text(alloc, NOTHING)?;
    let strangers = answers_until_closed(rt, alloc, addr, stranger.as_slice(), UNAUTHORIZED)?;
    let operators = answers_until_closed(
        rt,
        alloc,
        addr,
        operator.as_slice(),
        balances.as_slice(),
    )?;
    Ok((strangers, operators))
}

// If no other thread waits, a stranger's connection ends after its first answer, and an operator's after a second.
#[test]
fn who_asks_without_end_gives_way(rt: HostRuntime) -> Result<(), Fail> {
    let alloc = rt.alloc();
    let setup = usual(alloc)?;
    let extent = Extent {
        rounds: Some(2),
        ..ALONE
    };
    let ask = |addr: &SocketAddr| asked_without_end(&rt, alloc, addr);
    let (counts, lines) = served_while(&rt, setup.as_str(), extent, NOTHING_MORE, ask)?;
    let (strangers, operators) = counts;
    let count = operators.to_string(alloc)?;
    let wanted = ["acme 200 ", count.as_str(), " 4xx 0 503 0 link 0\n"].concat(alloc)?;
    assert!(rt; strangers == 1);
    assert!(rt; 0 < operators && operators < MOST);
    assert_eq!(rt; lines.as_slice(), wanted.as_bytes());
    Ok(())
}

// Whether the host gets that answer within two seconds.
fn is_soon(
    rt: &(impl Net<Stream = TcpStream> + Clock),
    alloc: Global,
    host: &SocketAddr,
    health: &[u8],
) -> io::Result<bool> {
    for _ in 0..100 {
        if asked(rt, alloc, host, HEALTH)?.as_slice() == health {
            return Ok(true);
        }
        thread::sleep(rt, Duration::from_millis(20));
    }
    Ok(false)
}

const UNWELL: &[u8] =
    b"HTTP/1.1 503 Service Unavailable\r\nContent-Length: 0\r\nConnection: close\r\n\r\n";

// Whether a service is unwell while its accepts fail, and well once they do not, though no connection comes. Then it is stopped.
fn watched(
    rt: &(impl Net<Stream = TcpStream> + Clock),
    alloc: Global,
    packets: &TcpListener,
    host: &SocketAddr,
) -> io::Result<[bool; 2]> {
    let unwell = is_soon(rt, alloc, host, UNWELL);
    packets.set_nonblocking(false)?;
    let well = is_soon(rt, alloc, host, HEALTHY);
    asked(rt, alloc, host, STOP)?;
    Ok([unwell?, well?])
}

// Serves the setup of that text at the doors of packets and of the host.
fn serve_doorless<'a, R>(
    rt: &R,
    text: &str,
    packets: &'a TcpListener,
    host: &'a TcpListener,
    lines: &mut Vec<u8>,
) -> Result<(), ServeFault>
where
    R: Threads + Wait + Clock + Disk + AllocGlobal + Sync,
    R: Net<Listener = TcpListener, Stream = TcpStream>,
{
    let at = Listeners {
        packets,
        host,
        operators: None,
    };
    serve_with_host(rt, text, at, DOORLESS, lines)
}

#[test]
fn a_stop_is_clean_after_an_accept_that_failed(rt: HostRuntime) -> Result<(), Fail> {
    let alloc = rt.alloc();
    let text = setup_text(alloc, 7802)?;
    let packets = TcpListener::bind(&rt, "127.0.0.1:0")?;
    let door = TcpListener::bind(&rt, "127.0.0.1:0")?;
    let host = door.local_addr()?;
    packets.set_nonblocking(true)?;
    let mut lines = Vec::new(alloc);
    let (end, seen) = join(
        &rt,
        || serve_doorless(&rt, text.as_str(), &packets, &door, &mut lines),
        || watched(&rt, alloc, &packets, &host),
    );
    assert!(rt; end == Ok(()));
    assert!(rt; seen? == [true, true]);
    Ok(())
}

// How long the host's questions and a stop take beside idle connections, and how the answers to the questions begin.
fn asked_beside_callers(
    rt: &(impl Net<Stream = TcpStream> + Clock),
    alloc: Global,
    host: &SocketAddr,
) -> io::Result<(Duration, bool)> {
    let mut callers = Vec::new(alloc);
    for _ in 0..20 {
        callers.push(connected(rt, host)?)?;
    }
    let begun = Instant::now(rt)?;
    let metrics = asked(rt, alloc, host, METRICS)?;
    let stop = asked(rt, alloc, host, STOP)?;
    let took = Instant::now(rt)?.saturating_duration_since(begun);
    drop(callers);
    let are_good = [metrics, stop].iter().all(|answer| answer
        .as_slice()
        .starts_with(b"HTTP/1.1 200 OK\r\n"));
    Ok((took, are_good))
}

#[test]
fn callers_who_bring_nothing_delay_no_host(rt: HostRuntime) -> Result<(), Fail> {
    let alloc = rt.alloc();
    let text = setup_text(alloc, 7802)?;
    let ask = |to: Addresses| Ok(asked_beside_callers(&rt, alloc, &to.host)?);
    let ((took, are_good), _) = served_with_host(&rt, text.as_str(), DOORLESS, ask)?;
    assert!(rt; are_good);
    assert!(rt; took < Duration::from_secs(10));
    Ok(())
}

// Takes one packet, and fulfils it after almost a second.
fn fulfils_late(
    rt: &(impl Clock + AllocGlobal),
    listener: &TcpListener,
    wanted: &[u8],
    answer: &[u8],
) -> io::Result<bool> {
    let (stream, came) = next_request(rt.alloc(), listener, wanted.len())?;
    thread::sleep(rt, Duration::from_millis(900));
    let mut out = &stream;
    out.write_all(answer)?;
    Ok(came.as_slice() == wanted)
}

// The answers on a connection to two requests. The second one comes while the first one is served, and then the
// service is stopped.
fn stopped_between(
    rt: &(impl Net<Stream = TcpStream> + Clock),
    alloc: Global,
    to: Addresses,
    [first, second]: [&[u8]; 2],
) -> io::Result<Vec<u8>> {
    let stream = connected(rt, &to.packets)?;
    let mut out = &stream;
    out.write_all(first)?;
    thread::sleep(rt, Duration::from_millis(300));
    out.write_all(second)?;
    asked(rt, alloc, &to.host, STOP)?;
    answer_of(alloc, &stream)
}

// The two requests, what comes back for them, and what the peer is sent.
#[derive(Drop)]
struct Pipelined {
    packet: Vec<u8>,
    config: Vec<u8>,
    answers: Vec<u8>,
    posted: Vec<u8>,
}

fn two_requests(alloc: Global, port: u16) -> Result<Pipelined, Fail> {
    let mut answers = good_reply(alloc, "{fulfill}")?;
    let second = good_reply(alloc, "{configuration of bob}")?;
    answers.extend_from_slice(second.as_slice())?;
    Ok(Pipelined {
        packet: packet_by(alloc, "/ilp/acme", "tok-alice", "{base}")?,
        config: packet_by(alloc, "/ilp/acme", "tok-bob", "{config}")?,
        answers,
        posted: posted(alloc, port, "{sent until 8 s}")?,
    })
}

// Whether the peer was sent what it should, and what came back for both requests.
fn served_between<R>(
    rt: &R,
    peer: &TcpListener,
    setup: &str,
    both: &Pipelined,
) -> Result<(bool, Vec<u8>), Fail>
where
    R: Threads + Wait + Clock + Disk + AllocGlobal + Sync,
    R: Net<Listener = TcpListener, Stream = TcpStream>,
{
    let answer = peer_answer(rt.alloc())?;
    let requests = [both.packet.as_slice(), both.config.as_slice()];
    let ask = |to: Addresses| Ok(stopped_between(rt, rt.alloc(), to, requests)?);
    let (is_right, came) = join(
        rt,
        || fulfils_late(rt, peer, both.posted.as_slice(), answer.as_slice()),
        || served_with_host(rt, setup, DOORLESS, ask),
    );
    let (answers, _) = came?;
    Ok((is_right?, answers))
}

#[test]
fn a_second_request_is_answered_at_a_stop(rt: HostRuntime) -> Result<(), Fail> {
    let alloc = rt.alloc();
    let peer = TcpListener::bind(&rt, "127.0.0.1:0")?;
    let port = peer.local_addr()?.port();
    let setup = one_tenant(alloc, port, 8_000)?;
    let both = two_requests(alloc, port)?;
    let (is_right, answers) = served_between(&rt, &peer, setup.as_str(), &both)?;
    assert!(rt; is_right);
    assert_eq!(rt; answers.as_slice(), both.answers.as_slice());
    Ok(())
}
