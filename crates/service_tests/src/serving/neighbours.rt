//! Neighbours that are idle, and a tenant whose peer never answers.

use super::wire::{is_reply, is_text, packet_by, request, two_tenants};
use super::{ALL, NOTHING, NOTHING_MORE, answer_of, asked, lonely_port, sent, served_while, usual};
use service::Extent;
use std::alloc::Global;
use std::net::{Net, OpenListener, SocketAddr, TcpListener, TcpStream};
use std::process::Abort;
use std::test::Fail;
use std::time::{Clock, Duration, Instant};
use std::{io, thread};

// The answers to a request that is sent three times beside two idle connections, and whether they came within ten
// seconds.
fn asked_beside_idle(
    rt: &(impl Net<Stream = TcpStream> + Clock),
    alloc: Global,
    addr: &SocketAddr,
    request: &[u8],
) -> io::Result<([Vec<u8>; 3], bool)> {
    let wait = Duration::from_secs(5);
    let first = TcpStream::connect_timeout(rt, addr, wait)?;
    let second = TcpStream::connect_timeout(rt, addr, wait)?;
    let begun = Instant::now(rt)?;
    let answers = [
        asked(rt, alloc, addr, request)?,
        asked(rt, alloc, addr, request)?,
        asked(rt, alloc, addr, request)?,
    ];
    let spent = Instant::now(rt)?.saturating_duration_since(begun);
    drop((first, second));
    Ok((answers, spent < Duration::from_secs(10)))
}

// There are two threads, and each has an idle connection.
const TWO_THREADS: Extent = Extent {
    workers: 1,
    connections: 2,
    rounds: Some(3),
};

#[test]
fn idle_connections_yield(rt: HostRuntime) -> Result<(), Fail> {
    let alloc = rt.alloc();
    let setup = usual(alloc)?;
    let request = request(alloc, "/admin/acme", "root", b"balances\n")?;
    let ask = |addr: &SocketAddr| Ok(asked_beside_idle(&rt, alloc, addr, request.as_slice())?);
    let (came, lines) = served_while(&rt, setup.as_str(), TWO_THREADS, NOTHING_MORE, ask)?;
    let (answers, fast) = came;
    assert!(rt; fast);
    assert!(rt; lines.as_slice() == b"acme 200 3 4xx 0 503 0 link 0\n".as_slice());
    for answer in &answers {
        assert!(rt; is_text(alloc, answer.as_slice(), NOTHING)?);
    }
    Ok(())
}

// What four senders of acme's were answered, and beta's sender and operator meanwhile, and whether these two were answered
// before acme's peer was given up.
#[derive(Drop)]
struct Answers {
    acme: Vec<Vec<u8>>,
    beta: Vec<u8>,
    operator: Vec<u8>,
    fast: bool,
}

fn asked_beside_silence(
    rt: &(impl Net<Stream = TcpStream> + Clock),
    alloc: Global,
    addr: &SocketAddr,
    [acme, beta, operator]: [&[u8]; 3],
) -> io::Result<Answers> {
    let mut senders = Vec::new(alloc);
    for _ in 0..4 {
        senders.push(sent(rt, addr, acme)?)?;
    }
    thread::sleep(rt, Duration::from_millis(500));
    let begun = Instant::now(rt)?;
    let beta = asked(rt, alloc, addr, beta)?;
    let operator = asked(rt, alloc, addr, operator)?;
    let spent = Instant::now(rt)?.saturating_duration_since(begun);
    let mut answers = Vec::new(alloc);
    for sender in &senders {
        answers.push(answer_of(alloc, sender)?)?;
    }
    Ok(Answers {
        acme: answers,
        beta,
        operator,
        fast: spent < Duration::from_millis(2_000),
    })
}

// What the service prints at the end. Of each of the five packets there are two receipts, and one of each tenant's
// roll.
const PRINTED: &str = "acme balance alice 0 0 0
acme balance bob 0 0 0
acme ok
beta balance alice 0 0 0
beta balance bob 0 0 0
beta ok
acme 200 4 4xx 0 503 0 link 4
beta 200 2 4xx 0 503 0 link 1
audit ok 12
";

fn expect_answers(rt: &impl Abort, alloc: Global, came: &Answers) -> Result<(), Fail> {
    assert!(rt; came.fast);
    for answer in &came.acme {
        assert!(rt; is_reply(alloc, answer.as_slice(), "{T01}")?);
    }
    assert!(rt; is_reply(alloc, came.beta.as_slice(), "{T01 of beta}")?);
    assert!(rt; came.operator.as_slice().starts_with(b"HTTP/1.1 200 OK\r\n"));
    Ok(())
}

// Of two places each tenant has one.
const TWO_PLACES: Extent = Extent {
    workers: 2,
    connections: 8,
    rounds: Some(3),
};

// Of acme's four packets one is with a peer that says nothing, one waits, and for two there is no room. Beta's packet,
// whose peer refuses the connection, and its command are answered meanwhile. Both hold a packet for three seconds at
// most.
#[test]
fn a_silent_peer_keeps_no_other_tenant(rt: HostRuntime) -> Result<(), Fail> {
    let alloc = rt.alloc();
    let silent = TcpListener::bind(&rt, "127.0.0.1:0")?;
    let ports = [silent.local_addr()?.port(), lonely_port(&rt)?];
    let setup = two_tenants(alloc, ports, 3_000)?;
    let acme = packet_by(alloc, "/ilp/acme", "tok-alice", "{base}")?;
    let beta = packet_by(alloc, "/ilp/beta", "tok-alice", "{for beta}")?;
    let operator = request(alloc, "/admin/beta", "root", b"balances\n")?;
    let requests = [acme.as_slice(), beta.as_slice(), operator.as_slice()];
    let ask = |addr: &SocketAddr| Ok(asked_beside_silence(&rt, alloc, addr, requests)?);
    let (came, lines) = served_while(&rt, setup.as_str(), TWO_PLACES, ALL, ask)?;
    drop(silent);
    assert!(rt; lines.as_slice() == PRINTED.as_bytes());
    expect_answers(&rt, alloc, &came)
}
