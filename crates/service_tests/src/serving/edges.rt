//! What hostile clients cost others: bodies that are held back at the operators' door, and requests sent ahead before a stop.

use super::crowd::{connected, setup_text};
use super::host::{Addresses, DOORLESS, HEALTH, Manner, STOP, served_with_host};
use super::wire::{one_tenant, packet_by};
use super::{answer_of, asked, sent};
use std::alloc::Global;
use std::io::Write;
use std::net::{Net, OpenListener, TcpListener, TcpStream};
use std::process::Abort;
use std::test::Fail;
use std::time::{Clock, Duration, Instant};
use std::{io, thread};

const OPERATED: Manner = Manner {
    has_operators: true,
    ..DOORLESS
};

// The head of a command under a token that is nobody's.
const HELD: &[u8] =
    b"POST /acme HTTP/1.1\r\nAuthorization: Bearer toor\r\nContent-Length: 8\r\n\r\n";

const BALANCES: &[u8] =
    b"POST /acme HTTP/1.1\r\nAuthorization: Bearer root\r\nContent-Length: 8\r\n\r\nbalances";

// How many milliseconds have gone by since then.
fn millis_since(clock: &impl Clock, begun: Instant) -> io::Result<u64> {
    let gone = Instant::now(clock)?.saturating_duration_since(begun);
    Ok(gone.as_millis().min(u128::from(u64::MAX)) as u64)
}

// How long an operator waits beside strangers that hold back bodies, its answer, and the answer to the first of them.
fn beside_strangers(
    rt: &(impl Net<Stream = TcpStream> + Clock),
    alloc: Global,
    to: Addresses,
) -> io::Result<(u64, Vec<u8>, Vec<u8>)> {
    let mut strangers = Vec::new(alloc);
    for _ in 0..16 {
        let stream = connected(rt, &to.operators)?;
        let mut out = &stream;
        out.write_all(HELD)?;
        strangers.push(stream)?;
    }
    let begun = Instant::now(rt)?;
    let answer = asked(rt, alloc, &to.operators, BALANCES)?;
    let waited = millis_since(rt, begun)?;
    let told = match strangers.as_slice().first() {
        Some(stream) => answer_of(alloc, stream)?,
        None => Vec::new(alloc),
    };
    asked(rt, alloc, &to.host, STOP)?;
    Ok((waited, answer, told))
}

#[test]
fn strangers_hold_no_operators_door(rt: HostRuntime) -> Result<(), Fail> {
    let alloc = rt.alloc();
    let text = setup_text(alloc, 7802)?;
    let ask = |to: Addresses| Ok(beside_strangers(&rt, alloc, to)?);
    let ((waited, answer, told), _) = served_with_host(&rt, text.as_str(), OPERATED, ask)?;
    assert!(rt; waited < 3_000, "{waited}");
    assert!(rt; answer.as_slice().starts_with(b"HTTP/1.1 200 OK\r\n"));
    assert!(rt;
        told.as_slice()
            .starts_with(b"HTTP/1.1 401 Unauthorized\r\n")
    );
    Ok(())
}

// How many packets are sent ahead.
const AHEAD: usize = 6;

// How long a stop takes if a client has sent packets ahead to a peer that never answers, and the answer to `/health` meanwhile.
fn stopped_behind(
    rt: &(impl Net<Stream = TcpStream> + Clock),
    alloc: Global,
    to: Addresses,
    packet: &[u8],
) -> io::Result<(u64, Vec<u8>)> {
    let client = connected(rt, &to.packets)?;
    let mut out = &client;
    for _ in 0..AHEAD {
        out.write_all(packet)?;
    }
    thread::sleep(rt, Duration::from_millis(300));
    let begun = Instant::now(rt)?;
    let host = sent(rt, &to.host, STOP)?;
    thread::sleep(rt, Duration::from_millis(200));
    let health = asked(rt, alloc, &to.host, HEALTH)?;
    answer_of(alloc, &host)?;
    Ok((millis_since(rt, begun)?, health))
}

// The packets have two seconds each, and all of them together have two seconds from the stop on.
#[test]
fn a_stop_takes_one_hold(rt: HostRuntime) -> Result<(), Fail> {
    let alloc = rt.alloc();
    let silent = TcpListener::bind(&rt, "127.0.0.1:0")?;
    let text = one_tenant(alloc, silent.local_addr()?.port(), 2_000)?;
    let packet = packet_by(alloc, "/ilp/acme", "tok-alice", "{base}")?;
    let ask = |to: Addresses| Ok(stopped_behind(&rt, alloc, to, packet.as_slice())?);
    let ((took, health), lines) = served_with_host(&rt, text.as_str(), DOORLESS, ask)?;
    assert!(rt; took < 6_000, "{took}");
    assert!(rt;
        health
            .as_slice()
            .starts_with(b"HTTP/1.1 503 Service Unavailable\r\n")
    );
    assert_eq!(rt;
        lines.as_slice(),
        b"acme 200 6 4xx 0 503 0 link 6\n".as_slice()
    );
    Ok(())
}
