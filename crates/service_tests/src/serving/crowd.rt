//! Eight clients at once, in ten waves, each followed by a roll of both tenants.

use super::wire::{good_reply, good_text, packet_by, peer_answer, posted, request, two_tenants};
use super::{ALL, served_while};
use service::{Disk, Extent};
use std::alloc::Global;
use std::io::{Read, Write};
use std::net::{Net, OpenListener, SocketAddr, TcpListener, TcpStream};
use std::sync::Wait;
use std::test::Fail;
use std::thread::{Threads, join};
use std::time::{Clock, Duration};
use std::{io, thread};

const WAVES: u32 = 10;

// How many packets each client sends in a wave.
const PACKETS: u32 = 125;

// After how many of them it commands.
const BETWEEN: u32 = 25;

// At most two packets are with the peer at once; of each tenant four more may wait. There is a connection for each of eight
// clients in each wave, and one for each of two operators after it, which is a hundred.
const EXTENT: Extent = Extent {
    workers: 2,
    connections: 20,
    rounds: Some(50),
};

/// The requests of a tenant's clients, and the answers that they must get.
#[derive(Drop)]
pub struct Exchange {
    pub packet: Vec<u8>,
    pub fulfilled: Vec<u8>,
    command: Vec<u8>,
    done: Vec<u8>,
    roll: Vec<u8>,
    // for each wave
    rolled: Vec<Vec<u8>>,
}

fn exchange_of(alloc: Global, name: &str, packet: &str) -> Result<Exchange, Fail> {
    let ilp = ["/ilp/", name].concat(alloc)?;
    let admin = ["/admin/", name].concat(alloc)?;
    let command = b"peer limits bob 1000000 1000000000 1000000000";
    let done = [name, " ok\n"].concat(alloc)?;
    Ok(Exchange {
        packet: packet_by(alloc, ilp.as_str(), "tok-alice", packet)?,
        fulfilled: good_reply(alloc, "{fulfill}")?,
        command: request(alloc, admin.as_str(), "root", command.as_slice())?,
        done: good_text(alloc, done.as_str())?,
        roll: request(alloc, admin.as_str(), "root", b"roll")?,
        rolled: rolled_in_all(alloc, name)?,
    })
}

// The answer to a roll after so many waves, counted from 0: four clients have sent 500 packets and 20 commands in
// each.
fn rolled(alloc: Global, name: &str, wave: u32) -> Result<Vec<u8>, Fail> {
    let waves = (wave as usize).saturating_add(1);
    let alice = waves.saturating_mul(500_000).to_string(alloc)?;
    let bob = waves.saturating_mul(750_000).to_string(alloc)?;
    let period = wave.to_string(alloc)?;
    let text = [
        name,
        " balance alice ",
        alice.as_str(),
        " 0 0\n",
        name,
        " balance bob -",
        bob.as_str(),
        " 0 0\n",
        name,
        " rolled ",
        period.as_str(),
        " 1021\n",
    ]
    .concat(alloc)?;
    good_text(alloc, text.as_str())
}

fn rolled_in_all(alloc: Global, name: &str) -> Result<Vec<Vec<u8>>, Fail> {
    let mut all = Vec::new(alloc);
    for wave in 0..WAVES {
        all.push(rolled(alloc, name, wave)?)?;
    }
    Ok(all)
}

/// A client, and the answers that it got: packets that were fulfilled, commands that were done, and anything else.
#[derive(Clone, Copy, Debug, PartialEq, Eq)]
struct Told {
    beta: bool,
    fulfilled: u32,
    done: u32,
    other: u32,
}

/// A connection to the service.
pub fn connected(net: &impl Net<Stream = TcpStream>, addr: &SocketAddr) -> io::Result<TcpStream> {
    let stream = TcpStream::connect_timeout(net, addr, Duration::from_secs(5))?;
    stream.set_nodelay(true)?;
    stream.set_read_timeout(Some(Duration::from_secs(100)))?;
    Ok(stream)
}

/// Whether the answer to a request is the expected one.
pub fn is_told(stream: &TcpStream, request: &[u8], wanted: &[u8]) -> io::Result<bool> {
    let mut room = [0u8; 512];
    let mut out = stream;
    out.write_all(request)?;
    let Some(came) = room.get_mut(..wanted.len()) else {
        return Ok(false);
    };
    let mut input = stream;
    input.read_exact(came)?;
    Ok(&*came == wanted)
}

// Counts one more answer to a client, as the expected one or as something else.
fn count(right: bool, wanted: &mut u32, other: &mut u32) {
    let counter = if right { wanted } else { other };
    *counter = counter.saturating_add(1);
}

// Sends the packets of a client in one wave, with commands between them.
fn sends_all(
    net: &impl Net<Stream = TcpStream>,
    addr: &SocketAddr,
    exchange: &Exchange,
    told: &mut Told,
) -> io::Result<()> {
    let stream = connected(net, addr)?;
    for n in 0..PACKETS {
        let right = is_told(
            &stream,
            exchange.packet.as_slice(),
            exchange.fulfilled.as_slice(),
        )?;
        count(right, &mut told.fulfilled, &mut told.other);
        if n % BETWEEN == 0 {
            let right = is_told(
                &stream,
                exchange.command.as_slice(),
                exchange.done.as_slice(),
            )?;
            count(right, &mut told.done, &mut told.other);
        }
    }
    Ok(())
}

// Fulfils what comes, a packet a connection, until one comes without a packet.
fn fulfils_all(listener: &TcpListener, answer: &[u8], size: usize) -> io::Result<u32> {
    let mut count = 0u32;
    let mut room = [0u8; 512];
    for _ in 0..20_000u32 {
        let (stream, _) = listener.accept()?;
        stream.set_nodelay(true)?;
        let Some(came) = room.get_mut(..size) else {
            return Ok(0);
        };
        let mut input = &stream;
        if input.read_exact(came).is_err() {
            break;
        }
        let mut out = &stream;
        out.write_all(answer)?;
        count = count.saturating_add(1);
    }
    Ok(count)
}

// Lets the operator of a tenant close its period, and says whether the answer is the expected one.
fn rolls(
    net: &impl Net<Stream = TcpStream>,
    addr: &SocketAddr,
    exchange: &Exchange,
    wave: usize,
) -> io::Result<bool> {
    let Some(wanted) = exchange.rolled.get(wave) else {
        return Ok(false);
    };
    let stream = connected(net, addr)?;
    is_told(&stream, exchange.roll.as_slice(), wanted.as_slice())
}

// The eight clients of a wave, at once.
fn wave_of<R: Threads + Net<Listener = TcpListener, Stream = TcpStream> + Sync>(
    rt: &R,
    addr: &SocketAddr,
    acme: &Exchange,
    beta: &Exchange,
    told: &mut [Told],
) {
    thread::for_each_mut(
        rt,
        told,
        8,
        &|_, client| {
            let exchange = if client.beta { beta } else { acme };
            let _ = sends_all(rt, addr, exchange, client);
        },
    );
}

// All waves, and how often both rolls after a wave had the expected answers.
fn all_waves<R: Threads + Net<Listener = TcpListener, Stream = TcpStream> + Sync>(
    rt: &R,
    addr: &SocketAddr,
    acme: &Exchange,
    beta: &Exchange,
    told: &mut [Told],
) -> io::Result<u32> {
    let mut right = 0u32;
    for wave in 0..WAVES as usize {
        wave_of(rt, addr, acme, beta, told);
        let acme_right = rolls(rt, addr, acme, wave)?;
        let beta_right = rolls(rt, addr, beta, wave)?;
        if acme_right && beta_right {
            right = right.saturating_add(1);
        }
    }
    Ok(right)
}

// The half of the clients are acme's, and the other half beta's.
fn clients() -> [Told; 8] {
    let acme = Told {
        beta: false,
        fulfilled: 0,
        done: 0,
        other: 0,
    };
    let beta = Told { beta: true, ..acme };
    [acme, beta, acme, beta, acme, beta, acme, beta]
}

/// A setup of two tenants whose second peers listen at that port.
pub fn setup_text(alloc: Global, port: u16) -> Result<String, Fail> {
    two_tenants(alloc, [port, port], 30_000)
}

/// What the clients of both tenants ask.
pub fn both_exchanges(alloc: Global) -> Result<(Exchange, Exchange), Fail> {
    Ok((
        exchange_of(alloc, "acme", "{base}")?,
        exchange_of(alloc, "beta", "{for beta}")?,
    ))
}

/// The outcome of `run` beside a peer that fulfils all packets, and how many it fulfilled.
pub fn beside_peer<R, T, F>(rt: &R, peer: &TcpListener, run: F) -> Result<(T, u32), Fail>
where
    R: Threads + Wait + Clock + Disk + AllocGlobal + Sync,
    R: Net<Listener = TcpListener, Stream = TcpStream>,
    T: Send + Drop,
    F: FnOnce() -> Result<T, Fail> + Send + Drop,
    requires runs { F.pre run }
{
    let addr = peer.local_addr()?;
    let size = posted(rt.alloc(), addr.port(), "{sent}")?.len();
    let answer = peer_answer(rt.alloc())?;
    let (fulfilled, came) = join(
        rt,
        || fulfils_all(peer, answer.as_slice(), size),
        || {
            let came = run();
            let _ = TcpStream::connect_timeout(rt, &addr, Duration::from_secs(5));
            came
        },
    );
    let came = came?;
    Ok((came, fulfilled?))
}

/// The outcome of a crowd: how many packets the next peer fulfilled, and what the service printed at the end. How
/// often both rolls were right, and the answers that the clients got.
#[derive(Drop)]
struct Crowd {
    fulfilled: u32,
    lines: Vec<u8>,
    rolls: u32,
    told: [Told; 8],
}

fn crowd_of<R>(rt: &R) -> Result<Crowd, Fail>
where
    R: Threads + Wait + Clock + Disk + AllocGlobal + Sync,
    R: Net<Listener = TcpListener, Stream = TcpStream>,
{
    let peer = TcpListener::bind(rt, "127.0.0.1:0")?;
    let text = setup_text(rt.alloc(), peer.local_addr()?.port())?;
    let (acme, beta) = both_exchanges(rt.alloc())?;
    let mut told = clients();
    let ask = |addr: &SocketAddr| Ok(all_waves(rt, addr, &acme, &beta, &mut told)?);
    let run = || served_while(rt, text.as_str(), EXTENT, ALL, ask);
    let ((rolls, lines), fulfilled) = beside_peer(rt, &peer, run)?;
    Ok(Crowd {
        fulfilled,
        lines,
        rolls,
        told,
    })
}

// The answers to a tenant's four clients: packets, commands, anything else.
fn in_all(told: &[Told], beta: bool) -> (u32, u32, u32) {
    let mut sums = (0u32, 0u32, 0u32);
    for client in told {
        if client.beta == beta {
            sums.0 = sums.0.saturating_add(client.fulfilled);
            sums.1 = sums.1.saturating_add(client.done);
            sums.2 = sums.2.saturating_add(client.other);
        }
    }
    sums
}

// Each tenant has sent 5,000 packets of 1,000 units, for 1,500 each, and 200 commands, and its operator 10. For each
// packet that went on there are two entries, for each command one, and one for the last roll of each tenant.
const PRINTED: &str = "acme balance alice 5000000 0 0
acme balance bob -7500000 0 0
acme ok
beta balance alice 5000000 0 0
beta balance bob -7500000 0 0
beta ok
acme 200 5210 4xx 0 503 0 link 0
beta 200 5210 4xx 0 503 0 link 0
audit ok 20422
";

#[test]
fn books_say_what_clients_were_told(rt: HostRuntime) -> Result<(), Fail> {
    let crowd = crowd_of(&rt)?;
    assert!(rt; crowd.fulfilled == 10_000);
    assert!(rt; in_all(&crowd.told, false) == (5_000, 200, 0));
    assert!(rt; in_all(&crowd.told, true) == (5_000, 200, 0));
    assert!(rt; crowd.rolls == WAVES);
    assert_eq!(rt; crowd.lines.as_slice(), PRINTED.as_bytes());
    Ok(())
}
