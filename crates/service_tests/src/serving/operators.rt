//! The operators' door: its answers to each operator about its own tenant, the commands it does, and its answers to strangers.

use super::crowd::setup_text;
use super::host::{
    Addresses, DOORLESS, ENOUGH, Manner, STOP, UNAUTHORIZED, has_line, served_with_host, stopped,
};
use super::{AUDITED, asked};
use service::Disk;
use std::alloc::Global;
use std::io;
use std::net::{Net, SocketAddr, TcpListener, TcpStream};
use std::process::Abort;
use std::sync::Wait;
use std::sync::atomic::{AtomicU64, Ordering};
use std::test::Fail;
use std::thread::{Threads, join};
use std::time::Clock;

// A request with a token, and the command of a POST: how its answer begins, lines that it has, and words that it does not have.
struct Row {
    method: &'static str,
    target: &'static str,
    token: &'static str,
    body: &'static str,
    head: &'static str,
    lines: &'static [&'static str],
    none: &'static [&'static str],
}

static ROWS: [Row; 20] = [
    Row {
        method: "GET",
        target: "/acme/setup",
        token: "root",
        body: "",
        head: "HTTP/1.1 200 OK\r\nContent-Type: application/toml\r\n",
        lines: &[
            "# Tokens are hidden.",
            "name = \"acme\"",
            "admin = \"hidden\"",
            "token = \"hidden\"",
            "out_token = \"hidden\"",
            "balance = 0",
        ],
        none: &["root", "tok-alice", "out-alice", "beta"],
    },
    Row {
        method: "GET",
        target: "/beta/metrics",
        token: "root",
        body: "",
        head: "HTTP/1.1 200 OK\r\nContent-Type: text/plain; version=0.0.4\r\n",
        lines: &[
            "ilpd_journal_entries{tenant=\"beta\"} 0",
            "ilpd_answers_total{tenant=\"beta\",status=\"200\"} 0",
            "ilpd_packets_total{tenant=\"beta\",outcome=\"fulfilled\"} 0",
        ],
        none: &["acme", "ilpd_connections_open"],
    },
    Row {
        method: "GET",
        target: "/acme/explain?peer=alice&amount=1000&destination=g.acme.bob.x",
        token: "root",
        body: "",
        head: "HTTP/1.1 200 OK\r\nContent-Type: text/plain\r\n",
        lines: &[
            "alice sends 1000 to g.acme.bob.x",
            "now: it goes on",
            "   next peer bob",
        ],
        none: &[],
    },
    Row {
        method: "GET",
        target: "/acme/explain?peer=alice&amount=1000001&destination=g.acme.bob.x",
        token: "root",
        body: "",
        head: "HTTP/1.1 200 OK\r\nContent-Type: text/plain\r\n",
        lines: &[
            "no cap: the amount is over the sender's",
            "   amount 1000001",
            "   cap 1000000",
            "now: F08",
        ],
        none: &[],
    },
    Row {
        method: "GET",
        target: "/acme/explain?peer=alice&amount=one&destination=g.acme.bob.x",
        token: "root",
        body: "",
        head: "HTTP/1.1 400 Bad Request\r\nContent-Type: text/plain\r\n",
        lines: &["amount: a whole number up to 18446744073709551615"],
        none: &[],
    },
    Row {
        method: "GET",
        target: "/acme/setup",
        token: "toor",
        body: "",
        head: "HTTP/1.1 401 Unauthorized\r\n",
        lines: &[],
        none: &[],
    },
    Row {
        method: "GET",
        target: "/acme/statements/0",
        token: "root",
        body: "",
        head: "HTTP/1.1 404 Not Found\r\n",
        lines: &[],
        none: &[],
    },
    Row {
        method: "GET",
        target: "/gamma/setup",
        token: "root",
        body: "",
        head: "HTTP/1.1 404 Not Found\r\n",
        lines: &[],
        none: &[],
    },
    Row {
        method: "GET",
        target: "/setup",
        token: "root",
        body: "",
        head: "HTTP/1.1 405 Method Not Allowed\r\nAllow: POST\r\n",
        lines: &[],
        none: &[],
    },
    Row {
        method: "POST",
        target: "/acme/setup",
        token: "root",
        body: "",
        head: "HTTP/1.1 405 Method Not Allowed\r\nAllow: GET\r\n",
        lines: &[],
        none: &[],
    },
    Row {
        method: "GET",
        target: "/acme",
        token: "root",
        body: "",
        head: "HTTP/1.1 405 Method Not Allowed\r\nAllow: POST\r\n",
        lines: &[],
        none: &[],
    },
    Row {
        method: "POST",
        target: "/acme",
        token: "root",
        body: "settle in alice 5\n",
        head: "HTTP/1.1 200 OK\r\nContent-Type: text/plain\r\n",
        lines: &["acme ok"],
        none: &[],
    },
    Row {
        method: "POST",
        target: "/acme",
        token: "root",
        body: "balances",
        head: "HTTP/1.1 200 OK\r\nContent-Type: text/plain\r\n",
        lines: &[
            "acme balance alice -5 0 0",
            "acme balance bob 0 0 0",
            "acme ok",
        ],
        none: &[],
    },
    Row {
        method: "POST",
        target: "/acme",
        token: "root",
        body: "peer remove carol",
        head: "HTTP/1.1 200 OK\r\nContent-Type: text/plain\r\n",
        lines: &["acme refused absent"],
        none: &[],
    },
    Row {
        method: "POST",
        target: "/acme",
        token: "root",
        body: "roll",
        head: "HTTP/1.1 200 OK\r\nContent-Type: text/plain\r\n",
        lines: &["acme balance alice -5 0 0", "acme rolled 0 2"],
        none: &[],
    },
    Row {
        method: "POST",
        target: "/acme",
        token: "root",
        body: "settle up alice 5",
        head: "HTTP/1.1 400 Bad Request\r\nContent-Type: text/plain\r\n",
        lines: &[
            "command: its first word or two must be peer add, peer remove, peer limits, peer bucket, route add, route remove, rate set, settle in, settle out, balances or roll",
        ],
        none: &[],
    },
    Row {
        method: "POST",
        target: "/acme",
        token: "root",
        body: "settle in alice",
        head: "HTTP/1.1 400 Bad Request\r\nContent-Type: text/plain\r\n",
        lines: &[
            "command: a word is missing, malformed or one too many, or both peers of a rate are the same",
        ],
        none: &[],
    },
    Row {
        method: "POST",
        target: "/acme",
        token: "root",
        body: "settle in alice 4611686018427387905",
        head: "HTTP/1.1 400 Bad Request\r\nContent-Type: text/plain\r\n",
        lines: &["command: a number is outside its limits"],
        none: &[],
    },
    Row {
        method: "POST",
        target: "/acme",
        token: "toor",
        body: "roll",
        head: "HTTP/1.1 401 Unauthorized\r\n",
        lines: &[],
        none: &[],
    },
    Row {
        method: "POST",
        target: "/gamma",
        token: "root",
        body: "roll",
        head: "HTTP/1.1 404 Not Found\r\n",
        lines: &[],
        none: &[],
    },
];

// The last lines: four commands were done, among them one that was refused, and the audit has the receipts of a settlement and of
// three rolls, of which two are the last ones.
const LINES: &[u8] = b"acme 200 4 4xx 0 503 0 link 0\nbeta 200 0 4xx 0 503 0 link 0\naudit ok 4\n";

// Where packets come, too, and with an audit at the end.
const OPERATED: Manner = Manner {
    has_operators: true,
    report: AUDITED,
    ..DOORLESS
};

// The bytes of a row's request.
fn request_of(alloc: Global, row: &Row) -> io::Result<String> {
    let size = row.body.len().to_string(alloc)?;
    let length = if row.method == "POST" {
        ["Content-Length: ", size.as_str(), "\r\n"].concat(alloc)?
    } else {
        String::new(alloc)
    };
    let words = [
        row.method,
        " ",
        row.target,
        " HTTP/1.1\r\nAuthorization: Bearer ",
        row.token,
        "\r\n",
        length.as_str(),
        "\r\n",
        row.body,
    ];
    Ok(words.concat(alloc)?)
}

// The answers to all rows, to one without a token, and then to a stop at the host's door.
fn told_in_turn(
    net: &impl Net<Stream = TcpStream>,
    alloc: Global,
    to: Addresses,
) -> io::Result<Vec<Vec<u8>>> {
    let mut answers = Vec::new(alloc);
    for row in &ROWS {
        let request = request_of(alloc, row)?;
        answers.push(asked(net, alloc, &to.operators, request.as_bytes())?)?;
    }
    let bare = b"GET /acme/setup HTTP/1.1\r\n\r\n";
    answers.push(asked(net, alloc, &to.operators, bare)?)?;
    asked(net, alloc, &to.host, STOP)?;
    Ok(answers)
}

fn expect_row(rt: &impl Abort, row: &Row, answer: &[u8]) -> Result<(), Fail> {
    let text = str::from_utf8(answer)?;
    assert!(rt; text.starts_with(row.head), "{}: {text}", row.target);
    for line in row.lines {
        assert!(rt; has_line(text, line), "{}: {line}: {text}", row.target);
    }
    for word in row.none {
        assert!(rt; !text.contains(*word), "{}: {word}", row.target);
    }
    Ok(())
}

// The answers, and what the service prints at the end.
fn answers_of<R>(rt: &R) -> Result<(Vec<Vec<u8>>, Vec<u8>), Fail>
where
    R: Threads + Wait + Clock + Disk + AllocGlobal + Sync,
    R: Net<Listener = TcpListener, Stream = TcpStream>,
{
    let alloc = rt.alloc();
    let text = setup_text(alloc, 7802)?;
    let ask = |to: Addresses| Ok(told_in_turn(rt, alloc, to)?);
    served_with_host(rt, text.as_str(), OPERATED, ask)
}

#[test]
fn what_operators_are_told(rt: HostRuntime) -> Result<(), Fail> {
    let (mut answers, lines) = answers_of(&rt)?;
    let Some(bare) = answers.pop() else {
        return Err("an answer".into());
    };
    assert!(rt; bare.as_slice() == UNAUTHORIZED);
    for (row, answer) in ROWS.iter().zip(answers.as_slice()) {
        expect_row(&rt, row, answer.as_slice())?;
    }
    let printed = str::from_utf8(lines.as_slice())?;
    assert!(rt; lines.as_slice() == LINES, "{printed}");
    Ok(())
}

// Commands come at the operators' door only.
const APART: Manner = Manner {
    admin: false,
    ..OPERATED
};

const BY_PACKETS: &[u8] =
    b"POST /admin/acme HTTP/1.1\r\nAuthorization: Bearer root\r\nContent-Length: 8\r\n\r\nbalances";

const BY_OPERATORS: &[u8] =
    b"POST /acme HTTP/1.1\r\nAuthorization: Bearer root\r\nContent-Length: 8\r\n\r\nbalances";

const NOT_FOUND: &[u8] =
    b"HTTP/1.1 404 Not Found\r\nContent-Length: 0\r\nConnection: close\r\n\r\n";

const BALANCES: &[u8] =
    b"HTTP/1.1 200 OK\r\nContent-Type: text/plain\r\nContent-Length: 56\r\nConnection: close\r\n\r\n\
acme balance alice 0 0 0\nacme balance bob 0 0 0\nacme ok\n";

// The answers to a command where packets come, and at the operators' door.
fn told_apart(
    net: &impl Net<Stream = TcpStream>,
    alloc: Global,
    to: Addresses,
) -> io::Result<[Vec<u8>; 2]> {
    let by_packets = asked(net, alloc, &to.packets, BY_PACKETS)?;
    let by_operators = asked(net, alloc, &to.operators, BY_OPERATORS)?;
    asked(net, alloc, &to.host, STOP)?;
    Ok([by_packets, by_operators])
}

#[test]
fn commands_come_at_the_operators_door_only(rt: HostRuntime) -> Result<(), Fail> {
    let alloc = rt.alloc();
    let text = setup_text(alloc, 7802)?;
    let ask = |to: Addresses| Ok(told_apart(&rt, alloc, to)?);
    let ([by_packets, by_operators], _) = served_with_host(&rt, text.as_str(), APART, ask)?;
    assert!(rt; by_packets.as_slice() == NOT_FOUND);
    assert!(rt; by_operators.as_slice() == BALANCES);
    Ok(())
}

const SETTLEMENT: &[u8] =
    b"POST /acme HTTP/1.1\r\nAuthorization: Bearer root\r\nContent-Length: 17\r\n\r\nsettle in alice 1";

// How many settlements come at most.
const MOST: u32 = 20_000;

// Settles again and again until the service stops, and counts how often it was done.
fn settles_until_stopped(
    net: &impl Net<Stream = TcpStream>,
    alloc: Global,
    addr: &SocketAddr,
    done: &AtomicU64,
) {
    for _ in 0..MOST {
        match asked(net, alloc, addr, SETTLEMENT) {
            Ok(answer) if answer.as_slice().starts_with(b"HTTP/1.1 200 OK\r\n") => {
                done.fetch_add(1, Ordering::SeqCst);
            }
            _ => return,
        }
    }
}

// The answer to a stop while an operator settles, and how often it did.
fn settled_and_stopped<R>(rt: &R, alloc: Global, to: Addresses) -> Result<(Vec<u8>, u64), Fail>
where
    R: Threads + Wait + Net<Listener = TcpListener, Stream = TcpStream> + Sync,
{
    let done = AtomicU64::new(0);
    let (_, told) = join(
        rt,
        || settles_until_stopped(rt, alloc, &to.operators, &done),
        || stopped(rt, alloc, &to.host, &done),
    );
    Ok((told?, done.load(Ordering::SeqCst)))
}

// Each command that was answered is in the setup of the stop, and in the last lines.
#[test]
fn a_stop_loses_no_command(rt: HostRuntime) -> Result<(), Fail> {
    let alloc = rt.alloc();
    let text = setup_text(alloc, 7802)?;
    let ask = |to: Addresses| settled_and_stopped(&rt, alloc, to);
    let ((answer, done), lines) = served_with_host(&rt, text.as_str(), APART, ask)?;
    let times = done.to_string(alloc)?;
    let balance = ["balance = -", times.as_str()].concat(alloc)?;
    let setup = str::from_utf8(answer.as_slice())?;
    let line = ["acme 200 ", times.as_str(), " 4xx 0 503 0 link 0"].concat(alloc)?;
    let printed = str::from_utf8(lines.as_slice())?;
    assert!(rt; done >= ENOUGH);
    assert!(rt; has_line(setup, balance.as_str()), "{balance}: {setup}");
    assert!(rt; has_line(printed, line.as_str()), "{line}: {printed}");
    Ok(())
}
