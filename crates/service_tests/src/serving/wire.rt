//! What goes over the wire, and the setups of tenants whose second peer listens on loopback. Frames are named in braces.

ghost use Rattle.std.specs.Prelude.{◌≡◌};

use crate::START;
use ilp_addr::Moment;
use std::alloc::Global;
use std::test::Fail;
use test_texts::{frame, replaced, setup_by};

/// A clock that always gives the start.
pub struct FixedClock;

impl workers::Clock for FixedClock {
    ghost gives = { λ clock moment. moment ≡ 1_893_456_000_000 };

    fn now(&self) -> Moment {
        Moment::new(START).unwrap_or_else(|| unreachable!())
    }
}

// What is not usual of one tenant.
const ONE: &str = "\
acme|admin|'root'
acme|hold|{hold}
bob|url|'http://127.0.0.1:{port}/ilp'
";

/// A setup of one tenant whose second peer listens at that port, and which holds packets for so many milliseconds at most.
pub fn one_tenant(alloc: Global, port: u16, hold: u32) -> Result<String, Fail> {
    let port = port.to_string(alloc)?;
    let hold = hold.to_string(alloc)?;
    let text = setup_by(alloc, ONE)?;
    let values = [("{hold}", hold.as_str()), ("{port}", port.as_str())];
    Ok(replaced(alloc, text.as_str(), &values)?)
}

// What is not usual of two tenants.
const TWO: &str = "\
acme|admin|'root'
acme|journal|2048
acme|hold|{hold}
alice|ceiling|1000000000
alice|credit|1000000000
alice|burst|1000000
alice|per_second|1000000
bob|url|'http://127.0.0.1:{acme}/ilp'
bob|ceiling|1000000000
bob|credit|1000000000
bob|burst|1000000
bob|per_second|1000000
beta||[[tenant]]
beta|admin|'root'
beta|journal|2048
beta|hold|{hold}
beta alice||[[tenant.peer]]
beta alice|ceiling|1000000000
beta alice|credit|1000000000
beta alice|burst|1000000
beta alice|per_second|1000000
beta bob||[[tenant.peer]]
beta bob|url|'http://127.0.0.1:{beta}/ilp'
beta bob|ceiling|1000000000
beta bob|credit|1000000000
beta bob|burst|1000000
beta bob|per_second|1000000
beta route||[[tenant.route]]
beta rate||[[tenant.rate]]
";

/// A setup of two tenants whose second peers listen at these ports, and which hold packets for so many milliseconds at most.
pub fn two_tenants(alloc: Global, [acme, beta]: [u16; 2], hold: u32) -> Result<String, Fail> {
    let acme = acme.to_string(alloc)?;
    let beta = beta.to_string(alloc)?;
    let hold = hold.to_string(alloc)?;
    let text = setup_by(alloc, TWO)?;
    let values = [
        ("{hold}", hold.as_str()),
        ("{acme}", acme.as_str()),
        ("{beta}", beta.as_str()),
    ];
    Ok(replaced(alloc, text.as_str(), &values)?)
}

/// A request with that token and that body.
pub fn request(alloc: Global, path: &str, token: &str, body: &[u8]) -> Result<Vec<u8>, Fail> {
    let size = body.len().to_string(alloc)?;
    let head = [
        "POST ",
        path,
        " HTTP/1.1\r\nAuthorization: Bearer ",
        token,
        "\r\nContent-Length: ",
        size.as_str(),
        "\r\n\r\n",
    ]
    .concat(alloc)?;
    with_body(alloc, head.as_str(), body)
}

/// A request with that token and that packet.
pub fn packet_by(alloc: Global, path: &str, token: &str, packet: &str) -> Result<Vec<u8>, Fail> {
    let packet = frame(alloc, packet)?;
    request(alloc, path, token, packet.as_slice())
}

// An answer of status 200 with that body.
fn good(alloc: Global, kind: &str, body: &[u8]) -> Result<Vec<u8>, Fail> {
    let size = body.len().to_string(alloc)?;
    let head = [
        "HTTP/1.1 200 OK\r\nContent-Type: ",
        kind,
        "\r\nContent-Length: ",
        size.as_str(),
        "\r\n\r\n",
    ]
    .concat(alloc)?;
    with_body(alloc, head.as_str(), body)
}

/// An answer of status 200 with that reply.
pub fn good_reply(alloc: Global, reply: &str) -> Result<Vec<u8>, Fail> {
    let reply = frame(alloc, reply)?;
    good(alloc, "application/octet-stream", reply.as_slice())
}

/// An answer of status 200 with that text.
pub fn good_text(alloc: Global, text: &str) -> Result<Vec<u8>, Fail> {
    good(alloc, "text/plain", text.as_bytes())
}

/// Whether an answer is of status 200, with that reply.
pub fn is_reply(alloc: Global, answer: &[u8], reply: &str) -> Result<bool, Fail> {
    let wanted = good_reply(alloc, reply)?;
    Ok(answer == wanted.as_slice())
}

/// Whether an answer is of status 200, with that text.
pub fn is_text(alloc: Global, answer: &[u8], text: &str) -> Result<bool, Fail> {
    let wanted = good_text(alloc, text)?;
    Ok(answer == wanted.as_slice())
}

/// What the peer that listens at the port is sent for that packet.
pub fn posted(alloc: Global, port: u16, packet: &str) -> Result<Vec<u8>, Fail> {
    let packet = frame(alloc, packet)?;
    let port = port.to_string(alloc)?;
    let size = packet.len().to_string(alloc)?;
    let head = [
        "POST /ilp HTTP/1.1\r\nHost: 127.0.0.1:",
        port.as_str(),
        "\r\nAuthorization: Bearer out-bob\r\nAccept: application/octet-stream\r\nContent-Type: application/octet-stream\r\nContent-Length: ",
        size.as_str(),
        "\r\nConnection: close\r\n\r\n",
    ]
    .concat(alloc)?;
    with_body(alloc, head.as_str(), packet.as_slice())
}

/// The answer of a peer that fulfils a packet.
pub fn peer_answer(alloc: Global) -> Result<Vec<u8>, Fail> {
    let fulfill = frame(alloc, "{fulfill}")?;
    with_body(
        alloc,
        "HTTP/1.1 200 OK\r\nContent-Length: 35\r\n\r\n",
        fulfill.as_slice(),
    )
}

fn with_body(alloc: Global, head: &str, body: &[u8]) -> Result<Vec<u8>, Fail> {
    let mut whole = Vec::new(alloc);
    whole.extend_from_slice(head.as_bytes())?;
    whole.extend_from_slice(body)?;
    Ok(whole)
}
