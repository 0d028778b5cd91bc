//! A client that waits for `100 Continue`.

use super::wire::good_reply;
use super::{ALONE, NOTHING_MORE, answer_of, served_while, usual};
use std::alloc::Global;
use std::io;
use std::io::{Read, Write};
use std::net::{Net, Shutdown, SocketAddr, TcpStream};
use std::test::Fail;
use std::time::Duration;
use test_texts::frame;

const HEAD: &[u8] =
    b"POST /ilp/acme HTTP/1.1\r\nAuthorization: Bearer tok-bob\r\nContent-Length: 72\r\nExpect: 100-continue\r\n\r\n";

const GO_ON: [u8; 25] = *b"HTTP/1.1 100 Continue\r\n\r\n";

// What comes first for a head, and the rest once the body followed. Nothing within 5 seconds is a fault.
fn asked_patiently(
    net: &impl Net<Stream = TcpStream>,
    alloc: Global,
    addr: &SocketAddr,
    body: &[u8],
) -> io::Result<([u8; 25], Vec<u8>)> {
    let stream = TcpStream::connect_timeout(net, addr, Duration::from_secs(5))?;
    stream.set_read_timeout(Some(Duration::from_secs(5)))?;
    let mut out = &stream;
    out.write_all(HEAD)?;
    let mut first = [0u8; 25];
    let mut input = &stream;
    input.read_exact(&mut first)?;
    out.write_all(body)?;
    stream.shutdown(Shutdown::Write)?;
    let rest = answer_of(alloc, &stream)?;
    Ok((first, rest))
}

#[test]
fn a_client_that_waits_is_told_to_go_on(rt: HostRuntime) -> Result<(), Fail> {
    let alloc = rt.alloc();
    let setup = usual(alloc)?;
    let body = frame(alloc, "{config}")?;
    let ask = |addr: &SocketAddr| Ok(asked_patiently(&rt, alloc, addr, body.as_slice())?);
    let ((first, rest), _) = served_while(&rt, setup.as_str(), ALONE, NOTHING_MORE, ask)?;
    let wanted = good_reply(alloc, "{configuration of bob}")?;
    assert!(rt; first.as_slice() == GO_ON.as_slice());
    assert_eq!(rt; rest.as_slice(), wanted.as_slice());
    Ok(())
}
