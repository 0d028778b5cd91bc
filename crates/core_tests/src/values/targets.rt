//! Targets of peers: which URLs and tokens are taken, and their parts.

use super::rows::expect;
use ilp_addr::{Host, Target};
use std::alloc::Global;
use std::net::{Ipv4Addr, Ipv6Addr};
use std::process::Abort;
use std::test::Fail;

type Taken = (&'static [u8], &'static [u8], u16, &'static [u8]);

// A URL, and its parts: its host and port as written, the port, and the path.
static TAKEN: [Taken; 7] = [
    (b"http://localhost/", b"localhost", 80, b"/"),
    (
        b"http://localhost:7801/ilp",
        b"localhost:7801",
        7801,
        b"/ilp",
    ),
    (b"http://127.0.0.1/a/b?c#d", b"127.0.0.1", 80, b"/a/b?c#d"),
    (b"http://127.0.0.1:1/", b"127.0.0.1:1", 1, b"/"),
    (b"http://[::1]/~", b"[::1]", 80, b"/~"),
    (
        b"http://[0:0:0:0:0:0:0:1]:65535/",
        b"[0:0:0:0:0:0:0:1]:65535",
        65_535,
        b"/",
    ),
    (b"http://[::1]:80//", b"[::1]:80", 80, b"//"),
];

static REFUSED: [&[u8]; 22] = [
    b"",
    b"http://",
    b"http:///ilp",
    b"http://localhost",
    b"http://localhost:/",
    b"http://localhost:0/",
    b"http://localhost:080/",
    b"http://localhost:65536/",
    b"http://localhost:+80/",
    b"http://localhost:18446744073709551697/",
    b"http://LOCALHOST/",
    b"http://localhost./",
    b"HTTP://localhost/",
    b"https://localhost/",
    b"http://user@localhost/",
    b"http://example.org/",
    b"http://127.0.0.256/",
    b"http://127.0.0.01/",
    b"http://[::1/",
    b"http://[::1%25lo]/",
    b"http://[127.0.0.1]/",
    b"http://localhost/a b",
];

fn target(url: &[u8]) -> Result<Target, Fail> {
    Ok(Target::new(url, b"out-1._~+/=").ok_or("a target")?)
}

fn is_target(url: &[u8], token: &[u8]) -> bool {
    Target::new(url, token).is_some()
}

fn expect_taken(rt: &impl Abort, rows: &[Taken]) -> Result<(), Fail> {
    let mut kept = target(b"http://[::1]:1/of-the-last-row")?;
    for (url, host, port, path) in rows {
        let target = target(url)?.copy();
        kept.copy_from(&target);
        expect(rt, url, kept.is_same(&target));
        expect(rt, url, target.host() == *host);
        expect(rt, url, target.port() == *port);
        expect(rt, url, target.path() == *path);
        expect(rt, url, target.token() == b"out-1._~+/=".as_slice());
    }
    Ok(())
}

fn expect_host(rt: &impl Abort, url: &[u8], host: Host) -> Result<(), Fail> {
    expect(rt, url, target(url)?.address() == host);
    Ok(())
}

#[test]
fn urls_of_peers(rt: HostRuntime) -> Result<(), Fail> {
    expect_taken(&rt, &TAKEN)?;
    expect_host(&rt, b"http://localhost/", Host::Localhost)?;
    let loopback = Ipv4Addr::new(127, 0, 0, 1);
    expect_host(&rt, b"http://127.0.0.1:1/", Host::V4(loopback))?;
    let loopback = Ipv6Addr::new(0, 0, 0, 0, 0, 0, 0, 1);
    expect_host(&rt, b"http://[::1]:80//", Host::V6(loopback))
}

fn expect_refused(rt: &impl Abort, urls: &[&[u8]]) {
    for url in urls {
        expect(rt, url, !is_target(url, b"out"));
    }
}

fn expect_lengths(rt: &impl Abort, alloc: Global) -> Result<(), Fail> {
    let mut url = Vec::from_slice(alloc, b"http://localhost/")?;
    for _ in url.len()..255 {
        url.push(b'a')?;
    }
    assert!(rt; url.len() == 255 && is_target(&url, b"out"));
    url.push(b'a')?;
    assert!(rt; !is_target(&url, b"out"));
    let mut token = vec![in alloc; b't'; 64]?;
    assert!(rt; is_target(b"http://localhost/", &token));
    token.push(b't')?;
    assert!(rt; !is_target(b"http://localhost/", &token));
    Ok(())
}

#[test]
fn urls_and_tokens_that_name_no_target(rt: HostRuntime) -> Result<(), Fail> {
    expect_refused(&rt, &REFUSED);
    assert!(rt; !is_target(b"http://localhost/", b""));
    assert!(rt; !is_target(b"http://localhost/", b"to ken"));
    expect_lengths(&rt, rt.alloc())
}
