//! Packets that are posted, and what the answers of peers mean, as the standards and our formats say.

use super::devices::{Pieces, Taken};
use super::outcomes::{Posted, post_to_bob};
use super::texts::{fill, is_joined, repeat};
use http_link::PostFault;
use std::alloc::Global;
use std::test::Fail;

// 1500 units to g.acme.bob.x until 2030-01-01T00:00:09Z.
const SENT: &[u8; 73] = b"\x0cG\0\0\0\0\0\0\x05\xdc20300101000009000\
        fhz\xad\xf8b\xbdwl\x8f\xc1\x8b\x8e\x9f\x8e\
        \x20\x08\x97\x14\x85n\xe23\xb3\x90\x2aY\x1d\x0d_\x29\x25\x0cg.acme.bob.x\0";

const HEAD: &[u8] =
    b"POST /ilp HTTP/1.1\r\nHost: 127.0.0.1:7802\r\nAuthorization: Bearer out-bob\r\n\
        Accept: application/octet-stream\r\nContent-Type: application/octet-stream\r\n\
        Content-Length: 73\r\nConnection: close\r\n\r\n";

// A Fulfill with 32 zero bytes and no data.
const FULFILLED: &[u8; 35] =
    b"\x0d\x21\0\0\0\0\0\0\0\0\0\0\0\0\0\0\0\0\0\0\0\0\0\0\0\0\0\0\0\0\0\0\0\0\0";

const EARLY: &[u8] = b"HTTP/1.1 103 Early Hints\r\nLink: </a>\r\n\r\n";

const SIZED: &[u8] = b"HTTP/1.1 200 OK\r\nContent-Length: 35\r\n\r\n";

// How many 103 heads come first, the last head, which a Fulfill follows, and how many bytes of that are given.
static ROWS: [(usize, &[u8], Result<usize, PostFault>); 27] = [
    (0, SIZED, Ok(35)),
    (4, SIZED, Ok(35)),
    (5, SIZED, Err(PostFault::Head)),
    (0, b"HTTP/1.0 200 OK\r\ncontent-LENGTH: 35\r\n\r\n", Ok(35)),
    (
        0,
        b"HTTP/1.1 200\r\nContent-Length:\t0000000035 \r\n\r\n",
        Ok(35),
    ),
    (0, b"HTTP/1.1 200 OK\r\nContent-Length: 34\r\n\r\n", Ok(34)),
    (0, b"HTTP/1.1 200 OK\r\nContent-Length: 0\r\n\r\n", Ok(0)),
    (0, b"HTTP/1.1 200 OK\r\n\r\n", Ok(35)),
    (
        0,
        b"HTTP/1.1 200 OK\r\nContent-Length: 36\r\n\r\n",
        Err(PostFault::Cut),
    ),
    (
        0,
        b"HTTP/1.1 200 OK\r\nContent-Length: 34000\r\n\r\n",
        Err(PostFault::Cut),
    ),
    (
        0,
        b"HTTP/1.1 200 OK\r\nContent-Length: 34001\r\n\r\n",
        Err(PostFault::Size),
    ),
    (
        0,
        b"HTTP/1.1 200 OK\r\nContent-Length: 9999999999\r\n\r\n",
        Err(PostFault::Size),
    ),
    (
        0,
        b"HTTP/1.1 200 OK\r\nContent-Length: 99999999999\r\n\r\n",
        Err(PostFault::Unframed),
    ),
    (
        0,
        b"HTTP/1.1 200 OK\r\nContent-Length: +35\r\n\r\n",
        Err(PostFault::Unframed),
    ),
    (
        0,
        b"HTTP/1.1 200 OK\r\nContent-Length:\r\n\r\n",
        Err(PostFault::Unframed),
    ),
    (
        0,
        b"HTTP/1.1 200 OK\r\nContent-Length: 35\r\nContent-Length: 35\r\n\r\n",
        Err(PostFault::Unframed),
    ),
    (
        0,
        b"HTTP/1.1 200 OK\r\nContent-Length: 35, 35\r\n\r\n",
        Err(PostFault::Unframed),
    ),
    (
        0,
        b"HTTP/1.1 200 OK\r\nTransfer-Encoding: gzip, chunked\r\n\r\n",
        Err(PostFault::Unframed),
    ),
    (
        0,
        b"HTTP/1.1 200 OK\r\nContent-Length: 35\r\nTransfer-Encoding: gzip\r\n\r\n",
        Err(PostFault::Unframed),
    ),
    (
        0,
        b"HTTP/1.1 201 Created\r\nContent-Length: 35\r\n\r\n",
        Err(PostFault::Status),
    ),
    (
        0,
        b"HTTP/1.1 503 Service Unavailable\r\nContent-Length: x\r\n\r\n",
        Err(PostFault::Status),
    ),
    (3, b"HTTP/1.1 099 Odd\r\n\r\n", Err(PostFault::Status)),
    (0, b"X\r\n\r\n", Err(PostFault::Head)),
    (1, b"HTTP/1.1 20 OK\r\n\r\n", Err(PostFault::Head)),
    (0, b"HTTP/2 200 OK\r\n\r\n", Err(PostFault::Head)),
    (
        2,
        b"HTTP/1.1 200 OK\r\nX Y: z\r\n\r\n",
        Err(PostFault::Head),
    ),
    (
        0,
        b"HTTP/1.1 200 OK\r\nContent-Length: 35\r\n folded\r\n\r\n",
        Err(PostFault::Head),
    ),
];

fn answer_of(alloc: Global, early: usize, head: &[u8]) -> Result<Vec<u8>, Fail> {
    let mut answer = Vec::new(alloc);
    repeat(&mut answer, EARLY, early)?;
    answer.extend_from_slice(head)?;
    answer.extend_from_slice(FULFILLED)?;
    Ok(answer)
}

// Posts the packet to a peer who answers so.
fn post_for(alloc: Global, answer: &[u8], cut: usize) -> Result<Posted, Fail> {
    let mut reader = Pieces::cut_at(answer, cut);
    post_to_bob(alloc, &mut reader, Taken::whole(alloc), SENT)
}

// Whether that is found in the answer, with the front of the Fulfill, and the packet is written whole.
fn is_found(
    alloc: Global,
    answer: &[u8],
    cut: usize,
    wanted: Result<usize, PostFault>,
) -> Result<bool, Fail> {
    let posted = post_for(alloc, answer, cut)?;
    let is_front = match posted.found {
        Ok(n) => posted.room.as_slice().get(..n) == FULFILLED.get(..n),
        Err(_) => true,
    };
    let is_written = is_joined(posted.text.as_slice(), HEAD, SENT);
    Ok(posted.found == wanted && is_front && is_written)
}

#[test]
fn answers_mean_the_same_however_they_are_cut(rt: HostRuntime) -> Result<(), Fail> {
    for (i, (early, head, wanted)) in ROWS.iter().enumerate() {
        let answer = answer_of(rt.alloc(), *early, head)?;
        for cut in 0..=answer.len() {
            assert!(rt;
                is_found(rt.alloc(), answer.as_slice(), cut, *wanted)?,
                "{i} {cut}"
            );
        }
    }
    Ok(())
}

#[test]
fn answers_that_end_early(rt: HostRuntime) -> Result<(), Fail> {
    let answer = answer_of(rt.alloc(), 1, SIZED)?;
    for n in 0..answer.len() {
        let (front, _) = answer.as_slice().split_at(n);
        let posted = post_for(rt.alloc(), front, 0)?;
        assert!(rt; posted.found == Err(PostFault::Cut), "{n}");
    }
    Ok(())
}

// The head's front, its bytes, its lines after the front, the bytes of the body, and the outcome.
static LIMITS: [(&[u8], usize, usize, usize, Result<usize, PostFault>); 7] = [
    (b"HTTP/1.1 200 OK\r\n", 8_192, 64, 35, Ok(35)),
    (b"HTTP/1.1 200 OK\r\n", 8_193, 64, 35, Err(PostFault::Head)),
    (b"HTTP/1.1 200 OK\r\n", 8_192, 65, 35, Err(PostFault::Head)),
    (b"HTTP/1.1 200 OK\r\n", 100, 1, 34_000, Ok(34_000)),
    (b"HTTP/1.1 200 OK\r\n", 100, 1, 34_001, Err(PostFault::Size)),
    (
        b"HTTP/1.1 200 OK\r\nContent-Length: 34000\r\n",
        100,
        1,
        34_000,
        Ok(34_000),
    ),
    (
        b"HTTP/1.1 200 OK\r\nContent-Length: 34000\r\n",
        100,
        1,
        34_001,
        Ok(34_000),
    ),
];

// An answer whose head has so many bytes, and so many lines after its front, and with a body of so many bytes.
fn answer_with(
    alloc: Global,
    front: &[u8],
    size: usize,
    lines: usize,
    body: usize,
) -> Result<Vec<u8>, Fail> {
    let mut answer = Vec::from_slice(alloc, front)?;
    repeat(&mut answer, b"A:\r\n", lines.saturating_sub(1))?;
    answer.extend_from_slice(b"B:")?;
    fill(&mut answer, b'b', size.saturating_sub(4))?;
    answer.extend_from_slice(b"\r\n\r\n")?;
    repeat(&mut answer, b"x", body)?;
    Ok(answer)
}

#[test]
fn answers_at_their_limits(rt: HostRuntime) -> Result<(), Fail> {
    for (front, size, lines, body, wanted) in &LIMITS {
        let answer = answer_with(rt.alloc(), front, *size, *lines, *body)?;
        let posted = post_for(rt.alloc(), answer.as_slice(), 0)?;
        assert!(rt; posted.found == *wanted, "{size} {lines} {body}");
    }
    Ok(())
}

fn put_line(answer: &mut Vec<u8>) -> Result<(), Fail> {
    answer.extend_from_slice(b"A:")?;
    repeat(answer, b"a", 124)?;
    answer.extend_from_slice(b"\r\n")?;
    Ok(())
}

// A 103 head of 62 lines after its first.
fn put_early(answer: &mut Vec<u8>) -> Result<(), Fail> {
    answer.extend_from_slice(b"HTTP/1.1 103 Early Hints\r\n")?;
    for _ in 0..62 {
        put_line(answer)?;
    }
    answer.extend_from_slice(b"\r\n")?;
    Ok(())
}

// Four such heads come first, and a body of 34,000 bytes last.
fn long_answer(alloc: Global) -> Result<Vec<u8>, Fail> {
    let mut answer = Vec::new(alloc);
    for _ in 0..4 {
        put_early(&mut answer)?;
    }
    answer.extend_from_slice(b"HTTP/1.1 200 OK\r\n\r\n")?;
    repeat(&mut answer, b"x", 34_000)?;
    Ok(answer)
}

// Whether the answer takes too many reads of one byte, and is read whole by larger ones.
fn takes_too_many_reads(alloc: Global, answer: &[u8]) -> Result<bool, Fail> {
    let mut reader = Pieces::failing_after(answer, usize::MAX);
    let dripped = post_to_bob(alloc, &mut reader, Taken::whole(alloc), SENT)?;
    let whole = post_for(alloc, answer, 0)?;
    Ok(
        dripped.found == Err(PostFault::Turns)
            && reader.bytes.len().checked_add(50_000) == Some(answer.len())
            && whole.found == Ok(34_000),
    )
}

#[test]
fn answers_that_take_too_many_reads(rt: HostRuntime) -> Result<(), Fail> {
    let answer = long_answer(rt.alloc())?;
    assert!(rt; takes_too_many_reads(rt.alloc(), answer.as_slice())?);
    Ok(())
}

// Whether the packet is posted, or a fault is returned, if the answer can be read so often, one byte at a time.
fn is_read(alloc: Global, answer: &[u8], reads: usize) -> Result<bool, Fail> {
    let mut reader = Pieces::failing_after(answer, reads);
    let posted = post_to_bob(alloc, &mut reader, Taken::whole(alloc), SENT)?;
    let wanted = if reads < answer.len() {
        Err(PostFault::Read)
    } else {
        Ok(35)
    };
    Ok(posted.found == wanted)
}

// Whether the packet is posted, or a fault is returned, if so many bytes of it can be written, and they are.
fn is_written(alloc: Global, answer: &[u8], writes: usize) -> Result<bool, Fail> {
    let mut reader = Pieces::cut_at(answer, 0);
    let writer = Taken::failing_after(alloc, writes);
    let posted = post_to_bob(alloc, &mut reader, writer, SENT)?;
    let wanted = if writes < HEAD.len() + SENT.len() {
        Err(PostFault::Write)
    } else {
        Ok(35)
    };
    Ok(posted.found == wanted && posted.text.len() == writes)
}

#[test]
fn devices_that_fail(rt: HostRuntime) -> Result<(), Fail> {
    let answer = answer_of(rt.alloc(), 1, SIZED)?;
    for reads in 0..=answer.len() {
        assert!(rt; is_read(rt.alloc(), answer.as_slice(), reads)?, "{reads}");
    }
    for writes in 0..=HEAD.len() + SENT.len() {
        assert!(rt;
            is_written(rt.alloc(), answer.as_slice(), writes)?,
            "{writes}"
        );
    }
    Ok(())
}
