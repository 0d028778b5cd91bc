//! The requests of a connection, one after another, however its bytes are cut.

use super::devices::Pieces;
use super::outcomes::{Outcome, serve_next_packet};
use super::served::{BAD, CLOSED, CONTINUE, KEPT, POSTED};
use super::texts::{fill, is_joined, joined, repeat};
use http_link::{Inbox, LinkFault, Served};
use std::alloc::Global;
use std::test::Fail;

const CLOSING: &[u8] =
    b"POST /ilp/acme HTTP/1.1\r\nContent-Length: 5\r\nAuthorization: Bearer tok-Bob\r\nConnection: close\r\n\r\nframe";

const WAITING: &[u8] =
    b"POST /ilp/acme HTTP/1.1\r\nContent-Length: 5\r\nAuthorization: Bearer tok-Bob\r\nExpect: 100-continue\r\n\r\nframe";

const REFUSED: &[u8] = b"POST /ilp/none HTTP/1.1\r\nContent-Length: 5\r\n\r\nframe";

const UNKNOWN: &[u8] = b"HTTP/1.1 404 Not Found\r\nContent-Length: 0\r\nConnection: close\r\n\r\n";

// Whether two requests are served, the next one is too and closes the connection, however it is cut.
fn are_served(alloc: Global, stream: &[u8], inbox: &mut Inbox) -> bool {
    for cut in 0..=stream.len() {
        let mut reader = Pieces::cut_at(stream, cut);
        inbox.clear();
        for _ in 0..2 {
            let kept = serve_next_packet(alloc, &mut reader, inbox);
            if !kept.is_answered(Served::Kept, KEPT) {
                return false;
            }
        }
        let last = serve_next_packet(alloc, &mut reader, inbox);
        if !last.is_answered(Served::Closed, CLOSED) {
            return false;
        }
    }
    true
}

#[test]
fn requests_of_a_connection(rt: HostRuntime) -> Result<(), Fail> {
    let stream = joined(rt.alloc(), &[POSTED, b"\r\n", POSTED, CLOSING, POSTED])?;
    let mut inbox = Inbox::new();
    assert!(rt; are_served(rt.alloc(), stream.as_slice(), &mut inbox));
    Ok(())
}

// A request, or the front of one; how it is served on a connection on which nothing follows, how often the service is asked, and
// the text.
static ALONE: [(&[u8], Served, u32, &[u8]); 7] = [
    (POSTED, Served::Kept, 1, KEPT),
    (CLOSING, Served::Closed, 1, CLOSED),
    (REFUSED, Served::Closed, 0, UNKNOWN),
    (b"X\r\n\r\n", Served::Closed, 0, BAD),
    (b"POST /ilp/acme HTTP/1.1\r\n", Served::Ended, 0, b""),
    (b"\r\n", Served::Ended, 0, b""),
    (b"", Served::Ended, 0, b""),
];

// Serves the first request of a connection that is cut there.
fn serve_alone(alloc: Global, stream: &[u8], cut: usize, inbox: &mut Inbox) -> Outcome {
    inbox.clear();
    serve_next_packet(alloc, &mut Pieces::cut_at(stream, cut), inbox)
}

#[test]
fn one_request_of_a_connection(rt: HostRuntime) -> Result<(), Fail> {
    let mut inbox = Inbox::new();
    for (i, (stream, served, questions, text)) in ALONE.iter().enumerate() {
        for cut in 0..=stream.len() {
            let next = serve_alone(rt.alloc(), stream, cut, &mut inbox);
            assert!(rt;
                next.served == Ok(*served) && next.questions == *questions,
                "{i} {cut}"
            );
            assert!(rt; next.text.as_slice() == *text, "{i} {cut}");
        }
    }
    Ok(())
}

#[test]
fn a_client_that_waits(rt: HostRuntime) -> Result<(), Fail> {
    let (head, _) = WAITING.split_at(WAITING.len().saturating_sub(5));
    let mut inbox = Inbox::new();
    let cut_off = serve_next_packet(rt.alloc(), &mut Pieces::cut_at(head, 0), &mut inbox);
    assert!(rt; cut_off.is_unasked(Ok(Served::Ended), CONTINUE));
    let whole = serve_next_packet(rt.alloc(), &mut Pieces::cut_at(WAITING, 0), &mut inbox);
    assert!(rt; whole.is_right && is_joined(whole.text.as_slice(), CONTINUE, KEPT));
    Ok(())
}

// A request with a head of so many bytes and a body of so many.
fn request_of(alloc: Global, head: usize, body: usize) -> Result<Vec<u8>, Fail> {
    let mut stream = Vec::from_slice(
        alloc,
        b"POST /ilp/acme HTTP/1.1\r\nAuthorization: Bearer tok-Bob\r\nContent-Length: ",
    )?;
    stream.extend_from_slice(body.to_string(alloc)?.as_bytes())?;
    stream.extend_from_slice(b"\r\nB:")?;
    fill(&mut stream, b'b', head.saturating_sub(4))?;
    stream.extend_from_slice(b"\r\n\r\n")?;
    repeat(&mut stream, b"b", body)?;
    Ok(stream)
}

// The largest body after a head of so many bytes, and one more request.
fn largest_of(alloc: Global, head: usize) -> Result<Vec<u8>, Fail> {
    let mut stream = request_of(alloc, head, 34_000)?;
    stream.extend_from_slice(POSTED)?;
    Ok(stream)
}

// Whether both are served.
fn is_largest_served(alloc: Global, head: usize, inbox: &mut Inbox) -> Result<bool, Fail> {
    let stream = largest_of(alloc, head)?;
    let mut reader = Pieces::cut_at(stream.as_slice(), 0);
    let first = serve_next_packet(alloc, &mut reader, inbox);
    let second = serve_next_packet(alloc, &mut reader, inbox);
    Ok(first.text.as_slice() == KEPT && second.is_answered(Served::Kept, KEPT))
}

// Whether the first is refused.
fn is_largest_refused(alloc: Global, head: usize, inbox: &mut Inbox) -> Result<bool, Fail> {
    let stream = largest_of(alloc, head)?;
    let first = serve_alone(alloc, stream.as_slice(), 0, inbox);
    Ok(first.text.as_slice() == BAD)
}

#[test]
fn the_largest_request(rt: HostRuntime) -> Result<(), Fail> {
    let mut inbox = Inbox::new();
    assert!(rt; is_largest_served(rt.alloc(), 8_192, &mut inbox)?);
    assert!(rt; is_largest_refused(rt.alloc(), 8_193, &mut inbox)?);
    Ok(())
}

#[test]
fn what_a_connection_waits_for(rt: HostRuntime) -> Result<(), Fail> {
    let mut inbox = Inbox::new();
    let mut reader = Pieces::cut_at(POSTED, 7);
    assert!(rt; inbox.await_more(&mut reader) == Ok(true));
    let left = reader.bytes.len();
    assert!(rt; inbox.await_more(&mut reader) == Ok(true) && reader.bytes.len() == left);
    let served = serve_next_packet(rt.alloc(), &mut reader, &mut inbox);
    assert!(rt; served.is_right);
    assert!(rt; inbox.await_more(&mut reader) == Ok(false));
    let mut broken = Pieces::failing_after(POSTED, 0);
    assert!(rt; inbox.await_more(&mut broken) == Err(LinkFault::Read));
    Ok(())
}

#[test]
fn connections_that_fail(rt: HostRuntime) -> Result<(), Fail> {
    for reads in 0..POSTED.len() {
        let mut inbox = Inbox::new();
        let mut reader = Pieces::failing_after(POSTED, reads);
        let next = serve_next_packet(rt.alloc(), &mut reader, &mut inbox);
        assert!(rt; next.is_unasked(Err(LinkFault::Read), b""), "{reads}");
    }
    Ok(())
}
