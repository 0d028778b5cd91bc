//! Bodies in chunks, of requests and of answers, as RFC 9112 (7.1) and our limits say, however they are cut.

use super::devices::{Pieces, Taken};
use super::outcomes::{Outcome, post_to_bob, serve, serve_next_packet, serve_packet};
use super::served::{BAD, CONTINUE, Desk, KEPT, POSTED};
use super::texts::{bytes_of, fill, first_cell, is_joined, joined, repeat};
use http_link::{Inbox, LinkFault, PostFault, RequestKind, Served};
use std::alloc::Global;
use std::test::Fail;

const HEAD: &[u8] =
    b"POST /ilp/acme HTTP/1.1\r\nTransfer-Encoding: chunked\r\nAuthorization: Bearer tok-Bob\r\n\r\n";

const LARGE: &[u8] =
    b"HTTP/1.1 413 Content Too Large\r\nContent-Length: 0\r\nConnection: close\r\n\r\n";

// Bodies, each of which is `frame`, whole.
static WHOLE: [&[u8]; 6] = [
    b"5\r\nframe\r\n0\r\n\r\n",
    b"1\r\nf\r\n1\r\nr\r\n3\r\name\r\n0\r\n\r\n",
    b"0005 \t;x=y; z\r\nframe\r\n00\r\nA: b\r\nC:\r\n\r\n",
    b"00000000000000A\r\n0123456789\r\n0\r\n\r\n",
    b"4;\"\0\xff\"\r\nfram\r\n1\r\ne\r\n0;last\r\n\n",
    b"0\r\nPOST: /ilp/acme HTTP/1.1\r\n\r\n",
];

// Bodies that are refused, and the answer; what follows in them is not looked at.
static REFUSED: &str = r"5\nframe\r\n0\r\n\r\n|BAD
\r\n5\r\nframe\r\n0\r\n\r\n|BAD
-5\r\nframe\r\n0\r\n\r\n|BAD
+5\r\nframe\r\n0\r\n\r\n|BAD
 5\r\nframe\r\n0\r\n\r\n|BAD
5 5\r\nframe\r\n0\r\n\r\n|BAD
0x5\r\nframe\r\n0\r\n\r\n|BAD
G\r\nframe\r\n0\r\n\r\n|BAD
;5\r\nframe\r\n0\r\n\r\n|BAD
00000000000000005\r\nframe\r\n0\r\n\r\n|BAD
FFFFFFFFFFFFFFFFF\r\n\r\n|BAD
5\r\nframe0\r\n\r\n|BAD
5\r\nframe\n0\r\n\r\n|BAD
5\r\nframe!\r\n0\r\n\r\n|BAD
4\r\nframe\r\n0\r\n\r\n|BAD
5\r\nframe\r\nx\r\n\r\n|BAD
5\r\nframe\r\n0\r\nA b\r\n\r\n|BAD
5\r\nframe\r\n0\r\nA: b\r\n c\r\n\r\n|BAD
FFFFFFFFFFFFFFFF\r\n|LARGE
84d1\r\n|LARGE
5\r\nframe\r\n84CC\r\n|LARGE
1;x\r\n.\r\n84D0;x\r\n|LARGE";

fn refusal(name: &str) -> &'static [u8] {
    if name == "LARGE" { LARGE } else { BAD }
}

// Whether a stream is served that a request follows, however it is cut.
fn is_served(alloc: Global, stream: &[u8]) -> Result<bool, Fail> {
    for cut in 0..=stream.len() {
        let mut reader = Pieces::cut_at(stream, cut);
        let first = serve_packet(alloc, &mut reader)?;
        if !first.is_asked(Served::Kept, KEPT) || reader.bytes != POSTED {
            return Ok(false);
        }
    }
    Ok(true)
}

#[test]
fn whole_bodies(rt: HostRuntime) -> Result<(), Fail> {
    for (i, body) in WHOLE.iter().enumerate() {
        let stream = joined(rt.alloc(), &[HEAD, body, POSTED])?;
        assert!(rt; is_served(rt.alloc(), stream.as_slice())?, "{i}");
    }
    Ok(())
}

// Whether the two requests of a connection are served, however it is cut.
fn are_served(alloc: Global, stream: &[u8], inbox: &mut Inbox) -> bool {
    for cut in 0..=stream.len() {
        let mut reader = Pieces::cut_at(stream, cut);
        inbox.clear();
        for _ in 0..2 {
            let next = serve_next_packet(alloc, &mut reader, inbox);
            if !next.is_asked(Served::Kept, KEPT) {
                return false;
            }
        }
    }
    true
}

#[test]
fn whole_bodies_of_a_connection(rt: HostRuntime) -> Result<(), Fail> {
    let mut inbox = Inbox::new();
    for (i, body) in WHOLE.iter().enumerate() {
        let stream = joined(rt.alloc(), &[HEAD, body, POSTED])?;
        assert!(rt;
            are_served(rt.alloc(), stream.as_slice(), &mut inbox),
            "{i}"
        );
    }
    Ok(())
}

#[test]
fn a_body_that_is_asked(rt: HostRuntime) -> Result<(), Fail> {
    for body in [WHOLE[0], WHOLE[1], WHOLE[2], WHOLE[4]] {
        let stream = joined(rt.alloc(), &[HEAD, body])?;
        let first = serve_packet(rt.alloc(), &mut Pieces::cut_at(stream.as_slice(), 0))?;
        assert!(rt; first.is_answered(Served::Kept, KEPT));
    }
    Ok(())
}

// Whether the front of a request is read to its end, and not served.
fn is_cut(alloc: Global, front: &[u8]) -> Result<bool, Fail> {
    let mut reader = Pieces::cut_at(front, 0);
    let first = serve_packet(alloc, &mut reader)?;
    Ok(first.is_unasked(Ok(Served::Ended), b"") && reader.bytes.is_empty())
}

// Whether it is not served as the next of a connection.
fn is_cut_next(alloc: Global, front: &[u8], inbox: &mut Inbox) -> bool {
    inbox.clear();
    let next = serve_next_packet(alloc, &mut Pieces::cut_at(front, 0), inbox);
    next.served == Ok(Served::Ended) && next.questions == 0
}

#[test]
fn bodies_that_are_cut(rt: HostRuntime) -> Result<(), Fail> {
    let mut inbox = Inbox::new();
    for (i, body) in WHOLE.iter().enumerate() {
        let stream = joined(rt.alloc(), &[HEAD, body])?;
        for n in HEAD.len()..stream.len() {
            let (front, _) = stream.as_slice().split_at(n);
            assert!(rt; is_cut(rt.alloc(), front)?, "{i} {n}");
            assert!(rt; is_cut_next(rt.alloc(), front, &mut inbox), "{i} {n}");
        }
    }
    Ok(())
}

// Whether a stream is refused with that answer, however it is cut.
fn is_refused(alloc: Global, stream: &[u8], answer: &[u8]) -> Result<bool, Fail> {
    for cut in 0..=stream.len() {
        let first = serve_packet(alloc, &mut Pieces::cut_at(stream, cut))?;
        if !first.is_unasked(Ok(Served::Closed), answer) {
            return Ok(false);
        }
    }
    Ok(true)
}

// Whether it is so refused as the next of a connection.
fn is_refused_next(alloc: Global, stream: &[u8], answer: &[u8], inbox: &mut Inbox) -> bool {
    for cut in 0..=stream.len() {
        inbox.clear();
        let next = serve_next_packet(alloc, &mut Pieces::cut_at(stream, cut), inbox);
        if !next.is_unasked(Ok(Served::Closed), answer) {
            return false;
        }
    }
    true
}

// A request with the body of that cell.
fn request(alloc: Global, body: &str) -> Result<Vec<u8>, Fail> {
    let body = bytes_of(alloc, body)?;
    joined(alloc, &[HEAD, body.as_slice()])
}

fn is_row_refused(alloc: Global, row: &'static str, inbox: &mut Inbox) -> Result<bool, Fail> {
    let (body, name) = first_cell(row)?;
    let stream = request(alloc, body)?;
    let answer = refusal(name);
    Ok(
        is_refused(alloc, stream.as_slice(), answer)?
            && is_refused_next(alloc, stream.as_slice(), answer, inbox),
    )
}

#[test]
fn refused_bodies(rt: HostRuntime) -> Result<(), Fail> {
    let mut inbox = Inbox::new();
    for row in REFUSED.lines() {
        assert!(rt; is_row_refused(rt.alloc(), row, &mut inbox)?, "{row}");
    }
    Ok(())
}

// The version and the fields of a request with the body `frame` in one chunk, and the answer.
static HEADS: [(&[u8], &[u8], &[u8]); 6] = [
    (b"1", b"transfer-encoding:\t CHUNKED \t\r\n", KEPT),
    (b"0", b"Transfer-Encoding: chunked\r\n", BAD),
    (b"1", b"Transfer-Encoding: gzip, chunked\r\n", BAD),
    (b"1", b"Transfer-Encoding: chunked, chunked\r\n", BAD),
    (b"1", b"Transfer-Encoding:\r\n", BAD),
    (
        b"1",
        b"Transfer-Encoding: chunked\r\nTransfer-Encoding: chunked\r\n",
        BAD,
    ),
];

// Their request.
fn coded(alloc: Global, minor: &[u8], fields: &[u8]) -> Result<Vec<u8>, Fail> {
    let mut stream = joined(alloc, &[b"POST /ilp/acme HTTP/1.", minor])?;
    stream.extend_from_slice(b"\r\nAuthorization: Bearer tok-Bob\r\n")?;
    stream.extend_from_slice(fields)?;
    stream.extend_from_slice(b"\r\n")?;
    stream.extend_from_slice(WHOLE[0])?;
    Ok(stream)
}

#[test]
fn heads_of_coded_bodies(rt: HostRuntime) -> Result<(), Fail> {
    for (i, (minor, fields, answer)) in HEADS.iter().enumerate() {
        let stream = coded(rt.alloc(), minor, fields)?;
        assert!(rt; is_answered(rt.alloc(), stream.as_slice(), answer)?, "{i}");
    }
    Ok(())
}

// Whether a request gets that answer.
fn is_answered(alloc: Global, stream: &[u8], answer: &[u8]) -> Result<bool, Fail> {
    let first = serve_packet(alloc, &mut Pieces::cut_at(stream, 0))?;
    Ok(first.text.as_slice() == answer)
}

// Whether a client that waits before it sends that body gets `100 Continue`, and then that answer.
fn is_told_to_go_on(alloc: Global, body: &[u8], answer: &[u8]) -> Result<bool, Fail> {
    let (front, _) = HEAD.split_at(HEAD.len().saturating_sub(2));
    let stream = joined(alloc, &[front, b"Expect: 100-continue\r\n\r\n", body])?;
    let first = serve_packet(alloc, &mut Pieces::cut_at(stream.as_slice(), 0))?;
    Ok(is_joined(first.text.as_slice(), CONTINUE, answer))
}

#[test]
fn a_client_that_waits(rt: HostRuntime) -> Result<(), Fail> {
    assert!(rt; is_told_to_go_on(rt.alloc(), WHOLE[0], KEPT)?);
    assert!(rt; is_told_to_go_on(rt.alloc(), b"5\nframe\r\n0\r\n\r\n", BAD)?);
    Ok(())
}

// A chunk of so many bytes, with that size in its line.
fn chunk(alloc: Global, size: usize) -> Result<Vec<u8>, Fail> {
    let digits = format!(in alloc; "{size:x}")?;
    let mut chunk = joined(alloc, &[digits.as_bytes(), b"\r\n"])?;
    repeat(&mut chunk, b"b", size)?;
    chunk.extend_from_slice(b"\r\n")?;
    Ok(chunk)
}

// A head that asks for a kind, so many chunks of so many bytes each, and the last chunk.
fn chunks(alloc: Global, head: &[u8], count: usize, size: usize) -> Result<Vec<u8>, Fail> {
    let chunk = chunk(alloc, size)?;
    let mut stream = Vec::from_slice(alloc, head)?;
    repeat(&mut stream, chunk.as_slice(), count)?;
    stream.extend_from_slice(b"0\r\n\r\n")?;
    Ok(stream)
}

const COMMANDED: &[u8] =
    b"POST /admin/acme HTTP/1.1\r\nTransfer-Encoding: chunked\r\nAuthorization: Bearer tok-Bob\r\n\r\n";

// The head, what is asked, how many chunks there are, how many bytes each has, and whether they are served.
static LIMITS: [(&[u8], RequestKind, usize, usize, bool); 6] = [
    (HEAD, RequestKind::Ilp, 1, 34_000, true),
    (HEAD, RequestKind::Ilp, 2, 17_000, true),
    (HEAD, RequestKind::Ilp, 3, 11_334, false),
    (COMMANDED, RequestKind::Admin, 1, 2_048, true),
    (COMMANDED, RequestKind::Admin, 1, 2_049, false),
    (COMMANDED, RequestKind::Admin, 683, 3, false),
];

// The outcome of a request of that kind.
fn commanded(alloc: Global, stream: &[u8], kind: RequestKind) -> Result<Outcome, Fail> {
    let mut reader = Pieces::cut_at(stream, 0);
    serve(alloc, &mut reader, Taken::whole(alloc), Desk::new(kind, 0))
}

#[test]
fn bodies_at_their_limits(rt: HostRuntime) -> Result<(), Fail> {
    for (head, kind, count, size, is_served) in &LIMITS {
        let stream = chunks(rt.alloc(), head, *count, *size)?;
        let first = commanded(rt.alloc(), stream.as_slice(), *kind)?;
        assert!(rt; (first.questions == 1) == *is_served, "{count} {size}");
        assert!(rt;
            (first.text.as_slice() == LARGE) != *is_served,
            "{count} {size}"
        );
    }
    Ok(())
}

#[test]
fn one_byte_a_chunk(rt: HostRuntime) -> Result<(), Fail> {
    let stream = chunks(rt.alloc(), HEAD, 34_000, 1)?;
    let mut inbox = Inbox::new();
    let mut reader = Pieces::cut_at(stream.as_slice(), 0);
    let next = serve_next_packet(rt.alloc(), &mut reader, &mut inbox);
    assert!(rt; next.served == Ok(Served::Kept) && next.questions == 1);
    let mut dripping = Pieces::failing_after(stream.as_slice(), usize::MAX);
    let first = serve_packet(rt.alloc(), &mut dripping)?;
    assert!(rt; first.served == Err(LinkFault::Turns) && first.questions == 0);
    assert!(rt; stream.len() == 50_000 + dripping.bytes.len());
    Ok(())
}

// A chunk's line, or trailers, with so many bytes.
fn filled(alloc: Global, front: &[u8], size: usize, end: &[u8]) -> Result<Vec<u8>, Fail> {
    let mut text = Vec::from_slice(alloc, front)?;
    fill(&mut text, b'x', size.saturating_sub(end.len()))?;
    text.extend_from_slice(end)?;
    Ok(text)
}

fn with_line(alloc: Global, size: usize) -> Result<Vec<u8>, Fail> {
    let line = filled(alloc, b"5;", size, b"\r\n")?;
    joined(alloc, &[HEAD, line.as_slice(), b"frame\r\n0\r\n\r\n"])
}

fn with_trailer(alloc: Global, size: usize) -> Result<Vec<u8>, Fail> {
    let trailer = filled(alloc, b"A: ", size, b"\r\n\r\n")?;
    joined(alloc, &[HEAD, b"5\r\nframe\r\n0\r\n", trailer.as_slice()])
}

fn with_trailers(alloc: Global, lines: usize) -> Result<Vec<u8>, Fail> {
    let mut stream = joined(alloc, &[HEAD, b"5\r\nframe\r\n0\r\n"])?;
    repeat(&mut stream, b"A:\r\n", lines)?;
    stream.extend_from_slice(b"\r\n")?;
    Ok(stream)
}

fn is_line_answered(alloc: Global, size: usize, answer: &[u8]) -> Result<bool, Fail> {
    is_answered(alloc, with_line(alloc, size)?.as_slice(), answer)
}

fn is_trailer_answered(alloc: Global, size: usize, answer: &[u8]) -> Result<bool, Fail> {
    is_answered(alloc, with_trailer(alloc, size)?.as_slice(), answer)
}

fn are_trailers_answered(alloc: Global, lines: usize, answer: &[u8]) -> Result<bool, Fail> {
    is_answered(alloc, with_trailers(alloc, lines)?.as_slice(), answer)
}

#[test]
fn lines_and_trailers_at_their_limits(rt: HostRuntime) -> Result<(), Fail> {
    assert!(rt; is_line_answered(rt.alloc(), 256, KEPT)?);
    assert!(rt; is_line_answered(rt.alloc(), 257, BAD)?);
    assert!(rt; is_trailer_answered(rt.alloc(), 8_192, KEPT)?);
    assert!(rt; is_trailer_answered(rt.alloc(), 8_193, BAD)?);
    assert!(rt; are_trailers_answered(rt.alloc(), 64, KEPT)?);
    assert!(rt; are_trailers_answered(rt.alloc(), 65, BAD)?);
    Ok(())
}

const ANSWER: &[u8] = b"HTTP/1.1 200 OK\r\nTransfer-Encoding: chunked\r\n\r\n";

// The text of an answer after its head, and the outcome.
static ANSWERS: [(&[u8], &[u8], Result<usize, PostFault>); 9] = [
    (ANSWER, b"5\r\nframe\r\n0\r\n\r\n", Ok(5)),
    (
        ANSWER,
        b"2;x\r\nfr\r\n3\r\name\r\n0\r\nA: b\r\n\r\nmore",
        Ok(5),
    ),
    (ANSWER, b"0\r\n\r\n", Ok(0)),
    (
        ANSWER,
        b"5\r\nframe!\r\n0\r\n\r\n",
        Err(PostFault::Unframed),
    ),
    (ANSWER, b"x\r\nframe\r\n0\r\n\r\n", Err(PostFault::Unframed)),
    (ANSWER, b"84D1\r\n", Err(PostFault::Size)),
    (ANSWER, b"5\r\nframe\r\n84CC\r\n", Err(PostFault::Size)),
    (
        b"HTTP/1.0 200 OK\r\nTransfer-Encoding: chunked\r\n\r\n",
        b"5\r\nframe\r\n0\r\n\r\n",
        Err(PostFault::Unframed),
    ),
    (
        b"HTTP/1.1 200 OK\r\nTransfer-Encoding: chunked\r\nContent-Length: 5\r\n\r\n",
        b"5\r\nframe\r\n0\r\n\r\n",
        Err(PostFault::Unframed),
    ),
];

// Whether that is found in an answer that is cut there, and the five bytes `frame` if it is five.
fn is_found(
    alloc: Global,
    answer: &[u8],
    cut: usize,
    wanted: Result<usize, PostFault>,
) -> Result<bool, Fail> {
    let mut reader = Pieces::cut_at(answer, cut);
    let posted = post_to_bob(alloc, &mut reader, Taken::whole(alloc), b"frame")?;
    let is_whole = posted.room.as_slice().starts_with(b"frame");
    Ok(posted.found == wanted && (wanted != Ok(5) || is_whole))
}

#[test]
fn answers_in_chunks(rt: HostRuntime) -> Result<(), Fail> {
    for (i, (head, body, wanted)) in ANSWERS.iter().enumerate() {
        let answer = joined(rt.alloc(), &[head, body])?;
        for cut in 0..=answer.len() {
            assert!(rt;
                is_found(rt.alloc(), answer.as_slice(), cut, *wanted)?,
                "{i} {cut}"
            );
        }
    }
    Ok(())
}

#[test]
fn answers_in_chunks_that_are_cut(rt: HostRuntime) -> Result<(), Fail> {
    let answer = joined(
        rt.alloc(),
        &[ANSWER, b"2;x\r\nfr\r\n3\r\name\r\n0\r\nA: b\r\n\r\n"],
    )?;
    for n in 0..answer.len() {
        let (front, _) = answer.as_slice().split_at(n);
        assert!(rt; is_found(rt.alloc(), front, 0, Err(PostFault::Cut))?, "{n}");
    }
    Ok(())
}
