//! The texts of answers.

ghost use Rattle.std.specs.Prelude.{◌≡◌, ◌≤◌, ◌++◌, [], codes, length};
ghost use Rattle.http_link.specs.Answers.{reason_of, status_told, answer_head, first_line, head_with, line, status_line, close_line};

use crate::line_buffer::LineBuffer;
use crate::request::RequestKind;

fn reason_of(status: u16) -> &'static [u8]
    ensures phrase { result.now ≡ reason_of status }
    ensures short { length result.now ≤ 19 }
{
    match status {
        200 => b"OK",
        400 => b"Bad Request",
        401 => b"Unauthorized",
        404 => b"Not Found",
        405 => b"Method Not Allowed",
        411 => b"Length Required",
        413 => b"Content Too Large",
        _ => b"Service Unavailable",
    }
}

fn status_line(kind: RequestKind, status: u16) -> &'static [u8]
    ensures line { result.now ≡ status_line kind status }
    ensures short { length result.now ≤ 40 }
{
    match (status, kind) {
        (200, RequestKind::Ilp) => b"Content-Type: application/octet-stream\r\n",
        (200, RequestKind::Admin) => b"Content-Type: text/plain\r\n",
        (405, _) => b"Allow: POST\r\n",
        (401, _) => b"WWW-Authenticate: Bearer\r\n",
        _ => b"",
    }
}

// What follows the length in a head.
fn head_end(closes: bool) -> &'static [u8]
    ensures end { result.now ≡ line [] ++ close_line closes ++ codes "\r\n" }
    ensures short { length result.now ≤ 23 }
{
    if closes {
        b"\r\nConnection: close\r\n\r\n"
    } else {
        b"\r\n\r\n"
    }
}

/// A service's status as the sender gets it. (RFC 9110, 15.6.4)
pub(crate) fn status_told(status: u16) -> u16
    ensures { result ≡ status_told status }
{
    match status {
        200 | 400 | 401 => status,
        _ => 503,
    }
}

// The first line of an answer.
fn put_status(head: &mut LineBuffer, status: u16)
    requires empty { head.old ≡ [] }
    ensures line { head.new ≡ first_line status }
    ensures short { length head.new ≤ 60 }
{
    if status == 200 {
        head.push(b"HTTP/1.1 200 OK\r\n");
        return;
    }
    head.push(b"HTTP/1.1 ");
    head.push_number(status as usize);
    head.push(b" ");
    head.push(reason_of(status));
    head.push(b"\r\n");
}

/// Writes the head of an answer whose body has that length. (RFC 9112, 4)
pub(crate) fn put_answer_head(
    head: &mut LineBuffer,
    kind: RequestKind,
    status: u16,
    size: usize,
    closes: bool,
)
    requires empty { head.old ≡ [] }
    ensures { head.new ≡ answer_head kind status size closes }
{
    put_head(head, status_line(kind, status), status, size, closes);
}

/// Writes the head of an answer with a line of its own, whose body has that length. (RFC 9112, 4)
pub(crate) fn put_head(head: &mut LineBuffer, own: &[u8], status: u16, size: usize, closes: bool)
    requires empty { head.old ≡ [] }
    requires short { length own.now ≤ 50 }
    ensures { head.new ≡ head_with own.now status size closes }
{
    put_status(head, status);
    head.push(own);
    head.push(b"Content-Length: ");
    head.push_number(size);
    head.push(head_end(closes));
}
