//! The answer to a request for the configuration.

ghost use Rattle.std.specs.Prelude.{◌≡◌, ◌≤◌, length};
ghost use Rattle.oer_core.specs.Length.{octet_string};
ghost use Rattle.oer_core.specs.Writing.{overwritten, Writes};
ghost use Rattle.ildcp_core.specs.Client.{IsClient, address_below};
ghost use Rattle.ildcp_core.specs.Answer.{configuration, max_configuration, config_answer, max_answer};

use crate::child::Child;
use ilp_view::write_fulfill;
use oer_core::{put_bytes, put_length, put_octets};

/// The most bytes of an answer: 954 of the configuration, 32 of the fulfillment, and 7 of the type and
/// the lengths around them.
pub const MAX_ANSWER: usize = 993;

const MAX_CONFIGURATION: usize = 954;

fn put_address(room: &mut [u8], tenant: &[u8], name: &[u8]) -> usize
    requires { length (octet_string (address_below tenant.now name.now)) ≤ length room.old }
    ensures end { result ≡ length (octet_string (address_below tenant.now name.now)) }
    ensures written { room.new ≡ overwritten room.old 0 (octet_string (address_below tenant.now name.now)) }
{
    crate::laws::laws_below();
    let at = put_length(room, 0, tenant.len() + 1 + name.len());
    put_bytes(room, at, tenant);
    let dot_at = at + tenant.len();
    put_bytes(room, dot_at, b".");
    put_bytes(room, dot_at + 1, name);
    dot_at + 1 + name.len()
}

fn put_configuration(room: &mut [u8], child: &Child<'_>) -> usize
    requires { max_configuration ≤ length room.old }
    ensures written { Writes room.old 0 (configuration child.now) room.new result }
    ensures limits { IsClient child.now }
{
    crate::laws::laws_below();
    crate::laws::configurations();
    let parts = child.parts();
    let at = put_address(room, parts.tenant.as_bytes(), parts.name.as_bytes());
    put_bytes(room, at, &[parts.scale]);
    put_octets(room, at + 1, parts.code.as_bytes())
}

/// Writes the answer to a child that asks for its configuration at the front of `out`, and returns the
/// length of its frame. Every other byte of `out` stays.
///
/// The answer is a Fulfill of 32 zero bytes. Its data is the client address, the scale and the code of
/// the child's asset. `out` must have room for [`MAX_ANSWER`] bytes. (RFC 0031; RFC 0027, "ILP
/// Fulfill")
pub fn answer(child: &Child<'_>, out: &mut [u8]) -> usize
    requires { max_answer ≤ length out.old }
    ensures written { Writes out.old 0 (config_answer child.now) out.new result }
    ensures within { result ≤ max_answer }
{
    crate::laws::configurations();
    let mut room = [0; MAX_CONFIGURATION];
    let end = put_configuration(&mut room, child);
    write_fulfill(out, &[0; 32], &room[..end]).unwrap()
}
