//! Writing the two answers to a Prepare.

ghost use Rattle.std.specs.Prelude.{◌≡◌, ◌≤◌, ◌+◌, ◌↔◌, length, IfOk, IfErr, IsOk};
ghost use Rattle.oer_core.specs.Length.{octet_string};
ghost use Rattle.oer_core.specs.Writing.{Writes};
ghost use Rattle.ilp_view.specs.Packet.{max_frame, max_data, fulfill_frame, reject_frame};

use crate::fault::ViewFault;
use crate::fulfill::FULFILL;
use crate::reject::REJECT;
use oer_core::{length_size, put_bytes, put_length, put_octets};

fn octets_size(text: &[u8]) -> usize
    requires { length text.now ≤ max_frame }
    ensures size { result ≡ length (octet_string text.now) }
    ensures within { result ≤ length text.now + 9 }
{
    length_size(text.len()) + text.len()
}

/// Writes the Fulfill of these parts at the front of `out`, each length in the fewest bytes. Returns
/// the length of its frame, at most 34,000 bytes. Every other byte of `out` stays.
///
/// `payload` has at most 32,768 bytes. Fails with `Short` if the frame does not fit. Nothing is
/// written then. (RFC 0027, "ILP Fulfill")
pub fn write_fulfill(
    out: &mut [u8],
    fulfillment: &[u8; 32],
    payload: &[u8],
) -> Result<usize, ViewFault>
    requires { length payload.now ≤ max_data }
    ensures fits { IsOk result ↔ (length (fulfill_frame fulfillment.now payload.now) ≤ length out.old) }
    ensures within { length (fulfill_frame fulfillment.now payload.now) ≤ max_frame }
    ensures ok { IfOk result (λ end.
        Writes out.old 0 (fulfill_frame fulfillment.now payload.now) out.new end) }
    ensures err { IfErr result (λ e. (e ≡ ViewFault.Short) × (out.new ≡ out.old)) }
{
    crate::laws::laws_below();
    let size = 32 + octets_size(payload);
    if out.len() < 1 + length_size(size) + size {
        return Err(ViewFault::Short);
    }
    put_bytes(out, 0, &[FULFILL]);
    let at = put_length(out, 1, size);
    put_bytes(out, at, fulfillment);
    Ok(put_octets(out, at + 32, payload))
}

/// Writes the Reject of these parts at the front of `out`, each length in the fewest bytes. Returns
/// the length of its frame. Every other byte of `out` stays.
///
/// `payload` has at most 32,768 bytes, and the whole frame at most 34,000. The frame is short enough
/// if the parts have at most 33,984 bytes together. Fails with `Short` if the frame does not fit into
/// `out`. Nothing is written then. (RFC 0027, "ILP Reject")
pub fn write_reject(
    out: &mut [u8],
    code: &[u8; 3],
    triggered_by: &[u8],
    message: &[u8],
    payload: &[u8],
) -> Result<usize, ViewFault>
    requires data { length payload.now ≤ max_data }
    requires frame { length (reject_frame code.now triggered_by.now message.now payload.now) ≤ max_frame }
    ensures fits { IsOk result
        ↔ (length (reject_frame code.now triggered_by.now message.now payload.now) ≤ length out.old) }
    ensures within { length (reject_frame code.now triggered_by.now message.now payload.now)
        ≤ 16 + length triggered_by.now + length message.now + length payload.now }
    ensures ok { IfOk result (λ end.
        Writes out.old 0 (reject_frame code.now triggered_by.now message.now payload.now) out.new end) }
    ensures err { IfErr result (λ e. (e ≡ ViewFault.Short) × (out.new ≡ out.old)) }
{
    crate::laws::laws_below();
    let size = 3 + octets_size(triggered_by) + octets_size(message) + octets_size(payload);
    if out.len() < 1 + length_size(size) + size {
        return Err(ViewFault::Short);
    }
    put_bytes(out, 0, &[REJECT]);
    let at = put_length(out, 1, size);
    put_bytes(out, at, code);
    let at = put_octets(out, at + 3, triggered_by);
    let at = put_octets(out, at, message);
    Ok(put_octets(out, at, payload))
}
