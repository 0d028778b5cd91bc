//! What the connector itself answers to a Prepare, written into the buffer that it is sent from.

ghost use Rattle.std.specs.Prelude.{◌≡◌, ◌≤◌, List, ℕ, length, take};
ghost use Rattle.oer_core.specs.Writing.{Writes};
ghost use Rattle.ilp_addr.specs.OwnAddress.{max_own_address};
ghost use Rattle.ilp_view.specs.Packet.{max_frame, reject_frame};
ghost use Rattle.std.specs.Prelude.{Some, codes};
ghost use Rattle.floor_core.specs.Replies.{message_of, amounts_data, refusal_reply, decision_reply};
ghost use Rattle.floor_core.specs.World.{settled_reply};
ghost use Rattle.tenant_core.specs.Codes.{code_of};

use ilp_view::write_reject;
use tenant_core::{Book, RejectCode, Verdict};

fn message_of(code: RejectCode) -> &'static [u8]
    ensures value { result.now ≡ message_of code }
    ensures short { length result.now ≤ 26 }
{
    match code {
        RejectCode::BadRequest => b"bad request",
        RejectCode::Unreachable => b"unreachable",
        RejectCode::InvalidAmount => b"invalid amount",
        RejectCode::WrongCondition => b"wrong condition",
        RejectCode::AmountTooLarge => b"amount too large",
        RejectCode::PeerUnreachable => b"peer unreachable",
        RejectCode::Busy => b"connector busy",
        RejectCode::InsufficientLiquidity => b"insufficient liquidity",
        RejectCode::RateLimited => b"rate limited",
        RejectCode::TimedOut => b"transfer timed out",
        RejectCode::InsufficientSource => b"insufficient source amount",
        RejectCode::InsufficientTimeout => b"insufficient timeout",
    }
}

// The Reject of that code, and how many bytes it has.
fn put_reject(out: &mut [u8], address: &[u8], code: RejectCode, payload: &[u8]) -> usize
    requires room { length out.old ≡ max_frame }
    requires address { length address.now ≤ max_own_address }
    requires payload { length payload.now ≤ 16 }
    ensures written { Writes out.old 0
        (reject_frame (code_of code) address.now (message_of code) payload.now) out.new result }
    ensures within { result ≤ max_frame }
{
    ilp_view::laws::written_frames_are_short();
    write_reject(out, code.letters(), address, message_of(code), payload).unwrap()
}

fn two_amounts(amounts: (u64, u64)) -> [u8; 16]
    ensures { result ≡ amounts_data (Some amounts) }
{
    let [a0, a1, a2, a3, a4, a5, a6, a7] = amounts.0.to_be_bytes();
    let [b0, b1, b2, b3, b4, b5, b6, b7] = amounts.1.to_be_bytes();
    [
        a0, a1, a2, a3, a4, a5, a6, a7, b0, b1, b2, b3, b4, b5, b6, b7,
    ]
}

// The refusal of a packet, with the amounts that it names.
fn put_refusal(
    out: &mut [u8],
    address: &[u8],
    code: RejectCode,
    amounts: Option<(u64, u64)>,
) -> usize
    requires room { length out.old ≡ max_frame }
    requires address { length address.now ≤ max_own_address }
    ensures written { Writes out.old 0 (refusal_reply address.now code amounts) out.new result }
    ensures within { result ≤ max_frame }
{
    match amounts {
        None => put_reject(out, address, code, &[]),
        Some(amounts) => put_reject(out, address, code, &two_amounts(amounts)),
    }
}

/// Writes the reply to the sender of a packet, by the verdict on it, at the front of `out`. Returns how many bytes
/// it has: none if the verdict has no reply. The packet came with `token`.
pub fn put_decision(out: &mut [u8], book: &Book, token: &[u8], verdict: Verdict) -> usize
    requires { length out.old ≡ max_frame }
    ensures written { Writes out.old 0 (decision_reply book.now token.now verdict) out.new result }
    ensures within { result ≤ max_frame }
{
    match verdict {
        Verdict::NoRoom => put_refusal(out, book.address(), RejectCode::Busy, None),
        Verdict::Refuse { code, amounts } => put_refusal(out, book.address(), code, amounts),
        Verdict::Fulfil => match book.child(token) {
            Some(child) => ildcp_core::answer(&child, out),
            None => 0,
        },
        Verdict::Unknown | Verdict::Forward { .. } | Verdict::Relay => 0,
    }
}

/// Writes the reply to the sender of a packet, by the verdict on its answer. The answer is the first `len` bytes of
/// `out`, and the reply takes their place. Returns how many bytes it has.
pub fn put_settlement(out: &mut [u8], address: &[u8], len: usize, verdict: Verdict) -> usize
    requires room { length out.old ≡ max_frame }
    requires address { length address.now ≤ max_own_address }
    requires answer { len ≤ max_frame }
    ensures written { Writes out.old 0 (settled_reply address.now (take len out.old) verdict) out.new result }
    ensures within { result ≤ max_frame }
{
    match verdict {
        Verdict::Relay => len,
        Verdict::Refuse { code, amounts } => put_refusal(out, address, code, amounts),
        Verdict::Unknown | Verdict::NoRoom | Verdict::Fulfil | Verdict::Forward { .. } => 0,
    }
}
