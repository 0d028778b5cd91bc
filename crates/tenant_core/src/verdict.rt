//! What a tenant answers to a packet.

ghost use Rattle.std.specs.Prelude.{◌≡◌};
ghost use Rattle.tenant_core.specs.Judge.{refuse};

use route_table::PeerNo;

/// Why a packet is refused, by the error codes of the protocol (RFC 0027, "Error Codes").
#[derive(Clone, Copy, Debug, PartialEq, Eq)]
pub enum RejectCode {
    /// F00: the sender is not a child, and asks for a child's configuration.
    BadRequest,
    /// F02: no peer leads to the destination.
    Unreachable,
    /// F03: a request for the configuration has an amount.
    InvalidAmount,
    /// F05: the fulfillment that came back does not fit the condition, or a request for the configuration does not have the
    /// condition of 32 zero bytes.
    WrongCondition,
    /// F08: the amount is over what a peer may send or be sent in one packet.
    AmountTooLarge,
    /// T01: before the packet expired, what came back was neither a Fulfill nor a Reject, or nothing.
    PeerUnreachable,
    /// T03: the most packets that may await their answers at once already do.
    Busy,
    /// T04: the sender would owe too much, or too much would be owed to the next peer.
    InsufficientLiquidity,
    /// T05: the sender sends packets faster than was agreed.
    RateLimited,
    /// R00: the packet expired before its answer came.
    TimedOut,
    /// R01: the packet's price is below the fee of its route.
    InsufficientSource,
    /// R02: the packet expires too soon.
    InsufficientTimeout,
}

impl RejectCode {
    ghost use Rattle.tenant_core.specs.Codes.{code_of};

    /// Its three letters.
    pub fn letters(self) -> &'static [u8; 3]
        ensures { result.now ≡ code_of self }
    {
        match self {
            RejectCode::BadRequest => b"F00",
            RejectCode::Unreachable => b"F02",
            RejectCode::InvalidAmount => b"F03",
            RejectCode::WrongCondition => b"F05",
            RejectCode::AmountTooLarge => b"F08",
            RejectCode::PeerUnreachable => b"T01",
            RejectCode::Busy => b"T03",
            RejectCode::InsufficientLiquidity => b"T04",
            RejectCode::RateLimited => b"T05",
            RejectCode::TimedOut => b"R00",
            RejectCode::InsufficientSource => b"R01",
            RejectCode::InsufficientTimeout => b"R02",
        }
    }
}

/// The answer to a Prepare, or what becomes of an answer.
#[derive(Clone, Copy, Debug, PartialEq, Eq)]
pub enum Verdict {
    /// The token is no peer's of this tenant. Nothing was recorded.
    Unknown,
    /// The journal has no room for the packet and its answer. Nothing was recorded.
    NoRoom,
    /// The packet is refused. `AmountTooLarge` comes with the amount that came and the greatest that the caps allow,
    /// even if another check would refuse that amount.
    Refuse {
        code: RejectCode,
        amounts: Option<(u64, u64)>,
    },
    /// The packet asks for the sender's configuration, and is fulfilled with it (RFC 0031).
    Fulfil,
    /// The packet goes on to the peer, held under that number, with that amount in the peer's units and that
    /// expiry in milliseconds since 1970-01-01.
    Forward {
        hold: u64,
        peer: PeerNo,
        amount: u64,
        expiry: u64,
    },
    /// The answer goes back to the sender as it came.
    Relay,
}

impl Verdict {
    ghost use Rattle.tenant_core.specs.Holds.{is_relay};

    /// Whether an answer goes back as it came.
    pub fn is_relay(&self) -> bool
        ensures { result ≡ is_relay self.now }
    {
        matches!(self, Verdict::Relay)
    }
}

/// A refusal that names no amounts.
pub fn refuse(code: RejectCode) -> Verdict
    ensures { result ≡ refuse code }
{
    Verdict::Refuse {
        code,
        amounts: None,
    }
}
