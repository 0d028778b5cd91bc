//! Which check decides on a Prepare.

use crate::verdict::{RejectCode, Verdict, refuse};
use route_table::PeerNo;

/// Which check decides on a Prepare, and what it compared. Amounts are in the units of the peer that they are of, moments in
/// milliseconds since 1970-01-01.
#[derive(Clone, Copy, Debug, PartialEq, Eq)]
pub enum Finding {
    /// `Unknown`: the token is no peer's.
    NoPeer,
    /// `NoRoom`: the entries of the period, the packets that await their answers and 2 more exceed the journal's places.
    JournalFull {
        entries: u64,
        awaited: u64,
        places: u64,
    },
    /// T05: the sender's bucket has less than what a packet costs, which is 1,000 thousandths.
    BucketEmpty {
        credit: u64,
    },
    /// R02: the expiry is not after the clock.
    Expired {
        expiry: u64,
        clock: u64,
    },
    /// F00: the sender is no child, and asks for a child's configuration (RFC 0031).
    NoChild,
    /// F03: a request for the configuration brings an amount.
    ConfigAmount {
        amount: u64,
    },
    /// F05: a request for the configuration does not have the condition of 32 zero bytes.
    ConfigCondition,
    /// Fulfilled: the packet asks for the sender's configuration.
    Config,
    /// F02: the destination is of the scheme `peer`, for direct neighbours (RFC 0015, "Allocation Schemes").
    ForNeighbors,
    /// F02: the destination is the tenant's own address.
    OwnAddress,
    /// F08: the amount is over the sender's cap.
    OverCap {
        amount: u64,
        cap: u64,
    },
    /// F02: no route leads to the destination.
    NoRoute,
    /// F02: the best route leads back to the sender.
    LeadsBack,
    /// F02: from the sender to the next peer there is no rate.
    NoRate {
        to: PeerNo,
    },
    /// R01: the price is below the fee of the route, in the next peer's units.
    BelowFee {
        price: u64,
        fee: u64,
    },
    /// F08: the price less the fee is over the next peer's cap. The greatest amount is in the sender's units.
    OverNextCap {
        to: PeerNo,
        price: u128,
        cap: u64,
        amount: u64,
        greatest: u64,
    },
    /// R02: the expiry that the packet would go on with is not after the clock.
    ExpiresOnward {
        expiry: u64,
        clock: u64,
    },
    /// T04: the sender's balance, what is held from it and the amount are over its ceiling.
    OverCeiling {
        balance: i64,
        held: u64,
        amount: u64,
        ceiling: u64,
    },
    /// T04: the next peer's balance less what is held for it and the price is below 0 by more than its credit.
    OverCredit {
        to: PeerNo,
        balance: i64,
        held: u64,
        price: u64,
        credit: u64,
    },
    /// T03: so many packets await their answers.
    TooManyHeld {
        awaited: u64,
    },
    /// No check fails: the packet goes on, as `Verdict::Forward` says.
    GoesOn {
        hold: u64,
        to: PeerNo,
        price: u64,
        expiry: u64,
    },
}

impl Finding {
    ghost use Rattle.std.specs.Prelude.{◌≡◌};
    ghost use Rattle.tenant_core.specs.Findings.{verdict_of};

    /// The verdict that it leads to.
    pub fn verdict(&self) -> Verdict
        ensures { result ≡ verdict_of self.now }
    {
        match *self {
            Finding::NoPeer => Verdict::Unknown,
            Finding::JournalFull { .. } => Verdict::NoRoom,
            Finding::BucketEmpty { .. } => refuse(RejectCode::RateLimited),
            Finding::Expired { .. } | Finding::ExpiresOnward { .. } => {
                refuse(RejectCode::InsufficientTimeout)
            }
            Finding::NoChild => refuse(RejectCode::BadRequest),
            Finding::ConfigAmount { .. } => refuse(RejectCode::InvalidAmount),
            Finding::ConfigCondition => refuse(RejectCode::WrongCondition),
            Finding::Config => Verdict::Fulfil,
            Finding::ForNeighbors
            | Finding::OwnAddress
            | Finding::NoRoute
            | Finding::LeadsBack
            | Finding::NoRate { .. } => refuse(RejectCode::Unreachable),
            Finding::OverCap { amount, cap } => refuse_over(amount, cap),
            Finding::BelowFee { .. } => refuse(RejectCode::InsufficientSource),
            Finding::OverNextCap {
                amount,
                greatest,
                ..
            } => refuse_over(amount, greatest),
            Finding::OverCeiling { .. } | Finding::OverCredit { .. } => {
                refuse(RejectCode::InsufficientLiquidity)
            }
            Finding::TooManyHeld { .. } => refuse(RejectCode::Busy),
            Finding::GoesOn {
                hold,
                to,
                price,
                expiry,
            } => Verdict::Forward {
                hold,
                peer: to,
                amount: price,
                expiry,
            },
        }
    }
}

ghost use Rattle.std.specs.Prelude.{◌≡◌};
ghost use Rattle.tenant_core.specs.Judge.{refuse_over};

// The refusal of an amount, with the greatest that the caps allow.
fn refuse_over(amount: u64, greatest: u64) -> Verdict
    ensures { result ≡ refuse_over amount greatest }
{
    Verdict::Refuse {
        code: RejectCode::AmountTooLarge,
        amounts: Some((amount, greatest)),
    }
}
