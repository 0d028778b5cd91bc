//! The commands of an operator to a tenant's book.

ghost use Rattle.std.specs.Prelude.{◌≡◌, not, Some, None, if◌then◌else◌};
ghost use Rattle.std.specs.Str.{bytes_eq};

use crate::limits::MAX_MONEY;
use crate::period::Period;
use crate::row::Row;
use crate::terms::{BucketTerms, PeerLimits, PeerTerms};
use common_types::{Between, Items, Name};
use ilp_addr::Prefix;
use money_core::Rate;
use route_table::Fee;
use std::marker::Model;

/// An amount that is settled, in a peer's units: from 1 to 2^62.
pub type Amount = Between<1, { MAX_MONEY }>;

/// Which way money went that was settled outside.
#[derive(Clone, Copy, Debug, PartialEq, Eq)]
pub enum Side {
    /// From the peer to the tenant: the peer owes so much less.
    In,
    /// From the tenant to the peer: the peer owes so much more.
    Out,
}

/// The names of two different peers.
#[derive(Drop)]
pub struct Pair {
    from: Name,
    to: Name,
}

impl Model for Pair {
    ghost use Rattle.std.specs.Prelude.{◌≡◌, false};
    ghost use Rattle.std.specs.Str.{bytes_eq};
    ghost use Rattle.tenant_core.specs.Commands.{Ends};

    ghost Value = { Ends };

    ghost view = { λ p. record { from = p.from; to = p.to } };

    ghost invariant = { λ p. bytes_eq p.from p.to ≡ false };
}

impl Pair {
    ghost use Rattle.std.specs.Prelude.{◌≡◌, Some, None, if◌then◌else◌, false};
    ghost use Rattle.std.specs.Str.{bytes_eq};

    /// The pair of these names, unless they are the same.
    pub fn new(from: Name, to: Name) -> Option<Pair>
        ensures { result ≡ (if bytes_eq from to then None else Some (record { from = from; to = to })) }
    {
        if from.as_bytes() == to.as_bytes() {
            None
        } else {
            Some(Pair { from, to })
        }
    }

    /// The name of the peer that packets come from.
    pub fn from(&self) -> &Name
        ensures value { result.now ≡ self.now.from }
        ensures other { bytes_eq self.now.from self.now.to ≡ false }
    {
        &self.from
    }

    /// The name of the peer that they go to.
    pub fn to(&self) -> &Name
        ensures value { result.now ≡ self.now.to }
        ensures other { bytes_eq self.now.from self.now.to ≡ false }
    {
        &self.to
    }
}

/// A change of whom a tenant deals with, and how.
#[derive(Drop)]
pub enum Order {
    /// Adds a peer, with a full bucket and nothing owed.
    AddPeer(PeerTerms),
    /// Removes a peer, and the rates that name it.
    RemovePeer(Name),
    SetLimits {
        peer: Name,
        limits: PeerLimits,
    },
    SetBucket {
        peer: Name,
        bucket: BucketTerms,
    },
    /// Sends packets for the prefix to the peer, and keeps the fee of the price of each, in that peer's
    /// units.
    AddRoute {
        prefix: Prefix,
        peer: Name,
        fee: Fee,
    },
    RemoveRoute(Prefix),
    /// Sets what packets of one peer for another cost, in place of what they did.
    SetRate {
        pair: Pair,
        rate: Rate,
    },
    /// Records money that was paid outside.
    Settle {
        peer: Name,
        side: Side,
        amount: Amount,
    },
}

/// A command to a tenant's book. Its parts keep the limits of each.
#[derive(Drop)]
pub enum Command {
    Order(Order),
    /// What each peer owes, and what is held from it and for it.
    Balances,
    /// The period ends, and the next begins.
    Roll,
}

/// The answer to a command.
#[derive(Drop)]
pub enum Answered {
    /// An order was accepted.
    Done,
    /// What each peer owes, in the order of their numbers.
    Balances(Items<Row>),
    /// The period that was closed.
    Rolled(Period),
}
