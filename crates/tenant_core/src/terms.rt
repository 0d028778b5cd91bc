//! What a tenant's setup says, before anything is tested.

ghost use Rattle.std.specs.Prelude.{◌≡◌, true};

use crate::limits::{MAX_BURST, MAX_MONEY, MAX_PER_SECOND};
use crate::network::Network;
use common_types::{AssetCode, Between, Name, Token};
use ildcp_core::Role;
use ilp_addr::{OwnAddress, Target};
use money_core::Rate;
use route_table::PeerNo;
use std::marker::Model;

/// An amount of money in a peer's units, at most 2^62.
pub type Money = Between<0, { MAX_MONEY }>;

/// How far a peer is trusted, in its units.
#[derive(Clone, Copy)]
pub struct PeerLimits {
    /// The greatest amount of one packet.
    pub cap: Money,
    /// The most that the peer may owe.
    pub ceiling: Money,
    /// The most that may be owed to the peer.
    pub credit: Money,
}

/// How many packets of a peer pass: so many at once, and so many a second after that.
#[derive(Clone, Copy)]
pub struct BucketTerms {
    pub burst: Between<1, { MAX_BURST }>,
    pub per_second: Between<0, { MAX_PER_SECOND }>,
}

impl PeerLimits {
    ghost use Rattle.tenant_core.specs.Terms.{are_limits_within};

    /// The limits that the types of its numbers guarantee.
    pub(crate) fn are_within(&self)
        ensures { are_limits_within self.now ≡ true }
    {
        let _ = (self.cap.get(), self.ceiling.get(), self.credit.get());
    }
}

impl BucketTerms {
    ghost use Rattle.tenant_core.specs.Terms.{is_bucket_within};

    /// The limits that the types of its numbers guarantee.
    pub(crate) fn is_within(&self)
        ensures { is_bucket_within self.now ≡ true }
    {
        let _ = (self.burst.get(), self.per_second.get());
    }
}

/// A balance, from -2^62 to 2^62 in a peer's units: what the peer owes, below 0 if it is owed.
#[derive(Clone, Copy, Debug, PartialEq, Eq)]
pub struct Balance {
    owed: i64,
}

impl Model for Balance {
    ghost use Rattle.std.specs.Prelude.{ℤ, ◌≡◌, true};
    ghost use Rattle.tenant_core.specs.Terms.{is_balance_within};

    ghost Value = { ℤ };

    ghost view = { λ b. b.owed };

    ghost invariant = { λ b. is_balance_within b.owed ≡ true };

    ghost inverse = { λ z. record { owed = z } };
}

impl Balance {
    ghost use Rattle.std.specs.Prelude.{◌≡◌, Some, None, if◌then◌else◌, true, pos};
    ghost use Rattle.tenant_core.specs.Terms.{is_balance_within};

    /// The balance, if it is within the limits.
    pub fn new(owed: i64) -> Option<Balance>
        ensures { result ≡ (if is_balance_within owed then Some owed else None) }
    {
        if owed.unsigned_abs() <= MAX_MONEY {
            Some(Balance { owed })
        } else {
            None
        }
    }

    /// Nothing is owed.
    pub fn zero() -> Balance
        ensures { result ≡ pos 0 }
    {
        Balance { owed: 0 }
    }

    /// The number.
    pub fn get(self) -> i64
        ensures value { result ≡ self }
        ensures within { is_balance_within result ≡ true }
    {
        self.owed
    }
}

/// What is agreed with a peer.
#[derive(Drop)]
pub struct PeerTerms {
    pub name: Name,
    pub role: Role,
    /// The token that the peer shows with the packets that it sends.
    pub token: Token,
    /// The URL at which the peer takes packets, and the token for it.
    pub target: Target,
    /// The code of the peer's asset, and how many decimal places a unit of it has.
    pub asset: AssetCode,
    pub scale: u8,
    pub limits: PeerLimits,
    pub bucket: BucketTerms,
}

impl PeerTerms {
    ghost use Rattle.std.specs.Prelude.{◌≡◌, true};
    ghost use Rattle.tenant_core.specs.Terms.{are_terms_within};

    /// The limits that the types of its parts guarantee.
    pub(crate) fn are_within(&self)
        ensures { are_terms_within self.now ≡ true }
    {
        self.limits.are_within();
        self.bucket.is_within();
        self.token.as_bytes();
    }

    /// A copy of the terms.
    pub fn copy(&self) -> PeerTerms
        ensures { result ≡ self.now }
    {
        PeerTerms {
            name: self.name.copy(),
            role: self.role,
            token: self.token.copy(),
            target: self.target.copy(),
            asset: self.asset.copy(),
            scale: self.scale,
            limits: self.limits,
            bucket: self.bucket,
        }
    }

    /// A copy of the terms, with other limits.
    pub(crate) fn with_limits(&self, limits: &PeerLimits) -> PeerTerms
        ensures { result ≡ record self.now { limits = limits.now } }
    {
        let mut terms = self.copy();
        terms.limits = *limits;
        terms
    }

    /// A copy of the terms, with another bucket.
    pub(crate) fn with_bucket(&self, bucket: &BucketTerms) -> PeerTerms
        ensures { result ≡ record self.now { bucket = bucket.now } }
    {
        let mut terms = self.copy();
        terms.bucket = *bucket;
        terms
    }
}

/// What packets of one peer for another cost.
#[derive(Clone, Copy)]
pub struct RateTerms {
    pub from: PeerNo,
    pub to: PeerNo,
    pub rate: Rate,
}

/// A tenant as its setup describes it.
#[derive(Drop)]
pub struct TenantTerms {
    pub name: Name,
    /// The tenant's own address.
    pub address: OwnAddress,
    /// The token that the tenant's operator shows.
    pub admin: Token,
    /// How many places the journal of a period has.
    pub journal: u64,
    /// By how many milliseconds a packet's expiry is moved earlier.
    pub margin: u64,
    /// For how many milliseconds a packet may be held at most.
    pub hold: u64,
    /// Whom the tenant deals with, and how.
    pub network: Network,
}
