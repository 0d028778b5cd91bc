//! The checks of a Prepare, in their order.

ghost use Rattle.std.specs.Prelude.{◌≡◌};
ghost use Rattle.ildcp_core.specs.Request.{checked_request};
ghost use Rattle.tenant_core.specs.Findings.{config_finding, verdict_of};
ghost use Rattle.tenant_core.specs.declared.finding.Finding.TheVariants.{OverCeiling, OverCredit};
ghost use Rattle.tenant_core.specs.Judge.{child_of, config_verdict};
ghost use Rattle.tenant_core.specs.Holds.{open_holds};

use crate::arena::Journal;
use crate::finding::Finding;
use crate::hold_table::HoldTable;
use crate::journal::PrepareKey;
use crate::limits::MAX_HOLDS;
use crate::network::Network;
use crate::opening::Opening;
use crate::peer::Peer;
use crate::routing::outgoing_expiry;
use crate::verdict::Verdict;
use ildcp_core::{Child, ChildParts, IldcpFault, check, is_config};
use ilp_addr::Address;
use money_core::{Purse, Rate};
use rate_bucket::{Bucket, PACKET};
use route_table::{Fee, Hop, PeerNo};

/// What the checks see of a book: what its period began with, whom the tenant deals with, the records since, the peers' purses
/// and buckets, and the holds.
#[derive(Clone, Copy)]
pub struct Standing<'a> {
    pub opening: &'a Opening,
    pub network: &'a Network,
    pub journal: &'a Journal,
    pub purses: &'a [Purse],
    pub buckets: &'a [Bucket],
    pub holds: &'a HoldTable,
}

/// A peer with its purse and its bucket, and its index among the peers.
#[derive(Clone, Copy)]
pub struct Party<'a> {
    pub place: usize,
    pub peer: &'a Peer,
    pub purse: &'a Purse,
    pub bucket: &'a Bucket,
}

/// How a packet goes on: to whom, and the fee that is kept of it.
#[derive(Clone, Copy)]
pub struct Onward<'a> {
    pub to: Party<'a>,
    pub fee: Fee,
}

impl<'a> Standing<'a> {
    ghost use Rattle.std.specs.Prelude.{◌≡◌, ◌<◌, ◌≤◌, IfOk, IfErr, IfSome, is_some, true, length, option_map, slice_get, Some, None};
    ghost use Rattle.tenant_core.specs.Findings.{astray};
    ghost use Rattle.tenant_core.specs.Network.{peer_numbered, peer_with_token};
    ghost use Rattle.tenant_core.specs.Routing.{onward, way_by};
    ghost use Rattle.tenant_core.specs.Standing.{state_shown, IsShown, IsParty, peer_of, way_of};

    /// The peer at that place.
    pub fn party(&self, place: usize) -> Party<'a>
        requires shown { IsShown self.now }
        requires inside { place < length self.now.network.now.peers }
        ensures peer { slice_get self.now.network.now.peers place ≡ Some (peer_of result) }
        ensures kept { IsParty (state_shown self.now) result }
        ensures place { result.place ≡ place }
    {
        Party {
            place,
            peer: &self.network.peers()[place],
            purse: &self.purses[place],
            bucket: &self.buckets[place],
        }
    }

    /// The peer that shows this token.
    pub fn sender(&self, token: &[u8]) -> Option<Party<'a>>
        requires { IsShown self.now }
        ensures peer { option_map peer_of result ≡ peer_with_token token.now self.now.network.now.peers }
        ensures kept { IfSome result (IsParty (state_shown self.now)) }
        ensures place { IfSome result (λ t. slice_get self.now.network.now.peers t.place ≡ Some (peer_of t)) }
    {
        let place = self.network.place_with_token(token)?;
        Some(self.party(place))
    }

    /// The peer of this number.
    pub fn numbered(&self, number: PeerNo) -> Option<Party<'a>>
        requires { IsShown self.now }
        ensures peer { option_map peer_of result ≡ peer_numbered number self.now.network.now.peers }
        ensures kept { IfSome result (IsParty (state_shown self.now)) }
    {
        let place = self.network.place_numbered(number)?;
        Some(self.party(place))
    }

    /// The peer of this number, which is there.
    pub fn present(&self, number: PeerNo) -> Party<'a>
        requires shown { IsShown self.now }
        requires present { is_some (peer_numbered number self.now.network.now.peers) ≡ true }
        ensures number { (peer_of result).number ≡ number }
        ensures kept { IsParty (state_shown self.now) result }
    {
        self.numbered(number).unwrap()
    }

    // The way that a packet of `from` goes on: that of the best route, unless it leads back.
    fn onward(&self, from: PeerNo, destination: &Address<'_>) -> Result<Onward<'a>, Finding>
        requires { IsShown self.now }
        ensures way { IfOk result (λ way. onward self.now.network.now from destination.now ≡ Some (way_of way)) }
        ensures none { IfErr result (λ finding. onward self.now.network.now from destination.now ≡ None) }
        ensures why { IfErr result (λ finding. finding ≡ astray self.now.network.now from destination.now) }
        ensures kept { IfOk result (λ way. IsParty (state_shown self.now) way.to) }
    {
        let Some(hop) = self.network.routes().find(destination) else {
            return Err(Finding::NoRoute);
        };
        if hop.peer == from {
            return Err(Finding::LeadsBack);
        }
        match self.by_hop(hop) {
            Some(way) => Ok(way),
            None => Err(Finding::NoRoute),
        }
    }

    // The way by a hop, if its peer is there.
    fn by_hop(&self, hop: Hop) -> Option<Onward<'a>>
        requires { IsShown self.now }
        ensures way { option_map way_of result ≡ way_by self.now.network.now hop }
        ensures kept { IfSome result (λ way. IsParty (state_shown self.now) way.to) }
    {
        let to = self.numbered(hop.peer)?;
        Some(Onward { to, fee: hop.fee })
    }
}

impl Standing<'_> {
    ghost use Rattle.std.specs.Prelude.{◌≡◌, ◌≤◌, true, false, not};
    ghost use Rattle.ilp_addr.specs.Timestamp.{last_moment};
    ghost use Rattle.rate_bucket.specs.Bucket.{is_admitted};
    ghost use Rattle.tenant_core.specs.Bucket.{is_limited, stretch_of};
    ghost use Rattle.tenant_core.specs.Key.{key_of};
    ghost use Rattle.tenant_core.specs.Purse.{is_over_ceiling, is_over_credit};
    ghost use Rattle.tenant_core.specs.Findings.{finding_for_sender, finding_at_rate, verdict_of};
    ghost use Rattle.tenant_core.specs.Judge.{verdict_for_sender, verdict_at_rate, is_full, is_recorded, IsSooner};
    ghost use Rattle.tenant_core.specs.State.{clock_of};
    ghost use Rattle.tenant_core.specs.Standing.{state_shown, IsShown, IsParty, CanGoOn, CanGoTo, peer_of, way_of};

    // How many packets await their answers.
    fn awaited(&self) -> u64
        requires { IsShown self.now }
        ensures { result ≡ open_holds (state_shown self.now) }
    {
        self.holds.awaited() as u64
    }

    /// Whether the journal has no room for another entry, its answer and those of all open holds.
    pub fn is_full(&self) -> bool
        requires { IsShown self.now }
        ensures { result ≡ is_full (state_shown self.now) }
    {
        self.journal.len() as u64 + self.awaited() + 2 > self.opening.journal
    }

    /// The verdict at that clock on a packet of that peer, for which the journal has room.
    pub fn verdict_for_sender(&self, from: &Party<'_>, key: &PrepareKey<'_>, clock: u64) -> Verdict
        requires shown { IsShown self.now }
        requires sender { IsParty (state_shown self.now) from.now }
        requires clock { clock ≤ last_moment }
        requires later { clock_of (state_shown self.now) ≤ clock }
        ensures verdict { result
            ≡ verdict_for_sender (state_shown self.now) (peer_of from.now) (key_of key.now) clock }
        ensures recorded { is_recorded result ≡ true }
        ensures sooner { IsSooner result key.now.expiry }
        ensures limited { is_limited result
            ≡ not (is_admitted (stretch_of (state_shown self.now) (peer_of from.now)) clock) }
        ensures goes { CanGoOn (state_shown self.now) (peer_of from.now) key.now.amount result }
    {
        self.finding_for_sender(from, key, clock).verdict()
    }

    /// Which check decides at that clock on a packet of that peer, for which the journal has room.
    pub fn finding_for_sender(&self, from: &Party<'_>, key: &PrepareKey<'_>, clock: u64) -> Finding
        requires shown { IsShown self.now }
        requires sender { IsParty (state_shown self.now) from.now }
        requires clock { clock ≤ last_moment }
        requires later { clock_of (state_shown self.now) ≤ clock }
        ensures finding { result
            ≡ finding_for_sender (state_shown self.now) (peer_of from.now) (key_of key.now) clock }
        ensures verdict { verdict_of result
            ≡ verdict_for_sender (state_shown self.now) (peer_of from.now) (key_of key.now) clock }
        ensures recorded { is_recorded (verdict_of result) ≡ true }
        ensures sooner { IsSooner (verdict_of result) key.now.expiry }
        ensures limited { is_limited (verdict_of result)
            ≡ not (is_admitted (stretch_of (state_shown self.now) (peer_of from.now)) clock) }
        ensures goes { CanGoOn (state_shown self.now) (peer_of from.now) key.now.amount (verdict_of result) }
    {
        let credit = from.bucket.credit(clock);
        if credit < PACKET {
            return Finding::BucketEmpty { credit };
        }
        let expiry = key.expiry.get();
        if expiry <= clock {
            return Finding::Expired { expiry, clock };
        }
        if is_config(key.destination) {
            return config_finding(&child_of(self.opening, from.peer), key);
        }
        if key.destination.is_for_neighbors() {
            return Finding::ForNeighbors;
        }
        if key.destination.bytes() == self.opening.address.as_bytes() {
            return Finding::OwnAddress;
        }
        let (amount, cap) = (key.amount, from.peer.terms.limits.cap.get());
        if amount > cap {
            return Finding::OverCap { amount, cap };
        }
        let way = match self.onward(from.peer.number, key.destination) {
            Ok(way) => way,
            Err(finding) => return finding,
        };
        let to = way.to.peer.number;
        let Some(rate) = self.network.rate_between(from.peer.number, to) else {
            return Finding::NoRate { to };
        };
        self.finding_at_rate(from, &way, rate, key, clock)
    }

    // Which check decides on a packet of one peer that goes that way, at the rate between the two.
    fn finding_at_rate(
        &self,
        from: &Party<'_>,
        way: &Onward<'_>,
        rate: Rate,
        key: &PrepareKey<'_>,
        clock: u64,
    ) -> Finding
        requires shown { IsShown self.now }
        requires sender { IsParty (state_shown self.now) from.now }
        requires receiver { IsParty (state_shown self.now) way.now.to }
        requires clock { clock ≤ last_moment }
        ensures finding { result ≡ finding_at_rate (state_shown self.now) (peer_of from.now) (way_of way.now) rate
            (key_of key.now) clock }
        ensures verdict { verdict_of result ≡ verdict_at_rate (state_shown self.now) (peer_of from.now) (way_of way.now) rate
            (key_of key.now) clock }
        ensures recorded { is_recorded (verdict_of result) ≡ true }
        ensures sooner { IsSooner (verdict_of result) key.now.expiry }
        ensures limited { is_limited (verdict_of result) ≡ false }
        ensures goes { CanGoTo (state_shown self.now) (peer_of from.now) (peer_of way.now.to) key.now.amount
            (verdict_of result) }
    {
        let (to, amount) = (&way.to, key.amount);
        let fee = way.fee.get();
        let Some(price) = rate.price_less(amount, fee) else {
            let price = rate.price(amount) as u64;
            return Finding::BelowFee { price, fee };
        };
        let cap = to.peer.terms.limits.cap.get();
        if price > cap as u128 {
            return Finding::OverNextCap {
                to: to.peer.number,
                price,
                cap,
                amount,
                greatest: rate.greatest(from.peer.terms.limits.cap.get(), cap + fee),
            };
        }
        let expiry = outgoing_expiry(self.opening, key.expiry.get(), clock);
        if expiry <= clock {
            return Finding::ExpiresOnward { expiry, clock };
        }
        let price = price as u64;
        if from.purse.passes_ceiling(amount) {
            return over_ceiling(from, amount);
        }
        if to.purse.passes_credit(price) {
            return over_credit(to, price);
        }
        let awaited = self.awaited();
        if awaited >= MAX_HOLDS {
            return Finding::TooManyHeld { awaited };
        }
        Finding::GoesOn {
            hold: self.opening.next_hold + self.holds.len() as u64,
            to: to.peer.number,
            price,
            expiry,
        }
    }
}

// That the sender would owe more than its ceiling.
fn over_ceiling(from: &Party<'_>, amount: u64) -> Finding
    ensures { result ≡ OverCeiling from.now.purse.now.balance from.now.purse.now.held_in amount
        from.now.peer.now.terms.limits.ceiling }
{
    Finding::OverCeiling {
        balance: from.purse.balance(),
        held: from.purse.held_in(),
        amount,
        ceiling: from.peer.terms.limits.ceiling.get(),
    }
}

// That more would be owed to the receiver than its credit.
fn over_credit(to: &Party<'_>, price: u64) -> Finding
    ensures { result ≡ OverCredit to.now.peer.now.number to.now.purse.now.balance to.now.purse.now.held_out price
        to.now.peer.now.terms.limits.credit }
{
    Finding::OverCredit {
        to: to.peer.number,
        balance: to.purse.balance(),
        held: to.purse.held_out(),
        price,
        credit: to.peer.terms.limits.credit.get(),
    }
}

/// A peer, as far as its configuration goes (RFC 0031).
pub fn child_of<'a>(opening: &'a Opening, peer: &'a Peer) -> Child<'a>
    ensures { result ≡ child_of opening.now peer.now }
{
    Child::new(ChildParts {
        role: peer.terms.role,
        tenant: &opening.address,
        name: &peer.terms.name,
        scale: peer.terms.scale,
        code: &peer.terms.asset,
    })
}

// What is found of a request for the configuration.
fn config_finding(child: &Child<'_>, key: &PrepareKey<'_>) -> Finding
    ensures finding { result
        ≡ config_finding key.now.amount (checked_request child.now.role key.now.amount key.now.condition.now) }
    ensures verdict { verdict_of result
        ≡ config_verdict (checked_request child.now.role key.now.amount key.now.condition.now) }
{
    match check(child, key.amount, key.condition) {
        Ok(()) => Finding::Config,
        Err(IldcpFault::NotChild) => Finding::NoChild,
        Err(IldcpFault::Amount) => Finding::ConfigAmount { amount: key.amount },
        Err(IldcpFault::Condition) => Finding::ConfigCondition,
    }
}
