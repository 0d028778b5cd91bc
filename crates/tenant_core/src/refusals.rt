//! Why orders are refused by the packets and the money of a book, and the bucket that they leave.

ghost use Rattle.std.specs.Prelude.{◌≡◌, Some, None, if◌then◌else◌};

use crate::command::{Amount, Order, Side};
use crate::faults::CommandFault;
use crate::journal::Change;
use crate::judge::Standing;
use crate::orders::{is_awaited_for, number_named, rate_named};
use crate::peer::Level;
use rate_bucket::full_bucket;
use route_table::PeerNo;

impl Standing<'_> {
    ghost use Rattle.std.specs.Prelude.{◌≡◌, ◌≤◌, IfNone, IfSome, true, false, is_some};
    ghost use Rattle.route_table.specs.Routes.{NamesPeer};
    ghost use Rattle.tenant_core.specs.Orders.{is_in_use, is_too_much, state_refusal, order_refusal, change_of, IsFree};
    ghost use Rattle.tenant_core.specs.declared.journal.Change.TheVariants.{PeerRemoved, Settled};
    ghost use Rattle.tenant_core.specs.Network.{peer_numbered};
    ghost use Rattle.tenant_core.specs.Present.{credit_left, level_left};
    ghost use Rattle.tenant_core.specs.State.{clock_of};
    ghost use Rattle.tenant_core.specs.Standing.{state_shown, IsShown};

    fn is_in_use(&self, peer: PeerNo) -> bool
        requires shown { IsShown self.now }
        requires present { is_some (peer_numbered peer self.now.network.now.peers) ≡ true }
        ensures exact { result ≡ is_in_use (state_shown self.now) self.now.network.now peer }
        ensures free { result ≡ false → ¬ (NamesPeer self.now.network.now.routes peer) }
    {
        let owes = self.present(peer).purse.balance() != 0;
        self.network.routes().names_peer(peer)
            || is_awaited_for(self.holds.as_slice(), peer)
            || owes
    }

    fn is_too_much(&self, peer: PeerNo, side: Side, amount: Amount) -> bool
        requires shown { IsShown self.now }
        requires present { is_some (peer_numbered peer self.now.network.now.peers) ≡ true }
        ensures { result ≡ is_too_much (state_shown self.now) peer side amount }
    {
        let purse = self.present(peer).purse;
        match side {
            Side::In => purse.passes_least(amount.get()),
            Side::Out => purse.passes_most(amount.get()),
        }
    }

    // Why removing a peer is refused.
    fn removal_refusal(&self, peer: PeerNo) -> Option<CommandFault>
        requires shown { IsShown self.now }
        requires present { is_some (peer_numbered peer self.now.network.now.peers) ≡ true }
        ensures exact { result ≡ state_refusal (state_shown self.now) self.now.network.now (PeerRemoved peer) }
        ensures free { IfNone result (¬ (NamesPeer self.now.network.now.routes peer)) }
    {
        self.is_in_use(peer).then_some(CommandFault::InUse)
    }

    // Why a settlement is refused.
    fn settlement_refusal(&self, peer: PeerNo, side: Side, amount: Amount) -> Option<CommandFault>
        requires shown { IsShown self.now }
        requires present { is_some (peer_numbered peer self.now.network.now.peers) ≡ true }
        ensures { result ≡ state_refusal (state_shown self.now) self.now.network.now (Settled peer side amount) }
    {
        self.is_too_much(peer, side, amount)
            .then_some(CommandFault::Limit)
    }

    /// Why an order is refused, if the journal has room for it.
    pub fn refusal(&self, order: &Order) -> Option<CommandFault>
        requires { IsShown self.now }
        ensures exact { result ≡ order_refusal (state_shown self.now) self.now.network.now order.now }
        ensures free { IfNone result (IfSome (change_of self.now.network.now order.now) (IsFree self.now.network.now)) }
    {
        let network = self.network;
        match order {
            Order::AddPeer(terms) => network.peer_refusal(terms),
            Order::RemovePeer(name) => match number_named(network, name) {
                Some(peer) => self.removal_refusal(peer),
                None => Some(CommandFault::Absent),
            },
            Order::SetLimits { peer, .. } | Order::SetBucket { peer, .. } => {
                absent_unless(number_named(network, peer).is_some())
            }
            Order::AddRoute { prefix, peer, .. } => match number_named(network, peer) {
                Some(_) => network.route_refusal(prefix),
                None => Some(CommandFault::Absent),
            },
            Order::RemoveRoute(prefix) => network.no_route_refusal(prefix),
            Order::SetRate { pair, rate } => match rate_named(network, pair, *rate) {
                Some(rate) => network.rate_refusal(&rate),
                None => Some(CommandFault::Absent),
            },
            Order::Settle { peer, side, amount } => match number_named(network, peer) {
                Some(peer) => self.settlement_refusal(peer, *side, *amount),
                None => Some(CommandFault::Absent),
            },
        }
    }

    fn credit_left(&self, clock: u64, change: &Change) -> u64
        requires shown { IsShown self.now }
        requires later { clock_of (state_shown self.now) ≤ clock }
        ensures { result ≡ credit_left (state_shown self.now) self.now.network.now clock change.now }
    {
        match change {
            Change::PeerAdded(terms) => full_bucket(terms.bucket.burst.get() as u32),
            Change::BucketSet { peer, bucket } => {
                let full = full_bucket(bucket.burst.get() as u32);
                match self.numbered(*peer) {
                    Some(party) => party.bucket.credit(clock).min(full),
                    None => 0,
                }
            }
            _ => 0,
        }
    }

    /// The level of the bucket that a change fills or changes, at the clock after its entry.
    pub fn level_left(&self, clock: u64, change: &Change) -> Level
        requires shown { IsShown self.now }
        requires later { clock_of (state_shown self.now) ≤ clock }
        ensures { result ≡ level_left (state_shown self.now) self.now.network.now clock change.now }
    {
        Level {
            credit: self.credit_left(clock, change),
            clock,
            entries: self.journal.len() as u64 + 1,
        }
    }
}

fn absent_unless(is_there: bool) -> Option<CommandFault>
    ensures { result ≡ (if is_there then None else Some CommandFault.Absent) }
{
    if is_there {
        None
    } else {
        Some(CommandFault::Absent)
    }
}
