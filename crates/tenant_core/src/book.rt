//! Books: an opening and the records since.

mod explain;
mod follow;
mod present;
mod reopen;

use crate::arena::Journal;
use crate::command::{Answered, Command, Order};
use crate::faults::{BookFault, CommandFault, HoldFault};
use crate::fresh::next_period;
use crate::ground::Ground;
use crate::hold::{Hold, begun_by};
use crate::hold_table::HoldTable;
use crate::journal::{AnswerEntry, AnswerKey, ChangeEntry, PrepareKey, RollEntry, TickEntry};
use crate::judge::{Standing, child_of};
use crate::limits::MAX_PERIOD;
use crate::moves::{begin_hold, end_hold, mark_overdue};
use crate::network::Network;
use crate::opening::Opening;
use crate::orders::{change_of, place_changed};
use crate::period::{Period, PeriodParts, Records};
use crate::periods::{next_opening, row_of, rows_of};
use crate::record_view::decide_view;
use crate::routing::{peer_numbered, peer_with_token};
use crate::row::Row;
use crate::running::{charge, copied_purses, follow_buckets, follow_purses};
use crate::setup::TenantSetup;
use crate::verdict::Verdict;
use common_types::{Boxed, Items};
use ildcp_core::Child;
use ilp_addr::{Address, Moment, Target};
use money_core::Purse;
use rate_bucket::Bucket;
use route_table::{Hop, PeerNo};
use std::alloc::{AllocError, Global};
use std::marker::Model;
use std::mem;

/// A tenant's book. Contracts see it as a `State`: what its period began with, and the records since.
#[derive(Drop)]
pub struct Book {
    opening: Opening,
    // Whom the tenant deals with at present.
    network: Network,
    journal: Journal,
    clock: u64,
    holds: HoldTable,
    // For each peer, at its place among them.
    purses: Vec<Purse>,
    buckets: Vec<Bucket>,
}

impl Model for Book {
    ghost use Rattle.tenant_core.specs.State.{State};
    ghost use Rattle.std.specs.Coded.{codes};
    ghost use Rattle.route_table.specs.contracts.routes.Routes as routes;

    ghost Value = { State };

    ghost coded = { Prim.hlevel (codes, routes.the_row.coded) };

    ghost use Rattle.tenant_core.specs.Kept.{state_of, BookInvariant};

    ghost view = { state_of };

    ghost invariant = { BookInvariant };
}

impl Book {
    ghost use Rattle.std.specs.Prelude.{◌≡◌, ◌<◌, ◌≤◌, length, IfOk, IfSome, option_copied, option_map};
    ghost use Rattle.ilp_addr.specs.OwnAddress.{max_own_address};
    ghost use Rattle.tenant_core.specs.Answer.{has_no_place};
    ghost use Rattle.route_table.specs.Routes.{best_route};
    ghost use Rattle.tenant_core.specs.Holds.{holds_of, open_holds};
    ghost use Rattle.tenant_core.specs.State.{opened, opening_of};
    ghost use Rattle.tenant_core.specs.Limits.{max_tenants};
    ghost use Rattle.tenant_core.specs.Network.{peer_numbered, peer_with_token};
    ghost use Rattle.tenant_core.specs.Judge.{child_of};
    ghost use Rattle.tenant_core.specs.Present.{network_of};
    ghost use Rattle.tenant_core.specs.Purse.{row_of};
    ghost use Rattle.tenant_core.specs.Sound.{IsSound};
    ghost use Rattle.tenant_core.specs.Standing.{state_shown, IsShown};

    /// The book of a tenant's first period, in which nothing has happened. `tenant` is the tenant's place among all,
    /// below 64, and `start` its first clock. It allocates all that packets, answers and ticks of the period
    /// need: these allocate nothing. Fails only if it is out of memory.
    pub fn new(
        alloc: Global,
        tenant: usize,
        setup: &TenantSetup,
        start: Moment,
    ) -> Result<Book, AllocError>
        requires { tenant < max_tenants }
        ensures { IfOk result (λ book. book ≡ opened (opening_of tenant setup.now start)) }
    {
        setup.terms();
        start.millis();
        let opening = Opening::first(alloc, tenant, setup, start)?;
        opening.network.is_network();
        Book::begun(alloc, opening)
    }

    /// A copy of the book, with as much room. Fails only if it is out of memory.
    pub fn copy(&self, alloc: Global) -> Result<Book, AllocError>
        ensures { IfOk result (λ book. book ≡ self.now) }
    {
        let opening = self.opening.copy(alloc)?;
        let network = self.network.copy(alloc)?;
        let journal = self.journal.copy(alloc)?;
        let holds = self.holds.copy(alloc)?;
        let purses = copied_purses(alloc, self.purses.as_slice())?;
        let buckets = Vec::from_slice(alloc, self.buckets.as_slice())?;
        Ok(Book {
            opening,
            network,
            journal,
            clock: self.clock,
            holds,
            purses,
            buckets,
        })
    }

    /// The tenant's place among all tenants.
    pub fn tenant(&self) -> usize
        ensures { result ≡ self.now.opening.tenant }
    {
        self.opening.tenant
    }

    /// The journal of the period.
    pub fn journal(&self) -> &Journal
        ensures { result.now.records ≡ self.now.records }
    {
        &self.journal
    }

    /// The name of the peer of that number.
    pub fn peer_name(&self, peer: PeerNo) -> Option<&[u8]>
        ensures value { option_copied result
            ≡ option_map (λ p. p.terms.name) (peer_numbered peer (network_of self.now).peers) }
        ensures short { IfSome result (λ name. length name.now ≤ 32) }
    {
        match peer_numbered(&self.network, peer) {
            Some(peer) => Some(peer.terms.name.as_bytes()),
            None => None,
        }
    }

    /// The URL at which the peer of that number takes packets, and the token for it.
    pub fn target(&self, peer: PeerNo) -> Option<&Target>
        ensures { option_copied result
            ≡ option_map (λ p. p.terms.target) (peer_numbered peer (network_of self.now).peers) }
    {
        match peer_numbered(&self.network, peer) {
            Some(peer) => Some(&peer.terms.target),
            None => None,
        }
    }

    /// The peer that shows this token, as far as its configuration goes (RFC 0031).
    pub fn child(&self, token: &[u8]) -> Option<Child<'_>>
        ensures { result ≡ option_map (child_of self.now.opening)
            (peer_with_token token.now (network_of self.now).peers) }
    {
        let peer = peer_with_token(&self.network, token)?;
        Some(child_of(&self.opening, peer))
    }

    /// How many entries the running period has.
    pub fn entries(&self) -> usize
        ensures { result ≡ length self.now.records }
    {
        self.journal.len()
    }

    /// The number of the running period.
    pub fn period(&self) -> u64
        ensures { result ≡ self.now.opening.period }
    {
        self.opening.period
    }

    /// How many entries a period has room for, beside the roll that ends it.
    pub fn journal_places(&self) -> u64
        ensures { result ≡ self.now.opening.journal }
    {
        self.opening.journal
    }

    /// How many packets that went on await their answers, those that a tick has marked included.
    pub fn open_holds(&self) -> usize
        ensures { result ≡ open_holds self.now }
    {
        self.holds.awaited()
    }

    /// The packets of the running period that went on, in the order of their numbers.
    pub fn holds(&self) -> &[Hold]
        ensures { result.now ≡ holds_of self.now }
    {
        self.holds.as_slice()
    }

    /// The peer to which the best route of a destination leads, and the fee that is kept of its packets.
    pub fn hop(&self, destination: &Address<'_>) -> Option<Hop>
        ensures { result ≡ best_route (network_of self.now).routes destination.now }
    {
        self.network.routes().find(destination)
    }

    /// What the peer of that number owes, and what is held from it and for it.
    pub fn balance(&self, peer: PeerNo) -> Option<Row>
        ensures { result ≡ option_map (row_of self.now) (peer_numbered peer (network_of self.now).peers) }
    {
        let party = self.standing().numbered(peer)?;
        Some(row_of(party.peer, party.purse))
    }

    /// The tenant's own address.
    pub fn address(&self) -> &[u8]
        ensures value { result.now ≡ self.now.opening.address }
        ensures short { length result.now ≤ max_own_address }
    {
        self.opening.address.as_bytes()
    }

    // What the checks of a packet see.
    fn standing(&self) -> Standing<'_>
        ensures state { state_shown result ≡ self.now }
        ensures shown { IsShown result }
    {
        Standing {
            opening: &self.opening,
            network: &self.network,
            journal: &self.journal,
            purses: self.purses.as_slice(),
            buckets: self.buckets.as_slice(),
            holds: &self.holds,
        }
    }

    // Whether the journal has no room for another entry and the answers of all open holds.
    fn has_no_place(&self) -> bool
        ensures { result ≡ has_no_place self.now }
    {
        self.journal.len() as u64 + self.holds.awaited() as u64 + 1 > self.opening.journal
    }

    // The invariant of the type, for any holder of a book.
    pub(crate) fn is_sound(&self)
        ensures { IsSound self.now }
    {
        let _clock = self.clock;
    }
}

impl Book {
    ghost use Rattle.std.specs.Prelude.{◌≡◌};
    ghost use Rattle.tenant_core.specs.Key.{key_of};
    ghost use Rattle.tenant_core.specs.Judge.{judge, decided, IsSooner};

    /// Decides what becomes of a Prepare that came with this token at this moment, and records it.
    ///
    /// The first check that fails gives the verdict:
    ///
    /// - the token is a peer's, else `Unknown`;
    /// - the journal has room for the packet and its answer, else `NoRoom`;
    /// - the sender's bucket admits the packet (T05);
    /// - the expiry is after the clock (R02);
    /// - the destination is not `peer.config` (RFC 0031): else the sender is a child (F00), the amount is 0 (F03) and the
    ///   condition that of 32 zero bytes (F05), and the packet is fulfilled;
    /// - the destination is neither a neighbour's, of the scheme `peer`, nor the tenant's own address (F02);
    /// - the amount is within the sender's cap (F08);
    /// - the best route leads on, to another peer than the sender (F02);
    /// - the pair has a rate (F02);
    /// - the price is not below the fee of the route (R01);
    /// - the price less that fee, the outgoing amount, is within the next peer's cap (F08);
    /// - the outgoing expiry is after the clock (R02);
    /// - the sender's balance, what is held from it and the amount are within its ceiling (T04);
    /// - the receiver's balance less what is held for it and the outgoing amount is within its credit (T04);
    /// - fewer than 1,024 packets await their answers (T03).
    ///
    /// After `Unknown` and `NoRoom` nothing has changed, the clock included. The clock is the greatest moment so far.
    pub fn decide(&mut self, token: &[u8], key: &PrepareKey<'_>, now: Moment) -> Verdict
        ensures verdict { result ≡ judge self.old token.now (key_of key.now) now }
        ensures records { self.new ≡ decided self.old token.now (key_of key.now) now }
        ensures sooner { IsSooner result key.now.expiry }
    {
        rate_bucket::laws::running();
        let standing = self.standing();
        let Some(from) = standing.sender(token) else {
            return Verdict::Unknown;
        };
        if standing.is_full() {
            return Verdict::NoRoom;
        }
        let clock = self.clock.max(now.millis());
        let verdict = standing.verdict_for_sender(&from, key, clock);
        let entry = decide_view(from.peer.number, key, now);
        let place = from.place;
        charge(&mut self.buckets, place, clock);
        let ground = Ground {
            opening: &self.opening,
            network: &self.network,
            journal: &self.journal,
        };
        begin_hold(
            &ground,
            &mut self.purses,
            &mut self.holds,
            begun_by(entry, verdict),
        );
        self.clock = clock;
        self.journal.push_decide(entry, verdict);
        verdict
    }
}

impl Book {
    ghost use Rattle.std.specs.Prelude.{◌≡◌, IfOk, map};
    ghost use Rattle.tenant_core.specs.Answer.{answer_to, answered, tick_result, ticked};
    ghost use Rattle.tenant_core.specs.Orders.{IsOrdered, ordered};
    ghost use Rattle.tenant_core.specs.Periods.{IsRolled};
    ghost use Rattle.tenant_core.specs.Governed.{IsGoverned};
    ghost use Rattle.tenant_core.specs.Present.{network_of};
    ghost use Rattle.tenant_core.specs.Purse.{row_of};

    /// Settles what came back for the packet that is held under that number, records it, and ends the hold.
    ///
    /// The first check that fails gives the verdict:
    ///
    /// - the hold is not marked overdue, and the clock is before its outgoing expiry (R00);
    /// - the SHA-256 of a Fulfill's fulfillment is the condition (F05);
    /// - the answer is a Fulfill or a Reject (T01);
    /// - after all of them it is `Relay`.
    ///
    /// A Fulfill that is relayed is taken on both sides: the sender owes the incoming amount more, and the receiver
    /// the outgoing amount less. Otherwise what was held is released on both sides. The clock is the greatest moment
    /// so far.
    ///
    /// `NoSuchHold` if no such packet awaits an answer. Nothing has changed then, the clock included.
    pub fn answer(&mut self, hold: u64, now: Moment, key: AnswerKey) -> Result<Verdict, HoldFault>
        ensures verdict { result ≡ answer_to self.old hold now key }
        ensures records { self.new ≡ answered self.old hold now key }
    {
        let clock = self.clock.max(now.millis());
        let ground = Ground {
            opening: &self.opening,
            network: &self.network,
            journal: &self.journal,
        };
        let Some(verdict) = end_hold(
            &ground,
            &mut self.purses,
            &mut self.holds,
            hold,
            clock,
            &key,
        ) else {
            return Err(HoldFault::NoSuchHold);
        };
        key.is_answer();
        self.clock = clock;
        let entry = AnswerEntry {
            hold,
            now: now.millis(),
            key,
        };
        self.journal.push_answer(entry, verdict);
        Ok(verdict)
    }

    // Does an order of an operator: adds an entry, and changes the network by it.
    //
    // Errors, in the order of the tests: `Full`, those of the order, and `Memory`.
    fn order(&mut self, alloc: Global, order: &Order, now: Moment) -> Result<(), CommandFault>
        ensures { IsOrdered result (ordered self.old order.now) self.old self.new now }
    {
        if self.has_no_place() {
            return Err(CommandFault::Full);
        }
        if let Some(fault) = self.standing().refusal(order) {
            return Err(fault);
        }
        let Some(change) = change_of(alloc, &self.network, order)? else {
            return Err(CommandFault::Absent);
        };
        let clock = self.clock.max(now.millis());
        let level = self.standing().level_left(clock, &change);
        let place = place_changed(&self.network, &change);
        let now = now.millis();
        let entry = Boxed::new(alloc, ChangeEntry { change, now })?;
        let change = &entry.get().change;
        self.purses.reserve(1)?;
        self.buckets.reserve(1)?;
        self.network.apply(alloc, change, level)?;
        self.network.is_network();
        follow_purses(&mut self.purses, change, place);
        follow_buckets(&mut self.buckets, change, place, clock);
        rate_bucket::laws::running();
        self.clock = clock;
        self.journal.push_change(entry);
        Ok(())
    }

    /// Records that moment. Holds that have expired by the clock after it are marked overdue. Their amounts are
    /// released on both sides, and their answers may still come. Returns how many were marked. The clock is the
    /// greatest moment so far.
    ///
    /// `Full` if the journal only has room for the answers of packets that await them. Nothing has changed then.
    pub fn tick(&mut self, now: Moment) -> Result<u32, BookFault>
        ensures count { result ≡ tick_result self.old now }
        ensures records { self.new ≡ ticked self.old now }
    {
        if self.has_no_place() {
            return Err(BookFault::Full);
        }
        self.clock = self.clock.max(now.millis());
        let ground = Ground {
            opening: &self.opening,
            network: &self.network,
            journal: &self.journal,
        };
        let count = mark_overdue(&ground, &mut self.purses, &mut self.holds, self.clock);
        self.journal
            .push_tick(TickEntry { now: now.millis() }, count);
        Ok(count)
    }

    // Ends the running period and begins the next one with what the book is at present. Gives the closed period.
    fn roll(&mut self, alloc: Global, now: Moment) -> Result<Period, CommandFault>
        ensures { IsRolled result self.old self.new now }
    {
        if self.holds.awaited() > 0 {
            return Err(CommandFault::InUse);
        }
        if self.opening.period >= MAX_PERIOD {
            return Err(CommandFault::Limit);
        }
        let clock = self.clock.max(now.millis());
        let next = next_period(alloc, &self.standing(), clock)?;
        next.network.is_network();
        rate_bucket::laws::running();
        let opening = next_opening(&self.opening, clock, self.holds.len() as u64, next.network);
        let mut closed = PeriodParts::begun(alloc, opening, next.rows)?;
        let fresh = next.fresh;
        let mut journal = mem::replace(&mut self.journal, fresh.journal);
        journal.push_roll(RollEntry { now: now.millis() });
        let parts = closed.get_mut();
        mem::swap(&mut self.opening, &mut parts.opening);
        parts.records = Records::new(journal);
        self.network = fresh.network;
        self.clock = clock;
        self.holds = fresh.holds;
        self.purses = fresh.purses;
        self.buckets = fresh.buckets;
        Ok(Period::new(closed))
    }

    // What each peer owes, and what is held from it and for it. Fails only if it is out of memory.
    fn balances(&self, alloc: Global) -> Result<Vec<Row>, AllocError>
        ensures { IfOk result (λ rows. rows.items ≡ map (row_of self.now) (network_of self.now).peers) }
    {
        rows_of(alloc, &self.standing())
    }

    /// Does a command of an operator at that moment. An error leaves the book as it was, the clock included.
    ///
    /// An order changes whom the tenant deals with, and is recorded. Its errors, in the order of the tests: `Full` if
    /// entries, packets that await their answers and 1 more exceed the journal; then
    ///
    /// - to add a peer: `Present` (its name or its token is there), `Limit` (256 peers, or 65,535 numbers were given);
    /// - to remove a peer: `Absent`, `InUse` (a route, a packet that awaits its answer or a balance names it); the
    ///   rates that name it go with it;
    /// - to set limits or a bucket: `Absent`;
    /// - to add a route: `Absent` (its peer), `Present` (its prefix), `Limit` (4,096 routes);
    /// - to remove a route: `Absent`;
    /// - to set a rate: `Absent` (a peer), `Limit` (4,096 rates);
    /// - to settle money: `Absent`, `Limit` (the balance and what is held would pass 2^62 on either side of 0).
    ///
    /// `balances` changes nothing. A roll records its entry in a place of its own, returns the period that it closes,
    /// and begins the next one with what the book is at present. Its errors are `InUse` (a packet awaits its answer)
    /// and `Limit` (the last period). `Memory` comes after each of these.
    #[tactic(auto, using(crate::proofs::Governs::order_done, crate::proofs::Governs::order_refused))]
    pub fn command(
        &mut self,
        alloc: Global,
        command: &Command,
        now: Moment,
    ) -> Result<Answered, CommandFault>
        ensures { IsGoverned result command.now self.old self.new now }
    {
        match command {
            Command::Order(order) => {
                self.order(alloc, order, now)?;
                Ok(Answered::Done)
            }
            Command::Balances => {
                let rows = self.balances(alloc)?;
                Ok(Answered::Balances(Items::from_vec(rows)))
            }
            Command::Roll => Ok(Answered::Rolled(self.roll(alloc, now)?)),
        }
    }
}
