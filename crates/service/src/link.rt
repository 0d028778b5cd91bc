//! The way to the next peers.

ghost use Rattle.std.specs.Prelude.{◌≡◌, ◌↔◌, ◌+◌, ◌*◌, ◌≤◌, ◌<◌, ◌^◌, ℕ, length, true, IfSome, IsSome};
ghost use Rattle.http_link.specs.Limits.{max_peer_answer};
ghost use Rattle.workers.specs.Replies.{Sending};
ghost use Rattle.service.specs.Exchanges.{IsEndFor, IsOneExchange, IsTimeFor, exchange_time, is_known_by, outcome_of, sending_of};

use crate::breakers::Breakers;
use crate::connection::door::Door;
use crate::connection::timed::{Timed, millis_of};
use crate::office::Terms;
use crate::system::System;
use breaker::{LEAST_TIME, Outcome, Pass};
use floor_core::Got;
use http_link::post;
use ilp_addr::{Host, Target};
use std::io;
use std::net::{IpAddr, Ipv4Addr, Ipv6Addr, Net, SocketAddr, TcpStream};
use std::sync::Wait;
use std::time::{Clock, Duration, Instant};
use workers::{Link, Outgoing, Place, Places};

/// What reaches the next peers. Each exchange has a connection of its own, and a place of its tenant for as long as it lasts.
pub trait Peers {
    /// A connection to a peer, for one frame.
    type Connection;

    /// What one exchange does: the peers before, what was sent and what came back, and the peers after.
    ghost exchanges: { Self → Sending → Self → Type 0 };

    /// Opens a connection to the peer of that target, until that moment.
    fn connect(
        &self,
        place: &Place,
        target: &Target,
        until: Instant,
    ) -> io::Result<Self::Connection>;

    /// Sends a packet over a connection, in a place of its tenant, and writes what comes back until that moment to the front of
    /// the room.
    fn exchange(
        &mut self,
        place: &Place,
        connection: Self::Connection,
        packet: Outgoing<'_>,
        until: Instant,
        out: &mut [u8],
    ) -> Got
        requires own { place.now.tenant ≡ packet.tenant }
        requires room { max_peer_answer ≤ length out.old }
        ensures so { exchanges self.old (sending_of packet.entry result out.new) self.new }
        ensures len { length out.new ≡ length out.old };
}

/// The most bytes of a frame that certainly goes out in one write with its head, whatever the target: no later write
/// waits for its receipt.
const SHORT: usize = 400;

/// Sockets, by which peers are reached.
#[derive(Drop)]
pub struct Sockets<'a, H> {
    pub handle: &'a H,
}

/// A link that makes one exchange for each packet, in one of the places that the tenants share. An exchange waits for
/// a place, connects, reads and writes within the tenant's longest hold, or within the time until the packet expires
/// if that is less. Once the service stops, the hold counts from the stop on. None of these begins after that time, and the
/// exchange ends a little later.
///
/// A packet to a peer that rests is not sent, and gets no answer at once, as if the peer had given none. A trial may last for a
/// second at most (`Breaker`). Answers of peers are inputs, whatever they are: so this changes nothing in the rules of the books,
/// and the isolation of tenants holds as without breakers.
#[derive(Drop)]
pub struct PeerLink<'a, H, C, P> {
    handle: &'a H,
    clock: &'a C,
    terms: &'a [Terms],
    places: &'a Places,
    breakers: &'a Breakers,
    // The service stops once it is closed.
    door: &'a Door,
    peers: P,
    sent: u64,
}

impl<'a, H, C, P> PeerLink<'a, H, C, P> {
    /// A link for tenants of these terms, by the clock of that system, which has sent so many packets.
    pub fn new(
        system: &System<'a, H, C>,
        terms: &'a [Terms],
        places: &'a Places,
        breakers: &'a Breakers,
        door: &'a Door,
        peers: P,
        sent: u64,
    ) -> PeerLink<'a, H, C, P>
        ensures { result.sent ≡ sent }
    {
        PeerLink {
            handle: system.handle,
            clock: system.clock,
            terms,
            places,
            breakers,
            door,
            peers,
            sent,
        }
    }
}

// For how many milliseconds an exchange may last that begins now, in a service that has stopped for so many.
fn exchange_time(hold: u64, expiry: u64, now: u64, stopping: u64) -> u64
    ensures { result ≡ exchange_time hold expiry now stopping }
{
    hold.saturating_sub(stopping)
        .min(expiry.saturating_sub(now))
}

// What is known of a peer after an exchange for which it had so many milliseconds. A miss says nothing if they were few: the sender
// may have left it no time, or the packet waited for a place.
fn outcome_of(got: Got, time: u64) -> Outcome
    ensures { result ≡ outcome_of got time }
{
    match got {
        Got::Filled(_) => Outcome::Answered,
        Got::Fault if time < LEAST_TIME => Outcome::Unknown,
        Got::Fault => Outcome::Missed,
    }
}

impl<H: Net<Stream = TcpStream> + Clock> Sockets<'_, H> {
    fn connect_to(&self, ip: IpAddr, port: u16, until: Instant) -> io::Result<TcpStream> {
        let left = until.saturating_duration_since(Instant::now(self.handle)?);
        TcpStream::connect_timeout(self.handle, &SocketAddr::new(ip, port), left)
    }
}

impl<H: Wait + Net<Stream = TcpStream> + Clock> Peers for Sockets<'_, H> {
    type Connection = TcpStream;

    ghost exchanges = { λ _ _ _. Unit {0} };

    fn connect(&self, _place: &Place, target: &Target, until: Instant) -> io::Result<TcpStream> {
        let port = target.port();
        match target.address() {
            Host::V4(ip) => self.connect_to(IpAddr::V4(ip), port, until),
            Host::V6(ip) => self.connect_to(IpAddr::V6(ip), port, until),
            Host::Localhost => match self.connect_to(IpAddr::V4(Ipv4Addr::LOCALHOST), port, until) {
                Ok(stream) => Ok(stream),
                Err(_) => self.connect_to(IpAddr::V6(Ipv6Addr::LOCALHOST), port, until),
            },
        }
    }

    fn exchange(
        &mut self,
        _place: &Place,
        connection: TcpStream,
        packet: Outgoing<'_>,
        until: Instant,
        out: &mut [u8],
    ) -> Got {
        if packet.frame.len() > SHORT && connection.set_nodelay(true).is_err() {
            return Got::Fault;
        }
        let mut reader = Timed::until(&connection, self.handle, until);
        let mut writer = Timed::until(&connection, self.handle, until);
        match post(&mut reader, &mut writer, packet.target, packet.frame, out) {
            Ok(n) => Got::Filled(n),
            Err(_) => Got::Fault,
        }
    }
}

impl<H: Wait + Clock, C: workers::Clock, P: Peers> PeerLink<'_, H, C, P> {
    // For how many milliseconds an exchange of that packet may last that begins now; `None` if there is no such
    // tenant.
    fn time_for(&self, packet: &Outgoing<'_>) -> Option<u64>
        ensures known { IsSome result ↔ (packet.now.tenant < length self.now.terms.now) }
        ensures time { IfSome result (λ time. IsTimeFor (C.gives self.now.clock.now) self.now.terms.now
            packet.now.tenant packet.now.expiry time) }
    {
        let terms = self.terms.get(packet.tenant)?;
        let now = self.clock.now().millis();
        let stopping = self.door.closed_for(self.handle);
        Some(exchange_time(terms.hold, packet.expiry, now, stopping))
    }

    // Until when an exchange of that packet with that pass may last that begins now.
    fn end_of_exchange(&self, packet: &Outgoing<'_>, pass: Pass) -> Option<Instant>
        ensures { IfSome result (λ until. IsEndFor (C.gives self.now.clock.now) self.now.terms.now
            packet.now.tenant packet.now.expiry pass until) }
    {
        let time = pass.time_of(self.time_for(packet)?);
        let begun = Instant::now(self.handle).ok()?;
        begun.checked_add(Duration::from_millis(time))
    }

    // How many milliseconds are left until then; none if the clock can't be read.
    fn left_until(&self, until: Instant) -> u64 {
        match Instant::now(self.handle) {
            Ok(now) => millis_of(until.saturating_duration_since(now)),
            Err(_) => 0,
        }
    }

    // Sends a packet, unless its peer rests: once at most.
    fn exchanged(&mut self, packet: Outgoing<'_>, out: &mut [u8]) -> Got
        requires { max_peer_answer ≤ length out.old }
        ensures len { length out.new ≡ length out.old }
        ensures once { IsOneExchange result (self.new.peers ≡ self.old.peers)
            (P.exchanges self.old.peers (sending_of packet.entry result out.new) self.new.peers) }
        ensures sent { self.new.sent ≡ self.old.sent }
    {
        let (handle, breakers) = (self.handle, self.breakers);
        let (tenant, target) = (packet.tenant, packet.target);
        let Some(pass) = breakers.ask(handle, tenant, target) else {
            return Got::Fault;
        };
        let (got, outcome) = self.exchanged_under(pass, packet, out);
        breakers.learn(handle, tenant, target, pass, outcome);
        got
    }

    // Sends a packet with that pass in one of the places, once its tenant has one: once at most. Also gives what is known of the
    // peer then.
    fn exchanged_under(
        &mut self,
        pass: Pass,
        packet: Outgoing<'_>,
        out: &mut [u8],
    ) -> (Got, Outcome)
        requires { max_peer_answer ≤ length out.old }
        ensures len { length out.new ≡ length out.old }
        ensures once { IsOneExchange result.0 (self.new.peers ≡ self.old.peers)
            (P.exchanges self.old.peers (sending_of packet.entry result.0 out.new) self.new.peers) }
        ensures sent { self.new.sent ≡ self.old.sent }
        ensures known { is_known_by result.0 result.1 ≡ true }
    {
        let Some(until) = self.end_of_exchange(&packet, pass) else {
            return (Got::Fault, Outcome::Unknown);
        };
        let (handle, places) = (self.handle, self.places);
        let Some(place) = places.take(handle, packet.tenant, until) else {
            return (Got::Fault, Outcome::Unknown);
        };
        let time = self.left_until(until);
        let got = self.exchanged_at(&place, packet, until, out);
        places.give_back(handle, place, got != Got::Fault);
        (got, outcome_of(got, time))
    }

    // Sends a packet on a connection of its own, in a place of its tenant.
    fn exchanged_at(
        &mut self,
        place: &Place,
        packet: Outgoing<'_>,
        until: Instant,
        out: &mut [u8],
    ) -> Got
        requires own { place.now.tenant ≡ packet.tenant }
        requires room { max_peer_answer ≤ length out.old }
        ensures len { length out.new ≡ length out.old }
        ensures once { IsOneExchange result (self.new.peers ≡ self.old.peers)
            (P.exchanges self.old.peers (sending_of packet.entry result out.new) self.new.peers) }
        ensures sent { self.new.sent ≡ self.old.sent }
    {
        match self.peers.connect(place, packet.target, until) {
            Ok(connection) => self.peers.exchange(place, connection, packet, until, out),
            Err(_) => Got::Fault,
        }
    }
}

impl<H: Wait + Clock, C: workers::Clock, P: Peers> Link for PeerLink<'_, H, C, P> {
    ghost sent = { λ l. l.sent };

    ghost sends_so = { λ before sending after. IsOneExchange sending.got (after.peers ≡ before.peers)
        (P.exchanges before.peers sending after.peers) };

    fn sends(&self) -> u64 {
        self.sent
    }

    fn send(&mut self, packet: Outgoing<'_>, out: &mut [u8]) -> Got {
        self.sent += 1;
        self.exchanged(packet, out)
    }
}
