//! The host's door.

ghost use Rattle.std.specs.Prelude.{◌≡◌, ◌<◌, ◌⊎◌, IfOk, MatchResult};
ghost use Rattle.service.specs.Hosting.{HasTold, IsToldOf};
ghost use Rattle.service.specs.Metrics.{ArePacketsOf, IsBookOf, IsMetricsOf};
ghost use Rattle.service.specs.Presence.{IsPresentText};

use crate::breakers::BreakerUse;
use crate::connection::door::{Deserted, Door};
use crate::connection::timed::Timed;
use crate::host::asking::{Hosted, Untold, told_to_host};
use crate::host::callers::{Answering, Due};
use crate::host::letters::Letter;
use crate::host::metrics::{
    BookFigures, Gauges, PacketFigures, ServiceCounts, all_counts, figures_of, metrics_text,
};
use crate::host::presence::present_text;
use crate::office::Office;
use common_types::Token;
use http_link::{HostRequest, HostService, host_arrival, serve_host};
use meters::{Kind, MeterSeat};
use one_list::Run;
use std::alloc::{AllocError, Global};
use std::net::{Net, Shutdown, TcpListener, TcpStream};
use std::os::fd::OwnedFd;
use std::sync::Wait;
use std::time::{Clock, Duration};
use std::{io, thread};
use workers::{PlaceUse, Status};

/// Where the host asks, and the token to be shown there.
#[derive(Drop)]
pub struct HostDoor<'a> {
    listener: &'a TcpListener,
    token: &'a Token,
    // The socket at which packets come, which a stop shuts.
    packets: TcpStream,
}

impl<'a> HostDoor<'a> {
    /// A door at that listener, whose `accept` does not wait from now on, for a service whose packets come at the other one.
    ///
    /// The error is the system's, where it gives no second number for the file of a listener, or lets an `accept` wait.
    pub fn new(
        listener: &'a TcpListener,
        token: &'a Token,
        packets: &TcpListener,
    ) -> io::Result<HostDoor<'a>> {
        listener.set_nonblocking(true)?;
        let socket = OwnedFd::from(packets.try_clone()?);
        Ok(HostDoor {
            listener,
            token,
            packets: TcpStream::from(socket),
        })
    }

    /// Where the host asks.
    pub fn listener(&self) -> &'a TcpListener {
        self.listener
    }

    // Refuses all who come from now on, and wakes the threads that wait for them.
    fn shut(&self) {
        let _ = self.packets.shutdown(Shutdown::Both);
    }
}

/// How many milliseconds lie between two looks whether all threads have ended.
const PAUSE: u64 = 20;

/// How many milliseconds the answer to a stop has to leave once the service has ended.
const PATIENCE: u64 = 5_000;

const NO_PLACES: PlaceUse = PlaceUse {
    share: 0,
    used: 0,
    waiting: 0,
    missed: 0,
    unanswered: 0,
};

const NO_BREAKERS: BreakerUse = BreakerUse {
    resting: 0,
    skipped: 0,
};

/// Who answers at the host's door: one request of each connection.
#[derive(Drop)]
pub struct Host<'a, H, J: Run> {
    handle: &'a H,
    alloc: Global,
    office: &'a Office<J>,
    door: HostDoor<'a>,
    seat: MeterSeat,
    told: Vec<u8>,
    ghost seated: { seat.meters ≡ office.now.meters.id },
}

impl<'a, H, J: Run> Host<'a, H, J> {
    /// A host of that office, who reads its meters through a seat of theirs.
    pub fn new(
        handle: &'a H,
        alloc: Global,
        office: &'a Office<J>,
        door: HostDoor<'a>,
        seat: MeterSeat,
    ) -> Host<'a, H, J>
        requires { seat.meters ≡ office.now.meters.id }
        ensures seat { result.seat ≡ seat }
    {
        Host {
            handle,
            alloc,
            office,
            door,
            seat,
            told: Vec::new(alloc),
        }
    }

    /// Its seat at the meters.
    pub fn into_seat(self) -> MeterSeat
        ensures { result ≡ self.entry.seat }
    {
        let Host { seat, .. } = self;
        seat
    }
}

/// The numbers of the tenants of an office.
#[derive(Drop)]
pub struct Gauged<'a, H, J: Run> {
    pub handle: &'a H,
    pub office: &'a Office<J>,
}

/// A service, as its host asks it.
#[derive(Drop)]
struct Inspected<'a, H, J: Run> {
    handle: &'a H,
    alloc: Global,
    office: &'a Office<J>,
    door: &'a HostDoor<'a>,
}

impl<H: Wait, J: Run> Gauges for Gauged<'_, H, J> {
    ghost tenants = { λ s. s.office.now.books.tenants };

    ghost meters = { λ s. s.office.now.meters.id };

    // Of what the meters, the counters of tokens, the places, the breakers and the backlog tell nothing more is known.
    ghost tells = { λ _ _ _ _. Unit {0} };

    ghost tells_tokens = { λ _ _ _. Unit {0} };

    ghost tells_places = { λ _ _ _. Unit {0} };

    ghost tells_breakers = { λ _ _ _. Unit {0} };

    ghost tells_packets = { λ _ tenant figures. ArePacketsOf J.openings tenant figures };

    ghost tells_book = { λ _ tenant figures. IsBookOf tenant figures };

    ghost tells_statements = { λ _ _ _. Unit {0} };

    fn counted(&self, seat: &mut MeterSeat, tenant: usize, kind: Kind) -> u64 {
        self.office.meters.read(seat, tenant, kind)
    }

    fn refused_tokens(&self, tenant: usize) -> u64 {
        self.office.refused_tokens(tenant)
    }

    fn places(&self, tenant: usize) -> PlaceUse {
        match self.office.places.use_by(self.handle, tenant) {
            Some(places) => places,
            // Each tenant has its places, which the lock's type can't say.
            None => NO_PLACES,
        }
    }

    fn breakers(&self, tenant: usize) -> BreakerUse {
        let used = self.office.breakers.use_by(self.handle, tenant);
        used.unwrap_or(NO_BREAKERS)
    }

    fn packets(&self, tenant: usize) -> PacketFigures {
        let guard = self.office.books.enter(self.handle, tenant);
        PacketFigures {
            outcomes: guard.packets(),
            full_journals: guard.full_journals(),
            bad_answers: guard.bad_answers(),
        }
    }

    fn book(&self, tenant: usize) -> BookFigures {
        let guard = self.office.books.enter(self.handle, tenant);
        figures_of(guard.book())
    }

    fn statements(&self, tenant: usize) -> u64 {
        match &self.office.filing {
            Some(filing) => filing.backlog.len(self.handle, tenant) as u64,
            None => 0,
        }
    }
}

// Lets nobody in any more, if the service does not stop already.
fn begin_stop(clock: &impl Clock, packets: &Door, door: &HostDoor<'_>) {
    if !packets.is_closed() {
        packets.close(clock);
        door.shut();
    }
}

impl<H: Wait + Clock, J: Run> Hosted for Inspected<'_, H, J> {
    // The door may be closed or opened the next moment.
    ghost admits = { λ _ _. Unit {0} };

    ghost measures = { λ s text. IsMetricsOf J.openings s.office.now.names.items text };

    ghost presents = { λ s text. IsPresentText J.openings s.office.now text };

    ghost presents_last = { λ s text. IsPresentText J.openings s.office.now text };

    ghost read = { λ s. s.office.now.meters.id };

    fn alloc(&self) -> Global {
        self.alloc
    }

    fn lets_in(&self) -> bool {
        self.office.door.lets_in() && self.office.can_keep(self.handle)
    }

    fn metrics(&self, seat: &mut MeterSeat) -> Result<Vec<u8>, AllocError> {
        let office = self.office;
        let gauges = Gauged {
            handle: self.handle,
            office,
        };
        let all = all_counts(self.alloc, &gauges, seat, office.names.as_slice())?;
        let service = ServiceCounts {
            accepts: office.door.lets_in(),
            open: office.door.open(),
            waiting: office.door.waiting(),
            states: office.filing.is_some(),
            log: office.log_counts(self.handle),
        };
        metrics_text(self.alloc, service, all.as_slice())
    }

    fn present(&self) -> Result<Vec<u8>, AllocError> {
        present_text(self.handle, self.alloc, self.office)
    }

    fn stop(&self) -> Deserted {
        let door = &self.office.door;
        begin_stop(self.handle, door, self.door);
        for _ in self.handle.forever() {
            if let Some(deserted) = door.deserted() {
                return deserted;
            }
            thread::sleep(self.handle, Duration::from_millis(PAUSE));
        }
        unreachable!()
    }

    fn present_last(&self, _deserted: Deserted) -> Result<Vec<u8>, AllocError> {
        present_text(self.handle, self.alloc, self.office)
    }
}

impl<H: Wait + Net<Stream = TcpStream> + Clock, J: Run> Host<'_, H, J> {
    // Keeps the answer to a request whose token is right, and returns the status.
    fn answer(&mut self, request: HostRequest) -> u16
        ensures told { ((result ≡ 200) × IsToldOf J.openings self.old.office.now request self.new.told.items) ⊎ (result ≡ 503) }
        ensures seat { self.new.seat ≡ self.old.seat }
        ensures office { self.new.office ≡ self.old.office }
        ensures door { self.new.door ≡ self.old.door }
    {
        let service = Inspected {
            handle: self.handle,
            alloc: self.alloc,
            office: self.office,
            door: &self.door,
        };
        match told_to_host(&service, &mut self.seat, request) {
            Ok(text) => {
                self.told = text;
                Status::Answered.code()
            }
            Err(Untold::Closed | Untold::Memory) => Status::Unavailable.code(),
        }
    }
}

impl<H: Wait + Net<Stream = TcpStream> + Clock, J: Run> Answering for Host<'_, H, J> {
    ghost serves = { λ before after. after.seat ≡ before.seat };

    // A stop begins as soon as its request has come, and is answered once nobody serves packets any more. Meanwhile others are
    // answered.
    fn due(&self, came: &[u8]) -> Due {
        let packets = &self.office.door;
        if host_arrival(came, self.door.token.as_bytes()) == Some(HostRequest::Stop) {
            begin_stop(self.handle, packets, &self.door);
            return match packets.deserted() {
                Some(_) => Due::Now(0),
                None => Due::AtTheEnd,
            };
        }
        if has_head(came) {
            Due::Now(0)
        } else {
            Due::Later
        }
    }

    fn serve_connection(&mut self, stream: &TcpStream, time: Duration, letter: &mut Letter) {
        let mut reader = Timed::within(stream, self.handle, time);
        let _ = serve_host(&mut reader, letter, self);
    }

    fn may_leave(&self, _letter: &Letter) -> bool {
        true
    }

    fn patience(&self) -> u64 {
        PATIENCE
    }
}

// Whether an empty line follows the first line that is not empty.
fn has_head(bytes: &[u8]) -> bool {
    let (mut has_begun, mut is_empty) = (false, true);
    for byte in bytes {
        match byte {
            b'\n' if has_begun && is_empty => return true,
            b'\n' => is_empty = true,
            b'\r' => {}
            _ => {
                has_begun = true;
                is_empty = false;
            }
        }
    }
    false
}

impl<H: Wait + Net<Stream = TcpStream> + Clock, J: Run> HostService for Host<'_, H, J> {
    ghost asks = { λ before asked after. (after.seat ≡ before.seat) × (after.office ≡ before.office) × (after.door ≡ before.door)
        × HasTold J.openings before.office.now before.door.token.now asked after.told.items };

    ghost answer = { λ h. h.told.items };

    fn host(&mut self, request: HostRequest, token: &[u8]) -> u16 {
        if request != HostRequest::Health && token != self.door.token.as_bytes() {
            return Status::Unauthorized.code();
        }
        self.answer(request)
    }

    fn body(&self) -> &[u8] {
        self.told.as_slice()
    }
}
