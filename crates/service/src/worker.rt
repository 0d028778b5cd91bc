//! A worker, and what it answers to requests.

ghost use Rattle.std.specs.Prelude.{◌≡◌, [], nat_lt};
ghost use Rattle.workers.specs.Replies.{http_code};
ghost use Rattle.http_link.specs.declared.request.RequestKind.TheVariants.{Admin};
ghost use Rattle.service.specs.Answering.{HasAnswered, HasHeard, HasServed, WasOrdered, tenants_of};
ghost use Rattle.service.specs.Served.{told_text};

pub mod answering;
pub mod desk;

use crate::connection::pace::{Activity, Rush, yields};
use crate::connection::timed::{Paced, Timed};
use crate::office::Office;
use crate::system::System;
use crate::worker::desk::Desk;
use http_link::{Inbox, LinkFault, RequestKind, Served, Service, serve_next};
use one_list::Run;
use std::alloc::Global;
use std::net::{Net, Shutdown, TcpListener, TcpStream};
use std::os::fd::OwnedFd;
use std::sync::Wait;
use std::thread;
use std::thread::Threads;
use std::time::{Duration, Instant};
use workers::{Clock, Job, Lane, Status};

/// How a connection ended whose devices did not fail.
#[derive(Clone, Copy, Debug, PartialEq, Eq)]
pub enum Over {
    /// The client ended it.
    Ended,
    /// Its last request closed it, or the next one was turned away.
    Closed,
    /// It gave way to others, or to the end of the service, after an answer: no request that was read is left.
    Yielded,
}

/// A worker that serves connections, one after another, as long as more may come. If only so many are served, it ends early once
/// none can be accepted for a minute. It carries packets to the next peers, and does the commands of those who show the tenant's
/// token for them.
#[derive(Drop)]
#[repr(C)]
pub struct Worker<'a, H, C, J: Run> {
    handle: &'a H,
    alloc: Global,
    office: &'a Office<J>,
    clock: &'a C,
    listener: &'a TcpListener,
    failed: bool,
    // The status of the last answer that a request had.
    status: u16,
    desk: Desk<J>,
    // It keeps what two neighbours write out of one cache line, and out of two that are fetched together.
    padding: [u64; 16],
    ghost seated: { desk.seat.meters ≡ office.now.meters.id },
}

impl<'a, H, C, J: Run> Worker<'a, H, C, J> {
    pub fn new(
        system: &'a System<'_, H, C>,
        office: &'a Office<J>,
        listener: &'a TcpListener,
        desk: Desk<J>,
    ) -> Worker<'a, H, C, J>
        requires { desk.seat.meters ≡ office.now.meters.id }
        ensures desk { result.desk ≡ desk }
        ensures office { result.office.now ≡ office.now }
        ensures clock { result.clock.now ≡ system.now.clock.now }
    {
        Worker {
            handle: system.handle,
            alloc: system.alloc,
            office,
            clock: system.clock,
            listener,
            failed: false,
            status: 0,
            desk,
            padding: [0; 16],
        }
    }

    fn system(&self) -> System<'a, H, C>
        ensures { result.clock.now ≡ self.now.clock.now }
    {
        System {
            handle: self.handle,
            alloc: self.alloc,
            clock: self.clock,
        }
    }

    /// What is left on its desk, and whether a connection could not be accepted.
    pub fn into_desk(self) -> (Desk<J>, bool)
        ensures { result.0 ≡ self.entry.desk }
    {
        let Worker { desk, failed, .. } = self;
        (desk, failed)
    }
}

impl<H: Wait + Net<Stream = TcpStream> + std::time::Clock, C: Clock, J: Run> Service
    for Worker<'_, H, C, J> {
    ghost asks = { λ before asked after. (after.office ≡ before.office) × (after.clock ≡ before.clock)
        × HasAnswered (C.gives before.clock.now) before.office.now before.desk asked after.desk };

    ghost tenant_of = { λ c kind name. tenants_of c.office.now kind name };

    ghost answer = { λ c. told_text c.desk.told c.desk.slot.reply c.desk.printed.items };

    fn tenant(&self, name: &[u8]) -> Option<usize> {
        self.office.tenant_at(RequestKind::Ilp, name)
    }

    fn commanded_tenant(&self, name: &[u8]) -> Option<usize> {
        self.office.tenant_at(RequestKind::Admin, name)
    }

    fn ilp(&mut self, tenant: usize, token: &[u8], body: &[u8]) -> u16 {
        self.desk.told = RequestKind::Ilp;
        let office = self.office;
        if tenant >= office.books.tenants() {
            self.status = Status::Unavailable.code();
            return self.status;
        }
        let job = Job {
            tenant,
            token,
            frame: body,
        };
        let system = self.system();
        self.status = self.desk.carry(&system, office, job).code();
        self.desk.tidy(&system, office, tenant);
        self.end_without_journal();
        self.status
    }

    fn admin(&mut self, tenant: usize, token: &[u8], body: &[u8]) -> u16 {
        self.desk.told = RequestKind::Admin;
        self.status = self.ordered(tenant, token, body).code();
        self.end_without_journal();
        self.status
    }

    fn body(&self) -> &[u8] {
        self.desk.told()
    }
}

// Refuses all who connect to a listener from now on, and wakes the threads that wait for them, if the system lets it.
fn shut(listener: &TcpListener) {
    if let Ok(listener) = listener.try_clone() {
        let _ = TcpStream::from(OwnedFd::from(listener)).shutdown(Shutdown::Both);
    }
}

/// How often in a row a worker tries to accept a connection, if only so many are served.
const MAX_TRIES: u32 = 600;

/// How many milliseconds it waits before it tries again.
const PAUSE: u64 = 100;

/// For how many milliseconds the answer to a roll waits for the statement.
const STATEMENT_PATIENCE: u64 = 30_000;

impl<H: Wait + Net<Stream = TcpStream> + std::time::Clock, C: Clock, J: Run> Worker<'_, H, C, J> {
    // Does a command under the token of the tenant's operator.
    fn ordered(&mut self, tenant: usize, token: &[u8], body: &[u8]) -> Status
        ensures office { self.new.office ≡ self.old.office }
        ensures clock { self.new.clock ≡ self.old.clock }
        ensures kind { self.new.desk.told ≡ self.old.desk.told }
        ensures ordered { WasOrdered (C.gives self.old.clock.now) (nat_lt tenant self.old.office.now.books.tenants) self.old.office.now
            (record { kind = Admin; tenant = tenant; token = token.now; body = body.now; status = http_code result }) self.old.desk result self.new.desk }
    {
        let office = self.office;
        if tenant >= office.books.tenants() {
            return Status::Unavailable;
        }
        if !office.is_operator(tenant, token) {
            return Status::Unauthorized;
        }
        let system = self.system();
        match self.desk.obey(&system, office, tenant, body) {
            Ok(status) => {
                self.await_statement(tenant);
                status
            }
            Err(_) => Status::Malformed,
        }
    }

    // Ends the service once its journal can't be written any more: nobody is let in, and those who wait for a connection are woken.
    fn end_without_journal(&self) {
        let door = &self.office.door;
        if self.office.has_lost_journal() && !door.is_closed() {
            door.close(self.handle);
            shut(self.listener);
        }
    }

    // Waits until the statement of the period that the last command closed is written, or could not be, if statements are kept;
    // but at most half a minute.
    fn await_statement(&self, tenant: usize) {
        let (Some(filing), Some(ticket)) = (&self.office.filing, self.desk.ticket) else {
            return;
        };
        let Ok(now) = Instant::now(self.handle) else {
            return;
        };
        if let Some(until) = now.checked_add(Duration::from_millis(STATEMENT_PATIENCE)) {
            filing
                .backlog
                .await_settled(self.handle, tenant, ticket, until);
        }
    }

    // Accepts a connection, and says whether one came. A try that fails is made again after a pause. It is reported at
    // the end, unless it fails because the service stops.
    fn accepted(&mut self) -> Option<TcpStream>
        ensures office { self.new.office ≡ self.old.office }
        ensures clock { self.new.clock ≡ self.old.clock }
        ensures desk { self.new.desk ≡ self.old.desk }
    {
        let door = &self.office.door;
        let tries = if door.is_endless() {
            u32::MAX
        } else {
            MAX_TRIES
        };
        for _ in 0..tries {
            door.set_refused(false);
            let accepted = self.listener.accept();
            if let Ok((stream, _)) = accepted {
                return Some(stream);
            }
            if door.is_closed() {
                return None;
            }
            door.set_refused(true);
            self.failed = true;
            thread::sleep(self.handle, Duration::from_millis(PAUSE));
        }
        None
    }

    // Accepts a connection that may be served.
    fn next_connection(&mut self) -> Option<TcpStream>
        ensures office { self.new.office ≡ self.old.office }
        ensures clock { self.new.clock ≡ self.old.clock }
        ensures desk { self.new.desk ≡ self.old.desk }
    {
        let door = &self.office.door;
        if !door.enter(self.handle) {
            return None;
        }
        door.wait_begins();
        let stream = self.accepted();
        door.wait_ends();
        if stream.is_none() || door.is_closed() {
            door.give_back();
            return None;
        }
        stream
    }

    // For how many milliseconds a connection was served that came at that time; `u64::MAX` if the clock can't be read.
    fn served_since(&self, came: Option<Instant>) -> u64 {
        match (came, Instant::now(self.handle)) {
            (Some(came), Ok(now)) => {
                let served = now.saturating_duration_since(came).as_millis();
                served.min(u128::from(u64::MAX)) as u64
            }
            _ => u64::MAX,
        }
    }

    // Whether a connection that came then ends after the answer that it just had.
    fn gives_way(&self, came: Option<Instant>) -> bool {
        let rush = self.office.door.rush(self.handle);
        rush == Rush::Crowded && yields(rush, self.status, self.served_since(came))
    }

    // Serves the requests of a connection until it ends, and says how. At some point it gives way to others, or the
    // service is stopped and the inbox has all that had come by then. From then on it reads only what the requests in
    // the inbox still need, and it ends after the last of them.
    fn converse<P: Paced>(
        &mut self,
        reader: &mut P,
        writer: &mut P,
        inbox: &mut Inbox,
    ) -> Result<Over, LinkFault>
        requires fresh { inbox.old ≡ [] }
        ensures office { self.new.office ≡ self.old.office }
        ensures clock { self.new.clock ≡ self.old.clock }
        ensures heard { HasHeard (C.gives self.old.clock.now) self.old.office.now self.old.desk (P.remaining reader.old) (P.remaining reader.new) result self.new.desk }
    {
        http_link::laws::more_may_come();
        let came = Instant::now(self.handle).ok();
        let mut activity = Activity::First;
        let mut is_last = false;
        for _ in self.handle.forever() {
            if is_last && inbox.is_empty() {
                return Ok(Over::Yielded);
            }
            let is_stopping = self.office.door.is_closed();
            reader.begin(Activity::Idle, is_last);
            if !inbox.await_more(reader)? {
                return Ok(Over::Ended);
            }
            is_last |= is_stopping;
            reader.begin(activity, is_last);
            writer.begin(Activity::Busy, is_last);
            match serve_next(reader, writer, self, inbox)? {
                Served::Kept => activity = Activity::Busy,
                Served::Closed => return Ok(Over::Closed),
                Served::Ended => return Ok(Over::Ended),
            }
            is_last |= self.gives_way(came);
        }
        unreachable!()
    }

    // Serves a connection until it ends, and says whether it sent any byte.
    fn serve_connection(&mut self, stream: &TcpStream, inbox: &mut Inbox) -> bool
        ensures office { self.new.office ≡ self.old.office }
        ensures clock { self.new.clock ≡ self.old.clock }
        ensures served { HasServed (C.gives self.old.clock.now) self.old.office.now self.old.desk self.new.desk }
    {
        let door = &self.office.door;
        let mut reader = Timed::through(door, stream, self.handle);
        let mut writer = Timed::through(door, stream, self.handle);
        if stream.set_nodelay(true).is_err() {
            return false;
        }
        inbox.clear();
        let _ = self.converse(&mut reader, &mut writer, inbox);
        reader.has_read()
    }
}

impl<
    H: Wait + Net<Stream = TcpStream> + std::time::Clock + Sync,
    C: Clock + Sync,
    J: Run + Send + Sync,
> Lane for Worker<'_, H, C, J> {
    ghost works = { λ before after. (after.office ≡ before.office)
        × HasServed (C.gives before.clock.now) before.office.now before.desk after.desk };

    #[tactic(auto, using(crate::proofs::Leading::served_then, crate::proofs::Leading::served_nothing))]
    fn work<R: Threads + Wait + Sync>(&mut self, _rt: &R) {
        let mut inbox = Inbox::new();
        for _ in self.handle.forever() {
            let Some(stream) = self.next_connection() else {
                return;
            };
            self.office.door.connection_begins(self.handle);
            let spoke = self.serve_connection(&stream, &mut inbox);
            self.office.door.connection_ends(self.handle);
            if !spoke {
                self.office.door.give_back();
            }
        }
    }
}
