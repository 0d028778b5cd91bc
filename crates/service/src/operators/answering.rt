//! The operators' door.

ghost use Rattle.std.specs.Prelude.{◌≡◌, ◌≢◌, ◌<◌, List, ℕ, Ok, Err, is_some, IfErr, IfOk, IfSome};
ghost use Rattle.admin_text.specs.Commands.{command_in};
ghost use Rattle.http_link.specs.OperatorDoor.{operator_asking, operator_wanted_at};
ghost use Rattle.http_link.specs.declared.request.RequestKind.TheVariants.{Admin};
ghost use Rattle.service.specs.Explaining.{explanation, finding_asked};
ghost use Rattle.service.specs.Questions.{question_at};
ghost use Rattle.service.specs.Filing.{IsStatementRead};
ghost use Rattle.service.specs.Operating.{HasOperated, HasToldOperator, IsCommanded, IsExplained, IsHiddenSetup, IsKept, IsOperated, IsTenantMetrics};
ghost use Rattle.service.specs.Operating.{command_fault_line, operator_refusal, told_at};
ghost use Rattle.service.specs.Answering.{WasAskedCommand, command_line, obeyed_status, operator_token};
ghost use Rattle.service.specs.Served.{tenant_named};
ghost use Rattle.workers.specs.Replies.{http_code};
ghost use Rattle.std.specs.List.{slice_get};
ghost use Rattle.std.specs.Str.{bytes_eq};

use crate::connection::timed::Timed;
use crate::filing::disk::Disk;
use crate::filing::folder::Folder;
use crate::host::callers::{Answering, Due};
use crate::host::hosting::Gauged;
use crate::host::letters::{Filed, Letter};
use crate::host::metrics::{counts_of, tenant_metrics_text};
use crate::host::presence::tenant_text;
use crate::office::Office;
use crate::operators::asking::{Operated, Unanswered, told_to_operator};
use crate::operators::explaining::{explained, next_peer};
use crate::operators::hidden::hidden_text;
use crate::operators::peers::put_peers;
use crate::operators::question::Question;
use crate::system::System;
use crate::worker::desk::Desk;
use admin_text::TextFault;
use http_link::{
    OperatorArrival, OperatorList, OperatorRequest, OperatorService, OperatorWanted, RequestKind,
    Topic, operator_arrival, serve_operator,
};
use ilp_addr::Moment;
use meters::MeterSeat;
use one_list::Run;
use std::alloc::{AllocError, Global};
use std::io;
use std::net::{Net, TcpListener, TcpStream};
use std::sync::Wait;
use std::time::Duration;
use tenant_core::{Book, Finding};
use workers::{Clock, Status, place_after};

/// Where operators ask.
#[derive(Drop)]
pub struct OperatorDoor<'a> {
    listener: &'a TcpListener,
}

impl<'a> OperatorDoor<'a> {
    /// A door at that listener, whose `accept` does not wait from now on. The error is the system's, where it lets an `accept`
    /// wait.
    pub fn new(listener: &'a TcpListener) -> io::Result<OperatorDoor<'a>> {
        listener.set_nonblocking(true)?;
        Ok(OperatorDoor { listener })
    }

    /// Where callers come.
    pub fn listener(&self) -> &'a TcpListener {
        self.listener
    }
}

/// What was answered last.
#[derive(Drop)]
pub enum LastAnswer {
    /// A text about a tenant.
    Text(Vec<u8>),
    /// The line that says why a question or a command is none.
    Line(&'static [u8]),
    /// What the desk told of a command.
    ByDesk,
}

/// Who answers at the operators' door: one request of each connection. Commands are done at a desk of its own, as a worker does
/// them.
#[derive(Drop)]
pub struct Operators<'a, H, C, J: Run> {
    handle: &'a H,
    alloc: Global,
    clock: &'a C,
    office: &'a Office<J>,
    desk: Desk<J>,
    told: LastAnswer,
    // The period that the last command closed, if its statement is still to be written.
    filed: Option<Filed>,
    ghost seated: { desk.seat.meters ≡ office.now.meters.id },
}

impl<'a, H, C, J: Run> Operators<'a, H, C, J> {
    /// One who answers for that office, and reads its meters through the desk's seat.
    pub fn new(
        system: &'a System<'_, H, C>,
        office: &'a Office<J>,
        desk: Desk<J>,
    ) -> Operators<'a, H, C, J>
        requires { desk.seat.meters ≡ office.now.meters.id }
        ensures desk { result.desk ≡ desk }
        ensures office { result.office.now ≡ office.now }
        ensures clock { result.clock.now ≡ system.now.clock.now }
    {
        Operators {
            handle: system.handle,
            alloc: system.alloc,
            clock: system.clock,
            office,
            desk,
            told: LastAnswer::ByDesk,
            filed: None,
        }
    }

    fn system(&self) -> System<'a, H, C>
        ensures { result.clock.now ≡ self.now.clock.now }
    {
        System {
            handle: self.handle,
            alloc: self.alloc,
            clock: self.clock,
        }
    }

    /// What is left on its desk.
    pub fn into_desk(self) -> Desk<J>
        ensures { result ≡ self.entry.desk }
    {
        let Operators { desk, .. } = self;
        desk
    }
}

/// A service, as the operators of its tenants ask it.
#[derive(Drop)]
struct Consulted<'a, H, C, J: Run> {
    handle: &'a H,
    alloc: Global,
    clock: &'a C,
    office: &'a Office<J>,
}

// The check that decides on a packet of the peer with that name, if there is one.
fn finding_asked(book: &Book, question: &Question<'_>, now: Moment) -> Finding
    ensures { result ≡ finding_asked book.now (question_at question.now) now }
{
    match book.token_of(question.peer) {
        Some(token) => book.explain(token, &question.key(), now),
        None => Finding::NoPeer,
    }
}

// The explanation of a packet that a book gives.
fn explained_by(
    alloc: Global,
    book: &Book,
    question: &Question<'_>,
    now: Moment,
) -> Result<Vec<u8>, AllocError>
    ensures { IfOk result (λ text. text.items ≡ explanation book.now (question_at question.now) now) }
{
    let finding = finding_asked(book, question, now);
    let next = match next_peer(&finding) {
        Some(peer) => book.peer_name(peer),
        None => None,
    };
    explained(alloc, question, &finding, next)
}

impl<H: Wait + std::time::Clock, C: Clock, J: Run> Consulted<'_, H, C, J> {
    // The numbers of a tenant, of its packets and of those of each of its peers, once what led to the latter is kept.
    fn measured(&self, seat: &mut MeterSeat, tenant: usize) -> Result<Vec<u8>, AllocError>
        requires seat { seat.old.meters ≡ self.now.office.now.meters.id }
        requires tenant { tenant < self.now.office.now.books.tenants }
        ensures told { IfOk result (λ text. IsTenantMetrics J.openings self.now.office.now tenant text.items) }
        ensures same { seat.new ≡ seat.old }
    {
        let office = self.office;
        let gauges = Gauged {
            handle: self.handle,
            office,
        };
        let counts = counts_of(&gauges, seat, tenant, &office.names[tenant]);
        let mut text = tenant_metrics_text(self.alloc, office.filing.is_some(), counts)?;
        let guard = office.books.enter(self.handle, tenant);
        put_peers(self.alloc, &mut text, &office.names[tenant], guard.book())?;
        let place = place_after(guard.book());
        drop(guard);
        office.await_kept(self.handle, place)?;
        Ok(text)
    }

    // What the tenant's book would decide on a packet now, once what led to that is kept.
    fn explained(&self, tenant: usize, question: &Question<'_>) -> Result<Vec<u8>, AllocError>
        requires { tenant < self.now.office.now.books.tenants }
        ensures { IfOk result (λ text. IsExplained J.openings (C.gives self.now.clock.now) self.now.office.now tenant (question_at question.now) text.items) }
    {
        let now = self.clock.now();
        let guard = self.office.books.enter(self.handle, tenant);
        let text = explained_by(self.alloc, guard.book(), question, now)?;
        let place = place_after(guard.book());
        drop(guard);
        self.office.await_kept(self.handle, place)?;
        Ok(text)
    }
}

impl<H: Wait + std::time::Clock + Disk, C: Clock, J: Run> Operated for Consulted<'_, H, C, J> {
    ghost tenants = { λ s. s.office.now.books.tenants };

    ghost numbered = { λ s name. tenant_named s.office.now.names.items name };

    ghost token = { λ s tenant. operator_token s.office.now tenant };

    ghost presents = { λ s tenant text. IsHiddenSetup J.openings s.office.now tenant text };

    ghost measures = { λ s tenant text. IsTenantMetrics J.openings s.office.now tenant text };

    ghost explains = { λ s tenant question text. IsExplained J.openings (C.gives s.clock.now) s.office.now tenant question text };

    ghost states = { λ s tenant period text. IsStatementRead (H.reads s.handle.now) s.office.now tenant period text };

    ghost read = { λ s. s.office.now.meters.id };

    fn tenant_named(&self, name: &[u8]) -> Option<usize> {
        self.office.tenant_named(name)
    }

    fn is_operator(&self, tenant: usize, shown: &[u8]) -> bool {
        self.office.is_operator(tenant, shown)
    }

    fn present(&self, tenant: usize) -> Result<Vec<u8>, AllocError> {
        let text = tenant_text(self.handle, self.alloc, self.office, tenant)?;
        hidden_text(self.alloc, text.as_slice())
    }

    fn metrics(&self, seat: &mut MeterSeat, tenant: usize) -> Result<Vec<u8>, AllocError> {
        self.measured(seat, tenant)
    }

    fn explain(&self, tenant: usize, question: &Question<'_>) -> Result<Vec<u8>, AllocError> {
        self.explained(tenant, question)
    }

    fn statement(&self, tenant: usize, period: u64) -> Option<Vec<u8>> {
        let Some(filing) = &self.office.filing else {
            return None;
        };
        let folder = Folder::new(self.handle, self.alloc, filing.folder.as_str());
        match folder.statement(&self.office.names[tenant], period) {
            Ok(text) => Some(text),
            Err(_) => None,
        }
    }
}

// The line that says why a body is not a command.
fn command_fault_line(fault: TextFault) -> &'static [u8]
    ensures { result.now ≡ command_fault_line fault }
{
    match fault {
        TextFault::Verb => {
            b"command: its first word or two must be peer add, peer remove, peer limits, peer bucket, route add, route remove, rate set, settle in, settle out, balances or roll\n"
        }
        TextFault::Argument => {
            b"command: a word is missing, malformed or one too many, or both peers of a rate are the same\n"
        }
        TextFault::Range => b"command: a number is outside its limits\n",
    }
}

impl<H: Wait + std::time::Clock + Disk, C: Clock, J: Run> Operators<'_, H, C, J> {
    // Keeps the text of the answer to a question, and returns the status.
    fn answer(&mut self, wanted: &OperatorWanted<'_>, topic: Topic) -> u16
        ensures told { (body : List ℕ) → HasToldOperator J.openings (C.gives self.old.clock.now) self.old.office.now topic
            (operator_asking (operator_wanted_at wanted.now) body result) (told_at self.new.told self.new.desk) }
        ensures desk { self.new.desk ≡ self.old.desk }
        ensures office { self.new.office ≡ self.old.office }
        ensures clock { self.new.clock ≡ self.old.clock }
    {
        let service = Consulted {
            handle: self.handle,
            alloc: self.alloc,
            clock: self.clock,
            office: self.office,
        };
        let told = told_to_operator(&service, &mut self.desk, wanted, topic);
        self.keep(told)
    }

    // Keeps the text of an answer, or the line that says why there is none, and returns the status.
    fn keep(&mut self, told: Result<Vec<u8>, Unanswered>) -> u16
        ensures kept { IsKept (λ text. text.items) told result (told_at self.new.told self.new.desk) }
        ensures desk { self.new.desk ≡ self.old.desk }
        ensures office { self.new.office ≡ self.old.office }
        ensures clock { self.new.clock ≡ self.old.clock }
    {
        match told {
            Ok(text) => {
                self.told = LastAnswer::Text(text);
                200
            }
            Err(Unanswered::Question(fault)) => {
                self.told = LastAnswer::Line(fault.line());
                400
            }
            Err(Unanswered::Token) => 401,
            Err(Unanswered::Tenant | Unanswered::Statement) => 404,
            Err(Unanswered::Memory) => 503,
        }
    }

    // Does the command in a body for the tenant of a name, and returns the status.
    fn command(&mut self, wanted: &OperatorWanted<'_>, body: &[u8]) -> u16
        ensures done { IsCommanded (C.gives self.old.clock.now) self.old.office.now
            (tenant_named self.old.office.now.names.items wanted.now.tenant.now) self.old.desk
            (operator_asking (operator_wanted_at wanted.now) body.now result) (told_at self.new.told self.new.desk) self.new.desk }
        ensures office { self.new.office ≡ self.old.office }
        ensures clock { self.new.clock ≡ self.old.clock }
    {
        let Some(tenant) = self.office.tenant_named(wanted.tenant) else {
            return 404;
        };
        self.desk.told = RequestKind::Admin;
        match self.ordered(tenant, wanted.token, body) {
            Ok(status) => {
                self.told = LastAnswer::ByDesk;
                status.code()
            }
            Err(fault) => {
                self.told = LastAnswer::Line(command_fault_line(fault));
                Status::Malformed.code()
            }
        }
    }

    // Does a command under the token of the tenant's operator, unless the service stops.
    fn ordered(&mut self, tenant: usize, token: &[u8], body: &[u8]) -> Result<Status, TextFault>
        requires { tenant < self.old.office.now.books.tenants }
        ensures ordered { (status : ℕ) → WasAskedCommand (C.gives self.old.clock.now) (bytes_eq (operator_token self.old.office.now tenant) token.now) self.old.office.now
            (record { kind = Admin; tenant = tenant; token = token.now; body = body.now; status = status }) self.old.desk (obeyed_status result) self.new.desk }
        ensures fault { IfErr result (λ fault. command_in (command_line body.now) ≡ Err fault) }
        ensures well { result ≢ Ok Status.Malformed }
        ensures told { self.new.desk.told ≡ self.old.desk.told }
        ensures office { self.new.office ≡ self.old.office }
        ensures clock { self.new.clock ≡ self.old.clock }
    {
        let office = self.office;
        if !office.is_operator(tenant, token) {
            return Ok(Status::Unauthorized);
        }
        if !office.door.command_begins() {
            return Ok(Status::Unavailable);
        }
        let system = self.system();
        let obeyed = self.desk.obey(&system, office, tenant, body);
        office.door.command_ends();
        self.filed = match self.desk.ticket {
            Some(ticket) => Some(Filed { tenant, ticket }),
            None => None,
        };
        obeyed
    }
}

/// How many milliseconds an answer has to leave once the service has ended.
const PATIENCE: u64 = 500;

impl<H, C, J: Run> OperatorList for Operators<'_, H, C, J> {
    fn operator_of(&self, wanted: &OperatorWanted<'_>) -> Option<usize> {
        self.office.operator_of(wanted.tenant, wanted.token)
    }
}

impl<H: Wait + std::time::Clock + Disk, C: Clock, J: Run> OperatorService
    for Operators<'_, H, C, J> {
    ghost refusal = { λ o wanted. operator_refusal o.office.now wanted };

    ghost asks = { λ before asked after. (after.office ≡ before.office) × (after.clock ≡ before.clock)
        × IsOperated (C.gives before.clock.now) before.office.now asked.wanted.request before.desk asked (told_at after.told after.desk) after.desk };

    ghost answer = { λ o. told_at o.told o.desk };

    fn refuses(&self, wanted: &OperatorWanted<'_>) -> Option<u16> {
        let Some(tenant) = self.office.tenant_named(wanted.tenant) else {
            return Some(404);
        };
        if self.office.is_operator(tenant, wanted.token) {
            None
        } else {
            Some(401)
        }
    }

    fn operator(&mut self, wanted: &OperatorWanted<'_>, body: &[u8]) -> u16 {
        match wanted.request {
            OperatorRequest::Command => self.command(wanted, body),
            OperatorRequest::Ask(topic) => self.answer(wanted, topic),
        }
    }

    fn body(&self) -> &[u8] {
        match &self.told {
            LastAnswer::Text(text) => text.as_slice(),
            LastAnswer::Line(line) => line,
            LastAnswer::ByDesk => self.desk.told(),
        }
    }
}

impl<H: Wait + Net<Stream = TcpStream> + std::time::Clock + Disk, C: Clock, J: Run> Answering
    for Operators<'_, H, C, J> {
    ghost serves = { λ before after. (after.office ≡ before.office) × (after.clock ≡ before.clock)
        × HasOperated (C.gives before.clock.now) before.office.now before.desk after.desk };

    fn due(&self, came: &[u8]) -> Due {
        match operator_arrival(came, self) {
            OperatorArrival::Begun | OperatorArrival::Headed(_) => Due::Later,
            OperatorArrival::Waiting(_) => Due::Invited,
            OperatorArrival::Refused => Due::Now(0),
            OperatorArrival::Whole(tenant) => Due::Now(tenant),
        }
    }

    fn serve_connection(&mut self, stream: &TcpStream, time: Duration, letter: &mut Letter) {
        let mut reader = Timed::within(stream, self.handle, time);
        let _ = serve_operator(&mut reader, letter, self);
        letter.after = self.filed;
        self.filed = None;
    }

    // A roll is answered once the statement of the period that it closed is written, or could not be.
    fn may_leave(&self, letter: &Letter) -> bool {
        match (&self.office.filing, letter.after) {
            (Some(filing), Some(filed)) => {
                filing
                    .backlog
                    .is_settled(self.handle, filed.tenant, filed.ticket)
            }
            _ => true,
        }
    }

    fn patience(&self) -> u64 {
        PATIENCE
    }
}
