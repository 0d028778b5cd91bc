//! The answers of a worker to a packet and to a command.

ghost use Rattle.std.specs.Prelude.{◌≡◌, ◌≢◌, ◌<◌, ◌&&◌, Ok, Err, IfErr, IfOk, OnErr, is_some, true};
ghost use Rattle.admin_text.specs.Commands.{command_in};
ghost use Rattle.service.specs.Filing.{is_roll};
ghost use Rattle.service.specs.Answering.{IsPrinted, IsCommandAnswer, WasCarried, WasGoverned, WasObeyed, command_line, obeyed_status};
ghost use Rattle.service.specs.Rolling.{IsTidied, IsUntouched, WasRolledRipe};

use crate::link::{PeerLink, Sockets};
use crate::office::Office;
use crate::system::System;
use crate::worker::desk::Desk;
use admin_text::{TextFault, parse_command};
use common_types::ReadError;
use one_list::Run;
use output_text::put_answer;
use std::alloc::{AllocError, Global};
use std::net::{Net, TcpStream};
use std::sync::Wait;
use tenant_core::{Answered, Command, CommandFault, Period};
use workers::{
    BacklogRoom, Clock, Gate, GovernFault, Job, Link, Point, Status, Tools, carry, govern, is_ripe,
    roll_if_ripe,
};

/// A gate that is always open.
struct NoGate;

impl Gate for NoGate {
    fn pass(&self, _worker: usize, _point: Point) {}
}

impl<J: Run> Desk<J> {
    /// Carries a packet of a tenant of the office, through a link to its next peers, and gives the status of the answer.
    pub fn carry<'x, H: Wait + Net<Stream = TcpStream> + std::time::Clock, C: Clock>(
        &mut self,
        system: &System<'x, H, C>,
        office: &'x Office<J>,
        job: Job<'_>,
    ) -> Status
        requires seat { self.old.seat.meters ≡ office.now.meters.id }
        requires tenant { job.tenant < office.now.books.tenants }
        ensures carried { WasCarried (C.gives system.now.clock.now) office.now self.old
            job.entry.tenant job.entry.token.now job.entry.frame.now result self.new }
        ensures same_meters { self.new.seat.meters ≡ self.old.seat.meters }
        ensures told { self.new.told ≡ self.old.told }
    {
        let handle = system.handle;
        let terms = office.terms.as_slice();
        let (places, breakers, door) = (&office.places, &office.breakers, &office.door);
        let peers = Sockets { handle };
        let mut link = PeerLink::new(system, terms, places, breakers, door, peers, self.sent);
        let keeper = office.keeper(handle);
        let tools = Tools {
            rt: system.handle,
            alloc: system.alloc,
            books: &office.books,
            meters: &office.meters,
            clock: system.clock,
            keeping: &keeper,
        };
        let reply = carry(
            &tools,
            &mut self.seat,
            &mut self.slot,
            &mut self.share,
            &mut link,
            &NoGate,
            job,
        );
        self.sent = link.sends();
        reply.status()
    }

    // Makes room for the period that a command may close, if the run is audited. Fails only if it is out of memory.
    fn make_room(&mut self) -> Result<(), AllocError>
        ensures untouched { IsUntouched self.old self.new }
        ensures err { OnErr result (self.old.share.audited ≡ true) }
        ensures told { self.new.told ≡ self.old.told }
        ensures printed { self.new.printed ≡ self.old.printed }
    {
        if self.share.is_audited() {
            self.periods.reserve(1)?;
        }
        Ok(())
    }

    // Keeps a closed period for the audit, if the run is audited: in the room that was made for it.
    fn keep(&mut self, period: Period)
        ensures untouched { IsUntouched self.old self.new }
        ensures told { self.new.told ≡ self.old.told }
        ensures printed { self.new.printed ≡ self.old.printed }
    {
        if self.share.is_audited() {
            let _ = self.periods.push(period);
        }
    }

    // Hands a period that was closed to the one who writes statements, if they are kept. Otherwise keeps it.
    fn close<H: Wait>(&mut self, handle: &H, closed: Option<Period>, room: Option<BacklogRoom<'_>>)
        ensures untouched { IsUntouched self.old self.new }
        ensures told { self.new.told ≡ self.old.told }
        ensures printed { self.new.printed ≡ self.old.printed }
    {
        match (closed, room) {
            (Some(period), Some(room)) => self.ticket = Some(room.put(handle, period)),
            (None, Some(room)) => room.give_up(handle),
            (Some(period), None) => self.keep(period),
            (None, None) => {}
        }
    }

    /// Does the command in a body, if it is one, for a tenant of the office, and returns the status of the answer. The error is
    /// what is wrong with a body that is not a command.
    pub fn obey<'x, H: Wait + std::time::Clock, C: Clock>(
        &mut self,
        system: &System<'x, H, C>,
        office: &'x Office<J>,
        tenant: usize,
        body: &[u8],
    ) -> Result<Status, TextFault>
        requires seat { self.old.seat.meters ≡ office.now.meters.id }
        requires tenant { tenant < office.now.books.tenants }
        ensures obeyed { WasObeyed (C.gives system.now.clock.now) (command_in (command_line body.now)) office.now self.old tenant (obeyed_status result) self.new }
        ensures fault { IfErr result (λ fault. command_in (command_line body.now) ≡ Err fault) }
        ensures well { result ≢ Ok Status.Malformed }
        ensures same_meters { self.new.seat.meters ≡ self.old.seat.meters }
        ensures told { self.new.told ≡ self.old.told }
    {
        self.ticket = None;
        let command = match parse_command(system.alloc, without_line_feed(body)) {
            Ok(command) => command,
            Err(ReadError::Fault(fault)) => return Err(fault),
            Err(ReadError::Memory) => return Ok(Status::Unavailable),
        };
        if self.make_room().is_err() {
            return Ok(Status::Unavailable);
        }
        let Ok(room) = backlog_room(system.handle, office, tenant, &command) else {
            return Ok(Status::Unavailable);
        };
        let (status, closed) = self.govern(system, office, tenant, &command);
        self.close(system.handle, closed, room);
        Ok(status)
    }

    /// Closes the running period of a tenant of the office if it is ripe and the service closes ripe ones, and hands it to the one
    /// who writes statements where they are kept. A period stays open while too many statements of the tenant wait.
    pub fn tidy<'x, H: Wait + std::time::Clock, C: Clock>(
        &mut self,
        system: &System<'x, H, C>,
        office: &'x Office<J>,
        tenant: usize,
    )
        requires tenant { tenant < office.now.books.tenants }
        ensures tidied { IsTidied (C.gives system.now.clock.now) office.now.roll_at office.now self.old tenant self.new }
        ensures told { self.new.told ≡ self.old.told }
    {
        let Some(percent) = office.roll_at else {
            return;
        };
        if !is_ripe(office.books.enter(system.handle, tenant).book(), percent) {
            return;
        }
        if self.make_room().is_err() {
            return;
        }
        let Ok(room) = backlog_room(system.handle, office, tenant, &Command::Roll) else {
            return;
        };
        let closed = self.roll(system, office, tenant, percent);
        self.close(system.handle, closed, room);
    }

    // Closes the period of a tenant of the office if it is ripe, and gives it.
    fn roll<'x, H: Wait + std::time::Clock, C: Clock>(
        &mut self,
        system: &System<'x, H, C>,
        office: &'x Office<J>,
        tenant: usize,
        percent: u8,
    ) -> Option<Period>
        requires tenant { tenant < office.now.books.tenants }
        ensures rolled { WasRolledRipe (C.gives system.now.clock.now) office.now percent self.old tenant self.new }
        ensures told { self.new.told ≡ self.old.told }
        ensures printed { self.new.printed ≡ self.old.printed }
    {
        let keeper = office.keeper(system.handle);
        let tools = Tools {
            rt: system.handle,
            alloc: system.alloc,
            books: &office.books,
            meters: &office.meters,
            clock: system.clock,
            keeping: &keeper,
        };
        match roll_if_ripe(&tools, &mut self.share, tenant, percent) {
            Ok(Some(Answered::Rolled(period))) => Some(period),
            _ => None,
        }
    }

    // Governs a tenant of the office, keeps what is printed of the answer, and gives the status, and the period that was closed.
    fn govern<'x, H: Wait + std::time::Clock, C: Clock>(
        &mut self,
        system: &System<'x, H, C>,
        office: &'x Office<J>,
        tenant: usize,
        command: &Command,
    ) -> (Status, Option<Period>)
        requires seat { self.old.seat.meters ≡ office.now.meters.id }
        requires tenant { tenant < office.now.books.tenants }
        ensures governed { WasGoverned (C.gives system.now.clock.now) office.now self.old tenant command.now result.0 self.new }
        ensures well { result.0 ≢ Status.Malformed }
        ensures same_meters { self.new.seat.meters ≡ self.old.seat.meters }
        ensures told { self.new.told ≡ self.old.told }
    {
        let keeper = office.keeper(system.handle);
        let tools = Tools {
            rt: system.handle,
            alloc: system.alloc,
            books: &office.books,
            meters: &office.meters,
            clock: system.clock,
            keeping: &keeper,
        };
        let answer = govern(&tools, &mut self.seat, &mut self.share, tenant, command);
        tell(system.alloc, office, tenant, answer, &mut self.printed)
    }
}

// Room for the period that a roll may close, if statements are kept. Fails only if it is out of memory, or if too many statements of
// the tenant wait.
fn backlog_room<'a, H: Wait, J: Run>(
    handle: &H,
    office: &'a Office<J>,
    tenant: usize,
    command: &Command,
) -> Result<Option<BacklogRoom<'a>>, AllocError>
    ensures kept { OnErr result (is_some office.now.filing ≡ true) }
    ensures exact { IfOk result (λ room. is_some room ≡ (is_some office.now.filing && is_roll command.now)) }
{
    match (&office.filing, command) {
        (Some(filing), Command::Roll) => Ok(Some(filing.backlog.make_room(handle, tenant)?)),
        _ => Ok(None),
    }
}

// Keeps what is printed of the answer of a command, and gives the status, and the period that the command closed.
fn tell<J: Run>(
    alloc: Global,
    office: &Office<J>,
    tenant: usize,
    answer: Result<Answered, GovernFault>,
    printed: &mut Vec<u8>,
) -> (Status, Option<Period>)
    ensures told { IsCommandAnswer office.now tenant answer result.0 printed.new.items }
    ensures well { result.0 ≢ Status.Malformed }
{
    match answer {
        Ok(answered) => print(alloc, office, tenant, Ok(answered), printed),
        Err(GovernFault::Refused(CommandFault::Memory)) => (Status::Unavailable, None),
        Err(GovernFault::Refused(fault)) => print(alloc, office, tenant, Err(fault), printed),
        Err(
            GovernFault::Spent
            | GovernFault::Memory
            | GovernFault::NoRoom
            | GovernFault::Stray
            | GovernFault::Unkept,
        ) => (Status::Unavailable, None),
    }
}

// Keeps what is printed of what a tenant's book answered, and gives the status, and the period that was closed.
fn print<J: Run>(
    alloc: Global,
    office: &Office<J>,
    tenant: usize,
    answer: Result<Answered, CommandFault>,
    printed: &mut Vec<u8>,
) -> (Status, Option<Period>)
    ensures printed { IsPrinted office.now tenant answer result.0 printed.new.items }
    ensures well { result.0 ≢ Status.Malformed }
{
    let mut text = Vec::new(alloc);
    let status = match put_answer(office.names.as_slice(), tenant, &mut text, &answer) {
        Ok(()) => {
            *printed = text;
            Status::Answered
        }
        Err(_) => Status::Unavailable,
    };
    (status, closed_by(answer))
}

// The period that a command closed, if it did.
fn closed_by(answer: Result<Answered, CommandFault>) -> Option<Period> {
    match answer {
        Ok(Answered::Rolled(period)) => Some(period),
        _ => None,
    }
}

/// A line without the line feed that may end it.
pub fn without_line_feed(body: &[u8]) -> &[u8]
    ensures { result.now ≡ command_line body.now }
{
    match body.split_last() {
        Some((b'\n', command)) => command,
        _ => body,
    }
}
