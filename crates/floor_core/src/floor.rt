//! The floor: workers that carry packets for tenants, one step after the other.

ghost use Rattle.std.specs.Prelude.{◌≡◌, ◌≤◌, ◌<◌, ◌+◌, ◌^◌, ℕ, [], length, slice_index, vec_capacity};
ghost use Rattle.std.specs.Prelude.{IfOk, OnOk, OnErr, IsTrue, ◌↔◌, vec_len};
ghost use Rattle.ilp_view.specs.Packet.{max_frame};
ghost use Rattle.oer_core.specs.Length.{AreBytes};
ghost use Rattle.tenant_core.specs.Governed.{command_answer, commanded};
ghost use Rattle.tenant_core.specs.Network.{peer_numbered};
ghost use Rattle.tenant_core.specs.Present.{network_of};
ghost use Rattle.floor_core.specs.FloorView.{IsMet, seat_at, seat_in};
ghost use Rattle.floor_core.specs.Moves.{floor_with, output_of, moved, IsAskedBookSound, given_got, slot_filled};
ghost use Rattle.floor_core.specs.Work.{tenant_in, IsWaiting};
ghost use Rattle.floor_core.specs.Work.Job.{NoJob};
ghost use Rattle.floor_core.specs.Outputs.{shown};
ghost use Rattle.floor_core.specs.World.{peer_name, malformed_by};
ghost use Rattle.floor_core.specs.declared.step.Step.TheVariants.{Load, Decide, Answer, Tick, Govern};

use crate::parts::{Got, LoadFault, Turn};
use crate::slot::Slot;
use crate::step::{Malformed, Output, PeerAnswer, Step, StepOutput};
use common_types::{Bytes, Items, Text};
use ilp_addr::Moment;
use ilp_view::{MAX_FRAME, ViewFault};
use std::alloc::{AllocError, Global};
use std::marker::Model;
use tenant_core::{Answered, Book, Command, CommandFault, PeerNo, TenantSetup};

/// The most workers of a floor, each of which has a seat.
pub const MAX_SEATS: usize = 64;

/// A worker's place: its slot, and the number of the call in it.
#[derive(Drop)]
pub struct Seat {
    slot: Slot,
    call: u64,
}

// Workers and tenants by their numbers, and the number of each tenant's next call.
#[derive(Drop)]
struct Parts {
    seats: Vec<Seat>,
    books: Vec<Book>,
    next_calls: Vec<u64>,
}

impl Model for Parts {
    ghost use Rattle.floor_core.specs.FloorView.{FloorState};
    ghost use Rattle.std.specs.Coded.{codes};
    ghost use Rattle.route_table.specs.contracts.routes.Routes as routes;

    ghost Value = { FloorState };

    ghost coded = { Prim.hlevel (codes, routes.the_row.coded) };

    ghost use Rattle.floor_core.specs.Parts.{floor_of_parts};

    ghost view = { floor_of_parts };
}

/// Workers that carry packets for tenants. Contracts see what it shows to the one-tenant connectors.
#[derive(Drop)]
pub struct Floor {
    parts: Parts,
}

impl Model for Floor {
    ghost use Rattle.floor_core.specs.FloorView.{FloorState};
    ghost use Rattle.std.specs.Coded.{codes};
    ghost use Rattle.route_table.specs.contracts.routes.Routes as routes;

    ghost Value = { FloorState };

    ghost coded = { Prim.hlevel (codes, routes.the_row.coded) };

    ghost use Rattle.floor_core.specs.FloorKept.{parts_of, IsSteady};

    ghost view = { parts_of };

    ghost invariant = { IsSteady };
}

/// Out of memory. Each step before this one is done whole, and nothing of the one that ran out of memory.
#[derive(Drop)]
pub struct RunFault {
    /// The outputs of the steps that were done.
    pub outputs: Items<Output>,
}

fn malformed_by(fault: ViewFault) -> Malformed
    ensures { result ≡ malformed_by fault }
{
    match fault {
        ViewFault::Kind => Malformed::Kind,
        ViewFault::Oer => Malformed::Oer,
        ViewFault::Field => Malformed::Field,
        ViewFault::AfterEnd => Malformed::AfterEnd,
        ViewFault::Size | ViewFault::Short => Malformed::Size,
    }
}

// The bytes, in room that was taken for them.
fn copied(mut room: Vec<u8>, bytes: &[u8]) -> Bytes
    requires empty { room.items ≡ [] }
    requires fits { length bytes.now ≤ vec_capacity room }
    ensures { result ≡ bytes.now }
{
    let _ = room.extend_from_slice(bytes);
    room.shrink_to_fit();
    Bytes::from_vec(room)
}

// Room for one output more, and for the bytes that it has.
fn room_for_one(alloc: Global, outputs: &mut Vec<Output>) -> Result<Vec<u8>, AllocError>
    ensures bytes { IfOk result (λ room. (room.items ≡ []) × (max_frame ≤ vec_capacity room)) }
    ensures place { OnOk result (vec_len outputs.new < vec_capacity outputs.new) }
    ensures items { outputs.new.items ≡ outputs.old.items }
{
    outputs.reserve(1)?;
    Vec::with_capacity(alloc, MAX_FRAME)
}

fn peer_name(book: &Book, peer: PeerNo) -> Text<32>
    ensures { result ≡ peer_name (peer_numbered peer (network_of book.now).peers) }
{
    match book.peer_name(peer) {
        Some(name) => Text::from_bytes(name).unwrap(),
        None => Text::from_bytes(&[]).unwrap(),
    }
}

fn load_on(
    seats: &mut [Seat],
    next_calls: &mut [u64],
    worker: usize,
    tenant: usize,
    token: &[u8],
    bytes: &[u8],
) -> Output
    requires worker { worker < length seats.old }
    requires tenant { tenant < length next_calls.old }
    requires room { slice_index next_calls.old tenant + 1 < 2 ^ 64 }
    ensures bytes { AreBytes bytes.now }
    ensures output { result ≡ output_of (floor_with seats.old [] next_calls.old) (Load worker tenant token.now bytes.now) }
    ensures seats { seats.new
        ≡ (moved (floor_with seats.old [] next_calls.old) (Load worker tenant token.now bytes.now)).seats }
    ensures calls { next_calls.new
        ≡ (moved (floor_with seats.old [] next_calls.old) (Load worker tenant token.now bytes.now)).next_calls }
{
    let seat = &mut seats[worker];
    match seat.slot.load(tenant, token, bytes) {
        Ok(()) => {
            let call = next_calls[tenant];
            seat.call = call;
            next_calls[tenant] = call + 1;
            Output::Loaded { tenant, call }
        }
        Err(LoadFault::Busy) => Output::Busy,
        Err(LoadFault::Token) => Output::Bad {
            tenant,
            kind: Malformed::Token,
        },
        Err(LoadFault::Bad(fault)) => Output::Bad {
            tenant,
            kind: malformed_by(fault),
        },
    }
}

fn decide_on(seats: &mut [Seat], books: &mut [Book], worker: usize, now: Moment) -> StepOutput
    requires worker { worker < length seats.old }
    requires met { IsMet (seat_at (floor_with seats.old books.old []) worker).slot.job books.old }
    ensures told { shown seats.new result ≡ output_of (floor_with seats.old books.old []) (Decide worker now) }
    ensures seats { seats.new ≡ (moved (floor_with seats.old books.old []) (Decide worker now)).seats }
    ensures books { books.new ≡ (moved (floor_with seats.old books.old []) (Decide worker now)).books }
    ensures asked { IsAskedBookSound (floor_with seats.old books.old [])
        (tenant_in (seat_at (floor_with seats.old books.old []) worker).slot.job) }
{
    tenant_core::laws::what_stays();
    let seat = &mut seats[worker];
    let Some(tenant) = seat.slot.tenant() else {
        return StepOutput::Whole(Output::Idle);
    };
    let book = &mut books[tenant];
    tenant_core::laws::book_is_sound(book);
    match seat.slot.decide(book, now) {
        Turn::Idle => StepOutput::Whole(Output::Idle),
        Turn::Stray => unreachable!(),
        Turn::Stranger => StepOutput::Whole(Output::Stranger { tenant }),
        Turn::Reply => StepOutput::Reply { worker, tenant },
        Turn::Send { peer, hold } => StepOutput::Send {
            worker,
            tenant,
            peer: peer_name(book, peer),
            hold,
        },
    }
}

// Puts the answer for the packet of a slot into the slot.
fn taken_in(slot: &mut Slot, given: &PeerAnswer) -> Got
    requires { IsWaiting slot.old.job }
    ensures got { result ≡ given_got given.now }
    ensures slot { slot.new ≡ slot_filled slot.old given.now }
{
    match given {
        PeerAnswer::Bytes(bytes) => slot.fill(bytes.as_slice()),
        PeerAnswer::Fault => Got::Fault,
    }
}

fn answer_on(
    seats: &mut [Seat],
    books: &mut [Book],
    worker: usize,
    now: Moment,
    given: &PeerAnswer,
) -> StepOutput
    requires worker { worker < length seats.old }
    requires met { IsMet (seat_at (floor_with seats.old books.old []) worker).slot.job books.old }
    ensures told { shown seats.new result ≡ output_of (floor_with seats.old books.old []) (Answer worker now given.now) }
    ensures seats { seats.new ≡ (moved (floor_with seats.old books.old []) (Answer worker now given.now)).seats }
    ensures books { books.new ≡ (moved (floor_with seats.old books.old []) (Answer worker now given.now)).books }
{
    tenant_core::laws::calls();
    let seat = &mut seats[worker];
    let Some(tenant) = seat.slot.waiting() else {
        return StepOutput::Whole(Output::Idle);
    };
    let got = taken_in(&mut seat.slot, given);
    match seat.slot.answer(&mut books[tenant], now, got) {
        Turn::Reply => StepOutput::Reply { worker, tenant },
        _ => unreachable!(),
    }
}

fn tick_on(books: &mut [Book], tenant: usize, now: Moment) -> Output
    requires { tenant < length books.old }
    ensures output { result ≡ output_of (floor_with [] books.old []) (Tick tenant now) }
    ensures books { books.new ≡ (moved (floor_with [] books.old []) (Tick tenant now)).books }
{
    let answer = books[tenant].tick(now);
    Output::Ticked { tenant, answer }
}

// The book's answer to a command. If it is out of memory, nothing has changed.
fn governed(
    alloc: Global,
    book: &mut Book,
    command: &Command,
    now: Moment,
) -> Result<Result<Answered, CommandFault>, AllocError>
    ensures answer { IfOk result (λ answer. answer ≡ command_answer book.old command.now now) }
    ensures book { OnOk result (book.new ≡ commanded book.old command.now now) }
    ensures same { OnErr result (book.new ≡ book.old) }
{
    tenant_core::laws::what_stays();
    match book.command(alloc, command, now) {
        Ok(answered) => Ok(Ok(answered)),
        Err(fault) => match fault {
            CommandFault::Memory => Err(AllocError),
            fault => Ok(Err(fault)),
        },
    }
}

fn govern_on(
    alloc: Global,
    books: &mut [Book],
    tenant: usize,
    now: Moment,
    command: &Command,
) -> Result<Output, AllocError>
    requires { tenant < length books.old }
    ensures output { IfOk result (λ output.
        output ≡ output_of (floor_with [] books.old []) (Govern tenant now command.now)) }
    ensures books { OnOk result (books.new ≡ (moved (floor_with [] books.old []) (Govern tenant now command.now)).books) }
    ensures same { OnErr result (books.new ≡ books.old) }
{
    let answer = governed(alloc, &mut books[tenant], command, now)?;
    Ok(Output::Governed { tenant, answer })
}

impl Parts {
    ghost use Rattle.std.specs.Prelude.{◌≡◌, ℕ, length, IfOk, OnOk, OnErr};
    ghost use Rattle.floor_core.specs.FloorView.{Fits, HasRoom, IsCommand, IsMet, seat_at};
    ghost use Rattle.floor_core.specs.Forwards.{HasBytes};
    ghost use Rattle.floor_core.specs.Moves.{output_of, moved, AsksSound};
    ghost use Rattle.floor_core.specs.Outputs.{shown};

    // One step, or nothing if a command runs out of memory.
    fn step(&mut self, alloc: Global, step: &Step) -> Result<StepOutput, AllocError>
        requires fits { Fits self.old step.now }
        requires met { (w : ℕ) → IsMet (seat_at self.old w).slot.job self.old.books }
        requires as_many { length self.old.next_calls ≡ length self.old.books }
        requires room { HasRoom self.old 1 }
        ensures told { IfOk result (λ told. shown self.new.seats told ≡ output_of self.old step.now) }
        ensures moved { OnOk result (self.new ≡ moved self.old step.now) }
        ensures asked { OnOk result (AsksSound self.old step.now) }
        ensures bytes { HasBytes step.now }
        ensures same { OnErr result (self.new ≡ self.old) }
        ensures command { OnErr result (IsCommand step.now) }
    {
        match step {
            Step::Load {
                worker,
                tenant,
                token,
                bytes,
            } => Ok(StepOutput::Whole(load_on(
                &mut self.seats,
                &mut self.next_calls,
                *worker,
                *tenant,
                token.as_slice(),
                bytes.as_slice(),
            ))),
            Step::Decide { worker, now } => Ok(decide_on(
                &mut self.seats,
                &mut self.books,
                *worker,
                *now,
            )),
            Step::Answer { worker, now, given } => Ok(answer_on(
                &mut self.seats,
                &mut self.books,
                *worker,
                *now,
                given,
            )),
            Step::Tick { tenant, now } => {
                let output = tick_on(&mut self.books, *tenant, *now);
                Ok(StepOutput::Whole(output))
            }
            Step::Govern {
                tenant,
                now,
                command,
            } => Ok(StepOutput::Whole(govern_on(
                alloc,
                &mut self.books,
                *tenant,
                *now,
                command.get(),
            )?)),
        }
    }
}

impl Floor {
    ghost use Rattle.std.specs.Prelude.{◌≡◌, ◌≤◌, ◌+◌, ℕ, [], length, slice_index, take, All, IfOk, OnOk, IfErr, OnErr};
    ghost use Rattle.std.specs.Prelude.{vec_capacity, MatchResult};
    ghost use Rattle.ilp_view.specs.Packet.{max_frame};
    ghost use Rattle.floor_core.specs.FloorView.{world_of, seat_in, Fits, HasRoom, IsCommand};
    ghost use Rattle.floor_core.specs.Forwards.{AreForwards, AreTaken, HasBytes, SendsForward, frames_on};
    ghost use Rattle.floor_core.specs.Outputs.{shown};
    ghost use Rattle.floor_core.specs.World.{AreOutputs, IsLeft};
    ghost use Rattle.floor_core.specs.Worlds.{reply, world_after};

    /// Does a step and returns its output. For a tenant's own step, the output is what the one-tenant connector says
    /// to the event, and the tenant ends as it does there. A frame that is sent on is the one that the worker had,
    /// with 8 other bytes for its amount and 17 others for its expiry.
    ///
    /// Fails only if a command runs out of memory. Nothing has changed then.
    pub fn step(&mut self, alloc: Global, step: &Step) -> Result<StepOutput, AllocError>
        requires fits { Fits self.old step.now }
        requires room { HasRoom self.old 1 }
        ensures told { IfOk result (λ told. shown self.new.seats told ≡ reply (world_of self.old) step.now) }
        ensures world { OnOk result (world_of self.new ≡ world_after (world_of self.old) step.now) }
        ensures forwards { IfOk result (λ told. SendsForward (frames_on self.old) step.now (shown self.new.seats told)) }
        ensures bytes { HasBytes step.now }
        ensures same { OnErr result (self.new ≡ self.old) }
        ensures command { OnErr result (IsCommand step.now) }
        ensures workers { length self.new.seats ≡ length self.old.seats }
        ensures tenants { length self.new.books ≡ length self.old.books }
        ensures counted { (t : ℕ) → slice_index self.new.next_calls t ≤ slice_index self.old.next_calls t + 1 }
    {
        tenant_core::laws::open_holds();
        tenant_core::laws::calls();
        crate::laws::frames_that_go_on();
        self.has_taken();
        self.parts.step(alloc, step)
    }

    /// The frames that workers have are those that they took in as the calls that they have in hand.
    pub fn has_taken(&self)
        ensures { AreTaken (length self.now.books) (world_of self.now) (frames_on self.now) }
    {
        ilp_view::laws::what_is_read_is_a_prepare();
        let _ = &self.parts;
    }

    /// The reply to the sender of the last frame that the worker took in, if its call has ended.
    pub fn reply(&self, worker: usize) -> &[u8]
        ensures value { result.now ≡ (seat_in self.now.seats worker).slot.reply }
        ensures short { length result.now ≤ max_frame }
    {
        match self.parts.seats.get(worker) {
            Some(seat) => seat.slot.reply(),
            None => &[],
        }
    }

    /// The frame that the worker carries: the one that came, or the one that was sent on.
    pub fn frame(&self, worker: usize) -> &[u8]
        ensures value { result.now ≡ frames_on self.now worker }
        ensures short { length result.now ≤ max_frame }
    {
        match self.parts.seats.get(worker) {
            Some(seat) => seat.slot.frame(),
            None => &[],
        }
    }

    /// The books of the tenants, by their numbers.
    pub fn books(&self) -> &[Book]
        ensures { result.now ≡ self.now.books }
    {
        &self.parts.books
    }

    // The output of a step, with its bytes copied into a buffer that was allocated for them.
    fn output(&self, told: StepOutput, room: Vec<u8>) -> Output
        requires empty { room.items ≡ [] }
        requires fits { max_frame ≤ vec_capacity room }
        ensures { result ≡ shown self.now.seats told }
    {
        match told {
            StepOutput::Whole(output) => output,
            StepOutput::Reply { worker, tenant } => Output::Reply {
                tenant,
                bytes: copied(room, self.reply(worker)),
            },
            StepOutput::Send {
                worker,
                tenant,
                peer,
                hold,
            } => Output::Send {
                tenant,
                peer,
                hold,
                frame: copied(room, self.frame(worker)),
            },
        }
    }

    /// Does the steps in order and returns their outputs.
    ///
    /// - Each tenant gets the outputs of the one-tenant connector on the tenant's own steps alone, and ends as it does
    ///   there.
    /// - A step that is nobody's says that its worker is busy or idle.
    /// - A frame that is sent on is the one that came at the last good load of its worker, or that the worker had at
    ///   first. It has 8 other bytes for its amount and 17 others for its expiry. (RFC 0027, "ILP Prepare")
    ///
    /// Fails only if it is out of memory. The error has the outputs of the steps before, and the same holds of them:
    /// each step is done whole or not at all.
    pub fn run(&mut self, alloc: Global, steps: &[Step]) -> Result<Vec<Output>, RunFault>
        requires fit { All (Fits self.old) steps.now }
        requires room { HasRoom self.old (length steps.now) }
        ensures outputs { IfOk result (λ outputs. AreOutputs (world_of self.old) steps.now outputs.items) }
        ensures left { IfOk result (λ outputs.
            IsLeft (world_of self.old) steps.now outputs.items (world_of self.new)) }
        ensures done { IfErr result (λ fault.
            AreOutputs (world_of self.old) (take (length fault.outputs) steps.now) fault.outputs) }
        ensures stands { IfErr result (λ fault.
            IsLeft (world_of self.old) (take (length fault.outputs) steps.now) fault.outputs (world_of self.new)) }
        ensures forwards { MatchResult result (λ outputs. AreForwards (frames_on self.old) steps.now outputs.items)
            (λ fault. AreForwards (frames_on self.old) steps.now fault.outputs) }
        ensures workers { length self.new.seats ≡ length self.old.seats }
        ensures tenants { length self.new.books ≡ length self.old.books }
        ensures room { (n : ℕ) → HasRoom self.old (length steps.now + n) → HasRoom self.new n }
    {
        self.has_taken();
        crate::laws::frames_that_go_on();
        let mut outputs: Vec<Output> = Vec::new(alloc);
        for step in steps {
            let Ok(room) = room_for_one(alloc, &mut outputs) else {
                return Err(RunFault {
                    outputs: Items::from_vec(outputs),
                });
            };
            let Ok(told) = self.step(alloc, step) else {
                return Err(RunFault {
                    outputs: Items::from_vec(outputs),
                });
            };
            outputs.push_reserved(self.output(told, room));
        }
        Ok(outputs)
    }
}

impl Floor {
    ghost use Rattle.std.specs.Prelude.{◌≡◌, ◌≤◌, ℕ, length, IfOk};
    ghost use Rattle.floor_core.specs.FloorView.{IsNewFloor, max_seats};
    ghost use Rattle.tenant_core.specs.Limits.{max_tenants};

    /// The floor of these tenants, whose first periods begin at `start`, and of so many workers with nothing in hand:
    /// 1 to 64 of each. Fails only if it is out of memory.
    pub fn new(
        alloc: Global,
        setups: &[TenantSetup],
        start: Moment,
        workers: usize,
    ) -> Result<Floor, AllocError>
        requires tenants { (1 ≤ length setups.now) × (length setups.now ≤ max_tenants) }
        requires workers { (1 ≤ workers) × (workers ≤ max_seats) }
        ensures { IfOk result (λ floor. IsNewFloor setups.now start workers floor) }
    {
        let seats = free_seats(alloc, workers)?;
        let mut books: Vec<Book> = Vec::with_capacity(alloc, setups.len())?;
        for (tenant, setup) in setups.iter().enumerate() {
            books.push_reserved(Book::new(alloc, tenant, setup, start)?);
        }
        let next_calls: Vec<u64> = vec![in alloc; 0; books.len()]?;
        Ok(Floor {
            parts: Parts {
                seats,
                books,
                next_calls,
            },
        })
    }
}

fn free_seats(alloc: Global, workers: usize) -> Result<Vec<Seat>, AllocError>
    ensures count { IfOk result (λ seats. length seats.items ≡ workers) }
    ensures free { IfOk result (λ seats. (w : ℕ) → (seat_in seats.items w).slot.job ≡ NoJob) }
    ensures silent { IfOk result (λ seats. (w : ℕ) → (seat_in seats.items w).slot.reply ≡ []) }
{
    let mut seats: Vec<Seat> = Vec::with_capacity(alloc, workers)?;
    for _ in 0..workers {
        seats.push_reserved(Seat {
            slot: Slot::new(alloc)?,
            call: 0,
        });
    }
    Ok(seats)
}

impl Floor {
    ghost use Rattle.std.specs.Prelude.{◌≡◌, ◌↔◌, IsTrue};
    ghost use Rattle.floor_core.specs.FloorView.{Fits, HasRoom};

    /// Whether the worker and the tenant are there that a step names.
    pub fn fits(&self, step: &Step) -> bool
        ensures { IsTrue result ↔ Fits self.now step.now }
    {
        let workers = self.parts.seats.len();
        let tenants = self.parts.books.len();
        match step {
            Step::Load { worker, tenant, .. } => *worker < workers && *tenant < tenants,
            Step::Decide { worker, .. } | Step::Answer { worker, .. } => *worker < workers,
            Step::Tick { tenant, .. } | Step::Govern { tenant, .. } => *tenant < tenants,
        }
    }

    /// Whether each tenant has numbers left for the calls of so many steps.
    pub fn room(&self, steps: usize) -> bool
        ensures { IsTrue result ↔ HasRoom self.now steps }
    {
        have_room(&self.parts.next_calls, steps)
    }
}

// Whether so many more leave each number at most 2^63.
fn have_room(next_calls: &[u64], steps: usize) -> bool
    ensures { IsTrue result ↔ ((t : ℕ) → t < length next_calls.now → slice_index next_calls.now t + steps ≤ 2 ^ 63) }
{
    for next in next_calls {
        if *next > 1 << 63 || steps as u64 > (1 << 63) - *next {
            return false;
        }
    }
    true
}
