//! Slots: what a worker carries, in buffers that are used again and again.

ghost use Rattle.std.specs.Prelude.{◌≡◌, ◌≤◌, IfOk, IsSome, Some, take, List, ℕ, length};
ghost use Rattle.oer_core.specs.Length.{AreBytes};
ghost use Rattle.ilp_addr.specs.Timestamp.{latest_expiry};
ghost use Rattle.ilp_view.specs.Packet.{max_frame};
ghost use Rattle.ilp_view.specs.Places.{ArePlacesIn};
ghost use Rattle.ilp_view.specs.Reading.{prepare_at, fulfill_at, reject_at};
ghost use Rattle.tenant_core.specs.Judge.{IsSooner, decided, judge};
ghost use Rattle.floor_core.specs.World.{answer_key, bytes_given, key_in, key_read};
ghost use Rattle.floor_core.specs.Work.{given_by, target_of};
ghost use Rattle.tenant_core.specs.Present.{network_of};

use crate::parts::{Got, LoadFault, Turn};
use crate::replies::{put_decision, put_settlement};
use crate::rewriting::rewrite;
use crate::room::Room;
use common_types::{MAX_TOKEN, Text, is_token};
use ilp_addr::{Moment, Target};
use ilp_view::{FulfillView, MAX_FRAME, PreparePlaces, RejectView};
use route_table::PeerNo;
use std::alloc::{AllocError, Global};
use std::marker::Model;
use tenant_core::{AnswerKey, Book, Expiry, PrepareKey, Verdict};

/// What a slot does.
#[derive(Clone, Copy)]
enum Stage {
    Idle,
    /// A frame that is a Prepare came for the tenant, with the slot's token. That was read of it.
    Loaded {
        tenant: usize,
        places: PreparePlaces,
    },
    /// The tenant sent the frame on to the slot's target, with that expiry, and awaits its answer under that hold.
    Waiting {
        tenant: usize,
        hold: u64,
        expiry: u64,
    },
}

/// What one worker carries: a frame, the one that came or the one that was sent on, and at the end the reply to the
/// sender. It allocates all its memory when it is made. Contracts see it as a `Work`.
#[derive(Drop)]
pub struct Slot {
    stage: Stage,
    // The token with which the last frame came.
    token: Text<MAX_TOKEN>,
    // Where the last frame went that was sent on.
    target: Option<Target>,
    frame: Room,
    // How many bytes the frame has, at the front of its room.
    frame_len: usize,
    reply: Room,
    reply_len: usize,
}

impl Model for Slot {
    ghost use Rattle.floor_core.specs.Work.{Work};

    ghost Value = { Work };

    ghost use Rattle.floor_core.specs.SlotView.{work_of, SlotInvariant};

    ghost view = { work_of };

    ghost invariant = { SlotInvariant };
}

impl Slot {
    ghost use Rattle.std.specs.Prelude.{◌≡◌, ◌≤◌, ◌↔◌, IfOk, IsSome, Some, length};
    ghost use Rattle.ilp_view.specs.Packet.{max_frame};
    ghost use Rattle.tenant_core.specs.State.{recorded};
    ghost use Rattle.floor_core.specs.Work.{Job, Work, load_result, loaded, decide_call, answer_call, job_frame, tenant_in, carrying};
    ghost use Rattle.floor_core.specs.Work.{IsWaiting, waiting_in, filled_as, filled_room, IsWork};
    ghost use Rattle.std.specs.Borrow.{sem};
    ghost use Rattle.floor_core.specs.Lending.{LendsRoom};

    /// A slot with no call and no reply. Fails only if it is out of memory.
    pub fn new(alloc: Global) -> Result<Slot, AllocError>
        ensures { IfOk result (λ slot. slot ≡ carrying Job.NoJob slot.room) }
    {
        Ok(Slot {
            stage: Stage::Idle,
            token: Text::from_bytes(&[]).unwrap(),
            target: None,
            frame: Room::new(alloc)?,
            frame_len: 0,
            reply: Room::new(alloc)?,
            reply_len: 0,
        })
    }

    /// The tenant of the call that is carried.
    pub fn tenant(&self) -> Option<usize>
        ensures { result ≡ tenant_in self.now.job }
    {
        match self.stage {
            Stage::Idle => None,
            Stage::Loaded { tenant, .. } | Stage::Waiting { tenant, .. } => Some(tenant),
        }
    }

    /// The tenant whose answer is awaited.
    pub fn waiting(&self) -> Option<usize>
        ensures value { result ≡ waiting_in self.now.job }
        ensures waits { IsSome result ↔ IsWaiting self.now.job }
    {
        match self.stage {
            Stage::Waiting { tenant, .. } => Some(tenant),
            Stage::Idle | Stage::Loaded { .. } => None,
        }
    }

    /// The frame that is carried: the one that came, or the one that was sent on; none if the slot is idle.
    pub fn frame(&self) -> &[u8]
        ensures value { result.now ≡ job_frame self.now.job }
        ensures short { length result.now ≤ max_frame }
    {
        match self.stage {
            Stage::Idle => &[],
            Stage::Loaded { .. } | Stage::Waiting { .. } => &self
                .frame
                .as_slice()[..self.frame_len],
        }
    }

    /// The reply to the sender of the last frame that was taken in; empty before its call has ended. A `load` that is
    /// refused leaves it.
    pub fn reply(&self) -> &[u8]
        ensures value { result.now ≡ self.now.reply }
        ensures short { length result.now ≤ max_frame }
    {
        &self.reply.as_slice()[..self.reply_len]
    }

    /// What holds of each slot.
    pub fn is_work(&self)
        ensures { IsWork self.now }
    {
        let _frame = self.frame.as_slice();
        let _reply = self.reply.as_slice();
        if let Stage::Loaded { .. } = self.stage {
            are_bytes(self.frame());
        }
    }

    /// Drops the call that is carried, and the reply of the last one.
    pub fn clear(&mut self)
        ensures { self.new ≡ carrying Job.NoJob self.old.room }
    {
        self.stage = Stage::Idle;
        self.reply_len = 0;
    }

    /// Takes in a frame that came for a tenant, with the token that the sender showed.
    ///
    /// Errors, in the order of the tests. Nothing has changed then.
    ///
    /// - `Busy` if the slot carries a call.
    /// - `Token` if the token is malformed.
    /// - `Bad` with what is wrong with the frame, if it is not a Prepare.
    pub fn load(&mut self, tenant: usize, token: &[u8], bytes: &[u8]) -> Result<(), LoadFault>
        ensures result { result ≡ load_result self.old.job token.now bytes.now }
        ensures slot { self.new ≡ loaded self.old tenant token.now bytes.now }
    {
        if !matches!(self.stage, Stage::Idle) {
            return Err(LoadFault::Busy);
        }
        if !is_token(token) {
            return Err(LoadFault::Token);
        }
        let places = match PreparePlaces::read(bytes) {
            Ok(places) => places,
            Err(fault) => return Err(LoadFault::Bad(fault)),
        };
        self.token.set(token);
        self.frame.put(bytes);
        self.frame_len = bytes.len();
        self.reply_len = 0;
        self.stage = Stage::Loaded { tenant, places };
        Ok(())
    }

    /// Lets the tenant of the frame decide, by its book, what becomes of it at this moment. (RFC 0027; RFC 0031)
    ///
    /// `Idle` if there is no frame to decide, and `Stray` if the book is another tenant's: nothing has changed then.
    /// Otherwise the book decides by the token and the packet:
    ///
    /// - `Stranger` if no peer has the token.
    /// - `Send` if the packet goes on, with the verdict's amount and expiry in place of its own, and every other byte
    ///   as it came.
    /// - `Reply` for every other verdict.
    pub fn decide(&mut self, book: &mut Book, now: Moment) -> Turn
        ensures turn { result ≡ (decide_call self.old book.old now).turn }
        ensures slot { self.new ≡ (decide_call self.old book.old now).work }
        ensures book { book.new ≡ recorded book.old (decide_call self.old book.old now).made }
    {
        let Stage::Loaded { tenant, places } = self.stage else {
            return Turn::Idle;
        };
        if book.tenant() != tenant {
            return Turn::Stray;
        }
        let token = self.token.as_bytes();
        let (room, len) = (self.frame.as_slice(), self.frame_len);
        let verdict = decided(book, token, places, room, len, now);
        match verdict {
            Verdict::Unknown => {
                self.stage = Stage::Idle;
                Turn::Stranger
            }
            Verdict::Forward {
                hold,
                peer,
                amount,
                expiry,
            } => {
                rewrite(self.frame.as_mut_slice(), self.frame_len, amount, expiry);
                keep_target(&mut self.target, book, peer);
                self.stage = Stage::Waiting {
                    tenant,
                    hold,
                    expiry,
                };
                Turn::Send { peer, hold }
            }
            verdict => {
                self.reply_len = put_decision(self.reply.as_mut_slice(), book, token, verdict);
                self.stage = Stage::Idle;
                Turn::Reply
            }
        }
    }

    /// When the frame that was sent on expires, in milliseconds since 1970-01-01.
    pub fn expiry(&self) -> u64
        requires { IsWaiting self.now.job }
        ensures { Some result ≡ self.now.expiry }
    {
        match self.stage {
            Stage::Waiting { expiry, .. } => expiry,
            Stage::Idle | Stage::Loaded { .. } => unreachable!(),
        }
    }

    /// The target of the frame, the frame, and the buffer to write the answer into.
    pub fn exchange(&mut self) -> (&Target, &[u8], &mut [u8])
        requires { IsWaiting self.old.job }
        ensures* writes_back { sem 𝓛 (LendsRoom self.entry result.2) }
        ensures target { Some result.0.now ≡ self.old.target }
        ensures frame { result.1.now ≡ job_frame self.old.job }
        ensures room { result.2.now ≡ self.old.room }
        ensures size { length result.2.now ≡ max_frame }
    {
        let len = self.frame_len;
        let frame = &self.frame.as_slice()[..len];
        let target = self.target.as_ref().unwrap();
        (target, frame, self.reply.as_mut_slice())
    }

    /// Puts the answer of the next peer into the buffer for it, if it has no more bytes than a frame may have.
    pub fn fill(&mut self, bytes: &[u8]) -> Got
        requires { IsWaiting self.old.job }
        ensures got { result ≡ filled_as bytes.now }
        ensures slot { self.new ≡ record self.old { room = filled_room self.old.room bytes.now } }
    {
        if bytes.len() > MAX_FRAME {
            return Got::Fault;
        }
        self.reply.put(bytes);
        Got::Filled(bytes.len())
    }

    /// Lets the tenant settle the packet that was sent on, by its book and the answer of the next peer. (RFC 0027)
    ///
    /// `Idle` if the slot awaits no answer, and `Stray` if the book is another tenant's or has no such hold: nothing
    /// has changed then. Otherwise `Reply`: the answer if the book relays it, or the refusal of its verdict.
    pub fn answer(&mut self, book: &mut Book, now: Moment, got: Got) -> Turn
        ensures turn { result ≡ (answer_call self.old book.old now got).turn }
        ensures slot { self.new ≡ (answer_call self.old book.old now got).work }
        ensures book { book.new ≡ recorded book.old (answer_call self.old book.old now got).made }
    {
        let Stage::Waiting { tenant, hold, .. } = self.stage else {
            return Turn::Idle;
        };
        if book.tenant() != tenant {
            return Turn::Stray;
        }
        let key = answer_key(self.reply.as_slice(), got);
        let Ok(verdict) = book.answer(hold, now, key) else {
            return Turn::Stray;
        };
        self.reply_len = put_settlement(
            self.reply.as_mut_slice(),
            book.address(),
            answer_len(got),
            verdict,
        );
        self.stage = Stage::Idle;
        Turn::Reply
    }
}

// Each number of the list is a byte.
fn are_bytes(bytes: &[u8])
    ensures { AreBytes bytes.now }
{
    let _first = bytes.first();
}

// The verdict of the book on the Prepare of that length at the front of the buffer, of which that was read.
fn decided(
    book: &mut Book,
    token: &[u8],
    places: PreparePlaces,
    room: &[u8],
    len: usize,
    now: Moment,
) -> Verdict
    requires len { len ≤ length room.now }
    requires places { ArePlacesIn (take len room.now) places }
    ensures book { IfOk (prepare_at (take len room.now)) (λ p. book.new ≡ decided book.old token.now (key_in p) now) }
    ensures verdict { IfOk (prepare_at (take len room.now)) (λ p. result ≡ judge book.old token.now (key_in p) now) }
    ensures sooner { IsSooner result latest_expiry }
    ensures opening { book.new.opening ≡ book.old.opening }
    ensures network { network_of book.new ≡ network_of book.old }
{
    tenant_core::laws::what_stays();
    let packet = places.fields(&room[..len]);
    let key = PrepareKey {
        amount: packet.amount,
        expiry: Expiry::new(packet.expiry).unwrap(),
        condition: packet.condition.try_into().unwrap(),
        destination: &packet.destination,
    };
    book.decide(token, &key, now)
}

// Keeps the target of the peer of that number, in the room of the last one if there is one.
fn keep_target(kept: &mut Option<Target>, book: &Book, peer: PeerNo)
    requires { IsSome (target_of book.now peer) }
    ensures { kept.new ≡ target_of book.now peer }
{
    let target = book.target(peer).unwrap();
    match kept {
        Some(kept) => kept.copy_from(target),
        None => *kept = Some(target.copy()),
    }
}

// How many bytes of an answer are in the buffer.
fn answer_len(got: Got) -> usize
    ensures value { (room : List ℕ) → take result room ≡ bytes_given (given_by room got) }
    ensures within { result ≤ max_frame }
{
    match got {
        Got::Filled(len) if len <= MAX_FRAME => len,
        Got::Filled(_) | Got::Fault => 0,
    }
}

// The parts of an answer that the tenant settles a packet by.
fn answer_key(room: &[u8], got: Got) -> AnswerKey
    requires { length room.now ≡ max_frame }
    ensures { result ≡ answer_key (given_by room.now got) }
{
    match got {
        Got::Filled(len) if len <= MAX_FRAME => key_read(&room[..len]),
        Got::Filled(_) | Got::Fault => AnswerKey::Fault,
    }
}

fn key_read(bytes: &[u8]) -> AnswerKey
    ensures { result ≡ key_read (fulfill_at bytes.now) (reject_at bytes.now) }
{
    if let Ok(fulfill) = FulfillView::read(bytes) {
        return AnswerKey::Fulfilled(fulfill.fulfillment().try_into().unwrap());
    }
    match RejectView::read(bytes) {
        Ok(_) => AnswerKey::Rejected,
        Err(_) => AnswerKey::Fault,
    }
}
