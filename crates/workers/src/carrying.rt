//! One packet, carried: taken in, decided, sent on, and its answer settled.

ghost use Rattle.std.specs.Prelude.{◌≡◌, ◌≢◌, ◌+◌, ◌<◌, ◌≤◌, ◌^◌, ◌↔◌, true, false, is_ok, Some};
ghost use Rattle.common_types.specs.Token.{is_token};
ghost use Rattle.ilp_view.specs.Reading.{prepare_at};
ghost use Rattle.floor_core.specs.Work.{IsWaiting, loaded, tenant_in};
ghost use Rattle.floor_core.specs.Work.Job.{NoJob};
ghost use Rattle.floor_core.specs.declared.parts.Turn.TheVariants as turn;
ghost use Rattle.books_shared.specs.Turns.{IsEnded, IsSlotLeft, IsLoaded};
ghost use Rattle.workers.specs.Carrying.{IsAnswered, IsCarried, IsDecided, IsOwnCall, WasExchanged, circumstances, slot_closed, growth};
ghost use Rattle.workers.specs.Counting.{IsSpent, reply_tallied, tallied};
ghost use Rattle.workers.specs.Replies.{IsOfPrepare, IsCallOver, IsSentSo, WasSent, sends_of};
ghost use Rattle.workers.specs.declared.reply.Reply.TheVariants as reply;

use crate::keeping::{Durable, JournalPlace, Keeping, place_after, wait_for};
use crate::reply::{Reply, Status};
use crate::tools::Tools;
use crate::traits::{Clock, Gate, Link, Outgoing, Point};
use books_shared::{RoomFault, Share};
use floor_core::{Got, LoadFault, Slot, Turn};
use meters::{Kind, MeterSeat, Meters};
use one_list::Run;
use std::sync::Wait;

/// A link that has sent so many packets sends no more.
const MAX_SENDS: u64 = 1 << 62;

/// A packet that came for a tenant, with the token that its sender showed.
#[derive(Clone, Copy)]
pub struct Job<'a> {
    pub tenant: usize,
    pub token: &'a [u8],
    pub frame: &'a [u8],
}

/// Carries one packet, in a slot that is idle, for a tenant of the books and of the meters, through a seat of these
/// meters.
///
/// The slot takes the packet in, and the share makes room. The tenant's book decides under its lock. If the packet
/// goes on, the link sends it, and the book settles what came back, under its lock again. After each of these steps
/// the worker passes the gate. No lock is held there or while the link sends. At the end the slot is idle.
///
/// Nothing of the packet leaves before what led to it is kept: neither the frame that goes on, nor the answer to its
/// sender. Also an answer of which the book has no record waits until the state that it shows is kept.
///
/// `Spent` is returned exactly if token and frame are good, and one of the share's counts is full or the link has sent
/// 2^62 packets. `Memory` means out of memory for the packet's receipts, which never happens to a share that keeps
/// none. `NoRoom` means no room to keep what is decided. Nothing was decided after any of these.
///
/// The reply says what became of the packet (`IsCarried`):
///
/// - The tenant's book judged it, sound at that moment, which the clock gave. Steps of the tenant led to each book
///   that was asked, from the opening of its first period in this run.
/// - Of this worker, these steps are exactly what it had done for the tenant until then (`HasOwnSteps`). So no book is
///   from before the worker's last step. The steps that led to the book which is asked for the answer include the
///   packet's own.
/// - The share has met just these steps (`HasGrown`). So the one list's steps of the tenant begin with them.
/// - If the verdict was to send the packet on, it was sent with the verdict's amount and expiry, to the target of the
///   verdict's peer. The sender gets what the book made of the packet, or of what came back.
/// - After `Unkept` nothing was sent, and the book holds the packet no longer. After `Untold` the sender gets nothing of
///   what came back. In both cases the keeper of the records has failed, or takes too long.
/// - `Lost` is returned only if another worker's answer to the packet led to the book since that step (`elsewhere`).
///   It never comes in a run in which each worker answers only packets that it sent on itself (`Run::own`).
/// - The share has grown by just these calls with the book: by what each of them counts for the tenant, and by the
///   record that it made, if any. The record is the next step of the worker's part of the one list.
///
/// The reply's status is counted for the tenant, and so is a fault of the link, unless the seat's count of it is full.
/// The sender gets the slot's reply if the status is 200, and nothing if it is 503.
pub fn carry<J: Run, R: Wait, L: Link, G: Gate, C: Clock, K: Keeping<J>>(
    tools: &Tools<'_, J, R, C, K>,
    seat: &mut MeterSeat,
    slot: &mut Slot,
    share: &mut Share<J>,
    link: &mut L,
    gate: &G,
    job: Job<'_>,
) -> Reply
    requires idle { slot.old.job ≡ NoJob }
    requires seat { seat.old.meters ≡ tools.now.meters.now.id }
    requires books { job.tenant < tools.now.books.now.tenants }
    requires meters { job.tenant < tools.now.meters.now.tenants }
    ensures nameless { result ≡ reply.Nameless ↔ is_token job.entry.token.now ≡ false }
    ensures malformed { result ≡ reply.Malformed
        ↔ (is_token job.entry.token.now ≡ true) × (is_ok (prepare_at job.entry.frame.now) ≡ false) }
    ensures spent { result ≡ reply.Spent ↔ (is_token job.entry.token.now ≡ true)
        × (is_ok (prepare_at job.entry.frame.now) ≡ true) × IsSpent share.old (L.sent link.old) }
    ensures memory { result ≡ reply.Memory → share.old.audited ≡ true }
    ensures lost { (got : Got) → J.own ≡ true → result ≢ reply.Lost got }
    ensures sends { L.sent link.new ≡ L.sent link.old + sends_of result }
    ensures sent { IsSentSo result job.entry.tenant
        (λ sending. L.sends_so link.old sending link.new) (link.new ≡ link.old) }
    ensures carried { IsCarried (circumstances J.openings (C.gives tools.now.clock.now) (K.keeps tools.now.keeping.now) (K.fails tools.now.keeping.now)) result (growth job.entry.tenant share.old share.new)
        (loaded slot.old job.entry.tenant job.entry.token.now job.entry.frame.now) slot.new
        (λ sending. L.sends_so link.old sending link.new) }
    ensures seat { seat.new ≡ reply_tallied job.entry.tenant result seat.old }
    ensures same_meters { seat.new.meters ≡ seat.old.meters }
    ensures idle { slot.new.job ≡ NoJob }
{
    let reply = carried(tools, gate, slot, share, link, job);
    close(slot, reply);
    tally(tools.meters, seat, job.tenant, reply.status().kind());
    if reply.got() == Some(Got::Fault) {
        tally(tools.meters, seat, job.tenant, Kind::LinkFault);
    }
    reply
}

// Drops the call of the slot if the answer is unavailable (503).
fn close(slot: &mut Slot, reply: Reply)
    ensures { slot.new ≡ slot_closed reply slot.old }
{
    if reply.status() == Status::Unavailable {
        slot.clear();
    }
}

// Counts one of a kind, unless the count is full.
pub(crate) fn tally(meters: &Meters, seat: &mut MeterSeat, tenant: usize, kind: Kind)
    requires seat { seat.old.meters ≡ meters.now.id }
    requires tenant { tenant < meters.now.tenants }
    ensures seat { seat.new ≡ tallied tenant kind seat.old }
    ensures same_meters { seat.new.meters ≡ seat.old.meters }
{
    let _ = meters.count(seat, tenant, kind);
}

// Carries a packet, and leaves the call in the slot if the answer is unavailable (503).
fn carried<J: Run, R: Wait, L: Link, G: Gate, C: Clock, K: Keeping<J>>(
    tools: &Tools<'_, J, R, C, K>,
    gate: &G,
    slot: &mut Slot,
    share: &mut Share<J>,
    link: &mut L,
    job: Job<'_>,
) -> Reply
    requires idle { slot.old.job ≡ NoJob }
    requires books { job.tenant < tools.now.books.now.tenants }
    ensures nameless { result ≡ reply.Nameless ↔ is_token job.entry.token.now ≡ false }
    ensures malformed { result ≡ reply.Malformed
        ↔ (is_token job.entry.token.now ≡ true) × (is_ok (prepare_at job.entry.frame.now) ≡ false) }
    ensures spent { result ≡ reply.Spent ↔ (is_token job.entry.token.now ≡ true)
        × (is_ok (prepare_at job.entry.frame.now) ≡ true) × IsSpent share.old (L.sent link.old) }
    ensures memory { result ≡ reply.Memory → share.old.audited ≡ true }
    ensures lost { (got : Got) → J.own ≡ true → result ≢ reply.Lost got }
    ensures sends { L.sent link.new ≡ L.sent link.old + sends_of result }
    ensures sent { IsSentSo result job.entry.tenant
        (λ sending. L.sends_so link.old sending link.new) (link.new ≡ link.old) }
    ensures carried { IsCarried (circumstances J.openings (C.gives tools.now.clock.now) (K.keeps tools.now.keeping.now) (K.fails tools.now.keeping.now)) result (growth job.entry.tenant share.old share.new)
        (loaded slot.old job.entry.tenant job.entry.token.now job.entry.frame.now) (slot_closed result slot.new)
        (λ sending. L.sends_so link.old sending link.new) }
    ensures over { IsCallOver result slot.new.job }
{
    match slot.load(job.tenant, job.token, job.frame) {
        Ok(()) => {}
        Err(LoadFault::Token) => return Reply::Nameless,
        Err(LoadFault::Bad(_)) => return Reply::Malformed,
        Err(LoadFault::Busy) => unreachable!(),
    }
    gate.pass(share.worker(), Point::Loaded);
    exchanged(tools, gate, slot, share, link, job.tenant)
}

// Lets the tenant decide the packet of the slot, sends it on, and lets the tenant settle what comes back.
fn exchanged<J: Run, R: Wait, L: Link, G: Gate, C: Clock, K: Keeping<J>>(
    tools: &Tools<'_, J, R, C, K>,
    gate: &G,
    slot: &mut Slot,
    share: &mut Share<J>,
    link: &mut L,
    tenant: usize,
) -> Reply
    requires books { tenant < tools.now.books.now.tenants }
    requires loaded { IsLoaded slot.old.job }
    requires tenant { tenant_in slot.old.job ≡ Some tenant }
    ensures loaded { IsOfPrepare result }
    ensures spent { result ≡ reply.Spent ↔ IsSpent share.old (L.sent link.old) }
    ensures memory { result ≡ reply.Memory → share.old.audited ≡ true }
    ensures lost { (got : Got) → J.own ≡ true → result ≢ reply.Lost got }
    ensures sends { L.sent link.new ≡ L.sent link.old + sends_of result }
    ensures sent { IsSentSo result tenant
        (λ sending. L.sends_so link.old sending link.new) (link.new ≡ link.old) }
    ensures carried { IsCarried (circumstances J.openings (C.gives tools.now.clock.now) (K.keeps tools.now.keeping.now) (K.fails tools.now.keeping.now)) result (growth tenant share.old share.new) slot.old (slot_closed result slot.new)
        (λ sending. L.sends_so link.old sending link.new) }
    ensures over { IsCallOver result slot.new.job }
{
    one_list::laws::answered_holds();
    if link.sends() >= MAX_SENDS {
        return Reply::Spent;
    }
    match share.make_room(tools.alloc, None) {
        Ok(()) => {}
        Err(RoomFault::Spent) => return Reply::Spent,
        Err(RoomFault::Memory) => return Reply::Memory,
    }
    if !tools.keeping.has_room(tenant) {
        return Reply::NoRoom;
    }
    let (turn, place) = decide(tools, slot, share, tenant);
    gate.pass(share.worker(), Point::Decided);
    let Ok(durable) = wait_for::<J, K>(tools.keeping, place) else {
        if let Turn::Send { .. } = turn {
            answer(tools, slot, share, tenant, Got::Fault);
        }
        return Reply::Unkept;
    };
    match turn {
        Turn::Idle | Turn::Stray => unreachable!(),
        Turn::Stranger => Reply::Stranger,
        Turn::Reply => Reply::Decided,
        Turn::Send { .. } => {
            let got = send(slot, link, tenant, durable);
            gate.pass(share.worker(), Point::Sent);
            let (turn, place) = answer(tools, slot, share, tenant, got);
            gate.pass(share.worker(), Point::Answered);
            match turn {
                Turn::Reply => match wait_for::<J, K>(tools.keeping, place) {
                    Ok(_) => Reply::Settled(got),
                    Err(_) => Reply::Untold(got),
                },
                _ => Reply::Lost(got),
            }
        }
    }
}

// Lets the tenant decide, by its book, under its lock, and gives the place after the book's records.
fn decide<J: Run, R: Wait, C: Clock, K: Keeping<J>>(
    tools: &Tools<'_, J, R, C, K>,
    slot: &mut Slot,
    share: &mut Share<J>,
    tenant: usize,
) -> (Turn, JournalPlace)
    requires books { tenant < tools.now.books.now.tenants }
    requires loaded { IsLoaded slot.old.job }
    requires tenant { tenant_in slot.old.job ≡ Some tenant }
    requires room { 1 < share.old.room }
    ensures decided { IsDecided (circumstances J.openings (C.gives tools.now.clock.now) (K.keeps tools.now.keeping.now) (K.fails tools.now.keeping.now)) result.0 (growth tenant share.old share.new) slot.old slot.new result.1 }
    ensures left { IsSlotLeft result.0 slot.old slot.new }
    ensures room { 0 < share.new.room }
{
    slot.is_work();
    let mut guard = tools.books.enter(tools.rt, tenant);
    guard.meet(share);
    let turn = guard.decide(share, slot, tools.clock.now());
    (turn, place_after(guard.book()))
}

// Sends the packet on. The answer is then in the slot's buffer.
fn send<L: Link>(slot: &mut Slot, link: &mut L, tenant: usize, durable: Durable) -> Got
    requires waits { IsWaiting slot.old.job }
    requires few { L.sent link.old < 2 ^ 62 }
    ensures sent { WasSent result tenant (λ sending. L.sends_so link.old sending link.new) }
    ensures exchanged { WasExchanged tenant slot.old result slot.new
        (λ sending. L.sends_so link.old sending link.new) }
    ensures sends { L.sent link.new ≡ L.sent link.old + 1 }
    ensures job { slot.new.job ≡ slot.old.job }
{
    let expiry = slot.expiry();
    let (target, frame, out) = slot.exchange();
    let packet = Outgoing {
        tenant,
        target,
        frame,
        expiry,
        durable,
    };
    link.send(packet, out)
}

// Lets the tenant settle what came back, by its book, under its lock, and gives the place after the book's records.
fn answer<J: Run, R: Wait, C: Clock, K: Keeping<J>>(
    tools: &Tools<'_, J, R, C, K>,
    slot: &mut Slot,
    share: &mut Share<J>,
    tenant: usize,
    got: Got,
) -> (Turn, JournalPlace)
    requires books { tenant < tools.now.books.now.tenants }
    requires waits { IsWaiting slot.old.job }
    requires tenant { tenant_in slot.old.job ≡ Some tenant }
    requires sent { IsOwnCall share.old tenant slot.old.job }
    requires room { 0 < share.old.room }
    ensures sure { J.own ≡ true → result.0 ≡ turn.Reply }
    ensures answered { IsAnswered (circumstances J.openings (C.gives tools.now.clock.now) (K.keeps tools.now.keeping.now) (K.fails tools.now.keeping.now)) result.0 (growth tenant share.old share.new) got slot.old slot.new result.1 }
    ensures ended { IsEnded result.0 slot.old slot.new }
{
    one_list::laws::answered_holds();
    one_list::laws::own_answers();
    let mut guard = tools.books.enter(tools.rt, tenant);
    guard.meet(share);
    let turn = guard.answer(share, slot, tools.clock.now(), got);
    (turn, place_after(guard.book()))
}
