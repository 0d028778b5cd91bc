//! One command of an operator, done.

ghost use Rattle.std.specs.Prelude.{◌≡◌, ◌<◌, ◌↔◌, true, Err};
ghost use Rattle.books_shared.specs.Shares.{is_spent};
ghost use Rattle.workers.specs.Carrying.{IsDone, WasCommanded, circumstances, growth};
ghost use Rattle.workers.specs.Counting.{IsRoomMade, command_kind, tallied};
ghost use Rattle.workers.specs.Keeping.{HasClosed, OnRolled, place_after};
ghost use Rattle.workers.specs.declared.governing.GovernFault.TheVariants as governing;

use crate::carrying::tally;
use crate::keeping::{JournalPlace, Keeping, place_after, wait_for};
use crate::tools::Tools;
use crate::traits::Clock;
use books_shared::{Guard, RoomFault, Share};
use meters::{Kind, MeterSeat};
use one_list::Run;
use std::alloc::Global;
use std::sync::Wait;
use tenant_core::{Answered, Command, CommandFault};
use thiserror::Error;

/// Why a command was not done. Nothing has changed then, but for `Unkept`.
#[derive(Clone, Copy, Debug, PartialEq, Eq, Error)]
pub enum GovernFault {
    /// One of the worker's counts is full.
    #[error("a worker's count is full")]
    Spent,
    /// Out of memory for the receipt. Only a share that keeps receipts returns it.
    #[error("out of memory")]
    Memory,
    /// There is no room to keep what it does.
    #[error("no room to keep what it does")]
    NoRoom,
    /// The book under the lock is another tenant's. It is never returned: each lock is entered only for its own
    /// tenant.
    #[error("the book is another tenant's")]
    Stray,
    /// It was done or refused, and it is not known whether that is kept: the keeper of the records has failed.
    #[error("not known to be kept")]
    Unkept,
    /// The book refuses it, or it is out of memory.
    #[error("{0}")]
    Refused(CommandFault),
}

/// Does a command of a tenant's operator, under the lock of the tenant's book. The tenant is one of the books and of
/// the meters.
///
/// Counts the command through a seat of these meters, unless the seat's count is full. It counts as answered, also if
/// the book refuses it. It counts as unavailable after `Spent`, `NoRoom` and `Unkept`, or if it is out of memory for the
/// command or for its receipt.
///
/// The answer, or the refusal, says what the tenant's book answers to this command, sound at that moment, which the
/// clock gave (`IsDone`):
///
/// - Steps of the tenant led to that book, from the opening of its first period in this run. Of this worker, they are
///   exactly what it had done for the tenant until then (`HasOwnSteps`).
/// - The share has met just these steps (`HasGrown`). So the one list's steps of the tenant begin with them.
/// - So balances and refusals come from no book from before the worker's last step, and from none that other steps led
///   to.
/// - The share has grown by just that: by the entry for the tenant, if there is one, and by its record. The record is
///   the next step of the worker's part of the one list.
/// - All that was done to the book until then is kept, by the command too.
///
/// Errors, in the order of the tests. Nothing has changed then in the book and in the share's counts, but for `Unkept`.
///
/// - `Spent` exactly if one of the share's counts is full.
/// - `Memory` if it is out of memory for the receipt, which never happens to a share that keeps none.
/// - `NoRoom` if there is no room to keep what it does.
/// - `Unkept` if the keeper of the records has failed. The book has done or refused the command.
/// - What `Book::command` refuses.
pub fn govern<J: Run, R: Wait, C: Clock, K: Keeping<J>>(
    tools: &Tools<'_, J, R, C, K>,
    seat: &mut MeterSeat,
    share: &mut Share<J>,
    tenant: usize,
    command: &Command,
) -> Result<Answered, GovernFault>
    requires seat { seat.old.meters ≡ tools.now.meters.now.id }
    requires books { tenant < tools.now.books.now.tenants }
    requires meters { tenant < tools.now.meters.now.tenants }
    ensures done { IsDone (circumstances J.openings (C.gives tools.now.clock.now) (K.keeps tools.now.keeping.now) (K.fails tools.now.keeping.now)) result (growth tenant share.old share.new) command.now }
    ensures spent { result ≡ Err governing.Spent ↔ is_spent share.old ≡ true }
    ensures memory { result ≡ Err governing.Memory → share.old.audited ≡ true }
    ensures seat { seat.new ≡ tallied tenant (command_kind result) seat.old }
    ensures same_meters { seat.new.meters ≡ seat.old.meters }
{
    let answer = commanded(tools, share, tenant, command);
    tally(tools.meters, seat, tenant, kind_of(&answer));
    answer
}

fn kind_of(answer: &Result<Answered, GovernFault>) -> Kind
    ensures { result ≡ command_kind answer.now }
{
    match answer {
        Ok(_) => Kind::Answered,
        Err(
            GovernFault::Spent
            | GovernFault::Memory
            | GovernFault::NoRoom
            | GovernFault::Stray
            | GovernFault::Unkept,
        ) => Kind::Unavailable,
        Err(GovernFault::Refused(CommandFault::Memory)) => Kind::Unavailable,
        Err(GovernFault::Refused(_)) => Kind::Answered,
    }
}

// Makes room for a command, before the lock is taken.
pub(crate) fn make_room<J: Run>(
    alloc: Global,
    share: &mut Share<J>,
    command: &Command,
) -> Result<(), GovernFault>
    ensures { IsRoomMade result share.old share.new }
{
    match share.make_room(alloc, Some(command)) {
        Ok(()) => Ok(()),
        Err(RoomFault::Spent) => Err(GovernFault::Spent),
        Err(RoomFault::Memory) => Err(GovernFault::Memory),
    }
}

// Says who keeps what is done that a command has closed a period of the book, if it did.
pub(crate) fn note_roll<J: Run, K: Keeping<J>>(
    keeping: &K,
    guard: &mut Guard<'_, J>,
    answer: &Result<Answered, CommandFault>,
)
    requires closed { OnRolled answer.now (λ period. HasClosed J.openings guard.old period) }
    ensures same { guard.new ≡ guard.old }
{
    if let Ok(Answered::Rolled(period)) = answer {
        keeping.note_closed(guard, period);
    }
}

// Lets the tenant's book do the command, under its lock, and gives the place after the book's records.
fn commanded_book<J: Run, R: Wait, C: Clock, K: Keeping<J>>(
    tools: &Tools<'_, J, R, C, K>,
    share: &mut Share<J>,
    tenant: usize,
    command: &Command,
) -> (Result<Answered, CommandFault>, JournalPlace)
    requires books { tenant < tools.now.books.now.tenants }
    requires room { 0 < share.old.room }
    ensures commanded { (commanded : WasCommanded (circumstances J.openings (C.gives tools.now.clock.now) (K.keeps tools.now.keeping.now) (K.fails tools.now.keeping.now))
        (growth tenant share.old share.new) command.now result.0) × (result.1 ≡ place_after commanded.after) }
{
    let mut guard = tools.books.enter(tools.rt, tenant);
    guard.meet(share);
    let answer = guard.command(tools.alloc, share, command, tools.clock.now());
    note_roll(tools.keeping, &mut guard, &answer);
    (answer, place_after(guard.book()))
}

fn commanded<J: Run, R: Wait, C: Clock, K: Keeping<J>>(
    tools: &Tools<'_, J, R, C, K>,
    share: &mut Share<J>,
    tenant: usize,
    command: &Command,
) -> Result<Answered, GovernFault>
    requires { tenant < tools.now.books.now.tenants }
    ensures done { IsDone (circumstances J.openings (C.gives tools.now.clock.now) (K.keeps tools.now.keeping.now) (K.fails tools.now.keeping.now)) result (growth tenant share.old share.new) command.now }
    ensures spent { result ≡ Err governing.Spent ↔ is_spent share.old ≡ true }
    ensures memory { result ≡ Err governing.Memory → share.old.audited ≡ true }
{
    make_room(tools.alloc, share, command)?;
    if !tools.keeping.has_room(tenant) {
        return Err(GovernFault::NoRoom);
    }
    let (answer, place) = commanded_book(tools, share, tenant, command);
    let Ok(_) = wait_for::<J, K>(tools.keeping, place) else {
        return Err(GovernFault::Unkept);
    };
    match answer {
        Ok(answered) => Ok(answered),
        Err(fault) => Err(GovernFault::Refused(fault)),
    }
}
