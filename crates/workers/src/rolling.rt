//! A tenant's period, closed once it is ripe.

ghost use Rattle.std.specs.Prelude.{◌≡◌, ◌<◌, ◌↔◌, true, Err, IfSome, IsNone};
ghost use Rattle.books_shared.specs.Shares.{is_spent};
ghost use Rattle.workers.specs.Carrying.{circumstances, growth};
ghost use Rattle.workers.specs.Keeping.{place_after};
ghost use Rattle.workers.specs.Rolling.{IsRolledRipe, WasRipe, WasUnripe, is_ripe};
ghost use Rattle.workers.specs.declared.governing.GovernFault.TheVariants as governing;

use crate::governing::{GovernFault, make_room, note_roll};
use crate::keeping::{JournalPlace, Keeping, place_after, wait_for};
use crate::tools::Tools;
use crate::traits::Clock;
use books_shared::Share;
use one_list::Run;
use std::sync::Wait;
use tenant_core::{Answered, Book, Command, CommandFault};

/// Whether the running period of a book is ripe: no packet awaits its answer, and it has at least `percent` hundredths of the
/// entries that it has room for, or no room for another packet and its answer.
pub fn is_ripe(book: &Book, percent: u8) -> bool
    ensures { result ≡ is_ripe percent book.now }
{
    let (entries, places) = (book.entries() as u128, u128::from(book.journal_places()));
    book.open_holds() == 0
        && (places < entries + 2 || u128::from(percent) * places <= 100 * entries)
}

/// Closes the running period of a tenant of the books, as its operator's `roll` would, if it is ripe (`is_ripe`). The look and the
/// roll are under one lock.
///
/// `None` if the period is not ripe. Nothing is counted at the meters.
///
/// The book is one to which the tenant's steps led, as for `govern`, and the share has grown by what was done alone.
///
/// The errors are those of `govern`, and nothing has changed then, but for `Unkept`. `Spent` comes exactly if one of the share's
/// counts is full, `Memory` if it is out of memory for the receipt, and `Refused` with what `Book::command` refuses a roll for.
pub fn roll_if_ripe<J: Run, R: Wait, C: Clock, K: Keeping<J>>(
    tools: &Tools<'_, J, R, C, K>,
    share: &mut Share<J>,
    tenant: usize,
    percent: u8,
) -> Result<Option<Answered>, GovernFault>
    requires { tenant < tools.now.books.now.tenants }
    ensures rolled { IsRolledRipe (circumstances J.openings (C.gives tools.now.clock.now) (K.keeps tools.now.keeping.now) (K.fails tools.now.keeping.now)) percent result (growth tenant share.old share.new) }
    ensures spent { result ≡ Err governing.Spent ↔ is_spent share.old ≡ true }
    ensures memory { result ≡ Err governing.Memory → share.old.audited ≡ true }
{
    make_room(tools.alloc, share, &Command::Roll)?;
    if !tools.keeping.has_room(tenant) {
        return Err(GovernFault::NoRoom);
    }
    let Some((answer, place)) = rolled_book(tools, share, tenant, percent) else {
        return Ok(None);
    };
    let Ok(_) = wait_for::<J, K>(tools.keeping, place) else {
        return Err(GovernFault::Unkept);
    };
    match answer {
        Ok(answered) => Ok(Some(answered)),
        Err(fault) => Err(GovernFault::Refused(fault)),
    }
}

// What the tenant's book answers to a roll, under its lock, if its period is ripe, and the place after the book's records.
fn rolled_book<J: Run, R: Wait, C: Clock, K: Keeping<J>>(
    tools: &Tools<'_, J, R, C, K>,
    share: &mut Share<J>,
    tenant: usize,
    percent: u8,
) -> Option<(Result<Answered, CommandFault>, JournalPlace)>
    requires books { tenant < tools.now.books.now.tenants }
    requires room { 0 < share.old.room }
    ensures unripe { IsNone result → WasUnripe (circumstances J.openings (C.gives tools.now.clock.now) (K.keeps tools.now.keeping.now) (K.fails tools.now.keeping.now)) percent (growth tenant share.old share.new) }
    ensures ripe { IfSome result (λ told. (ripe : WasRipe (circumstances J.openings (C.gives tools.now.clock.now) (K.keeps tools.now.keeping.now) (K.fails tools.now.keeping.now))
        percent (growth tenant share.old share.new) told.0) × (told.1 ≡ place_after ripe.rolled.after)) }
{
    let mut guard = tools.books.enter(tools.rt, tenant);
    guard.meet(share);
    let now = tools.clock.now();
    if !is_ripe(guard.book(), percent) {
        return None;
    }
    let answer = guard.command(tools.alloc, share, &Command::Roll, now);
    note_roll(tools.keeping, &mut guard, &answer);
    Some((answer, place_after(guard.book())))
}
