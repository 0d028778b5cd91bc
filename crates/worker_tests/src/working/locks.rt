//! The locks of two tenants.

use super::{Team, Trial, on_two_books, start};
use books_shared::Books;
use one_list::Run;
use std::sync::Wait;
use std::test::Fail;

// Ticks acme's book. Whether its lock was held over that, and beta's was free.
fn ticked<J: Run, R: Wait + AllocGlobal>(rt: &R, team: &mut Team<J>) -> Result<bool, Fail> {
    let books = &team.books;
    if books.tenants() < 2 {
        return Err("two tenants".into());
    }
    team.first.make_room(rt.alloc(), None)?;
    let mut guard = books.enter(rt, 0);
    guard.tick(&mut team.first, start()?)?;
    Ok(books.try_enter(0).is_none() && books.try_enter(1).is_some())
}

// How many entries acme's book has.
fn entries<J: Run, R: Wait>(rt: &R, books: &Books<J>) -> Option<usize> {
    if books.tenants() == 0 {
        return None;
    }
    Some(books.enter(rt, 0).book().entries())
}

// The same, if the lock is free.
fn entries_at_once<J: Run>(books: &Books<J>) -> Option<usize> {
    if books.tenants() == 0 {
        return None;
    }
    let guard = books.try_enter(0)?;
    Some(guard.book().entries())
}

/// Acme's book is ticked under its lock, which is free again afterwards.
struct OwnLock;

impl Trial for OwnLock {
    fn act<J: Run, R: Wait + AllocGlobal>(&self, rt: &R, mut team: Team<J>) -> Result<bool, Fail> {
        let is_locked = ticked(rt, &mut team)?;
        let books = &team.books;
        Ok(is_locked && entries(rt, books) == Some(1) && entries_at_once(books) == Some(1))
    }
}

#[test]
fn a_lock_is_a_tenants_own(rt: HostRuntime) -> Result<(), Fail> {
    assert!(rt; on_two_books(&rt, "64", &OwnLock)?);
    Ok(())
}
