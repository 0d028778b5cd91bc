//! The books of all tenants.

ghost use Rattle.std.specs.Prelude.{◌≡◌, ◌≤◌, ◌↔◌, length, vec_len, IfOk, IsErrOf, IsTrue, Some};
ghost use Rattle.tenant_core.specs.Limits.{max_tenants};
ghost use Rattle.tenant_core.specs.Reopening.{opening_fault};
ghost use Rattle.tenant_core.specs.State.{opened};
ghost use Rattle.books_shared.specs.Shares.{fresh_shares};
ghost use Rattle.books_shared.specs.Begun.{AreNumbered, HasFault};
ghost use Rattle.books_shared.specs.Traced.{openings_of};

use crate::guard::Guard;
use crate::kept::LockedBook;
use crate::share::Share;
use common_types::ReadError;
use ilp_addr::Moment;
use one_list::{Chronicle, Opened, Run, Unclaimed, Watcher};
use std::alloc::{AllocError, Global};
use std::marker::Model;
use std::sync::{Mutex, Wait};
use tenant_core::{Book, Opening, OpeningFault, TenantSetup};

/// The most workers.
pub const MAX_WORKERS: usize = 4_096;

/// The books of 1 to 64 tenants, each behind its own lock, for 1 to 4,096 workers. Contracts see how many there are of
/// each.
///
/// A `Book` is the replay of its journal whatever is done with it, and only the calls of a `Guard` change one. So
/// whenever a lock is free, its book is the replay of its journal, and within its limits (`laws::guard_is_sound`).
///
/// There is one list of all that is done to the books (`Chronicle`), which only the proofs know. `J` says which list
/// it is: the program that makes the books picks it, once.
#[derive(Drop)]
pub struct Books<J: Run> {
    pub(crate) chronicle: Chronicle<J>,
    pub(crate) locks: Vec<Mutex<LockedBook<J>>>,
    pub(crate) workers: usize,
}

impl<J: Run> Model for Books<J> {
    ghost use Rattle.std.specs.Prelude.{vec_len};
    ghost use Rattle.books_shared.specs.Gathers.{BooksView};

    ghost Value = { BooksView };

    ghost use Rattle.books_shared.specs.BooksKept.{AreFew};

    ghost view = { λ b. record { tenants = vec_len b.locks; workers = b.workers } };

    ghost invariant = { λ b. AreFew J.size J.openings (vec_len b.locks) b.workers };
}

/// Whether each opening is that of the tenant at its place.
pub fn are_numbered(openings: &[Opening]) -> bool
    ensures { IsTrue result ↔ AreNumbered openings.now }
{
    for (place, opening) in openings.iter().enumerate() {
        if opening.tenant != place {
            return false;
        }
    }
    true
}

impl<J: Run> Books<J> {
    ghost use Rattle.std.specs.Prelude.{◌≡◌, ◌<◌, ◌≤◌, [], length, true, IfOk, IfSome, IsErrOf};
    ghost use Rattle.tenant_core.specs.Limits.{max_tenants};
    ghost use Rattle.books_shared.specs.Gathers.{max_workers};
    ghost use Rattle.books_shared.specs.Kept.{LockInvariant};
    ghost use Rattle.books_shared.specs.Shares.{fresh_shares};
    ghost use Rattle.books_shared.specs.Begun.{AreNumbered, HasFault};
    ghost use Rattle.books_shared.specs.Traced.{IsLedTo, openings_of};
    ghost use Rattle.one_list.specs.Holds.{AreOwnAnswers};

    /// The books of these tenants, and the shares of so many workers. There are 1 to 64 tenants and 1 to 4,096
    /// workers.
    ///
    /// - Nothing has happened in the books. Their first periods begin at `start`.
    /// - The shares come in order, with the numbers 0, 1 and so on. All counts are 0, and there is no room for a call.
    ///   They keep receipts if the run is audited.
    /// - The list of all that is done to the books was just opened, for so many tenants and workers.
    ///
    /// Fails only if it is out of memory.
    pub fn new(
        alloc: Global,
        opened: Opened,
        setups: &[TenantSetup],
        start: Moment,
        workers: usize,
        audited: bool,
    ) -> Result<(Books<J>, Vec<Share<J>>), AllocError>
        requires list { (opened.table ≡ J.table) × (opened.size ≡ J.size) }
        requires size { J.size ≡ record { tenants = length setups.now; workers = workers } }
        requires openings { J.openings ≡ openings_of setups.now start }
        requires tenants { (1 ≤ length setups.now) × (length setups.now ≤ max_tenants) }
        requires workers { (1 ≤ workers) × (workers ≤ max_workers) }
        ensures books { IfOk result (λ made. made.0 ≡ record { tenants = length setups.now; workers = workers }) }
        ensures shares { IfOk result (λ made. made.1.items ≡ fresh_shares audited workers) }
    {
        let (chronicle, mut unclaimed) = opened.named::<J>();
        let locks = locks_of(alloc, &chronicle, &mut unclaimed, setups, start)?;
        let shares = fresh_shares(alloc, &chronicle, &mut unclaimed, workers, audited)?;
        let books = Books {
            chronicle,
            locks,
            workers,
        };
        Ok((books, shares))
    }

    /// The books of tenants that go on: their periods begin with these openings, the tenant of each at its place among them
    /// (`are_numbered`). So books go on where others ended, with their periods, clocks, balances and buckets. All else is as for `new`.
    ///
    /// Fails with the first limit that an opening breaks, or if it is out of memory.
    pub fn begun(
        alloc: Global,
        opened: Opened,
        openings: &[Opening],
        workers: usize,
        audited: bool,
    ) -> Result<(Books<J>, Vec<Share<J>>), ReadError<OpeningFault>>
        requires list { (opened.table ≡ J.table) × (opened.size ≡ J.size) }
        requires size { J.size ≡ record { tenants = length openings.now; workers = workers } }
        requires openings { J.openings ≡ openings.now }
        requires numbers { AreNumbered openings.now }
        requires tenants { (1 ≤ length openings.now) × (length openings.now ≤ max_tenants) }
        requires workers { (1 ≤ workers) × (workers ≤ max_workers) }
        ensures books { IfOk result (λ made. made.0 ≡ record { tenants = length openings.now; workers = workers }) }
        ensures shares { IfOk result (λ made. made.1.items ≡ fresh_shares audited workers) }
        ensures refused { (fault : OpeningFault) → IsErrOf result (ReadError.Fault fault) → HasFault openings.now fault }
    {
        let (chronicle, mut unclaimed) = opened.named::<J>();
        let locks = begun_locks(alloc, &chronicle, &mut unclaimed, openings)?;
        let shares = fresh_shares(alloc, &chronicle, &mut unclaimed, workers, audited)?;
        let books = Books {
            chronicle,
            locks,
            workers,
        };
        Ok((books, shares))
    }

    /// One who watches the books, and has met none of them. It does nothing to them, and is not gathered. It allocates nothing.
    pub fn watcher(&self) -> Watcher<J>
        ensures { result ≡ [] }
    {
        self.chronicle.watcher()
    }

    /// How many tenants there are: their numbers are those below.
    pub fn tenants(&self) -> usize
        ensures value { result ≡ self.now.tenants }
        ensures within { result ≤ max_tenants }
    {
        self.locks.len()
    }

    /// How many workers there are.
    pub fn workers(&self) -> usize
        ensures value { result ≡ self.now.workers }
        ensures within { result ≤ max_workers }
    {
        self.workers
    }

    /// The book of that tenant, one of the books. The call waits until no other guard of it is held. (If the lock held
    /// another tenant's book, it would wait for ever: books never move.) What is known of the book is what holds
    /// whenever its lock is free. In a run with `Run::own`, each worker answers only packets that it sent on itself.
    /// Then so does each answer among the book's steps.
    pub fn enter(&self, rt: &impl Wait, tenant: usize) -> Guard<'_, J>
        requires { tenant < self.now.tenants }
        ensures own { result.state.opening.tenant ≡ tenant }
        ensures kept { LockInvariant result }
        ensures led { IsLedTo J.openings result.state result.steps }
        ensures answers { J.own ≡ true → AreOwnAnswers result.steps }
    {
        for _ in rt.forever() {
            let guard = Guard::new(self.locks[tenant].lock(rt), &self.chronicle);
            if guard.book().tenant() == tenant {
                guard.is_kept();
                return guard;
            }
        }
        unreachable!()
    }

    /// The same, or `None` if another guard may be held, or the book is another tenant's. It waits for nobody.
    pub fn try_enter(&self, tenant: usize) -> Option<Guard<'_, J>>
        requires { tenant < self.now.tenants }
        ensures own { IfSome result (λ guard. guard.state.opening.tenant ≡ tenant) }
        ensures kept { IfSome result (λ guard. LockInvariant guard) }
        ensures led { IfSome result (λ guard. IsLedTo J.openings guard.state guard.steps) }
        ensures answers { IfSome result (λ guard. J.own ≡ true → AreOwnAnswers guard.steps) }
    {
        let guard = Guard::new(self.locks[tenant].try_lock()?, &self.chronicle);
        if guard.book().tenant() != tenant {
            return None;
        }
        guard.is_kept();
        Some(guard)
    }
}

fn locks_of<J: Run>(
    alloc: Global,
    chronicle: &Chronicle<J>,
    unclaimed: &mut Unclaimed<J>,
    setups: &[TenantSetup],
    start: Moment,
) -> Result<Vec<Mutex<LockedBook<J>>>, AllocError>
    requires few { length setups.now ≤ max_tenants }
    requires none { unclaimed.old.tenants ≡ 0 }
    requires many { J.size.tenants ≡ length setups.now }
    requires openings { J.openings ≡ openings_of setups.now start }
    ensures locks { IfOk result (λ locks. vec_len locks ≡ length setups.now) }
    ensures workers { unclaimed.new.workers ≡ unclaimed.old.workers }
{
    one_list::laws::histories();
    let mut locks: Vec<Mutex<LockedBook<J>>> = Vec::with_capacity(alloc, setups.len())?;
    for (tenant, setup) in setups.iter().enumerate() {
        let book = Book::new(alloc, tenant, setup, start)?;
        let part = chronicle.tenant_part(unclaimed);
        locks.push_reserved(Mutex::new(LockedBook::new(book, part)));
    }
    Ok(locks)
}

fn begun_locks<J: Run>(
    alloc: Global,
    chronicle: &Chronicle<J>,
    unclaimed: &mut Unclaimed<J>,
    openings: &[Opening],
) -> Result<Vec<Mutex<LockedBook<J>>>, ReadError<OpeningFault>>
    requires few { length openings.now ≤ max_tenants }
    requires none { unclaimed.old.tenants ≡ 0 }
    requires many { J.size.tenants ≡ length openings.now }
    requires openings { J.openings ≡ openings.now }
    requires numbers { AreNumbered openings.now }
    ensures locks { IfOk result (λ locks. vec_len locks ≡ length openings.now) }
    ensures workers { unclaimed.new.workers ≡ unclaimed.old.workers }
    ensures refused { (fault : OpeningFault) → IsErrOf result (ReadError.Fault fault) → HasFault openings.now fault }
{
    one_list::laws::histories();
    let mut locks: Vec<Mutex<LockedBook<J>>> = Vec::with_capacity(alloc, openings.len())?;
    for opening in openings {
        let book = begun_book(alloc, opening)?;
        let part = chronicle.tenant_part(unclaimed);
        locks.push_reserved(Mutex::new(LockedBook::new(book, part)));
    }
    Ok(locks)
}

fn begun_book(alloc: Global, opening: &Opening) -> Result<Book, ReadError<OpeningFault>>
    ensures begun { IfOk result (λ book. book ≡ opened opening.now) }
    ensures refused { (fault : OpeningFault) → IsErrOf result (ReadError.Fault fault) → opening_fault opening.now ≡ Some fault }
{
    Book::reopened(alloc, opening.copy(alloc)?)
}

fn fresh_shares<J: Run>(
    alloc: Global,
    chronicle: &Chronicle<J>,
    unclaimed: &mut Unclaimed<J>,
    workers: usize,
    audited: bool,
) -> Result<Vec<Share<J>>, AllocError>
    requires none { unclaimed.old.workers ≡ 0 }
    requires many { J.size.workers ≡ workers }
    ensures { IfOk result (λ shares. shares.items ≡ fresh_shares audited workers) }
{
    let mut shares: Vec<Share<J>> = Vec::with_capacity(alloc, workers)?;
    for _worker in 0..workers {
        let part = chronicle.worker_part(unclaimed);
        shares.push_reserved(Share::fresh(alloc, part, audited));
    }
    Ok(shares)
}
