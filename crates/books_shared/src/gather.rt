//! Books and shares, compared once all is done.

ghost use Rattle.std.specs.Prelude.{◌≡◌, ◌<◌, ◌≤◌, [], ◌++◌, length, map, vec_len, IfOk, IfErr};
ghost use Rattle.std.specs.List.Sorted.{IsNonDecreasingBy, IsPermutation};
ghost use Rattle.tenant_core.specs.Limits.{max_tenants};
ghost use Rattle.books_shared.specs.Gathers.{agree, are_all_there, each_has_one, max_workers, shares_of, total_at};
ghost use Rattle.books_shared.specs.Traced.{AreTraced, share_part};

use crate::books::Books;
use crate::kept::LockedBook;
use crate::share::Share;
use one_list::{Chronicle, Gathering, Run};
use std::alloc::Global;
use std::sync::Mutex;
use tenant_core::Book;

/// Why books were not gathered, in the order of the tests. Books and shares are handed back.
#[derive(Drop)]
pub enum GatherFault<J: Run> {
    /// The shares are not those of all workers, each once.
    Missing(Books<J>, Vec<Share<J>>),
    /// Some book's number is not what the shares add up to for its tenant. Each book comes with its number.
    Differs(Vec<(Book, u64)>, Vec<Share<J>>),
    /// Out of memory.
    Memory(Books<J>, Vec<Share<J>>),
}

impl<J: Run> Books<J> {
    ghost use Rattle.std.specs.Prelude.{IfOk, IfErr};
    ghost use Rattle.books_shared.specs.Gathers.{AreGathered};
    ghost use Rattle.books_shared.specs.Traced.{HaveListOf};
    ghost use Rattle.books_shared.specs.Faults.{IsGatherFault};

    /// Opens all locks and returns the book of each tenant, in the order of their numbers. Each comes with how many
    /// entries were appended to it since `Books::new`, which is the sum of what the shares count for its tenant.
    ///
    /// There is one list of all that was done, whatever the threads did.
    ///
    /// - For each tenant it has the steps that led to its book from the opening of the tenant's setup, over all its
    ///   periods. They have the order of its journals and the outcomes of the replay.
    /// - For each worker it has what the worker did, in its order.
    /// - It has no other steps.
    /// - What a worker has met of a tenant (`Guard::meet`) is how the tenant's steps in the list begin.
    /// - The list is a run (`AreRun`): steps of some workers, from those openings on, make just its records, in its
    ///   order, and leave these books.
    ///
    /// What holds of `Floor::run` holds of this run. Each tenant sees and keeps what the one-tenant connector makes of
    /// its own steps alone. Each frame that goes on is the one that came, with 8 other bytes for its amount and 17
    /// others for its expiry.
    ///
    /// Errors, in the order of the tests. Each hands back the shares and as many books as there were.
    ///
    /// - `Missing` exactly if the shares' numbers are not those below the number of workers, each once, in any order.
    /// - `Memory` if it is out of memory.
    /// - `Differs` exactly if some book's number is not that sum.
    pub fn gather(
        self,
        alloc: Global,
        shares: Vec<Share<J>>,
    ) -> Result<Vec<(Book, u64)>, GatherFault<J>>
        ensures one_list { IfOk result (λ gathered. HaveListOf J.size J.openings gathered.items shares.items) }
        ensures ok { IfOk result (λ gathered. AreGathered gathered.items self shares.items) }
        ensures err { IfErr result (λ fault. IsGatherFault fault self shares.items) }
    {
        if !are_all_there(self.workers(), shares.as_slice()) {
            return Err(GatherFault::Missing(self, shares));
        }
        let Books {
            chronicle,
            locks,
            workers,
        } = self;
        let (mut gathered, mut parts) = match open_all(&chronicle, alloc, locks) {
            Ok(opened) => opened,
            Err(locks) => {
                let books = Books {
                    chronicle,
                    locks,
                    workers,
                };
                return Err(GatherFault::Memory(books, shares));
            }
        };
        sort(&mut gathered);
        if !agree(gathered.as_slice(), shares.as_slice()) {
            return Err(GatherFault::Differs(gathered, shares));
        }
        add_all(&chronicle, &mut parts, shares);
        parts.close(&chronicle);
        floor_core::laws::records_are_a_run();
        Ok(gathered)
    }
}

fn are_all_there<J: Run>(workers: usize, shares: &[Share<J>]) -> bool
    ensures { result ≡ are_all_there workers shares.now }
{
    shares.len() == workers && each_has_one(workers, shares)
}

fn each_has_one<J: Run>(workers: usize, shares: &[Share<J>]) -> bool
    ensures { result ≡ each_has_one workers shares.now }
{
    let mut all = true;
    for worker in 0..workers {
        all = all && shares_of(worker, shares) == 1;
    }
    all
}

fn shares_of<J: Run>(worker: usize, shares: &[Share<J>]) -> usize
    ensures { result ≡ shares_of worker shares.now }
{
    let mut count = 0;
    for share in shares {
        if share.worker() == worker {
            count += 1;
        }
    }
    count
}

// How many entries the shares count for that tenant.
fn total_at<J: Run>(tenant: usize, shares: &[Share<J>]) -> u64
    requires tenant { tenant < max_tenants }
    requires few { length shares.now ≤ max_workers }
    ensures { result ≡ total_at tenant shares.now }
{
    let mut total = 0;
    for share in shares {
        total += share.count(tenant);
    }
    total
}

fn agree<J: Run>(books: &[(Book, u64)], shares: &[Share<J>]) -> bool
    requires { length shares.now ≤ max_workers }
    ensures { result ≡ agree books.now shares.now }
{
    for book in books {
        tenant_core::laws::book_is_sound(&book.0);
        if book.1 != total_at(book.0.tenant(), shares) {
            return false;
        }
    }
    true
}

// Each book with its number, and its part of the one list, in one order; or the locks, if it is out of memory.
fn open_all<J: Run>(
    chronicle: &Chronicle<J>,
    alloc: Global,
    mut locks: Vec<Mutex<LockedBook<J>>>,
) -> Result<(Vec<(Book, u64)>, Gathering<J>), Vec<Mutex<LockedBook<J>>>>
    ensures books { IfOk result (λ opened. vec_len opened.0 ≡ vec_len locks) }
    ensures parts { IfOk result (λ opened. AreTraced J.openings opened.0.items opened.1.tenants) }
    ensures none { IfOk result (λ opened. opened.1.workers ≡ []) }
    ensures err { IfErr result (λ same. vec_len same ≡ vec_len locks) }
{
    let mut books: Vec<(Book, u64)> = Vec::new(alloc);
    if books.reserve(locks.len()).is_err() {
        return Err(locks);
    }
    let mut parts = Gathering::new(chronicle);
    for lock in locks {
        let (book, part) = lock.into_inner().into_parts();
        books.push_reserved(book);
        parts.add_tenant(chronicle, part);
    }
    Ok((books, parts))
}

// Puts the books into the order of their tenants' numbers.
fn sort(books: &mut Vec<(Book, u64)>)
    ensures moved { IsPermutation books.old.items books.new.items }
    ensures sorted { IsNonDecreasingBy (λ b. b.0.opening.tenant) books.new.items }
    ensures many { vec_len books.new ≡ vec_len books.old }
{
    books.sort_unstable_by_key(tenant_of);
}

fn tenant_of(book: &(Book, u64)) -> usize
    ensures { result ≡ book.now.0.opening.tenant }
{
    book.0.tenant()
}

// Adds the workers' parts of the one list.
fn add_all<J: Run>(chronicle: &Chronicle<J>, parts: &mut Gathering<J>, shares: Vec<Share<J>>)
    ensures tenants { parts.new.tenants ≡ parts.old.tenants }
    ensures workers { parts.new.workers ≡ parts.old.workers ++ map share_part shares.items }
{
    for share in shares {
        parts.add_worker(chronicle, share.into_part());
    }
}
