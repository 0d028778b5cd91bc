//! Laws of books that are shared, each the contract of a function that does nothing.

ghost use Rattle.std.specs.Prelude.{◌≡◌, ◌<◌, ◌↔◌, ℕ, All, Bool, List, IsTrue, length, map, true};
ghost use Rattle.std.specs.List.{filter_map};
ghost use Rattle.tenant_core.specs.Sound.{IsSound};
ghost use Rattle.books_shared.specs.Gathers.{are_all_there, shares_of};
ghost use Rattle.books_shared.specs.Shares.{ShareView, fresh_shares, share_raised, receipts_in};
ghost use Rattle.books_shared.specs.declared.rise.CallCounts.{CallCounts};
ghost use Rattle.books_shared.specs.Complete.{AreClosedIn, AreSharesFrom, AreReceiptsOf, AreRolled};
ghost use Rattle.books_shared.specs.Traced.{IsListOf, after_made, openings_of};
ghost use Rattle.one_list.specs.declared.step.Done.{Done};
ghost use Rattle.one_list.specs.declared.step.Size.{Size};
ghost use Rattle.receipts.specs.Audits.{AreMatched, IsComplete, IsStuckAt};
ghost use Rattle.receipts.specs.Layout.{AreOfRolls};
ghost use Rattle.receipts.specs.Runs.{AreOfRun};
ghost use Rattle.receipts.specs.declared.receipt.Receipt.{Receipt};
ghost use Rattle.tenant_core.specs.State.{State};
ghost use Rattle.tenant_core.specs.declared.period.PeriodParts.{PeriodParts};
ghost use Rattle.floor_core.specs.Causes.{made_alone, world_opened};
ghost use Rattle.floor_core.specs.World.{Event, Tenant, after_alone, world_at_start};
ghost use Rattle.tenant_core.specs.declared.terms.TenantTerms.{TenantTerms};
ghost use denote.Param.Send.{IsSend, IsSync};
ghost use Rattle.books_shared.specs.contracts.books.Books as Books;
ghost use Rattle.tenant_core.specs.contracts.network.Network as Network;

use crate::guard::Guard;
use one_list::Run;
use receipts::laws::{complete_receipts_are_a_run, no_order_where_stuck};

/// Whenever a lock is held, and so whenever it is free, the book is the replay of its journal, and within its limits.
pub fn guard_is_sound<J: Run>(guard: &Guard<'_, J>)
    ensures { IsSound guard.now.state }
{
    guard.is_kept();
}

/// The shares are all there exactly if there are as many as workers, and each worker has one.
pub fn all_there()
    ensures { (workers : ℕ) (shares : List ShareView) → IsTrue (are_all_there workers shares)
        ↔ ((length shares ≡ workers) × ((worker : ℕ) → worker < workers → shares_of worker shares ≡ 1)) }
{}

/// The shares that `Books::new` gives are all there, and what calls count leaves them so: a share stays its worker's.
pub fn fresh_shares_are_all_there()
    ensures fresh { (audited : Bool) (workers : ℕ) → IsTrue (are_all_there workers (fresh_shares audited workers)) }
    ensures same { (rise : CallCounts) (tenant : ℕ) (share : ShareView) → (share_raised rise tenant share).worker ≡ share.worker }
{}

/// The record that an event makes is what the book of the one-tenant connector grows by. After the record of a roll,
/// the next period begins.
pub fn events_make_records()
    ensures { (s : Tenant) (event : Event) → (after_alone s event).book ≡ after_made s.book (made_alone s event) }
{}

/// A floor of the tenants begins with their openings.
pub fn floors_begin_so()
    ensures { (setups : List TenantTerms) (start : ℕ)
        → world_opened (openings_of setups start) ≡ world_at_start setups start }
{}

/// Threads may share books. Call it ahead of a call that hands them to threads: what that call requires is proved by it.
pub fn books_are_shared<J: Run>()
    ensures { IsSync (Books.the_row J.row J.Run) }
{}

/// Whom a tenant deals with may go to another thread, and so may what a period has of it. It is called like
/// `books_are_shared`.
pub fn networks_cross()
    ensures { IsSend Network.the_row }
{}

/// If all books were rolled last, the receipts that are handed out at the end are complete (`complete`). The periods
/// must be all that rolls closed, and each worker must have a receipt of each of its steps. They fit the periods. An
/// order that takes them all is that of the workers in the one list of all that was done, as `Books::gather` has it.
/// So an audit of them says yes, unless it is out of memory.
///
/// What audited shares keep, in the order of their workers, are such receipts (`kept`).
pub fn gathered_receipts_are_complete()
    ensures complete { (size : Size) (setups : List TenantTerms) (start : ℕ) (books : List (State × ℕ)) (shares : List ShareView)
        (log : List Done) (periods : List PeriodParts) (lists : List (List Receipt))
        → IsListOf size (openings_of setups start) books shares log → size.tenants ≡ length books
        → AreRolled books → AreClosedIn (openings_of setups start) log periods → AreReceiptsOf size.workers shares lists
        → IsComplete periods lists (map (λ e. e.worker) log) }
    ensures kept { (shares : List ShareView) → AreSharesFrom 0 shares → All (λ s. s.audited ≡ true) shares
        → AreReceiptsOf (length shares) shares (filter_map receipts_in shares) }
{}

/// If receipts that match the periods are stuck at a front, no order completes them (`stuck`). If an order completes
/// them, and rolls closed the periods, they are in that order the records of a run (`run`). Its steps start from the
/// openings of the first periods, and leave each tenant's book as its last period ended.
pub fn orders()
    ensures stuck { (periods : List PeriodParts) (lists : List (List Receipt)) (front : ℕ → ℕ) (order : List ℕ)
        → AreMatched periods lists → IsStuckAt periods lists front → IsComplete periods lists order → ⊥ }
    ensures run { (periods : List PeriodParts) (lists : List (List Receipt)) (order : List ℕ)
        → AreOfRolls periods → IsComplete periods lists order → AreOfRun periods lists order }
{
    no_order_where_stuck();
    complete_receipts_are_a_run();
}
