//! Laws of the definitions, each the contract of a function that does nothing.

ghost use Rattle.std.specs.Prelude.{◌≡◌, ◌≢◌, ◌<◌, ◌≤◌, ℕ, List, Some, IsTrue, length};
ghost use Rattle.std.specs.List.{list_all};
ghost use Rattle.allotment.specs.Loans.{IsCovered, Loans, given_back_by, is_granted, used_by};
ghost use Rattle.allotment.specs.Runs.{PlaceCall, IsAlike, asks_within, calls_by, told_to};
ghost use Rattle.allotment.specs.Waits.{IsPlaceBack, IsNextInTurn, Queued, steps_to, waiting_of};
ghost use Rattle.allotment.specs.WaitsKept.{IsQueue};

/// A tenant that asks for a place only while it uses less than its share gets one each time, whatever calls of others
/// come between.
pub fn sure_within_its_share()
    ensures { (tenant : ℕ) (calls : List PlaceCall) (loans : Loans) → tenant < length loans.used
        → IsTrue (asks_within tenant loans.share (used_by tenant loans) calls)
        → IsTrue (list_all (λ got. got) (told_to tenant calls loans)) }
{}

/// Such a tenant gets the answers that it would get alone: it sees nothing of the others, neither of their loans nor
/// of their calls.
pub fn told_as_alone()
    ensures { (tenant : ℕ) (calls : List PlaceCall) (one other : Loans) → IsAlike tenant one other
        → IsTrue (asks_within tenant one.share (used_by tenant one) calls)
        → told_to tenant calls one ≡ told_to tenant (calls_by tenant calls) other }
{}

/// A place of a tenant that used no more than its share is for that tenant: no other tenant gets one that got none
/// before. So it is enough to wake the tenant's own threads. Each lending's loans are covered (`Lending::is_queue`).
pub fn given_to_itself()
    ensures { (tenant other : ℕ) (loans : Loans) → tenant < length loans.used → 0 < used_by tenant loans
        → used_by tenant loans ≤ loans.share → IsCovered loans → other ≢ tenant
        → is_granted other (given_back_by tenant loans) ≡ is_granted other loans }
{}

/// A tenant that waits comes nearer to its turn each time that a place which anyone may have is kept for another. So it is
/// passed over fewer times than there are tenants. Each lending is such a queue (`Lending::is_queue`).
pub fn nearer_each_time()
    ensures { (tenant next other : ℕ) (before after : Queued) → IsQueue before → before.loans.share < used_by tenant before.loans
        → IsPlaceBack tenant before (Some next) after → IsNextInTurn next before → 0 < waiting_of other before → other ≢ next
        → steps_to other after < steps_to other before }
{}

/// The tenant for which such a place is kept comes last from then on. Each lending is such a queue (`Lending::is_queue`).
pub fn last_from_then_on()
    ensures { (tenant next other : ℕ) (before after : Queued) → IsQueue before → before.loans.share < used_by tenant before.loans
        → IsPlaceBack tenant before (Some next) after → other < length before.loans.used → other ≢ next
        → steps_to other after < steps_to next after }
{}
