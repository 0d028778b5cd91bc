//! Laws of books and their states, each the contract of a function that does nothing.

ghost use Rattle.tenant_core.specs.Calls.{CallLaws};
ghost use Rattle.tenant_core.specs.Closing.{IsPeriod};
ghost use Rattle.tenant_core.specs.Fates.{FateLaw};
ghost use Rattle.tenant_core.specs.Made.{MadeLaws};
ghost use Rattle.tenant_core.specs.OpenHolds.{OpenHoldLaws};
ghost use Rattle.tenant_core.specs.Peers.{PeerLaw};
ghost use Rattle.tenant_core.specs.PresentSetup.{PresentSetupLaw};
ghost use Rattle.tenant_core.specs.Sound.{IsSound};
ghost use Rattle.tenant_core.specs.Staying.{StayingLaws};

use crate::book::Book;
use crate::period::Period;

/// The state of a book is within its limits.
pub fn book_is_sound(book: &Book)
    ensures { IsSound book.now }
{
    book.is_sound();
}

/// A closed period is what a roll closed.
pub fn period_is_kept(period: &Period)
    ensures { IsPeriod period.now }
{
    period.is_kept();
}

/// A packet that goes on awaits its answer from then on, under the next number. No other awaits one under it. Only its
/// answer ends that.
pub fn open_holds()
    ensures { OpenHoldLaws }
{}

/// The holds of a state are the packets that its records say went on, in their order. The records after its own decide
/// the fate of each. The first answer that names it ends it. Otherwise the first tick after its expiry marks it.
/// Otherwise its amounts are held.
pub fn fates()
    ensures { FateLaw }
{}

/// The peers of a state are those of its opening and those that its records added, in this order, less those that a
/// later record took away. Each has the limits and the bucket of the last record that set them, or those that it came
/// with.
pub fn peers()
    ensures { PeerLaw }
{}

/// Packets, answers and ticks leave whom a tenant deals with, and how. Commands leave the tenant's number. A command
/// that is refused leaves all of it.
pub fn what_stays()
    ensures { StayingLaws }
{}

/// No call makes a book another tenant's, and an answer settles a packet exactly if one is awaited.
pub fn calls()
    ensures { CallLaws }
{}

/// Each record has the outcome that its entry led to in the state before it.
pub fn records_are_made()
    ensures { MadeLaws }
{}

/// A book of a tenant's present setup begins as the tenant's next period would, with full buckets. Its place, its
/// clock, and the numbers of the period and of the next hold may differ.
pub fn present_setups()
    ensures { PresentSetupLaw }
{}
