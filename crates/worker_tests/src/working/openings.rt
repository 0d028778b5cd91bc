//! Books that go on where others ended.

ghost use Rattle.std.specs.Prelude.{◌≡◌};
ghost use Rattle.books_shared.specs.Begun.{AreNumbered};

use super::{start, two_setups};
use books_shared::{Books, are_numbered};
use common_types::ReadError;
use one_list::{Opened, Run};
use std::alloc::Global;
use std::marker::Brand;
use std::sync::Wait;
use std::test::Fail;
use tenant_core::{Opening, OpeningFault};

// The openings of acme's fourth period and of beta's first, where acme has room for so many entries.
fn two_openings(alloc: Global, journal: u64) -> Result<[Opening; 2], Fail> {
    let setups = two_setups(alloc, "8")?;
    let mut fourth = Opening::first(alloc, 0, &setups[0], start()?)?;
    fourth.period = 3;
    fourth.journal = journal;
    let first = Opening::first(alloc, 1, &setups[1], start()?)?;
    Ok([fourth, first])
}

// The numbers of the periods that begin with these openings, or the limit that one of them breaks.
fn periods<J: Run, R: Wait + AllocGlobal>(
    rt: &R,
    opened: Opened,
    openings: &[Opening; 2],
) -> Result<(u64, u64), ReadError<OpeningFault>>
    requires list { (opened.table ≡ J.table) × (opened.size ≡ J.size) }
    requires size { J.size ≡ record { tenants = 2; workers = 1 } }
    requires openings { J.openings ≡ openings.now }
    requires numbers { AreNumbered openings.now }
{
    let (books, _) = Books::<J>::begun(rt.alloc(), opened, openings, 1, false)?;
    let acme = books.enter(rt, 0).book().period();
    let beta = books.enter(rt, 1).book().period();
    Ok((acme, beta))
}

fn begun<R: Wait + AllocGlobal>(
    rt: &R,
    openings: &[Opening; 2],
) -> Result<Result<(u64, u64), ReadError<OpeningFault>>, Fail> {
    if !are_numbered(openings) {
        return Err("openings in the order of their tenants".into());
    }
    let opened = Opened::new(rt.alloc(), 2, 1)?;
    Ok(periods::<Brand, R>(rt, opened, openings))
}

// The opening of beta alone, the tenant at place 1.
fn beta_alone(alloc: Global) -> Result<[Opening; 1], Fail> {
    let setups = two_setups(alloc, "8")?;
    let opening = Opening::first(alloc, 1, &setups[1], start()?)?;
    Ok([opening])
}

// Whether an opening is found that is not at its tenant's place.
fn is_misplaced(openings: &[Opening; 1]) -> bool {
    !are_numbered(openings)
}

#[test]
fn books_go_on_from_openings(rt: HostRuntime) -> Result<(), Fail> {
    let alloc = rt.alloc();
    assert_eq!(rt; begun(&rt, &two_openings(alloc, 8)?)?, Ok((3, 0)));
    assert_eq!(rt;
        begun(&rt, &two_openings(alloc, 1)?)?,
        Err(ReadError::Fault(OpeningFault::Journal))
    );
    Ok(())
}

#[test]
fn an_opening_at_anothers_place_is_told(rt: HostRuntime) -> Result<(), Fail> {
    assert!(rt; is_misplaced(&beta_alone(rt.alloc())?));
    Ok(())
}
