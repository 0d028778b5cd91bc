//! Replays that are kept in a journal.

ghost use Rattle.std.specs.Prelude.{◌≤◌, ◌<◌, IfOk, length};
ghost use Rattle.tenant_core.specs.Limits.{max_tenants};

use admin_text::{Setup, read_setup};
use book_journal::Journal;
use book_log::write_base;
use ilp_addr::Moment;
use line_log::{Log, Memory};
use std::alloc::Global;
use std::process::Abort;
use std::test::Fail;
use subcommands::{
    Following, Journalist, NoPeriods, follow, openings_of_setup, reopened, replay_journalled,
    starts_of,
};

const SETUP: &str = "version = 1
start = 1893456000000
[[tenant]]
name = \"acme\"
address = \"g.acme\"
admin = \"root-a\"
journal = 16384
";

// The line that each of its steps prints is `acme ticked 0`, of 14 bytes with its end.
const STEP: &str = "tick acme 1893456000000\n";

const STEPS: usize = 9_000;

// As many lines as have 65,536 bytes are printed at once.
const FIRST: usize = 4_682;

const SIZE: usize = 1_048_576;

// How a replay ended: whether well, how many lines it printed, and how many records its file leads to.
#[derive(Clone, Copy, Debug, PartialEq, Eq)]
struct Course {
    well: bool,
    lines: usize,
    records: usize,
}

fn setup(alloc: Global) -> Result<Setup, Fail>
    ensures { IfOk result (λ setup. (1 ≤ length setup.tenants) × (length setup.tenants ≤ max_tenants)) }
{
    admin_text::laws::setups();
    match read_setup(alloc, SETUP.as_bytes()) {
        Ok(setup) => Ok(setup),
        Err(_) => Err(Fail::from("a setup")),
    }
}

fn records_in(alloc: Global, base: &[u8], log: &[u8]) -> Result<usize, Fail> {
    match reopened(alloc, base, log) {
        Ok(left) => Ok(left.books.first().ok_or("a book")?.entries()),
        Err(_) => Err(Fail::from("books")),
    }
}

// A log of so many zeros, in a file of which so many calls succeed.
fn blank(alloc: Global, size: usize, calls: usize) -> Result<Log<Memory>, Fail>
    requires { 0 < size }
{
    let file = Memory::new(alloc, vec![in alloc; 0; size]?, calls);
    Ok(Log::blank(file, size))
}

// A replay into a file of which so many calls succeed.
fn replayed(alloc: Global, setup: &Setup, script: &[u8], calls: usize) -> Result<Course, Fail>
    requires tenants { (1 ≤ length setup.now.tenants) × (length setup.now.tenants ≤ max_tenants) }
{
    let starts = starts_of(alloc, setup)?;
    let (base, sum) = write_base(alloc, starts.as_slice())?;
    let log = blank(alloc, SIZE, calls)?;
    let journal = Journal::new(alloc, log, sum, starts.as_slice())?;
    let mut journalist = Journalist::new(journal, NoPeriods);
    let mut reader = script;
    let mut printed = Vec::new(alloc);
    let ended = replay_journalled(alloc, setup, 1, &mut reader, &mut journalist, &mut printed);
    Ok(Course {
        well: ended.is_ok(),
        lines: printed.iter().filter(|byte| **byte == b'\n').count(),
        records: records_in(alloc, &base, journalist.journal().log().file().bytes())?,
    })
}

#[test]
fn only_what_is_kept_is_printed(rt: HostRuntime) -> Result<(), Fail> {
    let alloc = rt.alloc();
    let setup = setup(alloc)?;
    let mut script = Vec::new(alloc);
    for _ in 0..STEPS {
        script.extend_from_slice(STEP.as_bytes())?;
    }
    // A write and a sync for each of two commits. What was written and not synced may be in the file.
    let expected = [
        (0, false, 0, 0),
        (1, false, 0, FIRST),
        (2, false, FIRST, FIRST),
        (3, false, FIRST, STEPS),
        (4, true, STEPS, STEPS),
    ];
    for (calls, well, lines, records) in expected {
        let found = replayed(alloc, &setup, script.as_slice(), calls)?;
        let wanted = Course {
            well,
            lines,
            records,
        };
        assert_eq!(rt; found, wanted);
    }
    Ok(())
}

// What follows the books of the setup, after a tick, at that moment.
fn followed(alloc: Global, now: u64) -> Result<Following, Fail> {
    let setup = setup(alloc)?;
    let starts = starts_of(alloc, &setup)?;
    let (base, sum) = write_base(alloc, starts.as_slice())?;
    let journal = Journal::new(alloc, blank(alloc, SIZE, 2)?, sum, starts.as_slice())?;
    let mut journalist = Journalist::new(journal, NoPeriods);
    let (mut reader, mut printed) = (STEP.as_bytes(), Vec::new(alloc));
    let _ = replay_journalled(alloc, &setup, 1, &mut reader, &mut journalist, &mut printed);
    let Ok(found) = reopened(alloc, &base, journalist.journal().log().file().bytes()) else {
        return Err(Fail::from("books"));
    };
    match follow(alloc, found, Moment::new(now).ok_or("a moment")?) {
        Ok(following) => Ok(following),
        Err(_) => Err(Fail::from("a period that follows")),
    }
}

#[test]
fn a_service_goes_on_with_the_next_period(rt: HostRuntime) -> Result<(), Fail> {
    let now = 1_893_456_000_001;
    let following = followed(rt.alloc(), now)?;
    let start = following.starts.first().ok_or("a start")?;
    assert!(rt; following.starts.len() == 1 && start.opening.tenant == 0);
    assert!(rt; start.opening.period == 1 && start.opening.clock == now);
    assert!(rt; start.admin.as_bytes() == b"root-a".as_slice());
    let setup = following.setups.first().ok_or("a setup")?;
    assert!(rt; setup.terms().name.as_bytes() == b"acme".as_slice());
    // The tick, and the roll.
    let period = following.periods.first().ok_or("a period")?;
    assert!(rt; period.number() == 0 && period.len() == 2);
    Ok(())
}

#[test]
fn a_service_without_a_journal_begins_with_its_setup(rt: HostRuntime) -> Result<(), Fail> {
    let alloc = rt.alloc();
    let openings = openings_of_setup(alloc, &setup(alloc)?)?;
    let opening = openings.first().ok_or("an opening")?;
    assert!(rt; openings.len() == 1 && opening.tenant == 0 && opening.period == 0);
    assert!(rt; opening.clock == 1_893_456_000_000);
    Ok(())
}
