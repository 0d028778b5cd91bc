//! What a service begins with.

ghost use Rattle.std.specs.Prelude.{ℕ, ◌≡◌, ◌≤◌, length, map, vec_len, true, All, IfOk, IfSome, is_some, option_copied, option_map, string_bytes};
ghost use Rattle.allotment.specs.Loans.{max_places};
ghost use Rattle.tenant_core.specs.Limits.{max_tenants};
ghost use Rattle.meters.specs.Seats.{count_of, empty_seat};
ghost use Rattle.meters.specs.declared.kind.Kind as meter;
ghost use Rattle.books_shared.specs.Gathers.{max_workers};
ghost use Rattle.books_shared.specs.Shares.{fresh_shares};
ghost use Rattle.books_shared.specs.Begun.{AreNumbered};
ghost use Rattle.journal_shared.specs.Kept.{BeginsLog};
ghost use Rattle.log_folder.specs.Disk.{disk_may_leave, disk_seen};
ghost use Rattle.service.specs.Answering.{IsUncounted, IsOfficeOf};

use crate::breakers::Breakers;
use crate::connection::door::Door;
use crate::filing::Filing;
use crate::office::{Office, Terms};
use crate::running::ending::ServeFault;
use crate::running::plan::{Extent, Plan, most_waiting_of, total_of};
use admin_text::Setup;
use book_journal::LogWriter;
use books_shared::{Books, Share};
use common_types::ReadError;
use journal_shared::{Limits, SharedJournal};
use log_folder::DiskFile;
use meters::{MeterSeat, Meters};
use one_list::{Opened, Run};
use std::alloc::{AllocError, Global};
use std::sync::atomic::AtomicU64;
use std::time::Instant;
use tenant_core::{Opening, TenantSetup};
use workers::{Backlog, Places};

/// As many bytes of the log are left free for what is under way: two records of the longest for each connection.
const RESERVE: u64 = 16_777_216;

/// For how many milliseconds a packet, a command or a question waits while somebody else writes the log.
const LONGEST_WAIT: u64 = 10_000;

/// How many milliseconds a write of the log may take until packets and commands are refused.
const LONGEST_WRITE: u64 = 1_000;

/// What a service is given to begin with.
#[derive(Drop)]
pub struct Start<'a> {
    /// The names of the tenants, the tokens of their operators, and for how long each holds a packet.
    pub setup: &'a Setup,
    /// What each tenant's first period in this run begins with.
    pub openings: &'a [Opening],
    /// What writes the journal of what is done to their books, if one is kept. Its log has nothing yet after the base of these openings.
    pub journal: Option<LogWriter<DiskFile>>,
}

/// What a service begins with.
#[derive(Drop)]
pub struct Begun<J: Run> {
    pub office: Office<J>,
    /// The first seat at the meters.
    pub first: MeterSeat,
    /// What each worker, and who answers operators, counts in the books.
    pub shares: Vec<Share<J>>,
}

/// The office of these tenants, to whom nothing has happened since their openings, for this plan, of a service that begins at that
/// moment. So many desks count in its books, and keep receipts if the run is audited. The list of what is done to their books was
/// just opened, for so many tenants and desks. `Device` if no period can begin so.
pub fn open_office<J: Run>(
    alloc: Global,
    begun: Instant,
    opened: Opened,
    start: Start<'_>,
    plan: Plan<'_>,
    desks: usize,
) -> Result<Begun<J>, ServeFault>
    requires list { (opened.table ≡ J.table) × (opened.size ≡ J.size) }
    requires size { J.size ≡ record { tenants = length start.setup.now.tenants; workers = desks } }
    requires openings { J.openings ≡ start.openings.now }
    requires as_many { length start.openings.now ≡ length start.setup.now.tenants }
    requires numbers { AreNumbered start.openings.now }
    requires journal { IfSome start.journal (BeginsLog disk_seen disk_may_leave start.openings.now) }
    requires tenants { (1 ≤ length start.setup.now.tenants) × (length start.setup.now.tenants ≤ max_tenants) }
    requires workers { (1 ≤ plan.extent.workers) × (plan.extent.workers ≤ max_places) }
    requires desks { (1 ≤ desks) × (desks ≤ max_workers) }
    ensures known { IfOk result (λ begun. IsOfficeOf start.entry.setup.now begun.office) }
    ensures first { IfOk result (λ begun. begun.first ≡ empty_seat begun.office.meters.id true) }
    ensures zero { IfOk result (λ begun. (tenant : ℕ) (kind : meter.Kind) → count_of tenant kind begun.first ≡ 0) }
    ensures admin { IfOk result (λ begun. begun.office.admin ≡ plan.entry.admin) }
    ensures journal { IfOk result (λ begun. is_some begun.office.journal ≡ is_some start.entry.journal) }
    ensures statements { IfOk result (λ begun. option_map (λ f. string_bytes f.folder) begun.office.filing ≡ option_copied plan.entry.statements) }
    ensures roll_at { IfOk result (λ begun. begun.office.roll_at ≡ plan.entry.roll_at) }
    ensures each { IfOk result (λ begun. vec_len begun.shares ≡ desks) }
    ensures fresh { IfOk result (λ begun. All IsUncounted begun.shares.items) }
{
    let Plan {
        extent,
        report,
        statements,
        roll_at,
        admin,
        breakers,
    } = plan;
    let Start {
        setup,
        openings,
        journal,
    } = start;
    let tenants = setup.tenants.as_slice();
    let (books, shares) = begun_books(alloc, opened, openings, desks, report.audit)?;
    let journal = journal_of(alloc, begun, journal, openings, &books)?;
    let (meters, first) = Meters::new(alloc, tenants.len())?;
    let office = Office {
        names: setup.names(alloc)?,
        terms: terms_of(alloc, tenants)?,
        books,
        meters,
        places: places_of(alloc, extent, tenants.len())?,
        breakers: breakers_of(alloc, begun, breakers, tenants.len())?,
        door: Door::new(begun, total_of(extent)),
        filing: filing_of(alloc, statements, tenants.len())?,
        journal,
        refused_tokens: counters(alloc, tenants.len())?,
        start: setup.start,
        roll_at,
        admin,
    };
    Ok(Begun {
        office,
        first,
        shares,
    })
}

// The books of these openings, and the shares of so many desks.
fn begun_books<J: Run>(
    alloc: Global,
    opened: Opened,
    openings: &[Opening],
    desks: usize,
    is_audited: bool,
) -> Result<(Books<J>, Vec<Share<J>>), ServeFault>
    requires list { (opened.table ≡ J.table) × (opened.size ≡ J.size) }
    requires size { J.size ≡ record { tenants = length openings.now; workers = desks } }
    requires openings { J.openings ≡ openings.now }
    requires numbers { AreNumbered openings.now }
    requires tenants { (1 ≤ length openings.now) × (length openings.now ≤ max_tenants) }
    requires desks { (1 ≤ desks) × (desks ≤ max_workers) }
    ensures books { IfOk result (λ made. made.0 ≡ record { tenants = length openings.now; workers = desks }) }
    ensures shares { IfOk result (λ made. made.1.items ≡ fresh_shares is_audited desks) }
{
    match Books::begun(alloc, opened, openings, desks, is_audited) {
        Ok(made) => Ok(made),
        Err(ReadError::Memory) => Err(ServeFault::Memory),
        Err(ReadError::Fault(_)) => Err(ServeFault::Device),
    }
}

// The journal that is written so, of these books, which begin so, of a service that began at that moment.
fn journal_of<J: Run>(
    alloc: Global,
    begun: Instant,
    writer: Option<LogWriter<DiskFile>>,
    openings: &[Opening],
    books: &Books<J>,
) -> Result<Option<SharedJournal<DiskFile, J>>, AllocError>
    requires openings { J.openings ≡ openings.now }
    requires numbers { AreNumbered openings.now }
    requires new { IfSome writer (BeginsLog disk_seen disk_may_leave openings.now) }
    ensures { IfOk result (λ journal. is_some journal ≡ is_some writer) }
{
    let Some(writer) = writer else {
        return Ok(None);
    };
    let limits = Limits {
        begun,
        reserve: RESERVE,
        longest_wait: LONGEST_WAIT,
        longest_write: LONGEST_WRITE,
    };
    Ok(Some(SharedJournal::new(alloc, writer, openings, books, limits)?))
}

// The places that so many tenants share.
fn places_of(alloc: Global, extent: Extent, tenants: usize) -> Result<Places, AllocError>
    requires workers { (1 ≤ extent.workers) × (extent.workers ≤ max_places) }
    requires tenants { (1 ≤ tenants) × (tenants ≤ max_tenants) }
{
    let waiting = most_waiting_of(extent, tenants);
    Places::new(alloc, extent.workers, tenants, waiting)
}

// The breakers of so many tenants, if peers that give no answer rest.
fn breakers_of(
    alloc: Global,
    begun: Instant,
    has_breakers: bool,
    tenants: usize,
) -> Result<Breakers, AllocError> {
    let with_breakers = if has_breakers { tenants } else { 0 };
    Breakers::new(alloc, begun, with_breakers)
}

// What a service of so many tenants knows of its statements, if it keeps them in that folder.
fn filing_of(
    alloc: Global,
    folder: Option<&str>,
    tenants: usize,
) -> Result<Option<Filing>, AllocError>
    ensures { IfOk result (λ filing. option_map (λ f. string_bytes f.folder) filing ≡ option_copied folder.entry) }
{
    let Some(path) = folder else {
        return Ok(None);
    };
    Ok(Some(Filing {
        folder: String::from_str(alloc, path)?,
        backlog: Backlog::new(alloc, tenants)?,
    }))
}

// So many counters, all at zero.
fn counters(alloc: Global, many: usize) -> Result<Vec<AtomicU64>, AllocError> {
    let mut all = Vec::new(alloc);
    for _ in 0..many {
        all.push(AtomicU64::new(0))?;
    }
    Ok(all)
}

// The terms of the tenants, in their order.
fn terms_of(alloc: Global, tenants: &[TenantSetup]) -> Result<Vec<Terms>, AllocError>
    ensures operators { IfOk result (λ terms. map (λ t. t.admin) terms.items ≡ map (λ t. t.admin) tenants.now) }
    ensures holds { IfOk result (λ terms. map (λ t. t.hold) terms.items ≡ map (λ t. t.hold) tenants.now) }
    ensures count { IfOk result (λ terms. vec_len terms ≡ length tenants.now) }
{
    let mut terms = Vec::with_capacity(alloc, tenants.len())?;
    for tenant in tenants {
        terms.push_reserved(agreed_with(tenant));
    }
    Ok(terms)
}

fn agreed_with(tenant: &TenantSetup) -> Terms
    ensures operator { result.admin ≡ tenant.now.admin }
    ensures hold { result.hold ≡ tenant.now.hold }
{
    let agreed = tenant.terms();
    Terms {
        admin: agreed.admin.copy(),
        hold: agreed.hold,
    }
}
