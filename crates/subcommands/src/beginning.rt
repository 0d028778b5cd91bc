//! What a service begins with: a setup, or what the journal of an earlier run leads to.

ghost use Rattle.std.specs.Prelude.{◌≡◌, ◌⊎◌, ◌<◌, ◌≤◌, List, IfOk, OnOk, IsNone, length};
ghost use Rattle.books_shared.specs.Begun.{AreNumbered};
ghost use Rattle.books_shared.specs.Traced.{openings_of};
ghost use Rattle.journal_shared.specs.Kept.{IsNewLog};
ghost use Rattle.log_folder.specs.Disk.{disk_may_leave, disk_seen};
ghost use Rattle.tenant_core.specs.Limits.{max_tenants};
ghost use Rattle.subcommands.specs.Beginning.{HasBegun, HasNewLog, IsFit, GoesOn};

use crate::checking::printing;
use crate::continuing::go_on;
use crate::ending::{Ending, JournalEnding};
use crate::files::{cannot, read_file, say_cannot};
use crate::journalling::{blank_log, starts_of};
use crate::verifying::memory_refused;
use admin_text::{MAX_TENANTS, Setup};
use book_journal::LogWriter;
use book_log::{TenantStart, write_base};
use books_shared::are_numbered;
use log_folder::{DiskFile, LogFolder};
use service::Disk;
use statements::first_difference;
use std::alloc::{AllocError, Global};
use std::fs::{File, Files};
use std::io;
use std::time::Clock;
use tenant_core::Opening;

/// How many bytes the log of a service has room for.
const LOG_SIZE: usize = 268_435_456;

/// The tenants of a service, what each begins with, and where what is done to their books is kept, if it is.
#[derive(Drop)]
pub struct Beginning {
    pub setup: Setup,
    pub openings: Vec<Opening>,
    pub journal: Option<LogWriter<DiskFile>>,
}

/// Whether a service can begin so: with 1 to 64 tenants, and an opening of each at its place.
pub fn expect_fit(begun: &Beginning) -> Result<(), JournalEnding>
    ensures { OnOk result (IsFit begun.now) }
{
    let (openings, tenants) = (begun.openings.as_slice(), begun.setup.tenants.as_slice());
    let is_fit = 1 <= tenants.len()
        && tenants.len() <= MAX_TENANTS
        && openings.len() == tenants.len()
        && are_numbered(openings);
    if is_fit {
        Ok(())
    } else {
        Err(JournalEnding::Tenants)
    }
}

/// What each tenant of a setup begins with. Fails only if it is out of memory.
pub fn openings_of_setup(alloc: Global, setup: &Setup) -> Result<Vec<Opening>, AllocError>
    ensures { IfOk result (λ openings. openings.items ≡ openings_of setup.now.tenants setup.now.start) }
{
    let mut openings = Vec::new(alloc);
    for (number, tenant) in setup.tenants.as_slice().iter().enumerate() {
        openings.push(Opening::first(alloc, number, tenant, setup.start)?)?;
    }
    Ok(openings)
}

/// A service that keeps no journal begins with its setup.
pub fn begin_without(alloc: Global, setup: Setup) -> Result<Beginning, AllocError>
    ensures begun { IfOk result (HasBegun setup) }
    ensures none { IfOk result (λ begun. IsNone begun.journal) }
{
    let openings = openings_of_setup(alloc, &setup)?;
    Ok(Beginning {
        setup,
        openings,
        journal: None,
    })
}

/// Makes the pair of that number in a folder: the base of these tenants, and a log without records.
pub fn write_pair<R: Files<File = File>>(
    folder: &mut LogFolder<'_, R>,
    alloc: Global,
    number: u64,
    starts: &[TenantStart],
) -> Result<LogWriter<DiskFile>, JournalEnding>
    ensures { IfOk result (IsNewLog disk_seen disk_may_leave starts.now) }
{
    let (base, sum) = write_base(alloc, starts)?;
    let file = folder.create(number, base.as_slice(), LOG_SIZE)?;
    Ok(LogWriter::new(blank_log(file, LOG_SIZE), sum))
}

// The file of the setup with which the journal of a folder began.
fn setup_path(alloc: Global, path: &str) -> Result<String, Ending> {
    format!(in alloc; "{path}/setup.toml").map_err(memory_refused)
}

// Keeps the text of a setup in the folder of a journal, on the disk.
fn keep_setup(
    rt: &(impl Files + Disk + Print + AllocGlobal),
    path: &str,
    text: &[u8],
) -> Result<(), Ending> {
    let kept = setup_path(rt.alloc(), path)?;
    rt.write_anew(kept.as_str(), text)
        .map_err(|error| cannot(rt, "write", kept.as_str(), &error))?;
    rt.sync_folder(path)
        .map_err(|error| cannot(rt, "write", kept.as_str(), &error))
}

// Checks that a setup is the one with which the journal of a folder began. A line on standard output names the first line that
// differs, and what to do.
fn expect_setup(
    rt: &(impl Files + Print + AllocGlobal),
    path: &str,
    file: &str,
    text: &[u8],
) -> Result<(), Ending> {
    let alloc = rt.alloc();
    let kept = setup_path(alloc, path)?;
    let begun = read_file(rt, kept.as_str())?;
    if begun.as_slice() == text {
        return Ok(());
    }
    let line = first_difference(text, begun.as_slice());
    let why = format!(in alloc;
        "{file} differs in line {line} from {kept}, with which it began: start with {kept}, or run 'ilpd recover {path} --setup NEW', edit NEW, and begin with it in a new folder"
    ).map_err(memory_refused)?;
    say_cannot(rt, "go on with", path, why.as_str());
    Err(Ending::SetupDiffers)
}

/// Takes the folder of a service's journal for this process. If it has a journal, that must have begun with the setup of this
/// file.
pub fn open_journal<'a, R: Files<File = File> + Print + AllocGlobal>(
    rt: &'a R,
    path: &'a str,
    file: &str,
    text: &[u8],
) -> Result<LogFolder<'a, R>, Ending> {
    let folder = LogFolder::open(rt, rt.alloc(), path).map_err(Ending::of_folder)?;
    if folder.newest().is_some() {
        expect_setup(rt, path, file, text)?;
    }
    Ok(folder)
}

/// A service begins with its setup, and with a journal in a folder that has none. The text of the setup is kept there first.
pub fn begin_anew<R: Files<File = File> + Disk + Print + AllocGlobal>(
    rt: &R,
    folder: &mut LogFolder<'_, R>,
    path: &str,
    text: &[u8],
    setup: Setup,
) -> Result<Beginning, Ending>
    ensures { IfOk result (HasBegun setup) }
{
    let alloc = rt.alloc();
    keep_setup(rt, path, text)?;
    let starts = starts_of(alloc, &setup).map_err(memory_refused)?;
    let openings = openings_of_setup(alloc, &setup).map_err(memory_refused)?;
    let journal = write_pair(folder, alloc, 0, starts.as_slice()).map_err(Ending::of_journal)?;
    Ok(Beginning {
        setup,
        openings,
        journal: Some(journal),
    })
}

// The line of the pair in which a service keeps what is done.
fn say_pair(rt: &impl Print, path: &str, number: u64) -> Result<(), Ending> {
    println!(rt; "journal {path} {number}").map_err(printing)
}

/// A service begins with its setup in a folder that has no journal. Otherwise it goes on with what the journal there leads to.
/// Statements of the periods that are closed then are kept if a folder for them is named.
pub fn begin_in<R: Files<File = File> + Disk + Clock + Print + AllocGlobal>(
    rt: &R,
    folder: &mut LogFolder<'_, R>,
    path: &str,
    text: &[u8],
    setup: Setup,
    statements: Option<&str>,
) -> Result<Beginning, Ending>
    ensures { IfOk result (λ begun. HasBegun setup begun ⊎ GoesOn begun) }
{
    let Some(number) = folder.newest() else {
        let begun = begin_anew(rt, folder, path, text, setup)?;
        say_pair(rt, path, 0)?;
        return Ok(begun);
    };
    let begun = go_on(rt, folder, path, number, statements)?;
    say_pair(rt, path, number.saturating_add(1))?;
    Ok(begun)
}

/// A service begins: with its setup, or, if it keeps a journal in that folder, with what that leads to. Statements of the periods that
/// are closed then are kept if a folder for them is named.
#[tactic(auto, using(crate::proofs::Openings::has_none))]
pub fn begin<R: Files<File = File> + Disk + Clock + Print + AllocGlobal>(
    rt: &R,
    folder: &mut Option<LogFolder<'_, R>>,
    path: Option<&str>,
    text: &[u8],
    setup: Setup,
    statements: Option<&str>,
) -> Result<Beginning, Ending>
    ensures { IfOk result HasNewLog }
{
    if let (Some(folder), Some(path)) = (folder, path) {
        return begin_in(rt, folder, path, text, setup, statements);
    }
    match begin_without(rt.alloc(), setup) {
        Ok(begun) => Ok(begun),
        Err(error) => Err(memory_refused(error)),
    }
}
