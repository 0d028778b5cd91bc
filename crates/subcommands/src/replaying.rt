//! What `replay` does.

ghost use Rattle.std.specs.Prelude.{◌≤◌, length};
ghost use Rattle.floor_core.specs.FloorView.{max_seats};
ghost use Rattle.tenant_core.specs.Limits.{max_tenants};

use crate::ending::Ending;
use crate::files::setup_in;
use crate::filing::{Filer, replay_filing};
use crate::folder::expect_free_folder;
use crate::journalling::{Journalist, NoPeriods, begin_journal, replay_journalled};
use admin_text::Setup;
use log_folder::{DiskFile, LogFolder};
use oer_core::Counted;
use replay_text::{PeriodKeeper, replay};
use service::{Disk, Folder};
use std::fs::File;
use std::io;
use std::rt::Files;

// Replays the script on standard input, and keeps the statements of the periods that it closes in a folder. Nothing but the lines
// of its steps is printed.
fn replay_into(
    rt: &(impl Files + Disk + Input + Print + AllocGlobal),
    setup: &[u8],
    workers: usize,
    path: &str,
) -> Result<(), Ending>
    requires { (1 ≤ workers) × (workers ≤ max_seats) }
{
    let alloc = rt.alloc();
    expect_free_folder(rt, path, &setup_in(alloc, setup)?)?;
    let mut reader = Counted::new(rt.reader());
    let mut writer = Counted::new(io::writer(rt));
    let mut filer = Filer::new(alloc, Folder::new(rt, alloc, path));
    replay_filing(alloc, setup, workers, &mut reader, &mut filer, &mut writer).map_err(
        Ending::Fault,
    )
}

// Replays the script on standard input, and keeps each record in a journal before anything of its step is printed.
fn replay_with<R: Input + Print + AllocGlobal, K: PeriodKeeper + Drop>(
    rt: &R,
    setup: &Setup,
    workers: usize,
    journalist: &mut Journalist<DiskFile, K>,
) -> Result<(), Ending>
    requires tenants { (1 ≤ length setup.now.tenants) × (length setup.now.tenants ≤ max_tenants) }
    requires workers { (1 ≤ workers) × (workers ≤ max_seats) }
{
    let mut reader = Counted::new(rt.reader());
    let mut writer = Counted::new(io::writer(rt));
    replay_journalled(
        rt.alloc(),
        setup,
        workers,
        &mut reader,
        journalist,
        &mut writer,
    )
}

// The same with a new journal in a folder, and with statements of the periods that are closed, if a folder for them is named.
fn replay_journal<R: Files<File = File> + Disk + Input + Print + AllocGlobal>(
    rt: &R,
    setup: &[u8],
    workers: usize,
    path: &str,
    statements: Option<&str>,
) -> Result<(), Ending>
    requires { (1 ≤ workers) × (workers ≤ max_seats) }
{
    let alloc = rt.alloc();
    let setup = setup_in(alloc, setup)?;
    if let Some(statements) = statements {
        expect_free_folder(rt, statements, &setup)?;
    }
    let mut folder = LogFolder::open(rt, alloc, path).map_err(Ending::of_folder)?;
    let journal = begin_journal(&mut folder, alloc, &setup).map_err(Ending::of_journal)?;
    let Some(statements) = statements else {
        return replay_with(
            rt,
            &setup,
            workers,
            &mut Journalist::new(journal, NoPeriods),
        );
    };
    let filer = Filer::new(alloc, Folder::new(rt, alloc, statements));
    let mut journalist = Journalist::new(journal, filer);
    replay_with(rt, &setup, workers, &mut journalist)?;
    journalist.periods().ended()
}

/// Replays the script on standard input. It keeps statements and a journal if folders for them are named.
pub fn replay_at<R: Files<File = File> + Disk + Input + Print + AllocGlobal>(
    rt: &R,
    setup: &[u8],
    workers: usize,
    statements: Option<&str>,
    journal: Option<&str>,
) -> Result<(), Ending>
    requires { (1 ≤ workers) × (workers ≤ max_seats) }
{
    if let Some(path) = journal {
        return replay_journal(rt, setup, workers, path, statements);
    }
    if let Some(path) = statements {
        return replay_into(rt, setup, workers, path);
    }
    let mut reader = Counted::new(rt.reader());
    let mut writer = Counted::new(io::writer(rt));
    replay(rt.alloc(), setup, workers, &mut reader, &mut writer).map_err(Ending::Fault)
}
