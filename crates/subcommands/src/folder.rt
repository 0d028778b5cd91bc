//! The folder that statements are kept in: each start needs one without any, unless it goes on with a journal.

use crate::checking::ending_of;
use crate::ending::Ending;
use crate::files::{cannot, say_cannot};
use admin_text::Setup;
use replay_text::ReplayFault;
use service::Folder;
use std::rt::Files;
use std::{fs, io};

// Why nothing is kept in a folder.
#[derive(Drop)]
enum FolderFault {
    /// It can't be looked at, or it is out of memory.
    Unseen(io::Error),
    /// What is wrong with it.
    Wrong(&'static str),
}

// What is there by that path, if it is a folder.
fn folder_at<'a, R: Files + AllocGlobal>(
    rt: &'a R,
    path: &'a str,
) -> Result<Folder<'a, R>, FolderFault> {
    let found = fs::metadata(rt, path).map_err(FolderFault::Unseen)?;
    if found.is_dir() {
        Ok(Folder::new(rt, rt.alloc(), path))
    } else {
        Err(FolderFault::Wrong("not a folder"))
    }
}

// Checks that the folder of the statements is a folder, and has no statement of these tenants yet; and no receipts, if
// they are kept there too.
fn check_folder(
    rt: &(impl Files + AllocGlobal),
    path: &str,
    setup: &Setup,
    has_receipts: bool,
) -> Result<(), FolderFault> {
    let names = folder_at(rt, path)?.names().map_err(FolderFault::Unseen)?;
    for name in names.as_slice().split(|byte| *byte == 0) {
        if is_statement(setup, name) {
            return Err(FolderFault::Wrong(
                "it has statements of a tenant already: each start needs a new folder",
            ));
        }
        if has_receipts && name == b"receipts".as_slice() {
            return Err(FolderFault::Wrong(
                "it has receipts already: each start needs a new folder",
            ));
        }
    }
    Ok(())
}

// Whether that is the name of the file of a statement of one of these tenants.
fn is_statement(setup: &Setup, file: &[u8]) -> bool {
    for tenant in setup.tenants.as_slice() {
        if is_statement_of(tenant.terms().name.as_bytes(), file) {
            return true;
        }
    }
    false
}

// Whether that is the name of the file of a statement of the tenant of that name: NAME.PERIOD.statement.
fn is_statement_of(name: &[u8], file: &[u8]) -> bool {
    let Some(rest) = file.strip_prefix(name) else {
        return false;
    };
    let Some(rest) = rest.strip_prefix(b".".as_slice()) else {
        return false;
    };
    match rest.strip_suffix(b".statement".as_slice()) {
        Some(period) => !period.is_empty() && period.iter().all(|byte| byte.is_ascii_digit()),
        None => false,
    }
}

/// Checks that a service can keep statements in that folder, and receipts if it has them. A line on standard output says why not.
pub fn expect_folder(
    rt: &(impl Files + Print + AllocGlobal),
    path: &str,
    setup: &Setup,
    has_receipts: bool,
) -> Result<(), Ending> {
    match check_folder(rt, path, setup, has_receipts) {
        Ok(()) => Ok(()),
        Err(fault) => Err(refused(rt, path, &fault)),
    }
}

// Says in a line on standard output why no statements are kept in a folder, and returns how the run ends.
fn refused(rt: &impl Print, path: &str, fault: &FolderFault) -> Ending {
    let doing = "keep statements in";
    match fault {
        FolderFault::Unseen(error) => cannot(rt, doing, path, error),
        FolderFault::Wrong(why) => {
            say_cannot(rt, doing, path, why);
            Ending::Fault(ReplayFault::Device)
        }
    }
}

/// Checks that a service that goes on with its journal can keep statements in that folder. It may have those of earlier periods:
/// the numbers of periods go on. A line on standard output says why not.
pub fn expect_going_on(rt: &(impl Files + Print + AllocGlobal), path: &str) -> Result<(), Ending> {
    match folder_at(rt, path) {
        Ok(_) => Ok(()),
        Err(fault) => Err(refused(rt, path, &fault)),
    }
}

/// Checks that a replay can keep statements in that folder. A replay prints only its lines, so it does not say why not.
pub fn expect_free_folder(
    rt: &(impl Files + AllocGlobal),
    path: &str,
    setup: &Setup,
) -> Result<(), Ending> {
    match check_folder(rt, path, setup, false) {
        Ok(()) => Ok(()),
        Err(FolderFault::Unseen(error)) => Err(ending_of(error.kind())),
        Err(FolderFault::Wrong(_)) => Err(Ending::Fault(ReplayFault::Device)),
    }
}
