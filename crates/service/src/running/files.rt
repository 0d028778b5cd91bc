//! How many files a service may have open at once.

ghost use Rattle.std.specs.Prelude.{◌≡◌, ◌≤◌};
ghost use Rattle.allotment.specs.Loans.{max_places};
ghost use Rattle.books_shared.specs.Gathers.{max_workers};
ghost use Rattle.service.specs.Files.{files_of};

use crate::host::callers::MAX_CALLERS;
use crate::host::letters::MAX_LETTERS;
use crate::running::plan::Extent;
use std::alloc::{AllocError, Global};
use std::net::TcpListener;

/// How many files the process has beside its connections and exchanges: its three streams, its listeners, and some to spare.
const OTHERS: usize = 8;

/// How many of them are open before a service begins.
const BEFORE: usize = 6;

/// The most files that a process with this extent has open at once. There is one for each connection, each exchange
/// with a peer, and each of 16 connections at each door beside that of the packets. Eight more are for the rest.
pub fn files_of(extent: Extent, doors: u8) -> usize
    requires workers { extent.workers ≤ max_places }
    requires connections { extent.connections ≤ max_workers }
    ensures { result ≡ files_of extent.connections extent.workers doors }
{
    let callers = (MAX_CALLERS + MAX_LETTERS) * doors as usize;
    extent.connections + extent.workers + callers + OTHERS
}

/// Whether the process may have so many files open at once. As a probe, it opens as many as are lacking, and closes
/// them again.
///
/// Fails only if it is out of memory.
pub fn can_open(alloc: Global, listener: &TcpListener, files: usize) -> Result<bool, AllocError> {
    let lacking = files.saturating_sub(BEFORE);
    let mut opened = Vec::with_capacity(alloc, lacking)?;
    for _ in 0..lacking {
        match listener.try_clone() {
            Ok(file) => opened.push(file)?,
            Err(_) => return Ok(false),
        }
    }
    Ok(true)
}
