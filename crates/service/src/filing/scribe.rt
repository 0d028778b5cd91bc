//! Who writes the statements of closed periods, on a thread of its own: no disk is between an answer and its client.

ghost use Rattle.std.specs.Prelude.{◌≡◌};
ghost use Rattle.service.specs.Filing.{pause_after};

use crate::connection::timed::millis_of;
use crate::filing::disk::Disk;
use crate::filing::folder::Folder;
use crate::filing::{Filing, StatementStore, file};
use crate::host::callers::Beside;
use crate::office::Office;
use one_list::Run;
use std::alloc::Global;
use std::sync::Wait;
use std::thread;
use std::time::{Clock, Duration, Instant};
use tenant_core::Period;

/// For how many milliseconds it waits for a period at most before it looks again.
const PATIENCE: u64 = 250;

// For how many milliseconds it pauses after tries that failed and took so many: four times as many, from 500 to 8,000. So a full
// disk costs a fifth of a processor at most.
fn pause_after(spent: u64) -> u64
    ensures { result ≡ pause_after spent }
{
    (spent.min(2_000) * 4).max(500)
}

/// One who writes statements. The periods of those that are written are kept for the audit, if the run is audited.
#[derive(Drop)]
pub struct Scribe<'a, H, J: Run> {
    handle: &'a H,
    alloc: Global,
    office: &'a Office<J>,
    is_audited: bool,
    periods: Vec<Period>,
}

impl<'a, H, J: Run> Scribe<'a, H, J> {
    /// One who writes the statements of that office.
    pub fn new(
        handle: &'a H,
        alloc: Global,
        office: &'a Office<J>,
        is_audited: bool,
    ) -> Scribe<'a, H, J> {
        Scribe {
            handle,
            alloc,
            office,
            is_audited,
            periods: Vec::new(alloc),
        }
    }

    /// The periods that it has kept for the audit.
    pub fn into_periods(self) -> Vec<Period> {
        let Scribe { periods, .. } = self;
        periods
    }
}

impl<H: Wait, J: Run> Scribe<'_, H, J> {
    // Writes the oldest statement of a tenant that waits. `None` if none waits, and otherwise whether it is written.
    fn write_next<S: StatementStore>(
        &mut self,
        filing: &Filing,
        store: &mut S,
        tenant: usize,
    ) -> Option<bool> {
        if self.is_audited && self.periods.reserve(1).is_err() {
            return Some(false);
        }
        let (period, written) = filing.backlog.take(self.handle, tenant)?;
        if !file(self.alloc, store, &period) {
            written.put_back(self.handle, period);
            return Some(false);
        }
        written.set_written(self.handle);
        if self.is_audited {
            // There is room for it.
            let _ = self.periods.push(period);
        }
        Some(true)
    }

    // Writes the statements of a tenant that wait, up to the first that can't be written, and says whether there was none such.
    fn write_tenant<S: StatementStore>(
        &mut self,
        filing: &Filing,
        store: &mut S,
        tenant: usize,
    ) -> bool {
        for _ in 0..filing.backlog.len(self.handle, tenant) {
            match self.write_next(filing, store, tenant) {
                None => return true,
                Some(true) => {}
                Some(false) => return false,
            }
        }
        true
    }
}

impl<H: Wait + Disk, J: Run> Scribe<'_, H, J> {
    // Writes the statements that wait, tenant by tenant, and says whether all are written.
    fn write_all(&mut self, filing: &Filing) -> bool {
        let mut folder = Folder::new(self.handle, self.alloc, filing.folder.as_str());
        let mut are_written = true;
        for tenant in 0..self.office.books.tenants() {
            are_written &= self.write_tenant(filing, &mut folder, tenant);
        }
        are_written
    }
}

impl<H: Wait + Clock + Disk, J: Run> Scribe<'_, H, J> {
    // Waits for a period once all are written, and otherwise pauses before what can't be written is tried again, until nobody serves
    // packets any more.
    fn rest(&self, filing: &Filing, begun: Option<Instant>, are_written: bool) {
        if are_written {
            filing
                .backlog
                .await_call(self.handle, Duration::from_millis(PATIENCE));
            return;
        }
        let spent = match (begun, Instant::now(self.handle)) {
            (Some(begun), Ok(now)) => millis_of(now.saturating_duration_since(begun)),
            _ => 0,
        };
        for _ in 0..pause_after(spent) / PATIENCE {
            if self.office.door.is_deserted() {
                return;
            }
            thread::sleep(self.handle, Duration::from_millis(PATIENCE));
        }
    }
}

impl<H: Wait + Clock + Disk, J: Run> Beside for Scribe<'_, H, J> {
    // No clause can say what a file system keeps.
    ghost stays = { λ _ _. Unit {0} };

    // Writes statements until nobody serves packets any more. What is left then is written at the end.
    fn stay(&mut self) {
        let (handle, office) = (self.handle, self.office);
        let Some(filing) = &office.filing else {
            return;
        };
        for _ in handle.forever() {
            if office.door.is_deserted() {
                return;
            }
            let begun = Instant::now(handle).ok();
            let are_written = self.write_all(filing);
            self.rest(filing, begun, are_written);
        }
    }
}
