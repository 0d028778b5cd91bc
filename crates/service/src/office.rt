//! What all workers share.

ghost use Rattle.std.specs.Prelude.{◌≡◌, ◌<◌, vec_len, IfSome, OnOk};
ghost use Rattle.journal_shared.specs.Kept.{IsKeptIn};
ghost use Rattle.log_folder.specs.Disk.{disk_may_leave, disk_seen};
ghost use Rattle.service.specs.Served.{tenant_named};

pub mod asked;

use crate::breakers::Breakers;
use crate::connection::door::Door;
use crate::filing::Filing;
use crate::host::metrics::LogCounts;
use books_shared::Books;
use common_types::{Name, Token};
use ilp_addr::Moment;
use journal_shared::{Keeper, SharedJournal};
use log_folder::DiskFile;
use meters::Meters;
use one_list::Run;
use std::alloc::AllocError;
use std::sync::Wait;
use std::sync::atomic::{AtomicU64, Ordering};
use std::time::Clock;
use workers::{JournalPlace, Keeping, Places};

/// What a service knows of a tenant beside its book.
#[derive(Drop)]
pub struct Terms {
    /// The token that the tenant's operator shows.
    pub admin: Token,
    /// For how many milliseconds steps of an exchange with one of its peers may begin.
    pub hold: u64,
}

/// What all workers share: the tenants by their numbers, their books, the meters, and the ways in and out. `J` names,
/// for the proofs alone, the list of all that is done to the books.
#[derive(Drop)]
pub struct Office<J: Run> {
    pub names: Vec<Name>,
    pub terms: Vec<Terms>,
    pub books: Books<J>,
    pub meters: Meters,
    /// The places in which packets are exchanged with next peers.
    pub places: Places,
    /// Which of these peers rest.
    pub breakers: Breakers,
    /// Where connections come in.
    pub door: Door,
    /// Where the statements of closed periods are kept, if they are.
    pub filing: Option<Filing>,
    /// The journal on disk of what is done to the books, if one is kept.
    pub journal: Option<SharedJournal<DiskFile, J>>,
    /// At how many hundredths of its entries a tenant's period is closed by itself, if it is.
    pub roll_at: Option<u8>,
    /// How many commands came for each tenant under a token that is not its operator's.
    pub refused_tokens: Vec<AtomicU64>,
    /// The moment at which the tenants' clocks began.
    pub start: Moment,
    /// Whether commands come with packets too, at `/admin/NAME`.
    pub admin: bool,
    ghost known: { vec_len terms ≡ books.tenants },
    ghost named: { vec_len names ≡ books.tenants },
    ghost metered: { meters.tenants ≡ books.tenants },
}

impl<J: Run> Office<J> {
    /// Who keeps what is done to the books.
    pub fn keeper<'a, H>(&'a self, handle: &'a H) -> Keeper<'a, H, DiskFile, J>
        ensures { result.journal.now ≡ self.now.journal }
    {
        Keeper {
            handle,
            books: &self.books,
            journal: &self.journal,
        }
    }

    /// Whether nothing more can be kept on disk: the log is full, or the disk has failed.
    pub fn has_lost_journal(&self) -> bool {
        match &self.journal {
            Some(journal) => journal.is_lost(),
            None => false,
        }
    }

    /// Whether what is done now can be kept: the journal, if there is one, is not lost, and the disk does not hang.
    pub fn can_keep(&self, clock: &impl Clock) -> bool {
        match &self.journal {
            Some(journal) => journal.has_room(clock),
            None => true,
        }
    }

    /// What is counted of the journal on disk now, if one is kept.
    pub fn log_counts(&self, clock: &impl Clock) -> Option<LogCounts> {
        let journal = self.journal.as_ref()?;
        Some(LogCounts {
            left: journal.left(),
            write_time: journal.write_time(clock),
            since_sync: journal.since_sync(clock),
        })
    }

    /// Waits until all records of a tenant before that place are kept, if a journal on disk is. Fails if it is not known whether they
    /// are, and at once while the disk hangs.
    pub fn await_kept<'x, H: Wait + Clock>(
        &'x self,
        handle: &'x H,
        place: JournalPlace,
    ) -> Result<(), AllocError>
        ensures { OnOk result (IsKeptIn disk_seen disk_may_leave J.openings self.now.journal place) }
    {
        if let Some(journal) = &self.journal
            && journal.has_stalled(handle)
        {
            return Err(AllocError);
        }
        match self.keeper(handle).wait(place) {
            Ok(()) => Ok(()),
            Err(_) => Err(AllocError),
        }
    }

    /// The number of the tenant of that name.
    pub fn tenant_named(&self, name: &[u8]) -> Option<usize>
        ensures value { result ≡ tenant_named self.now.names.items name.now }
        ensures there { IfSome result (λ tenant. tenant < self.now.books.tenants) }
    {
        self.names
            .as_slice()
            .iter()
            .position(|known| known.as_bytes() == name)
    }

    /// Counts a command or a question for the tenant under a token that is not its operator's.
    pub fn refuse_token(&self, tenant: usize) {
        if let Some(count) = self.refused_tokens.get(tenant) {
            count.fetch_add(1, Ordering::SeqCst);
        }
    }

    /// How many of them came for the tenant.
    pub fn refused_tokens(&self, tenant: usize) -> u64 {
        match self.refused_tokens.get(tenant) {
            Some(count) => count.load(Ordering::SeqCst),
            None => 0,
        }
    }
}
