//! A replay whose records are kept in a journal on disk.

ghost use Rattle.std.specs.Prelude.{◌≡◌, ◌<◌, ◌≤◌, [], IfOk, IfSome, List, OnOk, length, replicate};
ghost use Rattle.book_log.specs.declared.base.TenantStart.{TenantStart as Start};
ghost use Rattle.floor_core.specs.FloorView.{max_seats};
ghost use Rattle.journal_law.specs.Crashes.{HasAdded};
ghost use Rattle.journal_law.specs.Kept.{IsNewJournal};
ghost use Rattle.line_log.specs.File.{Only};
ghost use Rattle.line_log.specs.Log.{recovered};
ghost use Rattle.log_folder.specs.Disk.{disk_may_leave, disk_seen, IsOnDisk};
ghost use Rattle.tenant_core.specs.Limits.{max_tenants};
ghost use Rattle.tenant_core.specs.State.{opening_of};
ghost use Rattle.replay_text.specs.Recorded.{RecordsFor};
ghost use Rattle.subcommands.specs.Journalling.{AreStartsOf, HasKept, IsJournalOf, journalling};

use crate::ending::{Ending, JournalEnding};
use admin_text::Setup;
use book_journal::{CommitFault, Journal};
use book_log::{TenantStart, write_base};
use floor_core::Floor;
use ilp_addr::Moment;
use line_log::{Log, LogFile};
use log_folder::{DiskFile, LogFolder};
use oer_core::Device;
use replay_text::{
    NotRecorded, PeriodKeeper, RecordedFault, Recorder, ReplayFault, replay_recorded,
};
use std::alloc::{AllocError, Global};
use std::fs::{File, Files};
use std::io::{Read, Write};
use tenant_core::{Opening, Period, TenantSetup};

/// How many bytes the log of a replay has room for: more than the records of the longest script take.
const LOG_SIZE: usize = 67_108_864;

/// Keeps what a replay records in a journal, hands on the periods that are closed, and knows why the journal is not kept, if it
/// is not.
#[derive(Drop)]
pub struct Journalist<D: LogFile, K> {
    journal: Journal<D>,
    periods: K,
    fault: Option<CommitFault>,
}

impl<D: LogFile, K> Journalist<D, K> {
    /// Nothing is recorded yet in that journal.
    pub fn new(journal: Journal<D>, periods: K) -> Journalist<D, K>
        ensures journal { result.journal ≡ journal }
        ensures periods { result.periods ≡ periods }
    {
        Journalist {
            journal,
            periods,
            fault: None,
        }
    }

    /// The journal.
    pub fn journal(&self) -> &Journal<D>
        ensures { result.now ≡ self.now.journal }
    {
        &self.journal
    }

    /// Who was shown the periods.
    pub fn periods(&self) -> &K
        ensures { result.now ≡ self.now.periods }
    {
        &self.periods
    }
}

impl<D: LogFile + Drop, K: PeriodKeeper> PeriodKeeper for Journalist<D, K> {
    ghost use Rattle.subcommands.specs.Journalling.{TakesPeriod};

    ghost takes = { TakesPeriod K.takes };

    // If it is out of memory, the journal is spoilt, and the next commit fails.
    fn take(&mut self, period: &Period) {
        tenant_core::laws::period_is_kept(period);
        let _ = self.journal.note_closed(period);
        self.periods.take(period);
    }
}

impl<D: LogFile + Drop, K> Recorder for Journalist<D, K> {
    ghost use Rattle.subcommands.specs.Journalling.{KeepsBooks};

    ghost keeps = { KeepsBooks D.seen D.moment D.left_since };

    fn keep(&mut self, floor: &Floor) -> Result<(), NotRecorded> {
        match self.journal.keep(floor.books()) {
            Ok(()) => Ok(()),
            Err(fault) => {
                self.fault = Some(fault);
                Err(NotRecorded)
            }
        }
    }
}

/// Who keeps no periods.
#[derive(Drop)]
pub struct NoPeriods;

impl PeriodKeeper for NoPeriods {
    ghost takes = { λ _ _ _. Unit {0} };

    fn take(&mut self, _period: &Period) {}
}

// What the tenant of that number begins with.
fn start_of(
    alloc: Global,
    number: usize,
    tenant: &TenantSetup,
    start: Moment,
) -> Result<TenantStart, AllocError>
    ensures { IfOk result (λ s. s.opening ≡ opening_of number tenant.now start) }
{
    let opening = Opening::first(alloc, number, tenant, start)?;
    let admin = tenant.terms().admin.copy();
    Ok(TenantStart { opening, admin })
}

/// What each tenant of a setup begins with. Fails only if it is out of memory.
pub fn starts_of(alloc: Global, setup: &Setup) -> Result<Vec<TenantStart>, AllocError>
    ensures { IfOk result (λ starts. AreStartsOf setup.now starts.items) }
{
    let mut starts = Vec::new(alloc);
    for (number, tenant) in setup.tenants.as_slice().iter().enumerate() {
        starts.push(start_of(alloc, number, tenant, setup.start)?)?;
    }
    Ok(starts)
}

/// The log of a file of so many zeros. It has no records.
pub fn blank_log(file: DiskFile, size: usize) -> Log<DiskFile>
    requires zeros { IsOnDisk (replicate size 0) file }
    requires some { 0 < size }
    ensures records { recovered (disk_seen result.file) ≡ [] }
    ensures durable { Only (disk_seen result.file) (disk_may_leave result.file) }
{
    Log::blank(file, size)
}

/// Begins the journal of a replay for that setup in a folder that has none yet. The folder stays locked as long as the
/// journal is written.
pub fn begin_journal<R: Files<File = File>>(
    folder: &mut LogFolder<'_, R>,
    alloc: Global,
    setup: &Setup,
) -> Result<Journal<DiskFile>, JournalEnding>
    ensures { IfOk result (λ journal. IsJournalOf disk_seen disk_may_leave setup.now journal) }
{
    if folder.newest().is_some() {
        return Err(JournalEnding::Taken);
    }
    let starts = starts_of(alloc, setup)?;
    let (base, sum) = write_base(alloc, starts.as_slice())?;
    let file = folder.create(0, base.as_slice(), LOG_SIZE)?;
    let log = blank_log(file, LOG_SIZE);
    Ok(Journal::new(alloc, log, sum, starts.as_slice())?)
}

/// Replays the script that the reader has left, as `replay` does, and keeps each record in the journal before anything of its
/// step is printed.
pub fn replay_journalled<D: LogFile + Drop, K: PeriodKeeper, R: Read + Device, W: Write + Device>(
    alloc: Global,
    setup: &Setup,
    workers: usize,
    reader: &mut R,
    journalist: &mut Journalist<D, K>,
    writer: &mut W,
) -> Result<(), Ending>
    requires tenants { (1 ≤ length setup.now.tenants) × (length setup.now.tenants ≤ max_tenants) }
    requires workers { (1 ≤ workers) × (workers ≤ max_seats) }
    ensures recorded { OnOk result (IfSome (R.remaining reader.old) (λ script.
        RecordsFor (journalling D.seen D.moment D.left_since K.takes) setup.now workers script journalist.old journalist.new)) }
    // The log of a journal that was new has all that the script did.
    ensures kept { OnOk result (IfSome (R.remaining reader.old) (λ script. (starts : List Start) → AreStartsOf setup.now starts
        → IsNewJournal D.seen journalist.old.journal.sum starts journalist.old.journal
        → HasKept (journalling D.seen D.moment D.left_since K.takes) D.seen starts setup.now workers script journalist.old journalist.new)) }
    // Whenever a crash comes, it leaves the records that were there at first, and the first of those that the script made.
    ensures any_moment { OnOk result (IfSome (R.remaining reader.old) (λ script.
        Only (D.seen journalist.old.journal.log.file) (D.may_leave journalist.old.journal.log.file)
        → HasAdded D.seen D.moment D.left_since journalist.old.journal.log.file journalist.new.journal.log.file)) }
{
    journal_law::laws::kept_log_is_written::<D, Journalist<D, K>>();
    journal_law::laws::crashes_leave_the_first_records::<D, Journalist<D, K>>();
    journal_law::laws::scripts_fit();
    journal_law::laws::tenants_have_begun();
    match replay_recorded(alloc, setup, workers, reader, journalist, writer) {
        Ok(()) => Ok(()),
        Err(RecordedFault::Replay(fault)) => Err(Ending::Fault(fault)),
        Err(RecordedFault::NotRecorded) => match journalist.fault {
            Some(CommitFault::Memory) | None => Err(Ending::Fault(ReplayFault::Memory)),
            Some(fault) => Err(Ending::Journal(JournalEnding::Commit(fault))),
        },
    }
}
