//! The statements of the periods that a replay closes.

ghost use Rattle.std.specs.Prelude.{◌≡◌, ◌≤◌, IfSome, OnOk};
ghost use Rattle.floor_core.specs.FloorView.{max_seats};
ghost use Rattle.subcommands.specs.Filing.{KeepsClosed};

use crate::ending::Ending;
use oer_core::Device;
use replay_text::{PeriodKeeper, ReplayFault, replay_keeping};
use service::{StatementStore, file};
use std::alloc::Global;
use std::io::{Read, Write};
use tenant_core::Period;

/// Keeps the statement of each period that it takes, and knows whether all are kept.
#[derive(Drop)]
pub struct Filer<S> {
    alloc: Global,
    store: S,
    are_kept: bool,
}

impl<S> Filer<S> {
    ghost use Rattle.std.specs.Prelude.{◌≡◌, true, OnOk};

    /// No statements yet, with that store.
    pub fn new(alloc: Global, store: S) -> Filer<S>
        ensures kept { result.are_kept ≡ true }
        ensures store { result.store ≡ store }
    {
        Filer {
            alloc,
            store,
            are_kept: true,
        }
    }

    /// How a replay ends that has kept statements: `Device` if one of them is not kept.
    pub fn ended(&self) -> Result<(), Ending>
        ensures { OnOk result (self.now.are_kept ≡ true) }
    {
        if self.are_kept {
            Ok(())
        } else {
            Err(Ending::Fault(ReplayFault::Device))
        }
    }
}

impl<S: StatementStore> PeriodKeeper for Filer<S> {
    ghost use Rattle.subcommands.specs.Filing.{Files};

    ghost takes = { Files S.tells S.keeps };

    fn take(&mut self, period: &Period) {
        let is_kept = file(self.alloc, &mut self.store, period);
        self.are_kept = self.are_kept && is_kept;
    }
}

/// Replays the script that the reader has left, as `replay` does, and keeps the statement of each period that a
/// roll of it closes. All steps are done first. Then it returns `Device` if a statement is not kept.
pub fn replay_filing<S: StatementStore, R: Read + Device, W: Write + Device>(
    alloc: Global,
    setup: &[u8],
    workers: usize,
    reader: &mut R,
    filer: &mut Filer<S>,
    writer: &mut W,
) -> Result<(), ReplayFault>
    requires workers { (1 ≤ workers) × (workers ≤ max_seats) }
    ensures filed { OnOk result (IfSome (R.remaining reader.old)
        (λ script. KeepsClosed S.tells S.keeps setup.now workers script filer.old.store filer.new.store)) }
{
    replay_keeping(alloc, setup, workers, reader, filer, writer)?;
    if filer.are_kept {
        Ok(())
    } else {
        Err(ReplayFault::Device)
    }
}
