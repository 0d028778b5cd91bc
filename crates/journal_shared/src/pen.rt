//! What a journal is written with.

ghost use Rattle.std.specs.Prelude.{◌≡◌, [], OnOk};
ghost use Rattle.journal_shared.specs.Kept.{IsWritten};
ghost use Rattle.journal_shared.specs.Progress.{HasNext, IsReady};

use book_journal::{CommitFault, LogWriter};
use book_log::LinePlace;
use line_log::LogFile;
use one_list::{Run, Watcher};
use std::alloc::Global;
use std::mem;

/// What a journal is written with. There is one, and nobody writes without it.
#[derive(Drop)]
pub(crate) struct Pen<D: LogFile, J: Run> {
    pub(crate) writer: LogWriter<D>,
    // It has met the books of which the lines are.
    pub(crate) watcher: Watcher<J>,
    // What is written next.
    pub(crate) lines: Vec<u8>,
    // For each tenant the place after the last record that is in the log.
    pub(crate) places: Vec<LinePlace>,
    // The same once what is written next is there.
    pub(crate) next: Vec<LinePlace>,
}

impl<D: LogFile + Drop, J: Run> Pen<D, J> {
    // A pen that writes nothing before these places.
    pub(crate) fn new(
        alloc: Global,
        writer: LogWriter<D>,
        watcher: Watcher<J>,
        places: Vec<LinePlace>,
    ) -> Pen<D, J>
        ensures writer { result.writer ≡ writer }
        ensures places { result.places ≡ places }
        ensures lines { result.lines.items ≡ [] }
    {
        Pen {
            writer,
            watcher,
            lines: Vec::new(alloc),
            places,
            next: Vec::new(alloc),
        }
    }

    // Writes what is written next, and syncs it. If there is nothing, nothing is asked of the log.
    fn write(&mut self) -> Result<(), CommitFault>
        ensures written { (next : HasNext D.seen D.may_leave J.openings self.old)
            → OnOk result (IsWritten D.seen D.may_leave J.openings self.new.writer next.after) }
        ensures lines { OnOk result (self.new.lines.items ≡ []) }
        ensures same { (self.new.places ≡ self.old.places) × (self.new.next ≡ self.old.next) × (self.new.watcher ≡ self.old.watcher) }
    {
        if self.lines.is_empty() {
            return Ok(());
        }
        self.writer.commit(&mut self.lines)
    }

    // The same, after which the pen's places are those after it.
    pub(crate) fn commit(&mut self) -> Result<(), CommitFault>
        requires next { HasNext D.seen D.may_leave J.openings self.old }
        ensures ready { OnOk result (IsReady D.seen D.may_leave J.openings self.new) }
    {
        self.write()?;
        mem::swap(&mut self.places, &mut self.next);
        Ok(())
    }

    // How many bytes of the log are left.
    pub(crate) fn left(&self) -> u64 {
        let log = self.writer.log();
        log.size().saturating_sub(log.end()) as u64
    }
}
