//! Replays whose records are kept before anything of them is printed.

ghost use Rattle.std.specs.Prelude.{◌≡◌, ◌≢◌, ◌≤◌, ◌<◌, ◌⊎◌, ◌↔◌, ◌+◌, ℕ, List, OnOk, IfErr, IfOk, IfSome, Ok, Err, length};
ghost use Rattle.std.specs.Io.KnownBytes.{Appends, Keeps};
ghost use Rattle.floor_core.specs.FloorView.{HasRoom, max_seats, world_of};
ghost use Rattle.floor_core.specs.World.{World};
ghost use Rattle.tenant_core.specs.Limits.{max_tenants};
ghost use Rattle.replay_text.specs.Recorded.{HasRecorded, PrintsOnceKept, PrintsOnceKeptFor, RecordsFor, by_recorder};
ghost use Rattle.replay_text.specs.Replay.{IsReadFault, IsReplayFault, IsReplayedFor, WritesLines};
ghost use Rattle.replay_text.specs.Script.{lines_of, steps_in, steps_of_script, NoneIsBad};
ghost use Rattle.replay_text.specs.Streams.{AppendsFront, ConsumesAtMost};

use crate::keeping::PeriodKeeper;
use crate::replays::{Cast, LONG, Refusal, ReplayFault, run_line};
use crate::script::{MAX_SCRIPT, ScriptFault, lines_checked};
use crate::streams::{StreamFault, read_rest, write_text};
use crate::words::first_line;
use admin_text::{Setup, SetupFault};
use common_types::ReadError;
use floor_core::Floor;
use oer_core::Device;
use std::alloc::Global;
use std::io::{Read, Write};
use thiserror::Error;

/// What the books got is not kept. Who records knows why.
#[derive(Clone, Copy, Debug, PartialEq, Eq, Error)]
#[error("not recorded")]
pub struct NotRecorded;

/// Who records what the books of tenants get. It is also shown each period that a roll closes.
pub trait Recorder {
    /// What keeping does: the recorder before, the world of the tenants, and the recorder after.
    ghost keeps: { Self → World → Self → Type 0 };

    /// Keeps what the books have got since they were kept last. Nothing of a step is printed before that.
    fn keep(&mut self, floor: &Floor) -> Result<(), NotRecorded>
        ensures { OnOk result (keeps self.old (world_of floor.now) self.new) };
}

/// Why a replay that is recorded ended early.
#[derive(Clone, Copy, Debug, PartialEq, Eq, Error)]
pub enum RecordedFault {
    #[error("{0}")]
    Replay(ReplayFault),
    /// What the books got is not kept.
    #[error("not recorded")]
    NotRecorded,
}

// Keeps what the books have got, and only then writes the text.
fn keep_and_write<K: Recorder, W: Write + Device>(
    floor: &Floor,
    recorder: &mut K,
    text: &[u8],
    writer: &mut W,
    before: u64,
) -> Result<(), RecordedFault>
    requires unfailed { W.failure_count writer.old ≤ before }
    ensures kept { OnOk result (K.keeps recorder.old (world_of floor.now) recorder.new) }
    ensures whole { OnOk result (Appends (W.contents writer.old) (W.contents writer.new) text.now) }
    ensures front { Keeps (W.contents writer.old) (W.contents writer.new)
        ⊎ (K.keeps recorder.old (world_of floor.now) recorder.new
        × AppendsFront text.now (W.contents writer.old) (W.contents writer.new)) }
    ensures device { (result ≡ Err (RecordedFault.Replay ReplayFault.Device)) ↔ (before < W.failure_count writer.new) }
    ensures good { (fault : ScriptFault) → result ≢ Err (RecordedFault.Replay (ReplayFault.Script fault)) }
    ensures set_up { (fault : SetupFault) → result ≢ Err (RecordedFault.Replay (ReplayFault.Setup fault)) }
{
    let Ok(()) = recorder.keep(floor) else {
        return Err(RecordedFault::NotRecorded);
    };
    match write_text(writer, text, before) {
        Ok(()) => Ok(()),
        Err(StreamFault::Device) => Err(RecordedFault::Replay(ReplayFault::Device)),
        Err(_) => Err(RecordedFault::Replay(ReplayFault::Memory)),
    }
}

// Does what the lines of a script say, all of which are good. The lines of the outputs are written whenever there are many,
// each time after what the books got was kept.
fn record_lines<K: PeriodKeeper + Recorder, W: Write + Device>(
    alloc: Global,
    floor: &mut Floor,
    cast: &Cast<'_>,
    script: &[u8],
    recorder: &mut K,
    writer: &mut W,
) -> Result<(), RecordedFault>
    requires good { NoneIsBad cast.now.names.now cast.now.workers (lines_of script.now) }
    requires workers { length floor.old.seats ≡ cast.now.workers }
    requires tenants { length floor.old.books ≡ length cast.now.names.now }
    requires room { HasRoom floor.old (length script.now) }
    ensures written { OnOk result (WritesLines cast.now.names.now (world_of floor.old)
        (steps_in cast.now.names.now cast.now.workers (lines_of script.now)) (W.contents writer.old) (W.contents writer.new)) }
    ensures recorded { OnOk result (HasRecorded (by_recorder K.takes K.keeps) (world_of floor.old)
        (steps_in cast.now.names.now cast.now.workers (lines_of script.now)) (world_of floor.new) recorder.old recorder.new) }
    ensures front { PrintsOnceKept (by_recorder K.takes K.keeps) cast.now.names.now (world_of floor.old)
        (steps_in cast.now.names.now cast.now.workers (lines_of script.now)) recorder.old
        (W.contents writer.old) (W.contents writer.new) }
    ensures device { (result ≡ Err (RecordedFault.Replay ReplayFault.Device))
        ↔ (W.failure_count writer.old < W.failure_count writer.new) }
    ensures good { (fault : ScriptFault) → result ≢ Err (RecordedFault.Replay (ReplayFault.Script fault)) }
    ensures set_up { (fault : SetupFault) → result ≢ Err (RecordedFault.Replay (ReplayFault.Setup fault)) }
{
    floor_core::laws::one_after_the_other();
    floor_core::laws::outputs_are_there();
    let before = writer.failures();
    let mut room = Vec::new(alloc);
    let mut text = Vec::new(alloc);
    let mut rest = script;
    while !rest.is_empty() {
        let (line, after) = first_line(rest);
        match run_line(alloc, floor, cast, line, &mut room, &mut text, recorder) {
            Ok(()) => {}
            Err(Refusal::Before | Refusal::Behind) => {
                return Err(RecordedFault::Replay(ReplayFault::Memory));
            }
            Err(Refusal::Bad) => unreachable!(),
        }
        if text.len() >= LONG {
            keep_and_write(floor, recorder, text.as_slice(), writer, before)?;
            text.clear();
        }
        rest = after;
    }
    keep_and_write(floor, recorder, text.as_slice(), writer, before)
}

// Reads a script to its end.
fn read_script<R: Read + Device>(alloc: Global, reader: &mut R) -> Result<Vec<u8>, StreamFault>
    ensures whole { IfOk result (λ script. IfSome (R.remaining reader.old) (λ bytes. script.items ≡ bytes)) }
    ensures short { IfOk result (λ script. length script.items ≤ MAX_SCRIPT) }
    ensures size { result ≡ Err StreamFault.Size
        → IfSome (R.remaining reader.old) (λ bytes. MAX_SCRIPT < length bytes) }
    ensures device { (result ≡ Err StreamFault.Device) ↔ (R.failure_count reader.old < R.failure_count reader.new) }
    ensures taken { ConsumesAtMost (MAX_SCRIPT + 1) (R.remaining reader.old) (R.remaining reader.new) }
{
    let before = reader.failures();
    let mut script = Vec::new(alloc);
    read_rest(reader, &mut script, MAX_SCRIPT + 1, before)?;
    Ok(script)
}

// The same, if no line of the script is bad.
fn good_script<R: Read + Device>(
    alloc: Global,
    cast: &Cast<'_>,
    reader: &mut R,
) -> Result<Vec<u8>, ReplayFault>
    ensures whole { IfOk result (λ script. IfSome (R.remaining reader.old) (λ bytes. script.items ≡ bytes)) }
    ensures good { IfOk result (λ script. NoneIsBad cast.now.names.now cast.now.workers (lines_of script.items)) }
    ensures steps { IfOk result (λ script. steps_of_script cast.now.names.now cast.now.workers script.items
        ≡ Ok (steps_in cast.now.names.now cast.now.workers (lines_of script.items))) }
    ensures short { IfOk result (λ script. length script.items ≤ MAX_SCRIPT) }
    ensures refused { IfErr result (λ fault.
        IsReadFault fault cast.now.names.now cast.now.workers (R.remaining reader.old)) }
    ensures device { (result ≡ Err ReplayFault.Device) ↔ (R.failure_count reader.old < R.failure_count reader.new) }
    ensures taken { ConsumesAtMost (MAX_SCRIPT + 1) (R.remaining reader.old) (R.remaining reader.new) }
{
    let script = match read_script(alloc, reader) {
        Ok(script) => script,
        Err(StreamFault::Memory) => return Err(ReplayFault::Memory),
        Err(StreamFault::Device) => return Err(ReplayFault::Device),
        Err(StreamFault::Size) => return Err(ReplayFault::Script(ScriptFault::Size)),
    };
    match lines_checked(alloc, cast.names, cast.workers, 1, script.as_slice()) {
        Ok(()) => Ok(script),
        Err(ReadError::Memory) => Err(ReplayFault::Memory),
        Err(ReadError::Fault(fault)) => Err(ReplayFault::Script(fault)),
    }
}

/// Replays the script that the reader has left for the tenants of a setup, as `replay` does, and has it recorded. Nothing
/// of a step is printed before the recorder has kept what the books got by it.
///
/// Errors are those of `replay`, in the same order, and `NotRecorded`, where the recorder can't keep something. Then the
/// replay ends, and what was printed is kept.
pub fn replay_recorded<K: PeriodKeeper + Recorder, R: Read + Device, W: Write + Device>(
    alloc: Global,
    setup: &Setup,
    workers: usize,
    reader: &mut R,
    recorder: &mut K,
    writer: &mut W,
) -> Result<(), RecordedFault>
    requires tenants { (1 ≤ length setup.now.tenants) × (length setup.now.tenants ≤ max_tenants) }
    requires workers { (1 ≤ workers) × (workers ≤ max_seats) }
    // What was written for each tenant are the lines of the one-tenant connector on the tenant's own steps alone.
    ensures written { OnOk result (IfSome (R.remaining reader.old) (λ script.
        (text : List ℕ) × IsReplayedFor setup.now workers script text
        × Appends (W.contents writer.old) (W.contents writer.new) text)) }
    // The recorder took each period that was closed, and kept at last all that the books got.
    ensures recorded { OnOk result (IfSome (R.remaining reader.old)
        (λ script. RecordsFor (by_recorder K.takes K.keeps) setup.now workers script recorder.old recorder.new)) }
    // Whatever the result, nothing was written but what was kept.
    ensures front { Keeps (W.contents writer.old) (W.contents writer.new)
        ⊎ IfSome (R.remaining reader.old) (λ script. PrintsOnceKeptFor (by_recorder K.takes K.keeps)
        setup.now workers script recorder.old (W.contents writer.old) (W.contents writer.new)) }
    ensures refused { (fault : ReplayFault) → result ≡ Err (RecordedFault.Replay fault)
        → IsReplayFault fault (Ok setup.now) workers (R.remaining reader.old) }
    ensures device { (result ≡ Err (RecordedFault.Replay ReplayFault.Device))
        ↔ ((R.failure_count reader.old < R.failure_count reader.new)
        ⊎ (W.failure_count writer.old < W.failure_count writer.new)) }
    ensures taken { ConsumesAtMost (MAX_SCRIPT + 1) (R.remaining reader.old) (R.remaining reader.new) }
{
    floor_core::laws::one_after_the_other();
    let Ok(names) = setup.names(alloc) else {
        return Err(RecordedFault::Replay(ReplayFault::Memory));
    };
    let cast = Cast {
        names: names.as_slice(),
        workers,
    };
    let script = match good_script(alloc, &cast, reader) {
        Ok(script) => script,
        Err(fault) => return Err(RecordedFault::Replay(fault)),
    };
    let tenants = setup.tenants.as_slice();
    let Ok(mut floor) = Floor::new(alloc, tenants, setup.start, workers) else {
        return Err(RecordedFault::Replay(ReplayFault::Memory));
    };
    record_lines(
        alloc,
        &mut floor,
        &cast,
        script.as_slice(),
        recorder,
        writer,
    )
}
