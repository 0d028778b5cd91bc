//! Replays of scripts.

ghost use Rattle.std.specs.Prelude.{◌≡◌, ◌≢◌, ◌≤◌, ◌<◌, ◌⊎◌, ◌↔◌, ◌+◌, ◌∷◌, [], ℕ, List, OnOk, IfOk, IfErr, IfSome, IsOk, IsTrue, None, Ok, Err, length};
ghost use Rattle.std.specs.Io.KnownBytes.{Appends, IsAtEnd};
ghost use Rattle.replay_text.specs.Replay.{HasLong, names_in, refusal_of, IsReadFault, IsReplayFault, Prints, WritesAll, LeavesWritten};
ghost use Rattle.replay_text.specs.Replay.{IsReplayedFor, LeavesWrittenFor, WritesDone, WritesLines, WritesSome, world_of_setup};
ghost use Rattle.admin_text.specs.Setup.{setup_of};
ghost use Rattle.floor_core.specs.FloorView.{Fits, HasRoom, max_seats, world_of};
ghost use Rattle.tenant_core.specs.Limits.{max_tenants};
ghost use Rattle.replay_text.specs.Script.{lines_of, steps_in, IsBad, NoneIsBad};
ghost use Rattle.replay_text.specs.SoFar.{HoldsOfAll, IsBegun, IsReadGood, IsReadWhole, RunsOn};
ghost use Rattle.replay_text.specs.Streams.{AppendsFront, ConsumesAtMost, WritesUpTo};
ghost use Rattle.replay_text.specs.Closed.{Closes, ClosesAll, TakesClosed, TakesClosedFor};

use crate::keeping::{LetGo, PeriodKeeper, hand_over};
use crate::script::{MAX_LINE, MAX_SCRIPT, Meaning, ScriptFault, lines_checked, meaning_of};
use crate::streams::{CHUNK, StreamFault, read_rest, read_some, write_text};
use crate::words::{ended_line, first_line};
use admin_text::{Setup, SetupFault, read_setup};
use common_types::{Name, ReadError};
use floor_core::{Floor, Step};
use oer_core::Device;
use output_text::put_told;
use std::alloc::{AllocError, Global};
use std::io::{Read, Write};
use std::mem;
use thiserror::Error;

/// How many bytes of lines are written as soon as there are so many.
pub(crate) const LONG: usize = 65_536;

/// As long as fewer bytes of lines than this are held, the lines of a script are run as they are read, and nothing is
/// written. So most scripts are read once. What is left of another is checked before the first byte is written, and then
/// read again.
const MOST_HELD: usize = 16_777_216;

/// So many bytes of a script may be there that are read and not run, while lines are run as they are read: those of a line
/// whose end is not read yet, and of one read more.
const MOST_READ: usize = MAX_LINE + CHUNK;

/// Room for the lines of any step: a frame of 34,000 bytes in digits, or 256 balances, and some words beside.
pub(crate) const STEP_ROOM: usize = 70_000;

/// How far a list of steps went.
#[derive(Clone, Copy, Debug, PartialEq, Eq)]
enum Course {
    /// All steps were done.
    Whole,
    /// Out of memory before a step: the steps before it were done.
    Cut,
}

/// Why a line was not run to its end.
#[derive(Clone, Copy, Debug, PartialEq, Eq)]
pub(crate) enum Refusal {
    /// Out of memory before its step: nothing of it has happened.
    Before,
    /// Out of memory after the step, for its lines.
    Behind,
    /// The line is not valid.
    Bad,
}

/// Why a replay ended early.
#[derive(Clone, Copy, Debug, PartialEq, Eq, Error)]
pub enum ReplayFault {
    /// Out of memory.
    #[error("out of memory")]
    Memory,
    #[error("{0}")]
    Setup(SetupFault),
    #[error("{0}")]
    Script(ScriptFault),
    /// A read or a write failed.
    #[error("device")]
    Device,
}

impl ReplayFault {
    ghost use Rattle.std.specs.Prelude.{◌≡◌};
    ghost use Rattle.replay_text.specs.Replay.{replay_status};

    /// The exit status of a program that a replay with this fault ends.
    pub fn status(self) -> u8
        ensures { result ≡ replay_status self }
    {
        match self {
            ReplayFault::Memory => 1,
            ReplayFault::Setup(_) => 3,
            ReplayFault::Script(_) => 4,
            ReplayFault::Device => 5,
        }
    }
}

/// Whom the lines of a script may name: the tenants, and so many workers.
#[derive(Clone, Copy)]
pub(crate) struct Cast<'a> {
    pub(crate) names: &'a [Name],
    pub(crate) workers: usize,
}

/// What lines of a script printed, and the number of the line after them. Rooms are used again: for the bytes of a frame,
/// and for what is left of the text that was read.
#[derive(Drop)]
struct Held {
    text: Vec<u8>,
    number: usize,
    frame: Vec<u8>,
    spare: Vec<u8>,
}

/// What is held of the front of a script, and what was read of the rest; how many bytes were read in all, and whether
/// these are the whole script.
#[derive(Drop)]
struct Front {
    held: Held,
    rest: Vec<u8>,
    taken: usize,
    ended: bool,
}

// Does a step, appends the lines of its output to a text, and hands the keeper the period that it closed.
fn run_step<K: PeriodKeeper>(
    alloc: Global,
    floor: &mut Floor,
    names: &[Name],
    step: &Step,
    text: &mut Vec<u8>,
    keeper: &mut K,
) -> Result<(), Refusal>
    requires fits { Fits floor.old step.now }
    requires room { HasRoom floor.old 1 }
    ensures printed { OnOk result (Prints names.now (step.now ∷ []) (world_of floor.old) (world_of floor.new)
        text.old.items text.new.items) }
    ensures undone { result ≡ Err Refusal.Before → floor.new ≡ floor.old }
    ensures unprinted { result ≡ Err Refusal.Before → text.new.items ≡ text.old.items }
    ensures lost { result ≡ Err Refusal.Behind → HasLong STEP_ROOM names.now (step.now ∷ []) (world_of floor.old) (world_of floor.new) }
    ensures good { result ≢ Err Refusal.Bad }
    ensures closed { OnOk result (Closes K.takes (step.now ∷ []) (world_of floor.old) (world_of floor.new) keeper.old keeper.new) }
    ensures workers { length floor.new.seats ≡ length floor.old.seats }
    ensures tenants { length floor.new.books ≡ length floor.old.books }
    ensures room { (n : ℕ) → HasRoom floor.old (1 + n) → HasRoom floor.new n }
{
    floor_core::laws::outputs_are_there();
    let Ok(()) = text.reserve(STEP_ROOM) else {
        return Err(Refusal::Before);
    };
    let Ok(told) = floor.step(alloc, step) else {
        return Err(Refusal::Before);
    };
    let Ok(()) = put_told(names, text, floor, &told) else {
        return Err(Refusal::Behind);
    };
    hand_over(&told, keeper);
    Ok(())
}

// Reads a line and does what it says, appends the lines of its output to a text, and hands the keeper the period that it
// closed.
pub(crate) fn run_line<K: PeriodKeeper>(
    alloc: Global,
    floor: &mut Floor,
    cast: &Cast<'_>,
    line: &[u8],
    room: &mut Vec<u8>,
    text: &mut Vec<u8>,
    keeper: &mut K,
) -> Result<(), Refusal>
    requires workers { length floor.old.seats ≡ cast.now.workers }
    requires tenants { length floor.old.books ≡ length cast.now.names.now }
    requires room { HasRoom floor.old 1 }
    ensures printed { OnOk result (Prints cast.now.names.now (steps_in cast.now.names.now cast.now.workers (line.now ∷ []))
        (world_of floor.old) (world_of floor.new) text.old.items text.new.items) }
    ensures undone { result ≡ Err Refusal.Before → floor.new ≡ floor.old }
    ensures unprinted { result ≡ Err Refusal.Before → text.new.items ≡ text.old.items }
    ensures lost { result ≡ Err Refusal.Behind
        → HasLong STEP_ROOM cast.now.names.now (steps_in cast.now.names.now cast.now.workers (line.now ∷ []))
        (world_of floor.old) (world_of floor.new) }
    ensures good { OnOk result (¬ (IsBad cast.now.names.now cast.now.workers line.now)) }
    ensures bad { result ≡ Err Refusal.Bad → IsBad cast.now.names.now cast.now.workers line.now }
    ensures kept { result ≡ Err Refusal.Bad
        → (floor.new ≡ floor.old) × (text.new.items ≡ text.old.items) × (keeper.new ≡ keeper.old) }
    ensures closed { OnOk result (Closes K.takes (steps_in cast.now.names.now cast.now.workers (line.now ∷ []))
        (world_of floor.old) (world_of floor.new) keeper.old keeper.new) }
    ensures workers { length floor.new.seats ≡ length floor.old.seats }
    ensures tenants { length floor.new.books ≡ length floor.old.books }
    ensures room { (n : ℕ) → HasRoom floor.old (1 + n) → HasRoom floor.new n }
{
    floor_core::laws::outputs_are_there();
    let Ok(meaning) = meaning_of(alloc, cast.names, cast.workers, line, room) else {
        return Err(Refusal::Before);
    };
    match meaning {
        Meaning::Skipped => Ok(()),
        Meaning::Runs(step) => run_step(alloc, floor, cast.names, &step, text, keeper),
        Meaning::Bad => Err(Refusal::Bad),
    }
}

// Does what the lines of a part of a script say that have an end in it, as long as their output has fewer bytes than
// `most`. Gives the rest of the part, and whether more of the script may be run: not if its next line is bad.
fn run_ended<'a, K: PeriodKeeper>(
    alloc: Global,
    floor: &mut Floor,
    cast: &Cast<'_>,
    most: usize,
    part: &'a [u8],
    held: &mut Held,
    keeper: &mut K,
) -> Result<(&'a [u8], bool), AllocError>
    requires workers { length floor.old.seats ≡ cast.now.workers }
    requires tenants { length floor.old.books ≡ length cast.now.names.now }
    requires room { HasRoom floor.old (length part.now) }
    requires numbered { held.old.number + length part.now ≤ MAX_SCRIPT + 2 }
    ensures run { IfOk result (λ r. RunsOn K.takes cast.now.names.now cast.now.workers part.now r.0.now
        held.old.number held.new.number floor.old floor.new held.old.text.items held.new.text.items keeper.old keeper.new) }
    ensures numbered { IfOk result (λ r. held.new.number + length r.0.now ≤ held.old.number + length part.now) }
{
    floor_core::laws::one_after_the_other();
    floor_core::laws::outputs_are_there();
    let mut rest = part;
    while held.text.len() < most {
        let Some((line, after)) = ended_line(rest) else {
            return Ok((rest, rest.len() <= MAX_LINE));
        };
        match run_line(
            alloc,
            floor,
            cast,
            line,
            &mut held.frame,
            &mut held.text,
            keeper,
        ) {
            Ok(()) => {}
            Err(Refusal::Bad) => return Ok((rest, false)),
            Err(Refusal::Before) | Err(Refusal::Behind) => return Err(AllocError),
        }
        rest = after;
        held.number += 1;
    }
    Ok((rest, false))
}

// The same of a part that is a text of its own, of which the rest is kept.
fn run_part<K: PeriodKeeper>(
    alloc: Global,
    floor: &mut Floor,
    cast: &Cast<'_>,
    most: usize,
    part: &mut Vec<u8>,
    held: &mut Held,
    keeper: &mut K,
) -> Result<bool, AllocError>
    requires workers { length floor.old.seats ≡ cast.now.workers }
    requires tenants { length floor.old.books ≡ length cast.now.names.now }
    requires room { HasRoom floor.old (length part.old.items) }
    requires numbered { held.old.number + length part.old.items ≤ MAX_SCRIPT + 2 }
    ensures run { OnOk result (RunsOn K.takes cast.now.names.now cast.now.workers part.old.items part.new.items
        held.old.number held.new.number floor.old floor.new held.old.text.items held.new.text.items keeper.old keeper.new) }
    ensures numbered { OnOk result (held.new.number + length part.new.items ≤ held.old.number + length part.old.items) }
{
    let (rest, goes_on) = run_ended(alloc, floor, cast, most, part.as_slice(), held, keeper)?;
    held.spare.clear();
    held.spare.extend_from_slice(rest)?;
    mem::swap(part, &mut held.spare);
    Ok(goes_on)
}

// No line was run. Room is taken for all output that may be held, of which only what is used costs memory.
fn none_held(alloc: Global, most: usize) -> Result<Held, AllocError>
    requires { most ≤ MOST_HELD }
    ensures text { IfOk result (λ held. held.text.items ≡ []) }
    ensures number { IfOk result (λ held. held.number ≡ 1) }
{
    Ok(Held {
        text: Vec::with_capacity(alloc, most + STEP_ROOM)?,
        number: 1,
        frame: Vec::new(alloc),
        spare: Vec::with_capacity(alloc, MOST_READ)?,
    })
}

// Reads a script and does what its lines say as they come, as long as their output has fewer bytes than `most`. Nothing is
// written. It ends before a line that is bad.
fn run_front<K: PeriodKeeper, R: Read + Device>(
    alloc: Global,
    floor: &mut Floor,
    cast: &Cast<'_>,
    most: usize,
    reader: &mut R,
    keeper: &mut K,
) -> Result<Front, StreamFault>
    requires workers { length floor.old.seats ≡ cast.now.workers }
    requires tenants { length floor.old.books ≡ length cast.now.names.now }
    requires room { HasRoom floor.old (MAX_SCRIPT + 1) }
    requires most { most ≤ MOST_HELD }
    ensures begun { IfOk result (λ front. IsBegun K.takes cast.now.names.now cast.now.workers
        (R.remaining reader.old) (R.remaining reader.new) front.taken front.held.number front.rest.items
        floor.old floor.new front.held.text.items keeper.old keeper.new) }
    ensures numbered { IfOk result (λ front. front.held.number + length front.rest.items ≤ front.taken + 1) }
    ensures bound { IfOk result (λ front. front.taken ≤ MAX_SCRIPT + 1) }
    ensures short { IfOk result (λ front. IsTrue front.ended → front.taken ≤ MAX_SCRIPT) }
    ensures end { IfOk result (λ front. IsTrue front.ended → IsAtEnd (R.remaining reader.new)) }
    ensures size { result ≢ Err StreamFault.Size }
    ensures device { (result ≡ Err StreamFault.Device) ↔ (R.failure_count reader.old < R.failure_count reader.new) }
    ensures taken { ConsumesAtMost (MAX_SCRIPT + 1) (R.remaining reader.old) (R.remaining reader.new) }
{
    floor_core::laws::one_after_the_other();
    floor_core::laws::outputs_are_there();
    let before = reader.failures();
    let Ok(mut held) = none_held(alloc, most) else {
        return Err(StreamFault::Memory);
    };
    let Ok(mut rest) = Vec::with_capacity(alloc, MOST_READ) else {
        return Err(StreamFault::Memory);
    };
    let mut taken: usize = 0;
    let mut chunk = [0u8; CHUNK];
    let mut goes_on = most > 0;
    while goes_on && taken <= MAX_SCRIPT {
        let left = MAX_SCRIPT + 1 - taken;
        let read = read_some(reader, &mut chunk, &mut rest, left, before)?;
        if read == 0 {
            return Ok(Front {
                held,
                rest,
                taken,
                ended: true,
            });
        }
        taken += read;
        let Ok(more) = run_part(alloc, floor, cast, most, &mut rest, &mut held, keeper) else {
            return Err(StreamFault::Memory);
        };
        goes_on = more;
    }
    Ok(Front {
        held,
        rest,
        taken,
        ended: false,
    })
}

// The same, and then all that is left of the script is read.
fn whole_front<K: PeriodKeeper, R: Read + Device>(
    alloc: Global,
    floor: &mut Floor,
    cast: &Cast<'_>,
    most: usize,
    reader: &mut R,
    keeper: &mut K,
) -> Result<Front, StreamFault>
    requires workers { length floor.old.seats ≡ cast.now.workers }
    requires tenants { length floor.old.books ≡ length cast.now.names.now }
    requires room { HasRoom floor.old (MAX_SCRIPT + 1) }
    requires most { most ≤ MOST_HELD }
    ensures whole { IfOk result (λ front. IsReadWhole K.takes cast.now.names.now cast.now.workers
        (R.remaining reader.old) front.held.number front.rest.items floor.old floor.new front.held.text.items keeper.old keeper.new) }
    ensures numbered { IfOk result (λ front. front.held.number + length front.rest.items ≤ MAX_SCRIPT + 1) }
    ensures size { result ≡ Err StreamFault.Size
        → IfSome (R.remaining reader.old) (λ bytes. MAX_SCRIPT < length bytes) }
    ensures device { (result ≡ Err StreamFault.Device) ↔ (R.failure_count reader.old < R.failure_count reader.new) }
    ensures taken { ConsumesAtMost (MAX_SCRIPT + 1) (R.remaining reader.old) (R.remaining reader.new) }
{
    let before = reader.failures();
    let mut front = run_front(alloc, floor, cast, most, reader, keeper)?;
    if front.ended {
        return Ok(front);
    }
    read_rest(
        reader,
        &mut front.rest,
        MAX_SCRIPT + 1 - front.taken,
        before,
    )?;
    Ok(front)
}

// Reads a script, runs its front, and checks what is left of it.
fn good_front<K: PeriodKeeper, R: Read + Device>(
    alloc: Global,
    floor: &mut Floor,
    cast: &Cast<'_>,
    most: usize,
    reader: &mut R,
    keeper: &mut K,
) -> Result<Front, ReplayFault>
    requires workers { length floor.old.seats ≡ cast.now.workers }
    requires tenants { length floor.old.books ≡ length cast.now.names.now }
    requires room { HasRoom floor.old (MAX_SCRIPT + 1) }
    requires most { most ≤ MOST_HELD }
    ensures good { IfOk result (λ front. IsReadGood K.takes cast.now.names.now cast.now.workers
        (R.remaining reader.old) front.rest.items floor.old floor.new front.held.text.items keeper.old keeper.new) }
    ensures refused { IfErr result (λ fault.
        IsReadFault fault cast.now.names.now cast.now.workers (R.remaining reader.old)) }
    ensures device { (result ≡ Err ReplayFault.Device) ↔ (R.failure_count reader.old < R.failure_count reader.new) }
    ensures taken { ConsumesAtMost (MAX_SCRIPT + 1) (R.remaining reader.old) (R.remaining reader.new) }
{
    let front = match whole_front(alloc, floor, cast, most, reader, keeper) {
        Ok(front) => front,
        Err(StreamFault::Memory) => return Err(ReplayFault::Memory),
        Err(StreamFault::Device) => return Err(ReplayFault::Device),
        Err(StreamFault::Size) => return Err(ReplayFault::Script(ScriptFault::Size)),
    };
    match lines_checked(
        alloc,
        cast.names,
        cast.workers,
        front.held.number,
        front.rest.as_slice(),
    ) {
        Ok(()) => Ok(front),
        Err(ReadError::Memory) => Err(ReplayFault::Memory),
        Err(ReadError::Fault(fault)) => Err(ReplayFault::Script(fault)),
    }
}

// Writes the text and empties it, if it is long.
fn write_if_long<W: Write + Device>(
    writer: &mut W,
    text: &mut Vec<u8>,
    before: u64,
) -> Result<(), StreamFault>
    requires unfailed { W.failure_count writer.old ≤ before }
    ensures written { OnOk result (WritesUpTo text.old.items text.new.items
        (W.contents writer.old) (W.contents writer.new)) }
    ensures front { AppendsFront text.old.items (W.contents writer.old) (W.contents writer.new) }
    ensures short { OnOk result (length text.new.items < LONG) }
    ensures size { result ≢ Err StreamFault.Size }
    ensures device { (result ≡ Err StreamFault.Device) ↔ (before < W.failure_count writer.new) }
{
    if text.len() < LONG {
        return Ok(());
    }
    write_text(writer, text.as_slice(), before)?;
    text.clear();
    Ok(())
}

// Does what the lines of a script say, all of which are good, and writes a text and the lines of the outputs after it
// whenever there are many. If it runs out of memory, the lines of the steps that were done are written. The keeper gets
// the periods that the steps close.
fn run_lines<K: PeriodKeeper, W: Write + Device>(
    alloc: Global,
    floor: &mut Floor,
    cast: &Cast<'_>,
    script: &[u8],
    text: &mut Vec<u8>,
    keeper: &mut K,
    writer: &mut W,
) -> Result<Course, StreamFault>
    requires good { NoneIsBad cast.now.names.now cast.now.workers (lines_of script.now) }
    requires workers { length floor.old.seats ≡ cast.now.workers }
    requires tenants { length floor.old.books ≡ length cast.now.names.now }
    requires room { HasRoom floor.old (length script.now) }
    ensures written { result ≡ Ok Course.Whole → HoldsOfAll cast.now.names.now (world_of floor.old)
        (steps_in cast.now.names.now cast.now.workers (lines_of script.now)) text.old.items
        (λ world steps. WritesLines cast.now.names.now world steps (W.contents writer.old) (W.contents writer.new)) }
    ensures closed { result ≡ Ok Course.Whole
        → ClosesAll K.takes (steps_in cast.now.names.now cast.now.workers (lines_of script.now)) (world_of floor.old) keeper.old keeper.new }
    ensures done { result ≡ Ok Course.Cut → HoldsOfAll cast.now.names.now (world_of floor.old)
        (steps_in cast.now.names.now cast.now.workers (lines_of script.now)) text.old.items
        (λ world steps. WritesDone cast.now.names.now world steps (world_of floor.new) (W.contents writer.old) (W.contents writer.new)) }
    ensures front { HoldsOfAll cast.now.names.now (world_of floor.old)
        (steps_in cast.now.names.now cast.now.workers (lines_of script.now)) text.old.items
        (λ world steps. WritesSome cast.now.names.now world steps (W.contents writer.old) (W.contents writer.new)) }
    ensures size { result ≢ Err StreamFault.Size }
    ensures device { (result ≡ Err StreamFault.Device) ↔ (W.failure_count writer.old < W.failure_count writer.new) }
{
    floor_core::laws::one_after_the_other();
    floor_core::laws::outputs_are_there();
    let before = writer.failures();
    let mut room = Vec::new(alloc);
    let mut rest = script;
    while !rest.is_empty() {
        let (line, after) = first_line(rest);
        match run_line(alloc, floor, cast, line, &mut room, text, keeper) {
            Ok(()) => {}
            Err(Refusal::Before) => {
                write_text(writer, text.as_slice(), before)?;
                return Ok(Course::Cut);
            }
            Err(Refusal::Behind) => return Err(StreamFault::Memory),
            Err(Refusal::Bad) => unreachable!(),
        }
        write_if_long(writer, text, before)?;
        rest = after;
    }
    write_text(writer, text.as_slice(), before)?;
    Ok(Course::Whole)
}

// Replays the script that the reader has left for the tenants of a setup, who begin anew. Nothing is written before the
// whole script is known to be good.
fn run_script<K: PeriodKeeper, R: Read + Device, W: Write + Device>(
    alloc: Global,
    setup: &Setup,
    cast: &Cast<'_>,
    most: usize,
    reader: &mut R,
    keeper: &mut K,
    writer: &mut W,
) -> Result<(), ReplayFault>
    requires tenants { (1 ≤ length setup.now.tenants) × (length setup.now.tenants ≤ max_tenants) }
    requires workers { (1 ≤ cast.now.workers) × (cast.now.workers ≤ max_seats) }
    requires names { cast.now.names.now ≡ names_in setup.now }
    requires most { most ≤ MOST_HELD }
    ensures written { OnOk result (IfSome (R.remaining reader.old) (λ script.
        (text : List ℕ) × IsReplayedFor setup.now cast.now.workers script text
        × Appends (W.contents writer.old) (W.contents writer.new) text)) }
    ensures closed { OnOk result (IfSome (R.remaining reader.old)
        (λ script. TakesClosedFor K.takes setup.now cast.now.workers script keeper.old keeper.new)) }
    ensures refused { IfErr result (λ fault. IsReplayFault fault (Ok setup.now) cast.now.workers (R.remaining reader.old)) }
    ensures left { IfErr result (λ fault. LeavesWrittenFor fault setup.now cast.now.workers (R.remaining reader.old)
        (W.contents writer.old) (W.contents writer.new)) }
    ensures device { (result ≡ Err ReplayFault.Device)
        ↔ ((R.failure_count reader.old < R.failure_count reader.new)
        ⊎ (W.failure_count writer.old < W.failure_count writer.new)) }
    ensures script_order { result ≡ Err ReplayFault.Device
        → R.failure_count reader.new ≤ R.failure_count reader.old
        → IfSome (R.remaining reader.old) (λ script. refusal_of (Ok setup.now) cast.now.workers script ≡ None) }
    ensures taken { ConsumesAtMost (MAX_SCRIPT + 1) (R.remaining reader.old) (R.remaining reader.new) }
{
    floor_core::laws::one_after_the_other();
    let tenants = setup.tenants.as_slice();
    let Ok(mut floor) = Floor::new(alloc, tenants, setup.start, cast.workers) else {
        return Err(ReplayFault::Memory);
    };
    let Front { mut held, rest, .. } = match good_front(
        alloc, &mut floor, cast, most, reader, keeper,
    ) {
        Ok(front) => front,
        Err(fault) => return Err(fault),
    };
    match run_lines(
        alloc,
        &mut floor,
        cast,
        rest.as_slice(),
        &mut held.text,
        keeper,
        writer,
    ) {
        Ok(Course::Whole) => Ok(()),
        Err(StreamFault::Device) => Err(ReplayFault::Device),
        Ok(Course::Cut) | Err(_) => Err(ReplayFault::Memory),
    }
}

// The same, with the names of the setup's tenants.
fn replay_for<K: PeriodKeeper, R: Read + Device, W: Write + Device>(
    alloc: Global,
    setup: &Setup,
    workers: usize,
    most: usize,
    reader: &mut R,
    keeper: &mut K,
    writer: &mut W,
) -> Result<(), ReplayFault>
    requires tenants { (1 ≤ length setup.now.tenants) × (length setup.now.tenants ≤ max_tenants) }
    requires workers { (1 ≤ workers) × (workers ≤ max_seats) }
    requires most { most ≤ MOST_HELD }
    ensures written { OnOk result (IfSome (R.remaining reader.old) (λ script.
        (text : List ℕ) × IsReplayedFor setup.now workers script text
        × Appends (W.contents writer.old) (W.contents writer.new) text)) }
    ensures closed { OnOk result (IfSome (R.remaining reader.old)
        (λ script. TakesClosedFor K.takes setup.now workers script keeper.old keeper.new)) }
    ensures refused { IfErr result (λ fault. IsReplayFault fault (Ok setup.now) workers (R.remaining reader.old)) }
    ensures left { IfErr result (λ fault. LeavesWrittenFor fault setup.now workers (R.remaining reader.old)
        (W.contents writer.old) (W.contents writer.new)) }
    ensures device { (result ≡ Err ReplayFault.Device)
        ↔ ((R.failure_count reader.old < R.failure_count reader.new)
        ⊎ (W.failure_count writer.old < W.failure_count writer.new)) }
    ensures script_order { result ≡ Err ReplayFault.Device
        → R.failure_count reader.new ≤ R.failure_count reader.old
        → IfSome (R.remaining reader.old) (λ script. refusal_of (Ok setup.now) workers script ≡ None) }
    ensures taken { ConsumesAtMost (MAX_SCRIPT + 1) (R.remaining reader.old) (R.remaining reader.new) }
{
    let Ok(names) = setup.names(alloc) else {
        return Err(ReplayFault::Memory);
    };
    let cast = Cast {
        names: names.as_slice(),
        workers,
    };
    run_script(alloc, setup, &cast, most, reader, keeper, writer)
}

// The same as `replay_keeping`, but that the keeper may see periods of a script that turns out bad, as long as fewer bytes
// than `most` of its lines are held.
fn replay_holding<K: PeriodKeeper, R: Read + Device, W: Write + Device>(
    alloc: Global,
    setup: &[u8],
    workers: usize,
    most: usize,
    reader: &mut R,
    keeper: &mut K,
    writer: &mut W,
) -> Result<(), ReplayFault>
    requires workers { (1 ≤ workers) × (workers ≤ max_seats) }
    requires most { most ≤ MOST_HELD }
    // What was written for each tenant are the lines of the one-tenant connector on the tenant's own steps alone.
    ensures written { OnOk result (IfSome (R.remaining reader.old)
        (λ script. WritesAll setup.now workers script (W.contents writer.old) (W.contents writer.new))) }
    // The keeper took just the periods that the steps closed.
    ensures closed { OnOk result (IfSome (R.remaining reader.old)
        (λ script. TakesClosed K.takes setup.now workers script keeper.old keeper.new)) }
    // Which fault it is, and what it leaves.
    ensures refused { IfErr result (λ fault. IsReplayFault fault (setup_of setup.now) workers (R.remaining reader.old)) }
    ensures left { IfErr result (λ fault.
        LeavesWritten fault setup.now workers (R.remaining reader.old) (W.contents writer.old) (W.contents writer.new)) }
    ensures device { (result ≡ Err ReplayFault.Device)
        ↔ ((R.failure_count reader.old < R.failure_count reader.new)
        ⊎ (W.failure_count writer.old < W.failure_count writer.new)) }
    // The setup is looked at before the devices, and the script before the writer.
    ensures order { result ≡ Err ReplayFault.Device → IsOk (setup_of setup.now) }
    ensures script_order { result ≡ Err ReplayFault.Device
        → R.failure_count reader.new ≤ R.failure_count reader.old
        → IfSome (R.remaining reader.old) (λ script. refusal_of (setup_of setup.now) workers script ≡ None) }
    ensures taken { ConsumesAtMost (MAX_SCRIPT + 1) (R.remaining reader.old) (R.remaining reader.new) }
{
    admin_text::laws::setups();
    floor_core::laws::frames_that_go_on();
    match read_setup(alloc, setup) {
        Ok(setup) => replay_for(alloc, &setup, workers, most, reader, keeper, writer),
        Err(ReadError::Memory) => Err(ReplayFault::Memory),
        Err(ReadError::Fault(fault)) => Err(ReplayFault::Setup(fault)),
    }
}

/// Replays the script that the reader has left, as `replay` does, and shows the keeper each period that a roll of the
/// script closes.
///
/// The keeper sees the periods in the order of the script's steps, each once, before the next step. No period is
/// copied. If the replay ends early, it has seen those of some first steps.
pub fn replay_keeping<K: PeriodKeeper, R: Read + Device, W: Write + Device>(
    alloc: Global,
    setup: &[u8],
    workers: usize,
    reader: &mut R,
    keeper: &mut K,
    writer: &mut W,
) -> Result<(), ReplayFault>
    requires { (1 ≤ workers) × (workers ≤ max_seats) }
    // What was written for each tenant are the lines of the one-tenant connector on the tenant's own steps alone.
    ensures written { OnOk result (IfSome (R.remaining reader.old)
        (λ script. WritesAll setup.now workers script (W.contents writer.old) (W.contents writer.new))) }
    // The keeper took just the periods that the steps closed.
    ensures closed { OnOk result (IfSome (R.remaining reader.old)
        (λ script. TakesClosed K.takes setup.now workers script keeper.old keeper.new)) }
    // Which fault it is, and what it leaves.
    ensures refused { IfErr result (λ fault. IsReplayFault fault (setup_of setup.now) workers (R.remaining reader.old)) }
    ensures left { IfErr result (λ fault.
        LeavesWritten fault setup.now workers (R.remaining reader.old) (W.contents writer.old) (W.contents writer.new)) }
    ensures device { (result ≡ Err ReplayFault.Device)
        ↔ ((R.failure_count reader.old < R.failure_count reader.new)
        ⊎ (W.failure_count writer.old < W.failure_count writer.new)) }
    // The setup is looked at before the devices, and the script before the writer.
    ensures order { result ≡ Err ReplayFault.Device → IsOk (setup_of setup.now) }
    ensures script_order { result ≡ Err ReplayFault.Device
        → R.failure_count reader.new ≤ R.failure_count reader.old
        → IfSome (R.remaining reader.old) (λ script. refusal_of (setup_of setup.now) workers script ≡ None) }
    ensures taken { ConsumesAtMost (MAX_SCRIPT + 1) (R.remaining reader.old) (R.remaining reader.new) }
{
    replay_holding(alloc, setup, workers, 0, reader, keeper, writer)
}

/// Replays the script that the reader has left, for the setup, and writes a line or more for each of its steps.
///
/// `setup` has the bytes of a setup, and `workers` is from 1 to 64. The whole script is read before anything is written.
/// At most 16,777,217 bytes are taken from the reader.
///
/// Errors, in the order of the tests: a fault of the setup, a read that failed, a script that is too long, its first
/// bad line. Nothing was written then. Memory may run out at any point, and a write may fail: then a part of the text
/// from its start on was written, or nothing. `Device` comes exactly if one of the two devices failed in this call.
/// What failed is not tried again.
pub fn replay<R: Read + Device, W: Write + Device>(
    alloc: Global,
    setup: &[u8],
    workers: usize,
    reader: &mut R,
    writer: &mut W,
) -> Result<(), ReplayFault>
    requires { (1 ≤ workers) × (workers ≤ max_seats) }
    // What was written for each tenant are the lines of the one-tenant connector on the tenant's own steps alone.
    ensures written { OnOk result (IfSome (R.remaining reader.old)
        (λ script. WritesAll setup.now workers script (W.contents writer.old) (W.contents writer.new))) }
    // Which fault it is, and what it leaves.
    ensures refused { IfErr result (λ fault. IsReplayFault fault (setup_of setup.now) workers (R.remaining reader.old)) }
    ensures left { IfErr result (λ fault.
        LeavesWritten fault setup.now workers (R.remaining reader.old) (W.contents writer.old) (W.contents writer.new)) }
    ensures device { (result ≡ Err ReplayFault.Device)
        ↔ ((R.failure_count reader.old < R.failure_count reader.new)
        ⊎ (W.failure_count writer.old < W.failure_count writer.new)) }
    // The setup is looked at before the devices, and the script before the writer.
    ensures order { result ≡ Err ReplayFault.Device → IsOk (setup_of setup.now) }
    ensures script_order { result ≡ Err ReplayFault.Device
        → R.failure_count reader.new ≤ R.failure_count reader.old
        → IfSome (R.remaining reader.old) (λ script. refusal_of (setup_of setup.now) workers script ≡ None) }
    ensures taken { ConsumesAtMost (MAX_SCRIPT + 1) (R.remaining reader.old) (R.remaining reader.new) }
{
    replay_holding(alloc, setup, workers, MOST_HELD, reader, &mut LetGo, writer)
}
