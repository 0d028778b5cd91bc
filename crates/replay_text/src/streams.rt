//! Texts that are read in pieces or to their end, and texts that are written whole.

ghost use Rattle.std.specs.Prelude.{◌≡◌, ◌≢◌, ◌+◌, ◌^◌, ◌<◌, ◌≤◌, ℕ, List, take, length, Ok, Err, Some, OnOk, IfOk};
ghost use Rattle.std.specs.Prelude.{◌↔◌};
ghost use Rattle.std.specs.Io.KnownBytes.{Keeps, Appends, Consumes, IsAtEnd};
ghost use Rattle.replay_text.specs.Streams.{AppendsFront, TakesBehind};

use oer_core::Device;
use std::io::{Read, Write};

/// So many bytes are read at once.
pub(crate) const CHUNK: usize = 65_536;

/// Why a text was not read or written whole.
#[derive(Clone, Copy, Debug, PartialEq, Eq)]
pub enum StreamFault {
    /// The device failed.
    Device,
    /// Out of memory.
    Memory,
    /// The text goes on past the most bytes that it may have.
    Size,
}

// Reads once, and appends the bytes to the text, at most so many. At 0 the reader is at its end. Before the text was
// begun, it had failed `before` times at most. It has not failed since.
pub(crate) fn read_some<R: Read + Device>(
    reader: &mut R,
    chunk: &mut [u8],
    text: &mut Vec<u8>,
    most: usize,
    before: u64,
) -> Result<usize, StreamFault>
    requires some { 0 < length chunk.old }
    requires most { 0 < most }
    requires unfailed { R.failure_count reader.old ≤ before }
    ensures taken { TakesBehind (R.remaining reader.old) (R.remaining reader.new) text.old.items text.new.items }
    ensures bound { length text.new.items ≤ length text.old.items + most }
    ensures count { IfOk result (λ n. length text.new.items ≡ length text.old.items + n) }
    ensures end { IfOk result (λ n. n ≡ 0 → IsAtEnd (R.remaining reader.new)) }
    ensures size { result ≢ Err StreamFault.Size }
    ensures device { (result ≡ Err StreamFault.Device) ↔ (before < R.failure_count reader.new) }
{
    let room = most.min(chunk.len());
    if text.reserve(room).is_err() {
        return Err(StreamFault::Memory);
    }
    let part = &mut chunk[..room];
    let read = reader.read(part);
    if let Ok(n) = &read {
        let _ = text.extend_from_slice(&part[..*n]);
    }
    if reader.failures() > before {
        return Err(StreamFault::Device);
    }
    match read {
        Ok(n) => Ok(n),
        Err(_) => Err(StreamFault::Memory),
    }
}

/// Appends to the text all that the reader has left, if that is less than so many bytes. No more than these are taken
/// from it. A read that failed ends the reading. Room is taken for all of them at once, of which only what is used costs
/// memory. Before the call, the reader had failed `before` times at most.
pub fn read_rest<R: Read + Device>(
    reader: &mut R,
    text: &mut Vec<u8>,
    most: usize,
    before: u64,
) -> Result<(), StreamFault>
    requires small { length text.old.items + most < 2 ^ 62 }
    requires unfailed { R.failure_count reader.old ≤ before }
    ensures taken { TakesBehind (R.remaining reader.old) (R.remaining reader.new) text.old.items text.new.items }
    ensures whole { OnOk result (IsAtEnd (R.remaining reader.new)) }
    ensures short { OnOk result (length text.new.items < length text.old.items + most) }
    ensures bound { length text.new.items ≤ length text.old.items + most }
    ensures size { result ≡ Err StreamFault.Size → length text.new.items ≡ length text.old.items + most }
    ensures device { (result ≡ Err StreamFault.Device) ↔ (before < R.failure_count reader.new) }
{
    let end = text.len() + most;
    if text.reserve(most).is_err() {
        return Err(StreamFault::Memory);
    }
    let mut chunk = [0u8; CHUNK];
    while text.len() < end {
        if read_some(reader, &mut chunk, text, end - text.len(), before)? == 0 {
            return Ok(());
        }
    }
    Err(StreamFault::Size)
}

// Writes once, and gives how many bytes of the text were taken. Before the text was begun, the writer had failed that
// often, and it has not failed since.
fn write_some<W: Write + Device>(
    writer: &mut W,
    text: &[u8],
    before: u64,
) -> Result<usize, StreamFault>
    requires unfailed { W.failure_count writer.old ≤ before }
    ensures some { IfOk result (λ n. (0 < n) × (n ≤ length text.now)) }
    ensures taken { IfOk result (λ n. Appends (W.contents writer.old) (W.contents writer.new) (take n text.now)) }
    ensures front { AppendsFront text.now (W.contents writer.old) (W.contents writer.new) }
    ensures size { result ≢ Err StreamFault.Size }
    ensures device { (result ≡ Err StreamFault.Device) ↔ (before < W.failure_count writer.new) }
{
    let written = writer.write(text);
    if writer.failures() > before {
        return Err(StreamFault::Device);
    }
    match written {
        Ok(n) if n > 0 => Ok(n),
        _ => Err(StreamFault::Memory),
    }
}

/// Writes the text: all of it if no fault comes, otherwise a part from its start on. A write that failed ends the
/// writing. Before the call, the writer had failed `before` times at most.
pub fn write_text<W: Write + Device>(
    writer: &mut W,
    text: &[u8],
    before: u64,
) -> Result<(), StreamFault>
    requires unfailed { W.failure_count writer.old ≤ before }
    ensures whole { OnOk result (Appends (W.contents writer.old) (W.contents writer.new) text.now) }
    ensures front { AppendsFront text.now (W.contents writer.old) (W.contents writer.new) }
    ensures size { result ≢ Err StreamFault.Size }
    ensures device { (result ≡ Err StreamFault.Device) ↔ (before < W.failure_count writer.new) }
{
    let mut done = 0;
    while done < text.len() {
        let (_, rest) = text.split_at(done);
        done += write_some(writer, rest, before)?;
    }
    Ok(())
}
