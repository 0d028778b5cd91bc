//! Reads, and texts that are written.

ghost use Rattle.std.specs.Prelude.{◌≡◌, ◌≢◌, ◌↔◌, ◌<◌, ◌≤◌, ◌++◌, length, take, Some, Ok, Err, IfOk, OnOk};
ghost use Rattle.std.specs.Io.KnownBytes.{Appends};
ghost use Rattle.http_link.specs.Counts.{MadeMore, NoFewer};
ghost use Rattle.http_link.specs.Telling.{TellsReads, TellsWrites};
ghost use Rattle.http_link.specs.Streams.{AppendsFront, ReadsBehind};

use crate::devices::{Sink, Source};
use thiserror::Error;

/// The most reads for one request or one answer, and the most writes for one text.
pub const MAX_READS: u32 = 50_000;

/// Why a connection ended without an answer.
#[derive(Clone, Copy, Debug, PartialEq, Eq, Error)]
pub enum LinkFault {
    /// A read failed.
    #[error("a read failed")]
    Read,
    /// A write failed.
    #[error("a write failed")]
    Write,
    /// 50,000 reads or writes did not suffice.
    #[error("too many reads or writes")]
    Turns,
}

/// Reads once into a place of the buffer, and gives how many bytes came, or nothing after an error that the device did
/// not count. At 0 the stream has ended.
pub(crate) fn read_some<R: Source>(
    r: &mut R,
    out: &mut [u8],
    at: usize,
    limit: usize,
    before: u64,
) -> Result<Option<usize>, LinkFault>
    requires room { at < limit }
    requires within { limit ≤ length out.old }
    requires unfailed { R.failure_count r.old ≤ before }
    ensures some { IfOk result (ReadsBehind (R.remaining r.old) (R.remaining r.new) at limit out.old out.new) }
    ensures len { length out.new ≡ length out.old }
    ensures read { (result ≡ Err LinkFault.Read) ↔ (before < R.failure_count r.new) }
    ensures write { result ≢ Err LinkFault.Write }
    ensures turns { result ≢ Err LinkFault.Turns }
    ensures one { MadeMore R.was_read r.old r.new 1 }
{
    let read = r.read_once(&mut out[at..limit]);
    if r.failures() > before {
        return Err(LinkFault::Read);
    }
    match read {
        Ok(n) => Ok(Some(n)),
        Err(_) => Ok(None),
    }
}

/// Reads into a place of the buffer until something has come, and gives how many bytes. At 0 the stream has ended.
pub(crate) fn fetch<R: Source>(
    r: &mut R,
    out: &mut [u8],
    at: usize,
    limit: usize,
    before: u64,
    turns: &mut u32,
) -> Result<usize, LinkFault>
    requires room { at < limit }
    requires within { limit ≤ length out.old }
    requires unfailed { R.failure_count r.old ≤ before }
    ensures came { IfOk result (λ n. ReadsBehind (R.remaining r.old) (R.remaining r.new) at limit out.old out.new (Some n)) }
    ensures len { length out.new ≡ length out.old }
    ensures told { TellsReads R.failure_count R.was_read before r.old r.new turns.old turns.new result }
{
    while *turns > 0 {
        *turns -= 1;
        if let Some(n) = read_some(r, out, at, limit, before)? {
            return Ok(n);
        }
    }
    Err(LinkFault::Turns)
}

// Writes once, and gives how many bytes were taken.
fn write_some<W: Sink>(w: &mut W, bytes: &[u8], before: u64) -> Result<usize, LinkFault>
    requires unfailed { W.failure_count w.old ≤ before }
    ensures taken { IfOk result (λ n. (n ≤ length bytes.now)
        × Appends (W.contents w.old) (W.contents w.new) (take n bytes.now)) }
    ensures front { AppendsFront bytes.now (W.contents w.old) (W.contents w.new) }
    ensures write { (result ≡ Err LinkFault.Write) ↔ (before < W.failure_count w.new) }
    ensures read { result ≢ Err LinkFault.Read }
    ensures turns { result ≢ Err LinkFault.Turns }
    ensures one { MadeMore W.was_written w.old w.new 1 }
{
    let written = w.write_once(bytes);
    if w.failures() > before {
        return Err(LinkFault::Write);
    }
    match written {
        Ok(n) => Ok(n),
        Err(_) => Ok(0),
    }
}

// Writes once from two texts, one after the other, and gives how many of their bytes were taken.
fn write_some_of_both<W: Sink>(
    w: &mut W,
    first: &[u8],
    second: &[u8],
    before: u64,
) -> Result<usize, LinkFault>
    requires unfailed { W.failure_count w.old ≤ before }
    ensures taken { IfOk result (λ n. (n ≤ length (first.now ++ second.now))
        × Appends (W.contents w.old) (W.contents w.new) (take n (first.now ++ second.now))) }
    ensures write { (result ≡ Err LinkFault.Write) ↔ (before < W.failure_count w.new) }
    ensures read { result ≢ Err LinkFault.Read }
    ensures turns { result ≢ Err LinkFault.Turns }
    ensures one { MadeMore W.was_written w.old w.new 1 }
{
    let written = w.write_both(first, second);
    if w.failures() > before {
        return Err(LinkFault::Write);
    }
    match written {
        Ok(n) => Ok(n),
        Err(_) => Ok(0),
    }
}

/// Writes all bytes, in at most 50,000 writes.
pub(crate) fn write_all<W: Sink>(w: &mut W, bytes: &[u8], before: u64) -> Result<(), LinkFault>
    requires unfailed { W.failure_count w.old ≤ before }
    ensures whole { OnOk result (Appends (W.contents w.old) (W.contents w.new) bytes.now) }
    ensures front { AppendsFront bytes.now (W.contents w.old) (W.contents w.new) }
    ensures kept { NoFewer W.was_written w.old w.new }
    ensures told { TellsWrites W.failure_count W.was_written before w.old w.new result }
{
    let mut done = 0;
    let mut turns = MAX_READS;
    while done < bytes.len() {
        if turns == 0 {
            return Err(LinkFault::Turns);
        }
        turns -= 1;
        let (_, rest) = bytes.split_at(done);
        done += write_some(w, rest, before)?;
    }
    Ok(())
}

/// Writes all bytes of two texts, one after the other. The first write gives them together.
pub(crate) fn write_all_of_both<W: Sink>(
    w: &mut W,
    first: &[u8],
    second: &[u8],
    before: u64,
) -> Result<(), LinkFault>
    requires unfailed { W.failure_count w.old ≤ before }
    ensures whole { OnOk result (Appends (W.contents w.old) (W.contents w.new) (first.now ++ second.now)) }
    ensures told { TellsWrites W.failure_count W.was_written before w.old w.new result }
{
    let taken = write_some_of_both(w, first, second, before)?;
    let of_first = taken.min(first.len());
    let (_, first_rest) = first.split_at(of_first);
    let (_, second_rest) = second.split_at(taken - of_first);
    write_all(w, first_rest, before)?;
    write_all(w, second_rest, before)
}
