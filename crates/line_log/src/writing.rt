//! What a log asks of its file.

ghost use Rattle.std.specs.Prelude.{◌≡◌, ◌+◌, ◌-◌, ◌<◌, ◌≤◌, ◌++◌, ℕ, true, false, List, length, replicate, IsOk, OnOk, OnErr};
ghost use Rattle.line_log.specs.File.{IsMix, Only, LeavesOnly};
ghost use Rattle.line_log.specs.Blank.{blanked};
ghost use Rattle.line_log.specs.Log.{end_of_lines, log_in, recovered, IsBlankAfterLines, IsLines, IsSettled, IsWithSome};

use crate::lines::is_blank;
use crate::{FileFailed, LogFile};

/// How many zeros are written at once, in bytes.
const PIECE: usize = 65_536;

/// Writes lines at the end of a settled log, and syncs them.
pub(crate) fn put<D: LogFile>(
    file: &mut D,
    end: usize,
    size: usize,
    records: &[u8],
) -> Result<(), FileFailed>
    requires sound { D.has_failed file.old ≡ false }
    requires settled { IsSettled D.seen D.may_leave (log_in file.old end size) }
    requires records { IsLines records.now }
    requires room { end + length records.now < size }
    ensures acknowledged { OnOk result (IsSettled D.seen D.may_leave (log_in file.new (end + length records.now) size)
        × (recovered (D.seen file.new) ≡ recovered (D.seen file.old) ++ recovered records.now)) }
    ensures any_moment { LeavesOnly D.moment D.left_since file.old file.new
        (IsWithSome (recovered (D.seen file.old)) (recovered records.now)) }
    ensures sound { OnOk result (D.has_failed file.new ≡ false) }
    ensures failed { OnErr result (D.has_failed file.new ≡ true) }
{
    file.write_at(end, records)?;
    file.sync()?;
    Ok(())
}

/// Leaves nothing but zeros after the last whole line of a file that was read.
pub(crate) fn settle<D: LogFile>(file: &mut D, end: usize, bytes: &[u8]) -> Result<(), FileFailed>
    requires sound { D.has_failed file.old ≡ false }
    requires read { D.seen file.old ≡ bytes.now }
    requires on_disk { Only (D.seen file.old) (D.may_leave file.old) }
    requires end { end ≡ end_of_lines bytes.now }
    requires room { end < length bytes.now }
    ensures settled { OnOk result (IsSettled D.seen D.may_leave (log_in file.new end (length bytes.now))
        × (recovered (D.seen file.new) ≡ recovered bytes.now)) }
    ensures any_moment { LeavesOnly D.moment D.left_since file.old file.new
        (λ c. recovered c ≡ recovered bytes.now) }
    ensures untouched { IsBlankAfterLines bytes.now → IsOk result × (file.new ≡ file.old) }
    ensures sound { OnOk result (D.has_failed file.new ≡ false) }
    ensures failed { OnErr result (D.has_failed file.new ≡ true) }
{
    if is_blank(&bytes[end..]) {
        return Ok(());
    }
    blank(file, end, bytes.len(), &[0; PIECE])?;
    Ok(())
}

// Writes zeros from that offset on, and syncs them.
fn blank<D: LogFile>(file: &mut D, from: usize, size: usize, zeros: &[u8]) -> Result<(), FileFailed>
    requires sound { D.has_failed file.old ≡ false }
    requires zeros { zeros.now ≡ replicate (length zeros.now) 0 }
    requires some { 0 < length zeros.now }
    requires from { from ≤ size }
    requires size { size ≡ length (D.seen file.old) }
    requires on_disk { Only (D.seen file.old) (D.may_leave file.old) }
    ensures blanked { OnOk result (D.seen file.new ≡ blanked from (D.seen file.old)) }
    ensures durable { OnOk result (Only (D.seen file.new) (D.may_leave file.new)) }
    ensures any_moment { LeavesOnly D.moment D.left_since file.old file.new
        (IsMix (D.seen file.old) (blanked from (D.seen file.old))) }
    ensures sound { OnOk result (D.has_failed file.new ≡ false) }
    ensures failed { OnErr result (D.has_failed file.new ≡ true) }
{
    write_zeros(file, from, size, zeros)?;
    file.sync()
}

// Writes zeros from that offset on, as many at once as are given.
fn write_zeros<D: LogFile>(
    file: &mut D,
    from: usize,
    size: usize,
    zeros: &[u8],
) -> Result<(), FileFailed>
    requires sound { D.has_failed file.old ≡ false }
    requires zeros { zeros.now ≡ replicate (length zeros.now) 0 }
    requires some { 0 < length zeros.now }
    requires from { from ≤ size }
    requires size { size ≡ length (D.seen file.old) }
    requires on_disk { Only (D.seen file.old) (D.may_leave file.old) }
    ensures blanked { OnOk result (D.seen file.new ≡ blanked from (D.seen file.old)) }
    ensures crash { (c : List ℕ) → D.may_leave file.new c
        → IsMix (D.seen file.old) (blanked from (D.seen file.old)) c }
    ensures any_moment { LeavesOnly D.moment D.left_since file.old file.new
        (IsMix (D.seen file.old) (blanked from (D.seen file.old))) }
    ensures sound { OnOk result (D.has_failed file.new ≡ false) }
    ensures failed { OnErr result (D.has_failed file.new ≡ true) }
{
    let mut at = from;
    while at < size {
        let count = zeros.len().min(size - at);
        file.write_at(at, &zeros[..count])?;
        at += count;
    }
    Ok(())
}
