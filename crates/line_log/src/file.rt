//! A file of a fixed length as the log sees it: what a read returns, and what a crash may leave.

ghost use Rattle.std.specs.Prelude.{◌≡◌, ◌+◌, ◌≤◌, List, ℕ, Bool, true, false, length, OnOk, OnErr};
ghost use Rattle.line_log.specs.File.{Only, Follows, Mixes, overwritten, Elapses};

use thiserror::Error;

/// A write or a sync of a file failed.
#[derive(Clone, Copy, Debug, PartialEq, Eq, Error)]
#[error("the file could not be written")]
pub struct FileFailed;

/// A file whose length does not change. Once a call has failed, nothing more may be asked of it.
///
/// What these contracts say is trusted of a file of the operating system. The premise about the disk is that of
/// `write_at`: after a crash each byte is an old one or a new one, in any mixture.
pub trait LogFile {
    /// The bytes that a read returns.
    ghost seen: { Self → List ℕ };

    /// What a crash at this moment may leave.
    ghost may_leave: { Self → List ℕ → Type 0 };

    /// The moment, as a number that does not fall.
    ghost moment: { Self → ℕ };

    /// What a crash at some moment from that one on might have left, during a call or between two.
    ghost left_since: { Self → ℕ → List ℕ → Type 0 };

    /// Whether a call has failed.
    ghost has_failed: { Self → Bool };

    /// Writes over bytes that are there. Until a sync, a crash leaves each byte of the file as it was or as it was
    /// written, in any order.
    fn write_at(&mut self, at: usize, bytes: &[u8]) -> Result<(), FileFailed>
        requires sound { has_failed self.old ≡ false }
        requires within { at + length bytes.now ≤ length (seen self.old) }
        ensures written { OnOk result (seen self.new ≡ overwritten (seen self.old) at bytes.now) }
        ensures crash { Follows (Mixes at bytes.now) (may_leave self.old) (may_leave self.new) }
        ensures time { Elapses (moment self.old) (moment self.new)
            (left_since self.old) (left_since self.new) (may_leave self.new) }
        ensures sound { OnOk result (has_failed self.new ≡ false) }
        ensures failed { OnErr result (has_failed self.new ≡ true) };

    /// After it, a crash leaves what a read returns.
    fn sync(&mut self) -> Result<(), FileFailed>
        requires sound { has_failed self.old ≡ false }
        ensures durable { OnOk result (Only (seen self.old) (may_leave self.new)) }
        ensures seen { seen self.new ≡ seen self.old }
        ensures crash { (c : List ℕ) → may_leave self.new c → may_leave self.old c }
        ensures time { Elapses (moment self.old) (moment self.new)
            (left_since self.old) (left_since self.new) (may_leave self.new) }
        ensures sound { OnOk result (has_failed self.new ≡ false) }
        ensures failed { OnErr result (has_failed self.new ≡ true) };

    /// This moment is one of those since an earlier one.
    ghost counts_now: { (file : Self) (t : ℕ) (c : List ℕ)
        → t ≤ moment file → may_leave file c → left_since file t c };

    /// Since this moment there is no other.
    ghost only_now: { (file : Self) (c : List ℕ) → left_since file (moment file) c → may_leave file c };
}
