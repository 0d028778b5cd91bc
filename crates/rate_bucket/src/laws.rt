//! Laws of the definitions, each the contract of a function that does nothing.

ghost use Rattle.std.specs.Prelude.{◌↔◌, ℕ, IsTrue};
ghost use Rattle.rate_bucket.specs.Bucket.{Stretch, IsAdmitted, is_admitted};
ghost use Rattle.rate_bucket.specs.Running.{RunningLaws};

/// A bucket admits a packet exactly if there is room for one more in the stretch as a whole, and in the window of each
/// packet that was admitted since.
pub fn admitted_by_windows()
    ensures { (b : Stretch) (now : ℕ) → IsTrue (is_admitted b now) ↔ IsAdmitted b now }
{}

/// A bucket that keeps its credit admits what its stretch admits: from a level that it had, packet by packet, and through
/// changes.
pub fn running()
    ensures { RunningLaws }
{}
