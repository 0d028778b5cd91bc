//! Laws of the definitions, each the contract of a function that does nothing.

ghost use Rattle.std.specs.Prelude.{◌≡◌, ◌≤◌, [], ◌∷◌, ◌++◌, ℕ, Bool, List, length, take};
ghost use Rattle.std.specs.List.{filter};
ghost use Rattle.line_log.specs.Log.{recovered, IsLines, IsRecord, IsWithSome};
ghost use Rattle.line_log.specs.Sums.{SumLaw};

/// A crash leaves of each tenant's records what it leaves of all: those from before, and the first of its own that
/// were being written.
pub fn each_tenants_own()
    ensures { (tenant : List ℕ → Bool) (before written : List (List ℕ)) (file : List ℕ)
        → IsWithSome before written file
        → (n : ℕ) × (n ≤ length (filter tenant written))
        × (filter tenant (recovered file) ≡ filter tenant before ++ take n (filter tenant written)) }
{}

/// A record with a line feed is a line, and lines after lines are lines. Each is read back as its records.
pub fn lines_are_read_back()
    ensures one { (r : List ℕ) → IsRecord r → IsLines (r ++ 10 ∷ []) × (recovered (r ++ 10 ∷ []) ≡ r ∷ []) }
    ensures joined { (a b : List ℕ) → IsLines a → IsLines b
        → IsLines (a ++ b) × (recovered (a ++ b) ≡ recovered a ++ recovered b) }
{}

/// Logs of as many pieces with one sum at their end are the same log, piece for piece. Otherwise two texts are given
/// that differ and have one SHA-256.
pub fn logs_of_one_sum()
    ensures { SumLaw }
{}
