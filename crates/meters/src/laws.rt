//! Laws of the definitions, each the contract of a function that does nothing.

ghost use Rattle.std.specs.Prelude.{◌≡◌, ◌<◌, ◌++◌, ◌∷◌, ℕ, List};
ghost use Rattle.common_types.specs.declared.limits.TheConstants.{MAX_TENANTS};
ghost use Rattle.meters.specs.declared.kind.Kind.{Kind};
ghost use Rattle.meters.specs.declared.rule.View.{View};
ghost use denote.Param.Send.{IsSend, IsSync};
ghost use Rattle.meters.specs.contracts.meters.Meters as Meters;
ghost use Rattle.meters.specs.contracts.meters.MeterSeat as MeterSeat;
ghost use Rattle.meters.specs.Counts.{word_of};
ghost use Rattle.meters.specs.Rule.{word_total, spent_view};

/// Each tenant and kind has a place of its own in a row, and a row of 256 has one for 64 tenants.
pub fn places()
    ensures own { (t u : ℕ) (k l : Kind) → word_of t k ≡ word_of u l → (t ≡ u) × (k ≡ l) }
    ensures room { (t : ℕ) (k : Kind) → t < MAX_TENANTS → word_of t k < 256 }
{}

/// A sum over views is the one that leaves a spent view out.
pub fn spent_views()
    ensures { (t : ℕ) (k : Kind) (before after : List View)
        → word_total t k (before ++ spent_view ∷ after) ≡ word_total t k (before ++ after) }
{}

/// Threads may share meters, and a seat may go to another thread. Call it ahead of a call that hands them to threads: what
/// that call requires is proved by it.
pub fn meters_are_shared()
    ensures shared { IsSync Meters.the_row }
    ensures sent { IsSend MeterSeat.the_row }
{}
