//! Laws of the definitions, each the contract of a function that does nothing.

ghost use Rattle.std.specs.Prelude.{◌≡◌, ◌≢◌, ◌+◌, ◌<◌, ◌≤◌, ℕ, List, All, Some, None};
ghost use Rattle.breaker.specs.Breaker.{asked_at, most_misses, pass_at};
ghost use Rattle.breaker.specs.Runs.{AreInOrder, EndsSoon, IsOfAnother, Step, longest_silence, misses_in, run};
ghost use Rattle.breaker.specs.declared.breaker.Pass.TheVariants.{Trial, Usual};
ghost use Rattle.breaker.specs.declared.breaker.State.{State};
ghost use Rattle.breaker.specs.declared.breaker.State.TheVariants.{Closed};

/// Fewer than 5 packets without an answer, since the beginning or since the last answer, never begin a rest: packets go on as
/// ever.
pub fn few_misses_begin_no_rest()
    ensures { (steps : List Step) (now : ℕ) → misses_in steps < most_misses → pass_at now (run steps (Closed 0)) ≡ Some Usual }
{}

/// While a trial is under way, no other packet goes on, whatever others do that get no answer: one packet goes on at a time.
pub fn one_trial_at_a_time()
    ensures { (s : State) (now moment until : ℕ) (steps : List Step) → pass_at now s ≡ Some (Trial until) → moment < until
        → All (IsOfAnother until) steps → pass_at moment (run steps (asked_at now s)) ≡ None }
{}

/// Whatever was done, a rest ends at most 30 seconds after the last step, and a trial at most 2.
pub fn rests_end_soon()
    ensures { (steps : List Step) (first last : ℕ) → AreInOrder first last steps → EndsSoon last (run steps (Closed 0)) }
{}

/// So at most 32 seconds after that a packet goes on, also if a trial was never reported.
pub fn nothing_rests_for_ever()
    ensures { (s : State) (last now : ℕ) → EndsSoon last s → last + longest_silence ≤ now → pass_at now s ≢ None }
{}

/// Packets that ask in vain change nothing for those after them.
pub fn asking_in_vain_changes_nothing()
    ensures { (s : State) (now moment : ℕ) → pass_at now s ≡ None → now ≤ moment → pass_at moment (asked_at now s) ≡ pass_at moment s }
{}
