//! Laws of the definitions, each the contract of a function that does nothing.

ghost use Rattle.std.specs.Prelude.{◌≡◌, ℕ, List};
ghost use Rattle.replay_text.specs.Replay.{IsReplayed};

use floor_core::laws::one_list_of_outputs;

/// A setup and a script have one text that is written for them.
pub fn one_text()
    ensures { (setup : List ℕ) (workers : ℕ) (script a b : List ℕ)
        → IsReplayed setup workers script a → IsReplayed setup workers script b → a ≡ b }
{
    one_list_of_outputs();
}
