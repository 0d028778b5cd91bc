//! Who gets the periods that the steps of a script close.

ghost use Rattle.std.specs.Prelude.{List};
ghost use Rattle.tenant_core.specs.declared.period.PeriodParts.{PeriodParts};
ghost use Rattle.floor_core.specs.Outputs.{shown};
ghost use Rattle.floor_core.specs.declared.floor.Seat.{Seat};
ghost use Rattle.replay_text.specs.Closed.{HasTakenPeriods, closed_in};

use floor_core::{Output, StepOutput};
use tenant_core::{Answered, Period};

/// Who gets closed periods.
pub trait PeriodKeeper {
    /// What taking a period does: the keeper before, the period, and the keeper after.
    ghost takes: { Self → PeriodParts → Self → Type 0 };

    /// Takes what it keeps of a period that a roll closed.
    fn take(&mut self, period: &Period)
        ensures { takes self.old period.now self.new };
}

/// A keeper that keeps nothing of any period.
#[derive(Drop)]
pub struct LetGo;

impl PeriodKeeper for LetGo {
    ghost takes = { λ _ _ _. Unit {0} };

    fn take(&mut self, _period: &Period) {}
}

/// Shows the keeper the period that a step closed, if it closed one.
pub fn hand_over<K: PeriodKeeper>(told: &StepOutput, keeper: &mut K)
    ensures { (seats : List Seat) → HasTakenPeriods K.takes (closed_in (shown seats told.now)) keeper.old keeper.new }
{
    if let StepOutput::Whole(
        Output::Governed {
            answer: Ok(Answered::Rolled(period)),
            ..
        },
    ) = told
    {
        keeper.take(period);
    }
}
