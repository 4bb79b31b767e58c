ghost use Rattle.std.specs.Prelude.{◌≡◌, ℕ, ◌<◌, suc, List, length};
ghost use Rattle.pp_machine.specs.MachineState.{MachineState};
ghost use Rattle.pp_run.specs.RunSteps.{next_step};
ghost use Rattle.pp_condition.specs.Condition.{Meets};
ghost use Rattle.pp_condition.specs.Until.{IsEndOf};
ghost use Rattle.pp_condition.specs.declared.until.Until.{Until};

/// A run that goes on until a step meets a condition once ends after the first step that does: no
/// step before its last one meets it; and the last one does, unless none of all its steps meets it.
/// After more than one such step, too, the last one meets it, if the run is not over. No run has
/// two such ends.
pub fn until_law()
    ensures before { (until : Until) (steps : List ℕ) (m : MachineState) (done step : ℕ)
        → until.times ≡ 1 → IsEndOf until steps m done → suc step < done
        → ¬ Meets until.condition (next_step steps m step) }
    ensures last { (until : Until) (steps : List ℕ) (m : MachineState) (step : ℕ)
        → IsEndOf until steps m (suc step) → suc step < length steps
        → Meets until.condition (next_step steps m step) }
    ensures one { (until : Until) (steps : List ℕ) (m : MachineState) (done other : ℕ)
        → IsEndOf until steps m done → IsEndOf until steps m other → done ≡ other }
{}
