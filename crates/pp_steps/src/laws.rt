//! Laws of the steps of a run.

ghost use Rattle.std.specs.Prelude.{◌≡◌, ℕ, List, drop, length};
ghost use Rattle.std.specs.List.{All, filter, flat_map};
ghost use Rattle.pp_machine.specs.MachineState.{MachineState};
ghost use Rattle.pp_machine.specs.Run.{run};
ghost use Rattle.pp_steps.specs.Choice.{chosen_steps};
ghost use Rattle.pp_steps.specs.HeldSpells.{progress_of};
ghost use Rattle.pp_steps.specs.StepsLaw.{is_by, is_chosen_event, is_running, line_event, line_steps};
ghost use Rattle.pp_condition.specs.declared.condition.Condition.{Condition};
ghost use Rattle.pp_run.specs.RunSteps.{RunStep, seen_of};
ghost use Rattle.pp_steps.specs.ShownStep.{FitsItsStepLine, alone_shown, steps_shown};
ghost use Rattle.pp_steps.specs.StepsWhere.{HasLinesWhere};
ghost use Rattle.pp_steps.specs.StepsText.{steps_text, with_lines};
ghost use Rattle.pp_steps.specs.declared.choice.Choice.{Choice};

/// What the lines of a run tell: the events on them, in order, are the events that the run adds to
/// the trace by steps that are chosen; and the steps on the lines of each processor, held ones as
/// often as their line counts, are all its steps that are chosen while it ran.
pub fn steps_law()
    ensures events { (choice : Choice) (steps : List ℕ) (load : MachineState)
        → flat_map line_event (with_lines (chosen_steps choice steps load))
        ≡ filter (is_chosen_event choice) (drop (length load.trace) (run steps load).trace) }
    ensures steps { (choice : Choice) (n : ℕ) (steps : List ℕ) (load : MachineState)
        → flat_map line_steps (filter (is_by n) (with_lines (chosen_steps choice steps load)))
        ≡ filter is_running (seen_of progress_of n (chosen_steps choice steps load)) }
{}

/// The text of steps tells what each of its lines shows: two texts that are the same, of any runs
/// and choices, show the same steps in the same order, each with its turn, its processor, P, its
/// words, its instruction, A, what it changed, its channel and its state, or how long it was held.
#[tactic(auto, using(crate::proofs::ShownLemmas::text_tells_steps))]
pub fn steps_text_law()
    ensures { (choice others : Choice) (steps more : List ℕ) (load other : MachineState)
        → All FitsItsStepLine (steps_shown choice steps load)
        → All FitsItsStepLine (steps_shown others more other)
        → steps_text choice steps load ≡ steps_text others more other
        → steps_shown choice steps load ≡ steps_shown others more other }
{}

/// So does the text of the steps that meet a condition: two that are the same, of whatever steps
/// and conditions, show the same steps that meet them, in the same order, held ones one by one.
pub fn steps_where_law()
    ensures { (condition other : Condition) (steps more : List RunStep) (text : List ℕ)
        (one : HasLinesWhere condition steps text) (also : HasLinesWhere other more text)
        → All FitsItsStepLine (alone_shown one.those)
        → All FitsItsStepLine (alone_shown also.those)
        → alone_shown one.those ≡ alone_shown also.those }
{}
