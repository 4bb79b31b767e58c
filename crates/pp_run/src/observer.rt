ghost use Rattle.std.specs.Prelude.{⊤, ◌+◌, ◌<◌, ◌^◌, List, [], ◌∷◌, ◌++◌, length, OnErr, OnOk};
ghost use Rattle.pp_run.specs.RunSteps.{IsMade, RunStep};

use pp_channel::Memory;
use pp_machine::{Machine, Outcome, PpNo};
use std::alloc::Allocator;

/// What observes the run of a machine, step by step.
pub trait Observer<A: Allocator> {
    /// What it notes of a machine before a step.
    type Note: Drop;

    // From the first state it has seen these steps, in order, and come to the second.
    ghost HasSeen: { Self → List RunStep → Self → Type 0 };

    // What a note says of the step after it. The default says nothing.
    ghost IsNote: { Self.Note → RunStep → Type 0 } = { λ note step. ⊤ };

    // From this state on it has to keep this step, and may lack the memory for it.
    ghost Keeps: { Self → RunStep → Type 0 } = { λ start step. ⊥ };

    /// Notes of a machine what seeing the next step of a processor needs.
    fn note(&self, machine: &Machine<A>, n: PpNo) -> Self::Note
        ensures { IsNote result (record { processor = n; before = machine.now }) };

    /// Sees that step, by the machine after it.
    fn see(
        &mut self,
        note: &Self::Note,
        machine: &Machine<A>,
        n: PpNo,
        outcome: Outcome,
    ) -> Result<(), Memory>
        ensures seen { OnOk result ((start : Self) (seen : List RunStep) (step : RunStep)
            → IsNote note.now step → IsMade step n outcome machine.now → length seen + 1 < 2 ^ 32
            → HasSeen start seen self.old → HasSeen start (seen ++ step ∷ []) self.new) }
        ensures refused { OnErr result ((start : Self) (seen : List RunStep) (step : RunStep)
            → IsNote note.now step → IsMade step n outcome machine.now
            → HasSeen start seen self.old → Keeps start step) };
}
