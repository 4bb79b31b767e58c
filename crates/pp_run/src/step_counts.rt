ghost use Rattle.std.specs.Prelude.{◌≡◌, ◌+◌, ◌<◌, ◌^◌, ◌++◌, ◌∷◌, [], List, length, IfErr, IfOk};
ghost use Rattle.pp_machine.specs.Run.{IsCutAtEvent, IsRunOf};
ghost use Rattle.pp_processor.specs.declared.outcome.Outcome.{Outcome};
ghost use Rattle.pp_run.specs.RunSteps.{run_steps};
ghost use Rattle.pp_run.specs.StepCounts.{counts_of, each_step_counts};

use crate::{Observer, Order, run_observed};
use pp_channel::Memory;
use pp_machine::{Cut, Machine, Outcome, PROCESSORS, PpNo};
use std::alloc::Allocator;

/// How many steps of a processor did what (decimal).
#[derive(Clone, Copy, Default)]
pub struct StepCounts {
    /// Steps in which it went on, stopped, or ended in a fault.
    pub moved: u32,
    /// Steps that a channel held, since it was not ready.
    pub held: u32,
    /// Steps that found it stopped or at fault.
    pub at_rest: u32,
    /// Of its last steps, how many in a row were held.
    pub last_held: u32,
}

impl StepCounts {
    /// Those with a step more.
    fn with(self, outcome: Outcome) -> StepCounts
        ensures { (steps : List Outcome) → length steps + 1 < 2 ^ 32 → self ≡ counts_of steps
            → result ≡ counts_of (steps ++ outcome ∷ []) }
    {
        let mut counts = self;
        counts.last_held = 0;
        match outcome {
            Outcome::Moved => counts.moved = self.moved.saturating_add(1),
            Outcome::Held => {
                counts.held = self.held.saturating_add(1);
                counts.last_held = self.last_held.saturating_add(1);
            }
            Outcome::AtRest => counts.at_rest = self.at_rest.saturating_add(1),
        }
        counts
    }
}

/// Makes the steps of an order, as `Machine::run_turns` does, and counts those of each processor,
/// in the order of the barrel.
#[tactic(auto, unfolding(pp_numbers::specs::Tables::tabulate))]
pub fn run_counting_steps<A: Allocator, B: Allocator>(
    machine: &mut Machine<A>,
    order: &Order<B>,
) -> Result<[StepCounts; PROCESSORS], Cut>
    ensures run { IsRunOf order.now result machine.old machine.new }
    ensures counts { IfOk result (λ counts.
        counts ≡ each_step_counts (run_steps order.now machine.old)) }
    ensures cut_at_event { IfErr result (λ c. IsCutAtEvent order.now machine.old c.done) }
{
    let mut counts = EachStepCounts([StepCounts::default(); PROCESSORS]);
    run_observed(machine, order, &mut counts)?;
    Ok(counts.0)
}

#[derive(Drop)]
struct EachStepCounts([StepCounts; PROCESSORS]);

impl<A: Allocator> Observer<A> for EachStepCounts {
    type Note = ();

    ghost HasSeen = { λ start steps counts. counts.0 ≡ each_step_counts steps };

    fn note(&self, _machine: &Machine<A>, _n: PpNo) {}

    fn see(
        &mut self,
        _note: &(),
        _machine: &Machine<A>,
        n: PpNo,
        outcome: Outcome,
    ) -> Result<(), Memory> {
        let counts = &mut self.0[n.index()];
        *counts = counts.with(outcome);
        Ok(())
    }
}
