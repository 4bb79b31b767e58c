ghost use Rattle.std.specs.Prelude.{◌≡◌, ℕ, List, length, IfErr};
ghost use Rattle.pp_numbers.specs.ChannelNo.{channel_count};
ghost use Rattle.pp_machine.specs.{Headline.HoldsOnEachChannel, MachineState.MachineState};
ghost use Rattle.pp_machine.specs.Run.{IsCutAtEvent, IsRunOf, run, run_order};

use crate::{Cut, Machine};
use pp_numbers::PpNo;
use std::alloc::Allocator;

impl<A: Allocator> Machine<A> {
    /// Makes one step of each processor of a list, in order, with any repeats.
    #[tactic(auto, using(crate::proofs::RunLemmas::run_more, crate::proofs::RunLemmas::some_event))]
    pub fn run_turns(&mut self, turns: &[PpNo]) -> Result<(), Cut>
        ensures run { IsRunOf turns.now result self.old self.new }
        // A run is cut only at a step that makes an event.
        ensures cut_at_event { IfErr result (λ c. IsCutAtEvent turns.now self.old c.done) }
    {
        self.is_sound();
        for (i, n) in turns.iter().enumerate() {
            if self.step(*n).is_err() {
                return Err(Cut { done: i as u64 });
            }
        }
        Ok(())
    }

    /// Makes `steps` steps (decimal) in the order of a run that these processors begin: one of each
    /// of them, with any repeats, and then those of the barrel, from its first processor on.
    pub fn run_in_order(&mut self, first: &[PpNo], steps: u32) -> Result<(), Cut>
        ensures run { IsRunOf (run_order first.now self.old.profile steps) result
            self.old self.new }
        ensures cut_at_event { IfErr result (λ c.
            IsCutAtEvent (run_order first.now self.old.profile steps) self.old c.done) }
    {
        let count = first.len().min(steps as usize);
        if let Err(cut) = self.run_turns(&first[..count]) {
            return Err(cut);
        }
        match self.run_barrel(steps - count as u32) {
            Ok(()) => Ok(()),
            Err(cut) => Err(Cut {
                done: count as u64 + cut.done,
            }),
        }
    }
}

/// After any list of steps of a machine, whichever processors its numbers name, every channel has
/// its opening history followed by the events of the trace on it, and keeps the law of sessions.
#[tactic(auto, using(crate::proofs::RunLemmas::run_keeps))]
pub fn run_law()
    ensures { (ns : List ℕ) (m : MachineState) → length m.histories ≡ channel_count
        → HoldsOnEachChannel m → HoldsOnEachChannel (run ns m) }
{}
