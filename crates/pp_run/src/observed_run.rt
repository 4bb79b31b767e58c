ghost use Rattle.std.specs.Prelude.{[], IfErr, OnOk, take};
ghost use Rattle.pp_machine.specs.Run.{IsRunOf};
ghost use Rattle.pp_run.specs.RunSteps.{IsCutAt, RunStep, run_steps};

use crate::{Observer, Order};
use pp_machine::{Cut, Machine};
use std::alloc::Allocator;

/// Makes the steps of an order, as `Machine::run_turns` does, and shows each to an observer.
pub fn run_observed<A: Allocator, B: Allocator, O: Observer<A>>(
    machine: &mut Machine<A>,
    order: &Order<B>,
    observer: &mut O,
) -> Result<(), Cut>
    requires { O.HasSeen observer.old [] observer.old }
    ensures run { IsRunOf order.now result machine.old machine.new }
    ensures seen { OnOk result
        (O.HasSeen observer.old (run_steps order.now machine.old) observer.new) }
    // A run is cut only when an event or a step had to be kept.
    ensures cut_at { IfErr result (λ c.
        IsCutAt (O.Keeps observer.old) order.now machine.old c.done) }
    // An observer that keeps no step has seen those that were made.
    ensures unkept { IfErr result (λ c. ((step : RunStep) → ¬ O.Keeps observer.old step)
        → O.HasSeen observer.old (run_steps (take c.done order.now) machine.old) observer.new) }
{
    machine.is_sound();
    let mut done = 0;
    for n in order.processors() {
        let note = observer.note(machine, *n);
        let Ok(outcome) = machine.step(*n) else {
            return Err(Cut { done });
        };
        done += 1;
        let Ok(()) = observer.see(&note, machine, *n, outcome) else {
            return Err(Cut { done });
        };
    }
    Ok(())
}
