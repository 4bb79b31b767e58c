ghost use Rattle.std.specs.Prelude.{◌≡◌, ◌↔◌, IsTrue};
ghost use Rattle.pp_run.specs.{BareMachine.StandsFor, Determinacy.IsQuiet};
ghost use Rattle.pp_machine.specs.MachineState.{MachineState};
ghost use Rattle.pp_machine.specs.MachineStep.{answer_to, stepped};
ghost use Rattle.pp_processor.specs.Replay.{fits};
ghost use Rattle.pp_ends.specs.Ending.{TellsMove, TellsRunning};

use crate::progress_mark::ProgressMark;
use pp_machine::{Answer, Need, PROCESSORS, PpNo};
use pp_run::BareMachine;
use std::alloc::Allocator;

/// One step of a processor. Says whether it moved.
pub(crate) fn step_moves<A: Allocator>(bare: &mut BareMachine<A>, n: PpNo) -> bool
    ensures stepped { (m : MachineState) → StandsFor bare.old m → StandsFor bare.new (stepped n m) }
    ensures moved { (m : MachineState) → StandsFor bare.old m → TellsMove result n m }
{
    let before = ProgressMark::of(bare.pp(n));
    let _progress = bare.step(n);
    let after = ProgressMark::of(bare.pp(n));
    !after.is_same(&before)
}

/// What a step that needs this would be answered.
fn peek_answer<A: Allocator>(bare: &BareMachine<A>, need: &Need) -> Answer
    ensures fits { IsTrue (fits need.now result) }
    ensures answer { (m : MachineState) → StandsFor bare.now m → result ≡ answer_to need.now m }
{
    match need {
        Need::Nothing | Need::Local => Answer::Local,
        Need::Channel(c, op) => Answer::Channel(bare.channel(*c).act(*op)),
        Need::Read(address) => Answer::Read(bare.central().read(*address)),
        Need::Write(address, _) => Answer::Wrote(address.get() < bare.central().size()),
    }
}

/// Whether the next step of a processor would move. The step is tried on a copy.
fn would_move<A: Allocator>(bare: &BareMachine<A>, n: PpNo) -> bool
    ensures { (m : MachineState) → StandsFor bare.now m → TellsMove result n m }
{
    let pp = bare.pp(n);
    let answer = peek_answer(bare, &pp.wants());
    let mut after = pp.copy();
    let _outcome = after.give(answer);
    !ProgressMark::of(&after).is_same(&ProgressMark::of(pp))
}

/// Whether a machine is quiet: no step of any processor would move.
pub fn is_quiet<A: Allocator>(bare: &BareMachine<A>) -> bool
    ensures { (m : MachineState) → StandsFor bare.now m → IsTrue result ↔ IsQuiet m }
{
    for place in 0..PROCESSORS {
        if would_move(bare, PpNo::at(place)) {
            return false;
        }
    }
    true
}

/// Whether some processor is running.
pub(crate) fn is_running<A: Allocator>(bare: &BareMachine<A>) -> bool
    ensures { (m : MachineState) → StandsFor bare.now m → TellsRunning result m }
{
    for place in 0..PROCESSORS {
        if bare.pp(PpNo::at(place)).state().is_running() {
            return true;
        }
    }
    false
}
