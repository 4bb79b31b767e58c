ghost use Rattle.std.specs.Prelude.{◌≡◌, ◌<◌, ◌^◌, ℕ, length, IfOk, IfSome, IsNone};
ghost use Rattle.pp_run.specs.{BareMachine.StandsFor, Determinacy.IsQuiet};
ghost use Rattle.pp_machine.specs.{MachineState.MachineState, Run.barrel};
ghost use Rattle.pp_ends.specs.Ending.{EndsWith, IsStillFrom, after_turns};

use crate::Ending;
use crate::quiet::{is_quiet, is_running, step_moves};
use crate::rounds::{find_period, find_start, round_of};
use pp_channel::Memory;
use pp_machine::{Machine, PpNo};
use pp_run::{BareMachine, Order};
use std::alloc::Allocator;

/// How a run of this many turns of the barrel (decimal) ends. The machine is only read: at most two
/// copies make the run, of processors, central memory and the states of the channels, by a list of
/// the turns.
pub fn find_ending<A: Allocator + Copy, B: Allocator>(
    alloc: A,
    machine: &Machine<B>,
    turns: u32,
) -> Result<Ending, Memory>
    ensures { IfOk result (λ ending. EndsWith ending turns machine.now) }
{
    machine.is_sound();
    if let Some(ending) = quiet_ending(alloc, machine, turns)? {
        return Ok(ending);
    }
    let round = round_of(machine);
    let rounds = turns / round;
    let Some(period) = find_period(alloc, machine, rounds)? else {
        return Ok(Ending::GoingOn);
    };
    let Some(start) = find_start(alloc, machine, period, rounds - period)? else {
        return Ok(Ending::GoingOn);
    };
    Ok(Ending::Repeats {
        from: start * round,
        every: period * round,
    })
}

/// How it ends, if it ends quiet.
fn quiet_ending<A: Allocator + Copy, B: Allocator>(
    alloc: A,
    machine: &Machine<B>,
    turns: u32,
) -> Result<Option<Ending>, Memory>
    ensures ending { IfOk result (λ found. IfSome found (λ ending.
        EndsWith ending turns machine.now)) }
    ensures moves { IfOk result (λ found. IsNone found
        → ¬ IsQuiet (after_turns turns machine.now)) }
{
    let order = barrel_order(alloc, machine, turns)?;
    let mut bare = BareMachine::of(alloc, machine)?;
    let from = run_to_last_move(&mut bare, order.processors());
    if !is_quiet(&bare) {
        return Ok(None);
    }
    if is_running(&bare) {
        Ok(Some(Ending::Stuck { from }))
    } else {
        Ok(Some(Ending::AtRest { from }))
    }
}

/// The order of this many turns of the barrel of a machine.
#[tactic(auto, using(pp_machine::proofs::OrderLemmas::order_of_barrel))]
pub(crate) fn barrel_order<A: Allocator, B: Allocator>(
    alloc: A,
    machine: &Machine<B>,
    turns: u32,
) -> Result<Order<A>, Memory>
    ensures { IfOk result (λ order. order ≡ barrel machine.now.profile turns) }
{
    Order::of_run(alloc, &[], machine.profile(), turns)
}

/// Makes these turns of the barrel, and says from which turn on no step moved.
pub(crate) fn run_to_last_move<A: Allocator>(bare: &mut BareMachine<A>, order: &[PpNo]) -> u32
    requires { length order.now < 2 ^ 32 }
    ensures ran { (turns : ℕ) (m : MachineState) → order.now ≡ barrel m.profile turns
        → StandsFor bare.old m → StandsFor bare.new (after_turns turns m) }
    ensures still { (turns : ℕ) (m : MachineState) → order.now ≡ barrel m.profile turns
        → StandsFor bare.old m → IsStillFrom result turns m }
{
    let mut from = 0;
    for (turn, n) in order.iter().enumerate() {
        if step_moves(bare, *n) {
            from = turn as u32 + 1;
        }
    }
    from
}
