ghost use Rattle.std.specs.Prelude.{◌≡◌, ◌+◌, ◌<◌, ◌^◌, ◌≤◌, ℕ, IfOk};
ghost use Rattle.pp_run.specs.BareMachine.{StandsFor};
ghost use Rattle.pp_machine.specs.MachineState.{MachineState};
ghost use Rattle.pp_numbers.specs.{PpNo.processor_count, Profile.processors_in};
ghost use Rattle.pp_ends.specs.Rounds.{PeriodWithin, StartWithin, after_rounds};

use crate::alike::stand_alike;
use crate::recent_mismatches::RecentMismatches;
use pp_channel::Memory;
use pp_machine::{Machine, PpNo};
use pp_run::BareMachine;
use std::alloc::Allocator;

/// How many turns a round of the barrel of a machine has.
pub(crate) fn round_of<A: Allocator>(machine: &Machine<A>) -> u32
    ensures turns { result ≡ processors_in machine.now.profile }
    ensures some { 1 ≤ result }
    ensures most { result ≤ processor_count }
{
    machine.profile().processors() as u32
}

/// One round more.
fn run_round<A: Allocator>(bare: &mut BareMachine<A>, round: u32)
    requires { round ≤ processor_count }
    ensures { (rounds : ℕ) (m : MachineState) → round ≡ processors_in m.profile
        → StandsFor bare.old (after_rounds rounds m)
        → StandsFor bare.new (after_rounds (rounds + 1) m) }
{
    for place in 0..round {
        let _progress = bare.step(PpNo::at(place as usize));
    }
}

/// What stands for a machine after this many rounds.
fn bare_after<A: Allocator + Copy, B: Allocator>(
    alloc: A,
    machine: &Machine<B>,
    rounds: u32,
) -> Result<BareMachine<A>, Memory>
    ensures { IfOk result (λ bare. StandsFor bare (after_rounds rounds machine.now)) }
{
    let round = round_of(machine);
    let mut bare = BareMachine::of(alloc, machine)?;
    for done in 0..rounds {
        run_round(&mut bare, round);
    }
    Ok(bare)
}

/// After how many rounds more, up to as many, the machine stands again as after these.
pub(crate) fn find_period<A: Allocator + Copy, B: Allocator>(
    alloc: A,
    machine: &Machine<B>,
    rounds: u32,
) -> Result<Option<u32>, Memory>
    ensures { IfOk result (λ period. PeriodWithin period rounds machine.now) }
{
    let round = round_of(machine);
    let end = bare_after(alloc, machine, rounds)?;
    let mut later = end.copy(alloc)?;
    let mut recent = RecentMismatches::new();
    for passed in 0..rounds {
        run_round(&mut later, round);
        if stand_alike(&end, &later, &mut recent) {
            return Ok(Some(passed + 1));
        }
    }
    Ok(None)
}

/// After how many rounds, up to the last, the machine first stands as a period later.
pub(crate) fn find_start<A: Allocator + Copy, B: Allocator>(
    alloc: A,
    machine: &Machine<B>,
    period: u32,
    last: u32,
) -> Result<Option<u32>, Memory>
    requires { last + 1 < 2 ^ 32 }
    ensures { IfOk result (λ start. StartWithin start period last machine.now) }
{
    let round = round_of(machine);
    let mut early = bare_after(alloc, machine, 0)?;
    let mut late = bare_after(alloc, machine, period)?;
    let mut recent = RecentMismatches::new();
    for start in 0..last + 1 {
        if stand_alike(&early, &late, &mut recent) {
            return Ok(Some(start));
        }
        run_round(&mut early, round);
        run_round(&mut late, round);
    }
    Ok(None)
}
