//! The held steps of a run, counted.

ghost use Rattle.std.specs.Prelude.{◌≡◌, IfOk, replicate};
ghost use Rattle.pp_numbers.specs.PpNo.{processor_count};
ghost use Rattle.pp_steps.specs.Choice.{chosen_steps};
ghost use Rattle.pp_steps.specs.HeldSpells.{each_spells, no_spells};

use crate::Choice;
use crate::held_spells::HeldSpells;
use pp_channel::Memory;
use pp_machine::{Machine, PROCESSORS};
use pp_run::{BareMachine, Order};
use std::alloc::Allocator;

/// How long each processor is held, spell by spell, in the steps chosen of a run in this order.
pub(crate) fn counted_spells<A: Allocator + Copy>(
    alloc: A,
    machine: &Machine<A>,
    choice: &Choice,
    order: &Order<A>,
) -> Result<Vec<HeldSpells<A>, A>, Memory>
    ensures { IfOk result (λ spells. spells.items
        ≡ each_spells (chosen_steps choice.now order.now machine.now)) }
{
    let mut spells = without_spells(alloc)?;
    let mut bare = BareMachine::of(alloc, machine)?;
    for n in order.processors() {
        let is_chosen = choice.has(&bare, *n);
        let step = bare.step(*n);
        if is_chosen {
            spells[n.index()].note(step)?;
        }
    }
    Ok(spells)
}

/// Those of processors without steps.
fn without_spells<A: Allocator + Copy>(alloc: A) -> Result<Vec<HeldSpells<A>, A>, Memory>
    ensures { IfOk result (λ spells. spells.items ≡ replicate processor_count no_spells) }
{
    let mut spells = Vec::with_capacity(alloc, PROCESSORS)?;
    for _ in 0..PROCESSORS {
        spells.push(HeldSpells::new(alloc))?;
    }
    Ok(spells)
}
