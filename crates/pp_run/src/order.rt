ghost use Rattle.std.specs.Prelude.{◌≡◌, ◌<◌, ◌^◌, ℕ, List, length, IfOk};
ghost use Rattle.pp_machine.specs.Run.{run_order};
ghost use Rattle.pp_numbers.specs.PpNo.{processor_count, processor_index};
ghost use Rattle.pp_numbers.specs.Profile.{processor_in_turn};

use pp_channel::Memory;
use pp_machine::{PpNo, Profile};
use std::alloc::Allocator;
use std::marker::Model;

/// The order of a run: the processor of each of its steps. Contracts see the list of them.
#[derive(Drop)]
pub struct Order<A: Allocator> {
    processors: Vec<PpNo, A>,
}

impl<A: Allocator> Model for Order<A> {
    ghost Value = { List ℕ };

    ghost view = { λ o. o.processors.items };

    // No run has more steps than 32 bits count.
    ghost invariant = { λ o. length o.processors.items < 2 ^ 32 };
}

impl<A: Allocator> Order<A> {
    /// The order of a run of so many steps (decimal): the processors of a list come first, each for
    /// a step, and then those of the barrel of this profile, from its first turn on.
    pub fn of_run(
        alloc: A,
        first: &[PpNo],
        profile: Profile,
        steps: u32,
    ) -> Result<Order<A>, Memory>
        ensures { IfOk result (λ order. order ≡ run_order first.now profile steps) }
    {
        let count = first.len().min(steps as usize);
        let mut processors = Vec::with_capacity(alloc, steps as usize)?;
        processors.extend_from_slice(&first[..count])?;
        for turn in 0..steps - count as u32 {
            processors.push(in_turn(profile, u64::from(turn)))?;
        }
        Ok(Order { processors })
    }

    /// The processors, in order.
    pub fn processors(&self) -> &[PpNo]
        ensures are { result.now ≡ self.now }
        ensures few { length self.now < 2 ^ 32 }
    {
        self.processors.as_slice()
    }
}

/// The processor whose turn it is in the barrel after `turn` turns (decimal).
#[tactic(auto, using(pp_numbers::proofs::ProfileLemmas::rest_within, // each place has a processor
pp_numbers::proofs::ProfileLemmas::most_processors))]
pub fn in_turn(profile: Profile, turn: u64) -> PpNo
    ensures is { result ≡ processor_in_turn profile turn }
    ensures place { processor_index result < processor_count }
{
    let round = profile.processors() as u64;
    PpNo::at((turn % round) as usize)
}
