ghost use Rattle.std.specs.Prelude.{◌≡◌, IfOk};
ghost use Rattle.pp_listing.specs.RestOfOrder.{order_left};

use pp_channel::Memory;
use pp_machine::{PpNo, Profile};
use pp_run::in_turn;
use std::alloc::Allocator;

/// What is left of the order of a run after so many steps (decimal): the rest of the list that
/// comes first, or else of the round of the barrel that has begun. In the order of what is left,
/// the steps go on as in the whole order.
pub fn order_left<A: Allocator>(
    alloc: A,
    first: &[PpNo],
    profile: Profile,
    steps: u32,
) -> Result<Vec<PpNo, A>, Memory>
    ensures { IfOk result (λ left. left.items ≡ order_left first.now profile steps) }
{
    let made = first.len().min(steps as usize);
    let turns = steps - made as u32;
    let mut left = Vec::from_slice(alloc, &first[made..])?;
    let round = profile.processors() as u64;
    let end = (u64::from(turns) + (round - 1)) / round * round;
    for turn in u64::from(turns)..end {
        left.push(in_turn(profile, turn))?;
    }
    Ok(left)
}
