ghost use Rattle.std.specs.Prelude.{◌≡◌, IfOk, option_map, replicate};
ghost use Rattle.pp_numbers.specs.Profile.{has_processor};
ghost use Rattle.pp_command.specs.NumberList.{numbered};
ghost use Rattle.pp_command.specs.OrderList.{item_steps, listed_steps, steps_of};

use crate::number_list::{first_of, place_of};
use crate::number_range::TURNS;
use pp_numbers::{PpNo, Profile};
use pp_word::numeral;
use std::alloc::{AllocError, Allocator};

/// The processors of the first steps of a run, by a list like `0:3,1,11:20`: each number has one or
/// two octal digits, and names a processor of this profile; behind a colon stands how many steps it
/// makes in a row (decimal), from 1 on. Any other text lists none, nor does one of more steps than
/// a run has.
pub fn listed_order<A: Allocator>(
    alloc: A,
    profile: Profile,
    text: &[u8],
) -> Result<Option<Vec<PpNo, A>>, AllocError>
    ensures { IfOk result (λ order. option_map (λ steps. steps.items) order
        ≡ listed_steps profile text.now) }
{
    let mut order = Vec::new(alloc);
    let mut rest = Some(text);
    while let Some(list) = rest {
        let (word, behind) = first_of(list);
        let Some(item) = item_of(profile, word) else {
            return Ok(None);
        };
        if item.steps > TURNS.most as usize - order.len() {
            return Ok(None);
        }
        order.resize(order.len() + item.steps, item.processor)?;
        rest = behind;
    }
    Ok(Some(order))
}

/// Some steps in a row of one processor.
#[derive(Clone, Copy)]
struct Item {
    processor: PpNo,
    steps: usize,
}

/// The steps of an item of a list, if it is one.
fn item_of(profile: Profile, text: &[u8]) -> Option<Item>
    ensures { option_map (λ item. replicate item.steps item.processor) result
        ≡ item_steps profile text.now }
{
    match place_of(b':', text) {
        Some(place) => item_by(profile, &text[..place], numeral(10, 6, &text[place + 1..])),
        None => item_by(profile, text, Some(1)),
    }
}

/// `steps` steps of the processor with this number, if there is one.
#[tactic(auto, unfolding(crate::specs::NumberList::numbered), // its processor
using(crate::proofs::OrderListLemmas::no_count, // no number, no count, or both
crate::proofs::OrderListLemmas::count_of_none, crate::proofs::OrderListLemmas::counted))]
fn item_by(profile: Profile, number: &[u8], steps: Option<u64>) -> Option<Item>
    ensures { option_map (λ item. replicate item.steps item.processor) result
        ≡ steps_of (numbered (has_processor profile) number.now) steps }
{
    let processor = profile.processor(numeral(8, 2, number)? as u8)?;
    let steps = steps? as usize;
    (steps > 0).then_some(Item { processor, steps })
}
