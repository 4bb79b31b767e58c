//! How many events a run will make, by the places of the channels: for so many, memory is asked
//! before it. Nothing is proved of the numbers.

use pp_channel::{CHANNELS, Memory, event_by};
use pp_machine::{Machine, Need};
use pp_run::{BareMachine, Order};
use std::alloc::Allocator;

pub(crate) fn event_counts<A: Allocator + Copy>(
    alloc: A,
    machine: &Machine<A>,
    order: &Order<A>,
) -> Result<[usize; CHANNELS], Memory> {
    let mut bare = BareMachine::of(alloc, machine)?;
    let mut counts: [usize; CHANNELS] = [0; CHANNELS];
    for n in order.processors() {
        if let Need::Channel(c, op) = bare.pp(*n).wants() {
            let state = bare.channel(c);
            if event_by(&op, state.flags, state.register).is_some() {
                let place = c.index();
                counts[place] = counts[place].saturating_add(1);
            }
        }
        let _progress = bare.step(*n);
    }
    Ok(counts)
}
