//! Where a run ends that goes on until a condition has been met.

ghost use Rattle.std.specs.Prelude.{IfOk};
ghost use Rattle.pp_condition.specs.Until.{IsEndOf};

use crate::{Condition, step_meeting};
use pp_channel::Memory;
use pp_machine::Machine;
use pp_run::{BareMachine, Order};
use std::alloc::Allocator;

/// A condition, and how many steps of a run have to meet it (decimal) for the run to end.
#[derive(Clone, Copy)]
pub struct Until {
    pub condition: Condition,
    pub times: u32,
}

/// How many steps of a run of a machine in this order are made until that many have met a
/// condition: all of them, if they never do. The machine is only read: a copy makes the run, of
/// processors, central memory and the states of the channels.
pub fn steps_until<A: Allocator + Copy, B: Allocator>(
    alloc: A,
    machine: &Machine<B>,
    order: &Order<A>,
    until: &Until,
) -> Result<u32, Memory>
    ensures { IfOk result (IsEndOf until.now order.now machine.now) }
{
    let mut bare = BareMachine::of(alloc, machine)?;
    let mut times = 0;
    let processors = order.processors();
    for (done, n) in processors.iter().enumerate() {
        if times == until.times {
            return Ok(done as u32);
        }
        if step_meeting(&mut bare, *n, &until.condition) {
            times += 1;
        }
    }
    Ok(processors.len() as u32)
}
