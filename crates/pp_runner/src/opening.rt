ghost use Rattle.std.specs.Prelude.{◌≤◌, IfOk};
ghost use Rattle.pp_runner.specs.Crew.{HasOpened};

use pp_channel::{CHANNELS, ChanOp, ChannelNo, Memory};
use pp_line::{Line, open_lines_beside};
use pp_machine::Machine;
use std::alloc::Allocator;

/// The first line of a family of `shares` shares. It holds them all, and has opened the channels
/// that dead start opened, and seen that: its log has an Activate for each, and no other event. The
/// words of central memory are those of the machine.
pub fn opening_line<A: Allocator + Copy>(
    alloc: A,
    machine: &Machine<A>,
    shares: u32,
) -> Result<Line<A>, Memory>
    requires { 1 ≤ shares }
    ensures { IfOk result (HasOpened machine.now shares shares) }
{
    machine.is_sound();
    let mut line = open_lines_beside(alloc, CHANNELS as u32, shares, machine.central().words())?;
    for place in 0..CHANNELS {
        let channel = ChannelNo::at(place);
        if machine.opened(channel) {
            // This line holds all shares: no other can come between, so it is made at once.
            let Ok(_done) = line.act(channel, ChanOp::Activate) else {
                unreachable!()
            };
        }
    }
    Ok(line)
}
