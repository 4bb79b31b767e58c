//! How a processor stands: its state, the instruction that runs, and what holds it.

ghost use Rattle.std.specs.Prelude.{◌≡◌, ◌↔◌, IsTrue};
ghost use Rattle.pp_machine.specs.MachineState.{processor_of};
ghost use Rattle.pp_machine.specs.MachineStep.{step_outcome};
ghost use Rattle.pp_processor.specs.NeedAndEffect.{need};
ghost use Rattle.pp_text.specs.Standing.{held_text, standing};
ghost use Rattle.pp_text.specs.TextWriter.{Prints};

use crate::{TextWriter, octal4, print_held_text, print_running, print_state_text};
use pp_channel::{ChanOp, ChannelNo};
use pp_machine::{Machine, Need, Outcome, PpNo};
use pp_word::next;
use std::alloc::Allocator;
use std::io::Write;

/// Prints `RUNNING IAN 01 HELD CH01 ACTIVE EMPTY x376`, what the line of a processor says after its
/// registers, where this many of its last steps in a row (decimal) were held. A count of 0 is left
/// out. If a block is in progress, ` BLOCK 0302` stands before ` HELD`.
pub fn print_standing<A: Allocator, W: Write>(
    text: &mut TextWriter<W>,
    machine: &Machine<A>,
    n: PpNo,
    count: u32,
)
    ensures { Prints W.contents text.old text.new (standing n machine.now count) }
{
    let pp = machine.pp(n);
    print_state_text(text, pp.state());
    text.print(b" ");
    let place = pp.p();
    print_running(text, pp.block(), place, pp.get(place), pp.get(next(place)));
    if let Some(block) = pp.block() {
        text.print(b" BLOCK ");
        text.print(&octal4(block.place.get()));
    }
    print_held(text, machine, n, count);
}

/// Prints ` HELD CH01 ACTIVE EMPTY x376`, if the next step of the processor is held.
fn print_held<A: Allocator, W: Write>(
    text: &mut TextWriter<W>,
    machine: &Machine<A>,
    n: PpNo,
    count: u32,
)
    ensures { Prints W.contents text.old text.new
        (held_text (need (processor_of n machine.now)) (step_outcome n machine.now)
        machine.now count) }
{
    match machine.pp(n).wants() {
        Need::Channel(c, operation) if is_held(machine, n, c, operation) => {
            print_held_text(text, c, machine.channel(c).flags(), count);
        }
        _ => {}
    }
}

/// Whether a channel holds the operation that the next step of a processor needs: it is not ready,
/// and does not end a block.
fn is_held<A: Allocator>(machine: &Machine<A>, n: PpNo, c: ChannelNo, operation: ChanOp) -> bool
    requires { need (processor_of n machine.now) ≡ Need.Channel c operation }
    ensures { IsTrue result ↔ (step_outcome n machine.now ≡ Outcome.Held) }
{
    let channel = machine.channel(c);
    if operation.only_looks() || channel.next_event(&operation).is_some() {
        return false;
    }
    match machine.pp(n).block() {
        None => true,
        Some(_) => channel.flags().active,
    }
}
