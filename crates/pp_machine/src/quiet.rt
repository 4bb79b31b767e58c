//! Rounds of the barrel in which each step is quiet: it makes no event and uses no central word.

ghost use Rattle.std.specs.Prelude.{◌≡◌, ◌-◌, ◌<◌, ◌≤◌, false, length, vec_len};
ghost use Rattle.pp_numbers.specs.{ChannelNo.channel_count, PpNo.processor_count};
ghost use Rattle.pp_machine.specs.MachineState.{MachineState};
ghost use Rattle.pp_processor.specs.NeedAndEffect.{need};
ghost use Rattle.pp_machine.specs.Quiet.{is_quiet, IsAhead, AreAhead};

use crate::{Answer, Need, Outcome, Pp};
use pp_channel::Channel;
use pp_processor::ends;
use std::alloc::Allocator;

/// Runs the processors of a round from a place of the barrel on, each by the same number of quiet
/// steps, at most `most`; returns that number.
pub(crate) fn run_ahead<A: Allocator>(
    processors: &mut Vec<Pp, A>,
    channels: &Vec<Channel<A>, A>,
    round: usize,
    place: usize,
    most: u32,
) -> u32
    requires all { length processors.old.items ≡ processor_count }
    requires channels { vec_len channels.now ≡ channel_count }
    requires round { round ≤ processor_count }
    requires within { place ≤ round }
    ensures most { result ≤ most }
    ensures as_many { length processors.new.items ≡ processor_count }
    ensures ahead { (m : MachineState) → m.histories ≡ channels.now.items
        → AreAhead result round place m processors.old.items processors.new.items }
{
    if most == 0 {
        return 0;
    }
    if place == round {
        return most;
    }
    if !processors[place].state().is_running() {
        return run_ahead(processors, channels, round, place + 1, most);
    }
    let before = processors[place].copy();
    let made = run_quiet_steps(&mut processors[place], channels, most);
    let all = run_ahead(processors, channels, round, place + 1, made);
    if all < made {
        processors[place] = before;
        let _again = run_quiet_steps(&mut processors[place], channels, all);
    }
    all
}

/// Makes at most `most` steps of a processor, while they are quiet; returns their number.
fn run_quiet_steps<A: Allocator>(pp: &mut Pp, channels: &Vec<Channel<A>, A>, most: u32) -> u32
    requires channels { vec_len channels.now ≡ channel_count }
    ensures most { result ≤ most }
    ensures ahead { (m : MachineState) → m.histories ≡ channels.now.items
        → IsAhead result m pp.old pp.new }
    ensures exact { (m : MachineState) → m.histories ≡ channels.now.items → result < most
        → is_quiet (need pp.new) m ≡ false }
{
    let mut made = 0;
    while made < most {
        let left = run_free_steps(pp, channels, most - made);
        made += most - made - left;
        if made == most {
            return made;
        }
        match pp.wants() {
            // At rest, all further steps do the same.
            Need::Nothing => return most,
            Need::Local => {
                let _moved = pp.give(Answer::Local);
                made += 1;
            }
            Need::Channel(channel, op) => {
                let channel = &channels[channel.index()];
                if channel.next_event(&op).is_some() {
                    return made;
                }
                match pp.give(Answer::Channel(channel.shown(&op))) {
                    // The channels stay as they are, so it is held in all further steps too.
                    Outcome::Held => return most,
                    Outcome::Moved | Outcome::AtRest => made += 1,
                }
            }
            Need::Read(_) | Need::Write(_, _) => return made,
        }
    }
    made
}

/// Makes at most `most` steps of a processor, while each is an instruction of the codes 00 to 57
/// (octal) or a test of flags; returns how many of `most` are left.
#[inline(never)]
fn run_free_steps<A: Allocator>(pp: &mut Pp, channels: &Vec<Channel<A>, A>, most: u32) -> u32
    requires channels { vec_len channels.now ≡ channel_count }
    ensures most { result ≤ most }
    ensures ahead { (m : MachineState) → m.histories ≡ channels.now.items
        → IsAhead (most - result) m pp.old pp.new }
{
    let mut left = most;
    if !pp.is_at_instruction() {
        return left;
    }
    while left > 0 {
        let (op, d) = pp.instruction_at_p();
        if pp.step_internal(op, d) {
            left -= 1;
            if ends(op, d) {
                return left;
            }
            continue;
        }
        if !pp.tests_flags(op, d) {
            return left;
        }
        let Some(channel) = pp.channel(d) else {
            return left;
        };
        let flags = channels[channel.index()].flags();
        pp.test_flags(op, d, flags);
        left -= 1;
    }
    left
}
