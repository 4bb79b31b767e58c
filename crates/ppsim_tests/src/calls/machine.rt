//! The machine by calls: worked programs, and every word as an instruction.

use crate::loaded::loaded;
use pp_channel::{ChannelNo, Event};
use pp_machine::{Machine, Outcome, PpNo, PpState, Profile, Trace};
use pp_word::Word18;
use std::alloc::Global;
use std::process::Abort;
use test_bench::{HANDOFF, first, put_words, word};

fn entry(turn: u64, pp: PpNo, channel: ChannelNo, event: Event) -> Trace {
    Trace {
        turn,
        pp,
        channel,
        event,
    }
}

/// The entries of `HANDOFF` in a list of turns.
fn entries(channel: ChannelNo) -> [Trace; 3] {
    let zero = first();
    [
        entry(1, zero, channel, Event::Activate),
        entry(3, zero, channel, Event::Put(word(7))),
        entry(4, zero.next(), channel, Event::Take(word(7))),
    ]
}

/// Whether a processor stops in its next step, and is at rest then.
fn stops(machine: &mut Machine<Global>, n: PpNo) -> bool {
    let (step, state) = (machine.step(n), machine.pp(n).state());
    (step, state) == (Ok(Outcome::Moved), PpState::Stopped)
        && machine.step(n) == Ok(Outcome::AtRest)
}

/// Whether a machine has the events of `HANDOFF` in a list of turns, and no others.
fn has_events(machine: &Machine<Global>) -> bool {
    let (four, five) = (ChannelNo::at(4), ChannelNo::at(5));
    let history = [Event::Activate, Event::Put(word(7)), Event::Take(word(7))];
    let shown = (machine.events(), machine.channel(five).history());
    shown == (entries(five).as_slice(), history.as_slice())
        && machine.channel(four).history().is_empty()
}

/// Whether `HANDOFF` goes as it should in a list of turns and two steps after it.
fn goes_by_turns(machine: &mut Machine<Global>) -> bool {
    let (zero, one) = (first(), first().next());
    machine.run_turns(&[one, zero, zero, zero, one]).is_ok()
        && machine.turns() == 5
        && has_events(machine)
        && stops(machine, zero)
        && machine.turns() == 7
}

#[test]
fn turn_list(rt: HostRuntime) {
    for profile in &[Profile::Ten, Profile::Twenty] {
        let mut machine = loaded(&rt, rt.alloc(), *profile, HANDOFF);
        assert!(rt; goes_by_turns(&mut machine));
    }
}

/// How a processor ends whose place 0100 is a word, with A = 777777.
fn end_of<R: AllocGlobal + Abort>(rt: &R, profile: Profile, code: u16) -> PpState {
    let mut machine = Machine::new(rt.alloc(), profile, 4096).expect(rt, "a machine");
    let pp = machine.pp_mut(first());
    put_words(pp, 0o100, &[code]);
    pp.start(word(0o100), Word18::truncated(0o777_777));
    machine.run_barrel(1000).expect(rt, "a run");
    machine.pp(first()).state()
}

/// How many of all words end at each fault, with any other among the first, stopped, and running.
fn ends_of_words<R: AllocGlobal + Abort>(rt: &R, profile: Profile) -> ([u32; 5], u32, u32) {
    let mut faults = [0u32; 5];
    let mut stopped = 0u32;
    let mut running = 0u32;
    for code in 0..4096u16 {
        match end_of(rt, profile, code) {
            PpState::Running => running = running.saturating_add(1),
            PpState::Stopped => stopped = stopped.saturating_add(1),
            PpState::Fault(number) => {
                let number = if number < 5 { usize::from(number) } else { 0 };
                faults[number] = faults[number].saturating_add(1);
            }
        }
    }
    (faults, stopped, running)
}

/// Twelve codes name a channel: 52 numbers d are no channel of the smaller machine, and 40 none of
/// the greater one (decimal).
#[test]
fn every_word(rt: HostRuntime) {
    for (profile, ends) in [
        (Profile::Ten, ([0, 64, 64, 624, 128], 2, 3214)),
        (Profile::Twenty, ([0, 64, 64, 480, 128], 2, 3358)),
    ] {
        assert!(rt; ends_of_words(&rt, profile) == ends);
    }
}
