//! Calls of a machine that make no event answer as ever when the first request would be refused.
//! Words and processors hold no allocator and take none.

use crate::refusals::machine::RationedMachine;
use pp_channel::ChannelNo;
use pp_machine::{Machine, Outcome, PpState, Profile};
use pp_word::{Word18, Word60};
use std::alloc::Global;
use std::process::Abort;
use test_bench::{Rationed, first, put_program, put_words};

/// Programs that make no event, with the place where each is loaded and started.
const PROGRAMS: [(u16, &[u16]); 6] = [
    (0o100, &[0o3750, 0o0300]),
    (0o200, &[0o7005, 0o0300]),
    (0o100, &[0o1405, 0o6100, 0o0300, 0o6060, 0o0300]),
    (0o100, &[0o6503, 0o0103, 0o2600, 0o0300]),
    (0o200, &[0o1405, 0o7105, 0o0300, 0o0300]),
    (0o100, &[0o1403, 0o6260, 0o0300]),
];

/// Where each of them ends: P, A and the state.
const ENDS: [(u16, u32, PpState); 6] = [
    (0o101, 0o777_776, PpState::Stopped),
    (0o200, 0, PpState::Running),
    (0o103, 7, PpState::Fault(4)),
    (0o103, 0, PpState::Stopped),
    (0o203, 5, PpState::Stopped),
    (0o102, 3, PpState::Stopped),
];

/// A machine with these programs, and two central words at its end.
fn loaded<'a>(
    rt: &impl Abort,
    heap: &'a Rationed<Global>,
    profile: Profile,
) -> RationedMachine<'a> {
    let mut machine = Machine::new(heap, profile, 7).expect(rt, "a machine");
    let mut n = first();
    for (start, words) in PROGRAMS {
        let pp = machine.pp_mut(n);
        put_words(pp, 0, &[2]);
        put_words(pp, 0o60, &[1, 2, 3, 4, 5]);
        put_program(pp, start, words);
        n = n.next();
    }
    machine
}

/// Whether `turns` turns of the barrel are made, and four more steps.
fn makes_turns(machine: &mut RationedMachine, turns: u32) -> bool {
    let (zero, one) = (first(), first().next());
    let is_run = machine.run_barrel(turns).is_ok() && machine.run_turns(&[one, zero]).is_ok();
    let steps = [machine.step(one), machine.step(zero)];
    is_run
        && steps == [Ok(Outcome::Held), Ok(Outcome::AtRest)]
        && machine.turns() == u64::from(turns) + 4
}

/// Whether each program has ended as it should, without an event.
fn have_ended(machine: &RationedMachine) -> bool {
    let five = ChannelNo::at(5);
    let mut n = first();
    for end in ENDS {
        let pp = machine.pp(n);
        if (pp.p().get(), pp.a().get(), pp.state()) != end {
            return false;
        }
        n = n.next();
    }
    machine.events().is_empty()
        && machine.channel(five).history().is_empty()
        && !machine.opened(five)
}

/// Whether such a machine makes `turns` turns. The words at the end of its central memory are
/// written, and one of them is copied.
fn goes_on(machine: &mut RationedMachine, turns: u32) -> bool {
    let words = Word60::truncated(0o0001_0002_0003_0004_0005);
    let others = Word60::truncated(0o0006_0007_0010_0011_0012);
    put_words(machine.pp_mut(first().next()), 0o7000, &[1]);
    let are_written = [
        machine.write_central(Word18::truncated(5), words),
        machine.write_central(Word18::truncated(6), others),
        machine.write_central(Word18::truncated(7), others),
    ];
    are_written == [true, true, false]
        && makes_turns(machine, turns)
        && have_ended(machine)
        && machine.central().read(Word18::truncated(3)) == Some(words)
}

/// Whether it does so without a request.
fn asks_for_nothing(
    rt: &impl Abort,
    heap: &Rationed<Global>,
    profile: Profile,
    turns: u32,
) -> bool {
    heap.refuse(0);
    let mut machine = loaded(rt, heap, profile);
    heap.refuse(1);
    let is_gone_on = goes_on(&mut machine, turns);
    is_gone_on && heap.asked() == 0
}

#[test]
fn machine_asks_for_nothing(rt: HostRuntime) {
    let heap = Rationed::new(rt.alloc());
    for (profile, turns) in [(Profile::Ten, 60), (Profile::Twenty, 120)] {
        assert!(rt; asks_for_nothing(&rt, &heap, profile, turns));
    }
}
