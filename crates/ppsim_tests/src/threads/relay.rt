//! A word that passes through all processors of a machine, each in a thread of its own.

use crate::threads::runs::{LONG, history, passed, run};
use pp_machine::{Machine, PpNo, Profile};
use pp_runner::{End, NoGate, Report};
use std::alloc::Global;
use std::process::Abort;
use test_bench::put_program;

/// The word that is passed on.
const WORD: u16 = 0o45;

/// The instruction of this code, in the two upper digits, on a processor's own channel.
fn on_channel_of(code: u16, n: PpNo) -> u16 {
    code | u16::from(n.get())
}

/// The first processor loads the word, and each other takes it from the channel of its own number.
/// All but the last activate the channel of the next one, put it there and stop.
fn relay<R: AllocGlobal + Abort>(rt: &R, profile: Profile) -> Machine<Global> {
    let mut machine = Machine::new(rt.alloc(), profile, 1).expect(rt, "a machine");
    let last = profile.processors() - 1;
    for place in 0..last {
        let (own, next) = (PpNo::at(place), PpNo::at(place + 1));
        let begin = if place == 0 {
            0o1400 | WORD
        } else {
            on_channel_of(0o7000, own)
        };
        let activate = on_channel_of(0o7400, next);
        let put = on_channel_of(0o7200, next);
        put_program(machine.pp_mut(own), 0o100, &[begin, activate, put, 0o0300]);
    }
    let last = PpNo::at(last);
    let take = on_channel_of(0o7000, last);
    put_program(machine.pp_mut(last), 0o100, &[take, 0o0300]);
    machine
}

/// Whether this many workers stopped after their last instruction with the word; the last has the
/// fewest.
fn have_stopped(report: &Report<Global>, last: usize) -> bool {
    for (place, worker) in report.ends.iter().enumerate() {
        let p = if place == last { 0o101 } else { 0o103 };
        let ended = (worker.pp.p().get(), worker.pp.a().get());
        if worker.finish != End::Stopped || ended != (p, 0o45) {
            return false;
        }
    }
    report.ends.len() == last.saturating_add(1)
}

/// Whether the word was passed on each channel of the first numbers, and no event is on the others.
fn have_passed(report: &Report<Global>, used: &[u8], unused: &[u8]) -> bool {
    for number in used {
        if passed(report, *number, &[WORD]) != Some(&[]) {
            return false;
        }
    }
    for number in unused {
        if history(report, *number) != Some(&[]) {
            return false;
        }
    }
    report.channels.len() == 24
}

/// The numbers of the channels by which the word comes to each processor, and of those that nobody
/// uses.
const CHANNELS_OF_RELAYS: [(Profile, &[u8], &[u8]); 2] = [
    (
        Profile::Ten,
        &[1, 2, 3, 4, 5, 6, 7, 0o10, 0o11],
        &[
            0, 0o12, 0o13, 0o20, 0o21, 0o22, 0o23, 0o24, 0o25, 0o26, 0o27, 0o30, 0o31, 0o32, 0o33,
        ],
    ),
    (
        Profile::Twenty,
        &[
            1, 2, 3, 4, 5, 6, 7, 0o10, 0o11, 0o20, 0o21, 0o22, 0o23, 0o24, 0o25, 0o26, 0o27, 0o30,
            0o31,
        ],
        &[0, 0o12, 0o13, 0o32, 0o33],
    ),
];

/// There is an end for each processor of the profile, and twenty-four channels.
#[test]
fn relay_of_a_word(rt: HostRuntime) {
    for (profile, used, unused) in CHANNELS_OF_RELAYS {
        let report = run(&rt, &NoGate, LONG, relay(&rt, profile));
        assert!(rt; have_stopped(&report, used.len()) && have_passed(&report, used, unused));
    }
}
