//! What tests of runs share, and runs that a dead start or turns come before.

use crate::loaded::loaded;
use pp_channel::{ChannelNo, Event, Seen};
use pp_line::Entry;
use pp_machine::{Machine, PpNo, Profile};
use pp_runner::{End, Gate, Limits, NoGate, Report, run_threads};
use pp_word::Word18;
use std::alloc::Global;
use std::process::Abort;
use std::sync::Wait;
use std::thread::Threads;
use test_bench::{EMPTY, LONG_PATIENCE, first, put_program, put_words, waiting, word};

/// The limits of a run of 100 steps at most, in which nobody loses patience.
pub(crate) const LONG: (u32, u32) = (100, LONG_PATIENCE);

/// The report of a run within these steps and patience of a machine without events so far, which is
/// not needed after it.
pub(crate) fn run<R: AllocGlobal + Threads + Wait + Sync + Abort, G: Gate + Sync>(
    rt: &R,
    gate: &G,
    (steps, patience): (u32, u32),
    machine: Machine<Global>,
) -> Report<Global> {
    assert!(rt; machine.events().is_empty());
    let limits = Limits::new(steps, patience).expect(rt, "limits");
    run_threads(rt, rt.alloc(), &machine, limits, gate).expect(rt, "a report")
}

/// The same of the machine of a deck.
pub(crate) fn run_deck<R: AllocGlobal + Threads + Wait + Sync + Abort, G: Gate + Sync>(
    rt: &R,
    gate: &G,
    limits: (u32, u32),
    profile: Profile,
    deck: &str,
) -> Report<Global> {
    run(rt, gate, limits, loaded(rt, rt.alloc(), profile, deck))
}

/// The history of the channel of this number after a run.
pub(crate) fn history(report: &Report<Global>, number: u8) -> Option<&[Event]> {
    let channel = ChannelNo::new(number)?;
    Some(report.channels[channel.index()].history())
}

/// What a history has after its first session began and these words were put and taken, one after
/// another; nothing if they were not.
pub(crate) fn after<'a>(history: &'a [Event], words: &[u16]) -> Option<&'a [Event]> {
    let mut rest = history.strip_prefix([Event::Activate].as_slice())?;
    for number in words {
        let word = word(*number);
        rest = rest.strip_prefix([Event::Put(word), Event::Take(word)].as_slice())?;
    }
    Some(rest)
}

/// The same of the history that a channel has after a run.
pub(crate) fn passed<'a>(
    report: &'a Report<Global>,
    number: u8,
    words: &[u16],
) -> Option<&'a [Event]> {
    after(history(report, number)?, words)
}

/// Whether channel 5 has the history that the deck `BLOCK` leaves.
pub(crate) fn has_block(report: &Report<Global>) -> bool {
    passed(report, 5, &[0o11, 0o22, 0o33, 0o44]) == Some([Event::Disconnect].as_slice())
}

/// Whether a word that was put against a disconnect was taken; nothing if it was neither taken nor
/// lost at once.
pub(crate) fn is_taken(rest: Option<&[Event]>, number: u16) -> Option<bool> {
    let word = word(number);
    let rest = rest?.strip_prefix([Event::Put(word)].as_slice())?;
    if rest == [Event::Disconnect].as_slice() {
        Some(false)
    } else if rest == [Event::Take(word), Event::Disconnect].as_slice() {
        Some(true)
    } else {
        None
    }
}

/// Each processor loads a number, counts it down to 0 in two steps each, and stops: PP 0 begins at
/// 500, and each other at one more than the one before it (decimal).
pub(crate) fn counting<R: AllocGlobal + Abort>(rt: &R, profile: Profile) -> Machine<Global> {
    let mut machine = Machine::new(rt.alloc(), profile, 1).expect(rt, "a machine");
    for place in 0..profile.processors() {
        let count = 500 + place as u16;
        let program = [0o2000, count, 0o1701, 0o0576, 0o0300];
        put_program(machine.pp_mut(PpNo::at(place)), 0o100, &program);
    }
    machine
}

/// PP 0 puts a program of three words on channel 1, for which PP 1 waits, and disconnects it; the
/// other processors rest.
fn sent<R: AllocGlobal + Abort>(rt: &R, profile: Profile) -> Machine<Global> {
    let mut machine = Machine::new(rt.alloc(), profile, 0o10000).expect(rt, "a machine");
    let sender = machine.pp_mut(first());
    put_words(sender, 0o200, &[0o0000, 0o1405, 0o0300, 0o0000]);
    put_program(sender, 0o100, &[0o1404, 0o7301, 0o0200, 0o7501, 0o0300]);
    let started = machine.dead_start(&waiting(profile, 1..2));
    started.expect(rt, "dead start");
    machine
}

/// Whether a worker's log has the Activate that opened channel 1 before the run.
fn is_opening_told(report: &Report<Global>) -> bool {
    for worker in &report.ends {
        for entry in worker.log.iter() {
            if entry.channel == ChannelNo::at(1) && entry.number == 0 {
                return true;
            }
        }
    }
    false
}

/// Whether the words were passed on channel 1, but for the last, which the disconnect may lose, and
/// the sender and the receiver have stopped, the sender at the end of its program.
fn is_sent(report: &Report<Global>) -> bool {
    let [sender, receiver, ..] = report.ends.as_slice() else {
        return false;
    };
    is_taken(passed(report, 1, &[0, 0o1405, 0o300]), 0).is_some()
        && [sender.finish, receiver.finish] == [End::Stopped, End::Stopped]
        && sender.pp.p() == word(0o104)
}

#[test]
fn dead_start_threads(rt: HostRuntime) {
    for profile in [Profile::Ten, Profile::Twenty] {
        let report = run(&rt, &NoGate, LONG, sent(&rt, profile));
        assert!(rt; is_sent(&report) && !is_opening_told(&report));
    }
}

/// The numbers of the processors.
const NUMBERS: [u8; 20] = [
    0, 1, 2, 3, 4, 5, 6, 7, 0o10, 0o11, 0o20, 0o21, 0o22, 0o23, 0o24, 0o25, 0o26, 0o27, 0o30, 0o31,
];

/// Whether a log has a look at the channel of this number, open and empty, after its first event,
/// and nothing else.
fn is_look(log: &[Entry], number: u8) -> bool {
    match ChannelNo::new(number) {
        Some(channel) => {
            let what = Seen::Saw(EMPTY);
            let look = Entry {
                channel,
                number: 1,
                what,
            };
            log == [look].as_slice()
        }
        None => false,
    }
}

/// Whether this many workers all gave up on the channel of their number, which stayed as it was
/// opened, and which they saw only after that.
fn wait_in_vain(report: &Report<Global>, count: usize) -> bool {
    for (number, worker) in NUMBERS.iter().zip(report.ends.iter()) {
        if worker.finish != End::Patience
            || !is_look(worker.log.as_slice(), *number)
            || history(report, *number) != Some([Event::Activate].as_slice())
        {
            return false;
        }
    }
    report.ends.len() == count
}

/// All wait at dead start, and nobody sends: each sees its channel as it was opened.
#[test]
fn nobody_sends(rt: HostRuntime) {
    for (profile, count) in [(Profile::Ten, 10), (Profile::Twenty, 20)] {
        let report = run_deck(&rt, &NoGate, (100, 5), profile, "DEAD\n");
        assert!(rt; wait_in_vain(&report, count));
    }
}

/// PP 0 loads 7 and adds 1 before it puts the sum on channel 5; PP 1 passes twice before it takes
/// it.
const SLOW_HANDOFF: &str = "\
PP 0
0100 1407 1601 7405 7205 0300
START 0100
PP 1
0200 0000 0000 7005 0300
START 0200
";

/// Whether the sum was passed, and the processors made exactly the steps that were left.
fn is_passed(report: &Report<Global>) -> bool {
    let [zero, one, ..] = report.ends.as_slice() else {
        return false;
    };
    let counts = [zero.answers.len(), one.answers.len()];
    passed(report, 5, &[8]) == Some(&[]) && (counts, one.pp.a()) == ([3, 2], Word18::truncated(8))
}

/// A machine that has had turns, but no events, goes on by threads from where it stands.
#[test]
fn turns_before_threads(rt: HostRuntime) {
    for (profile, turns) in [(Profile::Ten, 20), (Profile::Twenty, 40)] {
        let mut machine = loaded(&rt, rt.alloc(), profile, SLOW_HANDOFF);
        assert!(rt; machine.run_barrel(turns).is_ok() && machine.turns() == u64::from(turns));
        assert!(rt; is_passed(&run(&rt, &NoGate, LONG, machine)));
    }
}
