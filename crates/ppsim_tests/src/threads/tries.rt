//! The tries of each worker, as a gate sees them.

use crate::threads::gates::{wait_for, zero};
use crate::threads::runs::{counting, passed, run, run_deck};
use pp_machine::{PROCESSORS, PpNo, Profile};
use pp_runner::{End, Gate, Report};
use std::alloc::Global;
use std::array;
use std::sync::atomic::{AtomicU64, Ordering};
use test_bench::first;

/// Counts the tries of each processor, and those that came with another number than theirs.
#[derive(Drop)]
struct Tally {
    tries: [AtomicU64; PROCESSORS],
    misnumbered: AtomicU64,
}

impl Tally {
    fn new() -> Tally {
        Tally {
            tries: array::from_fn(|_| zero()),
            misnumbered: zero(),
        }
    }

    /// How many tries a processor made, if each came with its number.
    fn tries(&self, pp: PpNo) -> Option<u64> {
        if self.misnumbered.load(Ordering::SeqCst) > 0 {
            return None;
        }
        Some(self.tries[pp.index()].load(Ordering::SeqCst))
    }
}

impl Gate for Tally {
    fn pass(&self, pp: PpNo, turn: u64) {
        if self.tries[pp.index()].fetch_add(1, Ordering::SeqCst) != turn {
            self.misnumbered.fetch_add(1, Ordering::SeqCst);
        }
    }
}

/// Whether each processor made as many tries as its program has steps, and stopped; one without a
/// worker makes none.
fn have_tried(gate: &Tally, report: &Report<Global>) -> bool {
    for place in 0..PROCESSORS {
        let steps = 1002 + 2 * place;
        let mut expected = 0u64;
        if let Some(worker) = report.ends.get(place) {
            if worker.answers.len() != steps || worker.finish != End::Stopped {
                return false;
            }
            expected = steps as u64;
        }
        if gate.tries(PpNo::at(place)) != Some(expected) {
            return false;
        }
    }
    true
}

/// Each processor passes the gate before each of its tries, with its own number. None is ever held,
/// so a patience of 1 is enough.
#[test]
fn tries_of_all(rt: HostRuntime) {
    for (profile, processors) in [(Profile::Ten, 10), (Profile::Twenty, 20)] {
        let gate = Tally::new();
        let report = run(&rt, &gate, (5000, 1), counting(&rt, profile));
        let is_whole = report.ends.len() == processors && report.channels.len() == 24;
        assert!(rt; is_whole && have_tried(&gate, &report));
    }
}

/// PP 0 activates channel 5 and is at fault; PP 1 waits in vain.
const IN_VAIN: &str = "PP 0\n0100 7405 2600\nSTART 0100\nPP 1\n0200 7005 0300\nSTART 0200\n";

/// Whether PP 1 gave up after as many tries as its patience allows.
fn is_in_vain(gate: &Tally, report: &Report<Global>, patience: u32) -> bool {
    let [zero, one, ..] = report.ends.as_slice() else {
        return false;
    };
    let tries = [gate.tries(first()), gate.tries(first().next())];
    tries == [Some(2), Some(u64::from(patience))]
        && [zero.finish, one.finish] == [End::Fault(1), End::Patience]
}

#[test]
fn patience(rt: HostRuntime) {
    for patience in [1, 2, 50, 20_011, 1_000_001] {
        let gate = Tally::new();
        let report = run_deck(&rt, &gate, (100, patience), Profile::Ten, IN_VAIN);
        assert!(rt; is_in_vain(&gate, &report, patience), "patience {patience}");
    }
}

/// PP 0 puts three words on channel 5, at its turns 2, 4 and 6, and PP 1 takes them.
const THREE_WORDS: &str = "\
PP 0
0100 7405 1401 7205 1402 7205 1403 7205 0300
START 0100
PP 1
0200 7005 7005 7005 0300
START 0200
";

/// Each word is put after all tries to take it but the last that patience allows, and before that.
#[derive(Drop)]
struct LastTry {
    last_tries: [u64; 3],
    turns: [AtomicU64; 2],
}

impl Gate for LastTry {
    fn pass(&self, pp: PpNo, turn: u64) {
        let place = pp.index();
        if place > 1 {
            return;
        }
        self.turns[place].store(turn, Ordering::SeqCst);
        for n in 0..3usize {
            let (put, last_try) = (2 + 2 * n as u64, self.last_tries[n]);
            if place == 0 && turn == put {
                wait_for(&self.turns[1], last_try);
            }
            if place == 1 && turn == last_try {
                wait_for(&self.turns[0], put + 1);
            }
        }
    }
}

/// Whether all words were taken, and each of the two processors made its last try.
fn is_passed(gate: &LastTry, report: &Report<Global>, patience: u32) -> bool {
    let [_, one, ..] = report.ends.as_slice() else {
        return false;
    };
    let turns = [
        gate.turns[0].load(Ordering::SeqCst),
        gate.turns[1].load(Ordering::SeqCst),
    ];
    one.finish == End::Stopped
        && passed(report, 5, &[1, 2, 3]) == Some(&[])
        && turns == [7, 3 * u64::from(patience)]
}

/// Patience is counted anew at each step, and each try is made, also the last.
#[test]
fn each_last_try_is_made(rt: HostRuntime) {
    for (patience, last_tries) in [
        (1, [0, 1, 2]),
        (2, [1, 3, 5]),
        (3, [2, 5, 8]),
        (50, [49, 99, 149]),
    ] {
        let gate = LastTry {
            last_tries,
            turns: [zero(), zero()],
        };
        let report = run_deck(&rt, &gate, (100, patience), Profile::Ten, THREE_WORDS);
        assert!(rt; is_passed(&gate, &report, patience), "patience {patience}");
    }
}
