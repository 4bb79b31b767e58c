//! Gates, which see each try of each worker: workers run at once, and give up as their limits say.

use crate::threads::runs::{LONG, counting, has_block, run, run_deck};
use pp_machine::{PROCESSORS, PpNo, Profile};
use pp_runner::Gate;
use std::sync::atomic::{AtomicU64, Ordering};
use std::{array, thread};
use test_bench::BLOCK;

/// At turns 0 to 2 processors 0 and 1 each set a flag, and look for the other's.
#[derive(Drop)]
struct Meeting {
    flags: [AtomicU64; 6],
    met: AtomicU64,
}

pub(crate) fn zero() -> AtomicU64 {
    AtomicU64::new(0)
}

/// Waits until a number is at least this one, but looks 10,000,000 times at most.
pub(crate) fn wait_for(number: &AtomicU64, least: u64) -> bool {
    for _ in 0..10_000_000 {
        if number.load(Ordering::SeqCst) >= least {
            return true;
        }
        thread::yield_now();
    }
    false
}

impl Gate for Meeting {
    fn pass(&self, pp: PpNo, turn: u64) {
        if pp.get() > 1 || turn > 2 {
            return;
        }
        let mine = usize::from(pp.get());
        let at = turn as usize;
        self.flags[3 * mine + at].store(1, Ordering::SeqCst);
        if wait_for(&self.flags[3 * (1 - mine) + at], 1) {
            self.met.fetch_add(1, Ordering::SeqCst);
        }
    }
}

#[test]
fn gate_together(rt: HostRuntime) {
    for profile in [Profile::Ten, Profile::Twenty] {
        let gate = Meeting {
            flags: [zero(), zero(), zero(), zero(), zero(), zero()],
            met: zero(),
        };
        let report = run_deck(&rt, &gate, LONG, profile, BLOCK);
        assert!(rt; has_block(&report) && gate.met.load(Ordering::SeqCst) == 6);
    }
}

/// At turn 0 each processor sets a flag, and waits until the flags of all processors of the profile
/// are set.
#[derive(Drop)]
struct MeetingOfAll {
    profile: Profile,
    flags: [AtomicU64; PROCESSORS],
    met: AtomicU64,
}

impl Gate for MeetingOfAll {
    fn pass(&self, pp: PpNo, turn: u64) {
        if turn > 0 {
            return;
        }
        self.flags[pp.index()].store(1, Ordering::SeqCst);
        for flag in self.flags.iter().take(self.profile.processors()) {
            if !wait_for(flag, 1) {
                return;
            }
        }
        self.met.fetch_add(1, Ordering::SeqCst);
    }
}

/// Nobody gets past turn 0 before all ten or all twenty have come, each with the number of its own
/// processor.
#[test]
fn all_together(rt: HostRuntime) {
    for (profile, met) in [(Profile::Ten, 10), (Profile::Twenty, 20)] {
        let gate = MeetingOfAll {
            profile,
            flags: array::from_fn(|_| zero()),
            met: zero(),
        };
        run(&rt, &gate, (100, 1), counting(&rt, profile));
        assert!(rt; gate.met.load(Ordering::SeqCst) == met);
    }
}

/// Looks at a flag more often or less, by the processor and the turn.
#[derive(Drop)]
struct Uneven {
    flag: AtomicU64,
}

impl Gate for Uneven {
    fn pass(&self, pp: PpNo, turn: u64) {
        let looks = (7 * u64::from(pp.get()) + 13 * (turn % 64)) % 64;
        for _ in 0..looks {
            self.flag.load(Ordering::SeqCst);
        }
    }
}

#[test]
fn uneven_gates(rt: HostRuntime) {
    let gate = Uneven { flag: zero() };
    for profile in [Profile::Ten, Profile::Twenty] {
        for _ in 0..200u32 {
            let report = run_deck(&rt, &gate, LONG, profile, BLOCK);
            assert!(rt; has_block(&report));
        }
    }
}
