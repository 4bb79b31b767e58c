ghost use Rattle.std.specs.Prelude.{◌≡◌, ◌⊎◌, ◌<◌, ◌≤◌, ◌+◌, ◌*◌, ◌/◌, max, min};
ghost use Rattle.pp_runner.specs.declared.spinning.TheConstants.{LEAST, LONG_WAIT, MOST};

use std::thread::Threads;
use std::{hint, thread};

/// The failed tries after which a worker yields its core at first, and at most (decimal).
const MOST: u32 = 16_384;

/// The fewest failed tries after which it does (decimal).
const LEAST: u32 = 32;

/// How often a worker yields its core in one step before it spins as long as at first again, from
/// the next time on (decimal): a step that has waited so long need not be quick, and each yield
/// costs a time slice of a busy machine.
const LONG_WAIT: u32 = 1_024;

/// The number of failed tries after which a worker yields its core. It adapts: half as many after
/// each yield, since the processor that it waits for may have no core, twice as many if fewer were
/// enough, and as many as at first if a step has long been held.
#[derive(Clone, Copy)]
pub struct Spinning {
    most: u32,
    tries: u32,
    /// Failed tries in this step, since the core was last yielded.
    in_vain: u32,
    /// How often the core was yielded in this step, as far as that is counted.
    yields: u32,
    ghost at_most: { tries ≤ most },
    ghost at_least: { min most LEAST ≤ tries },
    ghost spins: { in_vain < tries },
    ghost counted: { yields ≤ LONG_WAIT },
}

impl Spinning {
    /// How each worker of a run begins: with the greatest number of tries. If the system lets the
    /// program run on only one core, the core is yielded after each failed try.
    pub fn of_run<R: Threads>(rt: &R) -> Self
        ensures most { (result.most ≡ 1) ⊎ (result.most ≡ MOST) }
        ensures tries { result.tries ≡ result.most }
    {
        let most = match thread::available_parallelism(rt) {
            Ok(cores) if cores.get() == 1 => 1,
            _ => MOST,
        };
        Spinning {
            most,
            tries: most,
            in_vain: 0,
            yields: 0,
        }
    }

    /// What a worker does after a failed try.
    pub fn wait(&mut self)
        ensures most { self.new.most ≡ self.old.most }
        ensures spun { self.old.in_vain + 1 < self.old.tries
            → (self.new.in_vain ≡ self.old.in_vain + 1)
            × (self.new.yields ≡ self.old.yields)
            × (self.new.tries ≡ self.old.tries) }
        ensures gave_away { self.old.in_vain + 1 ≡ self.old.tries
            → (self.new.in_vain ≡ 0)
            × (self.new.yields ≡ min (self.old.yields + 1) LONG_WAIT) }
        ensures halved { self.old.in_vain + 1 ≡ self.old.tries → self.old.yields < LONG_WAIT
            → self.new.tries ≡ min (max (self.old.tries / 2) LEAST) self.old.most }
        ensures long_wait { self.old.in_vain + 1 ≡ self.old.tries → LONG_WAIT ≤ self.old.yields
            → self.new.tries ≡ self.old.most }
    {
        self.in_vain += 1;
        if self.in_vain < self.tries {
            hint::spin_loop();
        } else {
            thread::yield_now();
            self.in_vain = 0;
            if self.yields < LONG_WAIT {
                self.yields += 1;
                self.tries = (self.tries / 2).max(LEAST).min(self.most);
            } else {
                self.tries = self.most;
            }
        }
    }

    /// Notes that the step that was tried has moved the processor.
    pub fn moved(&mut self)
        ensures most { self.new.most ≡ self.old.most }
        ensures next_step { (self.new.in_vain ≡ 0) × (self.new.yields ≡ 0) }
        ensures never_held { self.old.in_vain ≡ 0 → self.old.yields ≡ 0
            → self.new.tries ≡ self.old.tries }
        ensures fewer_were_enough { 0 < self.old.in_vain → self.old.yields ≡ 0
            → self.new.tries ≡ min (2 * self.old.tries) self.old.most }
        ensures gave_away { 0 < self.old.yields → self.new.tries ≡ self.old.tries }
    {
        if self.yields == 0 && self.in_vain > 0 {
            self.tries = self.tries.saturating_mul(2).min(self.most);
        }
        self.in_vain = 0;
        self.yields = 0;
    }
}
