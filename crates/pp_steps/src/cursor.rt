//! How far a processor has come in the spells in which it is held.

ghost use Rattle.std.specs.Prelude.{◌≡◌, ◌+◌, ◌<◌, ◌^◌};
ghost use Rattle.pp_steps.specs.Cursor.{line_at, past_step};

use crate::held_spells::{HeldSpells, continues_spell};
use pp_run::Progress;
use std::alloc::Allocator;

/// Which line a step has.
#[derive(Clone, Copy)]
pub(crate) enum LineKind {
    /// None: the processor was at rest, or held as before.
    NoLine,
    /// That of a step that moved the processor.
    OneStep,
    /// That of this number of held steps in a row, this one the first (decimal).
    HeldSteps(u32),
}

/// In how many spells a processor has been held, and its last step.
#[derive(Clone, Copy)]
pub(crate) struct Cursor {
    pub(crate) spells: usize,
    pub(crate) last: Progress,
}

impl Cursor {
    /// Goes past a step, and says which line it has. How long spells are was counted before.
    pub(crate) fn pass<A: Allocator>(&mut self, spells: &HeldSpells<A>, step: Progress) -> LineKind
        requires { self.old.spells + 1 < 2 ^ 64 }
        ensures cursor { self.new ≡ past_step self.old step }
        ensures line { result ≡ line_at spells.now self.old step }
    {
        let continues = continues_spell(&self.last, &step);
        self.last = step;
        match step {
            Progress::AtRest => LineKind::NoLine,
            Progress::Moved => LineKind::OneStep,
            Progress::Held(_) if continues => LineKind::NoLine,
            Progress::Held(_) => {
                let count = spells.count(self.spells);
                self.spells += 1;
                LineKind::HeldSteps(count)
            }
        }
    }
}
