//! How long processors are held, spell by spell.

ghost use Rattle.std.specs.Prelude.{◌≡◌, ◌+◌, ◌<◌, ◌^◌, slice_index_or, OnOk};
ghost use Rattle.pp_steps.specs.HeldSpells.{continues_spell, no_spells, with_step};

use pp_channel::Memory;
use pp_run::Progress;
use std::alloc::Allocator;
use std::marker::Model;

/// The spells in which a processor was held: how many steps in a row each took, in order.
#[derive(Drop)]
pub(crate) struct HeldSpells<A: Allocator> {
    counts: Vec<u32, A>,
    current: u32,
    last: Progress,
}

impl<A: Allocator> Model for HeldSpells<A> {
    ghost use Rattle.pp_steps.specs.HeldSpells.{Spells};

    ghost Value = { Spells };

    ghost view = { λ r. record { counts = r.counts.items; current = r.current; last = r.last } };
}

impl<A: Allocator> HeldSpells<A> {
    /// Those of a processor without steps.
    pub(crate) fn new(alloc: A) -> HeldSpells<A>
        ensures { result ≡ no_spells }
    {
        HeldSpells {
            counts: Vec::new(alloc),
            current: 0,
            last: Progress::AtRest,
        }
    }

    /// Counts one step more.
    pub(crate) fn note(&mut self, step: Progress) -> Result<(), Memory>
        requires { self.old.current + 1 < 2 ^ 32 }
        ensures { OnOk result (self.new ≡ with_step self.old step) }
    {
        if continues_spell(&self.last, &step) {
            self.current += 1;
            self.last = step;
            return Ok(());
        }
        if let Progress::Held(_) = self.last {
            self.counts.push(self.current)?;
        }
        self.current = 1;
        self.last = step;
        Ok(())
    }

    /// How many steps in a row a spell took.
    pub(crate) fn count(&self, spell: usize) -> u32
        ensures { result ≡ slice_index_or self.now.counts spell self.now.current }
    {
        self.counts.get(spell).copied().unwrap_or(self.current)
    }
}

/// Whether a step is held like the last.
pub(crate) fn continues_spell(last: &Progress, step: &Progress) -> bool
    ensures { result ≡ continues_spell last.now step.now }
{
    match (last, step) {
        (Progress::Held(others), Progress::Held(flags)) => {
            flags.active == others.active && flags.full == others.full
        }
        _ => false,
    }
}
