//! The events of a channel.

ghost use Rattle.std.specs.Prelude.{◌≡◌, ◌++◌, ◌∷◌, [], IfOk, OnOk};

use crate::missed::Missed;
use pp_channel::Memory;
use std::alloc::Allocator;
use std::marker::Model;

/// The events on a channel since the first step, in order.
#[derive(Drop)]
pub(crate) struct ChannelEvents<A: Allocator> {
    all: Vec<Missed, A>,
}

impl<A: Allocator> Model for ChannelEvents<A> {
    ghost use Rattle.std.specs.Prelude.{List};
    ghost use Rattle.pp_races.specs.declared.missed.Missed.{Missed};

    ghost Value = { List Missed };

    ghost view = { λ events. events.all.items };
}

impl<A: Allocator> ChannelEvents<A> {
    /// No event, with room for this number.
    pub(crate) fn with_capacity(alloc: A, events: usize) -> Result<Self, Memory>
        ensures { IfOk result (λ none. none ≡ []) }
    {
        Ok(ChannelEvents {
            all: Vec::with_capacity(alloc, events)?,
        })
    }

    /// All of them.
    pub(crate) fn as_slice(&self) -> &[Missed]
        ensures { result.now ≡ self.now }
    {
        self.all.as_slice()
    }

    /// Takes in one more.
    pub(crate) fn push(&mut self, missed: Missed) -> Result<(), Memory>
        ensures { OnOk result (self.new ≡ self.old ++ missed ∷ []) }
    {
        Ok(self.all.push(missed)?)
    }
}
