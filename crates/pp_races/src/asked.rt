//! An operation that is asked.

ghost use Rattle.std.specs.Prelude.{◌≡◌, not};
ghost use Rattle.pp_channel.specs.Answer.{flags_of};
ghost use Rattle.pp_channel.specs.declared.flags.Flags.{Flags};
ghost use Rattle.pp_machine.specs.MachineState.{history_of, processor_of};
ghost use Rattle.pp_processor.specs.NeedAndEffect.{need};
ghost use Rattle.pp_processor.specs.declared.need.Need.{Need};

use crate::AskingStep;
use crate::by_flags::ByFlags;
use crate::found::{Found, found_at, waits_at};
use pp_channel::{ChanOp, ChannelNo, Event, Flags};
use pp_machine::{Machine, PpNo, Trace};
use std::alloc::Allocator;

/// An operation that the next step of a processor asks of a channel, and the machine before it.
#[derive(Drop)]
pub(crate) struct Asked<'a, A: Allocator> {
    pub(crate) machine: &'a Machine<A>,
    pub(crate) n: PpNo,
    pub(crate) c: ChannelNo,
    pub(crate) op: ChanOp,
    ghost needs: { need (processor_of n machine.now) ≡ Need.Channel c op },
}

impl<'a, A: Allocator> Asked<'a, A> {
    ghost use Rattle.pp_races.specs.ByFlags.{at};
    ghost use Rattle.pp_races.specs.OtherFlags.{found_at, waits_at};
    ghost use Rattle.pp_races.specs.Watch.{asking_step, entry_of};

    /// The step.
    pub(crate) fn step(&self) -> AskingStep
        ensures { result ≡ asking_step self.now.n self.now.c self.now.machine.now }
    {
        AskingStep::of(self.machine, self.n, self.c)
    }

    /// The flags of the channel.
    pub(crate) fn flags(&self) -> Flags
        ensures { result ≡ flags_of (history_of self.now.c self.now.machine.now) }
    {
        self.machine.channel(self.c).flags()
    }

    /// What the trace has of it, if it makes this event.
    pub(crate) fn entry(&self, event: &Event) -> Trace
        ensures { result ≡ entry_of self.now.n self.now.c event.now self.now.machine.now }
    {
        Trace {
            turn: self.machine.turns(),
            pp: self.n,
            channel: self.c,
            event: *event,
        }
    }

    /// Whether the processor waits, at the channel's flags.
    pub(crate) fn waits(&self) -> bool
        ensures { result ≡ waits_at self.now.op (processor_of self.now.n self.now.machine.now)
            (flags_of (history_of self.now.c self.now.machine.now)) }
    {
        waits_at(self.machine.pp(self.n), &self.op, self.flags())
    }

    /// The flags at which it would not wait.
    pub(crate) fn goes_on_at(&self) -> ByFlags<bool>
        ensures { (f : Flags) → at result f
            ≡ not (waits_at self.now.op (processor_of self.now.n self.now.machine.now) f) }
    {
        let pp = self.machine.pp(self.n);
        ByFlags::of(|flags| !waits_at(pp, &self.op, flags))
    }

    /// What the operation would have done at other flags, if it makes no event.
    pub(crate) fn found(&self) -> ByFlags<Found>
        ensures { (f : Flags) → at result f
            ≡ found_at self.now.op (processor_of self.now.n self.now.machine.now)
            (flags_of (history_of self.now.c self.now.machine.now)) f }
    {
        let pp = self.machine.pp(self.n);
        let now = self.flags();
        ByFlags::of(|flags| found_at(pp, &self.op, now, flags))
    }
}
