ghost use Rattle.std.specs.Prelude.{◌≡◌};
ghost use Rattle.pp_machine.specs.MachineState.{MachineState};
ghost use Rattle.pp_processor.specs.NeedAndEffect.{need};
ghost use Rattle.pp_run.specs.BareMachine.{StandsFor};
ghost use Rattle.pp_steps.specs.Choice.{chooses_need, is_chosen};

use pp_channel::CHANNELS;
use pp_machine::{Need, PROCESSORS, Pp, PpNo};
use pp_run::BareMachine;
use std::alloc::Allocator;

/// Which steps of a run are chosen: those that all four fields choose.
#[derive(Clone, Copy)]
pub struct Choice {
    /// The processors, in the barrel's order.
    pub processors: [bool; PROCESSORS],
    /// The channels, in the order of their places: steps that ask one of these alone. Without any
    /// choice of channels a step may ask what it will, or nothing.
    pub channels: Option<[bool; CHANNELS]>,
    /// The first turn (decimal).
    pub from: u32,
    /// The turn after the last (decimal).
    pub to: u32,
}

impl Choice {
    /// Whether the next step of a processor is chosen.
    pub(crate) fn has<A: Allocator>(&self, machine: &BareMachine<A>, n: PpNo) -> bool
        ensures { (m : MachineState) → StandsFor machine.now m
            → result ≡ is_chosen self.now (record { processor = n; before = m }) }
    {
        let turn = machine.turns();
        self.processors[n.index()]
            && u64::from(self.from) <= turn
            && turn < u64::from(self.to)
            && has_need(&self.channels, machine.pp(n))
    }
}

/// Whether these channels choose the next step of a processor.
fn has_need(channels: &Option<[bool; CHANNELS]>, pp: &Pp) -> bool
    ensures { result ≡ chooses_need channels.now (need pp.now) }
{
    match channels {
        Some(flags) => match pp.wants() {
            Need::Channel(c, _) => flags[c.index()],
            Need::Nothing | Need::Local | Need::Read(_) | Need::Write(_, _) => false,
        },
        None => true,
    }
}
