ghost use Rattle.std.specs.Prelude.{◌≡◌};
ghost use Rattle.pp_races.specs.Watch.{asking_step};

use pp_channel::ChannelNo;
use pp_machine::{Block, Machine, PpNo};
use pp_word::{Word12, next};
use std::alloc::Allocator;

/// A step that asks a channel.
#[derive(Clone, Copy)]
pub struct AskingStep {
    /// How many turns the machine had counted before it (decimal).
    pub turn: u64,
    /// The processor whose step it is.
    pub pp: PpNo,
    /// The channel.
    pub channel: ChannelNo,
    /// The place of the instruction.
    pub p: Word12,
    /// The word there.
    pub word: Word12,
    /// The word at the place after it.
    pub next: Word12,
    /// The block in progress.
    pub block: Option<Block>,
}

impl AskingStep {
    /// The next step of a processor, which asks this channel.
    pub(crate) fn of<A: Allocator>(machine: &Machine<A>, n: PpNo, c: ChannelNo) -> AskingStep
        ensures { result ≡ asking_step n c machine.now }
    {
        let pp = machine.pp(n);
        let p = pp.p();
        AskingStep {
            turn: machine.turns(),
            pp: n,
            channel: c,
            p,
            word: pp.get(p),
            next: pp.get(next(p)),
            block: pp.block(),
        }
    }
}
