ghost use Rattle.std.specs.Prelude.{◌≡◌, slice_set};
ghost use Rattle.pp_processor.specs.Processor.{runs_from, waiting_on};

use crate::{Block, BlockKind, Pp, PpState};
use pp_channel::ChannelNo;
use pp_word::{Word12, Word18};

impl Pp {
    /// Sets the word at a place.
    pub fn set(&mut self, place: Word12, word: Word12)
        ensures { self.new ≡ record self.old { memory = slice_set self.old.memory place word } }
    {
        self.memory.set(place, word);
    }

    /// Starts the program at P = p with A = a, on the memory as it is.
    pub fn start(&mut self, p: Word12, a: Word18)
        ensures { self.new ≡ runs_from p a self.old }
    {
        self.p = p;
        self.a = a;
        self.state = PpState::Running;
        self.block = None;
    }

    /// Makes it wait for a program that comes on a channel: a block input of 10000 words to its
    /// memory from place 0000 on (octal), with P = 0000, on the memory as it is. Once the channel
    /// is inactive it continues after the place whose number stands in place 0000.
    pub fn wait_load(&mut self, ch: ChannelNo)
        ensures { self.new ≡ waiting_on ch self.old }
    {
        self.p = Word12::ZERO;
        self.a = Word18::truncated(0o10_000);
        self.state = PpState::Running;
        self.block = Some(Block {
            kind: BlockKind::Input { channel: ch },
            place: Word12::ZERO,
        });
    }
}
