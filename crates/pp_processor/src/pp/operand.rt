ghost use Rattle.std.specs.Prelude.{◌≡◌};
ghost use Rattle.pp_word.specs.Address.{place_after};
ghost use Rattle.pp_processor.specs.Operand.{second_word, index, constant};
ghost use Rattle.pp_processor.specs.{InstructionTable.operand_place, Processor.word_at};

use crate::Pp;
use pp_word::{Opcode, Word6, Word12, Word18, index_address};

impl Pp {
    pub(super) fn place_after_p(&self, words: u8) -> Word12
        ensures { result ≡ place_after self.now.p words }
    {
        Word12::truncated(u32::from(self.p.get()) + u32::from(words))
    }

    /// The word at a place, as a value of A.
    pub(super) fn value_at(&self, place: Word12) -> Word18
        ensures { result ≡ word_at self.now place }
    {
        Word18::from(self.get(place))
    }

    pub(super) fn second_word(&self) -> Word12
        ensures { result ≡ second_word self.now }
    {
        self.get(self.place_after_p(1))
    }

    /// The place that the second word means, indexed by place d.
    pub(super) fn index(&self, d: Word6) -> Word12
        ensures { result ≡ index self.now d }
    {
        let m = self.second_word();
        if d.get() == 0 {
            m
        } else {
            index_address(m, self.get(Word12::from(d)))
        }
    }

    /// The place that stands at place d.
    pub(super) fn indirect(&self, d: Word6) -> Word12
        ensures { result ≡ word_at self.now d }
    {
        self.get(Word12::from(d))
    }

    /// The place of the word that a memory instruction works on.
    pub(super) fn operand_place(&self, op: Opcode, d: Word6) -> Word12
        ensures { result ≡ operand_place op self.now d }
    {
        match op.code() / 8 {
            4 => self.indirect(d),
            5 => self.index(d),
            _ => Word12::from(d),
        }
    }

    /// The constant of d and the second word.
    pub(super) fn constant(&self, d: Word6) -> Word18
        ensures { result ≡ constant self.now d }
    {
        Word18::truncated(u32::from(d.get()) * 0o10000 + u32::from(self.second_word().get()))
    }
}
