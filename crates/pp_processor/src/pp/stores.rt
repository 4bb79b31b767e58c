ghost use Rattle.std.specs.Prelude.{◌≡◌};
ghost use Rattle.pp_processor.specs.Stores.{KeepsOthers, first_stored};

use crate::Pp;
use pp_word::{Opcode, Word12, decode};

impl Pp {
    /// The first of five places, one after another, outside of which its next step stores nothing;
    /// 0000 follows 7777 (octal).
    #[tactic(auto, using(crate::proofs::StoreLemmas::others_kept))]
    pub fn first_stored(&self) -> Word12
        ensures place { result ≡ first_stored self.now.block self.now }
        ensures others { KeepsOthers self.now result }
    {
        if let Some(block) = self.block() {
            return block.place;
        }
        let (operation, d) = decode(self.get(self.p()));
        match operation {
            Opcode::RJM => self.index(d),
            Opcode::CRM | Opcode::CWM | Opcode::IAM | Opcode::OAM => Word12::ZERO,
            _ => self.operand_place(operation, d),
        }
    }
}
