ghost use Rattle.std.specs.Prelude.{◌≡◌, None};
ghost use Rattle.pp_processor.specs.{InstructionTable.row, NeedAndEffect.answered};

use crate::{Answer, PAST_CENTRAL_MEMORY, Pp};
use pp_channel::Reply;
use pp_word::{Opcode, Word6, Word12, Word18, Word60};

impl Pp {
    /// An instruction that asked its channel, with the reply.
    #[inline(always)]
    pub(super) fn take_reply(&mut self, op: Opcode, d: Word6, reply: Reply)
        requires { self.old.block ≡ None }
        ensures { self.new ≡ answered (row op self.old d) self.old (Answer.Channel reply) }
    {
        match (op, reply) {
            (Opcode::AJM, Reply::Flags(flags)) => self.branch_where(flags.active),
            (Opcode::IJM, Reply::Flags(flags)) => self.branch_where(!flags.active),
            (Opcode::FJM, Reply::Flags(flags)) => self.branch_where(flags.full),
            (Opcode::EJM, Reply::Flags(flags)) => self.branch_where(!flags.full),
            (Opcode::IAN, Reply::Word(word)) => self.load(Word18::from(word), 1),
            (Opcode::OAN | Opcode::ACN | Opcode::DCN | Opcode::FAN, Reply::Done) => self.go_on(1),
            (Opcode::FNC, Reply::Done) => self.go_on(2),
            // Held changes nothing, and no other reply fits.
            _ => {}
        }
    }

    /// CRD, with the central word.
    #[inline(always)]
    pub(super) fn take_central(&mut self, op: Opcode, d: Word6, central: Option<Word60>)
        ensures { self.new ≡ answered (row op self.old d) self.old (Answer.Read central) }
    {
        match (op, central) {
            (Opcode::CRD, Some(word)) => {
                self.receive(Word12::from(d), word);
                self.go_on(1);
            }
            (Opcode::CRD, None) => self.fault(PAST_CENTRAL_MEMORY),
            _ => {}
        }
    }

    /// CWD, with whether the central word was written.
    #[inline(always)]
    pub(super) fn take_written(&mut self, op: Opcode, d: Word6, written: bool)
        ensures { self.new ≡ answered (row op self.old d) self.old (Answer.Wrote written) }
    {
        match (op, written) {
            (Opcode::CWD, true) => self.go_on(1),
            (Opcode::CWD, false) => self.fault(PAST_CENTRAL_MEMORY),
            _ => {}
        }
    }
}
