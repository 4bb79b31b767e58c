ghost use Rattle.std.specs.Prelude.{◌≡◌, IsTrue, None, true};
ghost use Rattle.pp_processor.specs.{InstructionTable.instruction, NextStep.is_internal};
ghost use Rattle.pp_processor.specs.{NeedAndEffect.answered, Replay.fits, Step.need_of};

use crate::{Answer, BlockKind, EXCHANGE_JUMP, NO_CENTRAL_PROCESSOR, NO_SUCH_CHANNEL, Pp, PpState};
use pp_word::{Opcode, Word6, Word12, Word18, clear18, complement18, shift18};

impl Pp {
    /// An instruction that needs nothing from outside, whatever its kind. It is compiled once, and
    /// what the barrel knows of a step need not be in memory for it.
    #[inline(never)]
    pub(super) fn run_local(&mut self, op: Opcode, d: Word6)
        requires running { self.old.state ≡ PpState.Running }
        requires free { self.old.block ≡ None }
        requires fits { fits (need_of (instruction op self.old d)) Answer.Local ≡ true }
        ensures { self.new ≡ answered (instruction op self.old d) self.old Answer.Local }
    {
        match op {
            Opcode::CRD | Opcode::CWD => unreachable!(),
            Opcode::CRM => {
                let left = self.indirect(d);
                self.start_block(u32::from(left.get()), BlockKind::CentralIn { left });
            }
            Opcode::CWM => {
                let left = self.indirect(d);
                self.start_block(u32::from(left.get()), BlockKind::CentralOut { left });
            }
            Opcode::IAM => match self.channel(d) {
                Some(channel) => self.start_block(self.a.get(), BlockKind::Input { channel }),
                None => self.fault(NO_SUCH_CHANNEL),
            },
            Opcode::OAM => match self.channel(d) {
                Some(channel) => self.start_block(self.a.get(), BlockKind::Output { channel }),
                None => self.fault(NO_SUCH_CHANNEL),
            },
            Opcode::AJM
            | Opcode::IJM
            | Opcode::FJM
            | Opcode::EJM
            | Opcode::IAN
            | Opcode::OAN
            | Opcode::ACN
            | Opcode::DCN
            | Opcode::FAN
            | Opcode::FNC => self.fault(NO_SUCH_CHANNEL),
            _ => self.run_internal(op, d),
        }
    }

    /// An instruction of the codes 00 to 57 (octal), in their order.
    #[inline(always)]
    pub(super) fn run_internal(&mut self, op: Opcode, d: Word6)
        requires internal { IsTrue (is_internal op) }
        requires free { self.old.block ≡ None }
        ensures { self.new ≡ answered (instruction op self.old d) self.old Answer.Local }
    {
        match op {
            Opcode::PSN => self.go_on(1),
            Opcode::LJM => self.p = self.index(d),
            Opcode::RJM => self.call(self.index(d)),
            Opcode::UJN => self.jump_or_stop(d),
            // Negative zero is not zero.
            Opcode::ZJN => self.jump_where(self.a.get() == 0, d),
            Opcode::NJN => self.jump_where(self.a.get() != 0, d),
            Opcode::PJN => self.jump_where(!self.is_negative(), d),
            Opcode::MJN => self.jump_where(self.is_negative(), d),
            Opcode::SHN => self.load(shift18(self.a, d), 1),
            Opcode::LMN => self.differ(Word18::from(d), 1),
            Opcode::LPN => self.mask(Word18::from(d), 1),
            Opcode::SCN => self.load(clear18(self.a, Word18::from(d)), 1),
            Opcode::LDN => self.load(Word18::from(d), 1),
            Opcode::LCN => self.load(complement18(Word18::from(d)), 1),
            Opcode::ADN => self.add(Word18::from(d), 1),
            Opcode::SBN => self.subtract(Word18::from(d), 1),
            Opcode::LDC => self.load(self.constant(d), 2),
            Opcode::ADC => self.add(self.constant(d), 2),
            Opcode::LPC => self.mask(self.constant(d), 2),
            Opcode::LMC => self.differ(self.constant(d), 2),
            // Arms of their own: in one with PSN, each quiet step takes two instructions more.
            Opcode::PSN24 => self.go_on(1),
            Opcode::PSN25 => self.go_on(1),
            Opcode::EXN => self.fault(EXCHANGE_JUMP),
            Opcode::RPN => self.fault(NO_CENTRAL_PROCESSOR),
            Opcode::LDD => self.load(self.value_at(Word12::from(d)), 1),
            Opcode::ADD => self.add(self.value_at(Word12::from(d)), 1),
            Opcode::SBD => self.subtract(self.value_at(Word12::from(d)), 1),
            Opcode::LMD => self.differ(self.value_at(Word12::from(d)), 1),
            Opcode::STD => self.store_word(Word12::from(d), 1),
            Opcode::RAD => self.replace_by_sum(Word12::from(d), 1),
            Opcode::AOD => self.replace_by_one_more(Word12::from(d), 1),
            Opcode::SOD => self.replace_by_one_less(Word12::from(d), 1),
            Opcode::LDI => self.load(self.value_at(self.indirect(d)), 1),
            Opcode::ADI => self.add(self.value_at(self.indirect(d)), 1),
            Opcode::SBI => self.subtract(self.value_at(self.indirect(d)), 1),
            Opcode::LMI => self.differ(self.value_at(self.indirect(d)), 1),
            Opcode::STI => self.store_word(self.indirect(d), 1),
            Opcode::RAI => self.replace_by_sum(self.indirect(d), 1),
            Opcode::AOI => self.replace_by_one_more(self.indirect(d), 1),
            Opcode::SOI => self.replace_by_one_less(self.indirect(d), 1),
            Opcode::LDM => self.load(self.value_at(self.index(d)), 2),
            Opcode::ADM => self.add(self.value_at(self.index(d)), 2),
            Opcode::SBM => self.subtract(self.value_at(self.index(d)), 2),
            Opcode::LMM => self.differ(self.value_at(self.index(d)), 2),
            Opcode::STM => self.store_word(self.index(d), 2),
            Opcode::RAM => self.replace_by_sum(self.index(d), 2),
            Opcode::AOM => self.replace_by_one_more(self.index(d), 2),
            Opcode::SOM => self.replace_by_one_less(self.index(d), 2),
            _ => unreachable!(),
        }
    }
}
