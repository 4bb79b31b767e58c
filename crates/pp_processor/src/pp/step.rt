ghost use Rattle.std.specs.Prelude.{◌≡◌, ◌↔◌, if◌then◌else◌, IsTrue};
ghost use Rattle.pp_processor.specs.{Block.block_word, InstructionTable.instruction};
ghost use Rattle.pp_processor.specs.NeedAndEffect.{need, processor_after, outcome, IsHeldAnswer};
ghost use Rattle.pp_numbers.specs.Profile.{has_channel};
ghost use Rattle.pp_processor.specs.{Replay.fits, Step.need_of};
ghost use Rattle.pp_processor.specs.Processor.{IsAtRest, IsAtFault, KeepsMemoryAndRegisters};

use crate::{Answer, Block, BlockKind, Need, Outcome, Pp, PpState};
use pp_channel::ChanOp;
use pp_word::{Opcode, Word6, Word12};

impl Pp {
    /// The need of an operation on channel d: local if there is no such channel.
    fn channel_need(&self, d: Word6, operation: ChanOp) -> Need
        ensures { result ≡ (if has_channel self.now.profile d then Need.Channel d operation
            else Need.Local) }
    {
        match self.channel(d) {
            Some(channel) => Need::Channel(channel, operation),
            None => Need::Local,
        }
    }

    #[inline(always)]
    pub(super) fn instruction_need(&self, op: Opcode, d: Word6) -> Need
        ensures { result ≡ need_of (instruction op self.now d) }
    {
        match op {
            Opcode::CRD => Need::Read(self.a),
            Opcode::CWD => Need::Write(self.a, self.central_from(Word12::from(d))),
            Opcode::AJM | Opcode::IJM | Opcode::FJM | Opcode::EJM => {
                self.channel_need(d, ChanOp::Probe)
            }
            Opcode::IAN => self.channel_need(d, ChanOp::Take),
            Opcode::OAN => self.channel_need(d, ChanOp::Put(self.a.low())),
            Opcode::ACN => self.channel_need(d, ChanOp::Activate),
            Opcode::DCN => self.channel_need(d, ChanOp::Disconnect),
            Opcode::FAN => self.channel_need(d, ChanOp::Function(self.a.low())),
            Opcode::FNC => self.channel_need(d, ChanOp::Function(self.second_word())),
            _ => Need::Local,
        }
    }

    #[inline(always)]
    pub(super) fn block_need(&self, block: Block) -> Need
        ensures { result ≡ need_of (block_word block.kind block.place self.now) }
    {
        let Block { kind, place } = block;
        match &kind {
            BlockKind::CentralIn { .. } => Need::Read(self.a),
            BlockKind::CentralOut { .. } => Need::Write(self.a, self.central_from(place)),
            BlockKind::Input { channel } => Need::Channel(*channel, ChanOp::Take),
            BlockKind::Output { channel } => Need::Channel(*channel, ChanOp::Put(self.get(place))),
        }
    }

    /// What the next step needs from outside: nothing if it is at rest.
    #[tactic(auto, unfolding(crate::specs::NeedAndEffect::need), // at rest it asks for nothing
    using(crate::proofs::StepLemmas::nothing_at_rest))]
    #[inline(always)]
    pub fn wants(&self) -> Need
        ensures need { result ≡ need self.now }
        ensures nothing_unless_running { (result ≡ Need.Nothing) ↔ IsAtRest self.now }
    {
        if !matches!(self.state, PpState::Running) {
            return Need::Nothing;
        }
        let (next, d) = self.next_instruction();
        self.wants_next(&next, d)
    }

    /// Gives the answer to the need that `wants` returns.
    #[tactic(auto, unfolding(crate::specs::NeedAndEffect::processor_after, // at rest it stays
    crate::specs::NeedAndEffect::outcome), using(crate::proofs::StepLemmas::answers_given))]
    #[inline(always)]
    pub fn give(&mut self, answer: Answer) -> Outcome
        requires fits { IsTrue (fits (need self.old) answer) }
        ensures after { self.new ≡ processor_after self.old answer }
        ensures outcome { result ≡ outcome self.old answer }
        ensures held_changes_nothing { result ≡ Outcome.Held → self.new ≡ self.old }
        ensures held_by_channel { result ≡ Outcome.Held → IsHeldAnswer answer }
        ensures at_rest_unless_running { (result ≡ Outcome.AtRest) ↔ IsAtRest self.old }
        ensures rest_changes_nothing { IsAtRest self.old → self.new ≡ self.old }
        ensures fault_keeps { self.old.state ≡ PpState.Running → IsAtFault self.new
            → KeepsMemoryAndRegisters self.old self.new }
    {
        if !matches!(self.state, PpState::Running) {
            return Outcome::AtRest;
        }
        let (next, d) = self.next_instruction();
        self.give_next(&next, d, answer)
    }
}
