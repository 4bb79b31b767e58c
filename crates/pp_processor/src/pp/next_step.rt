//! The parts of a step: the next instruction, decoded once, what it needs, and what each kind of
//! answer does. `wants` and `give` are made of them, a turn of the barrel, and a worker's step.

ghost use Rattle.std.specs.Prelude.{◌≡◌, ◌↔◌, ℕ, None, IsTrue, false, if◌then◌else◌};
ghost use Rattle.std.specs.Bool.{OnTrue, OnFalse};
ghost use Rattle.pp_processor.specs.NextStep.{IsAtInstruction, IsNext, ends, is_internal};
ghost use Rattle.pp_processor.specs.{InstructionTable.instruction, Replay.fits, Step.need_of};
ghost use Rattle.pp_processor.specs.NeedAndEffect.{need, processor_after, outcome, IsHeldAnswer};
ghost use Rattle.pp_processor.specs.Processor.{IsAtRest, Processor};
ghost use Rattle.pp_numbers.specs.Profile.{has_channel};

use crate::pp::effect::leads_to_itself;
use crate::{Answer, Block, BlockKind, Need, Outcome, Pp, PpState};
use pp_channel::{ChanOp, Flags, Reply};
use pp_word::{Opcode, Word6, Word60, decode};

/// Whether an operation needs nothing from outside, whatever its operands: codes 00 to 57 (octal).
fn is_internal(op: Opcode) -> bool
    ensures inner { result ≡ is_internal op }
    ensures local { (pp : Processor) (d : ℕ) → IsTrue result
        → need_of (instruction op pp d) ≡ Need.Local }
{
    op.code() < 0o60
}

/// Whether an instruction leaves its processor at rest.
pub fn ends(op: Opcode, d: Word6) -> bool
    ensures { result ≡ ends op d }
{
    match op {
        Opcode::UJN => leads_to_itself(d),
        Opcode::EXN | Opcode::RPN => true,
        _ => false,
    }
}

#[tactic(auto, unfolding(crate::specs::NeedAndEffect::need, // what it asks
crate::specs::NeedAndEffect::processor_after, // what the answer does
crate::specs::NeedAndEffect::outcome), using(crate::proofs::StepLemmas::taken_by_row))]
impl Pp {
    /// Whether it is running and in no block, so that its next step is the instruction at P.
    pub fn is_at_instruction(&self) -> bool
        ensures running { OnTrue result (self.now.state ≡ PpState.Running) }
        ensures free { OnTrue result (self.now.block ≡ None) }
    {
        matches!(self.state, PpState::Running) && self.block.is_none()
    }

    /// The operation of the instruction at P, its next step, and the lower six bits of its word.
    pub fn instruction_at_p(&self) -> (Opcode, Word6)
        requires running { self.now.state ≡ PpState.Running }
        requires free { self.now.block ≡ None }
        ensures { IsAtInstruction result.0 result.1 self.now }
    {
        decode(self.get(self.p))
    }

    /// The operation of the next instruction of a running processor and the lower six bits of its
    /// word; no operation if it is in a block.
    #[inline(always)]
    pub fn next_instruction(&self) -> (Option<Opcode>, Word6)
        requires { self.now.state ≡ PpState.Running }
        ensures { IsNext result.0 result.1 self.now }
    {
        if self.block.is_some() {
            return (None, Word6::truncated(0));
        }
        let (op, d) = self.instruction_at_p();
        (Some(op), d)
    }

    /// Makes its next step if that is of the codes 00 to 57 (octal), and returns whether it was.
    #[inline(always)]
    pub fn step_internal(&mut self, op: Opcode, d: Word6) -> bool
        requires { IsAtInstruction op d self.old }
        ensures local { OnTrue result (need self.old ≡ Need.Local) }
        ensures after { OnTrue result (self.new ≡ processor_after self.old Answer.Local) }
        ensures moved { OnTrue result (outcome self.old Answer.Local ≡ Outcome.Moved) }
        ensures running { OnTrue result (ends op d ≡ false → self.new.state ≡ PpState.Running) }
        ensures free { OnTrue result (self.new.block ≡ None) }
        ensures otherwise { OnFalse result (self.new ≡ self.old) }
    {
        if !is_internal(op) {
            return false;
        }
        self.run_internal(op, d);
        true
    }

    /// Whether its next step tests the flags of a channel: AJM, IJM, FJM or EJM.
    pub fn tests_flags(&self, op: Opcode, d: Word6) -> bool
        requires { IsAtInstruction op d self.now }
        ensures { OnTrue result (need self.now
            ≡ (if has_channel self.now.profile d then Need.Channel d ChanOp.Probe
            else Need.Local)) }
    {
        matches!(op, Opcode::AJM | Opcode::IJM | Opcode::FJM | Opcode::EJM)
    }

    /// Makes its next step, a test of a channel with these flags.
    #[inline(always)]
    pub fn test_flags(&mut self, op: Opcode, d: Word6, flags: Flags)
        requires next { IsAtInstruction op d self.old }
        requires fits { IsTrue (fits (need self.old) (Answer.Channel (Reply.Flags flags))) }
        ensures after { self.new ≡ processor_after self.old (Answer.Channel (Reply.Flags flags)) }
        ensures moved { outcome self.old (Answer.Channel (Reply.Flags flags)) ≡ Outcome.Moved }
        ensures running { self.new.state ≡ PpState.Running }
        ensures free { self.new.block ≡ None }
    {
        match op {
            Opcode::AJM => self.branch_where(flags.active),
            Opcode::IJM => self.branch_where(!flags.active),
            Opcode::FJM => self.branch_where(flags.full),
            Opcode::EJM => self.branch_where(!flags.full),
            _ => {}
        }
    }

    /// What its next step, which `next_instruction` found, needs from outside.
    #[inline(always)]
    pub fn wants_next(&self, next: &Option<Opcode>, d: Word6) -> Need
        requires { IsNext next.now d self.now }
        ensures { result ≡ need self.now }
    {
        match next {
            Some(op) => self.instruction_need(*op, d),
            None => match self.block {
                Some(block) => self.block_need(block),
                None => Need::Nothing,
            },
        }
    }

    /// Gives the answer to what its next step needs.
    #[tactic(auto, using(crate::proofs::StepLemmas::answers_given))]
    #[inline(always)]
    pub fn give_next(&mut self, next: &Option<Opcode>, d: Word6, answer: Answer) -> Outcome
        requires next { IsNext next.now d self.old }
        requires fits { IsTrue (fits (need self.old) answer) }
        ensures after { self.new ≡ processor_after self.old answer }
        ensures outcome { result ≡ outcome self.old answer }
        ensures held_changes_nothing { result ≡ Outcome.Held → self.new ≡ self.old }
        ensures held_by_channel { result ≡ Outcome.Held → IsHeldAnswer answer }
        ensures at_rest_unless_running { (result ≡ Outcome.AtRest) ↔ IsAtRest self.old }
    {
        match answer {
            Answer::Local => self.give_local(next, d),
            Answer::Channel(reply) => self.give_reply(next, d, reply),
            Answer::Read(word) => {
                self.give_central(next, d, word);
                Outcome::Moved
            }
            Answer::Wrote(written) => {
                self.give_written(next, d, written);
                Outcome::Moved
            }
        }
    }

    /// Makes its next step if that needs nothing from outside.
    #[inline(always)]
    pub fn give_local(&mut self, next: &Option<Opcode>, d: Word6) -> Outcome
        requires next { IsNext next.now d self.old }
        requires fits { IsTrue (fits (need self.old) Answer.Local) }
        ensures after { self.new ≡ processor_after self.old Answer.Local }
        ensures outcome { result ≡ outcome self.old Answer.Local }
    {
        // Each word of a block needs a channel or central memory.
        if let Some(op) = next {
            self.run_local(*op, d);
        }
        Outcome::Moved
    }

    /// Gives the reply of the channel that its next step needs.
    #[inline(always)]
    pub fn give_reply(&mut self, next: &Option<Opcode>, d: Word6, reply: Reply) -> Outcome
        requires next { IsNext next.now d self.old }
        requires fits { IsTrue (fits (need self.old) (Answer.Channel reply)) }
        ensures after { self.new ≡ processor_after self.old (Answer.Channel reply) }
        ensures outcome { result ≡ outcome self.old (Answer.Channel reply) }
    {
        match next {
            Some(op) => {
                if matches!(&reply, Reply::Held(_)) {
                    return Outcome::Held;
                }
                self.take_reply(*op, d, reply);
                Outcome::Moved
            }
            None => self.move_by_reply(reply),
        }
    }

    /// Gives the reply of the channel of its block.
    #[inline(always)]
    fn move_by_reply(&mut self, reply: Reply) -> Outcome
        requires next { IsNext None 0 self.old }
        requires fits { IsTrue (fits (need self.old) (Answer.Channel reply)) }
        ensures after { self.new ≡ processor_after self.old (Answer.Channel reply) }
        ensures outcome { result ≡ outcome self.old (Answer.Channel reply) }
    {
        let is_held = matches!(&reply, Reply::Held(flags) if flags.active);
        match self.block {
            None => {}
            Some(Block { kind, place }) => match &kind {
                BlockKind::Input { channel } => self.move_input(*channel, place, reply),
                BlockKind::Output { channel } => self.move_output(*channel, place, reply),
                _ => {}
            },
        }
        if is_held {
            Outcome::Held
        } else {
            Outcome::Moved
        }
    }

    /// Gives the central word that its next step needs, or none past the size.
    #[inline(always)]
    pub fn give_central(&mut self, next: &Option<Opcode>, d: Word6, word: Option<Word60>)
        requires next { IsNext next.now d self.old }
        requires fits { IsTrue (fits (need self.old) (Answer.Read word)) }
        ensures after { self.new ≡ processor_after self.old (Answer.Read word) }
        ensures moved { outcome self.old (Answer.Read word) ≡ Outcome.Moved }
    {
        match next {
            Some(op) => self.take_central(*op, d, word),
            None => match self.block {
                None => {}
                Some(Block { kind, place }) => match kind {
                    BlockKind::CentralIn { left } => self.move_central_in(left, place, word),
                    _ => {}
                },
            },
        }
    }

    /// Gives whether the central word that its next step writes was written.
    #[inline(always)]
    pub fn give_written(&mut self, next: &Option<Opcode>, d: Word6, written: bool)
        requires next { IsNext next.now d self.old }
        requires fits { IsTrue (fits (need self.old) (Answer.Wrote written)) }
        ensures after { self.new ≡ processor_after self.old (Answer.Wrote written) }
        ensures moved { outcome self.old (Answer.Wrote written) ≡ Outcome.Moved }
    {
        match next {
            Some(op) => self.take_written(*op, d, written),
            None => match self.block {
                None => {}
                Some(Block { kind, place }) => match kind {
                    BlockKind::CentralOut { left } => self.move_central_out(left, place, written),
                    _ => {}
                },
            },
        }
    }
}
