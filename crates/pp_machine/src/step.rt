ghost use Rattle.std.specs.Prelude.{◌≡◌, if◌then◌else◌, IfOk, IsOk, IsNone, OnOk, OnErr};
ghost use Rattle.pp_numbers.specs.Profile.{has_channel};
ghost use Rattle.pp_processor.specs.NeedAndEffect.{need};
ghost use Rattle.pp_processor.specs.NextStep.{IsAtInstruction, IsNext};
ghost use Rattle.pp_processor.specs.Processor.{IsAtRest, IsAtFault, KeepsMemoryAndRegisters};
ghost use Rattle.pp_machine.specs.{Headline.HoldsOnEachChannel, MachineState.processor_of};
ghost use Rattle.pp_machine.specs.MachineStep.{IsStep, answer_to, counted, event_for, served, stepped, step_outcome};

use crate::{Answer, Machine, Need, Outcome, PpState, Trace};
use pp_channel::{ChanOp, ChannelNo, Memory, Reply};
use pp_numbers::{PpNo, Profile};
use pp_word::{Opcode, Word6};
use std::alloc::Allocator;

impl<A: Allocator> Machine<A> {
    /// One step of a processor; a step that makes no event takes no memory.
    #[tactic(auto, using(crate::proofs::MachineStepLemmas::steps))]
    pub fn step(&mut self, n: PpNo) -> Result<Outcome, Memory>
        ensures step { IsStep n result self.old self.new }
        ensures at_rest { IsAtRest (processor_of n self.old)
            → self.new ≡ record self.old { turns = counted self.old.turns } }
        ensures held { IfOk result (λ o. o ≡ Outcome.Held
            → self.new ≡ record self.old { turns = counted self.old.turns }) }
        ensures fault_keeps { (processor_of n self.old).state ≡ PpState.Running
            → IsAtFault (processor_of n self.new)
            → KeepsMemoryAndRegisters (processor_of n self.old) (processor_of n self.new) }
        ensures headline { HoldsOnEachChannel self.new }
    {
        let pp = &self.processors[n.index()];
        if !matches!(pp.state(), PpState::Running) {
            self.count_turn();
            return Ok(Outcome::AtRest);
        }
        let (next, d) = pp.next_instruction();
        self.step_external(n, &next, d)
    }

    /// One step in the barrel, as `step` makes it, but what needs nothing from outside, and a test
    /// of flags, is tried first. The barrel has the only call, so that it is compiled in place.
    #[tactic(auto, using(crate::proofs::MachineStepLemmas::steps_at_rest))]
    pub(crate) fn step_in_barrel(&mut self, n: PpNo) -> Result<Outcome, Memory>
        ensures step { IsStep n result self.old self.new }
        ensures headline { HoldsOnEachChannel self.new }
    {
        let i = n.index();
        if !matches!(self.processors[i].state(), PpState::Running) {
            self.count_turn();
            return Ok(Outcome::AtRest);
        }
        let (next, d) = self.processors[i].next_instruction();
        if let Some(op) = &next {
            if self.processors[i].step_internal(*op, d) {
                self.count_turn();
                return Ok(Outcome::Moved);
            }
            if self.processors[i].tests_flags(*op, d) {
                let profile = self.processors[i].profile();
                self.test_flags(n, *op, d, profile);
                return Ok(Outcome::Moved);
            }
        }
        self.step_external(n, &next, d)
    }

    /// One more turn; the greatest count stays.
    fn count_turn(&mut self)
        ensures turn { self.new ≡ record self.old { turns = counted self.old.turns } }
        ensures headline { HoldsOnEachChannel self.new }
    {
        self.turns = self.turns.saturating_add(1);
    }

    /// The step of a test of the flags of a channel, a fault if there is no such channel.
    #[tactic(auto, using(crate::proofs::MachineStepLemmas::steps_by_probe))]
    fn test_flags(&mut self, n: PpNo, op: Opcode, d: Word6, profile: Profile)
        requires next { IsAtInstruction op d (processor_of n self.old) }
        requires probes { need (processor_of n self.old)
            ≡ (if has_channel profile d then Need.Channel d ChanOp.Probe else Need.Local) }
        ensures stepped { self.new ≡ stepped n self.old }
        ensures outcome { step_outcome n self.old ≡ Outcome.Moved }
        ensures headline { HoldsOnEachChannel self.new }
    {
        let Some(channel) = profile.channel(d.get()) else {
            let _fault = self.processors[n.index()].give_local(&Some(op), d);
            self.count_turn();
            return;
        };
        let flags = self.channel(channel).flags();
        self.processors[n.index()].test_flags(op, d, flags);
        self.count_turn();
    }

    /// The step of a processor that asks for any need, compiled in place where the barrel calls it.
    #[tactic(auto, unfolding(crate::specs::MachineStep::stepped, // the machine after it
    crate::specs::MachineStep::step_event, // its event
    crate::specs::MachineStep::step_outcome))]
    #[inline(always)]
    fn step_external(&mut self, n: PpNo, next: &Option<Opcode>, d: Word6) -> Result<Outcome, Memory>
        requires { IsNext next.now d (processor_of n self.old) }
        ensures step { IsStep n result self.old self.new }
        ensures headline { HoldsOnEachChannel self.new }
    {
        let i = n.index();
        match self.processors[i].wants_next(next, d) {
            Need::Nothing | Need::Local => {
                let outcome = self.processors[i].give_local(next, d);
                self.count_turn();
                Ok(outcome)
            }
            Need::Channel(channel, op) => {
                let reply = self.exchange(n, channel, op)?;
                let outcome = self.processors[i].give_reply(next, d, reply);
                self.count_turn();
                Ok(outcome)
            }
            Need::Read(address) => {
                let word = self.central.read(address);
                self.processors[i].give_central(next, d, word);
                self.count_turn();
                Ok(Outcome::Moved)
            }
            Need::Write(address, word) => {
                // The processor first: no store then comes between its two looks at its block.
                let is_within = address.get() < self.central.size();
                self.processors[i].give_written(next, d, is_within);
                let _written = self.central.write(address, word);
                self.count_turn();
                Ok(Outcome::Moved)
            }
        }
    }

    /// One operation of a processor on a channel; one that moves a word is compiled by itself.
    #[inline(always)]
    fn exchange(&mut self, n: PpNo, channel: ChannelNo, op: ChanOp) -> Result<Reply, Memory>
        ensures reply { IfOk result (λ r. Answer.Channel r
            ≡ answer_to (Need.Channel channel op) self.old) }
        ensures ok { OnOk result (self.new ≡ served n (Need.Channel channel op) self.old) }
        ensures unchanged_after_memory { OnErr result (self.new ≡ self.old) }
        ensures no_event { IsNone (event_for (Need.Channel channel op) self.old) → IsOk result }
    {
        match op {
            ChanOp::Take => self.operate(n, channel, ChanOp::Take),
            ChanOp::Put(word) => self.operate(n, channel, ChanOp::Put(word)),
            _ => self.operate(n, channel, op),
        }
    }

    /// One operation of a processor on a channel, whatever it is.
    #[inline(always)]
    fn operate(&mut self, n: PpNo, channel: ChannelNo, op: ChanOp) -> Result<Reply, Memory>
        ensures reply { IfOk result (λ r. Answer.Channel r
            ≡ answer_to (Need.Channel channel op) self.old) }
        ensures ok { OnOk result (self.new ≡ served n (Need.Channel channel op) self.old) }
        ensures unchanged_after_memory { OnErr result (self.new ≡ self.old) }
        ensures no_event { IsNone (event_for (Need.Channel channel op) self.old) → IsOk result }
    {
        // Reveals to the proof that the number is that of a channel.
        let _named = channel.get();
        let i = channel.index();
        let made = self.channels[i].next_event(&op);
        match &made {
            None => Ok(self.channels[i].shown(&op)),
            Some(event) => {
                let turn = self.turns;
                self.trace.push(Trace {
                    turn,
                    pp: n,
                    channel,
                    event: *event,
                })?;
                let lent = &mut self.channels[i];
                let reply = lent.make(op, *event);
                // Reveals to the proof that the history is lawful.
                let _history = lent.history();
                match reply {
                    Ok(reply) => Ok(reply),
                    Err(memory) => {
                        let _ = self.trace.pop();
                        Err(memory)
                    }
                }
            }
        }
    }
}
