mod block;
mod difference;
mod effect;
mod load;
mod local;
mod next_step;
mod operand;
mod reply;
mod step;
mod stores;

ghost use Rattle.std.specs.Prelude.{◌≡◌, ◌↔◌, IsTrue, IsSome, IfSome};
ghost use Rattle.pp_processor.specs.Processor.{IsProcessor, HasFaultNumber, IsBlockIn, Processor, new_processor, word_at};
ghost use Rattle.pp_numbers.specs.Profile.{has_channel};

use crate::pp_memory::PpMemory;
use crate::{Block, PpState};
pub use next_step::ends;
use pp_channel::ChannelNo;
use pp_numbers::Profile;
use pp_word::{Word6, Word12, Word18};
use std::marker::Model;

/// A peripheral processor: its memory, the accumulator A, the program address P, its state, a block
/// transfer, if one is in progress, and its machine's profile. Contracts see it as a `Processor`.
#[derive(Drop)]
pub struct Pp {
    memory: PpMemory,
    a: Word18,
    p: Word12,
    state: PpState,
    block: Option<Block>,
    profile: Profile,
}

impl Model for Pp {
    ghost Value = { Processor };

    ghost view = { λ pp. record {
      profile = pp.profile;
      memory = pp.memory;
      a = pp.a;
      p = pp.p;
      state = pp.state;
      block = pp.block;
    } };

    ghost invariant = { λ pp. HasFaultNumber pp.state × IsBlockIn pp.state pp.block };
}

impl Pp {
    /// A stopped processor of a machine of this profile, whose memory, A and P are 0.
    pub fn new(profile: Profile) -> Self
        ensures { result ≡ new_processor profile }
    {
        Pp {
            memory: PpMemory::new(),
            a: Word18::ZERO,
            p: Word12::ZERO,
            state: PpState::Stopped,
            block: None,
            profile,
        }
    }

    /// The profile of its machine.
    pub fn profile(&self) -> Profile
        ensures { result ≡ self.now.profile }
    {
        self.profile
    }

    /// The channel that the lower six bits of an instruction name, if its machine has it.
    pub fn channel(&self, d: Word6) -> Option<ChannelNo>
        ensures exists { IsSome result ↔ IsTrue (has_channel self.now.profile d) }
        ensures value { IfSome result (λ c. c ≡ d) }
    {
        self.profile.channel(d.get())
    }

    /// The word at a place.
    pub fn get(&self, place: Word12) -> Word12
        ensures value { result ≡ word_at self.now place }
        ensures widths { IsProcessor self.now }
    {
        self.has_widths();
        self.memory.get(place)
    }

    /// What is true of each processor.
    pub(crate) fn has_widths(&self)
        ensures { IsProcessor self.now }
    {
        self.memory.has_widths();
        // Reveals to the proof that A has 18 bits and P twelve.
        let _a = self.a.get();
        let _p = self.p.get();
    }

    /// The program address.
    pub fn p(&self) -> Word12
        ensures { result ≡ self.now.p }
    {
        self.p
    }

    /// The accumulator.
    pub fn a(&self) -> Word18
        ensures { result ≡ self.now.a }
    {
        self.a
    }

    /// Its state: running, stopped, or at a numbered fault.
    pub fn state(&self) -> PpState
        ensures value { result ≡ self.now.state }
        // Every processor at a fault is at a numbered one, however it came there.
        ensures fault_number { HasFaultNumber result }
    {
        self.state
    }

    /// The block transfer in progress.
    pub fn block(&self) -> Option<Block>
        ensures value { result ≡ self.now.block }
        // Only a running processor is in a block, which has words left, however it came there.
        ensures only_running { IsBlockIn self.now.state result }
    {
        self.block
    }

    /// An equal processor.
    pub fn copy(&self) -> Self
        ensures { result ≡ self.now }
    {
        Pp {
            memory: self.memory.copy(),
            ..*self
        }
    }
}
