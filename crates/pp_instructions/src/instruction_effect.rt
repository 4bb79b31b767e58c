//! What an instruction does wherever it is run.

ghost use Rattle.std.specs.Prelude.{◌≡◌};
ghost use Rattle.pp_instructions.specs.InstructionEffect.{channel_named, goes_on, leads_to, place_behind, sends_function, sure_fault};

use crate::instruction::Instruction;
use pp_numbers::Profile;
use pp_processor::{channel_named, jump_from, may_go_on, sends_function, sure_fault};
use pp_word::{Word6, Word12, decode, next};

impl Instruction {
    /// Its fault wherever it is run, if it is one.
    #[tactic(auto, unfolding(crate::specs::InstructionEffect::sure_fault))]
    pub fn sure_fault(&self, profile: Profile) -> Option<u8>
        ensures { result ≡ sure_fault profile self.now.word }
    {
        let (operation, d) = decode(self.word);
        sure_fault(profile, operation, d)
    }

    /// Whether the instruction behind it may be the next.
    #[tactic(auto, unfolding(crate::specs::InstructionEffect::goes_on))]
    pub fn goes_on(&self, profile: Profile) -> bool
        ensures { result ≡ goes_on profile self.now.word }
    {
        let (operation, d) = decode(self.word);
        may_go_on(profile, operation, d)
    }

    /// The place behind it.
    #[tactic(auto, unfolding(crate::specs::InstructionEffect::place_behind))]
    pub fn place_behind(&self) -> Word12
        ensures { result ≡ place_behind self.now }
    {
        if decode(self.word).0.is_long() {
            next(next(self.place))
        } else {
            next(self.place)
        }
    }

    /// The place that it leads to, if it is a jump to another place than its own and 0000.
    #[tactic(auto, unfolding(crate::specs::InstructionEffect::leads_to))]
    pub fn leads_to(&self, profile: Profile) -> Option<Word12>
        ensures { result ≡ leads_to profile self.now }
    {
        let (operation, d) = decode(self.word);
        let target = jump_from(profile, operation, self.place, d, self.second)?;
        if target.get() == self.place.get() || target.get() == 0 {
            return None;
        }
        Some(target)
    }

    /// The channel that it works on, if it is for one that the machine has.
    #[tactic(auto, unfolding(crate::specs::InstructionEffect::channel_named))]
    pub fn channel_named(&self, profile: Profile) -> Option<Word6>
        ensures { result ≡ channel_named profile self.now.word }
    {
        let (operation, d) = decode(self.word);
        channel_named(profile, operation, d)
    }

    /// Whether it sends a function code to equipment.
    #[tactic(auto, unfolding(crate::specs::InstructionEffect::sends_function))]
    pub fn sends_function(&self) -> bool
        ensures { result ≡ sends_function self.now.word }
    {
        sends_function(decode(self.word).0)
    }
}
