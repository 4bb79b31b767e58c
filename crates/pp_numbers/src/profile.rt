ghost use Rattle.std.specs.Prelude.{◌≡◌, ◌↔◌, IsTrue, IsSome, IfSome};
ghost use Rattle.pp_numbers.specs.Profile.{processors_in, channels_in, has_processor, has_channel};

use crate::{CHANNELS, ChannelNo, PROCESSORS, PpNo};

/// How many processors and channels a machine has. Both profiles number the first ones alike.
#[derive(Clone, Copy)]
pub enum Profile {
    /// The 6600: ten processors, 0 to 11 (octal), and twelve channels, 0 to 13.
    Ten,
    /// A machine of twenty processors, 0 to 11 and 20 to 31 (octal), and twenty-four channels, 0 to
    /// 13 and 20 to 33.
    Twenty,
}

impl Profile {
    /// The number of its processors, 10 or 20 (decimal), and of the turns in a round of the barrel.
    pub fn processors(self) -> usize
        ensures { result ≡ processors_in self }
    {
        match self {
            Profile::Ten => 10,
            Profile::Twenty => PROCESSORS,
        }
    }

    /// The number of its channels, 12 or 24 (decimal).
    pub fn channels(self) -> usize
        ensures { result ≡ channels_in self }
    {
        match self {
            Profile::Ten => 12,
            Profile::Twenty => CHANNELS,
        }
    }

    /// Its processor of this number, or nothing from 12 (octal) on under `Ten`, from 12 to 17 and
    /// from 32 on under `Twenty`.
    #[tactic(auto, using(crate::proofs::ProfileLemmas::processor_named), // by its place
    unfolding(crate::specs::Profile::has_processor))]
    pub fn processor(self, number: u8) -> Option<PpNo>
        ensures exists { IsSome result ↔ IsTrue (has_processor self number) }
        ensures value { IfSome result (λ n. n ≡ number) }
    {
        let n = PpNo::new(number)?;
        (n.index() < self.processors()).then_some(n)
    }

    /// Its channel of this number, or nothing from 14 (octal) on under `Ten`, from 14 to 17 and
    /// from 34 on under `Twenty`.
    #[tactic(auto, using(crate::proofs::ProfileLemmas::channels_of_profiles))]
    pub fn channel(self, number: u8) -> Option<ChannelNo>
        ensures exists { IsSome result ↔ IsTrue (has_channel self number) }
        ensures value { IfSome result (λ c. c ≡ number) }
    {
        if number >= 0o14 && matches!(self, Profile::Ten) {
            return None;
        }
        ChannelNo::new(number)
    }
}
