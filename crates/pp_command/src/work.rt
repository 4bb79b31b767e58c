use crate::TextOf;
use pp_condition::Until;
use pp_numbers::{CHANNELS, Limits, PpNo, Profile};
use std::alloc::Allocator;

/// What is tested of a deck.
#[derive(Clone, Copy)]
pub enum Tested {
    /// Its run of this many turns (decimal).
    Run(u32),
    /// Each ending over every order of its steps, as far as this many standings show (decimal): a
    /// command line gives 1 to 9,999,999.
    EveryOrder(u32),
}

/// The work that a command line asks for.
#[derive(Clone, Copy)]
pub enum Work {
    /// This text of a deck, for a machine of this profile.
    Deck { profile: Profile, text: TextOf },
    /// What is found in a deck, for a machine of this profile.
    Lint { profile: Profile },
    /// The verdict on a deck by its own expectations, for a machine of this profile.
    Test { profile: Profile, tested: Tested },
    /// The run of a deck with one thread per processor of this profile, within these limits.
    Threads { profile: Profile, limits: Limits },
    /// The check of a channel trace; the channels that are flagged, in the order of their places,
    /// were open before it.
    Check { opened: [bool; CHANNELS] },
}

/// A work, the processors whose steps come first in its run, and until when the run goes on, if not
/// for all its turns.
#[derive(Drop)]
pub struct Asked<A: Allocator> {
    pub work: Work,
    pub first: Vec<PpNo, A>,
    pub until: Option<Until>,
}
