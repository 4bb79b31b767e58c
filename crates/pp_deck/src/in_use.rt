ghost use Rattle.std.specs.Prelude.{◌≡◌};
ghost use Rattle.pp_deck.specs.InUse.{in_use, is_in_use};

use crate::Deck;
use pp_channel::ChannelNo;
use pp_machine::{PROCESSORS, PpNo};
use std::alloc::Allocator;

impl<A: Allocator> Deck<A> {
    /// Which processors are in use, in the barrel's order: those that the deck names, and those
    /// that waited at dead start.
    pub fn in_use(&self) -> [bool; PROCESSORS]
        ensures { result ≡ in_use (record { machine = self.now.machine; named = self.now.named }) }
    {
        let mut used = [false; PROCESSORS];
        for place in 0..PROCESSORS {
            used[place] = is_in_use(self, PpNo::at(place));
        }
        used
    }
}

#[tactic(auto, using(pp_numbers::proofs::PpNoLemmas::channel_of_processor))]
fn is_in_use<A: Allocator>(deck: &Deck<A>, n: PpNo) -> bool
    ensures { result ≡ is_in_use (record { machine = deck.now.machine; named = deck.now.named }) n }
{
    // Dead start had it wait on the channel of its own number.
    let channel = ChannelNo::new(n.get());
    deck.named[n.index()] || channel.is_some_and(|c| deck.machine.opened(c))
}
