ghost use Rattle.pp_deck.specs.DeckLaw.{NamesWithin};
ghost use Rattle.pp_deck.specs.DeckMeaning.{deck_meaning};
ghost use Rattle.pp_sim.specs.TextAnswer.{IsLoadFault};
ghost use Rattle.std.specs.Prelude.{◌≡◌, [], Ok, IfOk, IfErr};

use crate::TextFault;
use pp_deck::{Deck, DeckCode, deck_law, read_deck};
use pp_machine::Profile;
use std::alloc::Allocator;

/// The bytes of a deck for a machine of this profile.
#[derive(Drop)]
pub(crate) struct DeckBytes<'a> {
    pub profile: Profile,
    pub bytes: &'a [u8],
}

impl<'a> DeckBytes<'a> {
    /// The deck that they spell. Its machine has not run yet.
    pub(crate) fn load<A: Allocator + Copy>(&self, alloc: A) -> Result<Deck<A>, TextFault>
        ensures ok { IfOk result (λ deck. deck_meaning self.now.profile self.now.bytes.now
            ≡ Ok (record { machine = deck.machine; named = deck.named })) }
        ensures fresh { IfOk result (λ deck. deck.machine.trace ≡ []) }
        ensures profile { IfOk result (λ deck. deck.machine.profile ≡ self.now.profile) }
        ensures names { IfOk result (λ deck. NamesWithin deck.machine.profile deck.named) }
        ensures fault { IfErr result (IsLoadFault self.now.profile self.now.bytes.now) }
    {
        deck_law();
        match read_deck(alloc, self.profile, self.bytes) {
            Ok(deck) => Ok(deck),
            Err(fault) if fault.code == DeckCode::Memory => Err(TextFault::Memory),
            Err(fault) => Err(TextFault::Deck(fault)),
        }
    }
}
