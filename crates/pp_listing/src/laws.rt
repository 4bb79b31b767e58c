//! The laws of listings and dumps. These functions do nothing: their contracts say what is proved
//! of the definitions.

ghost use Rattle.std.specs.Prelude.{ℕ, ◌≡◌, ◌≤◌, List, length, None, Ok};
ghost use Rattle.pp_deck.specs.DeckMeaning.{LoadedDeck, deck_meaning};
ghost use Rattle.pp_numbers.specs.declared.profile.Profile.{Profile};
ghost use Rattle.pp_machine.specs.Run.{run};
ghost use Rattle.pp_listing.specs.Dump.{after, deck_to_go_on, dump, first_busy};
ghost use Rattle.pp_listing.specs.Listing.{listing};

/// The listing of a loaded deck, read as a deck for a machine of the same profile, is that deck.
#[tactic(auto, using(crate::proofs::ListingLemmas::listing_is_deck))]
pub fn listing_law()
    ensures { (profile : Profile) (text : List ℕ) (deck : LoadedDeck)
        → deck_meaning profile text ≡ Ok deck
        → length (listing deck) ≤ 1048576 → deck_meaning profile (listing deck) ≡ Ok deck }
{}

/// The dump of a loaded deck that any steps have left between programs, read as a deck for a
/// machine of the same profile, is the deck to go on from, whatever order it names to go on with.
#[tactic(auto, using(crate::proofs::DumpLawLemmas::dump_law_of))]
pub fn dump_law()
    ensures { (profile : Profile) (text : List ℕ) (deck : LoadedDeck) (steps order : List ℕ)
        → deck_meaning profile text ≡ Ok deck
        → first_busy (run steps deck.machine) ≡ None
        → length (dump order (after steps deck)) ≤ 1048576
        → deck_meaning profile (dump order (after steps deck))
        ≡ Ok (deck_to_go_on (after steps deck)) }
{}
