//! The laws of decks that go on from a dump.

ghost use Rattle.std.specs.Prelude.{◌≡◌, ◌<◌, ◌≤◌, ℕ, All, IsTrue, List, length, None, Ok, Some};
ghost use Rattle.pp_numbers.specs.Profile.{has_processor};
ghost use Rattle.pp_numbers.specs.declared.profile.Profile.{Profile};
ghost use Rattle.pp_listing.specs.RestOfOrder.{order_left};
ghost use Rattle.pp_command.specs.OrderList.{listed_steps};
ghost use Rattle.pp_text.specs.OrderText.{order_text};
ghost use Rattle.pp_deck.specs.DeckMeaning.{LoadedDeck, deck_meaning};
ghost use Rattle.pp_listing.specs.Dump.{deck_to_go_on, first_busy};
ghost use Rattle.pp_sim.specs.TextOf.{IsDumpText, after_turns};
ghost use Rattle.pp_laws.specs.GoingOn.{GoesOnExactly};

use pp_deck::deck_law;

/// A deck may be dumped after any number of turns, if its machine is then between programs: in the
/// order that is left, the deck to go on from runs as the deck itself goes on. So does each deck
/// that the text of a `TextOf::Dump` means.
pub fn goes_on_law()
    ensures run { (profile : Profile) (bytes : List ℕ) (deck : LoadedDeck) (first : List ℕ)
        (turns : ℕ) → deck_meaning profile bytes ≡ Ok deck
        → first_busy (after_turns first turns deck).machine ≡ None
        → GoesOnExactly first turns deck (deck_to_go_on (after_turns first turns deck)) }
    ensures text { (profile : Profile) (bytes text : List ℕ) (deck loaded : LoadedDeck)
        (first : List ℕ) (turns : ℕ) → deck_meaning profile bytes ≡ Ok deck
        → IsDumpText first turns deck text → deck_meaning profile text ≡ Ok loaded
        → GoesOnExactly first turns deck loaded }
{
    deck_law();
}

/// An order of steps is read by `--order` as it is printed, if it has steps, and no more than a run
/// has, each of a processor of the machine. So a dump names the very order that is left.
#[tactic(auto, using(crate::proofs::OrderReadLemmas::read_back, // any order, and what is left
crate::proofs::OrderReadLemmas::left_read))]
pub fn order_text_law()
    ensures order { (profile : Profile) (order : List ℕ)
        → 0 < length order → length order ≤ 999999
        → All (λ n. IsTrue (has_processor profile n)) order
        → listed_steps profile (order_text order) ≡ Some order }
    ensures left { (profile : Profile) (first : List ℕ) (turns : ℕ)
        → length first ≤ 999999 → All (λ n. IsTrue (has_processor profile n)) first
        → (let rest = order_left first profile turns in
        0 < length rest → listed_steps profile (order_text rest) ≡ Some rest) }
{}
