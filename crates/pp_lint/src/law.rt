ghost use Rattle.std.specs.Prelude.{ℕ, ◌≡◌, List, Ok, false};
ghost use Rattle.pp_deck.specs.DeckMeaning.{LoadedDeck, deck_meaning};
ghost use Rattle.pp_lint.specs.Findings.{findings};
ghost use Rattle.pp_lint.specs.LintText.{is_something_found};
ghost use Rattle.pp_numbers.specs.declared.profile.Profile.{Profile};

/// A deck in which nothing is found is loaded.
#[tactic(auto, using(crate::proofs::LoadLemmas::loads))]
pub fn lint_law()
    ensures { (profile : Profile) (deck : List ℕ)
        → is_something_found (findings profile deck) ≡ false
        → (loaded : LoadedDeck) × (deck_meaning profile deck ≡ Ok loaded) }
{}
