ghost use Rattle.std.specs.Prelude.{ℕ, ◌≡◌, All, List, true};
ghost use Rattle.pp_deck.specs.DeckMeaning.{LoadedDeck};
ghost use Rattle.pp_machine.specs.Headline.{IsMachine};
ghost use Rattle.pp_machine.specs.Run.{run};
ghost use Rattle.pp_orders.specs.Endings.{IsEnding};
ghost use Rattle.pp_run.specs.Determinacy.{IsQuiet};
ghost use Rattle.pp_test.specs.EveryOrder.{EndsAsExpected, IsEveryOrderText, LeadsAsExpected};
ghost use Rattle.pp_test.specs.Expectations.{expectations};
ghost use Rattle.pp_test.specs.Verdict.{Holds, is_held, lines_in};

/// What is held is so: the words of each expectation that has to be begin some line, and those of
/// each that must not be begin none.
pub fn held_law()
    ensures { (deck text : List ℕ) → is_held deck text ≡ true
        → All (Holds (lines_in text)) (expectations deck) }
{}

/// What is held over every order is so: every order of steps that ends quiet leaves the machine
/// standing as after an order of which all expectations hold, and every order that comes into an
/// ending comes into that of such an order.
pub fn every_order_law()
    ensures quiet_end { (bytes text : List ℕ) (deck : LoadedDeck)
        → IsEveryOrderText bytes deck true text → (ns : List ℕ) → IsQuiet (run ns deck.machine)
        → EndsAsExpected bytes deck ns }
    ensures no_other { (bytes text : List ℕ) (deck : LoadedDeck) → IsMachine deck.machine
        → IsEveryOrderText bytes deck true text → (ns : List ℕ)
        → IsEnding (run ns deck.machine) → LeadsAsExpected bytes deck ns }
{}
