//! The law of all endings, read from their text.

ghost use Rattle.std.specs.Prelude.{◌≡◌, ◌<◌, ◌≤◌, ℕ, List, ◌++◌, Some, length};
ghost use Rattle.pp_machine.specs.Run.{run};
ghost use Rattle.pp_deck.specs.DeckMeaning.{LoadedDeck};
ghost use Rattle.pp_run.specs.Determinacy.{IsQuiet};
ghost use Rattle.pp_ends.specs.Ending.{StandAlike};
ghost use Rattle.pp_orders.specs.Endings.{AreAllEndings, AreEndings, IsEnding, LeadsTo, after_order};
ghost use Rattle.pp_endings.specs.EndingsText.{IsEndingsText};
ghost use Rattle.pp_races.specs.RacesText.{verdict_line};
ghost use Rattle.pp_races.specs.declared.verdict.Verdict.TheVariants.{Same};
ghost use Rattle.pp_sim.specs.TextOf.{IsRacesText, run_of};
ghost use Rattle.pp_laws.specs.OrdersRead.{SaysMore, orders_read};

use crate::races_text_law;
use pp_orders::endings_law;

/// The orders of a text of all endings are what `--order` reads on its lines `ORDER`. They lead to
/// endings of the deck, no two to the same; and unless the first line says that there may be more,
/// these are all: every order of steps can go on into one of them, one that ends where nothing can
/// move stands as one of them does, and one that comes into an ending comes into one of them. If
/// the races of a run of the deck end with `SAME IN EVERY ORDER`, there is at most one, and one
/// unless there may be more. It stands as the run ends.
pub fn orders_law()
    ensures read { (deck : LoadedDeck) (text : List ℕ) → (is : IsEndingsText deck text)
        → orders_read deck.machine.profile text ≡ Some is.orders }
    ensures endings { (deck : LoadedDeck) (text : List ℕ) (orders : List (List ℕ))
        → IsEndingsText deck text → orders_read deck.machine.profile text ≡ Some orders
        → AreEndings deck.machine orders }
    ensures all { (deck : LoadedDeck) (text : List ℕ) (orders : List (List ℕ))
        → IsEndingsText deck text → orders_read deck.machine.profile text ≡ Some orders
        → ¬ SaysMore text → AreAllEndings deck.machine orders }
    ensures quiet_end { (deck : LoadedDeck) (text : List ℕ) (orders : List (List ℕ)) (ns : List ℕ)
        → IsEndingsText deck text → orders_read deck.machine.profile text ≡ Some orders
        → ¬ SaysMore text → IsQuiet (run ns deck.machine)
        → (i : ℕ) × (i < length orders)
        × StandAlike (run ns deck.machine) (after_order deck.machine orders i) }
    ensures no_other { (deck : LoadedDeck) (text : List ℕ) (orders : List (List ℕ)) (ns : List ℕ)
        → IsEndingsText deck text → orders_read deck.machine.profile text ≡ Some orders
        → ¬ SaysMore text → IsEnding (run ns deck.machine)
        → (i : ℕ) × (i < length orders)
        × LeadsTo (run ns deck.machine) (after_order deck.machine orders i)
        × LeadsTo (after_order deck.machine orders i) (run ns deck.machine) }
    ensures at_most_one { (deck : LoadedDeck) (text races before : List ℕ)
        (orders : List (List ℕ)) (first : List ℕ) (turns : ℕ)
        → IsEndingsText deck text → orders_read deck.machine.profile text ≡ Some orders
        → IsRacesText first turns deck races → races ≡ before ++ verdict_line Same
        → length orders ≤ 1 }
    ensures one { (deck : LoadedDeck) (text races before : List ℕ) (orders : List (List ℕ))
        (first : List ℕ) (turns : ℕ)
        → IsEndingsText deck text → orders_read deck.machine.profile text ≡ Some orders
        → ¬ SaysMore text
        → IsRacesText first turns deck races → races ≡ before ++ verdict_line Same
        → (length orders ≡ 1) × StandAlike (run (run_of first turns deck) deck.machine)
        (after_order deck.machine orders 0) }
{
    races_text_law();
    endings_law();
}
