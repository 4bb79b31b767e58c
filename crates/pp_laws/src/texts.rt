//! Laws of the texts of runs.

ghost use Rattle.std.specs.Prelude.{ℕ, List};
ghost use Rattle.pp_deck.specs.DeckMeaning.{LoadedDeck};
ghost use Rattle.pp_machine.specs.Run.{run};
ghost use Rattle.pp_numbers.specs.Limits.{RunLimits};
ghost use Rattle.pp_sim.specs.ThreadsText.{IsThreadsText};
ghost use Rattle.pp_sim.specs.TextOf.{IsBarrelText, run_of};
ghost use Rattle.pp_report.specs.ReportLaw.{AgreeOnReport};
ghost use Rattle.pp_text.specs.TextLaw.{AgreeOnText, AreSameHistories, NameAlike};

use pp_report::report_law;
use pp_text::text_law;
use std::alloc::Allocator;

/// The text is the trace: if two decks run to one text, they name the same processors, their
/// machines made the same events in the same turns, agree on what is shown of each processor named
/// and of each channel, and have the same history on each channel.
pub fn barrel_text_law()
    ensures { (deck other : LoadedDeck) (first second : List ℕ) (turns others : ℕ) (text : List ℕ)
        → IsBarrelText first turns deck text → IsBarrelText second others other text
        → (let one = run (run_of first turns deck) deck.machine in
        let also = run (run_of second others other) other.machine in
        AgreeOnText deck.named other.named one also
        × AreSameHistories one.histories also.histories) }
{
    text_law();
}

/// The same for threads: if runs of two decks come to one text, the decks name the same processors,
/// and the reports agree on the events of each channel, each with its number and its author, on P,
/// A and the end of each processor named, and on the channels; and each channel has the same
/// history in both.
pub fn threads_text_law<A: Allocator>()
    ensures { (deck other : LoadedDeck) (limits others : RunLimits) (text : List ℕ)
        (one : IsThreadsText A limits deck text) (also : IsThreadsText A others other text)
        → NameAlike deck.named other.named
        × AgreeOnReport deck.named other.named one.report also.report
        × AreSameHistories one.report.channels also.report.channels }
{
    report_law::<A>();
}
