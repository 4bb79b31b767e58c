//! Laws of all orders of steps.

ghost use Rattle.std.specs.Prelude.{◌≡◌, ℕ, List, [], ◌∷◌, length, All, Ok, ◌++◌};
ghost use Rattle.pp_numbers.specs.ChannelNo.{channel_count};
ghost use Rattle.pp_machine.specs.MachineState.{MachineState};
ghost use Rattle.pp_numbers.specs.PpNo.{processor_count};
ghost use Rattle.pp_machine.specs.Run.{run};
ghost use Rattle.pp_run.specs.Determinacy.{AreAlike, IsDeterminate, IsEmbeddedIn, IsQuiet, IsRaceFreeSoFar, ShowsParts};
ghost use Rattle.pp_orders.specs.Endings.{AreAllEndings};
ghost use Rattle.pp_deck.specs.DeckMeaning.{LoadedDeck, deck_meaning};
ghost use Rattle.pp_report.specs.Types.{Profile, Report};
ghost use Rattle.pp_laws.specs.OneRun.{EndsAtRest, IsOver, ShowsPartsOf};
ghost use Rattle.pp_report.specs.Serial.{LeadsToReport};
ghost use Rattle.pp_numbers.specs.Limits.{RunLimits};
ghost use Rattle.pp_runner.specs.Report.{IsReportOf};
ghost use Rattle.pp_races.specs.RacesText.{verdict_line};
ghost use Rattle.pp_races.specs.declared.verdict.Verdict.TheVariants.{NoRaceSoFar, Same};
ghost use Rattle.pp_sim.specs.TextOf.{IsRacesText, run_of};

use pp_deck::deck_law;
use pp_report::serial_law;
use std::alloc::Allocator;

/// If in one list of steps no step may race on a channel, no processor uses a central word that
/// another writes, and each is settled after it, it ends quiet. Every other list of steps shows
/// each processor and each channel only as the first showed it at some moment; and one that ends
/// quiet, or in which the first stands with any steps between, leaves the processors, central
/// memory and the histories of the channels as the first did, each event made by the same
/// processor. So the first leads to the only ending of the machine.
#[tactic(auto, using(crate::proofs::DeterminacyLemmas::every_order))]
pub fn determinacy_law()
    ensures quiet { (ns : List ℕ) (m : MachineState)
        → length m.processors ≡ processor_count → length m.histories ≡ channel_count
        → IsDeterminate ns m → IsQuiet (run ns m) }
    ensures parts { (ns others : List ℕ) (m : MachineState)
        → length m.processors ≡ processor_count → length m.histories ≡ channel_count
        → IsDeterminate ns m → ShowsParts ns m (run others m) }
    ensures result { (ns others : List ℕ) (m : MachineState)
        → length m.processors ≡ processor_count → length m.histories ≡ channel_count
        → IsDeterminate ns m → IsQuiet (run others m) → AreAlike (run others m) (run ns m) }
    ensures going_on { (ns others : List ℕ) (m : MachineState)
        → length m.processors ≡ processor_count → length m.histories ≡ channel_count
        → IsDeterminate ns m → IsEmbeddedIn ns others → AreAlike (run others m) (run ns m) }
    ensures ending { (ns : List ℕ) (m : MachineState)
        → length m.processors ≡ processor_count → length m.histories ≡ channel_count
        → IsDeterminate ns m → AreAllEndings m (ns ∷ []) }
{}

/// What one run of a deck determines of every run of it by threads, if no step of it may race on a
/// channel, no processor uses a central word that another writes, and each is settled after it.
/// However the threads ended, each processor and each channel stands as at some moment of that run.
/// If nothing more can move, as when all are at rest, the run leads to the very processors and the
/// very histories that the threads left, and to the words of central memory that their accesses
/// leave.
pub fn one_run_law<A: Allocator>()
    ensures parts { (profile : Profile) (text : List ℕ) (deck : LoadedDeck) (ns : List ℕ)
        (limits : RunLimits) (report : Report A)
        → deck_meaning profile text ≡ Ok deck → IsDeterminate ns deck.machine
        → IsReportOf limits deck.machine report → ShowsPartsOf ns deck.machine report }
    ensures result { (profile : Profile) (text : List ℕ) (deck : LoadedDeck) (ns : List ℕ)
        (limits : RunLimits) (report : Report A)
        → deck_meaning profile text ≡ Ok deck → IsDeterminate ns deck.machine
        → (is : IsReportOf limits deck.machine report) → IsOver report
        → LeadsToReport ns deck.machine report is.order }
    ensures rest { (limits : RunLimits) (m : MachineState) (report : Report A)
        → IsReportOf limits m report → All (λ w. EndsAtRest w.finish) report.ends.items
        → IsOver report }
{
    deck_law();
    determinacy_law();
    serial_law::<A>();
}

/// If the last line of a `TextOf::Races` is `SAME IN EVERY ORDER`, the run ends quiet; every other
/// list of steps of the deck's machine shows each processor and each channel only as this run
/// showed it at some moment; and one that ends quiet, or in which the turns of this run stand with
/// any steps between, leaves the processors, central memory, and the histories of the channels,
/// each event made by the same processor, as this run did. So this run leads to the only ending. If
/// it is `NO RACE SO FAR`, each step of this run waits or is race-free, and only the processor that
/// writes a central word uses it.
pub fn races_text_law()
    ensures quiet { (first : List ℕ) (turns : ℕ) (deck : LoadedDeck) (text before : List ℕ)
        → IsRacesText first turns deck text → text ≡ before ++ verdict_line Same
        → IsQuiet (run (run_of first turns deck) deck.machine) }
    ensures parts { (first : List ℕ) (turns : ℕ) (deck : LoadedDeck) (text before others : List ℕ)
        → IsRacesText first turns deck text → text ≡ before ++ verdict_line Same
        → ShowsParts (run_of first turns deck) deck.machine (run others deck.machine) }
    ensures result { (first : List ℕ) (turns : ℕ) (deck : LoadedDeck) (text before others : List ℕ)
        → IsRacesText first turns deck text → text ≡ before ++ verdict_line Same
        → IsQuiet (run others deck.machine)
        → AreAlike (run others deck.machine)
        (run (run_of first turns deck) deck.machine) }
    ensures going_on { (first : List ℕ) (turns : ℕ) (deck : LoadedDeck)
        (text before others : List ℕ)
        → IsRacesText first turns deck text → text ≡ before ++ verdict_line Same
        → IsEmbeddedIn (run_of first turns deck) others
        → AreAlike (run others deck.machine)
        (run (run_of first turns deck) deck.machine) }
    ensures ending { (first : List ℕ) (turns : ℕ) (deck : LoadedDeck) (text before : List ℕ)
        → IsRacesText first turns deck text → text ≡ before ++ verdict_line Same
        → AreAllEndings deck.machine (run_of first turns deck ∷ []) }
    ensures so_far { (first : List ℕ) (turns : ℕ) (deck : LoadedDeck) (text before : List ℕ)
        → IsRacesText first turns deck text → text ≡ before ++ verdict_line NoRaceSoFar
        → IsRaceFreeSoFar (run_of first turns deck) deck.machine }
{
    determinacy_law();
}

/// What such a text says of every run of the deck by threads. However the threads ended, each
/// processor and each channel stands as at some moment of the run that was printed. If nothing more
/// can move, that run leads to the very processors and the very histories that the threads left,
/// and to the words of central memory that their accesses leave.
pub fn races_report_law<A: Allocator>()
    ensures parts { (profile : Profile) (bytes text before : List ℕ) (deck : LoadedDeck)
        (first : List ℕ) (turns : ℕ) (limits : RunLimits) (report : Report A)
        → deck_meaning profile bytes ≡ Ok deck
        → IsRacesText first turns deck text → text ≡ before ++ verdict_line Same
        → IsReportOf limits deck.machine report
        → ShowsPartsOf (run_of first turns deck) deck.machine report }
    ensures result { (profile : Profile) (bytes text before : List ℕ) (deck : LoadedDeck)
        (first : List ℕ) (turns : ℕ) (limits : RunLimits) (report : Report A)
        → deck_meaning profile bytes ≡ Ok deck
        → IsRacesText first turns deck text → text ≡ before ++ verdict_line Same
        → (is : IsReportOf limits deck.machine report) → IsOver report
        → LeadsToReport (run_of first turns deck) deck.machine report is.order }
{
    one_run_law::<A>();
}
