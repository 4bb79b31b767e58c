//! Laws of printed texts as traces.

ghost use Rattle.std.specs.Prelude.{ℕ, ◌≡◌, ◌<◌, ◌^◌, Bool, List, Ok, length, IsTrue};
ghost use Rattle.pp_deck.specs.DeckMeaning.{LoadedDeck, deck_meaning};
ghost use Rattle.pp_deck.specs.DeckText.{lines_of};
ghost use Rattle.pp_machine.specs.Headline.{events_on as trace_events_on};
ghost use Rattle.pp_machine.specs.MachineState.{MachineState};
ghost use Rattle.pp_machine.specs.Run.{run};
ghost use Rattle.pp_numbers.specs.declared.profile.Profile.{Profile};
ghost use Rattle.pp_text.specs.PrintedText.{printed};
ghost use Rattle.pp_text.specs.TextLaw.{FitsItsText};
ghost use Rattle.pp_check.specs.LawfulTrace.{AreLawful, events_on, history, parsed_lines};
ghost use Rattle.pp_laws.specs.PrintedTrace.{AreOpenedBy, IsPrintable, IsPrintableReport};
ghost use Rattle.pp_numbers.specs.ChannelNo.{names_channel};
ghost use Rattle.pp_channel.specs.History.{history_on};
ghost use Rattle.pp_report.specs.Types.{Report};
ghost use Rattle.pp_numbers.specs.Limits.{RunLimits};
ghost use Rattle.pp_report.specs.PrintedReport.{printed_report};
ghost use Rattle.pp_sim.specs.ThreadsText.{IsThreadsText};
ghost use Rattle.pp_sim.specs.TextOf.{IsBarrelText, run_of};

use pp_deck::deck_law;
use pp_machine::run_law;
use std::alloc::Allocator;

/// What the barrel prints is lawful: the text of a machine whose histories are those of its trace,
/// and whose turns rise and have at most 19 decimal digits, if the channels given as open are those
/// that dead start opened. On each channel the events that are read are those of the trace. The
/// histories are so after every run (`run_law` of `pp_machine`), and a machine that is printed fits
/// its text (`write_text`).
pub fn printed_law()
    ensures lawful { (named : List Bool) (m : MachineState) (opened : List Bool)
        → IsPrintable named m → AreOpenedBy m opened
        → AreLawful opened (lines_of (printed named m)) }
    ensures events { (named : List Bool) (m : MachineState) (opened : List Bool)
        → IsPrintable named m → AreOpenedBy m opened
        → (c : ℕ) → events_on c (parsed_lines (lines_of (printed named m)))
        ≡ trace_events_on c m.trace }
{}

/// What `barrel` prints is lawful, of every deck and after every list of fewer than 10^19 steps:
/// the text of the machine, which fits it as each that is printed does (`write_text`), if the
/// channels given as open are those that dead start opened.
pub fn barrel_law()
    ensures { (profile : Profile) (text : List ℕ) (deck : LoadedDeck) (steps : List ℕ)
        (opened : List Bool) → deck_meaning profile text ≡ Ok deck → length steps < 10 ^ 19
        → (let m = run steps deck.machine in FitsItsText deck.named m → AreOpenedBy m opened
        → AreLawful opened (lines_of (printed deck.named m))) }
{
    deck_law();
    run_law();
}

/// What threads print is lawful: the text of a report of any run of a machine by threads that fits
/// its text, as each that is printed does (`write_report`), if no number of an event has more than
/// 19 decimal digits, and the channels given as open are those that dead start opened. On each
/// channel the events that are read, after what was open, are the history that the run made.
pub fn printed_report_law<A: Allocator>()
    ensures lawful { (named : List Bool) (limits : RunLimits) (m : MachineState)
        (report : Report A) (opened : List Bool) → IsPrintableReport named limits m report
        → AreOpenedBy m opened
        → AreLawful opened (lines_of (printed_report named report)) }
    ensures histories { (named : List Bool) (limits : RunLimits) (m : MachineState)
        (report : Report A) (opened : List Bool) → IsPrintableReport named limits m report
        → AreOpenedBy m opened
        → (c : ℕ) → IsTrue (names_channel c)
        → history opened (parsed_lines (lines_of (printed_report named report))) c
        ≡ history_on c report.channels }
{}

/// What `barrel_text` and `threads_text` write is a lawful trace, which `check_text` accepts if the
/// channels that it takes as open are those that dead start opened: of every deck after fewer than
/// 10^19 turns, and of every run by threads in which no channel has 10^19 events.
pub fn checked_text_law<A: Allocator>()
    ensures barrel { (profile : Profile) (bytes text first : List ℕ) (deck : LoadedDeck)
        (turns : ℕ) → deck_meaning profile bytes ≡ Ok deck → turns < 10 ^ 19
        → IsBarrelText first turns deck text
        → AreLawful (run (run_of first turns deck) deck.machine).opened
        (lines_of text) }
    ensures threads { (deck : LoadedDeck) (limits : RunLimits) (text : List ℕ)
        (is : IsThreadsText A limits deck text)
        → ((c : ℕ) → IsTrue (names_channel c)
        → length (history_on c is.report.channels) < 10 ^ 19)
        → AreLawful deck.machine.opened (lines_of text) }
{
    barrel_law();
    printed_report_law::<A>();
}
