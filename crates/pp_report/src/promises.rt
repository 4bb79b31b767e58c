//! Laws of reports, and of every run of a deck. These functions do nothing: their contracts say
//! what is proved of the definitions.

ghost use Rattle.std.specs.Prelude.{◌≡◌, ℕ, List, Ok};
ghost use Rattle.pp_deck.specs.DeckMeaning.{LoadedDeck, deck_meaning};
ghost use Rattle.pp_report.specs.Types.{Profile, Report};
ghost use Rattle.pp_machine.specs.MachineState.{MachineState};
ghost use Rattle.pp_report.specs.EveryRun.{HoldsOfEveryRun};
ghost use Rattle.pp_report.specs.Serial.{HasNotRun, IsSerialRunOf};
ghost use Rattle.pp_numbers.specs.Limits.{RunLimits};
ghost use Rattle.pp_runner.specs.Report.{IsReportOf};

use pp_channel::session_law;
use pp_deck::deck_law;
use pp_machine::run_law;
use std::alloc::Allocator;

/// What threads did, some list of steps does, one after another: there are steps that lead the
/// machine to the very processors and the very histories of the report, and to the words of central
/// memory that its accesses leave in their order. The steps of each thread's processor get the very
/// answers that the thread got, words of central memory among them. So what is proved of what lists
/// of steps leave holds of what threads leave. Which processor made each event, it does not say.
pub fn serial_law<A: Allocator>()
    ensures { (limits : RunLimits) (m : MachineState) (report : Report A)
        → HasNotRun m → (is : IsReportOf limits m report)
        → (ns : List ℕ) × IsSerialRunOf ns m report is.order }
{}

/// The headline, of each text that is a deck. After any list of steps of the machine that it loads,
/// whichever processors their numbers name, each channel's history is its opening history followed
/// by the events of the trace on it; it is lawful, and in every session, at each moment, the words
/// taken are the first of the words put, all but at most one, which is lost only if a disconnect
/// finds the channel full, directly after its put; and no word is put or taken outside a session.
/// The same holds of the histories that threads leave, with their accesses in one order; and some
/// list of steps does what the threads did.
pub fn headline_law<A: Allocator>()
    ensures { (profile : Profile) (text : List ℕ) (deck : LoadedDeck)
        → deck_meaning profile text ≡ Ok deck → HoldsOfEveryRun A deck.machine }
{
    deck_law();
    run_law();
    session_law();
    serial_law::<A>();
}
