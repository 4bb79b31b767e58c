ghost use Rattle.std.specs.Prelude.{◌≡◌, []};
ghost use Rattle.pp_deck.specs.DeckLaw.{NamesWithin};
ghost use Rattle.pp_runner.specs.Report.{ReportFitsInMemory};
ghost use Rattle.pp_sim.specs.TextAnswer.{AnswersDeck, AnswersLoaded};
ghost use Rattle.pp_sim.specs.ThreadsText.{IsThreadsText};

use crate::TextFault;
use crate::deck_bytes::DeckBytes;
use crate::streams::read_front;
use crate::texts::answer_to_report;
use pp_deck::Deck;
use pp_machine::Profile;
use pp_report::{headline_law, write_report};
use pp_runner::{Gate, Limits, NoGate, run_threads};
use std::alloc::Allocator;
use std::io::{Read, Write};
use std::sync::Wait;
use std::thread::Threads;

// The allocator is the third type parameter here, as it is in `run_threads`: the checker takes over
// what is known of a type by its place.

/// Reads a deck for a machine of this profile, runs it with one thread per processor within these
/// limits, and writes the text of the run. What stands in it beyond what the deck determines may
/// differ from run to run. That the headline holds of it is law `headline_law`.
pub fn threads_text<T: Threads + Wait + Sync, R: Read, A: Allocator + Copy + Send + Sync, W: Write>(
    rt: &T,
    alloc: A,
    profile: Profile,
    reader: &mut R,
    writer: &mut W,
    limits: Limits,
) -> Result<(), TextFault>
    // A report takes less than all of memory, as it does with every allocator that there is.
    requires { ReportFitsInMemory A.row A.Allocator }
    ensures { AnswersDeck profile (IsThreadsText A limits) result
        (R.remaining reader.old) (R.remaining reader.new)
        (W.contents writer.old) (W.contents writer.new) }
{
    let front = read_front(alloc, reader)?;
    let bytes = front.as_slice();
    let loaded = DeckBytes { profile, bytes }.load(alloc)?;
    write_threads(rt, &NoGate, alloc, &loaded, writer, limits)
}

/// Runs a deck, and then writes the text of its run.
fn write_threads<
    T: Threads + Wait + Sync,
    G: Gate + Sync,
    A: Allocator + Copy + Send + Sync,
    W: Write,
>(
    rt: &T,
    gate: &G,
    alloc: A,
    loaded: &Deck<A>,
    writer: &mut W,
    limits: Limits,
) -> Result<(), TextFault>
    requires memory { ReportFitsInMemory A.row A.Allocator }
    requires fresh { loaded.now.machine.trace ≡ [] }
    requires names { NamesWithin loaded.now.machine.profile loaded.now.named }
    ensures { AnswersLoaded loaded.now.machine loaded.now.named (IsThreadsText A limits) result
        (W.contents writer.old) (W.contents writer.new) }
{
    headline_law::<A>();
    let Ok(report) = run_threads(rt, alloc, &loaded.machine, limits, gate) else {
        return Err(TextFault::Memory);
    };
    answer_to_report(write_report(alloc, writer, &report, &loaded.named))
}
