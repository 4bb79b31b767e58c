//! The text of the races of a run.

ghost use Rattle.std.specs.Prelude.{length};
ghost use Rattle.pp_text.specs.TextWriter.{Prints};
ghost use Rattle.pp_races.specs.RacesAnswer.{AnswersRaces};
ghost use Rattle.pp_races.specs.RacesText.{verdict_line};
ghost use Rattle.pp_races.specs.Watch.{unwatched};
ghost use Rattle.pp_races.specs.WatchTables.{AreTables};

use crate::Verdict;
use crate::event_counts::event_counts;
use crate::watch_tables::WatchTables;
use crate::watched_run::print_run;
use pp_machine::Machine;
use pp_run::Order;
use pp_text::{ReportFault, TextWriter};
use std::alloc::Allocator;
use std::io::Write;

/// Makes the steps of an order, and writes those that may race with others, the processors that are
/// not settled at the end, the central words that one processor wrote and another used, and what
/// they come to; and flushes the writer. If nothing is found, the run determines the result of
/// every order of steps; if nothing but processors that go on, each of its steps so far waits or is
/// race-free.
///
/// The lines go out as they come. Memory is asked for before the first of them, for as many events
/// as a run without histories and trace makes first: none is asked for later, as tests show. No
/// clause says so: where memory was refused after a line was printed, that would be a fault of
/// writing. After a fault the machine has made some first steps.
pub fn write_races<A: Allocator + Copy, W: Write>(
    alloc: A,
    writer: &mut W,
    machine: &mut Machine<A>,
    order: &Order<A>,
) -> Result<(), ReportFault>
    ensures { AnswersRaces order.now machine.old machine.new result
        (W.contents writer.old) (W.contents writer.new) }
{
    let events = event_counts(alloc, machine, order)?;
    machine.reserve(&events)?;
    let mut tables = WatchTables::of(alloc, machine, &events)?;
    write_watched(writer, machine, order, &mut tables)
}

/// Makes the run, and writes the text of its races.
fn write_watched<A: Allocator, W: Write>(
    writer: &mut W,
    machine: &mut Machine<A>,
    order: &Order<A>,
    tables: &mut WatchTables<A>,
) -> Result<(), ReportFault>
    requires { AreTables tables.old (length machine.old.central) unwatched }
    ensures { AnswersRaces order.now machine.old machine.new result
        (W.contents writer.old) (W.contents writer.new) }
{
    let mut text = TextWriter::new(writer);
    match print_run(&mut text, machine, order, tables) {
        Ok(verdict) => {
            print_verdict(&mut text, verdict);
            Ok(text.finish()?)
        }
        Err(verdict) => {
            let _written = text.finish();
            match verdict {
                // Nothing was found, and so nothing is printed.
                Verdict::Same => Err(ReportFault::Memory),
                Verdict::NoRaceSoFar | Verdict::MayDiffer => Err(ReportFault::Write),
            }
        }
    }
}

fn print_verdict<W: Write>(text: &mut TextWriter<W>, verdict: Verdict)
    ensures { Prints W.contents text.old text.new (verdict_line verdict) }
{
    let line: &[u8] = match verdict {
        Verdict::Same => b"SAME IN EVERY ORDER\n",
        Verdict::NoRaceSoFar => b"NO RACE SO FAR\n",
        Verdict::MayDiffer => b"MAY DIFFER\n",
    };
    text.print(line);
}
