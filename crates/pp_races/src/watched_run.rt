//! A run that is watched, and whose findings are printed as they come.

ghost use Rattle.std.specs.Prelude.{◌≡◌, ◌≢◌, ◌≤◌, ℕ, true, [], length, take, IfErr, IfOk, OnErr, OnOk};
ghost use Rattle.std.specs.List.{list_all};
ghost use Rattle.pp_machine.specs.Run.{run};
ghost use Rattle.pp_run.specs.Determinacy.{IsDeterminate, IsRaceFreeSoFar};
ghost use Rattle.pp_races.specs.Findings.{findings};
ghost use Rattle.pp_races.specs.RacesText.{is_going_on};
ghost use Rattle.pp_races.specs.Printing.{PrintsFindings, PrintsFirst};
ghost use Rattle.pp_races.specs.Watch.{unwatched};
ghost use Rattle.pp_races.specs.WatchTables.{AreTables};
ghost use Rattle.pp_races.specs.declared.verdict.Verdict.TheVariants.{NoRaceSoFar, Same};

use crate::Verdict;
use crate::printing::{print_findings, print_shared};
use crate::watch_tables::WatchTables;
use pp_machine::Machine;
use pp_run::Order;
use pp_text::TextWriter;
use std::alloc::Allocator;
use std::io::Write;

/// Makes the steps of an order, each of which is taken in before it is made, and prints what is
/// found of each, and at the end; then it answers what the findings come to. Refused memory, it
/// answers what those come to that are printed.
pub(crate) fn print_run<A: Allocator, W: Write>(
    text: &mut TextWriter<W>,
    machine: &mut Machine<A>,
    order: &Order<A>,
    tables: &mut WatchTables<A>,
) -> Result<Verdict, Verdict>
    requires { AreTables tables.old (length machine.old.central) unwatched }
    ensures ran { OnOk result (machine.new ≡ run order.now machine.old) }
    ensures printed { IfOk result (λ verdict. PrintsFindings W.contents text.old text.new Same
        verdict (findings order.now machine.old)) }
    ensures same { OnOk result (findings order.now machine.old ≡ []
        → IsDeterminate order.now machine.old) }
    ensures no_race { OnOk result (list_all is_going_on (findings order.now machine.old) ≡ true
        → IsRaceFreeSoFar order.now machine.old) }
    ensures cut { OnErr result ((done : ℕ) × (done ≤ length order.now)
        × (machine.new ≡ run (take done order.now) machine.old)) }
    ensures printed_first { IfErr result (λ verdict. PrintsFirst W.contents text.old text.new Same
        verdict (findings order.now machine.old)) }
    ensures of_steps { IfErr result (λ verdict. verdict ≢ NoRaceSoFar) }
{
    machine.is_sound();
    let mut verdict = Verdict::Same;
    for n in order.processors() {
        // Reveals its place to the proof.
        let _place = n.index();
        let Ok(()) = tables.take_step(machine, *n) else {
            return Err(verdict);
        };
        let Ok(_outcome) = machine.step(*n) else {
            return Err(verdict);
        };
        verdict = print_findings(text, verdict, &tables.found);
        tables.found.clear();
    }
    let Ok(()) = tables.find_unsettled(machine) else {
        return Err(verdict);
    };
    verdict = print_findings(text, verdict, &tables.found);
    Ok(print_shared(text, verdict, &tables.uses))
}
