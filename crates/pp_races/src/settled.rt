//! Whether the processors are settled after a run.

ghost use Rattle.std.specs.Prelude.{◌≡◌, ℕ, IsTrue, OnOk};
ghost use Rattle.pp_processor.specs.NeedAndEffect.{need, processor_after};
ghost use Rattle.pp_processor.specs.declared.{answer.Answer.Answer, need.Need.Need};
ghost use Rattle.pp_numbers.specs.PpNo.{names_processor};
ghost use Rattle.pp_races.specs.Findings.{end_by_need, end_of, turns_in_place};
ghost use Rattle.pp_races.specs.Soundness.{TurnTestIsExact};
ghost use Rattle.pp_races.specs.WatchTables.{AreTables, finds};
ghost use Rattle.pp_races.specs.Watch.{Watch, each_number};

use crate::Finding;
use crate::asked::Asked;
use crate::finding::keep;
use crate::watch_tables::WatchTables;
use pp_channel::Memory;
use pp_machine::{Answer, Machine, Need, PROCESSORS, Pp, PpNo};
use std::alloc::Allocator;

/// Whether a processor turns in place, by a step that needs nothing from outside.
fn turns_in_place(pp: &Pp) -> bool
    requires { need pp.now ≡ Need.Local }
    ensures turns { result ≡ turns_in_place pp.now }
    ensures stays { IsTrue result → processor_after pp.now Answer.Local ≡ pp.now }
{
    let mut after = pp.copy();
    let _ = after.give(Answer::Local);
    after.first_difference(pp).is_none()
}

impl<A: Allocator> WatchTables<A> {
    /// Finds whether a processor that asks a channel goes on, or might have gone on.
    fn find_asking(&mut self, asked: &Asked<A>) -> Result<(), Memory>
        ensures { OnOk result ((size : ℕ) (w : Watch) → AreTables self.old size w
            → AreTables self.new size (finds (end_by_need
            (Need.Channel asked.now.c asked.now.op) asked.now.n asked.now.machine.now w) w)) }
    {
        if !asked.waits() {
            keep(&mut self.found, Finding::GoingOn(asked.n))?;
            return Ok(());
        }
        let goes_on = asked.goes_on_at();
        if let Some(entry) = self.first_race(asked, &goes_on) {
            keep(&mut self.found, Finding::HeldBefore(asked.step(), entry))?;
        }
        Ok(())
    }

    /// Finds whether a processor goes on, or might have gone on.
    fn find_end(&mut self, machine: &Machine<A>, n: PpNo) -> Result<(), Memory>
        ensures found { OnOk result ((size : ℕ) (w : Watch) → AreTables self.old size w
            → AreTables self.new size (finds (end_of machine.now w n) w)) }
        ensures turns { OnOk result (TurnTestIsExact machine.now n) }
    {
        let pp = machine.pp(n);
        match pp.wants() {
            Need::Nothing => Ok(()),
            Need::Local if turns_in_place(pp) => Ok(()),
            Need::Local | Need::Read(_) | Need::Write(_, _) => {
                keep(&mut self.found, Finding::GoingOn(n))
            }
            Need::Channel(c, op) => self.find_asking(&Asked { machine, n, c, op }),
        }
    }

    /// Finds which processors go on, or might have gone on.
    pub(crate) fn find_unsettled(&mut self, machine: &Machine<A>) -> Result<(), Memory>
        ensures found { OnOk result ((size : ℕ) (w : Watch) → AreTables self.old size w
            → AreTables self.new size (finds (each_number (end_of machine.now w)) w)) }
        ensures turns { OnOk result ((q : ℕ) → IsTrue (names_processor q)
            → TurnTestIsExact machine.now q) }
    {
        for place in 0..PROCESSORS {
            self.find_end(machine, PpNo::at(place))?;
        }
        Ok(())
    }
}
