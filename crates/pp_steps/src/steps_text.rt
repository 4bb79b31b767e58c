//! The text of the steps of a run.

ghost use Rattle.pp_text.specs.Written.{IsReportWritten};
ghost use Rattle.pp_steps.specs.StepsText.{steps_text};

use crate::Choice;
use crate::cursor::{Cursor, LineKind};
use crate::spell_counts::counted_spells;
use crate::step_line::print_line;
use pp_machine::{Machine, PROCESSORS};
use pp_run::{BareMachine, Order, Progress};
use pp_text::{ReportFault, TextWriter};
use std::alloc::Allocator;
use std::io::Write;

/// Writes the steps chosen of a run of a machine in this order, and flushes the writer. The run is
/// made twice: first the held steps in a row are counted, which takes the memory, and then the
/// lines go out in pieces, by two machines, one a step ahead of the other.
pub fn write_steps<A: Allocator + Copy, W: Write>(
    alloc: A,
    writer: &mut W,
    machine: &Machine<A>,
    choice: &Choice,
    order: &Order<A>,
) -> Result<(), ReportFault>
    ensures { IsReportWritten (steps_text choice.now order.now machine.now)
        result (W.contents writer.old) (W.contents writer.new) }
{
    let spells = counted_spells(alloc, machine, choice, order)?;
    let mut before = BareMachine::of(alloc, machine)?;
    let mut after = BareMachine::of(alloc, machine)?;
    let mut text = TextWriter::new(writer);
    let mut cursors = [Cursor {
        spells: 0,
        last: Progress::AtRest,
    }; PROCESSORS];
    for n in order.processors() {
        let is_chosen = choice.has(&after, *n);
        let step = after.step(*n);
        let kind = if is_chosen {
            cursors[n.index()].pass(&spells[n.index()], step)
        } else {
            LineKind::NoLine
        };
        print_line(&mut text, *n, &before, &after, kind);
        let _same = before.step(*n);
    }
    Ok(text.finish()?)
}
