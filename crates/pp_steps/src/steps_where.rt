//! The text of the steps of a run that meet a condition.

ghost use Rattle.std.specs.Prelude.{◌≡◌};
ghost use Rattle.pp_steps.specs.StepsWhere.{IsWrittenWhere, line_alone};

use crate::Choice;
use crate::cursor::LineKind;
use crate::step_line::print_line;
use pp_condition::{Condition, step_meeting};
use pp_machine::Machine;
use pp_run::{BareMachine, Order, Progress};
use pp_text::{ReportFault, TextWriter};
use std::alloc::Allocator;
use std::io::Write;

/// Writes those of the steps chosen of a run of a machine in this order that meet a condition, each
/// on a line of its own, and flushes the writer. Three machines make the run: one says what a step
/// did and one whether it meets the condition, and the third stays a step behind.
pub fn write_steps_where<A: Allocator + Copy, W: Write>(
    alloc: A,
    writer: &mut W,
    machine: &Machine<A>,
    choice: &Choice,
    condition: &Condition,
    order: &Order<A>,
) -> Result<(), ReportFault>
    ensures { IsWrittenWhere choice.now condition.now order.now machine.now
        result (W.contents writer.old) (W.contents writer.new) }
{
    let mut before = BareMachine::of(alloc, machine)?;
    let mut after = BareMachine::of(alloc, machine)?;
    let mut watched = BareMachine::of(alloc, machine)?;
    let mut text = TextWriter::new(writer);
    for n in order.processors() {
        let is_chosen = choice.has(&after, *n);
        let meets = step_meeting(&mut watched, *n, condition);
        let step = after.step(*n);
        if is_chosen && meets {
            print_line(&mut text, *n, &before, &after, line_alone(step));
        }
        let _same = before.step(*n);
    }
    Ok(text.finish()?)
}

/// The line of a step by itself.
fn line_alone(step: Progress) -> LineKind
    ensures { result ≡ line_alone step }
{
    match step {
        Progress::AtRest => LineKind::NoLine,
        Progress::Moved => LineKind::OneStep,
        Progress::Held(_) => LineKind::HeldSteps(1),
    }
}
