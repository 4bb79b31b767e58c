ghost use Rattle.std.specs.Prelude.{slice_index_or};
ghost use Rattle.pp_machine.specs.MachineState.{MachineState, processor_of};
ghost use Rattle.pp_numbers.specs.PpNo.{processor_index};
ghost use Rattle.pp_text.specs.{PrintedText.processor_line, Standing.standing, TextWriter.Prints};
ghost use Rattle.pp_text.specs.Written.{IsWritten};
ghost use Rattle.pp_run.specs.{BareMachine.StandsFor, StepCounts.no_steps};
ghost use Rattle.pp_state.specs.StateText.{changes_text, state_text};

use crate::changes::{has_changes, print_changed_central, print_section};
use pp_machine::{Machine, PROCESSORS, PpNo};
use pp_run::{BareMachine, StepCounts};
use pp_text::{
    Lines, TextWriter, WriteFault, print_channels, print_each_named, print_standing,
    processor_heading,
};
use std::alloc::Allocator;
use std::io::Write;

/// Writes how things stand after a run, and flushes the writer: the processors shown, as
/// `PP00 P=0113 A=000006 RUNNING IAN 01 HELD CH01 ACTIVE EMPTY x376`, with the instruction that
/// runs, the place of a block in progress and the channel that holds it; the words that differ from
/// the machine as it was loaded, for which `before` stands; and the channels that have a history.
/// `counts` counts the steps of each processor, in the order of the barrel: how many of its last in
/// a row were held is printed (decimal; all else is octal). The text goes out in pieces, and takes
/// no memory. If the writer fails, the rest of the text is lost.
#[tactic(auto, unfolding(crate::specs::StateText::state_text))]
pub fn write_state<A: Allocator, W: Write>(
    writer: &mut W,
    shown: &[bool; PROCESSORS],
    before: &BareMachine<A>,
    after: &Machine<A>,
    counts: &[StepCounts; PROCESSORS],
) -> Result<(), WriteFault>
    ensures { (load : MachineState) → StandsFor before.now load
        → IsWritten (state_text shown.now load after.now counts.now) result
        (W.contents writer.old) (W.contents writer.new) }
{
    let mut text = TextWriter::new(writer);
    print_each_named(&mut text, shown, &StandingLines { after, counts });
    print_changes(&mut text, before, after);
    text.finish()
}

/// Prints what comes behind the processors: the words that differ from the machine as it was
/// loaded, for which `before` stands, and the channels that have a history.
#[tactic(auto, unfolding(crate::specs::StateText::changes_text))]
pub fn print_changes<A: Allocator, W: Write>(
    text: &mut TextWriter<W>,
    before: &BareMachine<A>,
    after: &Machine<A>,
)
    ensures { (load : MachineState) → StandsFor before.now load
        → Prints W.contents text.old text.new (changes_text load after.now) }
{
    for place in 0..PROCESSORS {
        let n = PpNo::at(place);
        if has_changes(before.pp(n), after.pp(n)) {
            print_section(text, n, before.pp(n), after.pp(n));
        }
    }
    print_changed_central(text, before.central(), after.central());
    print_channels(text, after);
}

/// The lines of processors: `PP00 P=0113 A=000006 RUNNING IAN 01 HELD CH01 ACTIVE EMPTY x376` and a
/// line feed.
#[derive(Drop)]
struct StandingLines<'a, A: Allocator> {
    after: &'a Machine<A>,
    counts: &'a [StepCounts; PROCESSORS],
}

impl<'a, A: Allocator, W: Write> Lines<PpNo, W> for StandingLines<'a, A> {
    ghost text_of = { λ lines n. processor_line n (processor_of n lines.after.now) (standing n
        lines.after.now (slice_index_or lines.counts.now (processor_index n) no_steps).last_held) };

    fn print(&self, text: &mut TextWriter<W>, n: &PpNo) {
        text.print(&processor_heading(*n, self.after.pp(*n)));
        print_standing(text, self.after, *n, self.counts[n.index()].last_held);
        text.print(b"\n");
    }
}
