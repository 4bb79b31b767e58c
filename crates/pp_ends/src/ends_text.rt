ghost use Rattle.std.specs.Prelude.{◌≡◌, ◌++◌, codes};
ghost use Rattle.pp_machine.specs.MachineState.{processor_of};
ghost use Rattle.pp_word.specs.Numeral.{octal};
ghost use Rattle.pp_text.specs.{PrintedText.processor_line, Standing.standing, TextWriter.Prints};
ghost use Rattle.pp_text.specs.Written.{IsWritten};
ghost use Rattle.pp_ends.specs.Loops.{loop_of};
ghost use Rattle.pp_ends.specs.EndsText.{ending_text, ends_text, loop_text};

use crate::{Ending, Loop};
use pp_machine::{Machine, PROCESSORS, PpNo};
use pp_text::{
    Lines, TextWriter, WriteFault, octal4, print_channels, print_decimal, print_each_named,
    print_short_decimal, print_standing, processor_heading,
};
use std::alloc::Allocator;
use std::io::Write;

/// Writes how a run of `turns` turns of the barrel (decimal) ends: the ending; the processors
/// shown, each with the instruction that runs, the place of a block in progress, the channel that
/// holds it and the places between which it loops; and the channels that have a history; and
/// flushes the writer. `machine` is the machine after the turns that the ending names
/// (`Ending::turn`). Numbers are octal, but turns. The text goes out in pieces, and takes no
/// memory. If the writer fails, the rest of the text is lost.
#[tactic(auto, unfolding(crate::specs::EndsText::ends_text))]
pub fn write_ends<A: Allocator, W: Write>(
    writer: &mut W,
    shown: &[bool; PROCESSORS],
    ending: Ending,
    turns: u32,
    machine: &Machine<A>,
    loops: &[Option<Loop>; PROCESSORS],
) -> Result<(), WriteFault>
    ensures { IsWritten (ends_text shown.now ending turns machine.now loops.now) result
        (W.contents writer.old) (W.contents writer.new) }
{
    let mut text = TextWriter::new(writer);
    print_ending(&mut text, ending, turns);
    text.print(b"\n");
    print_each_named(&mut text, shown, &LoopingLines { machine, loops });
    print_channels(&mut text, machine);
    text.finish()
}

/// Prints `REPEATS FROM 000010 EVERY 20`.
fn print_ending<W: Write>(text: &mut TextWriter<W>, ending: Ending, turns: u32)
    ensures { Prints W.contents text.old text.new (ending_text ending turns) }
{
    match ending {
        Ending::AtRest { from } => {
            text.print(b"AT REST FROM ");
            print_decimal(text, u64::from(from));
        }
        Ending::Stuck { from } => {
            text.print(b"STUCK FROM ");
            print_decimal(text, u64::from(from));
        }
        Ending::Repeats { from, every } => {
            text.print(b"REPEATS FROM ");
            print_decimal(text, u64::from(from));
            text.print(b" EVERY ");
            print_short_decimal(text, u64::from(every));
        }
        Ending::GoingOn => {
            text.print(b"GOING ON AT ");
            print_decimal(text, u64::from(turns));
        }
    }
}

/// The lines of processors: `PP01 P=0101 A=000001 RUNNING IJM 0100,02 LOOPS 0100 TO 0101` and a
/// line feed.
#[derive(Drop)]
struct LoopingLines<'a, A: Allocator> {
    machine: &'a Machine<A>,
    loops: &'a [Option<Loop>; PROCESSORS],
}

impl<'a, A: Allocator, W: Write> Lines<PpNo, W> for LoopingLines<'a, A> {
    ghost text_of = { λ lines n. processor_line n (processor_of n lines.machine.now)
        (standing n lines.machine.now 0 ++ loop_text (loop_of lines.loops.now n)) };

    fn print(&self, text: &mut TextWriter<W>, n: &PpNo) {
        text.print(&processor_heading(*n, self.machine.pp(*n)));
        print_standing(text, self.machine, *n, 0);
        if let Some(found) = loop_of(self.loops, *n) {
            text.print(&loop_field(found));
        }
        text.print(b"\n");
    }
}

/// The loop of a processor, if it has one.
fn loop_of(loops: &[Option<Loop>; PROCESSORS], n: PpNo) -> &Option<Loop>
    ensures { result.now ≡ loop_of loops.now n }
{
    &loops[n.index()]
}

/// ` LOOPS 0100 TO 0101`
fn loop_field(found: &Loop) -> [u8; 19]
    ensures { result ≡ codes " LOOPS " ++ octal 4 found.now.first ++ codes " TO "
        ++ octal 4 found.now.last }
{
    let [f0, f1, f2, f3] = octal4(found.first.get());
    let [l0, l1, l2, l3] = octal4(found.last.get());
    [
        b' ', b'L', b'O', b'O', b'P', b'S', b' ', f0, f1, f2, f3, b' ', b'T', b'O', b' ', l0, l1,
        l2, l3,
    ]
}
