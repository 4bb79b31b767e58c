ghost use Rattle.pp_machine.specs.MachineState.{processor_of};
ghost use Rattle.pp_text.specs.TextWriter.{Prints};
ghost use Rattle.pp_listing.specs.ListedLine.{text_of};
ghost use Rattle.pp_listing.specs.Listing.{section_lines, sections, start_line};

use crate::instruction_lines::print_instructions;
use crate::print_section_line;
use pp_machine::{Machine, PROCESSORS, Pp, PpNo, PpState};
use pp_text::{Lines, TextWriter, octal4, octal6, print_each_named};
use std::alloc::Allocator;
use std::io::Write;

/// Prints the sections of all processors named, in order of number.
pub(crate) fn print_sections<A: Allocator, W: Write>(
    text: &mut TextWriter<W>,
    machine: &Machine<A>,
    named: &[bool; PROCESSORS],
)
    ensures { Prints W.contents text.old text.new (text_of (sections named.now machine.now)) }
{
    print_each_named(text, named, &Sections(machine));
}

/// The sections of processors, with a line for each instruction and a start.
#[derive(Drop)]
struct Sections<'a, A: Allocator>(&'a Machine<A>);

impl<'a, A: Allocator, W: Write> Lines<PpNo, W> for Sections<'a, A> {
    ghost text_of = { λ sections n. text_of (section_lines n (processor_of n sections.0.now)) };

    fn print(&self, text: &mut TextWriter<W>, n: &PpNo) {
        let pp = self.0.pp(*n);
        print_section_line(text, *n);
        print_instructions(text, pp);
        print_start(text, pp);
    }
}

/// Prints `START 0100 000000` and a line feed, if the processor is running.
fn print_start<W: Write>(text: &mut TextWriter<W>, pp: &Pp)
    ensures { Prints W.contents text.old text.new
        (text_of (start_line pp.now.state pp.now.p pp.now.a)) }
{
    if matches!(pp.state(), PpState::Running) {
        text.print(b"START ");
        text.print(&octal4(pp.p().get()));
        text.print(b" ");
        text.print(&octal6(pp.a().get()));
        text.print(b"\n");
    }
}
