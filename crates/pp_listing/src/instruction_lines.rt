ghost use Rattle.pp_text.specs.TextWriter.{Prints};
ghost use Rattle.pp_listing.specs.ListedLine.{listed_line, text_line, text_of};
ghost use Rattle.pp_listing.specs.Listing.{instructions_listed};

use crate::listed_instructions::{ListedInstruction, ListedInstructions};
use pp_machine::Pp;
use pp_text::{TextWriter, octal4, print_running};
use std::io::Write;

/// Prints the lines of all words that are not 0.
pub(crate) fn print_instructions<W: Write>(text: &mut TextWriter<W>, pp: &Pp)
    ensures { Prints W.contents text.old text.new (text_of (instructions_listed pp.now)) }
{
    let mut instructions = ListedInstructions::of(pp);
    while let Some(i) = instructions.next_instruction() {
        print_instruction(text, &i);
    }
}

/// Prints `0100 7405           * ACN 05` or `0101 5050 0200      * LDM 0200,50`, and a line feed.
fn print_instruction<W: Write>(text: &mut TextWriter<W>, i: &ListedInstruction)
    ensures { Prints W.contents text.old text.new (text_line (listed_line i.now)) }
{
    let second = if i.has_second {
        octal4(i.next.get())
    } else {
        *b"    "
    };
    text.print(&octal4(i.place.get()));
    text.print(b" ");
    text.print(&octal4(i.word.get()));
    text.print(b" ");
    text.print(&second);
    text.print(b"      * ");
    print_running(text, None, i.place, i.word, i.next);
    text.print(b"\n");
}
