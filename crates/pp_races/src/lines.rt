//! The lines of findings.

ghost use Rattle.std.specs.Prelude.{◌<◌, ◌≤◌, ◌++◌, [], codes, length, nat_lt, if◌then◌else◌};
ghost use Rattle.pp_numbers.specs.PpNo.{processor_count};
ghost use Rattle.pp_word.specs.Numeral.{octal};
ghost use Rattle.pp_text.specs.PrintedText.{line_end};
ghost use Rattle.pp_text.specs.TextWriter.{Prints};
ghost use Rattle.pp_races.specs.RacesText.{entry_text, finding_line, name_text, place_text, processors_text, step_line};

use crate::sharing::count;
use crate::{AskingStep, Finding};
use pp_machine::{PROCESSORS, PpNo, Trace};
use pp_text::{
    Lines, TextWriter, channel_name, octal4, octal6, print_decimal, print_each_below,
    print_event_end, processor_name, running_field,
};
use std::io::Write;

/// Prints the line of a finding and a line feed.
#[tactic(auto, unfolding(crate::specs::RacesText::finding_line))]
pub(crate) fn print_finding_line<W: Write>(text: &mut TextWriter<W>, finding: &Finding)
    ensures { Prints W.contents text.old text.new (finding_line finding.now) }
{
    match finding {
        Finding::Before(step, entry) => print_step_line(text, step, b" BEFORE ", entry),
        Finding::After(step, entry) => print_step_line(text, step, b" AFTER ", entry),
        Finding::GoingOn(n) => {
            text.print(&processor_name(*n));
            text.print(b" GOING ON\n");
        }
        Finding::HeldBefore(step, entry) => print_held_line(text, step, entry),
        Finding::Shared(address, writers, users) => {
            print_shared_line(text, *address, writers, users);
        }
    }
}

/// Prints `000041 PP01 0204 DCN 05        CH05 BEFORE 000040 PP00 TAK 0002` and a line feed, with
/// this word between the step and the event.
fn print_step_line<W: Write>(
    text: &mut TextWriter<W>,
    step: &AskingStep,
    between: &[u8],
    entry: &Trace,
)
    requires { length between.now ≤ 10 }
    ensures { Prints W.contents text.old text.new (step_line step.now between.now entry.now) }
{
    print_decimal(text, step.turn);
    text.print(b" ");
    print_place(text, step);
    text.print(between);
    print_entry(text, entry);
}

/// Prints `PP01 0201 IAM 05        CH05 HELD, BEFORE 000040 PP00 PUT 0002` and a line feed.
fn print_held_line<W: Write>(text: &mut TextWriter<W>, step: &AskingStep, entry: &Trace)
    ensures { Prints W.contents text.old text.new
        (place_text step.now ++ codes " HELD, BEFORE " ++ entry_text entry.now ++ line_end) }
{
    print_place(text, step);
    text.print(b" HELD, BEFORE ");
    print_entry(text, entry);
}

/// Prints `CM 000005 WRITTEN BY PP00 USED BY PP00,PP01` and a line feed.
fn print_shared_line<W: Write>(
    text: &mut TextWriter<W>,
    address: u32,
    writers: &[bool; PROCESSORS],
    users: &[bool; PROCESSORS],
)
    ensures { Prints W.contents text.old text.new (codes "CM " ++ octal 6 address
        ++ codes " WRITTEN BY " ++ processors_text writers.now
        ++ codes " USED BY " ++ processors_text users.now ++ line_end) }
{
    text.print(b"CM ");
    text.print(&octal6(address));
    text.print(b" WRITTEN BY ");
    print_processors(text, writers);
    text.print(b" USED BY ");
    print_processors(text, users);
    text.print(b"\n");
}

/// Prints `PP00,PP01`: the processors that are flagged by place.
fn print_processors<W: Write>(text: &mut TextWriter<W>, flags: &[bool; PROCESSORS])
    ensures { Prints W.contents text.old text.new (processors_text flags.now) }
{
    print_each_below(text, PROCESSORS as u32, &Names(flags));
}

/// The names of processors that are flagged, by place, with a comma before each but the first.
#[derive(Drop)]
struct Names<'a>(&'a [bool; PROCESSORS]);

impl<'a, W: Write> Lines<u32, W> for Names<'a> {
    ghost text_of = { λ names. name_text names.0.now };

    ghost Has = { λ names place. place < processor_count };

    fn print(&self, text: &mut TextWriter<W>, place: &u32) {
        let flags = self.0;
        let place = *place as usize;
        if flags[place] {
            print_name(text, count(&flags[..place]), PpNo::at(place));
        }
    }
}

/// Prints the name of a processor, with a comma before it if others were named.
fn print_name<W: Write>(text: &mut TextWriter<W>, named: usize, n: PpNo)
    ensures { Prints W.contents text.old text.new
        ((if nat_lt 0 named then codes "," else []) ++ codes "PP" ++ octal 2 n) }
{
    if 0 < named {
        text.print(b",");
    }
    text.print(&processor_name(n));
}

/// Prints `PP01 0204 DCN 05        CH05`.
fn print_place<W: Write>(text: &mut TextWriter<W>, step: &AskingStep)
    ensures { Prints W.contents text.old text.new (place_text step.now) }
{
    text.print(&processor_name(step.pp));
    text.print(b" ");
    text.print(&octal4(step.p.get()));
    text.print(b" ");
    text.print(&running_field(step.block, step.p, step.word, step.next));
    text.print(b" ");
    text.print(&channel_name(step.channel));
}

/// Prints `000040 PP00 TAK 0002` and a line feed.
fn print_entry<W: Write>(text: &mut TextWriter<W>, entry: &Trace)
    ensures { Prints W.contents text.old text.new (entry_text entry.now ++ line_end) }
{
    print_decimal(text, entry.turn);
    text.print(b" ");
    text.print(&processor_name(entry.pp));
    text.print(b" ");
    print_event_end(text, entry.event);
}
