//! The lines of a report's text.

ghost use Rattle.std.specs.Prelude.{◌≡◌, ◌<◌, ◌^◌, ◌++◌, IsTrue, Some, codes};
ghost use Rattle.pp_numbers.specs.PpNo.{names_processor};
ghost use Rattle.pp_word.specs.Numeral.{decimal, digits, octal};
ghost use Rattle.pp_text.specs.PrintedText.{event_text, line_end};
ghost use Rattle.pp_text.specs.TextWriter.{Prints};
ghost use Rattle.pp_report.specs.PrintedReport.{end_text, worker_line};
ghost use Rattle.pp_report.specs.ReportLaw.{FitsItsEnd, FitsItsLine, shown_end};

use pp_channel::{ChannelNo, Event};
use pp_machine::PpNo;
use pp_runner::{End, Worker};
use pp_text::{
    TextWriter, channel_name, decimal6, octal2, print_event_end, print_fault_text,
    print_upper_digits, processor_heading,
};
use std::alloc::Allocator;
use std::io::Write;

/// Prints `CH05 000001 PP00 PUT 0007` and a line feed.
pub(crate) fn print_numbered_event<W: Write>(
    text: &mut TextWriter<W>,
    c: ChannelNo,
    number: u64,
    author: PpNo,
    event: Event,
)
    ensures text { Prints W.contents text.old text.new (codes "CH" ++ octal 2 c ++ codes " "
        ++ decimal number ++ codes " PP" ++ octal 2 author ++ codes " " ++ event_text event
        ++ line_end) }
    ensures fits { FitsItsLine (record { number = number; author = author; event = event }) }
{
    text.print(&channel_name(c));
    text.print(b" ");
    let lower = print_upper_digits(text, number);
    text.print(&author_heading(lower, author));
    print_event_end(text, event);
}

/// `000001 PP00 `
fn author_heading(number: u32, author: PpNo) -> [u8; 12]
    requires { number < 10 ^ 6 }
    ensures text { result ≡ digits 10 6 number ++ codes " PP" ++ octal 2 author ++ codes " " }
    ensures processor { IsTrue (names_processor author) }
{
    let [n0, n1, n2, n3, n4, n5] = decimal6(number);
    let [p0, p1] = octal2(author.get());
    [n0, n1, n2, n3, n4, n5, b' ', b'P', b'P', p0, p1, b' ']
}

/// Prints `PP00 P=0103 A=000007 PATIENCE` and a line feed.
pub(crate) fn print_worker_line<A: Allocator, W: Write>(
    text: &mut TextWriter<W>,
    n: PpNo,
    worker: &Worker<A>,
)
    ensures text { Prints W.contents text.old text.new (worker_line n (Some worker.now)) }
    ensures fits { FitsItsEnd (shown_end worker.now) }
{
    text.print(&processor_heading(n, &worker.pp));
    print_end(text, worker.finish);
    text.print(b"\n");
}

/// Prints `PATIENCE`.
fn print_end<W: Write>(text: &mut TextWriter<W>, finish: End)
    ensures { Prints W.contents text.old text.new (end_text finish) }
{
    match finish {
        End::Stopped => text.print(b"STOPPED"),
        End::Fault(number) => print_fault_text(text, number),
        End::Steps => text.print(b"STEPS"),
        End::Patience => text.print(b"PATIENCE"),
        End::Memory => text.print(b"MEMORY"),
        End::Worn => text.print(b"WORN"),
    }
}
