//! The lines of a printed text.

ghost use Rattle.std.specs.Prelude.{◌≡◌, ◌<◌, ◌^◌, ◌++◌, IsTrue, codes};
ghost use Rattle.pp_numbers.specs.ChannelNo.{names_channel};
ghost use Rattle.pp_channel.specs.History.{HasTwelveBitWord};
ghost use Rattle.pp_numbers.specs.PpNo.{names_processor};
ghost use Rattle.pp_machine.specs.MachineState.{processor_of};
ghost use Rattle.pp_word.specs.Numeral.{digits, octal};
ghost use Rattle.pp_text.specs.PrintedText.{event_line, event_text, line_end, processor_line, state_text};
ghost use Rattle.pp_text.specs.TextLaw.{ProcessorFits, EventFits};
ghost use Rattle.pp_text.specs.TextWriter.{Prints};

use crate::{
    Lines, TextWriter, decimal6, octal2, octal4, print_state_text, print_upper_digits,
    processor_heading,
};
use pp_channel::{ChannelNo, Event};
use pp_machine::{Machine, PpNo, Trace};
use pp_word::Word12;
use std::alloc::Allocator;
use std::io::Write;

/// The lines of events: `000020 PP00 CH05 PUT 0007` and a line feed.
#[derive(Drop)]
pub(crate) struct EventLines;

impl<W: Write> Lines<Trace, W> for EventLines {
    ghost text_of = { λ lines. event_line };

    ghost Fits = { λ lines. EventFits };

    fn print(&self, text: &mut TextWriter<W>, entry: &Trace) {
        let turn = print_upper_digits(text, entry.turn);
        text.print(&event_heading(turn, entry.pp, entry.channel));
        print_event_end(text, entry.event);
    }
}

/// Prints `PUT 0007` and a line feed.
#[inline(always)]
pub fn print_event_end<W: Write>(text: &mut TextWriter<W>, event: Event)
    ensures text { Prints W.contents text.old text.new (event_text event ++ line_end) }
    ensures fits { HasTwelveBitWord event }
{
    match event {
        Event::Activate => text.print(b"ACN\n"),
        Event::Disconnect => text.print(b"DCN\n"),
        Event::Put(word) => text.print(&line_with_word(*b"PUT", word)),
        Event::Take(word) => text.print(&line_with_word(*b"TAK", word)),
        Event::Function(word) => text.print(&line_with_word(*b"FNC", word)),
    }
}

/// `000020 PP00 CH05 `
fn event_heading(turn: u32, n: PpNo, c: ChannelNo) -> [u8; 17]
    requires { turn < 10 ^ 6 }
    ensures text { result ≡ digits 10 6 turn ++ codes " PP" ++ octal 2 n ++ codes " CH" ++ octal 2 c
        ++ codes " " }
    ensures processor { IsTrue (names_processor n) }
    ensures channel { IsTrue (names_channel c) }
{
    let [t0, t1, t2, t3, t4, t5] = decimal6(turn);
    let [p0, p1] = octal2(n.get());
    let [c0, c1] = octal2(c.get());
    [
        t0, t1, t2, t3, t4, t5, b' ', b'P', b'P', p0, p1, b' ', b'C', b'H', c0, c1, b' ',
    ]
}

/// `PUT 0007` and a line feed.
fn line_with_word(name: [u8; 3], word: Word12) -> [u8; 9]
    ensures text { result ≡ name ++ codes " " ++ octal 4 word ++ line_end }
    ensures small { word < 2 ^ 12 }
{
    let [n0, n1, n2] = name;
    let [w0, w1, w2, w3] = octal4(word.get());
    [n0, n1, n2, b' ', w0, w1, w2, w3, b'\n']
}

/// The lines of processors: `PP00 P=0103 A=000007 STOPPED` and a line feed.
impl<A: Allocator, W: Write> Lines<PpNo, W> for Machine<A> {
    ghost text_of = { λ machine n.
        let pp = processor_of n machine in processor_line n pp (state_text pp.state) };

    ghost Fits = { λ machine n. ProcessorFits (processor_of n machine) };

    fn print(&self, text: &mut TextWriter<W>, n: &PpNo) {
        let pp = self.pp(*n);
        text.print(&processor_heading(*n, pp));
        print_state_text(text, pp.state());
        text.print(b"\n");
    }
}
