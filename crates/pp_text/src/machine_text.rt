//! The whole printed text of a machine.

ghost use Rattle.std.specs.Prelude.{ℕ, IsTrue};
ghost use Rattle.std.specs.List.{flat_map};
ghost use Rattle.pp_numbers.specs.ChannelNo.{all_channels, names_channel};
ghost use Rattle.pp_channel.specs.History.{history_on};
ghost use Rattle.pp_text.specs.TextWriter.{Prints};
ghost use Rattle.pp_text.specs.PrintedText.{printed, used_channel_line};
ghost use Rattle.pp_text.specs.TextLaw.{FitsItsText, HistoryFits};
ghost use Rattle.pp_text.specs.Written.{IsWritten};

use crate::printed_line::EventLines;
use crate::{
    Lines, TextWriter, WriteFault, print_channel_line, print_each, print_each_channel,
    print_each_named,
};
use pp_channel::{CHANNELS, Channel, ChannelNo};
use pp_machine::{Machine, PROCESSORS};
use std::alloc::Allocator;
use std::io::Write;

/// Writes the text of a machine, with the lines of the processors named, and flushes the writer. It
/// takes no memory. If the writer fails, the rest of the text is lost.
#[tactic(auto, unfolding(crate::specs::PrintedText::printed))]
pub fn write_text<A: Allocator + Copy, W: Write>(
    writer: &mut W,
    machine: &Machine<A>,
    named: &[bool; PROCESSORS],
) -> Result<(), WriteFault>
    ensures written { IsWritten (printed named.now machine.now) result
        (W.contents writer.old) (W.contents writer.new) }
    ensures fits { FitsItsText named.now machine.now }
{
    let mut text = TextWriter::new(writer);
    print_each(&mut text, machine.events(), &EventLines);
    print_each_named(&mut text, named, machine);
    print_channels(&mut text, machine);
    text.finish()
}

/// Prints the lines of all channels that have a history, in order of number.
pub fn print_channels<A: Allocator, W: Write>(text: &mut TextWriter<W>, machine: &Machine<A>)
    ensures text { Prints W.contents text.old text.new
        (flat_map (used_channel_line machine.now.histories) all_channels) }
    ensures fits { (c : ℕ) → IsTrue (names_channel c)
        → HistoryFits (history_on c machine.now.histories) }
{
    print_each_channel(text, machine);
}

/// The lines of channels that have a history.
impl<A: Allocator, W: Write> Lines<ChannelNo, W> for Machine<A> {
    ghost text_of = { λ machine. used_channel_line machine.histories };

    ghost Fits = { λ machine c. HistoryFits (history_on c machine.histories) };

    fn print(&self, text: &mut TextWriter<W>, c: &ChannelNo) {
        print_channel_line(text, *c, self.channel(*c));
    }
}

/// The same, of channels in the order of their numbers.
impl<A: Allocator, W: Write> Lines<ChannelNo, W> for [Channel<A>; CHANNELS] {
    ghost text_of = { used_channel_line };

    ghost Fits = { λ channels c. HistoryFits (history_on c channels) };

    fn print(&self, text: &mut TextWriter<W>, c: &ChannelNo) {
        print_channel_line(text, *c, &self[c.index()]);
    }
}
