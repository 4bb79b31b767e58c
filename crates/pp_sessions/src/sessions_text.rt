ghost use Rattle.pp_text.specs.Written.{IsWritten};
ghost use Rattle.pp_sessions.specs.SessionsText.{channel_lines, sessions_text};

use crate::lines::CountsLines;
use crate::open_stretch::{OpenStretch, print_stretch, take_in_entry};
use pp_channel::ChannelNo;
use pp_machine::{Machine, PROCESSORS};
use pp_run::StepCounts;
use pp_text::{Lines, TextWriter, WriteFault, print_each_channel, print_each_named};
use std::alloc::Allocator;
use std::io::Write;

/// Writes the sessions of a machine, channel by channel, with the idle stretches between them; and
/// for each processor shown how many of its steps did what, by these counts of each processor in
/// the order of the barrel; and flushes the writer. `with_words` asks, after the line of each
/// session, for the words put, and after that of an idle stretch for its function codes. The text
/// goes out in pieces, and takes no memory. If the writer fails, the rest of the text is lost.
#[tactic(auto, unfolding(crate::specs::SessionsText::sessions_text))]
pub fn write_sessions<A: Allocator, W: Write>(
    writer: &mut W,
    machine: &Machine<A>,
    shown: &[bool; PROCESSORS],
    counts: &[StepCounts; PROCESSORS],
    with_words: bool,
) -> Result<(), WriteFault>
    ensures { IsWritten (sessions_text with_words shown.now machine.now counts.now) result
        (W.contents writer.old) (W.contents writer.new) }
{
    let mut text = TextWriter::new(writer);
    let stretches = StretchLines {
        machine,
        with_words,
    };
    print_each_channel(&mut text, &stretches);
    print_each_named(&mut text, shown, &CountsLines(counts));
    text.finish()
}

/// The lines of the stretches of channels.
#[derive(Drop)]
struct StretchLines<'a, A: Allocator> {
    machine: &'a Machine<A>,
    with_words: bool,
}

impl<'a, A: Allocator, W: Write> Lines<ChannelNo, W> for StretchLines<'a, A> {
    ghost text_of = { λ lines. channel_lines lines.with_words lines.machine.now };

    fn print(&self, text: &mut TextWriter<W>, c: &ChannelNo) {
        if self.machine.channel(*c).history().is_empty() {
            return;
        }
        let mut current = OpenStretch::opening(self.machine, *c);
        let entries = self.machine.events();
        for index in 0..entries.len() {
            let past = &entries[..index];
            let entry = &entries[index];
            take_in_entry(text, *c, self.with_words, &mut current, past, entry);
        }
        if let Some(last) = &current.tally {
            let entries = &entries[current.start..];
            print_stretch(text, *c, self.with_words, current.number, last, entries);
        }
    }
}
