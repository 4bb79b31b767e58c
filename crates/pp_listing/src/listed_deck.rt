ghost use Rattle.std.specs.Prelude.{◌≡◌, ◌<◌, ◌^◌};
ghost use Rattle.std.specs.List.{list_any, range_with_len};
ghost use Rattle.pp_numbers.specs.ChannelNo.{channel_count, channel_number};
ghost use Rattle.pp_machine.specs.MachineState.{is_opened};
ghost use Rattle.pp_text.specs.{TextWriter.Prints, Written.IsWritten};
ghost use Rattle.pp_listing.specs.ListedLine.{text_of};
ghost use Rattle.pp_listing.specs.Listing.{ReadsBackAs, central_word_line, central_word_lines, dead_start_line, listing};

use crate::deck_lines::print_size;
use crate::print_central_line;
use crate::sections::print_sections;
use pp_channel::{CHANNELS, ChannelNo};
use pp_deck::Deck;
use pp_machine::{Central, Machine};
use pp_text::{Lines, TextWriter, WriteFault, central_word, print_each_below};
use pp_word::Word18;
use std::alloc::Allocator;
use std::io::Write;

/// Writes the listing of a deck: its central words, `DEAD` if dead start opened a channel, and the
/// instructions of each processor that it names, one a line with its text; and flushes the writer.
/// Numbers are octal. Read as a deck for a machine of the same profile, the listing is that deck,
/// if a text means the deck and the listing is no longer than a deck may be (1,048,576 bytes,
/// decimal). The text goes out in pieces, and takes no memory. If the writer fails, the rest of the
/// text is lost.
pub fn write_listing<A: Allocator, W: Write>(
    writer: &mut W,
    deck: &Deck<A>,
) -> Result<(), WriteFault>
    ensures written { IsWritten
        (listing (record { machine = deck.now.machine; named = deck.now.named }))
        result (W.contents writer.old) (W.contents writer.new) }
    ensures reads_back { ReadsBackAs
        (listing (record { machine = deck.now.machine; named = deck.now.named }))
        (record { machine = deck.now.machine; named = deck.now.named }) }
{
    let mut text = TextWriter::new(writer);
    print_size(&mut text, deck.machine.central());
    print_central(&mut text, deck.machine.central());
    print_dead_start(&mut text, &deck.machine);
    print_sections(&mut text, &deck.machine, &deck.named);
    text.finish()
}

/// Prints the lines of all central words that are not 0.
pub(crate) fn print_central<A: Allocator, W: Write>(text: &mut TextWriter<W>, central: &Central<A>)
    ensures { Prints W.contents text.old text.new (text_of (central_word_lines central.now)) }
{
    print_each_below(text, central.size(), &CentralWords(central));
}

/// The lines of central words that are not 0.
#[derive(Drop)]
struct CentralWords<'a, A: Allocator>(&'a Central<A>);

impl<'a, A: Allocator, W: Write> Lines<u32, W> for CentralWords<'a, A> {
    ghost text_of = { λ words a. text_of (central_word_line words.0.now a) };

    ghost Has = { λ words a. a < 2 ^ 18 };

    fn print(&self, text: &mut TextWriter<W>, address: &u32) {
        let word = central_word(self.0, Word18::truncated(*address));
        if word != 0 {
            print_central_line(text, *address, word);
        }
    }
}

/// Prints `DEAD` and a line feed, if dead start opened a channel.
#[tactic(auto, unfolding(pp_numbers::specs::ChannelNo::all_channels, // by place
pp_numbers::specs::Tables::tabulate))]
fn print_dead_start<A: Allocator, W: Write>(text: &mut TextWriter<W>, machine: &Machine<A>)
    ensures { Prints W.contents text.old text.new (text_of (dead_start_line machine.now)) }
{
    if any_opened(machine) {
        text.print(b"DEAD\n");
    }
}

/// Whether dead start opened a channel.
fn any_opened<A: Allocator>(machine: &Machine<A>) -> bool
    ensures { result ≡ list_any (λ place. is_opened (channel_number place) machine.now)
        (range_with_len 0 channel_count) }
{
    (0..CHANNELS).any(|place| machine.opened(ChannelNo::at(place)))
}
