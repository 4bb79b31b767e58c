ghost use Rattle.std.specs.Prelude.{◌∷◌, [], ◌<◌, ◌^◌, length};
ghost use Rattle.pp_deck.specs.DeckLine.{central_size, central_words, section};
ghost use Rattle.pp_text.specs.TextWriter.{Prints};
ghost use Rattle.pp_listing.specs.ListedLine.{deck_line};

use pp_machine::{Central, PpNo};
use pp_text::{TextWriter, print_octal, print_short_octal};
use std::alloc::Allocator;
use std::io::Write;

/// Prints `CENTRAL 10000` and a line feed.
pub(crate) fn print_size<A: Allocator, W: Write>(text: &mut TextWriter<W>, central: &Central<A>)
    ensures { Prints W.contents text.old text.new (deck_line (central_size (length central.now))) }
{
    text.print(b"CENTRAL ");
    print_short_octal(text, 6, u64::from(central.size()));
    text.print(b"\n");
}

/// Prints `CM 0 00060007001000110012` and a line feed: a central word (60 bits) at an address (18
/// bits).
pub fn print_central_line<W: Write>(text: &mut TextWriter<W>, address: u32, word: u64)
    requires { address < 2 ^ 18 }
    ensures { Prints W.contents text.old text.new (deck_line (central_words address (word ∷ []))) }
{
    text.print(b"CM ");
    print_short_octal(text, 6, u64::from(address));
    text.print(b" ");
    print_octal(text, 20, word);
    text.print(b"\n");
}

/// Prints `PP 1` and a line feed.
pub fn print_section_line<W: Write>(text: &mut TextWriter<W>, n: PpNo)
    ensures { Prints W.contents text.old text.new (deck_line (section n)) }
{
    text.print(b"PP ");
    print_short_octal(text, 2, u64::from(n.get()));
    text.print(b"\n");
}
