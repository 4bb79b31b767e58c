ghost use Rattle.std.specs.Prelude.{◌≡◌, ◌+◌, ◌*◌, ◌<◌, ◌≤◌, ◌++◌, codes};
ghost use Rattle.pp_word.specs.{Address.place_count, Numeral.octal};
ghost use Rattle.pp_processor.specs.Processor.{word_at};
ghost use Rattle.pp_text.specs.Written.{IsWritten};
ghost use Rattle.pp_state.specs.MemoryText.{displayed_words, has_words, memory_text, shown_line};

use crate::display_code::displayed2;
use pp_machine::Pp;
use pp_numbers::Bounds;
use pp_text::{Lines, TextWriter, WORDS_ON_A_LINE, WriteFault, print_each_below, print_octal};
use pp_word::Word12;
use std::io::Write;

/// How many lines of eight words the places of a processor make.
const LINES: u32 = 0o1000;

/// Writes the words of a processor's memory, eight a line, in octal and in display code, as
/// `0020  0004 0000 0017 0000 0000 0000 0000 0000   D   O`; and flushes the writer. The lines are
/// those in which a place lies within the bounds and a word is not 0. The text goes out in pieces,
/// and takes no memory. Where the writer fails, the rest of the text is lost.
#[tactic(auto, unfolding(crate::specs::MemoryText::memory_text))]
pub fn write_memory<W: Write>(writer: &mut W, pp: &Pp, bounds: Bounds) -> Result<(), WriteFault>
    ensures { IsWritten (memory_text bounds pp.now) result
        (W.contents writer.old) (W.contents writer.new) }
{
    let mut text = TextWriter::new(writer);
    print_each_below(&mut text, LINES, &MemoryLines { pp, bounds });
    text.finish()
}

/// The lines of a processor's memory, by number.
#[derive(Drop)]
struct MemoryLines<'a> {
    pp: &'a Pp,
    bounds: Bounds,
}

impl<'a, W: Write> Lines<u32, W> for MemoryLines<'a> {
    ghost text_of = { λ lines number. shown_line lines.bounds lines.pp.now (number * 8) };

    ghost Has = { λ lines number. number * 8 < place_count };

    fn print(&self, text: &mut TextWriter<W>, number: &u32) {
        let place = *number * WORDS_ON_A_LINE;
        if self.bounds.meets(place, place + 7) && has_words(self.pp, place) {
            print_octal(text, 4, u64::from(place));
            text.print(b" ");
            print_each_below(text, WORDS_ON_A_LINE, &OctalWords { pp: self.pp, place });
            text.print(displayed_field(self.pp, place).trim_ascii_end());
            text.print(b"\n");
        }
    }
}

/// Whether one of eight words from a place on is not 0.
fn has_words(pp: &Pp, place: u32) -> bool
    requires { place + 8 ≤ place_count }
    ensures { result ≡ has_words pp.now place }
{
    (place..place + WORDS_ON_A_LINE).any(|place| word_at(pp, place) != 0)
}

/// The word at a place.
fn word_at(pp: &Pp, place: u32) -> u64
    requires { place < place_count }
    ensures { result ≡ word_at pp.now place }
{
    u64::from(pp.get(Word12::truncated(place)).get())
}

/// Eight words from a place on in octal digits, by number, with a space before each.
#[derive(Drop)]
struct OctalWords<'a> {
    pp: &'a Pp,
    place: u32,
}

impl<'a, W: Write> Lines<u32, W> for OctalWords<'a> {
    ghost text_of = { λ words k. codes " " ++ octal 4 (word_at words.pp.now (words.place + k)) };

    ghost Has = { λ words k. words.place + k < place_count };

    fn print(&self, text: &mut TextWriter<W>, k: &u32) {
        text.print(b" ");
        print_octal(text, 4, word_at(self.pp, self.place + *k));
    }
}

/// Two spaces, and the same words in display code, two characters each.
fn displayed_field(pp: &Pp, place: u32) -> [u8; 18]
    requires { place + 8 ≤ place_count }
    ensures { result ≡ codes "  " ++ displayed_words pp.now place }
{
    let [a0, a1] = displayed2(word_at(pp, place));
    let [b0, b1] = displayed2(word_at(pp, place + 1));
    let [c0, c1] = displayed2(word_at(pp, place + 2));
    let [d0, d1] = displayed2(word_at(pp, place + 3));
    let [e0, e1] = displayed2(word_at(pp, place + 4));
    let [f0, f1] = displayed2(word_at(pp, place + 5));
    let [g0, g1] = displayed2(word_at(pp, place + 6));
    let [h0, h1] = displayed2(word_at(pp, place + 7));
    [
        b' ', b' ', a0, a1, b0, b1, c0, c1, d0, d1, e0, e1, f0, f1, g0, g1, h0, h1,
    ]
}
