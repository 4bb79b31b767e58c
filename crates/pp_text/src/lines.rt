//! What is printed of each of some things, one after another.

ghost use Rattle.std.specs.Prelude.{◌<◌, ℕ, ⊤, [], All, IsTrue, List, if◌then◌else◌};
ghost use Rattle.std.specs.List.{flat_map};
ghost use Rattle.pp_numbers.specs.ChannelNo.{all_channels, names_channel};
ghost use Rattle.pp_numbers.specs.PpNo.{all_processors, is_named};
ghost use Rattle.pp_text.specs.PrintedText.{each_below};
ghost use Rattle.pp_text.specs.TextWriter.{Prints};

use crate::TextWriter;
use pp_channel::{CHANNELS, ChannelNo};
use pp_machine::{PROCESSORS, PpNo};
use std::io::Write;

/// How many words of memory stand on a line.
pub const WORDS_ON_A_LINE: u32 = 8;

/// What is printed of each of some things.
pub trait Lines<T, W: Write> {
    // the text of a thing
    ghost text_of: { Self → T → List ℕ };

    // Which things have a text. By default all have.
    ghost Has: { Self → T → Type 0 } = { λ lines thing. ⊤ };

    // What is known of a thing whose text is printed. By default nothing is.
    ghost Fits: { Self → T → Type 0 } = { λ lines thing. ⊤ };

    /// Prints the text of a thing.
    fn print(&self, text: &mut TextWriter<W>, thing: &T)
        requires { Has self.now thing.now }
        ensures text { Prints W.contents text.old text.new (text_of self.now thing.now) }
        ensures fits { Fits self.now thing.now };
}

/// Prints what there is of each item, in order.
pub fn print_each<T, W: Write, L: Lines<T, W>>(text: &mut TextWriter<W>, items: &[T], lines: &L)
    requires { (item : T) → L.Has lines.now item }
    ensures text { Prints W.contents text.old text.new (flat_map (L.text_of lines.now) items.now) }
    ensures fits { All (L.Fits lines.now) items.now }
{
    for item in items {
        lines.print(text, item);
    }
}

/// Prints what there is of each number below a count, in order.
pub fn print_each_below<W: Write, L: Lines<u32, W>>(text: &mut TextWriter<W>, count: u32, lines: &L)
    requires { (number : ℕ) → number < count → L.Has lines.now number }
    ensures { Prints W.contents text.old text.new (each_below count (L.text_of lines.now)) }
{
    for number in 0..count {
        lines.print(text, &number);
    }
}

/// Prints what there is of each channel, in order of number.
pub fn print_each_channel<W: Write, L: Lines<ChannelNo, W>>(text: &mut TextWriter<W>, lines: &L)
    requires { (c : ℕ) → L.Has lines.now c }
    ensures text { Prints W.contents text.old text.new
        (flat_map (L.text_of lines.now) all_channels) }
    ensures fits { (c : ℕ) → IsTrue (names_channel c) → L.Fits lines.now c }
{
    for place in 0..CHANNELS {
        lines.print(text, &ChannelNo::at(place));
    }
}

/// Prints what there is of each processor named, in order of number.
pub fn print_each_named<W: Write, L: Lines<PpNo, W>>(
    text: &mut TextWriter<W>,
    named: &[bool; PROCESSORS],
    lines: &L,
)
    requires { (n : ℕ) → L.Has lines.now n }
    ensures text { Prints W.contents text.old text.new (flat_map
        (λ n. if is_named named.now n then L.text_of lines.now n else []) all_processors) }
    ensures fits { (n : ℕ) → IsTrue (is_named named.now n) → L.Fits lines.now n }
{
    for place in 0..PROCESSORS {
        let n = PpNo::at(place);
        if named[n.index()] {
            lines.print(text, &n);
        }
    }
}
