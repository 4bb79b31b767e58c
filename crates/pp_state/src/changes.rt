ghost use Rattle.std.specs.Prelude.{◌≡◌, ◌+◌, ◌∷◌, ◌<◌, ◌^◌, suc, true};
ghost use Rattle.std.specs.List.{flat_map};
ghost use Rattle.pp_word.specs.Address.{place_count};
ghost use Rattle.pp_deck.specs.DeckLine.{section};
ghost use Rattle.pp_text.specs.{Differences.differs, TextWriter.Prints};
ghost use Rattle.pp_listing.specs.ListedLine.{after_blank, deck_line};
ghost use Rattle.pp_state.specs.Changes.{central_line, changed_central, changed_lines, has_changes, line_from, neighbours, position_on_line};

use pp_listing::{print_central_line, print_section_line};
use pp_machine::{Central, Pp, PpNo};
use pp_text::{Lines, TextWriter, WORDS_ON_A_LINE, central_word, octal4, print_each_below};
use pp_word::{PLACES, Word12, Word18};
use std::alloc::Allocator;
use std::io::Write;

/// Whether the word at some place differs.
#[tactic(auto, unfolding(pp_text::specs::Differences::places))]
pub(crate) fn has_changes(before: &Pp, after: &Pp) -> bool
    ensures { result ≡ has_changes before.now.memory after.now.memory }
{
    (0..PLACES).any(|place| differs(before, after, place))
}

/// Prints `PP 1` and the lines of all places whose word differs.
pub(crate) fn print_section<W: Write>(text: &mut TextWriter<W>, n: PpNo, before: &Pp, after: &Pp)
    ensures { Prints W.contents text.old text.new
        (flat_map deck_line (section n ∷ changed_lines before.now.memory after.now.memory)) }
{
    print_section_line(text, n);
    let mut in_front = 0;
    for place in 0..PLACES {
        in_front = print_line_from(text, before, after, place, in_front);
    }
}

/// Prints the line that begins at a place, `0200 1412 3460`, if one does, where `in_front` words
/// come before this place on its line. Says how many come before the next place.
fn print_line_from<W: Write>(
    text: &mut TextWriter<W>,
    before: &Pp,
    after: &Pp,
    place: u32,
    in_front: u32,
) -> u32
    requires within { place < place_count }
    requires in_front { in_front ≡ position_on_line before.now.memory after.now.memory place }
    requires few { in_front < WORDS_ON_A_LINE }
    ensures line { Prints W.contents text.old text.new
        (flat_map deck_line (line_from before.now.memory after.now.memory place)) }
    ensures in_front { result ≡ position_on_line before.now.memory after.now.memory (suc place) }
    ensures few { result < WORDS_ON_A_LINE }
{
    if !differs(before, after, place) {
        return 0;
    }
    if in_front == 0 {
        text.print(&octal4(Word12::truncated(place).get()));
        print_neighbours(text, before, after, place, WORDS_ON_A_LINE);
        text.print(b"\n");
    }
    (in_front + 1) % WORDS_ON_A_LINE
}

/// Whether the word at a place differs.
fn differs(before: &Pp, after: &Pp, place: u32) -> bool
    ensures value { result ≡ differs before.now.memory after.now.memory place }
    ensures within { result ≡ true → place < place_count }
{
    let at = Word12::truncated(place);
    let old = before.get(at);
    let new = after.get(at);
    place < PLACES && old.get() != new.get()
}

/// Prints the words from a place on, as long as they differ, but at most this many.
fn print_neighbours<W: Write>(
    text: &mut TextWriter<W>,
    before: &Pp,
    after: &Pp,
    place: u32,
    most: u32,
)
    requires { place + most < 2 ^ 13 }
    ensures { Prints W.contents text.old text.new (flat_map (after_blank 4)
        (neighbours before.now.memory after.now.memory most place)) }
{
    if most == 0 || !differs(before, after, place) {
        return;
    }
    text.print(b" ");
    text.print(&octal4(after.get(Word12::truncated(place)).get()));
    print_neighbours(text, before, after, place + 1, most - 1);
}

/// Prints the lines of all central words that differ.
pub(crate) fn print_changed_central<A: Allocator, W: Write>(
    text: &mut TextWriter<W>,
    before: &Central<A>,
    after: &Central<A>,
)
    ensures { Prints W.contents text.old text.new
        (flat_map deck_line (changed_central before.now after.now)) }
{
    print_each_below(text, after.size(), &ChangedWords { before, after });
}

/// The lines of central words that differ.
#[derive(Drop)]
struct ChangedWords<'a, A: Allocator> {
    before: &'a Central<A>,
    after: &'a Central<A>,
}

impl<'a, A: Allocator, W: Write> Lines<u32, W> for ChangedWords<'a, A> {
    ghost text_of = { λ words a.
        flat_map deck_line (central_line words.before.now words.after.now a) };

    ghost Has = { λ words a. a < 2 ^ 18 };

    fn print(&self, text: &mut TextWriter<W>, address: &u32) {
        let place = Word18::truncated(*address);
        let word = central_word(self.after, place);
        if word != central_word(self.before, place) {
            print_central_line(text, *address, word);
        }
    }
}
