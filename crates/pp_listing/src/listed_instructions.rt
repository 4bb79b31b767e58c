ghost use Rattle.std.specs.Prelude.{◌≡◌, ◌<◌, ◌&&◌, ◌∷◌, [], List, IfNone, IfSome, drop, length, nat_lt};
ghost use Rattle.pp_word.specs.Address.{place_count};
ghost use Rattle.pp_processor.specs.Processor.{word_at};
ghost use Rattle.pp_text.specs.InstructionText.{is_long};
ghost use Rattle.pp_listing.specs.ListedLine.{ListedLine, listed_line};
ghost use Rattle.pp_listing.specs.Listing.{instruction_lines, instructions_listed};

use pp_machine::Pp;
use pp_word::{PLACES, Word12, decode, next};
use std::marker::Model;

/// An instruction that a listing shows: its place, its word and the word at the next place, which
/// stands on its line too if it is the second word.
#[derive(Clone, Copy)]
pub struct ListedInstruction {
    pub place: Word12,
    pub word: Word12,
    pub next: Word12,
    pub has_second: bool,
}

/// The instructions of a processor that are left, as a listing shows them: a word 0 begins none.
/// Contracts see the list of their lines.
#[derive(Drop)]
pub struct ListedInstructions<'a> {
    pp: &'a Pp,
    /// The place of the first word that is left.
    place: u32,
}

impl<'a> Model for ListedInstructions<'a> {
    ghost Value = { List ListedLine };

    ghost view = { λ left. instruction_lines (word_at left.pp.now 0) left.place
        (drop left.place left.pp.now.memory) };

    ghost invariant = { λ left. 0 < left.place → length left.pp.now.memory ≡ place_count };
}

impl<'a> ListedInstructions<'a> {
    /// All those of a processor.
    pub fn of(pp: &'a Pp) -> ListedInstructions<'a>
        ensures { result ≡ instructions_listed pp.now }
    {
        ListedInstructions { pp, place: 0 }
    }

    /// The next one, if there is one.
    pub fn next_instruction(&mut self) -> Option<ListedInstruction>
        ensures taken { IfSome result (λ i. self.old ≡ listed_line i ∷ self.new) }
        ensures none { IfNone result (self.old ≡ []) }
        ensures ended { IfNone result (self.new ≡ []) }
    {
        let mut at = self.place;
        while at < PLACES {
            let place = Word12::truncated(at);
            let word = self.pp.get(place);
            at += 1;
            if word.get() != 0 {
                let has_second = has_second(word, at);
                self.place = if has_second { at + 1 } else { at };
                return Some(ListedInstruction {
                    place,
                    word,
                    next: self.pp.get(next(place)),
                    has_second,
                });
            }
        }
        self.place = at;
        None
    }
}

/// Whether a word is the first of two, of which the second would stand at this place.
fn has_second(word: Word12, place: u32) -> bool
    ensures { result ≡ (is_long word && nat_lt place place_count) }
{
    decode(word).0.is_long() && place < PLACES
}
