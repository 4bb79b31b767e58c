//! The words of a line.

ghost use Rattle.std.specs.Prelude.{◌≡◌};
ghost use Rattle.pp_deck.specs.DeckText.{fields_of};
ghost use Rattle.pp_lint.specs.LineFault.{said_after};
ghost use Rattle.pp_lint.specs.InstructionsOfLine.{first_place, instructions_of};
ghost use Rattle.pp_lint.specs.WordsOfLine.{HasNoFault};
ghost use Rattle.pp_lint.specs.declared.line_fault.Before.{Before};

use crate::line_fault::begins_with_digit;
use pp_deck::Fields;
use pp_instructions::{Instructions, word_of};
use pp_word::Word12;

/// The instructions of a line without a fault; none if it is no line of words.
pub(crate) fn instructions_of(line: &[u8]) -> Instructions
    ensures { (before : Before) → HasNoFault before line.now
        → result ≡ instructions_of (said_after before (fields_of line.now)) }
{
    let mut fields = Fields::of(line);
    let Some(first) = fields.next_field() else {
        return Instructions::none();
    };
    if !begins_with_digit(first) {
        return Instructions::none();
    }
    Instructions::of(word_of(first), fields)
}

/// The place of the first word of a line without a fault; 0 if it is no line of words.
pub(crate) fn first_place(line: &[u8]) -> Word12
    ensures { (before : Before) → HasNoFault before line.now
        → result ≡ first_place (said_after before (fields_of line.now)) }
{
    let Some(first) = Fields::of(line).next_field() else {
        return Word12::ZERO;
    };
    if !begins_with_digit(first) {
        return Word12::ZERO;
    }
    word_of(first)
}
