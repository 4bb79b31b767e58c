ghost use Rattle.std.specs.Prelude.{◌≡◌, ◌≤◌, ◌++◌, length};
ghost use Rattle.pp_lint.specs.FaultWords.{fault_words, is_of_twenty};
ghost use Rattle.pp_text.specs.Piece.{piece_length};
ghost use Rattle.pp_text.specs.TextWriter.{Prints};

use pp_deck::DeckCode;
use pp_numbers::Profile;
use pp_text::{TextWriter, print_bytes};
use pp_word::numeral;
use std::io::Write;

/// Prints the words for a fault at this field.
pub(crate) fn print_fault_words<W: Write>(text: &mut TextWriter<W>, code: DeckCode, field: &[u8])
    ensures { Prints W.contents text.old text.new (fault_words code field.now) }
{
    let (words, field) = words_and_field(code, field);
    text.print(words);
    print_bytes(text, field);
}

/// The words for a fault at this field, and the field that comes after them.
#[tactic(auto, unfolding(crate::specs::FaultWords::fault_words))]
fn words_and_field<'a>(code: DeckCode, field: &'a [u8]) -> (&'static [u8], &'a [u8])
    ensures words { fault_words code field.now ≡ result.0.now ++ result.1.now }
    ensures short { length result.0.now ≤ piece_length }
{
    match code {
        DeckCode::TooLong => (b"longer than 1048576 bytes", &[]),
        DeckCode::NotAscii => (b"not ASCII", &[]),
        DeckCode::UnknownLine => (b"no such line here: ", field),
        DeckCode::BadDigits => (b"wrong digits: ", field),
        DeckCode::BadProcessor if is_of_twenty(field) => {
            (b"no such processor without --processors 20: ", field)
        }
        DeckCode::BadProcessor => (b"no such processor: ", field),
        DeckCode::NoProcessor => (b"no PP line before this: ", field),
        DeckCode::PastEnd => (b"past place 7777: ", field),
        DeckCode::CentralRange => (b"out of the range of central memory: ", field),
        DeckCode::Memory => (b"out of memory", &[]),
    }
}

/// Whether a machine of twenty has the processor of this number.
fn is_of_twenty(field: &[u8]) -> bool
    ensures { result ≡ is_of_twenty field.now }
{
    match numeral(8, 2, field) {
        Some(n) => Profile::Twenty.processor(n as u8).is_some(),
        None => false,
    }
}
