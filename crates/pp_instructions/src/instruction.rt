//! The instructions of a line's words.

ghost use Rattle.std.specs.Prelude.{◌≡◌, ◌<◌, ◌≤◌, ◌^◌, ◌/◌, ◌∷◌, ℕ, List, [], IfNone, IfSome, length, position};
ghost use Rattle.pp_word.specs.Opcode.{opcode_at, row_of};
ghost use Rattle.pp_text.specs.TextWriter.{Prints};
ghost use Rattle.pp_instructions.specs.Instruction.{instructions, is_comma, is_number_of, is_operand_of, is_pair_of, may_have, says, text_without_second, words_and_text};
ghost use Rattle.pp_instructions.specs.WordsInFields.{word_in, words_in_fields};

use pp_deck::Fields;
use pp_text::{TextWriter, octal4, print_running};
use pp_word::{Operands, Word6, Word12, decode, next, numeral, relative};
use std::io::Write;
use std::marker::Model;

/// An instruction: its place, its word, and its second word, if it has one and the line has it too.
#[derive(Clone, Copy)]
pub struct Instruction {
    pub place: Word12,
    pub word: Word12,
    pub second: Option<Word12>,
}

/// The instructions of a line that are left. Contracts see the list of them.
#[derive(Drop)]
pub struct Instructions<'a> {
    words: Fields<'a>,
    /// The place of the first word that is left.
    place: Word12,
    /// Whether none is left.
    is_ended: bool,
}

impl<'a> Model for Instructions<'a> {
    ghost use Rattle.std.specs.Prelude.{List, [], if◌then◌else◌};
    ghost use Rattle.pp_instructions.specs.Instruction.{instructions};
    ghost use Rattle.pp_instructions.specs.WordsInFields.{words_in_fields};
    ghost use Rattle.pp_instructions.specs.declared.instruction.Instruction.{Instruction};

    ghost Value = { List Instruction };

    ghost view = { λ left. if left.is_ended then []
        else instructions left.place (words_in_fields left.words) };
}

impl<'a> Instructions<'a> {
    /// The instructions in these words, from a place on.
    pub fn of(place: Word12, words: Fields<'a>) -> Instructions<'a>
        ensures { result ≡ instructions place (words_in_fields words.entry) }
    {
        Instructions {
            words,
            place,
            is_ended: false,
        }
    }

    /// None.
    pub fn none() -> Instructions<'a>
        ensures { result ≡ [] }
    {
        Instructions {
            words: Fields::of(&[]),
            place: Word12::ZERO,
            is_ended: true,
        }
    }

    /// The next instruction, if there is one.
    pub fn next_instruction(&mut self) -> Option<Instruction>
        ensures taken { IfSome result (λ i. self.old ≡ i ∷ self.new) }
        ensures none { IfNone result ((self.old ≡ []) × (self.new ≡ [])) }
    {
        if self.is_ended {
            return None;
        }
        let place = self.place;
        let Some(word) = next_word(&mut self.words) else {
            self.is_ended = true;
            return None;
        };
        self.place = next(place);
        if !decode(word).0.is_long() {
            return Some(Instruction {
                place,
                word,
                second: None,
            });
        }
        let second = next_word(&mut self.words);
        self.place = next(self.place);
        self.is_ended = second.is_none();
        Some(Instruction {
            place,
            word,
            second,
        })
    }
}

/// The word in the next field.
fn next_word(words: &mut Fields) -> Option<Word12>
    ensures taken { IfSome result (λ word. (field : List ℕ)
        × ((words.old ≡ field ∷ words.new) × (word_in field ≡ word))) }
    ensures none { IfNone result (words.old ≡ []) }
{
    let field = words.next_field()?;
    Some(word_of(field))
}

/// The word in a field; 0 if there is none.
pub fn word_of(field: &[u8]) -> Word12
    ensures { result ≡ word_in field.now }
{
    Word12::truncated(numeral(8, 4, field).unwrap_or(0) as u32)
}

impl Instruction {
    /// Its mnemonic.
    pub fn mnemonic(&self) -> &'static [u8]
        ensures { result.now ≡ (row_of (opcode_at (self.now.word / 2 ^ 6))).mnemonic }
    {
        decode(self.word).0.mnemonic().as_bytes()
    }

    /// Whether it may have this operand; it may have each if it lacks its second word.
    pub fn may_have(&self, operand: &[u8]) -> bool
        ensures { result ≡ may_have self.now.place self.now.word self.now.second operand.now }
    {
        match self.second {
            Some(m) => is_operand_of(self.place, self.word, m, operand),
            None => {
                decode(self.word).0.is_long()
                    || is_operand_of(self.place, self.word, Word12::ZERO, operand)
            }
        }
    }

    /// Prints its words and its text, `0373 is UJN 0204`.
    pub fn print<W: Write>(&self, text: &mut TextWriter<W>)
        ensures { Prints W.contents text.old text.new
            (words_and_text self.now.place self.now.word self.now.second) }
    {
        text.print(&octal4(self.word.get()));
        match self.second {
            Some(m) => {
                text.print(b" ");
                text.print(&octal4(m.get()));
                text.print(b" is ");
                print_running(text, None, self.place, self.word, m);
            }
            None => {
                text.print(b" is ");
                self.print_text(text);
            }
        }
    }

    /// Prints the text of one without a second word.
    fn print_text<W: Write>(&self, text: &mut TextWriter<W>)
        ensures { Prints W.contents text.old text.new
            (text_without_second self.now.place self.now.word) }
    {
        if decode(self.word).0.is_long() {
            text.print(self.mnemonic());
        } else {
            print_running(text, None, self.place, self.word, Word12::ZERO);
        }
    }
}

/// Whether an operand is that of the instruction in a word at a place, before the next word m.
fn is_operand_of(place: Word12, word: Word12, m: Word12, operand: &[u8]) -> bool
    ensures { result ≡ is_operand_of place word m operand.now }
{
    let (operation, d) = decode(word);
    let operands = operation.operands();
    match comma_in(operand) {
        Some(comma) => is_pair_of(operands, d, m, &operand[..comma], &operand[comma + 1..]),
        None => is_number_of(operands, place, d, m, operand),
    }
}

/// Where the first comma is.
fn comma_in(operand: &[u8]) -> Option<usize>
    ensures value { result ≡ position is_comma operand.now }
    ensures within { IfSome result (λ comma. comma < length operand.now) }
{
    operand.iter().position(|character| *character == b',')
}

/// Whether a number alone is the operand.
fn is_number_of(operands: Operands, place: Word12, d: Word6, m: Word12, field: &[u8]) -> bool
    ensures { result ≡ is_number_of operands place d m field.now }
{
    match operands {
        Operands::IndexedPlace => says12(m, field) && d.get() == 0,
        Operands::JumpPlace => says12(relative(place, d), field) || says6(d, field),
        Operands::Constant => says(6, u64::from(d.get()) * 0o10000 + u64::from(m.get()), field),
        Operands::PlaceAndNumber => says12(m, field) || says6(d, field),
        Operands::Number => says12(Word12::from(d), field),
    }
}

/// Whether two numbers, with a comma between, are the operand.
fn is_pair_of(operands: Operands, d: Word6, m: Word12, first: &[u8], second: &[u8]) -> bool
    ensures { result ≡ is_pair_of operands d m first.now second.now }
{
    match operands {
        Operands::IndexedPlace | Operands::PlaceAndNumber => says12(m, first) && says6(d, second),
        Operands::JumpPlace | Operands::Constant | Operands::Number => false,
    }
}

/// Whether a field is this number, in at most two digits.
fn says6(n: Word6, field: &[u8]) -> bool
    ensures { result ≡ says 2 n field.now }
{
    says(2, u64::from(n.get()), field)
}

/// Whether a field is this number, in at most four digits.
fn says12(n: Word12, field: &[u8]) -> bool
    ensures { result ≡ says 4 n field.now }
{
    says(4, u64::from(n.get()), field)
}

/// Whether a field is this number, in at most `most` digits.
fn says(most: usize, n: u64, field: &[u8]) -> bool
    requires { 8 ^ most ≤ 2 ^ 64 }
    ensures { result ≡ says most n field.now }
{
    numeral(8, most, field) == Some(n)
}
