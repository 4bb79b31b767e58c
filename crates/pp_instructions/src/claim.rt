//! What a comment says of the instructions of its line.

ghost use Rattle.std.specs.Prelude.{◌≡◌, ◌+◌, ◌<◌, ◌≤◌, ◌^◌, ◌∷◌, ◌==◌, ◌||◌, [], IfNone, IfSome, length, slice_index};
ghost use Rattle.pp_word.specs.Numeral.{is_digit};
ghost use Rattle.pp_deck.specs.DeckText.{fields_of};
ghost use Rattle.pp_instructions.specs.Claim.{begins_comment, claim, claims, comment_place, goes_on, is_marked, is_mnemonic, is_operand, last_of, unmarked};

use crate::column::begins_field;
use pp_deck::Fields;
use pp_word::{Word12, decode};
use std::marker::Model;

/// How many operation codes there are.
const CODES: u32 = 0o100;

/// What is said of an instruction.
#[derive(Drop)]
pub struct Claim<'a> {
    /// The number of its field in the comment; the first is 0.
    pub field: usize,
    pub mnemonic: &'a [u8],
    /// Empty if none is said.
    pub operand: &'a [u8],
}

/// What the comment says that has not been read yet. Contracts see the list of it.
#[derive(Drop)]
pub struct Claims<'a> {
    fields: Fields<'a>,
    /// The number of the first field that is left.
    number: usize,
    /// Whether one more mnemonic may come.
    goes_on: bool,
}

impl<'a> Model for Claims<'a> {
    ghost use Rattle.std.specs.Prelude.{◌≡◌, ◌+◌, ◌≤◌, ◌^◌, true, List, [], length, if◌then◌else◌};
    ghost use Rattle.pp_instructions.specs.Claim.{Claim, claims};

    ghost Value = { List Claim };

    ghost view = { λ left. if left.goes_on then claims left.number left.fields else [] };

    ghost invariant = { λ left. left.goes_on ≡ true
        → left.number + length left.fields ≤ 2 ^ 63 };
}

impl<'a> Claims<'a> {
    /// What a comment says, after its `*`.
    pub fn of(comment: &'a [u8]) -> Claims<'a>
        ensures { result ≡ claims 0 (fields_of comment.now) }
    {
        Claims {
            fields: Fields::of(comment),
            number: 0,
            goes_on: true,
        }
    }

    /// What is said of the next instruction, if anything is.
    pub fn next_claim(&mut self) -> Option<Claim<'a>>
        ensures taken { IfSome result (λ said. self.old
            ≡ claim said.field said.mnemonic.now said.operand.now ∷ self.new) }
        ensures none { IfNone result (self.old ≡ []) }
        ensures ended { IfNone result (self.new ≡ []) }
    {
        if !self.goes_on {
            return None;
        }
        self.goes_on = false;
        let first = self.fields.next_field()?;
        let field = self.number;
        let mnemonic = unmarked(first);
        if !is_mnemonic(mnemonic) {
            return None;
        }
        self.number += 1;
        if is_marked(first) {
            self.goes_on = goes_on(first);
            return Some(alone(field, mnemonic));
        }
        let Some(next) = self.fields.next_field() else {
            return Some(alone(field, mnemonic));
        };
        let operand = unmarked(next);
        if !is_operand(operand) {
            return Some(alone(field, mnemonic));
        }
        self.number += 1;
        self.goes_on = goes_on(next);
        Some(Claim {
            field,
            mnemonic,
            operand,
        })
    }
}

/// A mnemonic without an operand.
fn alone(field: usize, mnemonic: &[u8]) -> Claim
    ensures { claim result.field result.mnemonic.now result.operand.now
        ≡ claim field mnemonic.now [] }
{
    Claim {
        field,
        mnemonic,
        operand: &[],
    }
}

/// Where the comment of a line begins, if it has one.
pub fn comment_place(line: &[u8]) -> Option<usize>
    ensures value { result ≡ comment_place line.now }
    ensures within { IfSome result (λ star. star < length line.now) }
{
    for place in 0..line.len() {
        if begins_comment(line, place) {
            return Some(place);
        }
    }
    None
}

/// Whether a comment begins with this character of a line.
fn begins_comment(line: &[u8], place: usize) -> bool
    requires { place < length line.now }
    ensures { result ≡ begins_comment line.now place }
{
    begins_field(line, place) && line[place] == b'*'
}

/// Whether one more mnemonic may come after a field.
fn goes_on(field: &[u8]) -> bool
    ensures { result ≡ goes_on field.now }
{
    matches!(last_of(field), b',' | b';')
}

/// Whether a mark is at the end of a field.
fn is_marked(field: &[u8]) -> bool
    ensures { result ≡ is_marked field.now }
{
    goes_on(field) || last_of(field) == b':'
}

/// The last character; 0 if there is none.
fn last_of(field: &[u8]) -> u8
    ensures { result ≡ last_of field.now }
{
    if field.is_empty() {
        return 0;
    }
    field[field.len() - 1]
}

/// A field without the mark at its end.
fn unmarked(field: &[u8]) -> &[u8]
    ensures { result.now ≡ unmarked field.now }
{
    if !is_marked(field) || field.is_empty() {
        return field;
    }
    &field[..field.len() - 1]
}

/// Whether a field is the mnemonic of an instruction.
fn is_mnemonic(field: &[u8]) -> bool
    ensures { result ≡ is_mnemonic field.now }
{
    for code in 0..CODES {
        if decode(Word12::truncated(code * CODES))
            .0
            .mnemonic()
            .as_bytes()
            == field
        {
            return true;
        }
    }
    false
}

/// Whether a field is an octal digit, and then such digits and commas.
#[tactic(auto, unfolding(crate::specs::Claim::is_operand))]
fn is_operand(field: &[u8]) -> bool
    ensures { result ≡ is_operand field.now }
{
    if !begins_with_octal(field) {
        return false;
    }
    for character in field {
        if !is_in_operand(*character) {
            return false;
        }
    }
    true
}

/// Whether a field begins with an octal digit.
fn begins_with_octal(field: &[u8]) -> bool
    ensures { result ≡ is_digit 8 (slice_index field.now 0) }
{
    matches!(field, [b'0'..=b'7', ..])
}

/// Whether a character may be in an operand: an octal digit or a comma.
fn is_in_operand(character: u8) -> bool
    ensures { result ≡ (is_digit 8 character || character == 44) }
{
    matches!(character, b'0'..=b'7' | b',')
}
