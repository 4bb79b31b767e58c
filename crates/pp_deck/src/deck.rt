ghost use Rattle.std.specs.Prelude.{ℕ, ◌≡◌, ◌≢◌, ◌≤◌, ◌<◌, Ok, Err, IfOk, IfErr, find, length, position};
ghost use Rattle.pp_deck.specs.{DeckText.lines_of, Reading.IsStated};
ghost use Rattle.pp_deck.specs.DeckMeaning.{deck_meaning, has_fields, meaning_of_lines, is_foreign, line_of_byte};
ghost use Rattle.pp_machine.specs.Central.{IsCentralSize};

use crate::deck_line::central_size_in;
use crate::flaw::Flaw;
use crate::keyword::Keyword;
use crate::lines::Lines;
use crate::reading::Reading;
use crate::{DeckCode, DeckFault};
use pp_machine::{Machine, PROCESSORS, Profile};
use std::alloc::Allocator;

/// The longest text of a deck, in bytes (decimal).
pub const LONGEST_TEXT: usize = 1_048_576;

/// The size if a deck sets none: 10000 words (octal).
pub const DEFAULT_SIZE: u32 = 0o10000;

/// A loaded machine, and the processors that its deck names, in the barrel's order; none is named
/// that the machine lacks.
#[derive(Drop)]
pub struct Deck<A: Allocator> {
    pub machine: Machine<A>,
    pub named: [bool; PROCESSORS],
}

/// The deck of a text, for a machine of this profile: ASCII of at most 1,048,576 bytes (decimal),
/// whose numbers are octal. What a text means is stated in `specs/DeckMeaning`; only `Memory` may
/// be returned instead.
#[tactic(auto, unfolding(crate::specs::DeckMeaning::deck_meaning))]
pub fn read_deck<A: Allocator + Copy>(
    alloc: A,
    profile: Profile,
    text: &[u8],
) -> Result<Deck<A>, DeckFault>
    ensures ok { IfOk result (λ deck. deck_meaning profile text.now
        ≡ Ok (record { machine = deck.machine; named = deck.named })) }
    ensures fault { IfErr result (λ fault. fault.code ≢ DeckCode.Memory
        → deck_meaning profile text.now ≡ Err fault) }
    ensures memory_at_no_line { IfErr result (λ fault. fault.code ≡ DeckCode.Memory
        → fault.line ≡ 0) }

    // These two take no memory.
    ensures too_long { LONGEST_TEXT < length text.now
        → result ≡ Err (record { line = 0; code = DeckCode.TooLong }) }
    ensures not_ascii { (i : ℕ) → length text.now ≤ LONGEST_TEXT
        → position is_foreign text.now ≡ Some i
        → result ≡ Err (record { line = line_of_byte text.now i; code = DeckCode.NotAscii }) }
{
    if text.len() > LONGEST_TEXT {
        return Err(fault(0, DeckCode::TooLong));
    }
    if let Some(i) = first_foreign(text) {
        return Err(fault(line_of_byte(text, i), DeckCode::NotAscii));
    }
    deck_of_lines(alloc, profile, text)
}

fn fault(line: u32, code: DeckCode) -> DeckFault
    ensures { result ≡ record { line = line; code = code } }
{
    DeckFault { line, code }
}

/// The place of the first byte that is not ASCII.
fn first_foreign(text: &[u8]) -> Option<usize>
    ensures { result ≡ position is_foreign text.now }
{
    text.iter().position(|byte| *byte >= 0o200)
}

/// The number of the line in which a byte stands.
fn line_of_byte(text: &[u8], place: usize) -> u32
    requires inside { place < length text.now }
    requires limit { length text.now ≤ LONGEST_TEXT }
    ensures { result ≡ line_of_byte text.now place }
{
    let ended = text[..place].iter().filter(|byte| **byte == b'\n').count();
    ended as u32 + 1
}

/// The size of central memory that the first line with fields sets, or its flaw if it is a
/// `CENTRAL` line with one.
fn stated_size(text: &[u8]) -> Result<u32, Flaw>
    ensures line { IsStated result (find has_fields (lines_of text.now)) }
    ensures range { IfOk result IsCentralSize }
{
    let mut lines = Lines::of(text);
    while let Some(mut fields) = lines.next_line() {
        if let Some(first) = fields.next_field() {
            return match Keyword::of(first) {
                Keyword::Central => central_size_in(&mut fields),
                _ => Ok(DEFAULT_SIZE),
            };
        }
    }
    Ok(DEFAULT_SIZE)
}

/// The deck of a text that is ASCII and not too long: its lines are read up to the first fault, and
/// then processors wait as dead start has it.
fn deck_of_lines<A: Allocator + Copy>(
    alloc: A,
    profile: Profile,
    text: &[u8],
) -> Result<Deck<A>, DeckFault>
    requires { length text.now ≤ LONGEST_TEXT }
    ensures ok { IfOk result (λ deck. meaning_of_lines profile (lines_of text.now)
        ≡ Ok (record { machine = deck.machine; named = deck.named })) }
    ensures fault { IfErr result (λ fault. fault.code ≢ DeckCode.Memory
        → meaning_of_lines profile (lines_of text.now) ≡ Err fault) }
    ensures memory_at_no_line { IfErr result (λ fault. fault.code ≡ DeckCode.Memory
        → fault.line ≡ 0) }
{
    let stated = stated_size(text);
    let size = stated.unwrap_or(DEFAULT_SIZE);
    let Ok(mut reading) = Reading::new(alloc, profile, size) else {
        return Err(fault(0, DeckCode::Memory));
    };
    let mut lines = Lines::of(text);
    let mut number = 0;
    let mut is_after_fields = false;
    while let Some(mut fields) = lines.next_line() {
        number += 1;
        if let Some(first) = fields.next_field() {
            if let Err(flaw) = reading.read_line(is_after_fields, &stated, first, &mut fields) {
                return Err(fault(number, flaw.code()));
            }
            is_after_fields = true;
        }
    }
    reading.into_deck().or(Err(fault(0, DeckCode::Memory)))
}
