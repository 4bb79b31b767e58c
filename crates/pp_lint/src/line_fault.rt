//! The fault of a line, by its fields.

ghost use Rattle.std.specs.Prelude.{ℕ, ◌≡◌, ◌+◌, ◌-◌, ◌<◌, ◌≤◌, ◌^◌, ◌∷◌, [], None, Option, IfOk, IfErr, Some, bytes_eq, length, slice_index};
ghost use Rattle.std.specs.Char.{is_ascii_digit};
ghost use Rattle.pp_word.specs.Numeral.{numeral};
ghost use Rattle.pp_deck.specs.DeckLine.{Line, central_line, central_words_line, ends_with, section_line, start_from, start_line, words_line};
ghost use Rattle.pp_deck.specs.DeckText.{Field, Fields};
ghost use Rattle.pp_deck.specs.Flaw.{code_of};
ghost use Rattle.pp_deck.specs.declared.deck_fault.DeckCode.{DeckCode};
ghost use Rattle.pp_lint.specs.FieldAtFault.{fault_in};
ghost use Rattle.pp_lint.specs.LineFault.{BeginWithNumber, IsFaultOf, IsFaultOfLine, fault_after, fault_of_words};

use pp_deck::{DeckCode, Fields};
use pp_numbers::{PpNo, Profile};
use pp_word::{MOST_CENTRAL_WORDS, PLACES, numeral};

/// What a line depends on besides its fields.
#[derive(Clone, Copy)]
pub(crate) struct Before {
    pub(crate) profile: Profile,
    /// The size of central memory.
    pub(crate) size: u32,
    /// Whether a line with fields stands before it.
    pub(crate) is_after_fields: bool,
    /// Whether a `PP` line does.
    pub(crate) is_in_section: bool,
    /// The processor that the last `PP` line before it names; none if that line has a fault.
    pub(crate) section: Option<PpNo>,
}

/// A fault, and the number of the field at fault; the first field is 0.
#[derive(Clone, Copy)]
pub(crate) struct Fault {
    pub(crate) code: DeckCode,
    pub(crate) field: usize,
}

/// The fault of a line, if it has one.
pub(crate) fn fault_of(before: &Before, fields: &mut Fields) -> Option<Fault>
    requires { length fields.old ≤ 2 ^ 63 }
    ensures { IsFaultOf (fault_after before.now) fields.old 0 result }
{
    let first = fields.next_field()?;
    if is(first, b"CENTRAL") {
        return if before.is_after_fields {
            Some(at_first(DeckCode::UnknownLine))
        } else {
            central_fault(fields)
        };
    }
    if is(first, b"CM") {
        return central_words_fault(before.size, fields);
    }
    if is(first, b"PP") {
        return section_fault(before.profile, fields);
    }
    if is(first, b"START") {
        return if before.is_in_section {
            start_fault(fields)
        } else {
            Some(at_first(DeckCode::NoProcessor))
        };
    }
    if is(first, b"DEAD") {
        return end_fault(fields, 1);
    }
    if !begins_with_digit(first) {
        return Some(at_first(DeckCode::UnknownLine));
    }
    if !before.is_in_section {
        return Some(at_first(DeckCode::NoProcessor));
    }
    words_line_fault(first, fields)
}

/// Whether a field is this keyword.
pub(crate) fn is(field: &[u8], keyword: &[u8]) -> bool
    ensures { result ≡ bytes_eq field.now keyword.now }
{
    field == keyword
}

/// Whether a line of words begins with this field.
pub(crate) fn begins_with_digit(field: &[u8]) -> bool
    ensures { result ≡ is_ascii_digit (slice_index field.now 0) }
{
    matches!(field, [b'0'..=b'9', ..])
}

/// A fault at the first field.
fn at_first(code: DeckCode) -> Fault
    ensures { result ≡ record { code = code; field = 0 } }
{
    Fault { code, field: 0 }
}

/// That of `CENTRAL n`.
fn central_fault(fields: &mut Fields) -> Option<Fault>
    ensures { IsFaultOfLine (λ more. fault_in code_of (central_line more)) fields.old result }
{
    let n = match next_number(fields, 6) {
        Ok(n) => n,
        Err(fault) => return Some(fault),
    };
    if !(1..=u64::from(MOST_CENTRAL_WORDS)).contains(&n) {
        return Some(Fault {
            code: DeckCode::CentralRange,
            field: 1,
        });
    }
    end_fault(fields, 2)
}

/// That of `CM a w w ..`.
fn central_words_fault(size: u32, fields: &mut Fields) -> Option<Fault>
    requires { length fields.old ≤ 2 ^ 63 }
    ensures { IsFaultOfLine (λ more. fault_in code_of
        (central_words_line size more)) fields.old result }
{
    match next_number(fields, 6) {
        Ok(a) => words_fault(fields, 2, 20, a, u64::from(size), DeckCode::CentralRange),
        Err(fault) => Some(fault),
    }
}

/// That of `PP n`.
fn section_fault(profile: Profile, fields: &mut Fields) -> Option<Fault>
    ensures { IsFaultOfLine (λ more. fault_in code_of
        (section_line profile more)) fields.old result }
{
    let n = match next_number(fields, 2) {
        Ok(n) => n,
        Err(fault) => return Some(fault),
    };
    match profile.processor(n as u8) {
        Some(_) => end_fault(fields, 2),
        None => Some(Fault {
            code: DeckCode::BadProcessor,
            field: 1,
        }),
    }
}

/// That of `START p` or `START p a`.
fn start_fault(fields: &mut Fields) -> Option<Fault>
    ensures { IsFaultOfLine (λ more. fault_in code_of (start_line more)) fields.old result }
{
    match next_number(fields, 4) {
        Ok(_) => start_a_fault(fields),
        Err(fault) => Some(fault),
    }
}

/// That of what comes after the P of a `START` line, from field 2 on.
fn start_a_fault(fields: &mut Fields) -> Option<Fault>
    ensures { (p : ℕ) → IsFaultOf (λ more. fault_in code_of (start_from p more))
        fields.old 2 result }
{
    let field = fields.next_field()?;
    match numeral(8, 6, field) {
        Some(_) => end_fault(fields, 3),
        None => Some(Fault {
            code: DeckCode::BadDigits,
            field: 2,
        }),
    }
}

/// That of `x w w ..`.
fn words_line_fault(first: &[u8], fields: &mut Fields) -> Option<Fault>
    requires { length fields.old ≤ 2 ^ 63 }
    ensures { (fault_of : Fields → Option DeckCode) → fault_of [] ≡ None
        → ((more : Fields) → fault_of (first.now ∷ more)
        ≡ fault_in code_of (words_line first.now more))
        → IsFaultOf fault_of (first.now ∷ fields.old) 0 result }
{
    match numeral(8, 4, first) {
        Some(x) => words_fault(fields, 1, 4, x, PLACES as u64, DeckCode::PastEnd),
        None => Some(at_first(DeckCode::BadDigits)),
    }
}

/// The number in the field after the keyword; or the fault of the line.
fn next_number(fields: &mut Fields, most: usize) -> Result<u64, Fault>
    requires { 8 ^ most ≤ 2 ^ 64 }
    ensures ok { IfOk result (λ n. (field : Field)
        × ((fields.old ≡ field ∷ fields.new) × (numeral 8 most field ≡ Some n))) }
    ensures fault { IfErr result (λ fault. (fault_of : Fields → Option DeckCode)
        → BeginWithNumber most fault_of → IsFaultOfLine fault_of fields.old (Some fault)) }
    ensures small { IfOk result (λ n. n < 8 ^ most) }
{
    let Some(field) = fields.next_field() else {
        return Err(at_first(DeckCode::UnknownLine));
    };
    match numeral(8, most, field) {
        Some(n) => Ok(n),
        None => Err(Fault {
            code: DeckCode::BadDigits,
            field: 1,
        }),
    }
}

/// That of some words, of which the first is this field, from a place on.
fn words_fault(
    fields: &mut Fields,
    first: usize,
    most: usize,
    place: u64,
    end: u64,
    past: DeckCode,
) -> Option<Fault>
    requires most { 8 ^ most ≤ 2 ^ 64 }
    requires first { first ≤ 2 }
    requires few { length fields.old ≤ 2 ^ 63 }
    requires place { place < 2 ^ 20 }
    ensures { IsFaultOf (fault_of_words most end past place) fields.old first result }
{
    let mut place = place;
    let mut number = first;
    while let Some(field) = fields.next_field() {
        let Some(_) = numeral(8, most, field) else {
            return Some(Fault {
                code: DeckCode::BadDigits,
                field: number,
            });
        };
        if place >= end {
            return Some(Fault {
                code: past,
                field: number,
            });
        }
        place += 1;
        number += 1;
    }
    None
}

/// That of one more field, where a line must end: this field is one too many.
fn end_fault(fields: &mut Fields, field: usize) -> Option<Fault>
    ensures { (line : Line) → IsFaultOf (λ more. fault_in code_of (ends_with line more))
        fields.old field result }
{
    let _more = fields.next_field()?;
    Some(Fault {
        code: DeckCode::UnknownLine,
        field,
    })
}
