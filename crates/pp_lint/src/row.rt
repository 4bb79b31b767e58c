//! What a line gives.

ghost use Rattle.std.specs.Prelude.{◌≡◌, ◌<◌, ◌≤◌, ◌^◌, ℕ, None, length};
ghost use Rattle.std.specs.Result.{result_ok};
ghost use Rattle.pp_deck.specs.DeckLine.{section_line};
ghost use Rattle.pp_deck.specs.DeckText.{fields_of};
ghost use Rattle.pp_lint.specs.FirstLines.{IsOfProcessor, IsRow};
ghost use Rattle.pp_lint.specs.Given.{given, named_by, row, start_place};
ghost use Rattle.pp_lint.specs.LineFault.{fault_after, said_after};
ghost use Rattle.pp_lint.specs.declared.row.Kind.{Kind};
ghost use Rattle.pp_lint.specs.RowOfLine.{central_row, named_row, place_in_second, start_row, words_row};

use crate::line_fault::{Before, begins_with_digit, is};
use pp_deck::Fields;
use pp_instructions::word_of;
use pp_numbers::{PpNo, Profile};
use pp_word::{Word12, numeral};

/// What kind of thing a line gives.
#[derive(Clone, Copy)]
pub(crate) enum Kind {
    /// A fault.
    Fault,
    /// The name of a processor.
    Name(PpNo),
    /// Its start.
    Start(PpNo),
    /// A word of it, at a place.
    Word(PpNo),
    /// A central word, at an address.
    Central,
    /// Dead start.
    Dead,
    /// A place of a processor that START or a jump leads to.
    Target(PpNo),
    /// A channel for which a processor has an instruction, by its number.
    Channel(PpNo),
}

/// Things in a row: how many of a kind, from a place or an address on.
#[derive(Clone, Copy)]
pub(crate) struct Row {
    pub(crate) kind: Kind,
    pub(crate) first: usize,
    pub(crate) count: usize,
}

/// What a line with these fields gives that has no fault.
pub(crate) fn row_of(before: &Before, fields: &mut Fields) -> Row
    requires fields { length fields.old ≤ 2 ^ 63 }
    requires size { before.now.size ≤ 2 ^ 17 }
    ensures value { fault_after before.now fields.old ≡ None
        → result ≡ given before.now.section (said_after before.now fields.old) }
    ensures room { fault_after before.now fields.old ≡ None → IsRow result }
    ensures start { (n : ℕ) → fault_after before.now fields.old ≡ None
        → result.kind ≡ Kind.Start n
        → start_place (said_after before.now fields.old) ≡ place_in_second fields.old }
{
    let Some(first) = fields.next_field() else {
        return nothing();
    };
    if is(first, b"CM") {
        return central_row(fields);
    }
    if is(first, b"PP") {
        return name_row(before.profile, fields);
    }
    if is(first, b"START") {
        return start_row(before.section);
    }
    if is(first, b"DEAD") {
        return one(Kind::Dead);
    }
    if begins_with_digit(first) {
        return words_row(before.section, first, fields);
    }
    nothing()
}

/// Nothing.
fn nothing() -> Row
    ensures { result ≡ row Kind.Fault 0 0 }
{
    Row {
        kind: Kind::Fault,
        first: 0,
        count: 0,
    }
}

/// One thing of a kind.
pub(crate) fn one(kind: Kind) -> Row
    ensures { result ≡ row kind 0 1 }
{
    Row {
        kind,
        first: 0,
        count: 1,
    }
}

/// That of a `PP` line, by the fields after its keyword.
fn name_row(profile: Profile, fields: &mut Fields) -> Row
    ensures { result ≡ named_row (named_by (result_ok (section_line profile fields.old))) }
{
    match processor_in(profile, fields) {
        Some(n) => one(Kind::Name(n)),
        None => nothing(),
    }
}

/// The processor that a `PP` line names, by the fields after its keyword.
pub(crate) fn processor_in(profile: Profile, fields: &mut Fields) -> Option<PpNo>
    ensures { result ≡ named_by (result_ok (section_line profile fields.old)) }
{
    let field = fields.next_field()?;
    let n = numeral(8, 2, field)?;
    match fields.next_field() {
        Some(_) => None,
        None => profile.processor(n as u8),
    }
}

/// That of a `START` line that is for this processor.
fn start_row(section: Option<PpNo>) -> Row
    ensures { result ≡ start_row section }
{
    match section {
        Some(n) => one(Kind::Start(n)),
        None => nothing(),
    }
}

/// That of `x w w ..`, by its first field and those after it.
fn words_row(section: Option<PpNo>, first: &[u8], fields: &mut Fields) -> Row
    requires { length fields.old ≤ 2 ^ 63 }
    ensures value { result ≡ words_row section first.now fields.old }
    ensures small { result.first < 2 ^ 18 }
    ensures processor { IsOfProcessor result.kind }
{
    match section {
        Some(n) => Row {
            kind: Kind::Word(n),
            first: usize::from(word_of(first).get()),
            count: count_of(fields),
        },
        None => nothing(),
    }
}

/// That of `CM a w w ..`, by the fields after its keyword.
fn central_row(fields: &mut Fields) -> Row
    requires { length fields.old ≤ 2 ^ 63 }
    ensures value { result ≡ central_row fields.old }
    ensures small { result.first < 2 ^ 18 }
{
    let Some(field) = fields.next_field() else {
        return nothing();
    };
    Row {
        kind: Kind::Central,
        first: numeral(8, 6, field).unwrap_or(0) as usize,
        count: count_of(fields),
    }
}

/// How many fields there are.
fn count_of(fields: &mut Fields) -> usize
    requires { length fields.old ≤ 2 ^ 63 }
    ensures { result ≡ length fields.old }
{
    let mut count = 0;
    while let Some(_) = fields.next_field() {
        count += 1;
    }
    count
}

/// The place in the second field; 0 if there is none.
pub(crate) fn place_of_start(line: &[u8]) -> Word12
    ensures { result ≡ place_in_second (fields_of line.now) }
{
    let mut fields = Fields::of(line);
    let Some(_) = fields.next_field() else {
        return Word12::ZERO;
    };
    match fields.next_field() {
        Some(field) => word_of(field),
        None => Word12::ZERO,
    }
}
