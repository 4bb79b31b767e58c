//! What is found in a line that has no fault, by what other lines give.

ghost use Rattle.std.specs.Prelude.{ℕ, ◌≡◌, ◌+◌, ◌<◌, ◌≤◌, ◌^◌, ◌++◌, IfSome, List, true};
ghost use Rattle.std.specs.List.{flat_map};
ghost use Rattle.pp_deck.specs.DeckText.{fields_of};
ghost use Rattle.pp_lint.specs.FirstLines.{IsRow, IsThing, Shows};
ghost use Rattle.pp_lint.specs.Given.{Note, first_line};
ghost use Rattle.pp_lint.specs.declared.row.Kind.{Kind};
ghost use Rattle.pp_lint.specs.LineFault.{said_after};
ghost use Rattle.pp_lint.specs.LintText.{finding_line, is_something_found};
ghost use Rattle.pp_lint.specs.RowOfLine.{place_in_second};
ghost use Rattle.pp_lint.specs.Warnings.{field_finding, first_field, first_twice, has_words, is_before, is_lacking, is_set, names_without_start, no_start_findings, no_word_findings, set_text, startless_text, twice_findings, twice_text, warnings, wordless_text};
ghost use Rattle.pp_lint.specs.WordsOfLine.{HasNoFault};
ghost use Rattle.pp_text.specs.TextWriter.{Prints};

use crate::first_lines::{FirstLines, PLACES};
use crate::line_fault::Before;
use crate::line_findings::print_place;
use crate::row::{Kind, Row, place_of_start, row_of};
use pp_deck::Fields;
use pp_instructions::Columns;
use pp_numbers::PpNo;
use pp_text::{TextWriter, octal4, print_short_decimal, print_short_octal};
use pp_word::Word12;
use std::alloc::Allocator;
use std::io::Write;

/// Prints what is found in a line without a fault by what other lines give, and returns whether
/// something is.
pub(crate) fn print_warnings<A: Allocator, W: Write>(
    text: &mut TextWriter<W>,
    firsts: &FirstLines<A>,
    before: &Before,
    number: u64,
    line: &[u8],
) -> bool
    requires size { before.now.size ≤ 2 ^ 17 }
    requires clean { HasNoFault before.now line.now }
    ensures prints { (k : ℕ) (notes : List Note) → Shows firsts.now notes → number ≡ k + 1
        → Prints W.contents text.old text.new (flat_map finding_line (warnings k line.now notes
        before.now.section (said_after before.now (fields_of line.now)))) }
    ensures found { (k : ℕ) (notes : List Note) → Shows firsts.now notes → number ≡ k + 1
        → result ≡ is_something_found (warnings k line.now notes
        before.now.section (said_after before.now (fields_of line.now))) }
{
    let row = row_of(before, &mut Fields::of(line));
    match &row.kind {
        Kind::Name(n) => print_no_start(text, firsts, *n, number, line),
        Kind::Start(n) => print_start_warnings(text, firsts, &row, *n, number, line),
        Kind::Word(_) => print_twice(text, firsts, &row, number, line),
        Kind::Central => print_twice(text, firsts, &row, number, line),
        _ => false,
    }
}

/// Prints what is found in a line that starts a processor, and returns whether something is.
fn print_start_warnings<A: Allocator, W: Write>(
    text: &mut TextWriter<W>,
    firsts: &FirstLines<A>,
    row: &Row,
    n: PpNo,
    number: u64,
    line: &[u8],
) -> bool
    requires row { IsRow row.now }
    requires start { row.now.kind ≡ Kind.Start n }
    ensures prints { (k : ℕ) (notes : List Note) → Shows firsts.now notes → number ≡ k + 1
        → Prints W.contents text.old text.new
        (flat_map finding_line (twice_findings k line.now notes row.now
        ++ no_word_findings k line.now notes n (place_in_second (fields_of line.now)))) }
    ensures found { (k : ℕ) (notes : List Note) → Shows firsts.now notes → number ≡ k + 1
        → result ≡ is_something_found (twice_findings k line.now notes row.now
        ++ no_word_findings k line.now notes n (place_in_second (fields_of line.now))) }
{
    let is_twice = print_twice(text, firsts, row, number, line);
    let is_wordless = print_no_word(text, firsts, n, number, line);
    is_twice | is_wordless
}

/// Prints the first of what a line sets that an earlier line sets, and returns whether there is
/// one.
fn print_twice<A: Allocator, W: Write>(
    text: &mut TextWriter<W>,
    firsts: &FirstLines<A>,
    row: &Row,
    number: u64,
    line: &[u8],
) -> bool
    requires row { IsRow row.now }
    requires set { is_set row.now.kind ≡ true }
    ensures prints { (k : ℕ) (notes : List Note) → Shows firsts.now notes → number ≡ k + 1
        → Prints W.contents text.old text.new
        (flat_map finding_line (twice_findings k line.now notes row.now)) }
    ensures found { (k : ℕ) (notes : List Note) → Shows firsts.now notes → number ≡ k + 1
        → result ≡ is_something_found (twice_findings k line.now notes row.now) }
{
    let Some(i) = first_twice(firsts, row, number) else {
        return false;
    };
    let place = row.first + i;
    let field = first_field(&row.kind) + i;
    let first = firsts.line_of(&row.kind, place);
    print_again(
        text,
        number,
        Columns::of(line).column_of(field),
        &row.kind,
        place,
        first,
    );
    true
}

/// The first of a row that a line before the one of this number sets.
fn first_twice<A: Allocator>(firsts: &FirstLines<A>, row: &Row, number: u64) -> Option<usize>
    requires { IsRow row.now }
    ensures value { (k : ℕ) (notes : List Note) → Shows firsts.now notes → number ≡ k + 1
        → result ≡ first_twice k notes row.now }
    ensures within { IfSome result (λ i. i < row.now.count) }
{
    for i in 0..row.count {
        if is_before(firsts, &row.kind, row.first + i, number) {
            return Some(i);
        }
    }
    None
}

/// Whether a line before the one of this number gives a thing.
fn is_before<A: Allocator>(firsts: &FirstLines<A>, kind: &Kind, place: usize, number: u64) -> bool
    requires { IsThing kind.now place }
    ensures { (k : ℕ) (notes : List Note) → Shows firsts.now notes → number ≡ k + 1
        → result ≡ is_before k (first_line notes kind.now place) }
{
    let first = firsts.line_of(kind, place);
    first != 0 && u64::from(first) < number
}

/// The field in which the first of a row stands.
fn first_field(kind: &Kind) -> usize
    ensures value { result ≡ first_field kind.now }
    ensures small { result ≤ 2 }
{
    match kind {
        Kind::Word(_) => 1,
        Kind::Central => 2,
        _ => 0,
    }
}

/// Prints `4:6 0100 is set in line 3 too`.
fn print_again<W: Write>(
    text: &mut TextWriter<W>,
    number: u64,
    column: u64,
    kind: &Kind,
    place: usize,
    first: u32,
)
    requires { IsThing kind.now place }
    ensures { Prints W.contents text.old text.new (finding_line
        (record { line = number; column = column; words = twice_text kind.now place first })) }
{
    print_place(text, number, column);
    print_set(text, kind, place);
    text.print(b" is set in line ");
    print_short_decimal(text, u64::from(first));
    text.print(b" too\n");
}

/// Prints `0100`, `CM 20` or `START`.
fn print_set<W: Write>(text: &mut TextWriter<W>, kind: &Kind, place: usize)
    requires { IsThing kind.now place }
    ensures { Prints W.contents text.old text.new (set_text kind.now place) }
{
    match kind {
        Kind::Word(_) => text.print(&octal4(place as u16)),
        Kind::Central => {
            text.print(b"CM ");
            print_short_octal(text, 6, place as u64);
        }
        _ => text.print(b"START"),
    }
}

/// Whether no line gives a thing, and no line has a fault.
fn is_lacking<A: Allocator>(firsts: &FirstLines<A>, kind: &Kind, place: usize) -> bool
    requires { IsThing kind.now place }
    ensures { (notes : List Note) → Shows firsts.now notes
        → result ≡ is_lacking notes kind.now place }
{
    firsts.line_of(kind, place) == 0 && firsts.line_of(&Kind::Fault, 0) == 0
}

/// Prints at the first line that names a processor that it has no start, and returns whether that
/// is so.
fn print_no_start<A: Allocator, W: Write>(
    text: &mut TextWriter<W>,
    firsts: &FirstLines<A>,
    n: PpNo,
    number: u64,
    line: &[u8],
) -> bool
    ensures prints { (k : ℕ) (notes : List Note) → Shows firsts.now notes → number ≡ k + 1
        → Prints W.contents text.old text.new
        (flat_map finding_line (no_start_findings k line.now notes n)) }
    ensures found { (k : ℕ) (notes : List Note) → Shows firsts.now notes → number ≡ k + 1
        → result ≡ is_something_found (no_start_findings k line.now notes n) }
{
    if !names_without_start(firsts, n, number) {
        return false;
    }
    print_startless(text, n, number, line);
    true
}

/// Prints `3:1 PP 3 has no START`, at the first field of a line.
#[tactic(auto, using(pp_numbers::proofs::PpNoLemmas::processor_fits))]
fn print_startless<W: Write>(text: &mut TextWriter<W>, n: PpNo, number: u64, line: &[u8])
    ensures { Prints W.contents text.old text.new
        (finding_line (field_finding number line.now 0 (startless_text n))) }
{
    print_place(text, number, Columns::of(line).column_of(0));
    text.print(b"PP ");
    print_short_octal(text, 2, u64::from(n.get()));
    text.print(b" has no START\n");
}

/// Whether the line of this number is the first that names a processor, which has no start, and has
/// words or need not be named for dead start.
fn names_without_start<A: Allocator>(firsts: &FirstLines<A>, n: PpNo, number: u64) -> bool
    ensures { (k : ℕ) (notes : List Note) → Shows firsts.now notes → number ≡ k + 1
        → result ≡ names_without_start k notes n }
{
    !is_before(firsts, &Kind::Name(n), 0, number)
        && is_lacking(firsts, &Kind::Start(n), 0)
        && (has_words(firsts, n) || is_lacking(firsts, &Kind::Dead, 0))
}

/// Whether a processor has words.
fn has_words<A: Allocator>(firsts: &FirstLines<A>, n: PpNo) -> bool
    ensures { (notes : List Note) → Shows firsts.now notes → result ≡ has_words notes n }
{
    for place in 0..PLACES {
        if firsts.line_of(&Kind::Word(n), place) != 0 {
            return true;
        }
    }
    false
}

/// Prints that no word is where a line starts a processor, and returns whether that is so.
fn print_no_word<A: Allocator, W: Write>(
    text: &mut TextWriter<W>,
    firsts: &FirstLines<A>,
    n: PpNo,
    number: u64,
    line: &[u8],
) -> bool
    ensures prints { (k : ℕ) (notes : List Note) → Shows firsts.now notes → number ≡ k + 1
        → Prints W.contents text.old text.new (flat_map finding_line
        (no_word_findings k line.now notes n (place_in_second (fields_of line.now)))) }
    ensures found { (k : ℕ) (notes : List Note) → Shows firsts.now notes → number ≡ k + 1
        → result ≡ is_something_found
        (no_word_findings k line.now notes n (place_in_second (fields_of line.now))) }
{
    let place = place_of_start(line);
    if !is_wordless(firsts, n, place) {
        return false;
    }
    print_wordless(text, place, number, line);
    true
}

/// Whether no line sets the word of a processor at this place, and no line has a fault.
fn is_wordless<A: Allocator>(firsts: &FirstLines<A>, n: PpNo, place: Word12) -> bool
    ensures { (notes : List Note) → Shows firsts.now notes
        → result ≡ is_lacking notes (Kind.Word n) place }
{
    is_lacking(firsts, &Kind::Word(n), usize::from(place.get()))
}

/// Prints `4:7 START 0100, where no word is`, at the second field of a line.
fn print_wordless<W: Write>(text: &mut TextWriter<W>, place: Word12, number: u64, line: &[u8])
    ensures { Prints W.contents text.old text.new
        (finding_line (field_finding number line.now 1 (wordless_text place))) }
{
    print_place(text, number, Columns::of(line).column_of(1));
    text.print(b"START ");
    text.print(&octal4(place.get()));
    text.print(b", where no word is\n");
}
