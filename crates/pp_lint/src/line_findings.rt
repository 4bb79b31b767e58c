//! What is found in a line.

ghost use Rattle.std.specs.Prelude.{ℕ, ◌≡◌, ◌+◌, ◌≤◌, ◌^◌, ◌++◌, [], List, codes, position, slice_index_or};
ghost use Rattle.std.specs.List.{flat_map};
ghost use Rattle.pp_word.specs.Numeral.{short_decimal};
ghost use Rattle.pp_deck.specs.DeckMeaning.{is_foreign};
ghost use Rattle.pp_deck.specs.DeckText.{fields_of};
ghost use Rattle.pp_instructions.specs.Column.{column_of};
ghost use Rattle.pp_lint.specs.FaultWords.{fault_words};
ghost use Rattle.pp_lint.specs.Findings.{found_without_fault, line_findings};
ghost use Rattle.pp_lint.specs.FirstLines.{Shows};
ghost use Rattle.pp_lint.specs.Given.{Note};
ghost use Rattle.pp_lint.specs.LineFault.{fault_after, said_after};
ghost use Rattle.pp_lint.specs.LintText.{finding_line, is_something_found};
ghost use Rattle.pp_text.specs.TextWriter.{Prints};

use crate::comment_findings::print_comment_findings;
use crate::fault_words::print_fault_words;
use crate::line_fault::{Before, Fault, fault_of};
use crate::run_findings::print_run_findings;
use crate::warnings::print_warnings;
use crate::whole_deck::WholeDeck;
use pp_deck::{DeckCode, Fields};
use pp_instructions::Columns;
use pp_text::{TextWriter, print_short_decimal};
use pp_word::Word12;
use std::alloc::Allocator;
use std::io::Write;

/// Prints what is found in a line of this number, and returns whether something is.
pub(crate) fn print_line_findings<A: Allocator, W: Write>(
    text: &mut TextWriter<W>,
    deck: &WholeDeck<A>,
    before: &Before,
    reached: &Option<Word12>,
    number: u64,
    line: &[u8],
) -> bool
    requires { before.now.size ≤ 2 ^ 17 }
    ensures prints { (k : ℕ) (notes : List Note) → Shows deck.now.firsts notes → number ≡ k + 1
        → Prints W.contents text.old text.new (flat_map finding_line
        (line_findings k line.now (fault_after before.now)
        (found_without_fault before.now.profile k line.now notes deck.now.alone.items
        reached.now before.now.section
        (said_after before.now (fields_of line.now))))) }
    ensures found { (k : ℕ) (notes : List Note) → Shows deck.now.firsts notes → number ≡ k + 1
        → result ≡ is_something_found
        (line_findings k line.now (fault_after before.now)
        (found_without_fault before.now.profile k line.now notes deck.now.alone.items
        reached.now before.now.section
        (said_after before.now (fields_of line.now)))) }
{
    if let Some(place) = first_foreign(line) {
        print_finding(text, number, place as u64 + 1, DeckCode::NotAscii, &[]);
        return true;
    }
    match fault_of(before, &mut Fields::of(line)) {
        Some(fault) => {
            print_fault(text, number, line, &fault);
            true
        }
        None => {
            let is_warned = print_warnings(text, &deck.firsts, before, number, line);
            let is_amiss = print_run_findings(text, deck, before, reached, number, line);
            let is_otherwise = print_comment_findings(text, number, line);
            is_warned | is_amiss | is_otherwise
        }
    }
}

/// Prints a fault of a line.
fn print_fault<W: Write>(text: &mut TextWriter<W>, number: u64, line: &[u8], fault: &Fault)
    ensures { Prints W.contents text.old text.new (finding_line (record {
      line = number;
      column = column_of line.now fault.now.field;
      words = fault_words fault.now.code
          (slice_index_or (fields_of line.now) fault.now.field []);
    })) }
{
    let field = nth_field(line, fault.field);
    print_finding(
        text,
        number,
        Columns::of(line).column_of(fault.field),
        fault.code,
        field,
    );
}

/// Field n of a line.
fn nth_field(line: &[u8], n: usize) -> &[u8]
    ensures { result.now ≡ slice_index_or (fields_of line.now) n [] }
{
    let mut fields = Fields::of(line);
    let mut left = n;
    while let Some(field) = fields.next_field() {
        if left == 0 {
            return field;
        }
        left -= 1;
    }
    &[]
}

/// Prints a finding.
pub(crate) fn print_finding<W: Write>(
    text: &mut TextWriter<W>,
    line: u64,
    column: u64,
    code: DeckCode,
    field: &[u8],
)
    ensures { Prints W.contents text.old text.new (finding_line
        (record { line = line; column = column; words = fault_words code field.now })) }
{
    print_place(text, line, column);
    print_fault_words(text, code, field);
    text.print(b"\n");
}

/// Prints `3:11 `.
pub(crate) fn print_place<W: Write>(text: &mut TextWriter<W>, line: u64, column: u64)
    ensures { Prints W.contents text.old text.new
        (short_decimal line ++ codes ":" ++ short_decimal column ++ codes " ") }
{
    print_short_decimal(text, line);
    text.print(b":");
    print_short_decimal(text, column);
    text.print(b" ");
}

/// The place of the first byte that is not ASCII.
fn first_foreign(line: &[u8]) -> Option<usize>
    ensures { result ≡ position is_foreign line.now }
{
    line.iter().position(|byte| *byte >= 0o200)
}
