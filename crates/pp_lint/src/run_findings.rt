//! What is found in a line's instructions.

ghost use Rattle.std.specs.Prelude.{ℕ, ◌≡◌, ◌+◌, ◌≤◌, ◌^◌, List, []};
ghost use Rattle.std.specs.List.{flat_map};
ghost use Rattle.pp_deck.specs.DeckText.{fields_of};
ghost use Rattle.pp_lint.specs.FirstLines.{Shows};
ghost use Rattle.pp_lint.specs.Given.{Note, given};
ghost use Rattle.pp_lint.specs.LineFault.{said_after};
ghost use Rattle.pp_lint.specs.LintText.{finding_line, is_something_found};
ghost use Rattle.pp_lint.specs.RunFindings.{instruction_findings, run_findings};
ghost use Rattle.pp_lint.specs.WordsOfLine.{HasNoFault};
ghost use Rattle.pp_text.specs.TextWriter.{Prints};

use crate::channel_use::{print_alone_finding, see};
use crate::first_lines::D_VALUES;
use crate::line_fault::Before;
use crate::row::{Kind, row_of};
use crate::straight_line::{behind, is_reached, print_fault_finding};
use crate::whole_deck::WholeDeck;
use crate::word_line::WordLine;
use crate::words::{first_place, instructions_of};
use pp_deck::Fields;
use pp_instructions::{Columns, Instructions};
use pp_text::TextWriter;
use pp_word::Word12;
use std::alloc::Allocator;
use std::io::Write;

/// Prints what is found in the instructions of a line without a fault, and returns whether
/// something is.
pub(crate) fn print_run_findings<A: Allocator, W: Write>(
    text: &mut TextWriter<W>,
    deck: &WholeDeck<A>,
    before: &Before,
    reached: &Option<Word12>,
    number: u64,
    line: &[u8],
) -> bool
    requires size { before.now.size ≤ 2 ^ 17 }
    requires clean { HasNoFault before.now line.now }
    ensures prints { (k : ℕ) (notes : List Note) → Shows deck.now.firsts notes → number ≡ k + 1
        → Prints W.contents text.old text.new (flat_map finding_line
        (run_findings before.now.profile k line.now notes deck.now.alone.items reached.now
        (given before.now.section (said_after before.now (fields_of line.now))).kind
        (said_after before.now (fields_of line.now)))) }
    ensures found { (k : ℕ) (notes : List Note) → Shows deck.now.firsts notes → number ≡ k + 1
        → result ≡ is_something_found (run_findings before.now.profile k line.now notes
        deck.now.alone.items reached.now
        (given before.now.section (said_after before.now (fields_of line.now))).kind
        (said_after before.now (fields_of line.now))) }
{
    let row = row_of(before, &mut Fields::of(line));
    let Kind::Word(n) = &row.kind else {
        return false;
    };
    let words = WordLine {
        profile: before.profile,
        n: *n,
        number,
        line,
        first: first_place(line),
    };
    print_instruction_findings(text, deck, &words, reached, &mut instructions_of(line))
}

/// Prints what is found in instructions of a line, one after another, and returns whether something
/// is.
fn print_instruction_findings<A: Allocator, W: Write>(
    text: &mut TextWriter<W>,
    deck: &WholeDeck<A>,
    words: &WordLine,
    reached: &Option<Word12>,
    instructions: &mut Instructions,
) -> bool
    ensures prints { (k : ℕ) (notes : List Note) → Shows deck.now.firsts notes
        → words.now.number ≡ k + 1 → Prints W.contents text.old text.new
        (flat_map finding_line (instruction_findings words.now.profile k words.now.line.now notes
        deck.now.alone.items words.now.n words.now.first reached.now [] instructions.old)) }
    ensures found { (k : ℕ) (notes : List Note) → Shows deck.now.firsts notes
        → words.now.number ≡ k + 1 → result ≡ is_something_found
        (instruction_findings words.now.profile k words.now.line.now notes
        deck.now.alone.items words.now.n words.now.first reached.now [] instructions.old) }
{
    let mut columns = Columns::of(words.line);
    let mut seen = [false; D_VALUES];
    let mut reached = *reached;
    let mut is_found = false;
    while let Some(i) = instructions.next_instruction() {
        let is_here = is_reached(&deck.firsts, words.n, &reached, &i);
        let is_faulty = print_fault_finding(text, words, &mut columns, is_here, &i);
        let is_alone = print_alone_finding(text, deck, words, &mut columns, &seen, &i);
        is_found = is_found | is_faulty | is_alone;
        reached = behind(&deck.firsts, words.profile, words.n, &reached, &i);
        see(&mut seen, words.profile, &i);
    }
    is_found
}
