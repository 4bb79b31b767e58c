//! Instructions that fault wherever they are run, where a straight line leads to them.

ghost use Rattle.std.specs.Prelude.{ℕ, ◌≡◌, ◌+◌, List};
ghost use Rattle.std.specs.List.{flat_map};
ghost use Rattle.pp_deck.specs.DeckText.{fields_of};
ghost use Rattle.pp_lint.specs.FirstLines.{Shows};
ghost use Rattle.pp_lint.specs.Given.{Note};
ghost use Rattle.pp_lint.specs.LineFault.{said_after};
ghost use Rattle.pp_lint.specs.LintText.{finding_line, is_something_found};
ghost use Rattle.pp_lint.specs.StraightLine.{behind, behind_all, behind_line, fault_finding, field_of, is_at, is_reached};
ghost use Rattle.pp_lint.specs.RowOfLine.{Gives};
ghost use Rattle.pp_lint.specs.declared.line_fault.Before.{Before};
ghost use Rattle.pp_text.specs.TextWriter.{Prints};

use crate::first_lines::FirstLines;
use crate::line_findings::print_place;
use crate::row::Kind;
use crate::word_line::WordLine;
use crate::words::instructions_of;
use pp_instructions::{Columns, Instruction, Instructions};
use pp_numbers::{PpNo, Profile};
use pp_text::{TextWriter, print_short_decimal};
use pp_word::Word12;
use std::alloc::Allocator;
use std::io::Write;

/// Where a straight line comes to behind a line that gives things of this kind.
pub(crate) fn behind_line<A: Allocator>(
    firsts: &FirstLines<A>,
    profile: Profile,
    kind: &Kind,
    line: &[u8],
    reached: &Option<Word12>,
) -> Option<Word12>
    ensures { (notes : List Note) (before : Before) → Shows firsts.now notes
        → Gives before line.now kind.now → result
        ≡ behind_line profile notes kind.now (said_after before (fields_of line.now)) reached.now }
{
    match kind {
        Kind::Name(_) => None,
        Kind::Word(n) => behind_all(firsts, profile, *n, reached, &mut instructions_of(line)),
        _ => *reached,
    }
}

/// Where it comes to behind instructions of a processor.
fn behind_all<A: Allocator>(
    firsts: &FirstLines<A>,
    profile: Profile,
    n: PpNo,
    reached: &Option<Word12>,
    instructions: &mut Instructions,
) -> Option<Word12>
    ensures { (notes : List Note) → Shows firsts.now notes
        → result ≡ behind_all profile notes n reached.now instructions.old }
{
    let mut reached = *reached;
    while let Some(i) = instructions.next_instruction() {
        reached = behind(firsts, profile, n, &reached, &i);
    }
    reached
}

/// Where it comes to behind an instruction of a processor.
pub(crate) fn behind<A: Allocator>(
    firsts: &FirstLines<A>,
    profile: Profile,
    n: PpNo,
    reached: &Option<Word12>,
    i: &Instruction,
) -> Option<Word12>
    ensures { (notes : List Note) → Shows firsts.now notes
        → result ≡ behind profile notes n reached.now i.now }
{
    if !is_reached(firsts, n, reached, i) || !i.goes_on(profile) {
        return None;
    }
    Some(i.place_behind())
}

/// Whether an instruction of a processor is reached.
pub(crate) fn is_reached<A: Allocator>(
    firsts: &FirstLines<A>,
    n: PpNo,
    reached: &Option<Word12>,
    i: &Instruction,
) -> bool
    ensures { (notes : List Note) → Shows firsts.now notes
        → result ≡ is_reached notes n reached.now i.now.place }
{
    is_at(i.place, reached) || firsts.line_of(&Kind::Target(n), usize::from(i.place.get())) != 0
}

/// Whether a straight line has come to a place.
fn is_at(place: Word12, reached: &Option<Word12>) -> bool
    ensures { result ≡ is_at place reached.now }
{
    match reached {
        Some(other) => other.get() == place.get(),
        None => false,
    }
}

/// Prints `2600 is EXN 00: FAULT 1 wherever it is run` of an instruction, if it is reached and
/// that is so, and returns whether it is.
pub(crate) fn print_fault_finding<W: Write>(
    text: &mut TextWriter<W>,
    words: &WordLine,
    columns: &mut Columns,
    is_reached: bool,
    i: &Instruction,
) -> bool
    ensures same { columns.new ≡ columns.old }
    ensures prints { (k : ℕ) → words.now.number ≡ k + 1
        → Prints W.contents text.old text.new (flat_map finding_line (fault_finding
        words.now.profile k columns.old is_reached words.now.first i.now)) }
    ensures found { (k : ℕ) → result ≡ is_something_found
        (fault_finding words.now.profile k columns.old is_reached words.now.first i.now) }
{
    if !is_reached {
        return false;
    }
    let Some(fault) = i.sure_fault(words.profile) else {
        return false;
    };
    let column = columns.column_of(field_of(words.first, i));
    print_place(text, words.number, column);
    i.print(text);
    text.print(b": FAULT ");
    print_short_decimal(text, u64::from(fault));
    text.print(b" wherever it is run\n");
    true
}

/// The field of an instruction, in a line whose first word is that of this place.
pub(crate) fn field_of(first: Word12, i: &Instruction) -> usize
    ensures { result ≡ field_of first i.now }
{
    (usize::from(i.place.get()) + 1).saturating_sub(usize::from(first.get()))
}
