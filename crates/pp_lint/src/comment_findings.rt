//! What is found in the comment of a line.

ghost use Rattle.std.specs.Prelude.{ℕ, ◌≡◌, ◌+◌, ◌<◌, ◌≤◌, ◌^◌, ◌++◌, length};
ghost use Rattle.std.specs.List.{flat_map};
ghost use Rattle.pp_deck.specs.DeckText.{fields_of};
ghost use Rattle.pp_instructions.specs.Claim.{claim, claims};
ghost use Rattle.pp_instructions.specs.Column.{column_of};
ghost use Rattle.pp_lint.specs.CommentFindings.{against, claim_findings, claim_text, claims_findings, comment_findings, is_so_there};
ghost use Rattle.pp_lint.specs.LineFault.{said_after};
ghost use Rattle.pp_lint.specs.LintText.{finding_line, is_something_found};
ghost use Rattle.pp_lint.specs.WordsOfLine.{HasNoFault};
ghost use Rattle.pp_lint.specs.declared.line_fault.Before.{Before};
ghost use Rattle.pp_text.specs.TextWriter.{Prints};

use crate::line_fault::begins_with_digit;
use crate::line_findings::print_place;
use pp_deck::Fields;
use pp_instructions::{Claim, Claims, Columns, Instruction, Instructions, comment_place, word_of};
use pp_text::{TextWriter, print_bytes};
use std::io::Write;

/// Prints what is found in the comment of a line that has no fault, and returns whether something
/// is.
pub(crate) fn print_comment_findings<W: Write>(
    text: &mut TextWriter<W>,
    number: u64,
    line: &[u8],
) -> bool
    ensures prints { (before : Before) (k : ℕ) → HasNoFault before line.now → number ≡ k + 1
        → Prints W.contents text.old text.new (flat_map finding_line
        (comment_findings k line.now (said_after before (fields_of line.now)))) }
    ensures found { (before : Before) (k : ℕ) → HasNoFault before line.now
        → result ≡ is_something_found
        (comment_findings k line.now (said_after before (fields_of line.now))) }
{
    let mut fields = Fields::of(line);
    let Some(first) = fields.next_field() else {
        return false;
    };
    if !begins_with_digit(first) {
        return false;
    }
    let Some(star) = comment_place(line) else {
        return false;
    };
    let mut instructions = Instructions::of(word_of(first), fields);
    print_claims_findings(text, number, star, &line[star + 1..], &mut instructions)
}

/// Prints what is found in a comment, behind its `*`, by the instructions that it is about, and
/// returns whether something is.
fn print_claims_findings<W: Write>(
    text: &mut TextWriter<W>,
    number: u64,
    star: usize,
    comment: &[u8],
    instructions: &mut Instructions,
) -> bool
    requires { star + length comment.now < 2 ^ 63 }
    ensures prints { (k : ℕ) → number ≡ k + 1 → Prints W.contents text.old text.new
        (flat_map finding_line (claims_findings k (λ i. star + 1 + column_of comment.now i)
        (claims 0 (fields_of comment.now)) instructions.old)) }
    ensures found { (k : ℕ) → result ≡ is_something_found
        (claims_findings k (λ i. star + 1 + column_of comment.now i)
        (claims 0 (fields_of comment.now)) instructions.old) }
{
    let mut claims = Claims::of(comment);
    let mut columns = Columns::of(comment);
    let mut is_found = false;
    while let Some(said) = claims.next_claim() {
        let instruction = instructions.next_instruction();
        let found = print_claim_finding(text, number, star, &mut columns, &said, &instruction);
        is_found = is_found | found;
    }
    is_found
}

/// Prints what is found in what is said of an instruction, and returns whether something is.
fn print_claim_finding<W: Write>(
    text: &mut TextWriter<W>,
    number: u64,
    star: usize,
    columns: &mut Columns,
    said: &Claim,
    instruction: &Option<Instruction>,
) -> bool
    requires { star + length columns.old < 2 ^ 63 }
    ensures same { columns.new ≡ columns.old }
    ensures prints { (k : ℕ) → number ≡ k + 1 → Prints W.contents text.old text.new
        (flat_map finding_line (claim_findings k (λ i. star + 1 + column_of columns.old i)
        (claim said.now.field said.now.mnemonic.now said.now.operand.now) instruction.now)) }
    ensures found { (k : ℕ) → result ≡ is_something_found
        (claim_findings k (λ i. star + 1 + column_of columns.old i)
        (claim said.now.field said.now.mnemonic.now said.now.operand.now) instruction.now) }
{
    if is_so_there(said, instruction) {
        return false;
    }
    let column = star as u64 + 1 + columns.column_of(said.field);
    print_place(text, number, column);
    print_against(text, said, instruction);
    text.print(b"\n");
    true
}

/// Whether what is said of an instruction is so.
fn is_so_there(said: &Claim, instruction: &Option<Instruction>) -> bool
    ensures { result ≡ is_so_there
        (claim said.now.field said.now.mnemonic.now said.now.operand.now) instruction.now }
{
    match instruction {
        Some(instruction) => {
            instruction.mnemonic() == said.mnemonic
                && (said.operand.is_empty() || instruction.may_have(said.operand))
        }
        None => false,
    }
}

/// Prints what is said of an instruction, and which it is.
fn print_against<W: Write>(
    text: &mut TextWriter<W>,
    said: &Claim,
    instruction: &Option<Instruction>,
)
    ensures { Prints W.contents text.old text.new (against
        (claim said.now.field said.now.mnemonic.now said.now.operand.now) instruction.now) }
{
    print_claim(text, said);
    match instruction {
        Some(instruction) => {
            text.print(b", but ");
            instruction.print(text);
        }
        None => text.print(b", but no word is left"),
    }
}

/// Prints `UJN 0205`.
fn print_claim<W: Write>(text: &mut TextWriter<W>, said: &Claim)
    ensures { Prints W.contents text.old text.new (claim_text
        (claim said.now.field said.now.mnemonic.now said.now.operand.now)) }
{
    print_bytes(text, said.mnemonic);
    if !said.operand.is_empty() {
        text.print(b" ");
        print_bytes(text, said.operand);
    }
}
