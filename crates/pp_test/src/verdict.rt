//! The verdict on the lines of a text.

ghost use Rattle.std.specs.Prelude.{◌≡◌, ◌≤◌, ◌^◌, ◌++◌, IfErr, IfOk, codes, length};
ghost use Rattle.std.specs.Io.KnownBytes.{Appends};
ghost use Rattle.std.specs.List.{flat_map};
ghost use Rattle.pp_word.specs.Numeral.{short_decimal};
ghost use Rattle.pp_text.specs.PrintedText.{line_end};
ghost use Rattle.pp_text.specs.TextWriter.{Prints};
ghost use Rattle.pp_text.specs.Written.{AppendsFront};
ghost use Rattle.pp_test.specs.Expectations.{expectation_in, expectations};
ghost use Rattle.pp_test.specs.Verdict.{failure_text, failures, is_held, last_words, lines_in, near_heading, verdict};

use crate::expectation::{Expected, expectation_in};
use crate::nearest::{in_common, nearest, word_count};
use pp_lint::TextLines;
use pp_text::{TextWriter, WriteFault, print_bytes, print_short_decimal};
use std::io::Write;

/// How many expectations there are, and how many of them fail.
#[derive(Clone, Copy)]
struct Tally {
    all: u64,
    failed: u64,
}

/// Writes the verdict on the lines of a text, by the expectations in the comments of a deck: for
/// each that fails its line (decimal, from 1), its text and the nearest line; and how many held, or
/// failed. Returns whether there are some, and all held. It takes no memory.
pub fn write_verdict<W: Write>(
    writer: &mut W,
    deck: &[u8],
    lines: &[u8],
) -> Result<bool, WriteFault>
    requires { length deck.now ≤ 2 ^ 62 }
    ensures written { IfOk result (λ held. Appends (W.contents writer.old)
        (W.contents writer.new) (verdict deck.now lines.now)) }
    ensures held { IfOk result (λ held. held ≡ is_held deck.now lines.now) }
    ensures fault { IfErr result (λ fault. AppendsFront (W.contents writer.old)
        (W.contents writer.new) (verdict deck.now lines.now)) }
{
    let mut text = TextWriter::new(writer);
    let held = print_verdict(&mut text, deck, lines);
    match text.finish() {
        Ok(()) => Ok(held),
        Err(fault) => Err(fault),
    }
}

/// Prints the verdict, and returns whether there are expectations, and all held.
#[tactic(auto, unfolding(crate::specs::Verdict::verdict, crate::specs::Verdict::is_held))]
pub(crate) fn print_verdict<W: Write>(text: &mut TextWriter<W>, deck: &[u8], lines: &[u8]) -> bool
    requires { length deck.now ≤ 2 ^ 62 }
    ensures prints { Prints W.contents text.old text.new (verdict deck.now lines.now) }
    ensures held { result ≡ is_held deck.now lines.now }
{
    let tally = print_failures(text, deck, lines);
    print_last_words(text, tally.all, tally.failed);
    text.print(b"\n");
    (tally.all != 0) & (tally.failed == 0)
}

/// Prints `HELD 5`, `FAILED 2 OF 5` or `no expectations`.
pub(crate) fn print_last_words<W: Write>(text: &mut TextWriter<W>, count: u64, failed: u64)
    ensures { Prints W.contents text.old text.new (last_words count failed) }
{
    if count == 0 {
        text.print(b"no expectations");
    } else if failed == 0 {
        text.print(b"HELD ");
        print_short_decimal(text, count);
    } else {
        text.print(b"FAILED ");
        print_short_decimal(text, failed);
        text.print(b" OF ");
        print_short_decimal(text, count);
    }
}

/// Prints the expectations that fail, and counts them.
fn print_failures<W: Write>(text: &mut TextWriter<W>, deck: &[u8], lines: &[u8]) -> Tally
    requires { length deck.now ≤ 2 ^ 62 }
    ensures prints { Prints W.contents text.old text.new
        (flat_map (failure_text (lines_in lines.now))
        (failures (lines_in lines.now) (expectations deck.now))) }
    ensures all { result.all ≡ length (expectations deck.now) }
    ensures failed { result.failed
        ≡ length (failures (lines_in lines.now) (expectations deck.now)) }
{
    let mut tally = Tally { all: 0, failed: 0 };
    let mut number = 0;
    let mut left = TextLines::of(deck);
    while let Some(line) = left.next_line() {
        number += 1;
        let more = judge_line(text, number, line, lines);
        tally.all += more.all;
        tally.failed += more.failed;
    }
    tally
}

/// Judges the expectation in a line of this number, if it is one, and prints it if it fails.
fn judge_line<W: Write>(text: &mut TextWriter<W>, number: u64, line: &[u8], lines: &[u8]) -> Tally
    requires { length line.now ≤ 2 ^ 62 }
    ensures prints { Prints W.contents text.old text.new
        (flat_map (failure_text (lines_in lines.now))
        (failures (lines_in lines.now) (expectation_in number line.now))) }
    ensures all { result.all ≡ length (expectation_in number line.now) }
    ensures failed { result.failed
        ≡ length (failures (lines_in lines.now) (expectation_in number line.now)) }
    ensures few { result.failed ≤ result.all × result.all ≤ 1 }
{
    let Some(expected) = expectation_in(line) else {
        return Tally { all: 0, failed: 0 };
    };
    let near = nearest(expected.words, lines);
    let begins = in_common(expected.words, near) == word_count(expected.words);
    if begins == expected.is_wanted {
        return Tally { all: 1, failed: 0 };
    }
    print_failure(text, number, &expected, near);
    Tally { all: 1, failed: 1 }
}

/// Prints an expectation that fails, with the line that is nearest to it.
fn print_failure<W: Write>(
    text: &mut TextWriter<W>,
    number: u64,
    expected: &Expected<'_>,
    near: &[u8],
)
    ensures { Prints W.contents text.old text.new (short_decimal number ++ codes ": "
        ++ expected.now.text.now ++ line_end ++ near_heading expected.now.is_wanted
        ++ near.now ++ line_end) }
{
    print_short_decimal(text, number);
    text.print(b": ");
    print_bytes(text, expected.text);
    text.print(b"\n");
    print_near_heading(text, expected.is_wanted);
    print_bytes(text, near);
    text.print(b"\n");
}

/// Prints what is said before the line that is nearest.
fn print_near_heading<W: Write>(text: &mut TextWriter<W>, is_wanted: bool)
    ensures { Prints W.contents text.old text.new (near_heading is_wanted) }
{
    if is_wanted {
        text.print(b"  nearest: ");
    } else {
        text.print(b"  there is: ");
    }
}
