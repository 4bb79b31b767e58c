//! What is found in a deck.

ghost use Rattle.std.specs.Prelude.{◌≡◌, ◌≤◌, ◌^◌, if◌then◌else◌, Err, IfErr, IfOk, codes, length};
ghost use Rattle.std.specs.Io.KnownBytes.{Appends};
ghost use Rattle.std.specs.List.{flat_map};
ghost use Rattle.std.specs.Result.{result_ok};
ghost use Rattle.pp_deck.specs.DeckLine.{central_line, section_line};
ghost use Rattle.pp_deck.specs.DeckMeaning.{deck_meaning, size_of, stated_size};
ghost use Rattle.pp_deck.specs.DeckText.{fields_of, lines_of};
ghost use Rattle.pp_lint.specs.ChannelUse.{alone_uses_in};
ghost use Rattle.pp_lint.specs.Findings.{findings, findings_in};
ghost use Rattle.pp_lint.specs.FirstLines.{IsRow, Shows};
ghost use Rattle.pp_lint.specs.Given.{given, named_by, notes};
ghost use Rattle.pp_lint.specs.LineFault.{after_fields, before_line, lone_number, said_after};
ghost use Rattle.pp_lint.specs.LintText.{finding_line, is_something_found, lint_text};
ghost use Rattle.pp_lint.specs.RowOfLine.{Gives, text_in};
ghost use Rattle.pp_text.specs.TextWriter.{Prints};
ghost use Rattle.pp_text.specs.Written.{IsReportWritten};

use crate::channel_use::{ChannelUse, alone_uses};
use crate::first_lines::FirstLines;
use crate::line_fault::{Before, fault_of, is};
use crate::line_findings::{print_finding, print_line_findings, print_place};
use crate::row::{Kind, Row, one, processor_in, row_of};
use crate::straight_line::behind_line;
use crate::text_lines::TextLines;
use crate::whole_deck::WholeDeck;
use pp_channel::Memory;
use pp_deck::{DEFAULT_SIZE, DeckCode, Fields, LONGEST_TEXT, read_deck};
use pp_numbers::{PpNo, Profile};
use pp_text::{ReportFault, TextWriter};
use pp_word::{MOST_CENTRAL_WORDS, numeral};
use std::alloc::Allocator;
use std::io::Write;

/// Writes what is found in a deck for a machine of this profile: a line for each finding, with line
/// and column (decimal, from 1), or `nothing found`. Returns whether something is found. Memory is
/// asked for before the first byte is written.
pub fn write_lint<A: Allocator + Copy, W: Write>(
    alloc: A,
    writer: &mut W,
    profile: Profile,
    deck: &[u8],
) -> Result<bool, ReportFault>
    ensures written { IfOk result (λ is_found. Appends (W.contents writer.old)
        (W.contents writer.new) (lint_text profile deck.now)) }
    ensures found { IfOk result (λ is_found.
        is_found ≡ is_something_found (findings profile deck.now)) }
    ensures fault { IfErr result (λ fault. IsReportWritten (lint_text profile deck.now)
        (Err fault) (W.contents writer.old) (W.contents writer.new)) }
{
    let whole = whole_deck(alloc, profile, text_in(deck))?;
    let mut text = TextWriter::new(writer);
    let is_found = print_findings(&mut text, &whole, profile, deck);
    if !is_found {
        text.print(b"nothing found\n");
    }
    text.finish()?;
    Ok(is_found)
}

/// The text of a deck, behind a byte order mark; nothing if it is too long.
fn text_in(deck: &[u8]) -> &[u8]
    ensures value { length deck.now ≤ LONGEST_TEXT → result.now ≡ text_in deck.now }
    ensures short { length result.now ≤ LONGEST_TEXT }
{
    if deck.len() > LONGEST_TEXT {
        return &[];
    }
    deck.strip_prefix(b"\xEF\xBB\xBF").unwrap_or(deck)
}

/// What is known of all lines of a text together.
fn whole_deck<A: Allocator + Copy>(
    alloc: A,
    profile: Profile,
    deck: &[u8],
) -> Result<WholeDeck<A>, Memory>
    requires { length deck.now ≤ LONGEST_TEXT }
    ensures firsts { IfOk result (λ whole. Shows whole.firsts (notes profile (lines_of deck.now))) }
    ensures alone { IfOk result (λ whole.
        whole.alone.items ≡ alone_uses_in (deck_meaning profile deck.now)) }
{
    let alone = alone_in(alloc, profile, deck)?;
    let firsts = first_lines(alloc, profile, deck)?;
    Ok(WholeDeck { firsts, alone })
}

/// The channels that one processor alone uses; none if the deck has a fault.
fn alone_in<A: Allocator + Copy>(
    alloc: A,
    profile: Profile,
    deck: &[u8],
) -> Result<Vec<ChannelUse, A>, Memory>
    ensures { IfOk result (λ uses.
        uses.items ≡ alone_uses_in (deck_meaning profile deck.now)) }
{
    match read_deck(alloc, profile, deck) {
        Ok(deck) => alone_uses(alloc, &deck),
        Err(fault) => match fault.code {
            DeckCode::Memory => Err(Memory),
            _ => Ok(Vec::new(alloc)),
        },
    }
}

/// The first line of a text that gives each thing.
fn first_lines<A: Allocator>(
    alloc: A,
    profile: Profile,
    deck: &[u8],
) -> Result<FirstLines<A>, Memory>
    requires { length deck.now ≤ LONGEST_TEXT }
    ensures { IfOk result (λ firsts. Shows firsts (notes profile (lines_of deck.now))) }
{
    let mut firsts = FirstLines::none(alloc)?;
    let mut before = before_first(profile, deck);
    let mut number = 0;
    let mut lines = TextLines::of(deck);
    while let Some(line) = lines.next_line() {
        number += 1;
        let row = row_after(&before, line);
        firsts.note(&row, number);
        firsts.note_within(profile, &row.kind, line, number);
        before = after_line(&before, line);
    }
    Ok(firsts)
}

/// Prints a line for each finding of a deck, and returns whether there is one.
fn print_findings<A: Allocator, W: Write>(
    text: &mut TextWriter<W>,
    whole: &WholeDeck<A>,
    profile: Profile,
    deck: &[u8],
) -> bool
    requires firsts { length deck.now ≤ LONGEST_TEXT
        → Shows whole.now.firsts (notes profile (lines_of (text_in deck.now))) }
    requires alone { length deck.now ≤ LONGEST_TEXT
        → whole.now.alone.items ≡ alone_uses_in (deck_meaning profile (text_in deck.now)) }
    ensures prints { Prints W.contents text.old text.new
        (flat_map finding_line (findings profile deck.now)) }
    ensures found { result ≡ is_something_found (findings profile deck.now) }
{
    if deck.len() > LONGEST_TEXT {
        print_finding(text, 1, 1, DeckCode::TooLong, &[]);
        return true;
    }
    match deck.strip_prefix(b"\xEF\xBB\xBF") {
        Some(rest) => {
            print_mark(text);
            print_lines(text, whole, profile, rest);
            true
        }
        None => print_lines(text, whole, profile, deck),
    }
}

/// Prints that a deck begins with a byte order mark.
fn print_mark<W: Write>(text: &mut TextWriter<W>)
    ensures { Prints W.contents text.old text.new
        (finding_line (record { line = 1; column = 1; words = codes "byte order mark" })) }
{
    print_place(text, 1, 1);
    text.print(b"byte order mark");
    text.print(b"\n");
}

/// Prints what is found in the lines of a text, and returns whether something is.
fn print_lines<A: Allocator, W: Write>(
    text: &mut TextWriter<W>,
    whole: &WholeDeck<A>,
    profile: Profile,
    deck: &[u8],
) -> bool
    requires short { length deck.now ≤ LONGEST_TEXT }
    requires shows { Shows whole.now.firsts (notes profile (lines_of deck.now)) }
    requires alone { whole.now.alone.items ≡ alone_uses_in (deck_meaning profile deck.now) }
    ensures prints { Prints W.contents text.old text.new
        (flat_map finding_line (findings_in profile deck.now)) }
    ensures found { result ≡ is_something_found (findings_in profile deck.now) }
{
    let mut before = before_first(profile, deck);
    let mut reached = None;
    let mut number = 0;
    let mut is_found = false;
    let mut lines = TextLines::of(deck);
    while let Some(line) = lines.next_line() {
        number += 1;
        let found = print_line_findings(text, whole, &before, &reached, number, line);
        is_found = is_found | found;
        let row = row_after(&before, line);
        reached = behind_line(&whole.firsts, profile, &row.kind, line, &reached);
        before = after_line(&before, line);
    }
    is_found
}

/// What stands before the first line of a text.
fn before_first(profile: Profile, deck: &[u8]) -> Before
    ensures { result ≡ before_line profile (lines_of deck.now) 0 }
{
    Before {
        profile,
        size: size_of(deck),
        is_after_fields: false,
        is_in_section: false,
        section: None,
    }
}

/// What a line leaves for the next one.
fn after_line(before: &Before, line: &[u8]) -> Before
    ensures { result ≡ after_fields before.now (fields_of line.now) }
{
    let mut fields = Fields::of(line);
    match fields.next_field() {
        Some(first) => Before {
            is_after_fields: true,
            is_in_section: before.is_in_section || is(first, b"PP"),
            section: section_after(before, is(first, b"PP"), &mut fields),
            ..*before
        },
        None => *before,
    }
}

/// The processor that lines after a line are for: that which it names if it begins with `PP`, by
/// the fields after its keyword.
fn section_after(before: &Before, is_section: bool, fields: &mut Fields) -> Option<PpNo>
    ensures { result ≡ (if is_section
        then named_by (result_ok (section_line before.now.profile fields.old))
        else before.now.section) }
{
    if is_section {
        processor_in(before.profile, fields)
    } else {
        before.section
    }
}

/// What a line gives: a fault, if it has one.
fn row_after(before: &Before, line: &[u8]) -> Row
    requires { before.now.size ≤ 2 ^ 17 }
    ensures value { result ≡ given before.now.section (said_after before.now (fields_of line.now)) }
    ensures room { IsRow result }
    ensures gives { Gives before.now line.now result.kind }
{
    match fault_of(before, &mut Fields::of(line)) {
        Some(_) => one(Kind::Fault),
        None => row_of(before, &mut Fields::of(line)),
    }
}

/// The size of central memory that the lines of a deck set.
fn size_of(deck: &[u8]) -> u32
    ensures { result ≡ size_of (lines_of deck.now) }
{
    let mut lines = TextLines::of(deck);
    while let Some(line) = lines.next_line() {
        let mut fields = Fields::of(line);
        if let Some(first) = fields.next_field() {
            return if is(first, b"CENTRAL") {
                central_size(&mut fields)
            } else {
                DEFAULT_SIZE
            };
        }
    }
    DEFAULT_SIZE
}

/// That of a line `CENTRAL n`, or the default if the line has a fault.
fn central_size(fields: &mut Fields) -> u32
    ensures { result ≡ stated_size (central_line fields.old) }
{
    let Some(n) = lone_number(fields) else {
        return DEFAULT_SIZE;
    };
    if !(1..=u64::from(MOST_CENTRAL_WORDS)).contains(&n) {
        return DEFAULT_SIZE;
    }
    n as u32
}

/// The number in the only field.
fn lone_number(fields: &mut Fields) -> Option<u64>
    ensures { result ≡ lone_number fields.old }
{
    let field = fields.next_field()?;
    match fields.next_field() {
        Some(_) => None,
        None => numeral(8, 6, field),
    }
}
