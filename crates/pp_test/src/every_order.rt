//! The verdict over every order of steps.

ghost use Rattle.std.specs.Prelude.{◌≡◌, ◌≤◌, ◌^◌, ◌++◌, All, IfNone, IfOk, IfSome, Ok, length, map};
ghost use Rattle.std.specs.Io.KnownBytes.{Appends};
ghost use Rattle.pp_deck.specs.DeckMeaning.{LoadedDeck, deck_meaning};
ghost use Rattle.pp_endings.specs.EndingsText.{order_line};
ghost use Rattle.pp_lint.specs.LintText.{lint_text};
ghost use Rattle.pp_test.specs.EveryOrder.{FirstFails, AreLinesAfter, IsEveryOrderText, IsHeldAfter, ending_word, held_line, or_more};
ghost use Rattle.pp_test.specs.Expectations.{expectations};
ghost use Rattle.pp_test.specs.Reading.{has_expectation};
ghost use Rattle.pp_test.specs.Verdict.{is_held, last_words, verdict};
ghost use Rattle.pp_text.specs.PrintedText.{line_end};
ghost use Rattle.pp_text.specs.TextWriter.{Prints};

use crate::expectation::expectation_in;
use crate::judged_lines::write_findings;
use crate::run_lines::run_to_lines;
use crate::verdict::{print_last_words, print_verdict};
use pp_channel::Memory;
use pp_deck::{Deck, deck_law, read_deck};
use pp_endings::print_order_line;
use pp_lint::TextLines;
use pp_machine::{PpNo, Profile};
use pp_orders::{Ending, find_endings};
use pp_text::{TextWriter, print_short_decimal};
use std::alloc::Allocator;
use std::io::Write;

/// The verdict over every order of the steps of a deck.
#[derive(Drop)]
pub struct EveryOrder<A: Allocator> {
    /// Whether there are expectations, all held in each ending, and no other ending is possible.
    pub held: bool,
    pub text: Vec<u8, A>,
}

/// The verdict over every order of the steps of a deck, by the expectations in its comments, on the
/// lines of the run of just the steps of an order that leads into an ending: of the first ending in
/// which one fails this order, and what `write_verdict` writes; else how many held in how many
/// endings. At most `states` standings (decimal) are kept: where more would have to be, ` OR MORE`
/// is said of endings in which all held. The deck is that of these bytes, which are read again
/// twice for each ending.
pub fn text_of_every_order<A: Allocator + Copy>(
    alloc: A,
    profile: Profile,
    bytes: &[u8],
    load: &Deck<A>,
    states: u32,
) -> Result<EveryOrder<A>, Memory>
    requires meant { deck_meaning profile bytes.now
        ≡ Ok (record { machine = load.now.machine; named = load.now.named }) }
    requires short { length bytes.now ≤ 2 ^ 62 }
    ensures { IfOk result (λ it. IsEveryOrderText bytes.now
        (record { machine = load.now.machine; named = load.now.named }) it.held it.text.items) }
{
    let count = expectation_count(bytes);
    if count == 0 {
        let text = nothing_expected(alloc)?;
        return Ok(EveryOrder { held: false, text });
    }
    let found = find_endings(alloc, &load.machine, states)?;
    let endings = found.endings.as_slice();
    let findings = findings_text(alloc, profile, bytes)?;
    let findings = findings.as_slice();
    if let Some(text) = first_failure(alloc, profile, bytes, findings, endings)? {
        return Ok(EveryOrder { held: false, text });
    }
    let text = held_text(alloc, count, endings.len() as u64, !found.are_all)?;
    Ok(EveryOrder {
        held: found.are_all,
        text,
    })
}

/// How many expectations the comments of a deck have.
fn expectation_count(deck: &[u8]) -> u64
    requires { length deck.now ≤ 2 ^ 62 }
    ensures { result ≡ length (expectations deck.now) }
{
    let mut count = 0;
    let mut left = TextLines::of(deck);
    while let Some(line) = left.next_line() {
        if has_expectation(line) {
            count += 1;
        }
    }
    count
}

/// Whether a line has an expectation.
fn has_expectation(line: &[u8]) -> bool
    ensures { result ≡ has_expectation line.now }
{
    expectation_in(line).is_some()
}

/// What is said where nothing is expected.
fn nothing_expected<A: Allocator>(alloc: A) -> Result<Vec<u8, A>, Memory>
    ensures { IfOk result (λ text. text.items ≡ last_words 0 0 ++ line_end) }
{
    let mut bytes = Vec::new(alloc);
    let mut text = TextWriter::new(&mut bytes);
    print_last_words(&mut text, 0, 0);
    text.print(b"\n");
    match text.finish() {
        Ok(()) => Ok(bytes),
        Err(_) => Err(Memory),
    }
}

/// `HELD 5 IN 2 ENDINGS`, or `HELD 5 IN 2 ENDINGS OR MORE`, and a line feed.
fn held_text<A: Allocator>(
    alloc: A,
    count: u64,
    endings: u64,
    more: bool,
) -> Result<Vec<u8, A>, Memory>
    ensures { IfOk result (λ text. text.items ≡ held_line count endings more) }
{
    let mut bytes = Vec::new(alloc);
    let mut text = TextWriter::new(&mut bytes);
    print_held_line(&mut text, count, endings, more);
    match text.finish() {
        Ok(()) => Ok(bytes),
        Err(_) => Err(Memory),
    }
}

fn print_held_line<W: Write>(text: &mut TextWriter<W>, count: u64, endings: u64, more: bool)
    ensures { Prints W.contents text.old text.new (held_line count endings more) }
{
    text.print(b"HELD ");
    print_short_decimal(text, count);
    text.print(b" IN ");
    print_short_decimal(text, endings);
    print_ending_word(text, endings);
    print_or_more(text, more);
    text.print(b"\n");
}

/// Prints ` OR MORE`, if there may be more.
fn print_or_more<W: Write>(text: &mut TextWriter<W>, more: bool)
    ensures { Prints W.contents text.old text.new (or_more more) }
{
    if more {
        text.print(b" OR MORE");
    }
}

/// Prints ` ENDING` of one, else ` ENDINGS`.
fn print_ending_word<W: Write>(text: &mut TextWriter<W>, endings: u64)
    ensures { Prints W.contents text.old text.new (ending_word endings) }
{
    if endings == 1 {
        text.print(b" ENDING");
    } else {
        text.print(b" ENDINGS");
    }
}

/// What is found in a deck.
fn findings_text<A: Allocator + Copy>(
    alloc: A,
    profile: Profile,
    bytes: &[u8],
) -> Result<Vec<u8, A>, Memory>
    ensures { IfOk result (λ text. text.items ≡ lint_text profile bytes.now) }
{
    let mut text = Vec::new(alloc);
    write_findings(alloc, &mut text, profile, bytes)?;
    Ok(text)
}

/// What is said of the first of some endings in which an expectation fails, if there is one.
fn first_failure<A: Allocator + Copy>(
    alloc: A,
    profile: Profile,
    bytes: &[u8],
    findings: &[u8],
    endings: &[Ending<A>],
) -> Result<Option<Vec<u8, A>>, Memory>
    requires found { findings.now ≡ lint_text profile bytes.now }
    requires short { length bytes.now ≤ 2 ^ 62 }
    requires few { All (λ order. length order ≤ 999999)
        (map (λ ending. ending.order.items) endings.now) }
    ensures none { IfOk result (λ found. IfNone found ((deck : LoadedDeck)
        → deck_meaning profile bytes.now ≡ Ok deck → All (IsHeldAfter bytes.now deck)
        (map (λ ending. ending.order.items) endings.now))) }
    ensures some { IfOk result (λ found. IfSome found (λ text. (deck : LoadedDeck)
        → deck_meaning profile bytes.now ≡ Ok deck → FirstFails bytes.now deck
        (map (λ ending. ending.order.items) endings.now) text.items)) }
{
    for ending in endings {
        let order = ending.order.as_slice();
        let lines = lines_of_ending(alloc, profile, bytes, findings, order)?;
        let mut text = Vec::new(alloc);
        if !write_ending(&mut text, bytes, order, lines.as_slice())? {
            return Ok(Some(text));
        }
    }
    Ok(None)
}

/// The lines of the run of just these steps of a deck, and of what is found in it.
fn lines_of_ending<A: Allocator + Copy>(
    alloc: A,
    profile: Profile,
    bytes: &[u8],
    findings: &[u8],
    order: &[PpNo],
) -> Result<Vec<u8, A>, Memory>
    requires found { findings.now ≡ lint_text profile bytes.now }
    requires few { length order.now ≤ 999999 }
    ensures { IfOk result (λ lines. (deck : LoadedDeck) → deck_meaning profile bytes.now ≡ Ok deck
        → AreLinesAfter bytes.now deck order.now lines.items) }
{
    deck_law();
    let Ok(mut loaded) = read_deck(alloc, profile, bytes) else {
        return Err(Memory);
    };
    let turns = order.len() as u32;
    let mut lines = run_to_lines(alloc, bytes, &mut loaded, order, turns)?;
    lines.extend_from_slice(findings)?;
    Ok(lines)
}

/// Writes an order, and the verdict on the lines of its run. Returns whether all held.
fn write_ending<W: Write>(
    writer: &mut W,
    deck: &[u8],
    order: &[PpNo],
    lines: &[u8],
) -> Result<bool, Memory>
    requires { length deck.now ≤ 2 ^ 62 }
    ensures written { IfOk result (λ held. Appends (W.contents writer.old)
        (W.contents writer.new) (order_line order.now ++ verdict deck.now lines.now)) }
    ensures held { IfOk result (λ held. held ≡ is_held deck.now lines.now) }
{
    let mut text = TextWriter::new(writer);
    print_order_line(&mut text, order);
    let held = print_verdict(&mut text, deck, lines);
    match text.finish() {
        Ok(()) => Ok(held),
        Err(_) => Err(Memory),
    }
}
