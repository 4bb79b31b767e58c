//! The lines that a deck is judged by.

ghost use Rattle.std.specs.Prelude.{◌≡◌, IfOk, Ok, OnOk};
ghost use Rattle.std.specs.Io.KnownBytes.{Appends};
ghost use Rattle.pp_deck.specs.DeckMeaning.{deck_meaning};
ghost use Rattle.pp_lint.specs.LintText.{lint_text};
ghost use Rattle.pp_test.specs.JudgedLines.{IsJudgedText};

use crate::run_lines::run_to_lines;
use pp_channel::Memory;
use pp_deck::{Deck, deck_law};
use pp_lint::write_lint;
use pp_machine::{PpNo, Profile};
use std::alloc::Allocator;
use std::io::Write;

/// Runs a deck for this many turns (decimal), in which these processors come first, and answers
/// the lines that it is judged by: those of the run, and of what is found in the deck. The deck is
/// that of these bytes.
pub fn lines_to_judge<A: Allocator + Copy>(
    alloc: A,
    profile: Profile,
    bytes: &[u8],
    loaded: &mut Deck<A>,
    first: &[PpNo],
    turns: u32,
) -> Result<Vec<u8, A>, Memory>
    requires { deck_meaning profile bytes.now
        ≡ Ok (record { machine = loaded.old.machine; named = loaded.old.named }) }
    ensures { IfOk result (λ text. IsJudgedText bytes.now first.now turns
        (record { machine = loaded.old.machine; named = loaded.old.named }) text.items) }
{
    deck_law();
    let mut lines = run_to_lines(alloc, bytes, loaded, first, turns)?;
    write_findings(alloc, &mut lines, profile, bytes)?;
    Ok(lines)
}

/// Writes what is found in a deck.
pub(crate) fn write_findings<A: Allocator + Copy, W: Write>(
    alloc: A,
    writer: &mut W,
    profile: Profile,
    deck: &[u8],
) -> Result<(), Memory>
    ensures { OnOk result (Appends (W.contents writer.old) (W.contents writer.new)
        (lint_text profile deck.now)) }
{
    match write_lint(alloc, writer, profile, deck) {
        Ok(_) => Ok(()),
        Err(_) => Err(Memory),
    }
}
