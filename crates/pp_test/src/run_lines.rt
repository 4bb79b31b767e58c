//! What a run comes to, in lines.

ghost use Rattle.std.specs.Prelude.{◌≡◌, ◌++◌, IfOk, Ok, OnOk, true};
ghost use Rattle.std.specs.Io.KnownBytes.{Appends};
ghost use Rattle.pp_deck.specs.DeckMeaning.{LoadedDeck, deck_meaning};
ghost use Rattle.pp_sessions.specs.SessionsText.{sessions_text};
ghost use Rattle.pp_test.specs.RunLines.{EndsAfter, IsRunText, machine_lines};

use crate::machine_lines::write_machine_lines;
use pp_channel::Memory;
use pp_deck::Deck;
use pp_endings::load_after;
use pp_ends::{Ending, find_ending};
use pp_machine::{Machine, PROCESSORS, PpNo, Profile};
use pp_run::{Order, StepCounts, run_counting_steps};
use pp_sessions::write_sessions;
use std::alloc::Allocator;
use std::io::Write;

/// Runs a deck for this many turns (decimal), in which these processors come first, and answers
/// what the run comes to, in lines: the processors in use, with all their places, the channels,
/// central memory, the events without turns, how the run ends, and the sessions with their words.
/// The deck is that of these bytes, which are read once more to find how it ends.
pub(crate) fn run_to_lines<A: Allocator + Copy>(
    alloc: A,
    bytes: &[u8],
    loaded: &mut Deck<A>,
    first: &[PpNo],
    turns: u32,
) -> Result<Vec<u8, A>, Memory>
    requires { deck_meaning loaded.old.machine.profile bytes.now
        ≡ Ok (record { machine = loaded.old.machine; named = loaded.old.named }) }
    ensures { IfOk result (λ text. IsRunText first.now turns
        (record { machine = loaded.old.machine; named = loaded.old.named }) text.items) }
{
    let shown = loaded.in_use();
    let profile = loaded.machine.profile();
    let ending = ending_of_run(alloc, profile, bytes, first, turns)?;
    let order = Order::of_run(alloc, first, profile, turns)?;
    let Ok(counts) = run_counting_steps(&mut loaded.machine, &order) else {
        return Err(Memory);
    };
    let mut text = Vec::new(alloc);
    write_lines(&mut text, &shown, &loaded.machine, &counts, ending)?;
    Ok(text)
}

/// How the run of a deck ends.
fn ending_of_run<A: Allocator + Copy>(
    alloc: A,
    profile: Profile,
    bytes: &[u8],
    first: &[PpNo],
    turns: u32,
) -> Result<Ending, Memory>
    ensures { IfOk result (λ ending. (deck : LoadedDeck) → deck_meaning profile bytes.now ≡ Ok deck
        → EndsAfter first.now turns deck.machine ending) }
{
    let count = first.len().min(turns as usize);
    let deck = load_after(alloc, profile, bytes, &first[..count])?;
    find_ending(alloc, &deck.machine, turns - count as u32)
}

/// Writes the lines of a machine after its run, by the counts of its steps, and its sessions.
fn write_lines<A: Allocator, W: Write>(
    writer: &mut W,
    shown: &[bool; PROCESSORS],
    machine: &Machine<A>,
    counts: &[StepCounts; PROCESSORS],
    ending: Ending,
) -> Result<(), Memory>
    ensures { OnOk result (Appends (W.contents writer.old) (W.contents writer.new)
        (machine_lines shown.now machine.now counts.now ending
        ++ sessions_text true shown.now machine.now counts.now)) }
{
    if write_machine_lines(writer, shown, machine, counts, ending).is_err() {
        return Err(Memory);
    }
    write_sessions(writer, machine, shown, counts, true).map_err(|_| Memory)
}
