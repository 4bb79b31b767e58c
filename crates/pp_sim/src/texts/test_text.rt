ghost use Rattle.std.specs.Prelude.{◌≡◌, ◌≤◌, ℕ, List, Option, Ok, length};
ghost use Rattle.pp_deck.specs.DeckMeaning.{deck_meaning};
ghost use Rattle.pp_sim.specs.TestAnswer.{AnswersTest, IsTest};
ghost use Rattle.pp_sim.specs.TextAnswer.{most_bytes};
ghost use Rattle.pp_command.specs.declared.work.Tested.{Tested};
ghost use Rattle.pp_condition.specs.declared.until.Until.{Until};

use crate::deck_bytes::DeckBytes;
use crate::streams::read_front;
use crate::texts::turns_of_run;
use crate::{Schedule, TextFault};
use pp_command::Tested;
use pp_deck::Deck;
use pp_machine::Profile;
use pp_test::{lines_to_judge, text_of_every_order, write_verdict};
use pp_text::write_whole;
use std::alloc::Allocator;
use std::io::{Read, Write};

/// Reads a deck for a machine of this profile, and writes the verdict by the expectations in it: on
/// a run by this schedule, or over every order of steps. `Findings` if there are no expectations,
/// if one failed, or if there may be more endings than were tested.
pub fn test_text<A: Allocator + Copy, R: Read, W: Write>(
    alloc: A,
    profile: Profile,
    schedule: &Schedule,
    reader: &mut R,
    writer: &mut W,
    tested: Tested,
) -> Result<(), TextFault>
    ensures { AnswersTest profile schedule.now.first.now schedule.now.until tested result
        (R.remaining reader.old) (R.remaining reader.new)
        (W.contents writer.old) (W.contents writer.new) }
{
    let front = read_front(alloc, reader)?;
    let bytes = front.as_slice();
    let deck = DeckBytes { profile, bytes };
    let mut loaded = deck.load(alloc)?;
    write_test(alloc, &deck, &mut loaded, writer, schedule, tested)
}

/// Writes the verdict on a deck.
fn write_test<A: Allocator + Copy, W: Write>(
    alloc: A,
    deck: &DeckBytes,
    loaded: &mut Deck<A>,
    writer: &mut W,
    schedule: &Schedule,
    tested: Tested,
) -> Result<(), TextFault>
    requires meant { deck_meaning deck.now.profile deck.now.bytes.now
        ≡ Ok (record { machine = loaded.old.machine; named = loaded.old.named }) }
    requires short { length deck.now.bytes.now ≤ most_bytes }
    ensures { IsTest deck.now.profile schedule.now.first.now schedule.now.until tested result
        deck.now.bytes.now (W.contents writer.old) (W.contents writer.new) }
{
    match tested {
        Tested::Run(turns) => write_test_of_run(alloc, deck, loaded, writer, schedule, turns),
        Tested::EveryOrder(states) => write_test_of_endings(alloc, deck, loaded, writer, states),
    }
}

/// Writes the verdict on every ending of a deck.
fn write_test_of_endings<A: Allocator + Copy, W: Write>(
    alloc: A,
    deck: &DeckBytes,
    loaded: &Deck<A>,
    writer: &mut W,
    states: u32,
) -> Result<(), TextFault>
    requires meant { deck_meaning deck.now.profile deck.now.bytes.now
        ≡ Ok (record { machine = loaded.now.machine; named = loaded.now.named }) }
    requires short { length deck.now.bytes.now ≤ most_bytes }
    ensures { (first : List ℕ) (until : Option Until) → IsTest deck.now.profile first until
        (Tested.EveryOrder states) result deck.now.bytes.now
        (W.contents writer.old) (W.contents writer.new) }
{
    let found = text_of_every_order(alloc, deck.profile, deck.bytes, loaded, states)?;
    write_whole(writer, found.text.as_slice())?;
    match found.held {
        true => Ok(()),
        false => Err(TextFault::Findings),
    }
}

/// Runs a deck, and writes the verdict on its run.
fn write_test_of_run<A: Allocator + Copy, W: Write>(
    alloc: A,
    deck: &DeckBytes,
    loaded: &mut Deck<A>,
    writer: &mut W,
    schedule: &Schedule,
    turns: u32,
) -> Result<(), TextFault>
    requires meant { deck_meaning deck.now.profile deck.now.bytes.now
        ≡ Ok (record { machine = loaded.old.machine; named = loaded.old.named }) }
    requires short { length deck.now.bytes.now ≤ most_bytes }
    ensures { IsTest deck.now.profile schedule.now.first.now schedule.now.until
        (Tested.Run turns) result deck.now.bytes.now
        (W.contents writer.old) (W.contents writer.new) }
{
    let turns = turns_of_run(alloc, loaded, schedule, turns)?;
    let first = schedule.first;
    let lines = lines_to_judge(alloc, deck.profile, deck.bytes, loaded, first, turns)?;
    match write_verdict(writer, deck.bytes, lines.as_slice())? {
        true => Ok(()),
        false => Err(TextFault::Findings),
    }
}
