ghost use Rattle.std.specs.Prelude.{[]};
ghost use Rattle.pp_sim.specs.TextAnswer.{AnswersDeck, AnswersDeckUnless};
ghost use Rattle.pp_sim.specs.TextOf.{IsBarrelText, IsTextUntil, obstacle_until};

use crate::deck_bytes::DeckBytes;
use crate::streams::read_front;
use crate::texts::write_text_until;
use crate::{Schedule, TextFault};
use pp_command::{TextOf, View};
use pp_machine::Profile;
use std::alloc::Allocator;
use std::io::{Read, Write};

/// Reads a deck for a machine of this profile, and writes this text of it, of a run by this
/// schedule. If a dump is asked for and there is none, nothing is written, and the answer is
/// `NotBetweenPrograms`.
pub fn deck_text<A: Allocator + Copy, R: Read, W: Write>(
    alloc: A,
    profile: Profile,
    schedule: &Schedule,
    reader: &mut R,
    writer: &mut W,
    text: &TextOf,
) -> Result<(), TextFault>
    ensures { AnswersDeckUnless profile
        (obstacle_until schedule.now.first.now schedule.now.until text.now)
        (IsTextUntil schedule.now.first.now schedule.now.until text.now) result
        (R.remaining reader.old) (R.remaining reader.new)
        (W.contents writer.old) (W.contents writer.new) }
{
    let front = read_front(alloc, reader)?;
    let bytes = front.as_slice();
    let deck = DeckBytes { profile, bytes };
    let mut loaded = deck.load(alloc)?;
    write_text_until(alloc, &deck, &mut loaded, writer, schedule, text)
}

/// Reads a deck for a machine of this profile, runs it in the barrel for `turns` turns (decimal),
/// and writes the text of the run. That the headline holds of it is law `headline_law`.
pub fn barrel_text<A: Allocator + Copy, R: Read, W: Write>(
    alloc: A,
    profile: Profile,
    reader: &mut R,
    writer: &mut W,
    turns: u32,
) -> Result<(), TextFault>
    ensures { AnswersDeck profile (IsBarrelText [] turns) result
        (R.remaining reader.old) (R.remaining reader.new)
        (W.contents writer.old) (W.contents writer.new) }
{
    let schedule = Schedule {
        first: &[],
        until: None,
    };
    let view = View::Barrel;
    let text = TextOf::Run { turns, view };
    deck_text(alloc, profile, &schedule, reader, writer, &text)
}
