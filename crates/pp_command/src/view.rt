ghost use Rattle.std.specs.Prelude.{◌≢◌};
ghost use Rattle.pp_command.specs.CommandLine.{AsksForView, Finds};
ghost use Rattle.pp_command.specs.declared.command_kind.CommandKind.TheVariants.{Draw};

use crate::Values;
use crate::command_kind::CommandKind;
use crate::option_values::{
    bounds_of, channels_of, condition_of, is_flagged, processor_of, processors_of, turn_of,
};
use pp_condition::Condition;
use pp_numbers::{Bounds, CHANNELS, PROCESSORS, PpNo, Profile};
use pp_word::{MOST_CENTRAL_WORDS, PLACES};

/// Which steps of a run are chosen: those that all fields choose.
#[derive(Clone, Copy)]
pub struct ChosenSteps {
    /// The processors, in the barrel's order; those in use if none are given.
    pub processors: Option<[bool; PROCESSORS]>,
    /// The channels, in the order of their places: steps that ask one of these alone. All steps if
    /// none are given.
    pub channels: Option<[bool; CHANNELS]>,
    /// The first turn (decimal).
    pub from: u32,
    /// The turn after the last (decimal).
    pub to: u32,
    /// The condition that they meet; any, if none is given.
    pub condition: Option<Condition>,
}

/// What is shown of a run.
#[derive(Clone, Copy)]
pub enum View {
    /// Its events, and the processors named and the channels used at its end.
    Barrel,
    /// The dump at its end: a deck to go on from. If a processor is within a block or at fault, or
    /// a channel is active, there is none.
    Dump,
    /// How things stand at its end: the processors in use, what differs from the load, and the
    /// channels.
    State,
    /// How it ends, as far as its turns show: at rest, stuck, in a repetition or going on; and how
    /// the processors in use and the channels stand then.
    Ends,
    /// The words of a processor's memory at its end, at the places within the bounds (below 10000
    /// octal), eight a line, in octal and in display code.
    Memory { processor: PpNo, bounds: Bounds },
    /// The central words that are not 0 at its end, at the addresses within the bounds (below
    /// 400000 octal), in octal and in display code.
    Central(Bounds),
    /// Its sessions, channel by channel, and how many turns of each processor in use moved it, were
    /// held, and found it at rest; with `words` also the words put in each session, and the
    /// function codes of each idle stretch.
    Sessions { words: bool },
    /// Which of its steps may race with others, which processors are not settled at its end, and
    /// which central words are shared; or that it determines the result of every order of steps.
    Races,
    /// The steps chosen of it. Memory grows with the lines of held steps, and not with the others.
    Steps(ChosenSteps),
    /// An SVG of its turns from this one on: a lane for each channel that was used, and one for
    /// each processor in use. From a command line they are at most 2,000 (decimal).
    Draw { from: u32 },
}

/// The view of a run of this many turns that a command asks for which draws none, if its values are
/// in range.
pub(crate) fn view_of<V: Values>(
    kind: CommandKind,
    values: &V,
    profile: Profile,
    turns: u32,
) -> Option<View>
    requires { kind ≢ Draw }
    ensures { Finds (AsksForView kind (V.value values.now) profile turns) result }
{
    match kind {
        CommandKind::Barrel => Some(View::Barrel),
        CommandKind::Dump => Some(View::Dump),
        CommandKind::State => Some(View::State),
        CommandKind::Ends => Some(View::Ends),
        CommandKind::Races => Some(View::Races),
        CommandKind::Sessions => Some(View::Sessions {
            words: is_flagged(values, "words"),
        }),
        CommandKind::Memory => Some(View::Memory {
            processor: processor_of(values, profile)?,
            bounds: bounds_of(values, PLACES)?,
        }),
        CommandKind::Central => Some(View::Central(bounds_of(values, MOST_CENTRAL_WORDS)?)),
        CommandKind::Steps => Some(View::Steps(ChosenSteps {
            processors: processors_of(values, profile)?,
            channels: channels_of(values, "ch")?,
            from: turn_of(values, "from", 0)?,
            to: turn_of(values, "to", turns)?,
            condition: condition_of(values, "where", profile)?,
        })),
        _ => None,
    }
}
