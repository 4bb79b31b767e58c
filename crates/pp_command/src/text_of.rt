ghost use Rattle.pp_command.specs.CommandLine.{AsksForText, Finds};

use crate::command_kind::CommandKind;
use crate::option_values::{fits_a_picture, states_of, turns_of, window_of};
use crate::view::view_of;
use crate::{Values, View};
use pp_numbers::Profile;

/// A text of a deck.
#[derive(Clone, Copy)]
pub enum TextOf {
    /// The listing. Nothing is run.
    List,
    /// All endings over every order of steps, each with an order that leads into it and how things
    /// stand then, as far as this many standings show (decimal): a command line gives 1 to
    /// 9,999,999.
    Orders(u32),
    /// This view of a run in the barrel of this many turns (decimal): a command line gives 0 to
    /// 999,999, and every `u32` is taken.
    Run { turns: u32, view: View },
}

impl TextOf {
    ghost use Rattle.std.specs.Prelude.{◌≡◌};
    ghost use Rattle.pp_command.specs.TextOf.{turns_of, with_turns};

    /// The turns of its run (decimal): none where nothing is run, or every order of steps.
    pub fn turns(&self) -> u32
        ensures { result ≡ turns_of self.now }
    {
        match self {
            TextOf::List | TextOf::Orders(_) => 0,
            TextOf::Run { turns, .. } => *turns,
        }
    }

    /// The same of a run of this many turns (decimal).
    pub fn with_turns(&self, turns: u32) -> TextOf
        ensures { result ≡ with_turns turns self.now }
    {
        match self {
            TextOf::Run { view, .. } => TextOf::Run { turns, view: *view },
            _ => *self,
        }
    }
}

/// The text of a deck that a command asks for, if its numbers are in range.
pub(crate) fn text_of<V: Values>(kind: CommandKind, values: &V, profile: Profile) -> Option<TextOf>
    ensures { Finds (AsksForText kind (V.value values.now) profile) result }
{
    match kind {
        CommandKind::List => Some(TextOf::List),
        CommandKind::Orders => Some(TextOf::Orders(states_of(values)?)),
        CommandKind::Draw => {
            let window = window_of(values)?;
            let turns = window.to;
            let view = View::Draw { from: window.from };
            fits_a_picture(window).then_some(TextOf::Run { turns, view })
        }
        _ => {
            let turns = turns_of(values)?;
            let view = view_of(kind, values, profile, turns)?;
            Some(TextOf::Run { turns, view })
        }
    }
}
