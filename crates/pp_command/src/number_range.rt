ghost use Rattle.std.specs.Prelude.{◌≤◌, ◌↔◌, IsTrue};

/// The numbers that an option takes, and the help that states them (decimal).
#[derive(Clone, Copy)]
pub struct NumberRange {
    pub least: u32,
    pub most: u32,
    pub help: &'static str,
}

/// A range, and the help with the same numbers in it.
macro_rules! range {
    ($what:literal, $least:literal to $most:literal) => {
        NumberRange {
            least: $least,
            most: $most,
            help: concat!($what, ", ", $least, " to ", $most, " (decimal)"),
        }
    };
    // Up to as many turns as a run has.
    ($what:literal, from $least:literal) => {
        range!($what, $least to 999_999)
    };
}

pub(crate) const TURNS: NumberRange = range!("How many turns to run", from 0);

pub(crate) const FROM: NumberRange = range!("The first turn to print (0 if not given)", from 0);

pub(crate) const TO: NumberRange =
    range!("The turn to end before (that of --turns if not given)", from 0);

pub(crate) const DRAWN_FROM: NumberRange =
    range!("The first turn to draw (0 if not given)", from 0);

pub(crate) const TIMES: NumberRange =
    range!("How many steps have to meet the condition (1 if not given)", from 1);

pub(crate) const STATES: NumberRange =
    range!("How many standings of the machine to keep", 1 to 9_999_999);

/// The range of `Limits`, as is the next.
pub(crate) const STEPS: NumberRange = range!("How many steps each processor may do", 1 to 100_000);

pub(crate) const PATIENCE: NumberRange =
    range!("How often in a row a channel may hold a step", 1 to 4_294_967_295);

impl NumberRange {
    pub(crate) fn contains(&self, number: u32) -> bool
        ensures { IsTrue result ↔ ((self.now.least ≤ number) × (number ≤ self.now.most)) }
    {
        self.least <= number && number <= self.most
    }
}
