ghost use Rattle.std.specs.Prelude.{◌≡◌};
ghost use Rattle.pp_ends.specs.EndsText.{ends_turn};

/// How a run in the barrel ends, as far as its turns tell. Turns are decimal.
#[derive(Clone, Copy)]
pub enum Ending {
    /// Every processor is stopped or at fault, and no step moves from this turn on.
    AtRest { from: u32 },
    /// Some processor is running, held or at an instruction that jumps to itself, and no step of
    /// any processor moves from this turn on.
    Stuck { from: u32 },
    /// From this turn on the machine stands after each `every` turns as it stood before them,
    /// histories, trace and turns apart.
    Repeats { from: u32, every: u32 },
    /// None of these.
    GoingOn,
}

impl Ending {
    /// The turn that it names, in a run of this many turns: from which on the run ends so, or
    /// after which it goes on. Turns are decimal.
    pub fn turn(self, turns: u32) -> u32
        ensures { result ≡ ends_turn self turns }
    {
        match self {
            Ending::AtRest { from } | Ending::Stuck { from } | Ending::Repeats { from, .. } => from,
            Ending::GoingOn => turns,
        }
    }
}
