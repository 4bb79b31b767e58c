ghost use Rattle.std.specs.Prelude.{IsTrue};
ghost use Rattle.pp_run.specs.BareMachine.{StandsFor};
ghost use Rattle.pp_machine.specs.MachineState.{MachineState};
ghost use Rattle.pp_ends.specs.Ending.{StandAlike};

use pp_machine::PpNo;
use pp_run::BareMachine;
use pp_word::{Word12, Word18};
use std::alloc::Allocator;

/// How many spots are kept in mind (decimal).
const KEPT: usize = 16;

/// A word of a processor's memory, or of central memory.
#[derive(Clone, Copy)]
pub(crate) enum Spot {
    Word(PpNo, Word12),
    Central(Word18),
}

impl Spot {
    /// The first word of central memory.
    pub(crate) const FIRST: Spot = Spot::Central(Word18::ZERO);

    /// Whether two machines differ there.
    fn differs<A: Allocator>(&self, one: &BareMachine<A>, other: &BareMachine<A>) -> bool
        ensures { IsTrue result → (m k : MachineState) → StandsFor one.now m
            → StandsFor other.now k → ¬ StandAlike m k }
    {
        match self {
            Spot::Word(n, place) => one.pp(*n).get(*place) != other.pp(*n).get(*place),
            Spot::Central(address) => {
                one.central().read(*address) != other.central().read(*address)
            }
        }
    }
}

/// The last spots at which two machines differed that stood alike elsewhere, so that whole memories
/// are seldom compared.
#[derive(Clone, Copy)]
pub(crate) struct RecentMismatches {
    spots: [Spot; KEPT],
    next: usize,
}

impl RecentMismatches {
    pub(crate) fn new() -> RecentMismatches {
        RecentMismatches {
            spots: [Spot::FIRST; KEPT],
            next: 0,
        }
    }

    /// Whether two machines differ at one of them.
    pub(crate) fn differ<A: Allocator>(&self, one: &BareMachine<A>, other: &BareMachine<A>) -> bool
        ensures { IsTrue result → (m k : MachineState) → StandsFor one.now m
            → StandsFor other.now k → ¬ StandAlike m k }
    {
        self.spots.iter().any(|spot| spot.differs(one, other))
    }

    /// Keeps one more in mind, in place of the oldest.
    pub(crate) fn keep(&mut self, spot: Spot) {
        let place = self.next % KEPT;
        self.spots[place] = spot;
        self.next = place + 1;
    }
}
