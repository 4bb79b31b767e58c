ghost use Rattle.std.specs.Prelude.{◌≡◌, ◌↔◌, IsNone, IsSome, IsTrue, false};
ghost use Rattle.pp_run.specs.BareMachine.{StandsFor};
ghost use Rattle.pp_machine.specs.MachineState.{MachineState};
ghost use Rattle.pp_ends.specs.Ending.{StandAlike};

use crate::recent_mismatches::{RecentMismatches, Spot};
use pp_channel::{CHANNELS, ChannelNo, ChannelState};
use pp_machine::{PROCESSORS, PpNo};
use pp_run::BareMachine;
use std::alloc::Allocator;

/// Whether two machines stand alike. Where they don't, it keeps in mind where they differed, and
/// looks there first the next time.
pub(crate) fn stand_alike<A: Allocator>(
    one: &BareMachine<A>,
    other: &BareMachine<A>,
    recent: &mut RecentMismatches,
) -> bool
    ensures alike { IsTrue result → (m k : MachineState) → StandsFor one.now m
        → StandsFor other.now k → StandAlike m k }
    ensures differ { result ≡ false → (m k : MachineState) → StandsFor one.now m
        → StandsFor other.now k → ¬ StandAlike m k }
{
    if places_differ(one, other) || recent.differ(one, other) {
        return false;
    }
    if let Some(spot) = difference(one, other) {
        recent.keep(spot);
        return false;
    }
    true
}

/// Whether some processors differ in P or A.
fn places_differ<A: Allocator>(one: &BareMachine<A>, other: &BareMachine<A>) -> bool
    ensures { IsTrue result → (m k : MachineState) → StandsFor one.now m → StandsFor other.now k
        → ¬ StandAlike m k }
{
    for place in 0..PROCESSORS {
        let n = PpNo::at(place);
        if one.pp(n).p() != other.pp(n).p() || one.pp(n).a() != other.pp(n).a() {
            return true;
        }
    }
    false
}

/// Where two machines differ, if they don't stand alike.
fn difference<A: Allocator>(one: &BareMachine<A>, other: &BareMachine<A>) -> Option<Spot>
    ensures alike { IsNone result → (m k : MachineState) → StandsFor one.now m
        → StandsFor other.now k → StandAlike m k }
    ensures differ { IsSome result → (m k : MachineState) → StandsFor one.now m
        → StandsFor other.now k → ¬ StandAlike m k }
{
    for place in 0..CHANNELS {
        let c = ChannelNo::at(place);
        if !is_same_state(&one.channel(c), &other.channel(c)) {
            return Some(Spot::FIRST);
        }
    }
    for place in 0..PROCESSORS {
        let n = PpNo::at(place);
        if let Some(word) = one.pp(n).first_difference(other.pp(n)) {
            return Some(Spot::Word(n, word));
        }
    }
    match one.central().first_difference(other.central()) {
        Some(address) => Some(Spot::Central(address)),
        None => None,
    }
}

fn is_same_state(one: &ChannelState, other: &ChannelState) -> bool
    ensures { IsTrue result ↔ (one.now ≡ other.now) }
{
    *one == *other
}
