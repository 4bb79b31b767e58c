//! Which processors wait at dead start.

ghost use Rattle.pp_machine.specs.DeadStart.{WaitsWithin};

use pp_machine::{PROCESSORS, Profile};
use std::ops::Range;

/// The processors at these places of the barrel's order wait, as many as the profile has.
pub fn waiting(profile: Profile, places: Range<usize>) -> [bool; PROCESSORS]
    ensures { WaitsWithin profile result }
{
    let mut waiting = [false; PROCESSORS];
    for place in places.start..places.end.min(profile.processors()) {
        waiting[place] = true;
    }
    waiting
}
