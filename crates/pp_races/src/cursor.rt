//! Where a processor is in the events of a channel.
//!
//! A search is begun where the last one for the same flags ended, and all places only move forward:
//! a run looks at each event at most once for each processor and each set of flags.

ghost use Rattle.std.specs.Prelude.{◌≡◌, [], List};
ghost use Rattle.pp_races.specs.ByFlags.{at};
ghost use Rattle.pp_races.specs.Cursor.{IsCursor, IsFirst};
ghost use Rattle.pp_races.specs.Watch.{first_race, from_alike};
ghost use Rattle.pp_races.specs.declared.missed.Missed.{Missed};

use crate::by_flags::{ByFlags, SETS};
use crate::missed::Missed;
use pp_machine::Trace;

/// The place from which on a processor may find the events of a channel still to come; and for each
/// set of flags, by its number, a place before which none of these found one of them.
#[derive(Clone, Copy)]
pub(crate) struct Cursor {
    pub(crate) from: usize,
    pub(crate) searched: [usize; SETS],
}

impl Cursor {
    /// At the first event to come.
    pub(crate) fn first() -> Cursor
        ensures { IsCursor [] [] result }
    {
        Cursor {
            from: 0,
            searched: [0; SETS],
        }
    }

    /// The first event missed that found one of a set of flags.
    pub(crate) fn first_race(&mut self, events: &[Missed], races: &ByFlags<bool>) -> Option<Trace>
        ensures kept { (missed : List Missed) → IsCursor events.now missed self.old
            → IsCursor events.now missed self.new }
        ensures race { (missed : List Missed) → IsCursor events.now missed self.old
            → result ≡ first_race (at races.now) missed }
    {
        let number = races.number();
        let begin = self.searched[number].max(self.from);
        let place = search(events, begin, races);
        self.searched[number] = place;
        if place < events.len() {
            Some(events[place].entry)
        } else {
            None
        }
    }

    /// Passes the events missed before the first that found one of a set of flags.
    pub(crate) fn pass(&mut self, events: &[Missed], alike: &ByFlags<bool>)
        ensures { (missed : List Missed) → IsCursor events.now missed self.old
            → IsCursor events.now (from_alike (at alike.now) missed) self.new }
    {
        self.from = search(events, self.from, alike);
    }

    /// Passes all of them.
    pub(crate) fn pass_all(&mut self, events: &[Missed])
        ensures { (missed : List Missed) → IsCursor events.now missed self.old
            → IsCursor events.now [] self.new }
    {
        self.from = events.len();
    }
}

/// The first place, from this one on, of an event that found one of a set of flags; if none did,
/// one with no event from it on.
fn search(events: &[Missed], from: usize, set: &ByFlags<bool>) -> usize
    ensures { IsFirst (at set.now) events.now from result }
{
    let mut place = from;
    while place < events.len() && !set.at(events[place].found) {
        place += 1;
    }
    place
}
