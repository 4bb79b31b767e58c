ghost use Rattle.std.specs.Prelude.{◌≡◌, ◌+◌, ◌≤◌, ◌^◌, ◌∷◌, ◌++◌, [], ℕ, Bool, List, length};
ghost use Rattle.pp_text.specs.TextWriter.{Prints};
ghost use Rattle.pp_sessions.specs.OpenStretch.{HasAtMost, TakesIn, open_at};
ghost use Rattle.pp_sessions.specs.{SessionsText.line_and_words, Stretches.words_in};
ghost use Rattle.pp_sessions.specs.TimedEvents.{opening_events, timed_on};
ghost use Rattle.pp_machine.specs.declared.trace.Trace.{Trace};

use crate::lines::{print_idle, print_session};
use crate::tally::{Moment, Tally, TimedEvent};
use crate::words::print_words;
use pp_channel::{ChannelNo, Event};
use pp_machine::{Machine, Trace};
use pp_text::TextWriter;
use std::alloc::Allocator;
use std::io::Write;

/// What the line of the stretch that is not over yet will say, if any event has come; and the
/// number of the next session, which it is itself if it is one.
#[derive(Clone, Copy)]
pub(crate) struct OpenStretch {
    pub(crate) number: u64,
    pub(crate) tally: Option<Tally>,
    /// How many entries the trace has before those of the stretch.
    pub(crate) start: usize,
}

impl OpenStretch {
    /// Before the first turn, after what dead start made.
    pub(crate) fn opening<A: Allocator>(machine: &Machine<A>, c: ChannelNo) -> OpenStretch
        ensures opens { (with_words : Bool) → TakesIn with_words c
            (record { number = 1; tally = None; words = [] }) (opening_events c machine.now) []
            (open_at c [] result) }
        ensures few { HasAtMost 1 result }
        ensures start { result.start ≡ 0 }
    {
        let event = TimedEvent {
            moment: Moment::DeadStart,
            event: Event::Activate,
        };
        OpenStretch {
            number: 1,
            tally: if machine.opened(c) {
                Some(Tally::of(&event))
            } else {
                None
            },
            start: 0,
        }
    }
}

/// Prints what is over before an entry of the trace, which comes after these entries, and takes the
/// entry in, if it is on this channel.
pub(crate) fn take_in_entry<W: Write>(
    text: &mut TextWriter<W>,
    c: ChannelNo,
    with_words: bool,
    current: &mut OpenStretch,
    past: &[Trace],
    entry: &Trace,
)
    requires few { HasAtMost (2 ^ 63) current.old }
    requires start { current.old.start ≤ length past.now }
    ensures lines { (printed : List ℕ) × Prints W.contents text.old text.new printed
        × TakesIn with_words c (open_at c past.now current.old) (timed_on c (entry.now ∷ []))
        printed (open_at c (past.now ++ entry.now ∷ []) current.new) }
    ensures few { (most : ℕ) → HasAtMost most current.old → HasAtMost (most + 1) current.new }
    ensures start { current.new.start ≤ length past.now }
{
    if entry.channel.get() != c.get() {
        return;
    }
    let event = TimedEvent {
        moment: Moment::Turn(entry.turn),
        event: entry.event,
    };
    let Some(tally) = current.tally else {
        current.tally = Some(Tally::of(&event));
        current.start = past.len();
        return;
    };
    if !tally.is_over(&event.event) {
        current.tally = Some(tally.with(&event));
        return;
    }
    let entries = &past[current.start..];
    print_stretch(text, c, with_words, current.number, &tally, entries);
    current.number += u64::from(tally.is_session);
    current.tally = Some(Tally::of(&event));
    current.start = past.len();
}

/// Prints the line of a stretch, and if they are asked for its words, which are in these entries of
/// the trace; if it is a session, it has this number.
pub(crate) fn print_stretch<W: Write>(
    text: &mut TextWriter<W>,
    c: ChannelNo,
    with_words: bool,
    number: u64,
    stretch: &Tally,
    entries: &[Trace],
)
    ensures { Prints W.contents text.old text.new
        (line_and_words with_words c number stretch.now (words_in (timed_on c entries.now))) }
{
    if stretch.is_session {
        print_session(text, c, number, stretch);
    } else {
        print_idle(text, c, stretch);
    }
    if with_words {
        print_words(text, c, entries);
    }
}
