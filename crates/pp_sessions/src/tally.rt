ghost use Rattle.std.specs.Prelude.{◌≡◌, ◌+◌, ◌^◌, ◌||◌, [], ℕ};
ghost use Rattle.pp_sessions.specs.OpenStretch.{CountsAtMost, with_event};
ghost use Rattle.pp_sessions.specs.Stretches.{begins_session, tally_of};

use pp_channel::Event;
use pp_word::Word12;

/// When something happened.
#[derive(Clone, Copy)]
pub(crate) enum Moment {
    /// At dead start, before the first turn.
    DeadStart,
    /// In the step of this turn (decimal).
    Turn(u64),
}

/// An event of a channel, and when it happened.
#[derive(Clone, Copy)]
pub(crate) struct TimedEvent {
    pub(crate) moment: Moment,
    pub(crate) event: Event,
}

/// What a line says of a stretch: whether it is a session, and whether a Disconnect has ended it;
/// when its first and its last event happened, and how many it has (decimal); how many words were
/// put and taken, and the word that was put and not taken.
#[derive(Clone, Copy)]
pub(crate) struct Tally {
    pub(crate) is_session: bool,
    pub(crate) has_ended: bool,
    pub(crate) from: Moment,
    pub(crate) to: Moment,
    pub(crate) events: u64,
    pub(crate) put: u64,
    pub(crate) taken: u64,
    pub(crate) untaken: Option<Word12>,
}

impl Tally {
    /// That of a stretch of one event.
    pub(crate) fn of(event: &TimedEvent) -> Tally
        ensures tally { result ≡ tally_of event.now [] }
        ensures few { CountsAtMost 1 result }
    {
        let nothing = Tally {
            is_session: begins_session(&event.event),
            has_ended: false,
            from: event.moment,
            to: event.moment,
            events: 0,
            put: 0,
            taken: 0,
            untaken: None,
        };
        nothing.with(event)
    }

    /// That of the same stretch with an event more.
    pub(crate) fn with(&self, event: &TimedEvent) -> Tally
        requires { CountsAtMost (2 ^ 63) self.now }
        ensures tally { result ≡ with_event self.now event.now }
        ensures few { (most : ℕ) → CountsAtMost most self.now → CountsAtMost (most + 1) result }
    {
        let (put, taken, untaken) = match event.event {
            Event::Put(word) => (1, 0, Some(word)),
            Event::Take(_) => (0, 1, None),
            Event::Activate | Event::Disconnect | Event::Function(_) => (0, 0, self.untaken),
        };
        Tally {
            has_ended: matches!(event.event, Event::Disconnect),
            to: event.moment,
            events: self.events + 1,
            put: self.put + put,
            taken: self.taken + taken,
            untaken,
            ..*self
        }
    }

    /// Whether the stretch is over before an event.
    pub(crate) fn is_over(&self, next: &Event) -> bool
        ensures { result ≡ (self.now.has_ended || begins_session next.now) }
    {
        self.has_ended || begins_session(next)
    }
}

fn begins_session(event: &Event) -> bool
    ensures { result ≡ begins_session event.now }
{
    matches!(event, Event::Activate)
}
