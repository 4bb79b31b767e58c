//! Laws of sessions. These functions do nothing: their contracts say what is proved of the
//! definitions.

ghost use Rattle.std.specs.Prelude.{◌≡◌, ◌==◌, ◌+◌, ◌∷◌, ◌++◌, ℕ, Bool, IsTrue, List, count_by, map};
ghost use Rattle.std.specs.List.{All, flat_map};
ghost use Rattle.std.specs.Option.{option_to_list};
ghost use Rattle.pp_numbers.specs.ChannelNo.{names_channel};
ghost use Rattle.pp_channel.specs.History.{Course, events_of, idle_stretch};
ghost use Rattle.pp_channel.specs.Session.{Session};
ghost use Rattle.pp_machine.specs.Headline.{HoldsOnEachChannel};
ghost use Rattle.pp_machine.specs.MachineState.{MachineState, history_of};
ghost use Rattle.pp_run.specs.RunSteps.{run_steps};
ghost use Rattle.pp_sessions.specs.SessionsLaw.{TellsIdle, TellsMoments, TellsSession, session_events, stretches_of};
ghost use Rattle.pp_sessions.specs.SessionsText.{lines_from, sessions_text};
ghost use Rattle.pp_run.specs.{StepCounts.step_counts, declared.step_counts.StepCounts.StepCounts};
ghost use Rattle.pp_sessions.specs.ShownStretch.{FitsItsCounts, FitsItsStretch, counts_shown, stretches_shown};
ghost use Rattle.pp_sessions.specs.Stretches.{is_session, stretches, tally_of, words_in};
ghost use Rattle.pp_sessions.specs.TimedEvents.{events_in, timed_events};
ghost use Rattle.pp_sessions.specs.declared.tally.TimedEvent.{TimedEvent};

/// A lawful history has exactly one course.
pub fn course_law()
    ensures { (one other : Course) → events_of one ≡ events_of other → one ≡ other }
{}

/// The lines of a channel are about its whole history, and each about a session or an idle stretch
/// of its course, in order; what is printed of a session is whether it ended, how many words were
/// put and taken in it, its lone last word, and the turns of its first event and its last; and its
/// words are those that passed, and the lone one.
pub fn sessions_law()
    ensures history { (c : ℕ) (m : MachineState) → IsTrue (names_channel c)
        → HoldsOnEachChannel m → events_in (timed_events c m) ≡ history_of c m }
    ensures together { (events : List TimedEvent)
        → flat_map (λ stretch. stretch) (stretches events) ≡ events }
    ensures stretches { (events : List TimedEvent) (course : Course)
        → events_of course ≡ events_in events
        → map events_in (stretches events) ≡ stretches_of course }
    // The sessions of a channel are numbered from 1 on, in order.
    ensures numbers { (with_words : Bool) (c : ℕ) (before after : List (List TimedEvent))
        → lines_from with_words c 1 (before ++ after)
        ≡ lines_from with_words c 1 before
        ++ lines_from with_words c (1 + count_by is_session before) after }
    ensures session { (session : Session) (ended : Bool) (first : TimedEvent)
        (others : List TimedEvent) → events_in (first ∷ others) ≡ session_events session ended
        → TellsSession session ended (tally_of first others) }
    // Whatever the stretch is, the turns printed of it are those of its first event and its last.
    ensures moments { (first : TimedEvent) (others : List TimedEvent)
        → TellsMoments first others (tally_of first others) }
    ensures idle { (codes : List ℕ) (first : TimedEvent) (others : List TimedEvent)
        → events_in (first ∷ others) ≡ idle_stretch codes
        → TellsIdle codes (tally_of first others) }
    ensures words { (session : Session) (ended : Bool) (events : List TimedEvent)
        → events_in events ≡ session_events session ended
        → words_in events ≡ session.passed ++ option_to_list session.lone }
    ensures codes { (codes : List ℕ) (events : List TimedEvent)
        → events_in events ≡ idle_stretch codes → words_in events ≡ codes }
{}

/// The text of sessions tells what it shows: two texts that are the same, both with words or both
/// without, show the same sessions and idle stretches of each channel, in order, each with its
/// turns, its numbers, the word untaken and its words; and the same counts of the same processors.
pub fn sessions_text_law()
    ensures { (with_words : Bool) (shown others : List Bool) (m k : MachineState)
        (counts more : List StepCounts) → All FitsItsStretch (stretches_shown with_words m)
        → All FitsItsStretch (stretches_shown with_words k)
        → All FitsItsCounts (counts_shown shown counts)
        → All FitsItsCounts (counts_shown others more)
        → sessions_text with_words shown m counts ≡ sessions_text with_words others k more
        → (stretches_shown with_words m ≡ stretches_shown with_words k)
        × (counts_shown shown counts ≡ counts_shown others more) }
{}

/// The steps of a processor that moved it, that were held, and that found it at rest are all its
/// steps.
pub fn counts_law()
    ensures { (n : ℕ) (steps : List ℕ) (m : MachineState)
        → let counts = step_counts n (run_steps steps m) in
        counts.moved + counts.held + counts.at_rest ≡ count_by (λ k. k == n) steps }
{}
