ghost use Rattle.std.specs.Prelude.{◌≡◌, ◌<◌, ◌≤◌, ℕ, List, None};
ghost use Rattle.pp_line.specs.Types.{Event, Reply};
ghost use Rattle.pp_line.specs.ChannelWord.{history_word, number_in, flags_in, greatest_number, step_from, state_in, waiting_in, word_with, StepsFrom};
ghost use Rattle.pp_channel.specs.History.{IsLawful, HasTwelveBitWord, HasTwelveBitWords};

use pp_channel::{ChanOp, ChannelState, Event, Flags, Reply, event_by, flags_after, reply_made};
use pp_word::Word12;

/// The full flag of a channel word.
const FULL: u64 = 1 << 12;

/// The active flag.
const ACTIVE: u64 = 1 << 13;

/// One event.
const EVENT: u64 = 1 << 14;

/// The greatest number of events that a word can count.
const GREATEST_NUMBER: u64 = (1 << 50) - 1;

/// What an operation does to a channel word.
#[derive(Clone, Copy, PartialEq, Eq)]
pub enum WordStep {
    /// The word becomes this one, this is the reply to the operation, and this event is made.
    Next(u64, Reply, Event),
    /// The flags, for an operation that only looks.
    Look(Flags),
    /// The operation is not ready at these flags.
    Held(Flags),
    /// The word counts 2^50 - 1 events, and no more can be counted.
    Worn,
}

/// The step of an operation from a channel word, which may be any number: bits 0 to 11 are the
/// register, bit 12 the full flag, bit 13 the active flag, and bits 14 to 63 the number of events
/// (decimal). `Worn` comes first, except for an operation that only looks.
#[tactic(auto, using(crate::proofs::ChannelWordLemmas::steps_as_histories))]
pub fn advance(word: u64, op: ChanOp) -> WordStep
    ensures table { result ≡ step_from op word }
    ensures history { (h : List Event) → IsLawful h → HasTwelveBitWords h → history_word h ≡ word
        → StepsFrom h op result }
    ensures twelve_bits { (next : ℕ) (reply : Reply) (e : Event)
        → result ≡ WordStep.Next next reply e → HasTwelveBitWord e }
{
    if !op.only_looks() && number_in(word) == GREATEST_NUMBER {
        return WordStep::Worn;
    }
    match event_by(&op, flags_in(word), waiting_in(word)) {
        Some(event) => WordStep::Next(word_with(word, &event), reply_made(&event), event),
        None if op.only_looks() => WordStep::Look(flags_in(word)),
        None => WordStep::Held(flags_in(word)),
    }
}

/// How many events a word counts.
pub(crate) fn number_in(word: u64) -> u64
    ensures value { result ≡ number_in word }
    ensures at_most { result ≤ greatest_number }
{
    word / EVENT
}

/// Its flags.
pub(crate) fn flags_in(word: u64) -> Flags
    ensures { result ≡ flags_in word }
{
    Flags {
        active: word / ACTIVE % 2 == 1,
        full: word / FULL % 2 == 1,
    }
}

/// The state of a channel with this word.
pub(crate) fn state_in(word: u64) -> ChannelState
    ensures { result ≡ state_in word }
{
    ChannelState {
        flags: flags_in(word),
        register: waiting_in(word),
    }
}

/// The word that waits in its register, if it is active and full.
fn waiting_in(word: u64) -> Option<Word12>
    ensures { result ≡ waiting_in word }
{
    let Flags { active, full } = flags_in(word);
    (active && full).then_some(Word12::truncated((word % FULL) as u32))
}

/// The word after an event.
fn word_with(word: u64, event: &Event) -> u64
    requires { number_in word < greatest_number }
    ensures { result ≡ word_with word event.now }
{
    let Flags { active, full } = flags_after(event);
    let register = match event {
        Event::Put(put) => u64::from(put.get()),
        _ => 0,
    };
    let flags = u64::from(active) * ACTIVE + u64::from(full) * FULL;
    (number_in(word) + 1) * EVENT + flags + register
}
