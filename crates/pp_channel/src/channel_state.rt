ghost use Rattle.std.specs.Prelude.{◌≡◌, [], ◌∷◌, ◌++◌, List, Some, IfSome, IfNone};
ghost use Rattle.pp_channel.specs.Answer.{channel_state, event_by, event_of, history_after, operation_of, reply_to, state_after, state_reply};
ghost use Rattle.pp_channel.specs.History.{HasTwelveBitWord, IsLawful};
ghost use Rattle.pp_channel.specs.{ChannelText.channel_text, declared.event.Event.Event};

use crate::answer::word_put;
use crate::{
    ChanOp, Channel, Event, Flags, Reply, answer_law, event_by, flags_after, reply_made,
    reply_shown,
};
use pp_word::Word12;
use std::alloc::Allocator;
use std::fmt::{self, Display, Formatter, Write};

/// The flags of a channel and the word in its register: all of its history that its answers need.
/// It takes no memory that grows. Example: if the word 0007 (octal) waits, both flags are set, the
/// register has this word, and the state is printed as `ACTIVE FULL 0007`.
#[derive(Clone, Copy, Debug, PartialEq, Eq)]
pub struct ChannelState {
    pub flags: Flags,
    /// The word that was put and not taken.
    pub register: Option<Word12>,
}

impl ChannelState {
    /// An inactive channel, like a new one. Example: it is printed as `INACTIVE`.
    pub const INACTIVE: ChannelState = ChannelState {
        flags: Flags {
            active: false,
            full: false,
        },
        register: None,
    };

    /// An active channel without a word. Example: it is printed as `ACTIVE EMPTY`.
    pub const EMPTY: ChannelState = ChannelState {
        flags: Flags {
            active: true,
            full: false,
        },
        register: None,
    };

    /// The state of a channel. Example: a new channel is `INACTIVE`.
    #[inline(always)]
    pub fn of<A: Allocator>(channel: &Channel<A>) -> ChannelState
        ensures { result ≡ channel_state channel.now }
    {
        ChannelState {
            flags: channel.flags(),
            register: channel.waiting(),
        }
    }

    /// The event that an operation would make. Example: `ChanOp::Take` would make
    /// `Event::Take(word)` if that word waits, and none on an empty channel.
    pub fn next_event(&self, op: &ChanOp) -> Option<Event>
        ensures table { result ≡ event_by op.now self.now.flags self.now.register }
        ensures event { (h : List Event) → self.now ≡ channel_state h → result ≡ event_of op.now h }
        ensures twelve_bits { IfSome result HasTwelveBitWord }
    {
        event_by(op, self.flags, self.register)
    }

    /// The state of a channel after an event, or nothing if the event may not come. Example: after
    /// `Event::Activate` an inactive channel is `EMPTY`, on which `Event::Activate` may not come.
    pub fn after(&self, event: &Event) -> Option<ChannelState>
        ensures lawful { IfSome result (λ state. (h : List Event) → IsLawful h
            → self.now ≡ channel_state h → IsLawful (h ++ event.now ∷ [])
            × (state ≡ channel_state (h ++ event.now ∷ []))) }
        ensures unlawful { IfNone result ((h : List Event) → IsLawful h
            → self.now ≡ channel_state h → ¬ IsLawful (h ++ event.now ∷ [])) }
    {
        answer_law();
        let made = event_by(&operation_of(event), self.flags, self.register)?;
        if made != *event {
            return None;
        }
        Some(ChannelState {
            flags: flags_after(event),
            register: word_put(event),
        })
    }

    /// Makes an operation if it is ready; otherwise holds it, and nothing changes. Example: an
    /// empty channel holds `ChanOp::Take`, and after `ChanOp::Put(word)` it is full with that word.
    pub fn act(&mut self, op: ChanOp) -> Reply
        ensures table { result ≡ state_reply op self.old }
        ensures state { self.new ≡ state_after op self.old }
        ensures reply { (h : List Event) → self.old ≡ channel_state h → result ≡ reply_to op h }
        ensures after { (h : List Event) → IsLawful h → self.old ≡ channel_state h
            → self.new ≡ channel_state (history_after op h) }
    {
        let Some(event) = self.next_event(&op) else {
            return reply_shown(&op, self);
        };
        self.flags = flags_after(&event);
        self.register = word_put(&event);
        reply_made(&event)
    }
}

fn operation_of(event: &Event) -> ChanOp
    ensures { result ≡ operation_of event.now }
{
    match event {
        Event::Activate => ChanOp::Activate,
        Event::Disconnect => ChanOp::Disconnect,
        Event::Put(word) => ChanOp::Put(*word),
        Event::Take(_) => ChanOp::Take,
        Event::Function(word) => ChanOp::Function(*word),
    }
}

impl Display for ChannelState {
    ghost output = { λ state. Some (channel_text state.flags.active state.register) };

    fn fmt<W: Write>(&self, f: &mut Formatter<W>) -> fmt::Result {
        match self.register {
            Some(word) => write!(f, "ACTIVE FULL {word}"),
            None if self.flags.active => f.write_str("ACTIVE EMPTY"),
            None => f.write_str("INACTIVE"),
        }
    }
}
