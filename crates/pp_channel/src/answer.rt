ghost use Rattle.std.specs.Prelude.{◌≡◌, ◌↔◌, List, [], ◌∷◌, ◌++◌, Some, IfSome};
ghost use Rattle.pp_channel.specs.declared.{chan_op.ChanOp.ChanOp, event.Event.Event, reply.Reply.Reply};
ghost use Rattle.pp_channel.specs.History.{IsLawful, HasTwelveBitWord};
ghost use Rattle.pp_channel.specs.Answer.{IsReady, IsAnswer, event_by, event_of, reply_made, reply_shown, reply_to, history_after, flags_of, flags_after};
ghost use Rattle.pp_channel.specs.{Law.KeepsLaw, Session.word_put};

use crate::{ChanOp, ChannelState, Event, Flags, Reply};
use pp_word::Word12;

/// On lawful histories the table of operations gives the answer of a channel, and no other is one:
/// the same events are ready, the same replies and histories follow, and the same flags.
pub fn answer_law()
    ensures event { (h : List Event) (op : ChanOp) (e : Event) → IsLawful h
        → IsReady h op e ↔ (event_of op h ≡ Some e) }
    ensures answer { (h : List Event) (op : ChanOp) (reply : Reply) (after : List Event)
        → IsLawful h
        → IsAnswer h op reply after ↔ ((reply ≡ reply_to op h) × (after ≡ history_after op h)) }
    ensures flags { (h : List Event) (e : Event) → IsLawful h → IsLawful (h ++ e ∷ [])
        → flags_of (h ++ e ∷ []) ≡ flags_after e }
{}

/// Every lawful history keeps the law of the words that pass.
pub fn session_law()
    ensures { (h : List Event) → IsLawful h → KeepsLaw h }
{}

/// The event of an operation, by flags and register; nothing if it only looks or is not ready.
#[inline(always)]
pub fn event_by(op: &ChanOp, flags: Flags, register: Option<Word12>) -> Option<Event>
    ensures event { result ≡ event_by op.now flags register }
    ensures twelve_bits { IfSome result HasTwelveBitWord }
{
    let Flags { active, full } = flags;
    // Reading a word's number reveals to the proof that it has 12 bits.
    match op {
        ChanOp::Activate if !active => Some(Event::Activate),
        ChanOp::Disconnect if active => Some(Event::Disconnect),
        ChanOp::Put(word) if active && !full => {
            prove!(word.get() < 0o10000);
            Some(Event::Put(*word))
        }
        ChanOp::Take if active && full => {
            let word = register?;
            prove!(word.get() < 0o10000);
            Some(Event::Take(word))
        }
        ChanOp::Function(word) if !active => {
            prove!(word.get() < 0o10000);
            Some(Event::Function(*word))
        }
        _ => None,
    }
}

/// The reply if an event is made.
#[inline(always)]
pub fn reply_made(event: &Event) -> Reply
    ensures { result ≡ reply_made event.now }
{
    match event {
        Event::Take(word) => Reply::Word(*word),
        _ => Reply::Done,
    }
}

/// The reply if none is made: an operation that only looks is answered, any other is held.
#[inline(always)]
pub fn reply_shown(op: &ChanOp, state: &ChannelState) -> Reply
    ensures { result ≡ reply_shown op.now state.now }
{
    match op {
        ChanOp::Probe => Reply::Flags(state.flags),
        _ => Reply::Held(state.flags),
    }
}

/// The flags after an event.
#[inline(always)]
pub fn flags_after(event: &Event) -> Flags
    ensures { result ≡ flags_after event.now }
{
    let (active, full) = match event {
        Event::Activate | Event::Take(_) => (true, false),
        Event::Put(_) => (true, true),
        Event::Disconnect | Event::Function(_) => (false, false),
    };
    Flags { active, full }
}

/// The word in the register after an event.
#[inline(always)]
pub fn word_put(event: &Event) -> Option<Word12>
    ensures { result ≡ word_put event.now }
{
    match event {
        Event::Put(word) => Some(*word),
        _ => None,
    }
}
