ghost use Rattle.std.specs.Prelude.{◌≡◌, List, [], ◌∷◌, ◌++◌, ◌↔◌, IsTrue, None, IsSome, IfSome, IsOk, IfOk, OnOk, OnErr};
ghost use Rattle.pp_channel.specs.History.{IsLawful, HasTwelveBitWord, HasTwelveBitWords, full, waiting};
ghost use Rattle.pp_channel.specs.Answer.{IsAnswer, channel_state, event_of, reply_shown, reply_to, history_after, flags_of};
ghost use Rattle.pp_channel.specs.{Law.KeepsLaw, declared.event.Event.Event};

use crate::answer::word_put;
use crate::{
    ChanOp, ChannelState, Event, Flags, Memory, Reply, event_by, flags_after, reply_made,
    reply_shown,
};
use pp_word::Word12;
use std::alloc::Allocator;
use std::marker::Model;

/// A data channel. Contracts see it as its history, the list of all its events.
#[derive(Drop)]
pub struct Channel<A: Allocator> {
    flags: Flags,
    register: Option<Word12>,
    events: Vec<Event, A>,
}

impl<A: Allocator> Model for Channel<A> {
    ghost Value = { List Event };

    ghost view = { λ c. c.events.items };

    // The history is lawful, its words have 12 bits, and flags and register are those of it.
    ghost invariant = { λ c. IsLawful c.events.items × HasTwelveBitWords c.events.items
        × (c.flags ≡ flags_of c.events.items) × (c.register ≡ waiting c.events.items) };
}

impl<A: Allocator> Channel<A> {
    /// An inactive, empty channel on which nothing has happened.
    pub fn new(alloc: A) -> Self
        ensures { result ≡ [] }
    {
        Channel {
            flags: ChannelState::INACTIVE.flags,
            register: None,
            events: Vec::new(alloc),
        }
    }

    /// The channel with this history: a lawful one, whose words have 12 bits.
    pub fn of_history(events: Vec<Event, A>) -> Self
        requires lawful { IsLawful events.items }
        requires twelve_bits { HasTwelveBitWords events.items }
        ensures { result ≡ events.items }
    {
        let mut flags = ChannelState::INACTIVE.flags;
        let mut register = None;
        if let Some(last) = events.last() {
            flags = flags_after(last);
            register = word_put(last);
        }
        Channel {
            flags,
            register,
            events,
        }
    }

    /// Its flags.
    pub fn flags(&self) -> Flags
        ensures { result ≡ flags_of self.now }
    {
        self.flags
    }

    /// The word that was put and not taken.
    #[tactic(auto, using(crate::proofs::AnswerLemmas::full_register))]
    pub fn waiting(&self) -> Option<Word12>
        ensures word { result ≡ waiting self.now }
        ensures where_full { IsSome result ↔ IsTrue (full self.now) }
    {
        self.register
    }

    /// All its events, in order.
    #[tactic(auto, using(crate::proofs::LawLemmas::law_of_lawful))]
    pub fn history(&self) -> &[Event]
        ensures value { result.now ≡ self.now }
        ensures lawful { IsLawful self.now }
        ensures law { KeepsLaw self.now }
        ensures twelve_bits { HasTwelveBitWords self.now }
    {
        self.events.as_slice()
    }

    /// An equal channel, in memory of its own.
    pub fn copy(&self) -> Result<Channel<A>, Memory>
    where
        A: Clone,
        ensures { IfOk result (λ c. c ≡ self.now) }
    {
        Ok(Channel {
            flags: self.flags,
            register: self.register,
            events: self.events.clone()?,
        })
    }

    /// Makes room for `events` more events, which then take no memory, as tests show.
    pub fn reserve(&mut self, events: usize) -> Result<(), Memory>
        ensures { self.new ≡ self.old }
    {
        Ok(self.events.reserve_exact(events)?)
    }

    /// The event that the operation would make now, or nothing. It takes no memory: a caller that
    /// also records events asks first, and so takes memory for a record only if there is an event.
    #[inline(always)]
    pub fn next_event(&self, op: &ChanOp) -> Option<Event>
        ensures event { result ≡ event_of op.now self.now }
        ensures twelve_bits { IfSome result HasTwelveBitWord }
        ensures lawful { IsLawful self.now }
    {
        event_by(op, self.flags, self.register)
    }

    /// The reply if no event is made now: an operation that only looks is answered, others held.
    #[inline(always)]
    pub fn shown(&self, op: &ChanOp) -> Reply
        ensures { result ≡ reply_shown op.now (channel_state self.now) }
    {
        reply_shown(op, &ChannelState::of(self))
    }

    /// Makes the operation if it is ready; otherwise holds it, and nothing changes.
    #[tactic(auto, using(crate::proofs::AnswerLemmas::answered_by_table))]
    #[inline(always)]
    pub fn act(&mut self, op: ChanOp) -> Result<Reply, Memory>
        ensures answer { IfOk result (λ reply. IsAnswer self.old op reply self.new) }
        ensures lawful { IsLawful self.new }

        // The same answer by the table of operations.
        ensures reply { IfOk result (λ reply. reply ≡ reply_to op self.old) }
        ensures history { OnOk result (self.new ≡ history_after op self.old) }

        ensures no_memory_without_event { event_of op self.old ≡ None → IsOk result }
        ensures unchanged_after_memory { OnErr result (self.new ≡ self.old) }
    {
        let Some(event) = self.next_event(&op) else {
            return Ok(self.shown(&op));
        };
        self.make(op, event)
    }

    /// Makes an operation whose event is known, by `next_event`.
    #[inline(always)]
    pub fn make(&mut self, op: ChanOp, event: Event) -> Result<Reply, Memory>
        requires event { event_of op self.old ≡ Some event }
        requires twelve_bits { HasTwelveBitWord event }
        ensures reply { IfOk result (λ reply. reply ≡ reply_to op self.old) }
        ensures history { OnOk result (self.new ≡ history_after op self.old) }
        ensures lawful { IsLawful self.new }
        ensures unchanged_after_memory { OnErr result (self.new ≡ self.old) }
    {
        // Reveals to the proof that the history is lawful.
        let _lawful = self.history();
        self.record(event)?;
        Ok(reply_made(&event))
    }

    /// Adds an event to the history, and sets the flags and the register to what it leaves.
    fn record(&mut self, event: Event) -> Result<(), Memory>
        requires lawful { IsLawful (self.old ++ event ∷ []) }
        requires twelve_bits { HasTwelveBitWord event }
        ensures ok { OnOk result (self.new ≡ self.old ++ event ∷ []) }
        ensures lawful { IsLawful self.new }
        ensures unchanged_after_memory { OnErr result (self.new ≡ self.old) }
    {
        let flags = flags_after(&event);
        let register = word_put(&event);
        self.events.push(event)?;
        self.flags = flags;
        self.register = register;
        Ok(())
    }
}
