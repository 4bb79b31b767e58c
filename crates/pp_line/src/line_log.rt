ghost use Rattle.std.specs.Prelude.{◌≡◌, ◌<◌, ◌≤◌, ◌+◌, ◌++◌, true, vec_len, vec_capacity, IfOk, OnOk, OnErr};
ghost use Rattle.pp_line.specs.LineLog.{LogState, empty_log, event_entry, look_entry, appended, looked, ends_in_look_at};

use crate::Entry;
use pp_channel::{ChannelNo, Event, Flags, Memory, Seen};
use std::alloc::Allocator;
use std::marker::Model;

/// A log whose memory is taken when it is made.
#[derive(Drop)]
pub struct LineLog<A: Allocator> {
    pub entries: Vec<Entry, A>,
    /// How many more entries it has room for.
    pub room: u32,
    /// Whether its last entry stays when a look at the same channel follows.
    pub kept: bool,
}

impl<A: Allocator> Model for LineLog<A> {
    ghost Value = { LogState };

    ghost view = { λ log. record {
      entries = log.entries.items;
      room = log.room;
      kept = log.kept;
    } };

    ghost invariant = { λ log. vec_len log.entries + log.room ≤ vec_capacity log.entries };
}

impl<A: Allocator> LineLog<A> {
    /// A log without entries.
    pub fn new(alloc: A, room: u32) -> Result<LineLog<A>, Memory>
        ensures { IfOk result (λ log. log ≡ empty_log room) }
    {
        Ok(LineLog {
            entries: Vec::with_capacity(alloc, room as usize)?,
            room,
            kept: true,
        })
    }

    /// Logs an event.
    pub fn did(&mut self, channel: ChannelNo, number: u64, event: Event)
        requires { 0 < self.old.room }
        ensures { self.new ≡ appended self.old (event_entry channel number event) }
    {
        self.entries.push_reserved(Entry {
            channel,
            number,
            what: Seen::Did(event),
        });
        self.room -= 1;
        self.kept = false;
    }

    /// Logs a look at the flags.
    #[tactic(auto, using(std::proofs::lemmas::Grind::common_steps))]
    pub fn saw(&mut self, channel: ChannelNo, number: u64, flags: Flags)
        requires { 0 < self.old.room }
        ensures { self.new ≡ looked self.old (look_entry channel number flags) }
    {
        let look = Entry {
            channel,
            number,
            what: Seen::Saw(flags),
        };
        if self.ends_in_look_at(channel) {
            let last = self.entries.len() - 1;
            self.entries[last] = look;
        } else {
            self.entries.push_reserved(look);
            self.room -= 1;
        }
        self.kept = false;
    }

    /// Whether the last entry is a look at the channel that need not stay.
    #[tactic(auto, using(pp_numbers::proofs::LastElements::last_or_at))]
    fn ends_in_look_at(&self, channel: ChannelNo) -> bool
        ensures { result ≡ ends_in_look_at channel self.now }
    {
        let Some(last) = self.entries.last() else {
            return false;
        };
        matches!(last.what, Seen::Saw(_)) && !self.kept && last.channel.get() == channel.get()
    }

    /// Adds the entries of another log at the end.
    pub fn append(&mut self, other: &LineLog<A>) -> Result<(), Memory>
        ensures ok { OnOk result (self.new ≡ record self.old {
          entries = self.old.entries ++ other.now.entries;
          kept = true;
        }) }
        ensures unchanged_after_memory { OnErr result (self.new ≡ self.old) }
    {
        let more = other.entries.as_slice();
        self.entries.reserve(more.len() + self.room as usize)?;
        let Ok(()) = self.entries.extend_from_slice(more) else {
            unreachable!()
        };
        self.kept = true;
        Ok(())
    }
}
