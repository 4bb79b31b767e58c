ghost use Rattle.std.specs.Prelude.{[]};
ghost use Rattle.pp_line.specs.SharedWords.{Rule, central_in};
ghost use Rattle.pp_line.specs.LineSteps.{OnChannel, OnCentral, IsLoad, IsRead, IsShareCheck, IsWrite, exchanges};
ghost use Rattle.pp_line.specs.LineView.{first_view, parent_view, child_view, joined_view, blank_view};

use crate::Entry;
use crate::access::Access;
use atomic_table::{Join, Play, Split, TableRule};
use pp_channel::Event;
use std::alloc::Allocator;
use std::collections::LinkedList;

/// A word that was found on a channel. No value of it is made.
pub struct FoundWord {
    pub channel: u64,
    pub word: u64,
}

/// What a line knows. No value of it is made.
pub struct LineView {
    /// Its shares, of how many in all.
    pub shares: u64,
    pub whole: u64,
    /// The events that it made.
    pub events: LinkedList<Entry>,
    /// The words that it found.
    pub found: LinkedList<FoundWord>,
    /// How many loads it made whose words were not noted.
    pub unrecorded_loads: u64,
    /// How many events of each channel it has seen.
    pub seen: LinkedList<u64>,
    /// The words of central memory when the first line was made.
    pub central: LinkedList<u64>,
    /// How many writes of all lines came before each of those that it made.
    pub written: LinkedList<u64>,
    /// Its program orders: its accesses, in order, and those of each line joined to it.
    pub program_orders: LinkedList<LinkedList<Access>>,
}

/// What lines share at first: `whole` shares, and the words of channels without history and then
/// those of central memory.
#[derive(Drop)]
pub struct Opening<A: Allocator> {
    pub whole: u64,
    pub words: Vec<u64, A>,
}

/// The rule of the shared words.
pub struct ChannelRule;

impl<A: Allocator> TableRule<Event, LineView, Opening<A>> for ChannelRule {
    ghost holds = { λ opening. Rule opening.whole (central_in opening.words.items) };

    ghost first = { λ opening. first_view opening.whole (central_in opening.words.items) };
}

/// A load.
pub struct Load;

impl Play<Event, LineView> for Load {
    ghost then = { OnChannel IsLoad };
}

/// An exchange for an event.
pub struct Exchange;

impl Play<Event, LineView> for Exchange {
    ghost then = { exchanges };
}

/// A load that is counted, after which the line knows no more of the channels than before.
pub struct CheckShares;

impl Play<Event, LineView> for CheckShares {
    ghost then = { OnChannel IsShareCheck };
}

/// A read of a word of central memory.
pub struct Read;

impl Play<Event, LineView> for Read {
    ghost then = { OnCentral IsRead };
}

/// A write of a word of central memory.
pub struct Write;

impl Play<Event, LineView> for Write {
    ghost then = { OnCentral IsWrite };
}

/// A share for another line.
pub struct Share;

impl Split<LineView> for Share {
    ghost left = { parent_view };

    ghost right = { child_view };
}

impl Join<LineView> for Share {
    ghost both = { joined_view };

    ghost spent = { blank_view 0 0 [] [] };
}
