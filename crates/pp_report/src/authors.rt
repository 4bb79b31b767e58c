//! Who made the events of the channels.

ghost use Rattle.std.specs.Prelude.{◌≡◌, ◌<◌, ◌≤◌, ℕ, None, Some, length, map, replicate, slice_index_or, slice_set, IfOk, nat_lt};
ghost use Rattle.pp_numbers.specs.ChannelNo.{channel_count};
ghost use Rattle.pp_line.specs.Merge.{logs_event, times_logged};
ghost use Rattle.pp_numbers.specs.PpNo.{processor_count};
ghost use Rattle.pp_report.specs.Authors.{AreAuthors, AreMarked, no_authors};

use pp_channel::{CHANNELS, Channel, Memory, Seen};
use pp_line::Entry;
use pp_machine::{PROCESSORS, PpNo};
use pp_runner::Worker;
use std::alloc::Allocator;
use std::marker::Model;

/// No place of a processor: that of an author who is not known.
const UNKNOWN: u8 = PROCESSORS as u8;

/// The authors of a channel's events, by number, as far as they are known: the place of each, in
/// one byte. Contracts see their list.
#[derive(Drop)]
pub(crate) struct ChannelAuthors<A: Allocator> {
    places: Vec<u8, A>,
}

impl<A: Allocator> Model for ChannelAuthors<A> {
    ghost use Rattle.std.specs.Prelude.{ℕ, List, Option, map};
    ghost use Rattle.pp_report.specs.Authors.{author_at};

    ghost Value = { List (Option ℕ) };

    ghost view = { λ a. map author_at a.places.items };
}

impl<A: Allocator> ChannelAuthors<A> {
    /// The authors of `count` events, none of them known.
    #[tactic(auto, using(crate::proofs::AuthorLemmas::nobody_of))]
    fn unknown(alloc: A, count: usize) -> Result<Self, Memory>
        ensures { IfOk result (λ authors. authors ≡ replicate count None) }
    {
        let places = vec![in alloc; UNKNOWN; count]?;
        Ok(ChannelAuthors { places })
    }

    /// The author of the event with this number, if it is known.
    #[tactic(auto, using(crate::proofs::AuthorLemmas::author_read), // the place of each
    unfolding(crate::specs::Authors::author_at))]
    pub(crate) fn of(&self, number: usize) -> Option<PpNo>
        ensures { result ≡ slice_index_or self.now number None }
    {
        let place = usize::from(*self.places.get(number)?);
        if place < PROCESSORS {
            Some(PpNo::at(place))
        } else {
            None
        }
    }

    /// Marks an event, whatever author it had.
    #[tactic(auto, using(crate::proofs::AuthorLemmas::marked_at))]
    fn mark(&mut self, number: usize, author: PpNo)
        ensures { self.new ≡ slice_set self.old number (Some author) }
    {
        if number < self.places.len() {
            self.places[number] = author.index() as u8;
        }
    }
}

/// The authors of all events of the channels, by the logs of the workers, which stand in order: for
/// each channel in order a list by number. The last worker marks its events first.
pub(crate) fn authors<A: Allocator + Copy>(
    alloc: A,
    workers: &[Worker<A>],
    channels: &[Channel<A>; CHANNELS],
) -> Result<Vec<ChannelAuthors<A>, A>, Memory>
    requires { length workers.now ≤ processor_count }
    ensures each_channel { IfOk result (λ authors. length authors.items ≡ channel_count) }
    ensures authors { IfOk result (λ authors. AreAuthors workers.now channels.now authors.items) }
{
    let mut authors = unknown_authors(alloc, channels)?;
    for place in (0..workers.len()).rev() {
        mark(&mut authors, workers[place].log.as_slice(), PpNo::at(place));
    }
    Ok(authors)
}

fn unknown_authors<A: Allocator + Copy>(
    alloc: A,
    channels: &[Channel<A>; CHANNELS],
) -> Result<Vec<ChannelAuthors<A>, A>, Memory>
    ensures { IfOk result (λ authors. authors.items ≡ map no_authors channels.now) }
{
    let mut authors = Vec::with_capacity(alloc, CHANNELS)?;
    for channel in channels {
        authors.push(ChannelAuthors::unknown(alloc, channel.history().len())?)?;
    }
    Ok(authors)
}

/// Marks the events that a log records, on all channels.
fn mark<A: Allocator>(authors: &mut Vec<ChannelAuthors<A>, A>, log: &[Entry], author: PpNo)
    requires { length authors.old.items ≡ channel_count }
    ensures { AreMarked author (λ c number. nat_lt 0 (times_logged c number log.now))
        authors.old.items authors.new.items }
{
    for entry in log {
        mark_entry(authors, entry, author);
    }
}

fn mark_entry<A: Allocator>(authors: &mut Vec<ChannelAuthors<A>, A>, entry: &Entry, author: PpNo)
    requires { length authors.old.items ≡ channel_count }
    ensures { AreMarked author (λ c number. logs_event c number entry.now)
        authors.old.items authors.new.items }
{
    if let Seen::Did(_) = entry.what {
        authors[entry.channel.index()].mark(entry.number as usize, author);
    }
}
