ghost use Rattle.std.specs.Prelude.{◌≡◌, ℕ, ◌<◌, ◌++◌, List, [], length, IfOk, slice_index_or, slice_set};
ghost use Rattle.std.specs.List.{flat_map, fold};
ghost use Rattle.pp_numbers.specs.ChannelNo.{channel_count};
ghost use Rattle.pp_channel.specs.declared.event.Event.{Event};
ghost use Rattle.pp_line.specs.Merge.{IsRecordedBy, with_entry};

use crate::Entry;
use pp_channel::{CHANNELS, Channel, Event, Memory, Seen};
use std::alloc::Allocator;
use std::marker::Model;
use std::{array, mem};

/// The events of a channel, each put at its number as a log records it. Contracts see their list.
#[derive(Drop)]
struct EventsByNumber<A: Allocator> {
    events: Vec<Event, A>,
}

impl<A: Allocator> Model for EventsByNumber<A> {
    ghost Value = { List Event };

    ghost view = { λ e. e.events.items };
}

impl<A: Allocator> EventsByNumber<A> {
    /// Puts an event at this number, if the list has it.
    #[tactic(auto, using(std::proofs::lemmas::List::set_past))]
    fn put(&mut self, number: u64, event: Event)
        ensures { self.new ≡ slice_set self.old number event }
    {
        let number = number as usize;
        if number < self.events.len() {
            self.events[number] = event;
        }
    }
}

/// All channels in order, with the histories that the log and others, each beside some value,
/// record. Their lengths are the numbers seen.
pub fn recorded_channels<T, A: Allocator + Copy>(
    alloc: A,
    log: &[Entry],
    others: &[(T, Vec<Entry, A>)],
    seen: &[u64; CHANNELS],
) -> Result<[Channel<A>; CHANNELS], Memory>
    requires { (histories : List (List Event))
        × IsRecordedBy (log.now ++ flat_map (λ other. other.1.items) others.now)
        seen.now histories }
    ensures { IfOk result (λ channels. (histories : List (List Event))
        → IsRecordedBy (log.now ++ flat_map (λ other. other.1.items) others.now) seen.now histories
        → channels ≡ histories) }
{
    let mut histories = unrecorded_histories(alloc, seen)?;
    put_log(&mut histories, log);
    for other in others {
        put_log(&mut histories, other.1.as_slice());
    }
    let mut channels = array::from_fn(|_| Channel::new(alloc));
    for place in 0..CHANNELS {
        let history = &mut histories[place];
        let events = mem::replace(&mut history.events, Vec::new(alloc));
        put_channel(&mut channels, place, Channel::of_history(events));
    }
    Ok(channels)
}

fn put_channel<A: Allocator>(channels: &mut [Channel<A>], place: usize, channel: Channel<A>)
    requires { place < length channels.old }
    ensures { channels.new ≡ slice_set channels.old place channel }
{
    channels[place] = channel;
}

/// Puts each event of a log at its number, in the history of its channel.
fn put_log<A: Allocator>(histories: &mut Vec<EventsByNumber<A>, A>, log: &[Entry])
    requires { length histories.old.items ≡ channel_count }
    ensures { histories.new.items ≡ fold with_entry histories.old.items log.now }
{
    for entry in log {
        put_entry(histories, entry);
    }
}

/// As many events of each channel as were seen, none of them placed yet.
fn unrecorded_histories<A: Allocator + Copy>(
    alloc: A,
    seen: &[u64; CHANNELS],
) -> Result<Vec<EventsByNumber<A>, A>, Memory>
    ensures each_channel { IfOk result (λ unplaced. length unplaced.items ≡ channel_count) }
    ensures each_event { IfOk result (λ unplaced. (place : ℕ) → place < channel_count
        → length (slice_index_or unplaced.items place []) ≡ slice_index_or seen.now place 0) }
{
    let mut unplaced = Vec::with_capacity(alloc, CHANNELS)?;
    for count in seen {
        let events = vec![in alloc; Event::Disconnect; *count as usize]?;
        unplaced.push_reserved(EventsByNumber { events });
    }
    Ok(unplaced)
}

/// Puts the event of an entry at its number, in the history of its channel.
fn put_entry<A: Allocator>(histories: &mut Vec<EventsByNumber<A>, A>, entry: &Entry)
    requires { length histories.old.items ≡ channel_count }
    ensures { histories.new.items ≡ with_entry histories.old.items entry.now }
{
    if let Seen::Did(event) = entry.what {
        histories[entry.channel.index()].put(entry.number, event);
    }
}
