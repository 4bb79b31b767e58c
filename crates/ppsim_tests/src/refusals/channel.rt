//! A channel whose growths are refused.

use crate::refusals::refusal::unless_refused;
use pp_channel::{ChanOp, Channel, Event, Memory, Reply};
use std::alloc::{Allocator, Global};
use test_bench::{EMPTY, FULL, INACTIVE, Rationed, word};

/// Channels over an allocator that refuses a request.
type RationedChannel<'a> = Channel<&'a Rationed<Global>>;

/// Acts after these events, when a request may be refused, which is Memory. Whether nothing has
/// changed then, and the operation is answered as ever once memory is there.
fn act_again(
    heap: &Rationed<Global>,
    channel: &mut RationedChannel,
    events: &[Event],
    op: &ChanOp,
    reply: &Reply,
) -> bool {
    let shown = (channel.flags(), channel.waiting());
    let had_refused = heap.has_refused();
    let answer = channel.act(*op);
    if heap.has_refused() == had_refused {
        return answer == Ok(*reply);
    }
    answer == Err(Memory)
        && channel.history() == events
        && (channel.flags(), channel.waiting()) == shown
        && channel.act(*op) == Ok(*reply)
}

/// Every operation, some of them held.
fn operations() -> [(ChanOp, Reply); 10] {
    [
        (ChanOp::Function(word(0o12)), Reply::Done),
        (ChanOp::Activate, Reply::Done),
        (ChanOp::Function(word(1)), Reply::Held(EMPTY)),
        (ChanOp::Take, Reply::Held(EMPTY)),
        (ChanOp::Put(word(5)), Reply::Done),
        (ChanOp::Probe, Reply::Flags(FULL)),
        (ChanOp::Take, Reply::Word(word(5))),
        (ChanOp::Put(word(6)), Reply::Done),
        (ChanOp::Disconnect, Reply::Done),
        (ChanOp::Take, Reply::Held(INACTIVE)),
    ]
}

/// Their events.
fn events() -> [Event; 6] {
    [
        Event::Function(word(0o12)),
        Event::Activate,
        Event::Put(word(5)),
        Event::Take(word(5)),
        Event::Put(word(6)),
        Event::Disconnect,
    ]
}

/// Nothing if a request is refused and the channel goes on as it should; else whether it does.
pub(crate) fn operations_refused(heap: &Rationed<Global>) -> Option<bool> {
    let events = events();
    let mut channel = Channel::new(heap);
    for (op, reply) in &operations() {
        let made = events.get(..channel.history().len()).unwrap_or(&[]);
        if !act_again(heap, &mut channel, made, op, reply) {
            return Some(false);
        }
    }
    unless_refused(channel.history() == events.as_slice(), heap.has_refused())
}

/// Whether a channel is at its second word of a session: Activate, Put 0005.
pub(crate) fn is_full<A: Allocator>(channel: &Channel<A>) -> bool {
    let events = [Event::Activate, Event::Put(word(5))];
    let shown = (channel.history(), channel.flags(), channel.waiting());
    shown == (events.as_slice(), FULL, Some(word(5)))
}

/// Activates a channel and puts a word on it; whether both are done.
fn fill(channel: &mut RationedChannel, number: u16) -> bool {
    let replies = [
        channel.act(ChanOp::Activate),
        channel.act(ChanOp::Put(word(number))),
    ];
    replies == [Ok(Reply::Done); 2]
}

/// Nothing if a copy is refused; else whether it is as its channel. The channel stays.
fn copy(channel: &RationedChannel) -> Option<bool> {
    let is_copied = match channel.copy() {
        Ok(copy) => Some(is_full(&copy)),
        Err(_) => None,
    };
    if is_full(channel) {
        is_copied
    } else {
        Some(false)
    }
}

#[test]
fn copy_refused(rt: HostRuntime) {
    let heap = Rationed::new(rt.alloc());
    let mut channel = Channel::new(&heap);
    let is_filled = fill(&mut channel, 5);
    let last = heap.refuse_each(|_| copy(&channel));
    assert!(rt; is_filled && last > Some(1));
}

/// Whether a channel answers these operations so, none has an event, and nothing is asked for.
fn answers(
    heap: &Rationed<Global>,
    channel: &mut RationedChannel,
    calls: &[(ChanOp, Reply)],
) -> bool {
    heap.refuse(1);
    for (op, reply) in calls {
        if channel.next_event(op).is_some() || channel.act(*op) != Ok(*reply) {
            return false;
        }
    }
    heap.asked() == 0
}

/// Operations without event on a channel that is inactive, and on one that is full.
fn without_event() -> ([(ChanOp, Reply); 4], [(ChanOp, Reply); 4]) {
    let some = word(0o7777);
    let inactive = [
        (ChanOp::Probe, Reply::Flags(INACTIVE)),
        (ChanOp::Disconnect, Reply::Held(INACTIVE)),
        (ChanOp::Put(some), Reply::Held(INACTIVE)),
        (ChanOp::Take, Reply::Held(INACTIVE)),
    ];
    let full = [
        (ChanOp::Probe, Reply::Flags(FULL)),
        (ChanOp::Activate, Reply::Held(FULL)),
        (ChanOp::Put(some), Reply::Held(FULL)),
        (ChanOp::Function(some), Reply::Held(FULL)),
    ];
    (inactive, full)
}

/// Whether such operations ask for nothing, on a new channel and once it is full.
fn asks_for_nothing(heap: &Rationed<Global>, channel: &mut RationedChannel) -> bool {
    let (inactive, full) = without_event();
    let is_inactive = answers(heap, channel, &inactive)
        && channel.waiting().is_none()
        && channel.history().is_empty();
    heap.refuse(0);
    is_inactive
        && fill(channel, 0o7777)
        && answers(heap, channel, &full)
        && channel.waiting() == Some(word(0o7777))
}

#[test]
fn no_event_asks_for_nothing(rt: HostRuntime) {
    let heap = Rationed::new(rt.alloc());
    let mut channel = Channel::new(&heap);
    assert!(rt; asks_for_nothing(&heap, &mut channel));
}
