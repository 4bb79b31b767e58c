//! One channel by calls.

use pp_channel::{ChanOp, Channel, Event, Reply};
use std::alloc::Global;
use test_bench::{EMPTY, FULL, INACTIVE, word};

/// Whether a channel answers these operations so.
fn answers(channel: &mut Channel<Global>, calls: &[(ChanOp, Reply)]) -> bool {
    for (op, reply) in calls {
        if channel.act(*op) != Ok(*reply) {
            return false;
        }
    }
    true
}

#[test]
fn one_session(rt: HostRuntime) {
    let calls = [
        (ChanOp::Function(word(0o12)), Reply::Done),
        (ChanOp::Activate, Reply::Done),
        (ChanOp::Function(word(1)), Reply::Held(EMPTY)),
        (ChanOp::Take, Reply::Held(EMPTY)),
        (ChanOp::Put(word(5)), Reply::Done),
    ];
    let events = [
        Event::Function(word(0o12)),
        Event::Activate,
        Event::Put(word(5)),
    ];
    let mut channel = Channel::new(rt.alloc());
    assert!(rt;
        answers(&mut channel, &calls)
            && channel.waiting() == Some(word(5))
            && channel.history() == events.as_slice()
    );
}

/// What a copy and its channel show alike: a session with a word that waits.
fn waits_alike(channel: &Channel<Global>, copy: &Channel<Global>) -> bool {
    copy.history() == channel.history()
        && copy.next_event(&ChanOp::Take) == Some(Event::Take(word(5)))
}

/// Whether a copy of a channel goes on alone.
fn goes_on_alone(channel: &Channel<Global>) -> bool {
    let calls = [
        (ChanOp::Probe, Reply::Flags(FULL)),
        (ChanOp::Take, Reply::Word(word(5))),
        (ChanOp::Probe, Reply::Flags(EMPTY)),
        (ChanOp::Disconnect, Reply::Done),
    ];
    match channel.copy() {
        Ok(mut copy) => {
            let is_alone = waits_alike(channel, &copy) && answers(&mut copy, &calls);
            let lengths = (copy.history().len(), channel.history().len());
            is_alone && (copy.flags(), lengths) == (INACTIVE, (4, 2))
        }
        Err(_) => false,
    }
}

#[test]
fn a_copy(rt: HostRuntime) {
    let begin = [
        (ChanOp::Activate, Reply::Done),
        (ChanOp::Put(word(5)), Reply::Done),
    ];
    let mut channel = Channel::new(rt.alloc());
    assert!(rt; answers(&mut channel, &begin) && goes_on_alone(&channel));
}

#[test]
fn held_where_not_ready(rt: HostRuntime) {
    let some = word(0o7777);
    let calls = [
        (ChanOp::Disconnect, Reply::Held(INACTIVE)),
        (ChanOp::Put(some), Reply::Held(INACTIVE)),
        (ChanOp::Take, Reply::Held(INACTIVE)),
        (ChanOp::Activate, Reply::Done),
        (ChanOp::Activate, Reply::Held(EMPTY)),
        (ChanOp::Take, Reply::Held(EMPTY)),
        (ChanOp::Function(some), Reply::Held(EMPTY)),
        (ChanOp::Put(some), Reply::Done),
        (ChanOp::Activate, Reply::Held(FULL)),
        (ChanOp::Put(some), Reply::Held(FULL)),
        (ChanOp::Function(some), Reply::Held(FULL)),
    ];
    let mut channel = Channel::new(rt.alloc());
    assert!(rt; answers(&mut channel, &calls) && channel.history().len() == 2);
}
