//! A channel behind a lock.

use crate::refusals::locked::answers;
use pp_channel::{ChanOp, Channel, Event, Locked, Memory, Reply};
use std::alloc::Global;
use std::ops::Range;
use std::sync::Wait;
use std::thread;
use test_bench::{FULL, numbered, word};

/// How many function codes each of two threads sends.
const CODES: u16 = 1000;

/// A function code, and a session in which a word waits.
fn are_waiting(channel: &mut Channel<Global>) -> bool {
    let replies = [
        channel.act(ChanOp::Function(word(0o12))),
        channel.act(ChanOp::Activate),
        channel.act(ChanOp::Put(word(5))),
    ];
    replies == [Ok(Reply::Done); 3]
}

/// Whether such a channel goes on behind a lock, and comes out of it as it should.
fn goes_on(rt: &impl Wait, channel: Channel<Global>) -> bool {
    let calls = [
        (ChanOp::Probe, numbered(Reply::Flags(FULL), 3)),
        (ChanOp::Put(word(6)), numbered(Reply::Held(FULL), 3)),
        (ChanOp::Take, numbered(Reply::Word(word(5)), 3)),
        (ChanOp::Disconnect, numbered(Reply::Done, 4)),
    ];
    let events = [
        Event::Function(word(0o12)),
        Event::Activate,
        Event::Put(word(5)),
        Event::Take(word(5)),
        Event::Disconnect,
    ];
    let locked = Locked::new(channel);
    let is_answered = answers(rt, &locked, &calls);
    let channel = locked.into_inner();
    is_answered && channel.history() == events.as_slice()
}

/// A copy goes on behind the lock; the channel stays.
#[test]
fn one_session_behind_a_lock(rt: HostRuntime) {
    let mut channel = Channel::new(rt.alloc());
    let is_waiting = are_waiting(&mut channel);
    let copy = channel.copy().expect(&rt, "a copy");
    assert!(rt; is_waiting && goes_on(&rt, copy) && channel.history().len() == 3);
}

/// Sends function codes, and gives the number of each.
fn send_codes(
    rt: &(impl Wait + AllocGlobal),
    locked: &Locked<Global>,
    codes: Range<u16>,
) -> Result<Vec<u64>, Memory> {
    let mut numbers = Vec::new(rt.alloc());
    for code in codes {
        numbers.push(locked.act(rt, ChanOp::Function(word(code)))?.number)?;
    }
    Ok(numbers)
}

/// Whether each of these codes stands in the history at its number.
fn has_codes(history: &[Event], codes: Range<u16>, numbers: &[u64]) -> bool {
    for (code, number) in codes.zip(numbers) {
        if history.get(*number as usize) != Some(&Event::Function(word(code))) {
            return false;
        }
    }
    numbers.len() == usize::from(CODES)
}

#[test]
fn two_threads_at_one_lock(rt: HostRuntime) {
    let locked = Locked::new(Channel::new(rt.alloc()));
    let (one, other) = thread::join(
        &rt,
        || send_codes(&rt, &locked, 0..CODES),
        || send_codes(&rt, &locked, CODES..2 * CODES),
    );
    let (one, other) = (one.expect(&rt, "numbers"), other.expect(&rt, "numbers"));
    let channel = locked.into_inner();
    let history = channel.history();
    assert!(rt;
        has_codes(history, 0..CODES, &one)
            && has_codes(history, CODES..2 * CODES, &other)
            && history.len() == usize::from(2 * CODES)
    );
}
