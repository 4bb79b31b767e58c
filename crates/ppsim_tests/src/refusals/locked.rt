//! A channel behind a lock whose growths are refused.

use crate::refusals::channel::is_full;
use crate::refusals::refusal::unless_refused;
use pp_channel::{ChanOp, Channel, Locked, Memory, Numbered, Reply};
use std::alloc::{Allocator, Global};
use std::process::Abort;
use std::sync::Wait;
use test_bench::{INACTIVE, Rationed, numbered, word};

/// The same operations behind the lock and on a channel in ample memory, which answer the same,
/// until a request is refused. Gives those that are left, or nothing if an answer is another.
fn act_until_refused<'a, A: Allocator>(
    rt: &impl Wait,
    heap: &Rationed<Global>,
    locked: &Locked<A>,
    kept: &mut Channel<Global>,
    operations: &'a [ChanOp],
) -> Option<&'a [ChanOp]> {
    let had_refused = heap.has_refused();
    for (made, op) in operations.iter().enumerate() {
        let answer = locked.act(rt, *op);
        if heap.has_refused() != had_refused {
            return if answer == Err(Memory) {
                operations.get(made..)
            } else {
                None
            };
        }
        let number = kept.history().len() as u64;
        let Ok(reply) = kept.act(*op) else {
            return None;
        };
        if answer != Ok(numbered(reply, number)) {
            return None;
        }
    }
    Some(&[])
}

/// Whether two channels show the same.
fn is_same<A: Allocator>(channel: &Channel<A>, kept: &Channel<Global>) -> bool {
    let shown = (channel.history(), channel.flags(), channel.waiting());
    shown == (kept.history(), kept.flags(), kept.waiting())
}

/// Every operation, one of them held.
fn every_operation() -> [ChanOp; 7] {
    [
        ChanOp::Function(word(0o12)),
        ChanOp::Activate,
        ChanOp::Put(word(5)),
        ChanOp::Probe,
        ChanOp::Put(word(6)),
        ChanOp::Take,
        ChanOp::Disconnect,
    ]
}

/// The same of a channel that is locked for them, which shows what the other does afterwards, and
/// the operations that are left.
fn act_behind_lock<'a, R: Wait + Abort, A: Allocator>(
    rt: &R,
    heap: &Rationed<Global>,
    channel: Channel<A>,
    kept: &mut Channel<Global>,
    operations: &'a [ChanOp],
) -> (Channel<A>, &'a [ChanOp]) {
    let locked = Locked::new(channel);
    let left = act_until_refused(rt, heap, &locked, kept, operations);
    let left = left.expect(rt, "the same answers");
    let channel = locked.into_inner();
    assert!(rt; is_same(&channel, kept));
    (channel, left)
}

/// Operations of which a request may be refused, and then those that are left. Nothing if one is
/// refused and the channel is as it should be before and after these; else whether it is.
pub(crate) fn operations_refused<R: AllocGlobal + Wait + Abort, A: Allocator>(
    rt: &R,
    heap: &Rationed<Global>,
    alloc: A,
) -> Option<bool> {
    let operations = every_operation();
    let mut kept = Channel::new(rt.alloc());
    let (channel, rest) = act_behind_lock(rt, heap, Channel::new(alloc), &mut kept, &operations);
    let (_, left) = act_behind_lock(rt, heap, channel, &mut kept, rest);
    let is_done = left.is_empty() && kept.history().len() == 5;
    unless_refused(is_done, heap.has_refused())
}

/// Whether operations behind a lock have these answers.
pub(crate) fn answers<A: Allocator>(
    rt: &impl Wait,
    locked: &Locked<A>,
    calls: &[(ChanOp, Numbered)],
) -> bool {
    for (op, answer) in calls {
        if locked.act(rt, *op) != Ok(*answer) {
            return false;
        }
    }
    true
}

/// How many events are left by operations behind a new lock, if they have these answers.
fn left_by<A: Allocator>(rt: &impl Wait, alloc: A, calls: &[(ChanOp, Numbered)]) -> Option<usize> {
    let locked = Locked::new(Channel::new(alloc));
    let is_answered = answers(rt, &locked, calls);
    let count = locked.into_inner().history().len();
    is_answered.then_some(count)
}

#[test]
fn locked_without_event_asks_for_nothing(rt: HostRuntime) {
    let calls = [
        (ChanOp::Probe, numbered(Reply::Flags(INACTIVE), 0)),
        (ChanOp::Disconnect, numbered(Reply::Held(INACTIVE), 0)),
        (
            ChanOp::Put(word(0o7777)),
            numbered(Reply::Held(INACTIVE), 0),
        ),
        (ChanOp::Take, numbered(Reply::Held(INACTIVE), 0)),
    ];
    let heap = Rationed::new(rt.alloc());
    heap.refuse(1);
    let (left, untouched) = (left_by(&rt, &heap, &calls), left_by(&rt, &heap, &[]));
    assert!(rt; left == Some(0) && untouched == Some(0) && heap.asked() == 0);
}

/// Whether a channel comes out of its lock full, without a request, and goes on.
fn goes_on<A: Allocator>(
    rt: &impl Wait,
    heap: &Rationed<Global>,
    alloc: A,
    calls: &[(ChanOp, Numbered)],
) -> bool {
    let locked = Locked::new(Channel::new(alloc));
    let is_answered = answers(rt, &locked, calls);
    heap.refuse(1);
    let mut channel = locked.into_inner();
    let kept = (is_full(&channel), heap.asked());
    heap.refuse(0);
    let answer = channel.act(ChanOp::Take);
    (is_answered, kept, answer) == (true, (true, 0), Ok(Reply::Word(word(5))))
}

/// A channel comes out of its lock as it was left, without a request, and goes on: here within a
/// session, with a word that nobody took.
#[test]
fn a_session_behind_a_lock_goes_on(rt: HostRuntime) {
    let calls = [
        (ChanOp::Activate, numbered(Reply::Done, 0)),
        (ChanOp::Put(word(5)), numbered(Reply::Done, 1)),
    ];
    let heap = Rationed::new(rt.alloc());
    assert!(rt; goes_on(&rt, &heap, &heap, &calls));
}
