//! Lines whose growths are refused.

ghost use Rattle.std.specs.Prelude.{◌≡◌, ◌+◌};

use crate::calls::lines::{answers, entry, have_history, is_line, opening};
use crate::refusals::refusal::unless_refused;
use pp_channel::{ChanOp, ChannelNo, Event, Reply, Seen};
use pp_line::{Entry, Line, open_lines};
use std::alloc::{Allocator, Global};
use std::process::Abort;
use test_bench::{FULL, Rationed, numbered, word};

/// The log of a line after the calls of the worked row, two events, and the look of the put that is
/// held in the place of the probe's; and that of its child, which takes the word.
fn log_of_row() -> [Entry; 4] {
    let five = ChannelNo::at(5);
    [
        entry(five, 0, Seen::Did(Event::Activate)),
        entry(five, 1, Seen::Did(Event::Put(word(1)))),
        entry(five, 2, Seen::Saw(FULL)),
        entry(five, 2, Seen::Did(Event::Take(word(1)))),
    ]
}

/// Nothing if a line is refused; else whether it is as new.
pub(crate) fn open<A: Allocator + Copy>(alloc: A) -> Option<bool> {
    match open_lines(alloc, 8, 2) {
        Ok(line) => Some(line.room() == 8 && line.shares() == 2),
        Err(_) => None,
    }
}

/// A line after the calls of the worked row before the split: two events, a look, and a put that is
/// held.
fn opened<A: Allocator + Copy>(rt: &impl Abort, alloc: A) -> Line<A>
    ensures shares { result.view.shares ≡ 2 }
    ensures whole { result.view.whole ≡ 2 }
{
    let mut line = open_lines(alloc, 8, 2).expect(rt, "a line");
    assert!(rt; answers(&mut line, ChannelNo::at(5), &opening()));
    line
}

/// Nothing if a split is refused, which leaves the line as it was; else whether the child is as it
/// should be.
fn split<A: Allocator + Copy>(line: &mut Line<A>) -> Option<bool> {
    if line.shares() != 2 {
        return Some(false);
    }
    match line.split(4) {
        Ok(child) => Some(is_line(&child, ChannelNo::at(5), &[], (4, 2, 1, true))),
        Err(_) => {
            let log = &log_of_row()[..3];
            let is_kept = is_line(line, ChannelNo::at(5), log, (5, 2, 2, false));
            unless_refused(is_kept, true)
        }
    }
}

/// The line is refused its child again and again, up to a split without a refusal.
#[test]
fn split_refused(rt: HostRuntime) {
    let heap = Rationed::new(rt.alloc());
    let mut line = opened(&rt, &heap);
    let last = heap.refuse_each(|_| split(&mut line));
    assert!(rt; last > Some(1));
}

/// The line of the worked row, and its child, which has taken the word.
fn family<A: Allocator + Copy>(rt: &impl Abort, alloc: A) -> (Line<A>, Line<A>)
    ensures table { result.1.table ≡ result.0.table }
    ensures shares { result.0.view.shares + result.1.view.shares ≡ result.0.view.whole }
{
    let mut line = opened(rt, alloc);
    let mut child = line.split(4).expect(rt, "a child");
    let taken = [(ChanOp::Take, numbered(Reply::Word(word(1)), 2))];
    assert!(rt; answers(&mut child, ChannelNo::at(5), &taken));
    (line, child)
}

/// Whether both lines are as they were before the join.
fn are_kept<A: Allocator + Copy>(line: &Line<A>, child: &Line<A>) -> bool {
    let [one, other, look, taken] = log_of_row();
    let five = ChannelNo::at(5);
    is_line(line, five, &[one, other, look], (5, 2, 1, false))
        && is_line(child, five, &[taken], (3, 3, 1, false))
}

/// Whether the line is whole, as it is after the join and before the close.
fn is_whole<A: Allocator + Copy>(line: &Line<A>) -> bool {
    is_line(line, ChannelNo::at(5), &log_of_row(), (5, 3, 2, true))
}

/// Nothing where this request of a join is refused, which leaves both lines as they were; else
/// whether the line is as it should be.
pub(crate) fn join<A: Allocator + Copy>(
    rt: &impl Abort,
    heap: &Rationed<Global>,
    alloc: A,
    number: u64,
) -> Option<bool> {
    heap.refuse(0);
    let (line, child) = family(rt, alloc);
    heap.refuse(number);
    match line.join(child) {
        Ok(both) => Some(is_whole(&both)),
        Err(refused) => unless_refused(are_kept(&refused.0, &refused.1), true),
    }
}

/// The line of the worked row, whole again.
fn whole_line<A: Allocator + Copy>(rt: &impl Abort, alloc: A) -> Line<A>
    ensures { result.view.shares ≡ result.view.whole }
{
    let (line, child) = family(rt, alloc);
    match line.join(child) {
        Ok(line) => line,
        Err(_) => panic!(rt; "no memory for a join"),
    }
}

/// Nothing where this request of a close is refused, which leaves the line as it was; else whether
/// the channel at place 5 has the history that the row leaves, and no other has any.
pub(crate) fn close(rt: &impl Abort, heap: &Rationed<Global>, number: u64) -> Option<bool> {
    heap.refuse(0);
    let row = [Event::Activate, Event::Put(word(1)), Event::Take(word(1))];
    let line = whole_line(rt, heap);
    heap.refuse(number);
    match line.close() {
        Ok(channels) => Some(have_history(&channels, 5, &row)),
        Err(refused) => unless_refused(is_whole(&refused.0), true),
    }
}

/// Whether a line makes every operation, one of them held, and then keeps a look.
fn makes_all<A: Allocator + Copy>(line: &mut Line<A>) -> bool {
    let five = ChannelNo::at(5);
    let calls = [
        (ChanOp::Function(word(0o12)), numbered(Reply::Done, 0)),
        (ChanOp::Activate, numbered(Reply::Done, 1)),
        (ChanOp::Put(word(1)), numbered(Reply::Done, 2)),
        (ChanOp::Probe, numbered(Reply::Flags(FULL), 3)),
        (ChanOp::Put(word(2)), numbered(Reply::Held(FULL), 3)),
        (ChanOp::Take, numbered(Reply::Word(word(1)), 3)),
        (ChanOp::Disconnect, numbered(Reply::Done, 4)),
    ];
    let is_answered = answers(line, five, &calls);
    line.keep();
    // Five events, and the look of the held Put in the place of the probe's.
    let shown = (line.room(), line.seen(five), line.shares(), line.kept());
    is_answered && shown == (2, 5, 2, true) && line.log().len() == 6 && line.whole() == 2
}

/// Whether such a line asks for no memory.
fn asks_for_nothing<A: Allocator + Copy>(
    rt: &impl Abort,
    heap: &Rationed<Global>,
    alloc: A,
) -> bool {
    let mut line = open_lines(alloc, 8, 2).expect(rt, "a line");
    heap.refuse(1);
    let is_made = makes_all(&mut line);
    is_made && heap.asked() == 0
}

#[test]
fn a_line_asks_for_nothing(rt: HostRuntime) {
    let heap = Rationed::new(rt.alloc());
    assert!(rt; asks_for_nothing(&rt, &heap, &heap));
}
