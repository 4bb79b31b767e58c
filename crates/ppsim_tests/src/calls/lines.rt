//! Lines, one after another.

ghost use Rattle.std.specs.Prelude.{◌≡◌};

use pp_channel::{ChanOp, Channel, ChannelNo, Event, Numbered, Reply, Seen};
use pp_line::{Entry, Line, open_lines};
use std::alloc::{Allocator, Global};
use std::process::Abort;
use test_bench::{EMPTY, FULL, INACTIVE, numbered, word};

/// A call, and the answer that it has to have.
pub(crate) type Call = (ChanOp, Numbered);

/// Whether calls on a channel have the answers that they have to have.
pub(crate) fn answers<A: Allocator + Copy>(
    line: &mut Line<A>,
    channel: ChannelNo,
    calls: &[Call],
) -> bool
    ensures shares { line.new.view.shares ≡ line.old.view.shares }
    ensures whole { line.new.view.whole ≡ line.old.view.whole }
    ensures table { line.new.table ≡ line.old.table }
{
    for (op, answer) in calls {
        if line.room() == 0 || line.act(channel, *op) != Ok(*answer) {
            return false;
        }
    }
    true
}

pub(crate) fn entry(channel: ChannelNo, number: u64, what: Seen) -> Entry {
    Entry {
        channel,
        number,
        what,
    }
}

/// Whether a line has this log, and this room, so many events of a channel seen, so many shares,
/// and whether it keeps its last look.
pub(crate) fn is_line<A: Allocator + Copy>(
    line: &Line<A>,
    channel: ChannelNo,
    log: &[Entry],
    shown: (u32, u64, u32, bool),
) -> bool {
    let seen = line.seen(channel);
    line.log() == log && (line.room(), seen, line.shares(), line.kept()) == shown
}

/// A line makes the first of these calls, and is split. Then its child, which has seen the same,
/// makes calls, then the line, and the two are joined.
fn joined<R: AllocGlobal + Abort>(
    rt: &R,
    channel: ChannelNo,
    before: &[Call],
    by_child: &[Call],
    by_line: &[Call],
) -> Line<Global>
    ensures { result.view.shares ≡ result.view.whole }
{
    let mut line = open_lines(rt.alloc(), 8, 2).expect(rt, "a line");
    let is_begun = answers(&mut line, channel, before);
    let mut child = line.split(4).expect(rt, "a child");
    let is_seen = child.seen(channel) == line.seen(channel);
    assert!(rt;
        is_begun
            && is_seen
            && answers(&mut child, channel, by_child)
            && answers(&mut line, channel, by_line)
    );
    match line.join(child) {
        Ok(line) => line,
        Err(_) => panic!(rt; "no memory for a join"),
    }
}

/// Whether channels have this history at this place, and none at the twenty-three others.
pub(crate) fn have_history<A: Allocator>(
    channels: &[Channel<A>],
    used: usize,
    events: &[Event],
) -> bool {
    for (place, channel) in channels.iter().enumerate() {
        let history = if place == used { events } else { &[] };
        if channel.history() != history {
            return false;
        }
    }
    channels.len() == 24
}

/// Whether a line is closed with such channels.
fn closes_with(line: Line<Global>, used: usize, events: &[Event]) -> bool
    requires { line.view.shares ≡ line.view.whole }
{
    match line.close() {
        Ok(channels) => have_history(&channels, used, events),
        Err(_) => false,
    }
}

/// Two events, a look, and a put that is held.
pub(crate) fn opening() -> [Call; 4] {
    [
        (ChanOp::Activate, numbered(Reply::Done, 0)),
        (ChanOp::Put(word(1)), numbered(Reply::Done, 1)),
        (ChanOp::Probe, numbered(Reply::Flags(FULL), 2)),
        (ChanOp::Put(word(2)), numbered(Reply::Held(FULL), 2)),
    ]
}

#[test]
fn log_of_a_line(rt: HostRuntime) {
    let five = ChannelNo::at(5);
    let log = [
        entry(five, 0, Seen::Did(Event::Activate)),
        entry(five, 1, Seen::Did(Event::Put(word(1)))),
        entry(five, 2, Seen::Saw(FULL)),
    ];
    let mut line = open_lines(rt.alloc(), 8, 2).expect(&rt, "a line");
    let is_answered = answers(&mut line, five, &opening());
    assert!(rt; is_answered && is_line(&line, five, &log, (5, 2, 2, false)));
}

#[test]
fn line_by_calls(rt: HostRuntime) {
    let five = ChannelNo::at(5);
    let taken = [(ChanOp::Take, numbered(Reply::Word(word(1)), 2))];
    let events = [Event::Activate, Event::Put(word(1)), Event::Take(word(1))];
    let line = joined(&rt, five, &opening(), &taken, &[]);
    let shown = (line.log().len(), line.room(), line.shares());
    assert!(rt; closes_with(line, 5, &events) && shown == (4, 5, 2));
}

/// A line's call on channel 33, which stands at the last place, is on no other.
#[test]
fn a_line_at_the_last_place(rt: HostRuntime) {
    let (near, far) = (ChannelNo::at(11), ChannelNo::at(23));
    let activate = [(ChanOp::Activate, numbered(Reply::Done, 0))];
    let mut line = open_lines(rt.alloc(), 8, 1).expect(&rt, "a line");
    let is_answered = answers(&mut line, far, &activate);
    let seen = (line.seen(far), line.seen(near));
    assert!(rt; closes_with(line, 23, &[Event::Activate]) && is_answered && seen == (1, 0));
}

/// The line's own entries stand before those of its child.
#[test]
fn split_lines(rt: HostRuntime) {
    let five = ChannelNo::at(5);
    let before = [(ChanOp::Activate, numbered(Reply::Done, 0))];
    let by_child = [
        (ChanOp::Probe, numbered(Reply::Flags(EMPTY), 1)),
        (ChanOp::Disconnect, numbered(Reply::Done, 1)),
    ];
    let by_line = [
        (ChanOp::Activate, numbered(Reply::Done, 2)),
        (ChanOp::Disconnect, numbered(Reply::Done, 3)),
        (ChanOp::Disconnect, numbered(Reply::Held(INACTIVE), 4)),
    ];
    let log = [
        entry(five, 0, Seen::Did(Event::Activate)),
        entry(five, 2, Seen::Did(Event::Activate)),
        entry(five, 3, Seen::Did(Event::Disconnect)),
        entry(five, 4, Seen::Saw(INACTIVE)),
        entry(five, 1, Seen::Saw(EMPTY)),
        entry(five, 1, Seen::Did(Event::Disconnect)),
    ];
    let line = joined(&rt, five, &before, &by_child, &by_line);
    assert!(rt; is_line(&line, five, &log, (4, 4, 2, true)));
}

/// Whether a line answers two probes, and one more once the look of the second is kept, which then
/// stays in the log; the next one would take its place.
fn keeps_look(line: &mut Line<Global>, channel: ChannelNo) -> bool {
    let probe = (ChanOp::Probe, numbered(Reply::Flags(INACTIVE), 0));
    let look = entry(channel, 0, Seen::Saw(INACTIVE));
    let is_answered = answers(line, channel, &[probe; 2]);
    line.keep();
    is_answered
        && line.kept()
        && answers(line, channel, &[probe])
        && is_line(line, channel, &[look; 2], (6, 0, 1, false))
}

#[test]
fn a_look_that_is_kept(rt: HostRuntime) {
    let mut line = open_lines(rt.alloc(), 8, 1).expect(&rt, "a line");
    assert!(rt; keeps_look(&mut line, ChannelNo::at(5)));
}

/// Whether two lines of one table answer in turn: what one did the other meets at its next call.
fn answer_in_turn(line: &mut Line<Global>, other: &mut Line<Global>, channel: ChannelNo) -> bool {
    let opened = [
        (ChanOp::Activate, numbered(Reply::Done, 0)),
        (ChanOp::Put(word(1)), numbered(Reply::Done, 1)),
    ];
    let probe = [(ChanOp::Probe, numbered(Reply::Flags(FULL), 2))];
    let disconnect = [(ChanOp::Disconnect, numbered(Reply::Done, 2))];
    let activate = [(ChanOp::Activate, numbered(Reply::Done, 3))];
    answers(line, channel, &opened)
        && answers(other, channel, &probe)
        && answers(line, channel, &disconnect)
        && answers(other, channel, &activate)
}

/// A line and the one that is split from it answer in turn.
#[test]
fn lines_in_turn(rt: HostRuntime) {
    let mut line = open_lines(rt.alloc(), 8, 2).expect(&rt, "a line");
    let mut second = line.split(4).expect(&rt, "a second line");
    assert!(rt; answer_in_turn(&mut line, &mut second, ChannelNo::at(5)));
}
