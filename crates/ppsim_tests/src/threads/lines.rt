//! Lines in two threads.

ghost use Rattle.std.specs.Prelude.{◌≡◌, ◌+◌};

use pp_channel::{ChanOp, ChannelNo, Seen};
use pp_line::{Entry, Line, open_lines};
use std::alloc::{Allocator, Global};
use std::thread::join;
use test_bench::{is_lawful, word};

/// A thousand calls on a channel, with these operations in turn.
fn act_in_turn<A: Allocator + Copy>(
    mut line: Line<A>,
    channel: ChannelNo,
    operations: [ChanOp; 3],
) -> Line<A>
    ensures shares { result.view.shares ≡ line.view.shares }
    ensures whole { result.view.whole ≡ line.view.whole }
    ensures table { result.table ≡ line.table }
{
    for turn in 0..1000usize {
        if line.room() == 0 {
            return line;
        }
        let _ = line.act(channel, operations[turn % 3]);
    }
    line
}

/// How many events a log records.
fn events_told(log: &[Entry]) -> usize {
    let mut told = 0usize;
    for entry in log {
        told = told.saturating_add(usize::from(matches!(entry.what, Seen::Did(_))));
    }
    told
}

/// Whether the log of a line records as many events as the channel has after a close, in a lawful
/// history.
fn is_told(line: Line<Global>, channel: ChannelNo) -> bool
    requires { line.view.shares ≡ line.view.whole }
{
    let told = events_told(line.log());
    match line.close() {
        Ok(channels) => {
            let history = channels[channel.index()].history();
            told == history.len() && is_lawful(history)
        }
        Err(_) => false,
    }
}

/// The same of two lines, once they are joined.
fn are_told(first: Line<Global>, second: Line<Global>, channel: ChannelNo) -> bool
    requires table { second.table ≡ first.table }
    requires shares { first.view.shares + second.view.shares ≡ first.view.whole }
{
    match first.join(second) {
        Ok(line) => is_told(line, channel),
        Err(_) => false,
    }
}

#[test]
fn two_threads(rt: HostRuntime) {
    let five = ChannelNo::at(5);
    let session = [
        ChanOp::Activate,
        ChanOp::Put(word(0o7070)),
        ChanOp::Disconnect,
    ];
    let mut first = open_lines(rt.alloc(), 1000, 2).expect(&rt, "a line");
    let second = first.split(1000).expect(&rt, "a second line");
    let (first, second) = join(
        &rt,
        move || act_in_turn(first, five, session),
        move || act_in_turn(second, five, [ChanOp::Take; 3]),
    );
    assert!(rt; are_told(first, second, five));
}
