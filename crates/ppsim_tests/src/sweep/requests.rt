//! Requests for memory: those that are refused in a long text, and those that do not grow with a
//! run.

use super::runs::{Run, ending, requests_refused, whole};
use std::fs::Files;
use std::sync::Wait;
use std::thread::Threads;
use test_bench::{Rationed, SESSIONS};

/// A loop that no channel holds.
const LOOP: &str = "\
PP 0
0100 3650 0376
START 0100
";

/// Two processors that pass words over a channel, and one that looks at it again and again.
const LOOKED_AT: &str = "\
PP 0
0100 7405 2030 0000 7305 0000 0300
START 0100
PP 1
0100 7005 2027 7777 7105 0001 0300
START 0100
PP 2
0100 6605 0100 0100 0100
START 0100
";

/// The status of `turns` turns of a loop, whose steps are printed, and how many requests are made.
fn requests_in<R: AllocGlobal + Files + Threads + Wait + Sync>(rt: &R, turns: &str) -> (u8, u64) {
    let heap = Rationed::new(rt.alloc());
    let words = ["ppsim", "steps", "--turns", turns];
    let ended = ending(rt, &heap, (&words, LOOP));
    (ended.status, heap.asked())
}

#[test]
fn lines_take_no_memory(rt: HostRuntime) {
    let (status, few) = requests_in(&rt, "100");
    assert!(rt; status == 0 && requests_in(&rt, "20000") == (0, few));
}

/// A command line whose text is longer than a piece in which it goes out.
pub(crate) const LONG_TEXT: [&str; 4] = ["ppsim", "barrel", "--turns", "30000"];

/// A command line whose lines go out while the run is still made: it asks for nothing any more
/// then.
const LONG_RACES: [&str; 4] = ["ppsim", "races", "--turns", "9000"];

/// Nothing of a long text is written if a request is refused.
#[test]
fn long_texts_refused(rt: HostRuntime) {
    let runs: [Run; 2] = [(&LONG_TEXT, SESSIONS), (&LONG_RACES, LOOKED_AT)];
    for run in runs {
        let length = whole(&rt, run).output.taken().len();
        assert!(rt; length > 20_000 && requests_refused(&rt, run) > Some(10));
    }
}
