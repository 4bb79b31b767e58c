//! Texts that are longer than a piece in which they go out, and writers that give up in the middle.

use super::requests::LONG_TEXT;
use super::runs::{Run, ends, is_write_fault};
use std::fs::Files;
use std::io::ErrorKind;
use std::sync::Wait;
use std::thread::Threads;
use test_bench::{Failure, SESSIONS, Sink, Source, report_of_sessions, text_of_sessions};

/// A thousand sessions by threads: about 42,000 bytes, as those of `LONG_TEXT` in the barrel.
const THREADS: [&str; 6] = ["ppsim", "threads", "--steps", "3000", "--patience", "5"];

/// Whether the whole text comes, in few pieces of bounded size.
fn comes_in_pieces<R: AllocGlobal + Files + Threads + Wait + Sync>(
    rt: &R,
    (words, input): Run,
    text: &str,
) -> bool {
    let mut output = Sink::ample(rt.alloc());
    let is_done = ends(rt, words, &mut Source::whole(input), &mut output, 0, b"");
    let (calls, most) = output.calls();
    is_done && output.taken() == text.as_bytes() && most <= 8192 && calls < 10
}

/// How many bytes a writer takes before it fails: none, most of a first piece, what is about a
/// piece, and more.
const ROOMS: [usize; 11] = [
    0, 1, 8151, 8168, 8169, 8170, 8192, 8193, 16_338, 40_000, 42_040,
];

/// Whether a writer that fails in this way, after what it took, is a fault and not called again.
fn tells_failure<R: AllocGlobal + Files + Threads + Wait + Sync>(
    rt: &R,
    run: Run,
    text: &[u8],
    failure: Failure,
) -> bool {
    for &room in &ROOMS {
        for piece in [1000, 1_000_000usize] {
            let front = text.get(..room).unwrap_or(&[]);
            if front.len() != room || !is_write_fault(rt, run, front, piece, failure) {
                return false;
            }
        }
    }
    true
}

/// Whether a run has this text, which comes in pieces, and each writer that gives up is a fault.
fn goes_out<R: AllocGlobal + Files + Threads + Wait + Sync>(rt: &R, run: Run, text: &str) -> bool {
    comes_in_pieces(rt, run, text)
        && tells_failure(
            rt,
            run,
            text.as_bytes(),
            Failure::Error(ErrorKind::Interrupted),
        )
        && tells_failure(rt, run, text.as_bytes(), Failure::TakesNothing)
}

#[test]
fn texts_in_pieces(rt: HostRuntime) {
    let text = text_of_sessions(rt.alloc(), 1000).expect(&rt, "a text");
    let report = report_of_sessions(rt.alloc(), 1000).expect(&rt, "a report");
    assert!(rt;
        goes_out(&rt, (&LONG_TEXT, SESSIONS), &text) && goes_out(&rt, (&THREADS, SESSIONS), &report)
    );
}
