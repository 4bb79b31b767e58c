//! Each case again, with one request refused, with a reader that fails, with a writer that fails.

use super::cases::{AT_ONCE, cases};
use super::runs::{Run, ends, is_read_fault, is_write_fault, requests_refused, whole};
use std::fs::Files;
use std::io::ErrorKind;
use std::sync::Wait;
use std::thread::Threads;
use test_bench::{Failure, Sink, Source};

#[test]
fn each_request_refused(rt: HostRuntime) {
    for &(words, input, least) in cases() {
        let is_right = least == 0 || requests_refused(&rt, (words, input)) > Some(least);
        assert!(rt; is_right, "{words:?}");
    }
}

/// Whether a reader that fails after each byte ends a run: with an interruption, after which
/// nothing is read again, but for a check, which goes on reading then.
fn tells_reader<R: AllocGlobal + Files + Threads + Wait + Sync>(
    rt: &R,
    (words, input): Run,
) -> bool {
    let error = if words.contains(&"check") {
        ErrorKind::BrokenPipe
    } else {
        ErrorKind::Interrupted
    };
    for length in 0..=input.len() {
        let front = input.as_bytes().get(..length).unwrap_or(&[]);
        if !is_read_fault(rt, words, front, 1, error) {
            return false;
        }
    }
    true
}

/// Whether a writer that fails in this way after each byte of the output, and one that can't be
/// flushed after the last, end a run. Of an output of more than 500 bytes (decimal) about 500
/// lengths are tried.
fn tells_writer<R: AllocGlobal + Files + Threads + Wait + Sync>(
    rt: &R,
    run: Run,
    output: &[u8],
    failure: Failure,
) -> bool {
    let stride = 1 + output.len() / 500;
    for length in 0..output.len() {
        let front = output.get(..length).unwrap_or(&[]);
        if length % stride == 0 && !is_write_fault(rt, run, front, 7, failure) {
            return false;
        }
    }
    is_write_fault(rt, run, output, 7, Failure::Flush)
}

/// Whether writers that give an error, and that take nothing, end a run, if it has an output.
fn tells_writers<R: AllocGlobal + Files + Threads + Wait + Sync>(rt: &R, run: Run) -> bool {
    let ended = whole(rt, run);
    let output = ended.output.taken();
    ended.status != 0
        || tells_writer(rt, run, output, Failure::Error(ErrorKind::Interrupted))
            && tells_writer(rt, run, output, Failure::TakesNothing)
}

/// Whether a run ends as ever over a reader that gives one byte a call and a writer that takes one,
/// and asks once for each byte and once for the end.
fn byte_by_byte<R: AllocGlobal + Files + Threads + Wait + Sync>(
    rt: &R,
    (words, input): Run,
) -> bool {
    let ended = whole(rt, (words, input));
    let mut reader = Source::new(input.as_bytes(), 1, None);
    let mut writer = Sink::new(rt.alloc(), usize::MAX, 1, Failure::TakesNothing);
    let (status, error) = (ended.status, ended.error.taken());
    ends(rt, words, &mut reader, &mut writer, status, error)
        && (writer.taken(), reader.calls() as usize)
            == (ended.output.taken(), input.len().saturating_add(1))
}

/// Readers and writers that fail, and sound ones of one byte.
#[test]
fn devices_of_each_case(rt: HostRuntime) {
    for &(words, input, _) in cases() {
        let run = (words, input);
        assert!(rt;
            tells_reader(&rt, run) && tells_writers(&rt, run) && byte_by_byte(&rt, run),
            "{words:?}"
        );
    }
}

/// Whether a run has this status, nothing is read, and a writer that takes nothing is met exactly
/// if there is a text.
fn is_at_once<R: AllocGlobal + Files + Threads + Wait + Sync>(
    rt: &R,
    words: &'static [&str],
    status: u8,
) -> bool {
    let found = whole(rt, (words, "PP 0\n"));
    let mut reader = Source::new(b"PP 0\n", 1, None);
    let mut writer = Sink::new(rt.alloc(), 0, 1, Failure::TakesNothing);
    let has_ended = if status == 0 {
        let error = b"ppsim: write fault\n";
        ends(rt, words, &mut reader, &mut writer, 3, error)
    } else {
        let error = found.error.taken();
        ends(rt, words, &mut reader, &mut writer, status, error)
    };
    has_ended
        && found.output.taken().is_empty() == (status != 0)
        && (found.status, reader.calls()) == (status, 0)
        && writer.failures() == u32::from(status == 0)
}

/// Help and refusals read nothing, and need no memory but what reading the words needs, which is
/// not refused here. Help that cannot be written is a write fault.
#[test]
fn answers_at_once(rt: HostRuntime) {
    for &(words, status) in &AT_ONCE {
        let requests = requests_refused(&rt, (words, "PP 0\n"));
        assert!(rt;
            requests == Some(1) && is_at_once(&rt, words, status),
            "{words:?}"
        );
    }
}
