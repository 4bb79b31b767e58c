//! Runs of the program over memory that is counted, and over devices.

use pp_sim::run_program;
use std::alloc::Global;
use std::fs::Files;
use std::io::{ErrorKind, Read, Write};
use std::sync::Wait;
use std::thread::Threads;
use test_bench::{Failure, Rationed, Sink, Source};

/// A command line, and what it reads.
pub(crate) type Run = (&'static [&'static str], &'static str);

/// How a run ends: its status, its output and its standard error.
#[derive(Drop)]
pub(crate) struct Ended {
    pub(crate) status: u8,
    pub(crate) output: Sink,
    pub(crate) error: Sink,
}

/// How a run over this memory ends.
pub(crate) fn ending<R: AllocGlobal + Files + Threads + Wait + Sync>(
    rt: &R,
    heap: &Rationed<Global>,
    (words, input): (&[&str], &str),
) -> Ended {
    let (mut output, mut error) = (Sink::ample(rt.alloc()), Sink::ample(rt.alloc()));
    let mut input = Source::whole(input);
    let status = run_program(rt, heap, words, &mut input, &mut output, &mut error);
    Ended {
        status,
        output,
        error,
    }
}

/// How a run with ample memory ends.
pub(crate) fn whole<R: AllocGlobal + Files + Threads + Wait + Sync>(rt: &R, run: Run) -> Ended {
    ending(rt, &Rationed::new(rt.alloc()), run)
}

/// Nothing if a run ended for want of memory as it should; else whether it ended as expected.
fn unless_out_of_memory(ended: &Ended, expected: &Ended) -> Option<bool> {
    let (output, error) = (ended.output.taken(), ended.error.taken());
    if ended.status == 4 && output.is_empty() && error == b"ppsim: out of memory\n".as_slice() {
        return None;
    }
    Some(
        ended.status == expected.status
            && output == expected.output.taken()
            && error == expected.error.taken(),
    )
}

/// The number of the first request that a run does not make, if with any earlier one refused it
/// ends for want of memory, and writes nothing, and with this one ends as with ample memory.
pub(crate) fn requests_refused<R: AllocGlobal + Files + Threads + Wait + Sync>(
    rt: &R,
    run: Run,
) -> Option<u64> {
    let expected = whole(rt, run);
    let heap = Rationed::new(rt.alloc());
    heap.refuse_each(|_| unless_out_of_memory(&ending(rt, &heap, run), &expected))
}

/// Whether a run over these devices ends with this status and this standard error.
pub(crate) fn ends<R: AllocGlobal + Files + Threads + Wait + Sync, I: Read, O: Write>(
    rt: &R,
    words: &[&str],
    input: &mut I,
    output: &mut O,
    status: u8,
    error: &[u8],
) -> bool {
    let heap = Rationed::new(rt.alloc());
    let mut told = Sink::ample(rt.alloc());
    run_program(rt, &heap, words, input, output, &mut told) == status && told.taken() == error
}

/// Whether a run ends with status 3 and writes nothing if the reader gives these bytes, `piece` a
/// call, and then an error, which is the last call.
pub(crate) fn is_read_fault<R: AllocGlobal + Files + Threads + Wait + Sync>(
    rt: &R,
    words: &[&str],
    front: &[u8],
    piece: usize,
    error: ErrorKind,
) -> bool {
    let mut reader = Source::new(front, piece, Some(error));
    let mut writer = Sink::ample(rt.alloc());
    ends(
        rt,
        words,
        &mut reader,
        &mut writer,
        3,
        b"ppsim: read fault\n",
    ) && writer.taken().is_empty()
        && reader.errors() == 1
        && (piece > 1 || reader.calls() as usize == front.len().saturating_add(1))
}

/// Whether a run ends with status 3 if the writer takes these bytes of its text, `piece` a call,
/// and then fails, which is the last call.
pub(crate) fn is_write_fault<R: AllocGlobal + Files + Threads + Wait + Sync>(
    rt: &R,
    (words, input): Run,
    front: &[u8],
    piece: usize,
    failure: Failure,
) -> bool {
    let mut writer = Sink::new(rt.alloc(), front.len(), piece, failure);
    ends(
        rt,
        words,
        &mut Source::whole(input),
        &mut writer,
        3,
        b"ppsim: write fault\n",
    ) && writer.taken() == front
        && writer.failures() == 1
}
