//! Readers and writers that give up, as a pipe whose other end is closed does.

use super::runs::{Run, ends, is_read_fault, is_write_fault};
use pp_sim::run_program;
use std::fs::Files;
use std::io::ErrorKind;
use std::sync::Wait;
use std::thread::Threads;
use test_bench::{
    Failure, HANDOFF, HANDOFF_ON_TWENTY, HANDOFF_TEXT, Rationed, Sink, Source, WORDS_OF_A_RUN,
    WORDS_OF_TWENTY,
};

const KINDS: [ErrorKind; 12] = [
    ErrorKind::BrokenPipe,
    ErrorKind::ConnectionReset,
    ErrorKind::Interrupted,
    ErrorKind::WouldBlock,
    ErrorKind::TimedOut,
    ErrorKind::UnexpectedEof,
    ErrorKind::WriteZero,
    ErrorKind::StorageFull,
    ErrorKind::IsADirectory,
    ErrorKind::PermissionDenied,
    ErrorKind::OutOfMemory,
    ErrorKind::Other,
];

/// Whether a reader that fails in this way after each of some parts of a deck, in pieces of three
/// sizes, ends a run.
fn tells_reader<R: AllocGlobal + Files + Threads + Wait + Sync>(rt: &R, kind: ErrorKind) -> bool {
    for front in ["", "PP", "words\n", &HANDOFF[..71], HANDOFF] {
        for piece in [1, 7, 1000usize] {
            if !is_read_fault(rt, &WORDS_OF_A_RUN, front.as_bytes(), piece, kind) {
                return false;
            }
        }
    }
    true
}

/// Whether a writer that fails in this way, after each of some parts of the text, in pieces of
/// three sizes, ends a run.
fn tells_writer<R: AllocGlobal + Files + Threads + Wait + Sync>(rt: &R, kind: ErrorKind) -> bool {
    let run: Run = (&WORDS_OF_A_RUN, HANDOFF);
    for room in [0, 1, 21, 100, 148usize] {
        for piece in [1, 7, 1000usize] {
            let front = HANDOFF_TEXT.as_bytes().get(..room).unwrap_or(&[]);
            if !is_write_fault(rt, run, front, piece, Failure::Error(kind)) {
                return false;
            }
        }
    }
    true
}

/// A fault of the reader comes before every fault of the deck that it gave the first part of, and
/// no error is tried again.
#[test]
fn devices_that_give_up(rt: HostRuntime) {
    for kind in &KINDS {
        assert!(rt;
            tells_reader(&rt, *kind) && tells_writer(&rt, *kind),
            "{kind:?}"
        );
    }
}

/// Whether a writer that is full after the text is not noticed, and one that cannot be flushed then
/// is a fault.
fn flushes_after<R: AllocGlobal + Files + Threads + Wait + Sync>(
    rt: &R,
    (words, input): Run,
    text: &[u8],
) -> bool {
    let mut output = Sink::new(rt.alloc(), text.len(), 1, Failure::TakesNothing);
    ends(rt, words, &mut Source::whole(input), &mut output, 0, b"")
        && (output.taken(), output.failures()) == (text, 0)
        && is_write_fault(rt, (words, input), text, 1, Failure::Flush)
}

/// The whole text is taken byte by byte, and then a flush that fails is a fault of the writer.
#[test]
fn flushes(rt: HostRuntime) {
    let runs: [(&[&str], &str); 2] = [
        (&WORDS_OF_A_RUN, HANDOFF_TEXT),
        (&WORDS_OF_TWENTY, HANDOFF_ON_TWENTY),
    ];
    for (words, text) in runs {
        assert!(rt; flushes_after(&rt, (words, HANDOFF), text.as_bytes()));
    }
}

/// An output that fills up at the end of the text is not noticed, and one that fails is not touched
/// if the deck is refused; if nothing can be reported, the status is the same.
const UNTOLD: [(&str, &str, usize, u8); 5] = [
    ("40", HANDOFF, 149, 0),
    ("40", "PP 12", 149, 1),
    ("40", "PP 12", 0, 1),
    ("1000000", HANDOFF, 149, 2),
    ("40", HANDOFF, 100, 3),
];

/// Whether a run whose standard error fails has this status, and its output took what it should.
fn is_untold<R: AllocGlobal + Files + Threads + Wait + Sync>(
    rt: &R,
    turns: &str,
    deck: &str,
    room: usize,
    status: u8,
) -> bool {
    let (taken, failures) = match status {
        0 => (room, 0),
        3 => (room, 1),
        _ => (0, 0),
    };
    let failure = Failure::Error(ErrorKind::BrokenPipe);
    let mut input = Source::whole(deck);
    let mut output = Sink::new(rt.alloc(), room, 1000, failure);
    let mut error = Sink::new(rt.alloc(), 0, 1000, failure);
    let words = ["ppsim", "barrel", "--turns", turns];
    let heap = Rationed::new(rt.alloc());
    let ended = run_program(rt, &heap, &words, &mut input, &mut output, &mut error);
    (ended, output.failures(), output.taken().len()) == (status, failures, taken)
        && (error.failures() > 0) == (status != 0)
}

#[test]
fn errors_that_are_not_told(rt: HostRuntime) {
    for &(turns, deck, room, status) in &UNTOLD {
        assert!(rt; is_untold(&rt, turns, deck, room, status), "{status}");
    }
}

/// Whether a run on a text ends so without an output, if the reader gives the text in such pieces
/// and then an error, and so much of the text is left then, and so many errors were met.
fn ends_on_text<R: AllocGlobal + Files + Threads + Wait + Sync>(
    rt: &R,
    (text, piece): (&[u8], usize),
    (status, error): (u8, &[u8]),
    (left, errors): (usize, u32),
) -> bool {
    let mut input = Source::new(text, piece, Some(ErrorKind::BrokenPipe));
    let mut output = Sink::ample(rt.alloc());
    ends(rt, &WORDS_OF_A_RUN, &mut input, &mut output, status, error)
        && output.taken().is_empty()
        && (input.left(), input.errors()) == (left, errors)
}

/// What a deck that is too long is answered.
const TOO_LONG: (u8, &[u8]) = (1, b"ppsim: deck fault 1 at line 0\n");

/// The byte past the longest deck is the last that is read: an error after it is not met, and
/// nothing of what may follow.
#[test]
fn spaces_past_the_longest_deck(rt: HostRuntime) {
    let spaces = vec![in rt.alloc(); b' '; 2_000_000].expect(&rt, "spaces");
    let fault: (u8, &[u8]) = (3, b"ppsim: read fault\n");
    for (size, piece, ending, left) in [
        (1_048_577, 1000, TOO_LONG, (0, 0)),
        (1_048_576, 1000, fault, (0, 1)),
        (2_000_000, usize::MAX, TOO_LONG, (951_423, 0)),
    ] {
        let text = spaces.get(..size).unwrap_or(&[]);
        assert!(rt; ends_on_text(&rt, (text, piece), ending, left), "{size}");
    }
}
