//! The system's own devices that fail or never end, as the program's streams.

use super::runs::ends;
use pp_sim::run_program;
use std::fs::{Files, OpenOptions};
use std::io;
use std::sync::Wait;
use std::thread::Threads;
use test_bench::{HANDOFF, Rationed, Sink, Source, WORDS_OF_A_RUN};

/// A file that may be written alone, or read alone.
fn opened<R: Files>(rt: &R, path: &str, is_written: bool) -> io::Result<R::File> {
    OpenOptions::new()
        .read(!is_written)
        .write(is_written)
        .open(rt, path)
}

/// Whether a run onto a file ends so.
fn ends_onto<R: AllocGlobal + Files + Threads + Wait + Sync>(
    rt: &R,
    path: &str,
    is_written: bool,
    (status, error): (u8, &[u8]),
) -> bool {
    let Ok(mut file) = opened(rt, path, is_written) else {
        return false;
    };
    ends(
        rt,
        &WORDS_OF_A_RUN,
        &mut Source::whole(HANDOFF),
        &mut file,
        status,
        error,
    )
}

/// Whether a run whose standard error is a full device has status 1 for its deck.
fn ends_untold<R: AllocGlobal + Files + Threads + Wait + Sync>(rt: &R) -> bool {
    let Ok(mut error) = opened(rt, "/dev/full", true) else {
        return false;
    };
    let heap = Rationed::new(rt.alloc());
    let (mut input, mut output) = (Source::whole("PP 12"), Sink::ample(rt.alloc()));
    let words = &WORDS_OF_A_RUN;
    run_program(rt, &heap, words, &mut input, &mut output, &mut error) == 1
        && output.taken().is_empty()
}

/// Whether a run on a file ends so, without an output.
fn ends_on<R: AllocGlobal + Files + Threads + Wait + Sync>(
    rt: &R,
    path: &str,
    is_written: bool,
    (status, error): (u8, &[u8]),
) -> bool {
    let Ok(mut file) = opened(rt, path, is_written) else {
        return false;
    };
    let mut output = Sink::ample(rt.alloc());
    ends(rt, &WORDS_OF_A_RUN, &mut file, &mut output, status, error) && output.taken().is_empty()
}

/// A path, whether it may be written alone or read alone, and the status and standard error.
type Device = (&'static str, bool, u8, &'static [u8]);

/// As an output a device that is full, a file that may be read alone, as a closed output may not be
/// written, and one that takes all.
const OUTPUTS: [Device; 3] = [
    ("/dev/full", true, 3, b"ppsim: write fault\n"),
    ("/dev/null", false, 3, b"ppsim: write fault\n"),
    ("/dev/null", true, 0, b""),
];

/// As an input a folder, a file that may be written alone, zeros without end, and nothing at all.
const INPUTS: [Device; 4] = [
    ("/", false, 3, b"ppsim: read fault\n"),
    ("/dev/null", true, 3, b"ppsim: read fault\n"),
    ("/dev/zero", false, 1, b"ppsim: deck fault 1 at line 0\n"),
    ("/dev/null", false, 0, b""),
];

/// The standard error may fail too.
#[test]
fn outputs_and_inputs(rt: HostRuntime) {
    for &(path, is_written, status, error) in &OUTPUTS {
        assert!(rt; ends_onto(&rt, path, is_written, (status, error)));
    }
    for &(path, is_written, status, error) in &INPUTS {
        assert!(rt; ends_on(&rt, path, is_written, (status, error)));
    }
    assert!(rt; ends_untold(&rt));
}

/// Whether a run with these words ends so, without an output, and reads nothing of the input.
fn ends_on_path<R: AllocGlobal + Files + Threads + Wait + Sync>(
    rt: &R,
    words: &[&str],
    status: u8,
    error: &[u8],
) -> bool {
    let mut input = Source::new(HANDOFF.as_bytes(), 1, None);
    let mut output = Sink::ample(rt.alloc());
    ends(rt, words, &mut input, &mut output, status, error)
        && output.taken().is_empty()
        && input.calls() == 0
}

/// Command lines with a path, and the status and standard error of each.
const PATHS: [(&[&str], u8, &[u8]); 4] = [
    (&["ppsim", "list", "/"], 3, b"ppsim: /: cannot be read\n"),
    (
        &["ppsim", "list", "/none/at all"],
        3,
        b"ppsim: /none/at all: cannot be read\n",
    ),
    (
        &["ppsim", "list", "/dev/zero"],
        1,
        b"ppsim: deck fault 1 at line 0\n",
    ),
    (&["ppsim", "barrel", "--turns", "40", "/dev/null"], 0, b""),
];

/// Folders, files that are not there, zeros without end, and nothing at all, by their paths.
#[test]
fn paths(rt: HostRuntime) {
    for &(words, status, error) in &PATHS {
        assert!(rt; ends_on_path(&rt, words, status, error), "{words:?}");
    }
}
