//! The cases that are swept: one a command at least. A new command is swept by one line more.

use test_bench::{HANDOFF, LOST_AND_WAITING};

/// A command line, what it reads, and at least how many requests of it can be refused. Of a run by
/// threads none is refused here, since it may end well without it.
pub(crate) type Case = (&'static [&'static str], &'static str, u64);

/// Command lines that are done, or whose deck or trace is refused. In a call, since each place that
/// names a constant has all of it proved anew.
pub(crate) fn cases() -> &'static [Case] {
    &CASES
}

const CASES: [Case; 29] = [
    (&["ppsim", "barrel", "--turns", "40"], HANDOFF, 5),
    (
        &["ppsim", "barrel", "--turns", "80", "--processors", "20"],
        HANDOFF,
        5,
    ),
    (&["ppsim", "list"], CENTRAL_AND_WAITING, 5),
    (&["ppsim", "dump", "--turns", "20"], LOOP, 4),
    (&["ppsim", "dump", "--turns", "21"], LOOP, 5),
    (
        &["ppsim", "steps", "--turns", "40", "--pp", "1"],
        HANDOFF,
        6,
    ),
    (&["ppsim", "state", "--turns", "40"], HANDOFF, 5),
    (
        &["ppsim", "state", "--turns", "40", "--order", "0:3,1"],
        HANDOFF,
        5,
    ),
    (
        &["ppsim", "barrel", "--turns", "40", "--until", "CH05 PUT"],
        HANDOFF,
        6,
    ),
    (&["ppsim", "ends", "--turns", "40"], HANDOFF, 5),
    (
        &["ppsim", "memory", "--turns", "40", "--pp", "1"],
        HANDOFF,
        4,
    ),
    (
        &["ppsim", "central", "--turns", "20"],
        CENTRAL_AND_WAITING,
        3,
    ),
    (
        &["ppsim", "sessions", "--turns", "100"],
        LOST_AND_WAITING,
        4,
    ),
    (&["ppsim", "races", "--turns", "40"], HANDOFF, 5),
    (&["ppsim", "orders", "--states", "100"], HANDOFF, 5),
    (&["ppsim", "races", "--turns", "100"], LOST_AND_WAITING, 5),
    (&["ppsim", "draw", "--turns", "30"], LOST_AND_WAITING, 4),
    (&["ppsim", "lint"], HANDOFF, 2),
    (&["ppsim", "lint"], TRACE, 2),
    (&["ppsim", "test", "--turns", "40"], EXPECTED, 6),
    (
        &[
            "ppsim", "test", "--turns", "40", "--order", "0:3,1", "--until", "LOST",
        ],
        EXPECTED,
        7,
    ),
    (
        &["ppsim", "test", "--every-order", "--states", "100"],
        EXPECTED,
        9,
    ),
    (&["ppsim", "check"], TRACE, 1),
    (&["ppsim", "check", "--opened", "5"], TRACE, 1),
    (&["ppsim", "dump", "--turns", "40"], HANDOFF, 5),
    (&["ppsim", "barrel", "--turns", "40"], "PP 12", 2),
    (
        &["ppsim", "barrel", "--turns", "40", "--processors", "20"],
        "PP 32",
        2,
    ),
    (
        &[
            "ppsim",
            "threads",
            "--steps",
            "100",
            "--patience",
            "4294967295",
        ],
        HANDOFF,
        0,
    ),
    (
        &[
            "ppsim",
            "threads",
            "--steps",
            "5",
            "--patience",
            "4294967295",
            "--processors",
            "20",
        ],
        HANDOFF,
        0,
    ),
];

/// Command lines that are answered before anything is read, with their status.
pub(crate) const AT_ONCE: [(&[&str], u8); 6] = [
    (&["ppsim", "--help"], 0),
    (&["ppsim", "threads", "-h"], 0),
    (&["ppsim", "--version"], 0),
    (&["ppsim", "barrel"], 2),
    (&["ppsim", "barrel", "--turns", "1000000"], 2),
    (&["ppsim", "draw", "--turns", "2001"], 2),
];

/// Central memory, and processors that wait at dead start.
const CENTRAL_AND_WAITING: &str = "\
CM 7 70
DEAD
PP 0
0100 1405 7301 0200
START 0100
";

/// A deck that expects what its run comes to, and what it does not.
const EXPECTED: &str = "\
PP 0
0100 1405 3450 0300
START 0100
*= PP 0 0050 0005
*! AT REST
";

/// A trace that is lawful only if its channel was not open before.
const TRACE: &str = "000000 PP00 CH05 ACN\n";

/// A processor that goes on after the run.
const LOOP: &str = "\
CM 7 70
PP 0
0100 1407 0376
START 0100
";
