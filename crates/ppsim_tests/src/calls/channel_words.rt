//! Steps of channel words.

use pp_channel::{ChanOp, Event, Reply};
use pp_line::{WordStep, advance};
use test_bench::{EMPTY, FULL, INACTIVE, word};

/// 2^50 - 1 events, inactive.
const WORN_OUT: u64 = 18446744073709535232;

/// Whether each step of these, from the word before it, is as it has to be.
fn are_steps(steps: &[(u64, ChanOp, WordStep)]) -> bool {
    for (before, op, step) in steps {
        if advance(*before, *op) != *step {
            return false;
        }
    }
    true
}

#[test]
fn one_session_by_words(rt: HostRuntime) {
    let seven = word(0o7);
    let code = word(0o12);
    assert!(rt;
        are_steps(&[
            (
                0,
                ChanOp::Activate,
                WordStep::Next(24576, Reply::Done, Event::Activate)
            ),
            (
                24576,
                ChanOp::Put(seven),
                WordStep::Next(45063, Reply::Done, Event::Put(seven))
            ),
            (
                45063,
                ChanOp::Take,
                WordStep::Next(57344, Reply::Word(seven), Event::Take(seven))
            ),
            (
                45063,
                ChanOp::Disconnect,
                WordStep::Next(49152, Reply::Done, Event::Disconnect)
            ),
            (57344, ChanOp::Take, WordStep::Held(EMPTY)),
            (
                0,
                ChanOp::Function(code),
                WordStep::Next(16384, Reply::Done, Event::Function(code))
            ),
            (45063, ChanOp::Probe, WordStep::Look(FULL)),
        ])
    );
}

#[test]
fn worn_words(rt: HostRuntime) {
    let some = word(0o7777);
    let last = WordStep::Next(18446744073709543424, Reply::Done, Event::Activate);
    assert!(rt;
        are_steps(&[
            (WORN_OUT, ChanOp::Put(some), WordStep::Worn),
            (WORN_OUT, ChanOp::Take, WordStep::Worn),
            (WORN_OUT, ChanOp::Activate, WordStep::Worn),
            (WORN_OUT, ChanOp::Disconnect, WordStep::Worn),
            (WORN_OUT, ChanOp::Function(some), WordStep::Worn),
            (WORN_OUT, ChanOp::Probe, WordStep::Look(INACTIVE)),
            (18446744073709518848, ChanOp::Activate, last),
        ])
    );
}
