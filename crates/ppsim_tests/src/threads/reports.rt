//! What the reports of runs hold that their texts do not show.

use crate::threads::runs::{LONG, is_taken, passed, run_deck};
use pp_machine::Profile;
use pp_runner::{End, NoGate, Report};
use std::alloc::Global;
use test_bench::word;

/// Processor 0 takes a block of words; processor 1 puts two, and disconnects the channel.
const DISCONNECT_RACE: &str = "\
PP 0
0100 7405 2000 0100 7105 0300 0300
0301 7777
START 0100
PP 1
0200 1401 7205 1402 7205 7505 0300
START 0200
";

/// Whether both processors stopped, and A and the words in the block of processor 0 are those of a
/// history in which the second word was taken, or lost.
fn is_raced(report: &Report<Global>) -> bool {
    let [zero, one, ..] = report.ends.as_slice() else {
        return false;
    };
    let (a, second) = match is_taken(passed(report, 5, &[1]), 2) {
        Some(true) => (0o76, 2),
        Some(false) => (0o77, 0),
        None => return false,
    };
    [zero.pp.get(word(0o300)), zero.pp.get(word(0o301))] == [word(1), word(second)]
        && zero.pp.a().get() == a
        && [zero.finish, one.finish] == [End::Stopped, End::Stopped]
}

/// The second word is in the memory of the processor that took it, or the zero that ends a block.
#[test]
fn a_block_against_a_disconnect(rt: HostRuntime) {
    for profile in [Profile::Ten, Profile::Twenty] {
        assert!(rt; is_raced(&run_deck(&rt, &NoGate, LONG, profile, DISCONNECT_RACE)));
    }
}

/// Whether processor 0 gave as many answers as steps are allowed.
fn is_at_limit(report: &Report<Global>) -> bool {
    match report.ends.first() {
        Some(zero) => zero.answers.len() == 100 && zero.finish == End::Steps,
        None => false,
    }
}

/// A jump that is taken for ever.
#[test]
fn a_step_limit(rt: HostRuntime) {
    let jump = "PP 0\n0100 0400\nSTART 0100\n";
    for profile in [Profile::Ten, Profile::Twenty] {
        assert!(rt; is_at_limit(&run_deck(&rt, &NoGate, LONG, profile, jump)));
    }
}
