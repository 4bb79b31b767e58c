//! Ten processors that pass words round a ring, each in a thread of its own.

use crate::threads::runs::run_deck;
use pp_machine::Profile;
use pp_runner::{End, NoGate, Report};
use std::alloc::Global;
use test_bench::is_lawful;

/// Each processor activates the channel of its own number. Then again and again it puts a word on
/// the next channel, takes one from its own and adds one to it.
const RING: &str = "\
PP 0
0100 7400 7201 7000 1601 0374
START 0100
PP 1
0100 7401 7202 7001 1601 0374
START 0100
PP 2
0100 7402 7203 7002 1601 0374
START 0100
PP 3
0100 7403 7204 7003 1601 0374
START 0100
PP 4
0100 7404 7205 7004 1601 0374
START 0100
PP 5
0100 7405 7206 7005 1601 0374
START 0100
PP 6
0100 7406 7207 7006 1601 0374
START 0100
PP 7
0100 7407 7210 7007 1601 0374
START 0100
PP 10
0100 7410 7211 7010 1601 0374
START 0100
PP 11
0100 7411 7200 7011 1601 0374
START 0100
";

/// Whether ten workers ended by their limits, each after its first step, which is never held, and
/// each channel of the ring has events, and a lawful history.
fn has_gone_round(report: &Report<Global>) -> bool {
    for worker in &report.ends {
        let is_ended = matches!(worker.finish, End::Steps | End::Patience);
        if !is_ended || worker.answers.is_empty() {
            return false;
        }
    }
    for channel in report.channels.iter().take(10) {
        if channel.history().is_empty() || !is_lawful(channel.history()) {
            return false;
        }
    }
    report.ends.len() == 10
}

/// A processor whose neighbour has made all its steps waits in vain.
#[test]
fn ring_of_ten(rt: HostRuntime) {
    let limits = (100_000, 1_000_000);
    assert!(rt; has_gone_round(&run_deck(&rt, &NoGate, limits, Profile::Ten, RING)));
}
