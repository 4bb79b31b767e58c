//! Runs with one thread per processor whose growths are refused.

ghost use Rattle.pp_runner.specs.Report.{ReportFitsInMemory};

use crate::refusals::machine::is_same;
use pp_channel::ChannelNo;
use pp_deck::read_deck;
use pp_machine::{Central, Machine, Profile};
use pp_runner::{End, Gate, Limits, LockedCentral, NoGate, Report, run_threads};
use std::alloc::{Allocator, Global};
use std::process::Abort;
use std::sync::Wait;
use std::thread::Threads;
use test_bench::{Rationed, first};

/// How many workers of a report ended for lack of memory; nothing if the processor of one is not
/// that of its load after its answers.
fn out_of_memory<A: Allocator>(machine: &Machine<A>, report: &Report<A>) -> Option<usize> {
    let mut count = 0usize;
    let mut n = first();
    for worker in report.ends.as_slice() {
        let mut pp = machine.pp(n).copy();
        let given = pp.replay(worker.answers.as_slice());
        if given != worker.answers.len() || !is_same(&pp, &worker.pp) {
            return None;
        }
        if worker.finish == End::Memory {
            count = count.saturating_add(1);
        }
        n = n.next();
    }
    Some(count)
}

/// Nothing if some workers of a run ended for lack of memory; else whether a channel has events.
fn has_events<A: Allocator>(
    machine: &Machine<A>,
    report: &Report<A>,
    channel: ChannelNo,
) -> Option<bool> {
    match out_of_memory(machine, report) {
        Some(0) => Some(!report.channels[channel.index()].history().is_empty()),
        Some(_) => None,
        None => Some(false),
    }
}

/// PP 0 sends one word to each of two processors that wait at dead start, and disconnects them.
pub(crate) const DEAD_START: &str = "\
DEAD
PP 0
0100 1401 7301 0200 6601 0103 7501 1401 7302 0200 6602 0111 7502 0300
START 0100
PP 3
PP 4
PP 5
PP 6
PP 7
PP 10
PP 11
";

/// One of the further processors sends a block of four words to another, over the last channel.
pub(crate) const FAR: &str = "\
PP 20
0100 7433 1404 7333 0200 0300
0200 0011 0022 0033 0044
START 0100
PP 31
0100 7033 3460 1403 7133 0200 7533 0300
START 0100
";

/// Runs a machine without events so far. Nothing if the run is refused memory, or some of the
/// workers are, for which those that wait for them give up; else whether a channel has events.
fn run_machine<R: Threads + Wait + Sync, G: Gate + Sync, A: Allocator + Copy + Send + Sync>(
    rt: &R,
    gate: &G,
    alloc: A,
    machine: &Machine<A>,
    channel: ChannelNo,
) -> Option<bool>
    requires { ReportFitsInMemory A.row A.Allocator }
{
    if !machine.events().is_empty() {
        return None;
    }
    let limits = Limits::new(100, 1000)?;
    match run_threads(rt, alloc, machine, limits, gate) {
        Ok(report) => has_events(machine, &report, channel),
        Err(_) => None,
    }
}

/// The same of the machine of a deck, and nothing if the load is refused memory.
pub(crate) fn run_deck<R: Threads + Wait + Sync, G: Gate + Sync, A: Allocator + Copy + Send + Sync>(
    rt: &R,
    gate: &G,
    alloc: A,
    profile: Profile,
    text: &str,
    channel: ChannelNo,
) -> Option<bool>
    requires { ReportFitsInMemory A.row A.Allocator }
{
    match read_deck(alloc, profile, text.as_bytes()) {
        Ok(deck) => run_machine(rt, gate, alloc, &deck.machine, channel),
        Err(_) => None,
    }
}

/// Nothing if this request of central memory behind locks is refused; else whether it has its size.
pub(crate) fn lock<A: Allocator + Copy>(
    rt: &impl Abort,
    heap: &Rationed<Global>,
    alloc: A,
    number: u64,
) -> Option<bool> {
    heap.refuse(0);
    let central = Central::new(alloc, 0o41).expect(rt, "words");
    heap.refuse(number);
    match LockedCentral::new(alloc, &central) {
        Ok(locked) => Some(locked.size() == 0o41),
        Err(_) => None,
    }
}

#[test]
fn limits(rt: HostRuntime) {
    let limits = Limits::new(5, 6).expect(&rt, "limits");
    NoGate.pass(first(), 0);
    assert!(rt; limits.steps() == 5 && limits.patience() == 6);
}
