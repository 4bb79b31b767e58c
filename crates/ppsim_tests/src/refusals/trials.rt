//! Calls with each request refused in turn, up to one that no longer makes the request.

use super::barrel::LOADER;
use super::machine::{FLAPPING, Task};
use super::threads::FAR;
use super::{channel, deck, lines, locked, machine, text, threads};
use pp_channel::ChannelNo;
use pp_machine::Profile;
use pp_machine::Profile::{Ten, Twenty};
use pp_runner::NoGate;
use std::alloc::Global;
use std::fs::Files;
use std::process::Abort;
use std::sync::Wait;
use std::thread::Threads;
use test_bench::{BLOCK, HANDOFF, Rationed};

/// A call of which a request may be refused.
enum Trial {
    /// Operations of a channel.
    Channel,
    /// The same behind a lock.
    Locked,
    /// The opening, the join and the close of lines.
    Open,
    Join,
    Close,
    /// Central memory behind locks.
    Central,
    /// The dead start of a machine.
    DeadStart(Profile),
    /// A deck, and how many channels it opens.
    Deck(Profile, &'static str, u64),
    /// What the machine of a deck does.
    Machine(Profile, &'static str, Task),
    /// The run of a deck by threads, and a channel that it uses.
    Threads(Profile, &'static str, u8),
    /// The text of such a run.
    Text(Profile),
}

/// Calls, and more requests than these are made by each: a history, a log, a list of turns, a
/// channel that is open and a bank of central memory each grow.
const TRIALS: [(Trial, u64); 30] = [
    (Trial::Channel, 2),
    (Trial::Locked, 2),
    (Trial::Open, 1),
    (Trial::Join, 1),
    (Trial::Close, 1),
    (Trial::Central, 32),
    (Trial::DeadStart(Ten), 9),
    (Trial::DeadStart(Twenty), 19),
    (Trial::Deck(Ten, deck::DECK, 0), 1),
    (Trial::Deck(Twenty, deck::DECK, 0), 1),
    (Trial::Deck(Ten, deck::DEAD_START, 9), 9),
    (Trial::Deck(Twenty, deck::DEAD_START, 19), 19),
    (Trial::Machine(Ten, HANDOFF, Task::Steps), 2),
    (Trial::Machine(Ten, HANDOFF, Task::Turns), 2),
    (Trial::Machine(Ten, FLAPPING, Task::Flaps), 6),
    (Trial::Machine(Twenty, HANDOFF, Task::Steps), 2),
    (Trial::Machine(Twenty, HANDOFF, Task::Turns), 2),
    (Trial::Machine(Twenty, FLAPPING, Task::Flaps), 6),
    (Trial::Machine(Ten, HANDOFF, Task::Barrel(40)), 2),
    (Trial::Machine(Twenty, HANDOFF, Task::Barrel(80)), 2),
    (Trial::Machine(Ten, FLAPPING, Task::Barrel(1405)), 8),
    (Trial::Machine(Twenty, FLAPPING, Task::Barrel(2805)), 8),
    (Trial::Machine(Ten, LOADER, Task::Barrel(90)), 2),
    (Trial::Machine(Twenty, LOADER, Task::Barrel(180)), 2),
    (Trial::Threads(Ten, BLOCK, 5), 15),
    (Trial::Threads(Ten, threads::DEAD_START, 1), 15),
    (Trial::Threads(Twenty, FAR, 0o33), 15),
    (Trial::Threads(Twenty, threads::DEAD_START, 1), 15),
    (Trial::Text(Ten), 0),
    (Trial::Text(Twenty), 0),
];

/// What is said of the call by the function for it, with this request refused.
fn attempt<R: AllocGlobal + Abort + Files + Threads + Wait + Sync>(
    rt: &R,
    heap: &Rationed<Global>,
    trial: &Trial,
    number: u64,
) -> Option<bool> {
    match trial {
        Trial::Channel => channel::operations_refused(heap),
        Trial::Locked => locked::operations_refused(rt, heap, heap),
        Trial::Open => lines::open(heap),
        Trial::Join => lines::join(rt, heap, heap, number),
        Trial::Close => lines::close(rt, heap, number),
        Trial::Central => threads::lock(rt, heap, heap, number),
        Trial::DeadStart(profile) => machine::dead_start_refused(rt, heap, *profile, number),
        Trial::Deck(profile, deck, opened) => deck::load(heap, *profile, deck, *opened),
        Trial::Machine(profile, deck, task) => {
            machine::refused(rt, heap, *profile, deck, *task, number)
        }
        Trial::Threads(profile, deck, place) => {
            let channel = ChannelNo::new(*place)?;
            threads::run_deck(rt, &NoGate, heap, *profile, deck, channel)
        }
        Trial::Text(profile) => text::with_little(rt, heap, *profile),
    }
}

/// Whether a call makes more requests than this many, and ends as it should with each refused.
fn is_sound<R: AllocGlobal + Abort + Files + Threads + Wait + Sync>(
    rt: &R,
    heap: &Rationed<Global>,
    trial: &Trial,
    least: u64,
) -> bool {
    heap.refuse_each(|number| attempt(rt, heap, trial, number)) > Some(least)
}

#[test]
fn each_request_refused(rt: HostRuntime) {
    let heap = Rationed::new(rt.alloc());
    for (place, (trial, least)) in TRIALS.iter().enumerate() {
        assert!(rt; is_sound(&rt, &heap, trial, *least), "trial {place}");
    }
}
