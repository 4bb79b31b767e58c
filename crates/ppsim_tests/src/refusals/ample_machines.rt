//! Central memories of every kind of size, and late events, over an allocator that counts the
//! requests and refuses none: so none may be out of memory. And the numbers of the faults.

use crate::loaded::loaded;
use pp_machine::{Central, Machine, Profile};
use pp_word::{Word18, Word60};
use std::alloc::{Allocator, Global};
use std::process::Abort;
use test_bench::{Rationed, first};

/// Whether the last word of a central memory holds what is put there, and none comes after it.
fn holds_its_last_word<A: Allocator>(central: &mut Central<A>, size: u32) -> bool {
    let (last, behind) = (
        Word18::truncated(size.wrapping_sub(1)),
        Word18::truncated(size),
    );
    let word = Word60::truncated(u64::from(size));
    let are_taken = (central.write(last, word), central.write(behind, word));
    let held = (central.read(last), central.read(behind));
    central.size() == size && are_taken == (true, false) && held == (Some(word), None)
}

/// The size of the central memory of a new machine.
fn size_of<A: Allocator + Copy>(rt: &impl Abort, alloc: A, profile: Profile, size: u32) -> u32 {
    let machine = Machine::new(alloc, profile, size).expect(rt, "a machine");
    machine.central().size()
}

/// Whether a central memory of this size is made, and holds its last word without a request.
fn is_made<A: Allocator + Copy>(
    rt: &impl Abort,
    heap: &Rationed<Global>,
    alloc: A,
    size: u32,
) -> bool {
    heap.refuse(0);
    let mut central = Central::new(alloc, size).expect(rt, "words");
    let is_asked = heap.asked() > 0;
    heap.refuse(1);
    let is_held = holds_its_last_word(&mut central, size);
    let is_asked_again = heap.asked() > 0;
    heap.refuse(0);
    is_held && is_asked && !is_asked_again
}

#[test]
fn sizes(rt: HostRuntime) {
    let heap = Rationed::new(rt.alloc());
    for size in [
        1, 2, 0o41, 0o7777, 0o10000, 0o10001, 0o12345, 12_345, 0o400_000,
    ] {
        assert!(rt;
            is_made(&rt, &heap, &heap, size)
                && size_of(&rt, &heap, Profile::Ten, size) == size
                && size_of(&rt, &heap, Profile::Twenty, size) == size
                && heap.asked() > 0,
            "{size}"
        );
    }
}

/// The number of the fault when a central memory of this size is asked for, and this request is
/// refused.
fn fault_number(heap: &Rationed<Global>, size: u32, number: u64) -> Option<u8> {
    heap.refuse(number);
    match Central::new(heap, size) {
        Ok(_) => None,
        Err(fault) => Some(fault as u8),
    }
}

#[test]
fn numbers_of_faults(rt: HostRuntime) {
    let heap = Rationed::new(rt.alloc());
    for (size, number, fault) in [
        (0o41, 0, None),
        (0o41, 1, Some(1)),
        (0, 0, Some(2)),
        (0o400_001, 0, Some(2)),
    ] {
        assert!(rt; fault_number(&heap, size, number) == fault);
    }
}

/// PP 0 counts down from 177777 (octal), and then makes a function code on channel 3 and stops.
const LATE: &str = "PP 0\n0100 2017 7777 1701 0576 7603 0300\nSTART 0100\n";

/// Whether the first event of `turns` turns comes in turn `late`, and PP 0 is past it then.
fn is_late<A: Allocator>(machine: &mut Machine<A>, turns: u32, late: u64) -> bool {
    let is_run = machine.run_barrel(turns).is_ok();
    match machine.events().first() {
        Some(entry) => is_run && entry.turn == late && machine.pp(first()).p().get() == 0o105,
        None => false,
    }
}

/// The same of a new machine.
fn has_late_event<A: Allocator + Copy>(
    rt: &impl Abort,
    alloc: A,
    (profile, turns, late): (Profile, u32, u64),
) -> bool {
    let mut machine = loaded(rt, alloc, profile, LATE);
    is_late(&mut machine, turns, late)
}

#[test]
fn a_late_event(rt: HostRuntime) {
    let heap = Rationed::new(rt.alloc());
    // One step loads A, and two go with each number from 177777 down to 1 (octal).
    let late = 1 + 2 * 65_535;
    for run in [
        (Profile::Ten, 1_400_000, 10 * late),
        (Profile::Twenty, 2_800_000, 20 * late),
    ] {
        assert!(rt; has_late_event(&rt, &heap, run) && heap.asked() > 0);
    }
}
