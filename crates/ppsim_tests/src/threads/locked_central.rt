//! Central memory by calls, alone and behind its locks.

use pp_machine::Central;
use pp_runner::LockedCentral;
use pp_word::{Word18, Word60};
use std::alloc::{Allocator, Global};
use std::process::Abort;
use std::sync::Wait;
use test_bench::Rationed;

/// Whether central memory of 33 words, the last but one of them loaded, keeps it and a word after
/// it, and none after its last, without a request.
fn keeps_words<A: Allocator>(
    rt: &impl Wait,
    heap: &Rationed<Global>,
    shared: &LockedCentral<A>,
    loaded: Word60,
) -> bool {
    let (last, behind) = (Word18::truncated(0o40), Word18::truncated(0o41));
    let written = Word60::truncated(0o4321);
    heap.refuse(1);
    let is_taken = shared.write(rt, last, written) && !shared.write(rt, behind, loaded);
    let held = [
        shared.read(rt, Word18::ZERO),
        shared.read(rt, Word18::truncated(0o37)),
        shared.read(rt, last),
        shared.read(rt, behind),
    ];
    is_taken
        && held == [Some(Word60::ZERO), Some(loaded), Some(written), None]
        && shared.size() == 33
        && heap.asked() == 0
}

/// Central memory of 33 words behind locks, the last but one of them loaded.
fn with_word<A: Allocator + Copy>(rt: &impl Abort, alloc: A, loaded: Word60) -> LockedCentral<A> {
    let mut central = Central::new(alloc, 0o41).expect(rt, "words");
    assert!(rt; central.write(Word18::truncated(0o37), loaded));
    LockedCentral::new(alloc, &central).expect(rt, "words behind locks")
}

#[test]
fn central_by_calls(rt: HostRuntime) {
    let loaded = Word60::truncated(0o1234);
    let heap = Rationed::new(rt.alloc());
    let shared = with_word(&rt, &heap, loaded);
    assert!(rt; keeps_words(&rt, &heap, &shared, loaded));
}

/// Sizes of central memory: the least, 512 words, some more, and the greatest.
const SIZES: [u32; 4] = [1, 0o1000, 0o2041, 0o400_000];

/// Another number for each address, and for each of two rounds.
fn number(address: u32, round: u8) -> Word60 {
    Word60::truncated(u64::from(address) * 4 + u64::from(round))
}

/// Central memory of this size behind locks, each word the number of its address in round 1.
fn numbered<R: AllocGlobal + Abort>(rt: &R, size: u32) -> LockedCentral<Global> {
    let mut central = Central::new(rt.alloc(), size).expect(rt, "words");
    for address in 0..size {
        central.write(Word18::truncated(address), number(address, 1));
    }
    LockedCentral::new(rt.alloc(), &central).expect(rt, "words behind locks")
}

/// Whether each address below the size gives its number of this round, and no address from there on
/// gives any.
fn gives_numbers(rt: &impl Wait, shared: &LockedCentral<Global>, size: u32, round: u8) -> bool {
    for address in 0..0o1_000_000 {
        let wanted = if address < size {
            Some(number(address, round))
        } else {
            None
        };
        if shared.read(rt, Word18::truncated(address)) != wanted {
            return false;
        }
    }
    true
}

/// Writes at each address its number of this round; whether exactly those below the size took it.
fn takes_numbers(rt: &impl Wait, shared: &LockedCentral<Global>, size: u32, round: u8) -> bool {
    for address in 0..0o1_000_000 {
        let word = number(address, round);
        if shared.write(rt, Word18::truncated(address), word) != (address < size) {
            return false;
        }
    }
    true
}

/// Whether words stay as loaded, can all be written, and stay as written.
fn keeps_all_words(rt: &impl Wait, shared: &LockedCentral<Global>, size: u32) -> bool {
    gives_numbers(rt, shared, size, 1)
        && takes_numbers(rt, shared, size, 2)
        && gives_numbers(rt, shared, size, 2)
}

#[test]
fn each_address_has_a_word_of_its_own(rt: HostRuntime) {
    for size in SIZES {
        assert!(rt;
            keeps_all_words(&rt, &numbered(&rt, size), size),
            "{size} words"
        );
    }
}
