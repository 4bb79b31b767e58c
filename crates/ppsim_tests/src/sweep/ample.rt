//! Long runs and decks of odd sizes over an allocator that counts the requests and refuses none: so
//! none may be out of memory.

use super::runs::{Ended, ending};
use pp_machine::Profile;
use pp_sim::{barrel_text, read_deck};
use std::alloc::{AllocError, Global};
use std::fs::Files;
use std::sync::Wait;
use std::thread::Threads;
use test_bench::{BLOCK, HANDOFF, HANDOFF_ON_TWENTY, HANDOFF_TEXT, Rationed};

/// Whether a run ended well, and with this text after so many other bytes.
fn has_text(ended: &Ended, before: usize, text: &str) -> bool {
    let output = ended.output.taken();
    ended.status == 0
        && output.ends_with(text.as_bytes())
        && output.len() == before.saturating_add(text.len())
}

/// How many requests for memory a run with one thread per processor makes, as long as allowed, if
/// it has this text after so many other bytes. Lines, logs, answers and text grow.
pub(crate) fn requests_by_threads<R: AllocGlobal + Files + Threads + Wait + Sync>(
    rt: &R,
    processors: &str,
    deck: &str,
    (before, text): (usize, &str),
) -> Option<u64> {
    let words = [
        "ppsim",
        "threads",
        "--steps",
        "100000",
        "--patience",
        "4294967295",
        "--processors",
        processors,
    ];
    let heap = Rationed::new(rt.alloc());
    let ended = ending(rt, &heap, (&words, deck));
    has_text(&ended, before, text).then_some(heap.asked())
}

/// The text of the deck `BLOCK` in every schedule, worked by hand.
const BLOCK_TEXT: &str = "\
CH05 000000 PP00 ACN
CH05 000001 PP00 PUT 0011
CH05 000002 PP01 TAK 0011
CH05 000003 PP00 PUT 0022
CH05 000004 PP01 TAK 0022
CH05 000005 PP00 PUT 0033
CH05 000006 PP01 TAK 0033
CH05 000007 PP00 PUT 0044
CH05 000008 PP01 TAK 0044
CH05 000009 PP01 DCN
PP00 P=0104 A=000000 STOPPED
PP01 P=0106 A=000000 STOPPED
CH05 INACTIVE
";

#[test]
fn largest_central_memory_by_threads(rt: HostRuntime) {
    let deck = format!(in rt.alloc(); "CENTRAL 400000\n{BLOCK}").expect(&rt, "a deck");
    for processors in ["10", "20"] {
        assert!(rt; requests_by_threads(&rt, processors, &deck, (0, BLOCK_TEXT)) > Some(40));
    }
}

/// PP 0 and PP 1 make function codes on channel 5 as fast as they can, 63 of them and a jump back.
/// The channel is inactive, so neither waits for the other, and the number of events is the same in
/// every schedule.
fn deck_of_functions(alloc: Global) -> Result<String, AllocError> {
    let codes = " 7605".repeat(alloc, 63)?;
    let program = format!(in alloc; "0100{codes} 0100 0100\nSTART 0100\n")?;
    format!(in alloc; "PP 0\n{program}PP 1\n{program}")
}

/// Both have made 1,562 rounds of 64 steps and 32 steps more (decimal).
const ENDS: &str = "\
PP00 P=0140 A=000000 STEPS
PP01 P=0140 A=000000 STEPS
CH05 INACTIVE
";

/// A line of 26 bytes for each event.
#[test]
fn many_events_by_threads(rt: HostRuntime) {
    let events = 2 * (1562 * 63 + 32);
    let deck = deck_of_functions(rt.alloc()).expect(&rt, "a deck");
    assert!(rt; requests_by_threads(&rt, "10", &deck, (events * 26, ENDS)).is_some());
}

/// Whether a run of one turn more than the program takes has this text, and asks for memory more
/// than five times: bytes, fields, processors, events and text grow.
fn ends_after_a_million(alloc: Global, profile: Profile, text: &str) -> bool {
    let heap = Rationed::new(alloc);
    let mut reader = HANDOFF.as_bytes();
    let mut writer = Vec::new(alloc);
    barrel_text(&heap, profile, &mut reader, &mut writer, 1_000_001).is_ok()
        && writer.as_slice() == text.as_bytes()
        && heap.asked() > 5
}

#[test]
fn a_million_and_one_turns(rt: HostRuntime) {
    for (profile, text) in [
        (Profile::Ten, HANDOFF_TEXT),
        (Profile::Twenty, HANDOFF_ON_TWENTY),
    ] {
        assert!(rt; ends_after_a_million(rt.alloc(), profile, text));
    }
}

/// Whether a text is a deck with a central memory of this size.
fn has_central(heap: &Rationed<Global>, text: &[u8], size: u32) -> bool {
    match read_deck(heap, Profile::Ten, text) {
        Ok(deck) => deck.machine.central().size() == size,
        Err(_) => false,
    }
}

/// Whether each front of a text is a deck.
fn are_decks(heap: &Rationed<Global>, text: &[u8]) -> bool {
    for size in 0..=text.len() {
        if !has_central(heap, text.get(..size).unwrap_or(&[]), 0o10000) {
            return false;
        }
    }
    true
}

/// A comment of each length up to 2,000 bytes is a deck, and for each a machine grows.
#[test]
fn decks_of_each_size(rt: HostRuntime) {
    let heap = Rationed::new(rt.alloc());
    assert!(rt; are_decks(&heap, &[b'*'; 2000]) && heap.asked() > 2000);
}
