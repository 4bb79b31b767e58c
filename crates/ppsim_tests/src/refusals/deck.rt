//! A deck whose growths are refused.

use crate::refusals::refusal::unless_refused;
use pp_channel::ChannelNo;
use pp_deck::{Deck, DeckCode, DeckFault, read_deck};
use pp_machine::{Machine, Profile};
use pp_word::{Word18, Word60};
use std::alloc::{Allocator, Global};
use test_bench::{Rationed, first, word};

pub(crate) const DECK: &str =
    "CENTRAL 7\nCM 5 00010002000300040005\nPP 1\n0200 7005 0300\nSTART 0200\n";

/// Whether this is the deck, by what it loads and names.
fn is_loaded<A: Allocator>(deck: &Deck<A>) -> bool {
    let one = deck.machine.pp(first().next());
    let central = deck.machine.central();
    let words = Word60::truncated(0o0001_0002_0003_0004_0005);
    (central.size(), central.read(Word18::truncated(5))) == (7, Some(words))
        && [one.get(word(0o201)), one.p()] == [word(0o300), word(0o200)]
        && deck.named[1]
}

/// A deck that is refused for lack of memory.
const NO_MEMORY: DeckFault = DeckFault {
    line: 0,
    code: DeckCode::Memory,
};

/// PP 0 has a program, and the nine others, or nineteen, wait for theirs.
pub(crate) const DEAD_START: &str =
    "DEAD\nPP 0\n0100 1403 7301 0200 6601 0103 7501 0300\n0200 0000 1405 0300\nSTART 0100\n";

/// How many channels dead start opened.
fn opened_in<A: Allocator>(machine: &Machine<A>) -> u64 {
    let mut opened = 0u64;
    for number in 0..0o100u8 {
        if let Some(channel) = ChannelNo::new(number) {
            opened = opened.saturating_add(u64::from(machine.opened(channel)));
        }
    }
    opened
}

/// Whether the deck opens `opened` channels. PP 0 is named, and alone in no block.
fn is_dead_started<A: Allocator>(deck: &Deck<A>, opened: u64) -> bool {
    opened_in(&deck.machine) == opened
        && deck.named[0]
        && !deck.named[1]
        && deck.machine.pp(first()).block().is_none()
        && deck.machine.pp(first().next()).block().is_some()
}

/// Nothing if one of both decks is refused for lack of memory; else whether it is loaded, `DECK` if
/// no channel is to be open.
pub(crate) fn load<A: Allocator + Copy>(
    alloc: A,
    profile: Profile,
    text: &str,
    opened: u64,
) -> Option<bool> {
    match read_deck(alloc, profile, text.as_bytes()) {
        Ok(deck) => Some(if opened == 0 {
            is_loaded(&deck)
        } else {
            is_dead_started(&deck, opened)
        }),
        Err(fault) => unless_refused(fault == NO_MEMORY, true),
    }
}

/// Decks with their faults, or none: if a request is refused, Memory at line 0 takes their place.
const DECKS: [(&str, Option<(u32, DeckCode)>); 9] = [
    ("", None),
    ("PP 12", Some((1, DeckCode::BadProcessor))),
    ("0100 0001", Some((1, DeckCode::NoProcessor))),
    ("PP 0\n0100 0109", Some((2, DeckCode::BadDigits))),
    ("PP 0\n7776 0001 0002", None),
    ("PP 0\n7776 0001 0002 0003", Some((2, DeckCode::PastEnd))),
    ("CENTRAL 400001", Some((1, DeckCode::CentralRange))),
    ("CENTRAL 10\nCM 7 1 2", Some((2, DeckCode::CentralRange))),
    ("PP", Some((1, DeckCode::UnknownLine))),
];

/// The fault of a text when this request is refused, as its line and code.
fn code_of(heap: &Rationed<Global>, text: &[u8], number: u64) -> Option<(u32, DeckCode)> {
    heap.refuse(number);
    let fault = read_deck(heap, Profile::Ten, text).err()?;
    Some((fault.line, fault.code))
}

/// How many of the first requests of a text are refused; nothing if it has another fault.
fn refusals(heap: &Rationed<Global>, text: &[u8], fault: Option<(u32, DeckCode)>) -> Option<u32> {
    let mut refusals = 0u32;
    for number in 1..10u64 {
        let told = code_of(heap, text, number);
        let refused = heap.has_refused();
        let expected = if refused {
            Some((0, DeckCode::Memory))
        } else {
            fault
        };
        if told != expected {
            return None;
        }
        refusals = refusals.saturating_add(u32::from(refused));
    }
    Some(refusals)
}

#[test]
fn faulty_decks_refused(rt: HostRuntime) {
    let heap = Rationed::new(rt.alloc());
    for (text, fault) in DECKS {
        let refusals = refusals(&heap, text.as_bytes(), fault);
        assert!(rt; refusals > Some(0), "{text}");
    }
}

#[test]
fn texts_that_ask_for_nothing(rt: HostRuntime) {
    let long = vec![in rt.alloc(); b' '; 1_048_577].expect(&rt, "a text");
    let heap = Rationed::new(rt.alloc());
    for (text, fault) in [
        (long.as_slice(), (0, DeckCode::TooLong)),
        (b"PP 12\n\x80".as_slice(), (2, DeckCode::NotAscii)),
    ] {
        assert!(rt; code_of(&heap, text, 1) == Some(fault) && heap.asked() == 0);
    }
}
