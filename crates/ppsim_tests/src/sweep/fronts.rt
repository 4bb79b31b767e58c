//! Each part of a deck from its beginning, up to 2,000 bytes (decimal), over an allocator that
//! counts the requests and refuses none: so none may be out of memory.

use pp_machine::Profile;
use pp_sim::{DeckCode, DeckFault, TextFault, barrel_text, read_deck};
use std::alloc::{AllocError, Global};
use test_bench::Rationed;

/// How the deck begins, and what it then repeats.
const FIRST: &str = "CENTRAL 12345\r\n";

const STANZA: &str = "\
PP 0
0100 7405 1407 7205 0300 * one word
START 0100 7
CM 12 01234567012345670123 5

\t* it is taken
PP 11
7776 1\t02
00 7005 0300
START 0
DEAD
CM 0
";

/// The deck: more than 2,000 bytes (decimal).
fn deck(alloc: Global) -> Result<String, AllocError> {
    let mut deck = String::new(alloc);
    deck.push_str(FIRST)?;
    for _ in 0..20u32 {
        deck.push_str(STANZA)?;
    }
    Ok(deck)
}

/// Whether a line is a keyword that is cut off, or one that has nothing after it and should.
fn is_cut_off(line: &str) -> bool {
    let begins_with_letter = matches!(line.as_bytes(), [b'A'..=b'Z', ..]);
    begins_with_letter && line.split_whitespace().count() == 1 && line != "DEAD"
}

/// Why a part of the deck is refused: its last line is cut off. Words may be cut anywhere.
fn fault_of(front: &str) -> Option<DeckFault> {
    let line = u32::try_from(front.split('\n').count()).unwrap_or(0);
    let code = DeckCode::UnknownLine;
    let last = front.rsplit('\n').next().unwrap_or("");
    is_cut_off(last).then_some(DeckFault { line, code })
}

/// Whether a part of the deck is refused for this fault, or taken, by both calls that read decks.
fn is_refused_for(
    alloc: Global,
    heap: &Rationed<Global>,
    front: &str,
    fault: Option<DeckFault>,
) -> bool {
    let mut writer = Vec::new(alloc);
    let told = match barrel_text(heap, Profile::Twenty, &mut front.as_bytes(), &mut writer, 0) {
        Ok(()) => None,
        Err(TextFault::Deck(found)) => Some(found),
        Err(_) => return false,
    };
    told == fault && read_deck(heap, Profile::Ten, front.as_bytes()).err() == fault
}

/// How many parts of a deck are refused, up to 2,000 bytes, if each is refused or taken as it
/// should be.
fn refused(alloc: Global, heap: &Rationed<Global>, deck: &str) -> Option<u32> {
    let mut faults = 0u32;
    for size in 0..=2000usize {
        let front = deck.get(..size)?;
        let fault = fault_of(front);
        if !is_refused_for(alloc, heap, front, fault) {
            return None;
        }
        if fault.is_some() {
            faults = faults.wrapping_add(1);
        }
    }
    Some(faults)
}

/// For each part a machine grows, twice.
#[test]
fn fronts_of_a_deck(rt: HostRuntime) {
    let heap = Rationed::new(rt.alloc());
    let deck = deck(rt.alloc()).expect(&rt, "a deck");
    assert!(rt; refused(rt.alloc(), &heap, &deck) > Some(200) && heap.asked() > 4000);
}
