//! A run with everything at its limit: the longest deck, the largest central memory and the most
//! turns. And decks in which one line loads a whole memory.

use crate::loaded::loaded;
use pp_machine::{Machine, Profile};
use pp_sim::barrel_text;
use pp_word::{Word18, Word60};
use std::alloc::{AllocError, Global};
use test_bench::{first, word};

/// Five pairs on channels 0 to 4: one puts 99,968 words (decimal), the other takes them.
const FRONT: &str = "\
CENTRAL 400000
CM 377777 77777777777777777777
PP 0
0100 7400 2030 3200 7300 0000 0300
START 0100
PP 1
0100 7000 2030 3177 7100 0001 0300
START 0100
PP 2
0100 7401 2030 3200 7301 0000 0300
START 0100
PP 3
0100 7001 2030 3177 7101 0001 0300
START 0100
PP 4
0100 7402 2030 3200 7302 0000 0300
START 0100
PP 5
0100 7002 2030 3177 7102 0001 0300
START 0100
PP 6
0100 7403 2030 3200 7303 0000 0300
START 0100
PP 7
0100 7003 2030 3177 7103 0001 0300
START 0100
PP 10
0100 7404 2030 3200 7304 0000 0300
START 0100
PP 11
0100 7004 2030 3177 7104 0001 0300
START 0100
* A comment fills the deck: ";

/// How long a deck may be.
const LONGEST: usize = 1_048_576;

/// What comes after the events. Each taker's memory has become a copy of its partner's, so both
/// stop at the same place.
const END: &str = "\
PP00 P=0105 A=000000 STOPPED
PP01 P=0105 A=000000 STOPPED
PP02 P=0105 A=000000 STOPPED
PP03 P=0105 A=000000 STOPPED
PP04 P=0105 A=000000 STOPPED
PP05 P=0105 A=000000 STOPPED
PP06 P=0105 A=000000 STOPPED
PP07 P=0105 A=000000 STOPPED
PP10 P=0105 A=000000 STOPPED
PP11 P=0105 A=000000 STOPPED
CH00 ACTIVE EMPTY
CH01 ACTIVE EMPTY
CH02 ACTIVE EMPTY
CH03 ACTIVE EMPTY
CH04 ACTIVE EMPTY
";

/// The line of an event that has no word, and of one that has.
const PLAIN: usize = 21;

const WITH_WORD: usize = 26;

/// Whether a deck has the text that it should after the most turns: each pair makes one Activate
/// and passes its words.
fn runs(alloc: Global, mut deck: &[u8]) -> bool {
    let mut text = Vec::new(alloc);
    let events = 5 * PLAIN + 5 * 2 * 99_968 * WITH_WORD;
    barrel_text(alloc, Profile::Ten, &mut deck, &mut text, 999_999).is_ok()
        && text.ends_with(END.as_bytes())
        && text.len() == events + END.len()
}

/// A deck with this beginning, and then this text so many times.
fn deck(alloc: Global, front: &str, text: &str, count: usize) -> Result<String, AllocError> {
    let rest = text.repeat(alloc, count)?;
    format!(in alloc; "{front}{rest}")
}

/// The deck is filled up with spaces.
#[test]
fn everything_at_its_limit(rt: HostRuntime) {
    let spaces = LONGEST.saturating_sub(FRONT.len());
    let deck = deck(rt.alloc(), FRONT, " ", spaces).expect(&rt, "a deck");
    assert!(rt; deck.len() == LONGEST && runs(rt.alloc(), deck.as_bytes()));
}

/// How many places of processor 0 hold 1, and how many central words.
fn ones(machine: &Machine<Global>) -> (u32, u32) {
    let (mut places, mut words) = (0u32, 0u32);
    for place in 0..4096u16 {
        let is_one = machine.pp(first()).get(word(place)) == word(1);
        places = places.saturating_add(u32::from(is_one));
    }
    for address in 0..131_072u32 {
        let held = machine.central().read(Word18::truncated(address));
        words = words.saturating_add(u32::from(held == Some(Word60::truncated(1))));
    }
    (places, words)
}

/// One line that sets every place of a processor, and one that sets every central word.
#[test]
fn whole_memories(rt: HostRuntime) {
    for &(front, count, expected) in &[
        ("PP 0\n0 ", 4096, (4096, 0)),
        ("CENTRAL 400000\nCM 0 ", 131_072, (0, 131_072)),
    ] {
        let deck = deck(rt.alloc(), front, "1 ", count).expect(&rt, "a deck");
        let machine = loaded(&rt, rt.alloc(), Profile::Ten, &deck);
        assert!(rt; ones(&machine) == expected);
    }
}
