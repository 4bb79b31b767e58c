//! The longest run of two processors, each in a thread of its own, over an allocator that counts
//! the requests and refuses none: its text, line by line.

use super::ample::requests_by_threads;
use std::alloc::{AllocError, Global};

/// PP 0 activates channel 5 and sends its whole memory over it, again and again, from place 0 on,
/// 300000 words (octal). PP 1 takes the first of them by IAN, and all further ones into its own
/// memory from place 1 on, each at the place where it stands in PP 0.
const FRONT: &str = "\
CENTRAL 400000
CM 377777 77777777777777777777
PP 1
0100 7005 2027 7777 7105 0001 0300
START 0100
PP 0
0100 7405 2030 0000 7305 0000 0300
START 0100
";

/// How many words are sent: the memory of PP 0 twenty-four times (decimal).
const SENT: u32 = 24 * 4096;

/// From this place on each place of PP 0 holds its own number.
const NUMBERED: u16 = 0o200;

/// The deck: its beginning, and the numbered places.
fn deck(alloc: Global) -> Result<String, AllocError> {
    let mut deck = String::new(alloc);
    deck.push_str(FRONT)?;
    for place in NUMBERED..0o10000u16 {
        writeln!(deck, "{place:o} {place:o}")?;
    }
    Ok(deck)
}

/// The word at a place of PP 0 while it sends: place 0 holds the address of the second word of OAM.
fn word_of_sender(place: u32) -> u32 {
    match place {
        0 => 0o104,
        0o100 => 0o7405,
        0o101 => 0o2030,
        0o103 => 0o7305,
        0o105 => 0o300,
        0o200.. => place,
        _ => 0,
    }
}

/// The memory of PP 1 has become a copy of that of PP 0, so both stop at the same place.
const ENDS: &str = "\
PP00 P=0105 A=000000 STOPPED
PP01 P=0105 A=000000 STOPPED
CH05 ACTIVE EMPTY
";

/// Each word is put and then taken.
fn push_word(text: &mut String, sent: u32) -> Result<(), AllocError> {
    let put = sent.wrapping_mul(2).wrapping_add(1);
    let taken = put.wrapping_add(1);
    let word = word_of_sender(sent % 4096);
    write!(
        text,
        "CH05 {put:06} PP00 PUT {word:04o}\nCH05 {taken:06} PP01 TAK {word:04o}\n"
    )
}

/// The text of the run.
fn long_text(alloc: Global) -> Result<String, AllocError> {
    let mut text = "CH05 000000 PP00 ACN\n".to_string(alloc)?;
    for sent in 0..SENT {
        push_word(&mut text, sent)?;
    }
    text.push_str(ENDS)?;
    Ok(text)
}

#[test]
fn long_pair_by_threads(rt: HostRuntime) {
    let deck = deck(rt.alloc()).expect(&rt, "a deck");
    let text = long_text(rt.alloc()).expect(&rt, "a text");
    assert!(rt; requests_by_threads(&rt, "10", &deck, (0, &text)) > Some(40));
}
