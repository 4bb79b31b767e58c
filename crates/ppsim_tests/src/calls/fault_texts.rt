//! The texts of faults and refusals.

use pp_channel::Memory;
use pp_line::Worn;
use pp_machine::{CentralFault, Cut};
use pp_runner::RunFault;
use pp_sim::{DeckCode, DeckFault, LineFault, TextFault};
use std::alloc::Global;
use std::fmt::Display;

/// Whether a fault has this text.
fn tells(alloc: Global, fault: &impl Display, text: &str) -> bool {
    match format!(in alloc; "{fault}") {
        Ok(told) => told.as_str() == text,
        Err(_) => false,
    }
}

/// Each fault of a deck, with a line, and its text.
const DECK_FAULTS: [(DeckCode, u32, &str); 9] = [
    (DeckCode::TooLong, 0, "deck fault 1 at line 0"),
    (DeckCode::NotAscii, 2, "deck fault 2 at line 2"),
    (DeckCode::UnknownLine, 1, "deck fault 3 at line 1"),
    (DeckCode::BadDigits, 2, "deck fault 4 at line 2"),
    (DeckCode::BadProcessor, 8, "deck fault 5 at line 8"),
    (DeckCode::NoProcessor, 1, "deck fault 6 at line 1"),
    (DeckCode::PastEnd, 2, "deck fault 7 at line 2"),
    (DeckCode::CentralRange, 10, "deck fault 8 at line 10"),
    (DeckCode::Memory, 0, "deck fault 9 at line 0"),
];

/// Alone, and as faults of their text.
#[test]
fn deck_faults(rt: HostRuntime) {
    for &(code, line, text) in &DECK_FAULTS {
        let fault = DeckFault { line, code };
        let of_text = TextFault::Deck(fault);
        assert!(rt;
            tells(rt.alloc(), &fault, text) && tells(rt.alloc(), &of_text, text),
            "{text}"
        );
    }
}

/// Other faults of a text.
const TEXT_FAULTS: [(TextFault, &str); 4] = [
    (TextFault::Read, "read fault"),
    (TextFault::Memory, "out of memory"),
    (TextFault::Write, "write fault"),
    (TextFault::Findings, "something is found"),
];

#[test]
fn text_faults(rt: HostRuntime) {
    for (fault, text) in &TEXT_FAULTS {
        assert!(rt; tells(rt.alloc(), fault, text), "{text}");
    }
}

/// What a drawing of too many turns is answered.
const PICTURE: &str = "a picture has at most 2000 turns: give --from and --to";

const FORMS: &str = "give --turns, or --every-order and --states alone";

#[test]
fn other_faults(rt: HostRuntime) {
    let alloc = rt.alloc();
    assert!(rt;
        tells(alloc, &LineFault::Memory, "out of memory")
            && tells(alloc, &LineFault::Number, "number out of range")
            && tells(alloc, &LineFault::Picture, PICTURE)
            && tells(alloc, &LineFault::Forms, FORMS)
            && tells(alloc, &RunFault::Memory, "out of memory")
            && tells(alloc, &CentralFault::Memory, "out of memory")
            && tells(alloc, &CentralFault::BadSize, "central size out of range")
            && tells(alloc, &Cut { done: 3 }, "cut after 3 steps")
            && tells(alloc, &Memory, "out of memory")
            && tells(alloc, &Worn, "channel is worn")
    );
}
