//! Decks: texts that load a machine, or are refused at a line.
#![tactic(auto)]

mod deck;
mod deck_fault;
mod deck_line;
mod fields;
mod flaw;
mod in_use;
mod keyword;
mod laws;
mod lines;
mod octal_number;
mod reading;

pub use deck::{DEFAULT_SIZE, Deck, LONGEST_TEXT, read_deck};
pub use deck_fault::{DeckCode, DeckFault};
pub use fields::{Fields, is_blank};
pub use laws::{deck_law, reading_law};
