//! Runs of decks, their texts and views, checks of traces, and the program that writes them.
#![tactic(auto)]

mod deck_bytes;
mod entry;
mod program;
mod schedule;
mod streams;
mod text_fault;
mod texts;

pub use entry::run_main;
pub use pp_command::{Asked, ChosenSteps, LineFault, Tested, TextOf, View, Work, read_words};
pub use pp_deck::{Deck, DeckCode, DeckFault, read_deck};
pub use program::run_program;
pub use schedule::Schedule;
pub use text_fault::TextFault;
pub use texts::check_text::check_text;
pub use texts::deck_text::{barrel_text, deck_text};
pub use texts::lint_text::lint_text;
pub use texts::test_text::test_text;
pub use texts::threads_text::threads_text;
pub use texts::work_text::work_text;
