//! What the crates of tests share: decks with their texts, devices that fail, an allocator that
//! refuses the Nth request, a plain check of histories, words, channels, processors and programs by
//! number, odd numbers, and which processors wait.
#![tactic(auto)]

mod allocator;
mod chance;
mod dead_start;
mod decks;
mod flags;
mod histories;
mod in_turn;
mod long_texts;
mod numbers;
mod programs;
mod ration;
mod sink;
mod source;

pub use allocator::Rationed;
pub use chance::Chance;
pub use dead_start::waiting;
pub use decks::{
    BLOCK, HANDOFF, HANDOFF_ON_TWENTY, HANDOFF_TEXT, LONG_PATIENCE, LOST_AND_WAITING,
    WORDS_OF_A_RUN, WORDS_OF_TWENTY,
};
pub use flags::{EMPTY, FULL, INACTIVE};
pub use histories::is_lawful;
pub use long_texts::{SESSIONS, report_of_sessions, text_of_sessions};
pub use numbers::{channel, first, numbered, processor, word};
pub use programs::{put_program, put_words};
pub use sink::{Failure, Sink};
pub use source::Source;
