//! Lines: channels that threads share as words, without a lock.
#![tactic(auto)]

mod access;
mod entry;
mod line;
mod line_log;
mod recorded_history;
mod rule;
mod shared_words;
mod word_step;
mod worn;

pub use entry::Entry;
pub use line::{Closed, Line, open_lines, open_lines_beside};
pub use word_step::{WordStep, advance};
pub use worn::Worn;
