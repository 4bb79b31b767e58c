//! The races of a run: whether it determines the result of every order of steps, and if it may not,
//! which of its steps may race with which events.
#![tactic(auto)]

mod asked;
mod asking_step;
mod by_flags;
mod channel_events;
mod cursor;
mod event_counts;
mod finding;
mod found;
mod lines;
mod missed;
mod printing;
mod races_text;
mod settled;
mod sharing;
mod verdict;
mod watch;
mod watch_tables;
mod watched_run;
mod word_use;

pub use asking_step::AskingStep;
pub use finding::Finding;
pub use races_text::write_races;
pub use verdict::Verdict;
