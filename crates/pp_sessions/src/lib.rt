//! The sessions of a run, channel by channel, and how many steps of each processor moved it, were
//! held, and found it at rest.
#![tactic(auto)]

mod laws;
mod lines;
mod open_stretch;
mod sessions_text;
mod tally;
mod words;

pub use laws::{counts_law, course_law, sessions_law, sessions_text_law};
pub use pp_run::{StepCounts, run_counting_steps};
pub use sessions_text::write_sessions;
