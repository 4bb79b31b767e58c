//! The steps of a run, line by line: each with what it did, and held steps in a row on one line.
#![tactic(auto)]

mod choice;
mod cursor;
mod held_spells;
mod laws;
mod spell_counts;
mod step_line;
mod steps_text;
mod steps_where;

pub use choice::Choice;
pub use laws::{steps_law, steps_text_law, steps_where_law};
pub use steps_text::write_steps;
pub use steps_where::write_steps_where;
