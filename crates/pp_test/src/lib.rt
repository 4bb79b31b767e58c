//! Whether a run, or every ending, is as its deck expects.
#![tactic(auto)]

mod every_order;
mod expectation;
mod judged_lines;
mod law;
mod machine_lines;
mod nearest;
mod run_lines;
mod verdict;

pub use every_order::{EveryOrder, text_of_every_order};
pub use judged_lines::lines_to_judge;
pub use law::{every_order_law, held_law};
pub use verdict::write_verdict;
