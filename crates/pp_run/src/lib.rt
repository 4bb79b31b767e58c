//! Runs of a machine: observed, step by step; over a machine without its record; and what makes
//! the result of a run that of every order of its steps (specs/Determinacy).
#![tactic(auto)]

mod bare_machine;
mod bare_step;
mod observed_run;
mod observer;
mod order;
mod progress;
mod step_counts;

pub use bare_machine::BareMachine;
pub use bare_step::{channel_states, copied_central, copied_processors};
pub use observed_run::run_observed;
pub use observer::Observer;
pub use order::{Order, in_turn};
pub use progress::Progress;
pub use step_counts::{StepCounts, run_counting_steps};
