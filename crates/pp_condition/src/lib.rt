//! Conditions on the steps of a run: how they are written, which steps meet them, and where a run
//! ends that goes on until one is met.
#![tactic(auto)]

mod condition;
mod condition_text;
mod laws;
mod meeting;
mod until;

pub use condition::{Condition, EventForm, ProcessorCondition};
pub use condition_text::condition_in;
pub use laws::until_law;
pub use meeting::step_meeting;
pub use until::{Until, steps_until};
