//! The drawing of a run: an SVG with a lane for each channel that the run used and for each
//! processor that is shown, over a scale of turns (decimal), with a legend.
//!
//! A lane is a list of phases, each of which lasts until the next: those of a channel begin with
//! its events, those of a processor with the steps that find it in another condition than the step
//! before (specs/Condition). A phase that falls into the window is drawn as a band with a title,
//! and with its word, its function code or its channel above it where there is room (specs/Lane).
//! After the last turn stands how the lane ends.
//!
//! The text is well-formed XML (`well_formed_law` of `pp_laws`), with no script and no reference,
//! and its colours are light or dark as the reader's are.
#![tactic(auto)]

mod condition;
mod drawing;
mod frame;
mod lane;
mod laws;
mod seen_step;

pub use condition::{Condition, Look, Phase};
pub use drawing::write_drawing;
pub use lane::Part;
pub use laws::drawing_law;
pub use pp_numbers::{MOST_TURNS, Window};
pub use seen_step::{SeenStep, SeenSteps, run_seeing_steps};
