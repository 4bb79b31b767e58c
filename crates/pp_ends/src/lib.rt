//! How a run in the barrel ends.
#![tactic(auto)]

mod alike;
mod ending;
mod ends_text;
mod laws;
mod loops;
mod progress_mark;
mod quiet;
mod recent_mismatches;
mod rounds;
mod run;

pub use ending::Ending;
pub use ends_text::write_ends;
pub use laws::{ends_law, ends_text_law};
pub use loops::{Loop, find_loops};
pub use progress_mark::ProgressMark;
pub use quiet::is_quiet;
pub use run::find_ending;
