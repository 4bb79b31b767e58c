//! How things stand after a run: processors and the channels that hold them, what differs from the
//! load, the channels; and the words in memory, in octal and in display code.
#![tactic(auto)]

mod central_text;
mod changes;
mod display_code;
mod laws;
mod memory_text;
mod whole_text;

pub use central_text::write_central;
pub use laws::{central_law, memory_law, state_law, state_text_law};
pub use memory_text::write_memory;
pub use pp_numbers::Bounds;
pub use whole_text::{print_changes, write_state};
