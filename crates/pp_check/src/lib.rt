//! The judge of a channel trace, whoever made it: it accepts a lawful trace, and names the first
//! line with which any other text is none.
#![tactic(auto)]

mod channel_tally;
mod check;
mod judge;
mod laws;
mod trace_fault;
mod trace_line;
mod unlawful;
mod verdict;

pub use check::check_trace;
pub use laws::{fault_law, trace_law};
pub use pp_channel::ChannelState;
pub use trace_fault::{TraceFault, TraceFlaw};
pub use trace_line::TraceLine;
pub use verdict::{Verdict, write_verdict};
