//! Processors, channels and central memory as one machine, and its runs.
#![tactic(auto)]

mod barrel;
mod central;
mod cut;
mod dead_start;
mod machine;
mod quiet;
mod run;
mod step;
mod trace;

pub use central::{Central, CentralFault};
pub use cut::Cut;
pub use machine::Machine;
pub use pp_numbers::{PROCESSORS, PpNo, Profile};
pub use pp_processor::{
    Answer, Block, BlockKind, EXCHANGE_JUMP, NO_CENTRAL_PROCESSOR, NO_SUCH_CHANNEL, Need, Outcome,
    PAST_CENTRAL_MEMORY, Pp, PpState, fits,
};
pub use run::run_law;
pub use trace::Trace;
