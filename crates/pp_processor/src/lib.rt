//! Peripheral processors: their memories, their instructions, and what each step asks and does.
#![tactic(auto)]

mod answer;
mod block;
mod foreseen;
mod need;
mod outcome;
mod position;
mod pp;
mod pp_memory;
mod pp_state;
mod replay;

pub use answer::Answer;
pub use block::{Block, BlockKind};
pub use foreseen::{
    channel_named, jump_from, jumps_at, may_go_on, next_place_law, sends_function, sure_fault,
    sure_fault_law,
};
pub use need::Need;
pub use outcome::Outcome;
pub use position::Position;
pub use pp::{Pp, ends};
pub use pp_state::{
    EXCHANGE_JUMP, NO_CENTRAL_PROCESSOR, NO_SUCH_CHANNEL, PAST_CENTRAL_MEMORY, PpState,
};
pub use replay::fits;
