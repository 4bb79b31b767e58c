//! The instructions of a deck's line and the columns of its fields; what instructions do wherever
//! they are run; and what a comment says of them.
#![tactic(auto)]

mod claim;
mod column;
mod instruction;
mod instruction_effect;
mod law;

pub use claim::{Claim, Claims, comment_place};
pub use column::Columns;
pub use instruction::{Instruction, Instructions, word_of};
pub use law::foreseen_law;
