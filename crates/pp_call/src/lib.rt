//! The words of a call of the library, which are read without `clap`: what they ask for, or why
//! they are refused, and help.
#![tactic(auto)]

mod call_fault;
mod call_word;
mod call_words;
mod help_text;
mod refusal_text;
mod similar;
mod text;
mod usage;
mod why;

pub use call_fault::{CallFault, CallRefusal};
pub use call_words::read_call;
