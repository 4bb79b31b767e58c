//! Calls where a growth is refused, one request after another, and long runs where none is: tests
//! over the allocator `Rationed`, and of this allocator itself.

mod allocator;
mod ample_machines;
mod barrel;
mod channel;
mod deck;
mod lines;
pub(crate) mod locked;
mod machine;
mod no_memory;
mod refusal;
mod text;
mod threads;
mod trials;
