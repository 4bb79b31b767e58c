use crate::channel_use::ChannelUse;
use crate::first_lines::FirstLines;
use std::alloc::Allocator;

/// What is known of all lines of a deck together: which are the first to give things, and which
/// channels one processor alone uses.
#[derive(Drop)]
pub(crate) struct WholeDeck<A: Allocator> {
    pub(crate) firsts: FirstLines<A>,
    pub(crate) alone: Vec<ChannelUse, A>,
}
