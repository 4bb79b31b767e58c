use crate::Worker;
use pp_channel::{CHANNELS, Channel};
use std::alloc::Allocator;

/// What a run leaves: its workers in order of processor number, and the channels with the histories
/// that the workers made.
#[derive(Drop)]
pub struct Report<A: Allocator> {
    pub ends: Vec<Worker<A>, A>,
    pub channels: [Channel<A>; CHANNELS],
}
