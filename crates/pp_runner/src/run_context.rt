use crate::spinning::Spinning;
use pp_line::Line;
use pp_numbers::Limits;
use std::alloc::Allocator;
use std::snapshot::Snapshot;

/// What the workers of a run share, beside the channels and the words of central memory.
#[derive(Drop)]
pub struct RunContext<A: Allocator> {
    pub alloc: A,
    /// The number of words of central memory (decimal).
    pub size: u32,
    pub limits: Limits,
    /// The line that theirs were split from.
    pub family: Snapshot<Line<A>>,
    /// How each worker begins to spin.
    pub spinning: Spinning,
}
