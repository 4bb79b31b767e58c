ghost use Rattle.std.specs.Prelude.{◌≡◌, vec_len};
ghost use Rattle.pp_numbers.specs.PpNo.{processor_count};

use pp_channel::{CHANNELS, ChannelState};
use pp_machine::{Central, Pp};
use std::alloc::Allocator;

/// A machine that keeps no history and no trace: of each channel it has the flags and the register
/// alone. Its steps take no memory.
#[derive(Drop)]
pub struct BareMachine<A: Allocator> {
    pub(crate) processors: Vec<Pp, A>,
    pub(crate) central: Central<A>,
    pub(crate) channels: [ChannelState; CHANNELS],
    pub(crate) turns: u64,
    ghost all: { vec_len processors ≡ processor_count },
}
