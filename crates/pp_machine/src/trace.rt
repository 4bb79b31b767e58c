use pp_channel::{ChannelNo, Event};
use pp_numbers::PpNo;

/// One event of a machine.
#[derive(Clone, Copy, PartialEq, Eq)]
pub struct Trace {
    /// How many turns the machine had counted before the step that made it (decimal).
    pub turn: u64,
    /// The processor whose step it was.
    pub pp: PpNo,
    /// The channel on which it happened.
    pub channel: ChannelNo,
    /// What happened.
    pub event: Event,
}
