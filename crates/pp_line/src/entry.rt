use pp_channel::{ChannelNo, Seen};

/// An entry of a log.
#[derive(Clone, Copy, PartialEq, Eq)]
pub struct Entry {
    /// For an event its place in the channel's history, counted from 0; for a look how many events
    /// the channel had had.
    pub number: u64,
    /// The channel.
    pub channel: ChannelNo,
    /// What was done or seen.
    pub what: Seen,
}
