use pp_channel::ChannelState;

/// A channel's state, how many of its events were read, and whether it was opened before them.
#[derive(Clone, Copy)]
pub(crate) struct ChannelTally {
    pub(crate) state: ChannelState,
    pub(crate) events: u64,
    pub(crate) is_opened: bool,
}

impl ChannelTally {
    /// No line has named the channel, and it was not opened.
    pub(crate) const NEW: ChannelTally = ChannelTally {
        state: ChannelState::INACTIVE,
        events: 0,
        is_opened: false,
    };

    /// No line has named the channel, and it was opened.
    pub(crate) const OPENED: ChannelTally = ChannelTally {
        state: ChannelState::EMPTY,
        events: 0,
        is_opened: true,
    };
}
