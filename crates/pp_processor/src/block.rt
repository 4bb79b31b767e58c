use pp_channel::ChannelNo;
use pp_word::Word12;

/// What a block instruction moves, one word a step.
#[derive(Clone, Copy, PartialEq, Eq)]
pub enum BlockKind {
    /// CRM: central words go to the processor's memory, and `left` of them remain.
    CentralIn { left: Word12 },
    /// CWM: the processor's words go to central memory, and `left` central words remain.
    CentralOut { left: Word12 },
    /// IAM: words come in from a channel.
    Input { channel: ChannelNo },
    /// OAM: words go out on a channel.
    Output { channel: ChannelNo },
}

/// A block transfer, and the place in the processor's memory that comes next.
#[derive(Clone, Copy, PartialEq, Eq)]
pub struct Block {
    pub kind: BlockKind,
    pub place: Word12,
}
