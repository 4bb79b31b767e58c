use pp_channel::{ChanOp, ChannelNo};
use pp_word::{Word18, Word60};

/// What a processor's next step needs from outside.
#[derive(Clone, Copy, PartialEq, Eq)]
pub enum Need {
    /// The processor is at rest and has no next step.
    Nothing,
    /// The step needs nothing from outside.
    Local,
    /// The step is one operation on a channel.
    Channel(ChannelNo, ChanOp),
    /// The step reads the central word of this address.
    Read(Word18),
    /// The step writes the central word of this address.
    Write(Word18, Word60),
}
