//! Words, channels, processors and numbered replies by number.

use pp_channel::{ChannelNo, Numbered, Reply};
use pp_machine::PpNo;
use pp_word::Word12;

/// The word of this number, of at most 12 bits.
pub fn word(number: u16) -> Word12 {
    Word12::truncated(u32::from(number))
}

/// The channel of this number.
pub fn channel(number: u8) -> Result<ChannelNo, &'static str> {
    ChannelNo::new(number).ok_or("no such channel")
}

/// Processor 0.
pub fn first() -> PpNo {
    PpNo::at(0)
}

/// The processor of this number.
pub fn processor(number: u8) -> Result<PpNo, &'static str> {
    PpNo::new(number).ok_or("no such processor")
}

/// A reply that was given at once, at this number of events.
pub fn numbered(reply: Reply, number: u64) -> Numbered {
    Numbered {
        reply,
        loaded: number,
        number,
    }
}
