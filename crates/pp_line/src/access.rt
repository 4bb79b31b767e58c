use crate::Entry;

/// An access of a line to a channel or to central memory. No value of it is made.
pub enum Access {
    /// An event, or a look at a channel's word.
    OnChannel(Entry),
    /// A read, by address, of this word.
    Read(u64, u64),
    /// A write, by address, of this word, and how many writes of all lines came before it.
    Write(u64, u64, u64),
}
