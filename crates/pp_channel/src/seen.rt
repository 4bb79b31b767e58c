use crate::{Event, Flags};

/// What was done to a channel, or seen of it.
#[derive(Clone, Copy, PartialEq, Eq)]
pub enum Seen {
    /// An event, which the writer of the log made.
    Did(Event),
    /// A look at the flags.
    Saw(Flags),
}
