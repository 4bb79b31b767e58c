use crate::Reply;

/// An answer, and its place in the history of its channel.
#[derive(Clone, Copy, PartialEq, Eq)]
pub struct Numbered {
    /// The answer.
    pub reply: Reply,
    /// How many events the channel had had when its word was loaded, or before a call under a lock.
    pub loaded: u64,
    /// For an event its place in the history, from 0; for a look how many events came before it.
    pub number: u64,
}
