use pp_word::Word12;

/// One event of a channel's history.
#[derive(Clone, Copy, Debug, PartialEq, Eq)]
pub enum Event {
    /// The channel became active.
    Activate,
    /// The channel became inactive; a word still in its register was lost.
    Disconnect,
    /// A word went into the register.
    Put(Word12),
    /// The word in the register was taken.
    Take(Word12),
    /// A function code went out while the channel was inactive.
    Function(Word12),
}
