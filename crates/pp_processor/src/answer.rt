use pp_channel::Reply;
use pp_word::Word60;

/// What the outside answers to a need.
#[derive(Clone, Copy)]
pub enum Answer {
    /// Nothing was needed from outside.
    Local,
    /// What the channel replied.
    Channel(Reply),
    /// The central word, or nothing at or past the size of central memory.
    Read(Option<Word60>),
    /// Whether the central word was written: false at or past the size of central memory.
    Wrote(bool),
}
