use crate::Flags;
use pp_word::Word12;

/// The answer to one operation.
#[derive(Clone, Copy, PartialEq, Eq)]
pub enum Reply {
    /// The flags, for an operation that only looks.
    Flags(Flags),
    /// The operation was made.
    Done,
    /// The word was taken.
    Word(Word12),
    /// The operation was not ready at these flags, and nothing changed.
    Held(Flags),
}
