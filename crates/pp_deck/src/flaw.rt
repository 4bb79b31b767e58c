ghost use Rattle.std.specs.Prelude.{◌≡◌};
ghost use Rattle.pp_deck.specs.Flaw.{code_of};

use crate::DeckCode;

/// What is wrong with a line. No line takes memory.
#[derive(Clone, Copy)]
pub(crate) enum Flaw {
    UnknownLine,
    BadDigits,
    BadProcessor,
    NoProcessor,
    PastEnd,
    CentralRange,
}

impl Flaw {
    /// Its code in a fault of the deck.
    pub(crate) fn code(self) -> DeckCode
        ensures { result ≡ code_of self }
    {
        match self {
            Flaw::UnknownLine => DeckCode::UnknownLine,
            Flaw::BadDigits => DeckCode::BadDigits,
            Flaw::BadProcessor => DeckCode::BadProcessor,
            Flaw::NoProcessor => DeckCode::NoProcessor,
            Flaw::PastEnd => DeckCode::PastEnd,
            Flaw::CentralRange => DeckCode::CentralRange,
        }
    }
}
