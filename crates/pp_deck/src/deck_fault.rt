ghost use Rattle.std.specs.Prelude.{Some};
ghost use Rattle.pp_deck.specs.FaultText.{deck_fault_text};

use std::error::Error;
use std::fmt::{self, Display, Formatter, Write};

/// What is wrong with a deck.
#[derive(Clone, Copy, Debug, PartialEq, Eq)]
pub enum DeckCode {
    /// The text has more than 1,048,576 bytes (decimal).
    TooLong = 1,
    /// A byte from 200 (octal) on.
    NotAscii = 2,
    /// A line of unknown kind, out of place, or with too few or too many fields.
    UnknownLine = 3,
    /// A field that is not a number in octal digits, or has too many of them.
    BadDigits = 4,
    /// No processor has this number.
    BadProcessor = 5,
    /// Words or a start before the first processor.
    NoProcessor = 6,
    /// A word past place 7777 (octal).
    PastEnd = 7,
    /// A central size out of range, or a central word at or past the size.
    CentralRange = 8,
    /// An allocation was refused.
    Memory = 9,
}

/// Why a deck is refused, and the number of the faulty line, from 1 on. The line is 0 for `TooLong`
/// and `Memory`.
#[derive(Clone, Copy, Debug, PartialEq, Eq)]
pub struct DeckFault {
    pub line: u32,
    pub code: DeckCode,
}

/// As `deck fault 4 at line 3`.
impl Display for DeckFault {
    ghost output = { λ fault. Some (deck_fault_text fault) };

    fn fmt<W: Write>(&self, f: &mut Formatter<W>) -> fmt::Result {
        let code = self.code as u8;
        let line = u64::from(self.line);
        write!(f, "deck fault {code} at line {line}")
    }
}

impl Error for DeckFault {}
