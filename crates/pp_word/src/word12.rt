ghost use Rattle.std.specs.Prelude.{ℕ, ◌≡◌, ◌%◌, ◌^◌, ◌<◌, ◌↔◌, IsSome, IfSome, Some};
ghost use Rattle.pp_word.specs.Numeral.{octal};

use crate::Word6;
use std::fmt::{self, Display, Formatter, Write};
use std::marker::Model;

/// A word of 12 bits, 0 to 7777 (octal). Contracts see it as that number.
#[derive(Clone, Copy, Debug, PartialEq, Eq)]
pub struct Word12 {
    value: u16,
}

impl Model for Word12 {
    ghost Value = { ℕ };

    ghost view = { λ w. w.value };

    ghost invariant = { λ w. w.value < 2 ^ 12 };

    ghost inverse = { λ n. record { value = n } };
}

impl Word12 {
    /// The word 0.
    pub const ZERO: Word12 = Word12 { value: 0 };

    /// The word of this number, or nothing if it needs more than 12 bits.
    pub fn new(value: u16) -> Option<Self>
        ensures fits { IsSome result ↔ (value < 2 ^ 12) }
        ensures value { IfSome result (λ w. w ≡ value) }
    {
        if value < 1 << 12 {
            Some(Word12 { value })
        } else {
            None
        }
    }

    /// The number of this word.
    pub fn get(self) -> u16
        ensures value { result ≡ self }
        ensures small { result < 2 ^ 12 }
    {
        self.value
    }

    /// The low 12 bits of a number.
    pub fn truncated(number: u32) -> Self
        ensures { result ≡ number % 2 ^ 12 }
    {
        let value = (number & 0o7777) as u16;
        Word12 { value }
    }
}

/// The same number.
impl From<Word6> for Word12 {
    ghost from_gives = { λ word result. result ≡ word };

    fn from(word: Word6) -> Word12 {
        let value = u16::from(word.get());
        Word12 { value }
    }
}

/// In four octal digits.
impl Display for Word12 {
    ghost output = { λ w. Some (octal 4 w) };

    fn fmt<W: Write>(&self, f: &mut Formatter<W>) -> fmt::Result {
        let n = self.get();
        let upper = n / 8 / 8;
        write!(f, "{}{}{}{}", upper / 8 % 8, upper % 8, n / 8 % 8, n % 8)
    }
}
