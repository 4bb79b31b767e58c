ghost use Rattle.std.specs.Prelude.{ℕ, ◌≡◌, ◌%◌, ◌^◌, ◌<◌, ◌↔◌, IsSome, IfSome, Some};
ghost use Rattle.pp_word.specs.Numeral.{octal};

use std::fmt::{self, Display, Formatter, Write};
use std::marker::Model;

/// A word of 6 bits, 0 to 77 (octal). Contracts see it as that number.
#[derive(Clone, Copy, PartialEq, Eq)]
pub struct Word6 {
    value: u8,
}

impl Model for Word6 {
    ghost Value = { ℕ };

    ghost view = { λ w. w.value };

    ghost invariant = { λ w. w.value < 2 ^ 6 };

    ghost inverse = { λ n. record { value = n } };
}

impl Word6 {
    /// The word of this number, or nothing if it needs more than 6 bits.
    pub fn new(value: u8) -> Option<Self>
        ensures fits { IsSome result ↔ (value < 2 ^ 6) }
        ensures value { IfSome result (λ w. w ≡ value) }
    {
        (value < 1 << 6).then_some(Word6::truncated(value))
    }

    /// The number of this word.
    pub fn get(self) -> u8
        ensures value { result ≡ self }
        ensures small { result < 2 ^ 6 }
    {
        self.value
    }

    /// The low 6 bits of a number.
    pub fn truncated(number: u8) -> Self
        ensures { result ≡ number % 2 ^ 6 }
    {
        let value = number & 0o77;
        Word6 { value }
    }
}

/// In two octal digits.
impl Display for Word6 {
    ghost output = { λ w. Some (octal 2 w) };

    fn fmt<W: Write>(&self, f: &mut Formatter<W>) -> fmt::Result {
        let n = self.get();
        write!(f, "{}{}", n / 8 % 8, n % 8)
    }
}
