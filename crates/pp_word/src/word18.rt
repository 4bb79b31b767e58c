ghost use Rattle.std.specs.Prelude.{ℕ, ◌≡◌, ◌%◌, ◌^◌, ◌<◌, ◌↔◌, IsSome, IfSome};

use crate::{Word6, Word12};
use std::marker::Model;

/// A word of 18 bits, 0 to 777777 (octal). Contracts see it as that number.
#[derive(Clone, Copy, PartialEq, Eq)]
pub struct Word18 {
    value: u32,
}

impl Model for Word18 {
    ghost Value = { ℕ };

    ghost view = { λ w. w.value };

    ghost invariant = { λ w. w.value < 2 ^ 18 };

    ghost inverse = { λ n. record { value = n } };
}

impl Word18 {
    /// The word 0.
    pub const ZERO: Word18 = Word18 { value: 0 };

    /// The word 1.
    pub const ONE: Word18 = Word18 { value: 1 };

    /// The word of this number, or nothing if it needs more than 18 bits.
    pub fn new(value: u32) -> Option<Self>
        ensures fits { IsSome result ↔ (value < 2 ^ 18) }
        ensures value { IfSome result (λ w. w ≡ value) }
    {
        (value < 1 << 18).then_some(Word18::truncated(value))
    }

    /// The number of this word.
    pub fn get(self) -> u32
        ensures value { result ≡ self }
        ensures small { result < 2 ^ 18 }
    {
        self.value
    }

    /// The word of a number that is known to fit.
    pub(crate) fn fitting(number: u32) -> Self
        requires { number < 2 ^ 18 }
        ensures { result ≡ number }
    {
        Word18 { value: number }
    }

    /// The low 18 bits of a number.
    pub fn truncated(number: u32) -> Self
        ensures { result ≡ number % 2 ^ 18 }
    {
        let value = number & 0o777_777;
        Word18 { value }
    }

    /// The low twelve bits of this word.
    pub fn low(self) -> Word12
        ensures { result ≡ self % 2 ^ 12 }
    {
        Word12::truncated(self.value)
    }
}

/// The same number.
impl From<Word6> for Word18 {
    ghost from_gives = { λ word result. result ≡ word };

    fn from(word: Word6) -> Word18 {
        let value = u32::from(word.get());
        Word18 { value }
    }
}

/// The same number.
impl From<Word12> for Word18 {
    ghost from_gives = { λ word result. result ≡ word };

    fn from(word: Word12) -> Word18 {
        let value = u32::from(word.get());
        Word18 { value }
    }
}
