ghost use Rattle.std.specs.Prelude.{◌≡◌, ℕ, ◌%◌, ◌^◌, ◌<◌, ◌↔◌, IsSome, IfSome, length, nat_eq, slice_index};
ghost use Rattle.std.specs.Cmp.Rules.{comparing};
ghost use Rattle.std.specs.Int.{from_le_bytes, to_le_bytes, w64};
ghost use Rattle.std.proofs.Common.{ap, refl, rules};
ghost use Rattle.std.proofs.lemmas.Nat.{le_bytes_8};

use std::marker::Model;

/// A word of 60 bits, 0 to 2^60 - 1, twenty octal digits. Contracts see it as that number.
#[derive(Clone, Copy)]
pub struct Word60 {
    // In bytes, the least first, so that a type that holds a word is not aligned to 8: an answer to
    // a processor, one of which is kept for each step of a run by threads, takes 10 bytes, not 24.
    bytes: [u8; 8],
}

impl Model for Word60 {
    ghost Value = { ℕ };

    ghost view = { λ w. from_le_bytes w64 w.bytes };

    ghost invariant = { λ w. (length w.bytes ≡ 8)
        × ((i : ℕ) → slice_index w.bytes i < 256) × (from_le_bytes w64 w.bytes < 2 ^ 60) };

    ghost inverse = { λ n. record { bytes = to_le_bytes w64 n } };

    ghost inverse_ok = { λ w is. ap (λ b. record { bytes = b })
        (le_bytes_8 w.bytes (from_le_bytes w64 w.bytes) is.0 is.1 refl) };
}

impl Word60 {
    /// The word 0.
    pub const ZERO: Word60 = Word60 { bytes: [0; 8] };

    /// The word of this number, or nothing if it needs more than 60 bits.
    pub fn new(value: u64) -> Option<Self>
        ensures fits { IsSome result ↔ (value < 2 ^ 60) }
        ensures value { IfSome result (λ w. w ≡ value) }
    {
        (value < 1 << 60).then_some(Word60::truncated(value))
    }

    /// The number of this word.
    #[inline]
    pub fn get(self) -> u64
        ensures value { result ≡ self }
        ensures small { result < 2 ^ 60 }
    {
        u64::from_le_bytes(self.bytes)
    }

    /// The low 60 bits of a number.
    #[inline]
    pub fn truncated(number: u64) -> Self
        ensures { result ≡ number % 2 ^ 60 }
    {
        let bytes = (number % (1 << 60)).to_le_bytes();
        Word60 { bytes }
    }
}

impl PartialEq for Word60 {
    ghost eq = { nat_eq };

    ghost laws = { Prim.search (comparing, rules) };

    fn eq(&self, other: &Word60) -> bool {
        self.get() == other.get()
    }
}

impl Eq for Word60 {
    ghost laws = { Prim.search (comparing, rules) };
}
