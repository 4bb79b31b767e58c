ghost use Rattle.std.specs.Prelude.{◌≡◌, ℕ, ◌+◌, ◌%◌, ◌<◌, ◌↔◌, IsTrue, IsSome, IfSome};
ghost use Rattle.std.proofs.Common.{ap};
ghost use Rattle.pp_numbers.specs.PpNo.{processor_count, names_processor, processor_index, processor_number, processor_places};

use std::marker::Model;

/// The number of peripheral processors of the larger machine (decimal).
pub const PROCESSORS: usize = 20;

/// The number of a peripheral processor, 0 to 11 or 20 to 31 (octal). It is kept as its place in
/// the barrel of twenty; contracts see it as the number.
#[derive(Clone, Copy, Debug, PartialEq, Eq)]
pub struct PpNo {
    place: u8,
}

impl Model for PpNo {
    ghost Value = { ℕ };

    ghost view = { λ n. processor_number n.place };

    ghost invariant = { λ n. IsTrue (names_processor (processor_number n.place)) };

    ghost inverse = { λ n. record { place = processor_index n } };

    ghost inverse_ok = { λ n names.
        ap (λ k. record { place = k }) (processor_places.place_again n.place names) };
}

#[tactic(auto, using(crate::specs::PpNo::processor_places), // numbers and places
unfolding(crate::specs::PpNo::names_processor, crate::specs::PpNo::processor_number, // gap
crate::specs::GappedNumbers::is_number, crate::specs::GappedNumbers::number_of))]
impl PpNo {
    /// The processor of this number, or nothing from 12 to 17 (octal) and from 32 on.
    pub fn new(number: u8) -> Option<Self>
        ensures exists { IsSome result ↔ IsTrue (names_processor number) }
        ensures value { IfSome result (λ n. n ≡ number) }
    {
        let place = match number {
            0..=0o11 => number,
            0o20..=0o31 => number - 6,
            _ => return None,
        };
        Some(PpNo { place })
    }

    /// Its number.
    pub fn get(self) -> u8
        ensures value { result ≡ self }
        ensures names { IsTrue (names_processor result) }
    {
        self.place + if self.place < 0o12 { 0 } else { 6 }
    }

    /// Its place in a list of all processors in the barrel's order.
    pub fn index(self) -> usize
        ensures place { result ≡ processor_index self }
        ensures below { result < processor_count }
        // No other processor has this place.
        ensures own { (n : ℕ) → IsTrue (names_processor n) → processor_index n ≡ result → n ≡ self }
    {
        usize::from(self.place)
    }

    /// The processor at a place in the barrel's order.
    pub fn at(place: usize) -> Self
        requires { place < processor_count }
        ensures number { result ≡ processor_number place }
        ensures place { processor_index result ≡ place }
    {
        PpNo { place: place as u8 }
    }

    /// The processor at the next place of twenty; after the last comes the first.
    pub fn next(self) -> Self
        ensures { result ≡ processor_number ((processor_index self + 1) % processor_count) }
    {
        PpNo::at((self.index() + 1) % PROCESSORS)
    }
}
