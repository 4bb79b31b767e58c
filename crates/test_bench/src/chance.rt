//! Pseudo-random numbers, the same in each run.

ghost use Rattle.std.specs.Prelude.{◌<◌};

/// A sequence of pseudo-random numbers.
#[derive(Drop)]
pub struct Chance {
    state: u32,
}

impl Chance {
    /// The sequence from this state on.
    pub fn new(state: u32) -> Chance {
        Chance { state }
    }

    /// The next number, below 4096 (decimal).
    pub fn next(&mut self) -> u16
        ensures twelve_bits { result < 4096 }
    {
        self.state = self
            .state
            .wrapping_mul(1_664_525)
            .wrapping_add(1_013_904_223);
        (self.state >> 20) as u16
    }
}
