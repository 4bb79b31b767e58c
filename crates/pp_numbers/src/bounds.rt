ghost use Rattle.std.specs.Prelude.{◌≡◌, ◌<◌, ◌≤◌, ◌↔◌, IsSome, IfSome};
ghost use Rattle.pp_numbers.specs.Bounds.{meets};

/// The first and the last of the places or addresses that are shown.
#[derive(Clone, Copy)]
pub struct Bounds {
    first: u32,
    last: u32,
}

impl Bounds {
    /// From first to last, or nothing where last comes before first, or is at or past the size.
    pub fn new(first: u32, last: u32, size: u32) -> Option<Bounds>
        ensures fits { IsSome result ↔ ((first ≤ last) × (last < size)) }
        ensures value { IfSome result (λ bounds. bounds ≡ record { first = first; last = last }) }
    {
        (first <= last && last < size).then_some(Bounds { first, last })
    }

    /// Whether some number from `from` to `to`, which is no less, is within.
    pub fn meets(&self, from: u32, to: u32) -> bool
        ensures { result ≡ meets self.now from to }
    {
        self.first <= to && from <= self.last
    }
}
