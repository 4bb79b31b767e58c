/// What follows an instruction's mnemonic: d is the lower six bits of its word, m its second word.
#[derive(Clone, Copy)]
pub enum Operands {
    /// `mmmm`, and `,dd` if d is not 00: a place, and the place of its index.
    IndexedPlace,
    /// The place that a taken jump leads to.
    JumpPlace,
    /// `ddmmmm`: a constant of 18 bits.
    Constant,
    /// `mmmm,dd`: a place, and a channel or the place of a count.
    PlaceAndNumber,
    /// `dd`.
    Number,
}
