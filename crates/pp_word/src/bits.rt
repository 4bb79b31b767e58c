ghost use Rattle.std.specs.Prelude.{ℕ, ◌≡◌, ◌+◌, ◌-◌, ◌%◌, ◌<◌, ◌≤◌, not, ◌&&◌, if◌then◌else◌};
ghost use Rattle.pp_word.specs.Bits.{bit, shift, complement, logical_product, logical_difference, selective_clear};

use crate::ones_complement::ALL_ONES;
use crate::{Word6, Word18};

/// Each bit inverted.
pub fn complement18(a: Word18) -> Word18
    ensures value { result ≡ complement a }
    ensures each_bit { (i : ℕ) → i < 18 → bit result i ≡ not (bit a i) }
{
    Word18::truncated(ALL_ONES - a.get())
}

/// The shift of SHN: left and round by d for d 00 to 37, right by 77 - d for d 40 to 77 (octal);
/// in a right shift zeros come in, and what leaves the low end is lost.
pub fn shift18(a: Word18, d: Word6) -> Word18
    ensures value { result ≡ shift a d }
    ensures left { d < 0o40 → (i : ℕ) → i < 18 → bit result ((i + d) % 18) ≡ bit a i }
    // From past the uppermost bit comes 0.
    ensures right { 0o40 ≤ d → (i : ℕ) → i < 18 → bit result i ≡ bit a (i + (0o77 - d)) }
{
    let bits = a.get();
    let by = u32::from(d.get());
    if by < 0o40 {
        let turn = by % 18;
        Word18::truncated(bits << turn | bits >> (18 - turn))
    } else {
        Word18::truncated(bits >> (0o77 - by))
    }
}

/// LPN, the logical product: 1 in each bit where both words have 1.
pub fn and18(a: Word18, b: Word18) -> Word18
    ensures value { result ≡ logical_product a b }
    ensures each_bit { (i : ℕ) → i < 18 → bit result i ≡ (bit a i && bit b i) }
{
    Word18::truncated(a.get() & b.get())
}

/// LMN, the logical difference: 1 in each bit where exactly one of the words has 1.
pub fn xor18(a: Word18, b: Word18) -> Word18
    ensures value { result ≡ logical_difference a b }
    ensures each_bit { (i : ℕ) → i < 18 → bit result i
        ≡ (if bit a i then not (bit b i) else bit b i) }
{
    Word18::truncated(a.get() ^ b.get())
}

/// SCN, the selective clear: 1 in each bit where a has 1 and b has 0.
pub fn clear18(a: Word18, b: Word18) -> Word18
    ensures value { result ≡ selective_clear a b }
    ensures each_bit { (i : ℕ) → i < 18 → bit result i ≡ (bit a i && not (bit b i)) }
{
    Word18::truncated(a.get() & (ALL_ONES - b.get()))
}
