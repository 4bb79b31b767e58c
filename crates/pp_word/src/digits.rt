ghost use Rattle.std.specs.Prelude.{◌≡◌, ℕ, ◌<◌, ◌≤◌, ◌^◌, IfSome, Some, length};
ghost use Rattle.pp_word.specs.Numeral.{IsNumeral, decimal, numeral, octal};

/// The number in a field of at most `most` digits of a base.
#[tactic(auto, unfolding(crate::specs::Numeral::numeral))]
pub fn numeral(base: u64, most: usize, field: &[u8]) -> Option<u64>
    requires base { base ≤ 10 }
    requires few { 1 < base }
    requires most { base ^ most ≤ 2 ^ 64 }
    ensures exact { result ≡ numeral base most field.now }
    ensures small { IfSome result (λ n. n < base ^ most) }
{
    if field.is_empty() || field.len() > most {
        return None;
    }
    let mut value = 0;
    for character in field {
        let digit = u64::from(character.checked_sub(b'0')?);
        if digit >= base {
            return None;
        }
        value = value * base + digit;
    }
    Some(value)
}

/// A printed number spells what it stands for: each octal field of words, addresses and numbers in
/// its width, and each count of 64 bits in decimal. Read back, it gives the same number: an octal
/// field, as in a deck, and a count of at most 19 digits.
pub fn numeral_law()
    ensures octal_width { (width n : ℕ) → length (octal width n) ≡ width }
    ensures octal_value { (width n : ℕ) → n < 8 ^ width → IsNumeral 8 (octal width n) n }
    ensures octal_field { (width n : ℕ) → 0 < width → n < 8 ^ width
        → numeral 8 width (octal width n) ≡ Some n }
    ensures decimal_width { (n : ℕ) → 6 ≤ length (decimal n) }
    ensures short_decimal { (n : ℕ) → n < 10 ^ 6 → length (decimal n) ≡ 6 }
    ensures decimal_value { (n : ℕ) → n < 2 ^ 64 → IsNumeral 10 (decimal n) n }
    ensures decimal_field { (n : ℕ) → n < 10 ^ 19 → numeral 10 19 (decimal n) ≡ Some n }
{}
