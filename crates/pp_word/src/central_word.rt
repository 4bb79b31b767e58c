ghost use Rattle.std.specs.Prelude.{◌≡◌, ◌%◌, ◌^◌};
ghost use Rattle.pp_word.specs.CentralWord.{parts_of, joined};

use crate::{Word12, Word60};

/// Central memory has at most 400000 words (octal).
pub const MOST_CENTRAL_WORDS: u32 = 0o400_000;

fn lowest_part(bits: u64) -> Word12
    ensures { result ≡ bits % 2 ^ 12 }
{
    Word12::truncated((bits % 0o10000) as u32)
}

/// The five parts of a central word, the leftmost twelve bits first.
pub fn split60(word: Word60) -> [Word12; 5]
    ensures parts { result ≡ parts_of word }
    ensures joined_again { joined result ≡ word }
{
    let bits = word.get();
    [
        lowest_part(bits >> 48),
        lowest_part(bits >> 36),
        lowest_part(bits >> 24),
        lowest_part(bits >> 12),
        lowest_part(bits),
    ]
}

/// The central word of five parts, the leftmost twelve bits first.
pub fn join60(parts: &[Word12; 5]) -> Word60
    ensures word { result ≡ joined parts.now }
    ensures split_again { parts_of result ≡ parts.now }
{
    let [first, second, third, fourth, fifth] = *parts;
    let two = u64::from(first.get()) * 0o10000 + u64::from(second.get());
    let three = two * 0o10000 + u64::from(third.get());
    let four = three * 0o10000 + u64::from(fourth.get());
    Word60::truncated(four * 0o10000 + u64::from(fifth.get()))
}
