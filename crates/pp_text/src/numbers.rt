//! Numbers in octal and decimal digits, of any width.

ghost use Rattle.std.specs.Prelude.{◌≡◌, ◌<◌, ◌/◌, ◌%◌, ◌^◌};
ghost use Rattle.pp_word.specs.Numeral.{decimal, octal, short_decimal, short_octal, unpadded};
ghost use Rattle.pp_text.specs.TextWriter.{Prints};

use crate::{TextWriter, decimal6};
use std::io::Write;

/// The least count that has more than six decimal digits.
const SEVEN_DIGITS: u64 = 1_000_000;

/// Prints a number in exactly `width` octal digits.
pub fn print_octal<W: Write>(text: &mut TextWriter<W>, width: u32, n: u64)
    ensures { Prints W.contents text.old text.new (octal width n) }
{
    if width == 0 {
        return;
    }
    print_octal(text, width - 1, n / 8);
    text.print(&[b'0' + (n % 8) as u8]);
}

/// Prints a number in at most `most` octal digits, without leading zeros.
#[tactic(auto, using(crate::proofs::OctalLemmas::short_rest))]
pub fn print_short_octal<W: Write>(text: &mut TextWriter<W>, most: u32, n: u64)
    requires some { 0 < most }
    requires fits { n < 8 ^ most }
    ensures { Prints W.contents text.old text.new (short_octal most n) }
{
    if n >= 8 {
        print_short_octal(text, most - 1, n / 8);
    }
    text.print(&[b'0' + (n % 8) as u8]);
}

/// Prints a number in decimal digits, without leading zeros, but at most `most` digits.
pub fn print_unpadded<W: Write>(text: &mut TextWriter<W>, most: u32, n: u64)
    ensures { Prints W.contents text.old text.new (unpadded most n) }
{
    if n == 0 || most == 0 {
        return;
    }
    print_unpadded(text, most - 1, n / 10);
    text.print(&[b'0' + (n % 10) as u8]);
}

/// Prints a count in decimal digits, without leading zeros, but at least one digit.
#[tactic(auto, unfolding(pp_word::specs::Numeral::short_decimal))]
pub fn print_short_decimal<W: Write>(text: &mut TextWriter<W>, n: u64)
    ensures { Prints W.contents text.old text.new (short_decimal n) }
{
    print_unpadded(text, 19, n / 10);
    text.print(&[b'0' + (n % 10) as u8]);
}

/// Prints a count in decimal: six digits, with leading zeros, and more only if it needs more.
#[tactic(auto, unfolding(pp_word::specs::Numeral::decimal))]
pub fn print_decimal<W: Write>(text: &mut TextWriter<W>, n: u64)
    ensures { Prints W.contents text.old text.new (decimal n) }
{
    let lower = print_upper_digits(text, n);
    text.print(&decimal6(lower));
}

/// Prints the decimal digits of a count before its last six, and returns the number of these six.
#[inline]
pub fn print_upper_digits<W: Write>(text: &mut TextWriter<W>, n: u64) -> u32
    ensures text { Prints W.contents text.old text.new (unpadded 14 (n / 10 ^ 6)) }
    ensures rest { result ≡ n % 10 ^ 6 }
{
    if n < SEVEN_DIGITS {
        return n as u32;
    }
    print_unpadded(text, 14, n / SEVEN_DIGITS);
    (n % SEVEN_DIGITS) as u32
}
