//! Numbers in octal and decimal digits.

ghost use Rattle.std.specs.Prelude.{◌≡◌, ◌<◌, ◌^◌};
ghost use Rattle.pp_word.specs.Numeral.{decimal_pairs, digits, octal};

// Each event's line has some of these fields: octal digits are put together in one register,
// decimal ones come from a table.

/// The last two octal digits of a number.
pub fn octal2(n: u8) -> [u8; 2]
    ensures { result ≡ octal 2 n }
{
    let n = u16::from(n);
    (0x3030 + n / 8 % 8 + n % 8 * 0x100).to_le_bytes()
}

/// The last four octal digits.
pub fn octal4(n: u16) -> [u8; 4]
    ensures { result ≡ octal 4 n }
{
    let n = u32::from(n);
    let first = 0x3030_3030 + n / 8 / 8 / 8 % 8 + n / 8 / 8 % 8 * 0x100;
    (first + n / 8 % 8 * 0x1_0000 + n % 8 * 0x100_0000).to_le_bytes()
}

/// The last six octal digits.
pub fn octal6(n: u32) -> [u8; 6]
    ensures { result ≡ octal 6 n }
{
    [
        b'0' + (n / 8 / 8 / 8 / 8 / 8 % 8) as u8,
        b'0' + (n / 8 / 8 / 8 / 8 % 8) as u8,
        b'0' + (n / 8 / 8 / 8 % 8) as u8,
        b'0' + (n / 8 / 8 % 8) as u8,
        b'0' + (n / 8 % 8) as u8,
        b'0' + (n % 8) as u8,
    ]
}

/// The last two decimal digits.
#[tactic(auto, using(crate::proofs::PairLemmas::decimal_pair))]
fn decimal2(n: u32) -> [u8; 2]
    ensures { result ≡ digits 10 2 n }
{
    let pairs = decimal_pairs();
    let first = 2 * (n % 100) as usize;
    [pairs[first], pairs[first + 1]]
}

/// Six decimal digits.
pub fn decimal6(n: u32) -> [u8; 6]
    requires { n < 10 ^ 6 }
    ensures { result ≡ digits 10 6 n }
{
    let [n0, n1] = decimal2(n / 10_000);
    let [n2, n3] = decimal2(n / 100);
    let [n4, n5] = decimal2(n);
    [n0, n1, n2, n3, n4, n5]
}

/// The two decimal digits of each number below 100 (decimal), one number after another.
#[tactic(auto, unfolding(pp_word::specs::Numeral::decimal_pairs))]
fn decimal_pairs() -> [u8; 200]
    ensures { result ≡ decimal_pairs }
{
    *b"00010203040506070809101112131415161718192021222324252627282930313233343536373839\
      40414243444546474849505152535455565758596061626364656667686970717273747576777879\
      8081828384858687888990919293949596979899"
}
