ghost use Rattle.std.specs.Prelude.{◌≡◌};
ghost use Rattle.pp_word.specs.OnesComplement.{sum, difference, IsSum, IsDifference};

use crate::Word18;

/// 777777, a word of 18 ones: the other zero.
pub(crate) const ALL_ONES: u32 = 0o777_777;

/// The ones' complement sum; 777777 results only from 777777 + 777777.
pub fn add18(a: Word18, b: Word18) -> Word18
    ensures congruence { IsSum a b result }
    ensures value { result ≡ sum a b }
{
    let total = a.get() + b.get();
    if total < ALL_ONES {
        Word18::fitting(total)
    } else {
        Word18::fitting(total - ALL_ONES)
    }
}

/// The ones' complement difference a - b; 777777 results only from 777777 - 000000.
pub fn sub18(a: Word18, b: Word18) -> Word18
    ensures congruence { IsDifference a b result }
    ensures value { result ≡ difference a b }
{
    let (minuend, subtrahend) = (a.get(), b.get());
    if subtrahend <= minuend {
        Word18::fitting(minuend - subtrahend)
    } else {
        Word18::fitting(minuend + ALL_ONES - subtrahend)
    }
}
