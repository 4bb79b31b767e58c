ghost use Rattle.std.specs.Prelude.{◌≡◌, ◌<◌, ◌≤◌, ◌^◌, IfOk};
ghost use Rattle.pp_deck.specs.OctalNumber.{number};

use crate::flaw::Flaw;
use pp_word::{Word12, numeral};

/// The number in a field of at most `most` octal digits.
#[tactic(auto, unfolding(crate::specs::OctalNumber::number))]
pub(crate) fn number(field: &[u8], most: usize) -> Result<u64, Flaw>
    requires { most ≤ 20 }
    ensures exact { result ≡ number most field.now }
    ensures small { IfOk result (λ n. n < 8 ^ most) }
{
    numeral(8, most, field).ok_or(Flaw::BadDigits)
}

/// The word of 12 bits in a field of at most four digits.
pub(crate) fn word12(field: &[u8]) -> Result<Word12, Flaw>
    ensures { result ≡ number 4 field.now }
{
    Ok(Word12::truncated(number(field, 4)? as u32))
}
