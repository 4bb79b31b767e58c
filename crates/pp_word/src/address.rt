//! Addresses of the places of a processor's memory, modulo 10000 (octal).

ghost use Rattle.std.specs.Prelude.{◌≡◌, ◌+◌, ◌-◌, ◌%◌, ◌<◌, ◌≤◌};
ghost use Rattle.pp_word.specs.Address.{indexed, next_place, place_count, relative_to};

use crate::{Word6, Word12};

/// The number of places in a processor's memory.
pub const PLACES: u32 = 0o10000;

/// The address m with the index x: m + x, less 7777 from 10000 on (octal).
pub fn index_address(m: Word12, x: Word12) -> Word12
    ensures { result ≡ indexed m x }
{
    let total = u32::from(m.get()) + u32::from(x.get());
    if total < PLACES {
        Word12::truncated(total)
    } else {
        Word12::truncated(total - (PLACES - 1))
    }
}

/// The place of a relative jump from p: p + d for d 00 to 37, p - (77 - d) for d 40 to 77 (octal).
pub fn relative(p: Word12, d: Word6) -> Word12
    ensures value { result ≡ relative_to p d }
    ensures forward { d < 0o40 → result ≡ (p + d) % place_count }
    ensures backward { 0o40 ≤ d → (result + (0o77 - d)) % place_count ≡ p }
{
    let from = u32::from(p.get());
    let by = u32::from(d.get());
    if by < 0o40 {
        Word12::truncated(from + by)
    } else {
        Word12::truncated(from + PLACES - (0o77 - by))
    }
}

/// The next place; 0000 follows 7777 (octal).
pub fn next(p: Word12) -> Word12
    ensures { result ≡ next_place p }
{
    Word12::truncated(u32::from(p.get()) + 1)
}
