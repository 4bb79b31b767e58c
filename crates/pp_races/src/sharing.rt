//! Whether a central word is shared.

ghost use Rattle.std.specs.Prelude.{◌≡◌, count_by};
ghost use Rattle.std.specs.Option.{option_to_list};
ghost use Rattle.pp_numbers.specs.Tables.{tabulate};
ghost use Rattle.pp_numbers.specs.PpNo.{processor_count, processor_number};
ghost use Rattle.pp_races.specs.Findings.{is_shared, sharing_of};
ghost use Rattle.pp_races.specs.Tables.{IsUseOf, has_bit};
ghost use Rattle.pp_races.specs.Watch.{Watch};

use crate::Finding;
use crate::word_use::{WordUse, has_bit};
use pp_machine::{PROCESSORS, PpNo};

/// The processors of a mask, by place.
fn flags_of(mask: u32) -> [bool; PROCESSORS]
    ensures { result ≡ tabulate processor_count (λ place. has_bit mask (processor_number place)) }
{
    let mut flags = [false; PROCESSORS];
    for place in 0..PROCESSORS {
        flags[place] = has_bit(mask, PpNo::at(place));
    }
    flags
}

/// How many flags are set.
pub(crate) fn count(flags: &[bool]) -> usize
    ensures { result ≡ count_by (λ flag. flag) flags.now }
{
    flags.iter().filter(|flag| **flag).count()
}

/// Whether one processor wrote a word and another used it.
fn is_shared(writers: &[bool; PROCESSORS], users: &[bool; PROCESSORS]) -> bool
    ensures { result ≡ is_shared writers.now users.now }
{
    0 < count(writers) && 1 < count(users)
}

/// What is found of the central word of this address, if it is shared.
pub(crate) fn sharing(address: u32, use_of: WordUse) -> Option<Finding>
    ensures { (w : Watch) → IsUseOf w.wrote w.used address use_of
        → option_to_list result ≡ sharing_of w address }
{
    let writers = flags_of(use_of.writers);
    let users = flags_of(use_of.users);
    if is_shared(&writers, &users) {
        return Some(Finding::Shared(address, writers, users));
    }
    None
}
