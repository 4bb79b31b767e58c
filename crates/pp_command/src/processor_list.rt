ghost use Rattle.std.specs.Prelude.{Bool, List, MatchOption};
ghost use Rattle.pp_command.specs.ProcessorList.{AreProcessorsListed};

use crate::number_list::first_of;
use pp_numbers::{PROCESSORS, Profile};
use pp_word::numeral;

/// The processors of a list like `0,1,11`, by flags in the barrel's order. The numbers have one or
/// two octal digits, with a comma between them, and name processors of this profile; any other
/// text lists none.
pub fn listed_processors(profile: Profile, text: &[u8]) -> Option<[bool; PROCESSORS]>
    ensures { MatchOption result
        ((flags : List Bool) → ¬ AreProcessorsListed profile text.now flags)
        (AreProcessorsListed profile text.now) }
{
    let mut flags = [false; PROCESSORS];
    let mut rest = Some(text);
    while let Some(list) = rest {
        let (number, behind) = first_of(list);
        let processor = profile.processor(numeral(8, 2, number)? as u8)?;
        flags[processor.index()] = true;
        rest = behind;
    }
    Some(flags)
}
