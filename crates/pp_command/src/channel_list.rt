ghost use Rattle.std.specs.Prelude.{Bool, List, MatchOption};
ghost use Rattle.pp_command.specs.ChannelList.{AreListed};

use crate::number_list::first_of;
use pp_numbers::{CHANNELS, ChannelNo};
use pp_word::numeral;

/// The channels of a list like `1,5,13`, by flags in the order of their places. The numbers have
/// one or two octal digits, with a comma between them; any other text lists no channels.
pub fn listed_channels(text: &[u8]) -> Option<[bool; CHANNELS]>
    ensures { MatchOption result ((flags : List Bool) → ¬ AreListed text.now flags)
        (AreListed text.now) }
{
    let mut flags = [false; CHANNELS];
    let mut rest = Some(text);
    while let Some(list) = rest {
        let (number, behind) = first_of(list);
        let channel = ChannelNo::new(numeral(8, 2, number)? as u8)?;
        flags[channel.index()] = true;
        rest = behind;
    }
    Some(flags)
}
