//! What holds a processor, in words.

ghost use Rattle.pp_text.specs.Standing.{channel_held_text, flags_text};
ghost use Rattle.pp_text.specs.TextWriter.{Prints};

use crate::numbers::print_unpadded;
use crate::{TextWriter, channel_name};
use pp_channel::{ChannelNo, Flags};
use std::io::Write;

/// Prints ` HELD CH01 ACTIVE EMPTY x376`: a channel at these flags holds a processor, and this many
/// (decimal) of its last steps in a row were held. A count of 0 is left out.
pub fn print_held_text<W: Write>(text: &mut TextWriter<W>, c: ChannelNo, flags: Flags, count: u32)
    ensures { Prints W.contents text.old text.new (channel_held_text c flags count) }
{
    text.print(b" HELD ");
    text.print(&channel_name(c));
    text.print(b" ");
    print_flags_text(text, flags);
    if count != 0 {
        text.print(b" x");
        print_unpadded(text, 10, u64::from(count));
    }
}

/// Prints `ACTIVE FULL`, `ACTIVE EMPTY` or `INACTIVE`.
pub fn print_flags_text<W: Write>(text: &mut TextWriter<W>, flags: Flags)
    ensures { Prints W.contents text.old text.new (flags_text flags) }
{
    match (flags.active, flags.full) {
        (true, true) => text.print(b"ACTIVE FULL"),
        (true, false) => text.print(b"ACTIVE EMPTY"),
        (false, _) => text.print(b"INACTIVE"),
    }
}
