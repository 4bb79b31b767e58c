ghost use Rattle.std.specs.Prelude.{◌≡◌, Some};
ghost use Rattle.std.specs.Fmt.{DisplaysOnOk};
ghost use Rattle.pp_check.specs.FaultText.{obstacle_text, passing_text, unlawful_text};
ghost use Rattle.pp_text.specs.PrintedText.{event_text};

use pp_channel::{ChannelNo, ChannelState, Event, Flags};
use pp_word::Word6;
use std::fmt::{self, Formatter, Write};

/// `PUT 0002 on CH05, which is full`: a channel, an event that may not come on it, and the
/// channel's state.
pub(crate) fn write_unlawful<W: Write>(
    f: &mut Formatter<W>,
    channel: ChannelNo,
    event: &Event,
    state: &ChannelState,
) -> fmt::Result
    ensures { DisplaysOnOk W.write_str_gives f.old result
        (Some (unlawful_text channel event.now state.now)) f.new }
{
    write_event(f, event)?;
    write!(f, " on CH{}, ", Word6::truncated(channel.get()))?;
    write_obstacle(f, event, state)
}

/// `PUT 0007`.
fn write_event<W: Write>(f: &mut Formatter<W>, event: &Event) -> fmt::Result
    ensures { DisplaysOnOk W.write_str_gives f.old result (Some (event_text event.now)) f.new }
{
    match event {
        Event::Activate => f.write_str("ACN"),
        Event::Disconnect => f.write_str("DCN"),
        Event::Put(word) => write!(f, "PUT {word}"),
        Event::Take(word) => write!(f, "TAK {word}"),
        Event::Function(word) => write!(f, "FNC {word}"),
    }
}

/// What prevents an event: words pass on an active channel, to an empty register and out of a full
/// one, and then it is the word that waits.
fn write_obstacle<W: Write>(
    f: &mut Formatter<W>,
    event: &Event,
    state: &ChannelState,
) -> fmt::Result
    ensures { DisplaysOnOk W.write_str_gives f.old result
        (Some (obstacle_text event.now state.now)) f.new }
{
    match (event, state.register) {
        (Event::Take(_), Some(word)) => write!(f, "expected TAK {word}"),
        (Event::Take(_) | Event::Put(_), _) => f.write_str(passing(&state.flags)),
        _ if state.flags.active => f.write_str("which is active"),
        _ => f.write_str("which is inactive"),
    }
}

fn passing(flags: &Flags) -> &'static str
    ensures { result.now ≡ passing_text flags.now }
{
    match flags {
        Flags { active: false, .. } => "which is inactive",
        Flags { full: true, .. } => "which is full",
        Flags { full: false, .. } => "which is empty",
    }
}
