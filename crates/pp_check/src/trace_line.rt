ghost use Rattle.std.specs.Prelude.{◌≡◌, ◌<◌, is_some, length, if◌then◌else◌};
ghost use Rattle.pp_check.specs.TraceLine.{active_said, are_over, channel_in, channel_line, parsed_event, is_processor, last_word, parsed_line, number_after, numbered_line, parsed_state, turn_line};

use pp_channel::{ChannelNo, ChannelState, Event, Flags};
use pp_deck::Fields;
use pp_numbers::PpNo;
use pp_word::{Word12, numeral};

/// What one line of a trace says.
#[derive(Clone, Copy)]
pub enum TraceLine {
    /// An event in a turn, on a channel.
    AtTurn(u64, ChannelNo, Event),
    /// An event of a channel with its number.
    Numbered(u64, ChannelNo, Event),
    /// The state of a channel.
    Standing(ChannelNo, ChannelState),
    /// Nothing that concerns channels.
    Other,
}

/// The longest numbers of turns and events, in decimal digits.
const COUNT_DIGITS: usize = 19;

/// What a line with these fields says.
#[tactic(auto, unfolding(crate::specs::TraceLine::parsed_line))]
pub(crate) fn line_in(fields: &mut Fields) -> Option<TraceLine>
    ensures { result ≡ parsed_line fields.old }
{
    match fields.next_field() {
        Some(field) if processor_in(field).is_none() => match channel_in(field) {
            Some(channel) => channel_line(channel, fields),
            None => turn_line(field, fields),
        },
        _ => Some(TraceLine::Other),
    }
}

/// `000020 PP00 CH05 PUT 0007`, with its first field.
#[tactic(auto, unfolding(crate::specs::TraceLine::turn_line))]
fn turn_line(field: &[u8], fields: &mut Fields) -> Option<TraceLine>
    ensures { result ≡ turn_line field.now fields.old }
{
    let turn = numeral(10, COUNT_DIGITS, field)?;
    processor_in(fields.next_field()?)?;
    let channel = channel_in(fields.next_field()?)?;
    Some(TraceLine::AtTurn(turn, channel, event_in(fields)?))
}

/// What follows `CH05`: an event with its number, as `000001 PP00 PUT 0007`, or a state.
#[tactic(auto, unfolding(crate::specs::TraceLine::channel_line, // what follows a channel
crate::specs::TraceLine::numbered_line))]
fn channel_line(channel: ChannelNo, fields: &mut Fields) -> Option<TraceLine>
    ensures { result ≡ channel_line channel fields.old }
{
    let field = fields.next_field()?;
    match numeral(10, COUNT_DIGITS, field) {
        Some(number) => {
            processor_in(fields.next_field()?)?;
            Some(TraceLine::Numbered(number, channel, event_in(fields)?))
        }
        None => Some(TraceLine::Standing(channel, state_in(field, fields)?)),
    }
}

/// `ACN`, `DCN`, `PUT 0007`, `TAK 0007`, `FNC 0007`.
#[tactic(auto, unfolding(crate::specs::TraceLine::parsed_event))]
fn event_in(fields: &mut Fields) -> Option<Event>
    ensures { result ≡ parsed_event fields.old }
{
    match fields.next_field()? {
        b"ACN" => are_over(fields).then_some(Event::Activate),
        b"DCN" => are_over(fields).then_some(Event::Disconnect),
        b"PUT" => Some(Event::Put(last_word(fields)?)),
        b"TAK" => Some(Event::Take(last_word(fields)?)),
        b"FNC" => Some(Event::Function(last_word(fields)?)),
        _ => None,
    }
}

/// `INACTIVE`, `ACTIVE EMPTY`, `ACTIVE FULL 0007`, with its first field.
#[tactic(auto, unfolding(crate::specs::TraceLine::parsed_state))]
fn state_in(field: &[u8], fields: &mut Fields) -> Option<ChannelState>
    ensures { result ≡ parsed_state field.now fields.old }
{
    if field == b"INACTIVE".as_slice() {
        are_over(fields).then_some(ChannelState::INACTIVE)
    } else if field == b"ACTIVE".as_slice() {
        active_in(fields)
    } else {
        None
    }
}

/// `EMPTY` and `FULL 0007` after `ACTIVE`.
fn active_in(fields: &mut Fields) -> Option<ChannelState>
    ensures { result ≡ active_said fields.old }
{
    match fields.next_field()? {
        b"EMPTY" => are_over(fields).then_some(ChannelState::EMPTY),
        b"FULL" => Some(ChannelState {
            flags: Flags {
                active: true,
                full: true,
            },
            register: Some(last_word(fields)?),
        }),
        _ => None,
    }
}

fn are_over(fields: &mut Fields) -> bool
    ensures { result ≡ are_over fields.old }
{
    fields.next_field().is_none()
}

/// The word of 12 bits that ends the line.
#[tactic(auto, unfolding(pp_word::specs::Numeral::numeral))]
fn last_word(fields: &mut Fields) -> Option<Word12>
    ensures { result ≡ last_word fields.old }
{
    let word = numeral(8, 4, fields.next_field()?)?;
    are_over(fields).then_some(Word12::truncated(word as u32))
}

/// The processor of a field like `PP00`.
#[tactic(auto, unfolding(crate::specs::TraceLine::is_processor))]
fn processor_in(field: &[u8]) -> Option<PpNo>
    ensures { is_some result ≡ is_processor field.now }
{
    PpNo::new(number_after(b"PP", field)?)
}

/// The channel of a field like `CH05`.
#[tactic(auto, unfolding(crate::specs::TraceLine::channel_in))]
fn channel_in(field: &[u8]) -> Option<ChannelNo>
    ensures { result ≡ channel_in field.now }
{
    ChannelNo::new(number_after(b"CH", field)?)
}

/// The number after two letters, in at most two octal digits.
#[tactic(auto, unfolding(crate::specs::TraceLine::number_after))]
fn number_after(letters: &[u8], field: &[u8]) -> Option<u8>
    requires { length letters.now ≡ 2 }
    ensures { result ≡ number_after letters.now field.now }
{
    Some(numeral(8, 2, field.strip_prefix(letters)?)? as u8)
}
