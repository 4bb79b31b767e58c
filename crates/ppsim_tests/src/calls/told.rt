//! Traces line by line, and a plain check of them that knows nothing of the judge.

use pp_channel::Event;
use std::alloc::{AllocError, Global};

/// The channels of these traces (octal).
pub(crate) const NUMBERS: [u8; 4] = [0o5, 0o13, 0o20, 0o33];

/// A line of a trace: its turn, the place of its channel among `NUMBERS`, the number of the event
/// on the channel, and the event.
#[derive(Clone, Copy)]
pub(crate) struct Told {
    pub(crate) turn: u32,
    pub(crate) place: usize,
    pub(crate) number: u32,
    pub(crate) event: Event,
}

/// How a channel stands.
#[derive(Clone, Copy, PartialEq, Eq)]
pub(crate) enum Stand {
    Idle,
    Ready,
    Holds(u16),
}

/// How a channel stands after an event; nothing if the event may not come.
pub(crate) fn after(stand: Stand, event: &Event) -> Option<Stand> {
    match (stand, event) {
        (Stand::Idle, Event::Function(_)) => Some(Stand::Idle),
        (Stand::Idle, Event::Activate) => Some(Stand::Ready),
        (Stand::Ready, Event::Put(word)) => Some(Stand::Holds(word.get())),
        (Stand::Holds(held), Event::Take(word)) if held == word.get() => Some(Stand::Ready),
        (Stand::Ready, Event::Disconnect) => Some(Stand::Idle),
        (Stand::Holds(_), Event::Disconnect) => Some(Stand::Idle),
        _ => None,
    }
}

/// In which form a trace is printed.
#[derive(Clone, Copy)]
pub(crate) enum Form {
    ByTurn,
    ByNumber,
}

/// Whether a line is in order after those before it: after one of this turn, if after any, and at
/// this number on its channel.
fn is_in_order(line: &Told, form: Form, turn_before: Option<u32>, number: u32) -> bool {
    match form {
        Form::ByTurn => turn_before < Some(line.turn),
        Form::ByNumber => number == line.number,
    }
}

/// The place of the first line, from 0 on, that may not come after those before it.
pub(crate) fn first_unlawful(lines: &[Told], form: Form) -> Option<usize> {
    let mut stands = [Stand::Idle; 4];
    let mut numbers = [0u32; 4];
    let mut turn_before = None;
    for (place, line) in lines.iter().enumerate() {
        let stand = stands.get_mut(line.place)?;
        let number = numbers.get_mut(line.place)?;
        let in_order = is_in_order(line, form, turn_before, *number);
        *stand = match after(*stand, &line.event) {
            Some(next) if in_order => next,
            _ => return Some(place),
        };
        *number = number.wrapping_add(1);
        turn_before = Some(line.turn);
    }
    None
}

/// The text of a trace.
pub(crate) fn text_of(alloc: Global, lines: &[Told], form: Form) -> Result<String, AllocError> {
    let mut text = String::new(alloc);
    for line in lines {
        push_line(&mut text, line, form)?;
    }
    Ok(text)
}

fn push_line(text: &mut String, line: &Told, form: Form) -> Result<(), AllocError> {
    let channel = NUMBERS.get(line.place).copied().unwrap_or(0);
    let (turn, number) = (line.turn, line.number);
    match form {
        Form::ByTurn => write!(text, "{turn:06} PP00 CH{channel:02o} ")?,
        Form::ByNumber => write!(text, "CH{channel:02o} {number:06} PP00 ")?,
    }
    push_event(text, &line.event)
}

fn push_event(text: &mut String, event: &Event) -> Result<(), AllocError> {
    let (name, word) = match event {
        Event::Activate => return text.push_str("ACN\n"),
        Event::Disconnect => return text.push_str("DCN\n"),
        Event::Put(word) => ("PUT", word),
        Event::Take(word) => ("TAK", word),
        Event::Function(word) => ("FNC", word),
    };
    writeln!(text, "{name} {:04o}", word.get())
}
