//! Lawful traces, and the same with one change: a word altered, an event dropped, doubled or moved.

use super::told::{Form, Stand, Told, after, first_unlawful, text_of};
use pp_channel::{CHANNELS, Event};
use pp_check::check_trace;
use std::alloc::{AllocError, Global};
use test_bench::{Chance, report_of_sessions, text_of_sessions, word};

/// No channel was open before the trace.
const NONE: [bool; CHANNELS] = [false; CHANNELS];

/// How many changed traces are to be refused.
const REFUSED: u32 = 1000;

/// An event that may come when a channel stands so.
fn some_event(chance: &mut Chance, stand: Stand) -> Event {
    let kind = chance.next() % 8;
    let code = chance.next();
    match stand {
        Stand::Idle if kind < 6 => Event::Activate,
        Stand::Idle => Event::Function(word(code)),
        Stand::Ready if kind < 7 => Event::Put(word(code)),
        Stand::Holds(held) if kind < 7 => Event::Take(word(held)),
        _ => Event::Disconnect,
    }
}

/// A lawful trace of forty events on four channels.
fn lawful_trace(alloc: Global, chance: &mut Chance) -> Result<Vec<Told>, AllocError> {
    let mut stands = [Stand::Idle; 4];
    let mut lines = Vec::new(alloc);
    for step in 0..40u32 {
        let place = usize::from(chance.next() % 4);
        let event = some_event(chance, stands[place]);
        if let Some(next) = after(stands[place], &event) {
            stands[place] = next;
            lines.push(Told {
                turn: 10 * step,
                place,
                number: 0,
                event,
            })?;
        }
    }
    in_order(&mut lines);
    Ok(lines)
}

/// Numbers the events of each channel from 0 on, and gives each line a later turn.
fn in_order(lines: &mut [Told]) {
    let mut numbers = [0u32; 4];
    let mut turn = 0u32;
    for line in lines.iter_mut() {
        line.turn = turn;
        turn = turn.wrapping_add(10);
        if let Some(number) = numbers.get_mut(line.place) {
            line.number = *number;
            *number = number.wrapping_add(1);
        }
    }
}

/// The event with another word, or another event if it has none.
fn altered(event: &Event) -> Event {
    match event {
        Event::Put(old) => Event::Put(word(old.get() ^ 1)),
        Event::Take(old) => Event::Take(word(old.get() ^ 1)),
        Event::Function(_) | Event::Disconnect => Event::Activate,
        Event::Activate => Event::Disconnect,
    }
}

/// Makes one change of a trace, and then perhaps puts turns and numbers in order again.
fn change(lines: &mut Vec<Told>, chance: &mut Chance) -> Result<(), AllocError> {
    if lines.is_empty() {
        return Ok(());
    }
    let place = usize::from(chance.next()) % lines.len();
    let line = lines[place];
    match chance.next() % 4 {
        0 => {
            lines[place].event = altered(&line.event);
        }
        1 => {
            lines.remove(place);
        }
        2 => {
            lines.insert(place, line)?;
        }
        _ => {
            lines.remove(place);
            let other = usize::from(chance.next()) % lines.len().max(1);
            lines.insert(other, line)?;
        }
    }
    if chance.next() % 2 == 0 {
        in_order(lines);
    }
    Ok(())
}

/// Whether the judge finds the same first unlawful line as the plain check, or none as it, and
/// whether there is one.
fn judged(alloc: Global, lines: &[Told], form: Form) -> Result<(bool, bool), AllocError> {
    let text = text_of(alloc, lines, form)?;
    let unlawful = first_unlawful(lines, form);
    let agrees = match (check_trace(text.as_bytes(), &NONE), unlawful) {
        (Ok(verdict), None) => verdict.events == lines.len() as u64,
        (Err(fault), Some(place)) => fault.line == (place as u64).wrapping_add(1),
        _ => false,
    };
    Ok((agrees, unlawful.is_some()))
}

/// Whether a lawful trace is found lawful, and a changed one judged as it should; and whether that
/// one is refused.
fn round(alloc: Global, chance: &mut Chance, form: Form) -> Result<(bool, bool), AllocError> {
    let mut lines = lawful_trace(alloc, chance)?;
    let is_lawful = judged(alloc, &lines, form)? == (true, false);
    change(&mut lines, chance)?;
    let (agrees, is_refused) = judged(alloc, &lines, form)?;
    Ok((is_lawful && agrees, is_refused))
}

#[test]
fn changed_traces(rt: HostRuntime) {
    let mut chance = Chance::new(6600);
    let mut refused = 0;
    for number in 0..4 * REFUSED {
        if refused >= REFUSED {
            break;
        }
        let form = if number % 2 == 0 {
            Form::ByTurn
        } else {
            Form::ByNumber
        };
        let ended = round(rt.alloc(), &mut chance, form);
        let (is_right, is_refused) = ended.unwrap_or((false, false));
        assert!(rt; is_right, "round {number}");
        if is_refused {
            refused += 1;
        }
    }
    assert!(rt; refused == REFUSED);
}

/// How many sessions the long texts have, of two events each.
const SESSIONS: u32 = 1000;

/// Whether a text is lawful, with all these sessions on one channel.
fn has_sessions(text: &str) -> bool {
    let sessions = u64::from(SESSIONS);
    match check_trace(text.as_bytes(), &NONE) {
        Ok(verdict) => {
            (verdict.events, verdict.channels, verdict.sessions) == (2 * sessions, 1, sessions)
        }
        Err(_) => false,
    }
}

/// Long texts of runs, as the barrel and threads print them, are lawful.
#[test]
fn long_texts(rt: HostRuntime) {
    let text = text_of_sessions(rt.alloc(), SESSIONS).expect(&rt, "a text");
    let report = report_of_sessions(rt.alloc(), SESSIONS).expect(&rt, "a report");
    assert!(rt; has_sessions(&text) && has_sessions(&report));
}
