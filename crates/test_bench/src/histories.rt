//! The law of histories, written a second time as a plain check.

use pp_channel::Event;

/// Whether a history has only idle stretches and sessions, in which each word is put and then
/// taken.
pub fn is_lawful(events: &[Event]) -> bool {
    let mut active = false;
    let mut untaken = None;
    for event in events {
        match event {
            Event::Function(_) if !active => {}
            Event::Activate if !active => active = true,
            Event::Put(word) if active && untaken.is_none() => untaken = Some(word.get()),
            Event::Take(word) if active && untaken == Some(word.get()) => untaken = None,
            Event::Disconnect if active => {
                active = false;
                untaken = None;
            }
            _ => return false,
        }
    }
    true
}
