//! Reading conditions.

ghost use Rattle.pp_word.specs.Numeral.{numeral};
ghost use Rattle.std.specs.Prelude.{◌≡◌, codes, option_map};
ghost use Rattle.pp_condition.specs.ConditionText.{after, alone, before, condition_in, event_form, in_central, last_word, number_after, numbered, on_channel, on_processor, parts_of, processor_condition, read_condition, stands_at, stored};

use crate::{Condition, EventForm, ProcessorCondition};
use pp_deck::Fields;
use pp_numbers::{ChannelNo, Profile};
use pp_word::{Word12, Word18, Word60, numeral};

/// The condition that a text says, such as `PP00 P=0105` or `CH05 PUT 0007`, of the steps of a
/// machine of this profile. Numbers are octal, in at most as many digits as are printed of them.
pub fn condition_in(profile: Profile, text: &[u8]) -> Option<Condition>
    ensures { result ≡ condition_in profile text.now }
{
    let mut fields = Fields::of(text);
    condition_by(profile, &mut fields)
}

#[tactic(auto, unfolding(crate::specs::ConditionText::read_condition))]
fn condition_by(profile: Profile, fields: &mut Fields) -> Option<Condition>
    ensures { result ≡ read_condition profile fields.old }
{
    let field = fields.next_field()?;
    if field == b"LOST".as_slice() {
        alone(Condition::Lost, fields)
    } else if field == b"QUIET".as_slice() {
        alone(Condition::Quiet, fields)
    } else if field == b"CM".as_slice() {
        in_central(fields)
    } else {
        numbered(profile, field, fields)
    }
}

/// What begins with a field like `PP00` or `CH05`.
fn numbered(profile: Profile, field: &[u8], fields: &mut Fields) -> Option<Condition>
    ensures { result ≡ numbered profile (number_after (codes "PP") 2 field.now)
        (number_after (codes "CH") 2 field.now) fields.old }
{
    if let Some(n) = number_after(b"PP", field) {
        return on_processor(profile, n, fields);
    }
    on_channel(number_after(b"CH", field)?, fields)
}

/// What follows `PP00`.
fn on_processor(profile: Profile, n: u8, fields: &mut Fields) -> Option<Condition>
    ensures { result ≡ on_processor profile n fields.old }
{
    let does = processor_condition(fields.next_field()?)?;
    alone(Condition::Processor(profile.processor(n)?, does), fields)
}

/// `P=0105`, `STOPPED`, `FAULT`, `HELD`, `(0302)`, `(0302)=0007`
#[tactic(auto, unfolding(crate::specs::ConditionText::processor_condition))]
fn processor_condition(field: &[u8]) -> Option<ProcessorCondition>
    ensures { result ≡ processor_condition field.now }
{
    if field == b"STOPPED".as_slice() {
        Some(ProcessorCondition::Stops)
    } else if field == b"FAULT".as_slice() {
        Some(ProcessorCondition::Faults)
    } else if field == b"HELD".as_slice() {
        Some(ProcessorCondition::IsHeld)
    } else {
        match stands_at(field) {
            Some(condition) => Some(condition),
            None => stored(field),
        }
    }
}

/// `P=0105`
#[tactic(auto, unfolding(crate::specs::ConditionText::stands_at))]
fn stands_at(field: &[u8]) -> Option<ProcessorCondition>
    ensures { result ≡ stands_at field.now }
{
    Some(ProcessorCondition::StandsAt(word12_in(after(b"P=", field)?)?))
}

/// `(0302)`, `(0302)=0007`
#[tactic(auto, unfolding(crate::specs::ConditionText::stored))]
fn stored(field: &[u8]) -> Option<ProcessorCondition>
    ensures { result ≡ stored field.now }
{
    let (place, word) = parts_of(field);
    let word = match word {
        Some(word) => Some(word12_in(word)?),
        None => None,
    };
    let place = word12_in(before(b")", after(b"(", place)?)?)?;
    Some(ProcessorCondition::Stores(place, word))
}

/// What follows `CH05`.
fn on_channel(c: u8, fields: &mut Fields) -> Option<Condition>
    ensures { result ≡ on_channel c fields.old }
{
    let channel = ChannelNo::new(c)?;
    Some(Condition::Channel(channel, event_form(fields)?))
}

/// Nothing, `ACN`, `DCN`, `PUT`, `PUT 0007`, `TAK`, `FNC`
#[tactic(auto, unfolding(crate::specs::ConditionText::event_form))]
fn event_form(fields: &mut Fields) -> Option<EventForm>
    ensures { result ≡ event_form fields.old }
{
    let Some(name) = fields.next_field() else {
        return Some(EventForm::Any);
    };
    match name {
        b"ACN" => alone(EventForm::Activate, fields),
        b"DCN" => alone(EventForm::Disconnect, fields),
        b"PUT" => Some(EventForm::Put(last_word(fields)?)),
        b"TAK" => Some(EventForm::Take(last_word(fields)?)),
        b"FNC" => Some(EventForm::Function(last_word(fields)?)),
        _ => None,
    }
}

/// What follows `CM`: `20`, `20=00010000000000000000`
fn in_central(fields: &mut Fields) -> Option<Condition>
    ensures { result ≡ in_central fields.old }
{
    let (address, word) = parts_of(fields.next_field()?);
    let word = match word {
        Some(word) => Some(Word60::truncated(numeral(8, 20, word)?)),
        None => None,
    };
    let address = Word18::truncated(numeral(8, 6, address)? as u32);
    alone(Condition::Central(address, word), fields)
}

/// The word that ends the line, or none.
fn last_word(fields: &mut Fields) -> Option<Option<Word12>>
    ensures { result ≡ last_word fields.old }
{
    let Some(field) = fields.next_field() else {
        return Some(None);
    };
    alone(Some(word12_in(field)?), fields)
}

/// This, if no field is left.
fn alone<T: Copy>(x: T, fields: &mut Fields) -> Option<T>
    ensures { result ≡ alone x fields.old }
{
    match fields.next_field() {
        Some(_) => None,
        None => Some(x),
    }
}

// ---- parts of a field

/// What stands before the first `=`, and what stands behind it, if there is one.
fn parts_of(field: &[u8]) -> (&[u8], Option<&[u8]>)
    ensures { (result.0.now, option_map (λ behind. behind.now) result.1) ≡ parts_of field.now }
{
    match field.iter().position(|byte| *byte == b'=') {
        Some(place) => (&field[..place], Some(&field[place + 1..])),
        None => (field, None),
    }
}

/// The number of two octal digits after two letters.
fn number_after(letters: &[u8], field: &[u8]) -> Option<u8>
    ensures { result ≡ number_after letters.now 2 field.now }
{
    Some(numeral(8, 2, after(letters, field)?)? as u8)
}

/// A word of 12 bits.
fn word12_in(field: &[u8]) -> Option<Word12>
    ensures { result ≡ numeral 8 4 field.now }
{
    Some(Word12::truncated(numeral(8, 4, field)? as u32))
}

/// What follows a text at the front of a field.
#[tactic(auto, unfolding(crate::specs::ConditionText::after))]
fn after<'a>(front: &[u8], field: &'a [u8]) -> Option<&'a [u8]>
    ensures { option_map (λ rest. rest.now) result ≡ after front.now field.now }
{
    field.strip_prefix(front)
}

/// What stands before a text at its end.
#[tactic(auto, unfolding(crate::specs::ConditionText::before))]
fn before<'a>(end: &[u8], field: &'a [u8]) -> Option<&'a [u8]>
    ensures { option_map (λ rest. rest.now) result ≡ before end.now field.now }
{
    field.strip_suffix(end)
}
