ghost use Rattle.std.specs.Prelude.{◌≡◌, ◌-◌, ◌≤◌, ◌↔◌, IsTrue, codes, option_map, IfOk};
ghost use Rattle.pp_numbers.specs.Limits.{AreLimits};
ghost use Rattle.pp_command.specs.CommandLine.{Finds, ReadsAddress, ReadsBounds, ReadsChosen, ReadsCondition, ReadsNumber, ReadsOrder, ReadsProcessor, ReadsProcessors, ReadsProfile, ReadsTurn, ReadsFlag, ReadsStates, ReadsTimes, ReadsTurns, ReadsUntil, ReadsWindow, most_drawn};

use crate::number_range::{FROM, NumberRange, PATIENCE, STATES, STEPS, TIMES, TURNS};
use crate::processor_list::listed_processors;
use crate::{Values, listed_channels, listed_order};
use pp_condition::{Condition, Until, condition_in};
use pp_numbers::{Bounds, CHANNELS, Limits, MOST_TURNS, PROCESSORS, PpNo, Profile, Window};
use std::alloc::{AllocError, Allocator};

/// The number in an option's value, if it is in this range.
fn number_in<V: Values>(values: &V, id: &str, range: NumberRange) -> Option<u32>
    ensures { Finds (λ n. ReadsNumber (V.value values.now id.now) n
        × ((range.least ≤ n) × (n ≤ range.most))) result }
{
    match values.value_of(id)?.parse::<u32>() {
        Ok(number) if range.contains(number) => Some(number),
        _ => None,
    }
}

/// The profile with as many processors as the options say, if there is one; the 6600's own if they
/// do not say it.
pub(crate) fn profile_of<V: Values>(values: &V) -> Option<Profile>
    ensures { Finds (ReadsProfile (V.value values.now (codes "processors"))) result }
{
    let Some(text) = values.value_of("processors") else {
        return Some(Profile::Ten);
    };
    match text.parse::<u32>() {
        Ok(10) => Some(Profile::Ten),
        Ok(20) => Some(Profile::Twenty),
        _ => None,
    }
}

/// The limits that the options say, if they are in range. The ranges printed in the help are those
/// of `Limits`.
pub(crate) fn limits_of<V: Values>(values: &V) -> Option<Limits>
    ensures { Finds (λ limits. ReadsNumber (V.value values.now (codes "steps")) limits.steps
        × ReadsNumber (V.value values.now (codes "patience")) limits.patience
        × AreLimits limits) result }
{
    let steps = number_in(values, "steps", STEPS)?;
    let patience = number_in(values, "patience", PATIENCE)?;
    Some(Limits::new(steps, patience).unwrap())
}

/// The number of turns that the options say, if it is in range.
pub(crate) fn turns_of<V: Values>(values: &V) -> Option<u32>
    ensures { Finds (ReadsTurns (V.value values.now)) result }
{
    number_in(values, "turns", TURNS)
}

/// The number of standings that the options say, if it is in range.
pub(crate) fn states_of<V: Values>(values: &V) -> Option<u32>
    ensures { Finds (ReadsStates (V.value values.now)) result }
{
    number_in(values, "states", STATES)
}

/// The processor of a machine of this profile that `--pp` gives, in octal, if there is one.
pub(crate) fn processor_of<V: Values>(values: &V, profile: Profile) -> Option<PpNo>
    ensures { Finds (ReadsProcessor profile (V.value values.now (codes "pp"))) result }
{
    match u8::from_str_radix(values.value_of("pp")?, 8) {
        Ok(number) => profile.processor(number),
        Err(_) => None,
    }
}

/// The processors of a machine of this profile that `--pp` lists, in octal, if it is given; nothing
/// if the text is no such list.
pub(crate) fn processors_of<V: Values>(
    values: &V,
    profile: Profile,
) -> Option<Option<[bool; PROCESSORS]>>
    ensures { Finds (ReadsProcessors profile (V.value values.now (codes "pp"))) result }
{
    match values.value_of("pp") {
        Some(text) => listed_processors(profile, text.as_bytes()).map(Some),
        None => Some(None),
    }
}

/// The channels that an option lists, in octal, if it is given; nothing if the text is no such
/// list.
pub(crate) fn channels_of<V: Values>(values: &V, id: &str) -> Option<Option<[bool; CHANNELS]>>
    ensures { Finds (ReadsChosen (V.value values.now id.now)) result }
{
    match values.value_of(id) {
        Some(text) => listed_channels(text.as_bytes()).map(Some),
        None => Some(None),
    }
}

/// The processors of the first steps that `--order` lists, or none if it is not given; nothing if
/// the text is no such list.
pub(crate) fn order_of<V: Values, A: Allocator>(
    alloc: A,
    values: &V,
) -> Result<Option<Vec<PpNo, A>>, AllocError>
    ensures { IfOk result (λ order. Finds (ReadsOrder
        (V.value values.now (codes "processors")) (V.value values.now (codes "order")))
        (option_map (λ first. first.items) order)) }
{
    let Some(text) = values.value_of("order") else {
        return Ok(Some(Vec::new(alloc)));
    };
    let Some(profile) = profile_of(values) else {
        return Ok(None);
    };
    listed_order(alloc, profile, text.as_bytes())
}

/// The condition in an option's value, of the steps of a machine of this profile, if it is given;
/// nothing if the value is none.
pub(crate) fn condition_of<V: Values>(
    values: &V,
    id: &str,
    profile: Profile,
) -> Option<Option<Condition>>
    ensures { Finds (ReadsCondition profile (V.value values.now id.now)) result }
{
    match values.value_of(id) {
        Some(text) => condition_in(profile, text.as_bytes()).map(Some),
        None => Some(None),
    }
}

/// Until when the run goes on that `--until` and `--times` say, if they are given; nothing if they
/// are not a condition and how many steps have to meet it.
pub(crate) fn until_of<V: Values>(values: &V) -> Option<Option<Until>>
    ensures { Finds (ReadsUntil (V.value values.now (codes "processors"))
        (V.value values.now (codes "until")) (V.value values.now (codes "times"))) result }
{
    let Some(text) = values.value_of("until") else {
        return values.value_of("times").is_none().then_some(None);
    };
    let condition = condition_in(profile_of(values)?, text.as_bytes())?;
    let times = times_of(values)?;
    Some(Some(Until { condition, times }))
}

/// How many steps have to meet the condition, if it is in range; one if it is not said.
fn times_of<V: Values>(values: &V) -> Option<u32>
    ensures { Finds (ReadsTimes (V.value values.now (codes "times"))) result }
{
    match values.value_of("times") {
        Some(_) => number_in(values, "times", TIMES),
        None => Some(1),
    }
}

/// The address in an option's value, in octal; this one if the option is not given.
fn address_of<V: Values>(values: &V, id: &str, default: u32) -> Option<u32>
    ensures { Finds (ReadsAddress default (V.value values.now id.now)) result }
{
    match values.value_of(id) {
        Some(text) => u32::from_str_radix(text, 8).ok(),
        None => Some(default),
    }
}

/// The bounds of the words to print, if they lie within a memory of this size.
pub(crate) fn bounds_of<V: Values>(values: &V, size: u32) -> Option<Bounds>
    requires { 1 ≤ size }
    ensures { Finds (ReadsBounds size (V.value values.now)) result }
{
    let first = address_of(values, "first", 0)?;
    let last = address_of(values, "last", size - 1)?;
    Bounds::new(first, last, size)
}

/// The turn in an option's value, if it is in range; this one if the option is not given.
pub(crate) fn turn_of<V: Values>(values: &V, id: &str, default: u32) -> Option<u32>
    ensures { Finds (ReadsTurn default (V.value values.now id.now)) result }
{
    match values.value_of(id) {
        Some(_) => number_in(values, id, FROM),
        None => Some(default),
    }
}

/// The turns that the options say to be drawn, if they are in range, however many they are.
#[tactic(auto, unfolding(crate::specs::CommandLine::ReadsWindow))]
pub(crate) fn window_of<V: Values>(values: &V) -> Option<Window>
    ensures { Finds (ReadsWindow (V.value values.now)) result }
{
    let turns = turns_of(values)?;
    let to = turn_of(values, "to", turns)?;
    let from = turn_of(values, "from", 0)?;
    (from <= to && to <= turns).then_some(Window { from, to })
}

/// Whether turns are no more than a picture has.
pub(crate) fn fits_a_picture(window: Window) -> bool
    ensures { IsTrue result ↔ (window.to - window.from ≤ most_drawn) }
{
    window.to.saturating_sub(window.from) <= MOST_TURNS
}

/// Whether an option without a value is given.
pub(crate) fn is_flagged<V: Values>(values: &V, id: &str) -> bool
    ensures { ReadsFlag (V.value values.now id.now) result }
{
    matches!(values.value_of(id), Some("true"))
}
