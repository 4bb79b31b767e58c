ghost use Rattle.std.specs.Prelude.{◌≡◌, ◌↔◌, ℕ, [], List, Option, IsTrue, map, option_map, IfOk, IfErr, IfNone, IfSome, OnOk};
ghost use Rattle.clap.specs.Words.{Text, subcommand_of, subcommand_rows_of};
ghost use Rattle.pp_command.specs.CommandLine.{AskFor, AsksForMore, Finds, IsAskedOf, IsFaultBy, IsOfARun, IsOfEveryOrder, IsRefused, IsTestedBy, IsWorkOf, MixesForms, Name, ReadsFile, ppsim, refusals};
ghost use Rattle.pp_command.specs.declared.work.Work.{Work};
ghost use Rattle.pp_condition.specs.declared.until.Until.{Until};

use crate::command::command;
use crate::command_kind::CommandKind;
use crate::command_table::command_named;
use crate::option_values::{
    channels_of, fits_a_picture, is_flagged, limits_of, order_of, profile_of, states_of, turns_of,
    until_of, window_of,
};
use crate::text_of::text_of;
use crate::{Asked, LineFault, Tested, Values, Work};
use clap::error::ErrorKind;
use clap::{ArgMatches, Error};
use pp_numbers::CHANNELS;
use std::alloc::{AllocError, Allocator, Global};

/// Whether a command asks for a picture of more turns than it has.
pub fn asks_for_more<V: Values>(kind: CommandKind, values: &V) -> bool
    ensures { IsTrue result ↔ AsksForMore kind (V.value values.now) }
{
    match window_of(values) {
        Some(window) => matches!(kind, CommandKind::Draw) && !fits_a_picture(window),
        None => false,
    }
}

/// The work that a command asks for, if its numbers are in range.
fn work_of<V: Values>(kind: CommandKind, values: &V) -> Option<Work>
    ensures { Finds (IsWorkOf kind (V.value values.now)) result }
{
    if let CommandKind::Check = kind {
        let opened = channels_of(values, "opened")?.unwrap_or([false; CHANNELS]);
        return Some(Work::Check { opened });
    }
    let profile = profile_of(values)?;
    match kind {
        CommandKind::Threads => {
            let limits = limits_of(values)?;
            Some(Work::Threads { profile, limits })
        }
        CommandKind::Lint => Some(Work::Lint { profile }),
        CommandKind::Test => {
            let tested = tested_of(values)?;
            Some(Work::Test { profile, tested })
        }
        _ => {
            let text = text_of(kind, values, profile)?;
            Some(Work::Deck { profile, text })
        }
    }
}

/// What `test` is to test, if its options are of one of its two forms, and their numbers in range.
fn tested_of<V: Values>(values: &V) -> Option<Tested>
    ensures { Finds (IsTestedBy (V.value values.now)) result }
{
    if is_of_a_run(values) {
        return Some(Tested::Run(turns_of(values)?));
    }
    if is_of_every_order(values) {
        return Some(Tested::EveryOrder(states_of(values)?));
    }
    None
}

/// Whether a command is `test`, with options of none of its two forms.
pub fn mixes_forms<V: Values>(kind: CommandKind, values: &V) -> bool
    ensures { IsTrue result ↔ MixesForms kind (V.value values.now) }
{
    matches!(kind, CommandKind::Test) && !is_of_a_run(values) && !is_of_every_order(values)
}

fn is_of_a_run<V: Values>(values: &V) -> bool
    ensures { IsTrue result ↔ IsOfARun (V.value values.now) }
{
    !is_flagged(values, "every-order")
        && values.value_of("states").is_none()
        && values.value_of("turns").is_some()
}

fn is_of_every_order<V: Values>(values: &V) -> bool
    ensures { IsTrue result ↔ IsOfEveryOrder (V.value values.now) }
{
    is_flagged(values, "every-order")
        && values.value_of("states").is_some()
        && values.value_of("turns").is_none()
        && values.value_of("until").is_none()
        && values.value_of("times").is_none()
        && values.value_of("order").is_none()
}

/// What a command asks for, if its numbers are in range.
pub fn asked_of<V: Values, A: Allocator>(
    alloc: A,
    kind: CommandKind,
    values: &V,
) -> Result<Option<Asked<A>>, AllocError>
    ensures asked { IfOk result (λ found. IfSome found (λ asked.
        IsAskedOf kind (V.value values.now) asked.work asked.first.items asked.until)) }
    ensures none { IfOk result (λ found. IfNone found ((work : Work) (first : List ℕ)
        (until : Option Until) → ¬ IsAskedOf kind (V.value values.now) work first until)) }
{
    let (Some(work), Some(until)) = (work_of(kind, values), until_of(values)) else {
        return Ok(None);
    };
    match order_of(alloc, values)? {
        Some(first) => Ok(Some(Asked { work, first, until })),
        None => Ok(None),
    }
}

/// The file to read, if the word for it names one.
pub fn named_file(word: Option<&str>) -> Option<&str>
    ensures { ReadsFile (option_map (λ s. s.now) word.entry) (option_map (λ s. s.now) result) }
{
    match word {
        Some("-") => None,
        _ => word,
    }
}

/// The fault of a parse that failed.
fn refusal(error: Error) -> LineFault
    ensures { IsFaultBy error result }
{
    match error.kind() {
        ErrorKind::OutOfMemory => LineFault::Memory,
        _ => LineFault::Refused(error),
    }
}

/// What the words of a command line ask for, and the file to read; none for standard input. The
/// first word is the program's name.
pub fn read_words<'a>(
    alloc: Global,
    words: &'a [&'a str],
) -> Result<(Asked<Global>, Option<&'a str>), LineFault>
    ensures work { IfOk result (λ read. AskFor (map (λ s. s.now) words.entry.now)
        read.0.work read.0.first.items read.0.until) }
    ensures file { IfOk result (λ read. Name (map (λ s. s.now) words.entry.now)
        (option_map (λ s. s.now) read.1)) }
    ensures taken { OnOk result (refusals (map (λ s. s.now) words.entry.now) ≡ []) }
    // One of clap's refusals of these words, and not for want of memory; or the words are a command
    // line, and no work is asked for within the ranges: `Picture` for a picture of more turns than
    // one has, and for nothing else.
    ensures refused { IfErr result (IsRefused (map (λ s. s.now) words.entry.now)) }
{
    let Ok(command) = command(alloc, words) else {
        return Err(LineFault::Memory);
    };
    match command.try_get_matches_from(words) {
        Ok(matches) => asked_in(alloc, &matches),
        Err(error) => Err(refusal(error)),
    }
}

/// What the command that clap met in some words asks for, and the file to read.
fn asked_in<'a>(
    alloc: Global,
    matches: &ArgMatches<'a>,
) -> Result<(Asked<Global>, Option<&'a str>), LineFault>
    ensures work { (words : List Text)
        → (subcommand_of ppsim words ≡ subcommand_rows_of matches.now)
        → IfOk result (λ read. AskFor words read.0.work read.0.first.items read.0.until) }
    ensures file { (words : List Text)
        → (subcommand_of ppsim words ≡ subcommand_rows_of matches.now)
        → IfOk result (λ read. Name words (option_map (λ s. s.now) read.1)) }
    ensures refused { (words : List Text)
        → (subcommand_of ppsim words ≡ subcommand_rows_of matches.now)
        → (refusals words ≡ []) → IfErr result (IsRefused words) }
{
    let Some((name, inner)) = matches.subcommand() else {
        return Err(LineFault::Number);
    };
    let Some(help) = command_named(name) else {
        return Err(LineFault::Number);
    };
    let kind = help.form.kind;
    match asked_of(alloc, kind, inner) {
        Ok(Some(asked)) => Ok((asked, named_file(inner.get_str("file")))),
        Ok(None) if asks_for_more(kind, inner) => Err(LineFault::Picture),
        Ok(None) if mixes_forms(kind, inner) => Err(LineFault::Forms),
        Ok(None) => Err(LineFault::Number),
        Err(_) => Err(LineFault::Memory),
    }
}
