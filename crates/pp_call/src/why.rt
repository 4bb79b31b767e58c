//! Why the words of a command are refused. If they have several faults, the one is named that clap
//! names.

use crate::call_word::{asks_for_help, letter_of, long_of};
use crate::call_words::{CallWords, option_named};
use crate::refusal_text::{TRY_HELP, say_surplus_value};
use crate::similar::similar_option;
use crate::text::Text;
use crate::usage::{say_usage, say_usage_of};
use pp_command::{CommandForm, OptionForm, ValueForm};
use std::alloc::Allocator;

/// What asks for something after a command.
const REQUESTS: &[&str] = &["help"];

/// What is said of the words after a command's name, of which the one at this place is refused
/// after what was given, or of which too few are there.
pub(crate) fn command_refusal<'a, A: Allocator + Copy>(
    alloc: A,
    form: &'static CommandForm,
    given: &CallWords<'a, A>,
    words: &[&'a str],
    place: usize,
) -> Text<A> {
    let mut text = Text::of(alloc, "error: ");
    match given.waiting {
        Some(option) => say_waiting(&mut text, form, given, option, words, place),
        None => say_free(&mut text, form, given, words, place),
    }
    text.say(TRY_HELP);
    text
}

/// Whether a word does not look like an option, and is not `--`.
pub(crate) fn is_plain(word: &str) -> bool {
    !word.starts_with('-') || word == "-"
}

/// Whether a word stands at this place that does not look like an option, and is not `--`.
fn is_plain_at(words: &[&str], place: usize) -> bool {
    match words.get(place) {
        Some(word) => is_plain(word),
        None => false,
    }
}

/// Says why a word is refused before which this option waits for its value, or why none may follow.
fn say_waiting<'a, A: Allocator + Copy>(
    text: &mut Text<A>,
    form: &'static CommandForm,
    given: &CallWords<'a, A>,
    option: &'static OptionForm,
    words: &[&'a str],
    place: usize,
) {
    let is_value = is_plain_at(words, place);
    let next = place.saturating_add(usize::from(is_value));
    let but = if is_value { option.name } else { "" };
    if says_next(text, form, given, words, next, but) {
        return;
    }
    if is_value {
        return say_twice(text, form, option.name);
    }
    text.say_option("a value is required for '", option);
    text.say("' but none was supplied\n\n");
}

/// Says that the option of this name is given twice.
fn say_twice<A: Allocator + Copy>(text: &mut Text<A>, form: &'static CommandForm, name: &str) {
    if let Some(option) = option_named(form.options, name) {
        text.say_option("the argument '", option);
        text.say("' cannot be used multiple times");
        say_usage(text, form);
    }
}

/// Says what is wrong with the word at this place and those after it where an option waits, which
/// takes away what was given to this one, if anything is.
fn says_next<'a, A: Allocator + Copy>(
    text: &mut Text<A>,
    form: &'static CommandForm,
    given: &CallWords<'a, A>,
    words: &[&'a str],
    place: usize,
    but: &str,
) -> bool {
    let plain = match words.get(place) {
        Some(word) if *word == "--" => words.get(place.saturating_add(1)),
        Some(word) if !is_plain(word) => return says_never(text, form, given, word, but),
        word => word,
    };
    match plain {
        Some(word) if given.given("file").is_some() => say_surplus(text, form, word),
        _ => return false,
    }
    true
}

/// Says that a word is one too many.
fn say_surplus<A: Allocator + Copy>(text: &mut Text<A>, form: &'static CommandForm, word: &str) {
    text.say_with("unexpected argument '@' found", word);
    say_usage(text, form);
}

/// Says why a word is refused before which no option waits, or why one has to follow.
fn say_free<'a, A: Allocator + Copy>(
    text: &mut Text<A>,
    form: &'static CommandForm,
    given: &CallWords<'a, A>,
    words: &[&'a str],
    place: usize,
) {
    let Some(word) = words.get(place) else {
        return say_missing(text, form, given);
    };
    if given.ended || is_plain(word) {
        return say_surplus(text, form, word);
    }
    // A value that is a word of its own counts once the next word has been read.
    let but = match given.values.last() {
        Some(last) if place > 0 && is_plain_at(words, place - 1) => last.0,
        _ => "",
    };
    if says_never(text, form, given, word, but) {
        return;
    }
    if let Some((name, _)) = long_of(word) {
        say_twice(text, form, name);
    }
}

/// Says what is wrong with a word that looks like an option, whatever stands before it, if anything
/// is. The usage does not name one option: where an option waits, beside one that is unknown, else
/// beside one that takes no value.
fn says_never<A: Allocator + Copy>(
    text: &mut Text<A>,
    form: &'static CommandForm,
    given: &CallWords<'_, A>,
    word: &str,
    but: &str,
) -> bool {
    if asks_for_help(word) {
        return false;
    }
    let Some((name, value)) = long_of(word) else {
        say_letter(text, form, letter_of(word).unwrap_or("-"));
        return true;
    };
    let option = option_named(form.options, name);
    let is_flag = match option {
        Some(option) => matches!(option.value, ValueForm::Flag(_)),
        None => name == "help",
    };
    match value {
        Some(value) if is_flag => {
            say_surplus_value(text, name, value);
            let but = if given.waiting.is_none() { but } else { "" };
            say_usage_of(text, form, given, but, name);
        }
        _ if option.is_some() => return false,
        _ => {
            let similar = say_unknown(text, form, name);
            let but = if given.waiting.is_none() { "" } else { but };
            say_usage_of(text, form, given, but, similar);
        }
    }
    true
}

/// Says that a command has no option of this letter.
fn say_letter<A: Allocator + Copy>(text: &mut Text<A>, form: &'static CommandForm, letter: &str) {
    text.say_with(
        "unexpected argument '-@' found\n\n  tip: to pass '-@' as a value, use '-- -@'",
        letter,
    );
    say_usage(text, form);
}

/// Says that a command has no option of this name, and which one is like it; returns that one's
/// name, or an empty one.
fn say_unknown<A: Allocator + Copy>(
    text: &mut Text<A>,
    form: &'static CommandForm,
    name: &str,
) -> &'static str {
    text.say_with("unexpected argument '--@' found\n\n  tip: ", name);
    if let Some(similar) = similar_option(text, name, form.options, REQUESTS) {
        text.say_with("a similar argument exists: '--@'", similar);
        return similar;
    }
    text.say_with("to pass '--@' as a value, use '-- --@'", name);
    ""
}

/// Says which options a command needs that are not given.
fn say_missing<A: Allocator + Copy>(
    text: &mut Text<A>,
    form: &'static CommandForm,
    given: &CallWords<'_, A>,
) {
    text.say("the following required arguments were not provided:");
    let mut last = None;
    for option in form.options {
        if option.required && given.given(option.name).is_none() {
            text.say_option("\n  ", option);
            last = Some(option.name);
        }
    }
    say_usage_of(text, form, given, "", last.unwrap_or(""));
}
