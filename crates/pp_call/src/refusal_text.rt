//! What is said of words that are refused, as clap says it.

use crate::call_word::{letter_of, long_of};
use crate::call_words::is_topic;
use crate::help_text::HELP_USAGE;
use crate::similar::{say_similar_commands, similar_option};
use crate::text::Text;
use crate::usage::say_usage;
use crate::why::is_plain;
use pp_command::{command_named, commands};
use std::alloc::Allocator;

/// A text, and how to get help.
macro_rules! try_help {
    ($before:literal) => {
        concat!($before, "For more information, try '--help'.\n")
    };
}

pub(crate) const TRY_HELP: &str = try_help!("");

const ENDED_OPTIONS: &str = "unexpected argument '@' found

  tip: subcommand '@' exists; to use it, remove the '--' before it";

const NO_TOPIC: &str = try_help!("\n\nUsage: ppsim <COMMAND>\n\n");

/// What asks for something before a command.
const REQUESTS: &[&str] = &["help", "version"];

/// Says that an option takes no value, but has this one.
pub(crate) fn say_surplus_value<A: Allocator + Copy>(text: &mut Text<A>, name: &str, value: &str) {
    text.say_with("unexpected value '@' for ", value);
    text.say_with("'--@' found; no more were expected", name);
}

/// What is said of words that begin with no command, and ask for nothing: the first, if there is
/// one, and those after it.
pub(crate) fn program_refusal<A: Allocator + Copy>(
    alloc: A,
    first: Option<&str>,
    more: &[&str],
) -> Text<A> {
    let mut text = Text::of(alloc, "error: ");
    let used = say_program_fault(&mut text, first, more);
    text.say("\n\nUsage: ppsim ");
    if let Some(name) = used {
        text.say_with("--@ ", name);
    }
    text.say(try_help!("<COMMAND>\n\n"));
    text
}

/// Says what is wrong with words that begin with no command, and ask for nothing; returns the
/// option for the usage to name.
fn say_program_fault<'a, A: Allocator + Copy>(
    text: &mut Text<A>,
    first: Option<&'a str>,
    more: &[&str],
) -> Option<&'a str> {
    match first {
        None => say_no_command(text),
        Some("--") => say_ended_options(text, more.first().copied()),
        Some(word) if is_plain(word) => say_unknown_command(text, word),
        Some(word) => return say_unknown_request(text, word, more),
    }
    None
}

/// Says what is wrong with words that begin with `--`, of which this one is the next.
fn say_ended_options<A: Allocator + Copy>(text: &mut Text<A>, next: Option<&str>) {
    match next {
        Some(word) if is_topic(word) => {
            text.say_with(ENDED_OPTIONS, word);
        }
        Some(word) => say_unknown_command(text, word),
        None => say_no_command(text),
    }
}

/// Says that no command is given, and which there are.
fn say_no_command<A: Allocator + Copy>(text: &mut Text<A>) {
    text.say("'ppsim' requires a subcommand but one was not provided\n  [subcommands: ");
    for help in &commands() {
        text.say_with("@, ", help.form.name);
    }
    text.say("help]");
}

/// Says that there is no such command, and which are like it.
fn say_unknown_command<A: Allocator + Copy>(text: &mut Text<A>, word: &str) {
    text.say_with("unrecognized subcommand '@'", word);
    say_similar_commands(text, word);
}

/// Says that the program takes no such option before a command, and which one is like it; returns
/// the one for the usage to name.
fn say_unknown_request<'a, A: Allocator + Copy>(
    text: &mut Text<A>,
    word: &'a str,
    more: &[&str],
) -> Option<&'a str> {
    let Some((name, value)) = long_of(word) else {
        text.say_with(
            "unexpected argument '-@' found",
            letter_of(word).unwrap_or("-"),
        );
        return None;
    };
    if matches!(name, "help" | "version") {
        say_surplus_value(text, name, value.unwrap_or(""));
        return Some(name);
    }
    text.say_with("unexpected argument '--@' found", name);
    let similar = similar_option(text, name, &[], REQUESTS);
    match similar {
        Some(similar) => text.say_with("\n\n  tip: a similar argument exists: '--@'", similar),
        None => say_similar_of_commands(text, name, more),
    }
    similar
}

/// Says which option of a command among these words is like this name.
fn say_similar_of_commands<A: Allocator + Copy>(text: &mut Text<A>, name: &str, words: &[&str]) {
    for word in words {
        let Some(help) = command_named(word) else {
            continue;
        };
        if let Some(option) = similar_option(text, name, help.form.options, &[]) {
            text.say_with("\n\n  tip: '@ --", word);
            return text.say_with("@' exists", option);
        }
    }
}

/// What is said of words after `help`, a topic and more, of which one is no topic.
pub(crate) fn topic_refusal<A: Allocator + Copy>(alloc: A, topic: &str, more: &[&str]) -> Text<A> {
    let mut text = Text::of(alloc, "error: unrecognized subcommand '");
    let wrong = match more.first() {
        Some(after) if is_topic(topic) => after,
        _ => topic,
    };
    text.say_with("@'", wrong);
    match command_named(topic) {
        Some(help) => {
            say_usage(&mut text, help.form);
            text.say(TRY_HELP);
        }
        None if topic == "help" => text.say_with("\n\n@\n", HELP_USAGE),
        None => text.say(NO_TOPIC),
    }
    text
}
