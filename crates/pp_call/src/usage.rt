//! How to call the program, as its help and its refusals print it.

use crate::call_words::{CallWords, option_named};
use crate::text::Text;
use pp_command::CommandForm;
use std::alloc::Allocator;

/// Adds a paragraph on how to call a command, with all it takes.
pub(crate) fn say_usage<A: Allocator + Copy>(text: &mut Text<A>, form: &'static CommandForm) {
    text.say_with("\n\nUsage: ppsim @", form.name);
    for option in form.options {
        if !option.required {
            text.say(" [OPTIONS]");
            break;
        }
    }
    say_required(text, form);
    text.say(" [FILE]\n\n");
}

/// Adds a paragraph on how to call a command: with what it needs, with what was given but this
/// option, and with one more, if it is named; or with all it takes, if it needs no more than that.
pub(crate) fn say_usage_of<A: Allocator + Copy>(
    text: &mut Text<A>,
    form: &'static CommandForm,
    given: &CallWords<'_, A>,
    but: &str,
    more: &str,
) {
    if more.is_empty() && given.values.len() <= usize::from(!but.is_empty()) {
        return say_usage(text, form);
    }
    text.say_with("\n\nUsage: ppsim @", form.name);
    say_required(text, form);
    say_given(text, form, given, but);
    if more == but || given.given(more).is_none() {
        say_used(text, form, more);
    }
    match given.given("file") {
        Some(_) if but != "file" => text.say(" <FILE>\n\n"),
        _ => text.say(" [FILE]\n\n"),
    }
}

/// Adds the options that a command needs.
fn say_required<A: Allocator + Copy>(text: &mut Text<A>, form: &'static CommandForm) {
    for option in form.options {
        if option.required {
            text.say_option(" ", option);
        }
    }
}

/// Adds the options that were given and that a command does not need, but this one.
fn say_given<A: Allocator + Copy>(
    text: &mut Text<A>,
    form: &'static CommandForm,
    given: &CallWords<'_, A>,
    but: &str,
) {
    for &(name, _) in &given.values {
        if name != but {
            say_used(text, form, name);
        }
    }
}

/// Adds an option that a command does not need.
fn say_used<A: Allocator + Copy>(text: &mut Text<A>, form: &'static CommandForm, name: &str) {
    match option_named(form.options, name) {
        Some(option) if !option.required => text.say_option(" ", option),
        None if name == "help" => text.say(" --help"),
        _ => {}
    }
}
