//! The help of the program and of its commands, as clap prints it.

use crate::text::Text;
use crate::usage::say_usage;
use pp_command::{
    ABOUT, CommandHelp, EXAMPLE, FILE_HELP, MANUAL, OptionForm, VERSION, command_named, commands,
};
use std::alloc::Allocator;

/// What is said of the command `help`, and how to call it.
const HELP_ABOUT: &str = "Print this message or the help of the given subcommand(s)";

pub(crate) const HELP_USAGE: &str = "Usage: ppsim help [COMMAND]...";

/// What the short help says of the option for help.
const HELP_IN_SHORT: &str = "Print help (see more with '--help')";

/// The option for help, and what the long help says of it.
const HELP_AT_LENGTH: &str = "  -h, --help\n          Print help (see a summary with '-h')\n\n";

pub(crate) fn version_text<A: Allocator + Copy>(alloc: A) -> Text<A> {
    let mut text = Text::of(alloc, "ppsim ");
    text.say_with("@\n", VERSION);
    text
}

/// The help of a topic, which is a command or `help`.
pub(crate) fn topic_help<A: Allocator + Copy>(alloc: A, topic: &str) -> Text<A> {
    if let Some(help) = command_named(topic) {
        return command_help(alloc, &help, true);
    }
    let mut text = Text::of(alloc, HELP_ABOUT);
    text.say_with("\n\n@\n\nArguments:\n", HELP_USAGE);
    text.say("  [COMMAND]...  Print help for the subcommand(s)\n");
    text
}

pub(crate) fn program_help<A: Allocator + Copy>(alloc: A, is_long: bool) -> Text<A> {
    let mut text = Text::of(alloc, ABOUT);
    say_commands(&mut text);
    text.say("\nOptions:\n");
    if is_long {
        text.say(HELP_AT_LENGTH);
        text.say_with("  -V, --version\n          Print version\n\n@\n", MANUAL);
    } else {
        text.say_with("  -h, --help     @\n", HELP_IN_SHORT);
        text.say_with("  -V, --version  Print version\n\n@\n", EXAMPLE);
    }
    text
}

/// Adds the commands, with `help` last.
fn say_commands<A: Allocator + Copy>(text: &mut Text<A>) {
    text.say("\n\nUsage: ppsim <COMMAND>\n\nCommands:\n");
    let mut widest = 4;
    for help in &commands() {
        widest = widest.max(help.form.name.len());
    }
    for help in &commands() {
        text.say_with("  @", help.form.name);
        say_help(text, help.form.about, help.form.name.len(), widest);
    }
    text.say("  help");
    say_help(text, HELP_ABOUT, 4, widest);
}

pub(crate) fn command_help<A: Allocator + Copy>(
    alloc: A,
    help: &CommandHelp,
    is_long: bool,
) -> Text<A> {
    let form = help.form;
    let mut text = Text::of(alloc, if is_long { help.long_about } else { form.about });
    say_usage(&mut text, form);
    if is_long {
        say_long_options(&mut text, form.options);
    } else {
        say_options(&mut text, form.options);
    }
    text.say_with("@\n", form.example);
    text
}

/// Adds what a command takes, each with its help on a line of its own.
fn say_long_options<A: Allocator + Copy>(text: &mut Text<A>, options: &'static [OptionForm]) {
    text.say_with("Arguments:\n  [FILE]\n          @\n\nOptions:\n", FILE_HELP);
    for option in options {
        text.say_option("      ", option);
        text.say_with("\n          @\n\n", option.help());
    }
    text.say(HELP_AT_LENGTH);
}

/// Adds what a command takes, each with its help beside it.
fn say_options<A: Allocator + Copy>(text: &mut Text<A>, options: &'static [OptionForm]) {
    text.say_with("Arguments:\n  [FILE]  @\n\nOptions:\n", FILE_HELP);
    let mut widest = 4;
    for option in options {
        widest = widest.max(width_of(option));
    }
    for option in options {
        text.say_option("      ", option);
        say_help(text, option.help(), width_of(option), widest);
    }
    text.say("  -h, --help");
    say_help(text, HELP_IN_SHORT, 4, widest);
    text.say("\n");
}

/// How many characters an option takes on a command line, its two hyphens left out.
fn width_of(option: &OptionForm) -> usize {
    match option.value_name() {
        None => option.name.len(),
        Some(value) => option
            .name
            .len()
            .saturating_add(value.len())
            .saturating_add(3),
    }
}

/// Adds the help of an item of this width beside it, behind the widest of the list.
fn say_help<A: Allocator + Copy>(text: &mut Text<A>, help: &str, width: usize, widest: usize) {
    for _ in width..widest {
        text.say(" ");
    }
    text.say_with("  @\n", help);
}
