ghost use Rattle.std.specs.Prelude.{◌≡◌, false, map, IfOk};
ghost use Rattle.std.specs.Option.{option_map_or};
ghost use Rattle.clap.specs.Words.{app_of, rule_of};
ghost use Rattle.clap.specs.declared.builder.command.Command.TheViews.{out-Command as fields_of};
ghost use Rattle.pp_command.specs.CommandLine.{ReadsAlike, app_of_command, bare, command_of_form, file_argument, flag_option, optional_value, rule_by, rule_of_form, with_commands};

use crate::command_kind::CommandKind;
use crate::command_table::{ABOUT, EXAMPLE, FILE_HELP, MANUAL, command_named, commands};
use crate::number_range::NumberRange;
use clap::{Arg, ArgAction, Command};
use std::alloc::{AllocError, Global};
use std::fmt::{self, Display, Formatter, Write};

/// The version of the program, and the toolchain with which it is proved and built.
pub const VERSION: &str = "1.0 (rattle-kit-13f logic dac8208d650f15bf)";

/// An option of a command.
#[derive(Clone, Copy)]
pub struct OptionForm {
    pub name: &'static str,
    /// Whether its command needs it.
    pub required: bool,
    pub value: ValueForm,
}

/// As it stands on a command line: `--turns <N>`.
impl Display for OptionForm {
    fn fmt<W: Write>(&self, f: &mut Formatter<W>) -> fmt::Result {
        let name = self.name;
        match self.value_name() {
            None => write!(f, "--{name}"),
            Some(value) => write!(f, "--{name} <{value}>"),
        }
    }
}

impl OptionForm {
    /// What stands for its value on a command line, as in `--turns <N>`, if it takes one.
    pub fn value_name(&self) -> Option<&'static str>
        ensures { rule_by self.now.value self.now.name.now ≡ option_map_or
            (λ _. optional_value self.now.name.now) result (flag_option self.now.name.now) }
    {
        match self.value {
            ValueForm::Flag(_) => None,
            ValueForm::Number(_) => Some("N"),
            ValueForm::Text(value, _) => Some(value),
        }
    }

    /// What help says of it.
    pub fn help(&self) -> &'static str {
        match self.value {
            ValueForm::Flag(help) | ValueForm::Text(_, help) => help,
            ValueForm::Number(range) => range.help,
        }
    }
}

/// The value of an option, and the help of the option.
#[derive(Clone, Copy)]
pub enum ValueForm {
    /// No value.
    Flag(&'static str),
    Number(NumberRange),
    /// A text, by what the help calls it.
    Text(&'static str, &'static str),
}

/// A command with its short help and its options.
#[derive(Clone, Copy)]
pub struct CommandForm {
    pub kind: CommandKind,
    pub name: &'static str,
    /// Its line in the list of commands, with which its short help begins.
    pub about: &'static str,
    /// The end of both helps.
    pub example: &'static str,
    pub options: &'static [OptionForm],
}

/// A command with its help. The long text stands apart, as the prover takes longer over one within
/// a static value.
#[derive(Clone, Copy)]
pub struct CommandHelp {
    pub form: &'static CommandForm,
    /// What its long help says in place of the line in the list.
    pub long_about: &'static str,
}

fn option_of<'a>(alloc: Global, form: &OptionForm) -> Arg<'a>
    ensures rule { rule_of result ≡ rule_of_form form.now }
    ensures local { result.global ≡ false }
{
    let option = Arg::new(alloc, form.name)
        .long(form.name)
        .required(form.required)
        .help(form.help());
    match form.value_name() {
        None => option.action(ArgAction::SetTrue),
        Some(name) => option.action(ArgAction::Set).value_name(name),
    }
}

/// The word that names the file to read.
fn file_argument<'a>(alloc: Global) -> Arg<'a>
    ensures rule { rule_of result ≡ file_argument }
    ensures local { result.global ≡ false }
{
    Arg::new(alloc, "file")
        .action(ArgAction::Set)
        .value_name("FILE")
        .help(FILE_HELP)
}

/// A command of this form, with its options and a file.
fn command_of<'a>(alloc: Global, help: &CommandHelp) -> Result<Command<'a>, AllocError>
    ensures app { IfOk result (λ c. app_of c
        ≡ app_of_command (command_of_form help.now.form.now)) }
    ensures local { IfOk result (λ c. (fields_of c).has_globals ≡ false) }
{
    let form = help.form;
    let mut command = Command::new(alloc, form.name)
        .about(form.about)
        .long_about(help.long_about)
        .after_help(form.example);
    for option in form.options {
        command = command.arg(option_of(alloc, option))?;
    }
    command.arg(file_argument(alloc))
}

/// The command line with these commands.
fn with_commands<'a>(alloc: Global, helps: &[CommandHelp]) -> Result<Command<'a>, AllocError>
    ensures { IfOk result (λ c. app_of c ≡ with_commands bare
        (map (λ help. app_of_command (command_of_form help.form.now)) helps.now)) }
{
    let mut app = without_commands(alloc);
    for help in helps {
        app = app.subcommand(command_of(alloc, help)?)?;
    }
    Ok(app)
}

/// The command line without its commands.
fn without_commands<'a>(alloc: Global) -> Command<'a>
    ensures { app_of result ≡ bare }
{
    Command::new(alloc, "ppsim")
        .about(ABOUT)
        .version(VERSION)
        .after_help(EXAMPLE)
        .after_long_help(MANUAL)
        .subcommand_required(true)
}

/// The command line, for these words. If the first of them after the program's name is that of a
/// command, it has this command alone: a parse looks at no other.
pub(crate) fn command<'a>(alloc: Global, words: &[&str]) -> Result<Command<'a>, AllocError>
    ensures { IfOk result (λ c. ReadsAlike (map (λ s. s.now) words.now) (app_of c)) }
{
    if let Some(name) = words.get(1) {
        if let Some(help) = command_named(name) {
            return with_commands(alloc, &[help]);
        }
    }
    with_commands(alloc, &commands())
}
