ghost use Rattle.std.specs.Prelude.{◌≡◌, codes, map, option_map, IfErr, IfOk, OnOk};
ghost use Rattle.pp_call.specs.CallWords.{AsksForNone, CallFor, IsAskRefused, IsCallRefused, IsRefusal, IsReportedAs, given_from, is_flag, is_topic, is_whole, option_named, reading_of_topics, reading_without_command, value_among, whole, with_given, with_option, with_plain_word, with_value, with_word};
ghost use Rattle.pp_call.specs.CallWords.Reading.{given};
ghost use Rattle.pp_command.specs.CommandLine.{IsAskedOf, ReadsFile, rule_of_form};

use crate::call_word::{asks_for_help, asks_for_version, is_option, long_of};
use crate::help_text::{command_help, program_help, topic_help, version_text};
use crate::refusal_text::{program_refusal, topic_refusal};
use crate::text::Text;
use crate::why::command_refusal;
use crate::{CallFault, CallRefusal};
use pp_command::{
    Asked, CommandHelp, CommandKind, OptionForm, ValueForm, Values, asked_of, asks_for_more,
    command_named, mixes_forms, named_file,
};
use std::alloc::Allocator;
use std::marker::Model;

/// What the words of a call have given so far.
#[derive(Drop)]
pub(crate) struct CallWords<'a, A: Allocator> {
    /// Values, each after the name of its option.
    pub(crate) values: Vec<(&'static str, &'a str), A>,
    /// The option whose value is the next word.
    pub(crate) waiting: Option<&'static OptionForm>,
    /// Whether `--` has ended the options.
    pub(crate) ended: bool,
}

impl<'a, A: Allocator> Model for CallWords<'a, A> {
    ghost use Rattle.std.specs.Prelude.{map, option_map};
    ghost use Rattle.pp_call.specs.CallWords.{Given};

    ghost Value = { Given };

    ghost view = { λ words. record {
      values = map (λ pair. (pair.0.now, pair.1.now)) words.values.items;
      waiting = option_map (λ option. option.now.name.now) words.waiting;
      ended = words.ended;
    } };
}

impl<'a, A: Allocator> CallWords<'a, A> {
    /// The value that the words have given to an option, if they have.
    pub(crate) fn given(&self, id: &str) -> Option<&'a str>
        ensures { option_map (λ value. value.now) result ≡ value_among self.now.values id.now }
    {
        for &(name, value) in &self.values {
            if name == id {
                return Some(value);
            }
        }
        None
    }

    /// Takes the value of an option that has none yet.
    fn take_value(&mut self, id: &'static str, value: &'a str) -> Result<(), CallFault>
        ensures taken { OnOk result (with_value self.old id.entry.now value.entry.now
            ≡ given self.new) }
        ensures refused { IfErr result (IsRefusal
            (with_value self.old id.entry.now value.entry.now)) }
    {
        if self.given(id).is_some() {
            return Err(CallFault::Refused);
        }
        if self.values.push((id, value)).is_err() {
            return Err(CallFault::Memory);
        }
        self.waiting.take();
        Ok(())
    }

    /// Takes an option: without a value, with one in its own word, or with one to come.
    fn take_option(
        &mut self,
        option: &'static OptionForm,
        value: Option<&'a str>,
    ) -> Result<(), CallFault>
        ensures taken { OnOk result (with_option self.old option.entry.now.name.now
            (is_flag (rule_of_form option.entry.now).action)
            (option_map (λ value. value.now) value.entry) ≡ given self.new) }
        ensures refused { IfErr result (IsRefusal (with_option self.old option.entry.now.name.now
            (is_flag (rule_of_form option.entry.now).action)
            (option_map (λ value. value.now) value.entry))) }
    {
        match option.value {
            ValueForm::Flag(_) => match value {
                None => self.take_value(option.name, "true"),
                Some(_) => Err(CallFault::Refused),
            },
            _ => match value {
                Some(value) => self.take_value(option.name, value),
                None => {
                    self.waiting = Some(option);
                    Ok(())
                }
            },
        }
    }

    /// Takes a word that is a value, or stands for the input.
    fn take_plain_word(&mut self, id: &'static str, word: &'a str) -> Result<(), CallFault>
        ensures taken { OnOk result (with_plain_word self.old id.entry.now word.entry.now
            ≡ given self.new) }
        ensures refused { IfErr result (IsRefusal
            (with_plain_word self.old id.entry.now word.entry.now)) }
    {
        if is_option(word) {
            return Err(CallFault::Refused);
        }
        self.take_value(id, word)
    }

    #[tactic(auto, unfolding(crate::specs::CallWords::with_word))]
    fn take_word(&mut self, options: &'static [OptionForm], word: &'a str) -> Result<(), CallFault>
        ensures taken { OnOk result (with_word (map rule_of_form options.entry.now) word.entry.now
            self.old ≡ given self.new) }
        ensures refused { IfErr result (IsRefusal (with_word (map rule_of_form options.entry.now)
            word.entry.now self.old)) }
    {
        if self.ended {
            return self.take_value("file", word);
        }
        if word == "--" {
            if self.waiting.is_some() {
                return Err(CallFault::Refused);
            }
            self.ended = true;
            return Ok(());
        }
        if let Some(option) = self.waiting {
            return self.take_plain_word(option.name, word);
        }
        if asks_for_help(word) {
            return Err(CallFault::Help);
        }
        let Some((name, value)) = long_of(word) else {
            return self.take_plain_word("file", word);
        };
        match option_named(options, name) {
            Some(option) => self.take_option(option, value),
            None => Err(CallFault::Refused),
        }
    }

    /// Whether no value is to come, and all options of these are given that have to be.
    fn is_whole(&self, options: &'static [OptionForm]) -> bool
        ensures { result ≡ is_whole (map rule_of_form options.entry.now) self.now }
    {
        if self.waiting.is_some() {
            return false;
        }
        for option in options {
            if option.required && self.given(option.name).is_none() {
                return false;
            }
        }
        true
    }
}

impl<'a, A: Allocator + Copy> CallWords<'a, A> {
    /// Takes the words after a command's name; or says why one is refused, or what lacks.
    fn take_words(
        &mut self,
        alloc: A,
        help: &CommandHelp,
        words: &[&'a str],
    ) -> Result<(), (CallFault, Text<A>)>
        ensures taken { OnOk result (with_given
            (whole (map rule_of_form help.now.form.now.options.now))
            (given_from (map rule_of_form help.now.form.now.options.now) (given self.old)
            (map (λ word. word.now) words.now)) ≡ given self.new.values) }
        ensures refused { IfErr result (λ refusal. IsRefusal (with_given
            (whole (map rule_of_form help.now.form.now.options.now))
            (given_from (map rule_of_form help.now.form.now.options.now) (given self.old)
            (map (λ word. word.now) words.now))) refusal.0) }
    {
        let form = help.form;
        for (place, word) in words.iter().enumerate() {
            if let Err(fault) = self.take_word(form.options, word) {
                let text = match fault {
                    CallFault::Help => command_help(alloc, help, *word == "--help"),
                    _ => command_refusal(alloc, form, self, words, place),
                };
                return Err((fault, text));
            }
        }
        if !self.is_whole(form.options) {
            let text = command_refusal(alloc, form, self, words, words.len());
            return Err((CallFault::Refused, text));
        }
        Ok(())
    }
}

impl<'a, A: Allocator> Values for CallWords<'a, A> {
    ghost value = { λ words. value_among words.values };

    fn value_of<'s>(&'s self, id: &str) -> Option<&'s str> {
        self.given(id)
    }
}

pub(crate) fn option_named(
    options: &'static [OptionForm],
    name: &str,
) -> Option<&'static OptionForm>
    ensures { option_map (λ option. rule_of_form option.now) result
        ≡ option_named (map rule_of_form options.entry.now) name.now }
{
    for option in options {
        if option.name == name {
            return Some(option);
        }
    }
    None
}

/// What words come to, and the text for it; or that memory was refused.
fn reported<A: Allocator + Copy>(fault: CallFault, text: Text<A>) -> CallRefusal<A>
    ensures { IsReportedAs fault result.fault }
{
    let alloc = text.alloc();
    match text.finish() {
        Ok(text) => CallRefusal { fault, text },
        Err(_) => CallRefusal {
            fault: CallFault::Memory,
            text: String::new(alloc),
        },
    }
}

/// Whether help has a page of this name.
pub(crate) fn is_topic(name: &str) -> bool
    ensures { result ≡ is_topic name.now }
{
    name == "help" || command_named(name).is_some()
}

/// What words come to of which the first names no command, and the text for it.
fn without_command<A: Allocator + Copy>(alloc: A, name: &str, more: &[&str]) -> (CallFault, Text<A>)
    ensures { IsRefusal (reading_without_command name.now (map (λ word. word.now) more.now))
        result.0 }
{
    if name == "help" {
        return on_topics(alloc, more);
    }
    if asks_for_help(name) {
        return (CallFault::Help, program_help(alloc, name == "--help"));
    }
    if asks_for_version(name) {
        return (CallFault::Help, version_text(alloc));
    }
    (CallFault::Refused, program_refusal(alloc, Some(name), more))
}

/// What words come to after `help`, and the text for it.
fn on_topics<A: Allocator + Copy>(alloc: A, topics: &[&str]) -> (CallFault, Text<A>)
    ensures { IsRefusal (reading_of_topics (map (λ word. word.now) topics.now)) result.0 }
{
    let Some((topic, more)) = topics.split_first() else {
        return (CallFault::Help, program_help(alloc, true));
    };
    if !more.is_empty() || !is_topic(topic) {
        return (CallFault::Refused, topic_refusal(alloc, topic, more));
    }
    (CallFault::Help, topic_help(alloc, topic))
}

/// Why a command asks for no work, and what is said of it.
fn without_work<V: Values>(kind: CommandKind, values: &V) -> (CallFault, &str)
    ensures { AsksForNone kind (V.value values.now)
        → IsAskRefused kind (V.value values.now) result.0 }
{
    if asks_for_more(kind, values) {
        let said = "ppsim: a picture has at most 2000 turns: give --from and --to\n";
        return (CallFault::Picture, said);
    }
    if mixes_forms(kind, values) {
        let said = "ppsim: give --turns, or --every-order and --states alone\n";
        return (CallFault::Forms, said);
    }
    (CallFault::Number, "ppsim: number out of range\n")
}

/// What a command asks for, and the file to read; or why it asks for no work, and the text for it.
fn asked_by<'a, A: Allocator + Copy>(
    alloc: A,
    kind: CommandKind,
    values: &CallWords<'a, A>,
) -> Result<(Asked<A>, Option<&'a str>), (CallFault, Text<A>)>
    ensures asked { IfOk result (λ read. IsAskedOf kind (value_among values.now.values)
        read.0.work read.0.first.items read.0.until) }
    ensures file { IfOk result (λ read. ReadsFile (value_among values.now.values (codes "file"))
        (option_map (λ file. file.now) read.1)) }
    ensures refused { IfErr result (λ refusal.
        IsAskRefused kind (value_among values.now.values) refusal.0) }
{
    let Ok(found) = asked_of(alloc, kind, values) else {
        return Err((CallFault::Memory, Text::of(alloc, "")));
    };
    match found {
        Some(asked) => Ok((asked, named_file(values.given("file")))),
        None => {
            let (fault, said) = without_work(kind, values);
            Err((fault, Text::of(alloc, said)))
        }
    }
}

/// What the words of a call ask for, and the file to read; or why they ask for no work, and the
/// text for it.
fn read_words<'a, A: Allocator + Copy>(
    alloc: A,
    words: &[&'a str],
) -> Result<(Asked<A>, Option<&'a str>), (CallFault, Text<A>)>
    ensures asked { IfOk result (λ read. CallFor (map (λ word. word.now) words.now)
        read.0.work read.0.first.items read.0.until (option_map (λ file. file.now) read.1)) }
    ensures refused { IfErr result (λ refusal.
        IsCallRefused (map (λ word. word.now) words.now) refusal.0) }
{
    let Some((name, more)) = words.split_first() else {
        return Err((CallFault::Refused, program_refusal(alloc, None, words)));
    };
    let Some(help) = command_named(name) else {
        return Err(without_command(alloc, name, more));
    };
    let mut values = CallWords {
        values: Vec::new(alloc),
        waiting: None,
        ended: false,
    };
    values.take_words(alloc, &help, more)?;
    asked_by(alloc, help.form.kind, &values)
}

/// What the words of a call ask for, and the file to read, if one is named: a command, and in any
/// order its options, each once; a word for the input may stand among them, and is `-` or the name
/// of a file, and behind `--` whatever it is.
pub fn read_call<'a, A: Allocator + Copy>(
    alloc: A,
    words: &[&'a str],
) -> Result<(Asked<A>, Option<&'a str>), CallRefusal<A>>
    ensures asked { IfOk result (λ read. CallFor (map (λ word. word.now) words.now)
        read.0.work read.0.first.items read.0.until (option_map (λ file. file.now) read.1)) }
    ensures refused { IfErr result (λ refusal.
        IsCallRefused (map (λ word. word.now) words.now) refusal.fault) }
{
    match read_words(alloc, words) {
        Ok(read) => Ok(read),
        Err((fault, text)) => Err(reported(fault, text)),
    }
}
