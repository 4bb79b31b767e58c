//! A session at a terminal: the files that a page shows, and the commands that are run on them.

use crate::ending::Ending;
use crate::escapes::{bytes_of, text_of};
use crate::page::Case;
use pp_sim::run_program;
use std::alloc::Global;
use std::fs::{self, Files};
use std::sync::Wait;
use std::thread::Threads;

#[derive(Drop)]
struct File {
    name: String,
    text: String,
}

/// The files of a page, and the folder in which it stands.
#[derive(Drop)]
pub struct Session {
    folder: String,
    files: Vec<File>,
}

impl Session {
    /// A session in the folder of this page.
    pub fn new(alloc: Global, page: &str) -> anyhow::Result<Self> {
        let folder = match page.rsplit_once("/") {
            Some((folder, _)) => format!(in alloc; "{folder}/")?,
            None => String::new(alloc),
        };
        Ok(Session {
            folder,
            files: Vec::new(alloc),
        })
    }

    /// Runs a case: what is not as the page has it, if anything is. `cat` writes the file that the
    /// page shows.
    pub fn run<R: Files + Alloc<A = Global> + Threads + Wait + Sync>(
        &mut self,
        rt: &R,
        case: &Case,
    ) -> anyhow::Result<Option<String>> {
        let command = case.command.as_str();
        if let Some(name) = command.strip_prefix("cat ") {
            self.write(rt.alloc(), name, case)?;
            return Ok(None);
        }
        if !command.starts_with("ppsim") {
            return Ok(Some("no such command".to_string(rt.alloc())?));
        }
        let (call, shown) = match command.rsplit_once(" > ") {
            Some((call, name)) => (call, Some(self.read(rt, name)?)),
            None => (command, None),
        };
        let printed = self.ending(rt, call, case)?;
        if let Some(output) = shown {
            let mut page = Ending::new(rt.alloc());
            page.output.push_str(output.as_str())?;
            return printed.difference(rt.alloc(), &page);
        }
        differs_from_all(rt.alloc(), &printed, case)
    }

    fn write(&mut self, alloc: Global, name: &str, case: &Case) -> anyhow::Result<()> {
        let name = name.to_string(alloc)?;
        let mut text = String::new(alloc);
        for ending in case.endings.iter() {
            text.push_str(ending.output.as_str())?;
        }
        self.files.push(File { name, text })?;
        Ok(())
    }

    /// The text of the last file of this name that the page shows, or else of the file that lies
    /// beside the page.
    fn read<R: Files + Alloc<A = Global>>(&self, rt: &R, name: &str) -> anyhow::Result<String> {
        for file in self.files.iter().rev() {
            if file.name.as_str() == name {
                return Ok(file.text.as_str().to_string(rt.alloc())?);
            }
        }
        let path = format!(in rt.alloc(); "{}{name}", self.folder)?;
        Ok(String::from_utf8(fs::read(rt, path.as_str())?)?)
    }

    /// How a call of the program ends.
    fn ending<R: Files + Alloc<A = Global> + Threads + Wait + Sync>(
        &self,
        rt: &R,
        call: &str,
        case: &Case,
    ) -> anyhow::Result<Ending> {
        let alloc = rt.alloc();
        let text = match &case.text {
            Some(text) => text.as_str(),
            None => "",
        };
        let (line, deck) = match call.split_once(" < ") {
            Some((line, name)) => (line, self.read(rt, name)?),
            None if call.contains("{}") => (call, String::new(alloc)),
            None => (call, "{}".to_string(alloc)?),
        };
        let words = words_of(alloc, &filled(alloc, line, text)?)?;
        let input = bytes_of(alloc, filled(alloc, &deck, text)?.as_str())?;
        ending_of(rt, &words, &input)
    }
}

/// A text in which another stands in place of `{}`.
fn filled(alloc: Global, form: &str, text: &str) -> anyhow::Result<String> {
    match form.split_once("{}") {
        Some((front, behind)) => Ok(format!(in alloc; "{front}{text}{behind}")?),
        None => Ok(form.to_string(alloc)?),
    }
}

/// The words of a command line. What stands between two quotes is one word.
fn words_of(alloc: Global, line: &str) -> anyhow::Result<Vec<String>> {
    let mut words = Vec::new(alloc);
    let mut is_quoted = false;
    for piece in line.split('\'') {
        if is_quoted {
            words.push(text_of(alloc, piece)?)?;
        } else {
            for word in piece.split_whitespace() {
                words.push(text_of(alloc, word)?)?;
            }
        }
        is_quoted = !is_quoted;
    }
    Ok(words)
}

/// How the program ends on these words and this input.
fn ending_of<R: Files + Alloc<A = Global> + Threads + Wait + Sync>(
    rt: &R,
    words: &Vec<String>,
    mut input: &[u8],
) -> anyhow::Result<Ending> {
    let alloc = rt.alloc();
    let mut given = Vec::new(alloc);
    for word in words.iter() {
        given.push(word.as_str())?;
    }
    let mut output = Vec::new(alloc);
    let mut error = Vec::new(alloc);
    let status = run_program(rt, alloc, &given, &mut input, &mut output, &mut error);
    Ok(Ending {
        output: String::from_utf8(output)?,
        error: String::from_utf8(error)?,
        status,
    })
}

/// What differs from the first way in which a case may end, if it ends in none of them.
fn differs_from_all(
    alloc: Global,
    printed: &Ending,
    case: &Case,
) -> anyhow::Result<Option<String>> {
    let mut first = None;
    for ending in case.endings.iter() {
        let difference = if case.is_part {
            printed.lack(alloc, ending)?
        } else {
            printed.difference(alloc, ending)?
        };
        if difference.is_none() {
            return Ok(None);
        }
        if first.is_none() {
            first = difference;
        }
    }
    Ok(first)
}
