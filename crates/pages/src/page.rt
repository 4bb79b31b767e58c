//! The cases that a page shows.

use crate::ending::{Ending, status_in};
use crate::escapes::text_of;
use std::alloc::Global;

/// A command with all that the page says of it.
#[derive(Drop)]
pub struct Case {
    /// The heading that it stands under.
    pub heading: String,
    pub command: String,
    /// The text that stands in place of `{}`, or is the whole input.
    pub text: Option<String>,
    /// Whether the page shows no more than some lines of the output.
    pub is_part: bool,
    /// It ends in one of these ways.
    pub endings: Vec<Ending>,
}

impl Case {
    fn new(alloc: Global, heading: &str, command: &str, is_part: bool) -> anyhow::Result<Case> {
        Ok(Case {
            heading: heading.to_string(alloc)?,
            command: command.to_string(alloc)?,
            text: None,
            is_part,
            endings: vec![in alloc; Ending::new(alloc)]?,
        })
    }

    /// Takes a text, and what comes of it: an output, if there is one, and a status.
    fn take_text(&mut self, text: &str, shown: &str, status: u8) -> anyhow::Result<()> {
        let alloc = *self.endings.allocator();
        self.text = Some(text.to_string(alloc)?);
        if let Some(ending) = self.endings.last_mut() {
            if !shown.is_empty() {
                ending.add(text_of(alloc, shown)?.as_str())?;
            }
            ending.status = status;
        }
        Ok(())
    }
}

/// The block of a page in which a line stands.
#[derive(Clone, Copy)]
enum Block<'a> {
    /// Text, or a block that shows no command.
    Other,
    Console,
    /// A command may end in several ways.
    Either,
    /// Lines that are in the output, and texts that are not.
    Lines,
    /// Of each of these commands a line is a case.
    Each(&'a str),
}

/// The cases of a page, in order.
pub fn cases_of(alloc: Global, page: &str) -> anyhow::Result<Vec<Case>> {
    let mut cases: Vec<Case> = Vec::new(alloc);
    let mut block = Block::Other;
    let mut is_inside = false;
    let mut heading = String::new(alloc);
    for line in page.lines() {
        if let Some(kind) = line.strip_prefix("```") {
            is_inside = !is_inside;
            block = block_of(kind);
        } else if is_inside {
            add_line(alloc, &mut cases, block, &heading, line)?;
        } else if line.starts_with("#") {
            heading = line.trim_start_matches('#').trim_start().to_string(alloc)?;
        }
    }
    Ok(cases)
}

fn block_of(kind: &str) -> Block<'_> {
    match kind {
        "console" => Block::Console,
        "either" => Block::Either,
        "lines" => Block::Lines,
        _ => match kind.strip_prefix("each ") {
            Some(commands) => Block::Each(commands),
            None => Block::Other,
        },
    }
}

/// Adds a line of a block.
fn add_line(
    alloc: Global,
    cases: &mut Vec<Case>,
    block: Block<'_>,
    heading: &str,
    line: &str,
) -> anyhow::Result<()> {
    match block {
        Block::Other => Ok(()),
        Block::Each(commands) => add_cases(alloc, cases, commands, heading, line),
        Block::Console | Block::Either | Block::Lines => {
            if let Some(command) = line.strip_prefix("$ ") {
                let is_part = matches!(block, Block::Lines);
                cases.push(Case::new(alloc, heading, command, is_part)?)?;
                return Ok(());
            }
            let Some(case) = cases.last_mut() else {
                return Ok(());
            };
            if matches!(block, Block::Either) && line == "or" {
                case.endings.push(Ending::new(alloc))?;
            } else if let Some(ending) = case.endings.last_mut() {
                ending.add(line)?;
            }
            Ok(())
        }
    }
}

/// Adds a line of a block `each` as a case of each of the commands: a text, and after two blanks
/// what comes of it.
fn add_cases(
    alloc: Global,
    cases: &mut Vec<Case>,
    commands: &str,
    heading: &str,
    line: &str,
) -> anyhow::Result<()> {
    if line.is_empty() {
        return Ok(());
    }
    let (commands, status) = match commands.rsplit_once(" ") {
        Some((words, last)) => match status_in(last) {
            Some(status) => (words, status),
            None => (commands, 0),
        },
        None => (commands, 0),
    };
    let (text, shown) = line.split_once("  ").unwrap_or((line, ""));
    let (status_of_text, shown) = parted(shown.trim_start());
    let status = if shown.starts_with("!") {
        status
    } else {
        status_of_text
    };
    for command in commands.split(" and ") {
        cases.push(Case::new(alloc, heading, command, false)?)?;
        if let Some(case) = cases.last_mut() {
            case.take_text(text, shown, status)?;
        }
    }
    Ok(())
}

/// The status that is said of an output, as in `[1] 2:11 wrong digits: 8`, or 0; and the output.
fn parted(shown: &str) -> (u8, &str) {
    let Some((first, text)) = shown.split_once(" ") else {
        return (0, shown);
    };
    match status_in(first) {
        Some(status) => (status, text),
        None => (0, shown),
    }
}

/// The lines of a page that run the program on an example, as in
/// `(cd FOLDER && rt try -- WORDS < PATH/NAME)`, each as `ppsim WORDS < NAME`.
pub fn first_runs(alloc: Global, page: &str) -> anyhow::Result<Vec<String>> {
    let mut all = Vec::new(alloc);
    for line in page.lines() {
        if let Some((words, name)) = first_run(line) {
            all.push(format!(in alloc; "ppsim {words} < {name}")?)?;
        }
    }
    Ok(all)
}

fn first_run(line: &str) -> Option<(&str, &str)> {
    let inner = line.strip_prefix("(cd ")?.strip_suffix(")")?;
    let (_, run) = inner.split_once(" -- ")?;
    let (words, path) = run.split_once(" < ")?;
    let (_, name) = path.rsplit_once("/")?;
    Some((words, name))
}
