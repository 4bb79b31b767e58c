//! How a command ends: what it writes, and its status.

use std::alloc::Global;

/// The text on standard output, the text on standard error, and the status.
#[derive(Drop)]
pub struct Ending {
    pub output: String,
    pub error: String,
    pub status: u8,
}

impl Ending {
    /// Nothing is written, and the status is 0.
    pub fn new(alloc: Global) -> Self {
        Ending {
            output: String::new(alloc),
            error: String::new(alloc),
            status: 0,
        }
    }

    /// Adds a line of a page: of standard error after a `!`, a status in brackets, or of output.
    pub fn add(&mut self, line: &str) -> anyhow::Result<()> {
        if let Some(text) = line.strip_prefix("!") {
            push_line(&mut self.error, text.strip_prefix(" ").unwrap_or(text))
        } else if let Some(status) = status_in(line) {
            self.status = status;
            Ok(())
        } else {
            push_line(&mut self.output, line)
        }
    }

    /// The first line of this ending that is not as the page has it, and the page's.
    pub fn difference(&self, alloc: Global, page: &Ending) -> anyhow::Result<Option<String>> {
        if let Some(lines) = first_difference(alloc, &self.error, &page.error)? {
            return Ok(Some(format!(in alloc; "on standard error {lines}")?));
        }
        if let Some(lines) = first_difference(alloc, &self.output, &page.output)? {
            return Ok(Some(lines));
        }
        self.other_status(alloc, page)
    }

    /// The status, if the page has another.
    fn other_status(&self, alloc: Global, page: &Ending) -> anyhow::Result<Option<String>> {
        let (status, shown) = (self.status, page.status);
        if status == shown {
            return Ok(None);
        }
        Ok(Some(format!(in alloc; "[{status}], on the page [{shown}]")?))
    }

    /// The first line of output on a page that this output lacks, or else what it has and should
    /// not: the page has that after a `!`.
    pub fn lack(&self, alloc: Global, page: &Ending) -> anyhow::Result<Option<String>> {
        for line in page.output.lines() {
            if !self.output.lines().any(|other| other == line) {
                return Ok(Some(format!(in alloc; "no line '{line}'")?));
            }
        }
        for text in page.error.lines() {
            if self.output.contains(text) {
                return Ok(Some(format!(in alloc; "'{text}', which may not be there")?));
            }
        }
        self.other_status(alloc, page)
    }
}

fn push_line(text: &mut String, line: &str) -> anyhow::Result<()> {
    text.push_str(line)?;
    text.push('\n')?;
    Ok(())
}

/// The status in a line like `[1]`.
pub fn status_in(line: &str) -> Option<u8> {
    line.strip_prefix("[")?
        .strip_suffix("]")?
        .parse::<u8>()
        .ok()
}

/// The first line that differs, and the page's, if any does.
fn first_difference(alloc: Global, printed: &str, page: &str) -> anyhow::Result<Option<String>> {
    let mut shown = page.split('\n');
    for line in printed.split('\n') {
        match shown.next() {
            Some(other) if other == line => {}
            Some(other) => {
                return Ok(Some(format!(in alloc; "'{line}', on the page '{other}'")?));
            }
            None => return Ok(Some(format!(in alloc; "'{line}', past the page's end")?)),
        }
    }
    match shown.next() {
        Some(other) => Ok(Some(format!(in alloc; "the end, on the page '{other}'")?)),
        None => Ok(None),
    }
}
