//! The expectation in a line.

ghost use Rattle.std.specs.Prelude.{◌≡◌, ◌≤◌, length, not};
ghost use Rattle.std.specs.List.{position_or_len};
ghost use Rattle.std.specs.Str.Lines.{strip_carriage_return};
ghost use Rattle.pp_deck.specs.DeckText.{is_blank};
ghost use Rattle.pp_test.specs.Expectations.{text_of_line};
ghost use Rattle.pp_test.specs.Reading.{IsRead};

use pp_deck::is_blank;

/// An expectation: its text, from the `*` on, the words after `*=` or `*!`, and which of the two.
#[derive(Clone, Copy)]
pub(crate) struct Expected<'a> {
    pub(crate) text: &'a [u8],
    pub(crate) words: &'a [u8],
    pub(crate) is_wanted: bool,
}

/// The expectation in a line, if it is one.
pub(crate) fn expectation_in(line: &[u8]) -> Option<Expected<'_>>
    ensures { IsRead result line.now }
{
    let text = text_of_line(line);
    if let Some(words) = text.strip_prefix(b"*=") {
        return Some(Expected {
            text,
            words,
            is_wanted: true,
        });
    }
    let words = text.strip_prefix(b"*!")?;
    Some(Expected {
        text,
        words,
        is_wanted: false,
    })
}

/// A line from its first character on that is not blank, without the CR at its end.
fn text_of_line(line: &[u8]) -> &[u8]
    ensures { result.now ≡ text_of_line line.now }
{
    let text = without_return(line);
    &text[blank_count(text)..]
}

/// A line without the CR at its end.
fn without_return(line: &[u8]) -> &[u8]
    ensures { result.now ≡ strip_carriage_return line.now }
{
    line.strip_suffix(b"\r").unwrap_or(line)
}

/// How many characters in front are blank.
fn blank_count(text: &[u8]) -> usize
    ensures is { result ≡ position_or_len (λ byte. not (is_blank byte)) text.now }
    ensures few { result ≤ length text.now }
{
    text.iter()
        .position(|byte| !is_blank(*byte))
        .unwrap_or(text.len())
}
