//! The line that is nearest to an expectation.

ghost use Rattle.std.specs.Prelude.{◌≡◌, ◌≤◌, ◌^◌, bytes_eq, length};
ghost use Rattle.std.specs.List.{slice_split};
ghost use Rattle.pp_deck.specs.DeckText.{fields_of, is_line_feed};
ghost use Rattle.pp_test.specs.Nearest.{in_common, nearest};

use pp_deck::Fields;
use pp_lint::TextLines;

/// The line of a text that has the most words in front in common with these; of several the first.
pub(crate) fn nearest<'a>(words: &[u8], text: &'a [u8]) -> &'a [u8]
    requires { length words.now ≤ 2 ^ 62 }
    ensures { result.now ≡ nearest (fields_of words.now) (slice_split is_line_feed text.now) }
{
    let mut lines = TextLines::of(text);
    let Some(first) = lines.next_line() else {
        return &[];
    };
    let mut best = first;
    let mut most = in_common(words, first);
    while let Some(line) = lines.next_line() {
        let common = in_common(words, line);
        if common > most {
            best = line;
            most = common;
        }
    }
    best
}

/// How many words in front a line has in common with these.
pub(crate) fn in_common(words: &[u8], line: &[u8]) -> u64
    requires { length words.now ≤ 2 ^ 62 }
    ensures { result ≡ in_common (fields_of words.now) line.now }
{
    let mut expected = Fields::of(words);
    let mut found = Fields::of(line);
    let mut count = 0;
    while let Some(word) = expected.next_field() {
        match found.next_field() {
            Some(other) if is_same(word, other) => count += 1,
            _ => return count,
        }
    }
    count
}

fn is_same(word: &[u8], other: &[u8]) -> bool
    ensures { result ≡ bytes_eq word.now other.now }
{
    word == other
}

/// How many words these are.
pub(crate) fn word_count(words: &[u8]) -> u64
    requires { length words.now ≤ 2 ^ 62 }
    ensures { result ≡ length (fields_of words.now) }
{
    let mut fields = Fields::of(words);
    let mut count = 0;
    while let Some(_) = fields.next_field() {
        count += 1;
    }
    count
}
