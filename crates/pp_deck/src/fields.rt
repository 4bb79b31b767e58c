ghost use Rattle.std.specs.Prelude.{◌≡◌, ℕ, List, ◌∷◌, [], not, IfSome, IfNone, position};
ghost use Rattle.std.specs.List.{position_or_len};
ghost use Rattle.pp_deck.specs.DeckText.{fields_in, fields_of, is_blank};

use std::marker::Model;

/// The fields of a line that are left, from left to right. Contracts see the list of them. Traces
/// are read by them too.
#[derive(Drop)]
pub struct Fields<'a> {
    text: &'a [u8],
}

impl<'a> Model for Fields<'a> {
    ghost Value = { List (List ℕ) };

    ghost view = { λ fields. fields_in fields.text.now };
}

impl<'a> Fields<'a> {
    /// The fields of a line.
    pub fn of(line: &'a [u8]) -> Fields<'a>
        ensures { result ≡ fields_of line.now }
    {
        let text = line.strip_suffix(b"\r").unwrap_or(line);
        Fields { text }
    }

    /// The next field, if there is one.
    pub fn next_field(&mut self) -> Option<&'a [u8]>
        ensures taken { IfSome result (λ field. self.old ≡ field.now ∷ self.new) }
        ensures none { IfNone result (self.old ≡ []) }
    {
        let start = first_character(self.text)?;
        let text = &self.text[start..];
        if text[0] == b'*' {
            return None;
        }
        let (field, rest) = text.split_at(field_length(text));
        self.text = rest;
        Some(field)
    }
}

/// Whether a character stands between fields: a space or a tab.
pub fn is_blank(byte: u8) -> bool
    ensures { result ≡ is_blank byte }
{
    byte == b' ' || byte == b'\t'
}

/// The place of the first character that is not blank.
fn first_character(text: &[u8]) -> Option<usize>
    ensures { result ≡ position (λ byte. not (is_blank byte)) text.now }
{
    text.iter().position(|byte| !is_blank(*byte))
}

/// The number of characters before the first blank.
fn field_length(text: &[u8]) -> usize
    ensures { result ≡ position_or_len is_blank text.now }
{
    text.iter()
        .position(|byte| is_blank(*byte))
        .unwrap_or(text.len())
}
