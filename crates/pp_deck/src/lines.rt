ghost use Rattle.std.specs.Prelude.{◌≡◌, ℕ, List, ◌∷◌, [], IfSome, IfNone, position};
ghost use Rattle.std.specs.Option.{option_map_or};
ghost use Rattle.pp_deck.specs.DeckText.{lines_of};

use crate::Fields;
use std::marker::Model;

/// The lines of a text that are left, from the first to the last. Contracts see the list of them,
/// each as its fields.
#[derive(Drop)]
pub(crate) struct Lines<'a> {
    /// What is left of the text; nothing after the last line.
    text: Option<&'a [u8]>,
}

impl<'a> Model for Lines<'a> {
    ghost Value = { List (List (List ℕ)) };

    ghost view = { λ lines. option_map_or (λ text. lines_of text.now) lines.text [] };
}

impl<'a> Lines<'a> {
    /// The lines of a text.
    pub(crate) fn of(text: &'a [u8]) -> Lines<'a>
        ensures { result ≡ lines_of text.now }
    {
        Lines { text: Some(text) }
    }

    /// The fields of the next line, if there is one.
    pub(crate) fn next_line(&mut self) -> Option<Fields<'a>>
        ensures taken { IfSome result (λ fields. self.old ≡ fields ∷ self.new) }
        ensures none { IfNone result (self.old ≡ []) }
    {
        let text = self.text?;
        match text.iter().position(|byte| *byte == b'\n') {
            Some(end) => {
                self.text = Some(&text[end + 1..]);
                Some(Fields::of(&text[..end]))
            }
            None => {
                self.text = None;
                Some(Fields::of(text))
            }
        }
    }
}
