ghost use Rattle.std.specs.Prelude.{◌≡◌, ◌∷◌, [], IfNone, IfSome};

use std::marker::Model;

/// The lines of a text that are left, from the first to the last. Contracts see the list of them.
#[derive(Drop)]
pub struct TextLines<'a> {
    /// What is left of the text; nothing after the last line.
    text: Option<&'a [u8]>,
}

impl<'a> Model for TextLines<'a> {
    ghost use Rattle.std.specs.Prelude.{ℕ, List, []};
    ghost use Rattle.std.specs.List.{slice_split};
    ghost use Rattle.std.specs.Option.{option_map_or};
    ghost use Rattle.pp_deck.specs.DeckText.{is_line_feed};

    ghost Value = { List (List ℕ) };

    ghost view = { λ lines. option_map_or (λ text. slice_split is_line_feed text.now)
        lines.text [] };
}

impl<'a> TextLines<'a> {
    ghost use Rattle.std.specs.List.{slice_split};
    ghost use Rattle.pp_deck.specs.DeckText.{is_line_feed};

    /// The lines of a text.
    pub fn of(text: &'a [u8]) -> TextLines<'a>
        ensures { result ≡ slice_split is_line_feed text.now }
    {
        TextLines { text: Some(text) }
    }

    /// The next line, if there is one.
    pub fn next_line(&mut self) -> Option<&'a [u8]>
        ensures taken { IfSome result (λ line. self.old ≡ line.now ∷ self.new) }
        ensures none { IfNone result (self.old ≡ []) }
        ensures ended { IfNone result (self.new ≡ []) }
    {
        let text = self.text?;
        match text.iter().position(|byte| *byte == b'\n') {
            Some(end) => {
                self.text = Some(&text[end + 1..]);
                Some(&text[..end])
            }
            None => {
                self.text = None;
                Some(text)
            }
        }
    }
}
