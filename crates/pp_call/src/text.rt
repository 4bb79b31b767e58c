//! A text that grows.

use pp_command::OptionForm;
use std::alloc::{AllocError, Allocator};

/// A text that grows. Once a growth is refused, what is said after is lost, and `finish` says so.
#[derive(Drop)]
pub(crate) struct Text<A: Allocator> {
    said: String<A>,
    is_refused: bool,
}

impl<A: Allocator + Copy> Text<A> {
    /// A text that begins with this piece.
    pub(crate) fn of(alloc: A, piece: &str) -> Text<A> {
        let mut text = Text {
            said: String::new(alloc),
            is_refused: false,
        };
        text.say(piece);
        text
    }

    pub(crate) fn say(&mut self, piece: &str) {
        self.is_refused = self.is_refused || self.said.push_str(piece).is_err();
    }

    /// Says a piece with this word in place of each `@`.
    pub(crate) fn say_with(&mut self, piece: &str, word: &str) {
        for (place, part) in piece.split('@').enumerate() {
            if place > 0 {
                self.say(word);
            }
            self.say(part);
        }
    }

    /// Says a piece, and an option as it stands on a command line.
    pub(crate) fn say_option(&mut self, piece: &str, option: &OptionForm) {
        self.say(piece);
        self.is_refused = self.is_refused || write!(self.said, "{option}").is_err();
    }

    /// What it grows in.
    pub(crate) fn alloc(&self) -> A {
        *self.said.allocator()
    }

    /// Loses what is said after, as a growth was refused.
    pub(crate) fn refuse(&mut self) {
        self.is_refused = true;
    }

    pub(crate) fn finish(self) -> Result<String<A>, AllocError> {
        if self.is_refused {
            return Err(AllocError);
        }
        Ok(self.said)
    }
}
