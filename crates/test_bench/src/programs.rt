//! Programs as lists of words.

use crate::word;
use pp_machine::Pp;
use pp_word::{Word18, next};

/// Puts words from a place on.
pub fn put_words(pp: &mut Pp, place: u16, words: &[u16]) {
    let mut place = word(place);
    for number in words {
        pp.set(place, word(*number));
        place = next(place);
    }
}

/// Puts a program from a place on, and starts it there with A = 0.
pub fn put_program(pp: &mut Pp, place: u16, words: &[u16]) {
    put_words(pp, place, words);
    pp.start(word(place), Word18::ZERO);
}
