ghost use Rattle.std.specs.Prelude.{◌≡◌, ◌≢◌, ℕ, List, IsNone, IsSome, slice_index, slice_set};
ghost use Rattle.pp_processor.specs.PpMemory.{IsMemory, empty_memory};

use pp_word::{PLACES, Word12};
use std::marker::Model;

/// The 4096 (decimal) words of a processor's memory. Contracts see a list of numbers, from 0000 on.
#[derive(Drop)]
pub struct PpMemory {
    words: [Word12; PLACES as usize],
}

impl Model for PpMemory {
    ghost Value = { List ℕ };

    ghost view = { λ m. m.words };

    ghost invariant = { λ m. IsMemory m.words };
}

impl PpMemory {
    /// A memory in which each word is 0.
    #[tactic(auto, unfolding(crate::specs::PpMemory::empty_memory))]
    pub fn new() -> Self
        ensures { result ≡ empty_memory }
    {
        PpMemory {
            words: [Word12::ZERO; PLACES as usize],
        }
    }

    /// The word at a place.
    pub fn get(&self, place: Word12) -> Word12
        ensures { result ≡ slice_index self.now place }
    {
        self.words[usize::from(place.get())]
    }

    /// Sets the word at a place.
    pub fn set(&mut self, place: Word12, word: Word12)
        ensures { self.new ≡ slice_set self.old place word }
    {
        // Reveals to the proof that the word has twelve bits.
        let _in_range = word.get();
        self.words[usize::from(place.get())] = word;
    }

    /// A memory of the same words.
    pub fn copy(&self) -> Self
        ensures { result ≡ self.now }
    {
        PpMemory { words: self.words }
    }

    /// The first place at which two memories differ.
    pub fn first_difference(&self, other: &PpMemory) -> Option<Word12>
        ensures same { IsNone result → self.now ≡ other.now }
        ensures differ { IsSome result → self.now ≢ other.now }
    {
        self.has_widths();
        other.has_widths();
        for number in 0..PLACES {
            let place = Word12::truncated(number);
            if self.get(place).get() != other.get(place).get() {
                return Some(place);
            }
        }
        None
    }

    /// What is true of each memory.
    pub fn has_widths(&self)
        ensures { IsMemory self.now }
    {
        // Reveals to the proof that there are 4096 words, of twelve bits each.
        let _words = &self.words;
    }
}
