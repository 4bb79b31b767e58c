ghost use Rattle.std.specs.Prelude.{◌≡◌, ◌≢◌, ◌<◌, ◌↔◌, ℕ, List, IsNone, IsSome, length, replicate, slice_set, IsTrue, IsErrOf, IfOk, OnOk, slice_get};
ghost use Rattle.std.specs.Bool.{OnFalse};
ghost use Rattle.pp_machine.specs.Central.{IsCentral, IsCentralSize};
ghost use Rattle.pp_machine.specs.declared.central.CentralFault.{CentralFault};

use pp_word::{MOST_CENTRAL_WORDS, Word18, Word60};
use std::alloc::{AllocError, AllocFailed, Allocator};
use std::marker::Model;
use thiserror::Error;

/// Why no central memory was made.
#[derive(Clone, Copy, Debug, PartialEq, Eq, Error)]
pub enum CentralFault {
    /// An allocation was refused.
    #[error("out of memory")]
    Memory = 1,
    /// The size is 0 or past 400000 (octal). Reported before `Memory`.
    #[error("central size out of range")]
    BadSize = 2,
}

impl From<AllocError> for CentralFault {
    ghost from_gives = { λ _ fault. fault ≡ CentralFault.Memory };

    fn from(_error: AllocError) -> CentralFault {
        CentralFault::Memory
    }
}

impl<T: Drop> From<AllocFailed<T>> for CentralFault {
    ghost from_gives = { λ _ fault. fault ≡ CentralFault.Memory };

    fn from(_error: AllocFailed<T>) -> CentralFault {
        CentralFault::Memory
    }
}

/// The shared central memory: words of 60 bits. Contracts see the list of its words, by address.
#[derive(Drop)]
pub struct Central<A: Allocator> {
    words: Vec<Word60, A>,
}

impl<A: Allocator> Model for Central<A> {
    ghost Value = { List ℕ };

    ghost view = { λ c. c.words.items };

    ghost invariant = { λ c. IsCentral c.words.items };
}

impl<A: Allocator> Central<A> {
    /// Central memory of `size` words, all 0.
    pub fn new(alloc: A, size: u32) -> Result<Self, CentralFault>
        ensures zeros { IfOk result (λ c. c ≡ replicate size 0) }
        ensures sized { OnOk result (IsCentralSize size) }
        ensures sound { IfOk result IsCentral }
        ensures bad_size { IsErrOf result CentralFault.BadSize ↔ ¬ IsCentralSize size }
    {
        if size == 0 || size > MOST_CENTRAL_WORDS {
            return Err(CentralFault::BadSize);
        }
        let words = vec![in alloc; Word60::ZERO; size as usize]?;
        Ok(Central { words })
    }

    /// The word at an address, or nothing at or past the size.
    pub fn read(&self, a: Word18) -> Option<Word60>
        ensures { result ≡ slice_get self.now a }
    {
        self.words.get(a.get() as usize).copied()
    }

    /// Writes the word at an address; at or past the size it returns false, and nothing changes.
    pub fn write(&mut self, a: Word18, w: Word60) -> bool
        ensures within { IsTrue result ↔ (a < length self.old) }
        ensures written { self.new ≡ slice_set self.old a w }
        ensures refused { OnFalse result (self.new ≡ self.old) }
        ensures sound { IsCentral self.new }
    {
        // Reveals to the proof that the word has sixty bits.
        let _small = w.get();
        let Some(word) = self.words.get_mut(a.get() as usize) else {
            return false;
        };
        *word = w;
        true
    }

    /// The first address at which two central memories differ; address 0 if their sizes differ.
    pub fn first_difference(&self, other: &Central<A>) -> Option<Word18>
        ensures same { IsNone result → self.now ≡ other.now }
        ensures differ { IsSome result → self.now ≢ other.now }
    {
        let size = self.size();
        if other.size() != size {
            return Some(Word18::ZERO);
        }
        for number in 0..size {
            if self.words[number as usize] != other.words[number as usize] {
                return Some(Word18::truncated(number));
            }
        }
        None
    }

    /// Its words, by address.
    pub fn words(&self) -> &[Word60]
        ensures value { result.now ≡ self.now }
        ensures sound { IsCentral self.now }
    {
        self.words.as_slice()
    }

    /// How many words it has (decimal).
    pub fn size(&self) -> u32
        ensures value { result ≡ length self.now }
        ensures sound { IsCentral self.now }
    {
        self.words.len() as u32
    }
}
