ghost use Rattle.std.specs.Prelude.{◌≡◌, ◌<◌, ◌≤◌, ◌+◌, ◌*◌, ◌↔◌, ℕ, List, length, vec_len, IsNone, IsTrue, IfOk, IfSome, slice_index, slice_set};
ghost use Rattle.pp_machine.specs.Central.{IsCentralSize};
ghost use Rattle.pp_runner.specs.Banks.{StandsAt};

use pp_channel::Memory;
use pp_machine::Central;
use pp_word::{Word18, Word60};
use std::alloc::Allocator;
use std::marker::Model;
use std::sync::{Mutex, Wait};

/// The number of banks (decimal). The low five bits of an address choose one.
const BANKS: usize = 32;

/// The number of words in a bank (decimal), whatever the size of central memory.
const BANK_WORDS: usize = 4096;

/// The length of a bank's padding: with its lock a bank takes at least 128 bytes, so that no two
/// banks share a cache line.
const APART: usize = 12;

/// One bank. Contracts see the list of its words, by place.
#[derive(Drop)]
struct Bank<A: Allocator> {
    words: Vec<Word60, A>,
    /// Keeps it apart from the next bank.
    _apart: [u64; APART],
}

impl<A: Allocator> Model for Bank<A> {
    ghost Value = { List ℕ };

    ghost view = { λ b. b.words.items };

    ghost invariant = { λ b. length b.words.items ≡ 4096 };
}

impl<A: Allocator> Bank<A> {
    /// The words of central memory that stand in this bank.
    fn of(alloc: A, central: &Central<A>, bank: usize) -> Result<Self, Memory>
        requires { bank < 32 }
        ensures { IfOk result (λ words. (place : ℕ) → place < 4096
            → slice_index words place ≡ slice_index central.now (32 * place + bank)) }
    {
        let mut words = vec![in alloc; Word60::ZERO; BANK_WORDS]?;
        for place in 0..BANK_WORDS {
            let address = Word18::truncated((place * BANKS + bank) as u32);
            words[place] = central.read(address).unwrap_or(Word60::ZERO);
        }
        Ok(Bank {
            words,
            _apart: [0; APART],
        })
    }

    /// The word at a place.
    fn get(&self, place: usize) -> Word60
        requires { place < 4096 }
        ensures { result ≡ slice_index self.now place }
    {
        self.words[place]
    }

    /// Writes the word at a place.
    fn set(&mut self, place: usize, word: Word60)
        requires { place < 4096 }
        ensures { self.new ≡ slice_set self.old place word }
    {
        self.words[place] = word;
    }
}

/// Central memory in banks, a lock each, which no run uses. Contracts see only its size: other
/// threads may change its words at any time.
#[derive(Drop)]
pub struct LockedCentral<A: Allocator> {
    banks: Vec<Mutex<Bank<A>>, A>,
    size: u32,
}

impl<A: Allocator> Model for LockedCentral<A> {
    ghost Value = { ℕ };

    ghost view = { λ c. c.size };

    ghost invariant = { λ c. (vec_len c.banks ≡ 32) × IsCentralSize c.size };
}

impl<A: Allocator + Copy> LockedCentral<A> {
    /// The words of a central memory.
    pub fn new(alloc: A, central: &Central<A>) -> Result<Self, Memory>
        ensures { IfOk result (λ c. c ≡ length central.now) }
    {
        let mut banks = Vec::with_capacity(alloc, BANKS)?;
        for bank in 0..BANKS {
            banks.push_reserved(Mutex::new(Bank::of(alloc, central, bank)?));
        }
        Ok(LockedCentral {
            banks,
            size: central.size(),
        })
    }
}

impl<A: Allocator> LockedCentral<A> {
    /// In which bank the word of an address stands, and at which place there; or nothing at or past
    /// the size.
    fn locate(&self, a: Word18) -> Option<(usize, usize)>
        ensures exists { IsNone result ↔ (self.now ≤ a) }
        ensures stands { IfSome result (λ found. StandsAt a found.0 found.1) }
    {
        let address = a.get() as usize;
        (a.get() < self.size).then_some((address % BANKS, address / BANKS))
    }

    /// The word at an address, or nothing at or past the size.
    pub fn read(&self, rt: &impl Wait, a: Word18) -> Option<Word60>
        ensures { IsNone result ↔ (self.now ≤ a) }
    {
        let (bank, place) = self.locate(a)?;
        Some(self.banks[bank].lock(rt).get(place))
    }

    /// Writes the word at an address; at or past the size it returns false, and writes nothing.
    pub fn write(&self, rt: &impl Wait, a: Word18, w: Word60) -> bool
        ensures { IsTrue result ↔ (a < self.now) }
    {
        let Some((bank, place)) = self.locate(a) else {
            return false;
        };
        self.banks[bank].lock(rt).set(place, w);
        true
    }

    /// The number of its words (decimal).
    pub fn size(&self) -> u32
        ensures { result ≡ self.now }
    {
        self.size
    }
}
