ghost use Rattle.std.specs.Prelude.{◌≡◌, slice_index};

use pp_machine::Central;
use pp_word::{Word18, Word60};
use std::alloc::Allocator;

/// The central word at an address, which is 0 at or past the size.
pub fn central_word<A: Allocator>(central: &Central<A>, address: Word18) -> u64
    ensures { result ≡ slice_index central.now address }
{
    central.read(address).unwrap_or(Word60::ZERO).get()
}
