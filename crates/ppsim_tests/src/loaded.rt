//! The machine of a deck.

use pp_deck::read_deck;
use pp_machine::{Machine, Profile};
use std::alloc::Allocator;
use std::process::Abort;

/// The machine that a deck loads, which has to be without fault.
pub(crate) fn loaded<A: Allocator + Copy>(
    rt: &impl Abort,
    alloc: A,
    profile: Profile,
    deck: &str,
) -> Machine<A> {
    read_deck(alloc, profile, deck.as_bytes())
        .expect(rt, "a deck")
        .machine
}
